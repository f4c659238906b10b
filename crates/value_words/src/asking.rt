//! What is known of a terminal that asks for a cryptogram. Terminal verification results and action codes
//! are numbers of 40 bits, the first byte the highest.
ghost use Rattle.std.specs.Prelude.{◌≡◌};
ghost use Rattle.value_words.specs.Codes.{reach_of};

use emv_dict::Kind;

/// Where a terminal may decide (EMV 4.3 Book 4 Annex A1).
#[derive(Clone, Copy, PartialEq, Eq, Debug)]
pub enum Reach {
    /// Online only.
    OnlineOnly,
    /// Offline, with online capability.
    Both,
    /// Offline only.
    OfflineOnly,
}

/// Where a terminal of this type may decide, by the two digits of the type; `None` for a type that is no
/// merchant's.
pub fn reach_of(kind: u8) -> Option<Reach>
    ensures { result ≡ reach_of kind }
{
    match kind {
        21 | 24 => Some(Reach::OnlineOnly),
        22 | 25 => Some(Reach::Both),
        23 | 26 => Some(Reach::OfflineOnly),
        _ => None,
    }
}

/// What a terminal has for an application: where it may decide, and its action codes.
#[derive(Clone, Copy, PartialEq, Eq, Debug)]
pub struct Row {
    pub reach: Reach,
    pub denial: u64,
    pub online: u64,
    pub default: u64,
}

/// The action codes of the card, each where the card gave it.
#[derive(Clone, Copy, PartialEq, Eq, Debug)]
pub struct CardCodes {
    pub denial: Option<u64>,
    pub online: Option<u64>,
    pub default: Option<u64>,
}

/// A terminal that asks for a cryptogram.
#[derive(Clone, Copy)]
pub struct Asking {
    /// The kind that it asks for.
    pub asked: Kind,
    /// Whether it asks for the second time.
    pub second: bool,
    /// Whether a reply of the issuer was read before.
    pub replied: bool,
    /// The terminal verification results, where they were sent.
    pub results: Option<u64>,
    /// The card's action codes.
    pub card: CardCodes,
    /// What the terminal has, where it is known.
    pub row: Option<Row>,
}
