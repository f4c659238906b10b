//! The reason.
ghost use Rattle.std.specs.Prelude.{◌≡◌};
ghost use Rattle.value_words.specs.Reasons as spec;

use crate::asking::{Asking, Reach, Row};
use emv_dict::Kind;

/// Why a terminal asked for a kind of cryptogram. Bits are those of the terminal verification results.
#[derive(Clone, Copy, PartialEq, Eq, Debug)]
pub enum Reason {
    /// The issuer's response code.
    Issuer,
    /// No list had the terminal verification results, so that nothing is known.
    NoResults,
    /// A denial code has these bits.
    Denied(u64),
    /// The terminal is offline only, and a default code has these bits.
    OfflineDefault(u64),
    /// The terminal's denial code has a bit, or the terminal is offline only and a default code has these
    /// bits, or one.
    TerminalDenial(u64),
    /// The terminal is online only.
    OnlineOnly,
    /// An online code has these bits.
    Online(u64),
    /// The same, or the terminal is online only.
    OnlinePerhaps(u64),
    /// The terminal's online code has a bit, or the terminal is online only.
    TerminalOnline,
    /// The terminal is offline only, and no denial or default code has a bit.
    OfflineNone,
    /// No denial or online code has a bit.
    NoneSet,
    /// The terminal is offline only, since an online code has these bits, and no default code has one.
    OfflinePerhaps(u64),
    /// No denial or online code has a bit, or for an offline-only terminal no denial or default code.
    NonePerhaps,
    /// The terminal can't go online, and a default code has these bits.
    UnableDefault(u64),
    /// The terminal can't go online, and is online only.
    UnableOnlineOnly,
    /// The terminal can't go online: its default code has a bit, or it is online only.
    UnableTerminal,
    /// The terminal can't go online, and no default code has a bit.
    UnableNone,
    /// The codes don't explain it.
    Unexplained,
}

/// The bits of the terminal verification results that stand in a denial, an online and a default code, and
/// where the terminal may decide, as far as it is known.
#[derive(Clone, Copy)]
pub struct Found {
    pub denied: u64,
    pub online: u64,
    pub default: u64,
    pub reach: Option<Reach>,
}

/// Every bit of an action code.
const ALL: u64 = 0xff_ffff_ffff;

/// The terminal's code and where it may decide; no bits where it is not known.
fn known_row(row: Option<Row>) -> (u64, u64, u64, Option<Reach>)
    ensures { result ≡ spec.known_row row }
{
    match row {
        Some(row) => (row.denial, row.online, row.default, Some(row.reach)),
        None => (0, 0, 0, None),
    }
}

/// What is found in the codes. Where the card gives no denial code it has no bit, and where it gives no
/// other one that has all (EMV 4.3 Book 3 section 10.7).
pub fn found_of(asking: &Asking, results: u64) -> Found
    ensures { result ≡ spec.bits_found asking.now results }
{
    let (denial, online, default, reach) = known_row(asking.row);
    Found {
        denied: results & (asking.card.denial.unwrap_or(0) | denial),
        online: results & (asking.card.online.unwrap_or(ALL) | online),
        default: results & (asking.card.default.unwrap_or(ALL) | default),
        reach,
    }
}

/// The first AAC.
fn first_aac(found: &Found) -> Reason
    ensures { result ≡ spec.first_aac found.now }
{
    if found.denied != 0 {
        Reason::Denied(found.denied)
    } else if found.reach == Some(Reach::OfflineOnly) && found.default != 0 {
        Reason::OfflineDefault(found.default)
    } else if found.reach == None {
        Reason::TerminalDenial(found.default)
    } else {
        Reason::Unexplained
    }
}

/// The first ARQC.
fn first_arqc(found: &Found) -> Reason
    ensures { result ≡ spec.first_arqc found.now }
{
    if found.denied != 0 {
        return Reason::Unexplained;
    }
    match found.reach {
        Some(Reach::OnlineOnly) => Reason::OnlineOnly,
        Some(Reach::Both) if found.online != 0 => Reason::Online(found.online),
        None if found.online != 0 => Reason::OnlinePerhaps(found.online),
        None => Reason::TerminalOnline,
        _ => Reason::Unexplained,
    }
}

/// The first TC.
fn first_tc(found: &Found) -> Reason
    ensures { result ≡ spec.first_tc found.now }
{
    if found.denied != 0 {
        return Reason::Unexplained;
    }
    match found.reach {
        Some(Reach::OfflineOnly) if found.default == 0 => Reason::OfflineNone,
        Some(Reach::Both) if found.online == 0 => Reason::NoneSet,
        None if found.online != 0 => Reason::OfflinePerhaps(found.online),
        None => Reason::NonePerhaps,
        _ => Reason::Unexplained,
    }
}

/// The second AAC, where no reply was read.
fn second_aac(found: &Found) -> Reason
    ensures { result ≡ spec.second_aac found.now }
{
    if found.default != 0 {
        return Reason::UnableDefault(found.default);
    }
    match found.reach {
        Some(Reach::OnlineOnly) => Reason::UnableOnlineOnly,
        None => Reason::UnableTerminal,
        _ => Reason::Unexplained,
    }
}

/// The reason of the first question.
fn first_reason(asked: Kind, found: &Found) -> Reason
    ensures { result ≡ spec.first_reason asked found.now }
{
    match asked {
        Kind::Aac => first_aac(found),
        Kind::Arqc => first_arqc(found),
        Kind::Tc => first_tc(found),
    }
}

/// The reason of the second question, where no reply was read.
fn second_reason(asked: Kind, found: &Found) -> Reason
    ensures { result ≡ spec.second_reason asked found.now }
{
    match asked {
        Kind::Aac => second_aac(found),
        Kind::Tc => Reason::UnableNone,
        Kind::Arqc => Reason::Unexplained,
    }
}

/// Why the terminal asks for this kind.
pub fn reason_of(asking: &Asking) -> Reason
    ensures { result ≡ spec.reason_of asking.now }
{
    if asking.second && asking.replied {
        return Reason::Issuer;
    }
    match asking.results {
        None => Reason::NoResults,
        Some(results) => {
            let found = found_of(asking, results);
            if asking.second {
                second_reason(asking.asked, &found)
            } else {
                first_reason(asking.asked, &found)
            }
        }
    }
}
