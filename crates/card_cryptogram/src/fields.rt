//! The fields that a terminal gives.
ghost use Rattle.std.specs.Prelude.{◌≡◌, ◌≤◌, length};
ghost use Rattle.app_cryptogram.specs.Cryptograms.{ac_of};
ghost use Rattle.object_lists.specs.DolEntries.{total_of};
ghost use Rattle.card_cryptogram.specs.Fields as spec;

use app_cryptogram::AcFields;
use ber_tlv::Tag;
use object_lists::{Dol, place};

/// What the terminal gives for an application cryptogram (EMV 4.3 Book 2 section 8.1.1).
#[derive(Clone, Copy, PartialEq, Eq, Debug, Default)]
pub struct TerminalFields {
    /// Amount, authorised: object 9F02.
    pub amount: [u8; 6],
    /// Amount, other: object 9F03.
    pub other: [u8; 6],
    /// Terminal country code: object 9F1A.
    pub country: [u8; 2],
    /// Terminal verification results: object 95.
    pub tvr: [u8; 5],
    /// Transaction currency code: object 5F2A.
    pub currency: [u8; 2],
    /// Transaction date: object 9A.
    pub date: [u8; 3],
    /// Transaction type: object 9C.
    pub trade: u8,
    /// Unpredictable number: object 9F37.
    pub number: [u8; 4],
}

/// The data of the first entry of this tag and length, or other data where the list has none.
#[tactic(auto, unfolding(crate::specs::Fields::data_or), using(crate::proofs::Places::place_within))]
fn field<const N: usize>(dol: &Dol, tag: u32, filled: &[u8], other: [u8; N]) -> [u8; N]
    requires count { N ≤ 255 }
    requires whole { length filled.now ≡ total_of dol.now }
    ensures { result ≡ spec.data_or tag N dol.now filled.now other.entry }
{
    let mut bytes = other;
    if let Some(start) = place(dol, Tag(tag), N as u8) {
        bytes.copy_from_slice(&filled[start..start + N]);
    }
    bytes
}

/// The fields that the list names, from its data, and the others as they were given before: those of
/// a second GENERATE AC.
#[tactic(auto, unfolding(crate::specs::Fields::given_from))]
pub fn given_from(dol: &Dol, filled: &[u8], before: &TerminalFields) -> TerminalFields
    requires { length filled.now ≡ total_of dol.now }
    ensures { result ≡ spec.given_from dol.now filled.now before.now }
{
    let trade = field(dol, 0x9c, filled, [before.trade]);
    TerminalFields {
        amount: field(dol, 0x9f02, filled, before.amount),
        other: field(dol, 0x9f03, filled, before.other),
        country: field(dol, 0x9f1a, filled, before.country),
        tvr: field(dol, 0x95, filled, before.tvr),
        currency: field(dol, 0x5f2a, filled, before.currency),
        date: field(dol, 0x9a, filled, before.date),
        trade: trade[0],
        number: field(dol, 0x9f37, filled, before.number),
    }
}

/// The fields of a first GENERATE AC, from the data of its list.
#[tactic(auto, unfolding(crate::specs::Fields::first_given))]
pub fn first_given(dol: &Dol, filled: &[u8]) -> TerminalFields
    requires { length filled.now ≡ total_of dol.now }
    ensures { result ≡ spec.first_given dol.now filled.now }
{
    given_from(dol, filled, &TerminalFields::default())
}

/// The authorisation response code, object 8A, from the data of a list; zeros where the list has none.
#[tactic(auto, unfolding(crate::specs::Fields::code_given))]
pub fn code_given(dol: &Dol, filled: &[u8]) -> [u8; 2]
    requires { length filled.now ≡ total_of dol.now }
    ensures { result ≡ spec.code_given dol.now filled.now }
{
    field(dol, 0x8a, filled, [0; 2])
}

/// What the cryptogram covers.
#[tactic(auto, unfolding(crate::specs::Fields::covered))]
pub(crate) fn covered(given: &TerminalFields, aip: [u8; 2], counter: u16) -> AcFields
    ensures { result ≡ spec.covered given.now aip counter }
{
    AcFields {
        amount: given.amount,
        other: given.other,
        country: given.country,
        tvr: given.tvr,
        currency: given.currency,
        date: given.date,
        trade: given.trade,
        number: given.number,
        aip,
        counter: counter.to_be_bytes(),
    }
}
