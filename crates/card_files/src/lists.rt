//! The rules of an application's object lists.
ghost use Rattle.std.specs.Prelude.{◌≡◌, ◌≤◌, length, option_map, Ok, IfSome, nat_le, if◌then◌else◌, Some, None};
ghost use Rattle.card_files.specs.Lists as spec;
ghost use Rattle.card_files.specs.Lists.{entries_within, has_all, cdol1_entries, cdol2_entries, is_optional_pdol as optional_pdol_test, most_data};
ghost use Rattle.object_lists.specs.DolEntries.{dol_of, total_of};

use ber_tlv::Tag;
use object_lists::{Dol, place, read_dol, total};

/// The most bytes of a processing options object list.
pub const MOST_PDOL: usize = 200;

/// The most bytes of an object list of GENERATE AC.
pub const MOST_CDOL: usize = 252;

/// The most bytes of data that an object list may want: what one command carries.
pub const MOST_DATA: u32 = 252;

/// Whether the list has an entry of this tag and length.
fn has_entry(dol: &Dol, tag: u32, count: u8) -> bool
    ensures { result ≡ spec.has_entry dol.now (spec.entry tag count) }
{
    place(dol, Tag(tag), count).is_some()
}

/// Whether the list asks for all that the first GENERATE AC has to bring (EMV 4.3 Book 2 section
/// 8.1.1): both amounts, the country, the verification results, the currency, the date, the type and
/// the unpredictable number.
pub fn has_cdol1_entries(dol: &Dol) -> bool
    ensures { result ≡ has_all cdol1_entries dol.now }
{
    has_entry(dol, 0x9f02, 6)
        && has_entry(dol, 0x9f03, 6)
        && has_entry(dol, 0x9f1a, 2)
        && has_entry(dol, 0x95, 5)
        && has_entry(dol, 0x5f2a, 2)
        && has_entry(dol, 0x9a, 3)
        && has_entry(dol, 0x9c, 1)
        && has_entry(dol, 0x9f37, 4)
}

/// Whether the list asks for all that the second GENERATE AC has to bring: the authorisation response
/// code.
pub fn has_cdol2_entries(dol: &Dol) -> bool
    ensures { result ≡ has_all cdol2_entries dol.now }
{
    has_entry(dol, 0x8a, 2)
}

/// The object list of these bytes, where they are at most `most`, can be read (EMV 4.3 Book 3 section
/// 5.4) and want at most 252 bytes of data.
#[tactic(auto, unfolding(crate::specs::Lists::entries_within))]
pub fn list_within(bytes: &[u8], most: usize) -> Option<Dol>
    requires { most ≤ 255 }
    ensures exact { result ≡ entries_within most bytes.now }
    ensures short { IfSome result (λ _. length bytes.now ≤ most) }
    ensures read { IfSome result (λ dol. dol_of bytes.now ≡ Ok dol) }
    ensures fits { IfSome result (λ dol. total_of dol ≤ most_data) }
{
    if bytes.len() > most {
        return None;
    }
    match read_dol(bytes) {
        Ok(dol) => fitting(dol),
        Err(_) => None,
    }
}

/// The list, where it wants at most 252 bytes of data.
fn fitting(dol: Dol) -> Option<Dol>
    ensures exact { result ≡ (if nat_le (total_of dol) most_data then Some dol else None) }
    ensures same { IfSome result (λ found. found ≡ dol) }
    ensures fits { IfSome result (λ found. total_of found ≤ most_data) }
{
    if total(&dol) <= MOST_DATA {
        Some(dol)
    } else {
        None
    }
}

/// Whether the bytes are a processing options object list of an image: at most 200 of them, readable,
/// and wanting at most 252 bytes of data.
pub fn is_pdol(bytes: &[u8]) -> bool
    ensures { result ≡ spec.is_pdol bytes.now }
{
    list_within(bytes, MOST_PDOL).is_some()
}

/// Whether the bytes are an object list of an image's first GENERATE AC: at most 252 of them,
/// readable, wanting at most 252 bytes of data, with all entries that have to be there.
pub fn is_cdol1(bytes: &[u8]) -> bool
    ensures { result ≡ spec.is_cdol1 bytes.now }
{
    match list_within(bytes, MOST_CDOL) {
        Some(dol) => has_cdol1_entries(&dol),
        None => false,
    }
}

/// Whether the bytes are an object list of an image's second GENERATE AC: at most 252 of them,
/// readable, wanting at most 252 bytes of data, with all entries that have to be there.
pub fn is_cdol2(bytes: &[u8]) -> bool
    ensures { result ≡ spec.is_cdol2 bytes.now }
{
    match list_within(bytes, MOST_CDOL) {
        Some(dol) => has_cdol2_entries(&dol),
        None => false,
    }
}

/// Whether there is no processing options object list, or one that keeps to its rule.
pub(crate) fn is_optional_pdol(pdol: &Option<Vec<u8>>) -> bool
    ensures { result ≡ optional_pdol_test (option_map (λ list. list.items) pdol.now) }
{
    match pdol {
        Some(bytes) => is_pdol(bytes),
        None => true,
    }
}

/// Whether a transaction log of so many rows leaves room for this processing options object list in
/// the file control information: with a log, the list has fewer than 200 bytes.
pub fn leaves_room(log: u8, pdol: &Option<Vec<u8>>) -> bool
    ensures { result ≡ spec.leaves_room log (option_map (λ list. list.items) pdol.now) }
{
    match pdol {
        Some(bytes) => log == 0 || bytes.len() < MOST_PDOL,
        None => true,
    }
}
