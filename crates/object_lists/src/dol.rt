ghost use Rattle.std.specs.Prelude.{◌≡◌, ◌≢◌, ◌+◌, ◌≤◌, [], length, take, drop, Ok, Err, IfOk, IfErr, IfSome, IfNone, MatchResult};
ghost use Rattle.std.specs.List.{AllByRecursion};
ghost use Rattle.env_map.specs.Entries.{Entries};
ghost use Rattle.object_lists.specs.DolEntries.{DolEntry, dol_of, total_of, data_place};
ghost use Rattle.object_lists.specs.DolEntries as spec;
ghost use Rattle.object_lists.specs.DolSeen.{seen_dol_entry, all_seen};
ghost use Rattle.object_lists.specs.EntryAt.{EntryAt};
ghost use Rattle.object_lists.specs.Filled.{dol_data, entry_data};
ghost use Rattle.object_lists.specs.DolSpelled.{dol_bytes, SpelledEntry, StopsEntry, FaultBehindEntries};

use arrayvec::ArrayVec;
use ber_tlv::{Tag, TlvFault, read_tag};
use std::marker::Model;

/// Why bytes are no data object list. Places count from the first byte, from 0.
#[derive(Clone, Copy, PartialEq, Eq, Debug)]
pub enum DolFault {
    /// The bytes end within the entry that begins at this place.
    Truncated(usize),
    /// The tag that begins at this place has more than three bytes.
    LongTag(usize),
}

/// A tag, and how many bytes of data are wanted for it.
#[derive(Clone, Copy, Default)]
pub(crate) struct Entry {
    pub tag: Tag,
    pub count: u8,
}

/// A data object list of at most 255 bytes (EMV 4.3 Book 3 section 5.4). Contracts see its entries.
#[derive(Drop)]
pub struct Dol {
    entries: ArrayVec<Entry, 127>,
}

impl Model for Dol {
    ghost use Rattle.std.specs.Prelude.{List};
    ghost use Rattle.object_lists.specs.DolEntries.{DolEntry};

    ghost Value = { List DolEntry };

    ghost use Rattle.object_lists.specs.DolSeen.{all_seen};

    ghost view = { λ dol. all_seen dol.entries.items };
}

impl Dol {
    /// The entries, in order.
    pub(crate) fn entries(&self) -> &[Entry]
        ensures entries { all_seen result.now ≡ self.now }
        ensures few { length result.now ≤ 127 }
    {
        &self.entries
    }
}

/// Reads a data object list (EMV 4.3 Book 3 section 5.4). Nothing stands between entries: a tag byte
/// 00 is a tag of one byte. The answer at a fault is the first one.
pub fn read_dol(bytes: &[u8]) -> Result<Dol, DolFault>
    requires { length bytes.now ≤ 255 }
    ensures exact { MatchResult result
        (λ dol. dol_of bytes.now ≡ Ok dol)
        (λ fault. dol_of bytes.now ≡ Err fault) }
    // The entries spell the bytes; else entries spell those before the fault's place.
    ensures spelled { IfOk result (λ dol. dol_bytes dol ≡ bytes.now) }
    ensures behind { IfErr result (FaultBehindEntries bytes.now) }
{
    let mut entries = ArrayVec::new();
    let mut place = 0;
    while place < bytes.len() {
        match entry_at(bytes, place) {
            Ok((entry, next)) => {
                entries.push(entry);
                place = next;
            }
            Err(fault) => return Err(fault),
        }
    }
    Ok(Dol { entries })
}

/// The entry that begins at a place, and the place behind it.
#[tactic(auto, unfolding(crate::specs::DolEntries::dol_entry_at))]
fn entry_at(bytes: &[u8], start: usize) -> Result<(Entry, usize), DolFault>
    ensures exact { MatchResult result
        (λ found. spec.dol_entry_at bytes.now start ≡ Ok (seen_dol_entry found.0, found.1))
        (λ fault. spec.dol_entry_at bytes.now start ≡ Err fault) }
    ensures spelled { IfOk result (λ found. SpelledEntry bytes.now start (seen_dol_entry found.0) found.1) }
    ensures stops { IfErr result (λ fault. StopsEntry fault start (drop start bytes.now)) }
    ensures onward { IfOk result (λ found. (start + 2 ≤ found.1) × (found.1 ≤ length bytes.now)) }
{
    match read_tag(bytes, start) {
        Ok((tag, next)) => match bytes.get(next) {
            Some(count) => Ok((Entry { tag, count: *count }, next + 1)),
            None => Err(DolFault::Truncated(start)),
        },
        Err(fault) => Err(fault_of_tag(fault)),
    }
}

/// Why an entry is not read whose tag is not.
fn fault_of_tag(fault: TlvFault) -> DolFault
    ensures { result ≡ spec.fault_of_tag fault }
{
    match fault {
        TlvFault::LongTag(at) => DolFault::LongTag(at),
        TlvFault::Truncated(at) | TlvFault::BadLength(at) => DolFault::Truncated(at),
    }
}

/// How many bytes of data all entries want.
pub fn total(dol: &Dol) -> u32
    ensures { result ≡ total_of dol.now }
{
    total_among(dol.entries())
}

fn total_among(entries: &[Entry]) -> u32
    requires { length entries.now ≤ 127 }
    ensures { result ≡ total_of (all_seen entries.now) }
{
    let mut total = 0;
    for entry in entries {
        total += u32::from(entry.count);
    }
    total
}

/// Where the data of the first entry with this tag and length begins in the filled data.
pub fn place(dol: &Dol, tag: Tag, len: u8) -> Option<usize>
    ensures place { result ≡ data_place tag.0 len dol.now }
    ensures found { IfSome result (EntryAt dol.now (record { tag = tag.0; count = len })) }
    ensures none { IfNone result (AllByRecursion (λ entry. entry ≢ record { tag = tag.0; count = len }) dol.now) }
    // Whatever the maps have, the filled data have that entry's data there.
    ensures data { IfSome result (λ place. (card terminal : Entries)
        → take len (drop place (dol_data dol.now card terminal))
        ≡ entry_data card terminal (record { tag = tag.0; count = len })) }
{
    place_among(dol.entries(), tag, len)
}

fn place_among(entries: &[Entry], tag: Tag, len: u8) -> Option<usize>
    requires { length entries.now ≤ 127 }
    ensures { result ≡ data_place tag.0 len (all_seen entries.now) }
{
    let mut place = 0;
    for entry in entries {
        if entry.tag.0 == tag.0 && entry.count == len {
            return Some(place);
        }
        place += usize::from(entry.count);
    }
    None
}
