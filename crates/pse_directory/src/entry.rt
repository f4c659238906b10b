//! The entries of a directory's record, and which of them the terminal takes (EMV 4.3 Book 1 sections 12.2.3 and
//! 12.3.2).
ghost use Rattle.std.specs.Prelude.{◌≡◌, ◌<◌, ◌||◌, false, nat_le, length, option_map, position, Some, None, IfSome, IfNone};
ghost use Rattle.std.specs.List.{list_any};
ghost use Rattle.std.specs.Str.{bytes_eq};
ghost use Rattle.app_select.specs.Named.{HaveRows, all_named};
ghost use Rattle.app_select.specs.Said.{is_supported as supports};
ghost use Rattle.ber_tlv.specs.Left.{items_of};
ghost use Rattle.pse_directory.specs.Entries as spec;
ghost use Rattle.pse_directory.specs.Entries.{entries_in_template};
ghost use Rattle.pse_directory.specs.Keeping.{with_entries, with_listed};

use app_select::{Found, MOST_NAMES, is_supported};
use arrayvec::ArrayVec;
use ber_tlv::{Tag, first_value};
use emv_dict::{AidRow, Name};

/// The applications of the directory that the terminal supports, each by the first entry of its name.
pub(crate) type FoundList = ArrayVec<Found, MOST_NAMES>;

/// The fewest bytes of an application's name.
const LEAST_NAME: usize = 5;

/// Takes the entry in a template 61, where the terminal supports it and has room for it; none where its objects
/// can't be read.
pub(crate) fn add_entry(rows: &[AidRow], entry: &[u8], found: &mut FoundList) -> Option<()>
    requires rows { HaveRows rows.now found.old.items }
    ensures some { IfSome result (λ done. option_map (with_entries rows.now (all_named rows.now found.old.items)) (entries_in_template (items_of entry.now))
        ≡ Some (all_named rows.now found.new.items)) }
    ensures none { IfNone result (entries_in_template (items_of entry.now) ≡ None) }
    ensures rows { HaveRows rows.now found.new.items }
{
    let Ok(name) = first_value(entry, Tag(0x4f)) else {
        return None;
    };
    let Ok(priority) = first_value(entry, Tag(0x87)) else {
        return None;
    };
    let Some(name) = application_name(name) else {
        return Some(());
    };
    add(rows, name, one_byte(priority), found);
    Some(())
}

/// The name of an application: it has 5 to 16 bytes.
fn application_name(name: Option<&[u8]>) -> Option<Name>
    ensures { result ≡ spec.application_name (option_map (λ given. given.now) name.entry) }
{
    let name = name?;
    if name.len() < LEAST_NAME {
        return None;
    }
    Name::new(name)
}

/// A priority indicator of another length than one byte counts as absent.
fn one_byte(value: Option<&[u8]>) -> Option<u8>
    ensures { result ≡ spec.priority_byte (option_map (λ given. given.now) value.entry) }
{
    match value {
        Some([byte]) => Some(*byte),
        _ => None,
    }
}

/// Takes an application, where the terminal supports it and has room for it.
fn add(rows: &[AidRow], name: Name, priority: Option<u8>, found: &mut FoundList)
    requires { HaveRows rows.now found.old.items }
    ensures added { all_named rows.now found.new.items
        ≡ with_listed rows.now (all_named rows.now found.old.items) (record { name = name; priority = priority }) }
    ensures rows { HaveRows rows.now found.new.items }
{
    let Some(aid) = row_of(rows, &name) else {
        return;
    };
    if is_left_out(found.as_slice(), &name) {
        return;
    }
    found.push(Found {
        name,
        priority,
        aid,
    });
}

/// The place of the first row that supports an application of this name.
fn row_of(rows: &[AidRow], name: &Name) -> Option<usize>
    ensures { result ≡ position (λ row. supports row.name row.partial name.now) rows.now }
{
    rows.iter().position(|row| is_supported(row, name))
}

fn has_name(found: &Found, name: &Name) -> bool
    ensures { result ≡ bytes_eq found.now.name name.now }
{
    found.name == *name
}

fn is_there(found: &[Found], name: &Name) -> bool
    ensures { result ≡ list_any (λ other. bytes_eq other.name name.now) found.now }
{
    found.iter().any(|other| has_name(other, name))
}

/// Whether no application of this name is taken: one is there, or there is no room.
fn is_left_out(found: &[Found], name: &Name) -> bool
    ensures exact { result ≡ (list_any (λ other. bytes_eq other.name name.now) found.now || nat_le 16 (length found.now)) }
    ensures room { result ≡ false → length found.now < 16 }
{
    is_there(found, name) || MOST_NAMES <= found.len()
}
