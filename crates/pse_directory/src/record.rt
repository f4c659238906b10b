//! The answer to READ RECORD of the directory's file (EMV 4.3 Book 1 section 11.2).
ghost use Rattle.std.specs.Prelude.{◌≡◌, ◌≤◌, length, option_map, Some, None, IfSome, IfNone};
ghost use Rattle.app_select.specs.Named.{HaveRows, all_named};
ghost use Rattle.ber_tlv.specs.Direct.{sole_value as value_of};
ghost use Rattle.ber_tlv.specs.Left.{items_of};
ghost use Rattle.pse_directory.specs.Entries.{entries_in};
ghost use Rattle.pse_directory.specs.Keeping.{with_entries};
ghost use Rattle.pse_directory.specs.Said.{record_said, said_template};
ghost use Rattle.pse_directory.specs.SeenSaid.{RecordTold};

use crate::entry::{FoundList, add_entry};
use apdu_core::read_response;
use apdu_core::status::{NO_ERROR, RECORD_NOT_FOUND};
use ber_tlv::{Cursor, Tag, sole_value};
use emv_dict::AidRow;

/// What an answer for a record of the directory says.
#[derive(Drop)]
pub(crate) enum RecordAnswer {
    /// It is no response.
    Unreadable,
    /// There is no such record.
    Past,
    /// Its entries are taken.
    Added,
    /// Anything else: the directory counts for nothing.
    Faulty,
}

/// Reads the answer for a record, and takes its entries.
#[tactic(auto, unfolding(crate::specs::Said::record_said))]
pub(crate) fn read_record(rows: &[AidRow], reply: &[u8], found: &mut FoundList) -> RecordAnswer
    requires { HaveRows rows.now found.old.items }
    ensures told { RecordTold rows.now (all_named rows.now found.old.items) (all_named rows.now found.new.items) (record_said reply.now) result }
    ensures rows { HaveRows rows.now found.new.items }
{
    let Ok(response) = read_response(reply) else {
        return RecordAnswer::Unreadable;
    };
    match response.status {
        RECORD_NOT_FOUND => RecordAnswer::Past,
        NO_ERROR => add_record(rows, response.body, found),
        _ => RecordAnswer::Faulty,
    }
}

/// Takes the entries of a record: its body is one template 70.
fn add_record(rows: &[AidRow], body: &[u8], found: &mut FoundList) -> RecordAnswer
    requires { HaveRows rows.now found.old.items }
    ensures told { RecordTold rows.now (all_named rows.now found.old.items) (all_named rows.now found.new.items)
        (said_template (value_of 0x70 (items_of body.now))) result }
    ensures rows { HaveRows rows.now found.new.items }
{
    let Some(template) = sole_value(body, Tag(0x70)) else {
        return RecordAnswer::Faulty;
    };
    match add_entries(rows, template, found) {
        Some(()) => RecordAnswer::Added,
        None => RecordAnswer::Faulty,
    }
}

/// Takes the entries directly in a template; none where its objects, or those of an entry, can't be read.
fn add_entries(rows: &[AidRow], template: &[u8], found: &mut FoundList) -> Option<()>
    requires { HaveRows rows.now found.old.items }
    ensures some { IfSome result (λ done. option_map (with_entries rows.now (all_named rows.now found.old.items)) (entries_in (items_of template.now))
        ≡ Some (all_named rows.now found.new.items)) }
    ensures none { IfNone result (entries_in (items_of template.now) ≡ None) }
    ensures rows { HaveRows rows.now found.new.items }
{
    let mut cursor = Cursor::new(template);
    loop {
        match cursor.next() {
            Ok(Some(item)) => {
                if item.tag == Tag(0x61) {
                    add_entry(rows, item.value, found)?;
                }
            }
            Ok(None) => return Some(()),
            Err(_) => return None,
        }
    }
}
