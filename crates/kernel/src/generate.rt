//! GENERATE AC is asked of the card (EMV 4.3 Book 3 sections 10.8 and 10.11).
ghost use Rattle.std.specs.Prelude.{◌≡◌, ◌⊎◌, ℕ, List, Some, None, MatchBool};
ghost use Rattle.kernel.specs.Transactions.{transaction_of};
ghost use Rattle.online_step.specs.Generate.{generate_command, list_data};
ghost use Rattle.terminal_state.specs.Table.{outset_of};
ghost use Rattle.terminal_state.specs.Terminal.{terminal_objects};

use crate::transaction::Transaction;
use arrayvec::ArrayVec;
use ber_tlv::Tag;
use emv_dict::Kind;
use online_step::{fill_list, write_generate};
use terminal_state::{Table, put_terminal};

/// GENERATE AC is asked for a cryptogram of this kind, with the data of the card's object list of this tag.
/// `false` comes exactly where the list wants more than 252 bytes.
pub(crate) fn ask_generate<'s>(
    table: &mut Table<'s>,
    transaction: &Transaction<'_, 's>,
    list: Tag,
    asked: Kind,
) -> bool
    requires { (list.0 ≡ 0x8C) ⊎ (list.0 ≡ 0x8D) }
    ensures asked { MatchBool result
        ((given : List ℕ)
        × (list_data list.0 transaction.now.card.now (terminal_objects (transaction_of transaction.now).outset transaction.now.row.now table.old.state_so_far) ≡ Some given)
        × (table.new.command.items ≡ generate_command asked given))
        (list_data list.0 transaction.now.card.now (terminal_objects (transaction_of transaction.now).outset transaction.now.row.now table.old.state_so_far) ≡ None) }
    ensures same { outset_of table.new ≡ outset_of table.old }
    ensures state_so_far { table.new.state_so_far ≡ table.old.state_so_far }
    ensures reply { table.new.reply ≡ table.old.reply }
{
    put_terminal(
        &mut table.objects,
        transaction.settings,
        transaction.purchase,
        transaction.row,
        &table.state_so_far,
    );
    let mut filled = ArrayVec::new();
    if !fill_list(list, transaction.card, &table.objects, &mut filled) {
        return false;
    }
    write_generate(asked, &filled, &mut table.command);
    true
}
