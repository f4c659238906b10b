//! Commands of issuer scripts.
ghost use Rattle.std.specs.Prelude.{◌≡◌, is_some, true};
ghost use Rattle.object_words.specs.Commands as spec;
ghost use Rattle.value_words.specs.Plain.{or_nothing};
ghost use Rattle.report_lines.specs.Pieces.{Tells};

use crate::phrases::NO_SCRIPT_COMMAND;
use emv_dict::amount_of;
use report_lines::{WordLines, word_of};
use value_words::{SCRIPT_COMMANDS, all_digits, number_in};

/// PUT DATA of the limit of the number of offline approvals.
const COUNT_LIMIT: u32 = 0x04da_df01;

/// PUT DATA of the limit of their sum.
const SUM_LIMIT: u32 = 0x04da_df02;

/// Tells the limit of the number of offline approvals, where the data have one.
fn tell_count_limit(out: &mut WordLines, rest: &[u8])
    ensures { Tells out.old out.new (spec.count_limit rest.now) }
{
    if let [9, limit, ..] = rest {
        out.text(b" ");
        out.number(u64::from(*limit));
    }
}

/// Tells the limit of the sum of offline approvals, where the data have one.
fn tell_sum_limit(out: &mut WordLines, rest: &[u8])
    ensures { Tells out.old out.new (spec.sum_limit rest.now) }
{
    if let [14, a, b, c, d, e, f, ..] = rest {
        let digits = [*a, *b, *c, *d, *e, *f];
        if all_digits(&digits) {
            out.text(b" ");
            out.number(amount_of(digits));
        }
    }
}

/// Tells the limit that a command puts, where its data have one.
fn tell_limit(out: &mut WordLines, header: u32, rest: &[u8])
    ensures { Tells out.old out.new (spec.limit_words header rest.now) }
{
    if header == COUNT_LIMIT {
        tell_count_limit(out, rest);
    } else if header == SUM_LIMIT {
        tell_sum_limit(out, rest);
    }
}

/// Tells a command of an issuer script by its name; whether it has one.
pub fn tell_script_command(out: &mut WordLines, command: &[u8]) -> bool
    ensures words { Tells out.old out.new (or_nothing (spec.script_command_words command.now)) }
    ensures told { result ≡ is_some (spec.script_command_words command.now) }
{
    let Some((header, rest)) = command.split_at_checked(4) else {
        return false;
    };
    let header = (number_in(header) % 0x1_0000_0000) as u32;
    match word_of(&SCRIPT_COMMANDS, header) {
        Some(word) => {
            out.text(word);
            tell_limit(out, header, rest);
            true
        }
        None => false,
    }
}

/// Tells a script's command: its bytes and its name.
pub(crate) fn tell_command(out: &mut WordLines, value: &[u8]) -> bool
    ensures words { Tells out.old out.new (spec.command_words value.now) }
    ensures told { result ≡ true }
{
    out.hex(value);
    out.text(b": ");
    if !tell_script_command(out, value) {
        out.text(NO_SCRIPT_COMMAND);
    }
    true
}
