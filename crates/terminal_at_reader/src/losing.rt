//! The terminal's power is lost: nothing is kept of the purchase that runs, or of the one that ended last.
ghost use Rattle.std.specs.Prelude.{◌≡◌, ◌++◌, IfOk};
ghost use Rattle.terminal_at_reader.specs.Talk.{HasAmounts, IsTurnOf, Rests, WorksAt, losing_turn, lost_line, lost_turn};
ghost use Rattle.terminal_at_reader.specs.Till.{till_broken_off};

use crate::saying::{put_lost, put_other};
use crate::work::{Phase, Work};
use line_talk::Onward;
use std::alloc::AllocError;

/// The purchase that runs is over and leaves nothing, and the terminal rests.
pub fn break_off(work: &mut Work<'_>, text: &mut Vec<u8>) -> Result<Onward, AllocError>
    requires log { HasAmounts work.old.till.log }
    ensures turn { IfOk result (λ onward. IsTurnOf work.new text.new.items onward (lost_turn lost_line (till_broken_off work.old.till))) }
{
    work.till.break_off();
    work.phase = Phase::Rests;
    put_lost(b"lost\n", text)
}

/// Answers a line at rest that may tell of lost power: `lost` takes back what the purchase that ended last has brought, and
/// `lost captured` its approval alone.
pub fn answer_losing(
    work: &mut Work<'_>,
    line: &[u8],
    text: &mut Vec<u8>,
) -> Result<Onward, AllocError>
    requires works { WorksAt work.old Rests work.old.till }
    ensures turn { IfOk result (λ onward. IsTurnOf work.new text.new.items onward (losing_turn work.old.till line.now)) }
{
    if line == b"lost".as_slice() {
        work.till.lose();
        return put_lost(b"lost\n", text);
    }
    if line == b"lost captured".as_slice() {
        work.till.lose_approval();
        return put_lost(b"lost captured\n", text);
    }
    put_other(Onward::Rests, text)
}
