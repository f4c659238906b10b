//! A purchase, line by line.
ghost use Rattle.std.specs.Prelude.{◌≡◌, ◌++◌, ◌≤◌, List, IfOk, false};
ghost use Rattle.kernel.specs.Kernel.{kernel_next};
ghost use Rattle.kernel.specs.Reply.{Reply};
ghost use Rattle.kernel.specs.declared.kernel.Next.TheVariants as next;
ghost use Rattle.terminal_state.specs.Terminal.{Outset};
ghost use Rattle.terminal_at_reader.specs.Talk.{HasAmounts, IsPaying, IsTurnOf, asked_turn, paying_turn};

use crate::asking::{tell_ask, tell_end};
use crate::hearing::hear;
use crate::losing::break_off;
use crate::saying::{put_fault, put_other, put_why};
use crate::work::{Phase, Work};
use kernel::{Next, Tally};
use line_talk::{LineText, Onward};
use std::alloc::{AllocError, Global};
use trace_check::entry::entry_of;
use trace_check::{last_question, take_with_log};

/// Adds how the purchase has ended: where it was approved it joins the log, what it captured waits for settlement, its last
/// question is kept, and the terminal rests.
fn add_end(iso: bool, work: &mut Work<'_>, text: &mut Vec<u8>) -> Result<Onward, AllocError>
    requires over { kernel_next work.old.kernel ≡ next.Ended }
    requires fresh { work.old.kernel.is_spent ≡ false }
    requires log { HasAmounts work.old.till.log }
    ensures turn { IfOk result (λ onward. (outset : Outset) (replies : List Reply) → IsPaying work.old outset replies
        → IsTurnOf work.new text.new.items onward (asked_turn iso outset replies work.old.till text.old.items)) }
{
    let mut line = LineText::new();
    let question = last_question(work.terminal_type, &work.kernel);
    let end = work.kernel.end(&mut Tally::new());
    let outcome = tell_end(end, &mut line);
    work.till.keep(work.amount, question, outcome)?;
    work.phase = Phase::Rests;
    text.extend_from_slice(line.as_slice())?;
    Ok(Onward::Rests)
}

/// Adds what the purchase asks next, or how it has ended.
pub fn add_asked(iso: bool, work: &mut Work<'_>, text: &mut Vec<u8>) -> Result<Onward, AllocError>
    requires fresh { work.old.kernel.is_spent ≡ false }
    requires log { HasAmounts work.old.till.log }
    ensures turn { IfOk result (λ onward. (outset : Outset) (replies : List Reply) → IsPaying work.old outset replies
        → IsTurnOf work.new text.new.items onward (asked_turn iso outset replies work.old.till text.old.items)) }
{
    if work.kernel.next() == Next::Ended {
        return add_end(iso, work, text);
    }
    let mut line = LineText::new();
    tell_ask(iso, &work.kernel, &mut line);
    text.extend_from_slice(line.as_slice())?;
    Ok(Onward::Awaits)
}

/// Answers a line of a purchase: a reply that the terminal awaits by what it asks next, `want` by what it asked last, `why`
/// by what its last question about a cryptogram rests on; behind `lost` the purchase is over.
pub fn answer_paying(
    alloc: Global,
    iso: bool,
    work: &mut Work<'_>,
    line: &[u8],
    text: &mut Vec<u8>,
) -> Result<Onward, AllocError>
    requires fresh { work.old.kernel.is_spent ≡ false }
    requires log { HasAmounts work.old.till.log }
    ensures turn { IfOk result (λ onward. (outset : Outset) (replies : List Reply) → IsPaying work.old outset replies
        → IsTurnOf work.new text.new.items onward (paying_turn iso outset replies work.old.till line.now)) }
{
    text.clear();
    if line == b"want".as_slice() {
        return add_asked(iso, work, text);
    }
    if line == b"why".as_slice() {
        let question = last_question(work.terminal_type, &work.kernel);
        return put_why(question, Onward::Awaits, text);
    }
    if line == b"lost".as_slice() {
        return break_off(work, text);
    }
    let Some(said) = entry_of(alloc, line)? else {
        return put_other(Onward::Stuck, text);
    };
    let heard = hear(alloc, iso, said)?;
    if !take_with_log(&mut work.kernel, &heard.entry, work.till.log()) {
        return put_other(Onward::Stuck, text);
    }
    put_fault(heard.fault, text)?;
    add_asked(iso, work, text)
}
