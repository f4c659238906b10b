//! A trace is read against the dialogue of its terminal, an exchange at a time.
ghost use Rattle.std.specs.Prelude.{◌≡◌, ◌≢◌, ◌≤◌, ◌<◌, ◌∷◌, ◌++◌, [], false, List, Option, Some, None, length, drop};
ghost use Rattle.kernel.specs.Dialogue.{dialogue};
ghost use Rattle.kernel.specs.Kernel.{KernelStands, outset_in, kernel_next};
ghost use Rattle.kernel.specs.Reply.{Reply};
ghost use Rattle.kernel.specs.declared.kernel.Next.TheVariants as next;
ghost use Rattle.trace_check.specs.Dialogues.{entry_of_standing};
ghost use Rattle.trace_check.specs.Document.{IsTrace};
ghost use Rattle.trace_check.specs.Loop as loops;
ghost use Rattle.trace_check.specs.Loop.{Exchanged};
ghost use Rattle.trace_check.specs.Verdicts.{same_entry, verdict, verdict_of};
ghost use Rattle.trace_check.specs.declared.entry.Entry.{Entry as EntryRow};
ghost use Rattle.trace_check.specs.declared.entry.Entry.TheVariants as entries;

use crate::ended::add_end_text;
use crate::entry::Entry;
use crate::read::Trace;
use crate::taking::take;
use kernel::{Kernel, Next, Tally};
use report_text::Text;

/// What a trace is to the dialogue of its terminal.
#[derive(Clone, Copy, PartialEq, Eq, Debug)]
pub enum Verdict {
    /// It is the dialogue's own trace.
    Same,
    /// The entry of this number, from 0, is the first that is not the dialogue's. Where there is none, the number is
    /// that of the entries: the next one lacks.
    Differs(u32),
}

/// Whether an entry is an end with this text.
fn is_end_with(entry: &Entry, text: &[u8]) -> bool
    ensures { result ≡ same_entry entry.now (entries.End text.now) }
{
    match entry {
        Entry::End(told) => told.as_slice() == text,
        Entry::ToCard(_) | Entry::CardSaid(_) | Entry::CardGone => false,
        Entry::ToHost(_) | Entry::HostSaid(_) | Entry::HostSilent => false,
    }
}

/// Whether an entry is this command.
fn is_command(entry: &Entry, bytes: &[u8]) -> bool
    ensures { result ≡ same_entry entry.now (entries.ToCard bytes.now) }
{
    match entry {
        Entry::ToCard(command) => command.as_slice() == bytes,
        Entry::CardSaid(_) | Entry::CardGone | Entry::End(_) => false,
        Entry::ToHost(_) | Entry::HostSaid(_) | Entry::HostSilent => false,
    }
}

/// Whether an entry is this message to the host.
fn is_message(entry: &Entry, bytes: &[u8]) -> bool
    ensures { result ≡ same_entry entry.now (entries.ToHost bytes.now) }
{
    match entry {
        Entry::ToHost(message) => message.as_slice() == bytes,
        Entry::HostSaid(_) | Entry::HostSilent | Entry::End(_) => false,
        Entry::ToCard(_) | Entry::CardSaid(_) | Entry::CardGone => false,
    }
}

/// Whether an entry is the end of a dialogue that is over.
fn is_end(kernel: &mut Kernel<'_>, entry: &Entry) -> bool
    requires over { kernel_next kernel.old ≡ next.Ended }
    requires fresh { kernel.old.is_spent ≡ false }
    ensures exact { (replies : List Reply) → KernelStands kernel.old replies
        → result ≡ same_entry entry.now (entry_of_standing (outset_in kernel.old) (dialogue (outset_in kernel.old) replies)) }
{
    let end = kernel.end(&mut Tally::new());
    let mut told = Text::new();
    add_end_text(end, &mut told);
    is_end_with(entry, told.as_slice())
}

/// Whether an entry is what the terminal sends next.
fn is_asked(kernel: &Kernel<'_>, entry: &Entry) -> bool
    requires { kernel_next kernel.now ≢ next.Ended }
    ensures { (replies : List Reply) → KernelStands kernel.now replies
        → result ≡ same_entry entry.now (entry_of_standing (outset_in kernel.now) (dialogue (outset_in kernel.now) replies)) }
{
    match kernel.next() {
        Next::ToCard => is_command(entry, kernel.bytes()),
        Next::ToHost => is_message(entry, kernel.bytes()),
        Next::Ended => unreachable!(),
    }
}

/// The verdict on the last entry of a trace.
fn last(kernel: &mut Kernel<'_>, entry: &Entry, at: u32) -> Verdict
    requires fresh { kernel.old.is_spent ≡ false }
    requires room { at < 50001 }
    ensures { (replies : List Reply) → KernelStands kernel.old replies → result ≡ loops.left (outset_in kernel.old) replies at (entry.now ∷ []) }
{
    if kernel.next() == Next::Ended {
        return if is_end(kernel, entry) {
            Verdict::Same
        } else {
            Verdict::Differs(at)
        };
    }
    Verdict::Differs(if is_asked(kernel, entry) { at + 1 } else { at })
}

/// The verdict on two entries with others behind them, or none where the dialogue goes on behind both.
fn pair(kernel: &mut Kernel<'_>, ask: &Entry, entry: &Entry, at: u32) -> Option<Verdict>
    requires fresh { kernel.old.is_spent ≡ false }
    requires room { at < 50001 }
    ensures exact { (replies : List Reply) (more : List EntryRow) → KernelStands kernel.old replies
        → Exchanged (outset_in kernel.old) kernel.new replies at (ask.now ∷ entry.now ∷ more) result }
    ensures outset { result ≡ None → outset_in kernel.new ≡ outset_in kernel.old }
    ensures fresh { result ≡ None → kernel.new.is_spent ≡ false }
{
    if kernel.next() == Next::Ended {
        let over = is_end(kernel, ask);
        return Some(Verdict::Differs(if over { at + 1 } else { at }));
    }
    if !is_asked(kernel, ask) {
        return Some(Verdict::Differs(at));
    }
    if !take(kernel, entry) {
        return Some(Verdict::Differs(at + 1));
    }
    None
}

/// The verdict on the entries that are left, or none where the dialogue goes on behind two of them.
fn exchange(kernel: &mut Kernel<'_>, rest: &[Entry], at: u32) -> Option<Verdict>
    requires fresh { kernel.old.is_spent ≡ false }
    requires room { at < 50001 }
    ensures exact { (replies : List Reply) → KernelStands kernel.old replies
        → Exchanged (outset_in kernel.old) kernel.new replies at rest.now result }
    ensures two { result ≡ None → 2 ≤ length rest.now }
    ensures outset { result ≡ None → outset_in kernel.new ≡ outset_in kernel.old }
    ensures fresh { result ≡ None → kernel.new.is_spent ≡ false }
{
    match rest {
        [] => Some(Verdict::Differs(at)),
        [entry] => Some(last(kernel, entry, at)),
        [ask, entry, ..] => pair(kernel, ask, entry, at),
    }
}

/// The entries behind the first two.
fn behind_two(rest: &[Entry]) -> &[Entry]
    requires { 2 ≤ length rest.now }
    ensures { result.now ≡ drop 2 rest.now }
{
    &rest[2..]
}

/// The verdict of a terminal that has begun.
fn verdict_by(kernel: &mut Kernel<'_>, entries: &[Entry]) -> Verdict
    requires few { length entries.now ≤ 50000 }
    requires begun { KernelStands kernel.old [] }
    requires fresh { kernel.old.is_spent ≡ false }
    ensures { result ≡ verdict (outset_in kernel.old) entries.now }
{
    let mut rest = entries;
    let mut at = 0;
    loop {
        match exchange(kernel, rest, at) {
            Some(verdict) => return verdict,
            None => {
                rest = behind_two(rest);
                at += 2;
            }
        }
    }
}

/// Reads a trace against the dialogue that its terminal would have on the trace's replies, with no earlier purchase:
/// the least entry at which the trace is no front of the dialogue's own trace, or that they are the same.
pub fn check(trace: &Trace) -> Verdict
    requires { IsTrace trace.now }
    ensures { result ≡ verdict_of trace.now }
{
    let planned = &trace.lane.purchases[0];
    let mut kernel = Kernel::begin(&trace.lane.settings, &planned.purchase);
    verdict_by(&mut kernel, trace.entries.as_slice())
}
