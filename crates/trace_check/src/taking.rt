//! The replies that a terminal takes from a trace's entries.
ghost use Rattle.std.specs.Prelude.{◌≡◌, ◌≤◌, ◌<◌, [], true, false, List};
ghost use Rattle.std.specs.List.{All};
ghost use Rattle.emv_dict.specs.Settings.{most_amount};
ghost use Rattle.emv_dict.specs.declared.purchase.Logged.{Logged as LoggedRow};
ghost use Rattle.kernel.specs.Dialogue.{dialogue};
ghost use Rattle.kernel.specs.Kernel.{KernelStands, outset_in, kernel_next};
ghost use Rattle.kernel.specs.Rank.{kernel_rank};
ghost use Rattle.kernel.specs.Reply.{Reply};
ghost use Rattle.kernel.specs.declared.kernel.Next.TheVariants as next;
ghost use Rattle.trace_check.specs.Dialogues as spec;
ghost use Rattle.trace_check.specs.Dialogues.{reply_of_entry, reply_with_log};
ghost use Rattle.trace_check.specs.Loop.{ReplyIsTaken};

use crate::entry::Entry;
use emv_dict::Logged;
use kernel::{Kernel, Next};

/// Tells a terminal that awaits the card's reply an entry, where it is one.
fn from_card(kernel: &mut Kernel<'_>, entry: &Entry, log: &[Logged]) -> bool
    requires waits { kernel_next kernel.old ≡ next.ToCard }
    requires log { All (λ logged. logged.amount ≤ most_amount) log.now }
    requires fresh { kernel.old.is_spent ≡ false }
    ensures taken { (replies : List Reply) → KernelStands kernel.old replies
        → ReplyIsTaken spec.of_card kernel.new replies (reply_with_log log.now entry.now) result }
    ensures outset { outset_in kernel.new ≡ outset_in kernel.old }
    ensures nearer { result ≡ true → kernel_rank kernel.new < kernel_rank kernel.old }
    ensures fresh { kernel.new.is_spent ≡ false }
{
    match entry {
        Entry::CardSaid(answer) => {
            kernel.take_card(answer.as_slice(), log);
            true
        }
        Entry::CardGone => {
            kernel.take_gone();
            true
        }
        Entry::ToCard(_) | Entry::ToHost(_) | Entry::End(_) => false,
        Entry::HostSaid(_) | Entry::HostSilent => false,
    }
}

/// Tells a terminal that awaits the host's reply an entry, where it is one.
fn from_host(kernel: &mut Kernel<'_>, entry: &Entry) -> bool
    requires waits { kernel_next kernel.old ≡ next.ToHost }
    requires fresh { kernel.old.is_spent ≡ false }
    ensures taken { (log : List LoggedRow) (replies : List Reply) → KernelStands kernel.old replies
        → ReplyIsTaken spec.of_host kernel.new replies (reply_with_log log entry.now) result }
    ensures outset { outset_in kernel.new ≡ outset_in kernel.old }
    ensures nearer { result ≡ true → kernel_rank kernel.new < kernel_rank kernel.old }
    ensures fresh { kernel.new.is_spent ≡ false }
{
    match entry {
        Entry::HostSaid(reply) => {
            kernel.take_host(Some(reply.as_slice()));
            true
        }
        Entry::HostSilent => {
            kernel.take_host(None);
            true
        }
        Entry::ToCard(_) | Entry::ToHost(_) | Entry::End(_) => false,
        Entry::CardSaid(_) | Entry::CardGone => false,
    }
}

/// Tells a terminal with this log of earlier purchases an entry, where it is a reply that it awaits.
pub fn take_with_log(kernel: &mut Kernel<'_>, entry: &Entry, log: &[Logged]) -> bool
    requires fresh { kernel.old.is_spent ≡ false }
    requires log { All (λ logged. logged.amount ≤ most_amount) log.now }
    ensures taken { (replies : List Reply) → KernelStands kernel.old replies
        → ReplyIsTaken (spec.is_awaited (dialogue (outset_in kernel.old) replies).deed) kernel.new replies (reply_with_log log.now entry.now) result }
    ensures outset { outset_in kernel.new ≡ outset_in kernel.old }
    ensures nearer { result ≡ true → kernel_rank kernel.new < kernel_rank kernel.old }
    ensures fresh { kernel.new.is_spent ≡ false }
{
    match kernel.next() {
        Next::ToCard => from_card(kernel, entry, log),
        Next::ToHost => from_host(kernel, entry),
        Next::Ended => false,
    }
}

/// The same where the log is empty.
pub fn take(kernel: &mut Kernel<'_>, entry: &Entry) -> bool
    requires { kernel.old.is_spent ≡ false }
    ensures taken { (replies : List Reply) → KernelStands kernel.old replies
        → ReplyIsTaken (spec.is_awaited (dialogue (outset_in kernel.old) replies).deed) kernel.new replies (reply_of_entry entry.now) result }
    ensures outset { outset_in kernel.new ≡ outset_in kernel.old }
    ensures nearer { result ≡ true → kernel_rank kernel.new < kernel_rank kernel.old }
    ensures fresh { kernel.new.is_spent ≡ false }
{
    take_with_log(kernel, entry, &[])
}
