//! The calls that take a kernel by value and give it back: for a caller that holds it in a place of its own and hands
//! it on, as a lane that is an enum does. Each moves the whole kernel; `take_card`, `take_gone`, `take_host` and
//! `end` leave it where it is.
ghost use Rattle.std.specs.Prelude.{◌≡◌, ◌≤◌, false};
ghost use Rattle.std.specs.List.{All};
ghost use Rattle.emv_dict.specs.Settings.{most_amount};
ghost use Rattle.kernel.specs.BeginEnd.{HasTakenReply, HasEnded};
ghost use Rattle.kernel.specs.Kernel.{kernel_next};
ghost use Rattle.kernel.specs.Reply.{CardSaid, CardGone, HostSaid, HostSilent};
ghost use Rattle.kernel.specs.declared.kernel.Next.TheVariants as next;

use super::Kernel;
use crate::ended::{Ended, with_card};
use crate::tally::Tally;
use emv_dict::Logged;

impl<'s> Kernel<'s> {
    /// As `take_card`, by value.
    pub fn card_says(self, reply: &[u8], log: &[Logged]) -> Kernel<'s>
        requires waits { kernel_next self ≡ next.ToCard }
        requires log { All (λ logged. logged.amount ≤ most_amount) log.now }
        ensures taken { HasTakenReply self.entry result (CardSaid reply.now log.now) }
    {
        let mut kernel = self;
        kernel.take_card(reply, log);
        kernel
    }

    /// As `take_gone`, by value.
    pub fn card_gone(self) -> Kernel<'s>
        requires waits { kernel_next self ≡ next.ToCard }
        ensures taken { HasTakenReply self.entry result CardGone }
        ensures ended { kernel_next result ≡ next.Ended }
    {
        let mut kernel = self;
        kernel.take_gone();
        kernel
    }

    /// The host's reply, by value.
    pub fn host_says(self, reply: &[u8]) -> Kernel<'s>
        requires waits { kernel_next self ≡ next.ToHost }
        ensures taken { HasTakenReply self.entry result (HostSaid reply.now) }
    {
        let mut kernel = self;
        kernel.take_host(Some(reply));
        kernel
    }

    /// The host doesn't reply, by value.
    pub fn host_silent(self) -> Kernel<'s>
        requires waits { kernel_next self ≡ next.ToHost }
        ensures taken { HasTakenReply self.entry result HostSilent }
    {
        let mut kernel = self;
        kernel.take_host(None);
        kernel
    }

    /// As `end`, by value, with the card's data.
    pub fn into_ended(self, tally: &mut Tally) -> Ended
        requires over { kernel_next self ≡ next.Ended }
        requires fresh { self.is_spent ≡ false }
        ensures ends { HasEnded self.entry tally.old tally.new result.shown }
        ensures card { result.card ≡ self.entry.card }
    {
        let mut kernel = self;
        let record = kernel.end(tally);
        let Kernel {
            table: _,
            card,
            stage: _,
            taken: _,
            is_spent: _,
        } = kernel;
        with_card(record, card.into_data())
    }
}
