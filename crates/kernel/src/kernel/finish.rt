//! The end of a kernel.
ghost use Rattle.std.specs.Prelude.{◌≡◌, false};
ghost use Rattle.kernel.specs.BeginEnd.{HasEnded, IsSpent};
ghost use Rattle.kernel.specs.Kernel.{kernel_next};

use super::{Kernel, Next};
use crate::ended::{EndRecord, end_record, ending_of};
use crate::tally::Tally;
use std::mem;
use terminal_state::StateSoFar;

impl<'s> Kernel<'s> {
    /// The end of the dialogue, which is handed out once, with what is captured. The tally counts it, with the
    /// replies that it took. The card's data stay until another dialogue begins in the same place.
    pub fn end(&mut self, tally: &mut Tally) -> EndRecord
        requires over { kernel_next self.old ≡ Next.Ended }
        requires fresh { self.old.is_spent ≡ false }
        ensures ends { HasEnded self.old tally.old tally.new result }
        ensures spent { IsSpent self.old self.new }
    {
        let ending = ending_of(&self.stage);
        tally.raise(ending, self.taken);
        self.is_spent = true;
        let state_so_far = mem::replace(&mut self.table.state_so_far, StateSoFar::new());
        end_record(
            self.table.settings,
            self.table.purchase,
            state_so_far,
            self.card.get(),
            ending,
        )
    }
}
