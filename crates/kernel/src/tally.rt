//! How many dialogues ended in which way.
ghost use Rattle.std.specs.Prelude.{◌≡◌, ◌∷◌, []};
ghost use Rattle.kernel.specs.Tally.{raised};

use emv_dict::Ending;
use std::marker::Model;

/// The numbers of dialogues by their ending, and of all replies that they took. Each stops at the greatest
/// number. Only `Kernel::end` and `Kernel::into_ended` raise them.
#[derive(Clone, Copy, PartialEq, Eq, Debug)]
pub struct Tally {
    approved: u64,
    declined: u64,
    other: u64,
    replies: u64,
}

impl Model for Tally {
    ghost use Rattle.kernel.specs.Tally.{Counts};

    ghost Value = { Counts };

    ghost view = { λ t. record { approved = t.approved; declined = t.declined; other = t.other; replies = t.replies } };

    ghost inverse = { λ c. record { approved = c.approved; declined = c.declined; other = c.other; replies = c.replies } };
}

impl Tally {
    /// Four zeros.
    pub fn new() -> Tally
        ensures { result ≡ record { approved = 0; declined = 0; other = 0; replies = 0 } }
    {
        Tally {
            approved: 0,
            declined: 0,
            other: 0,
            replies: 0,
        }
    }

    /// The dialogues that were approved, those that were declined, those that ended otherwise, and the
    /// replies.
    pub fn counts(&self) -> [u64; 4]
        ensures { result ≡ self.now.approved ∷ self.now.declined ∷ self.now.other ∷ self.now.replies ∷ [] }
    {
        [self.approved, self.declined, self.other, self.replies]
    }

    /// One dialogue more, which took so many replies.
    pub(crate) fn raise(&mut self, ending: Ending, taken: u64)
        ensures { self.new ≡ raised self.old ending taken }
    {
        match ending {
            Ending::Approved { .. } => self.approved = self.approved.saturating_add(1),
            Ending::Declined { .. } => self.declined = self.declined.saturating_add(1),
            Ending::Terminated(..) | Ending::CutOff(..) => {
                self.other = self.other.saturating_add(1);
            }
        }
        self.replies = self.replies.saturating_add(taken);
    }
}
