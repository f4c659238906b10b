//! A list of messages by value while it is on, for who hands it from call to call: each call takes it and gives it
//! back, or behind a loss of power its pages. The work is that of `CaptureList`.
ghost use Rattle.std.specs.Prelude.{◌≡◌, ◌⊎◌, ◌<◌, ◌≤◌, ℕ, List, length, slice_get, option_map, false, IfSome, IfOk, IfErr};
ghost use Rattle.emv_ports.specs.Memory.{powered_off};
ghost use Rattle.torn_store.specs.Writing.{LostAt};
ghost use Rattle.capture_store.specs.Calls.{Adds, Drops};
ghost use Rattle.capture_store.specs.ListPages.{StandsForList, StandForOneOf};
ghost use Rattle.capture_store.specs.SeenCaptureList.{OpensList, MayAdd, MakesCall, CutsCall};
ghost use Rattle.capture_store.specs.Spelling.{IsCaptureMessage};

use crate::capture_list::CaptureList;
use emv_ports::{Gone, Pages};
use std::marker::Model;
use torn_store::Lost;

/// Pages that are on, and the list of messages that they hold, oldest first.
#[derive(Drop)]
pub struct Captures<P: Pages> {
    capture_list: CaptureList<P>,
}

impl<P: Pages> Model for Captures<P> {
    ghost use Rattle.std.specs.Prelude.{◌≡◌, true};
    ghost use Rattle.capture_store.specs.SeenCaptureList.{CaptureListSeen};

    ghost Value = { CaptureListSeen };

    ghost view = { λ c. c.capture_list };

    ghost invariant = { λ c. c.capture_list.memory.on ≡ true };
}

impl<P: Pages> Captures<P> {
    /// Turns the pages on, which are off and hold one of two lists, as `prepare` and every later call leave
    /// them, and finds it.
    ///
    /// `Lost` comes exactly where a tear is planned before the first commit. The pages hold one of the two then
    /// still.
    pub fn open(pages: P) -> Result<Captures<P>, Lost<P>>
        requires off { (P.memory pages).on ≡ false }
        requires stands { (before : List (List ℕ)) × (after : List (List ℕ)) × StandForOneOf (P.memory pages).cells before after }
        ensures found { IfOk result (λ on. (before after : List (List ℕ)) → StandForOneOf (P.memory pages).cells before after
            → (on.list ≡ before) ⊎ (on.list ≡ after)) }
        ensures opens { IfOk result (λ on. OpensList (P.memory pages) on) }
        ensures lost { IfErr result (λ off. (before after : List (List ℕ)) → StandForOneOf (P.memory pages).cells before after
            → StandForOneOf (P.memory off.pages).cells before after) }
        ensures gone { IfErr result (λ off. LostAt (P.memory pages) (P.memory off.pages)) }
    {
        let mut capture_list = CaptureList::new(pages);
        match capture_list.open() {
            Ok(()) => Ok(Captures { capture_list }),
            Err(Gone) => Err(cut_off(capture_list)),
        }
    }

    /// How many messages there are.
    pub fn count(&self) -> usize
        ensures { (result ≡ length self.now.list) × (result ≤ 7) }
    {
        self.capture_list.count()
    }

    /// The oldest message. `None` exactly where there is none.
    pub fn first(&self) -> Option<&[u8]>
        ensures { (option_map (λ message. message.now) result ≡ slice_get self.now.list 0) × IfSome result (λ message. IsCaptureMessage message.now) }
    {
        self.capture_list.first()
    }

    /// Adds a message of 1 to 139 bytes behind the others, of which there are fewer than seven: one commit,
    /// and its release.
    ///
    /// `Lost` comes exactly where the plan names this commit. The list is then as before where the first
    /// write was cut before it began, has the message where the release was cut, and else may have it.
    pub fn add(self, message: &[u8]) -> Result<Captures<P>, Lost<P>>
        requires may { MayAdd self.list message.now }
        ensures made { IfOk result (λ next. MakesCall self (Adds message.now) next) }
        ensures cut { IfErr result (λ off. CutsCall self (Adds message.now) (P.memory off.pages)) }
    {
        let Captures { mut capture_list } = self;
        match capture_list.add(message) {
            Ok(()) => Ok(Captures { capture_list }),
            Err(Gone) => Err(cut_off(capture_list)),
        }
    }

    /// Drops the oldest message, of which there is one: one commit, and its release. `Lost` comes and leaves
    /// the list as with `add`.
    pub fn drop_first(self) -> Result<Captures<P>, Lost<P>>
        requires some { 0 < length self.list }
        ensures made { IfOk result (λ next. MakesCall self Drops next) }
        ensures cut { IfErr result (λ off. CutsCall self Drops (P.memory off.pages)) }
    {
        let Captures { mut capture_list } = self;
        match capture_list.drop_first() {
            Ok(()) => Ok(Captures { capture_list }),
            Err(Gone) => Err(cut_off(capture_list)),
        }
    }

    /// Turns the pages off. They stand for the list.
    pub fn power_off(self) -> P
        ensures memory { P.memory result ≡ powered_off self.memory }
        ensures stands { StandsForList (P.memory result).cells self.list }
    {
        let Captures { mut capture_list } = self;
        capture_list.power_off();
        capture_list.into_pages()
    }
}

/// The pages of a list, behind a loss of power.
fn cut_off<P: Pages>(capture_list: CaptureList<P>) -> Lost<P>
    ensures { P.memory result.pages ≡ capture_list.memory }
{
    Lost {
        pages: capture_list.into_pages(),
    }
}
