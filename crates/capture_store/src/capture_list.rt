//! A list of messages on its pages, in their place.
ghost use Rattle.std.specs.Prelude.{◌≡◌, ◌⊎◌, ◌<◌, ◌≤◌, ℕ, List, [], None, length, slice_get, option_map, true, false, IsTrue, IfSome, OnOk, OnErr};
ghost use Rattle.emv_ports.specs.Cut.{is_plan};
ghost use Rattle.emv_ports.specs.Memory.{planned, powered_off};
ghost use Rattle.torn_store.specs.Writing.{LostAt};
ghost use Rattle.capture_store.specs.Calls.{Call, Adds, Drops, called};
ghost use Rattle.capture_store.specs.ListPages.{StandsForList, StandForOneOf};
ghost use Rattle.capture_store.specs.SeenCaptureList.{OpensList, MayAdd, MakesCall, CutsCall};
ghost use Rattle.capture_store.specs.Spelling.{IsCaptureMessage, IsState, list_of_state};

use crate::spelled::{NONE, State, count_in, first_in, put_longer, put_shorter};
use emv_ports::{Gone, Pages, Tear};
use std::marker::Model;
use torn_store::StorePlace;

/// The place of a list's pages, on or off. The list is read off the state that they stand for.
#[derive(Drop)]
pub(crate) struct CaptureList<P: Pages> {
    place: StorePlace<P>,
}

impl<P: Pages> Model for CaptureList<P> {
    ghost use Rattle.std.specs.Prelude.{◌≡◌, true};
    ghost use Rattle.capture_store.specs.SeenCaptureList.{CaptureListSeen};
    ghost use Rattle.capture_store.specs.Spelling.{IsState, list_of_state};

    ghost Value = { CaptureListSeen };

    ghost view = { λ s. record { memory = s.place.memory; list = list_of_state s.place.state } };

    ghost invariant = { λ s. s.place.memory.on ≡ true → IsState s.place.state };
}

/// Writes the list of no messages to pages, which are off and have no plan, before and behind the call.
pub fn prepare<P: Pages>(pages: P) -> P
    requires { ((P.memory pages).on ≡ false) × ((P.memory pages).plan ≡ None) }
    ensures stands { StandsForList (P.memory result).cells [] }
    ensures off { (P.memory result).on ≡ false }
    ensures plan { (P.memory result).plan ≡ None }
    ensures losses { (P.memory result).losses ≡ (P.memory pages).losses }
{
    let mut place = StorePlace::new(pages);
    place.format(&NONE);
    place.power_off();
    place.into_pages()
}

impl<P: Pages> CaptureList<P> {
    /// The place of pages that are off.
    pub(crate) fn new(pages: P) -> CaptureList<P>
        requires { (P.memory pages).on ≡ false }
        ensures { result.memory ≡ P.memory pages }
    {
        CaptureList {
            place: StorePlace::new(pages),
        }
    }

    /// Plans a tear, or none, for pages that are off.
    pub(crate) fn plan(&mut self, tear: Option<Tear>)
        requires off { self.old.memory.on ≡ false }
        requires tear { IsTrue (is_plan tear) }
        ensures { self.new.memory ≡ planned self.old.memory tear }
    {
        self.place.plan(tear);
    }

    /// Turns on pages that hold one of two lists, and finds it. `prepare` and every later call leave them so.
    ///
    /// `Gone` comes exactly where a tear is planned before the first commit. The pages hold one of the two then
    /// still.
    pub(crate) fn open(&mut self) -> Result<(), Gone>
        requires off { self.old.memory.on ≡ false }
        requires stands { (before : List (List ℕ)) × (after : List (List ℕ)) × StandForOneOf self.old.memory.cells before after }
        ensures found { OnOk result ((before after : List (List ℕ)) → StandForOneOf self.old.memory.cells before after
            → (self.new.list ≡ before) ⊎ (self.new.list ≡ after)) }
        ensures opens { OnOk result (OpensList self.old.memory self.new) }
        ensures lost { OnErr result ((before after : List (List ℕ)) → StandForOneOf self.old.memory.cells before after
            → StandForOneOf self.new.memory.cells before after) }
        ensures gone { OnErr result (LostAt self.old.memory self.new.memory) }
    {
        match self.place.power_up() {
            Ok(()) => {}
            Err(Gone) => return Err(Gone),
        }
        Ok(())
    }

    /// Whether the pages are on.
    pub(crate) fn is_on(&self) -> bool
        ensures { result ≡ self.now.memory.on }
    {
        self.place.is_on()
    }

    /// How many messages the list has.
    pub(crate) fn count(&self) -> usize
        requires { self.now.memory.on ≡ true }
        ensures { (result ≡ length self.now.list) × (result ≤ 7) }
    {
        usize::from(count_in(self.place.state()))
    }

    /// The oldest message. `None` exactly where there is none.
    pub(crate) fn first(&self) -> Option<&[u8]>
        requires { self.now.memory.on ≡ true }
        ensures { (option_map (λ message. message.now) result ≡ slice_get self.now.list 0) × IfSome result (λ message. IsCaptureMessage message.now) }
    {
        if self.count() == 0 {
            return None;
        }
        Some(first_in(self.place.state()))
    }

    /// Adds a message behind the others: one commit, and its release.
    ///
    /// `Gone` comes exactly where the plan names this commit.
    pub(crate) fn add(&mut self, message: &[u8]) -> Result<(), Gone>
        requires on { self.old.memory.on ≡ true }
        requires may { MayAdd self.old.list message.now }
        ensures made { OnOk result (MakesCall self.old (Adds message.now) self.new) }
        ensures cut { OnErr result (CutsCall self.old (Adds message.now) self.new.memory) }
    {
        let mut longer = State::new();
        put_longer(self.place.state(), message, &mut longer);
        self.commit(longer.as_slice())
    }

    /// Drops the oldest message: one commit, and its release.
    ///
    /// `Gone` comes exactly where the plan names this commit.
    pub(crate) fn drop_first(&mut self) -> Result<(), Gone>
        requires some { (self.old.memory.on ≡ true) × (0 < length self.old.list) }
        ensures made { OnOk result (MakesCall self.old Drops self.new) }
        ensures cut { OnErr result (CutsCall self.old Drops self.new.memory) }
    {
        let mut shorter = State::new();
        put_shorter(self.place.state(), &mut shorter);
        self.commit(shorter.as_slice())
    }

    /// Writes the state of the list behind a call, and releases it.
    fn commit(&mut self, new: &[u8]) -> Result<(), Gone>
        requires on { self.old.memory.on ≡ true }
        requires state { IsState new.now }
        requires fits { length new.now ≤ 1024 }
        ensures made { OnOk result ((call : Call) → list_of_state new.now ≡ called self.old.list call
            → MakesCall self.old call self.new) }
        ensures cut { OnErr result ((call : Call) → list_of_state new.now ≡ called self.old.list call
            → CutsCall self.old call self.new.memory) }
    {
        let written = match self.place.commit(new) {
            Ok(written) => written,
            Err(Gone) => return Err(Gone),
        };
        match written.release() {
            Ok(()) => {}
            Err(Gone) => return Err(Gone),
        }
        Ok(())
    }

    /// Turns the pages off. They stand for the list.
    pub(crate) fn power_off(&mut self)
        requires { self.old.memory.on ≡ true }
        ensures memory { self.new.memory ≡ powered_off self.old.memory }
        ensures stands { StandsForList self.new.memory.cells self.old.list }
    {
        self.place.power_off();
    }

    /// Gives the pages, on or off as they are.
    pub(crate) fn into_pages(self) -> P
        ensures { P.memory result ≡ self.memory }
    {
        let CaptureList { place } = self;
        place.into_pages()
    }
}
