//! A store in its place, whose calls change it there.
ghost use Rattle.std.specs.Prelude.{◌≡◌, ◌≤◌, ◌⊎◌, ◌++◌, ℕ, List, length, map, Contains, true, false};
ghost use Rattle.std.specs.Prelude.{IfOk, OnOk, OnErr, IsTrue};
ghost use Rattle.emv_ports.specs.Cut.{is_plan};
ghost use Rattle.emv_ports.specs.Memory.{planned, powered_off};
ghost use Rattle.torn_store.specs.Conversion.{converted};
ghost use Rattle.torn_store.specs.Layout.{recover};
ghost use Rattle.torn_store.specs.Recovery.{Holds, Among, Between};
ghost use Rattle.torn_store.specs.Writing.{LostAt};

use crate::commits::{commit_state, prepare, repair_with};
use crate::convert::{Convert, Keep};
use crate::layout::State;
use emv_ports::{Gone, Pages, Tear};
use std::marker::Model;

/// The place of a store: its pages, on or off, and the state that they stand for while they are on.
#[derive(Drop)]
pub struct StorePlace<P: Pages> {
    pages: P,
    on: bool,
    state: State,
}

impl<P: Pages> Model for StorePlace<P> {
    ghost use Rattle.std.specs.Prelude.{◌≡◌};
    ghost use Rattle.torn_store.specs.Store.{Stored};
    ghost use Rattle.torn_store.specs.Placed.{IsPlaced};

    ghost Value = { Stored };

    ghost view = { λ s. record { memory = P.memory s.pages; state = s.state.items } };

    ghost invariant = { λ s. (s.on ≡ (P.memory s.pages).on) × IsPlaced (P.memory s.pages) s.state.items };
}

/// A commit that is written and not yet released. It can't be dropped: only `release` spends it. Until then the
/// place is lent to it.
pub struct Written<'p, P: Pages> {
    place: &'p mut StorePlace<P>,
}

impl<P: Pages> StorePlace<P> {
    ghost use Rattle.std.specs.Borrow.{sem};
    ghost use Rattle.torn_store.specs.Lending.{place_rests};
    ghost use Rattle.torn_store.specs.Placed.{MayFormat, MayCommit, FormatsStore, OpensStore, Commits, CommitTorn, Releases, ReleaseTorn};

    /// The place of pages that are off.
    pub fn new(pages: P) -> StorePlace<P>
        requires { (P.memory pages).on ≡ false }
        ensures { result.memory ≡ P.memory pages }
    {
        StorePlace {
            pages,
            on: false,
            state: State::new(),
        }
    }

    /// Writes a first state to pages that are off and have no plan. They are turned on once, and stay on.
    pub fn format(&mut self, first: &[u8])
        requires { MayFormat self.old.memory first.now }
        ensures { FormatsStore self.old.memory first.now self.new }
    {
        prepare(&mut self.pages, first);
        self.on = true;
        fill(&mut self.state, first);
    }

    /// Plans a tear, or none, for pages that are off.
    pub fn plan(&mut self, tear: Option<Tear>)
        requires off { self.old.memory.on ≡ false }
        requires tear { IsTrue (is_plan tear) }
        ensures memory { self.new.memory ≡ planned self.old.memory tear }
    {
        self.pages.plan(tear);
    }

    /// As `power_up_with`, and leaves the state as it is.
    pub fn power_up(&mut self) -> Result<(), Gone>
        requires off { self.old.memory.on ≡ false }
        requires between { (before : List ℕ) × (after : List ℕ) × Between recover self.old.memory.cells before after }

        ensures found { OnOk result ((before after : List ℕ) → Between recover self.old.memory.cells before after
            → (self.new.state ≡ before) ⊎ (self.new.state ≡ after)) }
        ensures opens { OnOk result (OpensStore self.old.memory self.new) }
        ensures lost { OnErr result ((before after : List ℕ) → Between recover self.old.memory.cells before after
            → Between recover self.new.memory.cells before after) }
        ensures gone { OnErr result (LostAt self.old.memory self.new.memory) }
    {
        self.power_up_with(&Keep)
    }

    /// Turns the pages on, finds the state, and writes the new one that a conversion makes of it, if it makes one.
    /// The pages stand for one of some states, and behind a `Gone` for one of these or of their new states.
    ///
    /// `Gone` comes exactly where a tear is planned before the first commit.
    pub fn power_up_with<C: Convert>(&mut self, convert: &C) -> Result<(), Gone>
        requires off { self.old.memory.on ≡ false }
        requires among { (states : List (List ℕ)) × Among recover self.old.memory.cells states }

        ensures found { OnOk result ((states : List (List ℕ)) → Among recover self.old.memory.cells states
            → Contains (map (converted (C.means convert.now)) states) self.new.state) }
        ensures opens { OnOk result (OpensStore self.old.memory self.new) }
        ensures lost { OnErr result ((states : List (List ℕ)) → Among recover self.old.memory.cells states
            → Among recover self.new.memory.cells
            (states ++ map (converted (C.means convert.now)) states)) }
        ensures gone { OnErr result (LostAt self.old.memory self.new.memory) }
    {
        match repair_with(&mut self.pages, convert) {
            Ok(state) => {
                self.state = state;
                self.on = true;
                Ok(())
            }
            Err(Gone) => Err(Gone),
        }
    }

    /// Whether the pages are on.
    pub fn is_on(&self) -> bool
        ensures { result ≡ self.now.memory.on }
    {
        self.on
    }

    /// The state, while the pages are on.
    pub fn state(&self) -> &[u8]
        ensures value { result.now ≡ self.now.state }
        ensures holds { self.now.memory.on ≡ true → Holds recover self.now.memory.cells self.now.state }
        ensures fits { length result.now ≤ 1024 }
    {
        self.state.as_slice()
    }

    /// Writes a new state, which `release` of the answer settles.
    ///
    /// `Gone` comes exactly where the plan cuts one of the commit's writes. Then the pages are between the old
    /// state and the new one, and stand for the old one where the first write was cut before it began.
    pub fn commit(&mut self, new: &[u8]) -> Result<Written<'_, P>, Gone>
        requires may { MayCommit self.old new.now }
        ensures* rests { sem 𝓛 (place_rests P.row P.Pages self.entry new.now result) }
        ensures same_reference { IfOk result (λ written. written.place.ghost_name ≡ self.entry.ghost_name) }
        ensures commits { IfOk result (λ written. Commits self.old new.now written.place.now) }
    {
        match self.write(new) {
            Ok(()) => Ok(Written { place: self }),
            Err(Gone) => Err(Gone),
        }
    }

    /// Writes a new state, and doesn't release it.
    pub(crate) fn write(&mut self, new: &[u8]) -> Result<(), Gone>
        requires may { MayCommit self.old new.now }
        ensures commits { OnOk result (Commits self.old new.now self.new) }
        ensures torn { OnErr result (CommitTorn self.old new.now self.new.memory) }
    {
        match commit_state(&mut self.pages, self.state.as_slice(), new) {
            Ok(()) => {
                fill(&mut self.state, new);
                Ok(())
            }
            Err(Gone) => {
                self.on = false;
                Err(Gone)
            }
        }
    }

    /// Releases what was written.
    pub(crate) fn settle(&mut self) -> Result<(), Gone>
        requires on { self.old.memory.on ≡ true }
        ensures released { OnOk result (Releases self.old self.new) }
        ensures torn { OnErr result (ReleaseTorn self.old self.new.memory) }
    {
        match self.pages.release() {
            Ok(()) => Ok(()),
            Err(Gone) => {
                self.on = false;
                Err(Gone)
            }
        }
    }

    /// Turns the pages off. They stand for the state.
    pub fn power_off(&mut self)
        requires on { self.old.memory.on ≡ true }
        ensures memory { self.new.memory ≡ powered_off self.old.memory }
        ensures holds { Holds recover self.new.memory.cells self.old.state }
    {
        self.pages.power_off();
        self.on = false;
    }

    /// Gives the pages, on or off as they are.
    pub fn into_pages(self) -> P
        ensures { P.memory result ≡ self.memory }
    {
        let StorePlace { pages, .. } = self;
        pages
    }
}

impl<P: Pages> Written<'_, P> {
    ghost use Rattle.torn_store.specs.Placed.{Releases, ReleaseTorn};

    /// Releases the commit.
    ///
    /// `Gone` comes exactly where the plan cuts the release. The pages stand for the new state then too.
    pub fn release(self) -> Result<(), Gone>
        requires on { self.place.now.memory.on ≡ true }
        ensures released { OnOk result (Releases self.entry.place.now self.exit.0.now) }
        ensures torn { OnErr result (ReleaseTorn self.entry.place.now self.exit.0.now.memory) }
    {
        let Written { place } = self;
        place.settle()
    }
}

/// Puts the bytes of a state in the place of another.
fn fill(state: &mut State, bytes: &[u8])
    requires { length bytes.now ≤ 1024 }
    ensures { state.new.items ≡ bytes.now }
{
    state.clear();
    match state.try_extend_from_slice(bytes) {
        Ok(()) => {}
        Err(_) => unreachable!(),
    }
}
