//! The store by value, for who hands it from call to call: each call takes it and gives it back, or behind a loss
//! of power its pages. The work is that of `StorePlace`.
ghost use Rattle.std.specs.Prelude.{◌≡◌, ◌≤◌, ◌⊎◌, ◌++◌, ℕ, List, length, map, Contains, false, IfOk, IfErr};
ghost use Rattle.emv_ports.specs.Memory.{powered_off};
ghost use Rattle.torn_store.specs.Conversion.{converted};
ghost use Rattle.torn_store.specs.Layout.{recover};
ghost use Rattle.torn_store.specs.Placed.{MayFormat, FormatsStore, OpensStore, Commits, CommitTorn, Releases, ReleaseTorn};
ghost use Rattle.torn_store.specs.Recovery.{Holds, Among, Between};
ghost use Rattle.torn_store.specs.Writing.{LostAt};

use crate::convert::{Convert, Keep};
use crate::place::StorePlace;
use emv_ports::{Gone, Pages};
use std::marker::Model;

/// The pages, behind a loss of power: they are off, and no tear is planned.
#[derive(Drop)]
pub struct Lost<P: Drop> {
    pub pages: P,
}

/// Pages that are on, and the state that they stand for.
#[derive(Drop)]
pub struct Store<P: Pages> {
    place: StorePlace<P>,
}

impl<P: Pages> Model for Store<P> {
    ghost use Rattle.std.specs.Prelude.{◌≡◌, true};
    ghost use Rattle.torn_store.specs.Store.{Stored};

    ghost Value = { Stored };

    ghost view = { λ s. s.place };

    ghost invariant = { λ s. s.place.memory.on ≡ true };
}

/// A commit that is written and not yet released: it can't be dropped, and only `release` gives
/// the store back.
pub struct Settled<P: Pages> {
    store: Store<P>,
}

impl<P: Pages> Model for Settled<P> {
    ghost use Rattle.torn_store.specs.Store.{Stored};

    ghost Value = { Stored };

    ghost view = { λ s. s.store };
}

impl<P: Pages> Store<P> {
    /// Writes a first state to pages that are off and have no plan.
    pub fn format(pages: P, first: &[u8]) -> Store<P>
        requires { MayFormat (P.memory pages) first.now }
        ensures { FormatsStore (P.memory pages) first.now result }
    {
        let mut place = StorePlace::new(pages);
        place.format(first);
        Store { place }
    }

    /// Turns the pages on and finds the state. The pages are as `format`, or any later call, left
    /// them: whatever their unsure cells give, they stand for one of two states.
    ///
    /// `Lost` comes exactly where a tear is planned before the first commit: at a write of the
    /// repair, or at its release.
    pub fn open(pages: P) -> Result<Store<P>, Lost<P>>
        requires off { (P.memory pages).on ≡ false }
        requires between { (before : List ℕ) × (after : List ℕ) × Between recover (P.memory pages).cells before after }

        ensures found { IfOk result (λ store. (before after : List ℕ)
            → Between recover (P.memory pages).cells before after
            → (store.state ≡ before) ⊎ (store.state ≡ after)) }
        ensures opens { IfOk result (λ store. OpensStore (P.memory pages) store) }
        ensures lost { IfErr result (λ lost. (before after : List ℕ)
            → Between recover (P.memory pages).cells before after
            → Between recover (P.memory lost.pages).cells before after) }
        ensures gone { IfErr result (λ lost. LostAt (P.memory pages) (P.memory lost.pages)) }
    {
        Store::open_with(pages, &Keep)
    }

    /// As `open`, and then writes the new state that a conversion makes of the state, if it makes
    /// one, before the first commit. The pages stand for one of some states, and behind a `Lost`
    /// for one of these or of their new states: a later call finds it and converts it.
    ///
    /// `Lost` comes exactly where a tear is planned before the first commit: at a write of the
    /// repair or of the new state, or at the release.
    pub fn open_with<C: Convert>(pages: P, convert: &C) -> Result<Store<P>, Lost<P>>
        requires off { (P.memory pages).on ≡ false }
        requires among { (states : List (List ℕ)) × Among recover (P.memory pages).cells states }

        ensures found { IfOk result (λ store. (states : List (List ℕ))
            → Among recover (P.memory pages).cells states
            → Contains (map (converted (C.means convert.now)) states) store.state) }
        ensures opens { IfOk result (λ store. OpensStore (P.memory pages) store) }
        ensures lost { IfErr result (λ lost. (states : List (List ℕ))
            → Among recover (P.memory pages).cells states
            → Among recover (P.memory lost.pages).cells
            (states ++ map (converted (C.means convert.now)) states)) }
        ensures gone { IfErr result (λ lost. LostAt (P.memory pages) (P.memory lost.pages)) }
    {
        let mut place = StorePlace::new(pages);
        match place.power_up_with(convert) {
            Ok(()) => Ok(Store { place }),
            Err(Gone) => Err(cut_off(place)),
        }
    }

    /// The state.
    pub fn state(&self) -> &[u8]
        ensures value { result.now ≡ self.now.state }
        ensures holds { Holds recover self.now.memory.cells self.now.state }
        ensures fits { length result.now ≤ 1024 }
    {
        self.place.state()
    }

    /// Writes a new state, which `release` of the answer settles.
    ///
    /// `Lost` comes exactly where the plan cuts one of the commit's writes. Then the pages are
    /// between the old state and the new one, and stand for the old one where the first write was
    /// cut before it began.
    pub fn commit(self, new: &[u8]) -> Result<Settled<P>, Lost<P>>
        requires { length new.now ≤ 1024 }
        ensures commits { IfOk result (λ settled. Commits self new.now settled) }
        ensures torn { IfErr result (λ lost. CommitTorn self new.now (P.memory lost.pages)) }
    {
        let Store { mut place } = self;
        match place.write(new) {
            Ok(()) => Ok(Settled {
                store: Store { place },
            }),
            Err(Gone) => Err(cut_off(place)),
        }
    }

    /// Turns the pages off.
    pub fn into_pages(self) -> P
        ensures memory { P.memory result ≡ powered_off self.memory }
        ensures holds { Holds recover (P.memory result).cells self.state }
    {
        let Store { mut place } = self;
        place.power_off();
        place.into_pages()
    }
}

impl<P: Pages> Settled<P> {
    /// Releases the commit, and gives the store back.
    ///
    /// `Lost` comes exactly where the plan cuts the release. The pages stand for the new state then
    /// too.
    pub fn release(self) -> Result<Store<P>, Lost<P>>
        ensures released { IfOk result (λ store. Releases self store) }
        ensures torn { IfErr result (λ lost. ReleaseTorn self (P.memory lost.pages)) }
    {
        let Settled { store } = self;
        let Store { mut place } = store;
        match place.settle() {
            Ok(()) => Ok(Store { place }),
            Err(Gone) => Err(cut_off(place)),
        }
    }
}

/// The pages of a place, behind a loss of power.
fn cut_off<P: Pages>(place: StorePlace<P>) -> Lost<P>
    ensures { P.memory result.pages ≡ place.memory }
{
    Lost {
        pages: place.into_pages(),
    }
}
