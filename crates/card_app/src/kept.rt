//! The pages of a card in their place, with the state that they hold while it is on.
ghost use Rattle.std.specs.Prelude.{◌≡◌, ◌<◌, ◌≤◌, ℕ, List, [], ◌∷◌, Bool, Option, Some, None, length, slice_get, true, false, IsTrue, OnOk, OnErr};
ghost use Rattle.card_state.specs.Decisions.{Decided};
ghost use Rattle.card_state.specs.Encoding.{HasShortLogs};
ghost use Rattle.card_state.specs.Totals.{totals};
ghost use Rattle.card_state.specs.declared.state.CardState.{CardState as State};
ghost use Rattle.emv_ports.specs.Cut.{names_commit, is_plan};
ghost use Rattle.emv_ports.specs.Memory.{planned, powered_off};
ghost use Rattle.emv_ports.specs.declared.tear.Tear.{Tear as Plan};
ghost use Rattle.torn_store.specs.Layout.{recover};
ghost use Rattle.torn_store.specs.Recovery.{Holds};
ghost use Rattle.torn_store.specs.Store.{HasLostPower};
ghost use Rattle.torn_store.specs.Writing.{LostAt};
ghost use Rattle.card_app.specs.Pages.{StandsFor, MayStand, found_of, upgraded};
ghost use Rattle.card_app.specs.SeenKept.{KeptOn, Takes, StaysOn, IsCutAlone, MayTake};

use arrayvec::ArrayVec;
use card_state::{CardState, Decision, apply, decode, decode_one, encode, encode_one, with_limits};
use emv_ports::{Gone, Pages, Tear};
use std::marker::Model;
use torn_store::{Convert, StorePlace};

/// The place of a card's pages, on or off, and the state that they hold while they are on.
#[derive(Drop)]
pub struct CardPages<P: Pages> {
    place: StorePlace<P>,
    state: CardState,
}

impl<P: Pages> Model for CardPages<P> {
    ghost use Rattle.std.specs.Prelude.{◌≡◌, true};
    ghost use Rattle.card_state.specs.Encoding.{encoding, HasShortLogs};
    ghost use Rattle.card_app.specs.SeenKept.{KeptState};

    ghost Value = { KeptState };

    ghost view = { λ k. record { memory = k.place.memory; state = k.state } };

    ghost invariant = { λ k. (k.place.memory.on ≡ true → k.place.state ≡ encoding k.state) × HasShortLogs k.state };
}

/// The conversion of states of version 1, with the limits of an opening state.
#[derive(Drop)]
struct Upgrade<'a> {
    opening: &'a CardState,
}

impl Convert for Upgrade<'_> {
    ghost means = { λ u bytes. upgraded u.opening.now bytes };

    fn convert(&self, old: &[u8], out: &mut ArrayVec<u8, 1024>) -> bool {
        match decode_one(old) {
            Some(state) => {
                encode(&with_limits(self.opening, &state), out);
                true
            }
            None => false,
        }
    }
}

/// Writes a card's state before its first decision, in version 1 or 2, to pages, which are off and have no plan,
/// before and behind the call.
pub fn format<P: Pages>(opening: &CardState, version: u8, pages: P) -> P
    requires version { (1 ≤ version) × (version ≤ 2) }
    requires none { totals opening.now [] ≡ opening.now }
    requires short { HasShortLogs opening.now }
    requires off { (P.memory pages).on ≡ false }
    requires plan { (P.memory pages).plan ≡ None }
    ensures stands { StandsFor (P.memory result).cells version opening.now [] }
    ensures off { (P.memory result).on ≡ false }
    ensures plan { (P.memory result).plan ≡ None }
    ensures losses { (P.memory result).losses ≡ (P.memory pages).losses }
{
    let mut bytes = ArrayVec::new();
    encode(opening, &mut bytes);
    if version == 1 {
        encode_one(opening, &mut bytes);
        return written(bytes.as_slice(), pages);
    }
    written(bytes.as_slice(), pages)
}

/// The pages with this first state.
fn written<P: Pages>(bytes: &[u8], pages: P) -> P
    requires fits { length bytes.now ≤ 1024 }
    requires off { (P.memory pages).on ≡ false }
    requires plan { (P.memory pages).plan ≡ None }
    ensures holds { Holds recover (P.memory result).cells bytes.now }
    ensures off { (P.memory result).on ≡ false }
    ensures plan { (P.memory result).plan ≡ None }
    ensures losses { (P.memory result).losses ≡ (P.memory pages).losses }
{
    let mut place = StorePlace::new(pages);
    place.format(bytes);
    place.power_off();
    place.into_pages()
}

impl<P: Pages> CardPages<P> {
    /// The place of pages that are off.
    pub fn new(pages: P) -> CardPages<P>
        requires { (P.memory pages).on ≡ false }
        ensures { result.memory ≡ P.memory pages }
    {
        CardPages {
            place: StorePlace::new(pages),
            state: CardState {
                blocked: false,
                apps: ArrayVec::new(),
            },
        }
    }

    /// Plans a tear, or none, for pages that are off.
    pub fn plan(&mut self, tear: Option<Tear>)
        requires off { self.old.memory.on ≡ false }
        requires tear { IsTrue (is_plan tear) }
        ensures { self.new.memory ≡ planned self.old.memory tear }
    {
        self.place.plan(tear);
    }

    /// Turns on pages that may stand for the decisions of a card with this opening state, as `format` and every
    /// later call leave them, and reads their state. Bytes of version 1 are written again in version 2, before
    /// the first decision. What is found is the list of decisions that are kept, or that list with the pending
    /// one.
    ///
    /// `Gone` comes exactly where a tear is planned before the first decision. The pages stand then for
    /// what they stood for.
    pub fn power_up(&mut self, opening: &CardState) -> Result<(), Gone>
        requires off { self.old.memory.on ≡ false }
        requires stands { (version : ℕ) × (kept : List Decided) × (pending : Option Decided)
            × MayStand self.old.memory.cells version opening.now kept pending }
        ensures found { OnOk result ((version : ℕ) (kept : List Decided) (pending : Option Decided)
            → MayStand self.old.memory.cells version opening.now kept pending
            → (with_it : Bool) × KeptOn self.new opening.now (found_of kept pending with_it) self.old.memory.plan 0) }
        ensures on { OnOk result (self.new.memory.on ≡ true) }
        ensures spared { OnOk result (names_commit self.old.memory.plan 0 ≡ false) }
        ensures losses { OnOk result (self.new.memory.losses ≡ self.old.memory.losses) }
        ensures lost { OnErr result ((version : ℕ) (kept : List Decided) (pending : Option Decided)
            → MayStand self.old.memory.cells version opening.now kept pending
            → MayStand self.new.memory.cells version opening.now kept pending) }
        ensures gone { OnErr result (LostAt self.old.memory self.new.memory) }
    {
        let upgrade = Upgrade { opening };
        match self.place.power_up_with(&upgrade) {
            Ok(()) => {}
            Err(Gone) => return Err(Gone),
        }
        match decode(self.place.state()) {
            Some(state) => {
                self.state = state;
                Ok(())
            }
            None => unreachable!(),
        }
    }

    /// Whether the pages are on.
    pub fn is_on(&self) -> bool
        ensures { result ≡ self.now.memory.on }
    {
        self.place.is_on()
    }

    /// The state, while the pages are on.
    pub fn state(&self) -> &CardState
        ensures value { result.now ≡ self.now.state }
        ensures short { HasShortLogs result.now }
    {
        &self.state
    }

    /// Takes one decision of an application that is there, and whose state allows it: a commit, and its
    /// release.
    ///
    /// `Gone` comes exactly where the plan names this commit. The decision is dropped then where the
    /// plan cuts its first write before it begins, kept at the release, and pending at any other place.
    #[tactic(auto, unfolding(crate::specs::Cuts::cut_of))]
    pub fn decide(&mut self, app: u8, decision: &Decision) -> Result<(), Gone>
        requires on { self.old.memory.on ≡ true }
        requires in_range { app < length self.old.state.apps.items }
        requires allowed { MayTake self.old.state app decision.now }
        ensures takes { OnOk result (Takes self.old self.new (record { app = app; decision = decision.now } ∷ [])) }
        ensures stays { OnOk result (StaysOn self.old self.new) }
        ensures cut { OnErr result (IsCutAlone self.old self.new.memory (record { app = app; decision = decision.now })) }
        ensures gone { OnErr result (HasLostPower self.old.memory self.new.memory) }
    {
        apply(&mut self.state, app, decision);
        let mut bytes = ArrayVec::new();
        encode(&self.state, &mut bytes);
        let written = match self.place.commit(bytes.as_slice()) {
            Ok(written) => written,
            Err(Gone) => return Err(Gone),
        };
        match written.release() {
            Ok(()) => {}
            Err(Gone) => return Err(Gone),
        }
        Ok(())
    }

    /// Turns the pages off. They stand for the decisions.
    pub fn power_off(&mut self)
        requires on { self.old.memory.on ≡ true }
        ensures memory { self.new.memory ≡ powered_off self.old.memory }
        ensures stands { (opening : State) (ds : List Decided) (plan : Option Plan) (made : ℕ) (version : ℕ)
            → KeptOn self.old opening ds plan made → StandsFor self.new.memory.cells version opening ds }
    {
        self.place.power_off();
    }

    /// Gives the pages, on or off as they are.
    pub fn into_pages(self) -> P
        ensures { P.memory result ≡ self.memory }
    {
        let CardPages { place, .. } = self;
        place.into_pages()
    }
}
