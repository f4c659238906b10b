//! A card in its place, whose calls change it there.
ghost use Rattle.std.specs.Prelude.{◌≡◌, ℕ, List, [], Bool, Option, None, length, true, false, IsTrue, OnOk, OnErr};
ghost use Rattle.card_files.specs.Files.{opening_of};
ghost use Rattle.card_state.specs.Decisions.{Decided};
ghost use Rattle.card_state.specs.Totals.{totals as totals_of};
ghost use Rattle.emv_ports.specs.Cut.{names_commit, is_plan};
ghost use Rattle.emv_ports.specs.Memory.{powered_off};
ghost use Rattle.emv_ports.specs.declared.tear.Tear.{Tear as Plan};
ghost use Rattle.card_app.specs.Answering.{card_answer};
ghost use Rattle.card_app.specs.AtWork.{IsAppThere};
ghost use Rattle.card_app.specs.Foretelling.{decisions_foretold};
ghost use Rattle.card_app.specs.Reasons.{why_of};
ghost use Rattle.card_app.specs.SeenIcc.{IccOn, IccOff, IsIccOff, AnswersIcc, CutsIcc, AllowsIcc, StaysCard, LosesCard, icc_is_powered as has_power, icc_losses};
ghost use Rattle.card_app.specs.Session.{Exchange};
ghost use Rattle.card_app.specs.SeenCard.{CardOn, AnswersCard, CutsCard, AllowsCard, MayBeCard};
ghost use Rattle.card_app.specs.SeenReply as spec;
ghost use Rattle.card_app.specs.SeenReply.{MayReply, reply_data};
ghost use Rattle.card_app.specs.Pages.{MayStand, StandsFor, found_of};
ghost use Rattle.card_app.specs.PageReplies.{SaysReply};
ghost use Rattle.card_app.specs.SeenKept.{Takes, StaysOn, IsDecisionCut};
ghost use Rattle.torn_store.specs.Store.{HasLostPower};
ghost use Rattle.torn_store.specs.Writing.{LostAt};

use crate::answering::answer;
use crate::foretelling::{Foretold, decided_by};
use crate::reason::{Reason, reason_of};
use crate::reply::Reply;
use crate::work::CardAtWork;
use crate::{CardPages, compare, format, respond};
use apdu_core::Answer;
use card_cryptogram::{Body, Phase};
use card_files::Image;
use card_state::CardState;
use emv_ports::{Gone, Pages, Tear};
use std::marker::Model;

/// Makes pages a card of this image that has decided nothing yet. The pages are off and have no plan,
/// before and behind the call.
pub fn personalise<P: Pages>(image: &Image, pages: P) -> P
    requires off { (P.memory pages).on ≡ false }
    requires plan { (P.memory pages).plan ≡ None }
    ensures stands { StandsFor (P.memory result).cells image.now.version (opening_of image.now) [] }
    ensures off { (P.memory result).on ≡ false }
    ensures plan { (P.memory result).plan ≡ None }
    ensures losses { (P.memory result).losses ≡ (P.memory pages).losses }
{
    let mut opening = CardState::default();
    image.opening(&mut opening);
    format(&opening, image.version(), pages)
}

/// The place of a card, on or off: the image of its applications, its pages, and while it is on their state and
/// how far it has come since power-up. A call changes it where it is, and behind a loss of power it is off.
#[derive(Drop)]
pub struct Icc<'i, P: Pages> {
    image: &'i Image,
    kept: CardPages<P>,
    phase: Phase,
}

impl<'i, P: Pages> Model for Icc<'i, P> {
    ghost use Rattle.std.specs.Prelude.{◌≡◌, true};
    ghost use Rattle.card_app.specs.SeenCard.{CardSeen};
    ghost use Rattle.card_app.specs.SeenIcc.{IsIccInRange};

    ghost Value = { CardSeen };

    ghost view = { λ c. record { image = c.image.now; kept = c.kept; phase = c.phase } };

    ghost invariant = { λ c. c.kept.memory.on ≡ true
        → IsIccInRange (record { image = c.image.now; kept = c.kept; phase = c.phase }) };
}

impl<'i, P: Pages> Icc<'i, P> {
    /// The place of a card of this image, whose pages are off.
    pub(crate) fn of_pages(image: &'i Image, pages: P) -> Icc<'i, P>
        requires { (P.memory pages).on ≡ false }
        ensures image { result.image ≡ image.now }
        ensures memory { result.kept.memory ≡ P.memory pages }
    {
        Icc {
            image,
            kept: CardPages::new(pages),
            phase: Phase::Idle,
        }
    }

    /// Makes pages, which are off and have no plan, a card of this image that has decided nothing yet.
    pub fn new(image: &'i Image, pages: P) -> Icc<'i, P>
        requires off { (P.memory pages).on ≡ false }
        requires plan { (P.memory pages).plan ≡ None }
        ensures off { IccOff result [] None }
        ensures image { result.image ≡ image.now }
        ensures losses { icc_losses result ≡ (P.memory pages).losses }
    {
        Icc::of_pages(image, personalise(image, pages))
    }

    /// Turns it on, under a plan to cut the power once, or none, as `Card::power_up` does. `Gone` comes
    /// exactly where the plan cuts the power before the first decision: it is off then still.
    pub fn power_up(&mut self, tear: Option<Tear>) -> Result<(), Gone>
        requires stands { IsIccOff self.old }
        requires tear { IsTrue (is_plan tear) }
        ensures found { OnOk result ((kept : List Decided) (pending : Option Decided) → IccOff self.old kept pending
            → (with_it : Bool) × IccOn self.new [] (found_of kept pending with_it) tear 0) }
        ensures lost { OnErr result ((kept : List Decided) (pending : Option Decided) → IccOff self.old kept pending
            → IccOff self.new kept pending) }
        ensures stays { OnOk result (StaysCard self.old self.new) }
        ensures spared { OnOk result (names_commit tear 0 ≡ false) }
        ensures cut { OnErr result (names_commit tear 0 ≡ true) }
        ensures loses { OnErr result (LosesCard self.old self.new) }
        ensures image { self.new.image ≡ self.old.image }
    {
        self.kept.plan(tear);
        self.turn_on()
    }

    /// Turns it on, under the plan that its pages have.
    pub(crate) fn turn_on(&mut self) -> Result<(), Gone>
        requires off { self.old.kept.memory.on ≡ false }
        requires stands { (kept : List Decided) × (pending : Option Decided) × MayBeCard self.old.image self.old.kept.memory kept pending }
        ensures found { OnOk result ((kept : List Decided) (pending : Option Decided) → MayBeCard self.old.image self.old.kept.memory kept pending
            → (with_it : Bool) × CardOn self.new [] (found_of kept pending with_it) self.old.kept.memory.plan 0) }
        ensures lost { OnErr result ((kept : List Decided) (pending : Option Decided) → MayBeCard self.old.image self.old.kept.memory kept pending
            → MayBeCard self.old.image self.new.kept.memory kept pending) }
        ensures stays { OnOk result (StaysCard self.old self.new) }
        ensures spared { OnOk result (names_commit self.old.kept.memory.plan 0 ≡ false) }
        ensures gone { OnErr result (LostAt self.old.kept.memory self.new.kept.memory) }
        ensures image { self.new.image ≡ self.old.image }
    {
        let mut opening = CardState::default();
        self.image.opening(&mut opening);
        match self.kept.power_up(&opening) {
            Ok(()) => {
                self.phase = Phase::Idle;
                Ok(())
            }
            Err(Gone) => Err(Gone),
        }
    }

    /// Answers a command, as `Card::process` does. `Gone` comes exactly where the plan cuts one of its
    /// decisions: it is off then, and `out` is empty.
    pub fn process(&mut self, command: &[u8], out: &mut Answer) -> Result<(), Gone>
        requires on { has_power self.old ≡ true }
        ensures answered { OnOk result (AnswersIcc self.old self.new command.now out.new.items) }
        ensures cut { OnErr result (CutsIcc self.old self.new command.now) }
        ensures allowed { AllowsIcc self.old command.now }
        ensures silent { OnErr result (out.new.items ≡ []) }
        ensures stays { OnOk result (StaysCard self.old self.new) }
        ensures loses { OnErr result (LosesCard self.old self.new) }
        ensures image { self.new.image ≡ self.old.image }
    {
        self.carry_on(command, out)
    }

    /// Answers a command, as `Card::process` does.
    pub(crate) fn carry_on(&mut self, command: &[u8], out: &mut Answer) -> Result<(), Gone>
        requires on { has_power self.old ≡ true }
        ensures answered { OnOk result (AnswersCard self.old self.new command.now out.new.items) }
        ensures cut { OnErr result (CutsCard self.old self.new.kept.memory command.now) }
        ensures allowed { AllowsCard self.old command.now }
        ensures silent { OnErr result (out.new.items ≡ []) }
        ensures stays { OnOk result (StaysCard self.old self.new) }
        ensures gone { OnErr result (HasLostPower self.old.kept.memory self.new.kept.memory) }
        ensures image { self.new.image ≡ self.old.image }
    {
        let mut body = Body::new();
        let at = CardAtWork {
            image: self.image,
            state: self.kept.state(),
            phase: self.phase,
        };
        let reply = answer(&at, command, &mut body);
        let phase = phase_behind(&at, &reply);
        match carry_out(&mut self.kept, reply, &body, out) {
            Ok(()) => {
                self.phase = phase;
                Ok(())
            }
            Err(Gone) => Err(Gone),
        }
    }

    /// What a command would make the card decide that is on. It stays as it is.
    pub fn foretell(&self, command: &[u8]) -> Foretold
        requires on { has_power self.now ≡ true }
        ensures { (session : List Exchange) (ds : List Decided) (plan : Option Plan) (made : ℕ) → IccOn self.now session ds plan made
            → decisions_foretold result ≡ (card_answer self.now.image ds session command.now).new }
    {
        let mut body = Body::new();
        let at = CardAtWork {
            image: self.image,
            state: self.kept.state(),
            phase: self.phase,
        };
        decided_by(&answer(&at, command, &mut body))
    }

    /// Why the cryptogram that a command would have the card make is of its kind, where it is on; none where it would make
    /// none.
    pub fn reason(&self, command: &[u8]) -> Option<Reason>
        requires on { has_power self.now ≡ true }
        ensures { (session : List Exchange) (ds : List Decided) (plan : Option Plan) (made : ℕ) → IccOn self.now session ds plan made
            → result ≡ why_of self.now.image ds session command.now }
    {
        let at = CardAtWork {
            image: self.image,
            state: self.kept.state(),
            phase: self.phase,
        };
        reason_of(&at, command)
    }

    /// Whether the card is on.
    pub fn is_on(&self) -> bool
        ensures exact { result ≡ has_power self.now }
        ensures off { (kept : List Decided) (pending : Option Decided) → IccOff self.now kept pending → result ≡ false }
    {
        self.kept.is_on()
    }

    /// The image of its applications.
    pub fn image(&self) -> &'i Image
        ensures { result.now ≡ self.now.image }
    {
        self.image
    }

    /// The state of the card that is on: the totals of its decisions.
    pub fn totals(&self) -> &CardState
        requires on { has_power self.now ≡ true }
        ensures state { result.now ≡ self.now.kept.state }
        ensures totals { (session : List Exchange) (ds : List Decided) (plan : Option Plan) (made : ℕ)
            → IccOn self.now session ds plan made → result.now ≡ totals_of (opening_of self.now.image) ds }
    {
        self.kept.state()
    }

    /// Turns it off. Its pages stand for its decisions.
    pub fn power_off(&mut self)
        requires on { has_power self.old ≡ true }
        ensures stands { (session : List Exchange) (ds : List Decided) (plan : Option Plan) (made : ℕ)
            → IccOn self.old session ds plan made → IccOff self.new ds None }
        ensures memory { self.new.kept.memory ≡ powered_off self.old.kept.memory }
        ensures off { has_power self.new ≡ false }
        ensures image { self.new.image ≡ self.old.image }
        ensures losses { icc_losses self.new ≡ icc_losses self.old }
    {
        self.kept.power_off();
    }

    /// Gives its pages, off.
    pub fn into_pages(self) -> P
        ensures may { (kept : List Decided) (pending : Option Decided) → IccOff self.entry kept pending
            → MayStand (P.memory result).cells self.entry.image.version (opening_of self.entry.image) kept pending }
        ensures stands { (session : List Exchange) (ds : List Decided) (plan : Option Plan) (made : ℕ)
            → IccOn self.entry session ds plan made → StandsFor (P.memory result).cells self.entry.image.version (opening_of self.entry.image) ds }
        ensures off { (P.memory result).on ≡ false }
        ensures losses { (P.memory result).losses ≡ icc_losses self.entry }
    {
        let Icc { mut kept, .. } = self;
        if !kept.is_on() {
            return kept.into_pages();
        }
        kept.power_off();
        kept.into_pages()
    }

    /// Gives the pages of a card that is off, as they are.
    pub(crate) fn off_pages(self) -> P
        ensures { P.memory result ≡ self.entry.kept.memory }
    {
        let Icc { kept, .. } = self;
        kept.into_pages()
    }
}

/// The phase behind a reply that the card may carry out.
fn phase_behind(at: &CardAtWork<'_>, reply: &Reply) -> Phase
    requires may { MayReply at.now.state.now reply.now }
    ensures phase { result ≡ spec.phase_behind at.now.phase reply.now }
    ensures at { IsAppThere result (length at.now.image.now.apps) }
{
    match *reply {
        Reply::Plain { phase, .. } | Reply::Decides { phase, .. } => phase,
        Reply::Compares(_) => at.phase,
    }
}

/// Carries out a reply with this body: its decisions, and then the answer.
fn carry_out<P: Pages>(
    kept: &mut CardPages<P>,
    reply: Reply,
    body: &Body,
    out: &mut Answer,
) -> Result<(), Gone>
    requires on { kept.old.memory.on ≡ true }
    requires may { MayReply kept.old.state reply }

    ensures takes { OnOk result (Takes kept.old kept.new (reply_data body.now.items reply).new) }
    ensures stays { OnOk result (StaysOn kept.old kept.new) }
    ensures says { OnOk result (SaysReply (reply_data body.now.items reply) out.new.items) }

    ensures cut { OnErr result (IsDecisionCut kept.old kept.new.memory (reply_data body.now.items reply).new) }
    ensures gone { OnErr result (HasLostPower kept.old.memory kept.new.memory) }
    ensures silent { OnErr result (out.new.items ≡ []) }
{
    match reply {
        Reply::Plain { status, .. } => {
            respond(body, status, out);
            Ok(())
        }
        Reply::Decides {
            app,
            decision,
            status,
            ..
        } => match kept.decide(app, &decision) {
            Ok(()) => {
                respond(body, status, out);
                Ok(())
            }
            Err(Gone) => {
                out.clear();
                Err(Gone)
            }
        },
        Reply::Compares(with) => compare(kept, &with, out),
    }
}
