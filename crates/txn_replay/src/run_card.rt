//! A card of a run in its place: one with applications, or one of canned answers.
ghost use Rattle.std.specs.Prelude.{◌≡◌, ◌≤◌, ◌<◌, ◌+◌, ◌∷◌, [], ℕ, List, Bool, true, false, is_some, length, slice_get, Option, Some, None, OnOk, OnErr, IsTrue};
ghost use Rattle.card_state.specs.Decisions.{Decided};
ghost use Rattle.emv_ports.specs.Cut.{is_plan};
ghost use Rattle.emv_ports.specs.Memory.{IsBlank};
ghost use Rattle.emv_ports.specs.declared.tear.Tear.{Tear as Plan};
ghost use Rattle.scenario_plan.specs.Cards.{IsKind, CardData};
ghost use Rattle.scenario_plan.specs.SeenCards.{seen_card};
ghost use Rattle.txn_replay.specs.Banked.{IsNew, IsRunCardLeft};
ghost use Rattle.txn_replay.specs.Called.{IsPowered, IsLost, IsCommandAnswered, IsCardGone, powered_line, no_answer_lines};
ghost use Rattle.txn_replay.specs.RunCard.{RunCardOn, RunCardOff, IsRunCardOf, HasLost, run_card_is_powered as has_power};
ghost use Rattle.txn_replay.specs.World.{CardRow};

use crate::lines::{Lines, tell_power, tell_power_canned};
use apdu_core::Answer;
use arrayvec::ArrayVec;
use ber_tlv::append;
use card_app::Icc;
use emv_ports::{Gone, Pages, Tear};
use scenario_plan::{CardKind, NamedCard};
use std::marker::Model;

/// A card of canned answers, and the pages at its place, which are never used.
#[derive(Drop)]
pub(crate) struct Canned<'s, P: Pages> {
    answers: &'s [Vec<u8>],
    /// How many of them it gave since power-up, where it is on.
    told: Option<usize>,
    pages: P,
}

impl<'s, P: Pages> Model for Canned<'s, P> {
    ghost use Rattle.std.specs.Prelude.{◌≤◌, map, length};
    ghost use Rattle.std.specs.List.{All};
    ghost use Rattle.txn_replay.specs.RunCard.{CannedSeen};

    ghost Value = { CannedSeen };

    ghost view = { λ c. record { answers = map (λ answer. answer.items) c.answers.now; told = c.told; pages = P.memory c.pages } };

    ghost invariant = { λ c. All (λ answer. length answer ≤ 258) (map (λ answer. answer.items) c.answers.now) };
}

impl<'s, P: Pages> Canned<'s, P> {
    /// Gives the next answer since power-up. `Gone` where none is left: it is off then.
    fn answer(&mut self, out: &mut Answer) -> Result<(), Gone>
        requires on { is_some self.old.told ≡ true }
        requires empty { out.old.items ≡ [] }
        ensures said { OnOk result ((told : ℕ) → self.old.told ≡ Some told → slice_get self.old.answers told ≡ Some out.new.items) }
        ensures told { OnOk result ((told : ℕ) → self.old.told ≡ Some told → self.new.told ≡ Some (told + 1)) }
        ensures none { OnErr result ((told : ℕ) → self.old.told ≡ Some told → slice_get self.old.answers told ≡ None) }
        ensures off { OnErr result (self.new.told ≡ None) }
        ensures answers { self.new.answers ≡ self.old.answers }
        ensures pages { self.new.pages ≡ self.old.pages }
    {
        let Some(told) = self.told.take() else {
            unreachable!();
        };
        let Some(answer) = self.answers.get(told) else {
            return Err(Gone);
        };
        append(out, answer.as_slice());
        self.told = Some(told + 1);
        Ok(())
    }
}

/// What a card answers by.
#[derive(Drop)]
pub(crate) enum RunCardKind<'s, P: Pages> {
    App(Icc<'s, P>),
    Canned(Canned<'s, P>),
}

/// A card of a run in its place.
#[derive(Drop)]
pub(crate) struct RunCard<'s, P: Pages>(pub(crate) RunCardKind<'s, P>);

impl<'s, P: Pages> Model for RunCard<'s, P> {
    ghost use Rattle.txn_replay.specs.SeenRunCard.{seen_run_card};
    ghost use Rattle.txn_replay.specs.RunCard.{RunCardSeen};

    ghost Value = { RunCardSeen };

    ghost view = { λ s. seen_run_card s.0 };
}

impl<'s, P: Pages> RunCard<'s, P> {
    /// A card before its first power-up, with blank pages.
    pub(crate) fn new(card: &'s NamedCard, pages: P) -> RunCard<'s, P>
        requires kind { IsKind (seen_card card.now).image (seen_card card.now).canned }
        requires blank { IsBlank (P.memory pages) }
        ensures new { IsNew (seen_card card.now) result }
    {
        match &card.kind {
            CardKind::App(image) => RunCard(RunCardKind::App(Icc::new(image, pages))),
            CardKind::Canned(answers) => RunCard(RunCardKind::Canned(Canned {
                answers: answers.as_slice(),
                told: None,
                pages,
            })),
        }
    }

    /// Turns it on. The tear is one of a card with applications: `Gone` comes exactly where it cuts such a
    /// card's power before the first decision. A card of canned answers begins with the first of them.
    pub(crate) fn power_up(&mut self, tear: Option<Tear>) -> Result<(), Gone>
        requires off { (kept : List Decided) × (pending : Option Decided) × RunCardOff self.old kept pending }
        requires tear { IsTrue (is_plan tear) }
        ensures powered { OnOk result ((card : CardData) (row : CardRow) → IsRunCardOf self.old card → RunCardOff self.old row.kept row.pending
            → (choice : Bool) × IsPowered self.new card row tear choice) }
        ensures lost { OnErr result ((card : CardData) (row : CardRow) → IsRunCardOf self.old card → RunCardOff self.old row.kept row.pending
            → HasLost self.old row.losses → IsLost self.new card row tear) }
        ensures on { OnOk result (has_power self.new ≡ true) }
        ensures is { (card : CardData) → IsRunCardOf self.old card → IsRunCardOf self.new card }
        ensures losses { OnOk result ((count : ℕ) → HasLost self.old count → HasLost self.new count) }
    {
        match &mut self.0 {
            RunCardKind::App(icc) => icc.power_up(tear),
            RunCardKind::Canned(canned) => {
                canned.told = Some(0);
                Ok(())
            }
        }
    }

    /// Answers a command. `Gone` comes exactly where the tear cuts one of its decisions, or no canned answer
    /// is left: it is off then.
    pub(crate) fn process(&mut self, command: &[u8], out: &mut Answer) -> Result<(), Gone>
        requires on { has_power self.old ≡ true }
        requires empty { out.old.items ≡ [] }
        ensures answered { OnOk result ((card : CardData) (row : CardRow) (plan : Option Plan) → IsRunCardOf self.old card → RunCardOn self.old row plan
            → IsCommandAnswered self.new card row plan command.now out.new.items) }
        ensures gone { OnErr result ((card : CardData) (row : CardRow) (plan : Option Plan) → IsRunCardOf self.old card → RunCardOn self.old row plan
            → HasLost self.old row.losses → IsCardGone self.new card row plan command.now card.canned) }
        ensures on { OnOk result (has_power self.new ≡ true) }
        ensures is { (card : CardData) → IsRunCardOf self.old card → IsRunCardOf self.new card }
        ensures losses { OnOk result ((count : ℕ) → HasLost self.old count → HasLost self.new count) }
    {
        match &mut self.0 {
            RunCardKind::App(icc) => icc.process(command, out),
            RunCardKind::Canned(canned) => canned.answer(out),
        }
    }

    /// Whether it is on.
    pub(crate) fn is_on(&self) -> bool
        ensures exact { result ≡ has_power self.now }
        ensures off { (kept : List Decided) (pending : Option Decided) → RunCardOff self.now kept pending → result ≡ false }
    {
        match &self.0 {
            RunCardKind::App(icc) => icc.is_on(),
            RunCardKind::Canned(canned) => canned.told.is_some(),
        }
    }

    /// Turns it off.
    pub(crate) fn power_off(&mut self)
        requires on { has_power self.old ≡ true }
        ensures off { (row : CardRow) (plan : Option Plan) → RunCardOn self.old row plan → RunCardOff self.new row.kept row.pending }
        ensures is { (card : CardData) → IsRunCardOf self.old card → IsRunCardOf self.new card }
        ensures losses { (count : ℕ) → HasLost self.old count → HasLost self.new count }
    {
        match &mut self.0 {
            RunCardKind::App(icc) => icc.power_off(),
            RunCardKind::Canned(canned) => canned.told = None,
        }
    }

    /// Gives its pages, off.
    pub(crate) fn into_pages(self) -> P
        ensures left { IsRunCardLeft self.entry (P.memory result) }
    {
        match self.0 {
            RunCardKind::App(icc) => icc.into_pages(),
            RunCardKind::Canned(canned) => canned.pages,
        }
    }

    /// The line of its power-up, in place of what the lines held.
    pub(crate) fn tell_power(&self, lane: u8, name: ArrayVec<u8, 16>, lines: &mut Lines)
        requires { has_power self.now ≡ true }
        ensures line { (card : CardData) (row : CardRow) (plan : Option Plan) → IsRunCardOf self.now card → RunCardOn self.now row plan → card.name ≡ name.items
            → lines.new.items ≡ powered_line lane card row.kept card.canned ∷ [] }
        ensures one { length lines.new.items ≡ 1 }
    {
        match &self.0 {
            RunCardKind::App(icc) => tell_power(lane, name, icc.image(), icc.totals(), lines),
            RunCardKind::Canned(_) => tell_power_canned(lane, name, lines),
        }
    }

    /// The lines of a command behind which it is gone, in place of what they held.
    pub(crate) fn tell_gone(&self, lane: u8, command: &[u8], lines: &mut Lines)
        requires command { length command.now ≤ 261 }
        ensures lines { (card : CardData) → IsRunCardOf self.now card → lines.new.items ≡ no_answer_lines lane command.now card.canned }
        ensures two { length lines.new.items ≡ 2 }
    {
        lines.clear();
        lines.to_card(lane, command);
        match &self.0 {
            RunCardKind::App(_) => lines.torn(lane),
            RunCardKind::Canned(_) => lines.gone(lane),
        }
    }
}
