//! Application selection with the candidates in its state (EMV 4.3 Book 1 sections 12.3.3 and 12.4).
ghost use Rattle.std.specs.Prelude.{◌≡◌, ◌≤◌, ◌∷◌, ◌++◌, ℕ, [], List, Bool, option_map};
ghost use Rattle.emv_dict.specs.Progress.{Progress, Wants, Leads};
ghost use Rattle.emv_dict.specs.Settings.{IsSettings, IsAidRow};
ghost use Rattle.emv_dict.specs.declared.purchase.AidRow.{AidRow};
ghost use Rattle.app_select.specs.Candidates.{CandidateData, candidates as candidates_among};
ghost use Rattle.app_select.specs.Chosen.{Follow, chosen, first_through, followed};
ghost use Rattle.app_select.specs.Leading.{selecting_rest};
ghost use Rattle.app_select.specs.Named.{BeginsWith, SelectBeginsWith, HaveRows, all_named};
ghost use Rattle.app_select.specs.NextLeads.{SearchNextLeads, NextHasRoom, SelectNextLeads};
ghost use Rattle.app_select.specs.Selecting.{SelectedData, first_selected, selecting};

use crate::candidates::Candidates;
use crate::naming::{Found, MOST_NAMES};
use crate::search::{Choice, Search, SearchNext};
use apdu_core::Out;
use arrayvec::ArrayVec;
use emv_dict::{AidRow, Cause, Settings};
use std::marker::Model;

/// Application selection that waits for an answer to SELECT, with its candidates: `Search` leaves them where
/// they are. What the rest of it makes of the answers to come is `selecting_rest`.
#[derive(Drop)]
pub struct Selecting<'s> {
    search: Search<'s>,
    candidates: Candidates<'s>,
}

impl<'s> Model for Selecting<'s> {
    ghost use Rattle.app_select.specs.Leading.{SelectingData, HasRoomForCandidates};

    ghost Value = { SelectingData };

    ghost view = { λ s. record { search = s.search; candidates = s.candidates } };

    ghost invariant = { λ s. HasRoomForCandidates s.search s.candidates };
}

/// An application that is selected, with the candidates behind it.
#[derive(Drop)]
pub struct Selected<'s> {
    choice: Choice<'s>,
    candidates: Candidates<'s>,
}

impl<'s> Model for Selected<'s> {
    ghost use Rattle.app_select.specs.Selecting.{SelectedData};
    ghost use Rattle.app_select.specs.Leading.{selected_with};

    ghost Value = { SelectedData };

    ghost view = { λ s. selected_with s.choice s.candidates };
}

/// How application selection goes on.
#[derive(Drop)]
pub enum SelectNext<'s> {
    /// The card is asked.
    Ask(Selecting<'s>),
    /// An application is selected.
    Chosen(Selected<'s>),
    /// The transaction ends for this cause.
    Ended(Cause),
}

impl<'s> Selecting<'s> {
    /// As `Search::begin`.
    pub fn begin(settings: &'s Settings, confirm: bool) -> Selecting<'s>
        requires { IsSettings settings.now }
        ensures leads { Leads (selecting settings.now.aids confirm) [] (selecting_rest result) }
    {
        Selecting {
            search: Search::begin(settings, confirm),
            candidates: Candidates::new(settings),
        }
    }

    /// As `Search::from_names`.
    pub fn from_names(
        settings: &'s Settings,
        confirm: bool,
        found: ArrayVec<Found, MOST_NAMES>,
    ) -> SelectNext<'s>
        requires settings { IsSettings settings.now }
        requires rows { HaveRows settings.now.aids found.items }
        ensures begins { SelectBeginsWith (candidates_among confirm (all_named settings.entry.now.aids found.items)) result }
    {
        let mut candidates = Candidates::new(settings);
        let next = Search::from_names(settings, confirm, found.as_slice(), &mut candidates);
        with_candidates(next, candidates)
    }

    /// As `Search::ask`.
    pub fn ask(&self, out: &mut Out)
        ensures wants { (whole : List (List ℕ) → Progress SelectedData) (answers : List (List ℕ))
            → Leads whole answers (selecting_rest self.now) → whole answers ≡ Wants out.new.items }
    {
        self.search.ask(out);
    }

    /// As `Search::take`.
    pub fn take(self, reply: &[u8]) -> SelectNext<'s>
        ensures leads { (whole : List (List ℕ) → Progress SelectedData) (answers : List (List ℕ))
            → Leads whole answers (selecting_rest self.entry) → SelectNextLeads whole (answers ++ reply.now ∷ []) result }
    {
        let Selecting {
            search,
            mut candidates,
        } = self;
        let next = search.take(&mut candidates, reply);
        with_candidates(next, candidates)
    }
}

impl<'s> Selected<'s> {
    /// The terminal's row of the application.
    pub fn row(&self) -> &'s AidRow
        ensures row { result.now ≡ self.now.row }
        ensures valid { IsAidRow result.now }
    {
        self.choice.row()
    }

    /// The processing options data object list (9F38), where the card gave one.
    pub fn pdol(&self) -> Option<&[u8]>
        ensures { option_map (λ list. list.now) result ≡ self.now.pdol }
    {
        self.choice.pdol()
    }

    /// As `Choice::refuse`.
    pub fn refuse(self) -> SelectNext<'s>
        ensures leads { (whole : List (List ℕ) → Progress SelectedData) (answers : List (List ℕ))
            → Leads whole answers (first_selected self.entry.left) → SelectNextLeads whole answers result }
    {
        let Selected {
            choice,
            mut candidates,
        } = self;
        let next = choice.refuse(&mut candidates);
        with_candidates(next, candidates)
    }
}

/// The same with the candidates.
fn with_candidates<'s>(next: SearchNext<'s>, candidates: Candidates<'s>) -> SelectNext<'s>
    requires { NextHasRoom next candidates }
    ensures begins { (among : List CandidateData) → BeginsWith among next.entry candidates.entry → SelectBeginsWith among result }
    ensures leads { (whole : List (List ℕ) → Progress SelectedData) (answers : List (List ℕ))
        → SearchNextLeads candidates.entry whole answers next.entry → SelectNextLeads whole answers result }
{
    match next {
        SearchNext::Ask(search) => SelectNext::Ask(Selecting { search, candidates }),
        SearchNext::Chosen(choice) => SelectNext::Chosen(Selected { choice, candidates }),
        SearchNext::Ended(cause) => SelectNext::Ended(cause),
    }
}

/// The steps, chained, give the chosen application: where the one that was selected is refused, the
/// candidates behind it are tried.
pub fn steps_give_chosen<A>()
    ensures listed { (follow : Follow A) (rows : List AidRow) (confirm : Bool) (answers : List (List ℕ))
        → followed follow (selecting rows confirm answers) ≡ chosen follow rows confirm answers }
    ensures opened { (follow : Follow A) (candidates : List CandidateData) (answers : List (List ℕ))
        → followed follow (first_selected candidates answers) ≡ first_through follow candidates answers }
{}
