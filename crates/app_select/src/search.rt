//! Application selection with its candidates lent (EMV 4.3 Book 1 sections 12.3.3 and 12.4).
ghost use Rattle.std.specs.Prelude.{◌≡◌, ◌≤◌, ◌<◌, ◌+◌, ◌*◌, ◌∷◌, ◌++◌, ℕ, [], List, length, option_map};
ghost use Rattle.emv_dict.specs.Progress.{Progress, Wants, Leads};
ghost use Rattle.emv_dict.specs.Settings.{IsSettings, IsAidRow};
ghost use Rattle.app_select.specs.Candidates.{CandidateData, candidates as candidates_among};
ghost use Rattle.app_select.specs.Leading.{rest_with, search_answers_left, HasRoomForCandidates};
ghost use Rattle.app_select.specs.Selecting.{SelectedData, first_selected, selecting};

use crate::candidates::{Candidate, Candidates};
use crate::course::{ListTurn, Row};
use crate::naming::Found;
use apdu_core::Out;
use arrayvec::ArrayVec;
use emv_dict::{AidRow, Cause, Settings};
use std::marker::Model;

mod turns;

use turns::{choose, first_row, listed, opened, push_named, write_asked};

/// The bytes of a processing options data object list (9F38): it stands in the body of an answer.
pub(crate) type Pdol = ArrayVec<u8, 256>;

/// Which SELECT is to be answered.
#[derive(Drop)]
pub(crate) enum Asked<'s> {
    /// One of the list. The candidates beside it are those found so far.
    Listed(ListTurn<'s>),
    /// The final one of this candidate. Those beside it stand behind it.
    Final(Candidate<'s>),
}

/// Application selection that waits for an answer to SELECT. The candidates stand beside it, and are lent
/// to each call. What the rest of it makes of the answers to come is `rest_with`.
#[derive(Drop)]
pub struct Search<'s> {
    asked: Asked<'s>,
}

impl<'s> Model for Search<'s> {
    ghost use Rattle.app_select.specs.Leading.{SearchData};
    ghost use Rattle.app_select.specs.SeenState.{seen_asked, IsOccurrenceInRange};

    ghost Value = { SearchData };

    ghost view = { λ s. seen_asked s.asked };

    ghost invariant = { λ s. IsOccurrenceInRange s.asked };
}

/// An application that is selected. The candidates behind it stand beside it.
#[derive(Drop)]
pub struct Choice<'s> {
    row: Row<'s>,
    pdol: Option<Pdol>,
}

impl<'s> Model for Choice<'s> {
    ghost use Rattle.std.specs.Prelude.{option_map};
    ghost use Rattle.app_select.specs.Leading.{ChoiceData};

    ghost Value = { ChoiceData };

    ghost view = { λ c. record { row = c.row.row.now; pdol = option_map (λ list. list.items) c.pdol } };
}

/// How application selection goes on.
#[derive(Drop)]
pub enum SearchNext<'s> {
    /// The card is asked.
    Ask(Search<'s>),
    /// An application is selected.
    Chosen(Choice<'s>),
    /// The transaction ends for this cause: no candidate is left, the card is blocked, or an answer can't
    /// be read.
    Ended(Cause),
}

impl<'s> Search<'s> {
    ghost use Rattle.app_select.specs.NextLeads.{SearchNextLeads, NextHasRoom, search_answers_left_next};
    ghost use Rattle.app_select.specs.Named.{BeginsWith, HaveRows, all_named};

    /// Begins selection for a terminal with these settings, at which the cardholder can confirm an
    /// application, or can't. No candidate is found yet.
    pub fn begin(settings: &'s Settings, confirm: bool) -> Search<'s>
        requires { IsSettings settings.now }
        ensures leads { Leads (selecting settings.now.aids confirm) [] (rest_with result []) }
        ensures room { HasRoomForCandidates result [] }
        // Sixteen SELECTs of each of sixteen AIDs, and the final ones of all applications so found.
        ensures few { search_answers_left result [] ≤ 16 * 16 + 256 }
    {
        first_row(settings.aids.as_slice(), confirm)
    }

    /// Begins selection among applications that the card named by itself, at most 16, in place of the list's
    /// (EMV 4.3 Book 1 section 12.3.2): those that may be confirmed, in the order of their priorities. No
    /// candidate is left where none may be confirmed.
    pub fn from_names(
        settings: &'s Settings,
        confirm: bool,
        found: &[Found],
        candidates: &mut Candidates<'s>,
    ) -> SearchNext<'s>
        requires settings { IsSettings settings.now }
        requires few { length found.now ≤ 16 }
        requires rows { HaveRows settings.now.aids found.now }
        ensures begins { BeginsWith (candidates_among confirm (all_named settings.entry.now.aids found.now)) result candidates.new }
        ensures leads { (whole : List (List ℕ) → Progress SelectedData) (answers : List (List ℕ))
            → Leads whole answers (first_selected (candidates_among confirm (all_named settings.entry.now.aids found.now)))
            → SearchNextLeads candidates.new whole answers result }
        ensures room { NextHasRoom result candidates.new }
        ensures few { search_answers_left_next result candidates.new ≤ 16 }
    {
        candidates.clear();
        push_named(settings.aids.as_slice(), found, candidates);
        candidates.arrange(confirm);
        choose(candidates)
    }

    /// Writes the command that the card is to answer, in place of what `out` held.
    pub fn ask(&self, out: &mut Out)
        ensures wants { (candidates : List CandidateData) (whole : List (List ℕ) → Progress SelectedData) (answers : List (List ℕ))
            → Leads whole answers (rest_with self.now candidates) → whole answers ≡ Wants out.new.items }
    {
        write_asked(&self.asked, out);
    }

    /// Goes on with the card's answer.
    pub fn take(self, candidates: &mut Candidates<'s>, reply: &[u8]) -> SearchNext<'s>
        requires { HasRoomForCandidates self candidates.old }
        ensures leads { (whole : List (List ℕ) → Progress SelectedData) (answers : List (List ℕ))
            → Leads whole answers (rest_with self.entry candidates.old)
            → SearchNextLeads candidates.new whole (answers ++ reply.now ∷ []) result }
        ensures room { NextHasRoom result candidates.new }
        // Fewer answers are left to be taken.
        ensures nearer { search_answers_left_next result candidates.new < search_answers_left self.entry candidates.old }
    {
        let Search { asked } = self;
        match asked {
            Asked::Listed(course) => listed(course, candidates, reply),
            Asked::Final(candidate) => opened(candidate, candidates, reply),
        }
    }
}

impl<'s> Choice<'s> {
    ghost use Rattle.app_select.specs.NextLeads.{SearchNextLeads, NextHasRoom, search_answers_left_next};

    /// The terminal's row of the application.
    pub fn row(&self) -> &'s AidRow
        ensures row { result.now ≡ self.now.row }
        ensures valid { IsAidRow result.now }
    {
        self.row.row
    }

    /// The processing options data object list (9F38), where the card gave one.
    pub fn pdol(&self) -> Option<&[u8]>
        ensures { option_map (λ list. list.now) result ≡ self.now.pdol }
    {
        match &self.pdol {
            Some(list) => Some(list.as_slice()),
            None => None,
        }
    }

    /// Drops the application, which refused GET PROCESSING OPTIONS (status 6985), and goes on with the
    /// next candidate (EMV 4.3 Book 3 section 10.1).
    pub fn refuse(self, candidates: &mut Candidates<'s>) -> SearchNext<'s>
        ensures leads { (whole : List (List ℕ) → Progress SelectedData) (answers : List (List ℕ))
            → Leads whole answers (first_selected candidates.old) → SearchNextLeads candidates.new whole answers result }
        ensures room { NextHasRoom result candidates.new }
        ensures nearer { search_answers_left_next result candidates.new ≤ length candidates.old }
    {
        choose(candidates)
    }
}
