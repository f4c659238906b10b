//! What an answer to SELECT changes.
ghost use Rattle.std.specs.Prelude.{◌≡◌, ◌≤◌, ◌<◌, ◌+◌, ◌-◌, ◌*◌, ◌∷◌, ◌++◌, ◌==◌, ℕ, [], List, Bool, length, option_map, true, if◌then◌else◌};
ghost use Rattle.std.specs.Option.{option_to_list};
ghost use Rattle.std.specs.List.{All};
ghost use Rattle.emv_dict.specs.Settings.{IsAidRow};
ghost use Rattle.emv_dict.specs.Progress.{Progress, Wants, Leads};
ghost use Rattle.app_select.specs.Candidates.{CandidateData};
ghost use Rattle.app_select.specs.Fci.{FciData, IsShortList};
ghost use Rattle.app_select.specs.Leading.{Listed, rest_with, search_answers_left, HasRoomForCandidates};
ghost use Rattle.app_select.specs.Listed.{candidate_by, has_next_occurrence, most_occurrences};
ghost use Rattle.app_select.specs.NextLeads.{SearchNextLeads, NextHasRoom, search_answers_left_next};
ghost use Rattle.app_select.specs.Named.{BeginsWith, HaveRows, all_named};
ghost use Rattle.app_select.specs.Said.{Named, select_said};
ghost use Rattle.app_select.specs.SeenCandidate.{seen_candidate};
ghost use Rattle.app_select.specs.SeenSaid.{seen_fci};
ghost use Rattle.app_select.specs.SeenState.{seen_asked, seen_course};
ghost use Rattle.app_select.specs.Selecting.{SelectedData, listing, first_selected};

use super::{Asked, Choice, Pdol, Search, SearchNext};
use crate::candidates::{Candidate, Candidates};
use crate::course::{ListTurn, Row};
use crate::fci::{Fci, Said, read_select};
use crate::naming::{Found, is_longer, is_supported};
use crate::select::{FIRST_OCCURRENCE, NEXT_OCCURRENCE, write_select};
use apdu_core::Out;
use emv_dict::{AidRow, Cause, Name};

/// An AID is selected at most so often.
const MOST_OCCURRENCES: u8 = 16;

/// Writes the SELECT that is to be answered.
#[tactic(auto, unfolding(crate::specs::Selecting::listing))]
pub(super) fn write_asked(asked: &Asked<'_>, out: &mut Out)
    ensures { (candidates : List CandidateData) → rest_with (seen_asked asked.now) candidates [] ≡ Wants out.new.items }
{
    match asked {
        Asked::Listed(course) => {
            let name = course.row.row.name.as_slice();
            write_select(name, occurrence(course.turn), out)
        },
        Asked::Final(candidate) => {
            write_select(candidate.name.as_slice(), FIRST_OCCURRENCE, out)
        },
    }
}

/// P2 of the SELECT of this number.
fn occurrence(turn: u8) -> u8
    ensures { result ≡ (if turn == 0 then 0 else 2) }
{
    if turn == 0 {
        FIRST_OCCURRENCE
    } else {
        NEXT_OCCURRENCE
    }
}

/// Takes an answer to a SELECT of the list.
pub(super) fn listed<'s>(
    course: ListTurn<'s>,
    candidates: &mut Candidates<'s>,
    reply: &[u8],
) -> SearchNext<'s>
    requires turn { course.turn < most_occurrences }
    requires room { HasRoomForCandidates (seen_course course) candidates.old }
    ensures leads { (whole : List (List ℕ) → Progress SelectedData) (answers : List (List ℕ))
        → Leads whole answers (rest_with (seen_course course.entry) candidates.old)
        → SearchNextLeads candidates.new whole (answers ++ reply.now ∷ []) result }
    ensures room { NextHasRoom result candidates.new }
    ensures nearer { search_answers_left_next result candidates.new < search_answers_left (seen_course course.entry) candidates.old }
{
    match read_select(reply) {
        Said::Unreadable => SearchNext::Ended(Cause::Answer),
        Said::Blocked => SearchNext::Ended(Cause::CardBlocked),
        Said::Named { valid, fci } => named(course, valid, &fci, candidates),
        Said::Nothing => next_row(course.later, course.confirm, candidates),
    }
}

/// Takes a readable FCI of the list.
fn named<'s>(
    course: ListTurn<'s>,
    valid: bool,
    fci: &Fci<'_>,
    candidates: &mut Candidates<'s>,
) -> SearchNext<'s>
    requires turn { course.turn < most_occurrences }
    requires room { HasRoomForCandidates (seen_course course) candidates.old }
    ensures leads { (whole : List (List ℕ) → Progress SelectedData) (answers : List (List ℕ)) (reply : List ℕ)
        → select_said reply ≡ Named valid (seen_fci fci.now)
        → Leads whole answers (rest_with (seen_course course.entry) candidates.old)
        → SearchNextLeads candidates.new whole (answers ++ reply ∷ []) result }
    ensures room { NextHasRoom result candidates.new }
    ensures nearer { search_answers_left_next result candidates.new < search_answers_left (seen_course course.entry) candidates.old }
{
    add(course.row, valid, fci, candidates);
    if goes_on(course.row.row, course.turn, &fci.name) {
        SearchNext::Ask(Search {
            asked: Asked::Listed(ListTurn {
                row: course.row,
                later: course.later,
                turn: course.turn + 1,
                confirm: course.confirm,
            }),
        })
    } else {
        next_row(course.later, course.confirm, candidates)
    }
}

/// Adds the application that a readable FCI gives, where it is valid and the terminal supports it.
fn add<'s>(row: Row<'s>, valid: bool, fci: &Fci<'_>, candidates: &mut Candidates<'s>)
    requires { length candidates.old < 256 }
    ensures found { candidates.new ≡ candidates.old ++ option_to_list (candidate_by row.entry.row.now (Named valid (seen_fci fci.now))) }
    ensures few { length candidates.new ≤ length candidates.old + 1 }
{
    if valid && is_supported(row.row, &fci.name) {
        candidates.push(Candidate {
            row,
            name: fci.name.copy(),
            priority: fci.priority,
        });
    }
}

/// Whether the next occurrence of an AID is asked for behind this name.
fn goes_on(row: &AidRow, turn: u8, name: &Name) -> bool
    requires { turn < most_occurrences }
    ensures exact { (valid : Bool) (fci : FciData) → fci.name ≡ name.now → result ≡ has_next_occurrence row.now turn (Named valid fci) }
    ensures few { result ≡ true → turn + 1 < most_occurrences }
{
    is_longer(row, name) && turn + 1 < MOST_OCCURRENCES
}

/// Asks for the first of these rows.
pub(super) fn first_row<'s>(rows: &'s [AidRow], confirm: bool) -> Search<'s>
    requires valid { All IsAidRow rows.now }
    requires some { 1 ≤ length rows.now }
    ensures { result ≡ Listed rows.entry.now 0 confirm }
{
    let [row, later @ ..] = rows else {
        unreachable!();
    };
    Search {
        asked: Asked::Listed(ListTurn {
            row: Row { row },
            later,
            turn: 0,
            confirm,
        }),
    }
}

/// Goes on with the next row of the list, or behind the list with the first candidate.
fn next_row<'s>(
    later: &'s [AidRow],
    confirm: bool,
    candidates: &mut Candidates<'s>,
) -> SearchNext<'s>
    requires valid { All IsAidRow later.now }
    requires room { length candidates.old + most_occurrences * length later.now ≤ 256 }
    ensures leads { (whole : List (List ℕ) → Progress SelectedData) (answers : List (List ℕ))
        → Leads whole answers (listing (record { found = candidates.old; rows = later.entry.now; turn = 0; confirm = confirm }))
        → SearchNextLeads candidates.new whole answers result }
    ensures room { NextHasRoom result candidates.new }
    ensures nearer { search_answers_left_next result candidates.new ≤ 2 * (most_occurrences * length later.entry.now) + length candidates.old }
{
    if later.is_empty() {
        candidates.arrange(confirm);
        choose(candidates)
    } else {
        SearchNext::Ask(first_row(later, confirm))
    }
}

/// Adds applications that the card named.
pub(super) fn push_named<'s>(rows: &'s [AidRow], found: &[Found], candidates: &mut Candidates<'s>)
    requires valid { All IsAidRow rows.now }
    requires rows { HaveRows rows.now found.now }
    requires room { length candidates.old + length found.now ≤ 256 }
    ensures { candidates.new ≡ candidates.old ++ all_named rows.entry.now found.now }
{
    for one in found {
        candidates.push(Candidate {
            row: Row {
                row: &rows[one.aid],
            },
            name: one.name.copy(),
            priority: one.priority,
        });
    }
}

/// Goes on with the final SELECT of the first candidate.
pub(super) fn choose<'s>(candidates: &mut Candidates<'s>) -> SearchNext<'s>
    ensures begins { BeginsWith candidates.old result candidates.new }
    ensures leads { (whole : List (List ℕ) → Progress SelectedData) (answers : List (List ℕ))
        → Leads whole answers (first_selected candidates.old) → SearchNextLeads candidates.new whole answers result }
    ensures room { NextHasRoom result candidates.new }
    ensures nearer { search_answers_left_next result candidates.new ≤ length candidates.old }
{
    match candidates.pop_front() {
        None => SearchNext::Ended(Cause::NoCandidate),
        Some(candidate) => SearchNext::Ask(Search {
            asked: Asked::Final(candidate),
        }),
    }
}

/// Takes the answer to the final SELECT of a candidate.
pub(super) fn opened<'s>(
    candidate: Candidate<'s>,
    candidates: &mut Candidates<'s>,
    reply: &[u8],
) -> SearchNext<'s>
    ensures leads { (whole : List (List ℕ) → Progress SelectedData) (answers : List (List ℕ))
        → Leads whole answers (first_selected (seen_candidate candidate.entry ∷ candidates.old))
        → SearchNextLeads candidates.new whole (answers ++ reply.now ∷ []) result }
    ensures room { NextHasRoom result candidates.new }
    ensures nearer { search_answers_left_next result candidates.new ≤ length candidates.old }
{
    match read_select(reply) {
        Said::Unreadable => SearchNext::Ended(Cause::Answer),
        Said::Blocked => choose(candidates),
        Said::Named { valid, fci } => {
            if valid {
                SearchNext::Chosen(Choice {
                    row: candidate.row,
                    pdol: copied(fci.pdol),
                })
            } else {
                choose(candidates)
            }
        }
        Said::Nothing => choose(candidates),
    }
}

/// An object list in a buffer of its own.
fn copied(pdol: Option<&[u8]>) -> Option<Pdol>
    requires { IsShortList (option_map (λ list. list.now) pdol) }
    ensures { option_map (λ list. list.items) result ≡ option_map (λ list. list.now) pdol.entry }
{
    let bytes = pdol?;
    let mut list = Pdol::new();
    match list.try_extend_from_slice(bytes) {
        Ok(()) => Some(list),
        Err(_) => unreachable!(),
    }
}
