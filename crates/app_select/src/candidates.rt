//! The candidates for selection (EMV 4.3 Book 1 sections 12.2.3 and 12.4).
ghost use Rattle.std.specs.Prelude.{◌≡◌, ◌≤◌, ◌<◌, ◌+◌, ◌++◌, ◌∷◌, ℕ, [], List, length, take, drop, filter, map, IfSome, IfNone, true, if◌then◌else◌};
ghost use Rattle.std.specs.Str.{bytes_eq};
ghost use Rattle.emv_dict.specs.Settings.{IsSettings};
ghost use Rattle.std.specs.List.{list_any};
ghost use Rattle.app_select.specs.Candidates as spec;
ghost use Rattle.app_select.specs.SeenCandidate.{seen_candidate, seen_all, is_kept, is_ranked};

use crate::course::Row;
use crate::naming::blank_name;
use arrayvec::ArrayVec;
use emv_dict::{Name, Settings};
use std::default::MadeWith;
use std::marker::Model;

/// The most applications that a terminal finds: 16 occurrences of each of 16 AIDs.
pub(crate) const MOST: usize = 256;

/// The last place in the order of priorities.
const LAST_RANK: u8 = 16;

/// The bit of a priority indicator with which the cardholder has to confirm the application.
const CONFIRMATION: u8 = 0x80;

/// An application of the card that the terminal supports.
#[derive(Drop)]
pub(crate) struct Candidate<'s> {
    /// The terminal's row that it was found by.
    pub row: Row<'s>,
    /// Its name.
    pub name: Name,
    /// Its priority indicator (87).
    pub priority: Option<u8>,
}

/// Candidates in a row. The row of the settings is a blank's.
type List<'s> = ArrayVec<Candidate<'s>, MOST, Row<'s>>;

impl<'s> MadeWith<Row<'s>> for Candidate<'s> {
    fn made_with(row: Row<'s>) -> Candidate<'s> {
        Candidate {
            row,
            name: blank_name(),
            priority: None,
        }
    }
}

/// The candidates for selection: while the list is asked for the applications found so far, then those that
/// are left to be tried, in their order. Contracts see the list of them.
#[derive(Drop)]
pub struct Candidates<'s> {
    list: List<'s>,
}

impl<'s> Model for Candidates<'s> {
    ghost use Rattle.std.specs.Prelude.{List};
    ghost use Rattle.app_select.specs.Candidates.{CandidateData};
    ghost use Rattle.app_select.specs.SeenCandidate.{seen_all};

    ghost Value = { List CandidateData };

    ghost view = { λ c. seen_all c.list.items };
}

impl<'s> Candidates<'s> {
    /// No candidates yet, for a terminal with these settings.
    pub fn new(settings: &'s Settings) -> Candidates<'s>
        requires { IsSettings settings.now }
        ensures { result ≡ [] }
    {
        let [row, ..] = settings.aids.as_slice() else {
            unreachable!();
        };
        Candidates {
            list: List::new_in(Row { row }),
        }
    }

    /// Lets go of all candidates, for another selection.
    pub fn clear(&mut self)
        ensures { self.new ≡ [] }
    {
        self.list.clear();
    }

    /// Adds an application that was found.
    pub(crate) fn push(&mut self, candidate: Candidate<'s>)
        requires { length self.old < 256 }
        ensures { self.new ≡ self.old ++ seen_candidate candidate.entry ∷ [] }
    {
        self.list.push(candidate);
    }

    /// Takes out the first candidate.
    pub(crate) fn pop_front(&mut self) -> Option<Candidate<'s>>
        ensures some { IfSome result (λ candidate. self.old ≡ seen_candidate candidate ∷ self.new) }
        ensures none { IfNone result ((self.old ≡ []) × (self.new ≡ [])) }
    {
        self.list.pop_at(0)
    }

    /// Leaves the candidates among the applications found, in their order.
    pub(crate) fn arrange(&mut self, confirm: bool)
        ensures candidates { self.new ≡ spec.candidates confirm self.old }
        ensures few { length self.new ≤ length self.old }
    {
        if self.list.len() < 2 {
            leave_allowed(confirm, &mut self.list);
        } else {
            let found = self.list.take();
            push_all(&found, confirm, &mut self.list);
        }
    }
}

/// The place of a priority in the order, from 1 to 16.
fn rank_of(priority: Option<u8>) -> u8
    ensures { result ≡ spec.priority_rank priority }
{
    match priority {
        None => LAST_RANK,
        Some(byte) => match byte % 16 {
            0 => LAST_RANK,
            rank => rank,
        },
    }
}

fn has_name(candidate: &Candidate<'_>, name: &Name) -> bool
    ensures { result ≡ bytes_eq candidate.now.name name.now }
{
    candidate.name == *name
}

/// Whether one of these candidates has a name.
fn is_named(candidates: &[Candidate<'_>], name: &Name) -> bool
    ensures { result ≡ list_any (λ other. bytes_eq other.name name.now) candidates.now }
{
    candidates.iter().any(|other| has_name(other, name))
}

/// Whether the terminal has a way to confirm an application of this priority, or none is needed.
fn is_allowed(confirm: bool, candidate: &Candidate<'_>) -> bool
    ensures { result ≡ spec.is_allowed confirm (seen_candidate candidate.now) }
{
    confirm || !needs_confirmation(candidate.priority)
}

fn needs_confirmation(priority: Option<u8>) -> bool
    ensures { result ≡ spec.needs_confirmation priority }
{
    match priority {
        None => false,
        Some(byte) => byte >= CONFIRMATION,
    }
}

/// Whether a candidate behind these is the first of its name, and may be selected.
#[tactic(auto, using(crate::proofs::Ranks::any_seen))]
fn is_kept(earlier: &[Candidate<'_>], candidate: &Candidate<'_>, confirm: bool) -> bool
    ensures { result ≡ is_kept confirm (seen_all earlier.now) (seen_candidate candidate.now) }
{
    is_allowed(confirm, candidate) && !is_named(earlier, &candidate.name)
}

/// Whether one that stays has this rank.
fn is_ranked(earlier: &[Candidate<'_>], candidate: &Candidate<'_>, confirm: bool, rank: u8) -> bool
    ensures { result ≡ is_ranked confirm rank (seen_all earlier.now) (seen_candidate candidate.now) }
{
    rank_of(candidate.priority) == rank && is_kept(earlier, candidate, confirm)
}

/// Appends a candidate where it is wanted.
fn push_if<'s>(is_wanted: bool, candidate: &Candidate<'s>, list: &mut List<'s>)
    requires { is_wanted ≡ true → length list.old.items < 256 }
    ensures { seen_all list.new.items ≡ seen_all list.old.items ++ (if is_wanted then seen_candidate candidate.now ∷ [] else []) }
{
    if is_wanted {
        list.push(Candidate {
            row: candidate.row,
            name: candidate.name.copy(),
            priority: candidate.priority,
        });
    }
}

/// Appends those of a rank among the applications found.
fn push_ranked<'s>(found: &[Candidate<'s>], confirm: bool, rank: u8, list: &mut List<'s>)
    requires { length list.old.items + length (filter (spec.has_rank rank) (spec.confirmable confirm (seen_all found.now))) ≤ 256 }
    ensures { seen_all list.new.items ≡ seen_all list.old.items ++ filter (spec.has_rank rank) (spec.confirmable confirm (seen_all found.now)) }
{
    for place in 0..found.len() {
        let candidate = &found[place];
        let is_wanted = is_ranked(&found[..place], candidate, confirm, rank);
        push_if(is_wanted, candidate, list);
    }
}

/// Puts the candidates among the applications found into an empty list, in their order.
#[tactic(auto, unfolding(crate::specs::Candidates::candidates))]
fn push_all<'s>(found: &[Candidate<'s>], confirm: bool, list: &mut List<'s>)
    requires empty { list.old.items ≡ [] }
    requires few { length found.now ≤ 256 }
    ensures candidates { seen_all list.new.items ≡ spec.candidates confirm (seen_all found.now) }
    ensures few { length list.new.items ≤ length found.now }
{
    for rank in 1..=LAST_RANK {
        push_ranked(found, confirm, rank, list);
    }
}

/// Leaves the one application that was found where it may be selected: it is in its order where it stands.
fn leave_allowed(confirm: bool, list: &mut List<'_>)
    requires { length list.old.items < 2 }
    ensures candidates { seen_all list.new.items ≡ spec.candidates confirm (seen_all list.old.items) }
    ensures few { length list.new.items ≤ length list.old.items }
{
    let stays = match list.first() {
        Some(only) => is_allowed(confirm, only),
        None => true,
    };
    if !stays {
        list.clear();
    }
}
