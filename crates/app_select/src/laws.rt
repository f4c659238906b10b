//! What the definitions of the candidates say in other words.
ghost use Rattle.std.specs.Prelude.{◌≡◌, ◌≤◌, ◌<◌, ◌+◌, ℕ, List, Option, length, filter};
ghost use Rattle.std.specs.List.{AllByRecursion, list_any};
ghost use Rattle.app_select.specs.Candidates.{CandidateData, firsts, is_candidate_named, has_rank, in_priority_order, priority_rank};
ghost use Rattle.app_select.specs.Listed.{listed};
ghost use Rattle.app_select.specs.Laws.{HasDistinctNames, IsInPriorityOrder};
ghost use Rattle.app_select.specs.Said.{IsSaidShort, select_said};
ghost use Rattle.emv_dict.specs.declared.purchase.AidRow.{AidRow};

/// The numbers that the list's answers get: no occurrence of an AID is the seventeenth, and no answer is
/// lost.
pub fn answers_are_numbered()
    ensures occurrences { (rows : List AidRow) (answers : List (List ℕ)) → AllByRecursion (λ answer. answer.turn < 16) (listed rows 0 answers).answers }
    ensures all { (rows : List AidRow) (answers : List (List ℕ))
        → length (listed rows 0 answers).answers + length (listed rows 0 answers).rest ≡ length answers }
{}

/// Candidates stand in the order of their ranks, and those of one rank as they were found: none is lost,
/// and none added.
pub fn order_is_stable()
    ensures least { (priority : Option ℕ) → 1 ≤ priority_rank priority }
    ensures most { (priority : Option ℕ) → priority_rank priority ≤ 16 }
    ensures rising { (candidates : List CandidateData) → IsInPriorityOrder (in_priority_order candidates) }
    ensures stable { (candidates : List CandidateData) (rank : ℕ) → 1 ≤ rank → rank ≤ 16
        → filter (has_rank rank) (in_priority_order candidates) ≡ filter (has_rank rank) candidates }
{}

/// The first of each name: no name stands twice, and each one that was found stands there.
pub fn names_stand_once()
    ensures distinct { (found : List CandidateData) → HasDistinctNames (firsts found) }
    ensures there { (found : List CandidateData) (name : List ℕ) → list_any (is_candidate_named name) (firsts found) ≡ list_any (is_candidate_named name) found }
{}

/// That an object list (9F38) above 255 bytes can't be read is no limit to a card: no answer to SELECT has
/// room for one.
#[tactic(auto, using(crate::proofs::Bounds::said_short))]
pub fn answers_have_no_room()
    ensures { (answer : List ℕ) → IsSaidShort (select_said answer) }
{}
