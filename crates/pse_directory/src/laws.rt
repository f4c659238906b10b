//! What the definitions say in other words.
ghost use Rattle.std.specs.Prelude.{◌≡◌, ◌≤◌, ℕ, Bool, List, length};
ghost use Rattle.app_select.specs.Candidates.{CandidateData};
ghost use Rattle.app_select.specs.Chosen.{Follow, followed};
ghost use Rattle.app_select.specs.Laws.{HasDistinctNames};
ghost use Rattle.emv_dict.specs.declared.purchase.AidRow.{AidRow};
ghost use Rattle.pse_directory.specs.Chosen.{chosen_by};
ghost use Rattle.pse_directory.specs.Directory.{kept_candidates, selecting_by};

/// The steps, chained, give the chosen application: where the one that was selected is refused, the candidates behind
/// it are tried.
pub fn steps_give_chosen<A>()
    ensures { (follow : Follow A) (pse : Bool) (rows : List AidRow) (confirm : Bool) (answers : List (List ℕ))
        → followed follow (selecting_by pse rows confirm answers) ≡ chosen_by follow pse rows confirm answers }
{}

/// No more than 16 applications are kept, and no two of one name.
pub fn first_names_are_kept()
    ensures few { (found : List CandidateData) → length (kept_candidates found) ≤ 16 }
    ensures distinct { (found : List CandidateData) → HasDistinctNames (kept_candidates found) }
{}
