//! What a script does, in other words than its definition.
ghost use Rattle.std.specs.Prelude.{◌≡◌, ℕ, List, Some, ◌∷◌, ◌++◌, ◌+◌, true, false, is_some, length};
ghost use Rattle.apdu_core.specs.Command.{command_of};
ghost use Rattle.emv_dict.specs.Progress.{Wants, Done};
ghost use Rattle.script_run.specs.Laws.{AllWentOn, commands_written, script_written};
ghost use Rattle.script_run.specs.Script.{no_identifier, script_of};
ghost use Rattle.script_run.specs.Ran.{all_went_on, failed_at, goes_on, ran};

/// A script asks its commands in their order, up to the first that failed, and its result names that one
/// (EMV 4.3 Book 3 section 10.10).
pub fn commands_are_asked_in_turn()
    // Where those before it went on, a command is asked.
    ensures asked { (identifier : List ℕ) (before behind answers : List (List ℕ)) (command : List ℕ)
        → AllWentOn before answers → is_some (command_of command) ≡ true
        → ran identifier 1 (before ++ command ∷ behind) answers ≡ Wants command }
    // It fails by its answer, and none behind it is asked.
    ensures failed { (identifier : List ℕ) (before behind answers rest : List (List ℕ)) (command answer : List ℕ)
        → AllWentOn before answers → is_some (command_of command) ≡ true → goes_on answer ≡ false
        → ran identifier 1 (before ++ command ∷ behind) (answers ++ answer ∷ rest) ≡ Done (failed_at identifier (length before + 1)) rest }
    // Bytes that are no command fail, and take no answer.
    ensures not_sent { (identifier : List ℕ) (before behind answers rest : List (List ℕ)) (command : List ℕ)
        → AllWentOn before answers → is_some (command_of command) ≡ false
        → ran identifier 1 (before ++ command ∷ behind) (answers ++ rest) ≡ Done (failed_at identifier (length before + 1)) rest }
    // Where all went on, each has taken one answer.
    ensures all { (identifier : List ℕ) (commands answers rest : List (List ℕ)) → AllWentOn commands answers
        → ran identifier 1 commands (answers ++ rest) ≡ Done (all_went_on identifier) rest }
{}

/// A script as an issuer writes it is read back: any commands, with an identifier of four bytes before them or
/// without one (EMV 4.3 Book 3 section 10.10).
pub fn scripts_are_read_back()
    ensures named { (identifier : List ℕ) (commands : List (List ℕ)) → length identifier ≡ 4
        → script_of (script_written identifier commands) ≡ Some (record { identifier = identifier; commands = commands }) }
    ensures unnamed { (commands : List (List ℕ))
        → script_of (commands_written commands) ≡ Some (record { identifier = no_identifier; commands = commands }) }
{}
