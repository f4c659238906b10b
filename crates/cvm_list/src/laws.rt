//! Laws of the rules of a list, each the contract of a function that does nothing.
ghost use Rattle.cvm_list.specs.Laws.{RulesBehindAreIdle, EntriesAreUsedOnce};
ghost use Rattle.cvm_list.specs.OwnBits.{VerificationBitsAreOwn};

/// Where a rule decides, those behind it change nothing (EMV 4.3 Book 3 section 10.5).
pub fn rules_behind_are_idle()
    ensures { RulesBehindAreIdle }
{}

/// A rule takes PIN entries and answers from the front of those that are left, and leaves what stands
/// behind them to the next rule: none is used twice.
pub fn entries_are_used_once()
    ensures { EntriesAreUsedOnce }
{}

/// No bit of another step stands in what verification finds (EMV 4.3 Book 3 Annex C5).
pub fn bits_are_own()
    ensures { VerificationBitsAreOwn }
{}
