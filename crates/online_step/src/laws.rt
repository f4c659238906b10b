//! What a terminal reads of a card's answers, in other words than the definition.
ghost use Rattle.std.specs.Prelude.{◌≡◌, false, Ok};
ghost use Rattle.emv_dict.specs.declared.ending.Kind.{Kind};
ghost use Rattle.online_step.specs.Ac.{ac_in_answer, is_kind_refused};
ghost use Rattle.online_step.specs.Laws.{AcGiven, IsAcGiven, answer_one, answer_two, read_of};
ghost use Rattle.online_step.specs.declared.ac.GenerateAc.{GenerateAc};

/// An answer to GENERATE AC as a card writes it, in either format, is read as what the card gave, where the
/// kind may be answered (EMV 4.3 Book 3 section 6.5.5.4).
pub fn answers_are_read_back()
    ensures one { (given : AcGiven) (asked : Kind) (which : GenerateAc) → IsAcGiven given → is_kind_refused given.kind asked which ≡ false
        → ac_in_answer (answer_one given) asked which ≡ Ok (read_of given) }
    ensures two { (given : AcGiven) (asked : Kind) (which : GenerateAc) → IsAcGiven given → is_kind_refused given.kind asked which ≡ false
        → ac_in_answer (answer_two given) asked which ≡ Ok (read_of given) }
{}
