//! What the tables hold.
ghost use Rattle.std.specs.Prelude.{◌≡◌, map, IsTrue};
ghost use Rattle.report_lines.specs.declared.references.TheConstants.{ANSWER_REFERENCES, METHOD_REFERENCES, OUTCOME_REFERENCES, RESPONSE_REFERENCES, RESULT_REFERENCES, STATUS_REFERENCES, STATUS_WORD_REFERENCES};
ghost use Rattle.emv_dict.specs.Dictionary.{dictionary};
ghost use Rattle.value_words.specs.Words.{have_names, are_distinct_texts, are_distinct, tvr_bit_numbers};

use crate::bits::{RESULT_BITS, STATUS_BITS};
use crate::codes::{ANSWERS, METHODS, OUTCOMES, RESPONSES, STATUSES};
use crate::names::NAMES;

/// What the tables hold: each object of the dictionary has a name, no two objects have one tag or one
/// name, and each bit of the terminal verification results has its words.
#[tactic(auto, unfolding(crate::specs::Words::tag_name_in, emv_dict::specs::Dictionary::dictionary))]
pub fn tables_are_whole()
    ensures named { IsTrue (have_names (map (λ n. (n.0, n.1.now, n.2)) NAMES) dictionary) }
    ensures tags_once { IsTrue (are_distinct (map (λ n. n.0) NAMES)) }
    ensures names_once { IsTrue (are_distinct_texts (map (λ n. n.1.now) NAMES)) }
    ensures result_bits { map (λ w. w.0) RESULT_BITS ≡ tvr_bit_numbers }
{}

/// Each bit and code that has words has a reference too.
pub fn references_are_whole()
    ensures results { map (λ w. w.0) RESULT_REFERENCES ≡ map (λ w. w.0) RESULT_BITS }
    ensures performed { map (λ w. w.0) STATUS_REFERENCES ≡ map (λ w. w.0) STATUS_BITS }
    ensures methods { map (λ w. w.0) METHOD_REFERENCES ≡ map (λ w. w.0) METHODS }
    ensures outcomes { map (λ w. w.0) OUTCOME_REFERENCES ≡ map (λ w. w.0) OUTCOMES }
    ensures responses { map (λ w. w.0) RESPONSE_REFERENCES ≡ map (λ w. w.0) RESPONSES }
    ensures statuses { map (λ w. w.0) STATUS_WORD_REFERENCES ≡ map (λ w. w.0) STATUSES }
    ensures answers { map (λ w. w.0) ANSWER_REFERENCES ≡ map (λ w. w.0) ANSWERS }
{}
