//! The canned answers of a card.
ghost use Rattle.std.specs.Prelude.{◌≡◌, ◌≤◌, length, map, IfOk, vec_len};
ghost use Rattle.std.specs.List.{All};
ghost use Rattle.toml.specs.View.{view, table_view, items_view};
ghost use Rattle.scenario_fields.specs.Fault.{Gives};
ghost use Rattle.scenario_fields.specs.Fields.{each};
ghost use Rattle.scenario_fields.specs.TablePaths.{path};
ghost use Rattle.scenario_plan.specs.Cards.{AreAnswers};
ghost use Rattle.scenario.specs.Cards.{canned_item, canned_at};

use scenario_fields::{Fields, ScenarioFault};
use toml::Value;

/// A card has at most so many canned answers.
pub const MOST_ANSWERS: usize = 300;

/// An answer has at most so many bytes: 256 and its status (ISO/IEC 7816-4 section 5.1).
pub const MOST_ANSWER: usize = 258;

/// An answer among those of a card.
#[tactic(auto, unfolding(crate::specs::Cards::canned_item))]
fn canned_item(card: &Fields, index: usize, value: &Value) -> Result<Vec<u8>, ScenarioFault>
    ensures exact { Gives (λ answer. answer.items) result (canned_item (path card.now.place) index (view value.now)) }
    ensures short { IfOk result (λ answer. vec_len answer ≤ 258) }
{
    card.item("canned", index).bytes(value, 0, MOST_ANSWER)
}

/// Each answer of a card.
fn read_canned(card: &Fields, values: &[Value]) -> Result<Vec<Vec<u8>>, ScenarioFault>
    ensures exact { Gives (λ answers. map (λ answer. answer.items) answers.items) result (each (canned_item (path card.now.place)) 0 (items_view values.now)) }
    ensures count { IfOk result (λ answers. vec_len answers ≡ length values.now) }
    ensures short { IfOk result (λ answers. All (λ answer. length answer.items ≤ 258) answers.items) }
{
    let mut answers: Vec<Vec<u8>> = Vec::new(card.alloc);
    for value in values {
        let answer = canned_item(card, answers.len(), value)?;
        answers.push(answer)?;
    }
    Ok(answers)
}

/// The canned answers of a card.
#[tactic(auto, unfolding(crate::specs::Cards::canned_at), using(crate::proofs::CardParts::are_answers))]
pub fn canned_at(card: &Fields) -> Result<Vec<Vec<u8>>, ScenarioFault>
    ensures exact { Gives (λ answers. map (λ answer. answer.items) answers.items) result (canned_at (path card.now.place) (table_view card.now.table.now)) }
    ensures rules { IfOk result (λ answers. AreAnswers (map (λ answer. answer.items) answers.items)) }
{
    read_canned(card, card.array("canned", 0, MOST_ANSWERS)?)
}
