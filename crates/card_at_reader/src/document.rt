//! The card of a document: a scenario's, of which the issuer's keys and the cards are read.
ghost use Rattle.std.specs.Prelude.{◌≡◌, option_map};
ghost use Rattle.toml.specs.View.{table_view};
ghost use Rattle.scenario_plan.specs.SeenCards.{seen_cards};
ghost use Rattle.scenario.specs.Scenario.{top_keys};
ghost use Rattle.scenario_fields.specs.Fault.{Gives};
ghost use Rattle.scenario_fields.specs.Fields.{only};
ghost use Rattle.scenario_fields.specs.TablePaths.{path};
ghost use Rattle.card_at_reader.specs.Document.{cards_of, wanted_kind, ReadsCards};
ghost use Rattle.card_at_reader.specs.Document as spec;
ghost use Rattle.std.specs.Result.{result_map_both};

use scenario::card::cards_at;
use scenario::issuer::issuer_at;
use scenario_fields::{Fields, ScenarioFault, TablePlace};
use scenario_plan::{CardKind, NamedCard};
use std::alloc::Global;
use toml::Table;

#[tactic(auto, unfolding(scenario::specs::Scenario::top_keys))]
fn only_top_keys(fields: &Fields) -> Result<(), ScenarioFault>
    ensures { Gives (λ u. u) result (only (path fields.now.place) top_keys (table_view fields.now.table.now)) }
{
    fields.only(&["issuer", "account", "card", "lane", "schedule", "copies"])
}

/// The cards of a document.
#[tactic(auto, unfolding(crate::specs::Document::cards_of))]
fn cards_in(alloc: Global, document: &Table) -> Result<Vec<NamedCard>, ScenarioFault>
    ensures { Gives (λ cards. seen_cards cards.items) result (cards_of (table_view document.now)) }
{
    let fields = Fields {
        alloc,
        place: TablePlace::Top,
        table: document,
    };
    let issuer = issuer_at(&fields)?;
    let cards = cards_at(alloc, &issuer, document)?;
    only_top_keys(&fields)?;
    Ok(cards)
}

/// Reads the cards of a scenario of its document's bytes, or gives the first fault: bytes that are no TOML document, then
/// the keys `issuer` and `card` in this order, and a key that no scenario has. The other tables of a scenario may be
/// there, and are not read.
pub fn read_cards(alloc: Global, bytes: &[u8]) -> Result<Vec<NamedCard>, ScenarioFault>
    ensures { ReadsCards bytes.now (result_map_both (λ cards. cards.items) (λ fault. fault) result) }
{
    match toml::table_from_slice(alloc, bytes) {
        Ok(document) => cards_in(alloc, &document),
        Err(fault) => {
            if fault.is_memory() {
                Err(ScenarioFault::OutOfMemory)
            } else {
                Err(ScenarioFault::Toml)
            }
        }
    }
}

/// Whether a card is wanted: each one where no name is said.
fn is_wanted(name: Option<&[u8]>, card: &NamedCard) -> bool
    ensures { result ≡ spec.is_wanted (option_map (λ name. name.now) name.entry) card.now.name.items }
{
    match name {
        Some(name) => card.name.as_slice() == name,
        None => true,
    }
}

/// What the first card that is wanted answers by.
pub fn kind_of<'a>(cards: &'a [NamedCard], name: Option<&[u8]>) -> Option<&'a CardKind>
    ensures { option_map (λ kind. kind.now) result ≡ wanted_kind (option_map (λ name. name.now) name.entry) cards.now }
{
    for card in cards {
        if is_wanted(name, card) {
            return Some(&card.kind);
        }
    }
    None
}
