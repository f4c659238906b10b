//! The document of a scenario, from its bytes.
ghost use Rattle.std.specs.Prelude.{◌≡◌, ◌<◌, ◌≤◌, length, map, codes, IfOk, vec_len};
ghost use Rattle.std.specs.List.{All};
ghost use Rattle.toml.specs.View.{table_view};
ghost use Rattle.scenario_fields.specs.Fault.{Gives, TellsFault};
ghost use Rattle.scenario_fields.specs.Fields.{only};
ghost use Rattle.scenario_fields.specs.TablePaths.{path};
ghost use Rattle.scenario_fields.specs.declared.fault.ScenarioFault.TheVariants.{OutOfLimit};
ghost use Rattle.scenario_lanes.specs.Lanes.{lanes_at as lanes_found};
ghost use Rattle.scenario_lanes.specs.Plan.{IsLane, HasCards, HaveRoom, purchase_count};
ghost use Rattle.scenario.specs.Cards.{card_names as names_of};
ghost use Rattle.scenario_plan.specs.Plan.{AreScenarioTables, IsScenario};
ghost use Rattle.scenario.specs.Scenario.{top_keys, tables_of, names_known as names_tried, scenario_of, ReadsScenario};
ghost use Rattle.scenario_plan.specs.SeenCards.{seen_cards};

use crate::account::accounts_at;
use crate::card::cards_at;
use crate::issuer::issuer_at;
use crate::schedule::{known_lanes, schedule_at};
use scenario_fields::{Fields, ScenarioFault, Spot, TablePlace};
use scenario_lanes::{Lane, known_cards, lanes_at};
use scenario_plan::{NamedCard, Scenario};
use std::alloc::{AllocError, Global};
use toml::Table;

/// A document has at most so many bytes.
pub const MOST_BYTES: usize = 4_194_304;

#[tactic(auto, unfolding(crate::specs::Scenario::top_keys))]
fn only_top_keys(fields: &Fields) -> Result<(), ScenarioFault>
    ensures { Gives (λ u. u) result (only (path fields.now.place) top_keys (table_view fields.now.table.now)) }
{
    fields.only(&["issuer", "account", "card", "lane", "schedule", "copies"])
}

/// The names of cards.
#[tactic(auto, using(crate::proofs::CardNames::card_names_seen))]
fn card_names(alloc: Global, cards: &[NamedCard]) -> Result<Vec<&[u8]>, AllocError>
    ensures { IfOk result (λ names. map (λ name. name.now) names.items ≡ names_of (seen_cards cards.now)) }
{
    let mut names = Vec::new(alloc);
    for card in cards {
        names.push(card.name.as_slice())?;
    }
    Ok(names)
}

/// The lanes at their key in the document, whose purchases name one of these cards.
#[tactic(auto, using(crate::proofs::CardNames::names_count))]
fn lanes_with(
    document: &Fields,
    cards: &[NamedCard],
    pin_key: [u8; 16],
) -> Result<Vec<Lane>, ScenarioFault>
    ensures exact { Gives (λ lanes. lanes.items) result (lanes_found (path document.now.place) (names_of (seen_cards cards.now)) pin_key (table_view document.now.table.now)) }
    ensures some { IfOk result (λ lanes. 1 ≤ vec_len lanes) }
    ensures few { IfOk result (λ lanes. vec_len lanes ≤ 16) }
    ensures few_purchases { IfOk result (λ lanes. purchase_count lanes.items ≤ 10000) }
    ensures rules { IfOk result (λ lanes. All IsLane lanes.items) }
    ensures rooms { IfOk result (λ lanes. HaveRoom (length cards.now) lanes.items) }
    ensures pins { IfOk result (λ lanes. All (λ lane. lane.settings.pin_key ≡ pin_key) lanes.items) }
{
    let names = card_names(document.alloc, cards)?;
    lanes_at(document, &names, pin_key)
}

/// The tables of a document in their order.
#[tactic(auto, unfolding(crate::specs::Scenario::tables_of))]
fn read_tables(alloc: Global, document: &Table) -> Result<Scenario, ScenarioFault>
    ensures exact { Gives (λ scenario. scenario) result (tables_of (table_view document.now)) }
    ensures rules { IfOk result AreScenarioTables }
{
    let fields = Fields {
        alloc,
        place: TablePlace::Top,
        table: document,
    };
    let issuer = issuer_at(&fields)?;
    let accounts = accounts_at(&fields)?;
    let cards = cards_at(alloc, &issuer, document)?;
    let lanes = lanes_with(&fields, cards.as_slice(), issuer.pin.bytes())?;
    let schedule = schedule_at(&fields)?;
    let copies = fields.number_or(1, "copies", 1, 3)? as u8;
    only_top_keys(&fields)?;
    Ok(Scenario {
        issuer,
        accounts,
        cards,
        lanes,
        schedule,
        copies,
    })
}

/// Tries the names of cards and lanes.
#[tactic(auto, unfolding(crate::specs::Scenario::names_known), using(crate::proofs::CardNames::cards_count))]
fn names_known(alloc: Global, scenario: &Scenario) -> Result<(), ScenarioFault>
    ensures exact { Gives (λ u. u) result (names_tried scenario.now) }
    ensures cards { IfOk result (λ _. All (HasCards (length scenario.now.cards)) scenario.now.lanes) }
    ensures lanes { IfOk result (λ _. All (λ lane. lane < length scenario.now.lanes) scenario.now.schedule) }
{
    known_cards(alloc, scenario.cards.len(), scenario.lanes.as_slice())?;
    known_lanes(alloc, scenario.lanes.len(), scenario.schedule.as_slice())
}

/// The scenario of a document.
#[tactic(auto, unfolding(crate::specs::Scenario::scenario_of))]
fn read_document(alloc: Global, document: &Table) -> Result<Scenario, ScenarioFault>
    ensures exact { Gives (λ scenario. scenario) result (scenario_of (table_view document.now)) }
    ensures rules { IfOk result IsScenario }
{
    let scenario = read_tables(alloc, document)?;
    names_known(alloc, &scenario)?;
    Ok(scenario)
}

/// The fault of a document that is too long.
fn too_long(alloc: Global) -> ScenarioFault
    ensures { TellsFault result (OutOfLimit (codes "file")) }
{
    let file = Spot {
        alloc,
        place: TablePlace::Top,
        key: "file",
        index: None,
    };
    file.far()
}

/// Reads a scenario of its document's bytes, or gives the document's first fault: more than 4,194,304
/// bytes, bytes that are no TOML document, then the document's tables in their order, key by key, and
/// behind all the names that it uses. Want of memory is an error of its own.
pub fn read_scenario(alloc: Global, bytes: &[u8]) -> Result<Scenario, ScenarioFault>
    ensures exact { ReadsScenario bytes.now result }
    ensures rules { IfOk result IsScenario }
{
    if bytes.len() > MOST_BYTES {
        return Err(too_long(alloc));
    }
    match toml::table_from_slice(alloc, bytes) {
        Ok(document) => read_document(alloc, &document),
        Err(fault) => {
            if fault.is_memory() {
                Err(ScenarioFault::OutOfMemory)
            } else {
                Err(ScenarioFault::Toml)
            }
        }
    }
}
