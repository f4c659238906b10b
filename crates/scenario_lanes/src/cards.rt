//! Whether the cards that purchases name are there.
ghost use Rattle.std.specs.Prelude.{◌≡◌, ◌<◌, IfOk, codes};
ghost use Rattle.std.specs.List.{All};
ghost use Rattle.scenario_fields.specs.Fault.{Gives, TellsFault};
ghost use Rattle.scenario_fields.specs.TablePaths.{in_purchase};
ghost use Rattle.scenario_fields.specs.declared.fault.ScenarioFault.TheVariants.{UnknownName};
ghost use Rattle.scenario_fields.specs.declared.place.LaneAt.TheVariants.{Numbered};
ghost use Rattle.scenario_lanes.specs.Cards.{known_in_lane, known_from};
ghost use Rattle.scenario_lanes.specs.Plan.{HasCards};

use crate::plan::{Lane, Planned};
use scenario_fields::{LaneAt, ScenarioFault, Spot, TablePlace};
use std::alloc::Global;

/// The fault of a purchase whose card is none.
fn unknown_card(alloc: Global, lane: usize, purchase: usize) -> ScenarioFault
    ensures { TellsFault result (UnknownName (in_purchase (Numbered lane) purchase (codes "card"))) }
{
    let spot = Spot {
        alloc,
        place: TablePlace::Purchase(LaneAt::Numbered(lane), purchase),
        key: "card",
        index: None,
    };
    spot.unknown_name()
}

/// That each purchase of a lane has one of the cards.
fn known_in_lane(
    alloc: Global,
    cards: usize,
    lane: usize,
    purchases: &[Planned],
) -> Result<(), ScenarioFault>
    ensures exact { Gives (λ u. u) result (known_in_lane cards lane 0 purchases.now) }
    ensures known { IfOk result (λ _. All (λ planned. planned.card < cards) purchases.now) }
{
    for (index, planned) in purchases.iter().enumerate() {
        if planned.card >= cards {
            return Err(unknown_card(alloc, lane, index));
        }
    }
    Ok(())
}

/// That each purchase of each lane has one of so many cards, or the fault of the first one that hasn't.
pub fn known_cards(alloc: Global, cards: usize, lanes: &[Lane]) -> Result<(), ScenarioFault>
    ensures exact { Gives (λ u. u) result (known_from cards 0 lanes.now) }
    ensures known { IfOk result (λ _. All (HasCards cards) lanes.now) }
{
    for (index, lane) in lanes.iter().enumerate() {
        known_in_lane(alloc, cards, index, lane.purchases.as_slice())?;
    }
    Ok(())
}
