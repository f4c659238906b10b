//! The schedule.
ghost use Rattle.std.specs.Prelude.{◌≡◌, ◌<◌, ◌≤◌, [], length, IfOk, vec_len, codes};
ghost use Rattle.std.specs.List.{All};
ghost use Rattle.toml.specs.View.{view, table_view, items_view};
ghost use Rattle.scenario_fields.specs.Fault.{Gives, TellsFault};
ghost use Rattle.scenario_fields.specs.Fields.{each};
ghost use Rattle.scenario_fields.specs.TablePaths.{path, item_path, at_top};
ghost use Rattle.scenario_fields.specs.declared.fault.ScenarioFault.TheVariants.{UnknownName};
ghost use Rattle.scenario.specs.Schedule.{lane_number, schedule_item, schedule_at, known_lanes};

use scenario_fields::{Fields, ScenarioFault, Spot, TablePlace};
use std::alloc::Global;
use toml::Value;

/// The document has at most so many numbers of lanes in its schedule.
pub const MOST_TURNS: usize = 200_000;

/// The number of a lane as a byte; 255, which is no lane, for all that no byte holds.
fn lane_number(number: i64) -> u8
    ensures { result ≡ lane_number number }
{
    match u8::try_from(number) {
        Ok(number) => number,
        Err(_) => 255,
    }
}

/// A number of the schedule.
#[tactic(auto, unfolding(crate::specs::Schedule::schedule_item))]
fn schedule_item(document: &Fields, index: usize, value: &Value) -> Result<u8, ScenarioFault>
    ensures { Gives (λ n. n) result (schedule_item (path document.now.place) index (view value.now)) }
{
    match value.as_integer() {
        Some(number) => Ok(lane_number(number)),
        None => Err(document.item("schedule", index).bad()),
    }
}

/// Each number of the schedule.
fn read_schedule(document: &Fields, values: &[Value]) -> Result<Vec<u8>, ScenarioFault>
    ensures exact { Gives (λ v. v.items) result (each (schedule_item (path document.now.place)) 0 (items_view values.now)) }
    ensures count { IfOk result (λ v. vec_len v ≡ length values.now) }
{
    let mut schedule = Vec::new(document.alloc);
    for value in values {
        schedule.push(schedule_item(document, schedule.len(), value)?)?;
    }
    Ok(schedule)
}

/// The schedule at its key in the document.
#[tactic(auto, unfolding(crate::specs::Schedule::schedule_at))]
pub fn schedule_at(document: &Fields) -> Result<Vec<u8>, ScenarioFault>
    ensures exact { Gives (λ v. v.items) result (schedule_at (path document.now.place) (table_view document.now.table.now)) }
    ensures count { IfOk result (λ v. vec_len v ≤ 200000) }
{
    read_schedule(document, document.array_or_none("schedule", MOST_TURNS)?)
}

/// The fault of a number of the schedule that is no lane.
fn unknown_lane(alloc: Global, index: usize) -> ScenarioFault
    ensures { TellsFault result (UnknownName (at_top (item_path (codes "schedule") index []))) }
{
    let spot = Spot {
        alloc,
        place: TablePlace::Top,
        key: "schedule",
        index: Some(index),
    };
    spot.unknown_name()
}

/// That each number of the schedule is one of the lanes.
pub fn known_lanes(alloc: Global, lanes: usize, schedule: &[u8]) -> Result<(), ScenarioFault>
    ensures exact { Gives (λ u. u) result (known_lanes lanes 0 schedule.now) }
    ensures known { IfOk result (λ _. All (λ number. number < lanes) schedule.now) }
{
    for (index, number) in schedule.iter().enumerate() {
        if usize::from(*number) >= lanes {
            return Err(unknown_lane(alloc, index));
        }
    }
    Ok(())
}
