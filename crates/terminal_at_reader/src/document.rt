//! The document of a terminal: that of a trace, without what was said, with its dialect and its purchases.
ghost use Rattle.std.specs.Prelude.{◌≤◌, length, IfOk};
ghost use Rattle.toml.specs.View.{table_view};
ghost use Rattle.scenario_fields.specs.Fault.{Gives};
ghost use Rattle.scenario_fields.specs.Fields.{only};
ghost use Rattle.scenario_fields.specs.TablePaths.{path};
ghost use Rattle.scenario_lanes.specs.Plan.{IsLane};
ghost use Rattle.terminal_at_reader.specs.Document.{document_keys, lane_in_document, most_purchases, ReadsTerminal};

use scenario_fields::{Fields, LaneAt, ScenarioFault, TablePlace};
use scenario_lanes::{Lane, read_live_lane};
use std::alloc::Global;
use toml::Table;

/// A terminal has at most so many purchases.
const MOST_PURCHASES: usize = 10_000;

#[tactic(auto, unfolding(crate::specs::Document::document_keys))]
fn only_lane_keys(fields: &Fields) -> Result<(), ScenarioFault>
    ensures { Gives (λ u. u) result (only (path fields.now.place) document_keys (table_view fields.now.table.now)) }
{
    fields.only(&["pin_key", "lane"])
}

/// The terminal of a document, with its purchases.
#[tactic(auto, unfolding(crate::specs::Document::lane_in_document))]
fn lane_in(alloc: Global, document: &Table) -> Result<Lane, ScenarioFault>
    ensures exact { Gives (λ lane. lane) result (lane_in_document (table_view document.now)) }
    ensures some { IfOk result (λ lane. 1 ≤ length lane.purchases) }
    ensures few { IfOk result (λ lane. length lane.purchases ≤ most_purchases) }
    ensures rules { IfOk result IsLane }
{
    let fields = Fields {
        alloc,
        place: TablePlace::Top,
        table: document,
    };
    let pin_key = fields.byte_array("pin_key")?;
    let table = fields.inner("lane", TablePlace::Lane(LaneAt::Only))?.table;
    let lane = read_live_lane(alloc, table, MOST_PURCHASES, pin_key)?;
    only_lane_keys(&fields)?;
    Ok(lane)
}

/// Reads a terminal with its purchases of its document's bytes, or gives the document's first fault: bytes that are no
/// TOML document, then the keys `pin_key` and `lane` in this order, and any other.
pub fn read_terminal(alloc: Global, bytes: &[u8]) -> Result<Lane, ScenarioFault>
    ensures exact { ReadsTerminal bytes.now result }
    ensures some { IfOk result (λ lane. 1 ≤ length lane.purchases) }
    ensures few { IfOk result (λ lane. length lane.purchases ≤ most_purchases) }
    ensures rules { IfOk result IsLane }
{
    match toml::table_from_slice(alloc, bytes) {
        Ok(document) => lane_in(alloc, &document),
        Err(fault) => {
            if fault.is_memory() {
                Err(ScenarioFault::OutOfMemory)
            } else {
                Err(ScenarioFault::Toml)
            }
        }
    }
}
