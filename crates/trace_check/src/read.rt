//! The document of a trace, from its bytes.
ghost use Rattle.std.specs.Prelude.{◌≡◌, ◌<◌, ◌≤◌, length, codes, IfOk, vec_len};
ghost use Rattle.toml.specs.View.{view, table_view, items_view};
ghost use Rattle.scenario_fields.specs.Fault.{Gives, TellsFault};
ghost use Rattle.scenario_fields.specs.Fields.{each, only};
ghost use Rattle.scenario_fields.specs.TablePaths.{path, spot_path};
ghost use Rattle.scenario_fields.specs.declared.fault.ScenarioFault.TheVariants.{OutOfLimit};
ghost use Rattle.scenario_lanes.specs.Plan.{IsLane};
ghost use Rattle.scenario_lanes.specs.Lanes.{traced_lane};
ghost use Rattle.trace_check.specs.Document as spec;
ghost use Rattle.trace_check.specs.Document.{trace_keys, trace_of, ReadsTrace, IsTrace};

use crate::entry::{Entry, entry_of};
use scenario_fields::{Fields, LaneAt, ScenarioFault, Spot, TablePlace};
use scenario_lanes::{Lane, read_lane};
use std::alloc::Global;
use std::marker::Model;
use toml::{Table, Value};

/// A document has at most so many bytes.
pub const MOST_BYTES: usize = 4_194_304;

/// A trace has at most so many entries.
const MOST_ENTRIES: usize = 50_000;

/// The text of an entry has at most so many bytes.
const MOST_TEXT: usize = 8_192;

/// A captured dialogue: the terminal with its one purchase, and what was said, in its order. Contracts see a
/// list in place of the vector.
#[derive(Drop, Debug)]
pub struct Trace {
    pub lane: Lane,
    pub entries: Vec<Entry>,
}

impl Model for Trace {
    ghost use Rattle.trace_check.specs.Document.{TraceData};

    ghost Value = { TraceData };

    ghost view = { λ t. record { lane = t.lane; entries = t.entries.items } };
}

/// The entry of a text.
#[tactic(auto, unfolding(crate::specs::Document::entry_in_text))]
fn entry_in(spot: &Spot, text: &str) -> Result<Entry, ScenarioFault>
    ensures { Gives (λ entry. entry) result (spec.entry_in_text (spot_path spot.now.place spot.now.key.now spot.now.index) text.now) }
{
    if text.len() > MOST_TEXT {
        return Err(spot.far());
    }
    match entry_of(spot.alloc, text.as_bytes())? {
        Some(entry) => Ok(entry),
        None => Err(spot.bad()),
    }
}

/// An entry among those of a trace.
#[tactic(auto, unfolding(crate::specs::Document::entry_item))]
fn entry_item(document: &Fields, index: usize, value: &Value) -> Result<Entry, ScenarioFault>
    ensures { Gives (λ entry. entry) result (spec.entry_item (path document.now.place) index (view value.now)) }
{
    let spot = document.item("trace", index);
    entry_in(&spot, spot.str_of(value)?)
}

/// Each entry of a trace.
fn read_entries(document: &Fields, values: &[Value]) -> Result<Vec<Entry>, ScenarioFault>
    ensures exact { Gives (λ entries. entries.items) result (each (spec.entry_item (path document.now.place)) 0 (items_view values.now)) }
    ensures count { IfOk result (λ entries. vec_len entries ≡ length values.now) }
{
    let mut entries: Vec<Entry> = Vec::new(document.alloc);
    for value in values {
        let entry = entry_item(document, entries.len(), value)?;
        entries.push(entry)?;
    }
    Ok(entries)
}

/// The entries at their key in the document.
#[tactic(auto, unfolding(crate::specs::Document::entries_at))]
fn entries_at(document: &Fields) -> Result<Vec<Entry>, ScenarioFault>
    ensures exact { Gives (λ entries. entries.items) result (spec.entries_at (path document.now.place) (table_view document.now.table.now)) }
    ensures few { IfOk result (λ entries. vec_len entries ≤ 50000) }
{
    read_entries(document, document.array("trace", 0, MOST_ENTRIES)?)
}

#[tactic(auto, unfolding(crate::specs::Document::trace_keys))]
fn only_trace_keys(fields: &Fields) -> Result<(), ScenarioFault>
    ensures { Gives (λ u. u) result (only (path fields.now.place) trace_keys (table_view fields.now.table.now)) }
{
    fields.only(&["pin_key", "lane", "trace"])
}

/// The trace of a document.
#[tactic(auto, unfolding(crate::specs::Document::trace_of))]
fn read_document(alloc: Global, document: &Table) -> Result<Trace, ScenarioFault>
    ensures exact { Gives (λ trace. trace) result (trace_of (table_view document.now)) }
    ensures rules { IfOk result IsTrace }
{
    let fields = Fields {
        alloc,
        place: TablePlace::Top,
        table: document,
    };
    let pin_key = fields.byte_array("pin_key")?;
    let table = fields.inner("lane", TablePlace::Lane(LaneAt::Only))?.table;
    let lane = read_lane(alloc, table, pin_key)?;
    let entries = entries_at(&fields)?;
    only_trace_keys(&fields)?;
    Ok(Trace { lane, entries })
}

/// The fault of a document that is too long.
fn too_long(alloc: Global) -> ScenarioFault
    ensures { TellsFault result (OutOfLimit (codes "file")) }
{
    let file = Spot {
        alloc,
        place: TablePlace::Top,
        key: "file",
        index: None,
    };
    file.far()
}

/// Reads a trace of its document's bytes, or gives the document's first fault: more than 4,194,304 bytes, bytes
/// that are no TOML document, then the keys `pin_key`, `lane` and `trace` in this order, and any other. An entry
/// is a text of at most 8,192 bytes in one of the forms that `Entry` names, its bytes in lower-case hexadecimal
/// as a report shows them. Want of memory is an error of its own.
pub fn read_trace(alloc: Global, bytes: &[u8]) -> Result<Trace, ScenarioFault>
    ensures exact { ReadsTrace bytes.now result }
    ensures rules { IfOk result IsTrace }
{
    if bytes.len() > MOST_BYTES {
        return Err(too_long(alloc));
    }
    match toml::table_from_slice(alloc, bytes) {
        Ok(document) => read_document(alloc, &document),
        Err(fault) => {
            if fault.is_memory() {
                Err(ScenarioFault::OutOfMemory)
            } else {
                Err(ScenarioFault::Toml)
            }
        }
    }
}
