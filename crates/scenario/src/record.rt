//! The table of a record.
ghost use Rattle.std.specs.Prelude.{◌≡◌, [], length, codes, vec_len, IsTrue, IfOk};
ghost use Rattle.card_files.specs.AppRules.{are_apart, are_records};
ghost use Rattle.toml.specs.View.{view, table_view, items_view};
ghost use Rattle.scenario_fields.specs.Fault.{Gives, TellsFault};
ghost use Rattle.scenario_fields.specs.Fields.{only};
ghost use Rattle.scenario_fields.specs.TablePaths.{path, in_app, item_path};
ghost use Rattle.scenario_fields.specs.declared.fault.ScenarioFault.TheVariants.{BadValue};
ghost use Rattle.scenario.specs.CardRules.{IsNewRecord};
ghost use Rattle.scenario.specs.Cards.{record_keys, record_of_members, record_item, records_from, records_at};

use card_files::RecordImage;
use card_files::rules::{MOST_RECORDS, is_among};
use scenario_fields::{Fields, ScenarioFault, Spot, TablePlace};
use std::alloc::Global;
use toml::{Table, Value};

#[tactic(auto, unfolding(crate::specs::Cards::record_keys))]
fn only_record_keys(fields: &Fields) -> Result<(), ScenarioFault>
    ensures { Gives (λ u. u) result (only (path fields.now.place) record_keys (table_view fields.now.table.now)) }
{
    fields.only(&["sfi", "number", "bytes"])
}

/// Where a record stands: its card, its application and its own index.
#[derive(Clone, Copy)]
struct RecordPlace {
    card: usize,
    app: usize,
    index: usize,
}

/// The fault of a record of a number that an earlier one of its file has.
fn twin(alloc: Global, at: RecordPlace) -> ScenarioFault
    ensures { TellsFault result (BadValue (in_app at.card at.app (item_path (codes "record") at.index []))) }
{
    let spot = Spot {
        alloc,
        place: TablePlace::App(at.card, at.app),
        key: "record",
        index: Some(at.index),
    };
    spot.bad()
}

/// A record behind earlier ones: no two of one number in one file.
#[tactic(auto, unfolding(crate::specs::Cards::record_of_members))]
fn read_record(
    alloc: Global,
    at: RecordPlace,
    earlier: &[RecordImage],
    table: &Table,
) -> Result<RecordImage, ScenarioFault>
    ensures new { IfOk result (λ r. IsNewRecord earlier.now r) }
    ensures exact { Gives (λ x. x) result (record_of_members at.card at.app at.index earlier.now (table_view table.now)) }
{
    let fields = Fields {
        alloc,
        place: TablePlace::Record(at.card, at.app, at.index),
        table,
    };
    let sfi = fields.number("sfi", 1, 30)? as u8;
    let number = fields.number("number", 1, 255)? as u8;
    let bytes = fields.bytes("bytes", 1, 256)?;
    let record = RecordImage { sfi, number, bytes };
    if is_among(&record, earlier) {
        return Err(twin(alloc, at));
    }
    only_record_keys(&fields)?;
    Ok(record)
}

/// A record among those of an application.
#[tactic(auto, unfolding(crate::specs::Cards::record_item))]
fn record_item(
    alloc: Global,
    at: RecordPlace,
    earlier: &[RecordImage],
    value: &Value,
) -> Result<RecordImage, ScenarioFault>
    ensures new { IfOk result (λ r. IsNewRecord earlier.now r) }
    ensures exact { Gives (λ x. x) result (record_item at.card at.app at.index earlier.now (view value.now)) }
{
    let spot = Spot {
        alloc,
        place: TablePlace::App(at.card, at.app),
        key: "record",
        index: Some(at.index),
    };
    let table = spot.table(value)?;
    read_record(alloc, at, earlier, table)
}

/// Each record of an application.
fn read_records(
    alloc: Global,
    card: usize,
    app: usize,
    values: &[Value],
) -> Result<Vec<RecordImage>, ScenarioFault>
    ensures exact { Gives (λ records. records.items) result (records_from card app 0 [] (items_view values.now)) }
    ensures count { IfOk result (λ records. vec_len records ≡ length values.now) }
    ensures apart { IfOk result (λ records. IsTrue (are_apart records.items)) }
{
    let mut records: Vec<RecordImage> = Vec::new(alloc);
    for value in values {
        let at = RecordPlace {
            card,
            app,
            index: records.len(),
        };
        let record = record_item(alloc, at, records.as_slice(), value)?;
        records.push(record)?;
    }
    Ok(records)
}

/// The records of an application.
#[tactic(auto, unfolding(crate::specs::Cards::records_at))]
pub fn records_at(
    alloc: Global,
    card: usize,
    app: usize,
    table: &Table,
) -> Result<Vec<RecordImage>, ScenarioFault>
    ensures exact { Gives (λ records. records.items) result (records_at card app (table_view table.now)) }
    ensures rule { IfOk result (λ records. IsTrue (are_records records.items)) }
{
    let fields = Fields {
        alloc,
        place: TablePlace::App(card, app),
        table,
    };
    read_records(alloc, card, app, fields.array("record", 0, MOST_RECORDS)?)
}
