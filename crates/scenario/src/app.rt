//! The table of an application of a card.
ghost use Rattle.std.specs.Prelude.{◌≡◌, ◌∷◌, [], codes, false, option_map, IsTrue, IfOk};
ghost use Rattle.std.specs.List.{list_any};
ghost use Rattle.std.specs.Str.{bytes_eq};
ghost use Rattle.emv_dict.specs.Bcd.{has_digits};
ghost use Rattle.card_files.specs.AppRules.{is_name, is_label, is_format};
ghost use Rattle.toml.specs.View.{view, table_view};
ghost use Rattle.scenario_fields.specs.Fault.{Gives};
ghost use Rattle.scenario_fields.specs.Fields.{only, text_at, listed_or, number_or, optional_number};
ghost use Rattle.scenario_fields.specs.TablePaths.{path};
ghost use Rattle.scenario.specs.Cards as spec;
ghost use Rattle.scenario.specs.Cards.{app_keys, app_of, app_item as item_of, files_of, sequence_at as sequence_found, holder_of, counters_of, access_of, app_with, opening_state, own_or};
ghost use Rattle.scenario.specs.CardRules.{KeepsFiles, KeepsHolder, KeepsCounters, KeepsAccess, KeepsExtras, IsNewApp};
ghost use Rattle.scenario_fields.specs.declared.spot.Characters.TheVariants.{Printable};
ghost use Rattle.scenario.specs.Extras.{extras_of};

use crate::extras::{Extras, no_log, read_extras};
use crate::lists::{Holding, cdol_at, pdol_at};
use crate::record::records_at;
use card_files::rules::{MOST_AFL, reference_pin};
use card_files::{AppImage, RecordImage};
use card_keys::master_key;
use card_state::AppState;
use emv_dict::{Digits, LEAST_PAN, MOST_AMOUNT, MOST_PAN, Name, two_digits};
use issuer_host::HostKeys;
use scenario_fields::{Characters, Fields, ScenarioFault, Spot, TablePlace};
use std::alloc::Global;
use std::marker::Model;
use toml::{Table, Value};
use triple_des::Key16;

/// Whether an application has this name.
#[tactic(auto, unfolding(crate::specs::Cards::has_app_named))]
fn has_name(name: &[u8], apps: &[AppImage]) -> bool
    ensures { result ≡ spec.has_app_named name.now apps.now }
{
    apps.iter().any(|app| app.name.as_slice() == name)
}

/// A name that no earlier application has.
#[tactic(auto, unfolding(crate::specs::Cards::new_name))]
fn new_name(
    alloc: Global,
    card: usize,
    index: usize,
    earlier: &[AppImage],
    table: &Table,
) -> Result<Name, ScenarioFault>
    ensures exact { Gives (λ name. name) result (spec.new_name card index earlier.now (table_view table.now)) }
    ensures rule { IfOk result (λ name. IsTrue (is_name name)) }
    ensures first { IfOk result (λ name. spec.has_app_named name earlier.now ≡ false) }
{
    let fields = Fields {
        alloc,
        place: TablePlace::App(card, index),
        table,
    };
    let name = Name(fields.few_bytes("name", 5)?);
    if has_name(name.as_slice(), earlier) {
        return Err(fields.spot("name").bad());
    }
    Ok(name)
}

/// The application label.
fn label_at(fields: &Fields) -> Result<Vec<u8>, ScenarioFault>
    ensures exact { Gives (λ v. v.items) result (text_at (path fields.now.place) (codes "label") Printable 1 16 (table_view fields.now.table.now)) }
    ensures rule { IfOk result (λ v. IsTrue (is_label v.items)) }
{
    let text = fields.text("label", Characters::Printable, 1, 16)?;
    Ok(Vec::from_slice(fields.alloc, text)?)
}

/// Format 1 or 2 of an answer; 1 where the key is absent.
#[tactic(auto, unfolding(scenario_fields::specs::Value::is_listed))]
fn format_at(fields: &Fields, key: &str) -> Result<u8, ScenarioFault>
    ensures rule { IfOk result (λ n. IsTrue (is_format n)) }
    ensures exact { Gives (λ n. n) result (listed_or 1 (path fields.now.place) key.now (1 ∷ 2 ∷ []) (table_view fields.now.table.now)) }
{
    Ok(fields.listed_or(1, key, &[1, 2])? as u8)
}

/// What stands in an application's files.
#[derive(Drop)]
pub struct Files {
    name: Name,
    label: Vec<u8>,
    priority: Option<u8>,
    pdol: Option<Vec<u8>>,
    aip: [u8; 2],
    afl: Vec<u8>,
    gpo_format: u8,
    ac_format: u8,
    cdol1: Vec<u8>,
    cdol2: Vec<u8>,
    records: Vec<RecordImage>,
}

impl Model for Files {
    ghost use Rattle.std.specs.Prelude.{option_map};
    ghost use Rattle.scenario.specs.Cards.{FilesData};

    ghost Value = { FilesData };

    ghost view = { λ x. record {
      name = x.name;
      label = x.label.items;
      priority = x.priority;
      pdol = option_map (λ list. list.items) x.pdol;
      aip = x.aip;
      afl = x.afl.items;
      gpo_format = x.gpo_format;
      ac_format = x.ac_format;
      cdol1 = x.cdol1.items;
      cdol2 = x.cdol2.items;
      records = x.records.items;
    } };
}

/// The application priority indicator, where there is one.
fn priority_at(fields: &Fields) -> Result<Option<u8>, ScenarioFault>
    ensures { Gives (λ o. o) result (optional_number (path fields.now.place) (codes "priority") 0 255 (table_view fields.now.table.now)) }
{
    match fields.optional_number("priority", 0, 255)? {
        Some(number) => Ok(Some(number as u8)),
        None => Ok(None),
    }
}

/// The keys up to the records.
#[tactic(auto, unfolding(crate::specs::Cards::files_of))]
fn read_files(
    alloc: Global,
    card: usize,
    index: usize,
    earlier: &[AppImage],
    table: &Table,
) -> Result<Files, ScenarioFault>
    ensures exact { Gives (λ x. x) result (files_of card index earlier.now (table_view table.now)) }
    ensures rules { IfOk result (λ files. KeepsFiles files) }
    ensures first { IfOk result (λ files. spec.has_app_named files.name earlier.now ≡ false) }
{
    let fields = Fields {
        alloc,
        place: TablePlace::App(card, index),
        table,
    };
    let name = new_name(alloc, card, index, earlier, table)?;
    let label = label_at(&fields)?;
    let priority = priority_at(&fields)?;
    let pdol = pdol_at(alloc, card, index, table)?;
    let aip = fields.byte_array("aip")?;
    let afl = fields.bytes("afl", 0, MOST_AFL)?;
    let gpo_format = format_at(&fields, "gpo_format")?;
    let ac_format = format_at(&fields, "ac_format")?;
    let cdol1 = cdol_at(alloc, card, index, "cdol1", Holding::First, table)?;
    let cdol2 = cdol_at(alloc, card, index, "cdol2", Holding::Second, table)?;
    let records = records_at(alloc, card, index, table)?;
    Ok(Files {
        name,
        label,
        priority,
        pdol,
        aip,
        afl,
        gpo_format,
        ac_format,
        cdol1,
        cdol2,
        records,
    })
}

/// An application's account.
#[derive(Drop)]
pub struct Holder {
    pan: Digits,
    sequence: u8,
    currency: [u8; 2],
}

impl Model for Holder {
    ghost use Rattle.scenario.specs.Cards.{HolderData};

    ghost Value = { HolderData };

    ghost view = { λ x. record {
      pan = x.pan;
      sequence = x.sequence;
      currency = x.currency;
    } };
}

/// The counters with which it opens, and its limits.
#[derive(Drop)]
pub struct Counters {
    counter: u16,
    last_online: u16,
    count_limit: u8,
    sum_limit: u64,
}

impl Model for Counters {
    ghost use Rattle.scenario.specs.Cards.{CountersData};

    ghost Value = { CountersData };

    ghost view = { λ x. record {
      counter = x.counter;
      last_online = x.last_online;
      count_limit = x.count_limit;
      sum_limit = x.sum_limit;
    } };
}

/// Its PIN as a plain block or zeros, its tries, and its own key, where it has one.
#[derive(Drop)]
pub struct Access {
    pin: [u8; 8],
    tries: u8,
    blocked: bool,
    ac_key: Option<[u8; 16]>,
}

impl Model for Access {
    ghost use Rattle.scenario.specs.Cards.{AccessData};

    ghost Value = { AccessData };

    ghost view = { λ x. record {
      pin = x.pin;
      tries = x.tries;
      blocked = x.blocked;
      ac_key = x.ac_key;
    } };
}

/// The sequence number as the byte of its two digits; 00 where the key is absent.
#[tactic(auto, unfolding(crate::specs::Cards::sequence_at))]
fn sequence_at(fields: &Fields) -> Result<u8, ScenarioFault>
    ensures digits { IfOk result (λ byte. IsTrue (has_digits byte)) }
    ensures exact { Gives (λ byte. byte) result (sequence_found (path fields.now.place) (table_view fields.now.table.now)) }
{
    let number = fields.number_or(0, "sequence", 0, 99)?;
    Ok(two_digits(number as u8))
}

/// The keys from the PAN to the currency.
#[tactic(auto, unfolding(crate::specs::Cards::holder_of))]
fn read_holder(
    alloc: Global,
    card: usize,
    index: usize,
    table: &Table,
) -> Result<Holder, ScenarioFault>
    ensures exact { Gives (λ x. x) result (holder_of card index (table_view table.now)) }
    ensures rules { IfOk result (λ holder. KeepsHolder holder) }
{
    let fields = Fields {
        alloc,
        place: TablePlace::App(card, index),
        table,
    };
    let pan = fields.digits("pan", LEAST_PAN, MOST_PAN)?;
    let sequence = sequence_at(&fields)?;
    let currency = fields.code("currency")?;
    Ok(Holder {
        pan,
        sequence,
        currency,
    })
}

/// A transaction counter; 0 where the key is absent.
fn counter_at(fields: &Fields, key: &str) -> Result<u16, ScenarioFault>
    ensures { Gives (λ n. n) result (number_or 0 (path fields.now.place) key.now 0 65535 (table_view fields.now.table.now)) }
{
    Ok(fields.number_or(0, key, 0, 65_535)? as u16)
}

/// The counters and limits.
#[tactic(auto, unfolding(crate::specs::Cards::counters_of))]
fn read_counters(
    alloc: Global,
    card: usize,
    index: usize,
    table: &Table,
) -> Result<Counters, ScenarioFault>
    ensures exact { Gives (λ x. x) result (counters_of card index (table_view table.now)) }
    ensures rule { IfOk result (λ counters. KeepsCounters counters) }
{
    let fields = Fields {
        alloc,
        place: TablePlace::App(card, index),
        table,
    };
    let counter = counter_at(&fields, "counter")?;
    let last_online = counter_at(&fields, "last_online")?;
    let count_limit = fields.number("count_limit", 0, 255)? as u8;
    let sum_limit = fields.number("sum_limit", 0, MOST_AMOUNT)?;
    Ok(Counters {
        counter,
        last_online,
        count_limit,
        sum_limit,
    })
}

/// The keys from the PIN on.
#[tactic(auto, unfolding(crate::specs::Cards::access_of))]
fn read_access(
    alloc: Global,
    card: usize,
    index: usize,
    table: &Table,
) -> Result<Access, ScenarioFault>
    ensures exact { Gives (λ x. x) result (access_of card index (table_view table.now)) }
    ensures rules { IfOk result (λ access. KeepsAccess access) }
{
    let fields = Fields {
        alloc,
        place: TablePlace::App(card, index),
        table,
    };
    let pin = fields.optional_digits("pin", 4, 12)?;
    let tries = fields.number_or(3, "tries", 0, 15)? as u8;
    let blocked = fields.flag_or(false, "blocked")?;
    let ac_key = fields.optional_byte_array("ac_key")?;
    Ok(Access {
        pin: reference_pin(&pin),
        tries,
        blocked,
        ac_key,
    })
}

#[tactic(auto, unfolding(crate::specs::Cards::app_keys))]
fn only_app_keys(fields: &Fields) -> Result<(), ScenarioFault>
    ensures { Gives (λ u. u) result (only (path fields.now.place) app_keys (table_view fields.now.table.now)) }
{
    fields.only(&[
        "name",
        "label",
        "priority",
        "pdol",
        "aip",
        "afl",
        "gpo_format",
        "ac_format",
        "cdol1",
        "cdol2",
        "record",
        "pan",
        "sequence",
        "currency",
        "counter",
        "last_online",
        "count_limit",
        "sum_limit",
        "pin",
        "tries",
        "blocked",
        "ac_key",
        "currency_two",
        "limit_two",
        "log",
        "log_sfi",
    ])
}

/// The application's own key, or the one derived from the issuer's.
fn own_or(derived: Key16, own: Option<[u8; 16]>) -> Key16
    ensures { result ≡ own_or derived own }
{
    match own {
        Some(bytes) => Key16::new(bytes),
        None => derived,
    }
}

/// The application of its parts; its other keys are derived from the issuer's.
#[tactic(auto, unfolding(crate::specs::Cards::app_with))]
fn app_with(
    keys: &HostKeys,
    files: Files,
    holder: Holder,
    counters: Counters,
    access: Access,
    extras: Extras,
) -> AppImage
    ensures { result ≡ app_with keys.now files holder counters access extras }
{
    let mac_key = master_key(&keys.mac, &holder.pan, holder.sequence);
    let enc_key = master_key(&keys.enc, &holder.pan, holder.sequence);
    let derived = master_key(&keys.ac, &holder.pan, holder.sequence);
    let aip = files.aip;
    let currency = holder.currency;
    AppImage {
        name: files.name,
        label: files.label,
        priority: files.priority,
        pdol: files.pdol,
        aip,
        afl: files.afl,
        gpo_format: files.gpo_format,
        ac_format: files.ac_format,
        cdol1: files.cdol1,
        cdol2: files.cdol2,
        records: files.records,
        pan: holder.pan,
        sequence: holder.sequence,
        currency,
        opening: opening_of(&counters, &access, &extras),
        tries: access.tries,
        ac_key: own_or(derived, access.ac_key),
        currency_two: extras.currency_two,
        limit_two: extras.limit_two,
        log: extras.log,
        log_sfi: extras.log_sfi,
        mac_key,
        enc_key,
    }
}

/// The state in which an application opens: nothing is counted yet.
#[tactic(auto, unfolding(crate::specs::Cards::opening_state))]
fn opening_of(counters: &Counters, access: &Access, extras: &Extras) -> AppState
    ensures { result ≡ opening_state counters.now access.now extras.now }
{
    let pin = access.pin;
    AppState {
        counter: counters.counter,
        last_online: counters.last_online,
        count: 0,
        sum: 0,
        count_limit: counters.count_limit,
        sum_limit: counters.sum_limit,
        tries: access.tries,
        blocked: access.blocked,
        auth_failed: false,
        pin,
        sum_two: 0,
        limit_two: extras.limit_two,
        log_max: extras.log,
        log: no_log(),
    }
}

/// What stands behind an application's own key.
fn extras_beside(fields: &Fields, files: &Files, holder: &Holder) -> Result<Extras, ScenarioFault>
    ensures exact { Gives (λ x. x) result (extras_of (path fields.now.place) files.now.pdol files.now.records holder.now.currency (table_view fields.now.table.now)) }
    ensures rules { IfOk result (λ extras. KeepsExtras files.now.pdol files.now.records holder.now.currency extras) }
{
    read_extras(
        fields,
        &files.pdol,
        files.records.as_slice(),
        holder.currency,
    )
}

/// An application behind earlier ones of its card.
#[tactic(auto, unfolding(crate::specs::Cards::app_of))]
fn read_app(
    alloc: Global,
    card: usize,
    index: usize,
    keys: &HostKeys,
    earlier: &[AppImage],
    table: &Table,
) -> Result<AppImage, ScenarioFault>
    ensures exact { Gives (λ x. x) result (app_of card index keys.now earlier.now (table_view table.now)) }
    ensures new { IfOk result (λ app. IsNewApp earlier.now app) }
{
    let fields = Fields {
        alloc,
        place: TablePlace::App(card, index),
        table,
    };
    let files = read_files(alloc, card, index, earlier, table)?;
    let holder = read_holder(alloc, card, index, table)?;
    let counters = read_counters(alloc, card, index, table)?;
    let access = read_access(alloc, card, index, table)?;
    let extras = extras_beside(&fields, &files, &holder)?;
    only_app_keys(&fields)?;
    Ok(app_with(keys, files, holder, counters, access, extras))
}

/// An application among those of a card.
#[tactic(auto, unfolding(crate::specs::Cards::app_item))]
pub fn app_item(
    alloc: Global,
    card: usize,
    index: usize,
    keys: &HostKeys,
    earlier: &[AppImage],
    value: &Value,
) -> Result<AppImage, ScenarioFault>
    ensures exact { Gives (λ x. x) result (item_of card index keys.now earlier.now (view value.now)) }
    ensures new { IfOk result (λ app. IsNewApp earlier.now app) }
{
    let spot = Spot {
        alloc,
        place: TablePlace::Card(card),
        key: "app",
        index: Some(index),
    };
    let table = spot.table(value)?;
    read_app(alloc, card, index, keys, earlier, table)
}
