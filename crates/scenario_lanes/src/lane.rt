//! The tables of a lane and of its applications.
ghost use Rattle.std.specs.Prelude.{◌≡◌, ◌≤◌, ◌+◌, ◌-◌, length, map, IfOk, vec_len, true};
ghost use Rattle.std.specs.List.{All};
ghost use Rattle.emv_dict.specs.Settings.{IsAidRow, IsSettings};
ghost use Rattle.toml.specs.View.{view, table_view, items_view};
ghost use Rattle.scenario_fields.specs.Fault.{Gives};
ghost use Rattle.scenario_fields.specs.Fields.{only, each};
ghost use Rattle.scenario_fields.specs.TablePaths.{path, spot_path};
ghost use Rattle.scenario_lanes.specs.Lanes.{aid_keys, aid_of, aid_item, aids_at, lane_keys, settings_of, dialect_named, dialect_in, dialect_or_tlv, durable_on, durable_in, durable_or_not, lane_of, traced_lane, live_lane, lane_item, lanes_from, lanes_at};
ghost use Rattle.scenario_lanes.specs.Plan.{IsLane, HasOwnPages, HaveRoom, last_pages, purchase_count};
ghost use Rattle.scenario_fields.specs.declared.place.LaneAt.TheVariants.{Numbered};

use crate::plan::Lane;
use crate::purchase::{purchases_at, try_terminal_tears};
use emv_dict::{AidRow, LEAST_PAN, MOST_AMOUNT, MOST_PAN, Name, Settings};
use scenario_fields::{Characters, Fields, LaneAt, ScenarioFault, Spot, TablePlace};
use std::alloc::Global;
use toml::{Table, Value};

/// All lanes together have at most so many purchases.
const MOST_PURCHASES: usize = 10_000;

/// The last of the bank's page objects, which is that of lane 0's store. The next lane has the one
/// before it.
pub const LAST_PAGES: usize = 63;

#[tactic(auto, unfolding(crate::specs::Lanes::aid_keys))]
fn only_aid_keys(fields: &Fields) -> Result<(), ScenarioFault>
    ensures { Gives (λ u. u) result (only (path fields.now.place) aid_keys (table_view fields.now.table.now)) }
{
    fields.only(&[
        "name",
        "partial",
        "version",
        "denial",
        "online",
        "default",
        "floor",
        "threshold",
        "target",
        "max_target",
    ])
}

/// What a terminal keeps for one application.
#[tactic(auto, unfolding(crate::specs::Lanes::aid_of))]
fn read_aid(fields: &Fields) -> Result<AidRow, ScenarioFault>
    ensures exact { Gives (λ row. row) result (aid_of (path fields.now.place) (table_view fields.now.table.now)) }
    ensures rules { IfOk result IsAidRow }
{
    let name = Name(fields.few_bytes("name", 5)?);
    let partial = fields.flag_or(false, "partial")?;
    let version = fields.byte_array("version")?;
    let denial = fields.byte_array("denial")?;
    let online = fields.byte_array("online")?;
    let fallback = fields.byte_array("default")?;
    let floor = fields.number("floor", 0, MOST_AMOUNT)?;
    let threshold = fields.number("threshold", 0, floor)?;
    let target = fields.number("target", 0, 99)?;
    let max_target = fields.number("max_target", target, 99)?;
    only_aid_keys(fields)?;
    Ok(AidRow {
        name,
        partial,
        version,
        denial,
        online,
        fallback,
        floor,
        threshold,
        target: target as u8,
        max_target: max_target as u8,
    })
}

/// An application among those of a lane.
#[tactic(auto, unfolding(crate::specs::Lanes::aid_item))]
fn aid_item(
    fields: &Fields,
    lane: LaneAt,
    index: usize,
    value: &Value,
) -> Result<AidRow, ScenarioFault>
    ensures exact { Gives (λ row. row) result (aid_item (path fields.now.place) lane index (view value.now)) }
    ensures rules { IfOk result IsAidRow }
{
    read_aid(&fields.element("aid", index, TablePlace::Aid(lane, index), value)?)
}

/// Each application of a lane.
fn read_aids(fields: &Fields, lane: LaneAt, values: &[Value]) -> Result<Vec<AidRow>, ScenarioFault>
    ensures exact { Gives (λ rows. rows.items) result (each (aid_item (path fields.now.place) lane) 0 (items_view values.now)) }
    ensures count { IfOk result (λ rows. vec_len rows ≡ length values.now) }
    ensures rules { IfOk result (λ rows. All IsAidRow rows.items) }
{
    let mut rows = Vec::new(fields.alloc);
    for value in values {
        rows.push(aid_item(fields, lane, rows.len(), value)?)?;
    }
    Ok(rows)
}

/// The applications of a lane.
#[tactic(auto, unfolding(crate::specs::Lanes::aids_at))]
fn aids_at(fields: &Fields, lane: LaneAt) -> Result<Vec<AidRow>, ScenarioFault>
    ensures exact { Gives (λ rows. rows.items) result (aids_at (path fields.now.place) lane (table_view fields.now.table.now)) }
    ensures some { IfOk result (λ rows. 1 ≤ vec_len rows) }
    ensures few { IfOk result (λ rows. vec_len rows ≤ 16) }
    ensures rules { IfOk result (λ rows. All IsAidRow rows.items) }
{
    read_aids(fields, lane, fields.array("aid", 1, 16)?)
}

#[tactic(auto, unfolding(crate::specs::Lanes::lane_keys))]
fn only_lane_keys(fields: &Fields) -> Result<(), ScenarioFault>
    ensures { Gives (λ u. u) result (only (path fields.now.place) lane_keys (table_view fields.now.table.now)) }
{
    fields.only(&[
        "kind",
        "country",
        "caps",
        "id",
        "exceptions",
        "aid",
        "purchase",
        "pse",
        "dialect",
        "durable",
    ])
}

/// The settings of a lane's terminal but for the directory, whose key stands behind the purchases.
#[tactic(auto, unfolding(crate::specs::Lanes::settings_of))]
fn read_settings(
    fields: &Fields,
    lane: LaneAt,
    pin_key: [u8; 16],
) -> Result<Settings, ScenarioFault>
    ensures exact { Gives (λ settings. settings) result (settings_of (path fields.now.place) lane pin_key (table_view fields.now.table.now)) }
    ensures rules { IfOk result IsSettings }
    ensures pin { IfOk result (λ settings. settings.pin_key ≡ pin_key) }
{
    let kind = fields.number("kind", 21, 26)? as u8;
    let country = fields.code("country")?;
    let caps = fields.byte_array("caps")?;
    let id = fields.text_array("id", Characters::LetterOrDigit)?;
    let exceptions = fields.digits_list("exceptions", 100, LEAST_PAN, MOST_PAN)?;
    let aids = aids_at(fields, lane)?;
    Ok(Settings {
        kind,
        country,
        caps,
        id,
        pin_key,
        exceptions,
        aids,
        pse: false,
    })
}

/// Whether messages go in the form of ISO 8583, by the word for a dialect.
#[tactic(auto, unfolding(crate::specs::Lanes::dialect_named))]
fn dialect_named(spot: &Spot, word: &str) -> Result<bool, ScenarioFault>
    ensures { Gives (λ iso. iso) result (dialect_named (spot_path spot.now.place spot.now.key.now spot.now.index) word.now) }
{
    if word == "tlv" {
        Ok(false)
    } else if word == "iso" {
        Ok(true)
    } else {
        Err(spot.bad())
    }
}

/// Whether messages go in the form of ISO 8583, by the value for a dialect, where the lane may have one.
fn dialect_in(spot: &Spot, allowed: bool, value: &Value) -> Result<bool, ScenarioFault>
    ensures { Gives (λ iso. iso) result (dialect_in allowed (spot_path spot.now.place spot.now.key.now spot.now.index) (view value.now)) }
{
    if !allowed {
        return Err(spot.bad());
    }
    dialect_named(spot, spot.str_of(value)?)
}

/// Whether the messages of a lane go in the form of ISO 8583.
#[tactic(auto, unfolding(crate::specs::Lanes::dialect_or_tlv))]
fn dialect_or_tlv(fields: &Fields, allowed: bool) -> Result<bool, ScenarioFault>
    ensures { Gives (λ iso. iso) result (dialect_or_tlv allowed (path fields.now.place) (table_view fields.now.table.now)) }
{
    match fields.optional("dialect") {
        Some(value) => dialect_in(&fields.spot("dialect"), allowed, value),
        None => Ok(false),
    }
}

/// Whether a lane keeps its captures durably: its page object must be none of the cards'.
#[tactic(auto, unfolding(crate::specs::Lanes::durable_on))]
fn durable_on(spot: &Spot, lane: usize, cards: usize, durable: bool) -> Result<bool, ScenarioFault>
    ensures exact { Gives (λ durable. durable) result (durable_on cards lane (spot_path spot.now.place spot.now.key.now spot.now.index) durable) }
    ensures room { IfOk result (λ durable. durable ≡ true → cards ≤ last_pages - lane) }
{
    if durable && LAST_PAGES.saturating_sub(lane) < cards {
        Err(spot.far())
    } else {
        Ok(durable)
    }
}

/// Whether a lane keeps its captures durably, by the value for it. The terminal of a trace has no
/// store.
fn durable_in(spot: &Spot, lane: LaneAt, cards: usize, value: &Value) -> Result<bool, ScenarioFault>
    ensures exact { Gives (λ durable. durable) result (durable_in cards lane (spot_path spot.now.place spot.now.key.now spot.now.index) (view value.now)) }
    ensures room { IfOk result (λ durable. durable ≡ true → HasOwnPages cards lane) }
{
    match lane {
        LaneAt::Numbered(index) => durable_on(spot, index, cards, spot.flag(value)?),
        LaneAt::Only => Err(spot.bad()),
    }
}

/// Whether a lane keeps its captures durably, where the scenario has so many cards.
#[tactic(auto, unfolding(crate::specs::Lanes::durable_or_not))]
fn durable_or_not(fields: &Fields, lane: LaneAt, cards: usize) -> Result<bool, ScenarioFault>
    ensures exact { Gives (λ durable. durable) result (durable_or_not cards lane (path fields.now.place) (table_view fields.now.table.now)) }
    ensures room { IfOk result (λ durable. durable ≡ true → HasOwnPages cards lane) }
{
    match fields.optional("durable") {
        Some(value) => durable_in(&fields.spot("durable"), lane, cards, value),
        None => Ok(false),
    }
}

/// What a lane may have: so many purchases, and a dialect or none.
#[derive(Clone, Copy)]
struct LaneLimits {
    least: usize,
    most: usize,
    dialect: bool,
}

/// A lane within these limits.
#[tactic(auto, unfolding(crate::specs::Lanes::lane_of))]
fn lane_with(
    fields: &Fields,
    lane: LaneAt,
    limits: LaneLimits,
    cards: &[&[u8]],
    pin_key: [u8; 16],
) -> Result<Lane, ScenarioFault>
    ensures exact { Gives (λ lane. lane) result (lane_of (path fields.now.place) lane limits (map (λ name. name.now) cards.now) pin_key (table_view fields.now.table.now)) }
    ensures some { IfOk result (λ lane. limits.least ≤ length lane.purchases) }
    ensures few { IfOk result (λ lane. length lane.purchases ≤ limits.most) }
    ensures rules { IfOk result IsLane }
    ensures room { IfOk result (λ found. found.durable ≡ true → HasOwnPages (length cards.now) lane) }
    ensures pin { IfOk result (λ lane. lane.settings.pin_key ≡ pin_key) }
{
    let settings = read_settings(fields, lane, pin_key)?;
    let purchases = purchases_at(fields, lane, limits.least, limits.most, cards)?;
    let pse = fields.flag_or(false, "pse")?;
    let iso = dialect_or_tlv(fields, limits.dialect)?;
    let durable = durable_or_not(fields, lane, cards.len())?;
    try_terminal_tears(fields, lane, durable, &purchases)?;
    only_lane_keys(fields)?;
    Ok(Lane {
        settings: Settings { pse, ..settings },
        purchases,
        iso,
        durable,
    })
}

/// The lane of a captured trace, from the table at the key `lane`, the only one of its document: with
/// one purchase, whose card has a name that no card is looked up by, so that its index is 0. `pin_key` is
/// the key under which the terminal sends PINs to the issuer. A `link`, a `tear`, a `terminal_tear`, a
/// `dialect` or a `durable`, which would act on the host's side, the card, the terminal's memory or the
/// messages, is a `BadValue` where it stands.
pub fn read_lane(alloc: Global, table: &Table, pin_key: [u8; 16]) -> Result<Lane, ScenarioFault>
    ensures exact { Gives (λ lane. lane) result (traced_lane pin_key (table_view table.now)) }
    ensures one { IfOk result (λ lane. length lane.purchases ≡ 1) }
    ensures rules { IfOk result IsLane }
    ensures pin { IfOk result (λ lane. lane.settings.pin_key ≡ pin_key) }
{
    let fields = Fields {
        alloc,
        place: TablePlace::Lane(LaneAt::Only),
        table,
    };
    let limits = LaneLimits {
        least: 1,
        most: 1,
        dialect: false,
    };
    lane_with(&fields, LaneAt::Only, limits, &[], pin_key)
}

/// The lane of a terminal that talks with others, from the table at the key `lane`: as that of a trace, with one to
/// `most` purchases, and a `dialect` where its messages have one.
pub fn read_live_lane(
    alloc: Global,
    table: &Table,
    most: usize,
    pin_key: [u8; 16],
) -> Result<Lane, ScenarioFault>
    ensures exact { Gives (λ lane. lane) result (live_lane most pin_key (table_view table.now)) }
    ensures some { IfOk result (λ lane. 1 ≤ length lane.purchases) }
    ensures few { IfOk result (λ lane. length lane.purchases ≤ most) }
    ensures rules { IfOk result IsLane }
    ensures pin { IfOk result (λ lane. lane.settings.pin_key ≡ pin_key) }
{
    let fields = Fields {
        alloc,
        place: TablePlace::Lane(LaneAt::Only),
        table,
    };
    let limits = LaneLimits {
        least: 1,
        most,
        dialect: true,
    };
    lane_with(&fields, LaneAt::Only, limits, &[], pin_key)
}

/// A lane among those of the document.
#[tactic(auto, unfolding(crate::specs::Lanes::lane_item))]
fn lane_item(
    document: &Fields,
    lane: usize,
    earlier: usize,
    cards: &[&[u8]],
    pin_key: [u8; 16],
    value: &Value,
) -> Result<Lane, ScenarioFault>
    requires { earlier ≤ 10000 }
    ensures exact { Gives (λ lane. lane) result (lane_item (path document.now.place) lane earlier (map (λ name. name.now) cards.now) pin_key (view value.now)) }
    ensures count { IfOk result (λ lane. earlier + length lane.purchases ≤ 10000) }
    ensures rules { IfOk result IsLane }
    ensures room { IfOk result (λ found. found.durable ≡ true → HasOwnPages (length cards.now) (Numbered lane)) }
    ensures pin { IfOk result (λ lane. lane.settings.pin_key ≡ pin_key) }
{
    let at = LaneAt::Numbered(lane);
    let fields = document.element("lane", lane, TablePlace::Lane(at), value)?;
    let limits = LaneLimits {
        least: 0,
        most: MOST_PURCHASES - earlier,
        dialect: true,
    };
    lane_with(&fields, at, limits, cards, pin_key)
}

/// Each lane of the document.
fn read_lanes(
    document: &Fields,
    cards: &[&[u8]],
    pin_key: [u8; 16],
    values: &[Value],
) -> Result<Vec<Lane>, ScenarioFault>
    ensures exact { Gives (λ lanes. lanes.items) result (lanes_from (path document.now.place) 0 0 (map (λ name. name.now) cards.now) pin_key (items_view values.now)) }
    ensures count { IfOk result (λ lanes. vec_len lanes ≡ length values.now) }
    ensures few { IfOk result (λ lanes. purchase_count lanes.items ≤ 10000) }
    ensures rules { IfOk result (λ lanes. All IsLane lanes.items) }
    ensures rooms { IfOk result (λ lanes. HaveRoom (length cards.now) lanes.items) }
    ensures pins { IfOk result (λ lanes. All (λ lane. lane.settings.pin_key ≡ pin_key) lanes.items) }
{
    let mut lanes: Vec<Lane> = Vec::new(document.alloc);
    let mut earlier = 0;
    for value in values {
        let lane = lane_item(document, lanes.len(), earlier, cards, pin_key, value)?;
        earlier += lane.purchases.len();
        lanes.push(lane)?;
    }
    Ok(lanes)
}

/// The lanes of a document, from 1 to 16 with at most 10,000 purchases together. A purchase names one
/// of the cards, `pin_key` is the key under which a terminal sends PINs to the issuer. A purchase whose
/// card is none of these has their number as its index.
#[tactic(auto, unfolding(crate::specs::Lanes::lanes_at))]
pub fn lanes_at(
    document: &Fields,
    cards: &[&[u8]],
    pin_key: [u8; 16],
) -> Result<Vec<Lane>, ScenarioFault>
    ensures exact { Gives (λ lanes. lanes.items) result (lanes_at (path document.now.place) (map (λ name. name.now) cards.now) pin_key (table_view document.now.table.now)) }
    ensures some { IfOk result (λ lanes. 1 ≤ vec_len lanes) }
    ensures few { IfOk result (λ lanes. vec_len lanes ≤ 16) }
    ensures few_purchases { IfOk result (λ lanes. purchase_count lanes.items ≤ 10000) }
    ensures rules { IfOk result (λ lanes. All IsLane lanes.items) }
    ensures rooms { IfOk result (λ lanes. HaveRoom (length cards.now) lanes.items) }
    ensures pins { IfOk result (λ lanes. All (λ lane. lane.settings.pin_key ≡ pin_key) lanes.items) }
{
    read_lanes(document, cards, pin_key, document.array("lane", 1, 16)?)
}
