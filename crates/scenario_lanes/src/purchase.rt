//! The table of a purchase.
ghost use Rattle.std.specs.Prelude.{◌≡◌, ◌≤◌, ◌==◌, ◌||◌, [], ◌∷◌, length, map, IfOk, IsTrue, vec_len, codes};
ghost use Rattle.std.specs.List.{All};
ghost use Rattle.emv_dict.specs.Settings.{IsPurchase};
ghost use Rattle.toml.specs.View.{view, table_view, items_view};
ghost use Rattle.scenario_fields.specs.Fault.{Gives, TellsFault};
ghost use Rattle.scenario_fields.specs.Fields.{listed_or, only, each};
ghost use Rattle.scenario_fields.specs.TablePaths.{path, spot_path, in_purchase};
ghost use Rattle.scenario_fields.specs.declared.fault.ScenarioFault.TheVariants.{BadValue};
ghost use Rattle.scenario_lanes.specs.Plan.{IsPlanned};
ghost use Rattle.scenario_lanes.specs.Purchases.{link_named, link_of, link_in, link_or_sound, card_index, card_index_at, purchase_of, planned_keys, planned_of, planned_item, purchases_at, no_terminal_tears, tears_tried};

use crate::plan::{Link, Planned};
use crate::tear::tear_at;
use emv_dict::{MOST_AMOUNT, Purchase};
use scenario_fields::{Characters, Fields, LaneAt, ScenarioFault, Spot, TablePlace};
use toml::Value;

/// What becomes of a message, by the word for it.
#[tactic(auto, unfolding(crate::specs::Purchases::link_named))]
fn link_named(spot: &Spot, word: &str) -> Result<Link, ScenarioFault>
    ensures { Gives (λ link. link) result (link_named (spot_path spot.now.place spot.now.key.now spot.now.index) word.now) }
{
    if word == "ok" {
        Ok(Link::Sound)
    } else if word == "request_lost" {
        Ok(Link::RequestLost)
    } else if word == "reply_lost" {
        Ok(Link::ReplyLost)
    } else if word == "twice" {
        Ok(Link::Twice)
    } else {
        Err(spot.bad())
    }
}

/// What becomes of a message, by the value for it.
#[tactic(auto, unfolding(crate::specs::Purchases::link_of))]
fn link_of(spot: &Spot, value: &Value) -> Result<Link, ScenarioFault>
    ensures { Gives (λ link. link) result (link_of (spot_path spot.now.place spot.now.key.now spot.now.index) (view value.now)) }
{
    link_named(spot, spot.str_of(value)?)
}

/// What becomes of a message, by the value for it. The replies of a trace came from a host of its own.
fn link_in(spot: &Spot, lane: LaneAt, value: &Value) -> Result<Link, ScenarioFault>
    ensures { Gives (λ link. link) result (link_in lane (spot_path spot.now.place spot.now.key.now spot.now.index) (view value.now)) }
{
    match lane {
        LaneAt::Numbered(_) => link_of(spot, value),
        LaneAt::Only => Err(spot.bad()),
    }
}

/// What becomes of a purchase's message to the host.
#[tactic(auto, unfolding(crate::specs::Purchases::link_or_sound))]
fn link_or_sound(fields: &Fields, lane: LaneAt) -> Result<Link, ScenarioFault>
    ensures { Gives (λ link. link) result (link_or_sound lane (path fields.now.place) (table_view fields.now.table.now)) }
{
    match fields.optional("link") {
        Some(value) => link_in(&fields.spot("link"), lane, value),
        None => Ok(Link::Sound),
    }
}

/// The index of the first card of this name, or the number of cards where none has it.
#[tactic(auto, unfolding(crate::specs::Purchases::card_index))]
fn place_of(name: &[u8], cards: &[&[u8]]) -> usize
    ensures place { result ≡ card_index name.now (map (λ card. card.now) cards.now) }
    ensures within { result ≤ length cards.now }
{
    match cards {
        [] => 0,
        [first, rest @ ..] => {
            if *first == name {
                0
            } else {
                place_of(name, rest) + 1
            }
        }
    }
}

/// The index of a purchase's card.
#[tactic(auto, unfolding(crate::specs::Purchases::card_index_at))]
fn card_at(fields: &Fields, cards: &[&[u8]]) -> Result<usize, ScenarioFault>
    ensures { Gives (λ card. card) result (card_index_at (path fields.now.place) (map (λ card. card.now) cards.now) (table_view fields.now.table.now)) }
{
    let name = fields.text("card", Characters::LowercaseOrDigit, 1, 16)?;
    Ok(place_of(name, cards))
}

/// The kind of a purchase: 0 a purchase, 1 cash, 9 a purchase with cashback.
#[tactic(auto, unfolding(scenario_fields::specs::Value::is_listed))]
fn trade_or_purchase(fields: &Fields) -> Result<u8, ScenarioFault>
    ensures exact { Gives (λ trade. trade) result (listed_or 0 (path fields.now.place) (codes "trade") (0 ∷ 1 ∷ 9 ∷ []) (table_view fields.now.table.now)) }
    ensures known { IfOk result (λ trade. IsTrue (trade == 0 || (trade == 1 || trade == 9))) }
{
    Ok(fields.listed_or(0, "trade", &[0, 1, 9])? as u8)
}

/// What the terminal is asked for.
#[tactic(auto, unfolding(crate::specs::Purchases::purchase_of))]
fn read_purchase(fields: &Fields) -> Result<Purchase, ScenarioFault>
    ensures exact { Gives (λ purchase. purchase) result (purchase_of (path fields.now.place) (table_view fields.now.table.now)) }
    ensures rules { IfOk result IsPurchase }
{
    let amount = fields.number("amount", 0, MOST_AMOUNT)?;
    let other = fields.number_or(0, "other", 0, amount)?;
    let currency = fields.code("currency")?;
    let trade = trade_or_purchase(fields)?;
    let services = fields.flag_or(false, "services")?;
    let date = fields.day("date")?;
    let time = fields.six_digits_or([0, 0, 0], "time")?;
    let number = fields.number("number", 0, 4_294_967_295)? as u32;
    let word = fields.number("word", 0, 4_294_967_295)? as u32;
    let pins = fields.digits_list("pins", 15, 4, 12)?;
    let forced = fields.flag_or(false, "forced")?;
    let confirm = fields.flag_or(true, "confirm")?;
    Ok(Purchase {
        amount,
        other,
        currency,
        trade,
        services,
        date,
        time,
        number: number.to_be_bytes(),
        word,
        pins,
        forced,
        confirm,
    })
}

#[tactic(auto, unfolding(crate::specs::Purchases::planned_keys))]
fn only_planned_keys(fields: &Fields) -> Result<(), ScenarioFault>
    ensures { Gives (λ u. u) result (only (path fields.now.place) planned_keys (table_view fields.now.table.now)) }
{
    fields.only(&[
        "card",
        "amount",
        "other",
        "currency",
        "trade",
        "services",
        "date",
        "time",
        "number",
        "word",
        "pins",
        "forced",
        "confirm",
        "link",
        "tear",
        "terminal_tear",
    ])
}

/// A purchase of a lane.
#[tactic(auto, unfolding(crate::specs::Purchases::planned_of))]
fn read_planned(
    fields: &Fields,
    lane: LaneAt,
    index: usize,
    cards: &[&[u8]],
) -> Result<Planned, ScenarioFault>
    ensures exact { Gives (λ planned. planned) result (planned_of (path fields.now.place) lane index (map (λ card. card.now) cards.now) (table_view fields.now.table.now)) }
    ensures rules { IfOk result IsPlanned }
{
    let card = card_at(fields, cards)?;
    let purchase = read_purchase(fields)?;
    let link = link_or_sound(fields, lane)?;
    let tear = tear_at(fields, lane, "tear", TablePlace::Tear(lane, index))?;
    let inner = TablePlace::TerminalTear(lane, index);
    let terminal_tear = tear_at(fields, lane, "terminal_tear", inner)?;
    only_planned_keys(fields)?;
    Ok(Planned {
        purchase,
        card,
        link,
        tear,
        terminal_tear,
    })
}

/// A purchase among those of a lane.
#[tactic(auto, unfolding(crate::specs::Purchases::planned_item))]
fn planned_item(
    fields: &Fields,
    lane: LaneAt,
    index: usize,
    cards: &[&[u8]],
    value: &Value,
) -> Result<Planned, ScenarioFault>
    ensures exact { Gives (λ planned. planned) result (planned_item (path fields.now.place) lane (map (λ card. card.now) cards.now) index (view value.now)) }
    ensures rules { IfOk result IsPlanned }
{
    let inner = fields.element("purchase", index, TablePlace::Purchase(lane, index), value)?;
    read_planned(&inner, lane, index, cards)
}

/// Each purchase of a lane.
fn read_purchases(
    fields: &Fields,
    lane: LaneAt,
    cards: &[&[u8]],
    values: &[Value],
) -> Result<Vec<Planned>, ScenarioFault>
    ensures exact { Gives (λ ps. ps.items) result (each (planned_item (path fields.now.place) lane (map (λ card. card.now) cards.now)) 0 (items_view values.now)) }
    ensures count { IfOk result (λ ps. vec_len ps ≡ length values.now) }
    ensures rules { IfOk result (λ ps. All IsPlanned ps.items) }
{
    let mut purchases = Vec::new(fields.alloc);
    for value in values {
        purchases.push(planned_item(fields, lane, purchases.len(), cards, value)?)?;
    }
    Ok(purchases)
}

/// The purchases of a lane, `least` to `most` of them.
#[tactic(auto, unfolding(crate::specs::Purchases::purchases_at))]
pub fn purchases_at(
    fields: &Fields,
    lane: LaneAt,
    least: usize,
    most: usize,
    cards: &[&[u8]],
) -> Result<Vec<Planned>, ScenarioFault>
    ensures exact { Gives (λ ps. ps.items) result (purchases_at (path fields.now.place) lane least most (map (λ card. card.now) cards.now) (table_view fields.now.table.now)) }
    ensures some { IfOk result (λ ps. least ≤ vec_len ps) }
    ensures few { IfOk result (λ ps. vec_len ps ≤ most) }
    ensures rules { IfOk result (λ ps. All IsPlanned ps.items) }
{
    let values = fields.array("purchase", least, most)?;
    read_purchases(fields, lane, cards, values)
}

/// The fault of a purchase whose terminal has no store that could be torn.
fn terminal_tear_fault(fields: &Fields, lane: LaneAt, index: usize) -> ScenarioFault
    ensures { TellsFault result (BadValue (in_purchase lane index (codes "terminal_tear"))) }
{
    let spot = Spot {
        alloc: fields.alloc,
        place: TablePlace::Purchase(lane, index),
        key: "terminal_tear",
        index: None,
    };
    spot.bad()
}

/// That no purchase of a lane has a terminal tear.
fn no_terminal_tears(
    fields: &Fields,
    lane: LaneAt,
    purchases: &[Planned],
) -> Result<(), ScenarioFault>
    ensures { Gives (λ u. u) result (no_terminal_tears lane 0 purchases.now) }
{
    for (index, planned) in purchases.iter().enumerate() {
        if planned.terminal_tear.is_some() {
            return Err(terminal_tear_fault(fields, lane, index));
        }
    }
    Ok(())
}

/// That no purchase has a terminal tear, unless the terminal keeps its captures durably.
pub fn try_terminal_tears(
    fields: &Fields,
    lane: LaneAt,
    durable: bool,
    purchases: &[Planned],
) -> Result<(), ScenarioFault>
    ensures { Gives (λ u. u) result (tears_tried lane durable purchases.now) }
{
    if durable {
        Ok(())
    } else {
        no_terminal_tears(fields, lane, purchases)
    }
}
