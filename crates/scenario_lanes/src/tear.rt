//! The table of a tear.
ghost use Rattle.std.specs.Prelude.{◌≡◌, ◌≤◌, IfOk, IfSome, IsTrue, codes};
ghost use Rattle.emv_ports.specs.Cut.{is_place, is_plan};
ghost use Rattle.toml.specs.Data.{get_member};
ghost use Rattle.toml.specs.View.{table_view};
ghost use Rattle.scenario_fields.specs.Fault.{Gives};
ghost use Rattle.scenario_fields.specs.Fields.{only};
ghost use Rattle.scenario_fields.specs.TablePaths.{path};
ghost use Rattle.scenario_lanes.specs.Plan.{IsEarly, write_number};
ghost use Rattle.scenario_lanes.specs.Purchases.{without_write, moment_of, tear_keys, tear_of, tear_in, tear_at};

use emv_ports::{Tear, TearAt};
use scenario_fields::{Fields, LaneAt, ScenarioFault, TablePlace};

/// A cut at the release, beside which no write may stand.
fn without_write(fields: &Fields) -> Result<TearAt, ScenarioFault>
    ensures exact { Gives (λ at. at) result (without_write (path fields.now.place) (get_member (codes "write") (table_view fields.now.table.now))) }
    ensures counted { IfOk result (λ at. IsTrue (is_place at)) }
    ensures few { IfOk result (λ at. write_number at ≤ 40) }
{
    match fields.optional("write") {
        Some(_) => Err(fields.spot("write").bad()),
        None => Ok(TearAt::Release),
    }
}

/// Where in its commit the power is cut, by the word for it.
#[tactic(auto, unfolding(crate::specs::Purchases::moment_of))]
fn moment(fields: &Fields, word: &str) -> Result<TearAt, ScenarioFault>
    ensures exact { Gives (λ at. at) result (moment_of (path fields.now.place) word.now (table_view fields.now.table.now)) }
    ensures counted { IfOk result (λ at. IsTrue (is_place at)) }
    ensures few { IfOk result (λ at. write_number at ≤ 40) }
{
    if word == "before" {
        Ok(TearAt::Before(fields.number("write", 1, 40)? as u8))
    } else if word == "within" {
        Ok(TearAt::Within(fields.number("write", 1, 40)? as u8))
    } else if word == "release" {
        without_write(fields)
    } else {
        Err(fields.spot("at").bad())
    }
}

#[tactic(auto, unfolding(crate::specs::Purchases::tear_keys))]
fn only_tear_keys(fields: &Fields) -> Result<(), ScenarioFault>
    ensures { Gives (λ u. u) result (only (path fields.now.place) tear_keys (table_view fields.now.table.now)) }
{
    fields.only(&["commit", "at", "write"])
}

/// The tear of a purchase.
#[tactic(auto, unfolding(crate::specs::Purchases::tear_of))]
fn read_tear(fields: &Fields) -> Result<Tear, ScenarioFault>
    ensures exact { Gives (λ tear. tear) result (tear_of (path fields.now.place) (table_view fields.now.table.now)) }
    ensures plan { IfOk result (λ tear. IsTrue (is_place tear.at)) }
    ensures early { IfOk result IsEarly }
{
    let commit = fields.number("commit", 0, 50)? as u8;
    let at = moment(fields, fields.str_at("at")?)?;
    only_tear_keys(fields)?;
    Ok(Tear { commit, at })
}

/// The tear at a key of a purchase. A trace has none.
fn tear_in(fields: &Fields, lane: LaneAt, key: &str, tear: &Fields) -> Result<Tear, ScenarioFault>
    ensures exact { Gives (λ tear. tear) result (tear_in (path fields.now.place) (path tear.now.place) key.now lane (table_view tear.now.table.now)) }
    ensures plan { IfOk result (λ tear. IsTrue (is_place tear.at)) }
    ensures early { IfOk result IsEarly }
{
    match lane {
        LaneAt::Numbered(_) => read_tear(tear),
        LaneAt::Only => Err(fields.spot(key).bad()),
    }
}

/// The tear at a key of a purchase, where it has one: of its card, or of its terminal.
#[tactic(auto, unfolding(crate::specs::Purchases::tear_at))]
pub fn tear_at(
    fields: &Fields,
    lane: LaneAt,
    key: &str,
    place: TablePlace,
) -> Result<Option<Tear>, ScenarioFault>
    ensures exact { Gives (λ tear. tear) result (tear_at (path fields.now.place) (path place) key.now lane (table_view fields.now.table.now)) }
    ensures plan { IfOk result (λ tear. IsTrue (is_plan tear)) }
    ensures early { IfOk result (λ tear. IfSome tear IsEarly) }
{
    match fields.optional_inner(key, place)? {
        Some(tear) => Ok(Some(tear_in(fields, lane, key, &tear)?)),
        None => Ok(None),
    }
}
