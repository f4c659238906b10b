//! The table of an account's script.
ghost use Rattle.std.specs.Prelude.{◌≡◌, ◌≤◌, length, nat_le, IfOk, vec_len};
ghost use Rattle.std.specs.List.{All};
ghost use Rattle.script_words.specs.MadeLength.{all_made_length};
ghost use Rattle.script_words.specs.Script.{IsScript};
ghost use Rattle.script_words.specs.Spelling.{IsWord};
ghost use Rattle.toml.specs.View.{view, table_view, items_view};
ghost use Rattle.scenario_fields.specs.Fault.{Gives};
ghost use Rattle.scenario_fields.specs.Fields.{only, each};
ghost use Rattle.scenario_fields.specs.TablePaths.{path};
ghost use Rattle.scenario.specs.Accounts.{runs_before, command_item, commands_at, script_table_keys, script_of_members, script_item, scripts_at};

use scenario_fields::{Fields, ScenarioFault, TablePlace};
use script_words::{Ordered, Script, made_length, read_order};
use toml::Value;

/// The scripts of an account get at most so many bytes in the issuer's reply.
pub const MOST_SCRIPT_BYTES: usize = 1_024;

/// Whether a script runs before the final GENERATE AC, by the word for it.
#[tactic(auto, unfolding(crate::specs::Accounts::runs_before))]
fn is_before(fields: &Fields, word: &str) -> Result<bool, ScenarioFault>
    ensures { Gives (λ before. before) result (runs_before (path fields.now.place) word.now) }
{
    if word == "before" {
        Ok(true)
    } else if word == "after" {
        Ok(false)
    } else {
        Err(fields.spot("when").bad())
    }
}

/// A command among those of a script.
#[tactic(auto, unfolding(crate::specs::Accounts::command_item))]
fn command_item(fields: &Fields, index: usize, value: &Value) -> Result<Ordered, ScenarioFault>
    ensures exact { Gives (λ order. order) result (command_item (path fields.now.place) index (view value.now)) }
    ensures rules { IfOk result (λ order. IsWord order.word) }
{
    let spot = fields.item("commands", index);
    match read_order(spot.str_of(value)?.as_bytes()) {
        Some(order) => Ok(order),
        None => Err(spot.bad()),
    }
}

/// Each command of a script.
fn read_commands(fields: &Fields, values: &[Value]) -> Result<Vec<Ordered>, ScenarioFault>
    ensures exact { Gives (λ orders. orders.items) result (each (command_item (path fields.now.place)) 0 (items_view values.now)) }
    ensures count { IfOk result (λ orders. vec_len orders ≡ length values.now) }
    ensures rules { IfOk result (λ orders. All (λ order. IsWord order.word) orders.items) }
{
    let mut commands = Vec::new(fields.alloc);
    for value in values {
        commands.push(command_item(fields, commands.len(), value)?)?;
    }
    Ok(commands)
}

/// The commands of a script.
#[tactic(auto, unfolding(crate::specs::Accounts::commands_at))]
fn commands_at(fields: &Fields) -> Result<Vec<Ordered>, ScenarioFault>
    ensures exact { Gives (λ orders. orders.items) result (commands_at (path fields.now.place) (table_view fields.now.table.now)) }
    ensures some { IfOk result (λ orders. 1 ≤ vec_len orders) }
    ensures few { IfOk result (λ orders. vec_len orders ≤ 16) }
    ensures rules { IfOk result (λ orders. All (λ order. IsWord order.word) orders.items) }
{
    read_commands(fields, fields.array("commands", 1, 16)?)
}

#[tactic(auto, unfolding(crate::specs::Accounts::script_table_keys))]
fn only_script_keys(fields: &Fields) -> Result<(), ScenarioFault>
    ensures { Gives (λ u. u) result (only (path fields.now.place) script_table_keys (table_view fields.now.table.now)) }
{
    fields.only(&["when", "id", "commands"])
}

/// A script of an account.
#[tactic(auto, unfolding(crate::specs::Accounts::script_of_members))]
fn read_script(fields: &Fields) -> Result<Script, ScenarioFault>
    ensures exact { Gives (λ script. script) result (script_of_members (path fields.now.place) (table_view fields.now.table.now)) }
    ensures rules { IfOk result IsScript }
{
    let before = is_before(fields, fields.str_at("when")?)?;
    let id = fields.optional_byte_array("id")?;
    let commands = commands_at(fields)?;
    only_script_keys(fields)?;
    Ok(Script {
        before,
        id,
        commands,
    })
}

/// A script among those of an account.
#[tactic(auto, unfolding(crate::specs::Accounts::script_item))]
fn script_item(
    fields: &Fields,
    account: usize,
    index: usize,
    value: &Value,
) -> Result<Script, ScenarioFault>
    ensures exact { Gives (λ script. script) result (script_item (path fields.now.place) account index (view value.now)) }
    ensures rules { IfOk result IsScript }
{
    read_script(&fields.element("scripts", index, TablePlace::Scripts(account, index), value)?)
}

/// Each script of an account.
fn read_scripts(
    fields: &Fields,
    account: usize,
    values: &[Value],
) -> Result<Vec<Script>, ScenarioFault>
    ensures exact { Gives (λ scripts. scripts.items) result (each (script_item (path fields.now.place) account) 0 (items_view values.now)) }
    ensures count { IfOk result (λ scripts. vec_len scripts ≡ length values.now) }
    ensures rules { IfOk result (λ scripts. All IsScript scripts.items) }
{
    let mut scripts = Vec::new(fields.alloc);
    for value in values {
        scripts.push(script_item(fields, account, scripts.len(), value)?)?;
    }
    Ok(scripts)
}

/// Whether the scripts get at most `room` bytes.
fn fit(scripts: &[Script], room: usize) -> bool
    requires { All IsScript scripts.now }
    ensures { result ≡ nat_le (all_made_length scripts.now) room }
{
    match scripts {
        [] => true,
        [first, rest @ ..] => {
            let length = made_length(first);
            length <= room && fit(rest, room - length)
        }
    }
}

/// The scripts of an account.
#[tactic(auto, unfolding(crate::specs::Accounts::scripts_at))]
pub fn scripts_at(fields: &Fields, account: usize) -> Result<Vec<Script>, ScenarioFault>
    ensures exact { Gives (λ scripts. scripts.items) result (scripts_at (path fields.now.place) account (table_view fields.now.table.now)) }
    ensures few { IfOk result (λ scripts. vec_len scripts ≤ 8) }
    ensures rules { IfOk result (λ scripts. All IsScript scripts.items) }
    ensures short { IfOk result (λ scripts. all_made_length scripts.items ≤ 1024) }
{
    let scripts = read_scripts(fields, account, fields.array_or_none("scripts", 8)?)?;
    if !fit(&scripts, MOST_SCRIPT_BYTES) {
        return Err(fields.spot("scripts").far());
    }
    Ok(scripts)
}
