//! The table of an account.
ghost use Rattle.std.specs.Prelude.{◌≡◌, ◌≤◌, [], length, IfOk, IsTrue, vec_len};
ghost use Rattle.std.specs.List.{All};
ghost use Rattle.emv_dict.specs.Pan.{least_pan, most_pan};
ghost use Rattle.issuer_host.specs.Account.{IsAccount, is_status};
ghost use Rattle.toml.specs.View.{view, table_view, items_view};
ghost use Rattle.scenario_fields.specs.Fault.{Gives};
ghost use Rattle.scenario_fields.specs.Fields.{only};
ghost use Rattle.scenario_fields.specs.TablePaths.{path};
ghost use Rattle.scenario.specs.Accounts.{has_pan, new_pan, method_at, status_at, account_keys, account_of, account_item, accounts_from, accounts_at};
ghost use Rattle.scenario_plan.specs.Plan.{HaveOwnPans};

use crate::script::scripts_at;
use emv_dict::{Digits, LEAST_PAN, MOST_AMOUNT, MOST_PAN};
use issuer_host::{Account, Method};
use scenario_fields::{Fields, ScenarioFault, TablePlace};
use toml::Value;

/// Whether an account has this PAN.
#[tactic(auto, unfolding(crate::specs::Accounts::has_pan))]
fn has_pan(pan: &[u8], accounts: &[Account]) -> bool
    ensures { result ≡ has_pan pan.now accounts.now }
{
    accounts.iter().any(|account| account.pan.as_slice() == pan)
}

/// A PAN that no earlier account has.
#[tactic(auto, unfolding(crate::specs::Accounts::new_pan))]
fn new_pan(fields: &Fields, earlier: &[Account]) -> Result<Digits, ScenarioFault>
    ensures exact { Gives (λ pan. pan) result (new_pan (path fields.now.place) earlier.now (table_view fields.now.table.now)) }
    ensures within { IfOk result (λ pan. (least_pan ≤ length pan) × (length pan ≤ most_pan)) }
{
    let pan = fields.digits("pan", LEAST_PAN, MOST_PAN)?;
    if has_pan(pan.as_slice(), earlier) {
        return Err(fields.spot("pan").bad());
    }
    Ok(pan)
}

/// The method of the response cryptogram (EMV 4.3 Book 2 section 8.2); method 1 where the key is absent.
#[tactic(auto, unfolding(crate::specs::Accounts::method_at, scenario_fields::specs::Value::is_listed))]
fn method_at(fields: &Fields) -> Result<Method, ScenarioFault>
    ensures { Gives (λ method. method) result (method_at (path fields.now.place) (table_view fields.now.table.now)) }
{
    let number = fields.listed_or(1, "arpc", &[1, 2])?;
    if number == 2 {
        return Ok(Method::Two);
    }
    Ok(Method::One)
}

/// What the issuer orders in the second byte of its card status update: a sum of none or some of 64, 32
/// and 16; none where the key is absent.
#[tactic(auto, unfolding(crate::specs::Accounts::status_at, scenario_fields::specs::Value::is_listed))]
fn status_at(fields: &Fields) -> Result<u8, ScenarioFault>
    ensures exact { Gives (λ n. n) result (status_at (path fields.now.place) (table_view fields.now.table.now)) }
    ensures rule { IfOk result (λ n. IsTrue (is_status n)) }
{
    let number = fields.listed_or(0, "status", &[0, 16, 32, 48, 64, 80, 96, 112])?;
    let status = number as u8;
    Ok(status)
}

#[tactic(auto, unfolding(crate::specs::Accounts::account_keys))]
fn only_account_keys(fields: &Fields) -> Result<(), ScenarioFault>
    ensures { Gives (λ u. u) result (only (path fields.now.place) account_keys (table_view fields.now.table.now)) }
{
    fields.only(&[
        "pan", "currency", "balance", "blocked", "pin", "scripts", "arpc", "status",
    ])
}

/// An account behind earlier ones.
#[tactic(auto, unfolding(crate::specs::Accounts::account_of))]
fn read_account(
    fields: &Fields,
    index: usize,
    earlier: &[Account],
) -> Result<Account, ScenarioFault>
    ensures exact { Gives (λ account. account) result (account_of (path fields.now.place) index earlier.now (table_view fields.now.table.now)) }
    ensures rules { IfOk result IsAccount }
{
    let pan = new_pan(fields, earlier)?;
    let currency = fields.code("currency")?;
    let balance = fields.number("balance", 0, MOST_AMOUNT)?;
    let blocked = fields.flag_or(false, "blocked")?;
    let pin = fields.optional_digits("pin", 4, 12)?;
    let scripts = scripts_at(fields, index)?;
    let arpc = method_at(fields)?;
    let status = status_at(fields)?;
    only_account_keys(fields)?;
    Ok(Account {
        pan,
        currency,
        balance,
        blocked,
        pin,
        scripts,
        arpc,
        status,
    })
}

/// An account among those of the document.
#[tactic(auto, unfolding(crate::specs::Accounts::account_item))]
fn account_item(
    document: &Fields,
    index: usize,
    earlier: &[Account],
    value: &Value,
) -> Result<Account, ScenarioFault>
    ensures exact { Gives (λ account. account) result (account_item (path document.now.place) index earlier.now (view value.now)) }
    ensures rules { IfOk result IsAccount }
{
    let fields = document.element("account", index, TablePlace::Account(index), value)?;
    read_account(&fields, index, earlier)
}

/// Each account of the document.
fn read_accounts(document: &Fields, values: &[Value]) -> Result<Vec<Account>, ScenarioFault>
    ensures exact { Gives (λ accounts. accounts.items) result (accounts_from (path document.now.place) 0 [] (items_view values.now)) }
    ensures count { IfOk result (λ accounts. vec_len accounts ≡ length values.now) }
    ensures rules { IfOk result (λ accounts. All IsAccount accounts.items) }
{
    let mut accounts: Vec<Account> = Vec::new(document.alloc);
    for value in values {
        let account = account_item(document, accounts.len(), accounts.as_slice(), value)?;
        accounts.push(account)?;
    }
    Ok(accounts)
}

/// The accounts at their key in the document.
#[tactic(auto, unfolding(crate::specs::Accounts::accounts_at))]
pub fn accounts_at(document: &Fields) -> Result<Vec<Account>, ScenarioFault>
    ensures exact { Gives (λ accounts. accounts.items) result (accounts_at (path document.now.place) (table_view document.now.table.now)) }
    ensures count { IfOk result (λ accounts. vec_len accounts ≤ 1000) }
    ensures rules { IfOk result (λ accounts. All IsAccount accounts.items) }
    ensures own_pans { IfOk result (λ accounts. HaveOwnPans accounts.items) }
{
    read_accounts(document, document.array("account", 0, 1000)?)
}
