//! The issuer of a document: a scenario's, of which the issuer's keys and the accounts are read.
ghost use Rattle.std.specs.Prelude.{◌≡◌, IfOk};
ghost use Rattle.std.specs.List.{All};
ghost use Rattle.std.specs.Result.{result_map_both};
ghost use Rattle.toml.specs.View.{table_view};
ghost use Rattle.issuer_host.specs.Account.{IsAccount};
ghost use Rattle.scenario.specs.Scenario.{top_keys};
ghost use Rattle.scenario_fields.specs.Fault.{Gives};
ghost use Rattle.scenario_fields.specs.Fields.{only};
ghost use Rattle.scenario_fields.specs.TablePaths.{path};
ghost use Rattle.host_at_lines.specs.Document.{issuer_in_tables, ReadsIssuer};

use issuer_host::{Account, HostKeys};
use scenario::account::accounts_at;
use scenario::issuer::issuer_at;
use scenario_fields::{Fields, ScenarioFault, TablePlace};
use std::alloc::Global;
use toml::Table;

/// An issuer: its keys and its accounts.
#[derive(Drop)]
pub struct Issuer {
    pub keys: HostKeys,
    pub accounts: Vec<Account>,
}

#[tactic(auto, unfolding(scenario::specs::Scenario::top_keys))]
fn only_top_keys(fields: &Fields) -> Result<(), ScenarioFault>
    ensures { Gives (λ u. u) result (only (path fields.now.place) top_keys (table_view fields.now.table.now)) }
{
    fields.only(&["issuer", "account", "card", "lane", "schedule", "copies"])
}

/// The issuer of a document.
#[tactic(auto, unfolding(crate::specs::Document::issuer_in_tables))]
fn issuer_in(alloc: Global, document: &Table) -> Result<Issuer, ScenarioFault>
    ensures exact { Gives (λ issuer. record { keys = issuer.keys; accounts = issuer.accounts.items }) result (issuer_in_tables (table_view document.now)) }
    ensures rules { IfOk result (λ issuer. All IsAccount issuer.accounts.items) }
{
    let fields = Fields {
        alloc,
        place: TablePlace::Top,
        table: document,
    };
    let keys = issuer_at(&fields)?;
    let accounts = accounts_at(&fields)?;
    only_top_keys(&fields)?;
    Ok(Issuer { keys, accounts })
}

/// Reads the issuer of a scenario of its document's bytes, or gives the first fault: bytes that are no TOML document, then
/// the keys `issuer` and `account` in this order, and a key that no scenario has. The other tables of a scenario may be
/// there, and are not read.
pub fn read_issuer(alloc: Global, bytes: &[u8]) -> Result<Issuer, ScenarioFault>
    ensures exact { ReadsIssuer bytes.now (result_map_both (λ issuer. record { keys = issuer.keys; accounts = issuer.accounts.items }) (λ fault. fault) result) }
    ensures rules { IfOk result (λ issuer. All IsAccount issuer.accounts.items) }
{
    match toml::table_from_slice(alloc, bytes) {
        Ok(document) => issuer_in(alloc, &document),
        Err(fault) => {
            if fault.is_memory() {
                Err(ScenarioFault::OutOfMemory)
            } else {
                Err(ScenarioFault::Toml)
            }
        }
    }
}
