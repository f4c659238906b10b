//! The table of an issuer's keys.
ghost use Rattle.std.specs.Prelude.{◌≡◌};
ghost use Rattle.toml.specs.View.{table_view};
ghost use Rattle.scenario_fields.specs.Fault.{Gives};
ghost use Rattle.scenario_fields.specs.Fields.{only};
ghost use Rattle.scenario_fields.specs.TablePaths.{path};
ghost use Rattle.scenario.specs.Issuer.{issuer_keys, issuer_of, issuer_at};

use issuer_host::HostKeys;
use scenario_fields::{Fields, ScenarioFault, TablePlace};
use triple_des::Key16;

#[tactic(auto, unfolding(crate::specs::Issuer::issuer_keys))]
fn only_issuer_keys(fields: &Fields) -> Result<(), ScenarioFault>
    ensures { Gives (λ u. u) result (only (path fields.now.place) issuer_keys (table_view fields.now.table.now)) }
{
    fields.only(&["ac_key", "mac_key", "enc_key", "pin_key"])
}

/// The keys of an issuer's table.
#[tactic(auto, unfolding(crate::specs::Issuer::issuer_of))]
fn read_issuer(fields: &Fields) -> Result<HostKeys, ScenarioFault>
    ensures { Gives (λ keys. keys) result (issuer_of (path fields.now.place) (table_view fields.now.table.now)) }
{
    let ac = fields.byte_array("ac_key")?;
    let mac = fields.byte_array("mac_key")?;
    let enc = fields.byte_array("enc_key")?;
    let pin = fields.byte_array("pin_key")?;
    only_issuer_keys(fields)?;
    Ok(HostKeys {
        ac: Key16::new(ac),
        mac: Key16::new(mac),
        enc: Key16::new(enc),
        pin: Key16::new(pin),
    })
}

/// The issuer's keys at their key in the document.
#[tactic(auto, unfolding(crate::specs::Issuer::issuer_at))]
pub fn issuer_at(document: &Fields) -> Result<HostKeys, ScenarioFault>
    ensures { Gives (λ keys. keys) result (issuer_at (path document.now.place) (table_view document.now.table.now)) }
{
    read_issuer(&document.inner("issuer", TablePlace::Issuer)?)
}
