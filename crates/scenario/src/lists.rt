//! The object lists of an application of a card: the PDOL, and CDOL1 and CDOL2.
ghost use Rattle.std.specs.Prelude.{◌≡◌, ◌≤◌, ℕ, length, option_map, IsTrue, IfOk, OnOk};
ghost use Rattle.card_files.specs.Lists.{has_all, holds_all, entries_within, is_optional_pdol, most_cdol};
ghost use Rattle.toml.specs.View.{table_view};
ghost use Rattle.scenario_fields.specs.Fault.{Gives};
ghost use Rattle.scenario_fields.specs.TablePaths.{spot_path};
ghost use Rattle.scenario.specs.Cards.{list_of, pdol_at as pdol_found, cdol_at as cdol_found};
ghost use Rattle.scenario.specs.SeenCards.{wanted_by};

use card_files::lists::{MOST_CDOL, MOST_DATA, MOST_PDOL, has_cdol1_entries, has_cdol2_entries};
use object_lists::{Dol, read_dol, total};
use scenario_fields::{Fields, ScenarioFault, Spot, TablePlace};
use std::alloc::Global;
use toml::Table;

/// What an object list must hold.
#[derive(Clone, Copy)]
pub enum Holding {
    /// Anything.
    Anything,
    /// What the first GENERATE AC brings.
    First,
    /// What the second one brings.
    Second,
}

/// Whether a list holds what it must.
fn holds(holding: Holding, dol: &Dol) -> bool
    ensures { result ≡ has_all (wanted_by holding) dol.now }
{
    match holding {
        Holding::Anything => true,
        Holding::First => has_cdol1_entries(dol),
        Holding::Second => has_cdol2_entries(dol),
    }
}

/// Tries an object list: it can be read, it wants at most 252 bytes of data, and it holds what it must.
#[tactic(auto, unfolding(crate::specs::Cards::list_of, card_files::specs::Lists::entries_within))]
fn try_list(spot: &Spot, holding: Holding, bytes: &[u8]) -> Result<(), ScenarioFault>
    requires { length bytes.now ≤ 255 }
    ensures exact { Gives (λ _. bytes.now) result (list_of (spot_path spot.now.place spot.now.key.now spot.now.index) (wanted_by holding) bytes.now) }
    ensures held { (most : ℕ) → length bytes.now ≤ most
        → OnOk result (IsTrue (holds_all (wanted_by holding) (entries_within most bytes.now))) }
{
    let Ok(dol) = read_dol(bytes) else {
        return Err(spot.bad());
    };
    if total(&dol) > MOST_DATA {
        return Err(spot.far());
    }
    if !holds(holding, &dol) {
        return Err(spot.bad());
    }
    Ok(())
}

/// The processing options object list, where there is one.
#[tactic(auto, unfolding(crate::specs::Cards::pdol_at))]
pub fn pdol_at(
    alloc: Global,
    card: usize,
    index: usize,
    table: &Table,
) -> Result<Option<Vec<u8>>, ScenarioFault>
    ensures exact { Gives (λ o. option_map (λ v. v.items) o) result (pdol_found card index (table_view table.now)) }
    ensures rule { IfOk result (λ o. IsTrue (is_optional_pdol (option_map (λ v. v.items) o))) }
{
    let fields = Fields {
        alloc,
        place: TablePlace::App(card, index),
        table,
    };
    match fields.optional_bytes("pdol", 0, MOST_PDOL)? {
        Some(bytes) => {
            try_list(&fields.spot("pdol"), Holding::Anything, bytes.as_slice())?;
            Ok(Some(bytes))
        }
        None => Ok(None),
    }
}

/// The object list at this key, which must hold what its GENERATE AC brings.
#[tactic(auto, unfolding(crate::specs::Cards::cdol_at))]
pub fn cdol_at(
    alloc: Global,
    card: usize,
    index: usize,
    key: &str,
    holding: Holding,
    table: &Table,
) -> Result<Vec<u8>, ScenarioFault>
    ensures exact { Gives (λ v. v.items) result (cdol_found key.now (wanted_by holding) card index (table_view table.now)) }
    ensures held { IfOk result (λ v. IsTrue (holds_all (wanted_by holding) (entries_within most_cdol v.items))) }
{
    let fields = Fields {
        alloc,
        place: TablePlace::App(card, index),
        table,
    };
    let bytes = fields.bytes(key, 0, MOST_CDOL)?;
    try_list(&fields.spot(key), holding, bytes.as_slice())?;
    Ok(bytes)
}
