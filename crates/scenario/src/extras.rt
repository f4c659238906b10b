//! The keys of an application behind its own key: a second currency, and the log of its transactions.
ghost use Rattle.std.specs.Prelude.{◌≡◌, [], option_map, IfOk, IsTrue};
ghost use Rattle.card_files.specs.AppRules.{is_second_code, is_log_size, is_log_file};
ghost use Rattle.card_files.specs.Lists.{leaves_room};
ghost use Rattle.toml.specs.View.{table_view};
ghost use Rattle.scenario_fields.specs.Fault.{Gives};
ghost use Rattle.scenario_fields.specs.TablePaths.{path};
ghost use Rattle.scenario.specs.CardRules.{KeepsExtras};
ghost use Rattle.scenario.specs.Extras.{second_currency_at as second_found, log_at as log_found, log_file_at as log_file_found, extras_of};

use arrayvec::ArrayVec;
use card_files::RecordImage;
use card_files::lists::leaves_room;
use card_files::rules::{is_log_file, is_second_code};
use card_state::LogRow;
use emv_dict::MOST_AMOUNT;
use scenario_fields::{Fields, ScenarioFault};

/// What an application has besides: a second currency, in which its offline approvals have a sum and a
/// limit of their own, and the log of its transactions (EMV 4.3 Book 3 Annex D).
#[derive(Clone, Copy)]
pub struct Extras {
    /// The second currency, as in object 5F2A.
    pub currency_two: Option<[u8; 2]>,
    /// What the offline approvals in it may come to.
    pub limit_two: u64,
    /// How many transactions the log keeps; 0 for no log.
    pub log: u8,
    /// The file of the log.
    pub log_sfi: u8,
}

/// The log before the first transaction.
pub fn no_log() -> ArrayVec<LogRow, 10>
    ensures { result ≡ record { items = [] } }
{
    ArrayVec::new()
}

/// The second currency, where there is one.
#[tactic(auto, unfolding(crate::specs::Extras::second_currency_at))]
fn second_currency_at(fields: &Fields, currency: [u8; 2]) -> Result<Option<[u8; 2]>, ScenarioFault>
    ensures exact { Gives (λ o. o) result (second_found (path fields.now.place) currency (table_view fields.now.table.now)) }
    ensures rule { IfOk result (λ second. IsTrue (is_second_code currency second)) }
{
    let second = fields.optional_code("currency_two")?;
    if !is_second_code(currency, second) {
        return Err(fields.spot("currency_two").bad());
    }
    Ok(second)
}

/// How many transactions the log keeps; 0 where the key is absent.
#[tactic(auto, unfolding(crate::specs::Extras::log_at))]
fn log_at(fields: &Fields, pdol: &Option<Vec<u8>>) -> Result<u8, ScenarioFault>
    ensures exact { Gives (λ n. n) result (log_found (path fields.now.place) (option_map (λ v. v.items) pdol.now) (table_view fields.now.table.now)) }
    ensures size { IfOk result (λ n. IsTrue (is_log_size n)) }
    ensures room { IfOk result (λ n. IsTrue (leaves_room n (option_map (λ v. v.items) pdol.now))) }
{
    let rows = fields.number_or(0, "log", 0, 10)? as u8;
    if !leaves_room(rows, pdol) {
        return Err(fields.spot("log").bad());
    }
    Ok(rows)
}

/// The file of a log that keeps so many transactions; 11 where the key is absent.
#[tactic(auto, unfolding(crate::specs::Extras::log_file_at))]
fn log_file_at(fields: &Fields, rows: u8, records: &[RecordImage]) -> Result<u8, ScenarioFault>
    ensures exact { Gives (λ n. n) result (log_file_found (path fields.now.place) rows records.now (table_view fields.now.table.now)) }
    ensures rule { IfOk result (λ n. IsTrue (is_log_file rows n records.now)) }
{
    let sfi = fields.number_or(11, "log_sfi", 11, 30)? as u8;
    if !is_log_file(rows, sfi, records) {
        return Err(fields.spot("log_sfi").bad());
    }
    Ok(sfi)
}

/// The keys of an application with these processing options, records and currency.
#[tactic(auto, unfolding(crate::specs::Extras::extras_of))]
pub fn read_extras(
    fields: &Fields,
    pdol: &Option<Vec<u8>>,
    records: &[RecordImage],
    currency: [u8; 2],
) -> Result<Extras, ScenarioFault>
    ensures exact { Gives (λ x. x) result (extras_of (path fields.now.place) (option_map (λ v. v.items) pdol.now) records.now currency (table_view fields.now.table.now)) }
    ensures rules { IfOk result (λ extras. KeepsExtras (option_map (λ v. v.items) pdol.now) records.now currency extras) }
{
    let currency_two = second_currency_at(fields, currency)?;
    let limit_two = fields.number_or(0, "limit_two", 0, MOST_AMOUNT)?;
    let log = log_at(fields, pdol)?;
    let log_sfi = log_file_at(fields, log, records)?;
    Ok(Extras {
        currency_two,
        limit_two,
        log,
        log_sfi,
    })
}
