ghost use Rattle.std.specs.Prelude.{◌≡◌, IfOk, string_bytes};
ghost use Rattle.scenario_fields.specs.TablePaths.{in_purchase, in_tear, in_terminal_tear, path, spot_key, spot_path};

use std::alloc::{AllocError, Global};

/// Which lane of a document it is.
#[derive(Clone, Copy, PartialEq, Eq, Debug)]
pub enum LaneAt {
    /// The lane of this index among the lanes of a scenario.
    Numbered(usize),
    /// The one lane of a document that has no other.
    Only,
}

/// A table of a scenario. Each number is the index, from 0, of the table among its kind in the table
/// around it.
#[derive(Clone, Copy, PartialEq, Eq, Debug)]
pub enum TablePlace {
    /// The document itself.
    Top,
    /// The issuer's keys.
    Issuer,
    /// An account.
    Account(usize),
    /// A script of an account.
    Scripts(usize, usize),
    /// A card.
    Card(usize),
    /// An application of a card.
    App(usize, usize),
    /// A record of an application of a card.
    Record(usize, usize, usize),
    /// A lane.
    Lane(LaneAt),
    /// An application identifier of a lane.
    Aid(LaneAt, usize),
    /// A purchase of a lane.
    Purchase(LaneAt, usize),
    /// The tear of a purchase.
    Tear(LaneAt, usize),
    /// The terminal's tear of a purchase.
    TerminalTear(LaneAt, usize),
}

/// The path of a key of a table.
pub fn path_text(alloc: Global, place: TablePlace, key: &str) -> Result<String, AllocError>
    ensures { IfOk result (λ t. string_bytes t ≡ path place key.now) }
{
    match place {
        TablePlace::Top => format!(in alloc; "{key}"),
        TablePlace::Issuer => format!(in alloc; "issuer.{key}"),
        TablePlace::Account(i) => format!(in alloc; "account[{i}].{key}"),
        TablePlace::Scripts(i, j) => format!(in alloc; "account[{i}].scripts[{j}].{key}"),
        TablePlace::Card(i) => format!(in alloc; "card[{i}].{key}"),
        TablePlace::App(i, j) => format!(in alloc; "card[{i}].app[{j}].{key}"),
        TablePlace::Record(i, j, k) => format!(in alloc; "card[{i}].app[{j}].record[{k}].{key}"),
        TablePlace::Lane(LaneAt::Numbered(i)) => format!(in alloc; "lane[{i}].{key}"),
        TablePlace::Lane(LaneAt::Only) => format!(in alloc; "lane.{key}"),
        TablePlace::Aid(LaneAt::Numbered(i), j) => format!(in alloc; "lane[{i}].aid[{j}].{key}"),
        TablePlace::Aid(LaneAt::Only, j) => format!(in alloc; "lane.aid[{j}].{key}"),
        TablePlace::Purchase(lane, j) => purchase_text(alloc, lane, j, key),
        TablePlace::Tear(lane, j) => tear_text(alloc, lane, j, key),
        TablePlace::TerminalTear(lane, j) => terminal_tear_text(alloc, lane, j, key),
    }
}

/// The path of a key of a purchase.
fn purchase_text(alloc: Global, lane: LaneAt, j: usize, key: &str) -> Result<String, AllocError>
    ensures { IfOk result (λ t. string_bytes t ≡ in_purchase lane j key.now) }
{
    match lane {
        LaneAt::Numbered(i) => format!(in alloc; "lane[{i}].purchase[{j}].{key}"),
        LaneAt::Only => format!(in alloc; "lane.purchase[{j}].{key}"),
    }
}

/// The path of a key of a purchase's tear.
fn tear_text(alloc: Global, lane: LaneAt, j: usize, key: &str) -> Result<String, AllocError>
    ensures { IfOk result (λ t. string_bytes t ≡ in_tear lane j key.now) }
{
    match lane {
        LaneAt::Numbered(i) => format!(in alloc; "lane[{i}].purchase[{j}].tear.{key}"),
        LaneAt::Only => format!(in alloc; "lane.purchase[{j}].tear.{key}"),
    }
}

/// The path of a key of a purchase's terminal tear.
fn terminal_tear_text(
    alloc: Global,
    lane: LaneAt,
    j: usize,
    key: &str,
) -> Result<String, AllocError>
    ensures { IfOk result (λ t. string_bytes t ≡ in_terminal_tear lane j key.now) }
{
    match lane {
        LaneAt::Numbered(i) => format!(in alloc; "lane[{i}].purchase[{j}].terminal_tear.{key}"),
        LaneAt::Only => format!(in alloc; "lane.purchase[{j}].terminal_tear.{key}"),
    }
}

/// An item of the array at a key, as `pins[1]`.
pub fn item_text(alloc: Global, key: &str, index: usize) -> Result<String, AllocError>
    ensures { IfOk result (λ t. string_bytes t ≡ spot_key key.now (Some index)) }
{
    format!(in alloc; "{key}[{index}]")
}
