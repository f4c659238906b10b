//! What is known of the terminals beside the report.
ghost use Rattle.std.specs.Prelude.{◌≡◌, ◌<◌, length, position, IfSome};
ghost use Rattle.narrator.specs.Terminals as spec;

use crate::selection::{NameFound, Selection};
use arrayvec::ArrayVec;
use value_words::Row;

/// What a lane's terminal has for one application.
#[derive(Drop)]
pub struct Terminal {
    pub lane: u8,
    /// The application's name.
    pub name: ArrayVec<u8, 16>,
    /// Whether a longer name that begins with it is meant too.
    pub partial: bool,
    pub row: Row,
}

/// Whether an application of this name is meant.
fn is_meant(terminal: &Terminal, name: &[u8]) -> bool
    ensures { result ≡ spec.is_meant terminal.now name.now }
{
    let own = terminal.name.as_slice();
    own == name || (terminal.partial && name.starts_with(own))
}

/// Whether this row of the lane's terminal means an application of this name.
fn is_row_of(terminal: &Terminal, lane: u8, name: &[u8]) -> bool
    ensures { result ≡ spec.is_row_of lane name.now terminal.now }
{
    terminal.lane == lane && is_meant(terminal, name)
}

/// Whether this name was given where that one was asked for.
fn is_found_by(one: &NameFound, asked: &[u8], given: &[u8]) -> bool
    ensures { result ≡ spec.is_found_by asked.now given.now one.now }
{
    one.asked.as_slice() == asked && one.given.as_slice() == given
}

fn is_name_found(found: &[NameFound], asked: &[u8], given: &[u8]) -> bool
    ensures { result ≡ spec.is_name_found found.now asked.now given.now }
{
    found.iter().any(|one| is_found_by(one, asked, given))
}

/// Whether the application that is asked for was found by this row of the lane's terminal.
fn is_finder(terminal: &Terminal, lane: u8, selection: &Selection) -> bool
    ensures { result ≡ spec.is_finder lane selection.now terminal.now }
{
    let name = selection.name.as_slice();
    is_row_of(terminal, lane, name)
        && is_name_found(selection.found.as_slice(), terminal.name.as_slice(), name)
}

/// The place of the first row by which the application that is asked for was found.
fn finder_place(terminals: &[Terminal], lane: u8, selection: &Selection) -> Option<usize>
    ensures place { result ≡ position (spec.is_finder lane selection.now) terminals.now }
    ensures within { IfSome result (λ place. place < length terminals.now) }
{
    terminals
        .iter()
        .position(|terminal| is_finder(terminal, lane, selection))
}

/// The place of the first row of the lane's terminal that means an application of this name.
fn row_place(terminals: &[Terminal], lane: u8, name: &[u8]) -> Option<usize>
    ensures place { result ≡ position (spec.is_row_of lane name.now) terminals.now }
    ensures within { IfSome result (λ place. place < length terminals.now) }
{
    terminals
        .iter()
        .position(|terminal| is_row_of(terminal, lane, name))
}

/// The first row of the lane's terminal that means an application of this name.
fn first_row(terminals: &[Terminal], lane: u8, name: &[u8]) -> Option<Row>
    ensures { result ≡ spec.first_row terminals.now lane name.now }
{
    match row_place(terminals, lane, name) {
        Some(place) => Some(terminals[place].row),
        None => None,
    }
}

/// What the lane's terminal has for the application that is asked for: the row by which it was found, or else the first one
/// that means it.
#[tactic(auto, unfolding(crate::specs::Terminals::row_for))]
pub fn row_for(terminals: &[Terminal], lane: u8, selection: &Selection) -> Option<Row>
    ensures { result ≡ spec.row_for terminals.now lane selection.now }
{
    match finder_place(terminals, lane, selection) {
        Some(place) => Some(terminals[place].row),
        None => first_row(terminals, lane, selection.name.as_slice()),
    }
}
