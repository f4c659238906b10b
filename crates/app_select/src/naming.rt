//! The names of applications that a terminal supports (EMV 4.3 Book 1 section 12.3.1).
ghost use Rattle.std.specs.Prelude.{◌≡◌};
ghost use Rattle.app_select.specs.Said as spec;

use arrayvec::ArrayVec;
use emv_dict::{AidRow, Name};

/// The most applications of a card that are taken over by their names.
pub const MOST_NAMES: usize = 16;

/// An application of the card that the terminal supports, as a directory of the card names it.
#[derive(Drop)]
pub struct Found {
    /// Its name.
    pub name: Name,
    /// Its priority indicator (87).
    pub priority: Option<u8>,
    /// The place of the terminal's row that supports it, from 0.
    pub aid: usize,
}

/// The contents of an unused place.
impl Default for Found {
    fn default() -> Found {
        Found {
            name: blank_name(),
            priority: None,
            aid: 0,
        }
    }
}

/// The name in an unused place, which is made faster than a copy of another.
pub(crate) fn blank_name() -> Name {
    let mut bytes = ArrayVec::new();
    bytes.push(0);
    Name(bytes)
}

/// Whether a terminal that knows a row supports an application of this name: it is the AID, or is longer and
/// begins with it where the terminal takes partial names.
pub fn is_supported(row: &AidRow, name: &Name) -> bool
    ensures { result ≡ spec.is_supported row.now.name row.now.partial name.now }
{
    *name == row.name || row.partial && is_longer(row, name)
}

/// Whether a name is longer than the AID and begins with it.
pub fn is_longer(row: &AidRow, name: &Name) -> bool
    ensures { result ≡ spec.is_longer row.now.name name.now }
{
    let aid = row.name.as_slice();
    let name = name.as_slice();
    aid.len() < name.len() && name.starts_with(aid)
}
