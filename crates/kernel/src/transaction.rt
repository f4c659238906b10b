//! The transaction that a terminal is in once the card is read.
ghost use Rattle.kernel.specs.Sound.{IsTransaction};

use emv_dict::{AidRow, Logged, Purchase, Settings};
use object_lists::CardData;

/// What each step of a transaction rests on, and none changes.
#[derive(Clone, Copy)]
pub(crate) struct Transaction<'d, 's> {
    pub settings: &'s Settings,
    pub purchase: &'s Purchase,
    /// The terminal's row of the application.
    pub row: &'s AidRow,
    pub card: &'d CardData,
    /// The terminal's log of earlier purchases, as it came with the card's answer. The host's reply comes with
    /// none, and no step behind it asks for one.
    pub log: &'d [Logged],
    ghost sound: { IsTransaction settings.now purchase.now row.now log.now },
}
