//! The way through the terminal's list of AIDs (EMV 4.3 Book 1 section 12.3.3).
ghost use Rattle.std.specs.List.{All};
ghost use Rattle.emv_dict.specs.Settings.{IsAidRow};

use emv_dict::AidRow;

/// A row of a terminal's settings, which keeps their rules.
#[derive(Clone, Copy)]
pub(crate) struct Row<'s> {
    pub row: &'s AidRow,
    ghost valid: { IsAidRow row.now },
}

/// The row that is asked for, those behind it, and the number of its occurrence from 0.
#[derive(Drop)]
pub(crate) struct ListTurn<'s> {
    pub row: Row<'s>,
    pub later: &'s [AidRow],
    pub turn: u8,
    /// Whether the cardholder can confirm an application.
    pub confirm: bool,
    ghost valid: { All IsAidRow later.now },
}
