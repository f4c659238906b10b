//! The stages of a dialogue.
use app_select::{Choice, Search};
use cvm_list::Verifying;
use emv_dict::{AidRow, Ending, Kind, Step};
use pse_directory::Listing;
use read_records::{Initiating, RecordsToRead};
use risk_mgmt::Judging;

/// Before the card is read.
#[derive(Drop)]
pub(crate) enum Opening<'s> {
    Directory(AtDirectory<'s>),
    Select(AtSelect<'s>),
    Initiate(AtInitiate<'s>),
    Read(AtRead<'s>),
    Over(Ending),
}

/// The card's directory is read.
#[derive(Drop)]
pub(crate) struct AtDirectory<'s> {
    pub listing: Listing<'s>,
    /// The step that is named where the card is gone: its power-up, until it has answered.
    pub cut: Step,
}

#[derive(Drop)]
pub(crate) struct AtSelect<'s> {
    pub search: Search<'s>,
    /// The step that is named where the card is gone: its power-up, until it has answered.
    pub cut: Step,
}

#[derive(Drop)]
pub(crate) struct AtInitiate<'s> {
    pub initiating: Initiating,
    pub choice: Choice<'s>,
}

#[derive(Drop)]
pub(crate) struct AtRead<'s> {
    pub course: RecordsToRead,
    pub row: &'s AidRow,
}

/// Once the card is read.
#[derive(Drop)]
pub(crate) enum Trading<'s> {
    Verify(Verifying<'s>),
    Risk(Judging),
    /// The first GENERATE AC, which asks for this kind.
    First(Kind),
    /// The request to the host.
    Online,
    /// EXTERNAL AUTHENTICATE.
    Authenticate,
    /// A script before the second GENERATE AC.
    ScriptBefore(AtScript),
    Second(AtSecond),
    /// A script behind it, which can't change the ending.
    ScriptBehind(AtScript, Ending),
    Over(Ending),
}

/// A script runs: the one on the table.
#[derive(Drop)]
pub(crate) struct AtScript {
    /// The index of the template behind this one.
    pub next: usize,
}

/// The second GENERATE AC, which asks for this kind.
#[derive(Drop)]
pub(crate) struct AtSecond {
    pub asked: Kind,
    pub outcome: OnlineOutcome,
}

/// What came of going online (EMV 4.3 Book 3 sections 10.9 and 10.11).
#[derive(Clone, Copy)]
pub(crate) enum OnlineOutcome {
    /// The issuer's reply was read.
    Replied,
    /// The terminal was unable to go online.
    Unable,
}

/// All stages.
#[derive(Drop)]
pub(crate) enum Stage<'s> {
    Opening(Opening<'s>),
    Trading(AtTrading<'s>),
}

#[derive(Drop)]
pub(crate) struct AtTrading<'s> {
    /// The terminal's row of the application.
    pub row: &'s AidRow,
    pub trading: Trading<'s>,
}

/// What follows before the card is read, as contracts say it.
#[derive(Drop)]
pub(crate) enum OpeningNext<'s> {
    /// It isn't read yet.
    On(Opening<'s>),
    /// It is read, in the application of this row.
    Read(&'s AidRow),
}
