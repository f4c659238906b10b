//! The longer phrases, each written once.

/// Before the step in which the terminal ended a payment.
pub const ENDED_AT: &[u8] = b"the terminal ended it at ";

/// Before the step in which the card was pulled out.
pub const PULLED_OUT: &[u8] = b"the card was pulled out: ";

/// Before the kind of cryptogram that the card answered.
pub const CARD_ANSWERED: &[u8] = b"; the card answered ";

/// Before the kind of cryptogram that the terminal asked for.
pub const ASKED_FOR: &[u8] = b"the terminal asked for ";

/// Each command of a script was carried out.
pub const ALL_CARRIED_OUT: &[u8] = b": all commands were carried out";

/// A script was not carried out.
pub const NO_SCRIPT: &[u8] = b": not of the form of a script, or the card was gone";
