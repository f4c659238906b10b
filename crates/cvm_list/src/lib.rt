//! Cardholder verification (EMV 4.3 Book 3 section 10.5): the rules of a card's list of methods, tried
//! in order, with the PINs that the cardholder enters.
#![tactic(auto)]

mod attempt;
pub mod laws;
pub mod outcome;
pub mod rule;
pub mod verifying;

pub use emv_dict::Verified;
pub use laws::{bits_are_own, entries_are_used_once, rules_behind_are_idle};
pub use verifying::{VerifyNext, Verifying};
