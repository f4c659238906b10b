//! The histories of an issuer's host: laws over every list of messages. Histories that are tried stand in
//! the tests.
#![tactic(auto)]

pub mod law;

pub use law::{accounts_stand_apart, balances_add_up, transactions_are_booked_once};

#[cfg(test)]
mod tests;
