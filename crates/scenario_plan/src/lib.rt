//! What a scenario says: an issuer, its accounts, cards, and lanes of terminals with their purchases, with the rules that it
//! keeps, on which those who run it rest.
#![tactic(auto)]

pub mod plan;

pub use plan::{CardKind, NamedCard, Scenario};
