//! A scenario: an issuer, its accounts, cards, and lanes of terminals with their purchases, read of a
//! TOML document, or the first fault of the document.
#![tactic(auto)]

pub mod account;
pub mod app;
pub mod canned;
pub mod card;
pub mod extras;
pub mod issuer;
mod lists;
pub mod read;
pub mod record;
pub mod schedule;
pub mod script;

pub use read::{MOST_BYTES, read_scenario};
pub use scenario_fields::{Path, ScenarioFault};
