//! The lanes of a scenario, each a terminal with its purchases, and the tables that describe them in a
//! document. A card stands in them by its index.
#![tactic(auto)]

pub mod cards;
pub mod lane;
pub mod plan;
pub mod purchase;
pub mod tear;

pub use cards::known_cards;
pub use lane::{LAST_PAGES, lanes_at, read_lane, read_live_lane};
pub use plan::{Lane, Link, Planned};
