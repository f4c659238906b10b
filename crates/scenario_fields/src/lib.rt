//! The keys of a scenario's tables: readers of one key or value of a TOML document by its type and
//! limits, and the faults that name the first place that breaks a rule.
#![tactic(auto)]

pub mod fault;
pub mod fields;
pub mod place;
pub mod spot;

pub use fault::{Path, ScenarioFault};
pub use fields::Fields;
pub use place::{LaneAt, TablePlace};
pub use spot::{Characters, Spot};
