//! The data objects that a card, a terminal or an issuer gave: a map from tags to values that takes
//! no memory from an allocator.
#![tactic(auto)]

pub mod env;
pub mod gathering;
mod place;

pub use env::{Env, EnvFault};
pub use gathering::{GatherFault, gather};
