//! What a card tells of itself in words: its state, its decisions since the power-up, and why it made a cryptogram.
#![tactic(auto)]

mod decision;
mod reason;
mod state;

pub use decision::{Told, tell_decided, told_in};
pub use reason::tell_reason;
pub use state::tell_state;
