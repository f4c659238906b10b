//! Messages to the issuer and its replies in words, in both dialects; and the power lines of a report: a card's
//! counters, and what changed of them since its last power-up.
#![tactic(auto)]

pub mod cards;
pub mod fields;
pub mod host;
pub mod iso;
pub mod objects;
pub mod phrases;
pub mod power;

pub use cards::CardSeen;
pub use host::{Settled, code_in, settled_by, tell_call, tell_reply};
pub use power::{tell_place, tell_power};
