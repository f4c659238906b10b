//! Issuer scripts, a step of a terminal: the commands of one template (71 or 72) are sent to the card in
//! their order, as they are (EMV 4.3 Book 3 section 10.10).
#![tactic(auto)]

pub mod laws;
pub mod running;
mod template;

pub use laws::{commands_are_asked_in_turn, scripts_are_read_back};
pub use running::{RunNext, Running};
