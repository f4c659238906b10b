//! The whole dialogue of a terminal with a card and the issuer's host, from application selection to
//! the capture (EMV 4.3 Book 3 section 8).
#![tactic(auto)]

mod analysis;
pub mod ended;
mod generate;
mod initiation;
mod issuer_scripts;
pub mod kernel;
pub mod laws;
mod online;
mod reading;
mod risk;
mod second;
mod selection;
mod stage;
pub mod tally;
mod transaction;
mod verification;

pub use ended::{Capture, EndRecord, Ended};
pub use kernel::{Kernel, Next};
pub use tally::Tally;
