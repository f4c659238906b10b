//! PIN blocks of ISO 9564-1: format 2, in which a terminal hands a PIN to the card, and format 0,
//! in which it goes enciphered to the issuer.
#![tactic(auto)]

mod block;
pub mod online;
pub mod plain;

pub use online::{online_block, read_online};
pub use plain::{plain_block, read_plain};
