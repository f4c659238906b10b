//! DES and two-key triple DES (FIPS 46-3), and the message authentication code of EMV 4.3 Book 2
//! Annex A1.2 (ISO/IEC 9797-1 algorithm 3). No call takes memory. Parity bits are ignored.
#![tactic(auto)]

mod chaining;
mod double;
mod permuting;
mod rounds;
mod schedule;
mod single;
mod tables;

pub use chaining::{mac, mac_joined, xor_blocks};
pub use double::Key16;
pub use rounds::merged;
pub use single::Des;
