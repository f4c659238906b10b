//! The messages between a terminal and the issuer's host in the style of ISO 8583:1987: a type, a bitmap
//! and fields in rising order. Which fields a message has, and what they hold, is this project's own
//! profile: docs/proof/formats.md.
#![tactic(auto)]

mod bits;
mod digits;
pub mod fault;
mod front;
mod icc;
pub mod kind;
mod numeral;
pub mod read;
mod reader;
pub mod write;
mod written;

pub use fault::IsoFault;
pub use kind::CallKind;
pub use read::{read_iso_call, read_iso_reply};
pub use write::{write_iso_call, write_iso_reply};
