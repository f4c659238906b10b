//! How a payment ended, in words: what was asked for last and answered, or where and why it broke off, and the fields of an
//! end line.
#![tactic(auto)]

pub mod digits;
pub mod ending;
pub mod phrases;

pub use digits::hex_number;
pub use ending::{tell_break, tell_end};
