//! The way of a message to the issuer's host, and of its reply, in the dialect of a lane; and
//! the fault of a message in words, as a terminal and an issuer's host at lines tell it.
#![tactic(auto)]

pub mod dialect;
mod fault_words;
pub mod laws;
mod link;

pub use dialect::{Wire, take_reply, write_call, write_reply};
pub use fault_words::{put_iso_fault, put_message_fault};
pub use laws::{messages_differ, replies_differ};
pub use link::deliver;
