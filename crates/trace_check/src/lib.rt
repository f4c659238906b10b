//! A captured dialogue, entry by entry, against the dialogue that a terminal would have had on its
//! replies; and why it asked for its kind of cryptogram, from the same dialogue.
#![tactic(auto)]

pub mod compare;
pub mod ended;
pub mod entry;
pub mod laws;
mod question;
pub mod read;
pub mod taking;
mod why;

pub use compare::{Verdict, check};
pub use ended::add_end_text;
pub use entry::{Bytes, Entry, bytes_shown};
pub use question::{Basis, Question, last_question};
pub use read::{Trace, read_trace};
pub use taking::{take, take_with_log};
pub use why::tell_question;
