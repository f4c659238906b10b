//! What a terminal and a card say to each other, in words: commands and answers, the kind of cryptogram that is
//! answered, a command without an answer, and what is kept of a lane for the lines behind.
#![tactic(auto)]

pub mod answer;
pub mod because;
pub mod body;
pub mod command;
pub mod cryptogram;
pub mod kind;
pub mod lane;
pub mod learn;
pub mod phrases;
pub mod torn;

pub use answer::tell_answer;
pub use because::tell_cited_reason;
pub use command::tell_command;
pub use cryptogram::first_fields;
pub use kind::{kind_name, tell_kind, value_or_empty};
pub use lane::{LaneState, keep};
pub use learn::find_deep;
pub use torn::tell_torn;
