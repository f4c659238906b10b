//! Application selection, a step of a terminal (EMV 4.3 Book 1 section 12): by a list of AIDs, with
//! partial names, priorities and confirmation, and back to the next candidate where one is refused.
#![tactic(auto)]

pub mod candidates;
mod course;
pub mod fci;
pub mod laws;
pub mod naming;
pub mod search;
pub mod select;
pub mod selecting;

pub use candidates::Candidates;
pub use fci::is_readable;
pub use laws::{answers_are_numbered, answers_have_no_room, names_stand_once, order_is_stable};
pub use naming::{Found, MOST_NAMES, is_longer, is_supported};
pub use search::{Choice, Search, SearchNext};
pub use select::{FIRST_OCCURRENCE, write_select};
pub use selecting::{SelectNext, Selected, Selecting, steps_give_chosen};
