//! A terminal's captures on pages that may lose their power in the middle of a write: a list of at most
//! seven messages, oldest first. Each call that changes it is one commit, and behind any loss of power
//! the list before the call is found, or the one behind it. What a terminal without such pages has captured
//! waits in working memory.
#![tactic(auto)]

mod by_value;
mod capture_list;
mod lane_store;
mod laws;
mod spelled;
mod waiting;

pub use by_value::Captures;
pub use capture_list::prepare;
pub use lane_store::LaneStore;
pub use laws::{lost_calls_leave_one_of_two, stores_have_room, stores_keep_what_is_sent};
pub use waiting::Waiting;
