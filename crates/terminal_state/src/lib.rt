//! What a terminal holds while a dialogue goes on: what the finished steps leave, the host's reply, the
//! card's data, and the data objects that it gives to the card's lists (EMV 4.3 Book 3 section 10 and
//! Annexes A and C).
#![tactic(auto)]

pub mod held;
pub mod state_so_far;
pub mod table;
pub mod terminal;

pub use held::HeldCard;
pub use state_so_far::{Analysed, Conclusion, IssuerData, OnlineRequest, StateSoFar};
pub use table::{HostReply, Table};
pub use terminal::put_terminal;
