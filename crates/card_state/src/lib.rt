//! The state that a payment card keeps in its pages: the totals of the decisions that it has taken,
//! how one more decision changes them, and the state's bytes.
#![tactic(auto)]

pub mod change;
pub mod decision;
pub mod decoding;
pub mod encoding;
pub mod state;
pub mod upgrade;

pub use change::{apply, changed};
pub use decision::{Auth, Decision, How, Sale, Scripted, Steered, Which};
pub use decoding::{decode, decode_one};
pub use encoding::{encode, encode_one, flags};
pub use state::{AppState, CardState, LogRow};
pub use upgrade::with_limits;
