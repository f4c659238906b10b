//! The issuer's side of a payment: its keys, its accounts, and the scripts that it sends to a card
//! (EMV 4.3 Book 3 section 10.10).
#![tactic(auto)]

pub mod account;
mod accounts;
mod answering;
pub mod code;
mod decision;
pub mod host;
mod keeping;
pub mod keys;
mod laws;
pub mod reason;
mod reasoning;
mod records;
mod reply;
mod response;
mod script;

pub use account::{Account, Method, is_status};
pub use code::Code;
pub use decision::covered;
pub use host::Host;
pub use keys::HostKeys;
pub use laws::reasons_are_replys;
pub use reason::Reason;
pub use script_words::{Ordered, Script, Word};
