//! The messages between a terminal and the issuer's host: a request, its reply, a presentment and a
//! reversal, each one BER-TLV item whose value is a list of fields in a fixed order. The formats are
//! this project's own.
#![tactic(auto)]

pub mod fault;
mod field;
mod fields;
pub mod groups;
pub mod message;
mod outer;
pub mod presentment;
pub mod reply;
pub mod request;
pub mod reversal;
pub mod write;

pub use fault::MessageFault;
pub use fields::Fields;
pub use groups::{Named, Paid};
pub use message::{Incoming, read_message};
pub use presentment::PresentFields;
pub use reply::{Reply, read_reply};
pub use request::RequestFields;
pub use reversal::ReversalFields;
pub use write::{Message, write_presentment, write_reply, write_request, write_reversal};
