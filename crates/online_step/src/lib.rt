//! The cryptogram steps of a terminal: GENERATE AC and its answer, EXTERNAL AUTHENTICATE, and the messages to
//! the issuer's host (EMV 4.3 Book 3 sections 10.8 to 10.11).
#![tactic(auto)]

pub mod ac;
pub mod authenticate;
pub mod captures;
mod fields;
pub mod generate;
pub mod laws;
mod objects;
pub mod online;

pub use ac::{GenerateAc, read_ac};
pub use authenticate::{authenticate_command, read_verdict};
pub use captures::{Approval, presentment, reversal};
pub use emv_dict::Ac;
pub use generate::{fill_list, write_generate};
pub use laws::answers_are_read_back;
pub use online::request;
