//! The cryptograms between a card and its issuer (EMV 4.3 Book 2 sections 8 and 9): the application
//! cryptogram, the response to it and the code over a script command, each under a session key. No
//! call takes memory.
#![tactic(auto)]

mod cryptograms;
mod fields;
mod joining;

pub use cryptograms::{ac, arpc_one, arpc_two, script_mac};
pub use fields::AcFields;
