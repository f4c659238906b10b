//! An issuer's scripts: their commands, the words that order them, and how long a script gets
//! (EMV 4.3 Book 3 sections 6.5 and 10.10).
#![tactic(auto)]

pub mod length;
pub mod numeral;
pub mod order;
pub mod script;

pub use length::made_length;
pub use order::read_order;
pub use script::{Ordered, Script, Word};
