//! The keys of a card (EMV 4.3 Book 2 Annex A1): its master key from the issuer's, and the session
//! keys of a transaction. No call takes memory.
#![tactic(auto)]

mod decimal;
mod joining;
mod master;
mod packing;
mod parity;
mod session;

pub use decimal::decimalise;
pub use emv_dict::{PanFault, pan_digits};
pub use master::master_key;
pub use session::{session_ac, session_script};
