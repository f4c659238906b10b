//! An issuer's ledger: what each account opened with, and what was held, booked or released for each
//! transaction, once a transaction. The rules are this project's own.
#![tactic(auto)]

mod accounts;
pub mod entry;
pub mod fault;
mod keep;
pub mod key;
pub mod ledger;
mod rows;

pub use entry::{Entry, EntryState};
pub use fault::LedgerFault;
pub use key::Key;
pub use ledger::Ledger;
