//! A state on card pages that a loss of power may tear: after any loss the old state is found, or
//! the new one.
#![tactic(auto)]

mod by_value;
mod commits;
mod convert;
mod journal;
mod layout;
mod place;

pub use by_value::{Lost, Settled, Store};
pub use convert::Convert;
pub use place::{StorePlace, Written};
