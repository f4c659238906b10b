//! The payment system directory, in which a card names its applications (EMV 4.3 Book 1 section 12.3.2): a terminal
//! that begins with it, and where it gives no candidate goes on with its list of AIDs.
#![tactic(auto)]

mod entry;
pub mod laws;
pub mod listing;
mod name;
mod record;

pub use laws::{first_names_are_kept, steps_give_chosen};
pub use listing::{DirectoryNext, ListNext, Listing};
