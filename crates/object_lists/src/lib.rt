//! Data object lists, and the data that a terminal fills them with (EMV 4.3 Book 3 section 5.4).
#![tactic(auto)]

pub mod card_data;
pub mod checked;
mod coding;
pub mod dol;
pub mod filling;

pub use card_data::CardData;
pub use checked::objects_fault;
pub use coding::coding_cause;
pub use dol::{Dol, DolFault, place, read_dol, total};
pub use filling::{fill, fill_without_card};
