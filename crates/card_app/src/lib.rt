//! A payment card: its commands and their answers (EMV 4.3 Book 1 section 11.3, Book 3 section 6.5),
//! from the image of its applications and from pages that may lose their power in the middle of a
//! write. Each decision of the card is one commit of the pages, and an answer comes out only behind the
//! commits of its decisions: behind any loss of power the pages stand for the decisions that are kept, or
//! may stand for one pending decision more.
#![tactic(auto)]

mod answering;
mod apps;
mod authenticate;
mod by_value;
mod comparing;
mod counters;
mod files;
mod foretelling;
mod generate;
mod icc;
mod kept;
pub mod law;
mod options;
mod orders;
mod reason;
mod reply;
mod scripts;
mod selection;
mod verify;
mod work;

pub use by_value::Card;
pub use card_cryptogram::{First, Phase, TerminalFields};
pub use comparing::{Comparison, compare, has_pin, respond};
pub use counters::shown_all;
pub use foretelling::Foretold;
pub use icc::{Icc, personalise};
pub use kept::{CardPages, format};
pub use reason::{Reason, Resting};
