//! The whole program as one call: the words of the command line, pages for the cards, a source and a
//! sink go in; a status, the pages and a tally come out. The contract of `run` is what the project
//! promises.
#![tactic(auto)]

mod bank;
mod checking;
mod closing;
mod ended;
mod events;
mod generating;
mod input;
pub mod laws;
mod lines;
mod reading;
mod replaying;
mod status;
mod stop;
mod top;
mod words;

pub use top::{Finished, run};
