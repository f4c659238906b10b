//! Initiate application processing and read application data, two steps of a terminal (EMV 4.3 Book 3
//! sections 10.1 and 10.2).
#![tactic(auto)]

pub mod afl;
pub mod initiating;
pub mod options;
pub mod reading;
pub mod record;

pub use initiating::{InitiateNext, Initiating, OptionsNext};
pub use object_lists::CardData;
pub use reading::{CourseStep, ReadNext, Reading, RecordsNext, RecordsToRead};
