//! The outside of the terminal, the card and the host: where bytes come from and go to.
//!
//! Each port is a trait whose ghost members say what an implementation means, so that the crates
//! above are proved once, for every implementation. `Source` and `Sink` count their faults: a call
//! answers `Failed` only where that count rose.
#![tactic(auto)]

pub mod held;
mod memory_bank;
pub mod memory_pages;
pub mod memory_sink;
pub mod memory_source;
pub mod pages;
pub mod rough_pages;
pub mod sink;
pub mod source;
pub mod standard;
pub mod tear;
pub mod transfer;

pub use held::Held;
pub use memory_bank::{blank_bank, rough_bank};
pub use memory_pages::MemoryPages;
pub use memory_sink::MemorySink;
pub use memory_source::MemorySource;
pub use pages::{Gone, Pages};
pub use rough_pages::RoughPages;
pub use sink::Sink;
pub use source::{Failed, Source};
pub use standard::{StdinSource, StdoutSink};
pub use tear::{Cut, Tear, TearAt};
pub use transfer::{ReadFault, read_up_to, write_all};
