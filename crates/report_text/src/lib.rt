//! The report of a run, line by line: the exact bytes of each line, and the laws by which a report
//! tells what happened: of what its lines' texts differ in, and of what their reader takes from them.
#![tactic(auto)]

mod head;
pub mod laws;
pub mod line;
pub mod packed;
pub mod pieces;
mod told;
pub mod words;
pub mod write;

pub use laws::{lines_are_read, lines_differ, reports_differ};
pub use line::{EndParts, Line, Shown};
pub use packed::{LineAt, Lines, LinesLeft};
pub use write::{Text, end_parts, write_line, write_packed};
