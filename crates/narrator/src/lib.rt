//! Tells each line of a report in words, from the line and from what the lines before it left.
#![tactic(auto)]

pub mod alone;
pub mod basis;
pub mod filter;
pub mod narrator;
pub mod past;
pub mod phrases;
pub mod report;
pub mod report_past;
pub mod selection;
pub mod terminal;

pub use basis::Basis;
pub use filter::Filter;
pub use narrator::Narrator;
pub use past::LanePast;
pub use report_past::ReportPast;
pub use terminal::Terminal;
