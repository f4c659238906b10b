//! Terminal risk management (EMV 4.3 Book 3 section 10.6): exception file, floor limit, random
//! selection and velocity checking.
#![tactic(auto)]

pub mod counters;
pub mod judging;
pub mod laws;
pub mod selection;

pub use emv_dict::Judged;
pub use judging::{JudgeNext, Judging};
pub use laws::bits_are_own;
pub use selection::is_selected;
