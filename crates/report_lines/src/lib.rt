//! The lines of a report, read back, where bytes stay in hexadecimal until they are asked for; and the
//! lines of words that stand behind them, each of which begins with two blanks at least, the tables in which
//! the words are looked up, and where each reason stands: the rule of the profile (docs/proof/profile.md) by its short
//! name, and the section of the Books or of another standard that it comes from.
#![tactic(auto)]

pub mod ending;
pub mod hexadecimal;
pub mod line;
pub mod lines;
pub mod look_up;
pub mod parts;
pub mod pieces;
pub mod read;
pub mod reference_of;
pub mod references;

pub use ending::{EndFields, Ending, read_ending};
pub use hexadecimal::bytes_of;
pub use line::{ReportLine, What, Whose};
pub use lines::WordLines;
pub use look_up::{word_of, word_of_text};
pub use parts::{number_of, split_at_comma, split_word};
pub use read::read_line;
pub use reference_of::{
    cause_reference, command_reference, outcome_reference, response_reference, result_reference,
    status_reference, verification_reference,
};
pub use references::{
    ABOVE_BALANCE, ANALYSIS, CUT, DENIAL, EXPIRED, FIRST_KIND, HELD, NO_ACCOUNT, NOT_ALLOWED,
    ONLINE, REPLY, SECOND_KIND, SETTLED, STATUS_REFERENCES, TRIES_LEFT, UNABLE, WRONG_CRYPTOGRAM,
    WRONG_PIN,
};
