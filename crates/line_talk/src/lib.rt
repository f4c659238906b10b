//! Talks of lines: a program reads a document on its source, and then has somebody answer line by line, each line before
//! the next one is read. A card, a terminal and an issuer's host are such parties; what was read and what was answered has
//! one contract for all of them.
#![tactic(auto)]

pub mod document;
pub mod line;
pub mod number;
pub mod party;
pub mod status;
pub mod talk;
pub mod words;

pub use document::{Preamble, read_preamble};
pub use line::{Came, LineText, read_line};
pub use number::number_of;
pub use party::{Onward, Party, put_line};
pub use status::Status;
pub use talk::{answer_other, converse, refuse, write_last};
pub use words::given_words;
