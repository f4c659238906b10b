//! Whether the cards of a scenario are well-formed for its purchases: standard input gives a scenario's document, and
//! standard output gets a line for each purchase. A card that isn't is judged by the first part that it breaks.
#![tactic(auto)]

mod clashing;
mod fault;
mod own;
mod serving;
mod top;
mod validating;
mod verdicts;

use emv_ports::{StdinSource, StdoutSink};
use line_talk::given_words;
use std::io;
use std::process::ExitCode;
use top::run;

/// Judges the cards of the document. Where there is no memory for the words, the status is 5; where the words are no
/// text, 2.
fn main(rt: HostRuntime) -> ExitCode {
    let words = match given_words(&rt) {
        Ok(words) => words,
        Err(status) => return ExitCode::from(status.code()),
    };
    let mut source = StdinSource::new(rt.reader());
    let mut sink = StdoutSink::new(io::writer(&rt));
    ExitCode::from(run(rt.alloc(), &words, &mut source, &mut sink).code())
}
