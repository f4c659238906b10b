//! An issuer's host at lines: standard input gives a scenario's document and then lines, standard output gets the answer
//! to each.
#![tactic(auto)]

mod at_lines;
mod because;
mod call;
mod document;
#[cfg(test)]
mod rows;
#[cfg(test)]
mod tests;
mod told;
mod top;
mod word;

use emv_ports::{StdinSource, StdoutSink};
use line_talk::given_words;
use std::io;
use std::process::ExitCode;
use top::run;

/// Answers the lines for a document's issuer. Where there is no memory for the words, the status is 5; where the words
/// are no text, 2.
fn main(rt: HostRuntime) -> ExitCode {
    let words = match given_words(&rt) {
        Ok(words) => words,
        Err(status) => return ExitCode::from(status.code()),
    };
    let mut source = StdinSource::new(rt.reader());
    let mut sink = StdoutSink::new(io::writer(&rt));
    ExitCode::from(run(rt.alloc(), &words, &mut source, &mut sink).code())
}
