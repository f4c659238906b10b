//! A card as it stands in a reader: standard input gives a scenario's document and then lines, standard output gets the
//! answer to each.
#![tactic(auto)]

mod canned;
mod desk;
mod document;
mod notes;
mod since;
#[cfg(test)]
mod tests;
mod top;
mod torn_text;
mod word;

use emv_ports::{Held, MemoryPages, StdinSource, StdoutSink};
use line_talk::{Status, given_words};
use std::io;
use std::process::ExitCode;
use top::run;

/// Answers the lines for the card that the command line names, or for the first one. Where there is no memory for the
/// words or the pages, the status is 5; where the words are no text, 2.
fn main(rt: HostRuntime) -> ExitCode {
    let Ok(pages) = Held::new(rt.alloc(), MemoryPages::blank()) else {
        return ExitCode::from(Status::OutOfMemory.code());
    };
    let words = match given_words(&rt) {
        Ok(words) => words,
        Err(status) => return ExitCode::from(status.code()),
    };
    let mut source = StdinSource::new(rt.reader());
    let mut sink = StdoutSink::new(io::writer(&rt));
    ExitCode::from(run(rt.alloc(), &words, pages, &mut source, &mut sink).code())
}
