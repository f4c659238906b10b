//! `emvrun`: terminals, cards and an issuer's host from one document, exchange by exchange.
#![tactic(auto)]

use emv_ports::{StdinSource, StdoutSink, blank_bank};
use emv_top::run;
use std::process::ExitCode;
use std::{env, io};

/// Answers the words of the command line: standard input is the document, standard output gets each
/// line, and the exit status is that of the top call. Words that are no text are answered as words
/// that are not in the grammar; where there is no memory for the words or the cards' pages, the status
/// is 5.
fn main(rt: HostRuntime) -> ExitCode {
    let Ok(bank) = blank_bank(rt.alloc()) else {
        return ExitCode::from(5);
    };
    let mut source = StdinSource::new(rt.reader());
    let mut sink = StdoutSink::new(io::writer(&rt));
    let mut words = Vec::new(rt.alloc());
    match env::args(&rt) {
        Ok(given) => {
            for word in given.skip(1) {
                if words.push(word).is_err() {
                    return ExitCode::from(5);
                }
            }
        }
        Err(error) => {
            if error.kind() == io::ErrorKind::OutOfMemory {
                return ExitCode::from(5);
            }
        }
    }
    let finished = run(rt.alloc(), &words, bank, &mut source, &mut sink);
    ExitCode::from(finished.status)
}
