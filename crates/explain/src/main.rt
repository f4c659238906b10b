//! `explain`: a report's lines in words, from standard input to standard output.
#![tactic(auto)]

mod options;
mod status;
#[cfg(test)]
mod tests;
mod told;
mod top;

use emv_ports::{StdinSource, StdoutSink};
use status::Status;
use std::process::ExitCode;
use std::{env, io};
use top::run;

/// Answers the words of the command line: standard input is a report, standard output gets each line that
/// is asked for and its words. Words that are no text are answered as words that are not in the grammar;
/// where there is no memory for the words, the status says so.
fn main(rt: HostRuntime) -> ExitCode {
    let mut source = StdinSource::new(rt.reader());
    let mut sink = StdoutSink::new(io::writer(&rt));
    let mut words = Vec::new(rt.alloc());
    match env::args(&rt) {
        Ok(given) => {
            for word in given.skip(1) {
                if words.push(word).is_err() {
                    return ExitCode::from(Status::OutOfMemory.code());
                }
            }
        }
        Err(error) => {
            if error.kind() == io::ErrorKind::OutOfMemory {
                return ExitCode::from(Status::OutOfMemory.code());
            }
            if words.push(String::new(rt.alloc())).is_err() {
                return ExitCode::from(Status::OutOfMemory.code());
            }
        }
    }
    ExitCode::from(run(rt.alloc(), &words, &mut source, &mut sink).code())
}
