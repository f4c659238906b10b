//! A terminal with its purchases, as it stands before a reader: standard input gives its document and then the replies, line
//! by line, and standard output gets what it asks. Behind a purchase it settles what was captured, or begins the next one.
#![tactic(auto)]

mod asking;
mod document;
mod fault;
mod hearing;
mod losing;
mod paying;
mod saying;
mod settling;
mod terminal;
#[cfg(test)]
mod tests;
mod till;
mod top;
mod work;

use emv_ports::{StdinSource, StdoutSink};
use std::io;
use std::process::ExitCode;
use top::run;

/// Holds the dialogues of the document that standard input begins with.
fn main(rt: HostRuntime) -> ExitCode {
    let mut source = StdinSource::new(rt.reader());
    let mut sink = StdoutSink::new(io::writer(&rt));
    ExitCode::from(run(rt.alloc(), &mut source, &mut sink).code())
}
