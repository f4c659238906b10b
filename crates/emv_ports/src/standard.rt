//! Standard input and output as ports.
ghost use Rattle.std.specs.Prelude.{◌≡◌, ℕ, ◌<◌, length, IfOk, OnErr, IsErr, Ok, MatchResult};
ghost use Rattle.std.specs.declared.option.Option.{Option};
ghost use Rattle.emv_ports.specs.Causes.{HasCause, one_more};
ghost use Rattle.emv_ports.specs.Moving.{ReadsSource};

use crate::{Failed, Sink, Source};
use std::io;
use std::io::{Read, Write};

/// A source over standard input, or any reader. It tells what is left only where the reader does.
#[derive(Drop)]
pub struct StdinSource<R: Read + Drop> {
    reader: R,
    faults: u64,
}

impl<R: Read + Drop> StdinSource<R> {
    /// A source at the reader's place, without faults yet.
    pub fn new(reader: R) -> Self
        ensures left { ⟦<StdinSource<R> as Source>⟧.left result ≡ R.remaining reader }
        ensures faults { ⟦<StdinSource<R> as Source>⟧.faults result ≡ 0 }
    {
        StdinSource { reader, faults: 0 }
    }

    /// What a read is answered with. The reader's count is passed on, 0 at its end too: only the reader's
    /// own error is a fault.
    fn answered(&mut self, given: io::Result<usize>) -> Result<usize, Failed>
        ensures exact { MatchResult given (λ count. result ≡ Ok count) (λ _. IsErr result) }
        ensures reader { self.new.reader ≡ self.old.reader }
        ensures cause { HasCause self.old.faults self.new.faults result }
        ensures raised { OnErr result (self.new.faults ≡ one_more self.old.faults) }
    {
        match given {
            Ok(count) => Ok(count),
            Err(_) => {
                self.faults = self.faults.saturating_add(1);
                Err(Failed)
            }
        }
    }
}

impl<R: Read + Drop> Source for StdinSource<R> {
    ghost left = { λ s. R.remaining s.reader };

    ghost faults = { λ s. s.faults };

    fn read(&mut self, out: &mut [u8]) -> Result<usize, Failed>
        ensures reads { ReadsSource (R.remaining self.old.reader) (R.remaining self.new.reader) self.old.faults self.new.faults out.new result }
        // A fault counts once.
        ensures raised { OnErr result (self.new.faults ≡ one_more self.old.faults) }
    {
        let given = self.reader.read(out);
        self.answered(given)
    }
}

/// A sink over standard output, or any writer. It tells what it holds only where the writer does.
#[derive(Drop)]
pub struct StdoutSink<W: Write + Drop> {
    writer: W,
    faults: u64,
}

impl<W: Write + Drop> StdoutSink<W> {
    /// A sink behind what the writer holds, without faults yet.
    pub fn new(writer: W) -> Self
        ensures held { ⟦<StdoutSink<W> as Sink>⟧.held result ≡ W.contents writer }
        ensures faults { ⟦<StdoutSink<W> as Sink>⟧.faults result ≡ 0 }
    {
        StdoutSink { writer, faults: 0 }
    }
}

impl<W: Write + Drop> Sink for StdoutSink<W> {
    ghost held = { λ s. W.contents s.writer };

    ghost faults = { λ s. s.faults };

    fn write(&mut self, piece: &[u8]) -> Result<usize, Failed> {
        match self.writer.write(piece) {
            Ok(count) => {
                if count > 0 || piece.is_empty() {
                    return Ok(count);
                }
            }
            Err(_) => {}
        }
        self.faults = self.faults.saturating_add(1);
        Err(Failed)
    }
}
