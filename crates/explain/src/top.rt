//! The top call.
ghost use Rattle.std.specs.Prelude.{◌≡◌, ℕ, List, [], false, OnOk, OnErr, IfOk, map, string_bytes};
ghost use Rattle.std.specs.declared.option.Option.{Option};
ghost use Rattle.explain.specs.ReportSoFar.{IsReportSoFar, way_in, stand_of};
ghost use Rattle.explain.specs.Reading.{ReadAll, ReadSome, TellingSourceCount, TellingSinkCount};
ghost use Rattle.explain.specs.Statuses.{ExplainAnswers, ExplainSourceCount, ExplainSinkCount};
ghost use Rattle.explain.specs.ToldLines.{Explained, BrokenOff, way_of};
ghost use Rattle.narrator.specs.State.{seen_state, start};

use crate::options::{NoOptions, Options, read_options};
use crate::status::Status;
use crate::told::{Stop, Teller, end, take_bytes};
use arrayvec::ArrayVec;
use emv_ports::{Failed, Sink, Source, write_all};
use narrator::Narrator;
use report_lines::WordLines;
use std::alloc::{AllocError, Global};

/// The line that answers words which are not in the grammar.
const USAGE: &[u8] =
    b"usage: explain [--brief] [--ends] [--why] [--books] [--lane N] [--purchase N] [--terminal T]... [--card T]... [--account T]...\n";

/// The most bytes that are read.
const MOST_READ: u64 = 4_611_686_018_427_387_904;

/// Why a report was not explained to its end.
#[derive(Clone, Copy, PartialEq, Eq, Debug)]
pub enum Broken {
    /// The source failed.
    Source,
    /// The sink failed.
    Sink,
    /// There was no memory.
    OutOfMemory,
}

/// Reads a source to its end, and hands on what comes.
fn read_through<S: Source, K: Sink>(
    teller: &mut Teller,
    source: &mut S,
    sink: &mut K,
) -> Result<(), Broken>
    ensures ok { OnOk result ((first : Option (List ℕ)) → IsReportSoFar (way_in teller.old) teller.old.line.items (stand_of teller.old) [] first (K.held sink.old)
        → ReadAll (way_in teller.new) teller.new.line.items (stand_of teller.new) (S.left source.old) (S.left source.new) first (K.held sink.new)) }
    ensures err { OnErr result ((first : Option (List ℕ)) → IsReportSoFar (way_in teller.old) teller.old.line.items (stand_of teller.old) [] first (K.held sink.old)
        → ReadSome (way_in teller.old) (S.left source.old) (S.left source.new) first (K.held sink.new)) }
    ensures way { way_in teller.new ≡ way_in teller.old }
    ensures source { TellingSourceCount (S.faults source.old) (S.faults source.new) result }
    ensures sink { TellingSinkCount (K.faults sink.old) (K.faults sink.new) result }
{
    let mut chunk = [0u8; 4096];
    let mut left = MOST_READ;
    while left > 0 {
        match source.read(&mut chunk) {
            Ok(0) => return Ok(()),
            Ok(count) => match take_bytes(teller, &chunk[..count], sink) {
                Ok(()) => left = left.saturating_sub(count as u64),
                Err(Stop::Sink) => return Err(Broken::Sink),
                Err(Stop::OutOfMemory) => return Err(Broken::OutOfMemory),
            },
            Err(Failed) => return Err(Broken::Source),
        }
    }
    Ok(())
}

/// Explains what a source gives, and what stands behind its last newline.
fn explain<S: Source, K: Sink>(
    teller: &mut Teller,
    source: &mut S,
    sink: &mut K,
) -> Result<(), Broken>
    requires line { teller.old.line.items ≡ [] }
    requires short { teller.old.long ≡ false }
    requires state { seen_state teller.old.narrator ≡ start }
    ensures ok { OnOk result (Explained (way_in teller.old) (S.left source.old) (S.left source.new) (K.held sink.old) (K.held sink.new)) }
    ensures err { OnErr result (BrokenOff (way_in teller.old) (S.left source.old) (S.left source.new) (K.held sink.old) (K.held sink.new)) }
    ensures source { TellingSourceCount (S.faults source.old) (S.faults source.new) result }
    ensures sink { TellingSinkCount (K.faults sink.old) (K.faults sink.new) result }
{
    match read_through(teller, source, sink) {
        Ok(()) => match end(teller, sink) {
            Ok(()) => Ok(()),
            Err(Stop::Sink) => Err(Broken::Sink),
            Err(Stop::OutOfMemory) => Err(Broken::OutOfMemory),
        },
        Err(broken) => Err(broken),
    }
}

/// A teller before the first byte.
fn begin(alloc: Global, options: Options) -> Result<Teller, AllocError>
    ensures line { IfOk result (λ teller. teller.line.items ≡ []) }
    ensures short { IfOk result (λ teller. teller.long ≡ false) }
    ensures state { IfOk result (λ teller. seen_state teller.narrator ≡ start) }
    ensures way { IfOk result (λ teller. way_in teller ≡ way_of options) }
{
    let all = options.filter.shows_all();
    let narrator = Narrator::new(
        alloc,
        options.filter,
        options.terminals,
        options.card_apps,
        options.accounts,
    )?;
    Ok(Teller {
        narrator,
        words: WordLines::new(alloc),
        line: ArrayVec::new(),
        long: false,
        all,
    })
}

/// Explains what a source gives, by these options.
fn explain_by<S: Source, K: Sink>(
    alloc: Global,
    options: Options,
    source: &mut S,
    sink: &mut K,
) -> Result<(), Broken>
    ensures ok { OnOk result (Explained (way_of options) (S.left source.old) (S.left source.new) (K.held sink.old) (K.held sink.new)) }
    ensures err { OnErr result (BrokenOff (way_of options) (S.left source.old) (S.left source.new) (K.held sink.old) (K.held sink.new)) }
    ensures source { TellingSourceCount (S.faults source.old) (S.faults source.new) result }
    ensures sink { TellingSinkCount (K.faults sink.old) (K.faults sink.new) result }
{
    match begin(alloc, options) {
        Ok(teller) => {
            let mut teller = teller;
            explain(&mut teller, source, sink)
        }
        Err(AllocError) => Err(Broken::OutOfMemory),
    }
}

/// Answers these words: explains the report that `source` gives, line by line, to `sink`, and gives the
/// status. The words are `[--brief] [--ends] [--why] [--books] [--lane N] [--purchase N] [--terminal T]...
/// [--card T]... [--account T]...`, in any order. Each line is handed on as soon as its words are made. A line
/// of more than 8,192 bytes, one of another form than a report's, and what stands behind the last newline have
/// no words.
pub fn run<S: Source, K: Sink>(
    alloc: Global,
    words: &[String],
    source: &mut S,
    sink: &mut K,
) -> Status
    // What becomes of the words, and what was read and written, by the status.
    ensures answers { ExplainAnswers (map string_bytes words.now) (source.new ≡ source.old) (sink.new ≡ sink.old)
        (S.left source.old) (S.left source.new) (K.held sink.old) (K.held sink.new) result }
    // The counts of faults rise for what failed, and for nothing else.
    ensures source { ExplainSourceCount (S.faults source.old) (S.faults source.new) result }
    ensures sink { ExplainSinkCount (K.faults sink.old) (K.faults sink.new) result }
{
    match read_options(alloc, words) {
        Ok(options) => match explain_by(alloc, options, source, sink) {
            Ok(()) => Status::Done,
            Err(Broken::Source) => Status::ReadFault,
            Err(Broken::Sink) => Status::WriteFault,
            Err(Broken::OutOfMemory) => Status::OutOfMemory,
        },
        Err(NoOptions::Words) => match write_all(sink, USAGE) {
            Ok(()) => Status::Usage,
            Err(Failed) => Status::WriteFault,
        },
        Err(NoOptions::OutOfMemory) => Status::OutOfMemory,
    }
}
