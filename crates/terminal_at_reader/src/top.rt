//! The top call.
ghost use Rattle.std.specs.Prelude.{◌≡◌, ◌≤◌, length};
ghost use Rattle.line_talk.specs.Talk.{EndsDocument, Served, TalkSinkCount, TalkSourceCount, TalkEnds};
ghost use Rattle.line_talk.specs.declared.status.Status.TheVariants as status;
ghost use Rattle.scenario_lanes.specs.Plan.{IsLane};
ghost use Rattle.terminal_at_reader.specs.Document.{most_purchases};
ghost use Rattle.terminal_at_reader.specs.Talk.{IsTerminalTalk, terminal_opening};
ghost use Rattle.terminal_at_reader.specs.Top.{HadDialogues, terminal_programme};

use crate::document::read_terminal;
use crate::terminal::begin;
use emv_ports::{ReadFault, Sink, Source};
use line_talk::{Preamble, Status, answer_other, converse, read_preamble, refuse};
use scenario_lanes::Lane;
use std::alloc::Global;

/// Holds the dialogues of a terminal.
fn serve_terminal<S: Source, K: Sink>(
    alloc: Global,
    lane: &Lane,
    source: &mut S,
    sink: &mut K,
) -> Status
    requires some { 1 ≤ length lane.now.purchases }
    requires few { length lane.now.purchases ≤ most_purchases }
    requires rules { IsLane lane.now }
    ensures ends { TalkEnds (IsTerminalTalk lane.now) (terminal_opening lane.now)
        (record { first = S.left source.old; left = S.left source.new; before = K.held sink.old; held = K.held sink.new }) result }
    ensures source { TalkSourceCount (S.faults source.old) (S.faults source.new) result }
    ensures sink { TalkSinkCount (K.faults sink.old) (K.faults sink.new) result }
{
    let mut terminal = begin(alloc, lane);
    converse(alloc, &mut terminal, source, sink)
}

/// Answers the document of a terminal: with its dialogues, or with the document's fault.
fn serve_document<S: Source, K: Sink>(
    alloc: Global,
    bytes: &[u8],
    source: &mut S,
    sink: &mut K,
) -> Status
    ensures ends { EndsDocument terminal_programme bytes.now
        (record { first = S.left source.old; left = S.left source.new; before = K.held sink.old; held = K.held sink.new }) result }
    ensures source { TalkSourceCount (S.faults source.old) (S.faults source.new) result }
    ensures sink { TalkSinkCount (K.faults sink.old) (K.faults sink.new) result }
{
    match read_terminal(alloc, bytes) {
        Ok(lane) => serve_terminal(alloc, &lane, source, sink),
        Err(fault) => refuse(alloc, &fault, sink),
    }
}

/// Holds the dialogues of the terminal that the source begins with: a line `document N`, N bytes of a TOML document with
/// `pin_key` and `lane`, and then the replies, line by line. Gives the status.
pub fn run<S: Source, K: Sink>(alloc: Global, source: &mut S, sink: &mut K) -> Status
    // Which lines were read, and how far what is asked and told was written, by the status.
    ensures served { Served terminal_programme
        (record { first = S.left source.old; left = S.left source.new; before = K.held sink.old; held = K.held sink.new }) result }
    // Of a talk that is at its end, what was written and read is each purchase's whole dialogue, one behind the other.
    ensures traced { result ≡ status.Done
        → HadDialogues (record { first = S.left source.old; left = S.left source.new; before = K.held sink.old; held = K.held sink.new }) }
    // The counts of faults rise for what failed, and for nothing else.
    ensures source { TalkSourceCount (S.faults source.old) (S.faults source.new) result }
    ensures sink { TalkSinkCount (K.faults sink.old) (K.faults sink.new) result }
{
    match read_preamble(alloc, source) {
        Ok(Preamble::Document(bytes)) => serve_document(alloc, bytes.as_slice(), source, sink),
        Ok(Preamble::Other) => answer_other(sink),
        Err(ReadFault::Failed) => Status::SourceFailed,
        Err(ReadFault::OutOfMemory) => Status::OutOfMemory,
    }
}
