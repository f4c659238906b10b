//! The talk of a party: each line is answered before the next one is read.
ghost use Rattle.std.specs.Prelude.{◌≡◌, ◌+◌, ◌≤◌, [], ℕ, List, IfOk, IfErr, length};
ghost use Rattle.std.specs.declared.option.Option.{Option};
ghost use Rattle.scenario_fields.specs.Line.{refused_line};
ghost use Rattle.line_talk.specs.Coming.{Comes};
ghost use Rattle.line_talk.specs.SoFar.{IsTalkSoFar, SinkStep, SourceStep};
ghost use Rattle.line_talk.specs.Talk.{TalkSinkCount, TalkSourceCount, TalkEnds, WritesFault, WritesLast, other_line};
ghost use Rattle.line_talk.specs.Turns.{GoesOn, IsSameParty, Turn, onward_behind};
ghost use Rattle.line_talk.specs.declared.line.Came.TheVariants as came;
ghost use Rattle.line_talk.specs.declared.status.Status.TheVariants as status;

use crate::line::{Came, LineText, read_line};
use crate::party::{Onward, Party};
use crate::status::Status;
use emv_ports::{Failed, Sink, Source, write_all};
use scenario_fields::ScenarioFault;
use std::alloc::{AllocError, Global};

/// Writes a last text, which is answered with this status.
pub fn write_last<K: Sink>(sink: &mut K, text: &[u8], wanted: Status) -> Status
    requires calm { (count : ℕ) → TalkSourceCount count count wanted × TalkSinkCount count count wanted }
    ensures told { WritesLast wanted result (K.held sink.old) (K.held sink.new) text.now }
    ensures source { (count : ℕ) → TalkSourceCount count count result }
    ensures count { TalkSinkCount (K.faults sink.old) (K.faults sink.new) result }
{
    match write_all(sink, text) {
        Ok(()) => wanted,
        Err(Failed) => Status::SinkFailed,
    }
}

/// Answers what is no line of a talk.
pub fn answer_other<K: Sink>(sink: &mut K) -> Status
    ensures told { WritesLast status.Unserved result (K.held sink.old) (K.held sink.new) other_line }
    ensures source { (count : ℕ) → TalkSourceCount count count result }
    ensures count { TalkSinkCount (K.faults sink.old) (K.faults sink.new) result }
{
    write_last(sink, b"?\n", Status::Unserved)
}

/// Tells the fault of a document.
pub fn refuse<K: Sink>(alloc: Global, fault: &ScenarioFault, sink: &mut K) -> Status
    ensures told { WritesFault (refused_line fault.now) result (K.held sink.old) (K.held sink.new) }
    ensures source { (count : ℕ) → TalkSourceCount count count result }
    ensures count { TalkSinkCount (K.faults sink.old) (K.faults sink.new) result }
{
    match fault.line(alloc) {
        Ok(line) => write_last(sink, line.as_bytes(), Status::Refused),
        Err(_) => Status::OutOfMemory,
    }
}

/// Answers a line.
fn answer<T: Party, K: Sink>(
    alloc: Global,
    party: &mut T,
    line: &[u8],
    sink: &mut K,
) -> Result<Onward, Status>
    requires stands { (turns : List Turn) × T.stands party.old turns × GoesOn (onward_behind (T.opening party.old).onward turns) }
    requires short { length line.now ≤ 8191 }
    ensures goes { IfOk result (λ then. (onward : Onward) (count : ℕ) (first left later before : Option (List ℕ))
        → GoesOn onward → IsTalkSoFar (T.stands party.old) (T.opening party.old) onward count first left before (K.held sink.old) → Comes came.Line left later line.now
        → IsTalkSoFar (T.stands party.new) (T.opening party.old) then (count + 1) first later before (K.held sink.new)) }
    ensures ends { IfErr result (λ status. (onward : Onward) (count : ℕ) (first left later before : Option (List ℕ))
        → GoesOn onward → IsTalkSoFar (T.stands party.old) (T.opening party.old) onward count first left before (K.held sink.old) → Comes came.Line left later line.now
        → TalkEnds (T.talks party.old) (T.opening party.old) (record { first = first; left = later; before = before; held = K.held sink.new }) status) }
    ensures same { IsSameParty (T.opening party.old) (T.opening party.new) (T.talks party.old) (T.talks party.new) }
    ensures source { (count : ℕ) → SourceStep count count result }
    ensures sink { SinkStep (K.faults sink.old) (K.faults sink.new) result }
{
    let mut text = Vec::new(alloc);
    match party.answer(alloc, line, &mut text) {
        Ok(onward) => match write_all(sink, text.as_slice()) {
            Ok(()) => Ok(onward),
            Err(Failed) => Err(Status::SinkFailed),
        },
        Err(AllocError) => Err(Status::OutOfMemory),
    }
}

/// Reads a line and answers it, where one may follow.
fn exchange<T: Party, S: Source, K: Sink>(
    alloc: Global,
    party: &mut T,
    onward: Onward,
    source: &mut S,
    sink: &mut K,
) -> Result<Onward, Status>
    requires stands { (turns : List Turn) × T.stands party.old turns × (onward_behind (T.opening party.old).onward turns ≡ onward) }
    ensures goes { IfOk result (λ then. (count : ℕ) (first before : Option (List ℕ))
        → IsTalkSoFar (T.stands party.old) (T.opening party.old) onward count first (S.left source.old) before (K.held sink.old)
        → IsTalkSoFar (T.stands party.new) (T.opening party.old) then (count + 1) first (S.left source.new) before (K.held sink.new)) }
    ensures ends { IfErr result (λ status. (count : ℕ) (first before : Option (List ℕ))
        → IsTalkSoFar (T.stands party.old) (T.opening party.old) onward count first (S.left source.old) before (K.held sink.old)
        → TalkEnds (T.talks party.old) (T.opening party.old) (record { first = first; left = S.left source.new; before = before; held = K.held sink.new }) status) }
    ensures same { IsSameParty (T.opening party.old) (T.opening party.new) (T.talks party.old) (T.talks party.new) }
    ensures source { SourceStep (S.faults source.old) (S.faults source.new) result }
    ensures sink { SinkStep (K.faults sink.old) (K.faults sink.new) result }
{
    match onward {
        Onward::Over => return Err(Status::Done),
        Onward::Stuck => return Err(Status::Unserved),
        Onward::Awaits => {}
        Onward::Rests => {}
    }
    let mut line = LineText::new();
    match read_line(source, &mut line) {
        Ok(Came::Line) => answer(alloc, party, line.as_slice(), sink),
        Ok(Came::End) => {
            if onward.may_end() {
                Err(Status::Done)
            } else {
                Err(answer_other(sink))
            }
        }
        Ok(Came::Long) => Err(answer_other(sink)),
        Err(Failed) => Err(Status::SourceFailed),
    }
}

/// Has the talk of a party that has said nothing yet: it says what it says first, and then answers each line before the
/// next one is read, up to the end of the talk. Gives the status that it ends with.
pub fn converse<T: Party, S: Source, K: Sink>(
    alloc: Global,
    party: &mut T,
    source: &mut S,
    sink: &mut K,
) -> Status
    requires begun { T.stands party.old [] }
    ensures ends { TalkEnds (T.talks party.old) (T.opening party.old)
        (record { first = S.left source.old; left = S.left source.new; before = K.held sink.old; held = K.held sink.new }) result }
    ensures source { TalkSourceCount (S.faults source.old) (S.faults source.new) result }
    ensures sink { TalkSinkCount (K.faults sink.old) (K.faults sink.new) result }
{
    let mut text = LineText::new();
    let mut onward = party.open(&mut text);
    match write_all(sink, text.as_slice()) {
        Ok(()) => {}
        Err(Failed) => return Status::SinkFailed,
    }
    for _line in 0..u64::MAX {
        match exchange(alloc, party, onward, source, sink) {
            Ok(then) => onward = then,
            Err(status) => return status,
        }
    }
    answer_other(sink)
}
