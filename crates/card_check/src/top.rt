//! The top call.
ghost use Rattle.std.specs.Prelude.{◌≡◌, ◌≢◌, ◌+◌, ℕ, List, [], map, string_bytes};
ghost use Rattle.std.specs.declared.option.Option.{Option};
ghost use Rattle.card_check.specs.Top.{CardCheckEnds, JudgesDocument, card_check_usage};
ghost use Rattle.emv_ports.specs.Reading.{ReadsUpTo};
ghost use Rattle.line_talk.specs.Talk.{TalkSinkCount, TalkSourceCount};
ghost use Rattle.scenario.specs.declared.read.TheConstants.{MOST_BYTES as most_bytes};

use crate::verdicts::verdicts;
use emv_ports::{ReadFault, Sink, Source, read_up_to};
use line_talk::{Status, refuse, write_last};
use scenario::{MOST_BYTES, read_scenario};
use std::alloc::Global;

/// What answers any words.
const USAGE: &[u8] = b"usage: card_check\n";

/// Answers a document.
fn answer<K: Sink>(alloc: Global, bytes: &[u8], sink: &mut K) -> Status
    ensures judges { (first left : Option (List ℕ)) → ReadsUpTo (most_bytes + 1) first left bytes.now
        → JudgesDocument (record { first = first; left = left; before = K.held sink.old; held = K.held sink.new }) result }
    ensures source { (count : ℕ) → TalkSourceCount count count result }
    ensures sink { TalkSinkCount (K.faults sink.old) (K.faults sink.new) result }
{
    match read_scenario(alloc, bytes) {
        Ok(scenario) => match verdicts(alloc, &scenario) {
            Ok(text) => write_last(sink, text.as_slice(), Status::Done),
            Err(_) => Status::OutOfMemory,
        },
        Err(fault) => refuse(alloc, &fault, sink),
    }
}

/// Judges the cards of a scenario: the source gives its document, and the sink gets a line for each purchase. Any word is
/// one too many. Gives the status.
#[tactic(auto, unfolding(crate::specs::Top::card_check_usage))]
pub fn run<S: Source, K: Sink>(
    alloc: Global,
    words: &[String],
    source: &mut S,
    sink: &mut K,
) -> Status
    // What was read, and what was written of the answer, by the status.
    ensures ends { CardCheckEnds (map string_bytes words.now)
        (record { first = S.left source.old; left = S.left source.new; before = K.held sink.old; held = K.held sink.new }) result }
    // With words the source is left as it is.
    ensures unread { words.now ≢ [] → source.new ≡ source.old }
    // The counts of faults rise for what failed, and for nothing else.
    ensures source { TalkSourceCount (S.faults source.old) (S.faults source.new) result }
    ensures sink { TalkSinkCount (K.faults sink.old) (K.faults sink.new) result }
{
    if !words.is_empty() {
        return write_last(sink, USAGE, Status::Unserved);
    }
    match read_up_to(alloc, source, MOST_BYTES + 1) {
        Ok(bytes) => answer(alloc, bytes.as_slice(), sink),
        Err(ReadFault::Failed) => Status::SourceFailed,
        Err(ReadFault::OutOfMemory) => Status::OutOfMemory,
    }
}
