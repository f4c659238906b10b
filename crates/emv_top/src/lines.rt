//! The lines of a report, handed to the sink one by one.
ghost use Rattle.std.specs.Prelude.{◌≡◌, []};
ghost use Rattle.std.specs.List.{flat_map};
ghost use Rattle.report_text.specs.Text.{line_text};
ghost use Rattle.txn_replay.specs.Reading.{without_end};
ghost use Rattle.emv_top.specs.Stops.{Emits};
ghost use Rattle.emv_top.specs.Texts.{text_of_lines};

use crate::stop::Stop;
use emv_ports::{Failed, Sink, write_all};
use report_text::{Line, LineAt, Text, write_line, write_packed};
use txn_replay::Lines;

/// Where the lines of an event and the text of a line are made: one for a whole run.
#[derive(Drop)]
pub struct EventBuffers {
    pub lines: Lines,
    pub text: Text,
}

impl EventBuffers {
    /// Room that holds nothing.
    pub fn new() -> EventBuffers
        ensures { result.lines.items ≡ [] }
    {
        EventBuffers {
            lines: Lines::new(),
            text: Text::new(),
        }
    }
}

/// Hands a line's text to the sink, in one piece.
fn hand_over<K: Sink>(text: &Text, sink: &mut K) -> Result<(), Stop>
    ensures { Emits text.now.items (K.held sink.old) (K.held sink.new) (K.faults sink.old) (K.faults sink.new) result }
{
    match write_all(sink, text.as_slice()) {
        Ok(()) => Ok(()),
        Err(Failed) => Err(Stop::Sink),
    }
}

/// Hands a line to the sink.
pub fn emit<K: Sink>(line: &Line, text: &mut Text, sink: &mut K) -> Result<(), Stop>
    ensures { Emits (line_text line.now) (K.held sink.old) (K.held sink.new) (K.faults sink.old) (K.faults sink.new) result }
{
    write_line(line, text);
    hand_over(text, sink)
}

/// Hands a line of an event to the sink.
fn emit_packed<K: Sink>(line: &LineAt<'_>, text: &mut Text, sink: &mut K) -> Result<(), Stop>
    ensures { Emits (line_text line.now) (K.held sink.old) (K.held sink.new) (K.faults sink.old) (K.faults sink.new) result }
{
    write_packed(line, text);
    hand_over(text, sink)
}

/// Hands the lines of an event to the sink.
pub fn write_lines<K: Sink>(lines: &Lines, text: &mut Text, sink: &mut K) -> Result<(), Stop>
    ensures { Emits (text_of_lines lines.now.items) (K.held sink.old) (K.held sink.new) (K.faults sink.old) (K.faults sink.new) result }
{
    let mut left = lines.left();
    while let Some(line) = left.next() {
        match emit_packed(&line, text, sink) {
            Ok(()) => {}
            Err(stop) => return Err(stop),
        }
    }
    Ok(())
}

/// Hands a line of an event to the sink that a reading shows: all but an end line.
fn emit_shown<K: Sink>(line: &LineAt<'_>, text: &mut Text, sink: &mut K) -> Result<(), Stop>
    ensures { Emits (text_of_lines (without_end line.now)) (K.held sink.old) (K.held sink.new) (K.faults sink.old) (K.faults sink.new) result }
{
    if line.is_end() {
        return Ok(());
    }
    emit_packed(line, text, sink)
}

/// Hands the lines of an event to the sink that a reading shows.
pub fn write_shown<K: Sink>(lines: &Lines, text: &mut Text, sink: &mut K) -> Result<(), Stop>
    ensures { Emits (text_of_lines (flat_map without_end lines.now.items)) (K.held sink.old) (K.held sink.new) (K.faults sink.old) (K.faults sink.new) result }
{
    let mut left = lines.left();
    while let Some(line) = left.next() {
        match emit_shown(&line, text, sink) {
            Ok(()) => {}
            Err(stop) => return Err(stop),
        }
    }
    Ok(())
}
