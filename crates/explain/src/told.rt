//! The lines of a report as they come, each handed on with its words.
ghost use Rattle.std.specs.Prelude.{◌≡◌, ◌≢◌, ◌∷◌, ◌++◌, ◌≤◌, ◌||◌, ℕ, List, [], true, false, OnOk, OnErr, IfOk, if◌then◌else◌};
ghost use Rattle.std.specs.declared.option.Option.{Option};
ghost use Rattle.std.specs.Io.KnownBytes.{Appends};
ghost use Rattle.arrayvec.specs.ArrayVec.{array_vec_len};
ghost use Rattle.emv_ports.specs.Growth.{AppendsFront};
ghost use Rattle.narrator.specs.State.{seen_state};
ghost use Rattle.narrator.specs.Words.{Narrates, is_text_left};
ghost use Rattle.report_lines.specs.Lines.{AreWordLines};
ghost use Rattle.explain.specs.ReportSoFar.{IsReportSoFar, StopsBehind, StopsWithin, TakesBytes, TellingWasStopped, Ended, HasToldStop, way_in, stand_of};
ghost use Rattle.explain.specs.ToldLines.{rest_behind_lines};

use arrayvec::ArrayVec;
use emv_ports::{Failed, Sink, write_all};
use narrator::Narrator;
use report_lines::WordLines;
use std::alloc::AllocError;

/// Why the lines stop before their end.
#[derive(Clone, Copy, PartialEq, Eq, Debug)]
pub enum Stop {
    /// The sink failed.
    Sink,
    /// There was no memory.
    OutOfMemory,
}

/// The most bytes of a line that is told in words.
const MOST: usize = 8192;

/// The line that is coming, and the teller of its words.
#[derive(Drop)]
pub struct Teller {
    pub narrator: Narrator,
    pub words: WordLines,
    /// The bytes of the line that were not handed on.
    pub line: ArrayVec<u8, 8192>,
    /// Whether bytes of the line were handed on, since it is too long to be told.
    pub long: bool,
    /// Whether no filter is given.
    pub all: bool,
}

/// Hands a text to the sink.
fn put<K: Sink>(sink: &mut K, text: &[u8]) -> Result<(), Stop>
    ensures all { OnOk result (Appends (K.held sink.old) (K.held sink.new) text.now) }
    ensures front { OnErr result (AppendsFront (K.held sink.old) (K.held sink.new) text.now) }
    ensures stop { HasToldStop (K.faults sink.old) (K.faults sink.new) result }
{
    match write_all(sink, text) {
        Ok(()) => Ok(()),
        Err(Failed) => Err(Stop::Sink),
    }
}

/// Hands a text to the sink where no filter is given.
fn put_rest<K: Sink>(sink: &mut K, all: bool, text: &[u8]) -> Result<(), Stop>
    ensures all { OnOk result (Appends (K.held sink.old) (K.held sink.new) (rest_behind_lines all text.now)) }
    ensures front { OnErr result (AppendsFront (K.held sink.old) (K.held sink.new) (rest_behind_lines all text.now)) }
    ensures stop { HasToldStop (K.faults sink.old) (K.faults sink.new) result }
{
    if all { put(sink, text) } else { Ok(()) }
}

/// Hands a text and a newline to the sink.
fn put_line<K: Sink>(sink: &mut K, text: &[u8]) -> Result<(), Stop>
    ensures all { OnOk result (Appends (K.held sink.old) (K.held sink.new) (text.now ++ 10 ∷ [])) }
    ensures front { OnErr result (AppendsFront (K.held sink.old) (K.held sink.new) (text.now ++ 10 ∷ [])) }
    ensures stop { HasToldStop (K.faults sink.old) (K.faults sink.new) result }
{
    match put(sink, text) {
        Ok(()) => put(sink, b"\n"),
        Err(stop) => Err(stop),
    }
}

/// Hands a text and a newline to the sink where no filter is given.
fn put_end<K: Sink>(sink: &mut K, all: bool, text: &[u8]) -> Result<(), Stop>
    ensures all { OnOk result (Appends (K.held sink.old) (K.held sink.new) (rest_behind_lines all (text.now ++ 10 ∷ []))) }
    ensures front { OnErr result (AppendsFront (K.held sink.old) (K.held sink.new) (rest_behind_lines all (text.now ++ 10 ∷ []))) }
    ensures stop { HasToldStop (K.faults sink.old) (K.faults sink.new) result }
{
    if all { put_line(sink, text) } else { Ok(()) }
}

/// Hands a line and its words to the sink.
fn put_told<K: Sink>(sink: &mut K, text: &[u8], words: &[u8]) -> Result<(), Stop>
    ensures all { OnOk result (Appends (K.held sink.old) (K.held sink.new) ((text.now ++ 10 ∷ []) ++ words.now)) }
    ensures front { OnErr result (AppendsFront (K.held sink.old) (K.held sink.new) ((text.now ++ 10 ∷ []) ++ words.now)) }
    ensures stop { HasToldStop (K.faults sink.old) (K.faults sink.new) result }
{
    match put_line(sink, text) {
        Ok(()) => put(sink, words),
        Err(stop) => Err(stop),
    }
}

/// The same, where the line is left by the filters.
fn put_shown<K: Sink>(sink: &mut K, shown: bool, text: &[u8], words: &[u8]) -> Result<(), Stop>
    ensures all { OnOk result (Appends (K.held sink.old) (K.held sink.new) (if shown then (text.now ++ 10 ∷ []) ++ words.now else [])) }
    ensures front { OnErr result (AppendsFront (K.held sink.old) (K.held sink.new) (if shown then (text.now ++ 10 ∷ []) ++ words.now else [])) }
    ensures stop { HasToldStop (K.faults sink.old) (K.faults sink.new) result }
{
    if shown {
        put_told(sink, text, words)
    } else {
        Ok(())
    }
}

/// Makes room for a byte of the line, which comes next: where the line is too long with it, what came of it is handed on.
fn make_room<K: Sink>(teller: &mut Teller, sink: &mut K) -> Result<(), Stop>
    ensures ok { OnOk result ((seen : List ℕ) (first : Option (List ℕ)) (byte : ℕ) → byte ≢ 10
        → IsReportSoFar (way_in teller.old) teller.old.line.items (stand_of teller.old) seen first (K.held sink.old)
        → IsReportSoFar (way_in teller.new) (teller.new.line.items ++ byte ∷ []) (stand_of teller.new) (seen ++ byte ∷ []) first (K.held sink.new)) }
    ensures front { OnErr result (AppendsFront (K.held sink.old) (K.held sink.new) (rest_behind_lines teller.old.all teller.old.line.items)) }
    ensures room { OnOk result (array_vec_len teller.new.line ≤ 8191) }
    ensures way { way_in teller.new ≡ way_in teller.old }
    ensures stop { HasToldStop (K.faults sink.old) (K.faults sink.new) result }
{
    if teller.line.len() < MOST {
        return Ok(());
    }
    match put_rest(sink, teller.all, teller.line.as_slice()) {
        Ok(()) => {
            teller.line.clear();
            teller.long = true;
            Ok(())
        }
        Err(stop) => Err(stop),
    }
}

/// TakesBytes a byte of the line.
fn take_inner<K: Sink>(teller: &mut Teller, byte: u8, sink: &mut K) -> Result<(), Stop>
    requires { byte ≢ 10 }
    ensures ok { OnOk result (TakesBytes teller.old teller.new (byte ∷ []) (K.held sink.old) (K.held sink.new)) }
    ensures err { OnErr result (StopsBehind teller.old (byte ∷ []) (K.held sink.old) (K.held sink.new)) }
    ensures way { way_in teller.new ≡ way_in teller.old }
    ensures stop { HasToldStop (K.faults sink.old) (K.faults sink.new) result }
{
    match make_room(teller, sink) {
        Ok(()) => {
            teller.line.push(byte);
            Ok(())
        }
        Err(stop) => Err(stop),
    }
}

/// Ends a line that is too long to be told.
fn end_long<K: Sink>(teller: &mut Teller, sink: &mut K) -> Result<(), Stop>
    requires { teller.old.long ≡ true }
    ensures ok { OnOk result (TakesBytes teller.old teller.new (10 ∷ []) (K.held sink.old) (K.held sink.new)) }
    ensures err { OnErr result (StopsBehind teller.old (10 ∷ []) (K.held sink.old) (K.held sink.new)) }
    ensures way { way_in teller.new ≡ way_in teller.old }
    ensures stop { HasToldStop (K.faults sink.old) (K.faults sink.new) result }
{
    match put_end(sink, teller.all, teller.line.as_slice()) {
        Ok(()) => {
            teller.line.clear();
            teller.long = false;
            Ok(())
        }
        Err(stop) => Err(stop),
    }
}

/// The words of the line that has come, and whether it is left by the filters.
fn tell(teller: &mut Teller) -> Result<bool, AllocError>
    ensures words { OnOk result (AreWordLines teller.new.words.made.bytes) }
    ensures made { OnOk result (Narrates (way_in teller.old).manner teller.old.line.items (seen_state teller.old.narrator) teller.new.words.made.bytes (seen_state teller.new.narrator)) }
    ensures kept { IfOk result (λ shown. shown ≡ false → teller.old.all ≡ false) }
    ensures left { IfOk result (λ shown. shown ≡ (is_text_left (way_in teller.old).manner.filter (seen_state teller.old.narrator) teller.old.line.items || teller.old.all)) }
    ensures line { teller.new.line.items ≡ teller.old.line.items }
    ensures long { teller.new.long ≡ teller.old.long }
    ensures way { way_in teller.new ≡ way_in teller.old }
{
    match teller
        .narrator
        .tell(teller.line.as_slice(), &mut teller.words)
    {
        Ok(shown) => Ok(shown || teller.all),
        Err(AllocError) => Err(AllocError),
    }
}

/// Ends a line, and hands it on with its words.
fn end_short<K: Sink>(teller: &mut Teller, sink: &mut K) -> Result<(), Stop>
    requires { teller.old.long ≡ false }
    ensures ok { OnOk result (TakesBytes teller.old teller.new (10 ∷ []) (K.held sink.old) (K.held sink.new)) }
    ensures err { OnErr result (StopsWithin teller.old (10 ∷ []) (K.held sink.old) (K.held sink.new)) }
    ensures way { way_in teller.new ≡ way_in teller.old }
    ensures stop { HasToldStop (K.faults sink.old) (K.faults sink.new) result }
{
    let shown = match tell(teller) {
        Ok(shown) => shown,
        Err(AllocError) => return Err(Stop::OutOfMemory),
    };
    match put_shown(sink, shown, teller.line.as_slice(), teller.words.as_slice()) {
        Ok(()) => {
            teller.line.clear();
            Ok(())
        }
        Err(stop) => Err(stop),
    }
}

/// TakesBytes a byte of the report.
fn take_byte<K: Sink>(teller: &mut Teller, byte: u8, sink: &mut K) -> Result<(), Stop>
    ensures ok { OnOk result (TakesBytes teller.old teller.new (byte ∷ []) (K.held sink.old) (K.held sink.new)) }
    ensures err { OnErr result (StopsWithin teller.old (byte ∷ []) (K.held sink.old) (K.held sink.new)) }
    ensures way { way_in teller.new ≡ way_in teller.old }
    ensures stop { HasToldStop (K.faults sink.old) (K.faults sink.new) result }
{
    if byte != b'\n' {
        take_inner(teller, byte, sink)
    } else if teller.long {
        end_long(teller, sink)
    } else {
        end_short(teller, sink)
    }
}

/// TakesBytes bytes of the report.
pub fn take_bytes<K: Sink>(teller: &mut Teller, bytes: &[u8], sink: &mut K) -> Result<(), Stop>
    ensures ok { OnOk result (TakesBytes teller.old teller.new bytes.now (K.held sink.old) (K.held sink.new)) }
    ensures err { OnErr result (StopsWithin teller.old bytes.now (K.held sink.old) (K.held sink.new)) }
    ensures way { way_in teller.new ≡ way_in teller.old }
    ensures stop { HasToldStop (K.faults sink.old) (K.faults sink.new) result }
{
    for byte in bytes {
        match take_byte(teller, *byte, sink) {
            Ok(()) => {}
            Err(stop) => return Err(stop),
        }
    }
    Ok(())
}

/// Hands on what stands behind the last newline.
pub fn end<K: Sink>(teller: &mut Teller, sink: &mut K) -> Result<(), Stop>
    ensures ok { OnOk result ((seen : List ℕ) (first : Option (List ℕ)) → IsReportSoFar (way_in teller.old) teller.old.line.items (stand_of teller.old) seen first (K.held sink.old)
        → Ended (way_in teller.old) seen first (K.held sink.new)) }
    ensures err { OnErr result ((seen : List ℕ) (first : Option (List ℕ)) → IsReportSoFar (way_in teller.old) teller.old.line.items (stand_of teller.old) seen first (K.held sink.old)
        → TellingWasStopped (way_in teller.old) seen first (K.held sink.new)) }
    ensures stop { HasToldStop (K.faults sink.old) (K.faults sink.new) result }
{
    put_rest(sink, teller.all, teller.line.as_slice())
}
