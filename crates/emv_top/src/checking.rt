//! The verdict on a trace, or its document's first fault.
ghost use Rattle.std.specs.Prelude.{◌≡◌, OnOk, OnErr};
ghost use Rattle.std.specs.Io.KnownBytes.{Appends};
ghost use Rattle.emv_ports.specs.Causes.{HasCause};
ghost use Rattle.emv_ports.specs.Growth.{AppendsFront};
ghost use Rattle.emv_top.specs.Answers.{Unbegun};
ghost use Rattle.emv_top.specs.Checking.{Checks, ChecksRead, TellsVerdict, verdict_line};
ghost use Rattle.emv_top.specs.StatusCode.{Concludes, FaultCounts};
ghost use Rattle.emv_top.specs.declared.status.Status.{Status};

use crate::bank::BlankBank;
use crate::ended::{Ended, refuse, unbegun};
use crate::status::Status;
use emv_ports::{Failed, Pages, ReadFault, Sink, Source, read_up_to, write_all};
use report_text::Text;
use report_text::pieces::{append, number};
use std::alloc::Global;
use trace_check::read::MOST_BYTES;
use trace_check::{Verdict, check, read_trace};

/// The line of a verdict.
fn write_verdict(verdict: Verdict, out: &mut Text)
    ensures { out.new.items ≡ verdict_line verdict }
{
    out.clear();
    match verdict {
        Verdict::Same => append(out, b"check ok\n"),
        Verdict::Differs(at) => {
            append(out, b"check differs ");
            number(out, u64::from(at));
            append(out, b"\n");
        }
    }
}

/// Hands the line of a verdict to the sink.
fn emit_verdict<K: Sink>(verdict: Verdict, sink: &mut K) -> Result<(), Failed>
    ensures all { OnOk result (Appends (K.held sink.old) (K.held sink.new) (verdict_line verdict)) }
    ensures front { OnErr result (AppendsFront (K.held sink.old) (K.held sink.new) (verdict_line verdict)) }
    ensures cause { HasCause (K.faults sink.old) (K.faults sink.new) result }
{
    let mut text = Text::new();
    write_verdict(verdict, &mut text);
    write_all(sink, text.as_slice())
}

/// The line of a verdict, and the end of the program.
fn tell_verdict<P: Pages, K: Sink>(verdict: Verdict, bank: BlankBank<P>, sink: &mut K) -> Ended<P>
    ensures tells { Concludes (TellsVerdict verdict (K.held sink.old) (K.held sink.new)) (K.faults sink.old) (K.faults sink.new) result.status }
    ensures unbegun { Unbegun result.bank result.tally }
{
    match emit_verdict(verdict, sink) {
        Ok(()) => unbegun(Status::Done, bank),
        Err(Failed) => unbegun(Status::WriteFault, bank),
    }
}

/// The answer to the bytes of a trace.
fn check_bytes<P: Pages, K: Sink>(
    alloc: Global,
    bytes: &[u8],
    bank: BlankBank<P>,
    sink: &mut K,
) -> Ended<P>
    ensures checks { Concludes (Checks bytes.now (K.held sink.old) (K.held sink.new)) (K.faults sink.old) (K.faults sink.new) result.status }
    ensures unbegun { Unbegun result.bank result.tally }
{
    match read_trace(alloc, bytes) {
        Ok(trace) => tell_verdict(check(&trace), bank, sink),
        Err(fault) => refuse(alloc, &fault, bank, sink),
    }
}

/// Reads a trace from the source, and answers it. No card takes part.
pub fn check_source<P: Pages, S: Source, K: Sink>(
    alloc: Global,
    bank: BlankBank<P>,
    source: &mut S,
    sink: &mut K,
) -> Ended<P>
    ensures checks { ChecksRead (S.left source.old) (S.left source.new) (K.held sink.old) (K.held sink.new) result.status }
    ensures unbegun { Unbegun result.bank result.tally }
    ensures unwritten { result.status ≡ Status.ReadFault → sink.new ≡ sink.old }
    ensures counts { FaultCounts (S.faults source.old) (S.faults source.new) (K.faults sink.old) (K.faults sink.new) result.status }
{
    match read_up_to(alloc, source, MOST_BYTES + 1) {
        Ok(bytes) => check_bytes(alloc, bytes.as_slice(), bank, sink),
        Err(ReadFault::Failed) => unbegun(Status::ReadFault, bank),
        Err(ReadFault::OutOfMemory) => unbegun(Status::OutOfMemory, bank),
    }
}
