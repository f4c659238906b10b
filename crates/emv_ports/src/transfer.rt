//! A source that is read to its end, and a text that is written whole.
ghost use Rattle.std.specs.Prelude.{◌≡◌, ◌<◌, ◌^◌, IfOk, OnOk, OnErr, IsErrOf};
ghost use Rattle.std.specs.Io.KnownBytes.{Appends};
ghost use Rattle.emv_ports.specs.Causes.{Rose, HasCause};
ghost use Rattle.emv_ports.specs.Growth.{AppendsFront};
ghost use Rattle.emv_ports.specs.Reading.{ReadsUpTo};

use crate::{Failed, Sink, Source};
use std::alloc::{AllocError, Global};

const CHUNK: usize = 4096;

/// Why a source could not be read to its end.
#[derive(Clone, Copy, PartialEq, Eq, Debug)]
pub enum ReadFault {
    /// The source failed.
    Failed,
    /// There was no memory for what it gave.
    OutOfMemory,
}

/// Reads a source to its end, or up to `most` bytes, whichever comes first. Of what a failed read
/// leaves in the source nothing is said.
pub fn read_up_to<S: Source>(
    alloc: Global,
    source: &mut S,
    most: usize,
) -> Result<Vec<u8>, ReadFault>
    ensures whole { IfOk result (λ bytes. ReadsUpTo most (S.left source.old) (S.left source.new) bytes.items) }
    ensures calm { OnOk result (S.faults source.new ≡ S.faults source.old) }
    ensures failed { IsErrOf result ReadFault.Failed → Rose (S.faults source.old) (S.faults source.new) }
    ensures memory { IsErrOf result ReadFault.OutOfMemory → S.faults source.new ≡ S.faults source.old }
{
    let mut bytes = Vec::new(alloc);
    let mut chunk = [0u8; CHUNK];
    while bytes.len() < most {
        let room = (most - bytes.len()).min(CHUNK);
        match source.read(&mut chunk[..room]) {
            Ok(0) => return Ok(bytes),
            Ok(count) => {
                if bytes.extend_from_slice(&chunk[..count]).is_err() {
                    return Err(ReadFault::OutOfMemory);
                }
            }
            Err(Failed) => return Err(ReadFault::Failed),
        }
    }
    Ok(bytes)
}

/// Hands a text to a sink in one piece, and the rest again where only a prefix was taken.
pub fn write_all<K: Sink>(sink: &mut K, text: &[u8]) -> Result<(), Failed>
    ensures all { OnOk result (Appends (K.held sink.old) (K.held sink.new) text.now) }
    ensures front { OnErr result (AppendsFront (K.held sink.old) (K.held sink.new) text.now) }
    ensures cause { HasCause (K.faults sink.old) (K.faults sink.new) result }
{
    let mut done = 0;
    while done < text.len() {
        match sink.write(&text[done..]) {
            Ok(count) => done += count,
            Err(Failed) => return Err(Failed),
        }
    }
    Ok(())
}
