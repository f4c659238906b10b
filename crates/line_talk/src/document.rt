//! The document before the lines of a talk.
ghost use Rattle.std.specs.Prelude.{◌≡◌, IfOk, OnOk, IsErrOf};
ghost use Rattle.emv_ports.specs.Causes.{Rose};
ghost use Rattle.line_talk.specs.Preamble.{IsPreamble, IsDocumentOfLength, length_in};

use crate::line::{Came, LineText, read_line};
use crate::number::number_of;
use emv_ports::{Failed, ReadFault, Source, read_up_to};
use std::alloc::Global;

/// A document that is read has at most so many bytes.
pub const MOST_DOCUMENT: u32 = 4_194_304;

/// What stands before the lines of a talk.
#[derive(Drop)]
pub enum Preamble {
    /// A document's bytes, as many as its line says.
    Document(Vec<u8>),
    /// Another line, or fewer bytes.
    Other,
}

/// The length that a line says.
#[tactic(auto, unfolding(crate::specs::Preamble::length_in))]
fn length_in(line: &[u8]) -> Option<u32>
    ensures { result ≡ length_in line.now }
{
    match line.strip_prefix(b"document ") {
        Some(digits) => number_of(MOST_DOCUMENT, digits),
        None => None,
    }
}

/// A document of this length.
fn read_bytes<S: Source>(alloc: Global, source: &mut S, count: usize) -> Result<Preamble, ReadFault>
    ensures given { IfOk result (λ given. IsDocumentOfLength count (S.left source.old) (S.left source.new) given) }
    ensures calm { OnOk result (S.faults source.new ≡ S.faults source.old) }
    ensures failed { IsErrOf result ReadFault.Failed → Rose (S.faults source.old) (S.faults source.new) }
    ensures memory { IsErrOf result ReadFault.OutOfMemory → S.faults source.new ≡ S.faults source.old }
{
    match read_up_to(alloc, source, count) {
        Ok(bytes) => {
            if bytes.len() == count {
                Ok(Preamble::Document(bytes))
            } else {
                Ok(Preamble::Other)
            }
        }
        Err(fault) => Err(fault),
    }
}

/// Reads a line `document N`, and behind it N bytes, at most 4,194,304.
pub fn read_preamble<S: Source>(alloc: Global, source: &mut S) -> Result<Preamble, ReadFault>
    ensures given { IfOk result (λ given. IsPreamble (S.left source.old) (S.left source.new) given) }
    ensures calm { OnOk result (S.faults source.new ≡ S.faults source.old) }
    ensures failed { IsErrOf result ReadFault.Failed → Rose (S.faults source.old) (S.faults source.new) }
    ensures memory { IsErrOf result ReadFault.OutOfMemory → S.faults source.new ≡ S.faults source.old }
{
    let mut line = LineText::new();
    match read_line(source, &mut line) {
        Ok(Came::Line) => match length_in(line.as_slice()) {
            Some(count) => read_bytes(alloc, source, count as usize),
            None => Ok(Preamble::Other),
        },
        Ok(Came::End) => Ok(Preamble::Other),
        Ok(Came::Long) => Ok(Preamble::Other),
        Err(Failed) => Err(ReadFault::Failed),
    }
}
