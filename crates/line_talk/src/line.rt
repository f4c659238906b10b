//! The next line of a talk.
ghost use Rattle.std.specs.Prelude.{◌≡◌, ℕ, List, [], OnOk, OnErr, IfOk};
ghost use Rattle.std.specs.declared.option.Option.{Option};
ghost use Rattle.emv_ports.specs.Causes.{HasCause};
ghost use Rattle.line_talk.specs.Coming.{IsLineBegun, Comes, Gets};

use arrayvec::ArrayVec;
use emv_ports::{Failed, Source};

/// A line that is read has fewer bytes than this, without its newline.
pub const MOST: usize = 8192;

/// The bytes of a line.
pub type LineText = ArrayVec<u8, 8192>;

/// What came from a source.
#[derive(Clone, Copy, PartialEq, Eq, Debug)]
pub enum Came {
    /// A line, with its newline.
    Line,
    /// The end, without another newline.
    End,
    /// 8,192 bytes without a newline, of which nothing more is read.
    Long,
}

/// The next byte, where one is left.
fn read_byte<S: Source>(source: &mut S) -> Result<Option<u8>, Failed>
    ensures gets { IfOk result (λ got. Gets got (S.left source.old) (S.left source.new)) }
    ensures cause { HasCause (S.faults source.old) (S.faults source.new) result }
{
    let mut one = [0u8; 1];
    match source.read(&mut one) {
        Ok(0) => Ok(None),
        Ok(_) => Ok(Some(one[0])),
        Err(Failed) => Err(Failed),
    }
}

/// Reads the next line, and no byte behind its newline, into `line` in place of what it held. It is read byte by
/// byte: whoever waits for the answer to a line has not written the next one.
pub fn read_line<S: Source>(source: &mut S, line: &mut LineText) -> Result<Came, Failed>
    ensures comes { IfOk result (λ came. Comes came (S.left source.old) (S.left source.new) line.new.items) }
    // Where the source fails, the line has what it had given of one.
    ensures begun { OnErr result ((later : Option (List ℕ)) × IsLineBegun (S.left source.old) later line.new.items) }
    ensures cause { HasCause (S.faults source.old) (S.faults source.new) result }
{
    line.clear();
    while line.len() < MOST {
        match read_byte(source) {
            Ok(Some(byte)) => {
                if byte == b'\n' {
                    return Ok(Came::Line);
                }
                line.push(byte);
            }
            Ok(None) => return Ok(Came::End),
            Err(Failed) => return Err(Failed),
        }
    }
    Ok(Came::Long)
}
