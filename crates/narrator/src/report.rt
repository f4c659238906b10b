//! Lines of no lane and no card in words.
ghost use Rattle.std.specs.Prelude.{◌≡◌, OnOk, option_map};
ghost use Rattle.narrator.specs.Words as spec;
ghost use Rattle.ending_words.specs.Endings as endings;
ghost use Rattle.report_lines.specs.Bytes.{bytes_told};
ghost use Rattle.report_lines.specs.Reading.{seen_what};
ghost use Rattle.report_lines.specs.Pieces.{Tells};

use crate::phrases::{OR_MISSING, TRACE_DIFFERS};
use ber_tlv::Tag;
use ending_words::{hex_number, tell_break};
use object_words::{Object, Style, tell_object};
use report_lines::{What, WordLines, bytes_of, word_of};
use std::alloc::{AllocError, Global};
use value_words::REFUSALS;

/// Tells an object that a card gave.
fn tell_given_object(
    out: &mut WordLines,
    alloc: Global,
    tag: &[u8],
    value: &[u8],
) -> Result<(), AllocError>
    ensures { OnOk result (Tells out.old out.new (spec.of_object (endings.hex_number tag.now) (bytes_told value.now))) }
{
    let Some(number) = hex_number(tag) else {
        return Ok(());
    };
    if let Some(bytes) = bytes_of(alloc, value)? {
        let object = Object {
            tag: Tag((number % 0x100_0000) as u32),
            value: bytes.as_slice(),
        };
        tell_object(out, &object, &Style::plain(1));
    }
    Ok(())
}

/// The words of a fault of a scenario, by its number.
fn refusal_word(fault: u32) -> Option<&'static [u8]>
    ensures { option_map (λ word. word.now) result ≡ spec.refusal_word fault }
{
    word_of(&REFUSALS, fault)
}

/// Tells the fault of a refused scenario.
fn tell_refusal(out: &mut WordLines, fault: u64)
    ensures { Tells out.old out.new (spec.refusal_words fault) }
{
    if let Some(word) = refusal_word((fault % 65536) as u32) {
        out.line(1);
        out.text(word);
    }
}

/// Tells from which entry on a trace is another one.
fn tell_differs(out: &mut WordLines, entry: u64)
    ensures { Tells out.old out.new (spec.differs_words entry) }
{
    out.line(1);
    out.text(TRACE_DIFFERS);
    out.number(entry);
    out.text(OR_MISSING);
}

/// Tells a line of no lane and no card.
pub(crate) fn tell_of_report(
    out: &mut WordLines,
    alloc: Global,
    what: &What<'_>,
    brief: bool,
) -> Result<(), AllocError>
    ensures { OnOk result (Tells out.old out.new (spec.report_words brief (seen_what what.now))) }
{
    match what {
        What::Object { tag, value } => {
            if brief {
                return Ok(());
            }
            tell_given_object(out, alloc, tag, value)
        }
        What::ReadEnded(ending) => {
            tell_break(out, ending);
            Ok(())
        }
        What::Refused(number) => {
            tell_refusal(out, *number);
            Ok(())
        }
        What::Differs(number) => {
            tell_differs(out, *number);
            Ok(())
        }
        _ => Ok(()),
    }
}
