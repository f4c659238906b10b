//! Statuses in words (EMV 4.3 Book 3 sections 6.3.5 and 6.5).
ghost use Rattle.std.specs.Prelude.{◌≡◌, option_map};
ghost use Rattle.value_words.specs.Statuses as spec;
ghost use Rattle.report_lines.specs.Pieces.{Tells};

use crate::codes::{ANSWERS, STATUSES};
use crate::phrases::WRONG_PIN;
use apdu_core::status::counter_in as tries_in;
use report_lines::{TRIES_LEFT, WordLines, status_reference, word_of};

/// The tries that a status of VERIFY leaves; `None` where it is another command's, or tells none.
fn tries_left(instruction: u8, status: u16) -> Option<u8>
    ensures { result ≡ spec.tries_in instruction status }
{
    if instruction == 0x20 {
        tries_in(status)
    } else {
        None
    }
}

/// The words of a status of any command.
fn status_word(status: u32) -> Option<&'static [u8]>
    ensures { option_map (λ word. word.now) result ≡ spec.status_word status }
{
    word_of(&STATUSES, status)
}

/// The words of a status of one command: the instruction, then the status.
fn answer_word(code: u32) -> Option<&'static [u8]>
    ensures { option_map (λ word. word.now) result ≡ spec.answer_word code }
{
    word_of(&ANSWERS, code)
}

/// Tells a status that has no words of its own for its command.
fn tell_other_status(out: &mut WordLines, instruction: u8, status: u16)
    ensures { Tells out.old out.new (spec.other_status_words status (spec.tries_in instruction status)) }
{
    match tries_left(instruction, status) {
        Some(left) => {
            out.text(WRONG_PIN);
            out.number(u64::from(left));
            out.reference(TRIES_LEFT);
        }
        None => match status_word(u32::from(status)) {
            Some(word) => out.text(word),
            None => out.text(b"not known"),
        },
    }
}

/// Tells the words of a status behind a command of this instruction, and where it stands.
pub fn tell_status(out: &mut WordLines, instruction: u8, status: u16)
    ensures { Tells out.old out.new (spec.status_words instruction status) }
{
    match answer_word(u32::from(instruction) * 65536 + u32::from(status)) {
        Some(word) => out.text(word),
        None => tell_other_status(out, instruction, status),
    }
    out.reference_of(status_reference(instruction, status));
}

/// Tells a status in a line of its own.
pub fn tell_status_line(out: &mut WordLines, instruction: u8, status: u16)
    ensures { Tells out.old out.new (spec.status_line instruction status) }
{
    out.line(1);
    out.hex(&status.to_be_bytes());
    out.text(b": ");
    tell_status(out, instruction, status);
}
