//! The reference of a code, of a bit and of a cause.
ghost use Rattle.std.specs.Prelude.{◌≡◌};
ghost use Rattle.std.specs.Option.{option_map};
ghost use Rattle.report_lines.specs.References as spec;

use crate::references::{
    ANSWER_REFERENCES, COMMAND_REFERENCES, FIRST_CAUSES, INITIATE_CAUSES, LOCATOR_LENGTH,
    METHOD_REFERENCES, NO_RULE, NOT_VERIFIED, OTHER_CAUSES, OUTCOME_REFERENCES, READ_CAUSES,
    RESPONSE_REFERENCES, RESULT_REFERENCES, SECOND_CAUSES, SELECT_CAUSES, STATUS_WORD_REFERENCES,
    UNKNOWN_METHOD,
};
use crate::{word_of, word_of_text};

/// In place of a method: no rule was performed.
const NO_METHOD: u8 = 0x3f;

/// The reference of a bit of the terminal verification results: BYTE times ten plus BIT.
pub fn result_reference(bit: u32) -> Option<&'static [u8]>
    ensures { option_map (λ word. word.now) result ≡ spec.result_reference bit }
{
    word_of(&RESULT_REFERENCES, bit)
}

/// The reference of a known method of cardholder verification, of six bits.
fn method_reference(method: u32) -> Option<&'static [u8]>
    ensures { option_map (λ word. word.now) result ≡ spec.method_reference method }
{
    word_of(&METHOD_REFERENCES, method)
}

/// The reference of the method of a result of cardholder verification; 3F in its place says that no rule was
/// performed.
pub fn verification_reference(method: u8, outcome: u8) -> &'static [u8]
    ensures { result.now ≡ spec.verification_reference method outcome }
{
    if method == NO_METHOD {
        return if outcome == 0 { NOT_VERIFIED } else { NO_RULE };
    }
    match method_reference(u32::from(method % 64)) {
        Some(found) => found,
        None => UNKNOWN_METHOD,
    }
}

/// The reference of an outcome of cardholder verification.
pub fn outcome_reference(outcome: u32) -> Option<&'static [u8]>
    ensures { option_map (λ word. word.now) result ≡ spec.outcome_reference outcome }
{
    word_of(&OUTCOME_REFERENCES, outcome)
}

/// The reference of an authorisation response code, the number of its two characters.
pub fn response_reference(code: u32) -> Option<&'static [u8]>
    ensures { option_map (λ word. word.now) result ≡ spec.response_reference code }
{
    word_of(&RESPONSE_REFERENCES, code)
}

/// The reference of a command of this class and instruction, one number of two bytes.
pub fn command_reference(head: u32) -> Option<&'static [u8]>
    ensures { option_map (λ word. word.now) result ≡ spec.command_reference head }
{
    word_of(&COMMAND_REFERENCES, head)
}

/// The reference of a status of one command: the instruction, then the status.
fn answer_reference(code: u32) -> Option<&'static [u8]>
    ensures { option_map (λ word. word.now) result ≡ spec.answer_reference code }
{
    word_of(&ANSWER_REFERENCES, code)
}

/// The reference of a status of any command.
fn any_status_reference(status: u32) -> Option<&'static [u8]>
    ensures { option_map (λ word. word.now) result ≡ spec.any_status_reference status }
{
    word_of(&STATUS_WORD_REFERENCES, status)
}

/// The reference of a status behind a command of this instruction: that command's own first.
pub fn status_reference(instruction: u8, status: u16) -> Option<&'static [u8]>
    ensures { option_map (λ word. word.now) result ≡ spec.status_reference instruction status }
{
    match answer_reference(u32::from(instruction) * 65536 + u32::from(status)) {
        Some(found) => Some(found),
        None => any_status_reference(u32::from(status)),
    }
}

/// The reference of a cause by its step.
#[tactic(auto, unfolding(crate::specs::References::step_cause))]
fn step_cause(step: &[u8], cause: &[u8]) -> Option<&'static [u8]>
    ensures { option_map (λ word. word.now) result ≡ spec.step_cause step.now cause.now }
{
    if step == b"select".as_slice() {
        word_of_text(&SELECT_CAUSES, cause)
    } else if step == b"initiate".as_slice() {
        word_of_text(&INITIATE_CAUSES, cause)
    } else if step == b"read".as_slice() {
        word_of_text(&READ_CAUSES, cause)
    } else if step == b"first".as_slice() {
        word_of_text(&FIRST_CAUSES, cause)
    } else if step == b"second".as_slice() {
        word_of_text(&SECOND_CAUSES, cause)
    } else {
        word_of_text(&OTHER_CAUSES, cause)
    }
}

/// The reference of the cause for which a terminal ends a payment in a step, with what stands behind the
/// cause; `None` for a cause that the step does not have.
pub fn cause_reference(step: &[u8], cause: &[u8], detail: &[u8]) -> Option<&'static [u8]>
    ensures { option_map (λ word. word.now) result ≡ spec.cause_reference step.now cause.now detail.now }
{
    if step == b"initiate".as_slice() && cause == b"afl".as_slice() && detail == b"0".as_slice() {
        Some(LOCATOR_LENGTH)
    } else {
        step_cause(step, cause)
    }
}
