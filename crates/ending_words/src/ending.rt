//! Endings in words.
ghost use Rattle.std.specs.Prelude.{◌≡◌, ◌<◌, ◌||◌, ◌++◌, [], if◌then◌else◌, codes, option_map, Some};
ghost use Rattle.ending_words.specs.Endings as spec;
ghost use Rattle.report_lines.specs.Reading.{seen_ending, seen_fields};
ghost use Rattle.report_lines.specs.Bits.{has_bit};
ghost use Rattle.report_lines.specs.Pieces as piece;
ghost use Rattle.report_lines.specs.Pieces.{Tells};

use crate::digits::hex_number;
use crate::phrases::{ALL_CARRIED_OUT, ASKED_FOR, CARD_ANSWERED, ENDED_AT, NO_SCRIPT, PULLED_OUT};
use ber_tlv::Tag;
use emv_dict::Kind;
use exchange_words::{LaneState, kind_name, tell_cited_reason};
use object_words::{tell_bit_word, tell_response_words, tell_results};
use report_lines::{
    CUT, EndFields, Ending, STATUS_REFERENCES, WordLines, cause_reference, word_of, word_of_text,
};
use value_words::{
    CAUSES, CRYPTOGRAMS, Form, Reason, STATUS_BITS, STEPS, name_of, tell_performed_rule,
    tell_status,
};

/// The words of a step.
fn step_word(step: &[u8]) -> Option<&'static [u8]>
    ensures { option_map (λ word. word.now) result ≡ spec.step_in_words step.now }
{
    word_of_text(&STEPS, step)
}

/// Tells a step.
fn tell_step(out: &mut WordLines, step: &[u8])
    ensures { Tells out.old out.new (spec.named_step_words step.now) }
{
    match step_word(step) {
        Some(word) => out.text(word),
        None => out.text(step),
    }
}

/// The instruction whose answers a step reads.
fn instruction_of(step: &[u8]) -> u8
    ensures { result ≡ spec.step_instruction step.now }
{
    if step == b"select".as_slice() {
        0xa4
    } else if step == b"initiate".as_slice() {
        0xa8
    } else if step == b"read".as_slice() {
        0xb2
    } else if step == b"first".as_slice() || step == b"second".as_slice() {
        0xae
    } else {
        0
    }
}

/// The name of the tag of this number, and how its value is told.
fn tag_name(tag: u32) -> Option<(&'static [u8], Form)>
    ensures { option_map (λ named. (named.0.now, named.1)) result ≡ spec.tag_name tag }
{
    name_of(Tag(tag))
}

/// Tells the name of a tag, whose number this is.
fn tell_tag_name(out: &mut WordLines, number: u64)
    ensures { Tells out.old out.new (spec.tag_name_words number) }
{
    if let Some((name, _)) = tag_name((number % 0x100_0000) as u32) {
        out.text(b" ");
        out.text(name);
    }
}

/// Tells the word of a kind of cryptogram.
fn tell_kind(out: &mut WordLines, number: u64)
    ensures { Tells out.old out.new (spec.ended_kind_words number) }
{
    if let Some(word) = word_of(&CRYPTOGRAMS, (number % 256 / 64 * 64) as u32) {
        out.text(b" ");
        out.text(word);
    }
}

/// Whether a cause names a tag.
fn names_tag(cause: &[u8]) -> bool
    ensures { result ≡ spec.names_tag cause.now }
{
    cause == b"repeated".as_slice()
        || cause == b"missing".as_slice()
        || cause == b"value".as_slice()
        || cause == b"dol".as_slice()
}

/// Tells what a cause names in words: a status, a kind, or a tag.
fn tell_detail_words(out: &mut WordLines, step: &[u8], cause: &[u8], number: u64)
    ensures { Tells out.old out.new (spec.detail_words step.now cause.now (Some number)) }
{
    if cause == b"status".as_slice() {
        out.text(b" ");
        tell_status(out, instruction_of(step), (number % 65536) as u16);
    } else if cause == b"kind".as_slice() {
        tell_kind(out, number);
    } else if names_tag(cause) {
        tell_tag_name(out, number);
    }
}

/// Tells what a cause's number names, where it has one.
fn tell_named(out: &mut WordLines, step: &[u8], cause: &[u8], number: Option<u64>)
    ensures { Tells out.old out.new (spec.detail_words step.now cause.now number) }
{
    if let Some(number) = number {
        tell_detail_words(out, step, cause, number);
    }
}

/// Tells what a cause names.
fn tell_detail(out: &mut WordLines, step: &[u8], cause: &[u8], detail: &[u8])
    ensures { Tells out.old out.new (spec.in_brackets step.now cause.now detail.now) }
{
    if detail.is_empty() {
        return;
    }
    out.text(b" (");
    out.text(detail);
    tell_named(out, step, cause, hex_number(detail));
    out.text(b")");
}

/// The words of a cause.
fn cause_word(cause: &[u8]) -> Option<&'static [u8]>
    ensures { option_map (λ word. word.now) result ≡ spec.cause_word cause.now }
{
    word_of_text(&CAUSES, cause)
}

/// Tells a cause.
fn tell_cause(out: &mut WordLines, cause: &[u8])
    ensures { Tells out.old out.new (spec.cause_words cause.now) }
{
    match cause_word(cause) {
        Some(word) => out.text(word),
        None => out.text(cause),
    }
}

/// Tells that the terminal ended it, in a step and for a cause, and where that stands.
fn tell_terminated(out: &mut WordLines, step: &[u8], cause: &[u8], detail: &[u8])
    ensures { Tells out.old out.new (spec.terminated_words step.now cause.now detail.now) }
{
    out.line(1);
    out.text(ENDED_AT);
    tell_step(out, step);
    out.text(b": ");
    tell_cause(out, cause);
    tell_detail(out, step, cause, detail);
    out.reference_of(cause_reference(step, cause, detail));
}

/// Tells an ending that is no decision.
pub fn tell_break(out: &mut WordLines, ending: &Ending<'_>)
    ensures { Tells out.old out.new (spec.break_words (seen_ending ending.now)) }
{
    match ending {
        Ending::Cut(step) => {
            out.line(1);
            out.text(PULLED_OUT);
            tell_step(out, step);
            out.reference(CUT);
        }
        Ending::Terminated {
            step,
            cause,
            detail,
        } => tell_terminated(out, step, cause, detail),
        Ending::Approved | Ending::Declined => {}
    }
}

/// Tells what the card answered.
fn tell_answered(out: &mut WordLines, answered: Option<Kind>)
    ensures { Tells out.old out.new (spec.answered_words answered) }
{
    if let Some(answered) = answered {
        out.text(CARD_ANSWERED);
        out.text(kind_name(answered));
    }
}

/// Tells what was asked for last, why, and what was answered.
fn tell_decision(out: &mut WordLines, lane: &LaneState, asked: Kind, reason: Reason)
    ensures { Tells out.old out.new (spec.decided_words asked reason lane.now) }
{
    out.line(1);
    out.text(ASKED_FOR);
    out.text(kind_name(asked));
    out.text(b" because ");
    tell_cited_reason(out, reason, lane.second, lane.code.unwrap_or(*b"--"));
    tell_answered(out, lane.answered);
}

/// Tells how a payment ended.
fn tell_ending(out: &mut WordLines, lane: &LaneState, ending: &Ending<'_>)
    ensures { Tells out.old out.new (spec.ending_words lane.now (seen_ending ending.now)) }
{
    match ending {
        Ending::Approved | Ending::Declined => {
            if let Some(asked) = lane.asked {
                if let Some(reason) = lane.reason {
                    tell_decision(out, lane, asked, reason);
                }
            }
        }
        other => tell_break(out, other),
    }
}

/// Tells what was performed by its place among 16 bits, where it is set, behind a comma where others were told
/// before; whether any was told.
fn tell_performed_bit(out: &mut WordLines, status: u64, place: u8, told: bool) -> bool
    requires { place < 16 }
    ensures words { Tells out.old out.new
        (if has_bit 16 status place then (if told then piece.text (codes ", ") else []) ++ spec.performed_word place else []) }
    ensures told { result ≡ (told || has_bit 16 status place) }
{
    if (status >> (15 - place)) % 2 == 0 {
        return told;
    }
    tell_comma(out, told);
    tell_performed_word(out, place);
    true
}

/// Tells a comma, where some were told before.
fn tell_comma(out: &mut WordLines, told: bool)
    ensures { Tells out.old out.new (if told then piece.text (codes ", ") else []) }
{
    if told {
        out.text(b", ");
    }
}

/// Tells what was performed by its place among 16 bits.
fn tell_performed_word(out: &mut WordLines, place: u8)
    requires { place < 16 }
    ensures { Tells out.old out.new (spec.performed_word place) }
{
    tell_bit_word(
        out,
        &STATUS_BITS,
        &STATUS_REFERENCES,
        u32::from(place / 8) + 1,
        8 - place % 8,
    );
}

/// Tells the words of what was performed, commas between.
fn tell_performed_bits(out: &mut WordLines, status: u64)
    ensures { Tells out.old out.new (spec.performed_bits status) }
{
    let mut told = false;
    for place in 0..16u8 {
        told = tell_performed_bit(out, status, place, told);
    }
}

/// Tells the words of what was performed, or `no bit`.
fn tell_performed(out: &mut WordLines, status: u64)
    ensures { Tells out.old out.new (spec.performed_words status) }
{
    if status % 65536 == 0 {
        out.text(b"no bit");
    } else {
        tell_performed_bits(out, status);
    }
}

/// Tells the rule that was performed, or that verification was not reached.
fn tell_reached(out: &mut WordLines, cvm: u64)
    ensures { Tells out.old out.new (spec.reached_words cvm) }
{
    if cvm == 0 {
        out.text(b"not reached");
    } else {
        tell_performed_rule(
            out,
            (cvm / 65536 % 256) as u8,
            (cvm / 256 % 256) as u8,
            (cvm % 256) as u8,
        );
    }
}

/// Tells the result of cardholder verification.
#[tactic(auto, unfolding(crate::specs::Endings::verification_line_words))]
fn tell_verification(out: &mut WordLines, cvm: u64)
    ensures { Tells out.old out.new (spec.verification_line_words cvm) }
{
    out.line(1);
    out.text(b"CVM ");
    tell_reached(out, cvm);
}

/// Whether a code approves: the issuer's, or the terminal's.
fn is_approving(arc: &[u8]) -> bool
    ensures { result ≡ spec.is_approving arc.now }
{
    arc == b"00".as_slice() || arc == b"Y1".as_slice() || arc == b"Y3".as_slice()
}

/// Tells that the card declined, where the code approves and the purchase is declined.
fn tell_decliner(out: &mut WordLines, declined: bool, arc: &[u8])
    ensures { Tells out.old out.new (spec.decliner_words declined arc.now) }
{
    if declined && is_approving(arc) {
        out.text(b"; the card declined");
    }
}

/// Tells the response code.
fn tell_code(out: &mut WordLines, declined: bool, arc: &[u8])
    ensures { Tells out.old out.new (spec.response_line_words declined arc.now) }
{
    if arc == b"--".as_slice() {
        return;
    }
    if let [first, second] = arc {
        out.line(1);
        out.text(b"code ");
        out.text(arc);
        out.text(b": ");
        tell_response_words(out, u32::from(*first) * 256 + u32::from(*second));
        tell_decliner(out, declined, arc);
    }
}

/// Tells that a command failed.
fn tell_failed(out: &mut WordLines, command: u64)
    ensures { Tells out.old out.new (spec.failed_words command) }
{
    out.text(b": command ");
    out.number(command);
    if command == 15 {
        out.text(b" or later failed");
    } else {
        out.text(b" failed");
    }
}

/// Tells the result of a script: five bytes as one number (EMV 4.3 Book 4 Annex A5).
#[tactic(auto, unfolding(crate::specs::Endings::script_result_words))]
fn tell_script(out: &mut WordLines, bytes: u64)
    ensures { Tells out.old out.new (spec.script_result_words bytes) }
{
    out.line(1);
    out.text(b"script ");
    out.hex(&((bytes % 0x1_0000_0000) as u32).to_be_bytes());
    let first = bytes / 0x1_0000_0000 % 256;
    if first / 16 == 2 {
        out.text(ALL_CARRIED_OUT);
    } else if first / 16 == 1 {
        tell_failed(out, first % 16);
    } else {
        out.text(NO_SCRIPT);
    }
}

/// Tells the result of a script, where there is one.
fn tell_script_found(out: &mut WordLines, found: Option<u64>)
    ensures { Tells out.old out.new (spec.script_told found) }
{
    if let Some(bytes) = found {
        tell_script(out, bytes);
    }
}

/// Tells the result of a script where these digits are one.
fn tell_script_in(out: &mut WordLines, digits: &[u8])
    ensures { Tells out.old out.new (spec.script_told (spec.hex_number digits.now)) }
{
    tell_script_found(out, hex_number(digits));
}

/// Tells the results of the scripts.
fn tell_scripts(out: &mut WordLines, scripts: &[u8])
    ensures { Tells out.old out.new (spec.scripts_words scripts.now) }
{
    let mut left = scripts;
    while left.len() >= 10 {
        tell_script_in(out, &left[..10]);
        left = &left[10..];
    }
}

/// Whether these digits are those of 0.
fn is_nothing(digits: &[u8]) -> bool
    ensures { result ≡ spec.is_nothing (spec.hex_number digits.now) }
{
    match hex_number(digits) {
        Some(number) => number == 0,
        None => false,
    }
}

/// Whether no step has set anything.
fn is_untouched(fields: &EndFields<'_>) -> bool
    ensures { result ≡ spec.has_set_nothing (seen_fields fields.now) }
{
    is_nothing(fields.tvr)
        && is_nothing(fields.tsi)
        && is_nothing(fields.cvm)
        && fields.arc == b"--".as_slice()
        && fields.scripts == b"-".as_slice()
}

/// Tells the terminal verification results.
fn tell_tvr(out: &mut WordLines, results: Option<u64>)
    ensures { Tells out.old out.new (spec.tvr_words results) }
{
    if let Some(results) = results {
        out.line(1);
        out.text(b"TVR ");
        tell_results(out, results);
    }
}

/// Tells the transaction status information.
fn tell_tsi(out: &mut WordLines, status: Option<u64>)
    ensures { Tells out.old out.new (spec.tsi_words status) }
{
    if let Some(status) = status {
        out.line(1);
        out.text(b"TSI ");
        tell_performed(out, status);
    }
}

/// Tells the bits of an end line.
fn tell_end_bits(out: &mut WordLines, fields: &EndFields<'_>, brief: bool)
    ensures { Tells out.old out.new (spec.end_bits (seen_fields fields.now) brief) }
{
    if !brief {
        tell_tvr(out, hex_number(fields.tvr));
        tell_tsi(out, hex_number(fields.tsi));
    }
}

/// Tells the result of cardholder verification, where there is one.
fn tell_cvm(out: &mut WordLines, cvm: Option<u64>)
    ensures { Tells out.old out.new (spec.cvm_words cvm) }
{
    if let Some(cvm) = cvm {
        tell_verification(out, cvm);
    }
}

/// Tells the fields of an end line that some step has set.
fn tell_set_fields(out: &mut WordLines, declined: bool, fields: &EndFields<'_>, brief: bool)
    ensures { Tells out.old out.new (spec.set_fields declined (seen_fields fields.now) brief) }
{
    tell_end_bits(out, fields, brief);
    tell_cvm(out, hex_number(fields.cvm));
    tell_code(out, declined, fields.arc);
    tell_scripts(out, fields.scripts);
}

/// Tells the fields of an end line.
fn tell_end_fields(out: &mut WordLines, declined: bool, fields: &EndFields<'_>, brief: bool)
    ensures { Tells out.old out.new (spec.end_fields declined (seen_fields fields.now) brief) }
{
    if !is_untouched(fields) {
        tell_set_fields(out, declined, fields, brief);
    }
}

/// Whether the purchase is declined.
fn is_declined(ending: &Ending<'_>) -> bool
    ensures { result ≡ spec.ends_declined (seen_ending ending.now) }
{
    match ending {
        Ending::Declined => true,
        Ending::Approved | Ending::Terminated { .. } | Ending::Cut(_) => false,
    }
}

/// Tells an end line.
pub fn tell_end(
    out: &mut WordLines,
    lane: &LaneState,
    ending: &Ending<'_>,
    fields: &EndFields<'_>,
    brief: bool,
)
    ensures { Tells out.old out.new (spec.end_words lane.now (seen_ending ending.now) (seen_fields fields.now) brief) }
{
    tell_ending(out, lane, ending);
    tell_end_fields(out, is_declined(ending), fields, brief);
}
