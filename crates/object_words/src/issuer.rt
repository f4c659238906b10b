//! Values that the issuer gives or reads.
ghost use Rattle.std.specs.Prelude.{◌≡◌, is_some, option_map};
ghost use Rattle.object_words.specs.Issuer as spec;
ghost use Rattle.value_words.specs.Plain.{or_nothing};
ghost use Rattle.report_lines.specs.Pieces.{Tells};

use crate::bits::tell_bit_words;
use crate::phrases::{
    APPLICATION_BLOCKED, AUTHENTICATION_FAILED, OFFLINE_APPROVALS, PIN_TRIES, REFUSED,
    RESPONSE_CRYPTOGRAM, STATUS_UPDATE,
};
use crate::style::Style;
use report_lines::{SETTLED, WordLines, response_reference, word_of};
use value_words::{CRYPTOGRAMS, RESPONSES, UPDATE_BITS};

/// The response code 00.
const APPROVED: u32 = 0x3030;

/// The response code 05.
const NOT_APPROVED: u32 = 0x3035;

/// Tells cryptogram information data: the kind is in the two high bits.
pub(crate) fn tell_information(out: &mut WordLines, value: &[u8]) -> bool
    ensures words { Tells out.old out.new (or_nothing (spec.information_words value.now)) }
    ensures told { result ≡ is_some (spec.information_words value.now) }
{
    match value {
        [byte] => {
            out.hex(value);
            tell_kind(out, *byte);
            true
        }
        _ => false,
    }
}

/// Tells the kind of cryptogram of a byte's two high bits, behind a comma.
fn tell_kind(out: &mut WordLines, byte: u8)
    ensures { Tells out.old out.new (spec.kind_words byte) }
{
    if let Some(word) = word_of(&CRYPTOGRAMS, u32::from(byte / 64 * 64)) {
        out.text(b", ");
        out.text(word);
    }
}

/// The kind of issuer application data, behind a comma.
fn data_kind(kind: u8) -> &'static [u8]
    ensures { result.now ≡ spec.data_kind kind }
{
    if kind == 0 {
        b", AAC"
    } else if kind == 1 {
        b", TC"
    } else if kind == 2 {
        b", ARQC"
    } else {
        b", no kind"
    }
}

/// Tells the offline approvals and the PIN tries.
fn tell_data_counts(out: &mut WordLines, count: u8, tries: u8)
    ensures { Tells out.old out.new (spec.data_counts count tries) }
{
    out.text(OFFLINE_APPROVALS);
    out.number(u64::from(count));
    out.text(PIN_TRIES);
    out.number(u64::from(tries));
}

/// Tells the flags of issuer application data.
fn tell_data_flags(out: &mut WordLines, flags: u8)
    ensures { Tells out.old out.new (spec.data_flags flags) }
{
    tell_flag(out, flags % 2 == 1, APPLICATION_BLOCKED);
    tell_flag(out, flags / 2 % 2 == 1, AUTHENTICATION_FAILED);
}

/// Tells a flag that is set.
fn tell_flag(out: &mut WordLines, holds: bool, text: &[u8])
    ensures { Tells out.old out.new (spec.flag_words holds text.now) }
{
    if holds {
        out.text(text);
    }
}

/// Tells issuer application data of this project's form: 01, the kind, the flags, the offline approvals,
/// the PIN tries that are left, 01.
pub(crate) fn tell_issuer_data(out: &mut WordLines, value: &[u8]) -> bool
    ensures words { Tells out.old out.new (or_nothing (spec.issuer_data_words value.now)) }
    ensures told { result ≡ is_some (spec.issuer_data_words value.now) }
{
    let [1, kind, flags, count, tries, 1] = value else {
        return false;
    };
    out.hex(value);
    out.text(data_kind(*kind / 64));
    tell_data_counts(out, *count, *tries);
    tell_data_flags(out, *flags);
    true
}

/// Tells whether the issuer approves: the highest bit.
fn tell_approval(out: &mut WordLines, byte: u8)
    ensures { Tells out.old out.new (spec.approval_words byte) }
{
    if 128 <= byte {
        out.text(b"approved");
    } else {
        out.text(b"not approved");
    }
}

/// Tells what the issuer asks of the card: four bytes (EMV 4.3 Book 3 Annex C8).
fn tell_update(out: &mut WordLines, update: [u8; 4])
    ensures { Tells out.old out.new (spec.update_words update) }
{
    let [first, second, _, _] = update;
    out.text(STATUS_UPDATE);
    out.hex(&update);
    out.text(b": ");
    tell_approval(out, first);
    tell_bit_words(out, &UPDATE_BITS, &[], &[0, second & 0xf0]);
}

/// Tells a response cryptogram of four bytes and a card status update of four.
fn tell_update_data(out: &mut WordLines, front: &[u8])
    ensures { Tells out.old out.new (spec.update_data_words front.now) }
{
    if let [a, b, c, d, e, f, g, h] = front {
        out.hex(&[*a, *b, *c, *d]);
        tell_update(out, [*e, *f, *g, *h]);
    }
}

/// Tells a response cryptogram of eight bytes and a code of two, or the other form.
fn tell_response_data(out: &mut WordLines, front: &[u8], rest: &[u8], has_code: bool)
    ensures { Tells out.old out.new (spec.response_data front.now rest.now has_code) }
{
    if has_code {
        out.hex(front);
        out.text(b", code ");
        out.text(rest);
    } else {
        tell_update_data(out, front);
    }
}

/// Tells issuer authentication data: a response cryptogram of eight bytes and a code, or one of four bytes
/// and a card status update (EMV 4.3 Book 2 section 8.2).
pub(crate) fn tell_authentication(out: &mut WordLines, value: &[u8]) -> bool
    ensures words { Tells out.old out.new (or_nothing (spec.authentication_words value.now)) }
    ensures told { result ≡ is_some (spec.authentication_words value.now) }
{
    let Some((front, rest)) = value.split_at_checked(8) else {
        return false;
    };
    out.text(RESPONSE_CRYPTOGRAM);
    tell_response_data(out, front, rest, rest.len() == 2);
    true
}

/// Whether a byte is a character of a response code.
fn is_code_character(byte: u8) -> bool
    ensures { result ≡ spec.is_code_character byte }
{
    33 <= byte && byte <= 126
}

/// Tells a response code of two characters and its words.
pub(crate) fn tell_response(out: &mut WordLines, value: &[u8], style: &Style) -> bool
    ensures words { Tells out.old out.new (or_nothing (spec.response_code_words value.now (option_map (λ words. words.now) style.now.answer))) }
    ensures told { result ≡ is_some (spec.response_code_words value.now (option_map (λ words. words.now) style.now.answer)) }
{
    let [first, second] = value else {
        return false;
    };
    if !is_code_character(*first) || !is_code_character(*second) {
        return false;
    }
    out.text(value);
    out.text(b", ");
    let code = u32::from(*first) * 256 + u32::from(*second);
    match style.answer {
        Some(words) => tell_answer(out, code, words),
        None => tell_response_words(out, code),
    }
    true
}

/// The word of a response code.
fn response_word(code: u32) -> Option<&'static [u8]>
    ensures { option_map (λ word. word.now) result ≡ spec.response_word code }
{
    word_of(&RESPONSES, code)
}

/// Tells the word of a response code.
fn tell_response_word(out: &mut WordLines, code: u32)
    ensures { Tells out.old out.new (spec.known_response_words code) }
{
    match response_word(code) {
        Some(word) => out.text(word),
        None => out.text(b"not known"),
    }
}

/// Tells the words of a response code, which is the number of its two characters, and where it stands.
pub fn tell_response_words(out: &mut WordLines, code: u32)
    ensures { Tells out.old out.new (spec.response_words code) }
{
    tell_response_word(out, code);
    out.reference_of(response_reference(code));
}

/// Tells what became of a message of the settlement.
fn tell_answer(out: &mut WordLines, code: u32, words: &[u8])
    ensures { Tells out.old out.new (spec.answer_words code words.now) }
{
    if code == APPROVED {
        out.text(words);
        out.reference(SETTLED);
    } else if code == NOT_APPROVED {
        out.text(REFUSED);
        out.reference(SETTLED);
    } else {
        tell_response_words(out, code);
    }
}
