//! Terminal verification results bit by bit, and the action codes that have each bit.
ghost use Rattle.std.specs.Prelude.{◌≡◌, ◌<◌, ◌||◌, ◌++◌, [], if◌then◌else◌, codes, option_map};
ghost use Rattle.object_words.specs.Results as spec;
ghost use Rattle.report_lines.specs.Bits.{has_bit as is_set};
ghost use Rattle.report_lines.specs.Pieces as piece;
ghost use Rattle.report_lines.specs.Pieces.{Tells};

use crate::phrases::IN_NO_CARD_CODE;
use crate::style::KnownCodes;
use report_lines::{WordLines, result_reference, word_of};
use value_words::{RESULT_BITS, Row, has_bit};

/// Tells one code that has the bit, where it has it; whether any code was told.
fn tell_holder(out: &mut WordLines, told: bool, holds: bool, name: &[u8]) -> bool
    ensures words { Tells out.old out.new (spec.holder_words told holds name.now) }
    ensures told { result ≡ (told || holds) }
{
    if !holds {
        return told;
    }
    if told {
        out.text(b", ");
    } else {
        out.text(b"in ");
    }
    out.text(name);
    true
}

/// Tells the terminal's codes that have the bit, or that no code has it.
fn tell_row(out: &mut WordLines, told: bool, place: u8, row: Row)
    requires { place < 40 }
    ensures { Tells out.old out.new (spec.row_words told row place) }
{
    let denial = has_bit(row.denial, place);
    let online = has_bit(row.online, place);
    let default = has_bit(row.default, place);
    let told = tell_holder(out, told, denial, b"terminal denial");
    let told = tell_holder(out, told, online, b"terminal online");
    if !tell_holder(out, told, default, b"terminal default") {
        out.text(b"in no code");
    }
}

/// Tells a code of the card that has the bit, or that is absent; whether any code was told.
fn tell_card_code(
    out: &mut WordLines,
    told: bool,
    place: u8,
    code: Option<u64>,
    name: &[u8],
) -> bool
    requires { place < 40 }
    ensures words { Tells out.old out.new (spec.card_words told code place name.now) }
    ensures told { result ≡ (told || spec.card_holds code place) }
{
    match code {
        Some(bits) => tell_holder(out, told, has_bit(bits, place), name),
        None => {
            let told = tell_holder(out, told, true, name);
            out.text(b" absent");
            told
        }
    }
}

/// Whether the card's denial code has the bit; one that it does not give has none.
fn denies(code: Option<u64>, place: u8) -> bool
    requires { place < 40 }
    ensures { result ≡ spec.denies code place }
{
    match code {
        Some(bits) => has_bit(bits, place),
        None => false,
    }
}

/// Tells the terminal's codes where they are known, or that no code of the card has the bit.
fn tell_row_or_none(out: &mut WordLines, told: bool, place: u8, row: Option<Row>)
    requires { place < 40 }
    ensures { Tells out.old out.new (spec.row_or_none told row place) }
{
    match row {
        Some(row) => tell_row(out, told, place, row),
        None => {
            if !told {
                out.text(IN_NO_CARD_CODE);
            }
        }
    }
}

/// Tells which codes have the bit.
fn tell_holders(out: &mut WordLines, place: u8, codes: &KnownCodes)
    requires { place < 40 }
    ensures { Tells out.old out.new (spec.holders_words place codes.now) }
{
    out.text(b": ");
    let told = denies(codes.card.denial, place);
    let told = tell_holder(out, false, told, b"denial 9F0E");
    let told = tell_card_code(out, told, place, codes.card.online, b"online 9F0F");
    let told = tell_card_code(out, told, place, codes.card.default, b"default 9F0D");
    tell_row_or_none(out, told, place, codes.row);
}

/// The words of a bit by its number, BYTE times ten plus BIT.
fn result_word(bit: u32) -> Option<&'static [u8]>
    ensures { option_map (λ word. word.now) result ≡ spec.result_word bit }
{
    word_of(&RESULT_BITS, bit)
}

/// Tells a bit by its place among 40, from 0 at the left: byte and bit, its words, and where it stands.
pub(crate) fn tell_result_bit(out: &mut WordLines, place: u8)
    requires { place < 40 }
    ensures { Tells out.old out.new (spec.result_bit_words place) }
{
    out.number(u64::from(place / 8 + 1));
    out.text(b".");
    out.number(u64::from(8 - place % 8));
    let bit = u32::from(place / 8) * 10 + 10 + u32::from(8 - place % 8);
    if let Some(word) = result_word(bit) {
        out.text(b" ");
        out.text(word);
    }
    out.reference_of(result_reference(bit));
}

/// Tells a bit that is set in a line of its own at this level, with the codes that have it where they are
/// known.
fn tell_result_line(
    out: &mut WordLines,
    results: u64,
    place: u8,
    level: u8,
    codes: Option<&KnownCodes>,
)
    requires { place < 40 }
    ensures { Tells out.old out.new (if is_set 40 results place then spec.result_line level (spec.codes_held codes.entry) place else []) }
{
    if !has_bit(results, place) {
        return;
    }
    out.line(level);
    tell_result_bit(out, place);
    if let Some(codes) = codes {
        tell_holders(out, place, codes);
    }
}

/// Tells each bit that is set of 40, the first byte the highest, in a line of its own at this level, with
/// the codes that have it where they are known.
pub(crate) fn tell_result_lines(
    out: &mut WordLines,
    results: u64,
    level: u8,
    codes: Option<&KnownCodes>,
)
    ensures { Tells out.old out.new (spec.result_lines results level (spec.codes_held codes.entry)) }
{
    for place in 0..40u8 {
        tell_result_line(out, results, place, level, codes);
    }
}

/// Tells a semicolon, where some bits were told before.
fn tell_semicolon(out: &mut WordLines, told: bool)
    ensures { Tells out.old out.new (if told then piece.text (codes "; ") else []) }
{
    if told {
        out.text(b"; ");
    }
}

/// Tells a bit where it is set, behind a semicolon where others were told before; whether any was told.
fn tell_next_result(out: &mut WordLines, results: u64, place: u8, told: bool) -> bool
    requires { place < 40 }
    ensures words { Tells out.old out.new
        (if is_set 40 results place then (if told then piece.text (codes "; ") else []) ++ spec.result_bit_words place else []) }
    ensures told { result ≡ (told || is_set 40 results place) }
{
    if !has_bit(results, place) {
        return told;
    }
    tell_semicolon(out, told);
    tell_result_bit(out, place);
    true
}

/// Tells each bit that is set of 40, with semicolons between.
fn tell_result_bits(out: &mut WordLines, results: u64)
    ensures { Tells out.old out.new (spec.tvr_bits_words results) }
{
    let mut told = false;
    for place in 0..40u8 {
        told = tell_next_result(out, results, place, told);
    }
}

/// Every bit of terminal verification results, and one more.
const PAST_RESULTS: u64 = 0x100_0000_0000;

/// Tells each bit that is set of 40, the first byte the highest, with its words, semicolons between, or
/// `no bit`.
pub fn tell_results(out: &mut WordLines, results: u64)
    ensures { Tells out.old out.new (spec.results_words results) }
{
    if results % PAST_RESULTS == 0 {
        out.text(b"no bit");
    } else {
        tell_result_bits(out, results);
    }
}
