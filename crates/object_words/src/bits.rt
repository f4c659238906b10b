//! Values that are bits.
ghost use Rattle.std.specs.Prelude.{◌≡◌, ◌==◌, not, ◌+◌, ◌<◌, ◌≤◌, ◌++◌, [], length, map, if◌then◌else◌, codes, is_some, option_map};
ghost use Rattle.std.specs.List.{list_any};
ghost use Rattle.object_words.specs.Bits as spec;
ghost use Rattle.value_words.specs.Plain.{or_nothing};
ghost use Rattle.report_lines.specs.Bits.{has_bit as is_set};
ghost use Rattle.report_lines.specs.Pieces as piece;
ghost use Rattle.report_lines.specs.Pieces.{Tells};

use report_lines::{WordLines, word_of};
use value_words::tell_hex;

/// Whether a byte has the bit of this place, from 0 at the left.
fn has_bit(byte: u8, place: u8) -> bool
    requires { place < 8 }
    ensures { result ≡ is_set 8 byte place }
{
    (byte >> (7 - place)) % 2 == 1
}

/// Tells a bit that is set as BYTE.BIT behind a blank.
fn tell_bit_number(out: &mut WordLines, number: u64, byte: u8, place: u8)
    requires { place < 8 }
    ensures { Tells out.old out.new (if is_set 8 byte place then piece.text (codes " ") ++ spec.bit_number number place else []) }
{
    if has_bit(byte, place) {
        out.text(b" ");
        out.number(number);
        out.text(b".");
        out.number(u64::from(8 - place));
    }
}

/// Tells the numbers of a byte's bits that are set, each as BYTE.BIT behind a blank.
fn tell_bits_of(out: &mut WordLines, number: u64, byte: u8)
    ensures { Tells out.old out.new (spec.byte_bits number byte) }
{
    for place in 0..8u8 {
        tell_bit_number(out, number, byte, place);
    }
}

/// Tells the bits that are set, each as BYTE.BIT behind a blank.
pub(crate) fn tell_bit_numbers(out: &mut WordLines, value: &[u8])
    ensures { Tells out.old out.new (spec.bit_numbers value.now) }
{
    for (index, byte) in value.iter().enumerate() {
        tell_bits_of(out, index as u64 + 1, *byte);
    }
}

/// Whether some bit is set.
fn has_bits(value: &[u8]) -> bool
    ensures { result ≡ list_any (λ byte. not (byte == 0)) value.now }
{
    value.iter().any(|byte| *byte != 0)
}

/// Tells bytes, and the bits that are set.
pub(crate) fn tell_bits(out: &mut WordLines, value: &[u8])
    ensures { Tells out.old out.new (spec.bits_words value.now) }
{
    tell_hex(out, value);
    if has_bits(value) {
        out.text(b", bits");
        tell_bit_numbers(out, value);
    }
}

/// Tells the word of a bit in a table, of the byte of this number from 1 and its bit from 1 to 8, or BYTE.BIT where it
/// has none, and its reference in another table.
pub fn tell_bit_word(
    out: &mut WordLines,
    table: &[(u32, &'static [u8])],
    references: &[(u32, &'static [u8])],
    number: u32,
    bit: u8,
)
    requires number { number ≤ 100 }
    requires bit { bit ≤ 8 }
    ensures { Tells out.old out.new (spec.bit_word (map (λ w. (w.0, w.1.now)) table.now) (map (λ w. (w.0, w.1.now)) references.now) number bit) }
{
    match word_of(table, number * 10 + u32::from(bit)) {
        Some(word) => out.text(word),
        None => {
            out.number(u64::from(number));
            out.text(b".");
            out.number(u64::from(bit));
        }
    }
    out.reference_of(word_of(references, number * 10 + u32::from(bit)));
}

/// Tells the word of a bit that is set behind a comma.
fn tell_word_at(
    out: &mut WordLines,
    table: &[(u32, &'static [u8])],
    references: &[(u32, &'static [u8])],
    number: u32,
    byte: u8,
    place: u8,
)
    requires number { number ≤ 100 }
    requires place { place < 8 }
    ensures { Tells out.old out.new
        (if is_set 8 byte place then piece.text (codes ", ") ++ spec.word_at (map (λ w. (w.0, w.1.now)) table.now) (map (λ w. (w.0, w.1.now)) references.now) number place else []) }
{
    if has_bit(byte, place) {
        out.text(b", ");
        tell_bit_word(out, table, references, number, 8 - place);
    }
}

/// Tells the words of a byte's bits that are set, each behind a comma; a bit without words as BYTE.BIT.
fn tell_words_of(
    out: &mut WordLines,
    table: &[(u32, &'static [u8])],
    references: &[(u32, &'static [u8])],
    number: u32,
    byte: u8,
)
    requires { number ≤ 100 }
    ensures { Tells out.old out.new (spec.byte_words (map (λ w. (w.0, w.1.now)) table.now) (map (λ w. (w.0, w.1.now)) references.now) number byte) }
{
    for place in 0..8u8 {
        tell_word_at(out, table, references, number, byte, place);
    }
}

/// Tells the words of the bits that are set, each behind a comma, with their references.
pub(crate) fn tell_bit_words(
    out: &mut WordLines,
    table: &[(u32, &'static [u8])],
    references: &[(u32, &'static [u8])],
    value: &[u8],
)
    requires { length value.now ≤ 100 }
    ensures { Tells out.old out.new (spec.bit_words (map (λ w. (w.0, w.1.now)) table.now) (map (λ w. (w.0, w.1.now)) references.now) value.now) }
{
    for (index, byte) in value.iter().enumerate() {
        tell_words_of(out, table, references, index as u32 + 1, *byte);
    }
}

/// Tells bytes of this number, and the words of their bits with their references.
pub(crate) fn tell_flags(
    out: &mut WordLines,
    table: &[(u32, &'static [u8])],
    references: &[(u32, &'static [u8])],
    count: usize,
    value: &[u8],
) -> bool
    requires { count ≤ 100 }
    ensures words { Tells out.old out.new (or_nothing (spec.table_flags_words (map (λ w. (w.0, w.1.now)) table.now) (map (λ w. (w.0, w.1.now)) references.now) count value.now)) }
    ensures told { result ≡ is_some (spec.table_flags_words (map (λ w. (w.0, w.1.now)) table.now) (map (λ w. (w.0, w.1.now)) references.now) count value.now) }
{
    if value.len() != count {
        return false;
    }
    out.hex(value);
    tell_bit_words(out, table, references, value);
    true
}

/// Tells a word behind a comma, where there is one.
fn tell_behind_comma(out: &mut WordLines, word: Option<&'static [u8]>)
    ensures { Tells out.old out.new (spec.behind_comma (option_map (λ w. w.now) word.entry)) }
{
    if let Some(word) = word {
        out.text(b", ");
        out.text(word);
    }
}

/// Tells a byte and its word in a table.
pub(crate) fn tell_coded(out: &mut WordLines, table: &[(u32, &'static [u8])], value: &[u8]) -> bool
    ensures words { Tells out.old out.new (or_nothing (spec.coded_words (map (λ w. (w.0, w.1.now)) table.now) value.now)) }
    ensures told { result ≡ is_some (spec.coded_words (map (λ w. (w.0, w.1.now)) table.now) value.now) }
{
    match value {
        [byte] => {
            out.hex(value);
            tell_behind_comma(out, word_of(table, u32::from(*byte)));
            true
        }
        _ => false,
    }
}
