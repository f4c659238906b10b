//! Values that are numbers, digits or characters. Each teller says whether it told the value: a value of
//! another length or content is left as it is.
ghost use Rattle.std.specs.Prelude.{◌≡◌, false, is_some};
ghost use Rattle.std.specs.List.{flat_map, list_all};
ghost use Rattle.value_words.specs.Digits as digits;
ghost use Rattle.value_words.specs.Plain as spec;
ghost use Rattle.value_words.specs.Plain.{or_nothing};
ghost use Rattle.report_lines.specs.Pieces.{Tells};

use crate::phrases::CONFIRM;
use emv_dict::{Date, amount_of, has_digits};
use report_lines::WordLines;

/// The number of these bytes, the first one the highest; the greatest one where they are more than eight.
pub fn number_in(value: &[u8]) -> u64
    ensures { result ≡ spec.binary_number value.now }
{
    let mut number: u64 = 0;
    for byte in value {
        number = number.saturating_mul(256).saturating_add(u64::from(*byte));
    }
    number
}

/// Tells bytes in hexadecimal, or `-` where there are none.
pub fn tell_hex(out: &mut WordLines, value: &[u8])
    ensures { Tells out.old out.new (spec.hex_words value.now) }
{
    if value.is_empty() {
        out.text(b"-");
    } else {
        out.hex(value);
    }
}

/// Whether each byte has two decimal digits.
pub fn all_digits(value: &[u8]) -> bool
    ensures { result ≡ spec.all_digits value.now }
{
    value.iter().all(|byte| has_digits(*byte))
}

/// Whether each byte is a printable character.
fn are_printable(value: &[u8]) -> bool
    ensures { result ≡ list_all spec.is_told_as_is value.now }
{
    value.iter().all(|byte| 32 <= *byte && *byte <= 126)
}

/// Tells printable characters.
pub fn tell_text(out: &mut WordLines, value: &[u8]) -> bool
    ensures words { Tells out.old out.new (or_nothing (spec.text_words value.now)) }
    ensures told { result ≡ is_some (spec.text_words value.now) }
{
    if value.is_empty() || !are_printable(value) {
        return false;
    }
    out.text(value);
    true
}

/// Whether a half byte may stand behind filler or none, and whether it is filler: digits stand before F.
fn after_half(filler: bool, half: u8) -> Option<bool>
    ensures { result ≡ digits.after_half filler half }
{
    if half == 15 {
        Some(true)
    } else if half <= 9 && !filler {
        Some(false)
    } else {
        None
    }
}

/// The same behind the two half bytes of a byte.
fn after_byte(filler: bool, byte: u8) -> Option<bool>
    ensures { result ≡ digits.after_byte filler byte }
{
    match after_half(filler, byte / 16) {
        Some(behind) => after_half(behind, byte % 16),
        None => None,
    }
}

/// Whether the half bytes are digits, and F behind them.
fn are_filled(value: &[u8]) -> bool
    ensures { result ≡ digits.are_filled false value.now }
{
    let mut filler = false;
    for byte in value {
        match after_byte(filler, *byte) {
            Some(behind) => filler = behind,
            None => return false,
        }
    }
    true
}

/// Whether there are half bytes, digits and F behind them.
fn are_filled_digits(value: &[u8]) -> bool
    ensures { result ≡ digits.are_filled_digits value.now }
{
    !value.is_empty() && are_filled(value)
}

/// How many digits a half byte is.
fn half_count(half: u8) -> u64
    ensures { result ≡ digits.half_count half }
{
    if half == 15 { 0 } else { 1 }
}

/// How many decimal digits stand before the filler F; `None` where other half bytes stand there.
pub fn digits_in(value: &[u8]) -> Option<u64>
    ensures { result ≡ digits.digits_in value.now }
{
    if !are_filled_digits(value) {
        return None;
    }
    let mut count: u64 = 0;
    for byte in value {
        count = count.saturating_add(half_count(*byte / 16) + half_count(*byte % 16));
    }
    Some(count)
}

/// Tells a half byte that is no filler.
fn tell_half(out: &mut WordLines, half: u8)
    ensures { Tells out.old out.new (digits.half_words half) }
{
    if half != 15 {
        out.number(u64::from(half));
    }
}

/// Tells the two half bytes of a byte that are no filler.
fn tell_pair(out: &mut WordLines, byte: u8)
    ensures { Tells out.old out.new (digits.pair_words byte) }
{
    tell_half(out, byte / 16);
    tell_half(out, byte % 16);
}

/// Tells the half bytes that are no filler.
fn tell_halves(out: &mut WordLines, value: &[u8])
    ensures { Tells out.old out.new (flat_map digits.pair_words value.now) }
{
    for byte in value {
        tell_pair(out, *byte);
    }
}

/// Tells decimal digits, without the filler F.
pub fn tell_digits(out: &mut WordLines, value: &[u8]) -> bool
    ensures words { Tells out.old out.new (or_nothing (digits.digits_words value.now)) }
    ensures told { result ≡ is_some (digits.digits_words value.now) }
{
    if !are_filled_digits(value) {
        return false;
    }
    tell_halves(out, value);
    true
}

/// Tells a number of one to four bytes.
pub fn tell_number(out: &mut WordLines, value: &[u8]) -> bool
    ensures words { Tells out.old out.new (or_nothing (spec.number_words value.now)) }
    ensures told { result ≡ is_some (spec.number_words value.now) }
{
    if value.is_empty() || value.len() > 4 {
        return false;
    }
    out.number(number_in(value));
    true
}

/// Tells an amount of twelve digits.
pub fn tell_amount(out: &mut WordLines, value: &[u8]) -> bool
    ensures words { Tells out.old out.new (or_nothing (spec.amount_words value.now)) }
    ensures told { result ≡ is_some (spec.amount_words value.now) }
{
    if !all_digits(value) {
        return false;
    }
    match value {
        [a, b, c, d, e, f] => {
            out.number(amount_of([*a, *b, *c, *d, *e, *f]));
            true
        }
        _ => false,
    }
}

/// Tells the three digits of a country or a currency.
pub fn tell_code(out: &mut WordLines, value: &[u8]) -> bool
    ensures words { Tells out.old out.new (or_nothing (spec.three_digits_words value.now)) }
    ensures told { result ≡ is_some (spec.three_digits_words value.now) }
{
    if !all_digits(value) {
        return false;
    }
    match value {
        [first, second] => {
            out.number(u64::from(*first % 16));
            out.hex(&[*second]);
            true
        }
        _ => false,
    }
}

/// Tells year, month and day.
pub fn tell_date(out: &mut WordLines, value: &[u8]) -> bool
    ensures words { Tells out.old out.new (or_nothing (spec.date_words value.now)) }
    ensures told { result ≡ is_some (spec.date_words value.now) }
{
    match value {
        [year, month, day] => match Date::read([*year, *month, *day]) {
            Some(date) => {
                out.number(u64::from(date.year));
                out.text(b"-");
                out.hex(&[*month]);
                out.text(b"-");
                out.hex(&[*day]);
                true
            }
            None => false,
        },
        _ => false,
    }
}

/// Tells hour, minute and second.
pub fn tell_time(out: &mut WordLines, value: &[u8]) -> bool
    ensures words { Tells out.old out.new (or_nothing (spec.time_words value.now)) }
    ensures told { result ≡ is_some (spec.time_words value.now) }
{
    if !all_digits(value) {
        return false;
    }
    match value {
        [hour, minute, second] => {
            out.hex(&[*hour]);
            out.text(b":");
            out.hex(&[*minute]);
            out.text(b":");
            out.hex(&[*second]);
            true
        }
        _ => false,
    }
}

/// Tells a file and how many records it has at most.
fn tell_log(out: &mut WordLines, file: u8, records: u8)
    ensures { Tells out.old out.new (spec.log_words file records) }
{
    out.text(b"file ");
    out.number(u64::from(file));
    out.text(b", at most ");
    out.number(u64::from(records));
    out.text(b" records");
}

/// Tells the file of a log and how many records it has.
pub fn tell_log_entry(out: &mut WordLines, value: &[u8]) -> bool
    ensures words { Tells out.old out.new (or_nothing (spec.log_entry_words value.now)) }
    ensures told { result ≡ is_some (spec.log_entry_words value.now) }
{
    match value {
        [file, records] => {
            tell_log(out, *file, *records);
            true
        }
        _ => false,
    }
}

/// Tells a rank, 0 for none.
fn tell_rank(out: &mut WordLines, rank: u8)
    ensures { Tells out.old out.new (spec.rank_words rank) }
{
    if rank == 0 {
        out.text(b"none");
    } else {
        out.number(u64::from(rank));
    }
}

/// Tells whether the cardholder must confirm: the highest bit.
fn tell_confirm(out: &mut WordLines, byte: u8)
    ensures { Tells out.old out.new (spec.confirm_words byte) }
{
    if 128 <= byte {
        out.text(CONFIRM);
    }
}

/// Tells the rank of an application: the low half byte, 0 for none, and whether the cardholder is asked.
pub fn tell_priority(out: &mut WordLines, value: &[u8]) -> bool
    ensures words { Tells out.old out.new (or_nothing (spec.priority_words value.now)) }
    ensures told { result ≡ is_some (spec.priority_words value.now) }
{
    match value {
        [byte] => {
            tell_rank(out, *byte % 16);
            tell_confirm(out, *byte);
            true
        }
        _ => false,
    }
}
