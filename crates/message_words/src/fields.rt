//! The fields of messages in the style of ISO 8583:1987: which ones a bitmap names, and where each ends.
ghost use Rattle.std.specs.Prelude.{◌≡◌, ◌<◌, ◌≤◌, IfSome, length, option_map};
ghost use Rattle.message_words.specs.Fields as spec;
ghost use Rattle.report_lines.specs.Parts.{is_ascii_digit};

/// Whether a character is a decimal digit.
fn is_digit(byte: u8) -> bool
    ensures { result ≡ is_ascii_digit byte }
{
    48 <= byte && byte <= 57
}

/// The number of two decimal digits.
fn two_digits(high: u8, low: u8) -> Option<u32>
    ensures exact { result ≡ spec.two_digits_number high low }
    ensures most { IfSome result (λ number. number ≤ 99) }
{
    if is_digit(high) && is_digit(low) {
        Some(u32::from(high - 48) * 10 + u32::from(low - 48))
    } else {
        None
    }
}

/// The number of four decimal digits.
pub(crate) fn four_digits(digits: &[u8]) -> Option<u32>
    ensures { result ≡ spec.four_digits digits.now }
{
    match digits {
        [a, b, c, d] => {
            let high = two_digits(*a, *b)?;
            let low = two_digits(*c, *d)?;
            Some(high * 100 + low)
        }
        _ => None,
    }
}

/// So many bytes, and those behind them.
fn cut(count: Option<u32>, bytes: &[u8]) -> Option<(&[u8], &[u8])>
    ensures { option_map (λ parts. (parts.0.now, parts.1.now)) result ≡ spec.front_and_rest count bytes.now }
{
    match count {
        Some(count) => bytes.split_at_checked(count as usize),
        None => None,
    }
}

/// The content of a field with its length in two digits before it, and what stands behind it.
fn cut_short(bytes: &[u8]) -> Option<(&[u8], &[u8])>
    ensures { option_map (λ parts. (parts.0.now, parts.1.now)) result ≡ spec.counted_content bytes.now }
{
    match bytes.split_at_checked(2) {
        Some(([high, low], rest)) => cut(two_digits(*high, *low), rest),
        _ => None,
    }
}

/// The same with four digits.
fn cut_long(bytes: &[u8]) -> Option<(&[u8], &[u8])>
    ensures { option_map (λ parts. (parts.0.now, parts.1.now)) result ≡ spec.cut_long bytes.now }
{
    match bytes.split_at_checked(4) {
        Some((digits, rest)) => cut(four_digits(digits), rest),
        None => None,
    }
}

/// The length of a field that always has the same; `None` for another one.
fn fixed_length(number: u32) -> Option<u32>
    ensures { result ≡ spec.fixed_length number }
{
    match number {
        3 | 11 => Some(6),
        4 | 37 => Some(12),
        39 => Some(2),
        41 | 52 => Some(8),
        49 => Some(3),
        _ => None,
    }
}

/// The content of a field, and what stands behind it; `None` for a field that is not known, or that is cut
/// off.
#[tactic(auto, unfolding(crate::specs::Fields::cut_field))]
pub(crate) fn cut_field(number: u32, bytes: &[u8]) -> Option<(&[u8], &[u8])>
    ensures { option_map (λ parts. (parts.0.now, parts.1.now)) result ≡ spec.cut_field number bytes.now }
{
    match number {
        2 => cut_short(bytes),
        55 => cut_long(bytes),
        _ => cut(fixed_length(number), bytes),
    }
}

/// Whether the bitmap names a field, from 1 to 64.
pub(crate) fn is_named(bitmap: &[u8], number: u32) -> bool
    requires { 0 < number }
    ensures { result ≡ spec.has_field_bit bitmap.now number }
{
    let place = number - 1;
    match bitmap.get((place / 8) as usize) {
        Some(byte) => (*byte >> (7 - place % 8)) % 2 == 1,
        None => false,
    }
}

/// Whether the bitmap names no field before the one of the response code, and that one.
pub(crate) fn begins_with_code(bitmap: &[u8]) -> bool
    ensures { result ≡ spec.begins_with_code bitmap.now }
{
    match bitmap {
        [0, 0, 0, 0, byte, ..] => *byte / 2 == 1,
        _ => false,
    }
}
