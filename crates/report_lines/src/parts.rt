//! The pieces of a line.
ghost use Rattle.std.specs.Prelude.{◌≡◌, ◌+◌, ◌<◌, ◌≤◌, ◌==◌, length, position, IfSome};
ghost use Rattle.std.specs.List.{list_all};
ghost use Rattle.report_lines.specs.Parts as spec;

/// The place of the first byte of this value.
fn place_of(text: &[u8], mark: u8) -> Option<usize>
    ensures place { result ≡ position (λ byte. byte == mark) text.now }
    ensures within { IfSome result (λ place. place < length text.now) }
{
    text.iter().position(|byte| *byte == mark)
}

/// What stands before the first byte of this value, and what stands behind it; all and nothing where there
/// is none.
fn split_at_byte(text: &[u8], mark: u8) -> (&[u8], &[u8])
    ensures before { result.0.now ≡ (spec.split_at mark text.now).0 }
    ensures behind { result.1.now ≡ (spec.split_at mark text.now).1 }
    ensures within { length result.0.now + length result.1.now ≤ length text.now }
    ensures nearer { 0 < length text.now → length result.1.now < length text.now }
{
    match place_of(text, mark) {
        Some(place) => (&text[..place], &text[place + 1..]),
        None => (text, &[]),
    }
}

/// The first word, up to a blank, and what stands behind the blank.
pub fn split_word(text: &[u8]) -> (&[u8], &[u8])
    ensures before { result.0.now ≡ (spec.split_word text.now).0 }
    ensures behind { result.1.now ≡ (spec.split_word text.now).1 }
    ensures within { length result.0.now + length result.1.now ≤ length text.now }
    ensures nearer { 0 < length text.now → length result.1.now < length text.now }
{
    split_at_byte(text, b' ')
}

/// What stands before the first comma, and what stands behind it.
pub fn split_at_comma(text: &[u8]) -> (&[u8], &[u8])
    ensures before { result.0.now ≡ (spec.split_comma text.now).0 }
    ensures behind { result.1.now ≡ (spec.split_comma text.now).1 }
    ensures within { length result.0.now + length result.1.now ≤ length text.now }
{
    split_at_byte(text, b',')
}

/// Whether a byte is a decimal digit.
fn is_ascii_digit(byte: u8) -> bool
    ensures { result ≡ spec.is_ascii_digit byte }
{
    b'0' <= byte && byte <= b'9'
}

/// The number of these decimal digits.
fn digits_number(digits: &[u8]) -> u64
    ensures { result ≡ spec.digits_number digits.now }
{
    let mut number: u64 = 0;
    for digit in digits {
        number = number
            .saturating_mul(10)
            .saturating_add(u64::from(digit.saturating_sub(b'0')));
    }
    number
}

/// Whether each byte is a decimal digit.
fn are_digits(text: &[u8]) -> bool
    ensures { result ≡ list_all spec.is_ascii_digit text.now }
{
    text.iter().all(|byte| is_ascii_digit(*byte))
}

/// The number that a text of 1 to 18 decimal digits writes.
#[tactic(auto, unfolding(crate::specs::Parts::decimal_number))]
pub fn number_of(text: &[u8]) -> Option<u64>
    ensures { result ≡ spec.decimal_number text.now }
{
    if text.is_empty() || text.len() > 18 || !are_digits(text) {
        return None;
    }
    Some(digits_number(text))
}
