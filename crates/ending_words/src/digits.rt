//! Numbers in lower-case hexadecimal digits.
ghost use Rattle.std.specs.Prelude.{◌≡◌};
ghost use Rattle.std.specs.List.{list_all};
ghost use Rattle.ending_words.specs.Endings as spec;

/// Whether a byte is a lower-case hexadecimal digit.
fn is_digit(byte: u8) -> bool
    ensures { result ≡ spec.is_hex_digit byte }
{
    (b'0' <= byte && byte <= b'9') || (b'a' <= byte && byte <= b'f')
}

/// The value of a lower-case hexadecimal digit.
fn digit_value(byte: u8) -> u8
    ensures { result ≡ spec.hex_digit byte }
{
    if byte <= b'9' {
        byte.saturating_sub(b'0')
    } else {
        byte.saturating_sub(b'a' - 10)
    }
}

/// The number of these hexadecimal digits.
fn digits_number(digits: &[u8]) -> u64
    ensures { result ≡ spec.hex_digits_number digits.now }
{
    let mut number: u64 = 0;
    for digit in digits {
        number = number
            .saturating_mul(16)
            .saturating_add(u64::from(digit_value(*digit)));
    }
    number
}

/// Whether each byte is a lower-case hexadecimal digit.
fn are_digits(text: &[u8]) -> bool
    ensures { result ≡ list_all spec.is_hex_digit text.now }
{
    text.iter().all(|byte| is_digit(*byte))
}

/// The number of 1 to 16 hexadecimal digits.
#[tactic(auto, unfolding(crate::specs::Endings::hex_number))]
pub fn hex_number(text: &[u8]) -> Option<u64>
    ensures { result ≡ spec.hex_number text.now }
{
    if text.is_empty() || text.len() > 16 || !are_digits(text) {
        return None;
    }
    Some(digits_number(text))
}
