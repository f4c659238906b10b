ghost use Rattle.std.specs.Prelude.{◌≡◌, ℕ, ◌+◌, ◌*◌, ◌/◌, ◌%◌, ◌≤◌, length, IsTrue};
ghost use Rattle.std.specs.List.{All};
ghost use Rattle.emv_dict.specs.Bcd.{has_digits as is_digits, number_of_bcd, two_digits as digits_of, number_in, numeric};
ghost use Rattle.emv_dict.specs.Settings.{most_amount, is_code as is_iso_code};

/// The greatest amount of 12 decimal digits (EMV 4.3 Book 3 Annex A, tag 9F02).
pub const MOST_AMOUNT: u64 = 999_999_999_999;

/// Whether both halves of the byte are decimal digits.
pub fn has_digits(byte: u8) -> bool
    ensures { result ≡ is_digits byte }
{
    byte / 16 <= 9 && byte % 16 <= 9
}

/// The number of the byte's two digits; a half above 9 counts as its value.
pub fn two_digit_number(byte: u8) -> u8
    ensures { result ≡ number_of_bcd byte }
{
    byte / 16 * 10 + byte % 16
}

/// The byte of a number's two digits.
pub fn two_digits(number: u8) -> u8
    requires { number ≤ 99 }
    ensures digits { result ≡ digits_of number }
    ensures decimal { IsTrue (is_digits result) }
    ensures read_again { number_of_bcd result ≡ number }
{
    number / 10 * 16 + number % 10
}

/// Whether two bytes are the code of a country or of a currency: a zero and three decimal digits
/// (ISO 3166, ISO 4217).
pub fn is_code(bytes: [u8; 2]) -> bool
    ensures { result ≡ is_iso_code bytes }
{
    let [first, second] = bytes;
    first <= 9 && has_digits(second)
}

/// An amount's twelve digits, two a byte, as of the objects 9F02 and 9F03.
#[tactic(auto, unfolding(crate::specs::Bcd::numeric, crate::specs::Bcd::number_in, crate::specs::Nibbles::nibbles))]
pub fn amount_bytes(amount: u64) -> [u8; 6]
    requires { amount ≤ most_amount }
    ensures digits { result ≡ numeric 6 amount }
    ensures decimal { All (λ b. IsTrue (is_digits b)) result }
    ensures read_again { number_in result ≡ amount }
{
    let fifth = amount / 100;
    let fourth = fifth / 100;
    let third = fourth / 100;
    let second = third / 100;
    let first = second / 100;
    [
        lowest_digits(first),
        lowest_digits(second),
        lowest_digits(third),
        lowest_digits(fourth),
        lowest_digits(fifth),
        lowest_digits(amount),
    ]
}

/// A number's two lowest digits in one byte.
fn lowest_digits(number: u64) -> u8
    ensures digits { result ≡ digits_of (number % 100) }
    ensures decimal { IsTrue (is_digits result) }
    ensures high { result / 16 ≡ number % 100 / 10 }
    ensures low { result % 16 ≡ number % 10 }
{
    two_digits((number % 100) as u8)
}

/// The number of twelve digits, two a byte; a half byte above 9 counts as its value.
pub fn amount_of(bytes: [u8; 6]) -> u64
    ensures number { result ≡ number_in bytes }
    ensures small { result ≤ 1666666666665 }
{
    number_of_six(&bytes)
}

/// The number of six bytes of two digits each.
fn number_of_six(bytes: &[u8]) -> u64
    requires six { length bytes.now ≡ 6 }
    ensures number { result ≡ number_in bytes.now }
    ensures small { result ≤ 1666666666665 }
{
    pair(bytes[0]) * 10_000_000_000
        + pair(bytes[1]) * 100_000_000
        + pair(bytes[2]) * 1_000_000
        + pair(bytes[3]) * 10_000
        + pair(bytes[4]) * 100
        + pair(bytes[5])
}

/// The number of a byte's two digits.
fn pair(byte: u8) -> u64
    ensures value { result ≡ byte / 16 * 10 + byte % 16 }
    ensures small { result ≤ 165 }
{
    u64::from(two_digit_number(byte))
}
