//! Numbers as decimal digits of ASCII.
ghost use Rattle.std.specs.Prelude.{◌≡◌, ◌+◌, ◌/◌, ◌%◌, ◌≤◌, ◌++◌};
ghost use Rattle.iso_message.specs.Text.{counter_digits as six_digits, decimal_digits, digit_characters, zeros};

/// A counter of two bytes in six digits.
#[tactic(auto, unfolding(crate::specs::Text::counter_digits, crate::specs::Text::decimal_digits))]
pub fn counter(bytes: [u8; 2]) -> [u8; 6]
    ensures { result ≡ six_digits bytes }
{
    let number = usize::from(bytes[0]) * 256 + usize::from(bytes[1]);
    let tens = number / 10;
    let hundreds = tens / 10;
    let thousands = hundreds / 10;
    let ten_thousands = thousands / 10;
    [
        numeral(ten_thousands / 10),
        numeral(ten_thousands),
        numeral(thousands),
        numeral(hundreds),
        numeral(tens),
        numeral(number),
    ]
}

/// The same behind six zeros.
pub fn reference(bytes: [u8; 2]) -> [u8; 12]
    ensures { result ≡ zeros 6 ++ six_digits bytes }
{
    let [a, b, c, d, e, f] = counter(bytes);
    [48, 48, 48, 48, 48, 48, a, b, c, d, e, f]
}

/// A number's two lowest digits.
#[tactic(auto, unfolding(crate::specs::Text::decimal_digits))]
pub fn two_digits(number: usize) -> [u8; 2]
    ensures { result ≡ digit_characters (decimal_digits 2 number) }
{
    [numeral(number / 10), numeral(number)]
}

/// A number's four lowest digits.
#[tactic(auto, unfolding(crate::specs::Text::decimal_digits))]
pub fn four_digits(number: usize) -> [u8; 4]
    ensures { result ≡ digit_characters (decimal_digits 4 number) }
{
    let tens = number / 10;
    let hundreds = tens / 10;
    [
        numeral(hundreds / 10),
        numeral(hundreds),
        numeral(tens),
        numeral(number),
    ]
}

/// The character of a number's lowest digit.
fn numeral(number: usize) -> u8
    ensures { result ≡ 48 + number % 10 }
{
    48 + (number % 10) as u8
}
