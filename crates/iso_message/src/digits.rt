//! Decimal digits as characters of ASCII.
ghost use Rattle.std.specs.Prelude.{◌≡◌, ◌+◌, ◌*◌, ◌/◌, ◌%◌, ◌≤◌, ◌∷◌, length, drop, true};
ghost use Rattle.emv_dict.specs.Bcd.{number_of_digits};
ghost use Rattle.emv_dict.specs.Nibbles.{nibbles, packed};
ghost use Rattle.iso_message.specs.Text.{are_numerals as all_numerals, digit_characters, values};

use emv_dict::Digits;

/// Whether each is the character of a decimal digit.
pub fn are_numerals(characters: &[u8]) -> bool
    ensures { result ≡ all_numerals characters.now }
{
    characters
        .iter()
        .all(|character| 48 <= *character && *character <= 57)
}

/// The number of at most four digits.
#[tactic(auto, using(crate::proofs::Numerals::small_number))]
pub fn number(characters: &[u8]) -> usize
    requires few { length characters.now ≤ 4 }
    requires numerals { all_numerals characters.now ≡ true }
    ensures value { result ≡ number_of_digits (values characters.now) }
    ensures small { result ≤ 9999 }
{
    match characters {
        [] => 0,
        [a] => value(*a),
        [a, b] => value(*a) * 10 + value(*b),
        [a, b, c] => value(*a) * 100 + value(*b) * 10 + value(*c),
        [a, b, c, d] => value(*a) * 1000 + value(*b) * 100 + value(*c) * 10 + value(*d),
        _ => unreachable!(),
    }
}

/// The digit of a character.
fn value(character: u8) -> usize
    ensures value { result ≡ character % 16 }
    ensures small { result ≤ 15 }
{
    usize::from(character % 16)
}

/// The digits of an account number.
#[tactic(auto, using(crate::proofs::Numerals::decimal_at))]
pub fn digits_of(characters: &[u8]) -> Digits
    requires room { length characters.now ≤ 19 }
    requires numerals { all_numerals characters.now ≡ true }
    ensures { result ≡ values characters.now }
{
    let mut digits = Digits::empty();
    for character in characters {
        digits.push(*character % 16);
    }
    digits
}

/// The byte of two digits.
fn pair(high: u8, low: u8) -> u8
    ensures { result ≡ high % 16 * 16 + low % 16 }
{
    high % 16 * 16 + low % 16
}

/// The byte of two digits' characters.
#[tactic(auto, unfolding(emv_dict::specs::Nibbles::packed))]
pub fn one_byte(characters: &[u8]) -> [u8; 1]
    requires { length characters.now ≡ 2 }
    ensures { result ≡ packed (values characters.now) }
{
    match characters {
        [a, b] => [pair(*a, *b)],
        _ => unreachable!(),
    }
}

/// The bytes of three digits' characters behind a zero.
#[tactic(auto, unfolding(emv_dict::specs::Nibbles::packed))]
pub fn two_bytes(characters: &[u8]) -> [u8; 2]
    requires { length characters.now ≡ 3 }
    ensures { result ≡ packed (0 ∷ values characters.now) }
{
    match characters {
        [a, b, c] => [*a % 16, pair(*b, *c)],
        _ => unreachable!(),
    }
}

/// The bytes of twelve digits' characters.
pub fn six_bytes(characters: &[u8]) -> [u8; 6]
    requires { length characters.now ≡ 12 }
    ensures { result ≡ packed (values characters.now) }
{
    match characters {
        [a, b, c, d, e, f, g, h, i, j, k, l] => [
            pair(*a, *b),
            pair(*c, *d),
            pair(*e, *f),
            pair(*g, *h),
            pair(*i, *j),
            pair(*k, *l),
        ],
        _ => unreachable!(),
    }
}

/// The characters of the last three digits of two bytes.
#[tactic(auto, unfolding(emv_dict::specs::Nibbles::nibbles))]
pub fn currency(bytes: &[u8]) -> [u8; 3]
    requires { length bytes.now ≡ 2 }
    ensures { result ≡ digit_characters (drop 1 (nibbles bytes.now)) }
{
    match bytes {
        [a, b] => [48 + *a % 16, 48 + *b / 16, 48 + *b % 16],
        _ => unreachable!(),
    }
}
