//! Decimal digits as characters.
ghost use Rattle.std.specs.Prelude.{◌≡◌, ◌≤◌, IfSome};
ghost use Rattle.script_words.specs.Numeral.{is_shortest as is_shortest_spec, pin_in_text, number_up_to, numeral_of};

use emv_dict::Digits;

/// The PIN of 4 to 12 decimal digits that a text of ASCII writes (ISO 9564-1); `None` for any other
/// text.
#[tactic(auto, unfolding(crate::specs::Numeral::pin_in_text))]
pub fn read_pin(text: &[u8]) -> Option<Digits>
    ensures { result ≡ pin_in_text text.now }
{
    if text.len() < 4 || text.len() > 12 {
        return None;
    }
    let mut digits = Digits::empty();
    for c in text {
        if !c.is_ascii_digit() {
            return None;
        }
        digits.push(*c - b'0');
    }
    Some(digits)
}

/// The number up to `most` that a text of ASCII writes in decimal without leading zeros; `None` for
/// any other text.
#[tactic(auto, unfolding(crate::specs::Numeral::numeral_of))]
pub fn read_numeral(text: &[u8], most: u64) -> Option<u64>
    requires { most ≤ 999999999999 }
    ensures exact { result ≡ numeral_of most text.now }
    ensures within { IfSome result (λ n. n ≤ most) }
{
    if is_shortest(text) {
        read_number(text, most)
    } else {
        None
    }
}

/// Whether the text has a character, and more only where the first is not `0`.
fn is_shortest(text: &[u8]) -> bool
    ensures { result ≡ is_shortest_spec text.now }
{
    match text {
        [] => false,
        [_] => true,
        [first, _, ..] => *first != b'0',
    }
}

/// The number up to `most` that a text of digits alone writes.
#[tactic(auto, using(crate::proofs::Numerals::read_on_is))]
fn read_number(text: &[u8], most: u64) -> Option<u64>
    requires { most ≤ 999999999999 }
    ensures exact { result ≡ number_up_to most text.now }
    ensures within { IfSome result (λ n. n ≤ most) }
{
    let mut number = 0;
    for c in text {
        if !c.is_ascii_digit() {
            return None;
        }
        number = number * 10 + u64::from(*c - b'0');
        if number > most {
            return None;
        }
    }
    Some(number)
}
