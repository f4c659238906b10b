//! Numbers in decimal digits.
ghost use Rattle.std.specs.Prelude.{◌≡◌, ◌≤◌, IfSome};
ghost use Rattle.line_talk.specs.Numbers as spec;

/// A number with one more digit, where the byte is one and the number is within the limit.
fn with_digit(most: u32, number: u32, byte: u8) -> Option<u32>
    requires most { most ≤ 100000000 }
    requires few { number ≤ most }
    ensures exact { result ≡ spec.with_digit most number byte }
    ensures within { IfSome result (λ n. n ≤ most) }
{
    if byte < b'0' || b'9' < byte {
        return None;
    }
    let longer = number * 10 + u32::from(byte - b'0');
    if longer > most { None } else { Some(longer) }
}

/// The same of a number that was one so far.
fn next_digit(most: u32, number: Option<u32>, byte: u8) -> Option<u32>
    requires most { most ≤ 100000000 }
    requires few { IfSome number (λ n. n ≤ most) }
    ensures exact { result ≡ spec.next_digit most number byte }
    ensures within { IfSome result (λ n. n ≤ most) }
{
    match number {
        Some(number) => with_digit(most, number, byte),
        None => None,
    }
}

/// The number of these digits and no more.
fn spelled(most: u32, digits: &[u8]) -> Option<u32>
    requires most { most ≤ 100000000 }
    ensures exact { result ≡ spec.digits_spelled most digits.now }
    ensures within { IfSome result (λ n. n ≤ most) }
{
    let mut number = Some(0);
    for byte in digits {
        number = next_digit(most, number, *byte);
    }
    number
}

/// The number that a text of at least one digit spells, where it is at most `most`.
#[tactic(auto, unfolding(crate::specs::Numbers::digits_up_to))]
pub fn number_of(most: u32, text: &[u8]) -> Option<u32>
    requires most { most ≤ 100000000 }
    ensures exact { result ≡ spec.digits_up_to most text.now }
    ensures within { IfSome result (λ n. n ≤ most) }
{
    match text {
        [] => None,
        [_, ..] => spelled(most, text),
    }
}
