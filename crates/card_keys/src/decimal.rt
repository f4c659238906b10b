ghost use Rattle.std.specs.Prelude.{◌≡◌, ◌+◌, ◌≤◌, ◌<◌, ◌++◌, length, map, take};
ghost use Rattle.std.specs.List.{All, filter};
ghost use Rattle.emv_dict.specs.Digits.{AllDecimal};
ghost use Rattle.emv_dict.specs.Nibbles.{nibbles, is_decimal};
ghost use Rattle.card_keys.specs.Decimal.{is_letter, less_ten, decimals_of, decimalised};

use crate::packing::pack_block;
use arrayvec::ArrayVec;
use emv_dict::nibble_at;

/// Sixteen decimal digits of a hash, two a byte (EMV 4.3 Book 2 Annex A1.4.2, the last step of option B):
/// the first sixteen of the decimal ones among its forty hexadecimal digits in their order, and then of
/// the digits A to F in their order, as 0 to 5.
#[tactic(auto, unfolding(crate::specs::Decimal::decimalised))]
pub fn decimalise(hash: [u8; 20]) -> [u8; 8]
    ensures value { result ≡ decimalised hash }
    ensures decimal { AllDecimal (nibbles result) }
    // It has as many of the hash's decimal digits as there are, up to sixteen, in their order.
    ensures first { take (length (decimals_of (nibbles hash))) (nibbles result) ≡ take 16 (decimals_of (nibbles hash)) }
{
    let digits = hexadecimal(hash);
    let mut list = decimals(&digits);
    append_letters(&mut list, &digits);
    pack_block(&list[..16])
}

/// The forty hexadecimal digits of a hash.
fn hexadecimal(hash: [u8; 20]) -> [u8; 40]
    ensures value { result ≡ nibbles hash }
    ensures small { All (λ d. d < 16) result }
{
    let mut digits = [0; 40];
    for place in 0..40usize {
        digits[place] = nibble_at(&hash, place);
    }
    digits
}

/// The decimal ones of hexadecimal digits.
fn decimals(digits: &[u8; 40]) -> ArrayVec<u8, 40>
    ensures { result.items ≡ decimals_of digits.now }
{
    let mut list = ArrayVec::new();
    for digit in digits {
        if *digit <= 9 {
            list.push(*digit);
        }
    }
    list
}

/// Appends the other ones, each less ten.
fn append_letters(list: &mut ArrayVec<u8, 40>, digits: &[u8; 40])
    requires { list.old.items ≡ decimals_of digits.now }
    ensures { list.new.items ≡ list.old.items ++ map less_ten (filter is_letter digits.now) }
{
    for digit in digits {
        if *digit > 9 {
            list.push(*digit - 10);
        }
    }
}
