ghost use Rattle.std.specs.Prelude.{◌≡◌, ◌+◌, ◌*◌, ◌<◌, ◌≤◌, ◌↔◌, List, ℕ, length, take, drop, IsSome, IsTrue, IfSome, Some};
ghost use Rattle.std.specs.List.{All};
ghost use Rattle.emv_dict.specs.Digits.{AllDecimal, least_pin, most_pin};
ghost use Rattle.emv_dict.specs.Nibbles.{nibbles, packed};
ghost use Rattle.pin_block.specs.Block.{IsPin, block_digits, block_of};

use emv_dict::{Digits, is_pin_length, nibble_at};

/// The block of a PIN in the format of this number.
#[tactic(auto, unfolding(crate::specs::Block::block_of))]
pub(crate) fn block(format: u8, pin: &Digits) -> [u8; 8]
    requires format { format < 16 }
    requires least { least_pin ≤ length pin.now }
    requires most { length pin.now ≤ most_pin }
    ensures value { result ≡ block_of format pin.now }
    ensures pin { IsPin pin.now }
{
    pack(digits_of(format, pin.as_slice()))
}

/// The sixteen digits of a block.
fn digits_of(format: u8, pin: &[u8]) -> [u8; 16]
    requires format { format < 16 }
    requires most { length pin.now ≤ most_pin }
    requires decimal { AllDecimal pin.now }
    ensures value { result ≡ block_digits format pin.now }
    ensures small { All (λ d. d < 16) result }
{
    let mut digits = [15; 16];
    digits[2..2 + pin.len()].copy_from_slice(pin);
    digits[0] = format;
    digits[1] = pin.len() as u8;
    digits
}

/// Two hexadecimal digits a byte.
pub(crate) fn pack(digits: [u8; 16]) -> [u8; 8]
    requires { All (λ d. d < 16) digits }
    ensures { result ≡ packed digits }
{
    let mut bytes = [0; 8];
    for i in 0..8usize {
        bytes[i] = digits[2 * i] * 16 + digits[2 * i + 1];
    }
    bytes
}

/// The PIN of a block in the format of this number.
pub(crate) fn read_block(format: u8, bytes: [u8; 8]) -> Option<Digits>
    requires { format < 16 }
    ensures found { IfSome result (λ pin. IsPin pin × (block_of format pin ≡ bytes)) }
    ensures reads { (pin : List ℕ) → IsPin pin → block_of format pin ≡ bytes → result ≡ Some pin }
{
    let count = usize::from(nibble_at(&bytes, 1));
    if !is_pin_length(count) {
        return None;
    }
    match pin_digits(bytes, count) {
        Some(pin) => of_block(format, pin, bytes),
        None => None,
    }
}

/// The PIN, where the bytes are its block in the format of this number.
fn of_block(format: u8, pin: Digits, bytes: [u8; 8]) -> Option<Digits>
    requires format { format < 16 }
    requires least { least_pin ≤ length pin }
    requires most { length pin ≤ most_pin }
    ensures found { IfSome result (λ found. IsPin found × (block_of format found ≡ bytes)) }
    ensures same { block_of format pin ≡ bytes → result ≡ Some pin }
{
    if block(format, &pin) == bytes {
        Some(pin)
    } else {
        None
    }
}

/// So many digits behind the first two, where all are decimal.
fn pin_digits(bytes: [u8; 8], count: usize) -> Option<Digits>
    requires { count ≤ 12 }
    ensures digits { IsSome result ↔ AllDecimal (take count (drop 2 (nibbles bytes))) }
    ensures value { IfSome result (λ pin. pin ≡ take count (drop 2 (nibbles bytes))) }
    ensures count { IfSome result (λ pin. length pin ≡ count) }
{
    let mut numbers = [0; 12];
    for i in 0..count {
        numbers[i] = nibble_at(&bytes, 2 + i);
    }
    Digits::new(&numbers[..count])
}
