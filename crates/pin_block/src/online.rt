ghost use Rattle.std.specs.Prelude.{◌≡◌, ◌<◌, ◌≤◌, List, ℕ, [], ◌∷◌, ◌++◌, length, IfSome, Some};
ghost use Rattle.std.specs.List.{All};
ghost use Rattle.emv_dict.specs.Digits.{AllDecimal, least_pin, most_pin};
ghost use Rattle.emv_dict.specs.Nibbles.{packed};
ghost use Rattle.triple_des.specs.Bits.{xor_bytes};
ghost use Rattle.triple_des.specs.TripleDes.{tdes};
ghost use Rattle.pin_block.specs.Block.{IsPin, block_of};
ghost use Rattle.pin_block.specs.Online.{account_digits, account_field, online_of};

use crate::block::{block, pack, read_block};
use emv_dict::Digits;
use triple_des::{Key16, xor_blocks};

/// The PIN block in which a PIN goes to the issuer: format 0 of ISO 9564-1 under the PIN key, of a PIN
/// of 4 to 12 digits and an account number of at least 13.
#[tactic(auto, unfolding(crate::specs::Online::online_of))]
pub fn online_block(key: &Key16, pin: &Digits, pan: &Digits) -> [u8; 8]
    requires least { least_pin ≤ length pin.now }
    requires most { length pin.now ≤ most_pin }
    requires pan { 13 ≤ length pan.now }
    ensures value { result ≡ online_of key.now pin.now pan.now }
    // Of the account number it covers the twelve digits before the last one, the check digit.
    ensures account { (front twelve : List ℕ) (check : ℕ) → length twelve ≡ 12
        → pan.now ≡ front ++ twelve ++ check ∷ []
        → result ≡ tdes key.now (xor_bytes (block_of 0 pin.now) (packed (0 ∷ 0 ∷ 0 ∷ 0 ∷ twelve))) }
    ensures pin { IsPin pin.now }
{
    key.encipher(xor_blocks(block(0, pin), account_block(pan)))
}

/// The PIN of such a block under this key and for this account number, or `None` where the bytes are
/// no such block of 4 to 12 digits.
pub fn read_online(key: &Key16, bytes: [u8; 8], pan: &Digits) -> Option<Digits>
    requires { 13 ≤ length pan.now }
    ensures found { IfSome result (λ pin. IsPin pin × (online_of key.now pin pan.now ≡ bytes)) }
    ensures reads { (pin : List ℕ) → IsPin pin → online_of key.now pin pan.now ≡ bytes → result ≡ Some pin }
{
    read_block(0, xor_blocks(key.decipher(bytes), account_block(pan)))
}

/// The account number field.
#[tactic(auto, unfolding(crate::specs::Online::account_field))]
fn account_block(pan: &Digits) -> [u8; 8]
    requires { 13 ≤ length pan.now }
    ensures { result ≡ account_field pan.now }
{
    pack(account_nibbles(pan.as_slice()))
}

/// The sixteen digits of the account number field.
fn account_nibbles(pan: &[u8]) -> [u8; 16]
    requires long { 13 ≤ length pan.now }
    requires decimal { AllDecimal pan.now }
    ensures value { result ≡ account_digits pan.now }
    ensures small { All (λ d. d < 16) result }
{
    let first = pan.len() - 13;
    let mut digits = [0; 16];
    digits[4..].copy_from_slice(&pan[first..first + 12]);
    digits
}
