ghost use Rattle.std.specs.Prelude.{◌≡◌, ◌≤◌, List, ℕ, length, IfSome, Some};
ghost use Rattle.emv_dict.specs.Digits.{least_pin, most_pin};
ghost use Rattle.pin_block.specs.Block.{IsPin, block_of};

use crate::block::{block, read_block};
use emv_dict::Digits;

/// The plain PIN block of VERIFY: format 2 of ISO 9564-1 (EMV 4.3 Book 3 section 6.5.12). The PIN has
/// 4 to 12 digits.
pub fn plain_block(pin: &Digits) -> [u8; 8]
    requires least { least_pin ≤ length pin.now }
    requires most { length pin.now ≤ most_pin }
    ensures value { result ≡ block_of 2 pin.now }
    ensures pin { IsPin pin.now }
{
    block(2, pin)
}

/// The PIN of a plain PIN block of format 2, or `None` where the bytes are no such block of 4 to 12
/// digits.
pub fn read_plain(bytes: [u8; 8]) -> Option<Digits>
    ensures found { IfSome result (λ pin. IsPin pin × (block_of 2 pin ≡ bytes)) }
    ensures reads { (pin : List ℕ) → IsPin pin → block_of 2 pin ≡ bytes → result ≡ Some pin }
{
    read_block(2, bytes)
}
