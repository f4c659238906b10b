ghost use Rattle.std.specs.Prelude.{◌≡◌, ◌+◌, ◌*◌, ◌<◌, ◌≤◌, ◌++◌, length};
ghost use Rattle.std.specs.List.{All};
ghost use Rattle.emv_dict.specs.Nibbles.{packed};

use arrayvec::ArrayVec;

/// Hexadecimal digits, two a byte.
pub fn pack(digits: &[u8]) -> ArrayVec<u8, 11>
    requires most { length digits.now ≤ 22 }
    requires small { All (λ d. d < 16) digits.now }
    ensures { result.items ≡ packed digits.now }
{
    let mut bytes = ArrayVec::new();
    append_packed(&mut bytes, digits);
    bytes
}

/// Appends hexadecimal digits, two a byte.
#[tactic(auto, unfolding(emv_dict::specs::Nibbles::packed))]
fn append_packed(bytes: &mut ArrayVec<u8, 11>, digits: &[u8])
    requires room { 2 * length bytes.old.items + length digits.now ≤ 22 }
    requires small { All (λ d. d < 16) digits.now }
    ensures { bytes.new.items ≡ bytes.old.items ++ packed digits.now }
{
    match digits {
        [high, low, rest @ ..] => {
            bytes.push(*high * 16 + *low);
            append_packed(bytes, rest);
        }
        _ => {}
    }
}

/// The block of sixteen hexadecimal digits.
pub fn pack_block(digits: &[u8]) -> [u8; 8]
    requires sixteen { length digits.now ≡ 16 }
    requires small { All (λ d. d < 16) digits.now }
    ensures { result ≡ packed digits.now }
{
    let mut block = [0; 8];
    block.copy_from_slice(&pack(digits));
    block
}
