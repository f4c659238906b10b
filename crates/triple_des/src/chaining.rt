ghost use Rattle.std.specs.Prelude.{◌≡◌, ◌≤◌, ◌<◌, ◌+◌, ◌++◌, [], length, take, drop, slice_index};
ghost use Rattle.triple_des.specs.Bits.{xor_bytes};
ghost use Rattle.triple_des.specs.Mac.{padded_text, blocks, chained, mac};
ghost use Rattle.triple_des.specs.TripleDes.{left_keys};

use crate::double::Key16;
use crate::single::Des;

/// Two blocks added bit by bit.
pub fn xor_blocks(first: [u8; 8], second: [u8; 8]) -> [u8; 8]
    ensures { result ≡ xor_bytes first second }
{
    let mut sum = first;
    for index in 0..8 {
        sum[index] = first[index] ^ second[index];
    }
    sum
}

/// The byte at a place of two texts, one behind the other, with their padding.
fn padded_byte(head: &[u8], tail: &[u8], at: usize) -> u8
    requires { at < length (padded_text (head.now ++ tail.now)) }
    ensures { result ≡ slice_index (padded_text (head.now ++ tail.now)) at }
{
    if at < head.len() {
        return head[at];
    }
    let behind = at - head.len();
    if behind < tail.len() {
        return tail[behind];
    }
    if behind == tail.len() { 0x80 } else { 0 }
}

/// The eight bytes from a place on of two texts, one behind the other, with their padding.
fn padded_block(head: &[u8], tail: &[u8], at: usize) -> [u8; 8]
    requires { at + 8 ≤ length (padded_text (head.now ++ tail.now)) }
    ensures { result ≡ take 8 (drop at (padded_text (head.now ++ tail.now))) }
{
    let mut block = [0; 8];
    for index in 0..8 {
        block[index] = padded_byte(head, tail, at + index);
    }
    block
}

/// What single DES gives for the last of the chained blocks of two texts, one behind the other, with
/// their padding.
fn chain(key: &Des, head: &[u8], tail: &[u8]) -> [u8; 8]
    ensures { result ≡ chained key.now (blocks (padded_text (head.now ++ tail.now))) }
{
    let count = (head.len() + tail.len()) / 8 + 1;
    let mut state = [0; 8];
    for index in 0..count {
        state = key.encipher(xor_blocks(state, padded_block(head, tail, 8 * index)));
    }
    state
}

/// The message authentication code of a text (ISO/IEC 9797-1 algorithm 3 with padding method 2, as
/// EMV 4.3 Book 2 Annex A1.2 takes it): a byte 80 and the fewest bytes 00 up to a multiple of eight
/// stand behind the text, single DES chains the blocks with the left key from a zero block on, and the
/// last result is deciphered with the right key and enciphered with the left.
pub fn mac(key: &Key16, text: &[u8]) -> [u8; 8]
    ensures { result ≡ mac key.now text.now }
{
    mac_joined(key, text, &[])
}

/// The message authentication code of two texts as one, the tail right behind the head.
#[tactic(auto, unfolding(crate::specs::Mac::mac))]
pub fn mac_joined(key: &Key16, head: &[u8], tail: &[u8]) -> [u8; 8]
    ensures { result ≡ mac key.now (head.now ++ tail.now) }
{
    let last = chain(key.left(), head, tail);
    key.left().encipher(key.decipher_right(last))
}
