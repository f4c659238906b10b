//! The cipher on machine words, round after round.

ghost use Rattle.std.specs.Prelude.{◌≡◌, ◌<◌, [], ◌∷◌, ◌++◌, map, slice_index_or};
ghost use Rattle.std.specs.Int.{bit_at};
ghost use Rattle.triple_des.specs.Bits.{bits, pick};
ghost use Rattle.triple_des.specs.Tables.{box_tables, permutation_table};
ghost use Rattle.triple_des.specs.Des.{box_bits, placed, cipher_function, rounds, cipher, enciphered};

use crate::permuting::permute_by;
use crate::tables::{FINAL, INITIAL, MERGED};

/// P of 32 bits in which the four that a selection function gives stand at its four places and all others
/// are 0 (FIPS 46-3, "the cipher function f"). `number` counts the functions S1 to S8 from 0, `six` is the
/// six bits as a number, the first one the highest.
pub fn merged(number: u8, six: u8) -> u32
    requires boxes { number < 8 }
    requires bits { six < 64 }
    ensures { bits 32 result
        ≡ pick permutation_table (placed number (box_bits (slice_index_or box_tables number []) (bits 6 six))) }
{
    MERGED[number as usize][six as usize]
}

/// A half between its last bit and its first. In it the six bits that E takes for a box stand side by
/// side, four places behind those of the box before.
fn ringed(half: u32) -> u64
    ensures { bits 34 result ≡ bit_at half 0 ∷ bits 32 half ++ bit_at half 31 ∷ [] }
{
    let half = u64::from(half);
    half % 2 * (1 << 33) + half * 2 + half / (1 << 31)
}

/// The cipher function f of a right half and a round key, of which the lowest 48 bits count.
fn mix(right: u32, key: u64) -> u32
    ensures { bits 32 result ≡ cipher_function (bits 32 right) (bits 48 key) }
{
    let ring = ringed(right);
    let mut out = 0;
    for number in 0..8u8 {
        let six = ((ring >> (28 - 4 * number)) ^ (key >> (42 - 6 * number))) % 64;
        out ^= merged(number, six as u8);
    }
    out
}

/// The halves after a round for each key.
fn run_rounds(keys: &[u64], left: u32, right: u32) -> (u32, u32)
    ensures { (bits 32 result.0, bits 32 result.1)
        ≡ rounds (map (bits 48) keys.now) (bits 32 left, bits 32 right) }
{
    let mut left = left;
    let mut right = right;
    for key in keys {
        let mixed = left ^ mix(right, *key);
        left = right;
        right = mixed;
    }
    (left, right)
}

/// A block enciphered under round keys, as a word.
fn encipher_word(keys: &[u64], block: u64) -> u64
    ensures { bits 64 result ≡ cipher (map (bits 48) keys.now) (bits 64 block) }
{
    let start = permute_by(&INITIAL, block);
    let (left, right) = run_rounds(keys, (start >> 32) as u32, (start % (1 << 32)) as u32);
    let last = u64::from(right) * (1 << 32) + u64::from(left);
    permute_by(&FINAL, last)
}

/// A block enciphered under round keys, of which the lowest 48 bits count.
pub fn encipher_block(keys: &[u64], block: [u8; 8]) -> [u8; 8]
    ensures { result ≡ enciphered (map (bits 48) keys.now) block }
{
    encipher_word(keys, u64::from_be_bytes(block)).to_be_bytes()
}
