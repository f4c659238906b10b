//! The key schedule on machine words.

ghost use Rattle.std.specs.Prelude.{◌≡◌, ◌<◌, ◌≤◌, ◌^◌, map};
ghost use Rattle.triple_des.specs.Bits.{bits};
ghost use Rattle.triple_des.specs.Tables.{shift_table};
ghost use Rattle.triple_des.specs.Des.{rotated_left, schedule, round_keys};

use crate::permuting::permute_by;
use crate::tables::{FIRST_CHOICE, SECOND_CHOICE, SHIFTS};

/// A half of the schedule, turned to the left by one place.
fn turn_once(half: u64) -> u64
    requires { half < 2 ^ 28 }
    ensures fits { result < 2 ^ 28 }
    ensures bits { bits 28 result ≡ rotated_left 1 (bits 28 half) }
{
    half % (1 << 27) * 2 + half / (1 << 27)
}

/// A half of the schedule, turned to the left by one place or two.
fn turn(half: u64, places: u8) -> u64
    requires half { half < 2 ^ 28 }
    requires some { 1 ≤ places }
    requires few { places ≤ 2 }
    ensures fits { result < 2 ^ 28 }
    ensures bits { bits 28 result ≡ rotated_left places (bits 28 half) }
{
    let once = turn_once(half);
    if places == 1 {
        return once;
    }
    turn_once(once)
}

/// The round keys from the halves C and D that PC-1 gives.
fn schedule_halves(left: u64, right: u64) -> [u64; 16]
    requires left { left < 2 ^ 28 }
    requires right { right < 2 ^ 28 }
    ensures { map (bits 48) result ≡ schedule shift_table (bits 28 left) (bits 28 right) }
{
    let mut left = left;
    let mut right = right;
    let mut keys = [0; 16];
    for index in 0..16 {
        left = turn(left, SHIFTS[index]);
        right = turn(right, SHIFTS[index]);
        keys[index] = permute_by(&SECOND_CHOICE, left * (1 << 28) + right);
    }
    keys
}

/// The sixteen round keys of a key, the lowest 48 bits of a word each.
pub fn schedule_key(key: [u8; 8]) -> [u64; 16]
    ensures { map (bits 48) result ≡ round_keys key }
{
    let chosen = permute_by(&FIRST_CHOICE, u64::from_be_bytes(key));
    schedule_halves((chosen >> 28) % (1 << 28), chosen % (1 << 28))
}
