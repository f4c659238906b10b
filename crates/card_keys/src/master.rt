ghost use Rattle.std.specs.Prelude.{◌≡◌, ◌+◌, ◌<◌, ◌≤◌, ◌/◌, ◌++◌, All, length, map, replicate};
ghost use Rattle.emv_dict.specs.Digits.{AreDigits};
ghost use Rattle.card_keys.specs.Parity.{HasOddParity};
ghost use Rattle.card_keys.specs.Master.{pan_and_sequence, short_diversifier, long_diversifier, diversifier_of, two_halves, master_key_of};

use crate::decimal::decimalise;
use crate::joining::join;
use crate::packing::{pack, pack_block};
use crate::parity::adjust;
use arrayvec::ArrayVec;
use emv_dict::Digits;
use sha1::Sha1;
use triple_des::{Key16, xor_blocks};

/// The master key of a card from its issuer's master key (EMV 4.3 Book 2 Annex A1.4): eight bytes that
/// stand for the card are enciphered for the left half, and their complement for the right half; each
/// byte then has odd parity. The eight bytes come from the digits of the account number and of the
/// sequence number. For an account number of at most sixteen digits they are the rightmost sixteen of
/// these, two a byte with zeros on the left (A1.4.1, option A); for a longer one they are sixteen
/// decimal digits of the SHA-1 of these, two a byte with a zero on the left where their number is odd
/// (A1.4.2, option B). `sequence` is the byte of the PAN Sequence Number (5F34), two decimal digits, and
/// 00 where there is none.
#[tactic(auto, unfolding(crate::specs::Master::master_key_of))]
pub fn master_key(issuer: &Key16, pan: &Digits, sequence: u8) -> Key16
    ensures value { result ≡ master_key_of issuer.now pan.now sequence }
    ensures odd { All HasOddParity result }
    ensures upper { map (λ b. b / 2) result ≡ map (λ b. b / 2) (two_halves issuer.now pan.now sequence) }
{
    let block = diversifier(pan.as_slice(), sequence);
    let left = issuer.encipher(block);
    let right = issuer.encipher(xor_blocks(block, [0xff; 8]));
    Key16::new(adjust(join(left, right)))
}

/// The eight bytes that stand for the card, two digits each.
#[tactic(auto, unfolding(crate::specs::Master::diversifier_of))]
fn diversifier(pan: &[u8], sequence: u8) -> [u8; 8]
    requires { AreDigits pan.now }
    ensures { result ≡ diversifier_of pan.now sequence }
{
    if pan.len() <= 16 {
        rightmost(pan, sequence)
    } else {
        hashed(pan, sequence)
    }
}

/// The rightmost sixteen digits, with zeros on the left.
#[tactic(auto, unfolding(crate::specs::Master::short_diversifier))]
fn rightmost(pan: &[u8], sequence: u8) -> [u8; 8]
    requires { AreDigits pan.now }
    ensures { result ≡ short_diversifier pan.now sequence }
{
    let digits = behind_zeros(16, pan, sequence);
    pack_block(&digits[pan.len() + 2..])
}

/// Sixteen decimal digits of the hash of the digits.
#[tactic(auto, unfolding(crate::specs::Master::long_diversifier))]
fn hashed(pan: &[u8], sequence: u8) -> [u8; 8]
    requires { AreDigits pan.now }
    ensures { result ≡ long_diversifier pan.now sequence }
{
    let digits = behind_zeros(pan.len() % 2, pan, sequence);
    decimalise(Sha1::digest(&pack(&digits)))
}

/// So many zeros, and the digits of account number and sequence number.
fn behind_zeros(zeros: usize, pan: &[u8], sequence: u8) -> ArrayVec<u8, 37>
    requires most { zeros ≤ 16 }
    requires digits { AreDigits pan.now }
    ensures value { result.items ≡ replicate zeros 0 ++ pan_and_sequence pan.now sequence }
    ensures small { All (λ d. d < 16) result.items }
{
    let mut digits = ArrayVec::new();
    append(&mut digits, &[0; 16][..zeros]);
    append(&mut digits, pan);
    append(&mut digits, &[sequence / 16, sequence % 16]);
    digits
}

/// Appends digits.
fn append(digits: &mut ArrayVec<u8, 37>, more: &[u8])
    requires { length digits.old.items + length more.now ≤ 37 }
    ensures { digits.new.items ≡ digits.old.items ++ more.now }
{
    match digits.try_extend_from_slice(more) {
        Ok(()) => {}
        Err(_) => unreachable!(),
    }
}
