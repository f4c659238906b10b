ghost use Rattle.std.specs.Prelude.{◌≡◌, ℕ, List, take, drop, reverse};
ghost use Rattle.triple_des.specs.Des.{des, enciphered, deciphered};
ghost use Rattle.triple_des.specs.TripleDes.{left_keys, right_keys, tdes, untdes};

use crate::single::Des;
use std::marker::Model;

/// A key of two-key triple DES (FIPS 46-3): sixteen bytes, the left key and the right, with the round
/// keys of both. Those of the right are kept in reverse, since enciphering and the message authentication
/// code decipher with the right key.
#[derive(Drop)]
pub struct Key16 {
    bytes: [u8; 16],
    left: Des,
    right_reversed: Des,
}

impl Model for Key16 {
    ghost Value = { List ℕ };

    ghost view = { λ key. key.bytes };

    ghost invariant = { λ key. (key.left ≡ left_keys key.bytes)
        × (key.right_reversed ≡ reverse (right_keys key.bytes)) };
}

impl Key16 {
    /// The key of these bytes, the left key first. Parity bits are kept and ignored.
    pub fn new(bytes: [u8; 16]) -> Key16
        ensures { result ≡ bytes }
    {
        let mut left = [0; 8];
        left.copy_from_slice(&bytes[..8]);
        let mut right = [0; 8];
        right.copy_from_slice(&bytes[8..]);
        Key16 {
            bytes,
            left: Des::new(left),
            right_reversed: Des::new(right).reversed(),
        }
    }

    /// The same key once more. No memory is taken, and nothing is scheduled again.
    pub fn copy(&self) -> Key16
        ensures { result ≡ self.now }
    {
        Key16 {
            bytes: self.bytes,
            left: self.left.copy(),
            right_reversed: self.right_reversed.copy(),
        }
    }

    /// The sixteen bytes of the key, parity bits as they were given.
    pub fn bytes(&self) -> [u8; 16]
        ensures { result ≡ self.now }
    {
        self.bytes
    }

    /// The left key alone, for single DES.
    pub(crate) fn left(&self) -> &Des
        ensures { result.now ≡ left_keys self.now }
    {
        &self.left
    }

    /// Deciphers a block with the right key alone, by single DES.
    pub(crate) fn decipher_right(&self, block: [u8; 8]) -> [u8; 8]
        ensures value { result ≡ deciphered (right_keys self.now) block }
        ensures undone { enciphered (right_keys self.now) result ≡ block }
    {
        self.right_reversed.encipher(block)
    }

    /// Enciphers a block with the right key alone, by single DES.
    fn encipher_right(&self, block: [u8; 8]) -> [u8; 8]
        ensures value { result ≡ enciphered (right_keys self.now) block }
        ensures undone { deciphered (right_keys self.now) result ≡ block }
    {
        self.right_reversed.decipher(block)
    }

    /// Enciphers a block with the left key, deciphers it with the right and enciphers it with the left.
    #[tactic(auto, unfolding(crate::specs::TripleDes::tdes, crate::specs::TripleDes::untdes))]
    pub fn encipher(&self, block: [u8; 8]) -> [u8; 8]
        ensures value { result ≡ tdes self.now block }
        ensures undone { untdes self.now result ≡ block }
        ensures single { take 8 self.now ≡ drop 8 self.now → result ≡ des (take 8 self.now) block }
    {
        self.left
            .encipher(self.decipher_right(self.left.encipher(block)))
    }

    /// Deciphers a block with the left key, enciphers it with the right and deciphers it with the left.
    #[tactic(auto, unfolding(crate::specs::TripleDes::tdes, crate::specs::TripleDes::untdes))]
    pub fn decipher(&self, block: [u8; 8]) -> [u8; 8]
        ensures value { result ≡ untdes self.now block }
        ensures undone { tdes self.now result ≡ block }
    {
        self.left
            .decipher(self.encipher_right(self.left.decipher(block)))
    }
}
