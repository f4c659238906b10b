ghost use Rattle.std.specs.Prelude.{◌≡◌, ℕ, List, map, reverse};
ghost use Rattle.triple_des.specs.Bits.{bits};
ghost use Rattle.triple_des.specs.Des.{round_keys, enciphered, deciphered};

use crate::rounds::encipher_block;
use crate::schedule::schedule_key;
use std::marker::Model;

/// The sixteen round keys of single DES (FIPS 46-3).
#[derive(Drop)]
pub struct Des {
    keys: [u64; 16],
}

impl Model for Des {
    ghost Value = { List (List ℕ) };

    ghost view = { λ cipher. map (bits 48) cipher.keys };
}

impl Des {
    /// Schedules a key of eight bytes. The lowest bit of each byte, its parity, is ignored.
    pub fn new(key: [u8; 8]) -> Des
        ensures { result ≡ round_keys key }
    {
        Des {
            keys: schedule_key(key),
        }
    }

    /// The same round keys once more. No memory is taken.
    pub(crate) fn copy(&self) -> Des
        ensures { result ≡ self.now }
    {
        Des { keys: self.keys }
    }

    /// The round keys in reverse: what this cipher deciphers, that one enciphers. No memory is taken.
    pub(crate) fn reversed(&self) -> Des
        ensures { result ≡ reverse self.now }
    {
        let mut keys = self.keys;
        keys.reverse();
        Des { keys }
    }

    /// Enciphers a block of eight bytes.
    pub fn encipher(&self, block: [u8; 8]) -> [u8; 8]
        ensures value { result ≡ enciphered self.now block }
        ensures undone { deciphered self.now result ≡ block }
    {
        encipher_block(&self.keys, block)
    }

    /// Deciphers a block of eight bytes: the round keys are taken in reverse.
    pub fn decipher(&self, block: [u8; 8]) -> [u8; 8]
        ensures value { result ≡ deciphered self.now block }
        ensures undone { enciphered self.now result ≡ block }
    {
        self.reversed().encipher(block)
    }
}
