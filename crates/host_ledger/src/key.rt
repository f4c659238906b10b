ghost use Rattle.std.specs.Prelude.{◌≡◌};

use emv_dict::Digits;

/// What names a transaction among all of an issuer's: the account, the card and its counter.
#[derive(Drop, PartialEq, Eq, Hash, Debug)]
pub struct Key {
    /// The primary account number.
    pub pan: Digits,
    /// The account number's sequence number, as in object 5F34; 0 where there is none.
    pub sequence: u8,
    /// The application transaction counter, as in object 9F36.
    pub counter: u16,
}

impl Key {
    /// The same key once more. Takes no memory, so that it needs no `Result`.
    pub fn copy(&self) -> Key
        ensures { result ≡ self.now }
    {
        Key {
            pan: self.pan.copy(),
            sequence: self.sequence,
            counter: self.counter,
        }
    }
}
