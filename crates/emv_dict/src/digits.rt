ghost use Rattle.std.specs.Prelude.{◌≡◌, ◌+◌, ◌<◌, ◌≤◌, ◌↔◌, [], ◌∷◌, ◌++◌, length, IsTrue, IsSome, IfSome};
ghost use Rattle.emv_dict.specs.Digits.{AreDigits, AllDecimal, is_pin_length as pin_length_test};

use arrayvec::ArrayVec;
use std::marker::Model;

/// At most 19 decimal digits, each a number from 0 to 9, as of a primary account number or a PIN.
/// Contracts see the list of the digits, first digit first.
#[derive(Drop, PartialEq, Eq, Hash, Debug, Default)]
pub struct Digits(pub ArrayVec<u8, 19>);

impl Model for Digits {
    ghost use Rattle.std.specs.Prelude.{List, ℕ};

    ghost Value = { List ℕ };

    ghost use Rattle.emv_dict.specs.Digits.{AreDigits};

    ghost view = { λ d. d.0.items };

    ghost invariant = { λ d. AreDigits d.0.items };

    ghost inverse = { λ ds. record { 0 = record { items = ds } } };
}

impl Digits {
    /// These digits, where each is a number from 0 to 9 and there are at most 19.
    pub fn new(digits: &[u8]) -> Option<Digits>
        ensures digits { IsSome result ↔ AreDigits digits.now }
        ensures value { IfSome result (λ d. d ≡ digits.now) }
    {
        if digits.len() <= 19 && are_decimal(digits) {
            Some(Digits(copied(digits)))
        } else {
            None
        }
    }

    /// No digits.
    pub fn empty() -> Digits
        ensures { result ≡ [] }
    {
        Digits(ArrayVec::new())
    }

    /// How many digits there are.
    pub fn len(&self) -> usize
        ensures count { result ≡ length self.now }
        ensures fits { result ≤ 19 }
    {
        self.0.len()
    }

    /// Whether there are none.
    pub fn is_empty(&self) -> bool
        ensures { IsTrue result ↔ (self.now ≡ []) }
    {
        self.0.is_empty()
    }

    /// Appends one digit, a number from 0 to 9.
    pub fn push(&mut self, digit: u8)
        requires room { length self.old < 19 }
        requires decimal { digit ≤ 9 }
        ensures { self.new ≡ self.old ++ digit ∷ [] }
    {
        self.0.push(digit);
    }

    /// The digits, each a number from 0 to 9.
    pub fn as_slice(&self) -> &[u8]
        ensures value { result.now ≡ self.now }
        ensures digits { AreDigits result.now }
    {
        self.0.as_slice()
    }

    /// The same digits once more. Takes no memory, so that it needs no `Result`.
    pub fn copy(&self) -> Digits
        ensures { result ≡ self.now }
    {
        Digits(copied(self.as_slice()))
    }
}

/// The slice's numbers in a vector of fixed room.
fn copied(digits: &[u8]) -> ArrayVec<u8, 19>
    requires { length digits.now ≤ 19 }
    ensures { result.items ≡ digits.now }
{
    let mut items = ArrayVec::new();
    match items.try_extend_from_slice(digits) {
        Ok(()) => items,
        Err(_) => unreachable!(),
    }
}

/// Whether each number is a decimal digit.
fn are_decimal(numbers: &[u8]) -> bool
    ensures { IsTrue result ↔ AllDecimal numbers.now }
{
    numbers.iter().all(|number| *number <= 9)
}

/// Whether a PIN has so many digits: 4 to 12 (ISO 9564-1).
pub fn is_pin_length(count: usize) -> bool
    ensures { result ≡ pin_length_test count }
{
    4 <= count && count <= 12
}
