ghost use Rattle.std.specs.Prelude.{◌≡◌, ◌==◌, ◌<◌, ◌≤◌, ◌+◌, ◌-◌, ◌∷◌, ◌++◌, ℕ, List, length, map, IfOk, IsTrue, IsSome, string_bytes, vec_len};
ghost use Rattle.std.specs.List.{All, list_all, list_any};
ghost use Rattle.emv_dict.specs.Date.{date_of, has_digits};
ghost use Rattle.emv_dict.specs.Nibbles.{packed};
ghost use Rattle.emv_dict.specs.Settings.{is_code};
ghost use Rattle.scenario_fields.specs.declared.spot.Characters.TheVariants.{Digit};
ghost use Rattle.arrayvec.specs.ArrayVec.{array_vec_len};
ghost use Rattle.toml.specs.Data.{Items};
ghost use Rattle.toml.specs.View.{view, table_view, array_view, items_view};
ghost use Rattle.scenario_fields.specs.Fault.{TellsFault, Fails, Gives};
ghost use Rattle.scenario_fields.specs.TablePaths.{path, spot_path};
ghost use Rattle.scenario_fields.specs.Value.{number_of, listed_of, flag_of, str_of, text_of, digits_of, code_of, six_digits_of, day_of, hex_of, bytes_of, array_of, table_of, count, is_one_of, is_listed};
ghost use Rattle.scenario_fields.specs.declared.fault.ScenarioFault.TheVariants.{BadValue, OutOfLimit, UnknownName};

use crate::fault::{Path, ScenarioFault};
use crate::place::{TablePlace, item_text, path_text};
use arrayvec::ArrayVec;
use emv_dict::{Date, Digits};
use hex::FromHexError;
use std::alloc::{AllocError, Global};
use toml::value::Array;
use toml::{Table, Value};

/// Which characters of ASCII a text has.
#[derive(Clone, Copy, PartialEq, Eq, Debug)]
pub enum Characters {
    /// 0 to 9.
    Digit,
    /// 0 to 9, A to Z, a to z.
    LetterOrDigit,
    /// 0 to 9, a to z.
    LowercaseOrDigit,
    /// Blank to tilde.
    Printable,
}

impl Characters {
    /// Whether the character is one of this kind.
    pub fn has(self, character: u8) -> bool
        ensures { result ≡ is_one_of self character }
    {
        match self {
            Characters::Digit => character.is_ascii_digit(),
            Characters::LetterOrDigit => character.is_ascii_alphanumeric(),
            Characters::LowercaseOrDigit => {
                character.is_ascii_digit() || character.is_ascii_lowercase()
            }
            Characters::Printable => 32 <= character && character <= 126,
        }
    }
}

/// Whether each character of the text is of this kind.
fn all_have(kind: Characters, text: &[u8]) -> bool
    ensures exact { result ≡ list_all (is_one_of kind) text.now }
    ensures all { IsTrue result → All (λ c. IsTrue (is_one_of kind c)) text.now }
{
    text.iter().all(|character| kind.has(*character))
}

/// Where a value of a scenario stands: the key of a table, or an item of the array at the key. Its
/// methods read a value that stands there, and their faults have its path.
#[derive(Clone, Copy)]
pub struct Spot<'a> {
    pub alloc: Global,
    pub place: TablePlace,
    pub key: &'a str,
    /// The index of the item, where it is one of an array.
    pub index: Option<usize>,
}

impl<'a> Spot<'a> {
    /// The path of the value.
    fn path(&self) -> Result<Path, AllocError>
        ensures { IfOk result (λ p. p ≡ spot_path self.now.place self.now.key.now self.now.index) }
    {
        match self.index {
            None => Ok(Path::new(path_text(self.alloc, self.place, self.key)?)),
            Some(index) => {
                let item = item_text(self.alloc, self.key, index)?;
                Ok(Path::new(path_text(self.alloc, self.place, item.as_str())?))
            }
        }
    }

    /// The fault of a value whose type or content is wrong.
    pub fn bad(&self) -> ScenarioFault
        ensures { TellsFault result (BadValue (spot_path self.now.place self.now.key.now self.now.index)) }
    {
        match self.path() {
            Ok(path) => ScenarioFault::BadValue { path },
            Err(AllocError) => ScenarioFault::OutOfMemory,
        }
    }

    /// The fault of a value beyond its limit.
    pub fn far(&self) -> ScenarioFault
        ensures { TellsFault result (OutOfLimit (spot_path self.now.place self.now.key.now self.now.index)) }
    {
        match self.path() {
            Ok(path) => ScenarioFault::OutOfLimit { path },
            Err(AllocError) => ScenarioFault::OutOfMemory,
        }
    }

    /// The fault of a name that nothing has.
    pub fn unknown_name(&self) -> ScenarioFault
        ensures { TellsFault result (UnknownName (spot_path self.now.place self.now.key.now self.now.index)) }
    {
        match self.path() {
            Ok(path) => ScenarioFault::UnknownName { path },
            Err(AllocError) => ScenarioFault::OutOfMemory,
        }
    }

    /// A whole number from `least` to `most`.
    #[tactic(auto, unfolding(crate::specs::Value::number_of))]
    pub fn number(&self, value: &Value, least: u64, most: u64) -> Result<u64, ScenarioFault>
        ensures exact { Gives (λ n. n) result (number_of (spot_path self.now.place self.now.key.now self.now.index) least most (view value.now)) }
        ensures within { IfOk result (λ n. (least ≤ n) × (n ≤ most)) }
    {
        let Some(number) = value.as_integer() else {
            return Err(self.bad());
        };
        let Ok(number) = u64::try_from(number) else {
            return Err(self.far());
        };
        if least <= number && number <= most {
            Ok(number)
        } else {
            Err(self.far())
        }
    }

    /// One of the numbers.
    #[tactic(auto, unfolding(crate::specs::Value::listed_of))]
    pub fn listed(&self, value: &Value, numbers: &[u64]) -> Result<u64, ScenarioFault>
        ensures exact { Gives (λ n. n) result (listed_of (spot_path self.now.place self.now.key.now self.now.index) numbers.now (view value.now)) }
        ensures among { IfOk result (λ n. IsTrue (is_listed n numbers.now)) }
    {
        let Some(number) = value.as_integer() else {
            return Err(self.bad());
        };
        let Ok(number) = u64::try_from(number) else {
            return Err(self.bad());
        };
        if is_listed(number, numbers) {
            Ok(number)
        } else {
            Err(self.bad())
        }
    }

    /// A truth value.
    #[tactic(auto, unfolding(crate::specs::Value::flag_of))]
    pub fn flag(&self, value: &Value) -> Result<bool, ScenarioFault>
        ensures { Gives (λ b. b) result (flag_of (spot_path self.now.place self.now.key.now self.now.index) (view value.now)) }
    {
        match value.as_bool() {
            Some(flag) => Ok(flag),
            None => Err(self.bad()),
        }
    }

    /// A text of any characters.
    #[tactic(auto, unfolding(crate::specs::Value::str_of))]
    pub fn str_of<'b>(&self, value: &'b Value) -> Result<&'b str, ScenarioFault>
        ensures { Gives (λ s. s.now) result (str_of (spot_path self.now.place self.now.key.now self.now.index) (view value.now)) }
    {
        match value.as_str() {
            Some(text) => Ok(text),
            None => Err(self.bad()),
        }
    }

    /// A text of `least` to `most` characters of this kind: other characters are tried before the
    /// length.
    #[tactic(auto, unfolding(crate::specs::Value::text_of))]
    pub fn text<'b>(
        &self,
        value: &'b Value,
        kind: Characters,
        least: usize,
        most: usize,
    ) -> Result<&'b [u8], ScenarioFault>
        ensures exact { Gives (λ s. s.now) result (text_of (spot_path self.now.place self.now.key.now self.now.index) kind least most (view value.now)) }
        ensures within { IfOk result (λ s. (least ≤ length s.now) × (length s.now ≤ most)) }
        ensures all { IfOk result (λ s. All (λ c. IsTrue (is_one_of kind c)) s.now) }
    {
        let text = self.str_of(value)?.as_bytes();
        if !all_have(kind, text) {
            return Err(self.bad());
        }
        if text.len() < least || text.len() > most {
            return Err(self.far());
        }
        Ok(text)
    }

    /// `least` to `most` decimal digits, at most 19.
    #[tactic(auto, unfolding(crate::specs::Value::digits_of))]
    pub fn digits(&self, value: &Value, least: usize, most: usize) -> Result<Digits, ScenarioFault>
        requires { most ≤ 19 }
        ensures exact { Gives (λ ds. ds) result (digits_of (spot_path self.now.place self.now.key.now self.now.index) least most (view value.now)) }
        ensures within { IfOk result (λ ds. (least ≤ length ds) × (length ds ≤ most)) }
    {
        let text = self.text(value, Characters::Digit, least, most)?;
        Ok(digits_in(text))
    }

    /// The code of a currency or of a country: three digits, in two bytes behind a zero.
    #[tactic(auto, unfolding(crate::specs::Value::code_of))]
    pub fn code(&self, value: &Value) -> Result<[u8; 2], ScenarioFault>
        ensures exact { Gives (λ bytes. bytes) result (code_of (spot_path self.now.place self.now.key.now self.now.index) (view value.now)) }
        ensures code { IfOk result (λ bytes. IsTrue (is_code bytes)) }
    {
        let digits = self.digits(value, 3, 3)?;
        Ok(code_bytes(&digits))
    }

    /// Six digits, two a byte.
    #[tactic(auto, unfolding(crate::specs::Value::six_digits_of))]
    pub fn six_digits(&self, value: &Value) -> Result<[u8; 3], ScenarioFault>
        ensures exact { Gives (λ bytes. bytes) result (six_digits_of (spot_path self.now.place self.now.key.now self.now.index) (view value.now)) }
        ensures digits { IfOk result (λ bytes. All (λ b. IsTrue (has_digits b)) bytes) }
    {
        let digits = self.digits(value, 6, 6)?;
        Ok(six_bytes(&digits))
    }

    /// A date: year, month and day, two digits each (EMV 4.3 Book 3 Annex A, tag 9A). Six digits
    /// that are no date are a bad value.
    #[tactic(auto, unfolding(crate::specs::Value::day_of))]
    pub fn day(&self, value: &Value) -> Result<[u8; 3], ScenarioFault>
        ensures exact { Gives (λ bytes. bytes) result (day_of (spot_path self.now.place self.now.key.now self.now.index) (view value.now)) }
        ensures date { IfOk result (λ bytes. IsSome (date_of bytes)) }
    {
        let bytes = self.six_digits(value)?;
        if Date::read(bytes).is_some() {
            Ok(bytes)
        } else {
            Err(self.bad())
        }
    }

    /// Bytes, two hexadecimal digits each in either case.
    #[tactic(auto, unfolding(crate::specs::Value::hex_of))]
    fn hex(&self, value: &Value) -> Result<Vec<u8>, ScenarioFault>
        ensures { Gives (λ v. v.items) result (hex_of (spot_path self.now.place self.now.key.now self.now.index) (view value.now)) }
    {
        match hex::decode(self.alloc, self.str_of(value)?) {
            Ok(bytes) => Ok(bytes),
            Err(FromHexError::OutOfMemory) => Err(ScenarioFault::OutOfMemory),
            Err(_) => Err(self.bad()),
        }
    }

    /// `least` to `most` bytes, two hexadecimal digits each in either case: other characters and an
    /// odd number of them are tried before the number of bytes.
    #[tactic(auto, unfolding(crate::specs::Value::bytes_of))]
    pub fn bytes(&self, value: &Value, least: usize, most: usize) -> Result<Vec<u8>, ScenarioFault>
        ensures exact { Gives (λ v. v.items) result (bytes_of (spot_path self.now.place self.now.key.now self.now.index) least most (view value.now)) }
        ensures within { IfOk result (λ v. (least ≤ vec_len v) × (vec_len v ≤ most)) }
    {
        let bytes = self.hex(value)?;
        if bytes.len() < least || bytes.len() > most {
            return Err(self.far());
        }
        Ok(bytes)
    }

    /// `least` to `N` bytes in a vector of fixed room.
    pub fn few_bytes<const N: usize>(
        &self,
        value: &Value,
        least: usize,
    ) -> Result<ArrayVec<u8, N>, ScenarioFault>
        ensures exact { Gives (λ v. v.items) result (bytes_of (spot_path self.now.place self.now.key.now self.now.index) least N (view value.now)) }
        ensures within { IfOk result (λ v. least ≤ array_vec_len v) }
    {
        let bytes = self.bytes(value, least, N)?;
        match ArrayVec::try_from(bytes.as_slice()) {
            Ok(few) => Ok(few),
            Err(_) => unreachable!(),
        }
    }

    /// `N` bytes.
    pub fn byte_array<const N: usize>(&self, value: &Value) -> Result<[u8; N], ScenarioFault>
        ensures { Gives (λ bytes. bytes) result (bytes_of (spot_path self.now.place self.now.key.now self.now.index) N N (view value.now)) }
    {
        let bytes = self.bytes(value, N, N)?;
        let mut array = [0u8; N];
        array.copy_from_slice(bytes.as_slice());
        Ok(array)
    }

    /// An array of `least` to `most` elements, counted before any of them is read.
    #[tactic(auto, unfolding(crate::specs::Value::array_of))]
    pub fn array<'b>(
        &self,
        value: &'b Value,
        least: usize,
        most: usize,
    ) -> Result<&'b [Value], ScenarioFault>
        ensures exact { Gives (λ s. items_view s.now) result (array_of (spot_path self.now.place self.now.key.now self.now.index) least most (view value.now)) }
        ensures within { IfOk result (λ s. (least ≤ length s.now) × (length s.now ≤ most)) }
    {
        let Some(array) = value.as_array() else {
            return Err(self.bad());
        };
        let found = count_of(array);
        if found < least || found > most {
            return Err(self.far());
        }
        Ok(array.as_slice())
    }

    /// A table.
    #[tactic(auto, unfolding(crate::specs::Value::table_of))]
    pub fn table<'b>(&self, value: &'b Value) -> Result<&'b Table, ScenarioFault>
        ensures { Gives (λ t. table_view t.now) result (table_of (spot_path self.now.place self.now.key.now self.now.index) (view value.now)) }
    {
        match value.as_table() {
            Some(table) => Ok(table),
            None => Err(self.bad()),
        }
    }
}

/// Whether the number is one of these.
#[tactic(auto, unfolding(crate::specs::Value::is_listed))]
fn is_listed(number: u64, numbers: &[u64]) -> bool
    ensures { result ≡ is_listed number numbers.now }
{
    numbers.iter().any(|listed| *listed == number)
}

/// The digits of a text of digits.
fn digits_in(text: &[u8]) -> Digits
    requires few { length text.now ≤ 19 }
    requires digits { All (λ c. IsTrue (is_one_of Digit c)) text.now }
    ensures { result ≡ map (λ c. c - 48) text.now }
{
    let mut digits = Digits::empty();
    for character in text {
        digits.push(*character - 48);
    }
    digits
}

/// Three digits in two bytes, behind a zero.
fn code_bytes(digits: &Digits) -> [u8; 2]
    requires { length digits.now ≡ 3 }
    ensures packed { result ≡ packed (0 ∷ digits.now) }
    ensures code { IsTrue (is_code result) }
{
    let digits = digits.as_slice();
    [digits[0], digits[1] * 16 + digits[2]]
}

/// Six digits, two a byte.
fn six_bytes(digits: &Digits) -> [u8; 3]
    requires { length digits.now ≡ 6 }
    ensures packed { result ≡ packed digits.now }
    ensures digits { All (λ b. IsTrue (has_digits b)) result }
{
    let digits = digits.as_slice();
    [
        digits[0] * 16 + digits[1],
        digits[2] * 16 + digits[3],
        digits[4] * 16 + digits[5],
    ]
}

/// How many elements an array has.
fn count_of(array: &Array) -> usize
    ensures elements { result ≡ count (array_view array.now) }
    ensures len { result ≡ length array.now.items }
{
    array.len()
}
