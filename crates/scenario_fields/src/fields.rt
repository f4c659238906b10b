ghost use Rattle.std.specs.Prelude.{◌≡◌, ◌≤◌, ◌+◌, ◌-◌, ℕ, List, [], ◌∷◌, length, map, IfOk, IfSome, IsTrue, IsSome, string_bytes, vec_len, option_copied, not};
ghost use Rattle.std.specs.Option.{option_map};
ghost use Rattle.std.specs.List.{All, list_all, list_any, find};
ghost use Rattle.std.specs.BTreeMap.{keys, IsOrdered};
ghost use Rattle.std.specs.String.{string_cmp};
ghost use Rattle.std.specs.Str.{bytes_eq};
ghost use Rattle.arrayvec.specs.ArrayVec.{array_vec_len};
ghost use Rattle.emv_dict.specs.Date.{date_of, has_digits};
ghost use Rattle.emv_dict.specs.Settings.{is_code};
ghost use Rattle.toml.specs.Data.{get_member};
ghost use Rattle.toml.specs.View.{view, table_view, items_view};
ghost use Rattle.scenario_fields.specs.Fault.{TellsFault, Fails, Gives};
ghost use Rattle.scenario_fields.specs.TablePaths.{path, spot_path};
ghost use Rattle.scenario_fields.specs.Value.{is_one_of, is_listed};
ghost use Rattle.scenario_fields.specs.Fields.{required, absent, number_at, number_or, optional_number, listed_or, flag_or, str_at, text_at, digits_at, optional_digits, code_at, optional_code, six_digits_or, day_at, bytes_at, optional_bytes, array_at, array_or_none, table_at, optional_table, table_item, digits_item, digits_list, each, only, least_other};
ghost use Rattle.scenario_fields.specs.declared.fault.ScenarioFault.TheVariants.{MissingKey, UnknownKey};

use crate::fault::{Path, ScenarioFault};
use crate::place::{TablePlace, path_text};
use crate::spot::{Characters, Spot};
use arrayvec::ArrayVec;
use emv_dict::Digits;
use std::alloc::Global;
use toml::{Table, Value};

/// The value at a key.
fn member<'a>(table: &'a Table, key: &str) -> Option<&'a Value>
    ensures { option_map (λ v. view v.now) result ≡ get_member key.now (table_view table.now) }
{
    table.get(key)
}

/// The keys of one table. Its methods read the value at a key, and their faults have the key's path.
#[derive(Clone, Copy)]
pub struct Fields<'a> {
    pub alloc: Global,
    /// Which table it is.
    pub place: TablePlace,
    pub table: &'a Table,
}

impl<'a> Fields<'a> {
    /// Where the value at a key stands.
    pub fn spot<'k>(&self, key: &'k str) -> Spot<'k>
        ensures place { result.place ≡ self.now.place }
        ensures key { result.key.now ≡ key.now }
        ensures index { result.index ≡ None }
    {
        Spot {
            alloc: self.alloc,
            place: self.place,
            key,
            index: None,
        }
    }

    /// The fault of a key that is absent.
    fn missing(&self, key: &str) -> ScenarioFault
        ensures { TellsFault result (MissingKey (path self.now.place key.now)) }
    {
        match path_text(self.alloc, self.place, key) {
            Ok(text) => ScenarioFault::MissingKey {
                path: Path::new(text),
            },
            Err(_) => ScenarioFault::OutOfMemory,
        }
    }

    /// The fault of a key that the table doesn't know.
    fn unknown(&self, key: &str) -> ScenarioFault
        ensures { TellsFault result (UnknownKey (path self.now.place key.now)) }
    {
        match path_text(self.alloc, self.place, key) {
            Ok(text) => ScenarioFault::UnknownKey {
                path: Path::new(text),
            },
            Err(_) => ScenarioFault::OutOfMemory,
        }
    }

    /// The value at a key that must be there.
    pub fn required(&self, key: &str) -> Result<&'a Value, ScenarioFault>
        ensures { Gives (λ v. view v.now) result (required (path self.now.place) key.now (table_view self.now.table.now)) }
    {
        match member(self.table, key) {
            Some(value) => Ok(value),
            None => Err(self.missing(key)),
        }
    }

    /// The value at a key, where it is there.
    pub fn optional(&self, key: &str) -> Option<&'a Value>
        ensures { option_map (λ v. view v.now) result ≡ get_member key.now (table_view self.now.table.now) }
    {
        member(self.table, key)
    }

    /// That a key which has no place here isn't there, whatever it holds.
    #[tactic(auto, unfolding(crate::specs::Fields::absent))]
    pub fn absent(&self, key: &str) -> Result<(), ScenarioFault>
        ensures { Gives (λ u. u) result (absent (path self.now.place) key.now (table_view self.now.table.now)) }
    {
        match member(self.table, key) {
            Some(_) => Err(self.spot(key).bad()),
            None => Ok(()),
        }
    }

    /// A whole number from `least` to `most`.
    #[tactic(auto, unfolding(crate::specs::Fields::number_at))]
    pub fn number(&self, key: &str, least: u64, most: u64) -> Result<u64, ScenarioFault>
        ensures exact { Gives (λ n. n) result (number_at (path self.now.place) key.now least most (table_view self.now.table.now)) }
        ensures within { IfOk result (λ n. (least ≤ n) × (n ≤ most)) }
    {
        self.spot(key).number(self.required(key)?, least, most)
    }

    /// A whole number from `least` to `most`, or the default where the key is absent.
    #[tactic(auto, unfolding(crate::specs::Fields::number_or))]
    pub fn number_or(
        &self,
        default: u64,
        key: &str,
        least: u64,
        most: u64,
    ) -> Result<u64, ScenarioFault>
        requires { (least ≤ default) × (default ≤ most) }
        ensures exact { Gives (λ n. n) result (number_or default (path self.now.place) key.now least most (table_view self.now.table.now)) }
        ensures within { IfOk result (λ n. (least ≤ n) × (n ≤ most)) }
    {
        match member(self.table, key) {
            Some(value) => self.spot(key).number(value, least, most),
            None => Ok(default),
        }
    }

    /// A whole number from `least` to `most`, where the key is there.
    #[tactic(auto, unfolding(crate::specs::Fields::optional_number))]
    pub fn optional_number(
        &self,
        key: &str,
        least: u64,
        most: u64,
    ) -> Result<Option<u64>, ScenarioFault>
        ensures exact { Gives (λ n. n) result (optional_number (path self.now.place) key.now least most (table_view self.now.table.now)) }
        ensures within { IfOk result (λ o. IfSome o (λ n. (least ≤ n) × (n ≤ most))) }
    {
        match member(self.table, key) {
            Some(value) => Ok(Some(self.spot(key).number(value, least, most)?)),
            None => Ok(None),
        }
    }

    /// One of the numbers, or the default where the key is absent.
    #[tactic(auto, unfolding(crate::specs::Fields::listed_or))]
    pub fn listed_or(&self, default: u64, key: &str, numbers: &[u64]) -> Result<u64, ScenarioFault>
        requires { IsTrue (is_listed default numbers.now) }
        ensures exact { Gives (λ n. n) result (listed_or default (path self.now.place) key.now numbers.now (table_view self.now.table.now)) }
        ensures among { IfOk result (λ n. IsTrue (is_listed n numbers.now)) }
    {
        match member(self.table, key) {
            Some(value) => self.spot(key).listed(value, numbers),
            None => Ok(default),
        }
    }

    /// A truth value, or the default where the key is absent.
    #[tactic(auto, unfolding(crate::specs::Fields::flag_or))]
    pub fn flag_or(&self, default: bool, key: &str) -> Result<bool, ScenarioFault>
        ensures { Gives (λ b. b) result (flag_or default (path self.now.place) key.now (table_view self.now.table.now)) }
    {
        match member(self.table, key) {
            Some(value) => self.spot(key).flag(value),
            None => Ok(default),
        }
    }

    /// A text of any characters.
    #[tactic(auto, unfolding(crate::specs::Fields::str_at))]
    pub fn str_at(&self, key: &str) -> Result<&'a str, ScenarioFault>
        ensures { Gives (λ s. s.now) result (str_at (path self.now.place) key.now (table_view self.now.table.now)) }
    {
        self.spot(key).str_of(self.required(key)?)
    }

    /// A text of `least` to `most` characters of this kind.
    #[tactic(auto, unfolding(crate::specs::Fields::text_at))]
    pub fn text(
        &self,
        key: &str,
        kind: Characters,
        least: usize,
        most: usize,
    ) -> Result<&'a [u8], ScenarioFault>
        ensures exact { Gives (λ s. s.now) result (text_at (path self.now.place) key.now kind least most (table_view self.now.table.now)) }
        ensures within { IfOk result (λ s. (least ≤ length s.now) × (length s.now ≤ most)) }
        ensures all { IfOk result (λ s. All (λ c. IsTrue (is_one_of kind c)) s.now) }
    {
        self.spot(key).text(self.required(key)?, kind, least, most)
    }

    /// A text of `N` characters of this kind.
    pub fn text_array<const N: usize>(
        &self,
        key: &str,
        kind: Characters,
    ) -> Result<[u8; N], ScenarioFault>
        ensures exact { Gives (λ bytes. bytes) result (text_at (path self.now.place) key.now kind N N (table_view self.now.table.now)) }
        ensures all { IfOk result (λ bytes. All (λ c. IsTrue (is_one_of kind c)) bytes) }
    {
        let text = self.text(key, kind, N, N)?;
        let mut array = [0u8; N];
        array.copy_from_slice(text);
        Ok(array)
    }

    /// A text of `least` to `most` characters of this kind, in a vector of its own.
    pub fn owned_text(
        &self,
        key: &str,
        kind: Characters,
        least: usize,
        most: usize,
    ) -> Result<Vec<u8>, ScenarioFault>
        ensures exact { Gives (λ v. v.items) result (text_at (path self.now.place) key.now kind least most (table_view self.now.table.now)) }
        ensures within { IfOk result (λ v. (least ≤ vec_len v) × (vec_len v ≤ most)) }
    {
        let text = self.text(key, kind, least, most)?;
        let mut owned = Vec::new(self.alloc);
        owned.extend_from_slice(text)?;
        Ok(owned)
    }

    /// `least` to `most` decimal digits, at most 19.
    #[tactic(auto, unfolding(crate::specs::Fields::digits_at))]
    pub fn digits(&self, key: &str, least: usize, most: usize) -> Result<Digits, ScenarioFault>
        requires { most ≤ 19 }
        ensures exact { Gives (λ ds. ds) result (digits_at (path self.now.place) key.now least most (table_view self.now.table.now)) }
        ensures within { IfOk result (λ ds. (least ≤ length ds) × (length ds ≤ most)) }
    {
        self.spot(key).digits(self.required(key)?, least, most)
    }

    /// `least` to `most` decimal digits, at most 19, where the key is there.
    #[tactic(auto, unfolding(crate::specs::Fields::optional_digits))]
    pub fn optional_digits(
        &self,
        key: &str,
        least: usize,
        most: usize,
    ) -> Result<Option<Digits>, ScenarioFault>
        requires { most ≤ 19 }
        ensures exact { Gives (λ o. o) result (optional_digits (path self.now.place) key.now least most (table_view self.now.table.now)) }
        ensures within { IfOk result (λ o. IfSome o (λ ds. (least ≤ length ds) × (length ds ≤ most))) }
    {
        match member(self.table, key) {
            Some(value) => Ok(Some(self.spot(key).digits(value, least, most)?)),
            None => Ok(None),
        }
    }

    /// The code of a currency or of a country: three digits, in two bytes behind a zero.
    #[tactic(auto, unfolding(crate::specs::Fields::code_at))]
    pub fn code(&self, key: &str) -> Result<[u8; 2], ScenarioFault>
        ensures exact { Gives (λ bytes. bytes) result (code_at (path self.now.place) key.now (table_view self.now.table.now)) }
        ensures code { IfOk result (λ bytes. IsTrue (is_code bytes)) }
    {
        self.spot(key).code(self.required(key)?)
    }

    /// The code of a currency or of a country, where the key is there.
    #[tactic(auto, unfolding(crate::specs::Fields::optional_code))]
    pub fn optional_code(&self, key: &str) -> Result<Option<[u8; 2]>, ScenarioFault>
        ensures exact { Gives (λ o. o) result (optional_code (path self.now.place) key.now (table_view self.now.table.now)) }
        ensures code { IfOk result (λ o. IfSome o (λ bytes. IsTrue (is_code bytes))) }
    {
        match member(self.table, key) {
            Some(value) => Ok(Some(self.spot(key).code(value)?)),
            None => Ok(None),
        }
    }

    /// Six digits, two a byte, or the default where the key is absent.
    #[tactic(auto, unfolding(crate::specs::Fields::six_digits_or))]
    pub fn six_digits_or(&self, default: [u8; 3], key: &str) -> Result<[u8; 3], ScenarioFault>
        requires { All (λ b. IsTrue (has_digits b)) default }
        ensures exact { Gives (λ bytes. bytes) result (six_digits_or default (path self.now.place) key.now (table_view self.now.table.now)) }
        ensures digits { IfOk result (λ bytes. All (λ b. IsTrue (has_digits b)) bytes) }
    {
        match member(self.table, key) {
            Some(value) => self.spot(key).six_digits(value),
            None => Ok(default),
        }
    }

    /// A date: year, month and day, two digits each (EMV 4.3 Book 3 Annex A, tag 9A).
    #[tactic(auto, unfolding(crate::specs::Fields::day_at))]
    pub fn day(&self, key: &str) -> Result<[u8; 3], ScenarioFault>
        ensures exact { Gives (λ bytes. bytes) result (day_at (path self.now.place) key.now (table_view self.now.table.now)) }
        ensures date { IfOk result (λ bytes. IsSome (date_of bytes)) }
    {
        self.spot(key).day(self.required(key)?)
    }

    /// `least` to `most` bytes in hexadecimal.
    #[tactic(auto, unfolding(crate::specs::Fields::bytes_at))]
    pub fn bytes(&self, key: &str, least: usize, most: usize) -> Result<Vec<u8>, ScenarioFault>
        ensures exact { Gives (λ v. v.items) result (bytes_at (path self.now.place) key.now least most (table_view self.now.table.now)) }
        ensures within { IfOk result (λ v. (least ≤ vec_len v) × (vec_len v ≤ most)) }
    {
        self.spot(key).bytes(self.required(key)?, least, most)
    }

    /// `least` to `N` bytes in hexadecimal, in a vector of fixed room.
    #[tactic(auto, unfolding(crate::specs::Fields::bytes_at))]
    pub fn few_bytes<const N: usize>(
        &self,
        key: &str,
        least: usize,
    ) -> Result<ArrayVec<u8, N>, ScenarioFault>
        ensures exact { Gives (λ v. v.items) result (bytes_at (path self.now.place) key.now least N (table_view self.now.table.now)) }
        ensures within { IfOk result (λ v. least ≤ array_vec_len v) }
    {
        self.spot(key).few_bytes(self.required(key)?, least)
    }

    /// `N` bytes in hexadecimal.
    #[tactic(auto, unfolding(crate::specs::Fields::bytes_at))]
    pub fn byte_array<const N: usize>(&self, key: &str) -> Result<[u8; N], ScenarioFault>
        ensures { Gives (λ bytes. bytes) result (bytes_at (path self.now.place) key.now N N (table_view self.now.table.now)) }
    {
        self.spot(key).byte_array(self.required(key)?)
    }

    /// `N` bytes in hexadecimal, where the key is there.
    #[tactic(auto, unfolding(crate::specs::Fields::optional_bytes))]
    pub fn optional_byte_array<const N: usize>(
        &self,
        key: &str,
    ) -> Result<Option<[u8; N]>, ScenarioFault>
        ensures { Gives (λ o. o) result (optional_bytes (path self.now.place) key.now N N (table_view self.now.table.now)) }
    {
        match member(self.table, key) {
            Some(value) => Ok(Some(self.spot(key).byte_array(value)?)),
            None => Ok(None),
        }
    }

    /// `least` to `most` bytes in hexadecimal, where the key is there.
    #[tactic(auto, unfolding(crate::specs::Fields::optional_bytes))]
    pub fn optional_bytes(
        &self,
        key: &str,
        least: usize,
        most: usize,
    ) -> Result<Option<Vec<u8>>, ScenarioFault>
        ensures exact { Gives (λ o. option_map (λ v. v.items) o) result (optional_bytes (path self.now.place) key.now least most (table_view self.now.table.now)) }
        ensures within { IfOk result (λ o. IfSome o (λ v. (least ≤ vec_len v) × (vec_len v ≤ most))) }
    {
        match member(self.table, key) {
            Some(value) => Ok(Some(self.spot(key).bytes(value, least, most)?)),
            None => Ok(None),
        }
    }

    /// An array of `least` to `most` elements.
    #[tactic(auto, unfolding(crate::specs::Fields::array_at))]
    pub fn array(&self, key: &str, least: usize, most: usize) -> Result<&'a [Value], ScenarioFault>
        ensures exact { Gives (λ s. items_view s.now) result (array_at (path self.now.place) key.now least most (table_view self.now.table.now)) }
        ensures within { IfOk result (λ s. (least ≤ length s.now) × (length s.now ≤ most)) }
    {
        self.spot(key).array(self.required(key)?, least, most)
    }

    /// An array of at most `most` elements, empty where the key is absent.
    #[tactic(auto, unfolding(crate::specs::Fields::array_or_none))]
    pub fn array_or_none(&self, key: &str, most: usize) -> Result<&'a [Value], ScenarioFault>
        ensures exact { Gives (λ s. items_view s.now) result (array_or_none (path self.now.place) key.now most (table_view self.now.table.now)) }
        ensures within { IfOk result (λ s. length s.now ≤ most) }
    {
        match member(self.table, key) {
            Some(value) => self.spot(key).array(value, 0, most),
            None => Ok(&[]),
        }
    }

    /// The keys of the table at a key, which is this place.
    #[tactic(auto, unfolding(crate::specs::Fields::table_at))]
    pub fn inner(&self, key: &str, place: TablePlace) -> Result<Fields<'a>, ScenarioFault>
        ensures exact { Gives (λ f. table_view f.table.now) result (table_at (path self.now.place) key.now (table_view self.now.table.now)) }
        ensures place { IfOk result (λ f. f.place ≡ place) }
    {
        let table = self.spot(key).table(self.required(key)?)?;
        Ok(Fields {
            alloc: self.alloc,
            place,
            table,
        })
    }

    /// The keys of the table at a key, which is this place, where the key is there.
    #[tactic(auto, unfolding(crate::specs::Fields::optional_table))]
    pub fn optional_inner(
        &self,
        key: &str,
        place: TablePlace,
    ) -> Result<Option<Fields<'a>>, ScenarioFault>
        ensures exact { Gives (λ o. option_map (λ f. table_view f.table.now) o) result (optional_table (path self.now.place) key.now (table_view self.now.table.now)) }
        ensures place { IfOk result (λ o. IfSome o (λ f. f.place ≡ place)) }
    {
        let Some(value) = member(self.table, key) else {
            return Ok(None);
        };
        let table = self.spot(key).table(value)?;
        Ok(Some(Fields {
            alloc: self.alloc,
            place,
            table,
        }))
    }

    /// The keys of a table that is an item of the array at a key, which is this place.
    #[tactic(auto, unfolding(crate::specs::Fields::table_item))]
    pub fn element<'v>(
        &self,
        key: &str,
        index: usize,
        place: TablePlace,
        value: &'v Value,
    ) -> Result<Fields<'v>, ScenarioFault>
        ensures exact { Gives (λ f. table_view f.table.now) result (table_item (path self.now.place) key.now index (view value.now)) }
        ensures place { IfOk result (λ f. f.place ≡ place) }
    {
        let table = self.item(key, index).table(value)?;
        Ok(Fields {
            alloc: self.alloc,
            place,
            table,
        })
    }

    /// At most `count` texts of `least` to `most` decimal digits each, at most 19; none where the key
    /// is absent.
    #[tactic(auto, unfolding(crate::specs::Fields::digits_list))]
    pub fn digits_list(
        &self,
        key: &str,
        count: usize,
        least: usize,
        most: usize,
    ) -> Result<Vec<Digits>, ScenarioFault>
        requires { most ≤ 19 }
        ensures exact { Gives (λ v. v.items) result (digits_list (path self.now.place) key.now count least most (table_view self.now.table.now)) }
        ensures count { IfOk result (λ v. vec_len v ≤ count) }
        ensures lengths { IfOk result (λ v. All (λ ds. (least ≤ length ds) × (length ds ≤ most)) v.items) }
    {
        self.all_digits(key, self.array_or_none(key, count)?, least, most)
    }

    /// The digits of each text of an array.
    fn all_digits(
        &self,
        key: &str,
        values: &[Value],
        least: usize,
        most: usize,
    ) -> Result<Vec<Digits>, ScenarioFault>
        requires { most ≤ 19 }
        ensures exact { Gives (λ v. v.items) result (each (digits_item (path self.now.place) key.now least most) 0 (items_view values.now)) }
        ensures count { IfOk result (λ v. vec_len v ≡ length values.now) }
        ensures lengths { IfOk result (λ v. All (λ ds. (least ≤ length ds) × (length ds ≤ most)) v.items) }
    {
        let mut all = Vec::new(self.alloc);
        for value in values {
            all.push(self.digits_item(key, all.len(), value, least, most)?)?;
        }
        Ok(all)
    }

    /// The digits of an item of the array at a key.
    #[tactic(auto, unfolding(crate::specs::Fields::digits_item))]
    fn digits_item(
        &self,
        key: &str,
        index: usize,
        value: &Value,
        least: usize,
        most: usize,
    ) -> Result<Digits, ScenarioFault>
        requires { most ≤ 19 }
        ensures exact { Gives (λ ds. ds) result (digits_item (path self.now.place) key.now least most index (view value.now)) }
        ensures within { IfOk result (λ ds. (least ≤ length ds) × (length ds ≤ most)) }
    {
        self.item(key, index).digits(value, least, most)
    }

    /// Where an item of the array at a key stands.
    pub fn item<'k>(&self, key: &'k str, index: usize) -> Spot<'k>
        ensures place { result.place ≡ self.now.place }
        ensures key { result.key.now ≡ key.now }
        ensures index { result.index ≡ Some index }
    {
        Spot {
            alloc: self.alloc,
            place: self.place,
            key,
            index: Some(index),
        }
    }

    /// That the table has no other keys than these: else the least other key is the fault.
    #[tactic(auto, unfolding(crate::specs::Fields::only))]
    pub fn only(&self, known: &[&str]) -> Result<(), ScenarioFault>
        ensures { Gives (λ u. u) result (only (path self.now.place) (map (λ k. k.now) known.now) (table_view self.now.table.now)) }
    {
        match least_other(self.table, known) {
            Some(key) => Err(self.unknown(key.as_str())),
            None => Ok(()),
        }
    }
}

/// Whether the key is one of these.
fn is_among(key: &str, keys: &[&str]) -> bool
    ensures { result ≡ list_any (λ k. bytes_eq key.now k.now) keys.now }
{
    keys.iter().any(|known| key == *known)
}

/// The first key that is none of these; the keys of a table ascend.
fn first_other<'t>(table: &'t Table, known: &[&str]) -> Option<&'t String>
    ensures found { option_copied result ≡ find (λ k. not (list_any (λ s. bytes_eq (string_bytes k) s.now) known.now)) (keys table.now) }
    ensures ordered { IsOrdered string_cmp table.now }
{
    table.keys().find(|key| !is_among(key.as_str(), known))
}

/// The least key that is none of these.
fn least_other<'t>(table: &'t Table, known: &[&str]) -> Option<&'t String>
    ensures { option_map (λ k. string_bytes k.now) result ≡ least_other (map (λ k. k.now) known.now) (table_view table.now) }
{
    first_other(table, known)
}
