ghost use Rattle.std.specs.Prelude.{◌≡◌, ◌≢◌, ℕ, ◌+◌, ◌<◌, ◌≤◌, [], ◌∷◌, length, option_map, true, Ok, Err, Some, MatchOption, MatchResult, OnOk, OnErr};
ghost use Rattle.std.specs.List.{AllByRecursion};
ghost use Rattle.std.specs.Option.{ForSome};
ghost use Rattle.env_map.specs.Entries.{Entries, IsRising, value_of, entries_after, size_of_values};

use crate::place::{ObjectPlace, first_above, found, insert_bytes, overwrite, slot_for, start_of};
use arrayvec::ArrayVec;
use ber_tlv::{Tag, append};
use std::marker::Model;

/// Why an object is not put.
#[derive(Clone, Copy, PartialEq, Eq, Debug)]
pub enum EnvFault {
    /// The tag is there already.
    Repeated(Tag),
    /// 512 objects are there.
    TooMany,
    /// The values would have more than 16,384 bytes.
    TooLong,
}

/// The data objects of a transaction by their tags: at most 512 objects with 16,384 bytes of values.
/// Contracts see the entries by rising tag.
#[derive(Drop)]
pub struct Env {
    bytes: ArrayVec<u8, 16384>,
    places: ArrayVec<ObjectPlace, 512>,
}

impl Model for Env {
    ghost use Rattle.env_map.specs.Entries.{Entries};

    ghost Value = { Entries };

    ghost use Rattle.env_map.specs.Inside.{entries, IsInOrder};

    ghost view = { entries };

    ghost invariant = { IsInOrder };
}

impl Env {
    ghost use Rattle.env_map.specs.Put.{put_of, set_of};

    /// An empty map.
    pub fn new() -> Self
        ensures { result ≡ [] }
    {
        Env {
            bytes: ArrayVec::new(),
            places: ArrayVec::new(),
        }
    }

    /// Takes all objects out.
    pub fn clear(&mut self)
        ensures { self.new ≡ [] }
    {
        self.bytes.clear();
        self.places.clear();
    }

    /// Takes out all objects, and puts in copies of another map's.
    pub fn copy_from(&mut self, other: &Env)
        ensures { self.new ≡ other.now }
    {
        self.bytes.clear();
        self.places.clear();
        append(&mut self.bytes, &other.bytes);
        if self.places.try_extend_from_slice(&other.places).is_err() {
            unreachable!();
        }
    }

    /// The value of a tag.
    pub fn get(&self, tag: Tag) -> Option<&[u8]>
        ensures { option_map (λ value. value.now) result ≡ value_of tag.0 self.now }
    {
        found(&self.bytes, &self.places, tag)
    }

    /// The entry with the least tag above the given one, or the entry with the least tag where none
    /// is given.
    pub fn after(&self, tag: Option<Tag>) -> Option<(Tag, &[u8])>
        ensures next { MatchOption result
            (entries_after tag self.now ≡ [])
            (λ entry. entries_after tag self.now
            ≡ (entry.0.0, entry.1.now) ∷ entries_after (Some entry.0) self.now) }
        ensures rising { IsRising self.now }
        ensures few { length self.now ≤ 512 }
        ensures short { size_of_values self.now ≤ 16384 }
    {
        first_above(&self.bytes, &self.places, tag)
    }

    /// Adds an object. The faults are tried in the order `Repeated`, `TooMany`, `TooLong`, and leave
    /// the map as it was.
    pub fn put(&mut self, tag: Tag, value: &[u8]) -> Result<(), EnvFault>
        ensures exact { MatchResult result
            (λ _. put_of tag value.now self.old ≡ Ok self.new)
            (λ fault. put_of tag value.now self.old ≡ Err fault) }
        ensures there { OnOk result (value_of tag.0 self.new ≡ Some value.now) }
        ensures others { OnOk result ((other : ℕ) → other ≢ tag.0 → value_of other self.new ≡ value_of other self.old) }
        ensures err { OnErr result (self.new ≡ self.old) }
    {
        if self.is_below(tag) {
            self.append(tag, value)
        } else {
            self.insert(tag, value)
        }
    }

    /// Adds an object before the first one with a greater tag, as `put` does.
    fn insert(&mut self, tag: Tag, value: &[u8]) -> Result<(), EnvFault>
        ensures exact { MatchResult result
            (λ _. put_of tag value.now self.old ≡ Ok self.new)
            (λ fault. put_of tag value.now self.old ≡ Err fault) }
        ensures there { OnOk result (value_of tag.0 self.new ≡ Some value.now) }
        ensures others { OnOk result ((other : ℕ) → other ≢ tag.0 → value_of other self.new ≡ value_of other self.old) }
        ensures err { OnErr result (self.new ≡ self.old) }
    {
        if found(&self.bytes, &self.places, tag).is_some() {
            return Err(EnvFault::Repeated(tag));
        }
        if self.places.is_full() {
            return Err(EnvFault::TooMany);
        }
        if self.bytes.remaining_capacity() < value.len() {
            return Err(EnvFault::TooLong);
        }
        let slot = slot_for(&self.places, tag);
        insert_bytes(&mut self.bytes, slot.start, value);
        let count = value.len() as u16;
        self.places.insert(slot.index, ObjectPlace { tag, count });
        Ok(())
    }

    /// Adds an object behind all others, as `put` does.
    fn append(&mut self, tag: Tag, value: &[u8]) -> Result<(), EnvFault>
        requires above { AllByRecursion (λ entry. entry.0 < tag.0) self.old }
        ensures exact { MatchResult result
            (λ _. put_of tag value.now self.old ≡ Ok self.new)
            (λ fault. put_of tag value.now self.old ≡ Err fault) }
        ensures there { OnOk result (value_of tag.0 self.new ≡ Some value.now) }
        ensures others { OnOk result ((other : ℕ) → other ≢ tag.0 → value_of other self.new ≡ value_of other self.old) }
        ensures err { OnErr result (self.new ≡ self.old) }
    {
        if self.places.is_full() {
            return Err(EnvFault::TooMany);
        }
        if self.bytes.remaining_capacity() < value.len() {
            return Err(EnvFault::TooLong);
        }
        append(&mut self.bytes, value);
        let count = value.len() as u16;
        self.places.push(ObjectPlace { tag, count });
        Ok(())
    }

    /// Whether the tags of all objects are below this one.
    fn is_below(&self, tag: Tag) -> bool
        ensures { result ≡ true → AllByRecursion (λ entry. entry.0 < tag.0) self.now }
    {
        match self.places.split_last() {
            None => true,
            Some((place, _)) => place.tag.0 < tag.0,
        }
    }

    /// Writes over the value of a tag that is there, by one of equal length, and adds an object with
    /// a tag that is not, as `put` does.
    pub fn set(&mut self, tag: Tag, value: &[u8]) -> Result<(), EnvFault>
        requires { ForSome (value_of tag.0 self.old) (λ old. length old ≡ length value.now) }
        ensures exact { MatchResult result
            (λ _. set_of tag value.now self.old ≡ Ok self.new)
            (λ fault. set_of tag value.now self.old ≡ Err fault) }
        ensures there { OnOk result (value_of tag.0 self.new ≡ Some value.now) }
        ensures others { OnOk result ((other : ℕ) → other ≢ tag.0 → value_of other self.new ≡ value_of other self.old) }
        ensures err { OnErr result (self.new ≡ self.old) }
    {
        match start_of(&self.places, tag) {
            Some(start) => {
                overwrite(&mut self.bytes, start, value);
                Ok(())
            }
            None => self.put(tag, value),
        }
    }
}
