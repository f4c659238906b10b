ghost use Rattle.std.specs.Prelude.{◌≡◌, ℕ, ◌+◌, ◌-◌, ◌<◌, ◌≤◌, ◌↔◌, List, length, take, Ok, Err, IfOk, IfErr, IfSome, IfNone, OnErr};
ghost use Rattle.ber_tlv.specs.Items.{Zeros, HasObjectAt, NextItem, NextFault, Items, FaultBehind};
ghost use Rattle.ber_tlv.specs.Left.{items_behind, items_of, fault_of};
ghost use Rattle.ber_tlv.specs.Walked.{walk_behind};
ghost use Rattle.ber_tlv.specs.Seen.{CursorData, seen, then_rest, then_walk};
ghost use Rattle.ber_tlv.specs.Item.{ItemData};
ghost use Rattle.ber_tlv.specs.FaultPlace.{Within};
ghost use Rattle.ber_tlv.specs.Spelled.{HasLength, BadLengthStands};
ghost use Rattle.ber_tlv.specs.Tag.{IsReadable};
ghost use Rattle.ber_tlv.specs.Written.{tag_bytes};

use crate::item::{Item, TlvFault, item_at};
use std::marker::Model;

/// Goes through the data objects of a byte string in order (EMV 4.3 Book 3 Annex B).
#[derive(Drop)]
pub struct Cursor<'a> {
    bytes: &'a [u8],
    place: usize,
}

impl<'a> Model for Cursor<'a> {
    ghost Value = { CursorData };

    ghost view = { λ c. record { bytes = c.bytes.now; place = c.place } };

    ghost invariant = { λ c. c.place ≤ length c.bytes.now };
}

impl<'a> Cursor<'a> {
    /// A cursor at the first byte.
    pub fn new(bytes: &'a [u8]) -> Cursor<'a>
        ensures bytes { result.bytes ≡ bytes.now }
        ensures place { result.place ≡ 0 }
    {
        Cursor { bytes, place: 0 }
    }

    /// The next data object, `None` at the end, or why no object stands where one should. Bytes 00
    /// before, between and after objects are passed over. After a fault each further call gives
    /// the same fault.
    #[tactic(auto, unfolding(crate::specs::Tag::IsReadable))]
    pub fn next(&mut self) -> Result<Option<Item<'a>>, TlvFault>
        ensures item { IfOk result (λ found. IfSome found (λ item.
            NextItem self.old.bytes self.old.place (seen item) self.new.place)) }
        ensures end { IfOk result (λ found. IfNone found
            (Zeros self.old.bytes self.old.place (length self.old.bytes))) }
        ensures fault { IfErr result (NextFault self.old.bytes self.old.place) }
        // Only a readable tag can stand there.
        ensures readable { IfOk result (λ found. IfSome found (λ item. IsReadable item.tag.0)) }
        // The length stands behind the tag in one of its forms, and a bad length is in none.
        ensures length { IfOk result (λ found. IfSome found (λ item. HasLength self.old.bytes
            (item.start + length (tag_bytes item.tag.0)) (length item.value.now) (self.new.place - length item.value.now))) }
        ensures bad_length { IfErr result (BadLengthStands self.old.bytes) }
        ensures fault_place { IfErr result (Within self.old.bytes self.old.place) }
        ensures ends { IfOk result (λ found. IfNone found (self.new.place ≡ length self.new.bytes)) }
        // What the step gave, with what is left behind it, is what was left before.
        ensures left { then_rest result (items_behind self.new.bytes self.new.place)
            ≡ items_behind self.old.bytes self.old.place }
        // The same for the walk over objects at any depth.
        ensures walk { then_walk result self.new.bytes self.new.place
            ≡ walk_behind self.old.bytes self.old.place }
        ensures onward { IfOk result (λ found. IfSome found (λ item.
            self.old.place + 2 + length item.value.now ≤ self.new.place)) }
        ensures within { self.new.place ≤ length self.new.bytes }
        ensures same_bytes { self.new.bytes ≡ self.old.bytes }
        ensures stays { OnErr result (self.new ≡ self.old) }
    {
        let start = skip_zeros(self.bytes, self.place);
        if start == self.bytes.len() {
            self.place = start;
            return Ok(None);
        }
        let (item, next) = item_at(self.bytes, start)?;
        self.place = next;
        Ok(Some(item))
    }

    /// The place that the cursor has come to: behind the object that `next` gave last.
    pub fn place(&self) -> usize
        ensures { result ≡ self.now.place }
    {
        self.place
    }

    /// A cursor over the objects that the value of `item` is made of, where `item` is the object
    /// that `next` gave last. Its places count from the first byte of the whole string.
    pub fn inside(&self, item: &Item<'a>) -> Cursor<'a>
        requires { length item.now.value.now ≤ self.now.place }
        ensures bytes { result.bytes ≡ take self.now.place self.now.bytes }
        ensures place { result.place ≡ self.now.place - length item.now.value.now }
    {
        let start = self.place - item.value.len();
        Cursor {
            bytes: &self.bytes[..self.place],
            place: start,
        }
    }
}

/// Why the byte string is no list of data objects, or `None` where it is one: the fault at the first
/// place that its objects reach and where none stands (EMV 4.3 Book 3 Annex B). Each byte string has
/// exactly one list of data objects or exactly one fault: the one that `items_of` names.
pub fn first_fault(bytes: &[u8]) -> Option<TlvFault>
    ensures result { result ≡ fault_of (items_of bytes.now) }
    ensures list { (items : List ItemData) → (items_of bytes.now ≡ Ok items) ↔ Items bytes.now 0 items }
    ensures fault { (fault : TlvFault) → (items_of bytes.now ≡ Err fault)
        ↔ ((items : List ItemData) × FaultBehind bytes.now 0 items fault) }
    ensures fault_place { IfSome result (Within bytes.now 0) }
{
    let mut cursor = Cursor::new(bytes);
    loop {
        match cursor.next() {
            Ok(Some(_)) => {}
            Ok(None) => return None,
            Err(fault) => return Some(fault),
        }
    }
}

fn skip_zeros(bytes: &[u8], place: usize) -> usize
    requires { place ≤ length bytes.now }
    ensures zeros { Zeros bytes.now place result }
    ensures begins { result < length bytes.now → HasObjectAt bytes.now result }
{
    let mut start = place;
    while start < bytes.len() && bytes[start] == 0 {
        start += 1;
    }
    start
}
