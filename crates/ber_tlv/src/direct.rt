ghost use Rattle.std.specs.Prelude.{◌≡◌, ◌+◌, ◌-◌, ◌≤◌, ◌<◌, ◌^◌, length, Some, Ok, Err, IfSome, IsNone, IsOk, IsTrue, ℕ, List, ◌↔◌, MatchResult, option_map, slice_get};
ghost use Rattle.ber_tlv.specs.Direct.{found_value, values_of, sole_value, template_fault, IsWholeList};
ghost use Rattle.ber_tlv.specs.Direct as spec;
ghost use Rattle.ber_tlv.specs.Left.{items_of, items_behind};
ghost use Rattle.ber_tlv.specs.Tag.{is_readable};
ghost use Rattle.ber_tlv.specs.Written.{written};
ghost use Rattle.ber_tlv.specs.FaultPlace.{place_of_fault, moved_fault, Within};

use crate::cursor::{Cursor, first_fault};
use crate::item::TlvFault;
use crate::tag::Tag;

/// The value of the first object of a tag, where the bytes are a list of objects; else their fault
/// (EMV 4.3 Book 3 Annex B).
pub fn first_value(bytes: &[u8], tag: Tag) -> Result<Option<&[u8]>, TlvFault>
    ensures { MatchResult result
        (λ found. found_value tag.0 (items_of bytes.now) ≡ Ok (option_map (λ value. value.now) found))
        (λ fault. found_value tag.0 (items_of bytes.now) ≡ Err fault) }
{
    let mut cursor = Cursor::new(bytes);
    let mut found = None;
    loop {
        match cursor.next() {
            Ok(Some(item)) => {
                if found.is_none() && item.tag == tag {
                    found = Some(item.value);
                }
            }
            Ok(None) => return Ok(found),
            Err(fault) => return Err(fault),
        }
    }
}

/// The value of the object of a tag that stands behind `index` others of this tag, where the bytes are
/// a list of objects; `None` where there are no more of them (EMV 4.3 Book 3 Annex B). The objects
/// before it are passed over again each time.
pub fn nth_value(bytes: &[u8], tag: Tag, index: usize) -> Option<&[u8]>
    requires objects { IsOk (items_of bytes.now) }
    ensures { option_map (λ value. value.now) result ≡ slice_get (values_of tag.0 (items_of bytes.now)) index }
{
    let mut cursor = Cursor::new(bytes);
    let mut before = index;
    loop {
        let item = match cursor.next() {
            Ok(Some(item)) => item,
            Ok(None) => return None,
            Err(_) => unreachable!(),
        };
        if item.tag == tag {
            if before == 0 {
                return Some(item.value);
            }
            before -= 1;
        }
    }
}

/// The value of the object that the bytes are, where they are one object of this tag alone, bytes 00
/// before and behind it aside (EMV 4.3 Book 3 Annex B).
pub fn sole_value(bytes: &[u8], tag: Tag) -> Option<&[u8]>
    ensures exact { option_map (λ value. value.now) result ≡ sole_value tag.0 (items_of bytes.now) }
    // An object as it is written is given back.
    ensures written { (value : List ℕ) → IsTrue (is_readable tag.0) → bytes.now ≡ written tag.0 value
        → sole_value tag.0 (items_of bytes.now) ≡ Some value }
    ensures within { IfSome result (λ value. length value.now + 2 ≤ length bytes.now) }
{
    let mut cursor = Cursor::new(bytes);
    let Ok(Some(item)) = cursor.next() else {
        return None;
    };
    match cursor.next() {
        Ok(None) => {
            if item.tag == tag {
                Some(item.value)
            } else {
                None
            }
        }
        _ => None,
    }
}

/// The first fault, in the order of the bytes, among the objects of a byte string and those directly
/// in each of its objects of this tag (EMV 4.3 Book 3 Annex B). Places count from the first byte of
/// the string, also inside these objects.
pub fn template_fault(bytes: &[u8], tag: Tag) -> Option<TlvFault>
    ensures exact { result ≡ template_fault tag.0 bytes.now }
    ensures none { IsNone result ↔ IsWholeList tag.0 bytes.now }
    ensures fault_place { IfSome result (Within bytes.now 0) }
{
    let mut cursor = Cursor::new(bytes);
    loop {
        let item = match cursor.next() {
            Ok(Some(item)) => item,
            Ok(None) => return None,
            Err(fault) => return Some(fault),
        };
        if item.tag == tag {
            if let Some(fault) = first_fault(item.value) {
                let front = cursor.place() - item.value.len();
                return Some(moved(fault, front));
            }
        }
    }
}

/// The fault of bytes that stand behind so many others, counted from the first of those.
fn moved(fault: TlvFault, front: usize) -> TlvFault
    requires { front + place_of_fault fault < 2 ^ 64 }
    ensures { result ≡ moved_fault front fault }
{
    match fault {
        TlvFault::Truncated(place) => TlvFault::Truncated(front + place),
        TlvFault::BadLength(place) => TlvFault::BadLength(front + place),
        TlvFault::LongTag(place) => TlvFault::LongTag(front + place),
    }
}
