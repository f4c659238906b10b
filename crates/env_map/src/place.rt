ghost use Rattle.std.specs.Prelude.{◌≡◌, ◌+◌, ◌-◌, ◌≤◌, ◌++◌, length, take, drop, option_map, find};
ghost use Rattle.env_map.specs.Entries.{value_of, is_tag_above};
ghost use Rattle.env_map.specs.Places.{entries_of, count_of_bytes};
ghost use Rattle.env_map.specs.Places as spec;

use arrayvec::ArrayVec;
use ber_tlv::{Tag, append};

/// An object's tag and how many bytes its value has; the values stand one behind another.
#[derive(Clone, Copy, Default)]
pub(crate) struct ObjectPlace {
    pub tag: Tag,
    pub count: u16,
}

/// Where an object goes: its index among the places, and the place of its first byte.
#[derive(Clone, Copy)]
pub(crate) struct InsertPlace {
    pub index: usize,
    pub start: usize,
}

/// The value of a tag.
pub(crate) fn found<'a>(bytes: &'a [u8], places: &[ObjectPlace], tag: Tag) -> Option<&'a [u8]>
    requires { count_of_bytes places.now ≤ length bytes.now }
    ensures { option_map (λ value. value.now) result ≡ value_of tag.0 (entries_of bytes.now places.now) }
{
    let mut rest = bytes;
    for place in places {
        let (value, behind) = rest.split_at(usize::from(place.count));
        if place.tag.0 == tag.0 {
            return Some(value);
        }
        rest = behind;
    }
    None
}

/// The first object whose tag is above the given one, or the first where none is given.
pub(crate) fn first_above<'a>(
    bytes: &'a [u8],
    places: &[ObjectPlace],
    given: Option<Tag>,
) -> Option<(Tag, &'a [u8])>
    requires { count_of_bytes places.now ≤ length bytes.now }
    ensures { option_map (λ entry. (entry.0.0, entry.1.now)) result
        ≡ find (λ entry. is_tag_above given entry.0) (entries_of bytes.now places.now) }
{
    let mut rest = bytes;
    for place in places {
        let (value, behind) = rest.split_at(usize::from(place.count));
        if is_above(given, place.tag) {
            return Some((place.tag, value));
        }
        rest = behind;
    }
    None
}

fn is_above(given: Option<Tag>, tag: Tag) -> bool
    ensures { result ≡ is_tag_above given tag.0 }
{
    match given {
        Some(least) => least.0 < tag.0,
        None => true,
    }
}

/// Where an object with this tag goes: before the first greater tag.
pub(crate) fn slot_for(places: &[ObjectPlace], tag: Tag) -> InsertPlace
    requires { count_of_bytes places.now ≤ 16384 }
    ensures index { result.index ≡ spec.index_for tag.0 places.now }
    ensures start { result.start ≡ spec.start_for tag.0 places.now }
    ensures index_within { result.index ≤ length places.now }
    ensures start_within { result.start ≤ count_of_bytes places.now }
{
    let mut start = 0;
    for (index, place) in places.iter().enumerate() {
        if tag.0 < place.tag.0 {
            return InsertPlace { index, start };
        }
        start += usize::from(place.count);
    }
    InsertPlace {
        index: places.len(),
        start,
    }
}

/// Where the value of this tag begins.
pub(crate) fn start_of(places: &[ObjectPlace], tag: Tag) -> Option<usize>
    requires { count_of_bytes places.now ≤ 16384 }
    ensures { result ≡ spec.start_at tag.0 places.now }
{
    let mut start = 0;
    for place in places {
        if place.tag.0 == tag.0 {
            return Some(start);
        }
        start += usize::from(place.count);
    }
    None
}

/// Puts bytes between others.
pub(crate) fn insert_bytes<const N: usize>(bytes: &mut ArrayVec<u8, N>, start: usize, value: &[u8])
    requires within { start ≤ length bytes.old.items }
    requires room { length bytes.old.items + length value.now ≤ N }
    ensures { bytes.new.items ≡ take start bytes.old.items ++ (value.now ++ drop start bytes.old.items) }
{
    append(bytes, value);
    rotate_behind(bytes, start, value.len());
}

/// Moves the last bytes, as many as `count`, to `start`.
fn rotate_behind(bytes: &mut [u8], start: usize, count: usize)
    requires { start + count ≤ length bytes.old }
    ensures { let kept = length bytes.old - count in
        bytes.new ≡ take start bytes.old ++ (drop kept bytes.old ++ drop start (take kept bytes.old)) }
{
    bring_to_front(&mut bytes[start..], count);
}

/// Moves the last bytes, as many as `count`, before the others. `rotate_right` would clear a buffer for them.
fn bring_to_front(bytes: &mut [u8], count: usize)
    requires { count ≤ length bytes.old }
    ensures { let kept = length bytes.old - count in
        bytes.new ≡ drop kept bytes.old ++ take kept bytes.old }
{
    bytes.reverse();
    let (front, behind) = bytes.split_at_mut(count);
    front.reverse();
    behind.reverse();
}

/// Writes bytes over as many others.
pub(crate) fn overwrite(bytes: &mut [u8], start: usize, value: &[u8])
    requires { start + length value.now ≤ length bytes.old }
    ensures { bytes.new ≡ take start bytes.old ++ (value.now ++ drop (start + length value.now) bytes.old) }
{
    bytes[start..start + value.len()].copy_from_slice(value);
}
