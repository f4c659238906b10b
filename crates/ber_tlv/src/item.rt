ghost use Rattle.std.specs.Prelude.{◌≡◌, ◌+◌, ◌-◌, ◌*◌, ◌/◌, ◌%◌, ◌<◌, ◌≤◌, length, Ok, Err, IfOk, IfErr, IsTrue, MatchResult, Some, drop, slice_get};
ghost use Rattle.ber_tlv.specs.Item as spec;
ghost use Rattle.ber_tlv.specs.Items.{HasObjectAt};
ghost use Rattle.ber_tlv.specs.FaultPlace as place_spec;
ghost use Rattle.ber_tlv.specs.FaultPlace.{Within};
ghost use Rattle.ber_tlv.specs.Seen.{seen};
ghost use Rattle.ber_tlv.specs.Spelled.{Spelled, StopsTag, HasLength, BadLengthStands};
ghost use Rattle.ber_tlv.specs.Written.{tag_bytes};
ghost use Rattle.ber_tlv.specs.Tag.{is_readable};

use crate::tag::Tag;

/// A data object in a byte string: its tag, the bytes of its value, and the place of its first
/// byte, from 0 (EMV 4.3 Book 3 Annex B).
#[derive(Clone, Copy, Debug)]
pub struct Item<'a> {
    pub tag: Tag,
    pub value: &'a [u8],
    pub start: usize,
}

/// Why no data object stands at a place. Places count the bytes of the whole string, from 0.
#[derive(Clone, Copy, PartialEq, Eq, Debug)]
pub enum TlvFault {
    /// The bytes end within the object that begins at this place.
    Truncated(usize),
    /// The length byte at this place is 80 or 83 to FF (EMV 4.3 Book 3 Annex B2).
    BadLength(usize),
    /// The tag that begins at this place has more than three bytes.
    LongTag(usize),
}

impl TlvFault {
    /// The place of the fault: its byte's number in the whole string, from 0.
    pub fn place(self) -> usize
        ensures { result ≡ place_spec.place_of_fault self }
    {
        match self {
            TlvFault::Truncated(place) => place,
            TlvFault::BadLength(place) => place,
            TlvFault::LongTag(place) => place,
        }
    }
}

/// The place of a fault, or 0 where there is none.
pub fn place_or_zero(fault: Option<TlvFault>) -> usize
    ensures { result ≡ place_spec.place_or_zero fault }
{
    match fault {
        Some(fault) => fault.place(),
        None => 0,
    }
}

#[tactic(auto, unfolding(crate::specs::Item::byte_at, crate::specs::Spelled::BadLengthStands))]
fn byte_at(bytes: &[u8], start: usize, place: usize) -> Result<u8, TlvFault>
    ensures exact { result ≡ spec.byte_at bytes.now start place }
    ensures there { IfOk result (λ byte. slice_get bytes.now place ≡ Some byte) }
    ensures fault_place { IfErr result (λ fault. start < length bytes.now → Within bytes.now start fault) }
    ensures bad_length { IfErr result (BadLengthStands bytes.now) }
    ensures within { IfOk result (λ _. place < length bytes.now) }
{
    bytes.get(place).copied().ok_or(TlvFault::Truncated(start))
}

#[tactic(auto, unfolding(crate::specs::Item::third_tag_byte, crate::specs::Spelled::BadLengthStands))]
fn third_tag_byte(bytes: &[u8], start: usize, front: u32) -> Result<(u32, usize), TlvFault>
    requires known { start + 1 < length bytes.now }
    requires small { front < 65536 }
    requires third { (front / 256 % 32 ≡ 31) × (128 ≤ front % 256) }
    ensures exact { result ≡ spec.third_tag_byte bytes.now start front }
    ensures fault_place { IfErr result (λ fault. start < length bytes.now → Within bytes.now start fault) }
    ensures readable { IfOk result (λ r. IsTrue (is_readable r.0)) }
    ensures bad_length { IfErr result (BadLengthStands bytes.now) }
    ensures within { IfOk result (λ r. (start < r.1) × (r.1 ≤ length bytes.now)) }
{
    let third = byte_at(bytes, start, start + 2)?;
    if third < 128 {
        Ok((front * 256 + u32::from(third), start + 3))
    } else {
        Err(TlvFault::LongTag(start))
    }
}

#[tactic(auto, unfolding(crate::specs::Item::second_tag_byte, crate::specs::Spelled::BadLengthStands))]
fn second_tag_byte(bytes: &[u8], start: usize, first: u8) -> Result<(u32, usize), TlvFault>
    requires known { start < length bytes.now }
    requires second { first % 32 ≡ 31 }
    ensures exact { result ≡ spec.second_tag_byte bytes.now start first }
    ensures fault_place { IfErr result (λ fault. start < length bytes.now → Within bytes.now start fault) }
    ensures readable { IfOk result (λ r. IsTrue (is_readable r.0)) }
    ensures bad_length { IfErr result (BadLengthStands bytes.now) }
    ensures within { IfOk result (λ r. (start < r.1) × (r.1 ≤ length bytes.now)) }
{
    let second = byte_at(bytes, start, start + 1)?;
    let front = u32::from(first) * 256 + u32::from(second);
    if second < 128 {
        Ok((front, start + 2))
    } else {
        third_tag_byte(bytes, start, front)
    }
}

#[tactic(auto, unfolding(crate::specs::Item::tag_at, crate::specs::Spelled::BadLengthStands))]
fn tag_at(bytes: &[u8], start: usize) -> Result<(u32, usize), TlvFault>
    ensures exact { result ≡ spec.tag_at bytes.now start }
    ensures fault_place { IfErr result (λ fault. start < length bytes.now → Within bytes.now start fault) }
    ensures readable { IfOk result (λ r. HasObjectAt bytes.now start → IsTrue (is_readable r.0)) }
    ensures bad_length { IfErr result (BadLengthStands bytes.now) }
    ensures within { IfOk result (λ r. (start < r.1) × (r.1 ≤ length bytes.now)) }
{
    let first = byte_at(bytes, start, start)?;
    if first % 32 == 31 {
        second_tag_byte(bytes, start, first)
    } else {
        Ok((u32::from(first), start + 1))
    }
}

/// The tag that begins at a place of a byte string, and the place behind it
/// (EMV 4.3 Book 3 Annex B1). The fault is `Truncated` or `LongTag`, at that place.
pub fn read_tag(bytes: &[u8], start: usize) -> Result<(Tag, usize), TlvFault>
    ensures exact { MatchResult result
        (λ r. spec.tag_at bytes.now start ≡ Ok (r.0.0, r.1))
        (λ fault. spec.tag_at bytes.now start ≡ Err fault) }
    // The bytes passed over are the tag's own, and where none is read the bytes are cut within a tag, or
    // begin one of more than three bytes.
    ensures spelled { IfOk result (λ r. Spelled bytes.now start r.0.0 r.1) }
    ensures stops { IfErr result (λ fault. StopsTag fault start (drop start bytes.now)) }
    ensures within { IfOk result (λ r. (start < r.1) × (r.1 ≤ length bytes.now)) }
{
    let (number, next) = tag_at(bytes, start)?;
    Ok((Tag(number), next))
}

#[tactic(auto, unfolding(crate::specs::Item::one_byte_length, crate::specs::Spelled::BadLengthStands))]
fn one_byte_length(bytes: &[u8], start: usize, place: usize) -> Result<(usize, usize), TlvFault>
    requires { place < length bytes.now }
    ensures exact { result ≡ spec.one_byte_length bytes.now start place }
    ensures fault_place { IfErr result (λ fault. start < length bytes.now → Within bytes.now start fault) }
    ensures bad_length { IfErr result (BadLengthStands bytes.now) }
    ensures within { IfOk result (λ r. (place < r.1) × (r.1 ≤ length bytes.now) × (r.0 < 65536)) }
{
    let low = byte_at(bytes, start, place + 1)?;
    Ok((usize::from(low), place + 2))
}

#[tactic(auto, unfolding(crate::specs::Item::two_byte_length, crate::specs::Spelled::BadLengthStands))]
fn two_byte_length(bytes: &[u8], start: usize, place: usize) -> Result<(usize, usize), TlvFault>
    requires { place < length bytes.now }
    ensures exact { result ≡ spec.two_byte_length bytes.now start place }
    ensures fault_place { IfErr result (λ fault. start < length bytes.now → Within bytes.now start fault) }
    ensures bad_length { IfErr result (BadLengthStands bytes.now) }
    ensures within { IfOk result (λ r. (place < r.1) × (r.1 ≤ length bytes.now) × (r.0 < 65536)) }
{
    let high = byte_at(bytes, start, place + 1)?;
    let low = byte_at(bytes, start, place + 2)?;
    Ok((usize::from(high) * 256 + usize::from(low), place + 3))
}

#[tactic(auto, unfolding(crate::specs::Item::long_length, crate::specs::Spelled::BadLengthStands))]
fn long_length(
    bytes: &[u8],
    start: usize,
    place: usize,
    first: u8,
) -> Result<(usize, usize), TlvFault>
    requires known { place < length bytes.now }
    requires long { 128 ≤ first }
    requires first { slice_get bytes.now place ≡ Some first }
    ensures exact { result ≡ spec.long_length bytes.now start place first }
    ensures fault_place { IfErr result (λ fault. start ≤ place → start < length bytes.now → Within bytes.now start fault) }
    ensures bad_length { IfErr result (BadLengthStands bytes.now) }
    ensures within { IfOk result (λ r. (place < r.1) × (r.1 ≤ length bytes.now) × (r.0 < 65536)) }
{
    if first == 0x81 {
        one_byte_length(bytes, start, place)
    } else if first == 0x82 {
        two_byte_length(bytes, start, place)
    } else {
        Err(TlvFault::BadLength(place))
    }
}

#[tactic(auto, unfolding(crate::specs::Item::length_at, crate::specs::Spelled::BadLengthStands))]
fn length_at(bytes: &[u8], start: usize, place: usize) -> Result<(usize, usize), TlvFault>
    ensures exact { result ≡ spec.length_at bytes.now start place }
    ensures fault_place { IfErr result (λ fault. start ≤ place → start < length bytes.now → Within bytes.now start fault) }
    ensures bad_length { IfErr result (BadLengthStands bytes.now) }
    ensures within { IfOk result (λ r. (place < r.1) × (r.1 ≤ length bytes.now) × (r.0 < 65536)) }
{
    let first = byte_at(bytes, start, place)?;
    if first < 128 {
        Ok((usize::from(first), place + 1))
    } else {
        long_length(bytes, start, place, first)
    }
}

#[tactic(auto, unfolding(crate::specs::Item::value_at, crate::specs::Spelled::BadLengthStands))]
fn value_at<'a>(
    bytes: &'a [u8],
    start: usize,
    tag: u32,
    place: usize,
    count: usize,
) -> Result<(Item<'a>, usize), TlvFault>
    requires { place ≤ length bytes.now }
    ensures exact { MatchResult result
        (λ r. spec.value_at bytes.now start tag place count ≡ Ok (seen r.0, r.1))
        (λ fault. spec.value_at bytes.now start tag place count ≡ Err fault) }
    ensures fault_place { IfErr result (λ fault. start < length bytes.now → Within bytes.now start fault) }
    ensures tag { IfOk result (λ r. r.0.tag.0 ≡ tag) }
    ensures bad_length { IfErr result (BadLengthStands bytes.now) }
    ensures start { IfOk result (λ r. r.0.start ≡ start) }
    ensures within { IfOk result (λ r. (place + length r.0.value.now ≡ r.1) × (r.1 ≤ length bytes.now)) }
{
    if count > bytes.len() - place {
        return Err(TlvFault::Truncated(start));
    }
    let end = place + count;
    let value = &bytes[place..end];
    Ok((
        Item {
            tag: Tag(tag),
            value,
            start,
        },
        end,
    ))
}

/// The data object that begins at a place of a byte string, and the place behind it.
#[tactic(auto, unfolding(crate::specs::Item::item_at, crate::specs::Spelled::BadLengthStands))]
pub(crate) fn item_at<'a>(bytes: &'a [u8], start: usize) -> Result<(Item<'a>, usize), TlvFault>
    ensures exact { MatchResult result
        (λ r. spec.item_at bytes.now start ≡ Ok (seen r.0, r.1))
        (λ fault. spec.item_at bytes.now start ≡ Err fault) }
    ensures fault_place { IfErr result (λ fault. start < length bytes.now → Within bytes.now start fault) }
    ensures readable { IfOk result (λ r. HasObjectAt bytes.now start → IsTrue (is_readable r.0.tag.0)) }
    ensures bad_length { IfErr result (BadLengthStands bytes.now) }
    ensures start { IfOk result (λ r. r.0.start ≡ start) }
    ensures length { IfOk result (λ r. HasLength bytes.now (start + length (tag_bytes r.0.tag.0)) (length r.0.value.now) (r.1 - length r.0.value.now)) }
    ensures within { IfOk result (λ r. (start + 2 + length r.0.value.now ≤ r.1) × (r.1 ≤ length bytes.now)) }
{
    let (tag, length_place) = tag_at(bytes, start)?;
    let (count, value_place) = length_at(bytes, start, length_place)?;
    value_at(bytes, start, tag, value_place, count)
}
