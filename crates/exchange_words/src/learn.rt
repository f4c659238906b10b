//! What an answer leaves for the lines behind it.
ghost use Rattle.std.specs.Prelude.{◌≡◌, option_map};
ghost use Rattle.exchange_words.specs.Learned as spec;

use crate::lane::{LaneState, keep};
use arrayvec::ArrayVec;
use ber_tlv::{Cursor, Tag, is_constructed, sole_value};
use object_words::next_item;
use value_words::number_in;

/// How deep objects within objects are looked for.
const DEPTH: u8 = 8;

/// The value of the first object of this tag, also within others, so many deep at most.
pub fn find_deep(bytes: &[u8], tag: Tag, more: u8) -> Option<&[u8]>
    ensures { option_map (λ value. value.now) result ≡ spec.found_deep more tag.0 bytes.now }
{
    let mut cursor = Cursor::new(bytes);
    while let Some(item) = next_item(&mut cursor) {
        if item.tag.0 == tag.0 {
            return Some(item.value);
        }
        if more > 0 && is_constructed(item.tag) {
            if let Some(value) = find_deep(item.value, tag, more - 1) {
                return Some(value);
            }
        }
    }
    None
}

/// The number of a value of this length, else what was known of it.
fn number_of(value: Option<&[u8]>, count: usize, known: Option<u64>) -> Option<u64>
    ensures { result ≡ spec.number_if_sized count (option_map (λ value. value.now) value.entry) known }
{
    match value {
        Some(value) => {
            if value.len() == count {
                Some(number_in(value))
            } else {
                known
            }
        }
        None => known,
    }
}

/// The number of an object of this tag and this length, else what was known of it.
fn number_or(record: &[u8], tag: u32, count: usize, known: Option<u64>) -> Option<u64>
    ensures { result ≡ spec.number_found_or record.now tag count known }
{
    number_of(find_deep(record, Tag(tag), DEPTH), count, known)
}

/// Keeps a list in place of the one before, where there is one.
fn keep_list(kept: &mut ArrayVec<u8, 255>, list: Option<&[u8]>)
    ensures { kept.new.items ≡ spec.list_or (option_map (λ list. list.now) list.entry) kept.old.items }
{
    if let Some(list) = list {
        keep(kept, list);
    }
}

/// Keeps the lists, the action codes and the limits of a record's objects.
fn learn_lists(lane: &mut LaneState, record: &[u8])
    ensures left { lane.new ≡ spec.with_lists lane.old record.now }
{
    keep_list(&mut lane.cdol1, find_deep(record, Tag(0x8c), DEPTH));
    keep_list(&mut lane.cdol2, find_deep(record, Tag(0x8d), DEPTH));
    lane.codes.denial = number_or(record, 0x9f0e, 5, lane.codes.denial);
    lane.codes.online = number_or(record, 0x9f0f, 5, lane.codes.online);
    lane.codes.default = number_or(record, 0x9f0d, 5, lane.codes.default);
    lane.lower = number_or(record, 0x9f14, 1, lane.lower);
    lane.upper = number_or(record, 0x9f23, 1, lane.upper);
}

/// Keeps the lists, the action codes and the limits of a record.
pub(crate) fn learn_record(lane: &mut LaneState, body: &[u8])
    ensures left { lane.new ≡ spec.with_record lane.old body.now }
{
    if let Some(record) = sole_value(body, Tag(0x70)) {
        learn_lists(lane, record);
    }
}

/// The value of the first object of this tag that stands in these bytes, and not within another.
fn find_here(bytes: Option<&[u8]>, tag: Tag) -> Option<&[u8]>
    ensures { option_map (λ value. value.now) result ≡ spec.found_here tag.0 (option_map (λ bytes. bytes.now) bytes.entry) }
{
    match bytes {
        Some(bytes) => find_deep(bytes, tag, 0),
        None => None,
    }
}

/// The list 9F38 of an answer to SELECT: it stands in the template A5 of the template 6F (EMV 4.3 Book 1 section
/// 11.3.4).
fn list_in(body: &[u8]) -> Option<&[u8]>
    ensures { option_map (λ list. list.now) result ≡ spec.pdol_in body.now }
{
    let proprietary = find_here(find_here(Some(body), Tag(0x6f)), Tag(0xa5));
    find_here(proprietary, Tag(0x9f38))
}

/// Keeps an answer to SELECT, and its list.
pub(crate) fn learn_selected(lane: &mut LaneState, answer: &[u8], body: &[u8])
    ensures left { lane.new ≡ spec.lane_with_selected lane.old answer.now body.now }
{
    keep(&mut lane.selected, answer);
    lane.pdol.clear();
    keep_list(&mut lane.pdol, list_in(body));
}

/// The number of a value of two bytes.
fn counter_of(value: Option<&[u8]>) -> Option<u64>
    ensures { result ≡ spec.counter_of_value (option_map (λ value. value.now) value.entry) }
{
    match value {
        Some(value) => {
            if value.len() == 2 {
                Some(number_in(value))
            } else {
                None
            }
        }
        None => None,
    }
}

/// The number that GET DATA gave for a tag.
pub(crate) fn counter_in(body: &[u8], tag: u32) -> Option<u64>
    ensures { result ≡ spec.counter_in_body tag body.now }
{
    counter_of(sole_value(body, Tag(tag)))
}

/// Keeps a counter that GET DATA gave.
pub(crate) fn learn_counter(lane: &mut LaneState, body: &[u8])
    ensures left { lane.new ≡ spec.with_counter lane.old body.now }
{
    lane.counter = counter_in(body, 0x9f36).or(lane.counter);
}
