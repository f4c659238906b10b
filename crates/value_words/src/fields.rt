//! The entries of a data object list, and the data that fill them (EMV 4.3 Book 3 section 5.4).
ghost use Rattle.std.specs.Prelude.{◌≡◌, ◌<◌, length, IfSome, option_map};
ghost use Rattle.value_words.specs.Fields as spec;

use ber_tlv::{Tag, read_tag};

/// A data object list, and the data for its entries, one behind the other.
#[derive(Clone, Copy)]
pub struct Fields<'a> {
    pub list: &'a [u8],
    pub data: &'a [u8],
}

/// The tag and the length of the first entry, and the entries behind it; `None` where none stands there.
#[tactic(auto, unfolding(crate::specs::Fields::next_entry))]
pub fn next_entry(list: &[u8]) -> Option<(Tag, usize, &[u8])>
    ensures exact { option_map spec.seen_entry result ≡ spec.next_entry list.now }
    ensures shorter { IfSome result (λ found. length found.2.now < length list.now) }
{
    match read_tag(list, 0) {
        Ok((tag, place)) => {
            let count = *list.get(place)?;
            Some((tag, usize::from(count), &list[place + 1..]))
        }
        Err(_) => None,
    }
}

/// The tag and the data of the first entry, and the fields behind it; `None` where no entry stands there,
/// or fewer data than it wants.
pub fn next_field(fields: Fields<'_>) -> Option<(Tag, &[u8], Fields<'_>)>
    ensures fields { spec.then_fields result ≡ spec.fields_of fields.entry.list.now fields.entry.data.now }
    ensures fitting { spec.then_fitting result fields.entry.list.now fields.entry.data.now ≡ spec.are_fitting fields.entry.list.now fields.entry.data.now }
    ensures shorter { IfSome result (λ found. length found.2.list.now < length fields.entry.list.now) }
{
    let (tag, count, list) = next_entry(fields.list)?;
    let (value, data) = fields.data.split_at_checked(count)?;
    Some((tag, value, Fields { list, data }))
}

/// Whether the list is one, and wants just these data.
pub fn fits(fields: Fields<'_>) -> bool
    ensures { result ≡ spec.are_fitting fields.entry.list.now fields.entry.data.now }
{
    let mut left = fields;
    while let Some((_, _, rest)) = next_field(left) {
        left = rest;
    }
    left.list.is_empty() && left.data.is_empty()
}

/// The data of the first entry of this tag that has so many bytes.
pub fn value_in(fields: Fields<'_>, tag: Tag, count: usize) -> Option<&[u8]>
    ensures { option_map (λ value. value.now) result ≡ spec.value_among tag.0 count (spec.fields_of fields.entry.list.now fields.entry.data.now) }
{
    let mut left = fields;
    while let Some((found, value, rest)) = next_field(left) {
        if found.0 == tag.0 && value.len() == count {
            return Some(value);
        }
        left = rest;
    }
    None
}

/// Whether some entry of this tag has this value.
pub fn has_field(fields: Fields<'_>, tag: Tag, wanted: &[u8]) -> bool
    ensures { result ≡ spec.has_field_of tag.0 wanted.now (spec.fields_of fields.entry.list.now fields.entry.data.now) }
{
    let mut left = fields;
    while let Some((found, value, rest)) = next_field(left) {
        if found.0 == tag.0 && value == wanted {
            return true;
        }
        left = rest;
    }
    false
}
