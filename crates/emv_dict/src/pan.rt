ghost use Rattle.std.specs.Prelude.{◌≡◌, Ok, ◌+◌, ◌++◌, ◌*◌, ◌<◌, ◌≤◌, length, take, drop, find, not, IfNone};
ghost use Rattle.emv_dict.specs.Digits.{AllDecimal};
ghost use Rattle.emv_dict.specs.Nibbles.{nibbles, is_decimal};
ghost use Rattle.emv_dict.specs.Pan.{HasPanLength, pan_of, pan_field as field_of, is_filler, filler_place, before_filler, stray_nibble, is_pan_length as pan_length_test};

use crate::digits::Digits;
use crate::nibble::nibble_at;
use arrayvec::ArrayVec;

/// The fewest digits of an account number of this profile.
pub const LEAST_PAN: usize = 13;

/// The most digits of an account number of this profile, and of the object 5A (EMV 4.3 Book 3 Annex A).
pub const MOST_PAN: usize = 19;

/// Why a field is no primary account number.
#[derive(Clone, Copy, PartialEq, Eq, Debug)]
pub enum PanFault {
    /// This hexadecimal digit stands where a decimal digit or the filler F has to.
    NotDigit(u8),
    /// So many digits, and not 13 to 19.
    Length(usize),
}

/// The digits of a primary account number in the form of the object 5A: two digits a byte, filled
/// on the right with the hexadecimal digit F (EMV 4.3 Book 3 Annex A). `NotDigit` comes exactly where
/// a digit before the first F is above 9 or anything but F stands behind it, and has the first such
/// one; else `Length` exactly where the digits aren't 13 to 19.
#[tactic(auto, unfolding(crate::specs::Pan::pan_of))]
pub fn pan_digits(field: &[u8]) -> Result<Digits, PanFault>
    ensures { result ≡ pan_of field.now }
{
    let count = digit_count(field);
    if let Some(nibble) = first_stray(field, count) {
        return Err(PanFault::NotDigit(nibble));
    }
    if !is_pan_length(count) {
        return Err(PanFault::Length(count));
    }
    Ok(first_digits(field, count))
}

/// The object 5A of a primary account number: two digits a byte in the fewest bytes, an odd number of
/// digits with the hexadecimal digit F behind (EMV 4.3 Book 3 Annex A).
#[tactic(auto, unfolding(crate::specs::Pan::pan_field), using(crate::proofs::PanFields::read_back))]
pub fn pan_field(digits: &Digits) -> ArrayVec<u8, 10>
    ensures field { result.items ≡ field_of digits.now }
    ensures read_again { HasPanLength digits.now → pan_of result.items ≡ Ok digits.now }
{
    let mut field = ArrayVec::new();
    append_packed(&mut field, digits.as_slice());
    field
}

/// Appends the digits two a byte, the last of an odd number with an F.
#[tactic(auto, unfolding(crate::specs::Pan::pan_field))]
fn append_packed(field: &mut ArrayVec<u8, 10>, digits: &[u8])
    requires room { 2 * length field.old.items + length digits.now ≤ 19 }
    requires decimal { AllDecimal digits.now }
    ensures { field.new.items ≡ field.old.items ++ field_of digits.now }
{
    match digits {
        [] => {}
        [last] => field.push(*last * 16 + 15),
        [high, low, rest @ ..] => {
            field.push(*high * 16 + *low);
            append_packed(field, rest);
        }
    }
}

/// Whether an account number of this profile has so many digits.
pub fn is_pan_length(count: usize) -> bool
    ensures { result ≡ pan_length_test count }
{
    LEAST_PAN <= count && count <= MOST_PAN
}

/// How many nibbles stand before the first F.
fn digit_count(field: &[u8]) -> usize
    ensures place { result ≡ filler_place (nibbles field.now) }
    ensures within { result ≤ 2 * length field.now }
{
    for place in 0..2 * field.len() {
        if nibble_at(field, place) == 15 {
            return place;
        }
    }
    2 * field.len()
}

/// The first nibble that is no decimal digit among so many, or that is no F behind them.
fn first_stray(field: &[u8], count: usize) -> Option<u8>
    requires place { count ≡ filler_place (nibbles field.now) }
    requires within { count ≤ 2 * length field.now }
    ensures value { result ≡ stray_nibble (nibbles field.now) }
    ensures none { IfNone result (AllDecimal (before_filler (nibbles field.now))) }
{
    match first_not_decimal(field, count) {
        Some(nibble) => Some(nibble),
        None => first_not_filler(field, count),
    }
}

/// The first of so many nibbles that is no decimal digit.
fn first_not_decimal(field: &[u8], count: usize) -> Option<u8>
    requires { count ≤ 2 * length field.now }
    ensures value { result ≡ find (λ n. not (is_decimal n)) (take count (nibbles field.now)) }
    ensures none { IfNone result (AllDecimal (take count (nibbles field.now))) }
{
    for place in 0..count {
        let nibble = nibble_at(field, place);
        if nibble > 9 {
            return Some(nibble);
        }
    }
    None
}

/// The first nibble from this place on that is not F.
fn first_not_filler(field: &[u8], from: usize) -> Option<u8>
    requires { from ≤ 2 * length field.now }
    ensures { result ≡ find (λ n. not (is_filler n)) (drop from (nibbles field.now)) }
{
    for place in from..2 * field.len() {
        let nibble = nibble_at(field, place);
        if nibble != 15 {
            return Some(nibble);
        }
    }
    None
}

/// So many nibbles, which are decimal digits.
fn first_digits(field: &[u8], count: usize) -> Digits
    requires within { count ≤ 2 * length field.now }
    requires room { count ≤ 19 }
    requires decimal { AllDecimal (take count (nibbles field.now)) }
    ensures { result ≡ take count (nibbles field.now) }
{
    let mut digits = Digits::empty();
    for place in 0..count {
        digits.push(nibble_at(field, place));
    }
    digits
}
