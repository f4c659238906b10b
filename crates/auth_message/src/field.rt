ghost use Rattle.std.specs.Prelude.{◌≡◌, MatchResult, IfOk, length, ◌≤◌, true};
ghost use Rattle.auth_message.specs.Accepted.{AreDigitBytes};
ghost use Rattle.auth_message.specs.Field.{are_digits as all_digits, fixed_value as value_of_fixed, some_value as value_of_some, pan_or_wrong};
ghost use Rattle.emv_dict.specs.Pan.{pan_of};
ghost use Rattle.std.specs.Prelude.{Ok, Err};

use crate::fault::MessageFault;
use ber_tlv::Tag;
use emv_dict::{Digits, has_digits, pan_digits};

/// Whether each byte is two decimal digits.
fn are_digits(value: &[u8]) -> bool
    ensures { result ≡ all_digits value.now }
{
    value.iter().all(|byte| has_digits(*byte))
}

/// The value of a field of `N` bytes, which are decimal digits where it is `numeric`.
#[tactic(auto, unfolding(crate::specs::Field::fixed_value))]
pub fn fixed_value<const N: usize>(
    tag: u32,
    numeric: bool,
    value: &[u8],
) -> Result<[u8; N], MessageFault>
    ensures value { result ≡ value_of_fixed N numeric tag value.now }
    ensures digits { IfOk result (λ bytes. numeric ≡ true → AreDigitBytes bytes) }
{
    if value.len() != N {
        return Err(MessageFault::Value(Tag(tag)));
    }
    if numeric && !are_digits(value) {
        return Err(MessageFault::Value(Tag(tag)));
    }
    let mut bytes = [0; N];
    bytes.copy_from_slice(value);
    Ok(bytes)
}

/// The value of a field of `least` to `most` bytes.
#[tactic(auto, unfolding(crate::specs::Field::some_value))]
pub fn some_value(tag: u32, least: usize, most: usize, value: &[u8]) -> Result<&[u8], MessageFault>
    ensures value { MatchResult result (λ v. value_of_some least most tag value.now ≡ Ok v.now)
        (λ fault. value_of_some least most tag value.now ≡ Err fault) }
    ensures sized { IfOk result (λ v. (least ≤ length v.now) × (length v.now ≤ most)) }
{
    if value.len() < least || most < value.len() {
        return Err(MessageFault::Value(Tag(tag)));
    }
    Ok(value)
}

/// The digits of an account number in the field 5A.
pub fn pan_value(value: &[u8]) -> Result<Digits, MessageFault>
    ensures { result ≡ pan_or_wrong (pan_of value.now) }
{
    match pan_digits(value) {
        Ok(digits) => Ok(digits),
        Err(_) => Err(MessageFault::Value(Tag(0x5A))),
    }
}
