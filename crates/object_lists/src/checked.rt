//! The objects that a terminal tries once the records are read (EMV 4.3 Book 3 section 7.2, Annex A).
ghost use Rattle.std.specs.Prelude.{◌≡◌, ◌↔◌, IsTrue, None, map, option_map};
ghost use Rattle.env_map.specs.Entries.{Entries};
ghost use Rattle.object_lists.specs.Forms.{HasForms, is_date_value as day_test, is_code_value as code_test, is_two_digits as digits_test, is_object_list as list_test, is_verification_list as verification_test};
ghost use Rattle.object_lists.specs.Checked.{HasOptions, objects_fault, first_wrong, missing_from, form_of, passes_if_there, wrong_cause};
ghost use Rattle.object_lists.specs.Checked as spec;
ghost use Rattle.object_lists.specs.SeenRow.{seen_row};

use crate::dol::read_dol;
use ber_tlv::Tag;
use emv_dict::{Cause, Date, has_digits, is_code, pan_digits};
use env_map::Env;

/// The form that the value of an object must have.
#[derive(Clone, Copy, PartialEq, Eq, Debug)]
pub(crate) enum Check {
    /// 13 to 19 digits, filled with F.
    AccountNumber,
    /// Year, month and day, two digits a byte.
    Day,
    /// The code of a country or a currency: two bytes of digits, the first of them 0.
    Code,
    /// One byte of two digits.
    TwoDigits,
    /// A data object list that can be read.
    ObjectList,
    /// Two amounts of four bytes each, and rules of two bytes each.
    VerificationList,
    /// So many bytes.
    Bytes(u8),
}

/// An object, by the number of its tag's bytes, and the form of its value.
#[derive(Clone, Copy)]
pub(crate) struct Row(u32, Check);

/// The objects in the order in which they are tried.
const CHECKED: [Row; 16] = [
    Row(0x5a, Check::AccountNumber),
    Row(0x5f24, Check::Day),
    Row(0x5f25, Check::Day),
    Row(0x5f28, Check::Code),
    Row(0x5f34, Check::TwoDigits),
    Row(0x8c, Check::ObjectList),
    Row(0x8d, Check::ObjectList),
    Row(0x8e, Check::VerificationList),
    Row(0x9f07, Check::Bytes(2)),
    Row(0x9f08, Check::Bytes(2)),
    Row(0x9f0d, Check::Bytes(5)),
    Row(0x9f0e, Check::Bytes(5)),
    Row(0x9f0f, Check::Bytes(5)),
    Row(0x9f14, Check::Bytes(1)),
    Row(0x9f23, Check::Bytes(1)),
    Row(0x9f42, Check::Code),
];

/// The mandatory objects, in the order in which they are looked for.
const MANDATORY: [Tag; 4] = [Tag(0x5f24), Tag(0x5a), Tag(0x8c), Tag(0x8d)];

/// Why the objects of a card end the transaction, if they do: a mandatory one that is not there, else one
/// of another form than it must have.
#[tactic(auto, unfolding(crate::specs::Checked::objects_fault))]
pub fn objects_fault(env: &Env) -> Option<Cause>
    ensures { result ≡ objects_fault env.now }
{
    match missing_among(&MANDATORY, env) {
        Some(cause) => Some(cause),
        None => wrong_among_checked(env),
    }
}

/// Nothing is wrong exactly where the objects have the forms of a card that is read.
#[tactic(auto, using(crate::proofs::FormLemmas::formed, crate::proofs::FormLemmas::unformed))]
pub fn forms_are_tried()
    ensures { (entries : Entries) → HasOptions entries → (objects_fault entries ≡ None) ↔ HasForms entries }
{}

/// Whether the objects of an answer to GET PROCESSING OPTIONS are there: a profile of two bytes, and a locator.
pub(crate) fn has_options(env: &Env) -> bool
    ensures { IsTrue result ↔ HasOptions env.now }
{
    match env.get(Tag(0x82)) {
        Some(profile) => profile.len() == 2 && env.get(Tag(0x94)).is_some(),
        None => false,
    }
}

fn missing_among(tags: &[Tag], env: &Env) -> Option<Cause>
    ensures { result ≡ missing_from (map (λ tag. tag.0) tags.now) env.now }
{
    for tag in tags {
        if env.get(*tag).is_none() {
            return Some(Cause::Missing(*tag));
        }
    }
    None
}

#[tactic(auto, unfolding(crate::specs::Checked::checked))]
fn wrong_among_checked(env: &Env) -> Option<Cause>
    ensures { result ≡ first_wrong spec.checked env.now }
{
    wrong_among(&CHECKED, env)
}

#[tactic(auto, unfolding(crate::specs::Checked::first_wrong))]
fn wrong_among(rows: &[Row], env: &Env) -> Option<Cause>
    ensures { result ≡ first_wrong (map seen_row rows.now) env.now }
{
    for row in rows {
        if !passes_if_there(row.1, env.get(Tag(row.0))) {
            return Some(wrong_cause(row.1, Tag(row.0)));
        }
    }
    None
}

fn passes_if_there(check: Check, value: Option<&[u8]>) -> bool
    ensures { result ≡ passes_if_there check (option_map (λ given. given.now) value.entry) }
{
    match value {
        None => true,
        Some(value) => passes(check, value),
    }
}

/// Whether a value has the form.
fn passes(check: Check, value: &[u8]) -> bool
    ensures { result ≡ form_of check value.now }
{
    match check {
        Check::AccountNumber => pan_digits(value).is_ok(),
        Check::Day => is_day(value),
        Check::Code => is_country_or_currency(value),
        Check::TwoDigits => is_two_digits(value),
        Check::ObjectList => is_object_list(value),
        Check::VerificationList => is_verification_list(value),
        Check::Bytes(count) => value.len() == usize::from(count),
    }
}

fn is_verification_list(value: &[u8]) -> bool
    ensures { result ≡ verification_test value.now }
{
    let count = value.len();
    count >= 8 && (count <= 255 && count % 2 == 0)
}

fn is_day(value: &[u8]) -> bool
    ensures { result ≡ day_test value.now }
{
    match value {
        [year, month, day] => Date::read([*year, *month, *day]).is_some(),
        _ => false,
    }
}

fn is_country_or_currency(value: &[u8]) -> bool
    ensures { result ≡ code_test value.now }
{
    match value {
        [first, second] => is_code([*first, *second]),
        _ => false,
    }
}

fn is_two_digits(value: &[u8]) -> bool
    ensures { result ≡ digits_test value.now }
{
    match value {
        [byte] => has_digits(*byte),
        _ => false,
    }
}

fn is_object_list(value: &[u8]) -> bool
    ensures { result ≡ list_test value.now }
{
    value.len() <= 255 && read_dol(value).is_ok()
}

/// The cause of a wrong value: an object list has one of its own.
fn wrong_cause(check: Check, tag: Tag) -> Cause
    ensures { result ≡ wrong_cause check tag.0 }
{
    match check {
        Check::ObjectList => Cause::Dol(tag),
        _ => Cause::Value(tag),
    }
}
