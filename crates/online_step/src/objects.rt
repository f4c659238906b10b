//! The data objects of an answer to GENERATE AC (EMV 4.3 Book 3 section 6.5.5.4).
ghost use Rattle.std.specs.Prelude.{◌≡◌, ◌≤◌, length, Ok, Err, IfOk, MatchResult};
ghost use Rattle.ber_tlv.specs.Left.{items_of};
ghost use Rattle.online_step.specs.Ac as spec;
ghost use Rattle.online_step.specs.Ac.{objects_in, ac_in_format_one, ac_in_format_two};
ghost use Rattle.object_lists.specs.Coding.{coding_cause};
ghost use Rattle.online_step.specs.SeenAc.{seen_bytes, seen_objects};

use ber_tlv::{Tag, first_value, sole_value};
use emv_dict::Cause;
use object_lists::coding_cause;

/// The most bytes of issuer application data.
const MOST_ISSUER_DATA: usize = 32;

/// The values of the objects, the issuer application data (9F10) empty where they are absent.
#[derive(Drop)]
pub(crate) struct Objects<'a> {
    /// The cryptogram information data (9F27).
    pub information: u8,
    /// The application transaction counter (9F36).
    pub counter: [u8; 2],
    /// The application cryptogram (9F26).
    pub cryptogram: [u8; 8],
    /// The issuer application data (9F10).
    pub iad: &'a [u8],
}

/// Reads the body of an answer: format 1, one object 80 with the values one behind another, or format 2,
/// one template 77 with the objects.
#[tactic(auto, unfolding(crate::specs::Ac::objects_in))]
pub(crate) fn read_objects(body: &[u8]) -> Result<Objects<'_>, Cause>
    ensures exact { MatchResult result
        (λ objects. objects_in body.now ≡ Ok (seen_objects objects))
        (λ cause. objects_in body.now ≡ Err cause) }
    ensures short { IfOk result (λ objects. length objects.iad.now ≤ 32) }
{
    if let Some(value) = sole_value(body, Tag(0x80)) {
        return read_format_one(value);
    }
    match sole_value(body, Tag(0x77)) {
        Some(template) => read_format_two(body, template),
        None => Err(coding_cause(body)),
    }
}

#[tactic(auto, unfolding(crate::specs::Ac::ac_in_format_one))]
fn read_format_one(value: &[u8]) -> Result<Objects<'_>, Cause>
    ensures exact { MatchResult result
        (λ objects. ac_in_format_one value.now ≡ Ok (seen_objects objects))
        (λ cause. ac_in_format_one value.now ≡ Err cause) }
    ensures short { IfOk result (λ objects. length objects.iad.now ≤ 32) }
{
    let [
        information,
        c0,
        c1,
        a0,
        a1,
        a2,
        a3,
        a4,
        a5,
        a6,
        a7,
        iad @ ..,
    ] = value
    else {
        return Err(Cause::Value(Tag(0x80)));
    };
    if iad.len() > MOST_ISSUER_DATA {
        return Err(Cause::Value(Tag(0x80)));
    }
    Ok(Objects {
        information: *information,
        counter: [*c0, *c1],
        cryptogram: [*a0, *a1, *a2, *a3, *a4, *a5, *a6, *a7],
        iad,
    })
}

fn read_format_two<'a>(body: &[u8], template: &'a [u8]) -> Result<Objects<'a>, Cause>
    ensures exact { MatchResult result
        (λ objects. ac_in_format_two body.now (items_of template.now) ≡ Ok (seen_objects objects))
        (λ cause. ac_in_format_two body.now (items_of template.now) ≡ Err cause) }
    ensures short { IfOk result (λ objects. length objects.iad.now ≤ 32) }
{
    let Ok(information) = first_value(template, Tag(0x9f27)) else {
        return Err(coding_cause(body));
    };
    let Ok(counter) = first_value(template, Tag(0x9f36)) else {
        return Err(coding_cause(body));
    };
    let Ok(cryptogram) = first_value(template, Tag(0x9f26)) else {
        return Err(coding_cause(body));
    };
    let Ok(iad) = first_value(template, Tag(0x9f10)) else {
        return Err(coding_cause(body));
    };
    of_values(information, counter, cryptogram, iad)
}

/// The objects of these values, each tried before the next.
#[tactic(auto, unfolding(crate::specs::Ac::of_values))]
fn of_values<'a>(
    information: Option<&[u8]>,
    counter: Option<&[u8]>,
    cryptogram: Option<&[u8]>,
    iad: Option<&'a [u8]>,
) -> Result<Objects<'a>, Cause>
    ensures exact { MatchResult result
        (λ objects. spec.of_values (seen_bytes information.entry) (seen_bytes counter.entry) (seen_bytes cryptogram.entry) (seen_bytes iad.entry) ≡ Ok (seen_objects objects))
        (λ cause. spec.of_values (seen_bytes information.entry) (seen_bytes counter.entry) (seen_bytes cryptogram.entry) (seen_bytes iad.entry) ≡ Err cause) }
    ensures short { IfOk result (λ objects. length objects.iad.now ≤ 32) }
{
    let information: [u8; 1] = sized(0x9f27, information)?;
    let counter = sized(0x9f36, counter)?;
    let cryptogram = sized(0x9f26, cryptogram)?;
    let iad = issuer_data(iad)?;
    Ok(Objects {
        information: information[0],
        counter,
        cryptogram,
        iad,
    })
}

/// The value of an object that must be there, with `N` bytes.
fn sized<const N: usize>(tag: u32, value: Option<&[u8]>) -> Result<[u8; N], Cause>
    ensures { result ≡ spec.sized tag N (seen_bytes value.entry) }
{
    let Some(value) = value else {
        return Err(Cause::Missing(Tag(tag)));
    };
    if value.len() != N {
        return Err(Cause::Value(Tag(tag)));
    }
    let mut bytes = [0; N];
    bytes.copy_from_slice(value);
    Ok(bytes)
}

/// The issuer application data, none where they are absent.
fn issuer_data(value: Option<&[u8]>) -> Result<&[u8], Cause>
    ensures exact { MatchResult result
        (λ iad. spec.issuer_data (seen_bytes value.entry) ≡ Ok iad.now)
        (λ cause. spec.issuer_data (seen_bytes value.entry) ≡ Err cause) }
    ensures short { IfOk result (λ iad. length iad.now ≤ 32) }
{
    match value {
        None => Ok(&[]),
        Some(iad) => {
            if iad.len() > MOST_ISSUER_DATA {
                return Err(Cause::Value(Tag(0x9f10)));
            }
            Ok(iad)
        }
    }
}
