//! An answer to READ RECORD (EMV 4.3 Book 3 section 6.5.11.4).
ghost use Rattle.std.specs.Prelude.{◌≡◌, ◌≤◌, ℕ, List, length, Ok, Err, Some, MatchResult, is_some};
ghost use Rattle.std.specs.List.{AllByRecursion};
ghost use Rattle.ber_tlv.specs.Direct.{sole_value};
ghost use Rattle.ber_tlv.specs.Left.{items_of};
ghost use Rattle.env_map.specs.Entries.{value_of};
ghost use Rattle.read_records.specs.Records.{held_in, held_in_body, in_template, gathered_all};
ghost use Rattle.read_records.specs.SeenFault.{cause_of};

use apdu_core::read_response;
use apdu_core::status::NO_ERROR;
use ber_tlv::{Tag, deep_fault, place_or_zero, sole_value};
use emv_dict::Cause;
use env_map::{Env, EnvFault, GatherFault, gather};

/// Takes an answer into the objects so far.
#[tactic(auto, unfolding(crate::specs::Records::held_in))]
pub(crate) fn read_record(sfi: u8, env: &mut Env, reply: &[u8]) -> Result<(), Cause>
    ensures exact { MatchResult result
        (λ _. gathered_all env.old (held_in sfi reply.now) ≡ Ok env.new)
        (λ cause. gathered_all env.old (held_in sfi reply.now) ≡ Err cause) }
    ensures kept { (tag : ℕ) (value : List ℕ) → value_of tag env.old ≡ Some value → value_of tag env.new ≡ Some value }
{
    let Ok(response) = read_response(reply) else {
        return Err(Cause::Answer);
    };
    if response.status != NO_ERROR {
        return Err(Cause::Status(response.status));
    }
    if sfi > 10 {
        return Ok(());
    }
    gather_template(env, response.body)
}

/// Gathers the objects of a record, which is one template 70.
fn gather_template(env: &mut Env, body: &[u8]) -> Result<(), Cause>
    ensures exact { let held = in_template (is_some (sole_value 0x70 (items_of body.now))) body.now in MatchResult result
        (λ _. gathered_all env.old held ≡ Ok env.new)
        (λ cause. gathered_all env.old held ≡ Err cause) }
    ensures kept { (tag : ℕ) (value : List ℕ) → value_of tag env.old ≡ Some value → value_of tag env.new ≡ Some value }
{
    if sole_value(body, Tag(0x70)).is_none() {
        return Err(Cause::Coding(place_or_zero(deep_fault(body))));
    }
    match gather(env, body) {
        Ok(()) => Ok(()),
        Err(fault) => Err(cause_of(fault)),
    }
}

/// Why an object of a record is not taken.
fn cause_of(fault: GatherFault) -> Cause
    ensures { result ≡ cause_of fault }
{
    match fault {
        GatherFault::Coding(fault) => Cause::Coding(fault.place()),
        GatherFault::Put(EnvFault::Repeated(tag)) => Cause::Repeated(tag),
        GatherFault::Put(EnvFault::TooMany) => Cause::TooMuch,
        GatherFault::Put(EnvFault::TooLong) => Cause::TooMuch,
    }
}

/// That an object list and the list of verification methods have at most 255 bytes is no limit to a card:
/// no answer has room for more in an object of a record.
#[tactic(auto, using(crate::proofs::Room::records_short))]
pub fn records_have_no_room()
    ensures { (sfi : ℕ) (answer : List ℕ) → AllByRecursion (λ item. length item.value ≤ 254) (held_in sfi answer).objects }
{}
