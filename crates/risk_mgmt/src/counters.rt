//! The two counters of velocity checking (EMV 4.3 Book 3 section 10.6.3).
ghost use Rattle.std.specs.Prelude.{◌≡◌, ◌<◌};
ghost use Rattle.risk_mgmt.specs.Counters as spec;

use apdu_core::status::NO_ERROR;
use apdu_core::{Command, Out, read_response, write_command};
use ber_tlv::{Tag, sole_value};
use emv_dict::{Cause, Tvr};

/// The application transaction counter.
pub(crate) const COUNTER: Tag = Tag(0x9f36);

/// The application transaction counter of the last transaction that was online.
pub(crate) const LAST_ONLINE: Tag = Tag(0x9f13);

/// Writes GET DATA of an object with a tag of two bytes.
#[tactic(auto, unfolding(crate::specs::Counters::get_data))]
pub(crate) fn write_get_data(tag: Tag, out: &mut Out)
    requires { tag.0 < 65536 }
    ensures { out.new.items ≡ spec.get_data tag.0 }
{
    let command = Command {
        class: 0x80,
        ins: 0xca,
        p1: (tag.0 / 256) as u8,
        p2: (tag.0 % 256) as u8,
        body: &[],
        expects: Some(0),
    };
    write_command(&command, out);
}

/// The counter that an answer gives, if it gives one; the cause where it can't be read.
#[tactic(auto, unfolding(crate::specs::Counters::counter_in_answer))]
pub(crate) fn read_counter(tag: Tag, reply: &[u8]) -> Result<Option<u16>, Cause>
    ensures { result ≡ spec.counter_in_answer tag.0 reply.now }
{
    let Ok(response) = read_response(reply) else {
        return Err(Cause::Answer);
    };
    if response.status != NO_ERROR {
        return Ok(None);
    }
    Ok(match sole_value(response.body, tag) {
        Some([high, low]) => Some(u16::from(*high) * 256 + u16::from(*low)),
        _ => None,
    })
}

/// The flags that stand already, and those of the two counters against the limits.
#[tactic(auto, unfolding(crate::specs::Counters::counter_bits))]
pub(crate) fn counted(
    tvr: Tvr,
    lower: u8,
    upper: u8,
    counter: Option<u16>,
    last: Option<u16>,
) -> Tvr
    ensures { result.0 ≡ spec.counter_bits tvr.0 lower upper counter last }
{
    Tvr::of_conditions(&[
        (true, tvr),
        (counter.is_none() || last.is_none(), Tvr::ICC_DATA_MISSING),
        (
            is_beyond(lower, counter, last),
            Tvr::LOWER_CONSECUTIVE_LIMIT_EXCEEDED,
        ),
        (
            is_beyond(upper, counter, last),
            Tvr::UPPER_CONSECUTIVE_LIMIT_EXCEEDED,
        ),
        (last == Some(0), Tvr::NEW_CARD),
    ])
}

/// Whether there were more transactions than the limit since the last one online, as far as the
/// counters tell.
fn is_beyond(limit: u8, counter: Option<u16>, last: Option<u16>) -> bool
    ensures { result ≡ spec.is_beyond limit counter last }
{
    match (counter, last) {
        (Some(counter), Some(last)) => counter <= last || u16::from(limit) < counter - last,
        _ => true,
    }
}
