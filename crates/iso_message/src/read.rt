//! Reading a call and a reply.
ghost use Rattle.std.specs.Prelude.{◌≡◌, ◌≤◌, length, Ok, Err, MatchResult, IfOk, IfSome};
ghost use Rattle.auth_message.specs.Whole.{IsAccepted, HasCodes, AreSpelledScripts};
ghost use Rattle.iso_message.specs.Layout.{call_type, reply_type};
ghost use Rattle.iso_message.specs.Reading.{call_kind_at, iso_request_at, iso_present_at, iso_reversal_at, call_from, call_of};
ghost use Rattle.iso_message.specs.Reply.{iso_reply_at, reply_from, iso_reply_of};
ghost use Rattle.iso_message.specs.Spelling.{call_bytes, iso_reply_bytes};

use crate::bits::reply_bits;
use crate::fault::IsoFault;
use crate::front::{present_front, request_front, reversal_front, tied};
use crate::icc::{present_in, reply_in, request_in, reversal_in};
use crate::kind::CallKind;
use crate::reader::Reader;
use auth_message::{Incoming, PresentFields, Reply, RequestFields, ReversalFields};

/// The call that the bytes are. Else the first fault in the order of the bytes: `Short` where they end
/// within the type, the bitmap or a field, with the place where it begins, `WrongType` for another type,
/// `Bitmap` for other fields than the message has, `Field` for content that is against the table; behind
/// field 55 `Field` of 11 and of 37 where they don't agree with 9F36, and `Rest` for bytes behind it.
pub fn read_iso_call(bytes: &[u8]) -> Result<Incoming<'_>, IsoFault>
    ensures value { MatchResult result (λ call. call_of bytes.now ≡ Ok call) (λ fault. call_of bytes.now ≡ Err fault) }
    // A call has one spelling, and what was read may be written again.
    ensures spelled { IfOk result (λ call. bytes.now ≡ call_bytes call) }
    ensures accepted { IfOk result IsAccepted }
    ensures codes { IfOk result HasCodes }
{
    read_call(&mut Reader::new(bytes))
}

/// The reply that the bytes are, with the kind of call that it answers. Else the first fault in the order of
/// the bytes, as of a call.
pub fn read_iso_reply(bytes: &[u8]) -> Result<(CallKind, Reply<'_>), IsoFault>
    ensures value { MatchResult result (λ found. iso_reply_of bytes.now ≡ Ok (found.0, found.1)) (λ fault. iso_reply_of bytes.now ≡ Err fault) }
    // A reply has one spelling, and what was read may be written again.
    ensures spelled { IfOk result (λ found. bytes.now ≡ iso_reply_bytes found.0 found.1) }
    ensures auth { IfOk result (λ found. IfSome found.1.auth (λ value. (8 ≤ length value) × (length value ≤ 16))) }
    ensures scripts { IfOk result (λ found. AreSpelledScripts found.1.scripts) }
{
    read_reply(&mut Reader::new(bytes))
}

/// Reads a call.
fn read_call<'a>(reader: &mut Reader<'a>) -> Result<Incoming<'a>, IsoFault>
    ensures { MatchResult result (λ call. call_from reader.old ≡ Ok call) (λ fault. call_from reader.old ≡ Err fault) }
{
    match call_kind(reader)? {
        CallKind::Request => match read_request(reader) {
            Ok(found) => Ok(Incoming::Request(found)),
            Err(fault) => Err(fault),
        },
        CallKind::Presentment => match read_present(reader) {
            Ok(found) => Ok(Incoming::Present(found)),
            Err(fault) => Err(fault),
        },
        CallKind::Reversal => match read_reversal(reader) {
            Ok(found) => Ok(Incoming::Reverse(found)),
            Err(fault) => Err(fault),
        },
    }
}

/// Reads a reply.
#[tactic(auto, unfolding(crate::specs::Reply::reply_from))]
fn read_reply<'a>(reader: &mut Reader<'a>) -> Result<(CallKind, Reply<'a>), IsoFault>
    ensures { MatchResult result (λ found. reply_from reader.old ≡ Ok (found.0, found.1)) (λ fault. reply_from reader.old ≡ Err fault) }
{
    let kind = reply_kind(reader)?;
    match read_fields(reader) {
        Ok(reply) => Ok((kind, reply)),
        Err(fault) => Err(fault),
    }
}

/// The kind of a call by its type.
#[tactic(auto, unfolding(crate::specs::Reading::call_kind_at))]
fn call_kind(reader: &mut Reader) -> Result<CallKind, IsoFault>
    ensures { MatchResult result (λ kind. call_kind_at call_type reader.old ≡ Ok (kind, reader.new)) (λ fault. call_kind_at call_type reader.old ≡ Err fault) }
{
    let found: [u8; 4] = reader.array()?;
    if found == *b"0100" {
        Ok(CallKind::Request)
    } else if found == *b"0220" {
        Ok(CallKind::Presentment)
    } else if found == *b"0400" {
        Ok(CallKind::Reversal)
    } else {
        Err(IsoFault::WrongType)
    }
}

/// The kind of the call that a reply answers by the reply's type.
#[tactic(auto, unfolding(crate::specs::Reading::call_kind_at))]
fn reply_kind(reader: &mut Reader) -> Result<CallKind, IsoFault>
    ensures { MatchResult result (λ kind. call_kind_at reply_type reader.old ≡ Ok (kind, reader.new)) (λ fault. call_kind_at reply_type reader.old ≡ Err fault) }
{
    let found: [u8; 4] = reader.array()?;
    if found == *b"0110" {
        Ok(CallKind::Request)
    } else if found == *b"0230" {
        Ok(CallKind::Presentment)
    } else if found == *b"0410" {
        Ok(CallKind::Reversal)
    } else {
        Err(IsoFault::WrongType)
    }
}

/// Reads a request behind its type.
#[tactic(auto, unfolding(crate::specs::Reading::iso_request_at))]
fn read_request<'a>(reader: &mut Reader<'a>) -> Result<RequestFields<'a>, IsoFault>
    ensures { MatchResult result (λ found. iso_request_at reader.old ≡ Ok found) (λ fault. iso_request_at reader.old ≡ Err fault) }
{
    let front = request_front(reader)?;
    let numbers = front.numbers;
    let mut fields = reader.items()?;
    let Ok(found) = request_in(front, &mut fields) else {
        return Err(IsoFault::Field(55));
    };
    tied(&numbers, found.t9f36)?;
    reader.end()?;
    Ok(found)
}

/// Reads a presentment behind its type.
#[tactic(auto, unfolding(crate::specs::Reading::iso_present_at))]
fn read_present<'a>(reader: &mut Reader<'a>) -> Result<PresentFields<'a>, IsoFault>
    ensures { MatchResult result (λ found. iso_present_at reader.old ≡ Ok found) (λ fault. iso_present_at reader.old ≡ Err fault) }
{
    let front = present_front(reader)?;
    let numbers = front.numbers;
    let mut fields = reader.items()?;
    let Ok(found) = present_in(front, &mut fields) else {
        return Err(IsoFault::Field(55));
    };
    tied(&numbers, found.t9f36)?;
    reader.end()?;
    Ok(found)
}

/// Reads a reversal behind its type.
#[tactic(auto, unfolding(crate::specs::Reading::iso_reversal_at))]
fn read_reversal(reader: &mut Reader) -> Result<ReversalFields, IsoFault>
    ensures { MatchResult result (λ found. iso_reversal_at reader.old ≡ Ok found) (λ fault. iso_reversal_at reader.old ≡ Err fault) }
{
    let front = reversal_front(reader)?;
    let mut fields = reader.items()?;
    let Ok(found) = reversal_in(&front, &mut fields) else {
        return Err(IsoFault::Field(55));
    };
    tied(&front.numbers, found.t9f36)?;
    reader.end()?;
    Ok(found)
}

/// Reads a reply behind its type.
#[tactic(auto, unfolding(crate::specs::Reply::iso_reply_at))]
fn read_fields<'a>(reader: &mut Reader<'a>) -> Result<Reply<'a>, IsoFault>
    ensures { MatchResult result (λ found. iso_reply_at reader.old ≡ Ok found) (λ fault. iso_reply_at reader.old ≡ Err fault) }
{
    reader.bits(reply_bits())?;
    let code: [u8; 2] = reader.array()?;
    let mut fields = reader.items()?;
    let Ok(found) = reply_in(code, &mut fields) else {
        return Err(IsoFault::Field(55));
    };
    reader.end()?;
    Ok(found)
}
