//! A message and its reply as they stand on the wire, and back.
ghost use Rattle.std.specs.Prelude.{◌≡◌, ◌≤◌, ℕ, List, [], length, true, IsOk};
ghost use Rattle.auth_message.specs.Whole.{IsMessage, IsReply};
ghost use Rattle.host_link.specs.Carried.{CarriesCall, CarriesReply};
ghost use Rattle.iso_message.specs.Dialect.{call_in, reply_in, call_kind_of as kind_of_call};
ghost use Rattle.iso_message.specs.Reading.{call_of};
ghost use Rattle.iso_message.specs.Reply.{iso_reply_of};

use auth_message::{
    Incoming, Message, read_message, read_reply, write_presentment, write_request, write_reversal,
};
use ber_tlv::append;
use iso_message::{CallKind, read_iso_call, read_iso_reply, write_iso_call, write_iso_reply};

/// What stood on the wire: the call, and the reply to it where one came back.
#[derive(Drop)]
pub struct Wire {
    pub call: Message,
    pub reply: Message,
}

impl Wire {
    /// A wire on which nothing stood.
    pub fn new() -> Wire
        ensures call { result.call.items ≡ [] }
        ensures reply { result.reply.items ≡ [] }
    {
        Wire {
            call: Message::new(),
            reply: Message::new(),
        }
    }
}

/// Writes a message as it goes to the host, in place of what `out` holds: as it is, or on an iso lane in the
/// style of ISO 8583. There it has to be a message of a terminal.
#[tactic(auto, unfolding(iso_message::specs::Dialect::iso_call))]
pub fn write_call(iso: bool, message: &[u8], out: &mut Message)
    requires fits { length message.now ≤ 2048 }
    requires message { iso ≡ true → IsMessage message.now }
    ensures bytes { out.new.items ≡ call_in iso message.now }
    // It is read as that message.
    ensures carries { CarriesCall iso out.new.items message.now }
{
    if !iso {
        out.clear();
        append(out, message);
        return;
    }
    match read_message(message) {
        Ok(call) => write_iso_call(&call, out),
        Err(_) => unreachable!(),
    }
}

/// Takes a call from the wire: the message that it is, in place of what `out` holds.
pub(crate) fn take_call(iso: bool, bytes: &[u8], out: &mut Message)
    requires fits { length bytes.now ≤ 2048 }
    requires read { iso ≡ true → IsOk (call_of bytes.now) }
    ensures { (message : List ℕ) → CarriesCall iso bytes.now message → out.new.items ≡ message }
{
    if !iso {
        out.clear();
        append(out, bytes);
        return;
    }
    match read_iso_call(bytes) {
        Ok(Incoming::Request(fields)) => write_request(&fields, out),
        Ok(Incoming::Present(fields)) => write_presentment(&fields, out),
        Ok(Incoming::Reverse(fields)) => write_reversal(&fields, out),
        Err(_) => unreachable!(),
    }
}

/// Writes the reply to a message as it comes from the host, in place of what `out` holds: as it is, or on an
/// iso lane in the style of ISO 8583. There it has to be a reply as `Host::answer` writes it.
#[tactic(auto, unfolding(iso_message::specs::Dialect::iso_reply))]
pub fn write_reply(iso: bool, message: &[u8], reply: &[u8], out: &mut Message)
    requires fits { length reply.now ≤ 2048 }
    requires message { iso ≡ true → IsMessage message.now }
    requires reply { iso ≡ true → IsReply reply.now }
    ensures bytes { out.new.items ≡ reply_in iso message.now reply.now }
    // It is read as that reply.
    ensures carries { CarriesReply iso out.new.items reply.now }
{
    if !iso {
        out.clear();
        append(out, reply);
        return;
    }
    let Ok(call) = read_message(message) else {
        unreachable!();
    };
    match read_reply(reply) {
        Ok(found) => write_iso_reply(kind_of(&call), &found, out),
        Err(_) => unreachable!(),
    }
}

/// Takes a reply from the wire, in place of what `out` holds. On an iso lane it has to be one in that style.
pub fn take_reply(iso: bool, bytes: &[u8], out: &mut Message)
    requires fits { length bytes.now ≤ 2048 }
    requires read { iso ≡ true → IsOk (iso_reply_of bytes.now) }
    ensures { (reply : List ℕ) → CarriesReply iso bytes.now reply → out.new.items ≡ reply }
{
    if !iso {
        out.clear();
        append(out, bytes);
        return;
    }
    match read_iso_reply(bytes) {
        Ok((_, found)) => auth_message::write_reply(found.code, found.auth, found.scripts, out),
        Err(_) => unreachable!(),
    }
}

/// The kind of a call.
fn kind_of(call: &Incoming<'_>) -> CallKind
    ensures { result ≡ kind_of_call call.now }
{
    match call {
        Incoming::Request(_) => CallKind::Request,
        Incoming::Present(_) => CallKind::Presentment,
        Incoming::Reverse(_) => CallKind::Reversal,
    }
}
