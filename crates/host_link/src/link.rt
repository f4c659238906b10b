//! The delivery of a message to the issuer's host, and what comes back.
ghost use Rattle.std.specs.Prelude.{◌≡◌, ◌≤◌, ◌++◌, ◌∷◌, [], List, ℕ, length, true, false, option_map, OnOk, OnErr, IfOk};
ghost use Rattle.auth_message.specs.Message.{message_of};
ghost use Rattle.auth_message.specs.Whole.{IsMessage, IsReply};
ghost use Rattle.host_link.specs.Delivery.{delivered, heard as heard_of, reply_if};
ghost use Rattle.iso_message.specs.Dialect.{call_in, reply_in};
ghost use Rattle.issuer_host.specs.History.{HostStands, host_reply, is_new_message};

use crate::dialect::{Wire, take_call, take_reply, write_call, write_reply};
use auth_message::Message;
use issuer_host::Host;
use scenario_lanes::Link;
use std::alloc::AllocError;

/// The message goes to the host in the dialect of the lane, and the host answers in place of what `reply`
/// holds: at the host's end the call is turned into the message, and its reply is turned into the dialect and
/// back at the lane's end. `wire` holds what stood on the wire. Answers whether the reply comes back. After
/// `AllocError` the host is as before.
pub fn deliver(
    iso: bool,
    link: Link,
    message: &[u8],
    host: &mut Host<'_>,
    wire: &mut Wire,
    reply: &mut Message,
) -> Result<bool, AllocError>
    requires short { length message.now ≤ 2048 }
    requires message { iso ≡ true → IsMessage message.now }
    requires stands { (messages : List (List ℕ)) × HostStands host.old messages }
    ensures heard { IfOk result (λ comes. (messages : List (List ℕ)) → HostStands host.old messages
        → reply_if comes reply.new.items ≡ heard_of link (host_reply host.old.keys host.old.accounts messages message.now)) }
    ensures stands { OnOk result ((messages : List (List ℕ)) → HostStands host.old messages
        → HostStands host.new (messages ++ delivered link message.now)) }
    ensures keys { host.new.keys ≡ host.old.keys }
    ensures accounts { host.new.accounts ≡ host.old.accounts }
    ensures err { OnErr result (host.new ≡ host.old) }
    // Only a message that the host hasn't had can want memory.
    ensures memory { OnErr result (is_new_message host.old.books (message_of message.now) ≡ true) }
    ensures call { wire.new.call.items ≡ call_in iso message.now }
    ensures shown { IfOk result (λ comes. reply_if comes wire.new.reply.items ≡ option_map (reply_in iso message.now) (reply_if comes reply.new.items)) }
{
    write_call(iso, message, &mut wire.call);
    let mut received = Message::new();
    take_call(iso, wire.call.as_slice(), &mut received);
    let comes = carry(link, received.as_slice(), host, reply)?;
    if comes {
        write_reply(iso, received.as_slice(), reply.as_slice(), &mut wire.reply);
        take_reply(iso, wire.reply.as_slice(), reply);
    }
    Ok(comes)
}

/// The host is sent the message as often as the link says, and answers in place of what `reply` holds.
/// Answers whether the reply comes back.
fn carry(
    link: Link,
    message: &[u8],
    host: &mut Host<'_>,
    reply: &mut Message,
) -> Result<bool, AllocError>
    requires short { length message.now ≤ 2048 }
    requires stands { (messages : List (List ℕ)) × HostStands host.old messages }
    ensures heard { IfOk result (λ comes. (messages : List (List ℕ)) → HostStands host.old messages
        → reply_if comes reply.new.items ≡ heard_of link (host_reply host.old.keys host.old.accounts messages message.now)) }
    ensures stands { OnOk result ((messages : List (List ℕ)) → HostStands host.old messages
        → HostStands host.new (messages ++ delivered link message.now)) }
    ensures written { IfOk result (λ comes. comes ≡ true → IsReply reply.new.items) }
    ensures keys { host.new.keys ≡ host.old.keys }
    ensures accounts { host.new.accounts ≡ host.old.accounts }
    ensures err { OnErr result (host.new ≡ host.old) }
    ensures memory { OnErr result (is_new_message host.old.books (message_of message.now) ≡ true) }
{
    match link {
        Link::RequestLost => Ok(false),
        Link::Sound => {
            host.answer(message, reply)?;
            Ok(true)
        }
        Link::ReplyLost => {
            host.answer(message, reply)?;
            Ok(false)
        }
        Link::Twice => {
            host.answer(message, reply)?;
            repeat(message, host);
            Ok(true)
        }
    }
}

/// A message that the host has answered comes again, which takes no memory.
fn repeat(message: &[u8], host: &mut Host<'_>)
    requires short { length message.now ≤ 2048 }
    requires kept { is_new_message host.old.books (message_of message.now) ≡ false }
    ensures stands { (messages : List (List ℕ)) → HostStands host.old messages → HostStands host.new (messages ++ message.now ∷ []) }
    ensures keys { host.new.keys ≡ host.old.keys }
    ensures accounts { host.new.accounts ≡ host.old.accounts }
{
    let mut again = Message::new();
    if host.answer(message, &mut again).is_err() {
        unreachable!();
    }
}
