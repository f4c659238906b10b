//! What stands on a wire tells which message or which reply it is, in each dialect.
ghost use Rattle.std.specs.Prelude.{◌≡◌, ℕ, ◌≤◌, List, length};
ghost use Rattle.auth_message.specs.Whole.{IsMessage, IsReply};
ghost use Rattle.iso_message.specs.Dialect.{call_in, reply_in};

use crate::dialect::{write_call, write_reply};
use auth_message::Message;

/// Two messages of terminals that differ have different bytes, and no message has the bytes of a reply to any
/// message.
pub fn messages_differ(iso: bool, one: &[u8], other: &[u8])
    requires one { IsMessage one.now }
    requires one_fits { length one.now ≤ 2048 }
    requires other { IsMessage other.now }
    requires other_fits { length other.now ≤ 2048 }
    ensures apart { call_in iso one.now ≡ call_in iso other.now → one.now ≡ other.now }
    ensures no_reply { (message reply : List ℕ) → IsReply reply → call_in iso one.now ≡ reply_in iso message reply → ⊥ }
{
    let mut one_call = Message::new();
    let mut other_call = Message::new();
    write_call(iso, one, &mut one_call);
    write_call(iso, other, &mut other_call);
}

/// Two replies to a message that differ have different bytes.
pub fn replies_differ(iso: bool, message: &[u8], one: &[u8], other: &[u8])
    requires message { IsMessage message.now }
    requires one { IsReply one.now }
    requires one_fits { length one.now ≤ 2048 }
    requires other { IsReply other.now }
    requires other_fits { length other.now ≤ 2048 }
    ensures { reply_in iso message.now one.now ≡ reply_in iso message.now other.now → one.now ≡ other.now }
{
    let mut one_reply = Message::new();
    let mut other_reply = Message::new();
    write_reply(iso, message, one, &mut one_reply);
    write_reply(iso, message, other, &mut other_reply);
}
