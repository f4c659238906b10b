//! Why the host's last reply is as it is.
ghost use Rattle.std.specs.Prelude.{◌≡◌};
ghost use Rattle.host_at_lines.specs.Because as spec;

use crate::call::{Call, number_of};
use auth_message::read_reply;
use iso_message::CallKind;
use issuer_host::Reason;

/// Why a reply is as it is.
#[derive(Clone, Copy)]
pub struct Because {
    pub reason: Reason,
    /// The number, from 1, of the earlier message that the reason speaks of.
    pub earlier: Option<u64>,
    /// Whether the reply is the first one that carries its scripts.
    pub scripts: bool,
}

/// Of which kind the earlier message is that a reason speaks of, where the reply is to a message of this kind.
fn kind_meant(reason: Reason, own: CallKind) -> Option<CallKind>
    ensures { result ≡ spec.kind_meant own reason }
{
    match reason {
        Reason::Repeat => Some(own),
        Reason::OtherBytes => Some(own),
        Reason::Reversed => Some(CallKind::Reversal),
        Reason::Presented => Some(CallKind::Presentment),
        _ => None,
    }
}

/// The number of the earlier message that a reason speaks of, where the reply is to this message.
fn earlier_number(calls: &[Option<Call>], reason: Reason, call: &Option<Call>) -> Option<u64>
    ensures { result ≡ spec.earlier_number calls.now reason call.now }
{
    let Some(call) = call else {
        return None;
    };
    match kind_meant(reason, call.kind) {
        Some(kind) => number_of(calls, kind, &call.key),
        None => None,
    }
}

/// Whether a reply carries scripts.
fn has_scripts(reply: &[u8]) -> bool
    ensures { result ≡ spec.has_scripts reply.now }
{
    match read_reply(reply) {
        Ok(found) => !found.scripts.is_empty(),
        Err(_) => false,
    }
}

/// Whether a reply with this reason is the first one that carries its scripts: a reply that comes again isn't.
fn carries_scripts(reason: Reason, reply: &[u8]) -> bool
    ensures { result ≡ spec.carries_scripts reply.now reason }
{
    match reason {
        Reason::Repeat => false,
        _ => has_scripts(reply),
    }
}

/// Why the reply to this message is as it is, behind these messages.
pub fn because_for(
    calls: &[Option<Call>],
    call: &Option<Call>,
    reason: Reason,
    reply: &[u8],
) -> Because
    ensures { result ≡ spec.because_by calls.now call.now reason reply.now }
{
    Because {
        reason,
        earlier: earlier_number(calls, reason, call),
        scripts: carries_scripts(reason, reply),
    }
}
