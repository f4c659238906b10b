//! What stands on a line, as the dialogue hears it: the host's replies in the dialect of the lane.
ghost use Rattle.std.specs.Prelude.{◌≡◌, ◌≤◌, length, IfOk, None, Ok, Some};
ghost use Rattle.auth_message.specs.Reply.{ReplyData, reply_of};
ghost use Rattle.auth_message.specs.Spelling.{reply_bytes};
ghost use Rattle.iso_message.specs.Reply.{iso_reply_of};
ghost use Rattle.iso_message.specs.declared.kind.CallKind.TheVariants as kind;
ghost use Rattle.terminal_at_reader.specs.Hearing as spec;
ghost use Rattle.trace_check.specs.Texts.{IsEntry};
ghost use Rattle.terminal_at_reader.specs.declared.fault.ReplyFault.TheVariants as faults;
ghost use Rattle.trace_check.specs.declared.entry.Entry.TheVariants as entries;

use crate::fault::ReplyFault;
use auth_message::{Message, read_reply};
use host_link::take_reply;
use iso_message::{CallKind, IsoFault, read_iso_reply};
use std::alloc::{AllocError, Global};
use trace_check::{Bytes, Entry};

/// What a line says, as the dialogue hears it, and why the reply in it can't be read where it can't.
#[derive(Drop)]
pub struct Heard {
    pub entry: Entry,
    pub fault: Option<ReplyFault>,
}

/// The reply that bytes in the style of ISO 8583 are, as it is in the first dialect.
fn plain_reply(alloc: Global, reply: &[u8]) -> Result<Bytes, AllocError>
    requires short { length reply.now ≤ 2048 }
    requires read { (found : ReplyData) × (iso_reply_of reply.now ≡ Ok (kind.Request, found)) }
    ensures { IfOk result (λ plain. (found : ReplyData) → iso_reply_of reply.now ≡ Ok (kind.Request, found)
        → plain ≡ reply_bytes found.code found.auth found.scripts) }
{
    let mut plain = Message::new();
    take_reply(true, reply, &mut plain);
    let mut held = Vec::new(alloc);
    held.extend_from_slice(plain.as_slice())?;
    Ok(Bytes::new(held))
}

/// A reply in the style of ISO 8583 that can't be read: none.
fn none_read(fault: IsoFault) -> Heard
    ensures entry { result.entry ≡ entries.HostSilent }
    ensures fault { result.fault ≡ Some (faults.Iso fault) }
{
    Heard {
        entry: Entry::HostSilent,
        fault: Some(ReplyFault::Iso(fault)),
    }
}

/// A reply in the style of ISO 8583, which has to be one to a request.
fn heard_iso(alloc: Global, reply: &[u8]) -> Result<Heard, AllocError>
    requires short { length reply.now ≤ 2048 }
    ensures entry { IfOk result (λ heard. heard.entry ≡ spec.heard_by (iso_reply_of reply.now)) }
    ensures fault { IfOk result (λ heard. heard.fault ≡ spec.iso_fault_in (iso_reply_of reply.now)) }
{
    match read_iso_reply(reply) {
        Ok((CallKind::Request, _)) => {
            let entry = Entry::HostSaid(plain_reply(alloc, reply)?);
            Ok(Heard { entry, fault: None })
        }
        Ok((CallKind::Presentment, _)) => Ok(none_read(IsoFault::WrongType)),
        Ok((CallKind::Reversal, _)) => Ok(none_read(IsoFault::WrongType)),
        Err(fault) => Ok(none_read(fault)),
    }
}

/// Why a reply in the first dialect can't be read, where it can't.
pub fn fault_in(reply: &[u8]) -> Option<ReplyFault>
    ensures { result ≡ spec.message_fault_in (reply_of reply.now) }
{
    match read_reply(reply) {
        Ok(_) => None,
        Err(fault) => Some(ReplyFault::Message(fault)),
    }
}

/// A reply of the host, in the dialect of the lane or in the first.
fn heard_reply(alloc: Global, iso: bool, reply: Bytes) -> Result<Heard, AllocError>
    requires short { length reply ≤ 2048 }
    ensures entry { IfOk result (λ heard. heard.entry ≡ spec.understood iso (entries.HostSaid reply)) }
    ensures fault { IfOk result (λ heard. heard.fault ≡ spec.unread iso (entries.HostSaid reply)) }
{
    if iso {
        return heard_iso(alloc, reply.as_slice());
    }
    let fault = fault_in(reply.as_slice());
    Ok(Heard {
        entry: Entry::HostSaid(reply),
        fault,
    })
}

/// What is heard as it is said.
fn as_said(entry: Entry) -> Heard
    ensures entry { result.entry ≡ entry }
    ensures fault { result.fault ≡ None }
{
    Heard { entry, fault: None }
}

/// What a line says, as the dialogue of a lane hears it.
pub fn hear(alloc: Global, iso: bool, said: Entry) -> Result<Heard, AllocError>
    requires { IsEntry said }
    ensures entry { IfOk result (λ heard. heard.entry ≡ spec.understood iso said) }
    ensures fault { IfOk result (λ heard. heard.fault ≡ spec.unread iso said) }
{
    match said {
        Entry::HostSaid(reply) => heard_reply(alloc, iso, reply),
        Entry::HostSilent => Ok(as_said(Entry::HostSilent)),
        Entry::ToHost(message) => Ok(as_said(Entry::ToHost(message))),
        Entry::ToCard(command) => Ok(as_said(Entry::ToCard(command))),
        Entry::CardSaid(answer) => Ok(as_said(Entry::CardSaid(answer))),
        Entry::CardGone => Ok(as_said(Entry::CardGone)),
        Entry::End(text) => Ok(as_said(Entry::End(text))),
    }
}
