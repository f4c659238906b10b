//! The settlement: each message that was captured is sent, and waits for the host's reply.
ghost use Rattle.std.specs.Prelude.{◌≡◌, ◌≤◌, ◌+◌, ◌++◌, [], IfOk, option_map, slice_get};
ghost use Rattle.auth_message.specs.Whole.{IsMessage};
ghost use Rattle.iso_message.specs.Dialect.{call_kind_of};
ghost use Rattle.iso_message.specs.Reply.{iso_reply_of};
ghost use Rattle.auth_message.specs.Message.{message_of};
ghost use Rattle.terminal_at_reader.specs.Settlement as spec;
ghost use Rattle.terminal_at_reader.specs.Talk.{HasAmounts, IsAtSettlement, IsTurnOf, settlement_turn, settling_turn};

use crate::asking::{tell_settled, tell_settlement};
use crate::fault::ReplyFault;
use crate::hearing::fault_in;
use crate::saying::{put_fault, put_other, put_why};
use crate::till::Captured;
use crate::work::{Phase, Work};
use auth_message::{Incoming, read_message};
use iso_message::{CallKind, IsoFault, read_iso_reply};
use line_talk::{LineText, Onward};
use std::alloc::{AllocError, Global};
use trace_check::{Bytes, bytes_shown};

/// A reply has at most so many bytes.
const MOST_REPLY: usize = 2048;

/// The kind of a message.
fn kind_of(call: &Incoming<'_>) -> CallKind
    ensures { result ≡ call_kind_of call.now }
{
    match call {
        Incoming::Request(_) => CallKind::Request,
        Incoming::Present(_) => CallKind::Presentment,
        Incoming::Reverse(_) => CallKind::Reversal,
    }
}

/// Whether a reply to a message of the second kind is one to a message of the first.
fn is_same_kind(sent: CallKind, answered: CallKind) -> bool
    ensures { result ≡ spec.same_kind sent answered }
{
    match sent {
        CallKind::Request => matches!(answered, CallKind::Request),
        CallKind::Presentment => matches!(answered, CallKind::Presentment),
        CallKind::Reversal => matches!(answered, CallKind::Reversal),
    }
}

/// Why a reply in the style of ISO 8583 to a message isn't one, where that can be read.
fn fault_of_kinds(sent: CallKind, answered: CallKind) -> Option<ReplyFault>
    ensures { result ≡ spec.fault_of_kinds sent answered }
{
    if is_same_kind(sent, answered) {
        None
    } else {
        Some(ReplyFault::Iso(IsoFault::WrongType))
    }
}

/// Why a reply in the style of ISO 8583 to a message can't be read, where it can't.
fn iso_fault_in(message: &[u8], reply: &[u8]) -> Option<ReplyFault>
    ensures { result ≡ spec.iso_fault_to (message_of message.now) (iso_reply_of reply.now) }
{
    let answered = match read_iso_reply(reply) {
        Ok((answered, _)) => answered,
        Err(fault) => return Some(ReplyFault::Iso(fault)),
    };
    match read_message(message) {
        Ok(call) => fault_of_kinds(kind_of(&call), answered),
        Err(_) => None,
    }
}

/// Why the reply to a message can't be read, where it can't.
fn fault_in_reply(iso: bool, message: &[u8], reply: &[u8]) -> Option<ReplyFault>
    ensures { result ≡ spec.fault_in_reply iso message.now reply.now }
{
    if iso {
        iso_fault_in(message, reply)
    } else {
        fault_in(reply)
    }
}

/// The same of the message that waits, where one does.
fn unread(iso: bool, captured: Option<&Captured>, reply: &[u8]) -> Option<ReplyFault>
    ensures { result ≡ spec.settlement_unread iso (option_map (λ captured. captured.now) captured.entry) reply.now }
{
    match captured {
        Some(captured) => fault_in_reply(iso, captured.as_slice(), reply),
        None => None,
    }
}

/// The reply that a line says.
fn reply_in(alloc: Global, line: &[u8]) -> Result<Option<Bytes>, AllocError>
    ensures { IfOk result (λ found. found ≡ spec.settlement_reply line.now) }
{
    match line.strip_prefix(b"settle < ") {
        Some(shown) => bytes_shown(alloc, MOST_REPLY, shown),
        None => Ok(None),
    }
}

/// The line of the message behind so many that were answered, or the one that tells that all were.
fn settle_one(iso: bool, work: &mut Work<'_>, answered: usize, line: &mut LineText) -> Onward
    requires log { HasAmounts work.old.till.log }
    ensures turn { IsTurnOf work.new line.new.items result (settlement_turn iso work.old.till answered []) }
{
    match work.till.captured(answered) {
        Some(captured) => {
            tell_settlement(iso, captured, line);
            work.phase = Phase::Settles(answered);
            Onward::Awaits
        }
        None => {
            tell_settled(answered, line);
            work.till.settle();
            work.phase = Phase::Rests;
            Onward::Rests
        }
    }
}

/// Sends the message behind so many that were answered, or tells that all were; behind what the text holds.
pub fn add_settlement(
    iso: bool,
    work: &mut Work<'_>,
    answered: usize,
    text: &mut Vec<u8>,
) -> Result<Onward, AllocError>
    requires log { HasAmounts work.old.till.log }
    ensures turn { IfOk result (λ onward. IsTurnOf work.new text.new.items onward (settlement_turn iso work.old.till answered text.old.items)) }
{
    let mut line = LineText::new();
    let onward = settle_one(iso, work, answered, &mut line);
    text.extend_from_slice(line.as_slice())?;
    Ok(onward)
}

/// Answers a line where so many messages of a settlement were answered and one waits: its reply by the next one.
pub fn answer_settling(
    alloc: Global,
    iso: bool,
    work: &mut Work<'_>,
    answered: usize,
    line: &[u8],
    text: &mut Vec<u8>,
) -> Result<Onward, AllocError>
    requires settles { IsAtSettlement work.old work.old.till answered }
    requires log { HasAmounts work.old.till.log }
    ensures turn { IfOk result (λ onward. IsTurnOf work.new text.new.items onward (settling_turn iso work.old.till answered line.now)) }
{
    text.clear();
    if line == b"want".as_slice() {
        return add_settlement(iso, work, answered, text);
    }
    if line == b"why".as_slice() {
        return put_why(work.till.question(), Onward::Awaits, text);
    }
    let Some(reply) = reply_in(alloc, line)? else {
        return put_other(Onward::Stuck, text);
    };
    let fault = unread(iso, work.till.captured(answered), reply.as_slice());
    put_fault(fault, text)?;
    let count = work.till.count();
    prove!(answered < count);
    add_settlement(iso, work, answered + 1, text)
}
