//! Which message is which: by its kind and its transaction.
ghost use Rattle.std.specs.Prelude.{◌≡◌, ◌≤◌, ◌<◌, ◌&&◌, length};
ghost use Rattle.host_ledger.specs.Key.{same_key as are_one_key};
ghost use Rattle.issuer_host.specs.Reply.{key_of as key_by, sequence_of};
ghost use Rattle.host_at_lines.specs.Calls as spec;

use auth_message::{Incoming, read_message};
use emv_dict::Digits;
use host_ledger::Key;
use iso_message::CallKind;

/// What a message is: its kind, and the transaction that it is for.
#[derive(Drop)]
pub struct Call {
    pub kind: CallKind,
    pub key: Key,
}

/// The sequence number of an account number, 0 where there is none.
fn sequence_number(field: Option<[u8; 1]>) -> u8
    ensures { result ≡ sequence_of field }
{
    match field {
        Some(bytes) => bytes[0],
        None => 0,
    }
}

/// What names a transaction.
fn key_of(pan: &Digits, sequence: Option<[u8; 1]>, counter: [u8; 2]) -> Key
    ensures { result ≡ key_by pan.now sequence counter }
{
    let sequence = sequence_number(sequence);
    Key {
        pan: pan.copy(),
        sequence,
        counter: u16::from_be_bytes(counter),
    }
}

/// What a message is that was read.
fn call_in(message: &Incoming<'_>) -> Call
    ensures { result ≡ spec.call_of_message message.now }
{
    match message {
        Incoming::Request(fields) => Call {
            kind: CallKind::Request,
            key: key_of(&fields.pan, fields.t5f34, fields.t9f36),
        },
        Incoming::Present(fields) => Call {
            kind: CallKind::Presentment,
            key: key_of(&fields.pan, fields.t5f34, fields.t9f36),
        },
        Incoming::Reverse(fields) => Call {
            kind: CallKind::Reversal,
            key: key_of(&fields.pan, fields.t5f34, fields.t9f36),
        },
    }
}

/// What a message is, none where it can't be read.
#[tactic(auto, unfolding(crate::specs::Calls::call_named))]
pub fn call_of(message: &[u8]) -> Option<Call>
    ensures { result ≡ spec.call_named message.now }
{
    match read_message(message) {
        Ok(incoming) => Some(call_in(&incoming)),
        Err(_) => None,
    }
}

/// Whether two messages are of one kind.
fn is_same_kind(kind: CallKind, other: CallKind) -> bool
    ensures { result ≡ spec.are_one_kind kind other }
{
    match (kind, other) {
        (CallKind::Request, CallKind::Request) => true,
        (CallKind::Presentment, CallKind::Presentment) => true,
        (CallKind::Reversal, CallKind::Reversal) => true,
        _ => false,
    }
}

/// Whether two transactions are one.
fn is_same_key(key: &Key, other: &Key) -> bool
    ensures { result ≡ are_one_key key.now other.now }
{
    key.pan == other.pan && key.sequence == other.sequence && key.counter == other.counter
}

/// Whether a message is of this kind and for this transaction.
fn is_of(kind: CallKind, key: &Key, call: &Option<Call>) -> bool
    ensures { result ≡ spec.is_of kind key.now call.now }
{
    match call {
        Some(call) => is_same_kind(kind, call.kind) && is_same_key(key, &call.key),
        None => false,
    }
}

/// The number, from 1, of the first message of this kind and transaction.
pub fn number_of(calls: &[Option<Call>], kind: CallKind, key: &Key) -> Option<u64>
    ensures { result ≡ spec.call_number kind key.now calls.now }
{
    for place in 0..calls.len() {
        if is_of(kind, key, &calls[place]) {
            return Some(place as u64 + 1);
        }
    }
    None
}
