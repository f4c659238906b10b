//! The messages of one kind that the host keeps, by their transactions.
ghost use Rattle.std.specs.Prelude.{◌≡◌, [], ◌∷◌, ◌++◌, List, None, option_map, IfOk, OnOk, OnErr, if◌then◌else◌};
ghost use Rattle.issuer_host.specs.Books.{KeptCall, kept_at};
ghost use Rattle.std.specs.Str.{bytes_eq};
ghost use Rattle.issuer_host.specs.Keeping.{kept_message};
ghost use Rattle.issuer_host.specs.Reply.{said_bytes, code_alone as plain_said};
ghost use Rattle.issuer_host.specs.declared.code.Code.TheVariants.{Declined};

use crate::code::Code;
use crate::reply::{Answered, plain};
use auth_message::Message;
use ber_tlv::append;
use host_ledger::Key;
use indexmap::IndexMap;
use std::alloc::{AllocError, Global};
use std::marker::Model;

/// The bytes of a reply.
#[derive(Drop)]
pub struct ReplyBytes {
    bytes: Vec<u8>,
}

impl Model for ReplyBytes {
    ghost use Rattle.std.specs.Prelude.{List, ℕ, ◌≤◌, length};

    ghost Value = { List ℕ };

    ghost view = { λ r. r.bytes.items };

    ghost invariant = { λ r. length r.bytes.items ≤ 2048 };
}

impl ReplyBytes {
    /// A copy of a reply's bytes.
    fn new(alloc: Global, reply: &Message) -> Result<ReplyBytes, AllocError>
        ensures { IfOk result (λ bytes. bytes ≡ reply.now.items) }
    {
        let bytes = copied(alloc, reply.as_slice())?;
        Ok(ReplyBytes { bytes })
    }

    /// Writes the bytes, in place of what `out` holds.
    fn write(&self, out: &mut Message)
        ensures { out.new.items ≡ self.now }
    {
        out.clear();
        append(out, &self.bytes);
    }
}

/// A message that was kept, with its reply.
#[derive(Drop)]
pub struct KeptMessage {
    /// The amount of its transaction in the least unit of the account's currency, at most 12 digits.
    pub amount: u64,
    pub message: Vec<u8>,
    pub code: Code,
    /// Whether the reply carries issuer authentication data.
    pub online: bool,
    pub reply: ReplyBytes,
}

/// The kept messages of one kind. Contracts see the list of them in the order in which they came.
#[derive(Drop)]
pub struct Keeping {
    table: IndexMap<Key, KeptMessage>,
}

impl Model for Keeping {
    ghost use Rattle.std.specs.Prelude.{List, map};
    ghost use Rattle.issuer_host.specs.Books.{KeptCall};
    ghost use Rattle.issuer_host.specs.Keeping.{seen_kept_call};

    ghost Value = { List KeptCall };

    ghost view = { λ k. map seen_kept_call k.table.entries };
}

impl Keeping {
    /// No messages.
    pub fn new(alloc: Global) -> Keeping
        ensures { result ≡ [] }
    {
        Keeping {
            table: IndexMap::new(alloc),
        }
    }

    /// The kept message of a transaction.
    pub fn get(&self, key: &Key) -> Option<&KeptMessage>
        ensures { option_map (λ kept. kept_message key.now kept.now) result ≡ kept_at key.now self.now }
    {
        self.table.get(key)
    }

    /// Keeps the first message of a transaction.
    pub fn put(&mut self, key: Key, kept: KeptMessage) -> Result<(), AllocError>
        requires { kept_at key self.old ≡ None }
        ensures ok { OnOk result (self.new ≡ self.old ++ kept_message key kept ∷ []) }
        ensures err { OnErr result (self.new ≡ self.old) }
    {
        match self.table.insert(key, kept) {
            Ok(_) => return Ok(()),
            Err(_) => return Err(AllocError),
        }
    }

    /// Forgets the message that was kept last.
    pub fn forget_last(&mut self)
        ensures { (front : List KeptCall) (last : KeptCall) → self.old ≡ front ++ last ∷ [] → self.new ≡ front }
    {
        let _last = self.table.pop();
    }
}

/// A message with what was answered to it, as it is kept.
pub fn kept(
    alloc: Global,
    amount: u64,
    message: &[u8],
    answered: Answered,
    reply: &Message,
) -> Result<KeptMessage, AllocError>
    ensures amount { IfOk result (λ kept. kept.amount ≡ amount) }
    ensures message { IfOk result (λ kept. kept.message.items ≡ message.now) }
    ensures code { IfOk result (λ kept. kept.code ≡ answered.code) }
    ensures online { IfOk result (λ kept. kept.online ≡ answered.online) }
    ensures reply { IfOk result (λ kept. kept.reply ≡ reply.now.items) }
{
    let message = copied(alloc, message)?;
    let reply = ReplyBytes::new(alloc, reply)?;
    Ok(KeptMessage {
        amount,
        message,
        code: answered.code,
        online: answered.online,
        reply,
    })
}

/// Writes the kept reply again where the message has the same bytes, else 05.
pub fn again(kept: &KeptMessage, message: &[u8], out: &mut Message)
    ensures { out.new.items ≡ (if bytes_eq kept.now.message.items message.now then kept.now.reply else said_bytes (plain_said Declined)) }
{
    if kept.message.as_slice() == message {
        kept.reply.write(out);
    } else {
        plain(Code::Declined, out);
    }
}

/// The bytes once more.
fn copied(alloc: Global, bytes: &[u8]) -> Result<Vec<u8>, AllocError>
    ensures { IfOk result (λ copy. copy.items ≡ bytes.now) }
{
    let mut copy = Vec::with_capacity(alloc, bytes.len())?;
    copy.extend_from_slice(bytes)?;
    Ok(copy)
}
