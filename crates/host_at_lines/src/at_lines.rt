//! An issuer's host, and what it answers to each line.
ghost use Rattle.std.specs.Prelude.{◌≡◌, ◌≤◌, ◌++◌, ◌∷◌, [], ℕ, List, true, None, OnOk, OnErr, length, vec_capacity};
ghost use Rattle.auth_message.specs.Whole.{HasCodes, IsAccepted, IsMessage, IsReply, message_bytes};
ghost use Rattle.issuer_host.specs.History.{HostStands, host_reply};
ghost use Rattle.host_at_lines.specs.Talk as spec;
ghost use Rattle.host_at_lines.specs.Talk.{HeardMessages, Last, HostHasAnswered, IsHostTalk, IsHostTurn, Stands, host_opening, messages_of};
ghost use Rattle.host_at_lines.specs.Told.{accounts_text, balance_text, because_text};
ghost use Rattle.issuer_host.specs.Balance.{balance_in};
ghost use Rattle.std.specs.List.{flat_map};
ghost use Rattle.host_at_lines.specs.Words.{IsShort};

use crate::because::{Because, because_for};
use crate::call::{Call, call_of};
use crate::told::{tell_balance, tell_because, tell_count, tell_reply, tell_unread};
use crate::word::{Word, word_of};
use auth_message::{Incoming, Message, write_presentment, write_request, write_reversal};
use emv_dict::Digits;
use host_link::write_reply;
use iso_message::read_iso_call;
use issuer_host::{Account, Host};
use line_talk::{LineText, Onward, Party, put_line};
use std::alloc::{AllocError, Global};

/// A line that is answered has at most so many bytes.
const MOST_LINE: usize = 8192;

/// An issuer's host at lines, with its accounts in the document's order, what each message was that came to it, and why
/// its last reply is as it is.
#[derive(Drop)]
pub struct HostAtLines<'a> {
    pub host: Host<'a>,
    pub accounts: &'a [Account],
    pub calls: Vec<Option<Call>>,
    pub because: Option<Because>,
}

/// A host to which no message came yet.
pub fn begin<'a>(alloc: Global, host: Host<'a>, accounts: &'a [Account]) -> HostAtLines<'a>
    requires begun { HostStands host [] }
    requires accounts { accounts.now ≡ host.accounts }
    ensures begun { HostHasAnswered result.host result.accounts.now result.calls.items result.because [] }
    ensures keys { result.host.keys ≡ host.entry.keys }
    ensures accounts { result.host.accounts ≡ host.entry.accounts }
{
    let calls = Vec::new(alloc);
    HostAtLines {
        host,
        accounts,
        calls,
        because: None,
    }
}

/// Hands a message to the host, whose reply comes in place of what `reply` holds. Where there is no memory, none came to
/// it.
fn ask(at: &mut HostAtLines<'_>, message: &[u8], reply: &mut Message) -> Result<(), AllocError>
    requires short { length message.now ≤ 2048 }
    ensures reply { OnOk result ((heard : HeardMessages) → Stands at.old.host at.old.accounts.now at.old.calls.items at.old.because heard
        → reply.new.items ≡ host_reply at.old.host.keys at.old.host.accounts (messages_of heard) message.now) }
    ensures written { OnOk result ((heard : HeardMessages) → Stands at.old.host at.old.accounts.now at.old.calls.items at.old.because heard → IsReply reply.new.items) }
    ensures stands { OnOk result ((heard : HeardMessages) → Stands at.old.host at.old.accounts.now at.old.calls.items at.old.because heard
        → Stands at.new.host at.new.accounts.now at.new.calls.items at.new.because (Last (messages_of heard) message.now)) }
    ensures kept { OnErr result ((heard : HeardMessages) → Stands at.old.host at.old.accounts.now at.old.calls.items at.old.because heard
        → Stands at.new.host at.new.accounts.now at.new.calls.items at.new.because heard) }
    ensures keys { at.new.host.keys ≡ at.old.host.keys }
    ensures accounts { at.new.host.accounts ≡ at.old.host.accounts }
{
    let call = call_of(message);
    let reason = at.host.reason(message);
    at.calls.reserve(1)?;
    at.host.answer(message, reply)?;
    let why = because_for(at.calls.as_slice(), &call, reason, reply.as_slice());
    at.because = Some(why);
    if at.calls.push(call).is_err() {
        unreachable!();
    }
    Ok(())
}

/// Empties a text, and makes room in it for a line.
fn make_room(text: &mut Vec<u8>) -> Result<(), AllocError>
    ensures room { OnOk result (8192 ≤ vec_capacity text.new) }
{
    text.clear();
    text.reserve(MOST_LINE)
}

/// Puts a line into a text that has room for it.
fn fill(text: &mut Vec<u8>, told: &LineText)
    requires room { 8192 ≤ vec_capacity text.old }
    ensures { text.new.items ≡ told.now.items }
{
    if put_line(text, told.as_slice()).is_err() {
        unreachable!();
    }
}

/// Answers a message by its reply, in its own spelling.
fn answer_message(
    at: &mut HostAtLines<'_>,
    iso: bool,
    message: &[u8],
    text: &mut Vec<u8>,
) -> Result<(), AllocError>
    requires short { length message.now ≤ 2048 }
    requires message { iso ≡ true → IsMessage message.now }
    requires stands { (heard : HeardMessages) × Stands at.old.host at.old.accounts.now at.old.calls.items at.old.because heard }
    ensures turn { OnOk result ((heard : HeardMessages) → Stands at.old.host at.old.accounts.now at.old.calls.items at.old.because heard
        → IsHostTurn at.new.host at.new.accounts.now at.new.calls.items at.new.because text.new.items
        (spec.message_turn at.old.host.keys at.old.host.accounts heard iso message.now)) }
    ensures kept { OnErr result ((heard : HeardMessages) → Stands at.old.host at.old.accounts.now at.old.calls.items at.old.because heard
        → Stands at.new.host at.new.accounts.now at.new.calls.items at.new.because heard) }
    ensures keys { at.new.host.keys ≡ at.old.host.keys }
    ensures accounts { at.new.host.accounts ≡ at.old.host.accounts }
{
    make_room(text)?;
    let mut reply = Message::new();
    ask(at, message, &mut reply)?;
    let mut spelled = Message::new();
    write_reply(iso, message, reply.as_slice(), &mut spelled);
    let mut told = LineText::new();
    tell_reply(spelled.as_slice(), &mut told);
    fill(text, &told);
    Ok(())
}

/// Writes a call as a message, in place of what `out` holds.
fn write_message(call: &Incoming<'_>, out: &mut Message)
    requires accepted { IsAccepted call.now }
    requires codes { HasCodes call.now }
    ensures bytes { out.new.items ≡ message_bytes call.now }
    ensures message { IsMessage out.new.items }
{
    match call {
        Incoming::Request(fields) => write_request(fields, out),
        Incoming::Present(fields) => write_presentment(fields, out),
        Incoming::Reverse(fields) => write_reversal(fields, out),
    }
}

/// Answers bytes in the style of ISO 8583: by the reply to the message that they are, or by their fault.
fn answer_iso(at: &mut HostAtLines<'_>, bytes: &[u8], text: &mut Vec<u8>) -> Result<(), AllocError>
    requires stands { (heard : HeardMessages) × Stands at.old.host at.old.accounts.now at.old.calls.items at.old.because heard }
    ensures turn { OnOk result ((heard : HeardMessages) → Stands at.old.host at.old.accounts.now at.old.calls.items at.old.because heard
        → IsHostTurn at.new.host at.new.accounts.now at.new.calls.items at.new.because text.new.items
        (spec.call_turn at.old.host.keys at.old.host.accounts heard true bytes.now)) }
    ensures kept { OnErr result ((heard : HeardMessages) → Stands at.old.host at.old.accounts.now at.old.calls.items at.old.because heard
        → Stands at.new.host at.new.accounts.now at.new.calls.items at.new.because heard) }
    ensures keys { at.new.host.keys ≡ at.old.host.keys }
    ensures accounts { at.new.host.accounts ≡ at.old.host.accounts }
{
    match read_iso_call(bytes) {
        Ok(call) => {
            let mut message = Message::new();
            write_message(&call, &mut message);
            answer_message(at, true, message.as_slice(), text)
        }
        Err(fault) => {
            let mut told = LineText::new();
            tell_unread(fault, &mut told);
            put_line(text, told.as_slice())
        }
    }
}

/// Answers with the balance of an account number, where an account has it.
fn answer_balance(host: &Host<'_>, pan: &Digits, text: &mut Vec<u8>) -> Result<(), AllocError>
    ensures { OnOk result (text.new.items ≡ balance_text pan.now (balance_in host.now.accounts host.now.books pan.now)) }
{
    let mut told = LineText::new();
    tell_balance(pan, host.balance(pan), &mut told);
    put_line(text, told.as_slice())
}

/// Puts the balance of an account number into a text, behind what that holds.
fn add_balance(host: &Host<'_>, pan: &Digits, text: &mut Vec<u8>) -> Result<(), AllocError>
    ensures { OnOk result (text.new.items ≡ text.old.items ++ balance_text pan.now (balance_in host.now.accounts host.now.books pan.now)) }
{
    let mut told = LineText::new();
    tell_balance(pan, host.balance(pan), &mut told);
    text.extend_from_slice(told.as_slice())
}

/// Answers with the balances of all accounts.
fn answer_accounts(
    host: &Host<'_>,
    accounts: &[Account],
    text: &mut Vec<u8>,
) -> Result<(), AllocError>
    requires { accounts.now ≡ host.now.accounts }
    ensures { OnOk result (text.new.items ≡ accounts_text host.now.accounts host.now.books) }
{
    let mut told = LineText::new();
    tell_count(accounts.len(), &mut told);
    put_line(text, told.as_slice())?;
    for account in accounts {
        add_balance(host, &account.pan, text)?;
    }
    Ok(())
}

/// Answers why the last reply is as it is.
fn answer_because(because: &Option<Because>, text: &mut Vec<u8>) -> Result<(), AllocError>
    ensures { OnOk result (text.new.items ≡ because_text because.now) }
{
    let mut told = LineText::new();
    tell_because(because, &mut told);
    put_line(text, told.as_slice())
}

/// Answers what a line asks. Where there is no memory, the host is as before.
fn answer_word(at: &mut HostAtLines<'_>, word: Word, text: &mut Vec<u8>) -> Result<(), AllocError>
    requires short { IsShort word }
    requires stands { (heard : HeardMessages) × Stands at.old.host at.old.accounts.now at.old.calls.items at.old.because heard }
    ensures turn { OnOk result ((heard : HeardMessages) → Stands at.old.host at.old.accounts.now at.old.calls.items at.old.because heard
        → IsHostTurn at.new.host at.new.accounts.now at.new.calls.items at.new.because text.new.items
        (spec.host_turn_by at.old.host.keys at.old.host.accounts heard word)) }
    ensures kept { OnErr result ((heard : HeardMessages) → Stands at.old.host at.old.accounts.now at.old.calls.items at.old.because heard
        → Stands at.new.host at.new.accounts.now at.new.calls.items at.new.because heard) }
    ensures keys { at.new.host.keys ≡ at.old.host.keys }
    ensures accounts { at.new.host.accounts ≡ at.old.host.accounts }
{
    match word {
        Word::Message { iso, bytes } => {
            if iso {
                answer_iso(at, bytes.as_slice(), text)
            } else {
                answer_message(at, false, bytes.as_slice(), text)
            }
        }
        Word::Balance(pan) => answer_balance(&at.host, &pan, text),
        Word::Accounts => answer_accounts(&at.host, at.accounts, text),
        Word::Because => answer_because(&at.because, text),
        Word::Other => put_line(text, b"?\n"),
    }
}

/// Answers a line. Where there is no memory, the host is as before.
pub fn answer_line(
    alloc: Global,
    at: &mut HostAtLines<'_>,
    line: &[u8],
    text: &mut Vec<u8>,
) -> Result<(), AllocError>
    requires stands { (heard : HeardMessages) × Stands at.old.host at.old.accounts.now at.old.calls.items at.old.because heard }
    ensures turn { OnOk result ((heard : HeardMessages) → Stands at.old.host at.old.accounts.now at.old.calls.items at.old.because heard
        → IsHostTurn at.new.host at.new.accounts.now at.new.calls.items at.new.because text.new.items
        (spec.host_turn at.old.host.keys at.old.host.accounts heard line.now)) }
    ensures kept { OnErr result ((heard : HeardMessages) → Stands at.old.host at.old.accounts.now at.old.calls.items at.old.because heard
        → Stands at.new.host at.new.accounts.now at.new.calls.items at.new.because heard) }
    ensures keys { at.new.host.keys ≡ at.old.host.keys }
    ensures accounts { at.new.host.accounts ≡ at.old.host.accounts }
{
    let word = word_of(alloc, line)?;
    answer_word(at, word, text)?;
    Ok(())
}

impl Party for HostAtLines<'_> {
    ghost opening = { λ at. host_opening };

    ghost stands = { λ at turns. HostHasAnswered at.host at.accounts.now at.calls.items at.because turns };

    ghost talks = { λ at turns. IsHostTalk at.host.keys at.host.accounts turns };

    fn open(&mut self, text: &mut LineText) -> Onward {
        text.clear();
        Onward::Rests
    }

    fn answer(
        &mut self,
        alloc: Global,
        line: &[u8],
        text: &mut Vec<u8>,
    ) -> Result<Onward, AllocError> {
        answer_line(alloc, self, line, text)?;
        Ok(Onward::Rests)
    }

    ghost told = { λ at turns stands. (stands.heard, stands.talked) };
}
