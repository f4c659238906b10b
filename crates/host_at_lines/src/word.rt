//! What a line asks of an issuer's host.
ghost use Rattle.std.specs.Prelude.{◌≡◌, ◌≤◌, ◌<◌, length, true, IfOk, option_map};
ghost use Rattle.hex.specs.Hex.{decode_of};
ghost use Rattle.iso_message.specs.Text as characters;
ghost use Rattle.host_at_lines.specs.Words as spec;
ghost use Rattle.host_at_lines.specs.Words.{IsShort};

use auth_message::Message;
use ber_tlv::append;
use emv_dict::Digits;
use hex::FromHexError;
use std::alloc::{AllocError, Global};

/// A message has at most so many bytes.
const MOST_MESSAGE: usize = 2048;

/// An account number has at most so many digits (ISO/IEC 7812-1).
const MOST_DIGITS: usize = 19;

/// What a line asks.
#[derive(Drop)]
pub enum Word {
    /// The reply to a message, of which the bytes are here: as it is, or in the style of ISO 8583.
    Message { iso: bool, bytes: Message },
    /// The balance of an account number.
    Balance(Digits),
    /// The balances of all accounts.
    Accounts,
    /// Why the last reply is as it is.
    Because,
    /// Something else.
    Other,
}

/// A message of 1 to 2,048 bytes.
fn message_of(iso: bool, bytes: &[u8]) -> Word
    ensures exact { result ≡ spec.limited_message iso bytes.now }
    ensures short { IsShort result }
{
    if bytes.is_empty() || bytes.len() > MOST_MESSAGE {
        return Word::Other;
    }
    let mut message = Message::new();
    append(&mut message, bytes);
    Word::Message {
        iso,
        bytes: message,
    }
}

/// The message that a text spells in hexadecimal.
fn message_in(alloc: Global, iso: bool, text: &[u8]) -> Result<Word, AllocError>
    ensures exact { IfOk result (λ word. word ≡ spec.message_word iso (decode_of text.now)) }
    ensures short { IfOk result IsShort }
{
    match hex::decode(alloc, text) {
        Ok(bytes) => Ok(message_of(iso, &bytes)),
        Err(FromHexError::OutOfMemory) => Err(AllocError),
        Err(_) => Ok(Word::Other),
    }
}

/// Whether each is the character of a decimal digit.
fn are_numerals(text: &[u8]) -> bool
    ensures { result ≡ characters.are_numerals text.now }
{
    text.iter()
        .all(|character| 48 <= *character && *character <= 57)
}

/// The digits of a text of digits.
#[tactic(auto, using(crate::proofs::Numerals::numeral_at))]
fn digits_of(text: &[u8]) -> Digits
    requires few { length text.now ≤ 19 }
    requires numerals { characters.are_numerals text.now ≡ true }
    ensures { result ≡ spec.numeral_values text.now }
{
    let mut digits = Digits::empty();
    for character in text {
        digits.push(*character - 48);
    }
    digits
}

/// The balance of the account number that a text spells.
fn balance_in(text: &[u8]) -> Word
    ensures exact { result ≡ spec.balance_word text.now }
    ensures short { IsShort result }
{
    if text.len() <= MOST_DIGITS && are_numerals(text) {
        Word::Balance(digits_of(text))
    } else {
        Word::Other
    }
}

/// What a line asks.
#[tactic(auto, unfolding(crate::specs::Words::host_word))]
pub fn word_of(alloc: Global, line: &[u8]) -> Result<Word, AllocError>
    ensures exact { IfOk result (λ word. word ≡ spec.host_word line.now) }
    ensures short { IfOk result IsShort }
{
    if line == b"accounts".as_slice() {
        return Ok(Word::Accounts);
    }
    if line == b"because".as_slice() {
        return Ok(Word::Because);
    }
    if let Some(text) = line.strip_prefix(b"balance ") {
        return Ok(balance_in(text));
    }
    if let Some(text) = line.strip_prefix(b"iso > ") {
        return message_in(alloc, true, text);
    }
    if let Some(text) = line.strip_prefix(b"> ") {
        return message_in(alloc, false, text);
    }
    Ok(Word::Other)
}
