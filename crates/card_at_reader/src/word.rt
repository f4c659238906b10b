//! What a line says to a card in a reader.
ghost use Rattle.std.specs.Prelude.{◌≡◌, ◌≤◌, IfOk, IfSome, IsTrue};
ghost use Rattle.hex.specs.Hex.{decode_of};
ghost use Rattle.emv_ports.specs.Cut.{is_place};
ghost use Rattle.card_at_reader.specs.Desk.{CanBePlanned};
ghost use Rattle.card_at_reader.specs.Words as spec;

use arrayvec::ArrayVec;
use ber_tlv::append;
use emv_ports::{Tear, TearAt};
use hex::FromHexError;
use line_talk::number_of;
use report_lines::split_word;
use std::alloc::{AllocError, Global};

/// A command has at most so many bytes (ISO/IEC 7816-3 section 12.1.1).
const MOST_COMMAND: usize = 261;

/// What a line has the card do.
#[derive(Drop)]
pub enum Order {
    /// It is turned on, and where it was on, off before.
    Power,
    /// It is turned off.
    Off,
    /// A command is given to it.
    Command(ArrayVec<u8, MOST_COMMAND>),
    /// The power is cut so, once, from its next power-up on.
    Pull(Tear),
}

/// What a line asks about the card, which it leaves as it is.
#[derive(Clone, Copy, PartialEq, Eq, Debug)]
pub enum Question {
    /// Its counters, limits and logs.
    State,
    /// The plan that fired last.
    Torn,
    /// What it has decided since its power-up.
    Decided,
    /// Why the last cryptogram since its power-up is of its kind.
    Why,
}

/// What a line says.
#[derive(Drop)]
pub enum Word {
    /// The card is to do something.
    Does(Order),
    /// Something is asked.
    Asks(Question),
    /// Something else.
    Other,
}

/// The number of a write, from 1.
fn write_in(digits: &[u8]) -> Option<u8>
    ensures exact { result ≡ spec.write_in digits.now }
    ensures one { IfSome result (λ n. 1 ≤ n) }
{
    match number_of(255, digits) {
        Some(number) => {
            if number == 0 {
                None
            } else {
                Some(number as u8)
            }
        }
        None => None,
    }
}

/// The place in a commit.
fn place_in(text: &[u8]) -> Option<TearAt>
    ensures exact { result ≡ spec.tear_place_in text.now }
    ensures place { IfSome result (λ at. IsTrue (is_place at)) }
{
    if text == b"release".as_slice() {
        return Some(TearAt::Release);
    }
    if let Some(digits) = text.strip_prefix(b"before ") {
        return Some(TearAt::Before(write_in(digits)?));
    }
    if let Some(digits) = text.strip_prefix(b"within ") {
        return Some(TearAt::Within(write_in(digits)?));
    }
    None
}

/// The tear that `C before N`, `C within N` or `C release` plans, C from 0 and N from 1 to 255.
#[tactic(auto, unfolding(crate::specs::Words::tear_in_line))]
fn tear_in(text: &[u8]) -> Option<Tear>
    ensures exact { result ≡ spec.tear_in_line text.now }
    ensures place { IfSome result (λ tear. IsTrue (is_place tear.at)) }
{
    let (commit, place) = split_word(text);
    let commit = number_of(255, commit)?;
    let at = place_in(place)?;
    Some(Tear {
        commit: commit as u8,
        at,
    })
}

/// A command of 1 to 261 bytes.
fn command_of(bytes: &[u8]) -> Word
    ensures exact { result ≡ spec.command_word bytes.now }
    ensures asked { CanBePlanned result }
{
    if bytes.is_empty() || bytes.len() > MOST_COMMAND {
        return Word::Other;
    }
    let mut command = ArrayVec::new();
    append(&mut command, bytes);
    Word::Does(Order::Command(command))
}

/// The command that a text spells in hexadecimal.
fn command_in(alloc: Global, text: &[u8]) -> Result<Word, AllocError>
    ensures exact { IfOk result (λ word. word ≡ spec.command_in (decode_of text.now)) }
    ensures asked { IfOk result CanBePlanned }
{
    match hex::decode(alloc, text) {
        Ok(bytes) => Ok(command_of(&bytes)),
        Err(FromHexError::OutOfMemory) => Err(AllocError),
        Err(_) => Ok(Word::Other),
    }
}

/// What a `pull` asks.
fn pull_in(text: &[u8]) -> Word
    ensures exact { result ≡ spec.pull_of (spec.tear_in_line text.now) }
    ensures asked { CanBePlanned result }
{
    match tear_in(text) {
        Some(tear) => Word::Does(Order::Pull(tear)),
        None => Word::Other,
    }
}

/// What a line asks that is a word by itself.
fn plain_word(line: &[u8]) -> Option<Word>
    ensures exact { result ≡ spec.plain_word line.now }
    ensures asked { IfSome result CanBePlanned }
{
    if line == b"power".as_slice() {
        return Some(Word::Does(Order::Power));
    }
    if line == b"off".as_slice() {
        return Some(Word::Does(Order::Off));
    }
    if line == b"state".as_slice() {
        return Some(Word::Asks(Question::State));
    }
    if line == b"torn".as_slice() {
        return Some(Word::Asks(Question::Torn));
    }
    if line == b"decided".as_slice() {
        return Some(Word::Asks(Question::Decided));
    }
    if line == b"why".as_slice() {
        return Some(Word::Asks(Question::Why));
    }
    None
}

/// What a line says.
#[tactic(auto, unfolding(crate::specs::Words::line_word))]
pub fn word_of(alloc: Global, line: &[u8]) -> Result<Word, AllocError>
    ensures exact { IfOk result (λ word. word ≡ spec.line_word line.now) }
    ensures asked { IfOk result CanBePlanned }
{
    if let Some(word) = plain_word(line) {
        return Ok(word);
    }
    if let Some(text) = line.strip_prefix(b"pull ") {
        return Ok(pull_in(text));
    }
    command_in(alloc, line)
}
