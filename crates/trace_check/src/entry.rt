//! The entries of a trace and their texts, which are the forms of a report's lines.
ghost use Rattle.std.specs.Prelude.{◌≡◌, ◌≤◌, IfOk, option_map};
ghost use Rattle.hex.specs.Hex.{decode_of};
ghost use Rattle.trace_check.specs.Texts as spec;
ghost use Rattle.trace_check.specs.declared.entry.Entry.TheVariants as entries;

use hex::FromHexError;
use report_text::Text;
use report_text::pieces::hex_or_dash;
use std::alloc::{AllocError, Global};
use std::marker::Model;

/// A command has at most so many bytes (ISO/IEC 7816-3 section 12.1.1).
const MOST_COMMAND: usize = 261;

/// An answer has at most so many: 256 and its status.
const MOST_ANSWER: usize = 258;

/// A message to the host, or its reply, has at most so many.
const MOST_MESSAGE: usize = 2048;

/// The bytes of an entry. Contracts see the list of them.
#[derive(Drop, Debug)]
pub struct Bytes {
    held: Vec<u8>,
}

impl Model for Bytes {
    ghost use Rattle.std.specs.Prelude.{List, ℕ};

    ghost Value = { List ℕ };

    ghost view = { λ b. b.held.items };
}

impl Bytes {
    /// These bytes.
    pub fn new(held: Vec<u8>) -> Bytes
        ensures { result ≡ held.items }
    {
        Bytes { held }
    }

    /// The bytes.
    pub fn as_slice(&self) -> &[u8]
        ensures { result.now ≡ self.now }
    {
        self.held.as_slice()
    }
}

/// An entry of a trace.
#[derive(Drop, Debug)]
pub enum Entry {
    /// A command: `> H`.
    ToCard(Bytes),
    /// The card's answer: `< H`.
    CardSaid(Bytes),
    /// The card was gone: `< gone`.
    CardGone,
    /// A message to the issuer's host: `host > H`.
    ToHost(Bytes),
    /// The host's reply: `host < H`.
    HostSaid(Bytes),
    /// The host didn't reply: `host < none`.
    HostSilent,
    /// How the dialogue ended, as the end line of a report tells it behind the number: `end T`.
    End(Bytes),
}

/// What stands behind a mark.
fn marked_rest<'a>(mark: &[u8], text: &'a [u8]) -> Option<&'a [u8]>
    ensures { option_map (λ rest. rest.now) result ≡ spec.marked_rest mark.now text.now }
{
    text.strip_prefix(mark)
}

/// The bytes that a text spells in hexadecimal, none where it spells none.
fn decoded(alloc: Global, text: &[u8]) -> Result<Vec<u8>, AllocError>
    ensures { IfOk result (λ bytes. bytes.items ≡ spec.decoded_or_none (decode_of text.now)) }
{
    match hex::decode(alloc, text) {
        Ok(bytes) => Ok(bytes),
        Err(FromHexError::OutOfMemory) => Err(AllocError),
        Err(_) => Ok(Vec::new(alloc)),
    }
}

/// The bytes, at most so many, that a report's line shows by this text.
#[tactic(auto, unfolding(crate::specs::Texts::bytes_shown))]
pub fn bytes_shown(alloc: Global, most: usize, text: &[u8]) -> Result<Option<Bytes>, AllocError>
    requires { most ≤ 2048 }
    ensures { IfOk result (λ found. found ≡ spec.bytes_shown most text.now) }
{
    let bytes = decoded(alloc, text)?;
    if bytes.len() > most {
        return Ok(None);
    }
    let mut shown = Text::new();
    hex_or_dash(&mut shown, bytes.as_slice());
    if shown.as_slice() == text {
        Ok(Some(Bytes::new(bytes)))
    } else {
        Ok(None)
    }
}

/// The forms of an entry with bytes.
#[derive(Clone, Copy)]
enum Form {
    ToCard,
    CardSaid,
    ToHost,
    HostSaid,
}

/// How many bytes an entry of this form has at most.
fn most_in(form: Form) -> usize
    ensures exact { result ≡ spec.most_in form }
    ensures few { result ≤ 2048 }
{
    match form {
        Form::ToCard => MOST_COMMAND,
        Form::CardSaid => MOST_ANSWER,
        Form::ToHost | Form::HostSaid => MOST_MESSAGE,
    }
}

/// The entry of this form with these bytes.
fn entry_with(form: Form, bytes: Bytes) -> Entry
    ensures { result ≡ spec.entry_of_form form bytes }
{
    match form {
        Form::ToCard => Entry::ToCard(bytes),
        Form::CardSaid => Entry::CardSaid(bytes),
        Form::ToHost => Entry::ToHost(bytes),
        Form::HostSaid => Entry::HostSaid(bytes),
    }
}

/// The entry of this form whose bytes are shown so.
fn shown_in(alloc: Global, form: Form, shown: &[u8]) -> Result<Option<Entry>, AllocError>
    ensures { IfOk result (λ found. found ≡ spec.shown_in form shown.now) }
{
    match bytes_shown(alloc, most_in(form), shown)? {
        Some(bytes) => Ok(Some(entry_with(form, bytes))),
        None => Ok(None),
    }
}

/// The entry with bytes that a text is.
#[tactic(auto, unfolding(crate::specs::Texts::with_bytes))]
fn with_bytes(alloc: Global, text: &[u8]) -> Result<Option<Entry>, AllocError>
    ensures { IfOk result (λ found. found ≡ spec.with_bytes text.now) }
{
    if let Some(shown) = marked_rest(b"> ", text) {
        return shown_in(alloc, Form::ToCard, shown);
    }
    if let Some(shown) = marked_rest(b"< ", text) {
        return shown_in(alloc, Form::CardSaid, shown);
    }
    if let Some(shown) = marked_rest(b"host > ", text) {
        return shown_in(alloc, Form::ToHost, shown);
    }
    if let Some(shown) = marked_rest(b"host < ", text) {
        return shown_in(alloc, Form::HostSaid, shown);
    }
    Ok(None)
}

/// An end with this text.
fn end_with(alloc: Global, text: &[u8]) -> Result<Entry, AllocError>
    ensures { IfOk result (λ entry. entry ≡ entries.End text.now) }
{
    let mut held = Vec::new(alloc);
    held.extend_from_slice(text)?;
    Ok(Entry::End(Bytes::new(held)))
}

/// The entry that a text is, where it is one.
#[tactic(auto, unfolding(crate::specs::Texts::entry_of_text))]
pub fn entry_of(alloc: Global, text: &[u8]) -> Result<Option<Entry>, AllocError>
    ensures { IfOk result (λ found. found ≡ spec.entry_of_text text.now) }
{
    if text == b"< gone".as_slice() {
        return Ok(Some(Entry::CardGone));
    }
    if text == b"host < none".as_slice() {
        return Ok(Some(Entry::HostSilent));
    }
    if let Some(rest) = marked_rest(b"end ", text) {
        return Ok(Some(end_with(alloc, rest)?));
    }
    with_bytes(alloc, text)
}
