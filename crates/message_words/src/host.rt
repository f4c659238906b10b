//! Messages to the issuer and its replies, in both dialects.
ghost use Rattle.std.specs.Prelude.{◌≡◌, option_map};
ghost use Rattle.value_words.specs.Fields.{fields_of};
ghost use Rattle.report_lines.specs.Pieces.{Tells};
ghost use Rattle.message_words.specs.Iso.{seen_message};
ghost use Rattle.message_words.specs.Messages as spec;
ghost use Rattle.message_words.specs.Objects.{sent_before};

use crate::iso::{DEPTH, Message, read_message, reply_code, tell_message};
use crate::objects::{message_style, tell_objects_beside};
use crate::phrases::{BOOKED, NO_OBJECTS, SET_FREE};
use ber_tlv::{Tag, first_fault, first_value, sole_value};
use object_words::{Style, tell_objects};
use report_lines::WordLines;
use value_words::Fields;

/// The message type of a request (ISO 8583:1987).
const REQUEST: u32 = 100;

/// The last message of a lane's settlement.
#[derive(Clone, Copy, PartialEq, Eq, Debug)]
pub enum Settled {
    Nothing,
    Presentment,
    Reversal,
}

/// Tells the objects of a message, where they are whole.
fn tell_whole(out: &mut WordLines, objects: &[u8], known: Option<Fields<'_>>)
    ensures { Tells out.old out.new (spec.whole_objects_words (sent_before known.entry) objects.now) }
{
    if first_fault(objects).is_some() {
        out.text(b": ");
        out.text(NO_OBJECTS);
    } else {
        tell_objects_beside(out, objects, known);
    }
}

/// Tells a message of this name and its objects.
fn tell_named(
    out: &mut WordLines,
    name: &[u8],
    objects: &[u8],
    known: Option<Fields<'_>>,
    brief: bool,
)
    ensures { Tells out.old out.new (spec.named_message_words name.now (sent_before known.entry) objects.now brief) }
{
    out.line(1);
    out.text(name);
    if !brief {
        tell_whole(out, objects, known);
    }
}

/// Tells a presentment or a reversal of data objects.
fn tell_settlement(out: &mut WordLines, message: &[u8], brief: bool)
    ensures { Tells out.old out.new (spec.settlement_words message.now brief) }
{
    if let Some(objects) = sole_value(message, Tag(0xe3)) {
        tell_named(out, b"presentment", objects, None, brief);
    } else if let Some(objects) = sole_value(message, Tag(0xe4)) {
        tell_named(out, b"reversal", objects, None, brief);
    }
}

/// Tells a message of data objects.
fn tell_objects_call(out: &mut WordLines, first: Fields<'_>, message: &[u8], brief: bool)
    ensures { Tells out.old out.new (spec.objects_call (fields_of first.entry.list.now first.entry.data.now) message.now brief) }
{
    match sole_value(message, Tag(0xe1)) {
        Some(objects) => tell_named(out, b"request", objects, Some(first), brief),
        None => tell_settlement(out, message, brief),
    }
}

/// What GENERATE AC had that a message of this type may repeat: a request repeats the first one.
fn repeats(first: Fields<'_>, kind: u32) -> Option<Fields<'_>>
    ensures { sent_before result ≡ spec.repeats (fields_of first.entry.list.now first.entry.data.now) kind }
{
    if kind == REQUEST { Some(first) } else { None }
}

/// Tells a message of the dialect with a type.
fn tell_typed_call(out: &mut WordLines, first: Fields<'_>, message: &Message<'_>, brief: bool)
    ensures { Tells out.old out.new (spec.typed_call (fields_of first.entry.list.now first.entry.data.now) (seen_message message.now) brief) }
{
    let known = repeats(first, message.kind);
    tell_message(out, message, &message_style(2, None), known, brief);
}

/// Tells a message to the issuer. `first` are the list and the data of the first GENERATE AC: objects of a
/// request that it had as well are told by their tags alone.
#[tactic(auto, unfolding(crate::specs::Messages::call_words))]
pub fn tell_call(out: &mut WordLines, first: Fields<'_>, message: &[u8], brief: bool)
    ensures { Tells out.old out.new (spec.call_words (fields_of first.entry.list.now first.entry.data.now) message.now brief) }
{
    match read_message(message) {
        Some(found) => tell_typed_call(out, first, &found, brief),
        None => tell_objects_call(out, first, message, brief),
    }
}

/// Which message of the settlement one of this type is.
fn settled_by_type(kind: u32) -> Settled
    ensures { result ≡ spec.settled_by_type kind }
{
    match kind {
        220 => Settled::Presentment,
        400 => Settled::Reversal,
        _ => Settled::Nothing,
    }
}

/// Which message of the settlement one of data objects is, by its first byte.
fn settled_by_tag(message: &[u8]) -> Settled
    ensures { result ≡ spec.settled_by_tag message.now }
{
    match message {
        [0xe3, ..] => Settled::Presentment,
        [0xe4, ..] => Settled::Reversal,
        _ => Settled::Nothing,
    }
}

/// Which message of the settlement this is.
#[tactic(auto, unfolding(crate::specs::Messages::settled_by))]
pub fn settled_by(message: &[u8]) -> Settled
    ensures { result ≡ spec.settled_by message.now }
{
    match read_message(message) {
        Some(found) => settled_by_type(found.kind),
        None => settled_by_tag(message),
    }
}

/// What the response code 00 means behind a message of the settlement.
fn meaning(settled: Settled) -> Option<&'static [u8]>
    ensures { option_map (λ words. words.now) result ≡ spec.meaning settled }
{
    match settled {
        Settled::Nothing => None,
        Settled::Presentment => Some(BOOKED),
        Settled::Reversal => Some(SET_FREE),
    }
}

/// Tells a reply of data objects, where these are whole.
fn tell_whole_reply(out: &mut WordLines, reply: &[u8], style: &Style)
    ensures { Tells out.old out.new (spec.whole_reply style.now reply.now) }
{
    if first_fault(reply).is_some() {
        out.line(1);
        out.text(NO_OBJECTS);
    } else {
        tell_objects(out, reply, style, DEPTH);
    }
}

/// Tells a reply of data objects.
fn tell_objects_reply(out: &mut WordLines, reply: &[u8], style: &Style, brief: bool)
    ensures { Tells out.old out.new (spec.objects_reply style.now reply.now brief) }
{
    if !brief {
        tell_whole_reply(out, reply, style);
    }
}

/// Tells a reply of the issuer, behind this message of the settlement.
#[tactic(auto, unfolding(crate::specs::Messages::reply_words))]
pub fn tell_reply(out: &mut WordLines, settled: Settled, reply: &[u8], brief: bool)
    ensures { Tells out.old out.new (spec.reply_words settled reply.now brief) }
{
    let answer = meaning(settled);
    match read_message(reply) {
        Some(found) => tell_message(out, &found, &message_style(2, answer), None, brief),
        None => tell_objects_reply(out, reply, &message_style(1, answer), brief),
    }
}

/// The response code among the objects of a reply.
fn code_among(objects: &[u8]) -> Option<[u8; 2]>
    ensures { result ≡ spec.code_among objects.now }
{
    match first_value(objects, Tag(0x8a)) {
        Ok(Some([first, second])) => Some([*first, *second]),
        _ => None,
    }
}

/// The response code of a reply of data objects.
fn code_of_objects(reply: &[u8]) -> Option<[u8; 2]>
    ensures { result ≡ spec.code_of_objects reply.now }
{
    match sole_value(reply, Tag(0xe2)) {
        Some(objects) => code_among(objects),
        None => None,
    }
}

/// The response code of a reply, where it has one.
#[tactic(auto, unfolding(crate::specs::Messages::code_in))]
pub fn code_in(reply: &[u8]) -> Option<[u8; 2]>
    ensures { result ≡ spec.code_in reply.now }
{
    match read_message(reply) {
        Some(found) => reply_code(found.rest),
        None => code_of_objects(reply),
    }
}
