//! Messages in the style of ISO 8583:1987: a type of four digits, a bitmap of eight bytes, and the fields
//! that it names, in rising order.
ghost use Rattle.std.specs.Prelude.{◌≡◌, ◌<◌, option_map};
ghost use Rattle.report_lines.specs.Pieces.{Tells};
ghost use Rattle.message_words.specs.Fields.{cut_field};
ghost use Rattle.message_words.specs.Iso as spec;
ghost use Rattle.message_words.specs.Objects.{sent_before};
ghost use Rattle.object_words.specs.Results.{behind_blank};

use crate::fields::{begins_with_code, cut_field, four_digits, is_named};
use crate::objects::tell_objects_beside;
use object_words::{Style, tell_objects, tell_value};
use report_lines::{WordLines, word_of};
use value_words::{FIELDS, Fields, Form, MESSAGE_TYPES, tell_hex};

/// How deep objects within objects are told.
pub(crate) const DEPTH: u8 = 8;

/// A message that begins with a type that is known.
#[derive(Clone, Copy)]
pub(crate) struct Message<'a> {
    /// The four digits of its type.
    pub digits: &'a [u8],
    /// Its type, as the number of these digits.
    pub kind: u32,
    /// What stands behind the type.
    pub rest: &'a [u8],
}

/// The word of a message's type.
fn type_word(kind: u32) -> Option<&'static [u8]>
    ensures { option_map (λ word. word.now) result ≡ spec.type_word kind }
{
    word_of(&MESSAGE_TYPES, kind)
}

/// The word of a field.
fn field_word(number: u32) -> Option<&'static [u8]>
    ensures { option_map (λ word. word.now) result ≡ spec.field_word number }
{
    word_of(&FIELDS, number)
}

/// The type of a message, where it is known.
fn known_type(digits: &[u8]) -> Option<u32>
    ensures { result ≡ spec.known_type digits.now }
{
    let kind = four_digits(digits)?;
    if type_word(kind).is_some() {
        Some(kind)
    } else {
        None
    }
}

/// The type of a message, and what stands behind it; `None` where it has none that is known.
#[tactic(auto, unfolding(crate::specs::Iso::iso_message_of))]
pub(crate) fn read_message(message: &[u8]) -> Option<Message<'_>>
    ensures { option_map spec.seen_message result ≡ spec.iso_message_of message.now }
{
    match message.split_at_checked(4) {
        Some((digits, rest)) => {
            let kind = known_type(digits)?;
            Some(Message { digits, kind, rest })
        }
        None => None,
    }
}

/// Tells the objects of field 55.
fn tell_items(out: &mut WordLines, content: &[u8], style: &Style, known: Option<Fields<'_>>)
    ensures { Tells out.old out.new (spec.items_words style.now (sent_before known.entry) content.now) }
{
    if known.is_some() {
        tell_objects_beside(out, content, known);
    } else {
        tell_objects(out, content, style, DEPTH);
    }
}

/// Tells the content of a field of characters, of the response code, or of the enciphered PIN.
fn tell_characters(out: &mut WordLines, number: u32, content: &[u8], style: &Style)
    ensures { Tells out.old out.new (spec.characters_words style.now number content.now) }
{
    match number {
        52 => tell_hex(out, content),
        39 => tell_value(out, Form::Response, content, style),
        _ => out.text(content),
    }
}

/// Tells a word behind a blank, where there is one.
fn tell_behind(out: &mut WordLines, word: Option<&'static [u8]>)
    ensures { Tells out.old out.new (behind_blank (option_map (λ word. word.now) word.entry)) }
{
    if let Some(word) = word {
        out.text(b" ");
        out.text(word);
    }
}

/// Tells a field in a line of its own.
fn tell_field(out: &mut WordLines, number: u32, content: &[u8], style: &Style)
    ensures { Tells out.old out.new (spec.iso_field_words style.now number content.now) }
{
    out.line(style.level);
    out.text(b"field ");
    out.number(u64::from(number));
    tell_behind(out, field_word(number));
    out.text(b": ");
    tell_characters(out, number, content, style);
}

/// Tells a field: the one of objects by these, another one in a line of its own.
fn tell_content(
    out: &mut WordLines,
    number: u32,
    content: &[u8],
    style: &Style,
    known: Option<Fields<'_>>,
)
    ensures { Tells out.old out.new (spec.content_words style.now (sent_before known.entry) (number, content.now)) }
{
    if number == 55 {
        tell_items(out, content, style, known);
    } else {
        tell_field(out, number, content, style);
    }
}

/// Tells the first field of these bytes, and gives what stands behind it; `None` where it can't be taken
/// apart.
fn tell_first<'a>(
    out: &mut WordLines,
    number: u32,
    bytes: &'a [u8],
    style: &Style,
    known: Option<Fields<'_>>,
) -> Option<&'a [u8]>
    ensures words { Tells out.old out.new (spec.first_words style.now (sent_before known.entry) number (cut_field number bytes.now)) }
    ensures rest { option_map (λ rest. rest.now) result ≡ option_map (λ parts. parts.1) (cut_field number bytes.now) }
{
    match cut_field(number, bytes) {
        Some((content, behind)) => {
            tell_content(out, number, content, style, known);
            Some(behind)
        }
        None => None,
    }
}

/// Tells the field of this number where the bitmap names it, and gives what stands behind it; `None` where
/// it can't be taken apart.
fn tell_if_named<'a>(
    out: &mut WordLines,
    named: bool,
    number: u32,
    bytes: &'a [u8],
    style: &Style,
    known: Option<Fields<'_>>,
) -> Option<&'a [u8]>
    ensures words { Tells out.old out.new (spec.words_if_named style.now (sent_before known.entry) named number bytes.now) }
    ensures rest { option_map (λ rest. rest.now) result ≡ spec.rest_if_named named number bytes.now }
{
    if named {
        tell_first(out, number, bytes, style, known)
    } else {
        Some(bytes)
    }
}

/// Tells the fields that the bitmap names, up to the first one that can't be taken apart.
fn tell_message_fields(
    out: &mut WordLines,
    bitmap: &[u8],
    fields: &[u8],
    style: &Style,
    known: Option<Fields<'_>>,
)
    ensures { Tells out.old out.new (spec.iso_fields_words style.now (sent_before known.entry) bitmap.now fields.now) }
{
    let mut rest = fields;
    for number in 1..65u32 {
        let named = is_named(bitmap, number);
        match tell_if_named(out, named, number, rest, style, known) {
            Some(behind) => rest = behind,
            None => return,
        }
    }
}

/// Tells the bitmap's fields behind the type.
fn tell_rest(out: &mut WordLines, rest: &[u8], style: &Style, known: Option<Fields<'_>>)
    ensures { Tells out.old out.new (spec.rest_words style.now (sent_before known.entry) rest.now) }
{
    if let Some((bitmap, fields)) = rest.split_at_checked(8) {
        tell_message_fields(out, bitmap, fields, style, known);
    }
}

/// Tells a message: its type, and its fields. `known` is what GENERATE AC had, where the message may
/// repeat it.
pub(crate) fn tell_message(
    out: &mut WordLines,
    message: &Message<'_>,
    style: &Style,
    known: Option<Fields<'_>>,
    brief: bool,
)
    ensures { Tells out.old out.new (spec.message_words style.now (sent_before known.entry) (spec.seen_message message.now) brief) }
{
    out.line(1);
    out.text(message.digits);
    tell_behind(out, type_word(message.kind));
    if !brief {
        tell_rest(out, message.rest, style, known);
    }
}

/// The first two bytes.
fn two_of(bytes: &[u8]) -> Option<[u8; 2]>
    ensures { result ≡ spec.two_of bytes.now }
{
    match bytes {
        [first, second, ..] => Some([*first, *second]),
        _ => None,
    }
}

/// The response code of a reply: its field 39, which no other field stands before.
pub(crate) fn reply_code(rest: &[u8]) -> Option<[u8; 2]>
    ensures { result ≡ spec.reply_code rest.now }
{
    match rest.split_at_checked(8) {
        Some((bitmap, fields)) => {
            if begins_with_code(bitmap) {
                two_of(fields)
            } else {
                None
            }
        }
        None => None,
    }
}
