//! The objects of a message, and those of them that the first GENERATE AC had as well.
ghost use Rattle.std.specs.Prelude.{◌≡◌};
ghost use Rattle.std.specs.List.{flat_map, list_any};
ghost use Rattle.ber_tlv.specs.Seen.{seen};
ghost use Rattle.object_words.specs.Leading.{leading_items};
ghost use Rattle.report_lines.specs.Pieces.{Tells};
ghost use Rattle.message_words.specs.Objects as spec;
ghost use Rattle.message_words.specs.Objects.{sent_before};

use crate::phrases::AS_BEFORE;
use ber_tlv::{Cursor, Item, tag_bytes};
use object_words::{Object, ResultsStyle, Style, next_item, tell_object};
use report_lines::WordLines;
use value_words::{Fields, has_field};

/// The objects of a message at this level, with the bits of results in one line.
pub(crate) fn message_style(level: u8, answer: Option<&'static [u8]>) -> Style
    ensures { result ≡ spec.styled level answer.entry }
{
    Style {
        level,
        results: ResultsStyle::OneLine,
        answer,
    }
}

/// Whether an object was sent before.
fn is_repeated(known: Option<Fields<'_>>, item: &Item<'_>) -> bool
    ensures { result ≡ spec.is_repeated (sent_before known.entry) (seen item.now) }
{
    match known {
        Some(fields) => has_field(fields, item.tag, item.value),
        None => false,
    }
}

/// Tells an object in a line of its own.
fn tell_item(out: &mut WordLines, item: &Item<'_>)
    ensures { Tells out.old out.new (spec.own_line (seen item.now)) }
{
    let object = Object {
        tag: item.tag,
        value: item.value,
    };
    tell_object(out, &object, &message_style(2, None));
}

/// Tells an object that was not sent before.
fn tell_if_new(out: &mut WordLines, known: Option<Fields<'_>>, item: &Item<'_>)
    ensures { Tells out.old out.new (spec.if_new (sent_before known.entry) (seen item.now)) }
{
    if !is_repeated(known, item) {
        tell_item(out, item);
    }
}

/// Tells the objects that were not sent before, each in a line of its own.
fn tell_new(out: &mut WordLines, objects: &[u8], known: Option<Fields<'_>>)
    ensures { Tells out.old out.new (flat_map (spec.if_new (sent_before known.entry)) (leading_items objects.now)) }
{
    let mut cursor = Cursor::new(objects);
    while let Some(item) = next_item(&mut cursor) {
        tell_if_new(out, known, &item);
    }
}

/// Whether some of the objects were sent before.
fn are_repeated(objects: &[u8], known: Option<Fields<'_>>) -> bool
    ensures { result ≡ list_any (spec.is_repeated (sent_before known.entry)) (leading_items objects.now) }
{
    let mut cursor = Cursor::new(objects);
    while let Some(item) = next_item(&mut cursor) {
        if is_repeated(known, &item) {
            return true;
        }
    }
    false
}

/// Tells the tag of an object that was sent before.
fn tell_if_repeated(out: &mut WordLines, known: Option<Fields<'_>>, item: &Item<'_>)
    ensures { Tells out.old out.new (spec.if_repeated (sent_before known.entry) (seen item.now)) }
{
    if is_repeated(known, item) {
        out.text(b" ");
        out.hex(&tag_bytes(item.tag));
    }
}

/// Tells the tags of the objects that were sent before.
fn tell_tags(out: &mut WordLines, objects: &[u8], known: Option<Fields<'_>>)
    ensures { Tells out.old out.new (flat_map (spec.if_repeated (sent_before known.entry)) (leading_items objects.now)) }
{
    let mut cursor = Cursor::new(objects);
    while let Some(item) = next_item(&mut cursor) {
        tell_if_repeated(out, known, &item);
    }
}

/// Tells the tags of the objects that were sent before in one line, where there are some.
fn tell_repeated(out: &mut WordLines, objects: &[u8], known: Option<Fields<'_>>)
    ensures { Tells out.old out.new (spec.repeated_words (sent_before known.entry) (leading_items objects.now)) }
{
    if are_repeated(objects, known) {
        out.line(2);
        out.text(AS_BEFORE);
        tell_tags(out, objects, known);
    }
}

/// Tells the objects of a message in lines of their own, but those that were sent before, whose tags stand
/// in a last line.
pub(crate) fn tell_objects_beside(out: &mut WordLines, objects: &[u8], known: Option<Fields<'_>>)
    ensures { Tells out.old out.new (spec.new_objects_words (sent_before known.entry) objects.now) }
{
    tell_new(out, objects, known);
    tell_repeated(out, objects, known);
}
