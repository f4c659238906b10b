//! Fields of object lists in words.
ghost use Rattle.std.specs.Prelude.{◌≡◌, ◌||◌, ◌++◌, [], if◌then◌else◌, codes};
ghost use Rattle.std.specs.List.{filter, flat_map};
ghost use Rattle.object_words.specs.Fields as spec;
ghost use Rattle.value_words.specs.Fields.{fields_of};
ghost use Rattle.object_words.specs.Objects.{object_words};
ghost use Rattle.report_lines.specs.Pieces as piece;
ghost use Rattle.report_lines.specs.Pieces.{Tells};

use crate::object::{Object, tell_object};
use crate::style::Style;
use ber_tlv::{Tag, tag_bytes};
use report_lines::WordLines;
use value_words::{Fields, fits, has_field, next_field, tell_hex};

/// Tells data that are not as long as their list wants.
fn tell_data(out: &mut WordLines, bytes: &[u8], level: u8)
    ensures { Tells out.old out.new (spec.data_words level bytes.now) }
{
    out.line(level);
    out.text(b"data: ");
    tell_hex(out, bytes);
}

/// Tells each field in a line of its own.
fn tell_each(out: &mut WordLines, fields: Fields<'_>, style: &Style)
    ensures { Tells out.old out.new (flat_map (spec.field_words style.now) (fields_of fields.entry.list.now fields.entry.data.now)) }
{
    let mut left = fields;
    while let Some((tag, value, rest)) = next_field(left) {
        tell_object(out, &Object { tag, value }, style);
        left = rest;
    }
}

/// Tells each field in a line of its own, or the data where they are not as long as the list wants.
pub fn tell_fields(out: &mut WordLines, fields: Fields<'_>, style: &Style)
    ensures { Tells out.old out.new (spec.fields_words style.now fields.entry.list.now fields.entry.data.now) }
{
    if fits(fields) {
        tell_each(out, fields, style);
    } else {
        tell_data(out, fields.data, style.level);
    }
}

/// Whether a field is among those that were sent before. Terminal verification results are only where they
/// may be.
fn is_known(known: Fields<'_>, with_results: bool, tag: Tag, value: &[u8]) -> bool
    ensures { result ≡ spec.is_known (fields_of known.entry.list.now known.entry.data.now) with_results (tag.0, value.now) }
{
    (with_results || tag.0 != 0x95) && has_field(known, tag, value)
}

/// Tells an object that was not sent before.
pub(crate) fn tell_if_new(out: &mut WordLines, known: bool, object: &Object<'_>, style: &Style)
    ensures { Tells out.old out.new (if known then [] else object_words style.now object.now.tag.0 object.now.value.now) }
{
    if !known {
        tell_object(out, object, style);
    }
}

/// Tells these words in a new line, before the first tag.
fn tell_before(out: &mut WordLines, told: bool, level: u8, words: &[u8])
    ensures { Tells out.old out.new (if told then [] else piece.line level ++ piece.text words.now) }
{
    if !told {
        out.line(level);
        out.text(words);
    }
}

/// Tells the tag of an object that was sent before, behind these words where it is the first one; whether
/// any was told.
pub(crate) fn tell_if_known(
    out: &mut WordLines,
    told: bool,
    known: bool,
    tag: Tag,
    level: u8,
    words: &[u8],
) -> bool
    ensures words { Tells out.old out.new (spec.known_tag_words told known tag.0 level words.now) }
    ensures told { result ≡ (told || known) }
{
    if !known {
        return told;
    }
    tell_before(out, told, level, words);
    out.text(b" ");
    out.hex(&tag_bytes(tag));
    true
}

/// Tells the tags of the fields that were sent before, in one line.
fn tell_known(
    out: &mut WordLines,
    fields: Fields<'_>,
    known: Fields<'_>,
    with_results: bool,
    level: u8,
)
    ensures { Tells out.old out.new (spec.tags_words level (codes "as in the first:")
        (filter (spec.is_known (fields_of known.entry.list.now known.entry.data.now) with_results) (fields_of fields.entry.list.now fields.entry.data.now))) }
{
    let mut told = false;
    let mut left = fields;
    while let Some((tag, value, rest)) = next_field(left) {
        let known = is_known(known, with_results, tag, value);
        told = tell_if_known(out, told, known, tag, level, b"as in the first:");
        left = rest;
    }
}

/// Tells each field in a line of its own but those that were sent before.
fn tell_new(
    out: &mut WordLines,
    fields: Fields<'_>,
    known: Fields<'_>,
    with_results: bool,
    style: &Style,
)
    ensures { Tells out.old out.new (flat_map
        (spec.new_words style.now (spec.is_known (fields_of known.entry.list.now known.entry.data.now) with_results)) (fields_of fields.entry.list.now fields.entry.data.now)) }
{
    let mut left = fields;
    while let Some((tag, value, rest)) = next_field(left) {
        let known = is_known(known, with_results, tag, value);
        tell_if_new(out, known, &Object { tag, value }, style);
        left = rest;
    }
}

/// Tells each field in a line of its own but those that were sent before, and the tags of these in a last
/// line; or the data where they are not as long as the list wants.
pub fn tell_fields_beside(
    out: &mut WordLines,
    fields: Fields<'_>,
    known: Fields<'_>,
    with_results: bool,
    style: &Style,
)
    ensures { Tells out.old out.new (spec.new_fields_words style.now fields.entry.list.now fields.entry.data.now (fields_of known.entry.list.now known.entry.data.now) with_results) }
{
    if fits(fields) {
        tell_new(out, fields, known, with_results, style);
        tell_known(out, fields, known, with_results, style.level);
    } else {
        tell_data(out, fields.data, style.level);
    }
}
