//! Objects, and objects within objects (EMV 4.3 Book 3 Annex B).
ghost use Rattle.std.specs.Prelude.{◌≡◌, ◌<◌, ◌≤◌, ◌==◌, ◌++◌, [], length, if◌then◌else◌, codes, is_some, IfSome, option_map};
ghost use Rattle.ber_tlv.specs.Seen.{seen};
ghost use Rattle.object_words.specs.Leading.{leading_behind, then_leading};
ghost use Rattle.object_words.specs.Objects as spec;
ghost use Rattle.value_words.specs.Plain.{or_nothing};
ghost use Rattle.object_words.specs.Bits.{bit_numbers};
ghost use Rattle.report_lines.specs.Pieces as piece;
ghost use Rattle.report_lines.specs.Pieces.{Tells};

use crate::bits::{tell_bit_numbers, tell_bits, tell_coded, tell_flags};
use crate::command::tell_command;
use crate::issuer::{tell_authentication, tell_information, tell_issuer_data, tell_response};
use crate::results::tell_result_lines;
use crate::style::{ResultsStyle, Style};
use crate::track::tell_track;
use ber_tlv::{Cursor, Item, Tag, first_fault, is_constructed, tag_bytes};
use report_lines::{STATUS_REFERENCES, WordLines};
use value_words::{
    ADDITIONAL_BITS, CAPABILITY_BITS, Form, INTERCHANGE_BITS, STATUS_BITS, TERMINAL_TYPES, TRADES,
    USAGE_BITS, name_of, number_in, tell_amount, tell_code, tell_date, tell_digits, tell_hex,
    tell_list, tell_locator, tell_log_entry, tell_method_result, tell_methods, tell_number,
    tell_priority, tell_text, tell_time,
};

/// A data object: its tag and its value.
#[derive(Clone, Copy)]
pub struct Object<'a> {
    pub tag: Tag,
    pub value: &'a [u8],
}

/// Tells terminal verification results.
fn tell_verification(out: &mut WordLines, value: &[u8], style: &Style) -> bool
    ensures words { Tells out.old out.new (or_nothing (spec.verification_words style.now value.now)) }
    ensures told { result ≡ is_some (spec.verification_words style.now value.now) }
{
    if value.len() != 5 {
        return false;
    }
    out.hex(value);
    tell_bits_below(out, &style.results, style.level.saturating_add(1), value);
    true
}

/// Tells the bits of terminal verification results, below their line or in it.
fn tell_bits_below(out: &mut WordLines, style: &ResultsStyle, level: u8, value: &[u8])
    ensures { Tells out.old out.new (spec.bits_below style.now level value.now) }
{
    let results = number_in(value);
    match style {
        ResultsStyle::Lines => tell_result_lines(out, results, level, None),
        ResultsStyle::Codes(codes) => tell_result_lines(out, results, level, Some(codes)),
        ResultsStyle::OneLine => tell_bits_beside(out, results, value),
    }
}

/// Tells the bits that are set in the same line, where some are.
fn tell_bits_beside(out: &mut WordLines, results: u64, value: &[u8])
    ensures { Tells out.old out.new (if results == 0 then [] else piece.text (codes ", bits") ++ bit_numbers value.now) }
{
    if results != 0 {
        out.text(b", bits");
        tell_bit_numbers(out, value);
    }
}

/// Tells a value that is told by a table; whether it was told.
fn tell_by_table(out: &mut WordLines, form: Form, value: &[u8], style: &Style) -> bool
    ensures words { Tells out.old out.new (or_nothing (spec.table_words form style.now value.now)) }
    ensures told { result ≡ is_some (spec.table_words form style.now value.now) }
{
    match form {
        Form::Interchange => tell_flags(out, &INTERCHANGE_BITS, &[], 2, value),
        Form::Usage => tell_flags(out, &USAGE_BITS, &[], 2, value),
        Form::Capabilities => tell_flags(out, &CAPABILITY_BITS, &[], 3, value),
        Form::Additional => tell_flags(out, &ADDITIONAL_BITS, &[], 5, value),
        Form::Status => tell_flags(out, &STATUS_BITS, &STATUS_REFERENCES, 2, value),
        Form::Results => tell_verification(out, value, style),
        Form::TerminalType => tell_coded(out, &TERMINAL_TYPES, value),
        Form::Trade => tell_coded(out, &TRADES, value),
        Form::Information => tell_information(out, value),
        Form::IssuerData => tell_issuer_data(out, value),
        Form::Authentication => tell_authentication(out, value),
        Form::Response => tell_response(out, value, style),
        _ => false,
    }
}

/// Tells a value that is a list; whether it was told.
fn tell_by_parts(out: &mut WordLines, form: Form, value: &[u8], style: &Style) -> bool
    ensures words { Tells out.old out.new (or_nothing (spec.parts_words form style.now value.now)) }
    ensures told { result ≡ is_some (spec.parts_words form style.now value.now) }
{
    match form {
        Form::ObjectList => tell_list(out, value),
        Form::Locator => tell_locator(out, value),
        Form::Methods => tell_methods(out, value, style.level.saturating_add(1)),
        Form::MethodResult => tell_method_result(out, value),
        Form::Command => tell_command(out, value),
        Form::LogEntry => tell_log_entry(out, value),
        Form::Priority => tell_priority(out, value),
        Form::Track => tell_track(out, value),
        _ => tell_by_table(out, form, value, style),
    }
}

/// Tells a value by its form; whether it was told.
fn tell_by_form(out: &mut WordLines, form: Form, value: &[u8], style: &Style) -> bool
    ensures words { Tells out.old out.new (or_nothing (spec.form_words form style.now value.now)) }
    ensures told { result ≡ is_some (spec.form_words form style.now value.now) }
{
    match form {
        Form::Bytes | Form::Template => false,
        Form::Text => tell_text(out, value),
        Form::Digits => tell_digits(out, value),
        Form::Number => tell_number(out, value),
        Form::Amount => tell_amount(out, value),
        Form::Code => tell_code(out, value),
        Form::Date => tell_date(out, value),
        Form::Time => tell_time(out, value),
        Form::Bits => {
            tell_bits(out, value);
            true
        }
        other => tell_by_parts(out, other, value, style),
    }
}

/// Tells a value by its form, or in hexadecimal where it is of another one.
#[tactic(auto, unfolding(crate::specs::Objects::value_words))]
pub fn tell_value(out: &mut WordLines, form: Form, value: &[u8], style: &Style)
    ensures { Tells out.old out.new (spec.value_words form style.now value.now) }
{
    if !tell_by_form(out, form, value, style) {
        tell_hex(out, value);
    }
}

/// The name of a tag, and how its value is told.
fn named(tag: Tag) -> Option<(&'static [u8], Form)>
    ensures { option_map (λ named. (named.0.now, named.1)) result ≡ spec.name_of tag.0 }
{
    name_of(tag)
}

/// Tells the name of an object behind its tag, and its value by its form, else in hexadecimal.
fn tell_named(
    out: &mut WordLines,
    named: Option<(&'static [u8], Form)>,
    value: &[u8],
    style: &Style,
)
    ensures { Tells out.old out.new (spec.named_value (option_map (λ named. (named.0.now, named.1)) named.entry) style.now value.now) }
{
    match named {
        Some((name, form)) => {
            out.text(b" ");
            out.text(name);
            out.text(b": ");
            tell_value(out, form, value, style);
        }
        None => {
            out.text(b": ");
            tell_hex(out, value);
        }
    }
}

/// Tells an object in a line of its own: its tag, its name, and its value by its form, else in
/// hexadecimal.
#[tactic(auto, unfolding(crate::specs::Objects::object_words))]
pub fn tell_object(out: &mut WordLines, object: &Object<'_>, style: &Style)
    ensures { Tells out.old out.new (spec.object_words style.now object.now.tag.0 object.now.value.now) }
{
    out.line(style.level);
    out.hex(&tag_bytes(object.tag));
    tell_named(out, named(object.tag), object.value, style);
}

/// Whether a constructed object that has a name has a line of its own too.
fn has_line(tag: Tag) -> bool
    ensures { result ≡ spec.has_line tag.0 }
{
    tag.0 == 0x61 || tag.0 == 0x71 || tag.0 == 0x72 || tag.0 == 0x73
}

/// Tells the line of a constructed object without a name.
fn tell_unnamed(out: &mut WordLines, tag: Tag, level: u8)
    ensures { Tells out.old out.new (spec.unnamed_line level tag.0) }
{
    out.line(level);
    out.hex(&tag_bytes(tag));
    out.text(b" template");
}

/// Tells the line of a constructed object, where it has one; the level of what it holds.
fn tell_template(
    out: &mut WordLines,
    named: Option<(&'static [u8], Form)>,
    tag: Tag,
    level: u8,
) -> u8
    ensures line { Tells out.old out.new (spec.template_line (option_map (λ named. (named.0.now, named.1)) named.entry) level tag.0) }
    ensures level { result ≡ spec.level_within (option_map (λ named. (named.0.now, named.1)) named.entry) level tag.0 }
{
    match named {
        Some((name, _)) => {
            if !has_line(tag) {
                return level;
            }
            out.line(level);
            out.hex(&tag_bytes(tag));
            out.text(b" ");
            out.text(name);
            level.saturating_add(1)
        }
        None => {
            tell_unnamed(out, tag, level);
            level.saturating_add(1)
        }
    }
}

/// Whether what an object holds is told: where it is constructed and holds whole objects, and these stand
/// no deeper than eight blanks.
fn is_opened(level: u8, item: &Item<'_>) -> bool
    ensures { result ≡ spec.is_opened level (seen item.now) }
{
    is_constructed(item.tag)
        && level < 4
        && !item.value.is_empty()
        && first_fault(item.value).is_none()
}

/// The next object before the first fault; `None` at the end, or at the fault.
pub fn next_item<'a>(cursor: &mut Cursor<'a>) -> Option<Item<'a>>
    ensures items { then_leading result (leading_behind cursor.new.bytes cursor.new.place) ≡ leading_behind cursor.old.bytes cursor.old.place }
    ensures same_bytes { cursor.new.bytes ≡ cursor.old.bytes }
    ensures onward { IfSome result (λ _. cursor.old.place < cursor.new.place) }
    ensures within { cursor.new.place ≤ length cursor.new.bytes }
{
    match cursor.next() {
        Ok(found) => found,
        Err(_) => None,
    }
}

/// Tells the objects that the bytes are, up to their first fault. What a constructed object holds is told
/// behind it, `more` objects deep at most; where it holds no whole objects, or stands deeper than eight
/// blanks, it is told in hexadecimal.
pub fn tell_objects(out: &mut WordLines, bytes: &[u8], style: &Style, more: u8)
    ensures { Tells out.old out.new (spec.objects_words more style.now bytes.now) }
{
    let mut cursor = Cursor::new(bytes);
    while let Some(item) = next_item(&mut cursor) {
        if more > 0 && is_opened(style.level, &item) {
            let mut inner = *style;
            inner.level = tell_template(out, named(item.tag), item.tag, style.level);
            tell_objects(out, item.value, &inner, more - 1);
        } else {
            tell_item(out, &item, style);
        }
    }
}

/// Tells an object that an item is.
fn tell_item(out: &mut WordLines, item: &Item<'_>, style: &Style)
    ensures { Tells out.old out.new (spec.plain_item style.now (seen item.now)) }
{
    let object = Object {
        tag: item.tag,
        value: item.value,
    };
    tell_object(out, &object, style);
}

/// Tells an object that stands alone. What it holds is told behind it, `more` objects deep at most, as
/// `tell_objects` tells it.
pub fn tell_lone_object(out: &mut WordLines, object: &Object<'_>, style: &Style, more: u8)
    ensures { Tells out.old out.new (spec.lone_words more style.now object.now.tag.0 object.now.value.now) }
{
    let item = Item {
        tag: object.tag,
        value: object.value,
        start: 0,
    };
    if more > 0 && is_opened(style.level, &item) {
        let mut inner = *style;
        inner.level = tell_template(out, named(item.tag), item.tag, style.level);
        tell_objects(out, item.value, &inner, more - 1);
    } else {
        tell_item(out, &item, style);
    }
}
