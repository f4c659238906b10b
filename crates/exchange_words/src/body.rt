//! The bodies of answers in words (EMV 4.3 Book 3 section 6.5), and what they leave.
ghost use Rattle.std.specs.Prelude.{◌≡◌, Some, is_some, option_map};
ghost use Rattle.exchange_words.specs.Answers as words;
ghost use Rattle.value_words.specs.Plain.{or_nothing};
ghost use Rattle.report_lines.specs.Pieces.{Tells};

use crate::lane::LaneState;
use crate::learn::{counter_in, learn_counter, learn_record, learn_selected};
use ber_tlv::{Tag, first_fault, sole_value};
use object_words::{Object, Style, tell_object, tell_objects};
use report_lines::WordLines;

/// How deep objects within objects are told.
const DEPTH: u8 = 8;

/// The last file whose records' objects a terminal takes (EMV 4.3 Book 3 section 10.2).
const MOST_FILE: u8 = 10;

/// The instruction of a command; 0 where it has none.
pub(crate) fn instruction_byte(command: &[u8]) -> u8
    ensures { result ≡ words.instruction_byte command.now }
{
    match command {
        [_, instruction, ..] => *instruction,
        _ => 0,
    }
}

/// The file of READ RECORD, in the high five bits of P2; 0 where it has none.
fn file_of(command: &[u8]) -> u8
    ensures { result ≡ words.file_of command.now }
{
    match command.get(3) {
        Some(reference) => *reference / 8,
        None => 0,
    }
}

/// The tag of an object that GET DATA asks for.
fn asked_tag(command: &[u8]) -> Option<Tag>
    ensures { option_map (λ tag. tag.0) result ≡ words.asked_tag command.now }
{
    match command {
        [_, _, high, low, ..] => Some(Tag(u32::from(*high) * 256 + u32::from(*low))),
        _ => None,
    }
}

/// The tag of the one object that the answer to this command is.
fn answer_tag(command: &[u8]) -> Option<Tag>
    ensures { option_map (λ tag. tag.0) result ≡ words.answer_tag command.now }
{
    match instruction_byte(command) {
        0xa4 => Some(Tag(0x6f)),
        0xb2 => Some(Tag(0x70)),
        0xa8 | 0xae => Some(Tag(0x77)),
        0xca => asked_tag(command),
        _ => None,
    }
}

/// Whether the body is one object of the tag that the answer to this command has.
fn has_form(command: &[u8], body: &[u8]) -> bool
    ensures { result ≡ words.has_form command.now body.now }
{
    match answer_tag(command) {
        Some(tag) => sole_value(body, tag).is_some(),
        None => false,
    }
}

/// Tells that a body is not of the form that the command's answer has.
fn tell_form(out: &mut WordLines, has_form: bool)
    ensures { Tells out.old out.new (words.unformed_words has_form) }
{
    if !has_form {
        out.line(1);
        out.text(b"not of the form of this answer");
    }
}

/// Tells the objects of a body.
fn tell_whole(out: &mut WordLines, body: &[u8], brief: bool)
    ensures { Tells out.old out.new (words.body_objects_words body.now brief) }
{
    if !brief {
        tell_objects(out, body, &Style::plain(1), DEPTH);
    }
}

/// Tells the objects of a body, and whether they are not of the form that the command's answer has.
fn tell_body(out: &mut WordLines, command: &[u8], body: &[u8], brief: bool)
    ensures { Tells out.old out.new (words.body_words command.now body.now brief) }
{
    if first_fault(body).is_some() {
        out.line(1);
        out.text(b"no whole data objects");
    } else {
        tell_whole(out, body, brief);
        tell_form(out, has_form(command, body));
    }
}

/// Tells one object in a line of its own.
fn tell_one(out: &mut WordLines, tag: u32, value: &[u8])
    ensures { Tells out.old out.new (words.one_words tag value.now) }
{
    let object = Object {
        tag: Tag(tag),
        value,
    };
    tell_object(out, &object, &Style::plain(1));
}

/// Tells the profile and the locator of an answer in format 1; whether it is one.
fn tell_options_one(out: &mut WordLines, value: &[u8], brief: bool) -> bool
    ensures words { Tells out.old out.new (or_nothing (words.options_one value.now brief)) }
    ensures told { result ≡ is_some (words.options_one value.now brief) }
{
    let Some((profile, locator)) = value.split_at_checked(2) else {
        return false;
    };
    if !brief {
        tell_one(out, 0x82, profile);
        tell_one(out, 0x94, locator);
    }
    true
}

/// Tells the parts of an answer to GENERATE AC in format 1; whether it is one.
fn tell_cryptogram_one(out: &mut WordLines, value: &[u8], brief: bool) -> bool
    ensures words { Tells out.old out.new (or_nothing (words.cryptogram_one value.now brief)) }
    ensures told { result ≡ is_some (words.cryptogram_one value.now brief) }
{
    let Some((information, rest)) = value.split_at_checked(1) else {
        return false;
    };
    let Some((counter, rest)) = rest.split_at_checked(2) else {
        return false;
    };
    let Some((cryptogram, data)) = rest.split_at_checked(8) else {
        return false;
    };
    if !brief {
        tell_one(out, 0x9f27, information);
        tell_one(out, 0x9f36, counter);
        tell_one(out, 0x9f26, cryptogram);
        tell_one(out, 0x9f10, data);
    }
    true
}

/// Tells a value of format 1; whether it is one.
fn tell_value_one(out: &mut WordLines, instruction: u8, value: &[u8], brief: bool) -> bool
    ensures words { Tells out.old out.new (or_nothing (words.value_one instruction (Some value.now) brief)) }
    ensures told { result ≡ is_some (words.value_one instruction (Some value.now) brief) }
{
    match instruction {
        0xa8 => tell_options_one(out, value, brief),
        0xae => tell_cryptogram_one(out, value, brief),
        _ => false,
    }
}

/// Tells a body of format 1; whether it is one.
fn tell_format_one(out: &mut WordLines, command: &[u8], body: &[u8], brief: bool) -> bool
    ensures words { Tells out.old out.new (or_nothing (words.format_one command.now body.now brief)) }
    ensures told { result ≡ is_some (words.format_one command.now body.now brief) }
{
    match sole_value(body, Tag(0x80)) {
        Some(value) => tell_value_one(out, instruction_byte(command), value, brief),
        None => false,
    }
}

/// Tells the objects of a body, taken apart where it is of format 1.
fn tell_told(out: &mut WordLines, command: &[u8], body: &[u8], brief: bool)
    ensures { Tells out.old out.new (words.told_body command.now body.now brief (words.format_one command.now body.now brief)) }
{
    if !tell_format_one(out, command, body, brief) {
        tell_body(out, command, body, brief);
    }
}

/// Tells the limits where both are known.
fn tell_limits(out: &mut WordLines, lower: Option<u64>, upper: Option<u64>)
    ensures { Tells out.old out.new (words.limits_words lower upper) }
{
    if let Some(lower) = lower {
        if let Some(upper) = upper {
            out.text(b"; the limits 9F14 and 9F23 are ");
            out.number(lower);
            out.text(b" and ");
            out.number(upper);
        }
    }
}

/// Tells how many transactions came behind the last one online, where both counters are known, and the
/// limits.
fn tell_since(out: &mut WordLines, lane: &LaneState, last_online: Option<u64>, counter: Option<u64>)
    ensures { Tells out.old out.new (words.transactions_since_words lane.now last_online counter) }
{
    if let Some(last_online) = last_online {
        if let Some(counter) = counter {
            out.line(2);
            out.number(counter.saturating_sub(last_online));
            out.text(b" transactions since then");
            tell_limits(out, lane.lower, lane.upper);
        }
    }
}

/// Tells the distance of a counter that GET DATA gave to the one before.
fn tell_counter(out: &mut WordLines, lane: &LaneState, body: &[u8], brief: bool)
    ensures { Tells out.old out.new (words.since_online_words lane.now body.now brief) }
{
    if !brief {
        tell_since(out, lane, counter_in(body, 0x9f13), lane.counter);
    }
}

/// Whether an answer to SELECT was given before.
fn is_same(lane: &LaneState, command: &[u8], answer: &[u8]) -> bool
    ensures { result ≡ words.is_same lane.now command.now answer.now }
{
    instruction_byte(command) == 0xa4 && answer == lane.selected.as_slice()
}

/// Keeps what the body of an answer leaves.
fn learn_body(lane: &mut LaneState, command: &[u8], answer: &[u8], body: &[u8])
    ensures left { lane.new ≡ words.left_by_new lane.old command.now answer.now body.now }
{
    match instruction_byte(command) {
        0xa4 => learn_selected(lane, answer, body),
        0xb2 => {
            if file_of(command) <= MOST_FILE {
                learn_record(lane, body);
            }
        }
        0xca => learn_counter(lane, body),
        _ => {}
    }
}

/// Tells a body, by what is known with it.
fn tell_new_body(out: &mut WordLines, lane: &LaneState, command: &[u8], body: &[u8], brief: bool)
    ensures { Tells out.old out.new (words.new_body lane.now command.now body.now brief) }
{
    tell_told(out, command, body, brief);
    if instruction_byte(command) == 0xca {
        tell_counter(out, lane, body, brief);
    }
}

/// Tells a body, and keeps what it leaves.
pub(crate) fn tell_and_learn(
    out: &mut WordLines,
    lane: &mut LaneState,
    command: &[u8],
    answer: &[u8],
    body: &[u8],
    brief: bool,
)
    ensures words { Tells out.old out.new (words.words_of_body lane.old command.now answer.now body.now brief) }
    ensures left { lane.new ≡ words.left_by_body lane.old command.now answer.now body.now }
{
    if is_same(lane, command, answer) {
        out.line(1);
        out.text(b"the same answer as before");
        return;
    }
    learn_body(lane, command, answer, body);
    tell_new_body(out, lane, command, body, brief);
}
