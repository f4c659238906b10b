//! Commands in words (EMV 4.3 Book 3 section 6.5).
ghost use Rattle.std.specs.Prelude.{◌≡◌, ◌==◌, if◌then◌else◌, option_map};
ghost use Rattle.apdu_core.specs.Command.{command_of};
ghost use Rattle.apdu_core.specs.Seen.{seen_command};
ghost use Rattle.object_words.specs.Objects.{name_of as name_in};
ghost use Rattle.report_lines.specs.Pieces as piece;
ghost use Rattle.report_lines.specs.Pieces.{Tells};
ghost use Rattle.exchange_words.specs.Commands as words;
ghost use Rattle.exchange_words.specs.Lanes as spec;

use crate::cryptogram::tell_question;
use crate::lane::{LaneState, keep};
use crate::phrases::OTHER_COMMANDS;
use apdu_core::{Command, read_command};
use ber_tlv::{Tag, sole_value, tag_bytes};
use emv_dict::is_pin_length;
use object_words::{Style, tell_fields, tell_script_command, tell_value};
use report_lines::{WordLines, command_reference, word_of};
use value_words::{Fields, Form, Row, digits_in, name_of, tell_digits};

/// Tells where a command stands, by its class and instruction.
pub(crate) fn tell_command_reference(out: &mut WordLines, head: u32)
    ensures { Tells out.old out.new (words.command_cited head) }
{
    out.reference_of(command_reference(head));
}

/// Tells the name of SELECT.
fn tell_selected_name(out: &mut WordLines, name: &[u8])
    ensures { Tells out.old out.new (words.selected_name name.now) }
{
    if name == b"1PAY.SYS.DDF01".as_slice() {
        out.text(name);
        out.text(b", the payment system directory");
    } else {
        out.hex(name);
    }
}

/// Tells SELECT (EMV 4.3 Book 1 section 11.3).
fn tell_select(out: &mut WordLines, command: &Command<'_>)
    ensures { Tells out.old out.new (words.select_words (seen_command command.now)) }
{
    out.line(1);
    out.text(b"SELECT ");
    tell_selected_name(out, command.body);
    if command.p2 == 2 {
        out.text(b", next occurrence");
    }
}

/// Tells the fields of the data of GET PROCESSING OPTIONS.
fn tell_options_data(out: &mut WordLines, pdol: &[u8], brief: bool, sent: Option<&[u8]>)
    ensures { Tells out.old out.new (words.options_data_words pdol.now brief (option_map (λ bytes. bytes.now) sent.entry)) }
{
    if let Some(bytes) = sent {
        if bytes.is_empty() {
            out.text(b": the card wants no data");
        } else if !brief {
            let fields = Fields {
                list: pdol,
                data: bytes,
            };
            tell_fields(out, fields, &Style::plain(2));
        }
    }
}

/// Tells GET PROCESSING OPTIONS, and the fields of its data.
fn tell_options(out: &mut WordLines, lane: &LaneState, body: &[u8], brief: bool)
    ensures { Tells out.old out.new (words.options_words lane.now.pdol.items body.now brief) }
{
    out.line(1);
    out.text(b"GET PROCESSING OPTIONS");
    tell_command_reference(out, 0x80a8);
    tell_options_data(
        out,
        lane.pdol.as_slice(),
        brief,
        sole_value(body, Tag(0x83)),
    );
}

/// Tells READ RECORD.
fn tell_record(out: &mut WordLines, command: &Command<'_>)
    ensures { Tells out.old out.new (words.record_words (seen_command command.now)) }
{
    out.line(1);
    out.text(b"READ RECORD ");
    out.number(u64::from(command.p1));
    out.text(b" of file ");
    out.number(u64::from(command.p2 / 8));
}

/// Tells the name of an object behind a blank, where it has one.
fn tell_name(out: &mut WordLines, tag: Tag)
    ensures { Tells out.old out.new (words.name_words (name_in tag.0)) }
{
    if let Some((name, _)) = name_of(tag) {
        out.text(b" ");
        out.text(name);
    }
}

/// Tells GET DATA.
fn tell_get_data(out: &mut WordLines, command: &Command<'_>)
    ensures { Tells out.old out.new (words.get_data_words (seen_command command.now)) }
{
    let tag = Tag(u32::from(command.p1) * 256 + u32::from(command.p2));
    out.line(1);
    out.text(b"GET DATA ");
    out.hex(&tag_bytes(tag));
    tell_name(out, tag);
}

/// Whether the data are a plaintext PIN block: four to twelve digits behind their number in the low half byte (EMV 4.3
/// Book 3 section 6.5.12).
fn is_pin_block(control: u8, digits: &[u8]) -> bool
    ensures { result ≡ words.is_pin_block control digits.now }
{
    control / 16 == 2
        && is_pin_length(usize::from(control % 16))
        && digits.len() == 7
        && digits_in(digits) == Some(u64::from(control % 16))
}

/// Tells the PIN where the data are a plaintext PIN block.
fn tell_pin(out: &mut WordLines, block: &[u8])
    ensures { Tells out.old out.new (words.pin_words block.now) }
{
    if let [control, digits @ ..] = block {
        if is_pin_block(*control, digits) {
            out.text(b": plaintext PIN ");
            tell_digits(out, digits);
        }
    }
}

/// Tells VERIFY, with the PIN where the data are a plaintext PIN block (EMV 4.3 Book 3 section 6.5.12).
fn tell_verify(out: &mut WordLines, block: &[u8], brief: bool)
    ensures { Tells out.old out.new (words.verify_words block.now brief) }
{
    out.line(1);
    out.text(b"VERIFY");
    tell_command_reference(out, 0x0020);
    if !brief {
        tell_pin(out, block);
    }
}

/// Tells EXTERNAL AUTHENTICATE.
fn tell_external(out: &mut WordLines, body: &[u8], brief: bool)
    ensures { Tells out.old out.new (words.external_words body.now brief) }
{
    out.line(1);
    out.text(b"EXTERNAL AUTHENTICATE");
    tell_command_reference(out, 0x0082);
    if !brief {
        out.text(b": ");
        tell_value(out, Form::Authentication, body, &Style::plain(1));
    }
}

/// The name of a command of which no more is told, by its class and instruction.
fn name_of_command(head: u32) -> Option<&'static [u8]>
    ensures { option_map (λ word. word.now) result ≡ words.name_of_command head }
{
    word_of(&OTHER_COMMANDS, head)
}

/// Tells the name of a command of which no more is told.
fn tell_command_name(out: &mut WordLines, command: &Command<'_>)
    ensures { Tells out.old out.new (words.named_command_words (seen_command command.now)) }
{
    let head = u32::from(command.class) * 256 + u32::from(command.ins);
    if let Some(name) = name_of_command(head) {
        out.text(name);
        tell_command_reference(out, head);
    }
}

/// Tells another command: one of an issuer's script, or its name.
fn tell_other(out: &mut WordLines, bytes: &[u8], command: &Command<'_>)
    ensures { Tells out.old out.new (words.other_command_words bytes.now (seen_command command.now)) }
{
    if tell_script_command(out, bytes) {
        out.text(b" (issuer script)");
        let head = u32::from(command.class) * 256 + u32::from(command.ins);
        tell_command_reference(out, head);
    } else {
        tell_command_name(out, command);
    }
}

/// Tells a command of the class 80.
fn tell_own(
    out: &mut WordLines,
    lane: &mut LaneState,
    command: &Command<'_>,
    row: Option<Row>,
    brief: bool,
)
    ensures words { Tells out.old out.new (words.own_words lane.old (seen_command command.now) row brief) }
    ensures left { lane.new ≡ words.left_own lane.old (seen_command command.now) row }
{
    match command.ins {
        0xa8 => tell_options(out, lane, command.body, brief),
        0xca => {
            tell_get_data(out, command);
            tell_command_reference(out, 0x80ca);
        }
        0xae => tell_question(out, lane, command, row, brief),
        _ => tell_command_name(out, command),
    }
}

/// Tells a command of the class 00.
fn tell_common(out: &mut WordLines, command: &Command<'_>, brief: bool)
    ensures { Tells out.old out.new (words.common_words (seen_command command.now) brief) }
{
    match command.ins {
        0xa4 => {
            tell_select(out, command);
            tell_command_reference(out, 0x00a4);
        }
        0xb2 => {
            tell_record(out, command);
            tell_command_reference(out, 0x00b2);
        }
        0x20 => tell_verify(out, command.body, brief),
        0x82 => tell_external(out, command.body, brief),
        _ => tell_command_name(out, command),
    }
}

/// Tells a command by its class and instruction.
#[tactic(auto, unfolding(crate::specs::Commands::words_of_command))]
fn tell_known(
    out: &mut WordLines,
    lane: &mut LaneState,
    bytes: &[u8],
    row: Option<Row>,
    brief: bool,
)
    ensures words { Tells out.old out.new (words.words_of_command lane.old bytes.now row brief) }
    ensures left { lane.new ≡ words.lane_behind_command lane.old (command_of bytes.now) row }
{
    match read_command(bytes) {
        Ok(command) => match command.class {
            0x00 => tell_common(out, &command, brief),
            0x80 => tell_own(out, lane, &command, row, brief),
            _ => tell_other(out, bytes, &command),
        },
        Err(_) => {}
    }
}

/// Tells a command, and keeps it for its answer.
pub fn tell_command(
    out: &mut WordLines,
    lane: &mut LaneState,
    bytes: &[u8],
    row: Option<Row>,
    brief: bool,
)
    ensures words { Tells out.old out.new (words.words_of_command lane.old bytes.now row brief) }
    ensures left { lane.new ≡ words.left_by_command lane.old bytes.now row }
{
    keep(&mut lane.command, bytes);
    tell_known(out, lane, bytes, row, brief);
}
