//! A command that the card was pulled out before it had answered.
ghost use Rattle.std.specs.Prelude.{◌≡◌, option_map};
ghost use Rattle.exchange_words.specs.Torn as spec;
ghost use Rattle.report_lines.specs.Pieces.{Tells};

use crate::command::tell_command_reference;
use crate::phrases::{MAY_BE_KEPT, NO_ANSWER_YET};
use report_lines::WordLines;

/// Whether a command has this class and this instruction.
fn is_command(class: u8, instruction: u8, command: &[u8]) -> bool
    ensures { result ≡ spec.has_instruction class instruction command.now }
{
    match command {
        [first, second, ..] => *first == class && *second == instruction,
        _ => false,
    }
}

/// Whether a command is one of a script, by its class.
fn is_of_script(command: &[u8]) -> bool
    ensures { result ≡ spec.is_of_script command.now }
{
    match command {
        [class, ..] => *class == 0x84 || *class == 0x04,
        _ => false,
    }
}

/// The name of a command, as far as it may be left without an answer; `None` where it is not known.
#[tactic(auto, unfolding(crate::specs::Torn::command_name))]
fn command_name(command: &[u8]) -> Option<&'static [u8]>
    ensures { option_map (λ name. name.now) result ≡ spec.command_name command.now }
{
    if is_command(0x00, 0xa4, command) {
        Some(b"SELECT")
    } else if is_command(0x80, 0xa8, command) {
        Some(b"GET PROCESSING OPTIONS")
    } else if is_command(0x00, 0xb2, command) {
        Some(b"READ RECORD")
    } else if is_command(0x00, 0x20, command) {
        Some(b"VERIFY")
    } else if is_command(0x80, 0xca, command) {
        Some(b"GET DATA")
    } else if is_command(0x80, 0xae, command) {
        Some(b"GENERATE AC")
    } else if is_command(0x00, 0x82, command) {
        Some(b"EXTERNAL AUTHENTICATE")
    } else if is_of_script(command) {
        Some(b"the script command")
    } else {
        None
    }
}

/// Whether the card may keep something before it answers this command.
#[tactic(auto, unfolding(crate::specs::Torn::may_keep))]
fn may_keep(command: &[u8]) -> bool
    ensures { result ≡ spec.may_keep command.now }
{
    !(is_command(0x00, 0xa4, command)
        || is_command(0x00, 0xb2, command)
        || is_command(0x80, 0xca, command))
}

/// Tells where a command stands.
fn tell_sent_reference(out: &mut WordLines, command: &[u8])
    ensures { Tells out.old out.new (spec.sent_cited command.now) }
{
    if let [class, instruction, ..] = command {
        tell_command_reference(out, u32::from(*class) * 256 + u32::from(*instruction));
    }
}

/// Tells the command that was left without an answer, where it has a name.
fn tell_left_open(out: &mut WordLines, command: &[u8])
    ensures { Tells out.old out.new (spec.left_open command.now (spec.command_name command.now)) }
{
    if let Some(name) = command_name(command) {
        out.text(b" ");
        out.text(name);
        tell_sent_reference(out, command);
        if may_keep(command) {
            out.text(MAY_BE_KEPT);
        }
    }
}

/// Tells that the card was pulled out.
pub fn tell_torn(out: &mut WordLines, command: &[u8])
    ensures { Tells out.old out.new (spec.torn_words command.now) }
{
    out.line(1);
    out.text(NO_ANSWER_YET);
    tell_left_open(out, command);
}
