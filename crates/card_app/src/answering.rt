//! The reply to any bytes (ISO/IEC 7816-4; EMV 4.3 Book 3 section 6.5).
ghost use Rattle.std.specs.Prelude.{Some};
ghost use Rattle.apdu_core.specs.Command.{command_of};
ghost use Rattle.apdu_core.specs.Seen.{seen_command};
ghost use Rattle.card_app.specs.Answering as spec;
ghost use Rattle.card_app.specs.SeenReply.{MakesReply, ObeysRow};

use crate::authenticate::authenticate;
use crate::files::{get_data, read_record};
use crate::generate::generate;
use crate::options::options;
use crate::reply::{Reply, refuse, refused};
use crate::scripts::script;
use crate::selection::select;
use crate::verify::verify;
use crate::work::CardAtWork;
use apdu_core::status::{CLASS_NOT_SUPPORTED, INSTRUCTION_NOT_SUPPORTED, WRONG_LENGTH};
use apdu_core::{Command, read_command};
use card_cryptogram::ScriptCommand::{BlockApp, BlockCard, UnblockApp};
use card_cryptogram::{Body, is_class, limit_order, pin_order, plain_order};

/// The reply to a command of a class that a card knows, by its row.
#[tactic(auto, unfolding(crate::specs::Answering::instruction_row, crate::specs::Session::next_phase))]
fn answer_instruction(at: &CardAtWork<'_>, command: &Command<'_>, out: &mut Body) -> Reply
    ensures { ObeysRow spec.instruction_row at.now.image.now at.now.state.now at.now.phase (seen_command command.now) out.new.items result }
{
    out.clear();
    let (p1, p2) = (command.p1, command.p2);
    match (command.class, command.ins) {
        (0x00, 0xa4) => select(at, command, out),
        (0x00, 0xb2) => refused(at.phase, read_record(at, command, out)),
        (0x80, 0xa8) => options(at, command, out),
        (0x00, 0x20) => verify(at, command),
        (0x80, 0xca) => refused(at.phase, get_data(at, command, out)),
        (0x80, 0xae) => generate(at, command, out),
        (0x00, 0x82) => authenticate(at, command),
        (0x84, 0x1e) => script(at, plain_order(BlockApp, p1, p2), command),
        (0x84, 0x18) => script(at, plain_order(UnblockApp, p1, p2), command),
        (0x84, 0x16) => script(at, plain_order(BlockCard, p1, p2), command),
        (0x84, 0x24) => script(at, pin_order(p1, p2), command),
        (0x04, 0xda) => script(at, limit_order(p1, p2), command),
        _ => refused(at.phase, INSTRUCTION_NOT_SUPPORTED),
    }
}

/// The reply to a command.
#[tactic(auto, unfolding(crate::specs::Session::next_phase))]
fn answer_command(at: &CardAtWork<'_>, command: &Command<'_>, out: &mut Body) -> Reply
    ensures { ObeysRow spec.instruction_answer at.now.image.now at.now.state.now at.now.phase (seen_command command.now) out.new.items result }
{
    if !is_class(command.class) {
        return refused(at.phase, refuse(CLASS_NOT_SUPPORTED, out));
    }
    answer_instruction(at, command, out)
}

/// The reply to any bytes, in a state and a phase; the body of the answer goes to `out`.
#[tactic(auto, unfolding(crate::specs::Answering::answer_in_phase))]
pub(crate) fn answer(at: &CardAtWork<'_>, command: &[u8], out: &mut Body) -> Reply
    ensures { MakesReply at.now.image.now at.now.state.now at.now.phase (command_of command.now) out.new.items result (spec.answer_in_phase at.now.image.now at.now.state.now at.now.phase command.now) }
{
    match read_command(command) {
        Ok(command) => answer_command(at, &command, out),
        Err(_) => refused(at.phase, refuse(WRONG_LENGTH, out)),
    }
}
