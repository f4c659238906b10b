//! Script commands under their codes (EMV 4.3 Book 2 section 9, Book 3 section 10.10).
ghost use Rattle.std.specs.Prelude.{◌≡◌, ◌∷◌, [], length, Some, None};
ghost use Rattle.apdu_core.specs.Seen.{seen_command};
ghost use Rattle.card_app.specs.SeenReply.{MakesReply, MakesReplyFor, LeavesPhase};
ghost use Rattle.card_cryptogram.specs.ScriptHeaders.{size_of as size_wanted};
ghost use Rattle.card_app.specs.ScriptCommands as spec;
ghost use Rattle.card_cryptogram.specs.Phases.{current};

use crate::apps::at_work;
use crate::orders::scripted_of;
use crate::reply::{Reply, refused};
use crate::work::{AtWork, CardAtWork};
use apdu_core::Command;
use apdu_core::status::{
    CONDITIONS_NOT_SATISFIED, NO_ERROR, WRONG_LENGTH, WRONG_PARAMETERS, WRONG_SECURE_MESSAGING,
};
use card_cryptogram::{First, Phase, ScriptCommand, has_code, size_of};
use card_state::Decision;

/// The header of a command.
fn header_of(command: &Command<'_>) -> [u8; 4]
    ensures { result ≡ spec.header_of (seen_command command.now) }
{
    [command.class, command.ins, command.p1, command.p2]
}

/// Carries out an order whose code is right, where its data allow it.
fn carry_out(
    order: ScriptCommand,
    at: &AtWork<'_>,
    phase: Phase,
    first: &First,
    command: &Command<'_>,
) -> Reply
    requires size { length command.now.body.now ≡ size_wanted order }
    requires stays { LeavesPhase phase (seen_command command.now) }
    requires at { current phase ≡ Some at.now.number }
    ensures { MakesReplyFor at.now.number at.now.app.now at.now.state.now phase (seen_command command.now) [] result (spec.carried_out at.now.number (spec.scripted_of order at.now.app.now first.now command.now.body.now)) }
{
    match scripted_of(order, at.app, first, command.body) {
        Some(scripted) => Reply::Decides {
            app: at.number,
            decision: Decision::Script(scripted),
            status: NO_ERROR,
            phase,
        },
        None => refused(phase, CONDITIONS_NOT_SATISFIED),
    }
}

/// An order of this phase: the length of its data, its code, and then what it does.
#[tactic(auto, unfolding(crate::specs::ScriptCommands::script_for))]
fn run(
    order: ScriptCommand,
    at: &AtWork<'_>,
    phase: Phase,
    first: First,
    command: &Command<'_>,
) -> Reply
    requires stays { LeavesPhase phase (seen_command command.now) }
    requires at { current phase ≡ Some at.now.number }
    ensures { MakesReplyFor at.now.number at.now.app.now at.now.state.now phase (seen_command command.now) [] result (spec.script_for order at.now.number first (seen_command command.now) at.now.app.now at.now.state.now) }
{
    if command.body.len() != size_of(order) {
        return refused(phase, WRONG_LENGTH);
    }
    let (app, state) = (at.app, at.state);
    let header = header_of(command);
    if !has_code(
        &app.mac_key,
        first.cryptogram,
        state.counter,
        header,
        command.body,
    ) {
        return refused(phase, WRONG_SECURE_MESSAGING);
    }
    carry_out(order, at, phase, &first, command)
}

/// A script command: one whose P1 P2 name no order is refused, and an order comes behind a first
/// request to go online.
#[tactic(auto, unfolding(crate::specs::ScriptCommands::script_row))]
pub(crate) fn script(
    at: &CardAtWork<'_>,
    order: Option<ScriptCommand>,
    command: &Command<'_>,
) -> Reply
    requires stays { LeavesPhase at.now.phase (seen_command command.now) }
    ensures { MakesReply at.now.image.now at.now.state.now at.now.phase (Some (seen_command command.now)) [] result (spec.script_row at.now.image.now at.now.state.now at.now.phase order (seen_command command.now)) }
{
    let Some(order) = order else {
        return refused(at.phase, WRONG_PARAMETERS);
    };
    match at.phase {
        Phase::Online { app, first, .. } | Phase::Done { app, first } => {
            run(order, &at_work(at, app), at.phase, first, command)
        }
        Phase::Idle
        | Phase::Directory
        | Phase::Selected { .. }
        | Phase::Started { .. }
        | Phase::Closed { .. } => refused(at.phase, CONDITIONS_NOT_SATISFIED),
    }
}
