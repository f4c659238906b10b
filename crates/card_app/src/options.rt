//! GET PROCESSING OPTIONS (EMV 4.3 Book 3 section 6.5.8).
ghost use Rattle.std.specs.Prelude.{◌≡◌, ◌<◌, ◌≤◌, ◌==◌, ◌&&◌, ◌++◌, [], length, Some, IsTrue, nat_le, nat_lt, not, true, false, option_map};
ghost use Rattle.apdu_core.specs.Seen.{seen_command};
ghost use Rattle.ber_tlv.specs.Direct as direct;
ghost use Rattle.ber_tlv.specs.Left.{items_of};
ghost use Rattle.card_files.specs.ImageRules.{KeepsRules};
ghost use Rattle.card_app.specs.Answering.{options_row};
ghost use Rattle.card_app.specs.Options as spec;
ghost use Rattle.card_app.specs.OwnLists.{pdol_total as total_wanted};
ghost use Rattle.card_app.specs.SeenReply.{MakesReplyFor, ObeysRow};
ghost use Rattle.card_cryptogram.specs.declared.phase.Phase.TheVariants.{Selected};

use crate::apps::{app_at, pdol_total, state_at};
use crate::reply::{Reply, refuse, refused};
use crate::work::CardAtWork;
use apdu_core::Command;
use apdu_core::status::{CONDITIONS_NOT_SATISFIED, NO_ERROR, WRONG_LENGTH, WRONG_PARAMETERS};
use ber_tlv::{Tag, sole_value};
use card_cryptogram::{Body, Phase, write_options};
use card_files::AppImage;
use card_policy::may_start;
use card_state::{AppState, Decision};

/// Whether the data is one object 83 alone, with data of the length that the application's list wants.
fn is_of_list(app: &AppImage, body: &[u8]) -> bool
    requires { KeepsRules app.now }
    ensures { result ≡ spec.is_of_size (total_wanted app.now.pdol) (direct.sole_value 0x83 (items_of body.now)) }
{
    match sole_value(body, Tag(0x83)) {
        Some(value) => value.len() == pdol_total(&app.pdol),
        None => false,
    }
}

/// Takes the next transaction counter and gives the processing options.
#[tactic(auto, unfolding(crate::specs::Options::options_of, crate::specs::Session::next_phase))]
fn start(
    app: &AppImage,
    state: &AppState,
    card_blocked: bool,
    number: u8,
    command: &Command<'_>,
    out: &mut Body,
) -> Reply
    requires rules { KeepsRules app.now }
    requires ins { command.now.ins ≡ 0xA8 }
    ensures { MakesReplyFor number app.now state.now (Selected number) (seen_command command.now) out.new.items result (spec.options_of card_blocked number command.now.body.now app.now state.now) }
{
    let phase = Phase::Selected { app: number };
    out.clear();
    if !is_of_list(app, command.body) {
        return refused(phase, WRONG_LENGTH);
    }
    if !may_start(state, card_blocked) {
        return refused(phase, CONDITIONS_NOT_SATISFIED);
    }
    if !write_options(app.gpo_format, app.aip, app.afl.as_slice(), out) {
        return refused(phase, CONDITIONS_NOT_SATISFIED);
    }
    Reply::Decides {
        app: number,
        decision: Decision::Started,
        status: NO_ERROR,
        phase: Phase::Started { app: number },
    }
}

/// GET PROCESSING OPTIONS: the next transaction counter is taken. 6985 comes where the card or the
/// application is blocked, where no counter is left, and where the answer would not fit.
#[tactic(auto, unfolding(crate::specs::Answering::options_row, crate::specs::Session::next_phase))]
pub(crate) fn options(at: &CardAtWork<'_>, command: &Command<'_>, out: &mut Body) -> Reply
    requires ins { command.now.ins ≡ 0xA8 }
    ensures { ObeysRow options_row at.now.image.now at.now.state.now at.now.phase (seen_command command.now) out.new.items result }
{
    if command.p1 != 0x00 || command.p2 != 0x00 {
        return refused(at.phase, refuse(WRONG_PARAMETERS, out));
    }
    let Phase::Selected { app } = at.phase else {
        return refused(at.phase, refuse(CONDITIONS_NOT_SATISFIED, out));
    };
    start(
        app_at(at.image, app),
        state_at(at.state, app),
        at.state.blocked,
        app,
        command,
        out,
    )
}
