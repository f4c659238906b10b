//! VERIFY (EMV 4.3 Book 3 section 6.5.12).
ghost use Rattle.std.specs.Prelude.{◌≡◌, ◌<◌, [], length, Some};
ghost use Rattle.apdu_core.specs.Seen.{seen_command};
ghost use Rattle.card_app.specs.SeenReply.{MakesReplyFor, ObeysRow};
ghost use Rattle.card_app.specs.Answering.{verify_row};
ghost use Rattle.card_app.specs.Pin as spec;
ghost use Rattle.card_cryptogram.specs.declared.phase.Phase.TheVariants.{Started};

use crate::apps::{app_at, state_at};
use crate::reply::{Reply, refused};
use crate::work::CardAtWork;
use crate::{Comparison, has_pin};
use apdu_core::Command;
use apdu_core::status::{
    AUTHENTICATION_BLOCKED, CONDITIONS_NOT_SATISFIED, DATA_NOT_FOUND, WRONG_LENGTH,
    WRONG_PARAMETERS,
};
use card_cryptogram::{Phase, block_of};
use card_files::AppImage;
use card_state::AppState;

/// P2 of a plain PIN block.
const PLAIN: u8 = 0x80;

/// The comparison that the application's PIN wants.
#[tactic(auto, unfolding(crate::specs::Pin::verify_of, crate::specs::Session::next_phase))]
fn compare_with(app: &AppImage, state: &AppState, number: u8, command: &Command<'_>) -> Reply
    requires ins { command.now.ins ≡ 0x20 }
    ensures { MakesReplyFor number app.now state.now (Started number) (seen_command command.now) [] result (spec.verify_of number command.now.body.now app.now state.now) }
{
    let phase = Phase::Started { app: number };
    if command.body.len() != 8 {
        return refused(phase, WRONG_LENGTH);
    }
    if !has_pin(state) {
        return refused(phase, DATA_NOT_FOUND);
    }
    if state.tries == 0 {
        return refused(phase, AUTHENTICATION_BLOCKED);
    }
    Reply::Compares(Comparison {
        app: number,
        block: block_of(command.body),
        pin: state.pin,
        limit: app.tries,
        tries: state.tries,
    })
}

/// VERIFY with a plain PIN block.
#[tactic(auto, unfolding(crate::specs::Answering::verify_row, crate::specs::Session::next_phase))]
pub(crate) fn verify(at: &CardAtWork<'_>, command: &Command<'_>) -> Reply
    requires ins { command.now.ins ≡ 0x20 }
    ensures { ObeysRow verify_row at.now.image.now at.now.state.now at.now.phase (seen_command command.now) [] result }
{
    if command.p1 != 0x00 || command.p2 != PLAIN {
        return refused(at.phase, WRONG_PARAMETERS);
    }
    let Phase::Started { app } = at.phase else {
        return refused(at.phase, CONDITIONS_NOT_SATISFIED);
    };
    compare_with(app_at(at.image, app), state_at(at.state, app), app, command)
}
