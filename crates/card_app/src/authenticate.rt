//! EXTERNAL AUTHENTICATE (EMV 4.3 Book 3 section 6.5.4).
ghost use Rattle.std.specs.Prelude.{◌≡◌, ◌&&◌, [], length, Some, None, nat_le, if◌then◌else◌};
ghost use Rattle.apdu_core.specs.Seen.{seen_command};
ghost use Rattle.card_app.specs.SeenReply.{MakesReplyFor, ObeysRow};
ghost use Rattle.card_app.specs.Cryptograms as spec;
ghost use Rattle.card_cryptogram.specs.Authentication.{is_authenticated as authenticates, steered_by as steers};
ghost use Rattle.card_cryptogram.specs.declared.phase.Phase.TheVariants.{Online};
ghost use Rattle.card_state.specs.declared.decision.Decision.TheVariants.{Authenticated};
ghost use Rattle.card_app.specs.declared.reply.Reply.TheVariants.{Decides};

use crate::apps::{app_at, state_at};
use crate::reply::{Reply, refused};
use crate::work::CardAtWork;
use apdu_core::Command;
use apdu_core::status::{
    AUTHENTICATION_FAILED, CONDITIONS_NOT_SATISFIED, NO_ERROR, WRONG_LENGTH, WRONG_PARAMETERS,
};
use card_cryptogram::{
    First, Phase, authentication, has_issuer_auth, is_authenticated, is_authentication_size,
    steered_by,
};
use card_files::AppImage;
use card_state::{AppState, Auth, Decision};

/// The decision that the issuer is authenticated so, with the answer's status.
fn judged(number: u8, first: First, auth: Auth, limit: u8, status: u16) -> Reply
    ensures { result ≡ Decides number (Authenticated (authenticates auth) (steers limit auth)) status (Online number first (Some auth)) }
{
    Reply::Decides {
        app: number,
        decision: Decision::Authenticated {
            right: is_authenticated(auth),
            steered: steered_by(auth, limit),
        },
        status,
        phase: Phase::Online {
            app: number,
            first,
            sent: Some(auth),
        },
    }
}

/// The decision whether the issuer is authenticated.
#[tactic(auto, unfolding(crate::specs::Cryptograms::authenticate_for, crate::specs::Session::next_phase))]
fn judge(app: &AppImage, state: &AppState, number: u8, first: First, command: &Command<'_>) -> Reply
    requires ins { command.now.ins ≡ 0x82 }
    ensures { MakesReplyFor number app.now state.now (Online number first None) (seen_command command.now) [] result (spec.authenticate_for number first command.now.body.now app.now state.now) }
{
    let phase = Phase::Online {
        app: number,
        first,
        sent: None,
    };
    if !has_issuer_auth(app.aip) {
        return refused(phase, CONDITIONS_NOT_SATISFIED);
    }
    if !is_authentication_size(command.body.len()) {
        return refused(phase, WRONG_LENGTH);
    }
    let auth = authentication(&app.ac_key, state.counter, first.cryptogram, command.body);
    if is_authenticated(auth) {
        return judged(number, first, auth, app.tries, NO_ERROR);
    }
    judged(number, first, auth, app.tries, AUTHENTICATION_FAILED)
}

/// EXTERNAL AUTHENTICATE, once in a transaction.
#[tactic(auto, unfolding(crate::specs::Cryptograms::authenticate_row, crate::specs::Session::next_phase))]
pub(crate) fn authenticate(at: &CardAtWork<'_>, command: &Command<'_>) -> Reply
    requires ins { command.now.ins ≡ 0x82 }
    ensures { ObeysRow spec.authenticate_row at.now.image.now at.now.state.now at.now.phase (seen_command command.now) [] result }
{
    if command.p1 != 0x00 || command.p2 != 0x00 {
        return refused(at.phase, WRONG_PARAMETERS);
    }
    match at.phase {
        Phase::Online {
            app,
            first,
            sent: None,
        } => judge(
            app_at(at.image, app),
            state_at(at.state, app),
            app,
            first,
            command,
        ),
        _ => refused(at.phase, CONDITIONS_NOT_SATISFIED),
    }
}
