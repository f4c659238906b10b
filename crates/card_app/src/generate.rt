//! GENERATE AC (EMV 4.3 Book 3 section 6.5.5).
ghost use Rattle.std.specs.Prelude.{◌≡◌, ◌≤◌, ◌==◌, [], length, Option, Some, None, IsTrue, if◌then◌else◌};
ghost use Rattle.apdu_core.specs.Seen.{seen_command};
ghost use Rattle.card_app.specs.SeenReply.{reply_data, LeadsFor, MayFor, MakesReplyFor, ObeysRow};
ghost use Rattle.card_cryptogram.specs.Fields.{first_given as first_given_of};
ghost use Rattle.card_cryptogram.specs.Bodies.{body_of, kind_in, cryptogram_in};
ghost use Rattle.card_state.specs.Change.{changed as state_behind, MayDecide};
ghost use Rattle.card_state.specs.declared.decision.Auth.{Auth as AuthOf};
ghost use Rattle.card_state.specs.declared.decision.Decision.TheVariants.{First as FirstKind, Second as SecondKind};
ghost use Rattle.card_app.specs.Cryptograms as spec;
ghost use Rattle.card_app.specs.OwnLists.{cdol_of as entries_of};
ghost use Rattle.card_cryptogram.specs.declared.phase.Phase.TheVariants.{Started, Online, Closed};

use crate::apps::{at_work, cdol_of};
use crate::reply::{Reply, refuse, refused};
use crate::work::{AtWork, CardAtWork};
use apdu_core::Command;
use apdu_core::status::{CONDITIONS_NOT_SATISFIED, NO_ERROR, WRONG_LENGTH, WRONG_PARAMETERS};
use card_cryptogram::{
    Body, First, Phase, TerminalFields, auth_of, code_given, cryptogram, first_given, given_from,
    has_issuer_auth, is_of_list, kind_asked, phase_behind, sale_of, write_body,
};
use card_files::AppImage;
use card_policy::{OnlineResult, first, second};
use card_state::{AppState, Auth, Decision, How, changed};
use emv_dict::Kind;

/// Makes the cryptogram of a kind with the state behind the decision for it, and writes the answer.
#[tactic(auto, unfolding(card_cryptogram::specs::Bodies::body_of))]
fn write_cryptogram(
    app: &AppImage,
    state: &AppState,
    kind: Kind,
    given: &TerminalFields,
    out: &mut Body,
) -> [u8; 8]
    ensures body { out.new.items ≡ body_of app.now.ac_format app.now.ac_key app.now.aip state.now kind given.now }
    ensures kind { kind_in app.now.ac_format out.new.items ≡ Some kind }
    ensures cryptogram { cryptogram_in app.now.ac_format out.new.items ≡ result }
{
    let made = cryptogram(&app.ac_key, app.aip, state, kind, given);
    write_body(app.ac_format, state, kind, made, out);
    made
}

/// The first cryptogram, of a kind that the card may decide for.
#[tactic(auto, unfolding(crate::specs::Session::next_phase))]
fn make_first(
    at: &AtWork<'_>,
    kind: Kind,
    given: TerminalFields,
    command: &Command<'_>,
    out: &mut Body,
) -> Reply
    requires may { MayDecide at.now.state.now (FirstKind kind (spec.sale_for at.now.app.now given)) }
    requires given { given ≡ first_given_of (entries_of at.now.app.now.cdol1) command.now.body.now }
    requires ins { command.now.ins ≡ 0xAE }
    ensures { MakesReplyFor at.now.number at.now.app.now at.now.state.now (Started at.now.number) (seen_command command.now) out.new.items result (spec.first_made at.now.number at.now.app.now at.now.state.now kind given) }
{
    let app = at.app;
    let decision = Decision::First {
        kind,
        sale: sale_of(app.currency, app.currency_two, &given),
    };
    let cryptogram = write_cryptogram(app, &changed(at.state, &decision), kind, &given, out);
    Reply::Decides {
        app: at.number,
        decision,
        status: NO_ERROR,
        phase: phase_behind(at.number, kind, First { given, cryptogram }),
    }
}

/// The kind of the first cryptogram.
pub(crate) fn first_of(at: &AtWork<'_>, asked: Kind, given: &TerminalFields) -> Kind
    ensures kind { result ≡ spec.first_kind_for at.now.card_blocked asked at.now.app.now at.now.state.now given.now }
    ensures may { MayDecide at.now.state.now (FirstKind result (spec.sale_for at.now.app.now given.now)) }
{
    let app = at.app;
    let sale = sale_of(app.currency, app.currency_two, given);
    first(asked, at.state, at.card_blocked, sale.which, sale.amount)
}

/// The first GENERATE AC.
#[tactic(auto, unfolding(crate::specs::Cryptograms::first_for, crate::specs::Session::next_phase))]
fn generate_first(at: &AtWork<'_>, asked: Kind, command: &Command<'_>, out: &mut Body) -> Reply
    requires ins { command.now.ins ≡ 0xAE }
    ensures { MakesReplyFor at.now.number at.now.app.now at.now.state.now (Started at.now.number) (seen_command command.now) out.new.items result (spec.first_for at.now.card_blocked at.now.number asked command.now.body.now at.now.app.now at.now.state.now) }
{
    let app = at.app;
    let dol = cdol_of(&app.cdol1);
    if !is_of_list(&dol, command.body) {
        return refused(Phase::Started { app: at.number }, refuse(WRONG_LENGTH, out));
    }
    let given = first_given(&dol, command.body);
    let kind = first_of(at, asked, &given);
    make_first(at, kind, given, command, out)
}

/// The second cryptogram, of a kind that the card may decide for.
#[tactic(auto, unfolding(crate::specs::Session::next_phase))]
fn make_second(
    at: &AtWork<'_>,
    first: First,
    made: (Kind, How),
    given: &TerminalFields,
    command: &Command<'_>,
    out: &mut Body,
) -> Reply
    requires may { MayDecide at.now.state.now (SecondKind made.0 made.1 (spec.sale_for at.now.app.now given.now)) }
    requires ins { command.now.ins ≡ 0xAE }
    ensures said { reply_data out.new.items result ≡ spec.second_made at.now.number at.now.app.now at.now.state.now made given.now }
    ensures leads { (sent : Option AuthOf)
        → LeadsFor at.now.number at.now.app.now (Online at.now.number first sent) (seen_command command.now) out.new.items result }
    ensures may { MayFor at.now.number at.now.state.now result }
{
    let (kind, how) = made;
    let app = at.app;
    let decision = Decision::Second {
        kind,
        how,
        sale: sale_of(app.currency, app.currency_two, given),
    };
    write_cryptogram(app, &changed(at.state, &decision), kind, given, out);
    Reply::Decides {
        app: at.number,
        decision,
        status: NO_ERROR,
        phase: Phase::Done {
            app: at.number,
            first,
        },
    }
}

/// The kind of the second cryptogram, and on what it rests.
pub(crate) fn second_of(
    at: &AtWork<'_>,
    asked: Kind,
    sent: Option<Auth>,
    code: [u8; 2],
    given: &TerminalFields,
) -> (Kind, How)
    ensures made { result ≡ spec.second_by at.now.card_blocked asked at.now.app.now at.now.state.now sent code given.now }
    ensures may { MayDecide at.now.state.now (SecondKind result.0 result.1 (spec.sale_for at.now.app.now given.now)) }
{
    let app = at.app;
    let sale = sale_of(app.currency, app.currency_two, given);
    second(
        asked,
        at.state,
        at.card_blocked,
        sale.which,
        sale.amount,
        OnlineResult {
            auth: auth_of(sent),
            code,
            issuer_auth: has_issuer_auth(app.aip),
        },
    )
}

/// The second GENERATE AC.
#[tactic(auto, unfolding(crate::specs::Cryptograms::second_for, crate::specs::Session::next_phase))]
fn generate_second(
    at: &AtWork<'_>,
    first: First,
    sent: Option<Auth>,
    asked: Kind,
    command: &Command<'_>,
    out: &mut Body,
) -> Reply
    requires ins { command.now.ins ≡ 0xAE }
    ensures said { reply_data out.new.items result ≡ spec.second_for at.now.card_blocked at.now.number first sent asked command.now.body.now at.now.app.now at.now.state.now }
    ensures leads { LeadsFor at.now.number at.now.app.now (Online at.now.number first sent) (seen_command command.now) out.new.items result }
    ensures may { MayFor at.now.number at.now.state.now result }
{
    let phase = Phase::Online {
        app: at.number,
        first,
        sent,
    };
    let app = at.app;
    let dol = cdol_of(&app.cdol2);
    if !is_of_list(&dol, command.body) {
        return refused(phase, refuse(WRONG_LENGTH, out));
    }
    if asked == Kind::Arqc {
        return refused(phase, refuse(WRONG_PARAMETERS, out));
    }
    let given = given_from(&dol, command.body, &first.given);
    let code = code_given(&dol, command.body);
    let made = second_of(at, asked, sent, code, &given);
    make_second(at, first, made, &given, command, out)
}

/// GENERATE AC, the first or the second one by the phase.
#[tactic(auto, unfolding(crate::specs::Cryptograms::generate_row, crate::specs::Session::next_phase))]
pub(crate) fn generate(at: &CardAtWork<'_>, command: &Command<'_>, out: &mut Body) -> Reply
    requires ins { command.now.ins ≡ 0xAE }
    ensures { ObeysRow spec.generate_row at.now.image.now at.now.state.now at.now.phase (seen_command command.now) out.new.items result }
{
    let Some(asked) = kind_asked(command.p1, command.p2) else {
        return refused(at.phase, refuse(WRONG_PARAMETERS, out));
    };
    match at.phase {
        Phase::Started { app } => generate_first(&at_work(at, app), asked, command, out),
        Phase::Online { app, first, sent } => {
            generate_second(&at_work(at, app), first, sent, asked, command, out)
        }
        Phase::Idle
        | Phase::Directory
        | Phase::Selected { .. }
        | Phase::Closed { .. }
        | Phase::Done { .. } => refused(at.phase, refuse(CONDITIONS_NOT_SATISFIED, out)),
    }
}
