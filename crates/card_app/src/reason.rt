//! Why GENERATE AC is answered as it is.
ghost use Rattle.std.specs.Prelude.{◌≡◌};
ghost use Rattle.apdu_core.specs.Seen.{seen_command};
ghost use Rattle.card_app.specs.Cryptograms.{sale_for};
ghost use Rattle.card_app.specs.Reasons as spec;

use crate::apps::{at_work, cdol_of};
use crate::generate::{first_of, second_of};
use crate::work::{AtWork, CardAtWork};
use apdu_core::{Command, read_command};
use card_cryptogram::{
    First, Phase, TerminalFields, auth_of, code_given, first_given, given_from, has_issuer_auth,
    is_of_list, kind_asked, sale_of,
};
use card_policy::is_declined;
use card_state::{AppState, Auth, How, Which};
use emv_dict::Kind;

/// On what a second cryptogram rests, and what issuer and profile say to that.
#[derive(Clone, Copy, PartialEq, Eq, Debug)]
pub struct Resting {
    /// On what it rests.
    pub how: How,
    /// Whether the issuer told the card to decline, by its card status update.
    pub declined: bool,
    /// Whether the profile has issuer authentication.
    pub issuer_auth: bool,
}

/// Why a cryptogram is of its kind: what was asked, and what the tests compare, in the state before the command.
#[derive(Clone, Copy, PartialEq, Eq, Debug)]
pub struct Reason {
    /// The application.
    pub app: u8,
    /// The kind that was asked for.
    pub asked: Kind,
    /// The kind that was made.
    pub made: Kind,
    /// Of a second cryptogram, on what it rests; none of a first one.
    pub second: Option<Resting>,
    /// Whether the card or the application is blocked.
    pub blocked: bool,
    /// Whether the last issuer authentication failed.
    pub auth_failed: bool,
    /// The currency of the purchase, object 5F2A.
    pub currency: [u8; 2],
    /// Which of the application's currencies that is.
    pub which: Which,
    /// How many offline approvals there were.
    pub count: u8,
    /// Their greatest number.
    pub count_limit: u8,
    /// The sum of the offline approvals in this currency; 0 where it isn't the application's.
    pub sum: u64,
    /// The amount, in the currency's least unit.
    pub amount: u64,
    /// The greatest sum of the offline approvals in this currency; 0 where it isn't the application's.
    pub sum_limit: u64,
}

/// The sum of the offline approvals in this currency, and its limit.
fn sum_and_limit(state: &AppState, which: Which) -> (u64, u64)
    ensures { result ≡ (spec.sum_kept state.now which, spec.sum_most state.now which) }
{
    match which {
        Which::One => (state.sum, state.sum_limit),
        Which::Two => (state.sum_two, state.limit_two),
        Which::Neither => (0, 0),
    }
}

/// What was asked and made, and what the tests compare.
fn reason_with(
    at: &AtWork<'_>,
    asked: Kind,
    made: Kind,
    second: Option<Resting>,
    given: &TerminalFields,
) -> Reason
    ensures { result ≡ spec.reason_with at.now.card_blocked at.now.number at.now.state.now asked made second (sale_for at.now.app.now given.now) }
{
    let app = at.app;
    let state = at.state;
    let sale = sale_of(app.currency, app.currency_two, given);
    let (sum, sum_limit) = sum_and_limit(state, sale.which);
    Reason {
        app: at.number,
        asked,
        made,
        second,
        blocked: at.card_blocked || state.blocked,
        auth_failed: state.auth_failed,
        currency: sale.currency,
        which: sale.which,
        count: state.count,
        count_limit: state.count_limit,
        sum,
        amount: sale.amount,
        sum_limit,
    }
}

/// Of the first GENERATE AC.
#[tactic(auto, unfolding(crate::specs::Reasons::first_ac_reason))]
fn first_ac_reason(at: &AtWork<'_>, asked: Kind, filled: &[u8]) -> Option<Reason>
    ensures { result ≡ spec.first_ac_reason at.now.card_blocked at.now.number asked filled.now at.now.app.now at.now.state.now }
{
    let app = at.app;
    let dol = cdol_of(&app.cdol1);
    if !is_of_list(&dol, filled) {
        return None;
    }
    let given = first_given(&dol, filled);
    let made = first_of(at, asked, &given);
    Some(reason_with(at, asked, made, None, &given))
}

/// Of the second GENERATE AC.
#[tactic(auto, unfolding(crate::specs::Reasons::second_ac_reason))]
fn second_ac_reason(
    at: &AtWork<'_>,
    first: First,
    sent: Option<Auth>,
    asked: Kind,
    filled: &[u8],
) -> Option<Reason>
    ensures { result ≡ spec.second_ac_reason at.now.card_blocked at.now.number first sent asked filled.now at.now.app.now at.now.state.now }
{
    let app = at.app;
    let dol = cdol_of(&app.cdol2);
    if !is_of_list(&dol, filled) || asked == Kind::Arqc {
        return None;
    }
    let given = given_from(&dol, filled, &first.given);
    let (made, how) = second_of(at, asked, sent, code_given(&dol, filled), &given);
    let resting = Resting {
        how,
        declined: is_declined(auth_of(sent)),
        issuer_auth: has_issuer_auth(app.aip),
    };
    Some(reason_with(at, asked, made, Some(resting), &given))
}

/// Of a command that asks for a kind of cryptogram.
fn reason_by_phase(at: &CardAtWork<'_>, asked: Kind, filled: &[u8]) -> Option<Reason>
    ensures { result ≡ spec.reason_by_phase at.now.image.now at.now.state.now at.now.phase asked filled.now }
{
    match at.phase {
        Phase::Started { app } => first_ac_reason(&at_work(at, app), asked, filled),
        Phase::Online { app, first, sent } => {
            second_ac_reason(&at_work(at, app), first, sent, asked, filled)
        }
        Phase::Idle
        | Phase::Directory
        | Phase::Selected { .. }
        | Phase::Closed { .. }
        | Phase::Done { .. } => None,
    }
}

/// Of a command.
#[tactic(auto, unfolding(crate::specs::Reasons::command_reason))]
fn command_reason(at: &CardAtWork<'_>, command: &Command<'_>) -> Option<Reason>
    ensures { result ≡ spec.command_reason at.now.image.now at.now.state.now at.now.phase (seen_command command.now) }
{
    if command.class != 0x80 || command.ins != 0xae {
        return None;
    }
    let asked = kind_asked(command.p1, command.p2)?;
    reason_by_phase(at, asked, command.body)
}

/// Why the cryptogram that any bytes would have made is of its kind; none where they would make none.
#[tactic(auto, unfolding(crate::specs::Reasons::reason_in_phase))]
pub(crate) fn reason_of(at: &CardAtWork<'_>, command: &[u8]) -> Option<Reason>
    ensures { result ≡ spec.reason_in_phase at.now.image.now at.now.state.now at.now.phase command.now }
{
    match read_command(command) {
        Ok(command) => command_reason(at, &command),
        Err(_) => None,
    }
}
