//! Card risk management: which cryptogram a card answers to GENERATE AC (EMV 4.3 Book 3 section 10.8;
//! the policy is this project's own).
#![tactic(auto)]

ghost use Rattle.std.specs.Prelude.{◌≡◌, ◌≢◌, ◌↔◌, ◌+◌, ◌≤◌, ◌&&◌, ◌||◌, nat_le, IsTrue, true, false, if◌then◌else◌};
ghost use Rattle.emv_dict.specs.declared.ending.Kind.TheVariants.{Aac, Tc, Arqc};
ghost use Rattle.emv_dict.specs.Kinds.{is_above};
ghost use Rattle.card_state.specs.Change.{IsWithinLimit, MayDecide};
ghost use Rattle.card_state.specs.declared.decision.How.TheVariants.{Authenticated as ByIssuer, Held, Offline};
ghost use Rattle.card_state.specs.declared.decision.Sale.{Sale as SaleOf};
ghost use Rattle.card_state.specs.declared.decision.Decision.TheVariants.{Started, First, Second};
ghost use Rattle.card_policy.specs.Policy as spec;
ghost use Rattle.card_policy.specs.Policy.{ApprovesAlone, decline_of, first_kind, is_absent, second_kind};

use card_state::{AppState, How};
pub use card_state::{Auth, Which};
use emv_dict::Kind;

/// The authorisation response code of a terminal that was unable to go online and would approve (EMV
/// 4.3 Book 4 Annex A6).
pub const UNABLE_TO_GO_ONLINE: [u8; 2] = *b"Y3";

/// What came of the way to the issuer before the second GENERATE AC.
#[derive(Clone, Copy)]
pub struct OnlineResult {
    /// How the issuer was authenticated in this transaction.
    pub auth: Auth,
    /// The authorisation response code.
    pub code: [u8; 2],
    /// Whether the application interchange profile has issuer authentication.
    pub issuer_auth: bool,
}

/// Whether a transaction may start: neither the card nor the application is blocked, and a transaction
/// counter is left.
pub fn may_start(state: &AppState, card_blocked: bool) -> bool
    ensures exact { result ≡ spec.may_start state.now card_blocked }
    ensures allowed { IsTrue result → MayDecide state.now Started }
{
    !(card_blocked || state.blocked) && state.counter < u16::MAX
}

/// The kind of the first cryptogram where `asked` is asked for, in this state of the application: never
/// above it. A blocked card or application declines. `which` tells in which of the application's currencies
/// the purchase is; `amount` is in the currency's least unit.
#[tactic(auto, unfolding(crate::specs::Policy::first_kind))]
pub fn first(asked: Kind, state: &AppState, card_blocked: bool, which: Which, amount: u64) -> Kind
    ensures exact { result ≡ first_kind asked state.now card_blocked which amount }
    ensures allowed { (sale : SaleOf) → sale.which ≡ which → sale.amount ≡ amount
        → MayDecide state.now (First result sale) }
    ensures blocked { IsTrue (card_blocked || state.now.blocked) → result ≡ Aac }
    ensures approved { result ≡ Tc → ApprovesAlone state.now which amount }
    ensures not_above { is_above result asked ≡ false }
{
    match asked {
        Kind::Aac => Kind::Aac,
        Kind::Arqc => unless_blocked(state, card_blocked, Kind::Arqc),
        Kind::Tc => unless_blocked(state, card_blocked, alone(state, which, amount, Kind::Arqc)),
    }
}

/// This kind, or AAC where the card or the application is blocked.
fn unless_blocked(state: &AppState, card_blocked: bool, kind: Kind) -> Kind
    ensures { result ≡ (if spec.is_blocked state.now card_blocked then Aac else kind) }
{
    if card_blocked || state.blocked {
        Kind::Aac
    } else {
        kind
    }
}

/// TC where the card approves without its issuer, else another kind.
fn alone(state: &AppState, which: Which, amount: u64, other: Kind) -> Kind
    ensures exact { result ≡ (if spec.approves state.now which amount then Tc else other) }
    ensures approved { other ≢ Tc → result ≡ Tc → ApprovesAlone state.now which amount }
{
    if approves(state, which, amount) {
        Kind::Tc
    } else {
        other
    }
}

/// Whether the card approves without its issuer: the last issuer authentication did not fail, the
/// amount is in one of the card's currencies, and one more approval of it is within the limits.
pub fn approves(state: &AppState, which: Which, amount: u64) -> bool
    ensures exact { result ≡ spec.approves state.now which amount }
    ensures alone { IsTrue result ↔ ApprovesAlone state.now which amount }
{
    !state.auth_failed && is_within_limits(state, which, amount)
}

/// Whether one more offline approval of this amount is within the limits.
fn is_within_limits(state: &AppState, which: Which, amount: u64) -> bool
    ensures exact { result ≡ spec.is_within_limits state.now which amount }
    ensures limits { IsTrue result
        ↔ ((state.now.count + 1 ≤ state.now.count_limit) × IsWithinLimit state.now which amount) }
{
    state.count < state.count_limit && is_sum_within(state, which, amount)
}

/// Whether one more offline approval of this amount keeps the sum of its currency within its limit.
fn is_sum_within(state: &AppState, which: Which, amount: u64) -> bool
    ensures exact { result ≡ spec.is_sum_within state.now which amount }
    ensures within { IsTrue result ↔ IsWithinLimit state.now which amount }
{
    match which {
        Which::One => is_within(state.sum, amount, state.sum_limit),
        Which::Two => is_within(state.sum_two, amount, state.limit_two),
        Which::Neither => false,
    }
}

/// Whether a sum with one amount more is within its limit.
fn is_within(sum: u64, amount: u64, limit: u64) -> bool
    ensures exact { result ≡ nat_le (sum + amount) limit }
    ensures within { IsTrue result ↔ (sum + amount ≤ limit) }
{
    sum <= limit && amount <= limit - sum
}

/// The kind of the second cryptogram where `asked` is asked for, and on what it rests. A card that is
/// blocked, isn't asked for TC or is told by its issuer to decline declines. `online` tells what came of the way
/// to the issuer; the rest is as for `first`.
#[tactic(auto, unfolding(crate::specs::Policy::second_kind))]
pub fn second(
    asked: Kind,
    state: &AppState,
    card_blocked: bool,
    which: Which,
    amount: u64,
    online: OnlineResult,
) -> (Kind, How)
    ensures exact { result
        ≡ second_kind asked state.now card_blocked which amount online.auth online.code online.issuer_auth }
    ensures allowed { (sale : SaleOf) → sale.which ≡ which → sale.amount ≡ amount
        → MayDecide state.now (Second result.0 result.1 sale) }
    ensures blocked { IsTrue (card_blocked || state.now.blocked) → result.0 ≡ Aac }
    ensures declined { spec.is_declined_by_status online.auth ≡ true → result.0 ≡ Aac }
    ensures online { is_absent online.auth ≡ false → result.1 ≡ spec.online_how online.auth }
    ensures alone { is_absent online.auth ≡ true → (result.1 ≢ ByIssuer) × (result.1 ≢ Held) }
    ensures approved { result.0 ≡ Tc → result.1 ≡ Offline → ApprovesAlone state.now which amount }
    ensures not_above { is_above result.0 asked ≡ false }
    ensures decides { result.0 ≢ Arqc }
{
    if asked != Kind::Tc || (card_blocked || state.blocked) {
        return declined(online.auth);
    }
    if is_declined(online.auth) {
        return declined(online.auth);
    }
    if !is_absent(online.auth) {
        return (Kind::Tc, online_how(online.auth));
    }
    if online.code == UNABLE_TO_GO_ONLINE {
        return (alone(state, which, amount, Kind::Aac), How::Offline);
    }
    (unauthenticated(online.issuer_auth), How::Alone)
}

/// A second cryptogram that declines.
fn declined(auth: Auth) -> (Kind, How)
    ensures { result ≡ decline_of auth }
{
    (Kind::Aac, online_how(auth))
}

/// Whether no EXTERNAL AUTHENTICATE was right.
fn is_absent(auth: Auth) -> bool
    ensures { result ≡ spec.is_absent auth }
{
    match auth {
        Auth::Absent => true,
        Auth::One => false,
        Auth::Two(_) => false,
    }
}

/// Whether the issuer declines by its card status update: b8 of the first byte is 0.
pub fn is_declined(auth: Auth) -> bool
    ensures { result ≡ spec.is_declined_by_status auth }
{
    match auth {
        Auth::Absent => false,
        Auth::One => false,
        Auth::Two(status) => status[0] / 128 != 1,
    }
}

/// On what a second cryptogram rests by the issuer's authentication: a card status update resets the totals with
/// b8 of its second byte.
fn online_how(auth: Auth) -> How
    ensures { result ≡ spec.online_how auth }
{
    match auth {
        Auth::Absent => How::Alone,
        Auth::One => How::Authenticated,
        Auth::Two(status) => {
            if status[1] / 128 == 1 {
                How::Authenticated
            } else {
                How::Held
            }
        }
    }
}

/// AAC where the issuer should have been authenticated, else TC.
fn unauthenticated(issuer_auth: bool) -> Kind
    ensures { result ≡ spec.unauthenticated issuer_auth }
{
    if issuer_auth { Kind::Aac } else { Kind::Tc }
}
