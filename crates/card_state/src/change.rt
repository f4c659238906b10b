ghost use Rattle.std.specs.Prelude.{◌≡◌, ◌+◌, ◌^◌, ◌<◌, ◌≤◌, [], ◌∷◌, ◌++◌, List, length, take, slice_get, slice_set, Some, unwrap_or, ◌||◌};
ghost use Rattle.std.specs.Option.{ForSome};
ghost use Rattle.card_state.specs.declared.state.AppState.{AppState as App};
ghost use Rattle.card_state.specs.declared.state.CardState.{CardState as Card};
ghost use Rattle.card_state.specs.Allowed.{Allowed};
ghost use Rattle.card_state.specs.Totals.{totals};
ghost use Rattle.card_state.specs.declared.decision.Decision.TheVariants.{Authenticated, First, Script, Second};
ghost use Rattle.card_state.specs.Change.{changed as changed_state, logged, MayDecide, sum_with, WithinLimits};
ghost use Rattle.card_state.specs.Decisions.{Decided, amount_in, blocks_app as blocks_in, blocks_card, blocks_whole as blocks_whole_in, is_one, is_two, restores as restores_in, log_row, tries_steered};
ghost use Rattle.card_state.specs.Encoding.{AreBytesOf, HasShortLogs};
ghost use Rattle.emv_dict.specs.Kinds.{kind_byte};
ghost use Rattle.card_state.specs.Fits.{FitsFields, FitsSale};

use crate::decision::{Decision, How, Sale, Scripted, Steered, Which};
use crate::state::{AppState, CardState, LogRow};
use arrayvec::ArrayVec;
use emv_dict::Kind;

/// Takes one more decision of an application, which its state has to allow: where the state was the
/// totals of a list of decisions, it is then the totals of the list with this decision at its end.
pub fn apply(state: &mut CardState, app: u8, decision: &Decision)
    requires in_range { app < length state.old.apps.items }
    requires allowed { ForSome (slice_get state.old.apps.items app) (λ s. MayDecide s decision.now) }
    requires short { ForSome (slice_get state.old.apps.items app) (λ s. s.log_max ≤ 10) }
    ensures totals { (opening : Card) (ds : List Decided) → state.old ≡ totals opening ds
        → state.new ≡ totals opening (ds ++ record { app = app; decision = decision.now } ∷ []) }
    ensures allowed { (opening : Card) (ds : List Decided) → state.old ≡ totals opening ds → Allowed opening ds
        → Allowed opening (ds ++ record { app = app; decision = decision.now } ∷ []) }
    ensures card { state.new.blocked ≡ (state.old.blocked || blocks_card decision.now) }
    ensures app { (s : App) → slice_get state.old.apps.items app ≡ Some s
        → state.new.apps.items ≡ slice_set state.old.apps.items app (changed_state s decision.now) }
    ensures fits { FitsFields decision.now }
    ensures short { HasShortLogs state.old → HasShortLogs state.new }
{
    change(state, app, decision);
}

/// Changes the application's state, and the card's where the decision blocks it.
fn change(state: &mut CardState, app: u8, decision: &Decision)
    requires in_range { app < length state.old.apps.items }
    requires allowed { ForSome (slice_get state.old.apps.items app) (λ s. MayDecide s decision.now) }
    requires short { ForSome (slice_get state.old.apps.items app) (λ s. s.log_max ≤ 10) }
    ensures card { state.new.blocked ≡ (state.old.blocked || blocks_card decision.now) }
    ensures app { (s : App) → slice_get state.old.apps.items app ≡ Some s
        → state.new.apps.items ≡ slice_set state.old.apps.items app (changed_state s decision.now) }
    ensures fits { FitsFields decision.now }
{
    let index = usize::from(app);
    state.blocked = is_blocked_after(state.blocked, decision);
    state.apps[index] = changed(&state.apps[index], decision);
}

/// Whether the card as a whole is blocked after the decision.
fn is_blocked_after(blocked: bool, decision: &Decision) -> bool
    ensures { result ≡ (blocked || blocks_card decision.now) }
{
    blocked
        || match decision {
            Decision::Script(Scripted::CardBlock) => true,
            Decision::Authenticated {
                steered: Some(steered),
                ..
            } => blocks_whole(steered),
            _ => false,
        }
}

/// The state of an application after one more decision, which it has to allow.
pub fn changed(app: &AppState, decision: &Decision) -> AppState
    requires allowed { MayDecide app.now decision.now }
    requires short { app.now.log_max ≤ 10 }
    ensures changed { result ≡ changed_state app.now decision.now }
    ensures fits { FitsFields decision.now }
{
    match decision {
        Decision::Started => AppState {
            counter: app.counter + 1,
            ..app.copy()
        },
        Decision::PinTry => AppState {
            tries: app.tries - 1,
            ..app.copy()
        },
        Decision::PinRight { limit } => AppState {
            tries: *limit,
            ..app.copy()
        },
        Decision::First { kind, sale } => first(app, *kind, sale),
        Decision::Authenticated { right, steered } => authenticated(app, *right, steered),
        Decision::Script(command) => scripted(app, command),
        Decision::Second { kind, how, sale } => second(app, *kind, *how, sale),
    }
}

/// The state after a first cryptogram.
fn first(app: &AppState, kind: Kind, sale: &Sale) -> AppState
    requires allowed { MayDecide app.now (First kind sale.now) }
    requires short { app.now.log_max ≤ 10 }
    ensures changed { result ≡ changed_state app.now (First kind sale.now) }
    ensures fits { FitsSale sale.now }
{
    let row = row_of(app.counter, kind, sale);
    match kind {
        Kind::Tc => with_row(with_approval(app, sale), row),
        Kind::Aac => with_row(app.copy(), row),
        Kind::Arqc => app.copy(),
    }
}

/// The state after a second cryptogram.
fn second(app: &AppState, kind: Kind, how: How, sale: &Sale) -> AppState
    requires allowed { MayDecide app.now (Second kind how sale.now) }
    requires short { app.now.log_max ≤ 10 }
    ensures changed { result ≡ changed_state app.now (Second kind how sale.now) }
    ensures fits { FitsSale sale.now }
{
    let row = row_of(app.counter, kind, sale);
    match (how, kind) {
        (How::Authenticated, _) => with_row(reset(app), row),
        (How::Held, _) => with_row(
            AppState {
                last_online: app.counter,
                ..app.copy()
            },
            row,
        ),
        (How::Offline, Kind::Tc) => with_row(with_approval(app, sale), row),
        (How::Offline, _) => with_row(app.copy(), row),
        (How::Alone, _) => with_row(app.copy(), row),
    }
}

/// The state behind a second cryptogram that resets the totals, without its row.
fn reset(app: &AppState) -> AppState
    ensures { result ≡ record app.now { last_online = app.now.counter; count = 0; sum = 0; sum_two = 0 } }
{
    AppState {
        last_online: app.counter,
        count: 0,
        sum: 0,
        sum_two: 0,
        ..app.copy()
    }
}

/// The state after one more offline approval, without its row.
fn with_approval(app: &AppState, sale: &Sale) -> AppState
    requires { WithinLimits app.now sale.now }
    ensures { result ≡ record app.now {
      count = app.now.count + 1;
      sum = sum_with app.now.sum (amount_in is_one (Some sale.now));
      sum_two = sum_with app.now.sum_two (amount_in is_two (Some sale.now));
    } }
{
    let count = app.count + 1;
    match sale.which {
        Which::One => AppState {
            count,
            sum: more(app.sum, sale.amount, app.sum_limit),
            ..app.copy()
        },
        Which::Two => AppState {
            count,
            sum_two: more(app.sum_two, sale.amount, app.limit_two),
            ..app.copy()
        },
        Which::Neither => unreachable!(),
    }
}

/// A sum with one amount more, which its limit allows.
fn more(sum: u64, amount: u64, limit: u64) -> u64
    requires { sum + amount ≤ limit }
    ensures { result ≡ sum + amount }
{
    sum + amount
}

/// The row of a sale in the transaction log.
fn row_of(counter: u16, kind: Kind, sale: &Sale) -> LogRow
    ensures is { result ≡ log_row counter kind sale.now }
    ensures fits { FitsSale sale.now }
{
    row_with(counter, kind, sale.raw, sale.currency, sale.date)
}

/// The row of these fields.
fn row_with(counter: u16, kind: Kind, raw: [u8; 6], currency: [u8; 2], date: [u8; 3]) -> LogRow
    ensures is { result ≡ record { raw = raw; currency = currency; date = date; counter = counter; kind = kind_byte kind } }
    ensures raw { AreBytesOf 6 raw }
    ensures currency { AreBytesOf 2 currency }
    ensures date { AreBytesOf 3 date }
{
    LogRow {
        raw,
        currency,
        date,
        counter,
        kind: kind.byte(),
    }
}

/// The state with one more row in front of its log.
fn with_row(app: AppState, row: LogRow) -> AppState
    requires { app.log_max ≤ 10 }
    ensures { result ≡ record app { log = record { items = logged app.log_max app.log.items (Some row) } } }
{
    let mut app = app;
    put_row(&mut app.log, app.log_max, row);
    app
}

/// Puts a row in front of a log that keeps at most so many.
fn put_row(log: &mut ArrayVec<LogRow, 10>, most: u8, row: LogRow)
    requires { most ≤ 10 }
    ensures { log.new.items ≡ take most (row ∷ log.old.items) }
{
    if most == 0 {
        log.clear();
    } else {
        log.truncate(usize::from(most) - 1);
        log.insert(0, row);
    }
}

/// The state after an answer to EXTERNAL AUTHENTICATE.
fn authenticated(app: &AppState, right: bool, steered: &Option<Steered>) -> AppState
    ensures changed { result ≡ changed_state app.now (Authenticated right steered.now) }
    ensures fits { FitsFields (Authenticated right steered.now) }
{
    match steered {
        Some(by) => AppState {
            auth_failed: !right,
            blocked: blocks(by) || app.blocked,
            tries: tries_behind(by, app.tries),
            ..app.copy()
        },
        None => AppState {
            auth_failed: !right,
            ..app.copy()
        },
    }
}

/// The PIN tries that a steering leaves of these.
fn tries_behind(by: &Steered, tries: u8) -> u8
    ensures tries { result ≡ unwrap_or (tries_steered (Some by.now)) tries }
    ensures fits { by.now.limit < 2 ^ 8 }
{
    let limit = by.limit;
    if restores(by) { limit } else { tries }
}

/// Whether the steering blocks the application.
fn blocks(by: &Steered) -> bool
    ensures { result ≡ blocks_in by.now }
{
    by.status[1] / 64 % 2 == 1
}

/// Whether it blocks the card as a whole.
fn blocks_whole(by: &Steered) -> bool
    ensures { result ≡ blocks_whole_in by.now }
{
    by.status[1] / 32 % 2 == 1
}

/// Whether it restores the PIN tries.
fn restores(by: &Steered) -> bool
    ensures { result ≡ restores_in by.now }
{
    by.status[1] / 16 % 2 == 1
}

/// The state with a new PIN, whose tries are restored to the limit.
fn with_pin(app: &AppState, pin: [u8; 8], limit: u8) -> AppState
    ensures changed { result ≡ record app.now { tries = limit; pin = pin } }
    ensures limit { limit < 2 ^ 8 }
    ensures bytes { AreBytesOf 8 pin }
{
    AppState {
        tries: limit,
        pin,
        ..app.copy()
    }
}

/// The state after an issuer's script command.
fn scripted(app: &AppState, command: &Scripted) -> AppState
    ensures changed { result ≡ changed_state app.now (Script command.now) }
    ensures fits { FitsFields (Script command.now) }
{
    match command {
        Scripted::Block => AppState {
            blocked: true,
            ..app.copy()
        },
        Scripted::Unblock => AppState {
            blocked: false,
            ..app.copy()
        },
        Scripted::CardBlock => app.copy(),
        Scripted::PinUnblock { limit } => AppState {
            tries: *limit,
            ..app.copy()
        },
        Scripted::PinChange { pin, limit } => with_pin(app, *pin, *limit),
        Scripted::Count(limit) => AppState {
            count_limit: *limit,
            ..app.copy()
        },
        Scripted::Sum(limit) => AppState {
            sum_limit: *limit,
            ..app.copy()
        },
    }
}
