//! What decisions make of a card.
ghost use Rattle.std.specs.Prelude.{◌≤◌, IsTrue};
ghost use Rattle.card_state.specs.Change.{MayDecide, WithinLimits};

use arrayvec::ArrayVec;
use card_state::{
    AppState, CardState, Decision, How, LogRow, Sale, Scripted, Steered, Which, apply,
};
use emv_dict::Kind;
use std::process::Abort;

const PIN_1234: [u8; 8] = [0x24, 0x12, 0x34, 0xFF, 0xFF, 0xFF, 0xFF, 0xFF];

const PIN_99999: [u8; 8] = [0x25, 0x99, 0x99, 0x9F, 0xFF, 0xFF, 0xFF, 0xFF];

/// What an application's state counts, without its log.
#[derive(Clone, Copy, PartialEq, Eq)]
pub struct Counts {
    pub counter: u16,
    pub last_online: u16,
    pub count: u8,
    pub sum: u64,
    pub sum_two: u64,
    pub count_limit: u8,
    pub sum_limit: u64,
    pub tries: u8,
    pub blocked: bool,
    pub auth_failed: bool,
    pub pin: [u8; 8],
}

pub const OPENED: Counts = Counts {
    counter: 10,
    last_online: 9,
    count: 0,
    sum: 0,
    sum_two: 0,
    count_limit: 5,
    sum_limit: 20000,
    tries: 3,
    blocked: false,
    auth_failed: false,
    pin: PIN_1234,
};

/// A state with these counts, a limit of 30.00 in its second currency, and a log of at most three rows.
pub(crate) fn app_of(counts: Counts) -> AppState {
    let pin = counts.pin;
    AppState {
        counter: counts.counter,
        last_online: counts.last_online,
        count: counts.count,
        sum: counts.sum,
        count_limit: counts.count_limit,
        sum_limit: counts.sum_limit,
        tries: counts.tries,
        blocked: counts.blocked,
        auth_failed: counts.auth_failed,
        pin,
        sum_two: counts.sum_two,
        limit_two: 3000,
        log_max: 3,
        log: ArrayVec::new(),
    }
}

/// What a state counts.
fn counts_of(app: &AppState) -> Counts {
    Counts {
        counter: app.counter,
        last_online: app.last_online,
        count: app.count,
        sum: app.sum,
        sum_two: app.sum_two,
        count_limit: app.count_limit,
        sum_limit: app.sum_limit,
        tries: app.tries,
        blocked: app.blocked,
        auth_failed: app.auth_failed,
        pin: app.pin,
    }
}

/// A card of two like applications.
fn opening() -> CardState {
    let mut apps = ArrayVec::new();
    apps.push(app_of(OPENED));
    apps.push(app_of(OPENED));
    CardState {
        blocked: false,
        apps,
    }
}

/// Whether the state allows the decision.
fn is_allowed(app: &AppState, decision: &Decision) -> bool
    ensures { IsTrue result → MayDecide app.now decision.now }
{
    match decision {
        Decision::Started => app.counter < 65535,
        Decision::PinTry => app.tries > 0,
        Decision::First {
            kind: Kind::Tc,
            sale,
        } => is_within(app, sale),
        Decision::Second {
            kind: Kind::Tc,
            how: How::Offline,
            sale,
        } => is_within(app, sale),
        _ => true,
    }
}

/// Whether one more offline approval is within the limits.
fn is_within(app: &AppState, sale: &Sale) -> bool
    ensures { IsTrue result → WithinLimits app.now sale.now }
{
    if app.count >= app.count_limit {
        return false;
    }
    match sale.which {
        Which::One => app.sum <= app.sum_limit && sale.amount <= app.sum_limit - app.sum,
        Which::Two => app.sum_two <= app.limit_two && sale.amount <= app.limit_two - app.sum_two,
        Which::Neither => false,
    }
}

/// Whether the log has at most ten rows by its limit.
fn is_short(app: &AppState) -> bool
    ensures { IsTrue result → app.now.log_max ≤ 10 }
{
    app.log_max <= 10
}

/// Takes the decision, or stops where the state doesn't allow it.
fn take(rt: &impl Abort, state: &mut CardState, app: u8, decision: &Decision) {
    match state.apps.get(usize::from(app)) {
        Some(found) => {
            assert!(rt; is_allowed(found, decision));
            assert!(rt; is_short(found));
        }
        None => panic!(rt; "no such application"),
    }
    apply(state, app, decision);
}

/// A sale of 1.00 on 15 June 2024, in the application's currency.
const SALE: Sale = Sale {
    amount: 100,
    raw: [0, 0, 0, 0, 0x01, 0x00],
    currency: [0x08, 0x40],
    date: [0x24, 0x06, 0x15],
    which: Which::One,
};

/// One of 25.00.
pub const SALE_2500: Sale = Sale {
    amount: 2500,
    raw: [0, 0, 0, 0, 0x25, 0x00],
    ..SALE
};

/// One of 25.00 in the second currency.
const SALE_TWO: Sale = Sale {
    currency: [0x09, 0x78],
    which: Which::Two,
    ..SALE_2500
};

const STARTED: Decision = Decision::Started;

const TRY: Decision = Decision::PinTry;

const ONLINE: Decision = Decision::First {
    kind: Kind::Arqc,
    sale: SALE,
};

const APPROVED: Decision = Decision::First {
    kind: Kind::Tc,
    sale: SALE_2500,
};

const APPROVED_TWO: Decision = Decision::First {
    kind: Kind::Tc,
    sale: SALE_TWO,
};

const REFUSED: Decision = Decision::First {
    kind: Kind::Aac,
    sale: SALE,
};

const FINISHED: Decision = Decision::Second {
    kind: Kind::Tc,
    how: How::Authenticated,
    sale: SALE,
};

const HELD: Decision = Decision::Second {
    kind: Kind::Aac,
    how: How::Held,
    sale: SALE,
};

const OFFLINE: Decision = Decision::Second {
    kind: Kind::Tc,
    how: How::Offline,
    sale: SALE,
};

const DECLINED: Decision = Decision::Second {
    kind: Kind::Aac,
    how: How::Offline,
    sale: SALE,
};

const ALONE: Decision = Decision::Second {
    kind: Kind::Tc,
    how: How::Alone,
    sale: SALE,
};

const RIGHT_PIN: Decision = Decision::PinRight { limit: 3 };

const CHANGE: Decision = Decision::Script(Scripted::PinChange {
    pin: PIN_99999,
    limit: 5,
});

const RIGHT: Decision = Decision::Authenticated {
    right: true,
    steered: None,
};

const WRONG: Decision = Decision::Authenticated {
    right: false,
    steered: None,
};

/// Decisions of one application, and what its state counts behind them, worked out by hand.
const HISTORIES: [(&[Decision], Counts); 10] = [
    (&[], OPENED),
    (
        &[STARTED, TRY, RIGHT_PIN, APPROVED],
        Counts {
            counter: 11,
            count: 1,
            sum: 2500,
            ..OPENED
        },
    ),
    (
        &[
            STARTED,
            APPROVED_TWO,
            APPROVED,
            STARTED,
            ONLINE,
            RIGHT,
            FINISHED,
            STARTED,
            APPROVED,
            APPROVED_TWO,
        ],
        Counts {
            counter: 13,
            last_online: 12,
            count: 2,
            sum: 2500,
            sum_two: 2500,
            ..OPENED
        },
    ),
    (
        &[STARTED, APPROVED, STARTED, ONLINE, RIGHT, HELD],
        Counts {
            counter: 12,
            last_online: 12,
            count: 1,
            sum: 2500,
            ..OPENED
        },
    ),
    (
        &[STARTED, ONLINE, OFFLINE],
        Counts {
            counter: 11,
            count: 1,
            sum: 100,
            ..OPENED
        },
    ),
    (
        &[STARTED, ONLINE, DECLINED, STARTED, ONLINE, ALONE],
        Counts {
            counter: 12,
            ..OPENED
        },
    ),
    (
        &[STARTED, TRY, TRY, CHANGE, TRY],
        Counts {
            counter: 11,
            tries: 4,
            pin: PIN_99999,
            ..OPENED
        },
    ),
    (
        &[
            TRY,
            TRY,
            Decision::Script(Scripted::PinUnblock { limit: 2 }),
        ],
        Counts { tries: 2, ..OPENED },
    ),
    (
        &[
            STARTED,
            ONLINE,
            WRONG,
            Decision::Script(Scripted::Count(9)),
            Decision::Script(Scripted::Sum(77)),
        ],
        Counts {
            counter: 11,
            auth_failed: true,
            count_limit: 9,
            sum_limit: 77,
            ..OPENED
        },
    ),
    (
        &[
            WRONG,
            RIGHT,
            Decision::Script(Scripted::Block),
            Decision::Script(Scripted::Unblock),
        ],
        OPENED,
    ),
];

/// Whether the card's two applications count so, and whether it is blocked.
fn stands(state: &CardState, wanted: [Counts; 2], blocked: bool) -> bool {
    let [first, second] = wanted;
    match state.apps.as_slice() {
        [one, other] => {
            counts_of(one) == first && counts_of(other) == second && state.blocked == blocked
        }
        _ => false,
    }
}

#[test]
fn totals_are_those_worked_out_by_hand(rt: HostRuntime) {
    for (number, row) in HISTORIES.iter().enumerate() {
        let (decisions, want) = *row;
        let mut state = opening();
        for decision in decisions {
            take(&rt, &mut state, 0, decision);
        }
        assert!(rt; stands(&state, [want, OPENED], false), "history {number}");
    }
}

/// The second byte of a card status update, and what it leaves of three tries where it restores five: the tries,
/// whether the application is blocked, and whether the card is.
const STEERINGS: [(u8, u8, bool, bool); 5] = [
    (0x8F, 2, false, false),
    (0x40, 2, true, false),
    (0x20, 2, false, true),
    (0x10, 5, false, false),
    (0xFF, 5, true, true),
];

#[test]
fn a_steering_does_what_its_bits_say(rt: HostRuntime) {
    for row in &STEERINGS {
        let (byte, tries, blocked, card) = *row;
        let steered = Some(Steered {
            status: [0xFF, byte, 0xFF, 0xFF],
            limit: 5,
        });
        let mut state = opening();
        take(&rt, &mut state, 1, &TRY);
        let right = Decision::Authenticated {
            right: true,
            steered,
        };
        take(&rt, &mut state, 1, &right);
        let want = Counts {
            tries,
            blocked,
            ..OPENED
        };
        assert!(rt; stands(&state, [OPENED, want], card), "{byte}");
    }
}

/// The row of a sale.
pub(crate) fn row(counter: u16, kind: u8, sale: Sale) -> LogRow {
    let Sale {
        raw,
        currency,
        date,
        ..
    } = sale;
    LogRow {
        raw,
        currency,
        date,
        counter,
        kind,
    }
}

#[test]
fn a_log_has_its_latest_rows(rt: HostRuntime) {
    let mut state = opening();
    for decision in [
        STARTED,
        REFUSED,
        STARTED,
        ONLINE,
        FINISHED,
        STARTED,
        APPROVED,
        STARTED,
        APPROVED_TWO,
    ] {
        take(&rt, &mut state, 0, &decision);
    }
    let want = [
        row(14, 0x40, SALE_TWO),
        row(13, 0x40, SALE_2500),
        row(12, 0x40, SALE),
    ];
    let is_kept = match state.apps.get(0) {
        Some(app) => app.log.as_slice() == want.as_slice(),
        None => false,
    };
    assert!(rt; is_kept);
}
