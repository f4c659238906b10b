//! Which kind of cryptogram a card decides for.
use card_policy::{Auth, OnlineResult, Which, first, second};
use card_state::{AppState, How};
use emv_dict::Kind;

/// An application with one approval left of its count, 500 left of its sum, and 300 of the one in its second
/// currency.
const NEAR: Counts = Counts {
    count: 4,
    count_limit: 5,
    sum: 19_500,
    sum_limit: 20_000,
    sum_two: 2_700,
    limit_two: 3_000,
    blocked: false,
    auth_failed: false,
};

/// What the policy looks at in an application's state.
#[derive(Clone, Copy)]
struct Counts {
    count: u8,
    count_limit: u8,
    sum: u64,
    sum_limit: u64,
    sum_two: u64,
    limit_two: u64,
    blocked: bool,
    auth_failed: bool,
}

/// A state with these counts.
fn state_of(counts: Counts) -> AppState {
    AppState {
        counter: 11,
        last_online: 9,
        count: counts.count,
        count_limit: counts.count_limit,
        sum: counts.sum,
        sum_limit: counts.sum_limit,
        sum_two: counts.sum_two,
        limit_two: counts.limit_two,
        blocked: counts.blocked,
        auth_failed: counts.auth_failed,
        tries: 3,
        ..AppState::default()
    }
}

/// What is asked, the state, whether the card is blocked, the currency, the amount, and the kind by the written policy.
const FIRSTS: [(Kind, Counts, bool, Which, u64, Kind); 16] = [
    (Kind::Tc, NEAR, false, Which::One, 500, Kind::Tc),
    (Kind::Tc, NEAR, false, Which::One, 501, Kind::Arqc),
    (Kind::Tc, NEAR, false, Which::Neither, 500, Kind::Arqc),
    (Kind::Tc, NEAR, true, Which::One, 500, Kind::Aac),
    (
        Kind::Tc,
        Counts {
            blocked: true,
            ..NEAR
        },
        false,
        Which::One,
        500,
        Kind::Aac,
    ),
    (
        Kind::Tc,
        Counts {
            auth_failed: true,
            ..NEAR
        },
        false,
        Which::One,
        500,
        Kind::Arqc,
    ),
    (
        Kind::Tc,
        Counts { count: 5, ..NEAR },
        false,
        Which::One,
        0,
        Kind::Arqc,
    ),
    (
        Kind::Tc,
        Counts {
            count: 255,
            count_limit: 255,
            ..NEAR
        },
        false,
        Which::One,
        0,
        Kind::Arqc,
    ),
    (
        Kind::Tc,
        Counts {
            sum: 20_001,
            ..NEAR
        },
        false,
        Which::One,
        0,
        Kind::Arqc,
    ),
    (
        Kind::Tc,
        Counts {
            sum: u64::MAX,
            sum_limit: u64::MAX,
            ..NEAR
        },
        false,
        Which::One,
        1,
        Kind::Arqc,
    ),
    (Kind::Tc, NEAR, false, Which::Two, 300, Kind::Tc),
    (Kind::Tc, NEAR, false, Which::Two, 301, Kind::Arqc),
    (
        Kind::Tc,
        Counts { count: 5, ..NEAR },
        false,
        Which::Two,
        1,
        Kind::Arqc,
    ),
    (Kind::Arqc, NEAR, false, Which::One, 0, Kind::Arqc),
    (Kind::Arqc, NEAR, true, Which::One, 0, Kind::Aac),
    (Kind::Aac, NEAR, false, Which::One, 0, Kind::Aac),
];

#[test]
fn first_cryptograms_by_the_policy(rt: HostRuntime) {
    for (number, row) in FIRSTS.iter().enumerate() {
        let (asked, counts, blocked, which, amount, wanted) = *row;
        let made = first(asked, &state_of(counts), blocked, which, amount);
        assert!(rt; made == wanted, "row {number}");
    }
}

/// What is asked, the state, whether the card is blocked, the amount, how the issuer was
/// authenticated, the response code, whether the profile has issuer authentication, and the cryptogram by
/// the written policy.
const SECONDS: [(Kind, Counts, bool, u64, Auth, [u8; 2], bool, (Kind, How)); 17] = [
    (
        Kind::Tc,
        NEAR,
        false,
        900,
        Auth::One,
        *b"00",
        true,
        (Kind::Tc, How::Authenticated),
    ),
    (
        Kind::Tc,
        NEAR,
        false,
        900,
        Auth::One,
        *b"Y3",
        true,
        (Kind::Tc, How::Authenticated),
    ),
    (
        Kind::Tc,
        NEAR,
        false,
        500,
        Auth::Absent,
        *b"Y3",
        true,
        (Kind::Tc, How::Offline),
    ),
    (
        Kind::Tc,
        NEAR,
        false,
        501,
        Auth::Absent,
        *b"Y3",
        false,
        (Kind::Aac, How::Offline),
    ),
    (
        Kind::Tc,
        NEAR,
        false,
        500,
        Auth::Absent,
        *b"00",
        true,
        (Kind::Aac, How::Alone),
    ),
    (
        Kind::Tc,
        NEAR,
        false,
        900,
        Auth::Absent,
        *b"00",
        false,
        (Kind::Tc, How::Alone),
    ),
    (
        Kind::Tc,
        NEAR,
        false,
        500,
        Auth::Absent,
        *b"Z3",
        true,
        (Kind::Aac, How::Alone),
    ),
    (
        Kind::Tc,
        NEAR,
        true,
        500,
        Auth::Absent,
        *b"Y3",
        false,
        (Kind::Aac, How::Alone),
    ),
    (
        Kind::Tc,
        NEAR,
        true,
        500,
        Auth::One,
        *b"00",
        true,
        (Kind::Aac, How::Authenticated),
    ),
    (
        Kind::Tc,
        Counts {
            blocked: true,
            ..NEAR
        },
        false,
        500,
        Auth::Absent,
        *b"00",
        false,
        (Kind::Aac, How::Alone),
    ),
    (
        Kind::Aac,
        NEAR,
        false,
        500,
        Auth::Absent,
        *b"05",
        false,
        (Kind::Aac, How::Alone),
    ),
    (
        Kind::Aac,
        NEAR,
        false,
        500,
        Auth::One,
        *b"05",
        true,
        (Kind::Aac, How::Authenticated),
    ),
    (
        Kind::Tc,
        NEAR,
        false,
        900,
        Auth::Two([0x80, 0x80, 0, 0]),
        *b"00",
        true,
        (Kind::Tc, How::Authenticated),
    ),
    (
        Kind::Tc,
        NEAR,
        false,
        900,
        Auth::Two([0x80, 0x7F, 0, 0]),
        *b"00",
        true,
        (Kind::Tc, How::Held),
    ),
    (
        Kind::Tc,
        NEAR,
        false,
        500,
        Auth::Two([0x7F, 0x80, 0, 0]),
        *b"Y3",
        true,
        (Kind::Aac, How::Authenticated),
    ),
    (
        Kind::Tc,
        NEAR,
        true,
        500,
        Auth::Two([0x80, 0, 0, 0]),
        *b"00",
        true,
        (Kind::Aac, How::Held),
    ),
    (
        Kind::Aac,
        NEAR,
        false,
        500,
        Auth::Two([0, 0, 0, 0]),
        *b"51",
        true,
        (Kind::Aac, How::Held),
    ),
];

#[test]
fn second_cryptograms_by_the_policy(rt: HostRuntime) {
    for (number, row) in SECONDS.iter().enumerate() {
        let (asked, counts, blocked, amount, auth, code, issuer_auth, wanted) = *row;
        let online = OnlineResult {
            auth,
            code,
            issuer_auth,
        };
        let state = state_of(counts);
        let made = second(asked, &state, blocked, Which::One, amount, online);
        assert!(rt; made == wanted, "row {number}");
    }
}

/// A currency, an amount, and the kind where the issuer can't be asked.
const OTHER_CURRENCIES: [(Which, u64, Kind); 3] = [
    (Which::Two, 300, Kind::Tc),
    (Which::Two, 301, Kind::Aac),
    (Which::Neither, 1, Kind::Aac),
];

#[test]
fn second_cryptograms_in_other_currencies(rt: HostRuntime) {
    for row in &OTHER_CURRENCIES {
        let (which, amount, wanted) = *row;
        let online = OnlineResult {
            auth: Auth::Absent,
            code: *b"Y3",
            issuer_auth: false,
        };
        let made = second(Kind::Tc, &state_of(NEAR), false, which, amount, online);
        assert!(rt; made == (wanted, How::Offline), "{amount}");
    }
}
