//! The bytes of a state.
use crate::decisions::{Counts, OPENED, SALE_2500, app_of, row};
use arrayvec::ArrayVec;
use card_state::{AppState, CardState, decode, decode_one, encode, encode_one, with_limits};

/// A blocked card whose one application has approved 25.00 offline, is blocked and has seen a failed issuer
/// authentication, in version 1, worked out by hand.
const BLOCKED: [u8; 35] = [
    0x01, 0x01, 0x01, 0x00, 0x0B, 0x00, 0x09, 0x01, 0x00, 0x00, 0x00, 0x00, 0x00, 0x00, 0x09, 0xC4,
    0x05, 0x00, 0x00, 0x00, 0x00, 0x00, 0x00, 0x4E, 0x20, 0x02, 0x03, 0x24, 0x12, 0x34, 0xFF, 0xFF,
    0xFF, 0xFF, 0xFF,
];

/// The same in version 2, with 3.00 of 30.00 in the second currency, and one row of at most five.
const LOGGED: [u8; 67] = [
    0x02, 0x01, 0x01, 0x00, 0x0B, 0x00, 0x09, 0x01, 0x00, 0x00, 0x00, 0x00, 0x00, 0x00, 0x09, 0xC4,
    0x05, 0x00, 0x00, 0x00, 0x00, 0x00, 0x00, 0x4E, 0x20, 0x02, 0x03, 0x24, 0x12, 0x34, 0xFF, 0xFF,
    0xFF, 0xFF, 0xFF, 0x00, 0x00, 0x00, 0x00, 0x00, 0x00, 0x01, 0x2C, 0x00, 0x00, 0x00, 0x00, 0x00,
    0x00, 0x0B, 0xB8, 0x05, 0x01, 0x00, 0x00, 0x00, 0x00, 0x25, 0x00, 0x08, 0x40, 0x24, 0x06, 0x15,
    0x00, 0x0B, 0x40,
];

/// The blocked card's state.
fn blocked() -> CardState {
    let mut apps = ArrayVec::new();
    apps.push(app_of(Counts {
        counter: 11,
        count: 1,
        sum: 2500,
        tries: 2,
        blocked: true,
        auth_failed: true,
        ..OPENED
    }));
    CardState {
        blocked: true,
        apps,
    }
}

/// The state whose bytes of version 2 are worked out above.
fn logged() -> CardState {
    let mut log = ArrayVec::new();
    log.push(row(11, 0x40, SALE_2500));
    let mut apps = ArrayVec::new();
    apps.push(AppState {
        sum_two: 300,
        log_max: 5,
        log,
        ..app_of(Counts {
            counter: 11,
            count: 1,
            sum: 2500,
            tries: 2,
            blocked: true,
            auth_failed: true,
            ..OPENED
        })
    });
    CardState {
        blocked: true,
        apps,
    }
}

#[test]
fn every_field_has_its_place(rt: HostRuntime) {
    let mut bytes = ArrayVec::new();
    encode(&logged(), &mut bytes);
    let is_read = decode(&LOGGED) == Some(logged()) && decode_one(&LOGGED).is_none();
    assert!(rt; bytes.as_slice() == LOGGED.as_slice() && is_read);
}

#[test]
fn version_one_gains_the_limits_of_its_card(rt: HostRuntime) {
    let mut bytes = ArrayVec::new();
    encode_one(&logged(), &mut bytes);
    let gains = match decode_one(&BLOCKED) {
        Some(old) => with_limits(&blocked(), &old) == blocked() && decode(&BLOCKED) == Some(old),
        None => false,
    };
    assert!(rt; bytes.as_slice() == BLOCKED.as_slice() && gains);
}

/// A place in the state of version 2, and a byte there that it can't have.
const WRONG: [(usize, u8); 7] = [(0, 3), (0, 1), (1, 5), (2, 2), (26, 4), (52, 0), (52, 11)];

#[test]
fn other_bytes_are_no_state(rt: HostRuntime) {
    let mut longer = [0; 68];
    longer[..67].copy_from_slice(&LOGGED);
    for bytes in [&LOGGED[..66], &longer, &BLOCKED[..34], &[1, 0]] {
        assert!(rt; decode(bytes).is_none(), "{bytes:?}");
    }
    for row in &WRONG {
        let (place, byte) = *row;
        let mut wrong = LOGGED;
        assert!(rt; place < 67);
        wrong[place] = byte;
        assert!(rt; decode(&wrong).is_none(), "at {place}");
    }
    let empty = CardState {
        blocked: true,
        apps: ArrayVec::new(),
    };
    assert!(rt; decode(&[2, 0, 1]) == Some(empty));
}
