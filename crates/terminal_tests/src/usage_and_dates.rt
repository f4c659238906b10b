//! Processing restrictions by rows: usage controls, versions and dates.
use crate::fixture::{card_with, purchase, row, settings};
use emv_dict::Purchase;
use restrictions::restrict;
use std::alloc::AllocGlobal;
use std::process::Abort;

/// The second byte of the results for a card with these objects, and none where another byte has a bit.
fn second_byte(
    rt: &(impl AllocGlobal + Abort),
    objects: &[(u32, &[u8])],
    purchase: &Purchase,
) -> Option<u8> {
    let card = card_with(rt, objects);
    let row = row(rt, [[0; 5]; 3], [10000, 5000], [10, 50]);
    match restrict(&card, &settings(rt, 22, 0xb8), &row, purchase).bytes() {
        [0, second, 0, 0, 0] => Some(second),
        _ => None,
    }
}

/// A kind of transaction, whether it is for services, and the issuer's country: goods, services, cash,
/// goods with cashback and services with cashback, each at home and abroad.
const USES: [(u8, bool, [u8; 2]); 10] = [
    (0x00, false, [0x08, 0x40]),
    (0x00, false, [0x09, 0x78]),
    (0x00, true, [0x08, 0x40]),
    (0x00, true, [0x09, 0x78]),
    (0x01, false, [0x08, 0x40]),
    (0x01, false, [0x09, 0x78]),
    (0x09, false, [0x08, 0x40]),
    (0x09, false, [0x09, 0x78]),
    (0x09, true, [0x08, 0x40]),
    (0x09, true, [0x09, 0x78]),
];

/// Usage controls, and whether they allow (y) or refuse (n) each use, as other implementations say.
const CONTROLS: [([u8; 2], &[u8]); 13] = [
    ([0x00, 0x00], b"nn"),
    ([0x01, 0x40], b"nn"),
    ([0x01, 0x80], b"nn"),
    ([0x05, 0x00], b"nn"),
    ([0x09, 0x00], b"nnynnnnnnn"),
    ([0x11, 0x00], b"nynnnnnnnn"),
    ([0x21, 0x00], b"ynnnnnnnnn"),
    ([0x41, 0x00], b"nn"),
    ([0x81, 0x00], b"nnnnynnnnn"),
    ([0xa1, 0x80], b"ynnnynynnn"),
    ([0xfe, 0x00], b"nn"),
    ([0xff, 0x00], b"yyyyyynnnn"),
    ([0xff, 0xc0], b"yy"),
];

/// Whether the card with this usage control allows and refuses the uses so.
fn is_used(rt: &(impl AllocGlobal + Abort), usage: [u8; 2], answers: &[u8]) -> bool {
    for ((trade, services, country), answer) in USES.iter().zip(answers) {
        let mut purchase = purchase(rt);
        purchase.trade = *trade;
        purchase.services = *services;
        let objects: [(u32, &[u8]); 2] = [(0x9f07, &usage), (0x5f28, country)];
        let wanted = if *answer == b'n' { 0x10 } else { 0x00 };
        if second_byte(rt, &objects, &purchase) != Some(wanted) {
            return false;
        }
    }
    true
}

#[test]
fn usage_controls_allow_what_they_name(rt: HostRuntime) {
    for (usage, answers) in CONTROLS {
        assert!(rt; is_used(&rt, usage, answers), "{usage:?}");
    }
}

/// One object, the day of the purchase and the second byte, as other implementations give it.
const OBJECTS: [(u32, &[u8], [u8; 3], u8); 10] = [
    (0x9f07, &[0x01, 0x00], [0x24, 0x06, 0x15], 0x00),
    (0x9f07, &[0xfe, 0x00], [0x24, 0x06, 0x15], 0x10),
    (0x9f08, &[0x00, 0x97], [0x24, 0x06, 0x15], 0x80),
    (0x9f08, &[0x00, 0x96], [0x24, 0x06, 0x15], 0x00),
    (0x5f25, &[0x50, 0x01, 0x01], [0x24, 0x06, 0x15], 0x00),
    (0x5f25, &[0x49, 0x12, 0x31], [0x24, 0x06, 0x15], 0x20),
    (0x5f25, &[0x24, 0x06, 0x15], [0x24, 0x06, 0x15], 0x00),
    (0x5f25, &[0x24, 0x06, 0x16], [0x24, 0x06, 0x15], 0x20),
    (0x5f28, &[0x08, 0x40], [0x26, 0x12, 0x31], 0x00),
    (0x5f28, &[0x08, 0x40], [0x27, 0x01, 0x01], 0x40),
];

#[test]
fn versions_and_dates_are_compared(rt: HostRuntime) {
    for (tag, value, date, byte) in OBJECTS {
        let mut purchase = purchase(&rt);
        purchase.date = date;
        assert!(rt;
            second_byte(&rt, &[(tag, value)], &purchase) == Some(byte),
            "{tag:x} {value:?}"
        );
    }
}
