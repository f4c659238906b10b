//! Risk management by rows: exceptions, merchants, amounts, the log, draws and counters.
use crate::fixture::{card_with, purchase, row, settings};
use apdu_core::Out;
use arrayvec::ArrayVec;
use emv_dict::{Cause, Digits, Logged};
use risk_mgmt::{JudgeNext, Judging};
use std::alloc::AllocGlobal;
use std::process::Abort;
use std::test::Fail;

const PAN: [u8; 16] = [4, 7, 6, 1, 7, 3, 9, 0, 0, 1, 0, 1, 0, 0, 1, 0];

/// The results, and whether risk management was performed, where the card isn't asked.
fn done(next: JudgeNext) -> Option<([u8; 5], bool)> {
    match next {
        JudgeNext::Done(judged) => Some((judged.tvr.bytes(), judged.performed)),
        _ => None,
    }
}

/// A terminal's type, an amount, a floor limit, a threshold, a target, a random word and the fourth
/// byte of the results, as other implementations give it; the greatest target is 50.
const AMOUNTS: [(u8, u64, u64, u64, u8, u32, u8); 24] = [
    (21, 2500, 2500, 1000, 10, 49, 0x00),
    (22, 2500, 2500, 1000, 10, 49, 0x80),
    (23, 2500, 2500, 1000, 10, 49, 0x80),
    (24, 2500, 2500, 1000, 10, 49, 0x00),
    (25, 2500, 2500, 1000, 10, 49, 0x80),
    (26, 2500, 2500, 1000, 10, 49, 0x80),
    (22, 2500, 0, 0, 10, 49, 0x80),
    (22, 999_999_999_999, 999_999_999_999, 5000, 10, 49, 0x80),
    (21, 4999, 10000, 5000, 10, 99, 0x00),
    (22, 4999, 10000, 5000, 10, 99, 0x10),
    (23, 4999, 10000, 5000, 10, 99, 0x00),
    (24, 4999, 10000, 5000, 10, 99, 0x00),
    (25, 4999, 10000, 5000, 10, 99, 0x10),
    (26, 4999, 10000, 5000, 10, 99, 0x00),
    (22, 4999, 10000, 5000, 0, 0, 0x00),
    (22, 4999, 5000, 5000, 10, 9, 0x10),
    (22, 4999, 10000, 5000, 10, 9, 0x10),
    (22, 4999, 10000, 5000, 10, 10, 0x00),
    (22, 7500, 10000, 5000, 10, 29, 0x10),
    (22, 7500, 10000, 5000, 10, 30, 0x00),
    (22, 9999, 10000, 5000, 10, 48, 0x10),
    (22, 9999, 10000, 5000, 10, 49, 0x00),
    (22, 7500, 10000, 5000, 10, 98, 0x00),
    (22, 7500, 10000, 5000, 10, 99, 0x10),
];

#[test]
fn amounts_are_compared_and_drawn(rt: HostRuntime) {
    let card = card_with(&rt, &[(0x82, &[0x08, 0x00])]);
    for (kind, amount, floor, threshold, target, word, byte) in AMOUNTS {
        let row = row(&rt, [[0; 5]; 3], [floor, threshold], [target, 50]);
        let settings = settings(&rt, kind, 0xb8);
        let mut purchase = purchase(&rt);
        purchase.amount = amount;
        purchase.word = word;
        assert!(rt;
            amount <= 999_999_999_999
                && done(Judging::begin(&card, &settings, &row, &purchase, &[]))
                    == Some(([0, 0, 0, byte, 0], true)),
            "{kind} {amount} {word}"
        );
    }
}

/// Without b4 of the application interchange profile, only two bits are looked for.
#[test]
fn exceptions_and_merchants_count_always(rt: HostRuntime) -> Result<(), Fail> {
    let card = card_with(&rt, &[]);
    let mut settings = settings(&rt, 22, 0xb8);
    settings
        .exceptions
        .push(Digits::new(&PAN).ok_or("digits")?)?;
    let row = row(&rt, [[0; 5]; 3], [10000, 5000], [10, 50]);
    let mut purchase = purchase(&rt);
    purchase.amount = 20000;
    purchase.forced = true;
    let found = done(Judging::begin(&card, &settings, &row, &purchase, &[]));
    assert!(rt; found == Some(([0x10, 0, 0, 0x08, 0], false)));
    Ok(())
}

/// Amounts behind a log whose latest row of the account has 1, and the fourth byte of the results.
const LOGGED: [(u64, u8); 2] = [(2498, 0x00), (2499, 0x80)];

/// The latest purchase of the account counts with the amount.
#[test]
fn the_log_counts_by_its_latest_row(rt: HostRuntime) -> Result<(), Fail> {
    let card = card_with(&rt, &[(0x82, &[0x08, 0x00])]);
    let row = row(&rt, [[0; 5]; 3], [2500, 1000], [10, 50]);
    let settings = settings(&rt, 23, 0xb8);
    let log = [
        Logged {
            pan: Digits::new(&PAN).ok_or("digits")?,
            amount: 2000,
        },
        Logged {
            pan: Digits::new(&PAN).ok_or("digits")?,
            amount: 1,
        },
        Logged {
            pan: Digits::new(&PAN[..15]).ok_or("digits")?,
            amount: 2000,
        },
    ];
    for (amount, byte) in LOGGED {
        let mut purchase = purchase(&rt);
        purchase.amount = amount;
        assert!(rt;
            amount <= 999_999_999_999
                && done(Judging::begin(&card, &settings, &row, &purchase, &log))
                    == Some(([0, 0, 0, byte, 0], true)),
            "{amount}"
        );
    }
    Ok(())
}

/// The card's last online counter is 9, and it is 0.
const LAST: &[u8] = &[0x9f, 0x13, 0x02, 0x00, 0x09, 0x90, 0x00];

const NEVER: &[u8] = &[0x9f, 0x13, 0x02, 0x00, 0x00, 0x90, 0x00];
/// The card doesn't have the object.
const NONE: &[u8] = &[0x6a, 0x88];

/// Answers to GET DATA of 9F36 and of 9F13 with limits 1 and 9, and the first, second and fourth byte
/// of the results, as other implementations give them.
const COUNTERS: [(&[u8], &[u8], [u8; 3]); 17] = [
    (
        &[0x9f, 0x36, 0x02, 0x00, 0x0b, 0x62, 0x83],
        LAST,
        [0x20, 0, 0x60],
    ),
    (NONE, LAST, [0x20, 0, 0x60]),
    (&[0x9f, 0x36, 0x01, 0x0b, 0x90, 0x00], LAST, [0x20, 0, 0x60]),
    (
        &[0x9f, 0x13, 0x02, 0x00, 0x0b, 0x90, 0x00],
        LAST,
        [0x20, 0, 0x60],
    ),
    (
        &[0x9f, 0x36, 0x03, 0x00, 0x00, 0x0b, 0x90, 0x00],
        LAST,
        [0x20, 0, 0x60],
    ),
    (NONE, NONE, [0x20, 0, 0x60]),
    (
        &[0x9f, 0x36, 0x02, 0x00, 0x0b, 0x90, 0x00],
        NONE,
        [0x20, 0, 0x60],
    ),
    (NONE, NEVER, [0x20, 0x08, 0x60]),
    (
        &[0x9f, 0x36, 0x02, 0x00, 0x20, 0x90, 0x00],
        LAST,
        [0, 0, 0x60],
    ),
    (
        &[0x9f, 0x36, 0x02, 0x00, 0x08, 0x90, 0x00],
        LAST,
        [0, 0, 0x60],
    ),
    (
        &[0x9f, 0x36, 0x02, 0x00, 0x09, 0x90, 0x00],
        LAST,
        [0, 0, 0x60],
    ),
    (
        &[0x9f, 0x36, 0x02, 0xff, 0xff, 0x90, 0x00],
        NEVER,
        [0, 0x08, 0x60],
    ),
    (
        &[0x9f, 0x36, 0x02, 0x00, 0x0b, 0x90, 0x00],
        LAST,
        [0, 0, 0x40],
    ),
    (
        &[0x9f, 0x36, 0x02, 0x00, 0x0a, 0x90, 0x00],
        LAST,
        [0, 0, 0x00],
    ),
    (
        &[0x9f, 0x36, 0x02, 0x00, 0x01, 0x90, 0x00],
        NEVER,
        [0, 0x08, 0x00],
    ),
    (
        &[0x9f, 0x36, 0x02, 0x00, 0x12, 0x90, 0x00],
        LAST,
        [0, 0, 0x40],
    ),
    (
        &[0x9f, 0x36, 0x02, 0x00, 0x13, 0x90, 0x00],
        LAST,
        [0, 0, 0x60],
    ),
];

/// Risk management that has asked for 9F36, with limits 1 and 9.
fn asked(rt: &(impl AllocGlobal + Abort)) -> Judging {
    let card = card_with(rt, &[(0x82, &[0x08, 0x00]), (0x9f14, &[1]), (0x9f23, &[9])]);
    let row = row(rt, [[0; 5]; 3], [10000, 5000], [10, 50]);
    match Judging::begin(&card, &settings(rt, 22, 0xb8), &row, &purchase(rt), &[]) {
        JudgeNext::Ask(judging) => {
            assert!(rt; asks(&judging, [0x80, 0xca, 0x9f, 0x36, 0x00]));
            judging
        }
        _ => panic!(rt; "the card is asked"),
    }
}

/// Whether the card is asked so.
fn asks(judging: &Judging, command: [u8; 5]) -> bool {
    let mut out: Out = ArrayVec::new();
    judging.ask(&mut out);
    out.as_slice() == command.as_slice()
}

/// What follows two answers.
fn judged(rt: &(impl AllocGlobal + Abort), first: &[u8], second: &[u8]) -> JudgeNext {
    match asked(rt).take(first) {
        JudgeNext::Ask(judging) => {
            assert!(rt; asks(&judging, [0x80, 0xca, 0x9f, 0x13, 0x00]));
            judging.take(second)
        }
        other => other,
    }
}

#[test]
fn counters_are_asked_for(rt: HostRuntime) {
    for (first, second, [one, two, four]) in COUNTERS {
        let found = match judged(&rt, first, second) {
            JudgeNext::Done(judged) => judged.tvr.bytes() == [one, two, 0, four, 0],
            _ => false,
        };
        assert!(rt; found, "{first:?} {second:?}");
    }
}

#[test]
fn bytes_that_are_no_answer_end_it(rt: HostRuntime) {
    assert!(rt; matches!(asked(&rt).take(&[0x9f]), JudgeNext::Ended(Cause::Answer)));
}
