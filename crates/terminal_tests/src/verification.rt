//! Cardholder verification by rows: rules and PIN entries.
ghost use Rattle.std.specs.Prelude.{IfOk};
ghost use Rattle.std.specs.List.{All};
ghost use Rattle.emv_dict.specs.Digits.{HasPinLength};

use crate::fixture::{self, card_with, settings};
use apdu_core::Out;
use arrayvec::ArrayVec;
use cvm_list::{VerifyNext, Verifying};
use emv_dict::{Cause, Digits, Purchase, Verified};
use object_lists::CardData;
use std::alloc::AllocGlobal;
use std::process::Abort;
use std::test::Fail;

/// A purchase of 2500 with these PIN entries.
fn purchase(
    rt: &(impl AllocGlobal + Abort),
    trade: u8,
    currency: [u8; 2],
    entries: &[[u8; 4]],
) -> Result<Purchase, Fail>
    ensures { IfOk result (λ purchase. All HasPinLength purchase.pins) }
{
    let mut pins = Vec::new(rt.alloc());
    for entry in entries {
        let pin = Digits::new(entry).ok_or("digits")?;
        pins.push(pin)?;
    }
    let mut purchase = fixture::purchase(rt);
    purchase.trade = trade;
    purchase.currency = currency;
    purchase.pins = pins;
    Ok(purchase)
}

/// A card that asks for verification, with amounts in dollars and these rules behind X and Y.
fn ruled_card(rt: &impl Abort, x: u16, y: u16, rules: &[u8]) -> CardData {
    let [x_high, x_low] = x.to_be_bytes();
    let [y_high, y_low] = y.to_be_bytes();
    let mut list: ArrayVec<u8, 255> = ArrayVec::new();
    let _ = list.try_extend_from_slice(&[0, 0, x_high, x_low, 0, 0, y_high, y_low]);
    let _ = list.try_extend_from_slice(rules);
    let objects: [(u32, &[u8]); 3] = [
        (0x82, &[0x10, 0x00]),
        (0x9f42, &[0x08, 0x40]),
        (0x8e, list.as_slice()),
    ];
    card_with(rt, &objects)
}

/// A terminal's type and the second byte of its capabilities, the transaction type, X, Y, the rules,
/// and the results with the third byte of the verification results behind them.
type RuleRow = (u8, u8, u8, u16, u16, &'static [u8], u32);

/// As other implementations give them.
const RULES: [RuleRow; 44] = [
    (22, 0xb8, 0, 0, 0, b"\x05\x00", 0x3f000190),
    (22, 0xb0, 0, 0, 0, b"\x1f\x00", 0x3f000180),
    (22, 0xb8, 0, 0, 0, b"\x3f\x00", 0x3f0001c0),
    (22, 0xb8, 0, 2500, 2501, b"\x1f\x00", 0x1f000200),
    (22, 0xb8, 1, 0, 0, b"\x1f\x01", 0x3f000180),
    (25, 0xb8, 1, 0, 0, b"\x1f\x01", 0x1f010200),
    (22, 0xb8, 9, 0, 0, b"\x1f\x01", 0x3f000180),
    (22, 0xb8, 0, 2500, 2501, b"\x1f\x01", 0x3f000180),
    (22, 0xb8, 1, 0, 0, b"\x1f\x02", 0x3f000180),
    (25, 0xb8, 1, 0, 0, b"\x1f\x02", 0x3f000180),
    (22, 0xb8, 9, 0, 0, b"\x1f\x02", 0x3f000180),
    (22, 0xb8, 0, 2500, 2501, b"\x1f\x02", 0x1f020200),
    (22, 0xb8, 0, 2500, 2501, b"\x1f\x03", 0x1f030200),
    (22, 0xb8, 1, 0, 0, b"\x1f\x04", 0x1f040200),
    (25, 0xb8, 1, 0, 0, b"\x1f\x04", 0x3f000180),
    (22, 0xb8, 9, 0, 0, b"\x1f\x04", 0x3f000180),
    (22, 0xb8, 0, 2500, 2501, b"\x1f\x04", 0x3f000180),
    (22, 0xb8, 1, 0, 0, b"\x1f\x05", 0x3f000180),
    (25, 0xb8, 1, 0, 0, b"\x1f\x05", 0x3f000180),
    (22, 0xb8, 9, 0, 0, b"\x1f\x05", 0x1f050200),
    (22, 0xb8, 0, 2500, 2501, b"\x1f\x05", 0x3f000180),
    (22, 0xb8, 0, 2500, 2501, b"\x1f\x06", 0x3f000180),
    (22, 0xb8, 0, 2500, 2501, b"\x1f\x07", 0x3f000180),
    (22, 0xb8, 0, 2500, 2501, b"\x1f\x08", 0x1f080200),
    (22, 0xb8, 0, 2500, 2501, b"\x1f\x09", 0x3f000180),
    (22, 0xb8, 0, 2500, 2501, b"\x1f\x0a", 0x3f000180),
    (22, 0xb8, 0, 0, 0, b"\x44\x00\x1f\x00", 0x1f000210),
    (22, 0xb8, 0, 0, 0, b"\x40\x00", 0x40000180),
    (22, 0xb8, 0, 0, 0, b"\x00\x00", 0x00000180),
    (22, 0xb8, 0, 0, 0, b"\x1f\x00", 0x1f000200),
    (22, 0x08, 0, 0, 0, b"\x41\x03\x1f\x03", 0x1f030200),
    (22, 0x88, 0, 0, 0, b"\x42\x00\x1f\x00", 0x1f000210),
    (22, 0xb8, 0, 0, 0, b"\x02\x00", 0x3f000190),
    (22, 0x38, 0, 0, 0, b"\x41\x00\x1f\x00", 0x1f000210),
    (22, 0xb8, 0, 0, 0, b"\x1e\x00", 0x1e000000),
    (22, 0x90, 0, 0, 0, b"\x5e\x00\x1f\x00", 0x3f000180),
    (22, 0xb8, 0, 0, 0, b"\x60\x00\x1f\x00", 0x1f000240),
    (22, 0xb8, 0, 0, 0, b"\x20\x00\x1f\x00", 0x3f0001c0),
    (22, 0xb8, 0, 2500, 0, b"\x1f\x06", 0x3f000180),
    (22, 0xb8, 0, 2501, 0, b"\x1f\x06", 0x1f060200),
    (22, 0xb8, 0, 2499, 0, b"\x1f\x07", 0x1f070200),
    (22, 0xb8, 0, 2500, 0, b"\x1f\x07", 0x3f000180),
    (22, 0xb8, 0, 0, 2501, b"\x1f\x08", 0x1f080200),
    (22, 0xb8, 0, 0, 2499, b"\x1f\x09", 0x1f090200),
];

/// No PIN is entered.
#[test]
fn rules_are_tried_in_order(rt: HostRuntime) -> Result<(), Fail> {
    for (kind, caps, trade, x, y, rules, wanted) in RULES {
        let purchase = purchase(&rt, trade, [0x08, 0x40], &[])?;
        let card = ruled_card(&rt, x, y, rules);
        let next = Verifying::begin(&card, &settings(&rt, kind, caps), &purchase);
        assert!(rt; performs(&next, wanted), "{kind} {caps} {trade} {rules:?}");
    }
    Ok(())
}

/// The results, and the third byte of the verification results behind them.
fn found(verified: &Verified) -> u32 {
    let [first, second, third] = verified.results;
    let [_, _, byte, _, _] = verified.tvr.bytes();
    u32::from_be_bytes([first, second, third, byte])
}

/// Whether verification is performed with these results.
fn performs(next: &VerifyNext<'_>, wanted: u32) -> bool {
    match next {
        VerifyNext::Done(verified) => verified.performed && found(verified) == wanted,
        _ => false,
    }
}

/// Rules, PIN entries, the status words of VERIFY, and the results with the third byte of the
/// verification results behind them.
type EntryRow = (&'static [u8], &'static [[u8; 4]], &'static [u16], u32);

const ONE: &[[u8; 4]] = &[[1, 2, 3, 4]];

const TWO: &[[u8; 4]] = &[[1, 1, 1, 1], [1, 2, 3, 4]];

const THREE: &[[u8; 4]] = &[[1, 1, 1, 1], [2, 2, 2, 2], [1, 2, 3, 4]];

/// As other implementations give them.
const ENTRIES: [EntryRow; 10] = [
    (b"\x03\x00", ONE, &[0x9000], 0x03000000),
    (b"\x41\x00\x1f\x00", ONE, &[0x63c0], 0x1f000220),
    (b"\x41\x00\x1e\x00", ONE, &[0x6983], 0x1e000020),
    (b"\x01\x00", ONE, &[0x6984], 0x010001a0),
    (b"\x41\x00\x1f\x00", ONE, &[0x6a88], 0x1f000200),
    (b"\x41\x00\x1f\x00", ONE, &[0x63c5], 0x1f000208),
    (b"\x01\x00", ONE, &[0x9000], 0x01000200),
    (b"\x01\x00", TWO, &[0x63c2, 0x9000], 0x01000200),
    (b"\x01\x00", THREE, &[0x63c2, 0x63c1, 0x9000], 0x01000200),
    (
        b"\x41\x00\x43\x00",
        THREE,
        &[0x63c0, 0x63c1, 0x9000],
        0x43000020,
    ),
];

#[test]
fn entries_are_verified_by_the_card(rt: HostRuntime) -> Result<(), Fail> {
    let settings = settings(&rt, 22, 0xb8);
    for (rules, entries, statuses, wanted) in ENTRIES {
        let purchase = purchase(&rt, 0x00, [0x08, 0x40], entries)?;
        let card = ruled_card(&rt, 0, 0, rules);
        let mut next = Verifying::begin(&card, &settings, &purchase);
        for (entry, status) in entries.iter().zip(statuses) {
            next = answered(&rt, next, *entry, &status.to_be_bytes());
        }
        assert!(rt; performs(&next, wanted), "{rules:?} {statuses:?}");
    }
    Ok(())
}

/// What follows where the card is asked about this entry and answers so.
fn answered<'s>(
    rt: &impl Abort,
    next: VerifyNext<'s>,
    entry: [u8; 4],
    reply: &[u8],
) -> VerifyNext<'s> {
    let VerifyNext::Ask(verifying) = next else {
        panic!(rt; "the card is asked");
    };
    let [a, b, c, d] = entry;
    assert!(rt; a < 10 && b < 10 && c < 10 && d < 10);
    let mut out: Out = ArrayVec::new();
    verifying.ask(&mut out);
    let wanted = [
        0x00,
        0x20,
        0x00,
        0x80,
        0x08,
        0x24,
        a * 16 + b,
        c * 16 + d,
        0xff,
        0xff,
        0xff,
        0xff,
        0xff,
    ];
    assert!(rt; out.as_slice() == wanted.as_slice());
    verifying.take(reply)
}

/// X, the rules, the purchase's currency and its PIN entries; then the results, the verification results, whether
/// verification is performed and the PIN that goes to the issuer, none where there is none. The terminal's second
/// byte of capabilities has all methods.
type OnlineRow = (
    u16,
    &'static [u8],
    [u8; 2],
    &'static [[u8; 4]],
    ([u8; 3], [u8; 5], bool),
    &'static [u8],
);

const ONLINE: [OnlineRow; 3] = [
    (
        0,
        &[0x02, 0x00],
        [0x08, 0x40],
        ONE,
        ([0x02, 0x00, 0x00], [0, 0, 0x04, 0, 0], true),
        &[1, 2, 3, 4],
    ),
    (
        2501,
        &[0x1f, 0x06],
        [0x09, 0x78],
        &[],
        ([0x3f, 0x00, 0x01], [0, 0, 0x80, 0, 0], true),
        &[],
    ),
    (
        0,
        &[],
        [0x08, 0x40],
        ONE,
        ([0x3f, 0x00, 0x00], [0x20, 0, 0, 0, 0], false),
        &[],
    ),
];

/// Whether verification comes to this, with this PIN for the issuer.
fn comes_to(next: &VerifyNext<'_>, wanted: ([u8; 3], [u8; 5], bool), digits: &[u8]) -> bool {
    let VerifyNext::Done(verified) = next else {
        return false;
    };
    let has_pin = match &verified.online_pin {
        Some(pin) => pin.as_slice() == digits,
        None => digits.is_empty(),
    };
    has_pin && (verified.results, verified.tvr.bytes(), verified.performed) == wanted
}

#[test]
fn verification_is_passed_over_or_goes_online(rt: HostRuntime) -> Result<(), Fail> {
    let settings = settings(&rt, 22, 0xf8);
    for (x, rules, currency, entries, wanted, pin) in ONLINE {
        let purchase = purchase(&rt, 0x00, currency, entries)?;
        let next = Verifying::begin(&ruled_card(&rt, x, 0, rules), &settings, &purchase);
        assert!(rt; comes_to(&next, wanted, pin), "{rules:?} {currency:?}");
    }
    Ok(())
}

#[test]
fn bytes_that_are_no_answer_end_it(rt: HostRuntime) -> Result<(), Fail> {
    let settings = settings(&rt, 22, 0xf8);
    let purchase = purchase(&rt, 0x00, [0x08, 0x40], ONE)?;
    let ended = match Verifying::begin(
        &ruled_card(&rt, 0, 0, &[0x01, 0x00]),
        &settings,
        &purchase,
    ) {
        VerifyNext::Ask(verifying) => matches!(
            verifying.take(&[0x90]),
            VerifyNext::Ended(Cause::Answer)
        ),
        _ => false,
    };
    assert!(rt; ended);
    Ok(())
}
