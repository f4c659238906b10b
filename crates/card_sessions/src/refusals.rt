//! Commands that are refused, in each phase.
ghost use Rattle.std.specs.Prelude.{◌≡◌, ◌<◌, length, None, false, true};
ghost use Rattle.card_app.specs.SeenIcc.{IsIccOn, icc_is_powered};

use crate::cards::{
    APPROVED, AUTHENTICATE, Line, OFFLINE, OPTIONS, REQUEST, SELECT, VERIFY, Variant, bytes_of,
    go_through, image_of,
};
use crate::{send, turn_on};
use apdu_core::Answer;
use apdu_core::status::CONDITIONS_NOT_SATISFIED;
use card_app::Icc;
use card_files::Image;
use emv_ports::{Held, MemoryPages, Pages};
use std::process::Abort;
use std::test::Fail;

/// What leads to each phase: idle, selected, started, online, closed and done.
const PHASES: [(Variant, &[Line]); 6] = [
    (Variant::Base, &[]),
    (Variant::Base, &[SELECT]),
    (Variant::Base, &[SELECT, OPTIONS]),
    (Variant::Online, &[SELECT, OPTIONS, VERIFY, REQUEST]),
    (Variant::Base, &[SELECT, OPTIONS, VERIFY, OFFLINE]),
    (
        Variant::Online,
        &[SELECT, OPTIONS, VERIFY, REQUEST, AUTHENTICATE, APPROVED],
    ),
];

/// A command, the phases that its checks before the phase leave to it, and its status there; elsewhere it
/// is 6985.
type Row = (&'static str, [bool; 6], u16);

const ANY: [bool; 6] = [true; 6];

const BEHIND_SELECT: [bool; 6] = [false, true, true, true, true, true];

const SELECTED: [bool; 6] = [false, true, false, false, false, false];

const STARTED: [bool; 6] = [false, false, true, false, false, false];

const BEFORE_CRYPTOGRAM: [bool; 6] = [false, false, true, true, false, false];

const ONLINE: [bool; 6] = [false, false, false, true, false, false];

const BEHIND_REQUEST: [bool; 6] = [false, false, false, true, false, true];

/// Each command with its refusals, where several checks fail by the first of them: the bytes, the class
/// and the instruction, P1 P2, the phase, the length of the data, and the command's own rules.
const REFUSALS: [Row; 85] = [
    // The bytes
    ("", ANY, 0x6700),
    ("00a404", ANY, 0x6700),
    ("00b2010c0302", ANY, 0x6700),
    ("10a4040003a0", ANY, 0x6700),
    ("80ae40001d0000", ANY, 0x6700),
    // The class, and the instruction with it
    ("10a4050001a0", ANY, 0x6e00),
    ("80a4040001a0", ANY, 0x6d00),
    ("04a4040001a0", ANY, 0x6d00),
    ("80b2000001aa", ANY, 0x6d00),
    ("00a8000100", ANY, 0x6d00),
    ("8020000001aa", ANY, 0x6d00),
    ("00ca9f3601aa", ANY, 0x6d00),
    ("00aec00001aa", ANY, 0x6d00),
    ("8082000101aa", ANY, 0x6d00),
    ("001e000100", ANY, 0x6d00),
    ("8018000100", ANY, 0x6d00),
    ("0416000100", ANY, 0x6d00),
    ("0424000100", ANY, 0x6d00),
    ("84dadf0300", ANY, 0x6d00),
    ("00b0000000", ANY, 0x6d00),
    ("0000000000", ANY, 0x6d00),
    // SELECT
    ("00a4050000", ANY, 0x6a86),
    ("00a4040100", ANY, 0x6a86),
    ("00a4040000", ANY, 0x6700),
    ("00a4040011a000000003101000000000000000000000", ANY, 0x6700),
    ("00a4040007a000000003101100", ANY, 0x6a82),
    ("00a4020001a0", ANY, 0x6a86),
    ("00a404020aa0000000031010000000", ANY, 0x6a82),
    // READ RECORD
    ("00b2000c01aa", ANY, 0x6a86),
    ("00b2010501aa", ANY, 0x6a86),
    ("00b2010401aa", ANY, 0x6a86),
    ("00b201fc01aa", ANY, 0x6a86),
    ("00b2010c01aa", BEHIND_SELECT, 0x6700),
    ("00b2011400", BEHIND_SELECT, 0x6a82),
    ("00b201f400", BEHIND_SELECT, 0x6a82),
    ("00b2040c00", BEHIND_SELECT, 0x6a83),
    // GET PROCESSING OPTIONS
    ("80a8010001aa", ANY, 0x6a86),
    ("80a8000101aa", ANY, 0x6a86),
    ("80a8000000", SELECTED, 0x6700),
    ("80a8000003830100", SELECTED, 0x6700),
    ("80a80000048300830000", SELECTED, 0x6700),
    ("80a800000177", SELECTED, 0x6700),
    // VERIFY
    ("0020010008241234ffffffffff", ANY, 0x6a86),
    ("0020000008241234ffffffffff", ANY, 0x6a86),
    ("0020008007241234ffffffff", STARTED, 0x6700),
    ("0020008009241234ffffffffff00", STARTED, 0x6700),
    ("0020008000", STARTED, 0x6700),
    // GET DATA
    ("80ca9f3601aa", BEHIND_SELECT, 0x6700),
    ("80ca9f9900", BEHIND_SELECT, 0x6a88),
    ("80ca000000", BEHIND_SELECT, 0x6a88),
    // GENERATE AC
    ("80aec00001aa", ANY, 0x6a86),
    ("80ae400101aa", ANY, 0x6a86),
    ("80ae410001aa", ANY, 0x6a86),
    ("80ae400001aa", BEFORE_CRYPTOGRAM, 0x6700),
    (
        "80ae80001caa000000000000000000000000000000000000000000000000000000",
        BEFORE_CRYPTOGRAM,
        0x6700,
    ),
    (
        "80ae80001e000000000000000000000000000000000000000000000000000000000000",
        BEFORE_CRYPTOGRAM,
        0x6700,
    ),
    // EXTERNAL AUTHENTICATE
    ("0082010001aa", ANY, 0x6a86),
    ("0082000101aa", ANY, 0x6a86),
    ("008200000700000000000000", ONLINE, 0x6700),
    (
        "00820000110000000000000000000000000000000000",
        ONLINE,
        0x6700,
    ),
    ("0082000000", ONLINE, 0x6700),
    // APPLICATION BLOCK, APPLICATION UNBLOCK and CARD BLOCK
    ("841e010001aa", ANY, 0x6a86),
    ("841e000101aa", ANY, 0x6a86),
    ("841e00000700000000000000", BEHIND_REQUEST, 0x6700),
    ("841e000009000000000000000000", BEHIND_REQUEST, 0x6700),
    ("841e0000080000000000000000", BEHIND_REQUEST, 0x6988),
    ("8418000101aa", ANY, 0x6a86),
    ("841800000700000000000000", BEHIND_REQUEST, 0x6700),
    ("84180000080000000000000000", BEHIND_REQUEST, 0x6988),
    ("8416010001aa", ANY, 0x6a86),
    ("8416000101aa", ANY, 0x6a86),
    ("8416000009000000000000000000", BEHIND_REQUEST, 0x6700),
    ("84160000080000000000000000", BEHIND_REQUEST, 0x6988),
    // PIN CHANGE/UNBLOCK
    ("8424000101aa", ANY, 0x6a86),
    ("8424010001aa", ANY, 0x6a86),
    (
        "842400001000000000000000000000000000000000",
        BEHIND_REQUEST,
        0x6700,
    ),
    ("84240000080000000000000000", BEHIND_REQUEST, 0x6988),
    ("84240002080000000000000000", BEHIND_REQUEST, 0x6700),
    (
        "842400021000000000000000000000000000000000",
        BEHIND_REQUEST,
        0x6988,
    ),
    // PUT DATA
    ("04dadf0301aa", ANY, 0x6a86),
    ("04dade0101aa", ANY, 0x6a86),
    ("04dadf01080000000000000000", BEHIND_REQUEST, 0x6700),
    ("04dadf0109000000000000000000", BEHIND_REQUEST, 0x6988),
    ("04dadf0209000000000000000000", BEHIND_REQUEST, 0x6700),
    (
        "04dadf020e0000000000000000000000000000",
        BEHIND_REQUEST,
        0x6988,
    ),
];

/// Sends commands that are refused in this phase, which stays.
fn refuse_all<'i, P: Pages>(rt: &impl Abort, icc: &mut Icc<'i, P>, phase: usize, rows: &[Row])
    requires card { IsIccOn icc.old }
    requires runs { icc_is_powered icc.old ≡ true }
    requires phase { phase < 6 }
{
    match rows {
        [] => {}
        [(command, phases, status), rest @ ..] => {
            let mut out = Answer::new();
            match send(icc, bytes_of(command).as_slice(), &mut out) {
                Ok(()) => {
                    let status = if phases[phase] {
                        *status
                    } else {
                        CONDITIONS_NOT_SATISFIED
                    };
                    let wanted = status.to_be_bytes();
                    assert!(rt;
                        out.as_slice() == wanted.as_slice(),
                        "to {command} in phase {phase}"
                    );
                    refuse_all(rt, icc, phase, rest)
                }
                Err(_) => panic!(rt; "the power is gone"),
            }
        }
    }
}

/// All refusals of a card that comes to this phase by these commands.
fn refuse_in<P: Pages>(rt: &impl Abort, image: &Image, pages: P, phase: usize, before: &[Line])
    requires off { (P.memory pages).on ≡ false }
    requires plan { (P.memory pages).plan ≡ None }
    requires phase { phase < 6 }
{
    let mut icc = Icc::new(image, pages);
    match turn_on(&mut icc, None) {
        Ok(()) => match go_through(rt, &mut icc, before) {
            Ok(()) => refuse_all(rt, &mut icc, phase, &REFUSALS),
            Err(_) => panic!(rt; "the power is gone"),
        },
        Err(_) => panic!(rt; "the power is gone"),
    }
}

#[test]
fn refusals_come_in_the_order_of_the_checks(rt: HostRuntime) -> Result<(), Fail> {
    let alloc = rt.alloc();
    for phase in 0..6 {
        let row = &PHASES[phase];
        let image = image_of(&rt, alloc, row.0)?;
        let pages = Held::new(alloc, MemoryPages::blank())?;
        refuse_in(&rt, &image, pages, phase, row.1);
    }
    Ok(())
}
