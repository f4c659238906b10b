//! The lines of reports.
use crate::facts::agree;
use arrayvec::ArrayVec;
use ber_tlv::Tag;
use emv_dict::{Cause, Digits, Ending, Step, Tsi, Tvr};
use report_text::{EndParts, Line, Shown, Text, write_line};
use std::test::Fail;

/// As many of the items as fit.
fn some<T: Default + Copy, const N: usize>(items: &[T]) -> ArrayVec<T, N> {
    let mut held = ArrayVec::new();
    for item in items {
        let _ = held.try_push(*item);
    }
    held
}

fn same_text(line: &Line, want: &str) -> bool {
    let mut out: Text = some(b"what an earlier line left");
    write_line(line, &mut out);
    out.as_slice() == want.as_bytes()
}

fn opened() -> Shown {
    Shown {
        counter: 10,
        last_online: 9,
        count: 0,
        sum: 0,
        tries: 3,
        flags: 0,
        sum_two: None,
    }
}

/// The state of an application with a second currency, behind an offline approval in it.
fn with_second(sum: u64) -> Shown {
    Shown {
        counter: 11,
        count: 1,
        sum_two: Some(sum),
        ..opened()
    }
}

fn greatest() -> Shown {
    Shown {
        counter: 65535,
        last_online: 65535,
        count: 255,
        sum: 18446744073709551615,
        tries: 255,
        flags: 255,
        sum_two: Some(18446744073709551615),
    }
}

fn power(lane: u8, card: &[u8], apps: &[Shown]) -> Line {
    Line::Power {
        lane,
        card: some(card),
        apps: some(apps),
    }
}

/// A line's text, and whether the line has it.
fn told(line: Line, want: &'static str) -> (&'static str, bool) {
    (want, same_text(&line, want))
}

#[test]
fn power_lines(rt: HostRuntime) {
    let torn = Line::PowerTorn {
        lane: 0,
        card: some(b"c1"),
    };
    let canned = Line::PowerCanned {
        lane: 1,
        card: some(b"x"),
    };
    let four = [opened(), greatest(), opened(), greatest()];
    agree(
        &rt,
        &[
            told(power(0, b"c1", &[opened()]), "L0 power c1 10,9,0,0,3,0\n"),
            told(power(15, b"abcdefghijklmnop", &four), FOUR_APPLICATIONS),
            told(
                power(0, b"c1", &[with_second(2500)]),
                "L0 power c1 11,9,1,0,3,0,2500\n",
            ),
            told(
                power(0, b"c1", &[with_second(0), opened()]),
                "L0 power c1 11,9,1,0,3,0,0 10,9,0,0,3,0\n",
            ),
            told(torn, "L0 power c1 torn\n"),
            told(canned, "L1 power x canned\n"),
        ],
    );
}

const FOUR_APPLICATIONS: &str =
    "L15 power abcdefghijklmnop 10,9,0,0,3,0 65535,65535,255,18446744073709551615,255,255,18446744073709551615 10,9,0,0,3,0 65535,65535,255,18446744073709551615,255,255,18446744073709551615\n";

fn to_card(lane: u8, bytes: &[u8]) -> Line {
    Line::ToCard {
        lane,
        bytes: some(bytes),
    }
}

fn from_card(lane: u8, bytes: &[u8]) -> Line {
    Line::FromCard {
        lane,
        bytes: some(bytes),
    }
}

#[test]
fn lines_of_a_card(rt: HostRuntime) {
    agree(
        &rt,
        &[
            told(
                to_card(0, &[0x80, 0xca, 0x9f, 0x36, 0x00]),
                "L0 > 80ca9f3600\n",
            ),
            told(from_card(3, &[0x6a, 0x82]), "L3 < 6a82\n"),
            told(from_card(0, &[]), "L0 < -\n"),
            told(Line::Torn { lane: 0 }, "L0 < torn\n"),
            told(Line::Gone { lane: 2 }, "L2 < gone\n"),
            told(
                Line::EndLost {
                    lane: 15,
                    number: 10_000,
                },
                "L15 end 10000 lost\n",
            ),
        ],
    );
}

#[test]
fn lines_of_a_host(rt: HostRuntime) {
    let asked = Line::ToHost {
        lane: 0,
        bytes: some(&[0xe1, 0x00]),
    };
    let answered = Line::FromHost {
        lane: 0,
        bytes: some(&[0xe2, 0x04, 0x8a, 0x02, 0x30, 0x30]),
    };
    let settled = Line::SettleCall {
        lane: 0,
        bytes: some(&[0xe3]),
    };
    let accepted = Line::SettleReply {
        lane: 1,
        bytes: some(&[0xe2, 0xff]),
    };
    agree(
        &rt,
        &[
            told(asked, "L0 host > e100\n"),
            told(answered, "L0 host < e2048a023030\n"),
            told(Line::NoReply { lane: 2 }, "L2 host < none\n"),
            told(settled, "S0 > e3\n"),
            told(accepted, "S1 < e2ff\n"),
        ],
    );
}

#[test]
fn lines_of_an_audit(rt: HostRuntime) {
    let powered = Line::AuditPower {
        card: some(b"c1"),
        apps: some(&[opened()]),
    };
    let asked = Line::AuditAsk {
        card: some(b"c1"),
        bytes: some(&[0x00, 0xa4]),
    };
    let answered = Line::AuditAnswer {
        card: some(b"z9"),
        bytes: some(&[0x90, 0x00]),
    };
    agree(
        &rt,
        &[
            told(powered, "A c1 power 10,9,0,0,3,0\n"),
            told(asked, "A c1 > 00a4\n"),
            told(answered, "A z9 < 9000\n"),
        ],
    );
}

fn object(tag: u32, value: &[u8]) -> Line {
    Line::Object {
        tag: Tag(tag),
        value: some(value),
    }
}

#[test]
fn lines_of_a_reading(rt: HostRuntime) {
    agree(
        &rt,
        &[
            told(object(0x5a, &[0x47, 0x61]), "object 5a 4761\n"),
            told(object(0x9f0d, &[]), "object 9f0d -\n"),
            told(object(0x9f8101, &[0xab]), "object 9f8101 ab\n"),
            told(Line::ReadOk, "read ok\n"),
        ],
    );
}

#[test]
fn lines_of_accounts(rt: HostRuntime) -> Result<(), Fail> {
    let pan = Digits::new(&[4, 7, 6, 1, 7, 3, 9, 0, 0, 1, 0, 1, 0, 0, 1, 0]).ok_or("digits")?;
    let other = Digits::new(&[9, 0, 9]).ok_or("digits")?;
    let overdrawn = Line::Balance {
        pan: other,
        amount: -1,
    };
    agree(
        &rt,
        &[
            told(
                Line::Balance { pan, amount: 97500 },
                "balance 4761739001010010 97500\n",
            ),
            told(overdrawn, "balance 909 -1\n"),
            told(Line::Done { number: 10000 }, "done 10000\n"),
        ],
    );
    Ok(())
}

/// Each ending, step and cause with its line.
const ENDINGS: [(Ending, &str); 21] = [
    (
        Ending::Approved { online: false },
        "read approved offline\n",
    ),
    (Ending::Approved { online: true }, "read approved online\n"),
    (
        Ending::Declined { online: false },
        "read declined offline\n",
    ),
    (Ending::Declined { online: true }, "read declined online\n"),
    (Ending::CutOff(Step::Power), "read cut power\n"),
    (Ending::CutOff(Step::Script), "read cut script\n"),
    (
        Ending::Terminated(Step::Select, Cause::CardBlocked),
        "read terminated select card-blocked\n",
    ),
    (
        Ending::Terminated(Step::Initiate, Cause::Afl(2)),
        "read terminated initiate afl 2\n",
    ),
    (
        Ending::Terminated(Step::Read, Cause::Status(0x6a83)),
        "read terminated read status 6a83\n",
    ),
    (
        Ending::Terminated(Step::Read, Cause::Coding(200)),
        "read terminated read coding 200\n",
    ),
    (
        Ending::Terminated(Step::Read, Cause::Repeated(Tag(0x5f24))),
        "read terminated read repeated 5f24\n",
    ),
    (
        Ending::Terminated(Step::Read, Cause::Missing(Tag(0x8c))),
        "read terminated read missing 8c\n",
    ),
    (
        Ending::Terminated(Step::Read, Cause::Value(Tag(0x9f42))),
        "read terminated read value 9f42\n",
    ),
    (
        Ending::Terminated(Step::Read, Cause::TooMuch),
        "read terminated read too-much\n",
    ),
    (
        Ending::Terminated(Step::Verify, Cause::Answer),
        "read terminated verify answer\n",
    ),
    (
        Ending::Terminated(Step::Risk, Cause::Answer),
        "read terminated risk answer\n",
    ),
    (
        Ending::Terminated(Step::First, Cause::Dol(Tag(0x8c))),
        "read terminated first dol 8c\n",
    ),
    (
        Ending::Terminated(Step::First, Cause::Kind(0xc0)),
        "read terminated first kind c0\n",
    ),
    (
        Ending::Terminated(Step::Authenticate, Cause::Answer),
        "read terminated authenticate answer\n",
    ),
    (
        Ending::Terminated(Step::Second, Cause::Kind(0x80)),
        "read terminated second kind 80\n",
    ),
    (
        Ending::Terminated(Step::Select, Cause::NoCandidate),
        "read terminated select no-candidate\n",
    ),
];

#[test]
fn every_ending_step_and_cause(rt: HostRuntime) {
    for row in &ENDINGS {
        let (ending, want) = *row;
        assert!(rt; same_text(&Line::ReadEnded { ending }, want), "{want}");
    }
}

fn ended(number: u32, parts: EndParts) -> Line {
    Line::End {
        lane: 0,
        number,
        parts,
    }
}

#[test]
fn end_lines(rt: HostRuntime) {
    let approved = EndParts {
        ending: Ending::Approved { online: false },
        tvr: Tvr::from_bytes([0x80, 0, 0, 0, 0]),
        tsi: Tsi::from_bytes([0x68, 0]),
        cvm: [0x41, 0x03, 0x02],
        arc: Some(*b"Y1"),
        atc_ac: Some((11, [0x01, 0x23, 0x45, 0x67, 0x89, 0xab, 0xcd, 0xef])),
        scripts: some(&[]),
    };
    let cut = EndParts {
        ending: Ending::CutOff(Step::First),
        tvr: Tvr::from_bytes([0x12, 0x34, 0x56, 0x78, 0x9a]),
        tsi: Tsi::from_bytes([0xbc, 0xde]),
        cvm: [0; 3],
        arc: None,
        atc_ac: None,
        scripts: some(&[[0x12, 0, 0, 0, 1]; 8]),
    };
    agree(
        &rt,
        &[
            told(
                ended(1, approved),
                "L0 end 1 approved offline tvr=8000000000 tsi=6800 cvm=410302 arc=Y1 atc=000b ac=0123456789abcdef scripts=-\n",
            ),
            told(
                ended(10000, cut),
                "L0 end 10000 cut first tvr=123456789a tsi=bcde cvm=000000 arc=-- atc=---- ac=---------------- scripts=12000000011200000001120000000112000000011200000001120000000112000000011200000001\n",
            ),
        ],
    );
}
