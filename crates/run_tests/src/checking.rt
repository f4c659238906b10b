//! Traces that are checked.
use crate::runs::{ANSWER, Row, play, play_with};
use std::test::Fail;

/// A purchase that was approved offline, as its terminal, its card and its end line told it.
const TRACE: &str = r#"pin_key = "6789ABCDEF0123459876543210FEDCBA"
trace = [
    "> 00a4040007a000000003101000",
    "< 6f168407a0000000031010a50b50064352454449548701019000",
    "> 00a4040007a000000003101000",
    "< 6f168407a0000000031010a50b50064352454449548701019000",
    "> 80a8000002830000",
    "< 80061c00080103009000",
    "> 00b2010c00",
    "< 702e5a0847617390010100105f3401015f24032612315f25032401015f280208409f420208409f0702ff009f080200969000",
    "> 00b2020c00",
    "< 70308c159f02069f03069f1a0295055f2a029a039c019f37048d178a029f02069f03069f1a0295055f2a029a039c019f37049000",
    "> 00b2030c00",
    "< 70308e0e000000000000000041035e031f009f0d057068bcf8009f0e0500100000009f0f057068bc98009f1401059f2301099000",
    "> 0020008008241234ffffffffff",
    "< 9000",
    "> 80ca9f3600",
    "< 9f3602000b9000",
    "> 80ca9f1300",
    "< 9f130200099000",
    "> 80ae40001d000000002500000000000000084080000000000840240615000102030400",
    "< 801140000b6114ff966d2fd2320140000103019000",
    "end approved offline tvr=8000000000 tsi=6800 cvm=410302 arc=Y1 atc=000b ac=6114ff966d2fd232 scripts=-",
]

[lane]
kind = 22
country = "840"
caps = "E0B8C8"
id = "TERM0001"

[[lane.aid]]
name = "A0000000031010"
version = "0096"
denial = "0010000000"
online = "7068BC9800"
default = "7068BCF800"
floor = 10000
threshold = 5000
target = 10
max_target = 50

[[lane.purchase]]
card = "c1"
amount = 2500
currency = "840"
date = "240615"
time = "120000"
number = 16909060
word = 49
pins = ["1234"]
"#;

/// A trace that is the dialogue's own.
const SAME: Row = Row {
    words: &["check"],
    document: TRACE,
    text: "check ok\n",
    ..ANSWER
};

/// Words that check a trace.
const CHECKING: [&[&str]; 3] = [&["check"], &["--", "check"], &["check", "--"]];

/// Traces with another text in place of one, and sources and sinks that fail.
const CHECKS: [Row; 7] = [
    Row {
        changes: &[("< 9f130200099000", "< 9f1302000b9000")],
        text: "check differs 18\n",
        ..SAME
    },
    Row {
        changes: &[("\"> 00a40", "\"host < none\", \"> 00a40")],
        text: "check differs 0\n",
        ..SAME
    },
    Row {
        changes: &[("\"< 9000\"", "\"< gone\"")],
        text: "check differs 14\n",
        ..SAME
    },
    Row {
        changes: &[("trace = [", "traces = [")],
        status: 1,
        text: "refused 2 MissingKey trace\n",
        ..SAME
    },
    Row {
        fails: (&[1], &[]),
        status: 3,
        text: "",
        ..SAME
    },
    Row {
        fails: (&[], &[1]),
        status: 4,
        text: "",
        ..SAME
    },
    Row {
        document: "",
        fails: (&[], &[1]),
        status: 4,
        text: "",
        ..SAME
    },
];

#[test]
fn traces_are_checked(rt: HostRuntime) -> Result<(), Fail> {
    play_with(&rt, rt.alloc(), SAME, &CHECKING)?;
    play(&rt, rt.alloc(), &CHECKS)
}
