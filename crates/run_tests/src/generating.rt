//! Purchases that are generated and summed up.
use crate::runs::{ANSWER, REFUSED, Row, play, play_with};
use std::test::Fail;

pub const SUMMARY: &str = "generated 1\napproved 1 declined 0 other 0\nbooked 4390\n";

/// One purchase. A source that is read fails.
const ONE: Row = Row {
    words: &["generate", "1"],
    fails: (&[1], &[]),
    text: SUMMARY,
    endings: [1, 0, 0],
    replies: [0, u64::MAX],
    marks: [1, u32::MAX],
    ..ANSWER
};

/// A hundred purchases, and a sink that fails at the summary of one: the run was made all the same.
const OTHERS: [Row; 2] = [
    Row {
        words: &["generate", "100"],
        text: "generated 100\napproved 94 declined 3 other 3\nbooked 457669\n",
        endings: [94, 3, 3],
        marks: [0, u32::MAX],
        ..ONE
    },
    Row {
        fails: (&[], &[1]),
        status: 4,
        text: "",
        marks: [0, u32::MAX],
        ..ONE
    },
];

/// Words that generate one purchase.
const COUNTING: [&[&str]; 4] = [
    &["generate", "1"],
    &["--", "generate", "1"],
    &["generate", "--", "1"],
    &["generate", "1", "--"],
];

/// Words that give no count.
const NO_COUNTS: [&[&str]; 16] = [
    &["generate", "0"],
    &["generate", "01"],
    &["generate", "10001"],
    &["generate", "18446744073709551617"],
    &["generate", "x"],
    &["generate", "1x"],
    &["generate", "+1"],
    &["generate", "-1"],
    &["generate", " 1"],
    &["generate", ""],
    &["generate", "1", "1"],
    &["generate", "--"],
    &["--", "generate"],
    &["--", "--", "generate", "1"],
    &["1", "generate"],
    &["Generate", "1"],
];

#[test]
fn purchases_are_generated_and_summed_up(rt: HostRuntime) -> Result<(), Fail> {
    play(&rt, rt.alloc(), &OTHERS)?;
    play_with(&rt, rt.alloc(), ONE, &COUNTING)?;
    play_with(&rt, rt.alloc(), REFUSED, &NO_COUNTS)
}
