//! Sources and sinks that fail, or move a byte a call.
use crate::generating::SUMMARY;
use crate::rows::{BASE, BASE_REPORT};
use crate::runs::{ANSWER, Outcome, Row, play, run_of, words_of};
use crate::torn::{TORN, TORN_REPORT};
use emv_ports::{MemorySink, MemorySource, blank_bank};
use emv_top::run;
use std::alloc::Global;
use std::process::Abort;
use std::test::Fail;

/// The first lines of a report, so many.
fn first_lines(report: &str, count: u32) -> &[u8] {
    let bytes = report.as_bytes();
    let mut left = count;
    for (at, byte) in bytes.iter().enumerate() {
        if left == 0 {
            return &bytes[..at];
        }
        if *byte == b'\n' {
            left -= 1;
        }
    }
    bytes
}

fn line_count(report: &str) -> u32 {
    let mut count: u32 = 0;
    for byte in report.as_bytes() {
        if *byte == b'\n' {
            count = count.saturating_add(1);
        }
    }
    count
}

/// The run of a document whose line of this number, from 1, is not written.
fn cut_at(alloc: Global, document: &str, number: u32) -> Result<Outcome, Fail> {
    run_of(alloc, &["replay"], document.as_bytes(), (&[], &[number]))
}

/// How often the card of the base payment has decided once a line of its report is made.
fn decided_at(number: u32) -> u32 {
    match number {
        0..=5 => 0,
        6..=13 => 1,
        14..=19 => 3,
        _ => 4,
    }
}

#[test]
fn a_sink_may_fail_at_each_line(rt: HostRuntime) -> Result<(), Fail> {
    for number in 1..=line_count(BASE_REPORT) {
        let ended = cut_at(rt.alloc(), BASE, number)?;
        let counts = if number < 20 {
            [0, 0, 0, 0]
        } else {
            [1, 0, 0, 10]
        };
        let is_cut = ended.status == 4
            && ended.text.as_slice() == first_lines(BASE_REPORT, number - 1)
            && ended.marks == decided_at(number)
            && ended.tally.counts() == counts
            && ended.cards == 64;
        assert!(rt; is_cut, "line {number}");
    }
    Ok(())
}

#[test]
fn a_sink_may_fail_at_each_line_of_scripts_and_tears(rt: HostRuntime) -> Result<(), Fail> {
    let whole = run_of(rt.alloc(), &["replay"], TORN.as_bytes(), (&[], &[]))?;
    assert!(rt; whole.status == 0 && whole.text.as_slice() == TORN_REPORT.as_bytes());
    for number in 1..=line_count(TORN_REPORT) {
        let ended = cut_at(rt.alloc(), TORN, number)?;
        let is_cut = ended.status == 4
            && ended.text.as_slice() == first_lines(TORN_REPORT, number - 1)
            && ended.marks <= whole.marks;
        assert!(rt; is_cut, "line {number}");
    }
    Ok(())
}

/// A source that fails, and a sink that fails at a refusal.
const FAULTS: [Row; 3] = [
    Row {
        words: &["read"],
        document: BASE,
        fails: (&[1], &[]),
        status: 3,
        ..ANSWER
    },
    Row {
        words: &["replay"],
        document: BASE,
        fails: (&[1], &[]),
        status: 3,
        ..ANSWER
    },
    Row {
        words: &["replay"],
        fails: (&[], &[1]),
        status: 4,
        ..ANSWER
    },
];

#[test]
fn a_source_and_a_refusal_may_fail(rt: HostRuntime) -> Result<(), Fail> {
    play(&rt, rt.alloc(), &FAULTS)
}

fn byte_count(text: &str) -> u32 {
    let mut count: u32 = 0;
    for _ in text.as_bytes() {
        count = count.saturating_add(1);
    }
    count
}

/// The first call, one in the middle and the last one of so many.
fn calls(count: u32) -> [u32; 3] {
    [1, count / 2, count]
}

/// The first bytes of a report, so many.
fn first_bytes(report: &str, count: u32) -> &[u8] {
    let bytes = report.as_bytes();
    if count as usize <= bytes.len() {
        &bytes[..count as usize]
    } else {
        bytes
    }
}

/// Words and a document.
type Asked = (&'static [&'static str], &'static str);

const REPLAY: Asked = (&["replay"], BASE);

/// Makes a run over ports that move a byte a call, where these calls of source and sink fail, and compares the
/// status and the text.
fn play_slowly(
    rt: &impl Abort,
    alloc: Global,
    asked: Asked,
    fails: (u32, u32),
    wanted: (u8, &[u8]),
) -> Result<(), Fail> {
    let words = words_of(alloc, asked.0)?;
    let bank = blank_bank(alloc)?;
    let document = asked.1.as_bytes().to_vec(alloc)?;
    let mut source = MemorySource::slow(document, [fails.0].to_vec(alloc)?, 1);
    let mut sink = MemorySink::slow(alloc, 100_000, [fails.1].to_vec(alloc)?, 1)?;
    let finished = run(alloc, &words, bank, &mut source, &mut sink);
    let is_so = finished.status == wanted.0 && sink.bytes() == wanted.1;
    assert!(rt; is_so, "{fails:?}");
    Ok(())
}

#[test]
fn ports_that_move_a_byte_a_call_may_fail(rt: HostRuntime) -> Result<(), Fail> {
    let alloc = rt.alloc();
    // Calls are counted from 1.
    play_slowly(&rt, alloc, REPLAY, (0, 0), (0, BASE_REPORT.as_bytes()))?;
    // The call behind the last byte finds the end.
    for call in calls(byte_count(BASE).saturating_add(1)) {
        play_slowly(&rt, alloc, REPLAY, (call, 0), (3, &[]))?;
    }
    for call in calls(byte_count(BASE_REPORT)) {
        let front = first_bytes(BASE_REPORT, call.saturating_sub(1));
        play_slowly(&rt, alloc, REPLAY, (0, call), (4, front))?;
    }
    Ok(())
}

/// The call of the sink that fails at the summary of one purchase, the status, and what the sink holds.
const SUMMARIES: [(u32, u8, &str); 2] = [(20, 4, "generated 1\napprove"), (1_000, 0, SUMMARY)];

#[test]
fn a_sink_may_fail_within_the_summary(rt: HostRuntime) -> Result<(), Fail> {
    for row in &SUMMARIES {
        let (call, status, text) = *row;
        let asked: Asked = (&["generate", "1"], "");
        let wanted = (status, text.as_bytes());
        play_slowly(&rt, rt.alloc(), asked, (1, call), wanted)?;
    }
    Ok(())
}
