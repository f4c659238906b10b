//! Runs over words, documents, and sources and sinks that fail.
use crate::rows::{BASE, BASE_READ, BASE_REPORT};
use emv_ports::{Held, MemoryPages, MemorySink, MemorySource, blank_bank};
use emv_top::{Finished, run};
use kernel::Tally;
use std::alloc::Global;
use std::process::Abort;
use std::test::Fail;

pub(crate) fn words_of(alloc: Global, words: &[&str]) -> Result<Vec<String>, Fail> {
    let mut list = Vec::new(alloc);
    for word in words {
        list.push(String::from_str(alloc, word)?)?;
    }
    Ok(list)
}

/// How a run ended, how many cards' pages there are, how often the first card's pages were marked, what was
/// counted and what the sink holds.
#[derive(Drop)]
pub struct Outcome {
    pub status: u8,
    pub cards: usize,
    pub marks: u32,
    pub tally: Tally,
    pub text: Vec<u8>,
}

/// How often the first pages of a bank were marked.
fn first_marks(bank: Vec<Held<MemoryPages>>) -> u32 {
    match bank.into_iter().next() {
        Some(pages) => pages.into_inner().marks(),
        None => 0,
    }
}

/// The run of these words over a document. The calls of source and sink with these numbers fail.
pub(crate) fn run_of(
    alloc: Global,
    words: &[&str],
    document: &[u8],
    fails: (&[u32], &[u32]),
) -> Result<Outcome, Fail> {
    let words = words_of(alloc, words)?;
    let bank = blank_bank(alloc)?;
    let mut source = MemorySource::new(document.to_vec(alloc)?, fails.0.to_vec(alloc)?);
    let mut sink = MemorySink::new(alloc, 100_000, fails.1.to_vec(alloc)?)?;
    let Finished {
        status,
        bank,
        tally,
    } = run(alloc, &words, bank, &mut source, &mut sink);
    Ok(Outcome {
        status,
        cards: bank.len(),
        marks: first_marks(bank),
        tally,
        text: sink.bytes().to_vec(alloc)?,
    })
}

/// A run, and how it ends.
#[derive(Clone, Copy)]
pub struct Row {
    pub words: &'static [&'static str],
    pub document: &'static str,
    /// Texts of the document, and others in their place.
    pub changes: &'static [(&'static str, &'static str)],
    /// The calls of the source that fail, and those of the sink.
    pub fails: (&'static [u32], &'static [u32]),
    pub status: u8,
    /// What the sink holds.
    pub text: &'static str,
    /// How many purchases were approved, were declined and ended otherwise.
    pub endings: [u64; 3],
    /// The least and the greatest number of replies that their terminals had.
    pub replies: [u64; 2],
    /// The least and the greatest number of decisions that the first card kept or began to keep.
    pub marks: [u32; 2],
}

/// A run that begins nothing: no page is marked, and no purchase counted.
pub const ANSWER: Row = Row {
    words: &[],
    document: "",
    changes: &[],
    fails: (&[], &[]),
    status: 0,
    text: "",
    endings: [0, 0, 0],
    replies: [0, 0],
    marks: [0, 0],
};

/// The text with other texts in place of some of its own.
pub(crate) fn changed(alloc: Global, text: &str, changes: &[(&str, &str)]) -> Result<String, Fail> {
    let mut changed = String::from_str(alloc, text)?;
    for (old, new) in changes {
        let (front, rest) = changed.split_once(old).ok_or("a text to replace")?;
        changed = format!(in alloc; "{front}{new}{rest}")?;
    }
    Ok(changed)
}

/// Whether a run ended as the row says.
fn ends_so(ended: &Outcome, row: &Row) -> bool {
    let [approved, declined, other, replies] = ended.tally.counts();
    let [fewest, most] = row.replies;
    let [least, greatest] = row.marks;
    ended.status == row.status
        && ended.text.as_slice() == row.text.as_bytes()
        && [approved, declined, other] == row.endings
        && (fewest <= replies && replies <= most)
        && (least <= ended.marks && ended.marks <= greatest)
        && ended.cards == 64
}

/// Makes each run, and compares how it ends.
pub fn play(rt: &impl Abort, alloc: Global, rows: &[Row]) -> Result<(), Fail> {
    for row in rows {
        let document = changed(alloc, row.document, row.changes)?;
        let ended = run_of(alloc, row.words, document.as_bytes(), row.fails)?;
        let words = row.words;
        let text = row.text;
        assert!(rt; ends_so(&ended, row), "{words:?}: {text}");
    }
    Ok(())
}

const USAGE: &str = "usage: emvrun read|replay|generate N|check\n";

/// Words that are not in the grammar. A source that is read fails.
pub const REFUSED: Row = Row {
    document: BASE,
    fails: (&[1], &[]),
    status: 2,
    text: USAGE,
    ..ANSWER
};

/// The base payment is replayed and counted.
const REPLAYED: Row = Row {
    words: &["replay"],
    document: BASE,
    text: BASE_REPORT,
    endings: [1, 0, 0],
    replies: [10, 10],
    marks: [4, 4],
    ..ANSWER
};

/// A card is read.
const READ: Row = Row {
    words: &["read"],
    document: BASE,
    text: BASE_READ,
    marks: [1, 1],
    ..ANSWER
};

/// Its lane keeps its captures durably, and loses its power at the opening of its store: the card is read
/// whatever becomes of its terminal.
const READ_AT_A_LOST_TERMINAL: Row = Row {
    changes: &[
        ("id = \"TERM0001\"\n", "id = \"TERM0001\"\ndurable = true\n"),
        (
            "pins = [\"1234\"]\n",
            "pins = [\"1234\"]\nterminal_tear = { commit = 0, at = \"release\" }\n",
        ),
    ],
    marks: [0, u32::MAX],
    ..READ
};

/// Words that read a card.
const READING: [&[&str]; 3] = [&["read"], &["--", "read"], &["read", "--"]];

/// Words that are not in the grammar.
const OTHER: [&[&str]; 11] = [
    &[],
    &["--"],
    &["replay", "x"],
    &["read", "x"],
    &["--", "--", "read"],
    &["--help"],
    &["Read"],
    &["generate"],
    &["Check"],
    &["check", "x"],
    &["check", "read"],
];

/// Makes the run with each of these words.
pub fn play_with(
    rt: &impl Abort,
    alloc: Global,
    row: Row,
    words: &[&'static [&'static str]],
) -> Result<(), Fail> {
    for words in words {
        play(
            rt,
            alloc,
            &[Row {
                words: *words,
                ..row
            }],
        )?;
    }
    Ok(())
}

#[test]
fn words_are_answered(rt: HostRuntime) -> Result<(), Fail> {
    play(&rt, rt.alloc(), &[REPLAYED, READ_AT_A_LOST_TERMINAL])?;
    play_with(&rt, rt.alloc(), READ, &READING)?;
    play_with(&rt, rt.alloc(), REFUSED, &OTHER)
}
