mod document;
mod early_tears;
mod late_tears;
mod payments;
mod table;
mod terminals;

use document::{CARD, ISSUER, LANE, PURCHASE};
use early_tears::EARLY_TEARS;
use emv_ports::{MemorySink, MemorySource, blank_bank};
use emv_top::run;
use late_tears::LATE_TEARS;
use payments::PAYMENTS;
use std::alloc::Global;
use std::process::Abort;
use std::test::Fail;
use table::History;
use terminals::TERMINALS;

/// Adds a text to a document, with other texts in place of some of its own.
fn add(
    alloc: Global,
    document: &mut String,
    text: &str,
    changes: &[(&str, &str)],
) -> Result<(), Fail> {
    let mut changed = String::from_str(alloc, text)?;
    for (old, new) in changes {
        let (front, rest) = changed.split_once(old).ok_or("a text to replace")?;
        changed = format!(in alloc; "{front}{new}{rest}")?;
    }
    document.push_str(&changed)?;
    Ok(())
}

fn document_of(alloc: Global, history: &History) -> Result<String, Fail> {
    let base = format!(in alloc; "{ISSUER}{CARD}{LANE}{PURCHASE}")?;
    let mut document = String::new(alloc);
    add(alloc, &mut document, &base, history.changes)?;
    for part in history.more {
        add(alloc, &mut document, part.text, part.changes)?;
    }
    Ok(document)
}

/// Adds a line to what a report tells, unless it is an exchange.
fn tell(line: &str, told: &mut String) -> Result<(), Fail> {
    if line.split_once(" > ").is_some() {
        return Ok(());
    }
    if line.split_once(" < ").is_some() && line.split_once("S").is_none() {
        return Ok(());
    }
    let front = match line.split_once(" tvr=") {
        Some((front, _)) => front,
        None => line,
    };
    told.push_str(front)?;
    told.push_str("\n")?;
    Ok(())
}

/// The report without its exchanges, but with the replies to the settlement, and the end lines up to
/// their bits.
fn told_by(alloc: Global, report: &[u8]) -> Result<String, Fail> {
    let mut told = String::new(alloc);
    let mut line = Vec::new(alloc);
    for byte in report {
        if *byte == b'\n' {
            tell(&String::from_utf8_lossy(alloc, &line)?, &mut told)?;
            line = Vec::new(alloc);
        } else {
            line.push(*byte)?;
        }
    }
    Ok(told)
}

fn replay(rt: &impl Abort, alloc: Global, history: &History) -> Result<(), Fail> {
    let document = document_of(alloc, history)?;
    let mut words = Vec::new(alloc);
    words.push(String::from_str(alloc, "replay")?)?;
    let mut source = MemorySource::new(document.as_bytes().to_vec(alloc)?, Vec::new(alloc));
    let mut sink = MemorySink::new(alloc, 100_000, Vec::new(alloc))?;
    let finished = run(alloc, &words, blank_bank(alloc)?, &mut source, &mut sink);
    let told = told_by(alloc, sink.bytes())?;
    let is_counted = finished.status == 0 && finished.tally.counts() == history.counts;
    assert!(rt; is_counted && told.as_str() == history.told, "{told}");
    let [first, second] = history.marks;
    for (place, pages) in finished.bank.into_iter().enumerate() {
        let marks = match place {
            0 => first,
            1 => second,
            63 => history.stored,
            _ => 0,
        };
        let found = pages.into_inner().marks();
        assert!(rt; found == marks, "pages {place} of {told}");
    }
    Ok(())
}

fn replay_each(rt: &impl Abort, alloc: Global, histories: &[History]) -> Result<(), Fail> {
    for history in histories {
        replay(rt, alloc, history)?;
    }
    Ok(())
}

#[test]
fn purchases_are_as_an_independent_implementation_reports(rt: HostRuntime) -> Result<(), Fail> {
    replay_each(&rt, rt.alloc(), &PAYMENTS)?;
    replay_each(&rt, rt.alloc(), &EARLY_TEARS)?;
    replay_each(&rt, rt.alloc(), &LATE_TEARS)?;
    replay_each(&rt, rt.alloc(), &TERMINALS)
}
