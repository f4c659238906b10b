//! A run as `emvrun replay` makes it, whose pages are looked at: for `checks/refusals`, which refuses it memory,
//! and `checks/tears`, which reads a card's log.
//!
//! Without a word the program tells on standard error what the run left. Two lines for each of the bank's page
//! objects that isn't as a blank one, as a power-up finds it, the second with the bytes of its home, and a line for
//! the tally. A page object is told by its place: the cards have the first ones, the lanes' stores the last ones.
//!
//! With the word `rough` the run is made over pages whose unsure cells give any bytes, and nothing more is told.
#![tactic(auto)]

ghost use Rattle.std.specs.Prelude.{◌≡◌, ◌<◌, true, length, map};
ghost use Rattle.std.specs.List.{All};
ghost use Rattle.emv_ports.specs.Memory.{IsBlank};

use emv_ports::{Held, MemoryPages, Pages, StdinSource, StdoutSink, blank_bank, rough_bank};
use emv_top::{Finished, run};
use kernel::Tally;
use std::alloc::{AllocError, Global};
use std::process::ExitCode;
use std::{env, io};

/// The exit status where there is no memory.
const NO_MEMORY: u8 = 5;

/// The exit status where what the run left could not be told.
const NOT_TOLD: u8 = 6;

/// From which the bytes of unsure cells follow.
const WORD: u32 = 0x9E37_79B9;

/// What a card's pages show.
#[derive(Clone, Copy, PartialEq, Eq)]
struct PagesShown {
    marks: u32,
    sum: u64,
}

/// A sum over the bytes (FNV-1a), on from this one.
fn sum_over(bytes: &[u8; 64], before: u64) -> u64 {
    let mut sum = before;
    for byte in bytes {
        sum = (sum ^ u64::from(*byte)).wrapping_mul(0x0100_0000_01b3);
    }
    sum
}

/// The pages as a power-up finds them.
fn turned_on(pages: MemoryPages) -> MemoryPages
    ensures { result.memory.on ≡ true }
{
    let mut pages = pages;
    pages.power_up();
    pages
}

/// What the pages show.
fn shown_by(pages: &MemoryPages) -> PagesShown
    requires { pages.now.memory.on ≡ true }
{
    let mut sum = 0xcbf2_9ce4_8422_2325;
    for page in 0..64 {
        sum = sum_over(&pages.read(page), sum);
    }
    PagesShown {
        marks: pages.marks(),
        sum,
    }
}

/// Tells the bytes of a page.
fn tell_page(rt: &HostRuntime, bytes: &[u8; 64]) -> io::Result<()> {
    for byte in bytes {
        eprint!(rt; "{byte:02x}")?;
    }
    Ok(())
}

/// Tells the home pages of a card, which begin with the length of its state.
fn tell_home(rt: &HostRuntime, card: u32, pages: &MemoryPages) -> io::Result<()>
    requires { pages.now.memory.on ≡ true }
{
    eprint!(rt; "card {card} home ")?;
    for page in 1..18 {
        tell_page(rt, &pages.read(page))?;
    }
    eprintln!(rt)
}

/// Tells what a run left.
fn tell(rt: &HostRuntime, bank: Vec<Held<MemoryPages>>, tally: &Tally) -> io::Result<()> {
    let blank = shown_by(&turned_on(MemoryPages::blank()));
    let mut card: u32 = 0;
    for pages in bank {
        let pages = turned_on(pages.into_inner());
        let shown = shown_by(&pages);
        if shown != blank {
            let PagesShown { marks, sum } = shown;
            eprintln!(rt; "card {card} marks {marks} pages {sum:016x}")?;
            tell_home(rt, card, &pages)?;
        }
        card = card.saturating_add(1);
    }
    let [approved, declined, other, replies] = tally.counts();
    eprintln!(rt; "tally {approved} {declined} {other} {replies}")
}

/// The words of the run.
fn words(alloc: Global) -> Result<Vec<String>, AllocError> {
    let mut words = Vec::new(alloc);
    words.push(String::from_str(alloc, "replay")?)?;
    Ok(words)
}

/// The run over these pages, from standard input to standard output; `AllocError` where there is no memory for its word.
fn replay<P: Pages>(rt: &HostRuntime, bank: Vec<P>) -> Result<Finished<P>, AllocError>
    requires pages { length bank.items ≡ 64 }
    requires blank { All IsBlank (map P.memory bank.items) }
{
    let words = words(rt.alloc())?;
    let mut source = StdinSource::new(rt.reader());
    let mut sink = StdoutSink::new(io::writer(rt));
    Ok(run(rt.alloc(), &words, bank, &mut source, &mut sink))
}

/// The run, and what it left. Where there is no memory for the word or the bank, nothing is run or told.
fn replay_and_tell(rt: &HostRuntime) -> ExitCode {
    let Ok(bank) = blank_bank(rt.alloc()) else {
        return ExitCode::from(NO_MEMORY);
    };
    let Ok(finished) = replay(rt, bank) else {
        return ExitCode::from(NO_MEMORY);
    };
    match tell(rt, finished.bank, &finished.tally) {
        Ok(()) => ExitCode::from(finished.status),
        Err(_) => ExitCode::from(NOT_TOLD),
    }
}

/// The run over pages whose unsure cells give any bytes.
fn replay_rough(rt: &HostRuntime) -> ExitCode {
    let Ok(bank) = rough_bank(rt.alloc(), WORD) else {
        return ExitCode::from(NO_MEMORY);
    };
    match replay(rt, bank) {
        Ok(finished) => ExitCode::from(finished.status),
        Err(AllocError) => ExitCode::from(NO_MEMORY),
    }
}

/// Whether the word `rough` stands behind the program's name; an error where there is no memory for the words.
fn is_rough(rt: &HostRuntime) -> io::Result<bool> {
    for word in env::args(rt)?.skip(1) {
        if word.as_str() == "rough" {
            return Ok(true);
        }
    }
    Ok(false)
}

fn main(rt: HostRuntime) -> ExitCode {
    match is_rough(&rt) {
        Ok(true) => replay_rough(&rt),
        Ok(false) => replay_and_tell(&rt),
        Err(_) => ExitCode::from(NO_MEMORY),
    }
}
