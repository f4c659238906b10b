//! `kernel_dialogues [AGAIN]` plays dialogues of a terminal, a line of standard input each, and says how many
//! it played and which of them weren't as their line says. Each dialogue is played AGAIN times more in the
//! same terminal, once where no number is given. A line that begins with `#` says what those below it are about.
#![tactic(auto)]

mod names;
mod outset;
mod play;

use play::{DialogueBuffers, play};
use std::{env, io};

fn main(rt: HostRuntime) -> io::Result<()> {
    let again = match env::args(&rt)?.nth(1) {
        Some(word) => word.parse::<u32>().unwrap_or(1),
        None => 1,
    };
    let mut room = DialogueBuffers::new();
    let mut played = 0u64;
    for line in rt.lines(rt.alloc()) {
        let line = line?;
        if line.as_str().starts_with("#") {
            continue;
        }
        if let Err(difference) = play(rt.alloc(), line.as_str(), again, &mut room) {
            println!(rt; "{difference:?} in {line}")?;
        }
        played = played.saturating_add(1);
    }
    println!(rt; "played {played}")
}
