//! Banks of pages in memory, for the cards of a run.
ghost use Rattle.std.specs.Prelude.{◌≡◌, IfOk, length, map};
ghost use Rattle.std.specs.List.{All};
ghost use Rattle.emv_ports.specs.Memory.{IsBlank};
ghost use Rattle.emv_ports.specs.Bank.{IsNewMemory, IsNewRough};

use crate::{Held, MemoryPages, RoughPages};
use std::alloc::{AllocError, Global};

/// A run has pages for so many cards.
const CARDS: usize = 64;

/// Blank pages, off, for the cards of a run, each in a box: a card moves a pointer, and not its pages.
/// `AllocError` is want of memory.
pub fn blank_bank(alloc: Global) -> Result<Vec<Held<MemoryPages>>, AllocError>
    ensures pages { IfOk result (λ bank. length bank.items ≡ 64) }
    ensures blank { IfOk result (λ bank. All IsBlank (map (λ pages. pages.memory) bank.items)) }
    ensures made { IfOk result (λ bank. All IsNewMemory bank.items) }
{
    let mut bank = Vec::with_capacity(alloc, CARDS)?;
    for _card in 0..CARDS {
        bank.push(Held::new(alloc, MemoryPages::blank())?)?;
    }
    Ok(bank)
}

/// The same of pages whose unsure cells give bytes that follow from `word`, as `RoughPages` does.
pub fn rough_bank(alloc: Global, word: u32) -> Result<Vec<Held<RoughPages>>, AllocError>
    ensures pages { IfOk result (λ bank. length bank.items ≡ 64) }
    ensures blank { IfOk result (λ bank. All IsBlank (map (λ pages. pages.memory) bank.items)) }
    ensures made { IfOk result (λ bank. All (IsNewRough word) bank.items) }
{
    let mut bank = Vec::with_capacity(alloc, CARDS)?;
    for _card in 0..CARDS {
        bank.push(Held::new(alloc, RoughPages::blank(word))?)?;
    }
    Ok(bank)
}
