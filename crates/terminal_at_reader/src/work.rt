//! What a terminal is at.
use crate::till::Till;
use kernel::Kernel;

/// What a terminal is at.
#[derive(Clone, Copy, PartialEq, Eq, Debug)]
pub enum Phase {
    /// A purchase.
    Pays,
    /// It rests.
    Rests,
    /// A settlement, in which so many messages were answered and the one behind them waits for its reply.
    Settles(usize),
}

/// A terminal with the purchase that runs, or ran last, and what it has of its purchases.
#[derive(Drop)]
pub struct Work<'s> {
    pub kernel: Kernel<'s>,
    /// The amount of that purchase.
    pub amount: u64,
    /// The terminal's type.
    pub terminal_type: u8,
    pub phase: Phase,
    pub till: Till,
}
