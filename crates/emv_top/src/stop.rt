//! What stops a run.

/// Why a run stops before its end.
#[derive(Clone, Copy, PartialEq, Eq, Debug)]
pub enum Stop {
    /// The sink failed.
    Sink,
    /// There was no memory.
    OutOfMemory,
}
