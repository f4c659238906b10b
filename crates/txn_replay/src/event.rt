//! The events of a run.

/// What happens in a run, one exchange at a time.
#[derive(Clone, Copy, PartialEq, Eq, Debug)]
pub enum Event {
    /// One exchange of the lane of this index.
    Turn(usize),
    /// The step of the settlement of this number, from 0: a message, or the opening of a lane's store.
    Settle(u32),
    /// The step of the audit of this number, from 0.
    Audit(u32),
}
