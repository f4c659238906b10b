//! When the power is cut, and what that makes of a call.

/// Where in a commit the power is cut.
#[derive(Clone, Copy, Debug, PartialEq, Eq)]
pub enum TearAt {
    /// Before write number k of the commit, counted from 1: nothing of it reaches the page.
    Before(u8),
    /// Within write number k of the commit, counted from 1: its page is left torn.
    Within(u8),
    /// At the release, behind all writes.
    Release,
}

/// A plan to cut the power once.
#[derive(Clone, Copy, Debug, PartialEq, Eq)]
pub struct Tear {
    /// The number of marks since power-up: 0 before the first mark.
    pub commit: u8,
    /// Where in that commit.
    pub at: TearAt,
}

/// What a plan makes of one write or release.
#[derive(Clone, Copy, Debug, PartialEq, Eq)]
pub enum Cut {
    /// The call does its work.
    Spared,
    /// The power is gone before anything changes.
    CutBefore,
    /// The power is gone within the write.
    CutWithin,
}
