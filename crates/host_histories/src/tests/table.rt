//! What a history of a host is, and the replies without a response. Where the replies come from, docs/proof/tested.md
//! says; none is the host's own.
use super::fixture::Opening;

/// A message to the host.
#[derive(Clone, Copy)]
pub enum Turn {
    /// A message and its reply.
    Says(&'static str, &'static str),
    /// The message at this place once more, which has the same reply.
    Again(usize),
}

/// What a host gets, and the balances that are left.
#[derive(Clone, Copy)]
pub struct History {
    pub accounts: &'static [Opening],
    pub turns: &'static [Turn],
    pub balances: &'static [(&'static str, i128)],
}

pub const APPROVED: &str = "e2048a023030";

pub const DECLINED: &str = "e2048a023035";

pub const UNKNOWN_ACCOUNT: &str = "e2048a023134";
