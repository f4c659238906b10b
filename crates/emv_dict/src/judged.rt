//! What terminal risk management hands on (EMV 4.3 Book 3 section 10.6).
use crate::tvr::Tvr;

/// What terminal risk management found.
#[derive(Clone, Copy, PartialEq, Eq, Debug)]
pub struct Judged {
    /// The flags whose condition holds.
    pub tvr: Tvr,
    /// Whether it counts as performed: the card asks for it.
    pub performed: bool,
}
