//! What a history of purchases is. An independent implementation of the rules reports what is told of each.
use super::document::Part;

/// A document, and what becomes of it.
#[derive(Clone, Copy)]
pub struct History {
    /// The texts of the base document that are others here.
    pub changes: &'static [(&'static str, &'static str)],
    /// What stands behind it.
    pub more: &'static [Part],
    /// The report without its exchanges, but with the replies to the settlement, and the end lines up to
    /// their bits.
    pub told: &'static str,
    /// How many purchases were approved, were declined and ended otherwise, and the replies that their
    /// terminals had.
    pub counts: [u64; 4],
    /// How many decisions the first and the second card kept or began to keep.
    pub marks: [u32; 2],
    /// How many captures the first terminal's store kept, began to keep or dropped.
    pub stored: u32,
}
