//! The longer phrases, each written once.

/// The card was pulled out as it was powered up.
pub const POWER_TORN: &[u8] = b"the card was pulled out while it was powered up";

/// The card has canned answers.
pub const POWER_CANNED: &[u8] = b"a card of canned answers: it has no counters";

/// A card of canned answers has none left.
pub const CARD_GONE: &[u8] = b"the card has no answer left: for the terminal it is gone";

/// The issuer's reply did not come.
pub const NO_REPLY: &[u8] = b"no reply: request or reply was lost";

/// A purchase was lost with the terminal's power.
pub const PURCHASE_LOST: &[u8] =
    b"the terminal lost power while it wrote to its own memory: whether the purchase is kept shows at its settlement";

/// Before the entry from which a trace is another one.
pub const TRACE_DIFFERS: &[u8] = b"the trace is the terminal's up to entry ";

/// Behind this entry.
pub const OR_MISSING: &[u8] = b", counted from 0, which is another or missing";
