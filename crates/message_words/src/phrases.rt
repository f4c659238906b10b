//! The longer phrases, each written once.

/// Before the sum in the second currency.
pub const SECOND_SUM: &[u8] = b", sum in the second currency ";

/// Before the application transaction counter.
pub const TRANSACTION_COUNTER: &[u8] = b"transaction counter ";

/// The name of the number of offline approvals.
pub const APPROVALS: &[u8] = b"offline approvals";

/// The name of the flag of a blocked application.
pub const BLOCKED: &[u8] = b"application blocked";

/// The name of the flag of a failed issuer authentication.
pub const FAILED: &[u8] = b"issuer authentication failed";

/// Before what changed since the card's last power-up.
pub const SINCE_LAST: &[u8] = b"since its last power-up:";

/// Before the tags of the objects that GENERATE AC had as well.
pub const AS_BEFORE: &[u8] = b"as in GENERATE AC:";

/// Of bytes that are no data objects.
pub const NO_OBJECTS: &[u8] = b"no whole data objects";

/// What the response code 00 says of a presentment.
pub const BOOKED: &[u8] = b"booked";

/// What the response code 00 says of a reversal.
pub const SET_FREE: &[u8] = b"set free";
