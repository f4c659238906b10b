//! The longer phrases, each written once.

/// A command that no script has.
pub const NO_SCRIPT_COMMAND: &[u8] = b"no script command that is known";

/// Before the number of offline approvals.
pub const OFFLINE_APPROVALS: &[u8] = b", offline approvals ";

/// The application is blocked.
pub const APPLICATION_BLOCKED: &[u8] = b", application blocked";

/// Its last issuer authentication failed.
pub const AUTHENTICATION_FAILED: &[u8] = b", last issuer authentication failed";

/// Before a card status update.
pub const STATUS_UPDATE: &[u8] = b", card status update ";

/// Before a response cryptogram.
pub const RESPONSE_CRYPTOGRAM: &[u8] = b"response cryptogram ";

/// A message of the settlement that the issuer refuses.
pub const REFUSED: &[u8] = b"refused: nothing moves";

/// No code of the card has a bit.
pub const IN_NO_CARD_CODE: &[u8] = b"in no code of the card";

/// Before the PIN tries that are left.
pub const PIN_TRIES: &[u8] = b", PIN tries ";
