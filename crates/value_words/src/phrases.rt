//! The longer phrases, each written once.

/// Before the issuer's response code.
pub const ISSUER: &[u8] = b"the issuer's code is ";

/// The first list has no terminal verification results.
pub const NO_RESULTS: &[u8] = b"the list 8C has no TVR; the bits stand at the end line";

/// No list had terminal verification results.
pub const NO_RESULTS_AT_ALL: &[u8] = b"no list had a TVR; the bits stand at the end line";

/// Before the bits of a denial code.
pub const DENIED: &[u8] = b"a denial code has ";

/// Before the bits of a default code, where the terminal is offline only.
pub const OFFLINE_DEFAULT: &[u8] = b"an offline-only terminal, and a default code has ";

/// Where the card's denial code does not explain it.
pub const TERMINAL_DENIAL: &[u8] =
    b"9F0E has no set bit: the terminal's denial code has one, or the terminal is offline only and a default code has ";

/// The terminal is online only.
pub const ONLINE_ONLY: &[u8] = b"an online-only terminal asks the issuer each time";

/// Before the bits of an online code.
pub const ONLINE: &[u8] = b"an online code has ";

/// Behind these bits, where the terminal is not known.
pub const OR_ONLINE_ONLY: &[u8] = b" (or the terminal is online only)";

/// Where the card's online code does not explain it.
pub const TERMINAL_ONLINE: &[u8] =
    b"no set bit in 9F0F: the terminal's online code has one, or the terminal is online only";

/// No code has a bit, and the terminal is offline only.
pub const OFFLINE_NONE: &[u8] =
    b"an offline-only terminal, and no denial or default code has a set bit";

/// No code has a bit.
pub const NONE_SET: &[u8] = b"no denial or online code has a set bit";

/// Before the bits of an online code behind which no issuer is asked.
pub const OFFLINE_PERHAPS: &[u8] =
    b"no denial code has a set bit, and the terminal is offline only, since an online code has ";

/// Behind these bits.
pub const NO_DEFAULT: &[u8] = b": no default code has one";

/// No code has a bit, and the terminal is not known.
pub const NONE_PERHAPS: &[u8] =
    b"no denial or online code has a set bit (of an offline-only terminal: no denial or default code)";

/// Before the bits of a default code, without the issuer.
pub const UNABLE_DEFAULT: &[u8] = b"unable to go online, and a default code has ";

/// Without the issuer, and the terminal is online only.
pub const UNABLE_ONLINE_ONLY: &[u8] = b"unable to go online, and an online-only terminal declines";

/// Where the card's default code does not explain it.
pub const UNABLE_TERMINAL: &[u8] =
    b"unable to go online, and no set bit in 9F0D: the terminal's default code has one, or the terminal is online only";

/// Without the issuer, and no default code has a bit.
pub const UNABLE_NONE: &[u8] = b"unable to go online, and no default code has a set bit";

/// Nothing explains it.
pub const UNEXPLAINED: &[u8] = b"not explained by the codes";

/// A method of cardholder verification that is not known.
pub const UNKNOWN_METHOD: &[u8] = b"unrecognised method";

/// Before a condition of it that is not known.
pub const UNKNOWN_CONDITION: &[u8] = b"never (condition ";

/// The cardholder must confirm the application.
pub const CONFIRM: &[u8] = b", the cardholder must confirm";

/// No rule of cardholder verification was performed.
pub const NO_RULE: &[u8] = b"no rule was performed";

/// Of a rule behind which others are tried.
pub const GO_ON: &[u8] = b"; go on if unsuccessful";

/// Of a rule that ends cardholder verification.
pub const FAIL: &[u8] = b"; fail if unsuccessful";

/// Before the tries that a wrong PIN leaves.
pub const WRONG_PIN: &[u8] = b"wrong PIN, tries left ";
