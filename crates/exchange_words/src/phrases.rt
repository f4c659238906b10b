//! The longer phrases, each written once.

/// Of a command that has no answer.
pub const NO_ANSWER_YET: &[u8] = b"the card was pulled out before it had answered";

/// Of a command that may leave something on the card.
pub const MAY_BE_KEPT: &[u8] = b"; its next power line tells whether that was kept";

/// Commands of which the name alone is told, by class and instruction (EMV 4.3 Book 3 section 6.5, ISO/IEC 7816-4).
pub const OTHER_COMMANDS: [(u32, &[u8]); 15] = [
    (0x0084, b"GET CHALLENGE"),
    (0x0088, b"INTERNAL AUTHENTICATE"),
    (0x00b0, b"READ BINARY"),
    (0x00c0, b"GET RESPONSE"),
    (0x00d6, b"UPDATE BINARY"),
    (0x00dc, b"UPDATE RECORD"),
    (0x04da, b"PUT DATA"),
    (0x04dc, b"UPDATE RECORD"),
    (0x8416, b"CARD BLOCK"),
    (0x8418, b"APPLICATION UNBLOCK"),
    (0x841e, b"APPLICATION BLOCK"),
    (0x8424, b"PIN CHANGE/UNBLOCK"),
    (0x8c16, b"CARD BLOCK"),
    (0x8c1e, b"APPLICATION BLOCK"),
    (0x8c24, b"PIN CHANGE/UNBLOCK"),
];
