//! Words for codes: methods, kinds, responses, statuses and commands. A code is the big-endian number of
//! its bytes.

/// Methods of cardholder verification, by the low six bits (EMV 4.3 Book 3 Annex C3).
pub const METHODS: [(u32, &[u8]); 8] = [
    (0x00, b"fail CVM processing"),
    (0x01, b"plaintext PIN verified by the ICC"),
    (0x02, b"enciphered PIN verified online"),
    (0x03, b"plaintext PIN verified by the ICC, and signature"),
    (0x04, b"enciphered PIN verified by the ICC"),
    (0x05, b"enciphered PIN verified by the ICC, and signature"),
    (0x1e, b"signature (paper)"),
    (0x1f, b"no CVM required"),
];

/// Conditions of cardholder verification (EMV 4.3 Book 3 Annex C3).
pub const CONDITIONS: [(u32, &[u8]); 10] = [
    (0x00, b"always"),
    (0x01, b"if unattended cash"),
    (
        0x02,
        b"if not unattended cash, not manual cash and not purchase with cashback",
    ),
    (0x03, b"if the terminal supports it"),
    (0x04, b"if manual cash"),
    (0x05, b"if purchase with cashback"),
    (0x06, b"if in the application currency and under X"),
    (0x07, b"if in the application currency and over X"),
    (0x08, b"if in the application currency and under Y"),
    (0x09, b"if in the application currency and over Y"),
];

/// Results of cardholder verification (EMV 4.3 Book 4 Annex A4).
pub const OUTCOMES: [(u32, &[u8]); 3] = [
    (0x00, b"unknown"),
    (0x01, b"failed"),
    (0x02, b"successful"),
];

/// Kinds of cryptogram, by the two high bits (EMV 4.3 Book 3 section 6.5.5).
pub const CRYPTOGRAMS: [(u32, &[u8]); 4] = [
    (0x00, b"AAC, declined"),
    (0x40, b"TC, approved"),
    (0x80, b"ARQC, the issuer decides"),
    (0xc0, b"reserved"),
];

/// Terminal types (EMV 4.3 Book 4 Annex A1).
pub const TERMINAL_TYPES: [(u32, &[u8]); 6] = [
    (0x21, b"attended, online only"),
    (0x22, b"attended, offline with online capability"),
    (0x23, b"attended, offline only"),
    (0x24, b"unattended, online only"),
    (0x25, b"unattended, offline with online capability"),
    (0x26, b"unattended, offline only"),
];

/// Transaction types (ISO 8583, processing code).
pub const TRADES: [(u32, &[u8]); 3] = [
    (0x00, b"goods or services"),
    (0x01, b"cash"),
    (0x09, b"purchase with cashback"),
];

/// Authorisation response codes, two characters (EMV 4.3 Book 4 Annex A6; ISO 8583).
pub const RESPONSES: [(u32, &[u8]); 10] = [
    (0x5931, b"offline approved"),
    (0x5a31, b"offline declined"),
    (0x5933, b"unable to go online, offline approved"),
    (0x5a33, b"unable to go online, offline declined"),
    (0x3030, b"approved"),
    (0x3035, b"not approved"),
    (0x3134, b"no such account"),
    (0x3531, b"not sufficient funds"),
    (0x3534, b"expired card"),
    (0x3535, b"incorrect PIN"),
];

/// Status words (ISO/IEC 7816-4 section 5.1.3).
pub const STATUSES: [(u32, &[u8]); 17] = [
    (0x6200, b"a warning without more information"),
    (0x6283, b"the application is blocked"),
    (0x6300, b"authentication failed"),
    (0x6700, b"wrong length"),
    (0x6983, b"the PIN is blocked: no try is left"),
    (0x6984, b"the PIN is invalidated"),
    (0x6985, b"conditions of use not satisfied"),
    (0x6988, b"the MAC is wrong"),
    (0x6a81, b"the card is blocked"),
    (0x6a82, b"no such application or file"),
    (0x6a83, b"no such record"),
    (0x6a86, b"wrong P1 or P2"),
    (0x6a88, b"no such data"),
    (0x6d00, b"instruction not supported"),
    (0x6e00, b"class not supported"),
    (0x6f00, b"no precise diagnosis"),
    (0x9000, b"carried out"),
];

/// Status words of one command: the instruction, then the status (EMV 4.3 Book 3 section 6.5).
pub const ANSWERS: [(u32, &[u8]); 10] = [
    (0x206a88, b"the card has no PIN"),
    (0x209000, b"the PIN is right"),
    (0x826300, b"the response cryptogram is wrong"),
    (0x829000, b"the response cryptogram is right"),
    (0xa46a82, b"no such application, or no further one"),
    (
        0xa86985,
        b"no transaction counter is left, or the application is blocked",
    ),
    (0xb26985, b"no application is selected"),
    (0xb26a82, b"no such file"),
    (0xca6985, b"no application is selected"),
    (0xae6700, b"the data are not as long as the card wants"),
];

/// Commands of an issuer script, by the four bytes of the header (EMV 4.3 Book 3 section 6.5).
pub const SCRIPT_COMMANDS: [(u32, &[u8]); 7] = [
    (
        0x04dadf01,
        b"PUT DATA, limit of the number of offline approvals",
    ),
    (
        0x04dadf02,
        b"PUT DATA, limit of the sum of offline approvals",
    ),
    (0x84160000, b"CARD BLOCK"),
    (0x84180000, b"APPLICATION UNBLOCK"),
    (0x841e0000, b"APPLICATION BLOCK"),
    (0x84240000, b"PIN UNBLOCK"),
    (0x84240002, b"PIN CHANGE"),
];

/// Faults of a scenario, by their number.
pub const REFUSALS: [(u32, &[u8]); 6] = [
    (1, b"the bytes are no TOML document"),
    (2, b"a key without a default is absent"),
    (
        3,
        b"another type, a character that may not stand there, or an excluded content",
    ),
    (4, b"a number, a length or an array beyond its limit"),
    (5, b"a key that the table does not have"),
    (6, b"a card or a lane that is not there"),
];

/// Message types of ISO 8583:1987, each as the number of its four digits.
pub const MESSAGE_TYPES: [(u32, &[u8]); 6] = [
    (100, b"request"),
    (110, b"reply to a request"),
    (220, b"presentment"),
    (230, b"reply to a presentment"),
    (400, b"reversal"),
    (410, b"reply to a reversal"),
];

/// Fields of ISO 8583:1987 messages.
pub const FIELDS: [(u32, &[u8]); 10] = [
    (2, b"account number"),
    (3, b"processing code"),
    (4, b"amount"),
    (11, b"system trace audit number (9F36)"),
    (37, b"retrieval reference number"),
    (39, b"response code"),
    (41, b"terminal"),
    (49, b"currency"),
    (52, b"enciphered PIN block"),
    (55, b"its objects"),
];

/// The steps of a payment (EMV 4.3 Book 3 section 8).
pub const STEPS: [(&[u8], &[u8]); 10] = [
    (b"power", b"powering up the card"),
    (b"select", b"selecting an application"),
    (b"initiate", b"GET PROCESSING OPTIONS"),
    (b"read", b"reading the records"),
    (b"verify", b"verifying the cardholder"),
    (b"risk", b"terminal risk management"),
    (b"first", b"the first GENERATE AC"),
    (b"authenticate", b"EXTERNAL AUTHENTICATE"),
    (b"script", b"the scripts before the second GENERATE AC"),
    (b"second", b"the second GENERATE AC"),
];

/// Why a terminal ends a payment.
pub const CAUSES: [(&[u8], &[u8]); 12] = [
    (b"no-candidate", b"no application is left"),
    (b"card-blocked", b"the card is blocked (6A81)"),
    (
        b"answer",
        b"the answer has fewer than 2 or more than 258 bytes",
    ),
    (
        b"status",
        b"the answer has this status, where only 9000 goes on",
    ),
    (
        b"coding",
        b"the body is not of the form that it must have; the place is counted from its first byte",
    ),
    (b"repeated", b"the card gives this object twice"),
    (b"missing", b"this object is not there"),
    (b"value", b"this object has a wrong length or content"),
    (
        b"afl",
        b"this group of the file locator is wrong (0: its length)",
    ),
    (
        b"dol",
        b"this object list cannot be read, or wants more than 252 bytes",
    ),
    (b"too-much", b"more than 512 objects or 16,384 bytes"),
    (b"kind", b"the card may not answer this kind of cryptogram"),
];
