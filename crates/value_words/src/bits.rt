//! Words for the bits of data objects. A bit is the number BYTE times ten plus BIT: bytes count from 1
//! at the left, and the bits of a byte from 8 at the left to 1.

/// Terminal verification results, and the action codes (EMV 4.3 Book 3 Annex C5).
pub const RESULT_BITS: [(u32, &[u8]); 40] = [
    (18, b"offline data authentication was not performed"),
    (17, b"offline static data authentication failed"),
    (16, b"ICC data missing"),
    (15, b"card appears on terminal exception file"),
    (14, b"offline dynamic data authentication failed"),
    (
        13,
        b"combined DDA and application cryptogram generation failed",
    ),
    (12, b"static data authentication was selected"),
    (11, b"reserved"),
    (28, b"ICC and terminal have different application versions"),
    (27, b"expired application"),
    (26, b"application not yet effective"),
    (25, b"requested service not allowed for card product"),
    (24, b"new card"),
    (23, b"reserved"),
    (22, b"reserved"),
    (21, b"reserved"),
    (38, b"cardholder verification was not successful"),
    (37, b"unrecognised cardholder verification method"),
    (36, b"PIN Try Limit exceeded"),
    (
        35,
        b"PIN entry required and PIN pad not present or not working",
    ),
    (
        34,
        b"PIN entry required, PIN pad present, but PIN was not entered",
    ),
    (33, b"online PIN entered"),
    (32, b"reserved"),
    (31, b"reserved"),
    (48, b"transaction exceeds floor limit"),
    (47, b"lower consecutive offline limit exceeded"),
    (46, b"upper consecutive offline limit exceeded"),
    (45, b"transaction selected randomly for online processing"),
    (44, b"merchant forced transaction online"),
    (43, b"reserved"),
    (42, b"reserved"),
    (41, b"reserved"),
    (58, b"default TDOL used"),
    (57, b"issuer authentication failed"),
    (56, b"script processing failed before final GENERATE AC"),
    (55, b"script processing failed after final GENERATE AC"),
    (54, b"reserved"),
    (53, b"reserved"),
    (52, b"reserved"),
    (51, b"reserved"),
];

/// Transaction status information (EMV 4.3 Book 3 Annex C6).
pub const STATUS_BITS: [(u32, &[u8]); 6] = [
    (18, b"offline data authentication"),
    (17, b"cardholder verification"),
    (16, b"card risk management"),
    (15, b"issuer authentication"),
    (14, b"terminal risk management"),
    (13, b"script processing"),
];

/// Application interchange profile (EMV 4.3 Book 3 Annex C1).
pub const INTERCHANGE_BITS: [(u32, &[u8]); 6] = [
    (17, b"static data authentication"),
    (16, b"dynamic data authentication"),
    (15, b"cardholder verification"),
    (14, b"terminal risk management"),
    (13, b"issuer authentication"),
    (11, b"combined DDA and application cryptogram"),
];

/// Application usage control (EMV 4.3 Book 3 Annex C2).
pub const USAGE_BITS: [(u32, &[u8]); 10] = [
    (18, b"domestic cash"),
    (17, b"international cash"),
    (16, b"domestic goods"),
    (15, b"international goods"),
    (14, b"domestic services"),
    (13, b"international services"),
    (12, b"ATMs"),
    (11, b"terminals other than ATMs"),
    (28, b"domestic cashback"),
    (27, b"international cashback"),
];

/// Terminal capabilities (EMV 4.3 Book 4 Annex A2).
pub const CAPABILITY_BITS: [(u32, &[u8]); 12] = [
    (18, b"manual key entry"),
    (17, b"magnetic stripe"),
    (16, b"IC with contacts"),
    (28, b"plaintext PIN for ICC verification"),
    (27, b"enciphered PIN for online verification"),
    (26, b"signature (paper)"),
    (25, b"enciphered PIN for offline verification"),
    (24, b"no CVM required"),
    (38, b"SDA"),
    (37, b"DDA"),
    (36, b"card capture"),
    (34, b"CDA"),
];

/// Additional terminal capabilities (EMV 4.3 Book 4 Annex A3).
pub const ADDITIONAL_BITS: [(u32, &[u8]); 27] = [
    (18, b"cash"),
    (17, b"goods"),
    (16, b"services"),
    (15, b"cashback"),
    (14, b"inquiry"),
    (13, b"transfer"),
    (12, b"payment"),
    (11, b"administrative"),
    (28, b"cash deposit"),
    (38, b"numeric keys"),
    (37, b"alphabetic and special characters keys"),
    (36, b"command keys"),
    (35, b"function keys"),
    (48, b"print (attendant)"),
    (47, b"print (cardholder)"),
    (46, b"display (attendant)"),
    (45, b"display (cardholder)"),
    (42, b"code table 10"),
    (41, b"code table 9"),
    (58, b"code table 8"),
    (57, b"code table 7"),
    (56, b"code table 6"),
    (55, b"code table 5"),
    (54, b"code table 4"),
    (53, b"code table 3"),
    (52, b"code table 2"),
    (51, b"code table 1"),
];

/// Card status update of issuer authentication data (EMV 4.3 Book 3 Annex C8).
pub const UPDATE_BITS: [(u32, &[u8]); 5] = [
    (18, b"approved"),
    (28, b"reset the totals"),
    (27, b"block the application"),
    (26, b"block the card"),
    (25, b"PIN tries to their limit"),
];
