//! The reference of each code, bit and cause: the rule of the profile that it comes from, by its short name, and
//! its section, or a section alone where the profile has no rule of it. Where either of two rules may be the one,
//! both stand there. Codes and bits are numbered as in `value_words`.

/// Terminal verification results: the rule that sets the bit.
pub const RESULT_REFERENCES: [(u32, &[u8]); 40] = [
    (18, b"READ-9; Book 3, 10.3"),
    (17, b"Book 3, 10.3"),
    (16, b"CVM-2 or RISK-7; Book 3, 10.5 or Book 3, 10.6.3"),
    (15, b"RISK-1; Book 3, 10.6"),
    (14, b"Book 3, 10.3"),
    (13, b"Book 3, 10.3"),
    (12, b"Book 3, 10.3"),
    (11, b"Book 3, Annex C5"),
    (28, b"REST-1; Book 3, 10.4.1"),
    (27, b"REST-4; Book 3, 10.4.3"),
    (26, b"REST-3; Book 3, 10.4.3"),
    (25, b"REST-2; Book 3, 10.4.2"),
    (24, b"RISK-10; Book 3, 10.6.3"),
    (23, b"Book 3, Annex C5"),
    (22, b"Book 3, Annex C5"),
    (21, b"Book 3, Annex C5"),
    (38, b"CVM-12; Book 3, 10.5"),
    (37, b"CVM-5; Book 3, 10.5"),
    (36, b"CVM-9; Book 3, 10.5"),
    (35, b"CVM-6; Book 3, 10.5"),
    (34, b"CVM-7; Book 3, 10.5"),
    (33, b"CVM-8; Book 3, 10.5"),
    (32, b"Book 3, Annex C5"),
    (31, b"Book 3, Annex C5"),
    (48, b"RISK-3; Book 3, 10.6.1"),
    (47, b"RISK-9; Book 3, 10.6.3"),
    (46, b"RISK-9; Book 3, 10.6.3"),
    (45, b"RISK-5; Book 3, 10.6.2"),
    (44, b"RISK-1; Book 3, 10.6"),
    (43, b"Book 3, Annex C5"),
    (42, b"Book 3, Annex C5"),
    (41, b"Book 3, Annex C5"),
    (58, b"Book 3, 9.2.2"),
    (57, b"ONL-6; Book 3, 10.9"),
    (56, b"SCR-5; Book 3, 10.10"),
    (55, b"SCR-5; Book 3, 10.10"),
    (54, b"Book 3, Annex C5"),
    (53, b"Book 3, Annex C5"),
    (52, b"Book 3, Annex C5"),
    (51, b"Book 3, Annex C5"),
];

/// Transaction status information: the step that was performed.
pub const STATUS_REFERENCES: [(u32, &[u8]); 6] = [
    (18, b"Book 3, 10.3"),
    (17, b"CVM-3; Book 3, 10.5"),
    (16, b"Book 3, 10.8"),
    (15, b"ONL-5; Book 3, 10.9"),
    (14, b"RISK-2; Book 3, 10.6"),
    (13, b"Book 3, 10.10"),
];

/// Methods of cardholder verification, by the low six bits.
pub const METHOD_REFERENCES: [(u32, &[u8]); 8] = [
    (0x00, b"Book 3, Annex C3"),
    (0x01, b"CVM-9; Book 3, 10.5"),
    (0x02, b"CVM-8; Book 3, 10.5"),
    (0x03, b"CVM-9; Book 3, 10.5"),
    (0x04, b"CVM-6; Book 3, 10.5"),
    (0x05, b"CVM-6; Book 3, 10.5"),
    (0x1e, b"Book 3, Annex C3"),
    (0x1f, b"Book 3, Annex C3"),
];

/// Results of cardholder verification.
pub const OUTCOME_REFERENCES: [(u32, &[u8]); 3] = [
    (0x00, b"Book 4, Annex A4"),
    (0x01, b"Book 4, Annex A4"),
    (0x02, b"Book 4, Annex A4"),
];

/// Authorisation response codes: the terminal's own, and those of the issuer's reply to a request.
pub const RESPONSE_REFERENCES: [(u32, &[u8]); 10] = [
    (0x5931, b"GEN-1; Book 4, Annex A6"),
    (0x5a31, b"GEN-1; Book 4, Annex A6"),
    (0x5933, b"ONL-3; Book 3, 10.7 and 10.9"),
    (0x5a33, b"ONL-3; Book 3, 10.7 and 10.9"),
    (0x3030, b"HOST-9; own"),
    (0x3035, b"HOST-5; own"),
    (0x3134, b"HOST-3; own"),
    (0x3531, b"HOST-8; own"),
    (0x3534, b"HOST-6; own"),
    (0x3535, b"HOST-7; own"),
];

/// Commands, by class and instruction.
pub const COMMAND_REFERENCES: [(u32, &[u8]); 22] = [
    (0x0020, b"CARD-10; Book 3, 6.5.12"),
    (0x0082, b"CARD-14; Book 3, 6.5.4"),
    (0x0084, b"Book 3, 6.5.6"),
    (0x0088, b"Book 3, 6.5.9"),
    (0x00a4, b"CARD-7; Book 1, 11.3"),
    (0x00b0, b"ISO/IEC 7816-4"),
    (0x00b2, b"CARD-8; Book 1, 11.2"),
    (0x00c0, b"ISO/IEC 7816-4"),
    (0x00d6, b"ISO/IEC 7816-4"),
    (0x00dc, b"ISO/IEC 7816-4"),
    (0x04da, b"CARD-17; own"),
    (0x04dc, b"ISO/IEC 7816-4"),
    (0x80a8, b"CARD-9; Book 3, 6.5.8"),
    (0x80ae, b"CARD-12 or CARD-13; Book 3, 6.5.5"),
    (0x80ca, b"CARD-11; Book 3, 6.5.7"),
    (0x8416, b"CARD-15; Book 3, 6.5.1 to 6.5.3"),
    (0x8418, b"CARD-15; Book 3, 6.5.1 to 6.5.3"),
    (0x841e, b"CARD-15; Book 3, 6.5.1 to 6.5.3"),
    (0x8424, b"CARD-16; Book 3, 6.5.10"),
    (0x8c16, b"Book 3, 6.5.3"),
    (0x8c1e, b"Book 3, 6.5.1"),
    (0x8c24, b"Book 3, 6.5.10"),
];

/// Status words of any command.
pub const STATUS_WORD_REFERENCES: [(u32, &[u8]); 17] = [
    (0x6200, b"ISO/IEC 7816-4, 5.1.3"),
    (0x6283, b"Book 3, 6.3.5"),
    (0x6300, b"Book 3, 6.3.5"),
    (0x6700, b"ISO/IEC 7816-4, 5.1.3"),
    (0x6983, b"Book 3, 6.3.5"),
    (0x6984, b"Book 3, 6.3.5"),
    (0x6985, b"Book 3, 6.3.5"),
    (0x6988, b"ISO/IEC 7816-4, 5.1.3"),
    (0x6a81, b"Book 3, 6.3.5"),
    (0x6a82, b"Book 3, 6.3.5"),
    (0x6a83, b"Book 3, 6.3.5"),
    (0x6a86, b"ISO/IEC 7816-4, 5.1.3"),
    (0x6a88, b"Book 3, 6.3.5"),
    (0x6d00, b"ISO/IEC 7816-4, 5.1.3"),
    (0x6e00, b"ISO/IEC 7816-4, 5.1.3"),
    (0x6f00, b"ISO/IEC 7816-4, 5.1.3"),
    (0x9000, b"Book 3, 6.3.5"),
];

/// Status words of one command: the instruction, then the status.
pub const ANSWER_REFERENCES: [(u32, &[u8]); 10] = [
    (0x206a88, b"CARD-10; Book 3, 6.5.12"),
    (0x209000, b"CARD-10; Book 3, 6.5.12"),
    (0x826300, b"CARD-14; Book 3, 6.5.4"),
    (0x829000, b"CARD-14; Book 3, 6.5.4"),
    (0xa46a82, b"CARD-7; Book 1, 11.3"),
    (0xa86985, b"CARD-9; Book 3, 6.5.8"),
    (0xb26985, b"CARD-4; own"),
    (0xb26a82, b"CARD-8; Book 1, 11.2"),
    (0xca6985, b"CARD-4; own"),
    (0xae6700, b"CARD-5; own"),
];

/// Why a terminal ends a payment as it selects an application.
pub const SELECT_CAUSES: [(&[u8], &[u8]); 3] = [
    (b"no-candidate", b"SEL-22; Book 1, 12.4"),
    (
        b"card-blocked",
        b"SEL-2 or SEL-9; Book 1, 12.3.2 or Book 1, 12.3.3",
    ),
    (b"answer", b"ANS-1; ISO/IEC 7816-4, 5.1"),
];

/// The same at GET PROCESSING OPTIONS.
pub const INITIATE_CAUSES: [(&[u8], &[u8]); 7] = [
    (b"answer", b"ANS-1; ISO/IEC 7816-4, 5.1"),
    (b"status", b"INIT-4; Book 3, 10.1"),
    (b"coding", b"INIT-6; Book 3, 6.5.8.4"),
    (b"missing", b"INIT-6; Book 3, 6.5.8.4"),
    (b"value", b"INIT-6; Book 3, 6.5.8.4"),
    (b"afl", b"INIT-9; Book 3, 10.2"),
    (b"dol", b"INIT-2; Book 3, 5.4 and 10.1"),
];

/// The same as it reads the records.
pub const READ_CAUSES: [(&[u8], &[u8]); 8] = [
    (b"answer", b"ANS-1; ISO/IEC 7816-4, 5.1"),
    (b"status", b"READ-2; Book 3, 10.2"),
    (b"coding", b"READ-3; Book 3, 10.2"),
    (b"repeated", b"READ-5; Book 3, 10.2"),
    (b"missing", b"READ-7; Book 3, 7.2"),
    (b"value", b"READ-8; Book 3, Annex A"),
    (b"dol", b"READ-8; Book 3, Annex A"),
    (b"too-much", b"READ-5; Book 3, 10.2"),
];

/// The same at the first GENERATE AC.
pub const FIRST_CAUSES: [(&[u8], &[u8]); 7] = [
    (b"answer", b"ANS-1; ISO/IEC 7816-4, 5.1"),
    (b"status", b"GEN-3; Book 3, 6.5.5"),
    (b"coding", b"GEN-4; Book 3, 6.5.5.4"),
    (b"missing", b"GEN-4; Book 3, 6.5.5.4"),
    (b"value", b"GEN-4; Book 3, 6.5.5.4"),
    (b"dol", b"GEN-2; Book 3, 6.5.5"),
    (b"kind", b"GEN-5; Book 3, 6.5.5.4 and 10.8"),
];

/// The same at the second GENERATE AC.
pub const SECOND_CAUSES: [(&[u8], &[u8]); 7] = [
    (b"answer", b"ANS-1; ISO/IEC 7816-4, 5.1"),
    (b"status", b"ONL-9; Book 3, 10.11"),
    (b"coding", b"ONL-9; Book 3, 10.11"),
    (b"missing", b"ONL-9; Book 3, 10.11"),
    (b"value", b"ONL-9; Book 3, 10.11"),
    (b"dol", b"ONL-9; Book 3, 10.11"),
    (b"kind", b"ONL-9; Book 3, 10.11"),
];

/// The same in every other step.
pub const OTHER_CAUSES: [(&[u8], &[u8]); 1] = [(b"answer", b"ANS-1; ISO/IEC 7816-4, 5.1")];

/// A locator of a wrong length, number 0.
pub const LOCATOR_LENGTH: &[u8] = b"INIT-7 or INIT-8; own or Book 3, 10.2";

/// No rule of cardholder verification was performed, since none was asked for or given.
pub const NOT_VERIFIED: &[u8] = b"CVM-1 or CVM-2; Book 3, 10.5";

/// No rule of cardholder verification was performed, though some were tried.
pub const NO_RULE: &[u8] = b"CVM-12; Book 3, 10.5";

/// A method of cardholder verification that is not known.
pub const UNKNOWN_METHOD: &[u8] = b"CVM-5; Book 3, 10.5";

/// The tries that a wrong PIN leaves.
pub const TRIES_LEFT: &[u8] = b"CARD-10; Book 3, 6.5.12";

/// The card is gone before it answers.
pub const CUT: &[u8] = b"ANS-2; own";

/// A denial code, or what follows it.
pub const DENIAL: &[u8] = b"TAA-2; Book 3, 10.7";

/// An online or a default code, or where the terminal decides.
pub const ONLINE: &[u8] = b"TAA-3; Book 3, 10.7";

/// Terminal action analysis, where the codes that decide are not known.
pub const ANALYSIS: &[u8] = b"TAA-2 or TAA-3; Book 3, 10.7";

/// A terminal that is unable to go online.
pub const UNABLE: &[u8] = b"ONL-3; Book 3, 10.7 and 10.9";

/// The issuer's reply decides.
pub const REPLY: &[u8] = b"ONL-8; Book 3, 10.11";

/// Which kind of cryptogram the card chooses first.
pub const FIRST_KIND: &[u8] = b"CARD-20; own";

/// Which kind of cryptogram the card chooses behind the issuer's reply, or without it.
pub const SECOND_KIND: &[u8] = b"CARD-21; own";

/// The issuer: a number that no account has.
pub const NO_ACCOUNT: &[u8] = b"HOST-3; own";

/// The issuer: a cryptogram that isn't right, or other bytes of the transaction before.
pub const WRONG_CRYPTOGRAM: &[u8] = b"HOST-2 or HOST-4; own";

/// The issuer: a blocked account, another currency, or a transaction that is closed.
pub const NOT_ALLOWED: &[u8] = b"HOST-5; own";

/// The issuer: an expired card.
pub const EXPIRED: &[u8] = b"HOST-6; own";

/// The issuer: a PIN that isn't the account's.
pub const WRONG_PIN: &[u8] = b"HOST-7; own";

/// The issuer: a balance below the amount.
pub const ABOVE_BALANCE: &[u8] = b"HOST-8; own";

/// The issuer: an amount that is held.
pub const HELD: &[u8] = b"HOST-9; own";

/// The issuer: a presentment or a reversal.
pub const SETTLED: &[u8] = b"HOST-10 or HOST-11; own";
