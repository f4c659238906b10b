//! What cardholder verification hands on (EMV 4.3 Book 3 section 10.5).
use crate::digits::Digits;
use crate::tvr::Tvr;

/// What cardholder verification came to.
#[derive(Drop, Debug)]
pub struct Verified {
    /// The results, object 9F34: the two bytes of the last rule performed, and 01 failed, 02
    /// successful or 00 unknown.
    pub results: [u8; 3],
    /// The flags whose condition holds.
    pub tvr: Tvr,
    /// Whether it was performed: the card asks for it and has rules.
    pub performed: bool,
    /// The PIN that goes to the issuer, where there is one.
    pub online_pin: Option<Digits>,
}
