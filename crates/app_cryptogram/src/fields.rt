ghost use Rattle.std.specs.Prelude.{◌≡◌};

use crate::joining::put;

/// What an application cryptogram covers before the issuer application data, each field as the bytes
/// of its data object (EMV 4.3 Book 2 section 8.1.1).
#[derive(Clone, Copy, PartialEq, Eq, Debug)]
pub struct AcFields {
    /// Amount, Authorised (9F02): twelve decimal digits.
    pub amount: [u8; 6],
    /// Amount, Other (9F03): twelve decimal digits.
    pub other: [u8; 6],
    /// Terminal Country Code (9F1A): four decimal digits.
    pub country: [u8; 2],
    /// Terminal Verification Results (95).
    pub tvr: [u8; 5],
    /// Transaction Currency Code (5F2A): four decimal digits.
    pub currency: [u8; 2],
    /// Transaction Date (9A): year, month and day, two decimal digits each.
    pub date: [u8; 3],
    /// Transaction Type (9C): 00 purchase, 01 cash, 09 purchase with cashback.
    pub trade: u8,
    /// Unpredictable Number (9F37).
    pub number: [u8; 4],
    /// Application Interchange Profile (82).
    pub aip: [u8; 2],
    /// Application Transaction Counter (9F36), its high byte first.
    pub counter: [u8; 2],
}

impl AcFields {
    ghost use Rattle.app_cryptogram.specs.Cryptograms.{ac_fields_bytes};

    /// The fields' bytes in their order.
    pub(crate) fn bytes(&self) -> [u8; 33]
        ensures { result ≡ ac_fields_bytes self.now }
    {
        let mut bytes = [0; 33];
        put(&mut bytes, 0, &self.amount);
        put(&mut bytes, 6, &self.other);
        put(&mut bytes, 12, &self.country);
        put(&mut bytes, 14, &self.tvr);
        put(&mut bytes, 19, &self.currency);
        put(&mut bytes, 21, &self.date);
        put(&mut bytes, 24, &[self.trade]);
        put(&mut bytes, 25, &self.number);
        put(&mut bytes, 29, &self.aip);
        put(&mut bytes, 31, &self.counter);
        bytes
    }
}
