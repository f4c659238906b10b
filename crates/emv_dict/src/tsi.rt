ghost use Rattle.std.specs.Prelude.{⊤, ◌≡◌, ◌≢◌, ◌↔◌, ℕ, bit_and};
ghost use Rattle.std.specs.Int.{to_be_bytes, w16};
ghost use Rattle.emv_dict.specs.Flags.{tsi_bit, tsi_bits, IsWithin, StandsIn};

use bitflags::{Flag, Flags, bitflag_items};

/// The transaction status information (EMV 4.3 Book 3 Annex C6): which functions the terminal
/// performed. The number is the object's two bytes, big-endian.
#[derive(Clone, Copy, PartialEq, Eq, Debug, Default)]
pub struct Tsi(pub u16);

bitflag_items! {
    impl Tsi: u16 {
        const CARDHOLDER_VERIFICATION = 0x40_00;
        const CARD_RISK_MANAGEMENT = 0x20_00;
        const ISSUER_AUTHENTICATION = 0x10_00;
        const TERMINAL_RISK_MANAGEMENT = 0x08_00;
        const SCRIPT_PROCESSING = 0x04_00;
    }
}

impl Flags for Tsi {
    type Bits = u16;

    ghost exact = { ⊤ };

    ghost table = { tsi_bits };

    ghost set_of = { λ t. t.0 };

    fn flags<'a>() -> &'a [Flag<Tsi>] {
        Tsi::FLAGS
    }

    fn bits(&self) -> u16 {
        self.0
    }

    fn from_bits_retain(bits: u16) -> Tsi {
        Tsi(bits)
    }
}

impl Tsi {
    /// The two bytes of the data object 9B, its first byte first.
    pub fn bytes(&self) -> [u8; 2]
        ensures bytes { result ≡ to_be_bytes w16 self.now.0 }
        // Each bit of each byte stands exactly where the number has the bit of that name.
        ensures bits { (byte bit : ℕ) → IsWithin 1 2 byte → IsWithin 1 8 bit
            → StandsIn result byte bit ↔ (bit_and self.now.0 (tsi_bit byte bit) ≢ 0) }
    {
        self.0.to_be_bytes()
    }

    /// The information that these two bytes say.
    pub fn from_bytes(bytes: [u8; 2]) -> Tsi
        ensures { to_be_bytes w16 result.0 ≡ bytes }
    {
        Tsi(u16::from_be_bytes(bytes))
    }
}
