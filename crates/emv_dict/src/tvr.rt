ghost use Rattle.std.specs.Prelude.{⊤, ◌≡◌, ◌≢◌, ◌<◌, ◌^◌, ◌↔◌, ◌==◌, ℕ, bit_and, map};
ghost use Rattle.std.specs.Int.{bit_at};
ghost use Rattle.emv_dict.specs.Flags.{tvr_bit, tvr_bits, tvr_bytes, bits_where, some_row_has, IsWithin, StandsIn, have_common_bit};

use bitflags::{Flag, Flags, bitflag_items};

/// The terminal verification results (EMV 4.3 Book 3 Annex C5): what the terminal's checks found.
/// The number's low 40 bits are the object's five bytes, big-endian; `from_bytes` and the
/// names below give none above them.
#[derive(Clone, Copy, PartialEq, Eq, Debug, Default)]
pub struct Tvr(pub u64);

bitflag_items! {
    impl Tvr: u64 {
        const OFFLINE_DATA_AUTHENTICATION_NOT_PERFORMED = 0x80_00_00_00_00;
        const ICC_DATA_MISSING = 0x20_00_00_00_00;
        const EXCEPTION_FILE = 0x10_00_00_00_00;
        const VERSIONS_DIFFER = 0x00_80_00_00_00;
        const EXPIRED = 0x00_40_00_00_00;
        const NOT_YET_EFFECTIVE = 0x00_20_00_00_00;
        const SERVICE_NOT_ALLOWED = 0x00_10_00_00_00;
        const NEW_CARD = 0x00_08_00_00_00;
        const VERIFICATION_NOT_SUCCESSFUL = 0x00_00_80_00_00;
        const UNRECOGNISED_CVM = 0x00_00_40_00_00;
        const PIN_TRY_LIMIT_EXCEEDED = 0x00_00_20_00_00;
        const PIN_PAD_NOT_PRESENT_OR_NOT_WORKING = 0x00_00_10_00_00;
        const PIN_NOT_ENTERED = 0x00_00_08_00_00;
        const ONLINE_PIN_ENTERED = 0x00_00_04_00_00;
        const FLOOR_LIMIT_EXCEEDED = 0x00_00_00_80_00;
        const LOWER_CONSECUTIVE_LIMIT_EXCEEDED = 0x00_00_00_40_00;
        const UPPER_CONSECUTIVE_LIMIT_EXCEEDED = 0x00_00_00_20_00;
        const RANDOMLY_SELECTED = 0x00_00_00_10_00;
        const MERCHANT_FORCED_ONLINE = 0x00_00_00_08_00;
        const ISSUER_AUTHENTICATION_FAILED = 0x00_00_00_00_40;
        const SCRIPT_FAILED_BEFORE_FINAL_CRYPTOGRAM = 0x00_00_00_00_20;
        const SCRIPT_FAILED_AFTER_FINAL_CRYPTOGRAM = 0x00_00_00_00_10;
    }
}

impl Flags for Tvr {
    type Bits = u64;

    ghost exact = { ⊤ };

    ghost table = { tvr_bits };

    ghost set_of = { λ t. t.0 };

    fn flags<'a>() -> &'a [Flag<Tvr>] {
        Tvr::FLAGS
    }

    fn bits(&self) -> u64 {
        self.0
    }

    fn from_bits_retain(bits: u64) -> Tvr {
        Tvr(bits)
    }
}

impl Tvr {
    /// The five bytes of the data object 95, its first byte first.
    pub fn bytes(&self) -> [u8; 5]
        ensures bytes { result ≡ tvr_bytes self.now.0 }
        // Each bit of each byte stands exactly where the number has the bit of that name.
        ensures bits { (byte bit : ℕ) → IsWithin 1 5 byte → IsWithin 1 8 bit
            → StandsIn result byte bit ↔ (bit_and self.now.0 (tvr_bit byte bit) ≢ 0) }
    {
        let all = self.0.to_be_bytes();
        [all[3], all[4], all[5], all[6], all[7]]
    }

    /// The results that these five bytes say, or the action code that they are (EMV 4.3 Book 3
    /// section 10.7: an action code has a bit for each bit of the results).
    pub fn from_bytes(bytes: [u8; 5]) -> Tvr
        ensures bytes { tvr_bytes result.0 ≡ bytes }
        ensures small { result.0 < 2 ^ 40 }
    {
        let [a, b, c, d, e] = bytes;
        Tvr(u64::from_be_bytes([0, 0, 0, a, b, c, d, e]))
    }

    /// The results whose condition holds: for each row a condition and its bits.
    pub fn of_conditions(rows: &[(bool, Tvr)]) -> Tvr
        ensures union { result.0 ≡ bits_where (map (λ row. (row.0, row.1.0)) rows.now) }
        // A bit stands exactly where a row that has it holds.
        ensures bits { (place : ℕ) → (bit_at result.0 place == 1)
            ≡ some_row_has place (map (λ row. (row.0, row.1.0)) rows.now) }
    {
        union_of(rows)
    }

    /// Whether some bit of the results stands in the action code too (EMV 4.3 Book 3 section 10.7).
    pub fn meets(&self, code: [u8; 5]) -> bool
        ensures { result ≡ have_common_bit (tvr_bytes self.now.0) code }
    {
        let [a, b, c, d, e] = self.bytes();
        let [v, w, x, y, z] = code;
        a & v != 0 || b & w != 0 || c & x != 0 || d & y != 0 || e & z != 0
    }
}

/// The bits of the rows whose condition holds.
fn union_of(rows: &[(bool, Tvr)]) -> Tvr
    ensures { result.0 ≡ bits_where (map (λ row. (row.0, row.1.0)) rows.now) }
{
    let mut results = Tvr::default();
    for (holds, bits) in rows {
        if *holds {
            results.0 |= bits.0;
        }
    }
    results
}
