//! Writers of the pieces of a line. Each appends; the room that a line needs is counted by its
//! callers.
ghost use Rattle.std.specs.Prelude.{◌≡◌, ◌+◌, ◌*◌, ◌≤◌, ◌++◌, length, decimal};
ghost use Rattle.std.specs.Fmt.{signed_decimal};
ghost use Rattle.arrayvec.specs.ArrayVec.{array_vec_len};
ghost use Rattle.hex.specs.Hex.{encode_lower};
ghost use Rattle.ber_tlv.specs.Written.{tag_bytes};
ghost use Rattle.report_text.specs.Pieces.{hex_or_dash, digits_text, two_bytes};

use crate::Text;
use ber_tlv::{Tag, tag_bytes};
use emv_dict::Digits;
use itoa::Buffer;

/// Bytes as they are, for which there is room.
pub fn append(out: &mut Text, bytes: &[u8])
    requires { array_vec_len out.old + length bytes.now ≤ 8192 }
    ensures text { out.new.items ≡ out.old.items ++ bytes.now }
    ensures len { array_vec_len out.new ≡ array_vec_len out.old + length bytes.now }
{
    if out.try_extend_from_slice(bytes).is_err() {
        unreachable!();
    }
}

/// A number in decimal, for which there are 40 bytes of room.
pub fn number(out: &mut Text, number: u64)
    requires { array_vec_len out.old + 40 ≤ 8192 }
    ensures text { out.new.items ≡ out.old.items ++ decimal number }
    ensures len { array_vec_len out.new ≤ array_vec_len out.old + 40 }
{
    let mut buffer = Buffer::new();
    append(out, buffer.format(number).as_bytes());
}

/// An amount in decimal, with a minus sign below zero, for which there are 40 bytes of room.
pub fn amount(out: &mut Text, amount: i128)
    requires { array_vec_len out.old + 40 ≤ 8192 }
    ensures text { out.new.items ≡ out.old.items ++ signed_decimal amount }
    ensures len { array_vec_len out.new ≤ array_vec_len out.old + 40 }
{
    let mut buffer = Buffer::new();
    append(out, buffer.format(amount).as_bytes());
}

/// The characters of the sixteen digits.
const DIGITS: &[u8; 16] = b"0123456789abcdef";

/// At most 2,048 bytes in hexadecimal: each byte's two digits go straight to their place.
pub(crate) fn hex(out: &mut Text, bytes: &[u8])
    requires few { length bytes.now ≤ 2048 }
    requires room { array_vec_len out.old + 2 * length bytes.now ≤ 8192 }
    ensures text { out.new.items ≡ out.old.items ++ encode_lower bytes.now }
    ensures len { array_vec_len out.new ≡ array_vec_len out.old + 2 * length bytes.now }
{
    for byte in bytes {
        let high = DIGITS[usize::from(byte / 16)];
        let low = DIGITS[usize::from(byte % 16)];
        append(out, &[high, low]);
    }
}

/// At most 2,048 bytes in hexadecimal, or a dash where there are none.
#[tactic(auto, unfolding(crate::specs::Pieces::hex_or_dash))]
pub fn hex_or_dash(out: &mut Text, bytes: &[u8])
    requires few { length bytes.now ≤ 2048 }
    requires room { array_vec_len out.old + (2 * length bytes.now + 1) ≤ 8192 }
    ensures text { out.new.items ≡ out.old.items ++ hex_or_dash bytes.now }
    ensures len { array_vec_len out.new ≤ array_vec_len out.old + (2 * length bytes.now + 1) }
{
    if bytes.is_empty() {
        return append(out, b"-");
    }
    hex(out, bytes);
}

/// The bytes of a tag in hexadecimal.
pub(crate) fn tag(out: &mut Text, tag: Tag)
    requires { array_vec_len out.old + 6 ≤ 8192 }
    ensures text { out.new.items ≡ out.old.items ++ encode_lower (tag_bytes tag.0) }
    ensures len { array_vec_len out.new ≤ array_vec_len out.old + 6 }
{
    hex(out, &tag_bytes(tag));
}

/// The two bytes of a number in hexadecimal.
pub(crate) fn two_bytes(out: &mut Text, number: u16)
    requires { array_vec_len out.old + 4 ≤ 8192 }
    ensures text { out.new.items ≡ out.old.items ++ encode_lower (two_bytes number) }
    ensures len { array_vec_len out.new ≡ array_vec_len out.old + 4 }
{
    hex(out, &number.to_be_bytes());
}

/// Digits as characters.
pub(crate) fn digits(out: &mut Text, digits: &Digits)
    requires { array_vec_len out.old + 19 ≤ 8192 }
    ensures text { out.new.items ≡ out.old.items ++ digits_text digits.now }
    ensures len { array_vec_len out.new ≤ array_vec_len out.old + 19 }
{
    for digit in digits.as_slice() {
        append(out, &[*digit + 48]);
    }
}
