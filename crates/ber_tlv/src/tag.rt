ghost use Rattle.std.specs.Prelude.{◌≡◌, ◌==◌, slice_index};
ghost use Rattle.std.specs.Int.{bit_at};
ghost use Rattle.ber_tlv.specs.Written.{tag_bytes};
ghost use Rattle.ber_tlv.specs.Tag as spec;
ghost use Rattle.ber_tlv.specs.Tag.{first_byte_of, names_template};

/// A tag: its one to three bytes as one big-endian number, as `0x9f36` for the tag 9F36
/// (EMV 4.3 Book 3 Annex B1).
#[derive(Clone, Copy, PartialEq, Eq, PartialOrd, Ord, Hash, Debug, Default)]
pub struct Tag(pub u32);

/// Whether the tag names a constructed object, one whose value is itself a list of objects:
/// bit 6 of its first byte (EMV 4.3 Book 3 Annex B1).
pub fn is_constructed(tag: Tag) -> bool
    ensures template { result ≡ names_template tag.0 }
    // Bit 6 of the first byte that is written for the tag.
    ensures bit { result ≡ (bit_at (slice_index (tag_bytes tag.0) 0) 5 == 1) }
{
    first_byte(tag.0) / 32 % 2 == 1
}

/// Whether a tag of one to three bytes stands so in a byte string: more bytes follow the first
/// exactly where its five low bits are all 1, a third follows the second exactly where bit 8 of
/// that is 1, and the first is not 00 (EMV 4.3 Book 3 Annex B1).
pub fn is_readable(tag: Tag) -> bool
    ensures { result ≡ spec.is_readable tag.0 }
{
    let number = tag.0;
    if number < 256 {
        0 < number && number % 32 != 31
    } else if number < 65536 {
        number / 256 % 32 == 31 && number % 256 < 128
    } else {
        number < 16777216
            && number / 65536 % 32 == 31
            && 128 <= number / 256 % 256
            && number % 256 < 128
    }
}

fn first_byte(number: u32) -> u32
    ensures { result ≡ first_byte_of number }
{
    if number < 256 {
        number
    } else if number < 65536 {
        number / 256
    } else {
        number / 65536
    }
}
