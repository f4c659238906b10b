ghost use Rattle.std.specs.Prelude.{◌≡◌, ◌*◌, ◌<◌, length, slice_index};
ghost use Rattle.emv_dict.specs.Nibbles.{nibbles};

/// The hexadecimal digit at this place of the bytes, each byte's high half first.
pub fn nibble_at(bytes: &[u8], place: usize) -> u8
    requires { place < 2 * length bytes.now }
    ensures value { result ≡ slice_index (nibbles bytes.now) place }
    ensures half { result < 16 }
{
    let byte = bytes[place / 2];
    if place % 2 == 0 { byte / 16 } else { byte % 16 }
}
