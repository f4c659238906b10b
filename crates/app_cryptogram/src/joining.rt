ghost use Rattle.std.specs.Prelude.{◌≡◌, ◌+◌, ◌≤◌, ◌++◌, length, take};

/// Writes a field at its place, so that it stands right behind what stands before that place.
pub fn put(bytes: &mut [u8], at: usize, field: &[u8])
    requires { at + length field.now ≤ length bytes.old }
    ensures { take (at + length field.now) bytes.new ≡ take at bytes.old ++ field.now }
{
    bytes[at..at + field.len()].copy_from_slice(field);
}
