ghost use Rattle.std.specs.Prelude.{◌≡◌, ◌++◌};

/// The sixteen bytes of two blocks.
pub fn join(left: [u8; 8], right: [u8; 8]) -> [u8; 16]
    ensures { result ≡ left ++ right }
{
    let mut bytes = [0; 16];
    bytes[..8].copy_from_slice(&left);
    bytes[8..].copy_from_slice(&right);
    bytes
}
