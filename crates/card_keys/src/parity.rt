ghost use Rattle.std.specs.Prelude.{◌≡◌, All, map};
ghost use Rattle.card_keys.specs.Parity.{HasOddParity, odd_parity};

/// A byte with its lowest bit set so that it has an odd number of ones.
fn with_odd_parity(byte: u8) -> u8
    ensures value { result ≡ odd_parity byte }
    ensures odd { HasOddParity result }
{
    let upper = byte / 2 * 2;
    if upper.count_ones() % 2 == 1 {
        upper
    } else {
        upper + 1
    }
}

/// Bytes of a key, each with odd parity.
pub fn adjust(bytes: [u8; 16]) -> [u8; 16]
    ensures value { result ≡ map odd_parity bytes }
    ensures odd { All HasOddParity result }
{
    let mut adjusted = bytes;
    for index in 0..16 {
        adjusted[index] = with_odd_parity(bytes[index]);
    }
    adjusted
}
