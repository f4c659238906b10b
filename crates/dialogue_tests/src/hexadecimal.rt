//! The bytes and the numbers of the rows, in hexadecimal digits.
ghost use Rattle.std.specs.Prelude.{◌≤◌};

use arrayvec::ArrayVec;

fn digit(letter: u8) -> u8
    ensures { result ≤ 15 }
{
    match letter {
        b'0'..=b'9' => letter - b'0',
        b'a'..=b'f' => letter - b'a' + 10,
        _ => 0,
    }
}

pub(crate) fn bytes(text: &str) -> ArrayVec<u8, 261> {
    let letters = text.as_bytes();
    let mut bytes = ArrayVec::new();
    for place in 0..letters.len() / 2 {
        let byte = digit(letters[2 * place]) * 16 + digit(letters[2 * place + 1]);
        let _ = bytes.try_push(byte);
    }
    bytes
}

/// The number that hexadecimal digits write.
pub(crate) fn number(text: &str) -> u32 {
    let mut number = 0u32;
    for letter in text.as_bytes() {
        number = number
            .wrapping_mul(16)
            .wrapping_add(u32::from(digit(*letter)));
    }
    number
}
