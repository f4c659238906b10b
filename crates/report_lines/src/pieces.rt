//! Numbers and bytes as text.
ghost use Rattle.std.specs.Prelude.{◌≡◌, ◌<◌};
ghost use Rattle.report_lines.specs.Hex.{digit_text};
ghost use Rattle.report_lines.specs.Pieces as piece;
ghost use Rattle.report_lines.specs.Pieces.{Tells};

use crate::WordLines;
use itoa::Buffer;

/// The hexadecimal digit of a number from 0 to 15, in upper case.
fn digit(number: u8) -> u8
    requires { number < 16 }
    ensures { result ≡ digit_text number }
{
    if number < 10 {
        number + b'0'
    } else {
        number - 10 + b'A'
    }
}

impl WordLines {
    /// Appends a number in decimal to the open line, or to a new one.
    pub fn number(&mut self, number: u64)
        ensures { Tells self.old self.new (piece.number number) }
    {
        let mut buffer = Buffer::new();
        self.text(buffer.format(number).as_bytes());
    }

    /// Appends bytes in upper-case hexadecimal to the open line, or to a new one.
    pub fn hex(&mut self, bytes: &[u8])
        ensures { Tells self.old self.new (piece.hex bytes.now) }
    {
        self.text(b"");
        for byte in bytes {
            self.text(&[digit(*byte / 16), digit(*byte % 16)]);
        }
    }
}
