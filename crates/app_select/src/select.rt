//! SELECT by name (EMV 4.3 Book 1 section 11.3).
ghost use Rattle.std.specs.Prelude.{◌≡◌, ◌≤◌, length};
ghost use Rattle.app_select.specs.Said.{select_command};

use apdu_core::{Command, Out, write_command};

/// P2 of SELECT: the first application whose name begins with the given bytes.
pub const FIRST_OCCURRENCE: u8 = 0x00;

/// P2 of SELECT: the next such application.
pub const NEXT_OCCURRENCE: u8 = 0x02;

/// Writes SELECT of a name, at this occurrence, to `out`, in place of what it held.
pub fn write_select(name: &[u8], occurrence: u8, out: &mut Out)
    requires { length name.now ≤ 255 }
    ensures { out.new.items ≡ select_command occurrence name.now }
{
    let command = Command {
        class: 0x00,
        ins: 0xa4,
        p1: 0x04,
        p2: occurrence,
        body: name,
        expects: Some(0),
    };
    write_command(&command, out);
}
