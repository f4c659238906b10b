//! The value of an issuer script template (EMV 4.3 Book 3 section 10.10).
ghost use Rattle.std.specs.Prelude.{◌≡◌, ◌≤◌, Ok, IsOk, IsSome, length, option_map, slice_get};
ghost use Rattle.ber_tlv.specs.Left.{items_behind, items_of};
ghost use Rattle.script_run.specs.Script.{script_of, commands_of, no_identifier};
ghost use Rattle.script_run.specs.Only.{only_commands};

use ber_tlv::{Cursor, Tag, nth_value};

/// The tag of a script's identifier.
const IDENTIFIER: Tag = Tag(0x9f18);

/// The tag of a command.
const COMMAND: Tag = Tag(0x86);

/// The identifier of a script that gives none.
const NO_IDENTIFIER: [u8; 4] = [0; 4];

/// The identifier of the script that a template's value spells, zeros where it has none; `None` where the
/// value spells no script.
#[tactic(auto, unfolding(crate::specs::Script::script_of))]
pub(crate) fn read_identifier(template: &[u8]) -> Option<[u8; 4]>
    ensures identifier { result ≡ option_map (λ script. script.identifier) (script_of template.now) }
    ensures whole { IsSome result → IsOk (items_of template.now) }
{
    let mut cursor = Cursor::new(template);
    let Ok(first) = cursor.next() else {
        return None;
    };
    let Some(first) = first else {
        return Some(NO_IDENTIFIER);
    };
    if first.tag == IDENTIFIER {
        let [a, b, c, d] = first.value else {
            return None;
        };
        let identifier = [*a, *b, *c, *d];
        return only_commands(&mut cursor).then_some(identifier);
    }
    if first.tag == COMMAND {
        return only_commands(&mut cursor).then_some(NO_IDENTIFIER);
    }
    None
}

/// Whether each object that is left is a command, and nothing else is.
fn only_commands(cursor: &mut Cursor) -> bool
    requires { cursor.old.place ≤ length cursor.old.bytes }
    ensures { result ≡ only_commands (items_behind cursor.old.bytes cursor.old.place) }
{
    loop {
        match cursor.next() {
            Ok(Some(item)) => {
                if item.tag != COMMAND {
                    return false;
                }
            }
            Ok(None) => return true,
            Err(_) => return false,
        }
    }
}

/// The command at an index, counted from 0, of a template's value. Scripts are short: the commands before
/// it are passed over again each time, and no places are kept.
#[tactic(auto, unfolding(crate::specs::Script::commands_of))]
pub(crate) fn command_at(template: &[u8], index: usize) -> Option<&[u8]>
    requires { IsOk (items_of template.now) }
    ensures { option_map (λ command. command.now) result ≡ slice_get (commands_of template.now) index }
{
    nth_value(template, COMMAND, index)
}
