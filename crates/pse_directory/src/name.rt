//! SELECT of the directory by its name, and its answer (EMV 4.3 Book 1 sections 11.3 and 12.2.2).
ghost use Rattle.std.specs.Prelude.{◌≡◌, ◌≤◌, length, option_map};
ghost use Rattle.app_select.specs.Said.{select_command};
ghost use Rattle.emv_dict.specs.Name.{directory_name};
ghost use Rattle.pse_directory.specs.Said as spec;
ghost use Rattle.pse_directory.specs.Said.{directory_file, name_said, said_file};
ghost use Rattle.pse_directory.specs.SeenSaid.{seen_name};

use apdu_core::status::{FUNCTION_NOT_SUPPORTED, NO_ERROR};
use apdu_core::{Out, read_response};
use app_select::{FIRST_OCCURRENCE, is_readable, write_select};
use ber_tlv::{Tag, first_value, sole_value};

/// The name of the payment system environment.
const DIRECTORY_NAME: [u8; 14] = *b"1PAY.SYS.DDF01";

/// The greatest short file identifier of a directory's file.
const LAST_FILE: u8 = 10;

/// What an answer to SELECT of the directory says.
#[derive(Drop)]
pub(crate) enum NameSaid {
    /// It is no response.
    NoResponse,
    /// The card is blocked.
    Blocked,
    /// The directory's records stand in the file with this short identifier.
    Gives(u8),
    /// There is no directory that can be read.
    Nothing,
}

/// Writes SELECT of the directory to `out`, in place of what it held.
pub(crate) fn write_name(out: &mut Out)
    ensures { out.new.items ≡ select_command 0 directory_name }
{
    write_select(&DIRECTORY_NAME, FIRST_OCCURRENCE, out);
}

/// Reads an answer to SELECT of the directory.
#[tactic(auto, unfolding(crate::specs::Said::name_said))]
pub(crate) fn read_name(reply: &[u8]) -> NameSaid
    ensures { seen_name result ≡ name_said reply.now }
{
    let Ok(response) = read_response(reply) else {
        return NameSaid::NoResponse;
    };
    match response.status {
        FUNCTION_NOT_SUPPORTED => NameSaid::Blocked,
        NO_ERROR => named(response.body),
        _ => NameSaid::Nothing,
    }
}

fn named(body: &[u8]) -> NameSaid
    requires { length body.now ≤ 256 }
    ensures { seen_name result ≡ said_file (directory_file body.now) }
{
    match read_file(body) {
        Some(sfi) => NameSaid::Gives(sfi),
        None => NameSaid::Nothing,
    }
}

/// The short file identifier (88) of the directory's file, from its FCI.
fn read_file(body: &[u8]) -> Option<u8>
    requires { length body.now ≤ 256 }
    ensures { result ≡ directory_file body.now }
{
    if is_readable(body) {
        file_in_template(sole_value(body, Tag(0x6f)))
    } else {
        None
    }
}

fn file_in_template(template: Option<&[u8]>) -> Option<u8>
    ensures { result ≡ spec.file_in_template (option_map (λ given. given.now) template.entry) }
{
    let Ok(proprietary) = first_value(template?, Tag(0xa5)) else {
        return None;
    };
    file_in_proprietary(proprietary)
}

fn file_in_proprietary(template: Option<&[u8]>) -> Option<u8>
    ensures { result ≡ spec.file_in_proprietary (option_map (λ given. given.now) template.entry) }
{
    let Ok(file) = first_value(template?, Tag(0x88)) else {
        return None;
    };
    file_number(file)
}

fn file_number(value: Option<&[u8]>) -> Option<u8>
    ensures { result ≡ spec.file_number (option_map (λ given. given.now) value.entry) }
{
    match value {
        Some([sfi]) if 1 <= *sfi && *sfi <= LAST_FILE => Some(*sfi),
        _ => None,
    }
}
