//! EXTERNAL AUTHENTICATE (EMV 4.3 Book 3 sections 6.5.4 and 10.9).
ghost use Rattle.std.specs.Prelude.{◌≡◌, ◌≤◌, length};
ghost use Rattle.online_step.specs.Authenticate.{authenticate_command, authentication_verdict};

use apdu_core::status::NO_ERROR;
use apdu_core::{Command, Out, read_response, write_command};
use emv_dict::Cause;

/// Writes EXTERNAL AUTHENTICATE with the issuer authentication data (91), 8 to 16 bytes, in place of what
/// `out` held (EMV 4.3 Book 3 section 6.5.4).
#[tactic(auto, unfolding(crate::specs::Authenticate::authenticate_command))]
pub fn authenticate_command(value: &[u8], out: &mut Out)
    requires least { 8 ≤ length value.now }
    requires most { length value.now ≤ 16 }
    ensures { out.new.items ≡ authenticate_command value.now }
{
    let command = Command {
        class: 0x00,
        ins: 0x82,
        p1: 0x00,
        p2: 0x00,
        body: value,
        expects: None,
    };
    write_command(&command, out);
}

/// Whether the answer says that the issuer is authentic: its status is 9000. An answer that can't be read
/// is the cause `Answer` (EMV 4.3 Book 3 section 10.9).
#[tactic(auto, unfolding(crate::specs::Authenticate::authentication_verdict))]
pub fn read_verdict(reply: &[u8]) -> Result<bool, Cause>
    ensures { result ≡ authentication_verdict reply.now }
{
    match read_response(reply) {
        Ok(response) => Ok(response.status == NO_ERROR),
        Err(_) => Err(Cause::Answer),
    }
}
