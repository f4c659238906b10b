//! Reading the host's reply.
ghost use Rattle.std.specs.Prelude.{◌≡◌, ◌≤◌, length, MatchResult, IfOk, IfSome, Ok, Err};
ghost use Rattle.auth_message.specs.Reply.{reply_of};

use crate::fault::MessageFault;
use crate::outer::open;
use std::marker::Model;

/// The host's reply.
#[derive(Drop)]
pub struct Reply<'a> {
    /// The authorisation response code, object 8A.
    pub code: [u8; 2],
    /// The issuer authentication data, object 91, of 8 to 16 bytes.
    pub auth: Option<&'a [u8]>,
    /// The issuer's scripts, templates 71 and 72 (EMV 4.3 Book 3 section 10.10): the bytes from the start
    /// of the first one to the end of the last one, empty where there is none.
    pub scripts: &'a [u8],
}

impl<'a> Model for Reply<'a> {
    ghost use Rattle.std.specs.Prelude.{option_map};
    ghost use Rattle.auth_message.specs.Reply.{ReplyData};

    ghost Value = { ReplyData };

    ghost view = { λ r. record {
      code = r.code;
      auth = option_map (λ value. value.now) r.auth;
      scripts = r.scripts.now;
    } };
}

/// The reply that the bytes are (E2). Else its first fault: that of the coding of the reply and of its
/// value, in the order of the bytes, then another tag, then an item beside it; then 8A, of two bytes, and
/// 91, of 8 to 16 bytes, as `Missing` and `Value`; then more than 8 scripts or more than 1,024 bytes of them
/// as `Value` of 71; then an item behind the last script as `Coding`.
#[tactic(auto, unfolding(crate::specs::Reply::reply_at))]
pub fn read_reply(bytes: &[u8]) -> Result<Reply<'_>, MessageFault>
    ensures value { MatchResult result (λ reply. reply_of bytes.now ≡ Ok reply) (λ fault. reply_of bytes.now ≡ Err fault) }
    ensures auth { IfOk result (λ reply. IfSome reply.auth (λ value. (8 ≤ length value) × (length value ≤ 16))) }
    ensures short { IfOk result (λ reply. length reply.scripts ≤ 1024) }
{
    let (_, mut fields) = match open(bytes, &[0xE2]) {
        Ok(found) => found,
        Err(fault) => return Err(fault),
    };
    let code = fields.fixed(0x8A, false)?;
    let auth = fields.auth()?;
    let scripts = fields.scripts()?;
    fields.end()?;
    Ok(Reply {
        code,
        auth,
        scripts,
    })
}
