ghost use Rattle.std.specs.Prelude.{◌≡◌, MatchResult, IfOk, Ok, Err};
ghost use Rattle.auth_message.specs.Accepted.{HasAmount};
ghost use Rattle.auth_message.specs.Message.{message_of};

use crate::fault::MessageFault;
use crate::outer::open;
use crate::presentment::{PresentFields, read_present};
use crate::request::{RequestFields, read_request};
use crate::reversal::{ReversalFields, read_reversal};

/// A message to the host.
#[derive(Drop)]
pub enum Incoming<'a> {
    Request(RequestFields<'a>),
    Present(PresentFields<'a>),
    Reverse(ReversalFields),
}

/// The message that the bytes are: a request (E1), a presentment (E3) or a reversal (E4). Else its first
/// fault: that of the coding of the message and of its value, in the order of the bytes, then another tag,
/// then an item beside it, then its fields in their order, then an item behind the last one.
pub fn read_message(bytes: &[u8]) -> Result<Incoming<'_>, MessageFault>
    ensures value { MatchResult result (λ message. message_of bytes.now ≡ Ok message) (λ fault. message_of bytes.now ≡ Err fault) }
    // The amount is twelve decimal digits.
    ensures amount { IfOk result HasAmount }
{
    let (tag, mut fields) = match open(bytes, &[0xE1, 0xE3, 0xE4]) {
        Ok(found) => found,
        Err(fault) => return Err(fault),
    };
    match tag {
        0xE1 => match read_request(&mut fields) {
            Ok(found) => Ok(Incoming::Request(found)),
            Err(fault) => Err(fault),
        },
        0xE3 => match read_present(&mut fields) {
            Ok(found) => Ok(Incoming::Present(found)),
            Err(fault) => Err(fault),
        },
        _ => match read_reversal(&mut fields) {
            Ok(found) => Ok(Incoming::Reverse(found)),
            Err(fault) => Err(fault),
        },
    }
}
