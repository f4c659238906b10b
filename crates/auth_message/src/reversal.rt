ghost use Rattle.std.specs.Prelude.{◌≡◌, MatchResult, IfOk, Ok, Err};
ghost use Rattle.auth_message.specs.Accepted.{AreDigitBytes};
ghost use Rattle.auth_message.specs.Messages.{reversal_at};

use crate::fault::MessageFault;
use crate::fields::Fields;
use crate::groups::{Named, read_named};
use emv_dict::Digits;

/// The fields of a reversal, each named by its tag; `pan` is the account number of 5A.
#[derive(Drop)]
pub struct ReversalFields {
    pub t9f1c: [u8; 8],
    pub pan: Digits,
    pub t5f34: Option<[u8; 1]>,
    pub t9f36: [u8; 2],
    pub t9f02: [u8; 6],
    pub t5f2a: [u8; 2],
    pub t8a: [u8; 2],
}

/// Reads a reversal's fields.
#[tactic(auto, unfolding(crate::specs::Messages::reversal_at))]
pub fn read_reversal(fields: &mut Fields) -> Result<ReversalFields, MessageFault>
    ensures value { MatchResult result (λ found. reversal_at fields.old.left ≡ Ok found) (λ fault. reversal_at fields.old.left ≡ Err fault) }
    ensures digits { IfOk result (λ found. AreDigitBytes found.t9f02) }
{
    let Named { t9f1c, pan, t5f34 } = read_named(fields)?;
    let t9f36 = fields.fixed(0x9F36, false)?;
    let t9f02 = fields.fixed(0x9F02, true)?;
    let t5f2a = fields.fixed(0x5F2A, true)?;
    let t8a = fields.fixed(0x8A, false)?;
    fields.end()?;
    Ok(ReversalFields {
        t9f1c,
        pan,
        t5f34,
        t9f36,
        t9f02,
        t5f2a,
        t8a,
    })
}
