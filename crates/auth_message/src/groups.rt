ghost use Rattle.std.specs.Prelude.{◌≡◌, MatchResult, IfOk, Ok, Err};
ghost use Rattle.auth_message.specs.Accepted.{AreDigitBytes};
ghost use Rattle.auth_message.specs.Groups.{named_at, paid_at};

use crate::fault::MessageFault;
use crate::fields::Fields;
use emv_dict::Digits;

/// The terminal, the account and the card; `pan` is the account number of 5A.
#[derive(Drop)]
pub struct Named {
    pub t9f1c: [u8; 8],
    pub pan: Digits,
    pub t5f34: Option<[u8; 1]>,
}

/// The payment: its amounts, where and when it is made, and the card's cryptogram.
#[derive(Drop)]
pub struct Paid {
    pub t9f02: [u8; 6],
    pub t9f03: [u8; 6],
    pub t9f1a: [u8; 2],
    pub t95: [u8; 5],
    pub t5f2a: [u8; 2],
    pub t9a: [u8; 3],
    pub t9c: [u8; 1],
    pub t9f37: [u8; 4],
    pub t82: [u8; 2],
    pub t9f36: [u8; 2],
    pub t9f26: [u8; 8],
}

/// Reads what names a transaction.
#[tactic(auto, unfolding(crate::specs::Groups::named_at))]
pub fn read_named(fields: &mut Fields) -> Result<Named, MessageFault>
    ensures { MatchResult result (λ named. named_at fields.old.left ≡ Ok (named, fields.new.left)) (λ fault. named_at fields.old.left ≡ Err fault) }
{
    let t9f1c = fields.fixed(0x9F1C, false)?;
    let pan = fields.pan()?;
    let t5f34 = fields.fixed_if_there(0x5F34, true)?;
    Ok(Named { t9f1c, pan, t5f34 })
}

/// Reads a payment's fields.
#[tactic(auto, unfolding(crate::specs::Groups::paid_at))]
pub fn read_paid(fields: &mut Fields) -> Result<Paid, MessageFault>
    ensures value { MatchResult result (λ paid. paid_at fields.old.left ≡ Ok (paid, fields.new.left)) (λ fault. paid_at fields.old.left ≡ Err fault) }
    ensures digits { IfOk result (λ paid. AreDigitBytes paid.t9f02) }
{
    let t9f02 = fields.fixed(0x9F02, true)?;
    let t9f03 = fields.fixed(0x9F03, true)?;
    let t9f1a = fields.fixed(0x9F1A, false)?;
    let t95 = fields.fixed(0x95, false)?;
    let t5f2a = fields.fixed(0x5F2A, true)?;
    let t9a = fields.fixed(0x9A, true)?;
    let t9c = fields.fixed(0x9C, false)?;
    let t9f37 = fields.fixed(0x9F37, false)?;
    let t82 = fields.fixed(0x82, false)?;
    let t9f36 = fields.fixed(0x9F36, false)?;
    let t9f26 = fields.fixed(0x9F26, false)?;
    Ok(Paid {
        t9f02,
        t9f03,
        t9f1a,
        t95,
        t5f2a,
        t9a,
        t9c,
        t9f37,
        t82,
        t9f36,
        t9f26,
    })
}
