ghost use Rattle.std.specs.Prelude.{◌≡◌, MatchResult, IfOk, Ok, Err};
ghost use Rattle.auth_message.specs.Accepted.{AreDigitBytes};
ghost use Rattle.auth_message.specs.Messages.{present_at};

use crate::fault::MessageFault;
use crate::fields::Fields;
use crate::groups::{Named, Paid, read_named, read_paid};
use emv_dict::Digits;
use std::marker::Model;

/// The fields of a presentment, each named by its tag.
#[derive(Drop)]
pub struct PresentFields<'a> {
    pub t9f1c: [u8; 8],
    /// The account number of 5A.
    pub pan: Digits,
    pub t5f34: Option<[u8; 1]>,
    pub t9f02: [u8; 6],
    pub t9f03: [u8; 6],
    pub t9f1a: [u8; 2],
    pub t95: [u8; 5],
    pub t5f2a: [u8; 2],
    pub t9a: [u8; 3],
    pub t9c: [u8; 1],
    pub t9f37: [u8; 4],
    pub t82: [u8; 2],
    pub t9f36: [u8; 2],
    pub t9f26: [u8; 8],
    /// At most 32 bytes.
    pub t9f10: &'a [u8],
    pub t8a: [u8; 2],
}

impl<'a> Model for PresentFields<'a> {
    ghost use Rattle.auth_message.specs.Data.{PresentData};

    ghost Value = { PresentData };

    ghost view = { λ f. record {
      named = record { t9f1c = f.t9f1c; pan = f.pan; t5f34 = f.t5f34 };
      paid = record {
        t9f02 = f.t9f02;
        t9f03 = f.t9f03;
        t9f1a = f.t9f1a;
        t95 = f.t95;
        t5f2a = f.t5f2a;
        t9a = f.t9a;
        t9c = f.t9c;
        t9f37 = f.t9f37;
        t82 = f.t82;
        t9f36 = f.t9f36;
        t9f26 = f.t9f26;
      };
      t9f10 = f.t9f10.now;
      t8a = f.t8a;
    } };

    ghost use Rattle.std.specs.Prelude.{length, ◌≡◌};
    ghost use Rattle.auth_message.specs.Data.{NamedSizes, PaidSizes};

    ghost invariant = { λ f. NamedSizes (record { t9f1c = f.t9f1c; pan = f.pan; t5f34 = f.t5f34 })
        × PaidSizes (record {
          t9f02 = f.t9f02;
          t9f03 = f.t9f03;
          t9f1a = f.t9f1a;
          t95 = f.t95;
          t5f2a = f.t5f2a;
          t9a = f.t9a;
          t9c = f.t9c;
          t9f37 = f.t9f37;
          t82 = f.t82;
          t9f36 = f.t9f36;
          t9f26 = f.t9f26;
        })
        × (length f.t8a ≡ 2) };
}

impl<'a> PresentFields<'a> {
    /// The fields of a presentment whose parts are these.
    pub fn from_parts(named: Named, paid: Paid, t9f10: &'a [u8], t8a: [u8; 2]) -> PresentFields<'a>
        ensures { result ≡ record { named = named; paid = paid; t9f10 = t9f10.now; t8a = t8a } }
    {
        let Named { t9f1c, pan, t5f34 } = named;
        let Paid {
            t9f02,
            t9f03,
            t9f1a,
            t95,
            t5f2a,
            t9a,
            t9c,
            t9f37,
            t82,
            t9f36,
            t9f26,
        } = paid;
        PresentFields {
            t9f1c,
            pan,
            t5f34,
            t9f02,
            t9f03,
            t9f1a,
            t95,
            t5f2a,
            t9a,
            t9c,
            t9f37,
            t82,
            t9f36,
            t9f26,
            t9f10,
            t8a,
        }
    }

    /// What names the transaction.
    pub fn named(&self) -> Named
        ensures { result ≡ self.now.named }
    {
        Named {
            t9f1c: self.t9f1c,
            pan: self.pan.copy(),
            t5f34: self.t5f34,
        }
    }

    /// What was paid.
    pub fn paid(&self) -> Paid
        ensures { result ≡ self.now.paid }
    {
        Paid {
            t9f02: self.t9f02,
            t9f03: self.t9f03,
            t9f1a: self.t9f1a,
            t95: self.t95,
            t5f2a: self.t5f2a,
            t9a: self.t9a,
            t9c: self.t9c,
            t9f37: self.t9f37,
            t82: self.t82,
            t9f36: self.t9f36,
            t9f26: self.t9f26,
        }
    }
}

/// Reads a presentment's fields.
#[tactic(auto, unfolding(crate::specs::Messages::present_at))]
pub fn read_present<'a>(fields: &mut Fields<'a>) -> Result<PresentFields<'a>, MessageFault>
    ensures value { MatchResult result (λ found. present_at fields.old.left ≡ Ok found) (λ fault. present_at fields.old.left ≡ Err fault) }
    ensures digits { IfOk result (λ found. AreDigitBytes found.paid.t9f02) }
{
    let named = read_named(fields)?;
    let paid = read_paid(fields)?;
    let t9f10 = fields.some(0x9F10, 0, 32)?;
    let t8a = fields.fixed(0x8A, false)?;
    fields.end()?;
    Ok(PresentFields::from_parts(named, paid, t9f10, t8a))
}
