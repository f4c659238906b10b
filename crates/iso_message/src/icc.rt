//! The items of field 55.
ghost use Rattle.std.specs.Prelude.{◌≡◌, Ok, Err, MatchResult};
ghost use Rattle.auth_message.specs.Data.{PaidSizes};
ghost use Rattle.iso_message.specs.Items.{icc_at, icc_of, paid_of, request_in as request_items, present_in as present_items, reversal_in as reversal_items, reply_with_code as reply_items};

use crate::front::{Acceptor, Numbers, PresentFront, RequestFront, ReversalFront};
use auth_message::{
    Fields, MessageFault, Named, Paid, PresentFields, Reply, RequestFields, ReversalFields,
};

/// What reading items gives, or why they are none of a message.
type Found<T> = Result<T, MessageFault>;

/// What the items of a request and of a presentment share, but 9F10: the other amount, where and when it is
/// paid, and the card's cryptogram.
#[derive(Drop)]
pub struct IccData {
    pub t9f03: [u8; 6],
    pub t9f1a: [u8; 2],
    pub t95: [u8; 5],
    pub t9a: [u8; 3],
    pub t9f37: [u8; 4],
    pub t82: [u8; 2],
    pub t9f36: [u8; 2],
    pub t9f26: [u8; 8],
}

/// These of a payment.
pub fn icc_data(paid: &Paid) -> IccData
    ensures { result ≡ icc_of paid.now }
{
    IccData {
        t9f03: paid.t9f03,
        t9f1a: paid.t9f1a,
        t95: paid.t95,
        t9a: paid.t9a,
        t9f37: paid.t9f37,
        t82: paid.t82,
        t9f36: paid.t9f36,
        t9f26: paid.t9f26,
    }
}

/// Reads these items.
#[tactic(auto, unfolding(crate::specs::Items::icc_at))]
fn read_icc(fields: &mut Fields) -> Found<IccData>
    ensures { MatchResult result (λ icc. icc_at fields.old.left ≡ Ok (icc, fields.new.left)) (λ fault. icc_at fields.old.left ≡ Err fault) }
{
    let t9f03 = fields.fixed(0x9F03, true)?;
    let t9f1a = fields.fixed(0x9F1A, false)?;
    let t95 = fields.fixed(0x95, false)?;
    let t9a = fields.fixed(0x9A, true)?;
    let t9f37 = fields.fixed(0x9F37, false)?;
    let t82 = fields.fixed(0x82, false)?;
    let t9f36 = fields.fixed(0x9F36, false)?;
    let t9f26 = fields.fixed(0x9F26, false)?;
    Ok(IccData {
        t9f03,
        t9f1a,
        t95,
        t9a,
        t9f37,
        t82,
        t9f36,
        t9f26,
    })
}

/// The payment whose other fields stand before field 55.
fn paid(numbers: &Numbers, acceptor: &Acceptor, t9c: [u8; 1], icc: &IccData) -> Paid
    ensures value { result ≡ paid_of numbers.now acceptor.now t9c icc.now }
    ensures sizes { PaidSizes result }
{
    Paid {
        t9f02: numbers.t9f02,
        t9f03: icc.t9f03,
        t9f1a: icc.t9f1a,
        t95: icc.t95,
        t5f2a: acceptor.t5f2a,
        t9a: icc.t9a,
        t9c,
        t9f37: icc.t9f37,
        t82: icc.t82,
        t9f36: icc.t9f36,
        t9f26: icc.t9f26,
    }
}

/// The request whose other fields are these.
#[tactic(auto, unfolding(crate::specs::Items::request_in))]
pub fn request_in<'a>(front: RequestFront, fields: &mut Fields<'a>) -> Found<RequestFields<'a>>
    ensures { MatchResult result (λ found. request_items front fields.old.left ≡ Ok found) (λ fault. request_items front fields.old.left ≡ Err fault) }
{
    let t9f1c = front.acceptor.t9f1c;
    let tdf11 = front.tdf11;
    let t5f34 = fields.fixed_if_there(0x5F34, true)?;
    let t5f24 = fields.fixed(0x5F24, true)?;
    let icc = read_icc(fields)?;
    let t9f10 = fields.some(0x9F10, 0, 32)?;
    fields.end()?;
    let named = Named {
        t9f1c,
        pan: front.pan.copy(),
        t5f34,
    };
    let paid = paid(&front.numbers, &front.acceptor, front.t9c, &icc);
    Ok(RequestFields::from_parts(named, t5f24, paid, t9f10, tdf11))
}

/// The presentment whose other fields are these.
#[tactic(auto, unfolding(crate::specs::Items::present_in))]
pub fn present_in<'a>(front: PresentFront, fields: &mut Fields<'a>) -> Found<PresentFields<'a>>
    ensures { MatchResult result (λ found. present_items front fields.old.left ≡ Ok found) (λ fault. present_items front fields.old.left ≡ Err fault) }
{
    let t9f1c = front.acceptor.t9f1c;
    let t8a = front.t8a;
    let t5f34 = fields.fixed_if_there(0x5F34, true)?;
    let icc = read_icc(fields)?;
    let t9f10 = fields.some(0x9F10, 0, 32)?;
    fields.end()?;
    let named = Named {
        t9f1c,
        pan: front.pan.copy(),
        t5f34,
    };
    let paid = paid(&front.numbers, &front.acceptor, front.t9c, &icc);
    Ok(PresentFields::from_parts(named, paid, t9f10, t8a))
}

/// The reversal whose other fields are these.
#[tactic(auto, unfolding(crate::specs::Items::reversal_in))]
pub fn reversal_in(front: &ReversalFront, fields: &mut Fields) -> Found<ReversalFields>
    ensures { MatchResult result (λ found. reversal_items front.now fields.old.left ≡ Ok found) (λ fault. reversal_items front.now fields.old.left ≡ Err fault) }
{
    let t5f34 = fields.fixed_if_there(0x5F34, true)?;
    let t9f36 = fields.fixed(0x9F36, false)?;
    fields.end()?;
    Ok(ReversalFields {
        t9f1c: front.acceptor.t9f1c,
        pan: front.pan.copy(),
        t5f34,
        t9f36,
        t9f02: front.numbers.t9f02,
        t5f2a: front.acceptor.t5f2a,
        t8a: front.t8a,
    })
}

/// The reply whose code is this one.
#[tactic(auto, unfolding(crate::specs::Items::reply_with_code))]
pub fn reply_in<'a>(code: [u8; 2], fields: &mut Fields<'a>) -> Found<Reply<'a>>
    ensures { MatchResult result (λ found. reply_items code fields.old.bytes fields.old.left ≡ Ok found) (λ fault. reply_items code fields.old.bytes fields.old.left ≡ Err fault) }
{
    let auth = fields.auth()?;
    let scripts = fields.scripts()?;
    fields.end()?;
    Ok(Reply {
        code,
        auth,
        scripts,
    })
}
