//! On what an issuer's code rests (docs/proof/profile.md, HOST-1 to HOST-9).
ghost use Rattle.std.specs.Prelude.{◌≡◌, OnOk, option_map};
ghost use Rattle.issuer_reasons.specs.Issuers as spec;
ghost use Rattle.report_lines.specs.Pieces.{Tells};

use crate::account::{Account, AccountNow, Charge, account_now, charge_account};
use crate::wanted::{Wanted, tell_currency};
use ber_tlv::{Tag, first_value, sole_value};
use report_lines::{
    ABOVE_BALANCE, EXPIRED, HELD, NO_ACCOUNT, NOT_ALLOWED, WRONG_CRYPTOGRAM, WRONG_PIN, WordLines,
};
use std::alloc::AllocError;

/// A reply to a request, and what was known as it came.
#[derive(Clone, Copy, PartialEq, Eq, Debug)]
pub struct Reply {
    pub code: [u8; 2],
    /// Whether it has issuer authentication data: then the request's cryptogram was right.
    pub authenticates: bool,
    /// The account before it.
    pub account: Option<AccountNow>,
    /// Whether the account may have less, since a message before was lost, or a capture was delivered.
    pub is_unsure: bool,
}

/// On what an issuer's code rests.
#[derive(Clone, Copy, PartialEq, Eq, Debug)]
pub enum IssuerReason {
    /// The balance covers the amount.
    Covered,
    /// The balance is below the amount.
    AboveBalance,
    /// No account has the number.
    UnknownAccount,
    /// The card's expiry is before the date.
    Expired,
    /// The PIN isn't the account's.
    WrongPin,
    /// The account is blocked.
    AccountBlocked,
    /// The currency isn't the account's.
    OtherCurrency,
    /// A reversal or a presentment of the transaction came before.
    SettledBefore,
    /// One of the three above.
    OneOfThree,
    /// The cryptogram is wrong, or other bytes of the transaction came before.
    NotGenuine,
    /// The code is none of these.
    OtherCode,
}

/// Whether a currency is known, and another one.
fn is_other(own: u64, wanted: Option<Wanted>) -> bool
    ensures { result ≡ spec.is_other_currency own wanted }
{
    match wanted {
        Some(wanted) => wanted.currency != own,
        None => false,
    }
}

/// Why a genuine request is declined with code 05.
fn declined_reason(account: Option<AccountNow>, wanted: Option<Wanted>) -> IssuerReason
    ensures { result ≡ spec.declined_reason account wanted }
{
    match account {
        Some(account) => {
            if account.blocked {
                IssuerReason::AccountBlocked
            } else if is_other(account.currency, wanted) {
                IssuerReason::OtherCurrency
            } else {
                IssuerReason::SettledBefore
            }
        }
        None => IssuerReason::OneOfThree,
    }
}

/// Why a request is declined with code 05.
fn refused_reason(reply: &Reply, wanted: Option<Wanted>) -> IssuerReason
    ensures { result ≡ spec.refused_reason reply.now wanted }
{
    if reply.authenticates {
        declined_reason(reply.account, wanted)
    } else {
        IssuerReason::NotGenuine
    }
}

/// The number of a response code.
fn code_number(code: [u8; 2]) -> u32
    ensures { result ≡ spec.code_number code }
{
    let [first, second] = code;
    u32::from(first) * 256 + u32::from(second)
}

/// On what a reply's code rests.
pub fn issuer_reason(reply: &Reply, wanted: Option<Wanted>) -> IssuerReason
    ensures { result ≡ spec.issuer_reason reply.now wanted }
{
    match code_number(reply.code) {
        0x3030 => IssuerReason::Covered,
        0x3035 => refused_reason(reply, wanted),
        0x3134 => IssuerReason::UnknownAccount,
        0x3531 => IssuerReason::AboveBalance,
        0x3534 => IssuerReason::Expired,
        0x3535 => IssuerReason::WrongPin,
        _ => IssuerReason::OtherCode,
    }
}

/// Tells that what follows may be less.
fn tell_at_most(out: &mut WordLines, is_unsure: bool)
    ensures { Tells out.old out.new (spec.at_most_words is_unsure) }
{
    if is_unsure {
        out.text(b"of at most ");
    }
}

/// Tells a balance.
fn tell_balance(out: &mut WordLines, balance: u64, is_unsure: bool)
    ensures { Tells out.old out.new (spec.balance_words balance is_unsure) }
{
    out.text(b"the balance ");
    tell_at_most(out, is_unsure);
    out.number(balance);
}

/// Tells that a balance covers an amount.
fn tell_covered_by(out: &mut WordLines, amount: u64, balance: u64, is_unsure: bool)
    ensures { Tells out.old out.new (spec.covered_by amount balance is_unsure) }
{
    tell_balance(out, balance, is_unsure);
    out.text(b" covers the amount ");
    out.number(amount);
}

/// Tells that an amount is above a balance.
fn tell_above(out: &mut WordLines, amount: u64, balance: u64, is_unsure: bool)
    ensures { Tells out.old out.new (spec.above_account_words amount balance is_unsure) }
{
    out.text(b"the amount ");
    out.number(amount);
    out.text(b" is above ");
    tell_balance(out, balance, is_unsure);
}

/// Tells an approval.
fn tell_covered(out: &mut WordLines, reply: &Reply, wanted: Option<Wanted>)
    ensures { Tells out.old out.new (spec.covered_words reply.now reply.now.account wanted) }
{
    match reply.account {
        Some(account) => match wanted {
            Some(wanted) => tell_covered_by(out, wanted.amount, account.balance, reply.is_unsure),
            None => out.text(COVERS),
        },
        None => out.text(COVERS),
    }
}

/// Tells that the balance is below the amount.
fn tell_above_balance(out: &mut WordLines, reply: &Reply, wanted: Option<Wanted>)
    ensures { Tells out.old out.new (spec.above_balance_words reply.now reply.now.account wanted) }
{
    match reply.account {
        Some(account) => match wanted {
            Some(wanted) => tell_above(out, wanted.amount, account.balance, reply.is_unsure),
            None => out.text(IS_ABOVE),
        },
        None => out.text(IS_ABOVE),
    }
}

/// Tells that the currency isn't the account's.
fn tell_other(out: &mut WordLines, own: u64, currency: u64)
    ensures { Tells out.old out.new (spec.other_words own currency) }
{
    out.text(b"the currency ");
    tell_currency(out, currency);
    out.text(b" isn't the account's, ");
    tell_currency(out, own);
}

/// Tells that the currency isn't the account's, where both are known.
fn tell_other_of(out: &mut WordLines, account: Option<AccountNow>, wanted: Option<Wanted>)
    ensures { Tells out.old out.new (spec.other_account_words account wanted) }
{
    if let Some(account) = account {
        if let Some(wanted) = wanted {
            tell_other(out, account.currency, wanted.currency);
        }
    }
}

/// Tells a reason that rests on numbers.
fn tell_with_numbers(
    out: &mut WordLines,
    reason: IssuerReason,
    reply: &Reply,
    wanted: Option<Wanted>,
)
    ensures { Tells out.old out.new (spec.numbers_words reason reply.now wanted) }
{
    match reason {
        IssuerReason::Covered => tell_covered(out, reply, wanted),
        IssuerReason::AboveBalance => tell_above_balance(out, reply, wanted),
        IssuerReason::OtherCurrency => tell_other_of(out, reply.account, wanted),
        _ => {}
    }
}

/// Tells a reason.
fn tell_issuer_reason(
    out: &mut WordLines,
    reason: IssuerReason,
    reply: &Reply,
    wanted: Option<Wanted>,
)
    ensures { Tells out.old out.new (spec.issuer_reason_words reason reply.now wanted) }
{
    match reason {
        IssuerReason::UnknownAccount => out.text(b"no account has the number"),
        IssuerReason::Expired => out.text(b"the card's expiry is before the date"),
        IssuerReason::WrongPin => out.text(b"the PIN isn't the account's"),
        IssuerReason::AccountBlocked => out.text(b"the account is blocked"),
        IssuerReason::SettledBefore => out.text(SETTLED_BEFORE),
        IssuerReason::OneOfThree => out.text(ONE_OF_THREE),
        IssuerReason::NotGenuine => out.text(NOT_GENUINE),
        IssuerReason::OtherCode => out.text(b"the issuer's own reasons"),
        other => tell_with_numbers(out, other, reply, wanted),
    }
}

/// An approval, where the numbers aren't known.
pub const COVERS: &[u8] = b"the balance covers the amount";

/// A decline with code 51, where the numbers aren't known.
pub const IS_ABOVE: &[u8] = b"the amount is above the balance";

/// The cryptogram is right, the account isn't blocked and its currency is the message's.
pub const SETTLED_BEFORE: &[u8] =
    b"neither its cryptogram, nor a blocked account, nor its currency: a reversal or a presentment of the transaction came before";

/// The cryptogram is right, and nothing is known of the account.
pub const ONE_OF_THREE: &[u8] =
    b"its cryptogram is right: the account is blocked, its currency is another one, or a reversal or a presentment came before";

/// The reply has no issuer authentication data.
pub const NOT_GENUINE: &[u8] =
    b"neither a blocked account, nor its currency, nor its balance: its cryptogram, or other bytes of its transaction before";

/// The rule behind a reason.
fn issuer_reference(reason: IssuerReason) -> Option<&'static [u8]>
    ensures { option_map (λ word. word.now) result ≡ spec.issuer_reference reason }
{
    match reason {
        IssuerReason::Covered => Some(HELD),
        IssuerReason::AboveBalance => Some(ABOVE_BALANCE),
        IssuerReason::UnknownAccount => Some(NO_ACCOUNT),
        IssuerReason::Expired => Some(EXPIRED),
        IssuerReason::WrongPin => Some(WRONG_PIN),
        IssuerReason::AccountBlocked
        | IssuerReason::OtherCurrency
        | IssuerReason::SettledBefore
        | IssuerReason::OneOfThree => Some(NOT_ALLOWED),
        IssuerReason::NotGenuine => Some(WRONG_CRYPTOGRAM),
        IssuerReason::OtherCode => None,
    }
}

/// Tells a reply to a request, and on what it rests, with the rule.
fn tell_reply(out: &mut WordLines, reply: &Reply, wanted: Option<Wanted>)
    ensures { Tells out.old out.new (spec.reply_reason_words reply.now wanted) }
{
    out.text(b"its code is ");
    out.text(&reply.code);
    out.text(b": ");
    let reason = issuer_reason(reply, wanted);
    tell_issuer_reason(out, reason, reply, wanted);
    out.reference_of(issuer_reference(reason));
}

/// Tells on what the issuer's reply rests, or that none came.
pub fn tell_issuer(
    out: &mut WordLines,
    requested: bool,
    reply: Option<Reply>,
    wanted: Option<Wanted>,
)
    ensures { Tells out.old out.new (spec.issuer_words requested reply wanted) }
{
    out.line(1);
    out.text(b"issuer: ");
    match reply {
        Some(reply) => tell_reply(out, &reply, wanted),
        None => {
            if requested {
                out.text(b"no reply came: the request or the reply was lost");
            } else {
                out.text(b"it was not asked");
            }
        }
    }
}

/// What is known of the accounts: as they were when the report began, what approved requests took from them since, and
/// whether they may have less.
#[derive(Clone, Copy)]
pub struct KnownAccounts<'a> {
    pub accounts: &'a [Account],
    pub charges: &'a [Charge],
    pub is_unsure: bool,
}

/// Whether the objects of a reply have issuer authentication data (91).
fn has_authentication(objects: &[u8]) -> bool
    ensures { result ≡ spec.has_issuer_authentication objects.now }
{
    match first_value(objects, Tag(0x91)) {
        Ok(Some(_)) => true,
        _ => false,
    }
}

/// Whether a reply in the style of ISO 8583 has field 55, and something in it: it stands behind a type, a bitmap, a code
/// and its own length, which are 18 bytes.
fn has_field_55(reply: &[u8]) -> bool
    ensures { result ≡ spec.has_field_55 reply.now }
{
    match reply {
        [_, _, _, _, _, _, _, _, _, _, flags, ..] => *flags / 2 % 2 == 1 && reply.len() > 18,
        _ => false,
    }
}

/// Whether a reply authenticates the issuer.
fn authenticates(reply: &[u8]) -> bool
    ensures { result ≡ spec.authenticates reply.now }
{
    match sole_value(reply, Tag(0xe2)) {
        Some(objects) => has_authentication(objects),
        None => has_field_55(reply),
    }
}

/// A reply to a request of the account of this number, where it has a code.
pub fn reply_of(
    known: &KnownAccounts<'_>,
    pan: &[u8],
    code: Option<[u8; 2]>,
    bytes: &[u8],
) -> Option<Reply>
    ensures { result ≡ spec.reply_seen (spec.seen_accounts known.now) pan.now code bytes.now }
{
    let code = code?;
    Some(Reply {
        code,
        authenticates: authenticates(bytes),
        account: account_now(known.accounts, known.charges, pan),
        is_unsure: known.is_unsure,
    })
}

/// Takes what a reply approved from its account. An error says that there was no memory.
pub fn charge_approved(
    charges: &mut Vec<Charge>,
    pan: &[u8],
    reply: &Reply,
    wanted: Option<Wanted>,
) -> Result<(), AllocError>
    ensures { OnOk result (charges.new.items ≡ spec.charged_by pan.now reply.now wanted charges.old.items) }
{
    if let Some(wanted) = wanted {
        if code_number(reply.code) == 0x3030 {
            return charge_account(charges, pan, wanted.amount);
        }
    }
    Ok(())
}
