ghost use Rattle.std.specs.Prelude.{◌≡◌};
ghost use Rattle.issuer_host.specs.Account.{is_status as is_status_sum};

use emv_dict::Digits;
use script_words::Script;
use std::marker::Model;

/// How the authorisation response cryptogram of a reply is made (EMV 4.3 Book 2 section 8.2).
#[derive(Clone, Copy, PartialEq, Eq, Debug)]
pub enum Method {
    /// Method 1: over the Authorisation Response Code, by triple DES.
    One,
    /// Method 2: over four status bytes, by a message authentication code.
    Two,
}

/// Whether a number is a sum of none or some of 64, 32 and 16: the bits of a status byte that an account may
/// set.
pub fn is_status(status: u8) -> bool
    ensures { result ≡ is_status_sum status }
{
    status % 16 == 0 && status < 128
}

/// An account of the issuer.
#[derive(Drop, Debug)]
pub struct Account {
    /// The primary account number, from 13 to 19 digits.
    pub pan: Digits,
    /// The currency code of the account, as in object 5F2A.
    pub currency: [u8; 2],
    /// The opening balance in the currency's least unit, at most 12 digits.
    pub balance: u64,
    /// Whether each request is declined.
    pub blocked: bool,
    /// The PIN, from 4 to 12 digits.
    pub pin: Option<Digits>,
    /// At most 8 scripts, which the first online reply to the account carries.
    pub scripts: Vec<Script>,
    /// By which method its cards authenticate the issuer.
    pub arpc: Method,
    /// What each reply by method 2 asks of the card, in its second status byte, as a sum of none or some of
    /// 64, 32 and 16: to block the application, to block the card, to set the PIN tries to their limit.
    pub status: u8,
}

impl Model for Account {
    ghost use Rattle.issuer_host.specs.Account.{AccountData};

    ghost Value = { AccountData };

    ghost view = { λ a. record {
      pan = a.pan;
      currency = a.currency;
      balance = a.balance;
      blocked = a.blocked;
      pin = a.pin;
      scripts = a.scripts.items;
      arpc = a.arpc;
      status = a.status;
    } };
}
