//! The issuer's host: it answers the terminals' messages, and keeps what it has answered.
ghost use Rattle.std.specs.Prelude.{◌≡◌, ℕ, ◌≤◌, ◌-ℤ◌, pos, List, [], ◌∷◌, ◌++◌, map, length, Some, None, Ok, Err, OnOk, OnErr, IfOk, IfErr, IsOk, IsSome, IfSome, IfNone, true, slice_get, option_map};
ghost use Rattle.std.specs.List.{All};
ghost use Rattle.emv_dict.specs.Bcd.{number_in};
ghost use Rattle.emv_dict.specs.Settings.{most_amount};
ghost use Rattle.auth_message.specs.Accepted.{AreDigitBytes};
ghost use Rattle.auth_message.specs.Message.{message_of};
ghost use Rattle.auth_message.specs.Whole.{IsReply};
ghost use Rattle.auth_message.specs.declared.message.Incoming.TheVariants.{Request, Present, Reverse};
ghost use Rattle.host_ledger.specs.Accounts.{RefusesAccounts, AreDistinctBelow};
ghost use Rattle.issuer_host.specs.Account.{IsAccount};
ghost use Rattle.issuer_host.specs.Balance.{balance_in, account_with_pan};
ghost use Rattle.issuer_host.specs.Books.{kept_at};
ghost use Rattle.issuer_host.specs.History.{is_new_message, HostStands, host_reply, balance_after, kept_in};
ghost use Rattle.issuer_host.specs.Holds.{account_place, opening_balance};
ghost use Rattle.issuer_host.specs.Reasons.{reason_in};
ghost use Rattle.issuer_host.specs.Reply.{reply_to_message, request_key as key_of_request, present_key as key_of_present, reversal_key as key_of_reversal};

use crate::account::Account;
use crate::accounts::{none_served, openings, place_of, set_flag, without_memory};
use crate::answering::{reply_to_presentment, reply_to_request, reply_to_reversal};
use crate::code::Code;
use crate::decision::{present_key, request_key, reversal_key};
use crate::keeping::{again, kept};
use crate::keys::HostKeys;
use crate::reason::Reason;
use crate::reasoning::reason_of;
use crate::records::Records;
use crate::reply::plain;
use auth_message::{Incoming, Message, PresentFields, RequestFields, ReversalFields, read_message};
use emv_dict::{Digits, amount_of};
use host_ledger::LedgerFault;
use std::alloc::{AllocError, Global};
use std::marker::Model;

/// The issuer's host. Contracts see its keys, its accounts and the messages that it keeps: the first of
/// each kind and transaction that had no fault.
#[derive(Drop)]
pub struct Host<'a> {
    alloc: Global,
    keys: HostKeys,
    accounts: &'a [Account],
    records: Records,
    /// Whether a reply carried the scripts of the account at the same place.
    served: Vec<bool>,
}

impl<'a> Model for Host<'a> {
    ghost use Rattle.issuer_host.specs.History.{HostData};
    ghost use Rattle.issuer_host.specs.Holds.{Holds};

    ghost Value = { HostData };

    ghost view = { λ h. record { keys = h.keys; accounts = h.accounts.now; books = h.records.books } };

    ghost invariant = { λ h. Holds h.accounts.now h.records h.served.items };
}

impl<'a> Host<'a> {
    /// A host with these accounts that has had no message. `SamePan` comes exactly where an account number
    /// stands twice, also where memory is wanting, and has the place, from 0, of the first account whose
    /// number an earlier one has.
    pub fn new(
        alloc: Global,
        keys: HostKeys,
        accounts: &'a [Account],
    ) -> Result<Host<'a>, LedgerFault>
        requires { All IsAccount accounts.now }
        ensures stands { IfOk result (λ host. HostStands host []) }
        ensures keys { IfOk result (λ host. host.keys ≡ keys) }
        ensures accounts { IfOk result (λ host. host.accounts ≡ accounts.now) }
        ensures distinct { OnOk result (AreDistinctBelow (map opening_balance accounts.now) (length accounts.now)) }
        ensures refused { IfErr result (RefusesAccounts (map opening_balance accounts.now)) }
    {
        let Ok(openings) = openings(alloc, accounts) else {
            return Err(without_memory(accounts));
        };
        let Ok(served) = none_served(alloc, accounts) else {
            return Err(without_memory(accounts));
        };
        let records = Records::new(alloc, openings)?;
        Ok(Host {
            alloc,
            keys,
            accounts,
            records,
            served,
        })
    }

    /// Answers a message of at most 2,048 bytes, in place of what `out` holds. A message that can't be read
    /// is answered 05 and not kept. A message of the kind and transaction of one that was kept gets the kept
    /// reply again where its bytes are the same, which takes no memory, and else 05. After `AllocError` the
    /// host is as before, and `out` holds the reply all the same: it is written before memory is asked for.
    pub fn answer(&mut self, message: &[u8], out: &mut Message) -> Result<(), AllocError>
        requires { length message.now ≤ 2048 }
        // Whatever the result, the reply is that of the whole list of messages so far, whatever list it was.
        ensures reply { (messages : List (List ℕ)) → HostStands self.old messages
            → out.new.items ≡ host_reply self.old.keys self.old.accounts messages message.now }
        ensures stands { OnOk result ((messages : List (List ℕ)) → HostStands self.old messages
            → HostStands self.new (messages ++ message.now ∷ [])) }
        // It is read, and its scripts are spelled as items are written, with no byte 00 between them.
        ensures written { (messages : List (List ℕ)) → HostStands self.old messages → IsReply out.new.items }
        ensures keys { self.new.keys ≡ self.old.keys }
        ensures accounts { self.new.accounts ≡ self.old.accounts }
        ensures err { OnErr result (self.new ≡ self.old) }
        // Only the first message of its kind and transaction can want memory.
        ensures memory { OnErr result (is_new_message self.old.books (message_of message.now) ≡ true) }
    {
        let incoming = match read_message(message) {
            Ok(incoming) => incoming,
            Err(_) => {
                plain(Code::Declined, out);
                return Ok(());
            }
        };
        match incoming {
            Incoming::Request(fields) => self.answer_request(message, &fields, out),
            Incoming::Present(fields) => self.answer_presentment(message, &fields, out),
            Incoming::Reverse(fields) => self.answer_reversal(message, &fields, out),
        }
    }

    /// The balance of an account number in the least unit of its currency, `None` where no account has it:
    /// the opening balance less what its transactions take, which may leave it below zero.
    pub fn balance(&self, pan: &Digits) -> Option<i128>
        ensures exact { result ≡ balance_in self.now.accounts self.now.books pan.now }
        ensures history { (messages : List (List ℕ)) → HostStands self.now messages
            → result ≡ balance_after self.now.keys self.now.accounts messages pan.now }
    {
        self.records.balance(pan)
    }

    /// Why the host would reply to this message as it does, if it came next.
    pub fn reason(&self, message: &[u8]) -> Reason
        ensures exact { result ≡ reason_in self.now.keys self.now.accounts self.now.books message.now (message_of message.now) }
    {
        reason_of(&self.keys, self.accounts, &self.records, message)
    }

    /// Answers a request.
    fn answer_request(
        &mut self,
        message: &[u8],
        fields: &RequestFields,
        out: &mut Message,
    ) -> Result<(), AllocError>
        requires { AreDigitBytes fields.now.paid.t9f02 }
        ensures reply { out.new.items ≡ reply_to_message self.old.keys self.old.accounts self.old.books message.now (Ok (Request fields.now)) }
        ensures books { OnOk result (self.new.books ≡ kept_in self.old.keys self.old.accounts self.old.books message.now (Ok (Request fields.now))) }
        ensures keys { self.new.keys ≡ self.old.keys }
        ensures accounts { self.new.accounts ≡ self.old.accounts }
        ensures valid { All IsAccount self.old.accounts }
        ensures err { OnErr result (self.new ≡ self.old) }
        ensures memory { OnErr result (kept_at (key_of_request fields.now) self.old.books.requests ≡ None) }
    {
        let key = request_key(fields);
        if let Some(kept) = self.records.request(&key) {
            again(kept, message, out);
            return Ok(());
        }
        let answered = reply_to_request(
            &self.keys,
            self.accounts,
            &self.records,
            &self.served,
            fields,
            out,
        );
        let kept = kept(self.alloc, amount(fields.t9f02), message, answered, out)?;
        self.records.keep_request(&key, kept)?;
        if answered.online {
            let place = place_of(self.accounts, &key.pan);
            set_flag(&mut self.served, place);
        }
        Ok(())
    }

    /// Answers a presentment.
    fn answer_presentment(
        &mut self,
        message: &[u8],
        fields: &PresentFields,
        out: &mut Message,
    ) -> Result<(), AllocError>
        requires { AreDigitBytes fields.now.paid.t9f02 }
        ensures reply { out.new.items ≡ reply_to_message self.old.keys self.old.accounts self.old.books message.now (Ok (Present fields.now)) }
        ensures books { OnOk result (self.new.books ≡ kept_in self.old.keys self.old.accounts self.old.books message.now (Ok (Present fields.now))) }
        ensures keys { self.new.keys ≡ self.old.keys }
        ensures accounts { self.new.accounts ≡ self.old.accounts }
        ensures valid { All IsAccount self.old.accounts }
        ensures err { OnErr result (self.new ≡ self.old) }
        ensures memory { OnErr result (kept_at (key_of_present fields.now) self.old.books.presentments ≡ None) }
    {
        let key = present_key(fields);
        if let Some(kept) = self.records.presentment(&key) {
            again(kept, message, out);
            return Ok(());
        }
        let answered = reply_to_presentment(
            &self.keys,
            self.accounts,
            &self.records,
            &key,
            fields,
            out,
        );
        let kept = kept(self.alloc, amount(fields.t9f02), message, answered, out)?;
        self.records.keep_presentment(&key, kept)
    }

    /// Answers a reversal.
    fn answer_reversal(
        &mut self,
        message: &[u8],
        fields: &ReversalFields,
        out: &mut Message,
    ) -> Result<(), AllocError>
        requires { AreDigitBytes fields.now.t9f02 }
        ensures reply { out.new.items ≡ reply_to_message self.old.keys self.old.accounts self.old.books message.now (Ok (Reverse fields.now)) }
        ensures books { OnOk result (self.new.books ≡ kept_in self.old.keys self.old.accounts self.old.books message.now (Ok (Reverse fields.now))) }
        ensures keys { self.new.keys ≡ self.old.keys }
        ensures accounts { self.new.accounts ≡ self.old.accounts }
        ensures valid { All IsAccount self.old.accounts }
        ensures err { OnErr result (self.new ≡ self.old) }
        ensures memory { OnErr result (kept_at (key_of_reversal fields.now) self.old.books.reversals ≡ None) }
    {
        let key = reversal_key(fields);
        if let Some(kept) = self.records.reversal(&key) {
            again(kept, message, out);
            return Ok(());
        }
        let answered = reply_to_reversal(self.accounts, &self.records, &key, fields, out);
        let kept = kept(self.alloc, amount(fields.t9f02), message, answered, out)?;
        self.records.keep_reversal(&key, kept)
    }
}

/// The number of an amount's twelve digits.
#[tactic(auto, using(crate::proofs::Amounts::amount_small))]
fn amount(field: [u8; 6]) -> u64
    requires { AreDigitBytes field }
    ensures value { result ≡ number_in field }
    ensures small { result ≤ most_amount }
{
    amount_of(field)
}
