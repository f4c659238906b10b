//! Why the host replies as it does: the rules of its decisions once more, with their numbers.
ghost use Rattle.std.specs.Prelude.{◌≡◌, IsSome, Some, map, option_map, if◌then◌else◌};
ghost use Rattle.std.specs.List.{All};
ghost use Rattle.std.specs.Str.{bytes_eq};
ghost use Rattle.host_ledger.specs.declared.key.Key.{Key};
ghost use Rattle.auth_message.specs.Message.{message_of};
ghost use Rattle.issuer_host.specs.Account.{IsAccount};
ghost use Rattle.issuer_host.specs.Balance.{account_with_pan};
ghost use Rattle.issuer_host.specs.Books.{kept_at};
ghost use Rattle.issuer_host.specs.Holds.{opening_balance};
ghost use Rattle.issuer_host.specs.Keeping.{kept_message};
ghost use Rattle.issuer_host.specs.Reasons as spec;
ghost use Rattle.issuer_host.specs.Reasons.{code_of_reason, left_on, reason_in};
ghost use Rattle.issuer_host.specs.Records.{balance_left};
ghost use Rattle.issuer_host.specs.Reply.{request_key as key_of_request, present_key as key_of_present, reversal_key as key_of_reversal, request_code as code_of_request, present_code as code_of_present};
ghost use Rattle.issuer_host.specs.declared.reason.Reason.TheVariants.{Repeat, OtherBytes, OtherCurrency};

use crate::account::Account;
use crate::accounts::{account_at, place_of};
use crate::code::Code;
use crate::decision::{
    day, is_made_under, pin_is_wrong, present_is_genuine, present_key, request_key, reversal_key,
    session,
};
use crate::keeping::KeptMessage;
use crate::keys::HostKeys;
use crate::reason::Reason;
use crate::records::Records;
use auth_message::{Incoming, PresentFields, RequestFields, ReversalFields, read_message};
use emv_dict::{Digits, amount_of};
use host_ledger::Key;

/// The reason of the reply to a message.
pub fn reason_of(keys: &HostKeys, accounts: &[Account], records: &Records, message: &[u8]) -> Reason
    requires valid { All IsAccount accounts.now }
    requires openings { records.now.accounts ≡ map opening_balance accounts.now }
    ensures { result ≡ reason_in keys.now accounts.now records.now.books message.now (message_of message.now) }
{
    match read_message(message) {
        Ok(Incoming::Request(fields)) => request_reason(keys, accounts, records, message, &fields),
        Ok(Incoming::Present(fields)) => present_reason(keys, accounts, records, message, &fields),
        Ok(Incoming::Reverse(fields)) => reversal_reason(accounts, records, message, &fields),
        Err(fault) => Reason::Unreadable { fault },
    }
}

/// The reason of the reply to a request.
fn request_reason(
    keys: &HostKeys,
    accounts: &[Account],
    records: &Records,
    message: &[u8],
    fields: &RequestFields,
) -> Reason
    requires valid { All IsAccount accounts.now }
    requires openings { records.now.accounts ≡ map opening_balance accounts.now }
    ensures { result ≡ spec.again_reason (kept_at (key_of_request fields.now) records.now.books.requests) message.now (spec.request_reason keys.now (account_with_pan fields.now.named.pan accounts.now) records.now.books fields.now) }
{
    let key = request_key(fields);
    if let Some(kept) = records.request(&key) {
        return again_reason(kept, message);
    }
    let Some(account) = find_account(accounts, &fields.pan) else {
        return Reason::UnknownAccount;
    };
    if !is_made_under(&session(&keys.ac, &key), &fields.paid(), fields.t9f10) {
        return Reason::WrongCryptogram;
    }
    genuine_reason(keys, account, records, &key, fields)
}

/// The reason of the reply to a genuine request of an account.
#[tactic(auto, unfolding(crate::specs::Reasons::genuine_reason))]
fn genuine_reason(
    keys: &HostKeys,
    account: &Account,
    records: &Records,
    key: &Key,
    fields: &RequestFields,
) -> Reason
    requires account { IsAccount account.now }
    requires key { key.now ≡ key_of_request fields.now }
    requires known { balance_left records.now account.now.pan ≡ Some (left_on account.now records.now.books) }
    ensures { result ≡ spec.genuine_reason keys.now account.now records.now.books fields.now }
{
    if account.blocked {
        return Reason::Blocked;
    }
    if fields.t5f2a != account.currency {
        return other_currency(account, fields.t5f2a);
    }
    if records.reversal(key).is_some() {
        return Reason::Reversed;
    }
    if records.presentment(key).is_some() {
        return Reason::Presented;
    }
    if day(fields.t5f24).is_before(&day(fields.t9a)) {
        return Reason::Expired {
            expiry: fields.t5f24,
            day: fields.t9a,
        };
    }
    if pin_is_wrong(&keys.pin, account, fields.tdf11) {
        return Reason::WrongPin;
    }
    let amount = amount_of(fields.t9f02);
    let balance = balance_of(account, records);
    if balance < i128::from(amount) {
        return Reason::AboveBalance { amount, balance };
    }
    Reason::Approved { amount }
}

/// The decision on a genuine request of an account: the code of its reason.
#[tactic(auto, using(crate::proofs::Reasons::genuine_code))]
pub fn request_code(
    keys: &HostKeys,
    account: &Account,
    records: &Records,
    key: &Key,
    fields: &RequestFields,
) -> Code
    requires account { IsAccount account.now }
    requires key { key.now ≡ key_of_request fields.now }
    requires known { balance_left records.now account.now.pan ≡ Some (left_on account.now records.now.books) }
    ensures { result ≡ code_of_request keys.now account.now records.now.books fields.now }
{
    decided(genuine_reason(keys, account, records, key, fields))
}

/// The reason of the reply to a presentment.
fn present_reason(
    keys: &HostKeys,
    accounts: &[Account],
    records: &Records,
    message: &[u8],
    fields: &PresentFields,
) -> Reason
    ensures { result ≡ spec.again_reason (kept_at (key_of_present fields.now) records.now.books.presentments) message.now (spec.present_reason keys.now (account_with_pan fields.now.named.pan accounts.now) records.now.books fields.now) }
{
    let key = present_key(fields);
    if let Some(kept) = records.presentment(&key) {
        return again_reason(kept, message);
    }
    match find_account(accounts, &fields.pan) {
        Some(account) => booking_reason(keys, account, records, &key, fields),
        None => Reason::UnknownAccount,
    }
}

/// The reason of the reply to a presentment of an account.
#[tactic(auto, unfolding(crate::specs::Reasons::booking_reason))]
fn booking_reason(
    keys: &HostKeys,
    account: &Account,
    records: &Records,
    key: &Key,
    fields: &PresentFields,
) -> Reason
    requires { key.now ≡ key_of_present fields.now }
    ensures { result ≡ spec.booking_reason keys.now account.now records.now.books fields.now }
{
    if !present_is_genuine(keys, key, fields) {
        return Reason::WrongCryptogram;
    }
    if fields.t5f2a != account.currency {
        return other_currency(account, fields.t5f2a);
    }
    if records.is_released(key) {
        return Reason::Reversed;
    }
    Reason::Settled {
        amount: amount_of(fields.t9f02),
        held: approved_request(records, key),
    }
}

/// The decision on a presentment of an account: the code of its reason.
#[tactic(auto, using(crate::proofs::Reasons::booking_code))]
pub fn present_code(
    keys: &HostKeys,
    account: &Account,
    records: &Records,
    key: &Key,
    fields: &PresentFields,
) -> Code
    requires { key.now ≡ key_of_present fields.now }
    ensures { result ≡ code_of_present keys.now account.now records.now.books fields.now }
{
    decided(booking_reason(keys, account, records, key, fields))
}

/// The code of a reason that isn't a repeat.
fn decided(reason: Reason) -> Code
    requires { IsSome (code_of_reason reason) }
    ensures { Some result ≡ code_of_reason reason }
{
    match reason.code() {
        Some(code) => code,
        None => unreachable!(),
    }
}

/// The reason of the reply to a reversal.
fn reversal_reason(
    accounts: &[Account],
    records: &Records,
    message: &[u8],
    fields: &ReversalFields,
) -> Reason
    ensures { result ≡ spec.again_reason (kept_at (key_of_reversal fields.now) records.now.books.reversals) message.now (spec.reversal_reason (account_with_pan fields.now.pan accounts.now) records.now.books fields.now) }
{
    let key = reversal_key(fields);
    if let Some(kept) = records.reversal(&key) {
        return again_reason(kept, message);
    }
    if find_account(accounts, &fields.pan).is_none() {
        return Reason::UnknownAccount;
    }
    if records.is_booked(&key) {
        return Reason::Presented;
    }
    match approved_request(records, &key) {
        Some(amount) => Reason::Released { amount },
        None => Reason::NothingHeld,
    }
}

/// The reason where a message of the kind and transaction was kept.
fn again_reason(kept: &KeptMessage, message: &[u8]) -> Reason
    ensures { result ≡ (if bytes_eq kept.now.message.items message.now then Repeat else OtherBytes) }
{
    if kept.message.as_slice() == message {
        Reason::Repeat
    } else {
        Reason::OtherBytes
    }
}

/// The reason of a message in another currency than the account's.
fn other_currency(account: &Account, message: [u8; 2]) -> Reason
    ensures { result ≡ OtherCurrency message account.now.currency }
{
    Reason::OtherCurrency {
        message,
        account: account.currency,
    }
}

/// The amount of the transaction's request, where it was approved.
fn approved_request(records: &Records, key: &Key) -> Option<u64>
    ensures { result ≡ spec.approved_amount (kept_at key.now records.now.books.requests) }
{
    approved_amount(records.request(key))
}

/// The amount of a message that was kept with code 00.
fn approved_amount(kept: Option<&KeptMessage>) -> Option<u64>
    ensures { (key : Key) → result ≡ spec.approved_amount (option_map (λ k. kept_message key k.now) kept.entry) }
{
    match kept {
        Some(kept) => {
            if kept.code.is_approved() {
                Some(kept.amount)
            } else {
                None
            }
        }
        None => None,
    }
}

/// The balance of an account.
fn balance_of(account: &Account, records: &Records) -> i128
    requires { balance_left records.now account.now.pan ≡ Some (left_on account.now records.now.books) }
    ensures { result ≡ left_on account.now records.now.books }
{
    match records.balance(&account.pan) {
        Some(balance) => balance,
        None => unreachable!(),
    }
}

/// The account of an account number.
fn find_account<'a>(accounts: &'a [Account], pan: &Digits) -> Option<&'a Account>
    ensures { option_map (λ account. account.now) result ≡ account_with_pan pan.now accounts.now }
{
    account_at(accounts, place_of(accounts, pan))
}
