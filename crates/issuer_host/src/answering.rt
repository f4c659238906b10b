//! The replies to new messages, from what the host keeps.
ghost use Rattle.std.specs.Prelude.{◌≡◌, true};
ghost use Rattle.std.specs.Option.{is_some};
ghost use Rattle.emv_dict.specs.Bcd.{number_in};
ghost use Rattle.issuer_host.specs.Balance.{account_with_pan};
ghost use Rattle.issuer_host.specs.Code.{is_approved};
ghost use Rattle.issuer_host.specs.Holds.{Holds};
ghost use Rattle.issuer_host.specs.Records.{is_open};
ghost use Rattle.issuer_host.specs.Reply as spec;
ghost use Rattle.issuer_host.specs.Reply.{request_key as key_of_request, present_key as key_of_present, reversal_key as key_of_reversal, said_bytes};

use crate::account::Account;
use crate::accounts::{account_at, flag_at, place_of};
use crate::keys::HostKeys;
use crate::records::Records;
use crate::reply::{Answered, present_reply, request_reply, reversal_reply};
use auth_message::{Message, PresentFields, RequestFields, ReversalFields};
use host_ledger::Key;

/// Writes the reply to a new request.
pub fn reply_to_request(
    keys: &HostKeys,
    accounts: &[Account],
    records: &Records,
    served: &[bool],
    fields: &RequestFields,
    out: &mut Message,
) -> Answered
    requires holds { Holds accounts.now records.now served.now }
    ensures bytes { out.new.items ≡ said_bytes (spec.request_reply keys.now (account_with_pan fields.now.named.pan accounts.now) records.now.books fields.now) }
    ensures code { result.code ≡ (spec.request_reply keys.now (account_with_pan fields.now.named.pan accounts.now) records.now.books fields.now).code }
    ensures online { result.online ≡ is_some (spec.request_reply keys.now (account_with_pan fields.now.named.pan accounts.now) records.now.books fields.now).auth }
    ensures held { is_approved result.code ≡ true → is_open records.now (key_of_request fields.now) (number_in fields.now.paid.t9f02) ≡ true }
{
    let place = place_of(accounts, &fields.pan);
    let account = account_at(accounts, place);
    let flag = flag_at(served, place);
    request_reply(keys, account, flag, records, fields, out)
}

/// Writes the reply to a new presentment.
pub fn reply_to_presentment(
    keys: &HostKeys,
    accounts: &[Account],
    records: &Records,
    key: &Key,
    fields: &PresentFields,
    out: &mut Message,
) -> Answered
    requires key { key.now ≡ key_of_present fields.now }
    ensures bytes { out.new.items ≡ said_bytes (spec.present_reply keys.now (account_with_pan fields.now.named.pan accounts.now) records.now.books fields.now) }
    ensures code { result.code ≡ (spec.present_reply keys.now (account_with_pan fields.now.named.pan accounts.now) records.now.books fields.now).code }
    ensures online { result.online ≡ is_some (spec.present_reply keys.now (account_with_pan fields.now.named.pan accounts.now) records.now.books fields.now).auth }
{
    let place = place_of(accounts, &fields.pan);
    let account = account_at(accounts, place);
    present_reply(keys, account, records, key, fields, out)
}

/// Writes the reply to a new reversal.
pub fn reply_to_reversal(
    accounts: &[Account],
    records: &Records,
    key: &Key,
    fields: &ReversalFields,
    out: &mut Message,
) -> Answered
    requires key { key.now ≡ key_of_reversal fields.now }
    ensures bytes { out.new.items ≡ said_bytes (spec.reversal_reply (account_with_pan fields.now.pan accounts.now) records.now.books fields.now) }
    ensures code { result.code ≡ (spec.reversal_reply (account_with_pan fields.now.pan accounts.now) records.now.books fields.now).code }
    ensures online { result.online ≡ is_some (spec.reversal_reply (account_with_pan fields.now.pan accounts.now) records.now.books fields.now).auth }
{
    let place = place_of(accounts, &fields.pan);
    let account = account_at(accounts, place);
    reversal_reply(account, records, key, fields, out)
}
