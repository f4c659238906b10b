//! The host's replies to messages of which none of their kind and transaction was kept.
ghost use Rattle.std.specs.Prelude.{◌≡◌, ◌≤◌, ◌-ℤ◌, pos, length, Some, [], if◌then◌else◌, option_map, IfSome, false};
ghost use Rattle.std.specs.Option.{is_some};
ghost use Rattle.auth_message.specs.Reply.{AreScripts};
ghost use Rattle.issuer_host.specs.Account.{IsAccount};
ghost use Rattle.issuer_host.specs.Balance.{taken_in_all};
ghost use Rattle.issuer_host.specs.Records.{balance_left};
ghost use Rattle.issuer_host.specs.Reply as spec;
ghost use Rattle.issuer_host.specs.Reply.{request_key as key_of_request, present_key as key_of_present, reversal_key as key_of_reversal, said_bytes, code_alone as plain_said, is_served, scripts_for, response_under};

use crate::account::Account;
use crate::code::Code;
use crate::decision::{is_made_under, request_key, reversal_code, session};
use crate::keys::HostKeys;
use crate::reasoning::{present_code, request_code};
use crate::records::Records;
use crate::response::issuer_data;
use crate::script::{ScriptBytes, ScriptKeys, write_scripts};
use auth_message::{Message, PresentFields, RequestFields, ReversalFields, write_reply};
use card_keys::{master_key, session_script};
use host_ledger::Key;
use triple_des::Key16;

/// What a reply said.
#[derive(Clone, Copy)]
pub struct Answered {
    pub code: Code,
    /// Whether it carries issuer authentication data.
    pub online: bool,
}

/// Writes a reply with the code alone.
#[tactic(auto, using(auth_message::proofs::Templates::none_are_scripts))]
pub fn plain(code: Code, out: &mut Message) -> Answered
    ensures bytes { out.new.items ≡ said_bytes (plain_said code) }
    ensures code { result.code ≡ code }
    ensures online { result.online ≡ false }
{
    write_reply(code.bytes(), None, &[], out);
    Answered {
        code,
        online: false,
    }
}

/// Writes the reply to a request of an account number.
pub fn request_reply(
    keys: &HostKeys,
    account: Option<&Account>,
    served: bool,
    records: &Records,
    fields: &RequestFields,
    out: &mut Message,
) -> Answered
    requires account { IfSome account (λ a. IsAccount a.now) }
    requires known { IfSome account (λ a. balance_left records.now a.now.pan ≡ Some (pos a.now.balance -ℤ pos (taken_in_all a.now.pan records.now.books))) }
    requires served { IfSome account (λ a. served ≡ is_served a.now.pan records.now.books) }
    ensures bytes { out.new.items ≡ said_bytes (spec.request_reply keys.now (option_map (λ a. a.now) account.entry) records.now.books fields.now) }
    ensures code { result.code ≡ (spec.request_reply keys.now (option_map (λ a. a.now) account.entry) records.now.books fields.now).code }
    ensures online { result.online ≡ is_some (spec.request_reply keys.now (option_map (λ a. a.now) account.entry) records.now.books fields.now).auth }
{
    let Some(account) = account else {
        return plain(Code::UnknownAccount, out);
    };
    let key = request_key(fields);
    let session = session(&keys.ac, &key);
    if !is_made_under(&session, &fields.paid(), fields.t9f10) {
        return plain(Code::Declined, out);
    }
    let code = request_code(keys, account, records, &key, fields);
    let scripts = scripts(keys, account, served, records, &key, fields);
    online_reply(&session, account, fields, code, &scripts, out);
    Answered { code, online: true }
}

/// Writes the reply to a genuine request, with its session key and the account's scripts.
fn online_reply(
    session: &Key16,
    account: &Account,
    fields: &RequestFields,
    code: Code,
    scripts: &[u8],
    out: &mut Message,
)
    requires account { IsAccount account.now }
    requires scripts { AreScripts scripts.now }
    ensures { out.new.items ≡ said_bytes (record { code = code; auth = Some (response_under session.now account.now fields.now code); scripts = scripts.now }) }
{
    let response = issuer_data(session, account, fields.t9f26, code);
    write_reply(code.bytes(), Some(&response), scripts, out);
}

/// The account's scripts, where no reply carried them yet.
#[tactic(auto, using(crate::proofs::MadeScripts::made_are_scripts, auth_message::proofs::Templates::none_are_scripts))]
fn scripts(
    keys: &HostKeys,
    account: &Account,
    served: bool,
    records: &Records,
    key: &Key,
    fields: &RequestFields,
) -> ScriptBytes
    requires account { IsAccount account.now }
    requires key { key.now ≡ key_of_request fields.now }
    requires served { served ≡ is_served account.now.pan records.now.books }
    ensures bytes { result.items ≡ scripts_for keys.now account.now records.now.books fields.now }
    ensures form { AreScripts result.items }
{
    let mut bytes = ScriptBytes::new();
    if served {
        return bytes;
    }
    // Without scripts no key is made for them.
    if account.scripts.is_empty() {
        return bytes;
    }
    let cryptogram = fields.t9f26;
    let script_keys = ScriptKeys {
        mac: session_script(&master_key(&keys.mac, &key.pan, key.sequence), cryptogram),
        enc: session_script(&master_key(&keys.enc, &key.pan, key.sequence), cryptogram),
        counter: key.counter,
        cryptogram,
    };
    write_scripts(&script_keys, &account.scripts, &mut bytes);
    bytes
}

/// Writes the reply to a presentment of an account number.
pub fn present_reply(
    keys: &HostKeys,
    account: Option<&Account>,
    records: &Records,
    key: &Key,
    fields: &PresentFields,
    out: &mut Message,
) -> Answered
    requires { key.now ≡ key_of_present fields.now }
    ensures bytes { out.new.items ≡ said_bytes (spec.present_reply keys.now (option_map (λ a. a.now) account.entry) records.now.books fields.now) }
    ensures code { result.code ≡ (spec.present_reply keys.now (option_map (λ a. a.now) account.entry) records.now.books fields.now).code }
    ensures online { result.online ≡ is_some (spec.present_reply keys.now (option_map (λ a. a.now) account.entry) records.now.books fields.now).auth }
{
    match account {
        Some(account) => plain(present_code(keys, account, records, key, fields), out),
        None => plain(Code::UnknownAccount, out),
    }
}

/// Writes the reply to a reversal of an account number.
pub fn reversal_reply(
    account: Option<&Account>,
    records: &Records,
    key: &Key,
    fields: &ReversalFields,
    out: &mut Message,
) -> Answered
    requires { key.now ≡ key_of_reversal fields.now }
    ensures bytes { out.new.items ≡ said_bytes (spec.reversal_reply (option_map (λ a. a.now) account.entry) records.now.books fields.now) }
    ensures code { result.code ≡ (spec.reversal_reply (option_map (λ a. a.now) account.entry) records.now.books fields.now).code }
    ensures online { result.online ≡ is_some (spec.reversal_reply (option_map (λ a. a.now) account.entry) records.now.books fields.now).auth }
{
    match account {
        Some(_) => plain(reversal_code(records, key, fields), out),
        None => plain(Code::UnknownAccount, out),
    }
}
