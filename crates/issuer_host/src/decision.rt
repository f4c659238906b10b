//! The host's decisions.
ghost use Rattle.std.specs.Prelude.{◌≡◌};
ghost use Rattle.issuer_host.specs.Account.{IsAccount};
ghost use Rattle.issuer_host.specs.Reply as spec;
ghost use Rattle.issuer_host.specs.Reply.{request_key as key_of_request, present_key as key_of_present, reversal_key as key_of_reversal, session_of, ac_fields_of, date_of_digits, pin_is_wrong as pin_spec};

use crate::account::Account;
use crate::code::Code;
use crate::keys::HostKeys;
use crate::records::Records;
use app_cryptogram::{AcFields, ac};
use auth_message::{Paid, PresentFields, RequestFields, ReversalFields};
use card_keys::{master_key, session_ac};
use emv_dict::{Date, Digits, two_digit_number};
use host_ledger::Key;
use pin_block::online_block;
use triple_des::Key16;

/// What names the transaction of a message.
fn key(pan: &Digits, sequence: Option<[u8; 1]>, counter: [u8; 2]) -> Key
    ensures { result ≡ spec.key_of pan.now sequence counter }
{
    let sequence = sequence_number(sequence);
    Key {
        pan: pan.copy(),
        sequence,
        counter: u16::from_be_bytes(counter),
    }
}

/// The sequence number of an account number, 0 where there is none.
fn sequence_number(field: Option<[u8; 1]>) -> u8
    ensures { result ≡ spec.sequence_of field }
{
    match field {
        Some(bytes) => bytes[0],
        None => 0,
    }
}

/// What names the transaction of a request.
pub fn request_key(fields: &RequestFields) -> Key
    ensures { result ≡ key_of_request fields.now }
{
    key(&fields.pan, fields.t5f34, fields.t9f36)
}

/// What names the transaction of a presentment.
pub fn present_key(fields: &PresentFields) -> Key
    ensures { result ≡ key_of_present fields.now }
{
    key(&fields.pan, fields.t5f34, fields.t9f36)
}

/// What names the transaction of a reversal.
pub fn reversal_key(fields: &ReversalFields) -> Key
    ensures { result ≡ key_of_reversal fields.now }
{
    key(&fields.pan, fields.t5f34, fields.t9f36)
}

/// The session key of a transaction for application cryptograms.
pub fn session(issuer: &Key16, key: &Key) -> Key16
    ensures { result ≡ session_of issuer.now key.now }
{
    session_ac(&master_key(issuer, &key.pan, key.sequence), key.counter)
}

/// What a cryptogram covers of a payment, 9F10 aside (EMV 4.3 Book 2 section 8.1.1).
pub fn covered(paid: &Paid) -> AcFields
    ensures { result ≡ ac_fields_of paid.now }
{
    let [trade] = paid.t9c;
    AcFields {
        amount: paid.t9f02,
        other: paid.t9f03,
        country: paid.t9f1a,
        tvr: paid.t95,
        currency: paid.t5f2a,
        date: paid.t9a,
        trade,
        number: paid.t9f37,
        aip: paid.t82,
        counter: paid.t9f36,
    }
}

/// Whether 9F26 is the cryptogram of a payment and 9F10 under a session key.
pub fn is_made_under(session: &Key16, paid: &Paid, t9f10: &[u8]) -> bool
    ensures { result ≡ spec.is_made_under session.now paid.now t9f10.now }
{
    ac(session, &covered(paid), t9f10) == paid.t9f26
}

/// Whether 9F26 is the card's cryptogram of the presentment's fields.
pub fn present_is_genuine(keys: &HostKeys, key: &Key, fields: &PresentFields) -> bool
    requires { key.now ≡ key_of_present fields.now }
    ensures { result ≡ spec.present_is_genuine keys.now fields.now }
{
    is_made_under(&session(&keys.ac, key), &fields.paid(), fields.t9f10)
}

/// The day of three bytes of digits, which need not be one of the calendar.
pub fn day(bytes: [u8; 3]) -> Date
    ensures { result ≡ date_of_digits bytes }
{
    let [year, month, day] = bytes;
    let digits = u16::from(two_digit_number(year));
    Date {
        year: if digits < 50 {
            2000 + digits
        } else {
            1900 + digits
        },
        month: two_digit_number(month),
        day: two_digit_number(day),
    }
}

/// Whether the terminal sent a PIN block that is not the account's.
pub fn pin_is_wrong(key: &Key16, account: &Account, block: Option<[u8; 8]>) -> bool
    requires { IsAccount account.now }
    ensures { result ≡ pin_spec key.now account.now.pin account.now.pan block }
{
    let Some(sent) = block else {
        return false;
    };
    match &account.pin {
        Some(pin) => online_block(key, pin, &account.pan) != sent,
        None => true,
    }
}

/// The decision on a reversal.
pub fn reversal_code(records: &Records, key: &Key, fields: &ReversalFields) -> Code
    requires { key.now ≡ key_of_reversal fields.now }
    ensures { result ≡ spec.reversal_code records.now.books fields.now }
{
    if records.is_booked(key) {
        Code::Declined
    } else {
        Code::Approved
    }
}
