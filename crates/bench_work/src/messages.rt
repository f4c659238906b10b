//! Requests, and a host that answers them.
ghost use Rattle.std.specs.Prelude.{◌≡◌, ◌≤◌, ◌<◌, ◌++◌, ℕ, List, length, map, IfOk, OnOk};
ghost use Rattle.std.specs.List.{All};
ghost use Rattle.emv_dict.specs.Pan.{HasPanLength};
ghost use Rattle.issuer_host.specs.Account.{IsAccount};
ghost use Rattle.issuer_host.specs.History.{HostStands};

use app_cryptogram::ac;
use auth_message::{Message, Named, Paid, RequestFields, write_request};
use ber_tlv::append;
use card_keys::{master_key, session_ac};
use emv_dict::Digits;
use issuer_host::{Account, Host, HostKeys, Method, covered};
use std::alloc::{AllocError, Global};
use triple_des::Key16;

/// The most accounts.
pub const MOST_ACCOUNTS: u16 = 1000;

/// US dollars.
const CURRENCY: [u8; 2] = [0x08, 0x40];

/// The issuer's key for application cryptograms.
const AC_KEY: u128 = 0x0123_4567_89ab_cdef_fedc_ba98_7654_3210;

/// The keys of the issuer. The accounts have neither scripts nor PINs.
fn issuer_keys() -> HostKeys {
    HostKeys {
        ac: Key16::new(AC_KEY.to_be_bytes()),
        mac: Key16::new([0; 16]),
        enc: Key16::new([0; 16]),
        pin: Key16::new([0; 16]),
    }
}

/// The account number of an account.
fn account_number(place: u16) -> Digits
    requires { place < 1000 }
    ensures { HasPanLength result }
{
    let hundreds = (place / 100) as u8;
    let tens = (place / 10 % 10) as u8;
    let ones = (place % 10) as u8;
    let digits = [4, 7, 6, 1, 7, 3, 9, 0, 0, 1, 0, 1, 0, hundreds, tens, ones];
    match Digits::new(&digits) {
        Some(pan) => pan,
        None => unreachable!(),
    }
}

/// So many accounts, each of which can pay for all of its requests.
fn accounts(alloc: Global, count: u16) -> Result<Vec<Account>, AllocError>
    requires { count ≤ 1000 }
    ensures { IfOk result (λ accounts. All IsAccount accounts.items) }
{
    let mut accounts = Vec::new(alloc);
    for place in 0..count {
        accounts.push(Account {
            pan: account_number(place),
            currency: CURRENCY,
            balance: 1_000_000,
            blocked: false,
            pin: None,
            scripts: Vec::new(alloc),
            arpc: Method::One,
            status: 0,
        })?;
    }
    Ok(accounts)
}

/// Writes the request of a card for its transaction of this number.
fn write_card_request(place: u16, counter: u16, out: &mut Message)
    requires { place < 1000 }
{
    let pan = account_number(place);
    let master = master_key(&Key16::new(AC_KEY.to_be_bytes()), &pan, 1);
    let mut paid = Paid {
        t9f02: [0, 0, 0, 0, 0, 0x01],
        t9f03: [0; 6],
        t9f1a: [0x08, 0x40],
        t95: [0x80, 0, 0, 0, 0],
        t5f2a: CURRENCY,
        t9a: [0x24, 0x06, 0x15],
        t9c: [0],
        t9f37: [1, 2, 3, 4],
        t82: [0x1c, 0],
        t9f36: counter.to_be_bytes(),
        t9f26: [0; 8],
    };
    let issuer_data = [0x01, 0x80, 0, 0, 0x03, 0x01];
    let cryptogram = ac(&session_ac(&master, counter), &covered(&paid), &issuer_data);
    paid.t9f26 = cryptogram;
    let named = Named {
        t9f1c: *b"TERM0001",
        pan,
        t5f34: Some([1]),
    };
    let fields = RequestFields::from_parts(named, [0x26, 0x12, 0x31], paid, &issuer_data, None);
    write_request(&fields, out);
}

/// Appends one request for each of so many accounts.
fn add_round(
    alloc: Global,
    count: u16,
    counter: u16,
    requests: &mut Vec<Vec<u8>>,
) -> Result<(), AllocError>
    requires few { count ≤ 1000 }
    requires short { All (λ r. length r.items ≤ 2048) requests.old.items }
    ensures { All (λ r. length r.items ≤ 2048) requests.new.items }
{
    for place in 0..count {
        let mut out = Message::new();
        write_card_request(place, counter, &mut out);
        requests.push(out.as_slice().to_vec(alloc)?)?;
    }
    Ok(())
}

/// So many requests for each of so many accounts, all of the first transactions before the second ones.
fn requests(alloc: Global, count: u16, rounds: u16) -> Result<Vec<Vec<u8>>, AllocError>
    requires { count ≤ 1000 }
    ensures { IfOk result (λ requests. All (λ r. length r.items ≤ 2048) requests.items) }
{
    let mut requests = Vec::new(alloc);
    for counter in 0..rounds {
        add_round(alloc, count, counter, &mut requests)?;
    }
    Ok(requests)
}

/// Lets the host answer messages one after the other. `out` has the last reply.
fn answer_all(host: &mut Host, messages: &[Vec<u8>], out: &mut Message) -> Result<(), AllocError>
    requires { All (λ m. length m.items ≤ 2048) messages.now }
    ensures { OnOk result ((before : List (List ℕ)) → HostStands host.old before → HostStands host.new (before ++ map (λ m. m.items) messages.now)) }
{
    for message in messages {
        host.answer(message, out)?;
    }
    Ok(())
}

/// Makes so many requests for each of so many accounts. `out` has the last one.
pub fn make(alloc: Global, count: u16, rounds: u16, out: &mut Message) -> Result<(), AllocError>
    requires { count ≤ 1000 }
{
    let requests = requests(alloc, count, rounds)?;
    out.clear();
    if let Some(last) = requests.last() {
        append(out, last);
    }
    Ok(())
}

/// Makes them, and lets a host answer all of them. `out` has the last reply.
pub fn answer(alloc: Global, count: u16, rounds: u16, out: &mut Message) -> Result<(), AllocError>
    requires { count ≤ 1000 }
{
    let requests = requests(alloc, count, rounds)?;
    let accounts = accounts(alloc, count)?;
    // The account numbers differ, so that only memory can be wanting.
    let Ok(mut host) = Host::new(alloc, issuer_keys(), &accounts) else {
        return Err(AllocError);
    };
    answer_all(&mut host, &requests, out)
}
