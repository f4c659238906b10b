//! Why the host replies as it does: the first rule that holds, worked out by hand from the accounts, the messages
//! before and the fields of the message.
ghost use Rattle.std.specs.Prelude.{IfOk};
ghost use Rattle.std.specs.List.{All};
ghost use Rattle.emv_dict.specs.Digits.{HasPinLength};
ghost use Rattle.emv_dict.specs.Pan.{HasPanLength};
ghost use Rattle.issuer_host.specs.Account.{IsAccount};

use auth_message::{Message, MessageFault};
use emv_dict::{Digits, is_pan_length, is_pin_length};
use issuer_host::{Account, Host, HostKeys, Method, Reason};
use std::alloc::Global;
use std::process::Abort;
use std::test::Fail;
use triple_des::Key16;

/// A request for 25.00, transaction 11.
const REQUEST: &str =
    "e16e9f1c085445524d303030315a0847617390010100105f3401015f24032612319f02060000000025009f03060000000000009f1a020840950580000000005f2a0208409a032406159c01009f37040102030482021c009f3602000b9f2608204bb40db680038e9f1006018000000301";

/// Another request of transaction 11, for 0.01.
const OTHER_REQUEST: &str =
    "e16e9f1c085445524d303030315a0847617390010100105f3401015f24032612319f02060000000000019f03060000000000009f1a020840950580000000005f2a0208409a032406159c01009f37040102030482021c009f3602000b9f2608ac628acf097408fb9f1006018000000301";

/// The request of transaction 11 with a cryptogram that is not the card's.
const FORGED_REQUEST: &str =
    "e16e9f1c085445524d303030315a0847617390010100105f3401015f24032612319f02060000000025009f03060000000000009f1a020840950580000000005f2a0208409a032406159c01009f37040102030482021c009f3602000b9f260800000000000000009f1006018000000301";

/// The presentment of transaction 11, for 25.00.
const PRESENTMENT: &str =
    "e36c9f1c085445524d303030315a0847617390010100105f3401019f02060000000025009f03060000000000009f1a020840950580000000005f2a0208409a032406159c01009f37040102030482021c009f3602000b9f26084d89bb8933ef3e9b9f10060140000003018a023030";

/// The same with a cryptogram that is not the card's.
const FORGED_PRESENTMENT: &str =
    "e36c9f1c085445524d303030315a0847617390010100105f3401019f02060000000025009f03060000000000009f1a020840950580000000005f2a0208409a032406159c01009f37040102030482021c009f3602000b9f26084d89bb8933ef3e9c9f10060140000003018a023030";

/// A presentment in euros, transaction 12.
const EURO_PRESENTMENT: &str =
    "e36c9f1c085445524d303030315a0847617390010100105f3401019f02060000000025009f03060000000000009f1a020840950580000000005f2a0209789a032406159c01009f37040102030482021c009f3602000c9f26086462cb6ac5d472ca9f10060180000003018a025931";

/// The reversal of transaction 11.
const REVERSAL: &str =
    "e4309f1c085445524d303030315a0847617390010100105f3401019f3602000b9f02060000000025005f2a0208408a025a33";

/// A request of an account number that no account has.
const FOREIGN_REQUEST: &str =
    "e16e9f1c085445524d303030315a0847617390010171505f3401425f24039912319f02069999999999999f03060000000000009f1a020978950590600000005f2a0200369a032406159c01009f3704d68848a5820200009f3602000b9f260817d84b0c4eca9bfc9f1006018000000001";

/// A request of the blocked account, in euros and with an application that has expired.
const BLOCKED_REQUEST: &str =
    "e16e9f1c085445524d303030315a0847617390010100285f3401015f24032406149f02060000000025009f03060000000000009f1a020840950580000000005f2a0209789a032406159c01009f37040102030482021c009f3602000b9f260840411d238edf7ffc9f1006018000000301";

/// A request in euros, with an application that has expired.
const EURO_REQUEST: &str =
    "e16e9f1c085445524d303030315a0847617390010100105f3401015f24032406149f02060000000025009f03060000000000009f1a020840950580000000005f2a0209789a032406159c01009f37040102030482021c009f3602000e9f2608798e3aa63227ebf79f1006018000000301";

/// A request for 30.00 with an application that has expired and another PIN.
const EXPIRED_REQUEST: &str =
    "e1799f1c085445524d303030315a0847617390010100105f3401015f24032406149f02060000000030009f03060000000000009f1a020840950580000000005f2a0208409a032406159c01009f37040102030482021c009f3602000b9f26082ce1b5e6ea7179ac9f1006018000000301df110819e5a7d75bb52761";

/// A request for 30.00 with another PIN, on the last day of the application.
const WRONG_PIN_REQUEST: &str =
    "e1799f1c085445524d303030315a0847617390010100105f3401015f24032406159f02060000000030009f03060000000000009f1a020840950580000000005f2a0208409a032406159c01009f37040102030482021c009f3602000c9f26087d08439e985a58eb9f1006018000000301df110819e5a7d75bb52761";

/// A request for 30.00.
const HIGH_REQUEST: &str =
    "e1799f1c085445524d303030315a0847617390010100105f3401015f24032612319f02060000000030009f03060000000000009f1a020840950580000000005f2a0208409a032406159c01009f37040102030482021c009f3602000d9f2608f0809b2b7c2499539f1006018000000301df1108d986afd99a0ad7e5";

/// A request for 24.01, transaction 18.
const NEXT_REQUEST: &str =
    "e16e9f1c085445524d303030315a0847617390010100105f3401015f24032612319f02060000000024019f03060000000000009f1a020840950580000000005f2a0208409a032406159c01009f37040102030482021c009f360200129f2608d877b81b35bbd2bd9f1006018000000301";

/// The messages before, the message, and its reason.
type Row = (&'static [&'static str], &'static str, Reason);

/// What is no message, or no new one, or no card's.
const BEFORE_A_DECISION: [Row; 6] = [
    (
        &[],
        "",
        Reason::Unreadable {
            fault: MessageFault::Coding(0),
        },
    ),
    (&[REQUEST], REQUEST, Reason::Repeat),
    (&[REQUEST], OTHER_REQUEST, Reason::OtherBytes),
    (&[], FOREIGN_REQUEST, Reason::UnknownAccount),
    (&[], FORGED_REQUEST, Reason::WrongCryptogram),
    (&[], FORGED_PRESENTMENT, Reason::WrongCryptogram),
];

/// Requests in the order of the rules. Each of those that are blocked, in euros, expired or with a wrong PIN
/// has further faults, of later rules.
const OF_REQUESTS: [Row; 10] = [
    (&[], BLOCKED_REQUEST, Reason::Blocked),
    (
        &[],
        EURO_REQUEST,
        Reason::OtherCurrency {
            message: EURO,
            account: DOLLAR,
        },
    ),
    (&[REVERSAL], REQUEST, Reason::Reversed),
    (&[FORGED_PRESENTMENT, REVERSAL], REQUEST, Reason::Reversed),
    (&[FORGED_PRESENTMENT], REQUEST, Reason::Presented),
    (
        &[],
        EXPIRED_REQUEST,
        Reason::Expired {
            expiry: [0x24, 0x06, 0x14],
            day: [0x24, 0x06, 0x15],
        },
    ),
    (&[], WRONG_PIN_REQUEST, Reason::WrongPin),
    (
        &[],
        HIGH_REQUEST,
        Reason::AboveBalance {
            amount: 3000,
            balance: 2500,
        },
    ),
    (
        &[REQUEST],
        NEXT_REQUEST,
        Reason::AboveBalance {
            amount: 2401,
            balance: 0,
        },
    ),
    (&[], REQUEST, Reason::Approved { amount: 2500 }),
];

/// Presentments and reversals.
const OF_CAPTURES: [Row; 8] = [
    (
        &[],
        EURO_PRESENTMENT,
        Reason::OtherCurrency {
            message: EURO,
            account: DOLLAR,
        },
    ),
    (&[REQUEST, REVERSAL], PRESENTMENT, Reason::Reversed),
    (
        &[REQUEST],
        PRESENTMENT,
        Reason::Settled {
            amount: 2500,
            held: Some(2500),
        },
    ),
    (
        &[],
        PRESENTMENT,
        Reason::Settled {
            amount: 2500,
            held: None,
        },
    ),
    (&[REQUEST, PRESENTMENT], REVERSAL, Reason::Presented),
    (&[REQUEST], REVERSAL, Reason::Released { amount: 2500 }),
    // the presentment was declined
    (
        &[REQUEST, FORGED_PRESENTMENT],
        REVERSAL,
        Reason::Released { amount: 2500 },
    ),
    (&[], REVERSAL, Reason::NothingHeld),
];

const DOLLAR: [u8; 2] = [0x08, 0x40];

const EURO: [u8; 2] = [0x09, 0x78];

#[test]
fn reasons_are_the_first_that_hold(rt: HostRuntime) -> Result<(), Fail> {
    tell_each(&rt, rt.alloc(), &BEFORE_A_DECISION)?;
    tell_each(&rt, rt.alloc(), &OF_REQUESTS)?;
    tell_each(&rt, rt.alloc(), &OF_CAPTURES)
}

/// Asks a host of its own for the reason of each row.
fn tell_each(rt: &impl Abort, alloc: Global, rows: &[Row]) -> Result<(), Fail> {
    for row in rows {
        tell(rt, alloc, row)?;
    }
    Ok(())
}

/// Asks a new host for the reason of a row, behind the messages before.
fn tell(rt: &impl Abort, alloc: Global, row: &Row) -> Result<(), Fail> {
    let accounts = accounts(rt, alloc)?;
    let mut host = Host::new(alloc, keys(), &accounts).ok().ok_or("a host")?;
    answer_each(rt, alloc, &mut host, row.0)?;
    let bytes = bytes_of(alloc, row.1)?;
    let reason = host.reason(&bytes);
    assert!(rt; reason == row.2, "of {}", row.1);
    Ok(())
}

fn answer_each(
    rt: &impl Abort,
    alloc: Global,
    host: &mut Host,
    messages: &[&str],
) -> Result<(), Fail> {
    let mut reply = Message::new();
    for message in messages {
        let bytes = bytes_of(alloc, message)?;
        assert!(rt; bytes.len() <= 2048);
        host.answer(&bytes, &mut reply)?;
    }
    Ok(())
}

/// The bytes of a hexadecimal text.
fn bytes_of(alloc: Global, text: &str) -> Result<Vec<u8>, Fail> {
    Ok(hex::decode(alloc, text).ok().ok_or("hexadecimal digits")?)
}

/// An account with 25.00, and a blocked one with as much.
fn accounts(rt: &impl Abort, alloc: Global) -> Result<Vec<Account>, Fail>
    ensures { IfOk result (λ accounts. All IsAccount accounts.items) }
{
    let mut accounts = Vec::new(alloc);
    accounts.push(account(
        rt,
        alloc,
        &[4, 7, 6, 1, 7, 3, 9, 0, 0, 1, 0, 1, 0, 0, 1, 0],
        false,
    ))?;
    accounts.push(account(
        rt,
        alloc,
        &[4, 7, 6, 1, 7, 3, 9, 0, 0, 1, 0, 1, 0, 0, 2, 8],
        true,
    ))?;
    Ok(accounts)
}

/// An account in dollars with the PIN 1234.
fn account(rt: &impl Abort, alloc: Global, number: &[u8], blocked: bool) -> Account
    ensures { IsAccount result }
{
    let pan = Digits::new(number).expect(rt, "each number is a digit");
    assert!(rt; is_pan_length(pan.len()));
    let pin = Digits::new(&[1, 2, 3, 4]).expect(rt, "each number is a digit");
    assert!(rt; is_pin_length(pin.len()));
    Account {
        pan,
        currency: DOLLAR,
        balance: 2500,
        blocked,
        pin: Some(pin),
        scripts: Vec::new(alloc),
        arpc: Method::One,
        status: 0,
    }
}

/// The keys under which the messages were made elsewhere.
fn keys() -> HostKeys {
    HostKeys {
        ac: key(0x0123_4567_89ab_cdef_fedc_ba98_7654_3210),
        mac: key(0x2345_6789_abcd_ef01_dcba_9876_5432_10fe),
        enc: key(0x4567_89ab_cdef_0123_ba98_7654_3210_fedc),
        pin: key(0x6789_abcd_ef01_2345_9876_5432_10fe_dcba),
    }
}

fn key(number: u128) -> Key16 {
    Key16::new(number.to_be_bytes())
}
