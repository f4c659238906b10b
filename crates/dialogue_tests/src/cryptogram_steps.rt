//! Answers to GENERATE AC, many of them not as they should be, and the commands and messages about them.
ghost use Rattle.emv_dict.specs.Settings.{IsPurchase};

use crate::hexadecimal::{bytes, number};
use crate::terminal::{card, terminal};
use apdu_core::Out;
use arrayvec::ArrayVec;
use auth_message::Message;
use ber_tlv::Tag;
use emv_dict::{Ac, Cause, Digits, Kind, Purchase, Settings, Tvr};
use online_step::{
    Approval, GenerateAc, authenticate_command, fill_list, presentment, read_ac, read_verdict,
    request, reversal, write_generate,
};
use std::alloc::Global;
use std::process::Abort;

/// In each row the first or the second time, the kind that is asked, the answer in hexadecimal digits, and
/// the kind, the counter and the cryptogram that it gives, or why it is refused.
const ANSWERS: &str = "\
first aac 801100000b11223344556677880140000103019000 = aac 000b 1122334455667788
first aac 801101000b11223344556677880140000103019000 = aac 000b 1122334455667788
first aac 80113f000b11223344556677880140000103019000 = aac 000b 1122334455667788
first arqc 801100000b11223344556677880140000103019000 = aac 000b 1122334455667788
first arqc 801101000b11223344556677880140000103019000 = aac 000b 1122334455667788
first arqc 80113f000b11223344556677880140000103019000 = aac 000b 1122334455667788
first tc 801100000b11223344556677880140000103019000 = aac 000b 1122334455667788
first tc 801101000b11223344556677880140000103019000 = aac 000b 1122334455667788
first tc 80113f000b11223344556677880140000103019000 = aac 000b 1122334455667788
first tc - = answer
first tc 90 = answer
first arqc 9000 = coding 0
first tc 700b40000b11223344556677889000 = coding 0
first tc 800b40000b1122334455667788800b40000b11223344556677889000 = coding 0
first tc 801140000b112233445566778801400001039000 = coding 0
first tc 9000 = coding 0
first tc 801140000b1122334455667788014000010301ff9000 = coding 19
first tc 77169f2701409f3602000b9f260811223344556677885a059000 = coding 22
first aac 801140000b11223344556677880140000103019000 = kind 40
first arqc 801140000b11223344556677880140000103019000 = kind 40
first aac 801148000b11223344556677880140000103019000 = kind 48
first arqc 801148000b11223344556677880140000103019000 = kind 48
first aac 80117f000b11223344556677880140000103019000 = kind 7f
first arqc 80117f000b11223344556677880140000103019000 = kind 7f
first aac 801180000b11223344556677880140000103019000 = kind 80
first aac 8011c0000b11223344556677880140000103019000 = kind c0
first arqc 8011c0000b11223344556677880140000103019000 = kind c0
first tc 8011c0000b11223344556677880140000103019000 = kind c0
first tc 77099f2701409f3602000b9000 = missing 9f26
first tc 77109f3602000b9f260811223344556677889000 = missing 9f27
first tc 7716a5149f2701409f3602000b9f260811223344556677889000 = missing 9f27
first tc 770f9f2701409f260811223344556677889000 = missing 9f36
first tc 801140000b112233445566778801400001030161ff = status 61ff
first tc 801140000b11223344556677880140000103016283 = status 6283
first tc 801140000b11223344556677880140000103016300 = status 6300
first tc 801140000b112233445566778801400001030163c0 = status 63c0
first tc 801140000b112233445566778801400001030163c1 = status 63c1
first tc 801140000b11223344556677880140000103016700 = status 6700
first tc 801140000b11223344556677880140000103016983 = status 6983
first tc 801140000b11223344556677880140000103016984 = status 6984
first tc 6985 = status 6985
first tc 801140000b11223344556677880140000103016985 = status 6985
first tc 801140000b11223344556677880140000103016a81 = status 6a81
first tc 801140000b11223344556677880140000103016a82 = status 6a82
first tc 801140000b11223344556677880140000103016a83 = status 6a83
first tc 801140000b11223344556677880140000103016a88 = status 6a88
first tc 801140000b11223344556677880140000103016d00 = status 6d00
first tc 801140000b11223344556677880140000103019001 = status 9001
first tc 77149f2701409f3602000b9f260811223344556677889000 = tc 000b 1122334455667788
first tc 77179f2701409f3602000b9f260811223344556677889f10009000 = tc 000b 1122334455667788
first tc 77189f2701409f2701009f3602000b9f260811223344556677889000 = tc 000b 1122334455667788
first tc 771d9f10060140000103019f260811223344556677889f3602000b9f2701409000 = tc 000b 1122334455667788
first tc 771d9f2701409f3602000b9f260811223344556677889f10060140000103019000 = tc 000b 1122334455667788
first tc 77379f2701409f3602000b9f260811223344556677889f102000000000000000000000000000000000000000000000000000000000000000009000 = tc 000b 1122334455667788
first tc 800b40000b11223344556677889000 = tc 000b 1122334455667788
first tc 801140000b1122334455667788014000010301009000 = tc 000b 1122334455667788
first tc 801140000b11223344556677880140000103019000 = tc 000b 1122334455667788
first tc 801148000b11223344556677880140000103019000 = tc 000b 1122334455667788
first tc 80117f000b11223344556677880140000103019000 = tc 000b 1122334455667788
first tc 802b40000b112233445566778800000000000000000000000000000000000000000000000000000000000000009000 = tc 000b 1122334455667788
first tc 800a40000b112233445566779000 = value 80
first tc 802c40000b11223344556677880000000000000000000000000000000000000000000000000000000000000000009000 = value 80
first tc 77389f2701409f3602000b9f260811223344556677889f10210000000000000000000000000000000000000000000000000000000000000000009000 = value 9f10
first tc 77139f2701409f3602000b9f2607000000000000009000 = value 9f26
first tc 770e9f27009f260811223344556677889000 = value 9f27
first tc 77139f27009f3602000b9f260811223344556677889000 = value 9f27
first tc 77159f2701409f36030000009f260811223344556677889000 = value 9f36
second aac 801100000b11223344556677880140000103019000 = aac 000b 1122334455667788
second aac 801101000b11223344556677880140000103019000 = aac 000b 1122334455667788
second aac 80113f000b11223344556677880140000103019000 = aac 000b 1122334455667788
second tc 801100000b11223344556677880140000103019000 = aac 000b 1122334455667788
second tc 801101000b11223344556677880140000103019000 = aac 000b 1122334455667788
second tc 80113f000b11223344556677880140000103019000 = aac 000b 1122334455667788
second tc 40 = answer
second tc 700b40000b11223344556677889000 = coding 0
second tc 800b40000b1122334455667788800b40000b11223344556677889000 = coding 0
second tc 77169f2701409f3602000b9f260811223344556677885a059000 = coding 22
second aac 801140000b11223344556677880140000103019000 = kind 40
second aac 801148000b11223344556677880140000103019000 = kind 48
second aac 80117f000b11223344556677880140000103019000 = kind 7f
second aac 801180000b11223344556677880140000103019000 = kind 80
second tc 801180000b11223344556677880140000103019000 = kind 80
second aac 8011c0000b11223344556677880140000103019000 = kind c0
second tc 8011c0000b11223344556677880140000103019000 = kind c0
second tc 77099f2701409f3602000b9000 = missing 9f26
second tc 77109f3602000b9f260811223344556677889000 = missing 9f27
second tc 7716a5149f2701409f3602000b9f260811223344556677889000 = missing 9f27
second tc 770f9f2701409f260811223344556677889000 = missing 9f36
second tc 6985 = status 6985
second tc 77149f2701409f3602000b9f260811223344556677889000 = tc 000b 1122334455667788
second tc 77179f2701409f3602000b9f260811223344556677889f10009000 = tc 000b 1122334455667788
second tc 77189f2701409f2701009f3602000b9f260811223344556677889000 = tc 000b 1122334455667788
second tc 771d9f10060140000103019f260811223344556677889f3602000b9f2701409000 = tc 000b 1122334455667788
second tc 771d9f2701409f3602000b9f260811223344556677889f10060140000103019000 = tc 000b 1122334455667788
second tc 77379f2701409f3602000b9f260811223344556677889f102000000000000000000000000000000000000000000000000000000000000000009000 = tc 000b 1122334455667788
second tc 800b40000b11223344556677889000 = tc 000b 1122334455667788
second tc 801140000b11223344556677880140000103019000 = tc 000b 1122334455667788
second tc 801148000b11223344556677880140000103019000 = tc 000b 1122334455667788
second tc 80117f000b11223344556677880140000103019000 = tc 000b 1122334455667788
second tc 802b40000b112233445566778800000000000000000000000000000000000000000000000000000000000000009000 = tc 000b 1122334455667788
second tc 800a40000b112233445566779000 = value 80
second tc 802c40000b11223344556677880000000000000000000000000000000000000000000000000000000000000000009000 = value 80
second tc 77389f2701409f3602000b9f260811223344556677889f10210000000000000000000000000000000000000000000000000000000000000000009000 = value 9f10
second tc 77139f2701409f3602000b9f2607000000000000009000 = value 9f26
second tc 770e9f27009f260811223344556677889000 = value 9f27
second tc 77139f27009f3602000b9f260811223344556677889000 = value 9f27
second tc 77159f2701409f36030000009f260811223344556677889000 = value 9f36
first arqc 801180000b204bb40db680038e0180000003019000 = arqc 000b 204bb40db680038e
first arqc 801180fffe7058f21f87f87ac50180000003019000 = arqc fffe 7058f21f87f87ac5";

fn kind(word: &str) -> Option<Kind> {
    match word {
        "aac" => Some(Kind::Aac),
        "tc" => Some(Kind::Tc),
        "arqc" => Some(Kind::Arqc),
        _ => None,
    }
}

fn which(order: &str) -> GenerateAc {
    match order {
        "second" => GenerateAc::Second,
        _ => GenerateAc::First,
    }
}

fn cause(name: &str, text: &str) -> Cause {
    let tag = Tag(number(text));
    match name {
        "answer" => Cause::Answer,
        "status" => Cause::Status((number(text) % 65536) as u16),
        "coding" => Cause::Coding(text.parse().unwrap_or(0)),
        "missing" => Cause::Missing(tag),
        "value" => Cause::Value(tag),
        "kind" => Cause::Kind((number(text) % 256) as u8),
        _ => Cause::NoCandidate,
    }
}

/// Whether the answer of a row gives what the row says.
fn is_read(row: &'static str) -> bool {
    let (call, words) = row.split_once(" = ").unwrap_or((row, ""));
    let (order, call) = call.split_once(' ').unwrap_or((call, ""));
    let (asked, answer) = call.split_once(' ').unwrap_or((call, ""));
    let asked = kind(asked).unwrap_or_default();
    let (name, rest) = words.split_once(' ').unwrap_or((words, ""));
    match read_ac(&bytes(answer), asked, which(order)) {
        Ok(ac) => {
            let (counter, cryptogram) = rest.split_once(' ').unwrap_or((rest, ""));
            Some(ac.kind) == kind(name)
                && u32::from(ac.counter) == number(counter)
                && ac.cryptogram.as_slice() == bytes(cryptogram).as_slice()
        }
        Err(found) => kind(name).is_none() && found == cause(name, rest),
    }
}

#[test]
fn answers_are_read(rt: HostRuntime) {
    for row in ANSWERS.lines() {
        assert!(rt; is_read(row), "{row}");
    }
}

/// Answers to the first GENERATE AC, and the issuer application data in them.
const ISSUER_DATA: [(&str, &str); 3] = [
    ("801180000b204bb40db680038e0180000003019000", "018000000301"),
    (
        "771d9f2701409f3602000b9f260811223344556677889f10060140000103019000",
        "014000010301",
    ),
    ("77149f2701409f3602000b9f260811223344556677889000", ""),
];

#[test]
fn issuer_data_are_kept(rt: HostRuntime) {
    for (answer, iad) in ISSUER_DATA {
        let kept = match read_ac(&bytes(answer), Kind::Tc, GenerateAc::First) {
            Ok(ac) => ac.iad.as_slice() == bytes(iad).as_slice(),
            Err(_) => false,
        };
        assert!(rt; kept, "{answer}");
    }
}

/// What the object lists of the card are filled with.
const FIRST_LIST: &str = "0000000025000000000000000840800000000008402406150001020304";

const SECOND_LIST: &str = "30300000000025000000000000000840800000000008402406150001020304";

/// What the card was asked with the data of its object list.
const COMMANDS: [(Kind, &str, &str); 3] = [
    (
        Kind::Tc,
        FIRST_LIST,
        "80ae40001d000000002500000000000000084080000000000840240615000102030400",
    ),
    (
        Kind::Tc,
        "30300000000025000000000000000840800000002008402406150001020304",
        "80ae40001f3030000000002500000000000000084080000000200840240615000102030400",
    ),
    (Kind::Arqc, "", "80ae800000"),
];

/// Whether the command asks for this kind with these data.
fn is_command(asked: Kind, filled: &str, command: &str) -> bool {
    let filled = bytes(filled);
    if filled.len() > 252 {
        return false;
    }
    let mut out = Out::new();
    write_generate(asked, &filled, &mut out);
    out.as_slice() == bytes(command).as_slice()
}

#[test]
fn commands_are_written(rt: HostRuntime) {
    for (asked, filled, command) in COMMANDS {
        assert!(rt; is_command(asked, filled, command), "{command}");
    }
    let value = [0x0e, 0x66, 0x76, 0x99, 0x50, 0xe1, 0xf3, 0xbe, 0x30, 0x30];
    let mut out = Out::new();
    authenticate_command(&value, &mut out);
    assert!(rt; out.as_slice() == bytes("008200000a0e66769950e1f3be3030").as_slice());
}

/// Answers to EXTERNAL AUTHENTICATE, and whether the card found the issuer right.
const VERDICTS: [(&str, Result<bool, Cause>); 6] = [
    ("9000", Ok(true)),
    ("6300", Ok(false)),
    ("6985", Ok(false)),
    ("5a019000", Ok(true)),
    ("90", Err(Cause::Answer)),
    ("", Err(Cause::Answer)),
];

#[test]
fn verdicts_are_read(rt: HostRuntime) {
    for (answer, verdict) in VERDICTS {
        assert!(rt; read_verdict(&bytes(answer)) == verdict, "{answer}");
    }
}

#[test]
fn lists_are_filled(rt: HostRuntime) {
    let card = card(&rt);
    let terminal = terminal(&rt);
    let mut filled = ArrayVec::new();
    assert!(rt;
        fill_list(Tag(0x8c), &card, &terminal, &mut filled)
            && filled.as_slice() == bytes(FIRST_LIST).as_slice()
    );
    assert!(rt;
        fill_list(Tag(0x8d), &card, &terminal, &mut filled)
            && filled.as_slice() == bytes(SECOND_LIST).as_slice()
    );
}

fn settings(alloc: Global) -> Settings {
    Settings {
        kind: 22,
        country: [0x08, 0x40],
        caps: [0xe0, 0xb8, 0xc8],
        id: *b"TERM0001",
        pin_key: [
            0x51, 0xaf, 0x1a, 0xde, 0x33, 0x37, 0x90, 0xdf, 0xba, 0x4c, 0x02, 0x79, 0xc8, 0x8f,
            0x16, 0x34,
        ],
        exceptions: Vec::new(alloc),
        aids: Vec::new(alloc),
        pse: false,
    }
}

/// The cryptogram that an answer gives.
fn ac(rt: &impl Abort, answer: &str) -> Ac {
    match read_ac(&bytes(answer), Kind::Tc, GenerateAc::First) {
        Ok(ac) => ac,
        Err(_) => panic!(rt; "{answer}"),
    }
}

const REQUEST: &str =
    "9f1c085445524d303030315a0847617390010100105f3401015f24032612319f02060000000025009f03060000000000009f1a020840950580000000005f2a0208409a032406159c01009f37040102030482021c009f3602000b9f2608204bb40db680038e9f1006018000000301";

/// Whether the message begins like this, has so many bytes and ends with these.
fn is_message(out: &Message, front: [u8; 2], count: usize, end: &str) -> bool {
    out.starts_with(&front) && out.len() == count && out.ends_with(&bytes(end))
}

#[test]
fn requests_are_written(rt: HostRuntime) {
    let card = card(&rt);
    let terminal = terminal(&rt);
    let settings = settings(rt.alloc());
    let ac = ac(&rt, "801180000b204bb40db680038e0180000003019000");
    let pin = Digits::new(&[1, 2, 3, 4]).expect(&rt, "four digits");
    let mut out = Message::new();
    request(&card, &terminal, &settings, &ac, None, &mut out);
    assert!(rt; is_message(&out, [0xe1, 0x6e], 112, REQUEST));
    request(&card, &terminal, &settings, &ac, Some(&pin), &mut out);
    assert!(rt; is_message(&out, [0xe1, 0x79], 123, "df11082f649716b1db47b5"));
}

fn purchase(alloc: Global) -> Purchase
    ensures { IsPurchase result }
{
    Purchase {
        amount: 2500,
        other: 0,
        currency: [0x08, 0x40],
        trade: 0,
        services: false,
        date: [0x24, 0x06, 0x15],
        time: [0x12, 0x00, 0x00],
        number: [1, 2, 3, 4],
        word: 49,
        pins: Vec::new(alloc),
        forced: false,
        confirm: true,
    }
}

#[test]
fn purchases_are_settled(rt: HostRuntime) {
    let card = card(&rt);
    let settings = settings(rt.alloc());
    let purchase = purchase(rt.alloc());
    let ac = ac(&rt, "801140000baeeb602c93d476400140000003019000");
    let mut out = Message::new();
    let tvr = Tvr::OFFLINE_DATA_AUTHENTICATION_NOT_PERFORMED.0
        | Tvr::SCRIPT_FAILED_BEFORE_FINAL_CRYPTOGRAM.0;
    let approval = Approval {
        tvr: Tvr(tvr),
        ac: &ac,
        code: *b"00",
    };
    presentment(&card, &settings, &purchase, &approval, &mut out);
    assert!(rt; out.as_slice() == bytes(PRESENTMENT).as_slice());
    reversal(&card, &settings, &purchase, 11, *b"Z3", &mut out);
    assert!(rt; out.as_slice() == bytes(REVERSAL).as_slice());
}

const PRESENTMENT: &str =
    "e36c9f1c085445524d303030315a0847617390010100105f3401019f02060000000025009f03060000000000009f1a020840950580000000205f2a0208409a032406159c01009f37040102030482021c009f3602000b9f2608aeeb602c93d476409f10060140000003018a023030";

const REVERSAL: &str =
    "e4309f1c085445524d303030315a0847617390010100105f3401019f3602000b9f02060000000025005f2a0208408a025a33";
