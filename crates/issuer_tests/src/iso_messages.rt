//! Messages and replies in their second spelling.
use crate::changes::changed;
use crate::iso_samples::{
    PLAIN_REPLY, PRESENTMENT, PRESENTMENT_ITEMS, REPLY, REPLY_ITEMS, REQUEST, REQUEST_ITEMS,
    REVERSAL,
};
use auth_message::{Incoming, Message, Reply, RequestFields, read_message, read_reply};
use emv_dict::Digits;
use iso_message::{
    CallKind, IsoFault, read_iso_call, read_iso_reply, write_iso_call, write_iso_reply,
};
use std::process::Abort;

/// Where the parts of these messages begin: the type, the bitmap and the fields.
const REQUEST_PARTS: [usize; 10] = [0, 4, 12, 30, 36, 48, 54, 66, 74, 77];

const PRESENTMENT_PARTS: [usize; 11] = [0, 4, 12, 30, 36, 48, 54, 66, 68, 76, 79];

const REVERSAL_PARTS: [usize; 10] = [0, 4, 12, 30, 42, 48, 60, 62, 70, 73];

#[test]
fn a_message_has_these_bytes_in_both_spellings(rt: HostRuntime) {
    for (items, bytes) in [
        (REQUEST_ITEMS.as_slice(), REQUEST.as_slice()),
        (&PRESENTMENT_ITEMS, &PRESENTMENT),
    ] {
        same_call(&rt, items, bytes);
    }
    let Ok(reply) = read_reply(&REPLY_ITEMS) else {
        panic!(rt; "a reply");
    };
    same_reply(&rt, CallKind::Request, &reply, &REPLY);
}

/// Whether the worked reversal is read as what it says.
fn is_reversal_read() -> bool {
    match read_iso_call(&REVERSAL) {
        Ok(Incoming::Reverse(fields)) => {
            fields.pan.as_slice() == [4, 7, 6, 1, 7, 3, 9, 0, 0, 1, 0, 1, 0, 0, 1, 0].as_slice()
                && fields.t5f34 == Some([1])
                && fields.t9f36 == [0, 11]
                && fields.t8a == *b"Z3"
                && fields.t9f1c == *b"TERM0001"
                && fields.t5f2a == [0x08, 0x40]
                && fields.t9f02 == [0, 0, 0, 0, 0x25, 0]
        }
        _ => false,
    }
}

/// Replies without issuer authentication data, of which kind they are, and their scripts. A byte 00 between
/// two scripts is none of them.
const REPLIES: [(&[u8], CallKind, &[u8]); 2] = [
    (&PLAIN_REPLY, CallKind::Reversal, &[]),
    (
        b"0110\x00\x00\x00\x00\x02\x00\x02\x00000004\x71\x00\x72\x00",
        CallKind::Request,
        b"\x71\x00\x72\x00",
    ),
];

#[test]
fn a_worked_reversal_and_short_replies_are_read(rt: HostRuntime) {
    assert!(rt; is_reversal_read());
    for row in &REPLIES {
        let (bytes, kind, scripts) = *row;
        let is_read = match read_iso_reply(bytes) {
            Ok((found, reply)) => {
                found == kind
                    && reply.code == *b"00"
                    && reply.auth.is_none()
                    && reply.scripts == scripts
            }
            Err(_) => false,
        };
        assert!(rt; is_read, "{scripts:?}");
    }
}

#[test]
fn a_message_that_is_cut_is_short_at_the_part_that_is_cut(rt: HostRuntime) {
    for (message, parts) in [
        (REQUEST.as_slice(), REQUEST_PARTS.as_slice()),
        (&PRESENTMENT, &PRESENTMENT_PARTS),
        (&REVERSAL, &REVERSAL_PARTS),
    ] {
        for count in 0..message.len() {
            let place = part_of(parts, count);
            assert!(rt;
                fault(&message[..count]) == Some(IsoFault::Short(place)),
                "{count}"
            );
        }
    }
}

/// The bits of a byte.
const BITS: [u8; 8] = [0x80, 0x40, 0x20, 0x10, 0x08, 0x04, 0x02, 0x01];

#[test]
fn another_bitmap_is_a_fault(rt: HostRuntime) {
    for place in 4..12 {
        for bit in &BITS {
            let mut presentment = PRESENTMENT;
            presentment[place] ^= *bit;
            let mut reversal = REVERSAL;
            reversal[place] ^= *bit;
            let mut reply = PLAIN_REPLY;
            reply[place] ^= *bit;
            // Bit 52 of a request names the block of a PIN.
            let mut request = REQUEST;
            request[place] ^= *bit;
            let is_pin = place == 10 && *bit == 0x10;
            let are_told = fault(&presentment) == Some(IsoFault::Bitmap)
                && fault(&reversal) == Some(IsoFault::Bitmap)
                && reply_fault(&reply) == Some(IsoFault::Bitmap)
                && (fault(&request) == Some(IsoFault::Bitmap)) != is_pin;
            assert!(rt; are_told, "{place} {bit}");
        }
    }
}

/// A message, other bytes at places of it, bytes behind it, and the first fault in the order of the bytes.
type Row = (
    &'static [u8],
    &'static [(usize, u8)],
    &'static [u8],
    IsoFault,
);

const SPOILT: [Row; 21] = [
    (&REVERSAL, &[(1, b'3')], &[], IsoFault::WrongType),
    (&REVERSAL, &[(1, b'1')], &[], IsoFault::Bitmap),
    (&REVERSAL, &[(12, b'a')], &[], IsoFault::Field(2)),
    (&REVERSAL, &[(12, b'9')], &[], IsoFault::Short(12)),
    (&REVERSAL, &[(13, b'2')], &[], IsoFault::Field(2)),
    (&REVERSAL, &[(20, b':')], &[], IsoFault::Field(2)),
    (&REVERSAL, &[(30, b'/')], &[], IsoFault::Field(4)),
    (&REVERSAL, &[(42, b' ')], &[], IsoFault::Field(11)),
    (&REVERSAL, &[(47, b'2')], &[], IsoFault::Field(11)),
    (&REVERSAL, &[(50, b'1')], &[], IsoFault::Field(37)),
    (&REVERSAL, &[(59, b'x')], &[], IsoFault::Field(37)),
    (&REVERSAL, &[(70, b'a')], &[], IsoFault::Field(49)),
    (&REVERSAL, &[(76, b'8')], &[], IsoFault::Field(55)),
    (&REVERSAL, &[(73, b'-')], &[], IsoFault::Field(55)),
    // The counter is another than those of fields 11 and 37.
    (&REVERSAL, &[(85, 0x0C)], &[], IsoFault::Field(11)),
    // Field 3 ends in four zeros; a fault in it comes before one behind it, and one of field 49 before what
    // fields 11 and 37 should be.
    (&REQUEST, &[(35, b'1'), (40, b'x')], &[], IsoFault::Field(3)),
    (
        &REVERSAL,
        &[(47, b'2'), (72, b'x')],
        &[],
        IsoFault::Field(49),
    ),
    (&REVERSAL, &[], &[0], IsoFault::Rest(86)),
    // Another field 11 stands before the byte behind the last field.
    (&REVERSAL, &[(47, b'2')], &[0], IsoFault::Field(11)),
    // The length of the first item in two bytes, 81 01.
    (
        &REVERSAL,
        &[
            (75, b'1'),
            (76, b'0'),
            (79, 0x81),
            (81, 0x01),
            (82, 0x9F),
            (83, 0x36),
            (84, 0x02),
            (85, 0x00),
        ],
        &[0x0B],
        IsoFault::Field(55),
    ),
    // A byte 00 behind the last item.
    (
        &REVERSAL,
        &[(75, b'1'), (76, b'0')],
        &[0],
        IsoFault::Field(55),
    ),
];

/// A reply with a byte 00 between its scripts, and a call.
const NO_REPLIES: [(&[u8], IsoFault); 2] = [
    (
        b"0110\x00\x00\x00\x00\x02\x00\x02\x00000005\x71\x00\x00\x72\x00",
        IsoFault::Field(55),
    ),
    (&REVERSAL, IsoFault::WrongType),
];

#[test]
fn the_first_fault_in_the_order_of_the_bytes_is_told(rt: HostRuntime) {
    for row in &SPOILT {
        let (message, changes, more, expected) = *row;
        let bytes = changed(message, changes, more);
        assert!(rt;
            fault(bytes.as_slice()) == Some(expected),
            "{changes:?} {more:?}"
        );
    }
    for row in &NO_REPLIES {
        let (bytes, expected) = *row;
        assert!(rt; reply_fault(bytes) == Some(expected), "{bytes:?}");
    }
    // A reply is no call.
    assert!(rt; fault(&PLAIN_REPLY) == Some(IsoFault::WrongType));
}

/// Whether a request whose account number has so many digits, with this block or without, is read again.
fn is_read_again(rt: &impl Abort, count: usize, block: Option<[u8; 8]>) -> bool {
    let mut out = Message::new();
    write_with(rt, count, block, &mut out);
    match read_iso_call(out.as_slice()) {
        Ok(Incoming::Request(fields)) => {
            fields.pan.len() == count && fields.t5f34.is_none() && fields.tdf11 == block
        }
        _ => false,
    }
}

#[test]
fn an_account_number_has_13_to_19_digits(rt: HostRuntime) {
    for count in [13, 14, 18, 19] {
        for block in [Some([0, 1, 2, 3, 4, 5, 6, 7]), None] {
            assert!(rt; is_read_again(&rt, count, block), "{count}");
        }
    }
}

#[test]
fn the_longest_templates_are_read(rt: HostRuntime) {
    // A script of 1,024 bytes: its tag, its length in three bytes, and 1,020 bytes.
    let mut scripts = [0x5A; 1024];
    scripts[..4].copy_from_slice(&[0x72, 0x82, 0x03, 0xFC]);
    let mut message = [0x5A; 1042];
    message[..18].copy_from_slice(b"0110\x00\x00\x00\x00\x02\x00\x02\x00001024");
    message[18..].copy_from_slice(&scripts);
    let Ok((CallKind::Request, reply)) = read_iso_reply(&message) else {
        panic!(rt; "a reply");
    };
    assert!(rt; reply.scripts == scripts.as_slice());
    same_reply(&rt, CallKind::Request, &reply, &message);
}

/// That the call which is one item is written as these bytes, and is read from them.
fn same_call(rt: &impl Abort, items: &[u8], bytes: &[u8]) {
    let Ok(read) = read_iso_call(bytes) else {
        panic!(rt; "a call");
    };
    let mut again = Message::new();
    write_iso_call(&read, &mut again);
    let mut out = Message::new();
    match &read {
        Incoming::Request(fields) => auth_message::write_request(fields, &mut out),
        Incoming::Present(fields) => auth_message::write_presentment(fields, &mut out),
        Incoming::Reverse(fields) => auth_message::write_reversal(fields, &mut out),
    }
    let is_same = again.as_slice() == bytes && out.as_slice() == items;
    assert!(rt; is_same && read_message(items).is_ok(), "{items:?}");
}

/// That the reply is written as these bytes, and is read from them.
fn same_reply(rt: &impl Abort, kind: CallKind, reply: &Reply, bytes: &[u8]) {
    let Ok((found, read)) = read_iso_reply(bytes) else {
        panic!(rt; "a reply");
    };
    let mut out = Message::new();
    write_iso_reply(found, &read, &mut out);
    let is_read = read.code == reply.code
        && read.auth == reply.auth
        && read.scripts == reply.scripts;
    assert!(rt; found == kind && is_read && out.as_slice() == bytes);
}

/// Writes a request without 5F34 whose account number has so many digits.
fn write_with(rt: &impl Abort, count: usize, block: Option<[u8; 8]>, out: &mut Message) {
    assert!(rt; 13 <= count && count <= 19);
    let digits = [4; 19];
    let fields = RequestFields {
        t9f1c: *b"TERM0001",
        pan: Digits::new(&digits[..count]).expect(rt, "each number is a digit"),
        t5f34: None,
        t5f24: [0x26, 0x12, 0x31],
        t9f02: [0, 0, 0, 0, 0x25, 0],
        t9f03: [0, 0, 0, 0, 0, 0],
        t9f1a: [0x08, 0x40],
        t95: [0, 0, 0, 0, 0],
        t5f2a: [0x08, 0x40],
        t9a: [0x24, 0x06, 0x15],
        t9c: [0],
        t9f37: [1, 2, 3, 4],
        t82: [0x1C, 0],
        t9f36: [0xFF, 0xFF],
        t9f26: [0; 8],
        t9f10: &[],
        tdf11: block,
    };
    write_iso_call(&Incoming::Request(fields), out);
}

/// The greatest of the places that is at most this one.
fn part_of(parts: &[usize], place: usize) -> usize {
    parts
        .iter()
        .copied()
        .filter(|part| *part <= place)
        .max()
        .unwrap_or(0)
}

fn fault(bytes: &[u8]) -> Option<IsoFault> {
    read_iso_call(bytes).err()
}

fn reply_fault(bytes: &[u8]) -> Option<IsoFault> {
    read_iso_reply(bytes).err()
}
