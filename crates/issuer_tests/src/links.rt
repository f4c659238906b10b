//! A message and its reply on the way between a lane and the host.
ghost use Rattle.std.specs.Prelude.{IsTrue};
ghost use Rattle.auth_message.specs.Accepted.{IsReversal};
ghost use Rattle.emv_dict.specs.Settings.{is_code};

use auth_message::{Message, ReversalFields, write_reversal};
use emv_dict::Digits;
use host_link::{Wire, deliver};
use issuer_host::{Host, HostKeys};
use scenario_lanes::Link;
use std::alloc::Global;
use std::process::Abort;
use std::test::Fail;
use triple_des::Key16;

/// A reversal on a lane of each dialect.
const REVERSAL: [u8; 86] =
    *b"0400\x50\x20\x00\x00\x0a\x80\x82\x00164761739001010010000000002500000011000000000011Z3TERM00018400009\x5f\x34\x01\x01\x9f\x36\x02\x00\x0b";

const REVERSAL_ITEMS: [u8; 50] =
    *b"\xe4\x30\x9f\x1c\x08TERM0001\x5a\x08\x47\x61\x73\x90\x01\x01\x00\x10\x5f\x34\x01\x01\x9f\x36\x02\x00\x0b\x9f\x02\x06\x00\x00\x00\x00\x25\x00\x5f\x2a\x02\x08\x40\x8a\x02Z3";

/// The reply where no account has the number.
const REPLY: [u8; 18] = *b"0410\x00\x00\x00\x00\x02\x00\x02\x00140000";

const REPLY_ITEMS: [u8; 6] = *b"\xe2\x04\x8a\x0214";

#[test]
fn a_message_and_its_reply_go_in_the_dialect_of_the_lane(rt: HostRuntime) -> Result<(), Fail> {
    send(&rt, rt.alloc(), true, &REVERSAL, &REPLY)?;
    send(&rt, rt.alloc(), false, &REVERSAL_ITEMS, &REPLY_ITEMS)
}

/// Sends the reversal to a host without accounts, and compares what stood on the wire.
fn send(rt: &impl Abort, alloc: Global, iso: bool, call: &[u8], reply: &[u8]) -> Result<(), Fail> {
    let mut message = Message::new();
    write_reversal(&reversal(rt), &mut message);
    let Ok(mut host) = Host::new(alloc, keys(), &[]) else {
        panic!(rt; "a host");
    };
    let mut wire = Wire::new();
    let mut taken = Message::new();
    let comes = deliver(
        iso,
        Link::Sound,
        message.as_slice(),
        &mut host,
        &mut wire,
        &mut taken,
    )?;
    assert!(rt; comes);
    assert!(rt; wire.call.as_slice() == call);
    assert!(rt; wire.reply.as_slice() == reply);
    assert!(rt; taken.as_slice() == REPLY_ITEMS.as_slice());
    Ok(())
}

/// The reversal's fields.
fn reversal(rt: &impl Abort) -> ReversalFields
    ensures fields { IsReversal result }
    ensures codes { IsTrue (is_code result.t5f2a) }
{
    ReversalFields {
        t9f1c: *b"TERM0001",
        pan: Digits::new(&[4, 7, 6, 1, 7, 3, 9, 0, 0, 1, 0, 1, 0, 0, 1, 0]).expect(
            rt,
            "each number is a digit",
        ),
        t5f34: Some([1]),
        t9f36: [0, 11],
        t9f02: [0, 0, 0, 0, 0x25, 0],
        t5f2a: [0x08, 0x40],
        t8a: *b"Z3",
    }
}

fn keys() -> HostKeys {
    HostKeys {
        ac: Key16::new([1; 16]),
        mac: Key16::new([2; 16]),
        enc: Key16::new([3; 16]),
        pin: Key16::new([4; 16]),
    }
}
