//! Commands, answers and statuses.
use apdu_core::status::{NO_ERROR, counter, counter_in, is_warning};
use apdu_core::{
    Answer, ApduFault, Out, read_command, read_response, write_command, write_record_command,
    write_response,
};
use arrayvec::ArrayVec;

/// The four cases of ISO/IEC 7816-4 section 5.1: a command, its INS and P1, its body and the length that it
/// expects.
const COMMANDS: [(&[u8], [u8; 2], &[u8], Option<u8>); 4] = [
    (
        &[0x00, 0xa4, 0x04, 0x00, 0x03, 0xa0, 0x00, 0x01, 0x00],
        [0xa4, 0x04],
        &[0xa0, 0x00, 0x01],
        Some(0),
    ),
    (&[0x00, 0xb2, 0x01, 0x0c, 0x00], [0xb2, 0x01], &[], Some(0)),
    (&[0x84, 0x1e, 0x00, 0x00], [0x1e, 0x00], &[], None),
    (
        &[0x00, 0x20, 0x00, 0x80, 0x02, 0x24, 0x12],
        [0x20, 0x00],
        &[0x24, 0x12],
        None,
    ),
];

/// Whether the bytes are a command with these fields, and are written again.
fn is_command(bytes: &[u8], [ins, p1]: [u8; 2], body: &[u8], expects: Option<u8>) -> bool {
    let Ok(command) = read_command(bytes) else {
        return false;
    };
    if command.body.len() > 255 {
        return false;
    }
    let mut out: Out = ArrayVec::new();
    write_command(&command, &mut out);
    out.as_slice() == bytes
        && command.ins == ins
        && command.p1 == p1
        && command.body == body
        && command.expects == expects
}

#[test]
fn commands_are_read_and_written(rt: HostRuntime) {
    for (bytes, fields, body, expects) in COMMANDS {
        assert!(rt; is_command(bytes, fields, body, expects), "{bytes:?}");
    }
    let mut out: Out = ArrayVec::new();
    write_record_command(11, 2, &mut out);
    assert!(rt; out.as_slice() == [0x00, 0xb2, 0x02, 0x5c, 0x00].as_slice());
}

const NO_COMMANDS: [(&[u8], ApduFault); 5] = [
    (&[], ApduFault::Short),
    (&[0x00, 0xa4, 0x04], ApduFault::Short),
    (
        &[0x00, 0xa4, 0x04, 0x00, 0x00, 0x00],
        ApduFault::LengthMismatch,
    ),
    (
        &[0x00, 0xa4, 0x04, 0x00, 0x02, 0xa0],
        ApduFault::LengthMismatch,
    ),
    (
        &[0x00, 0xa4, 0x04, 0x00, 0x01, 0xa0, 0x00, 0x00],
        ApduFault::LengthMismatch,
    ),
];

#[test]
fn other_bytes_are_no_commands(rt: HostRuntime) {
    for (bytes, fault) in NO_COMMANDS {
        assert!(rt; read_command(bytes).err() == Some(fault), "{bytes:?}");
    }
}

/// An answer's body and SW1 SW2, or why the bytes are none.
const ANSWERS: [(&[u8], Result<(&[u8], u16), ApduFault>); 4] = [
    (
        &[0x9f, 0x36, 0x02, 0x00, 0x0b, 0x90, 0x00],
        Ok((&[0x9f, 0x36, 0x02, 0x00, 0x0b], 0x9000)),
    ),
    (&[0x6a], Err(ApduFault::Short)),
    (&[0; 259], Err(ApduFault::LengthMismatch)),
    (&[0; 258], Ok((&[0; 256], 0))),
];

/// Whether the bytes are written again from what is read there.
fn is_answer(bytes: &[u8], wanted: Result<(&[u8], u16), ApduFault>) -> bool {
    let response = match read_response(bytes) {
        Ok(response) => response,
        Err(fault) => return wanted == Err(fault),
    };
    let mut out: Answer = ArrayVec::new();
    write_response(&response, &mut out);
    out.as_slice() == bytes && wanted == Ok((response.body, response.status))
}

#[test]
fn answers_are_read_and_written(rt: HostRuntime) {
    for (bytes, wanted) in ANSWERS {
        assert!(rt; is_answer(bytes, wanted), "{bytes:?}");
    }
}

/// SW1 SW2, whether it is a warning, and the counter that it gives.
const STATUSES: [(u16, bool, Option<u8>); 6] = [
    (NO_ERROR, false, None),
    (0x6283, true, None),
    (0x6300, true, None),
    (0x63c2, true, Some(2)),
    (0x63d0, true, None),
    (0x6983, false, None),
];

#[test]
fn statuses_are_sorted(rt: HostRuntime) {
    for (status, warning, left) in STATUSES {
        assert!(rt;
            is_warning(status) == warning && counter_in(status) == left,
            "{status:x}"
        );
    }
    assert!(rt; counter(3) == 0x63c3);
}
