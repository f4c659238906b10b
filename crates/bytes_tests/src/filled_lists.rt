//! Object lists that are read and filled.
use arrayvec::ArrayVec;
use ber_tlv::{Full, Tag};
use env_map::Env;
use object_lists::{DolFault, fill, place, read_dol, total};

/// The card's objects. It gives an object of the terminal too; it is not taken.
const CARD: [(u32, &[u8]); 2] = [
    (0x5A, &[0x47, 0x61, 0x73, 0x90, 0x01, 0x01, 0x00, 0x10]),
    (0x9F37, &[0xEE; 4]),
];

const TERMINAL: [(u32, &[u8]); 2] = [
    (0x9F02, &[0x00, 0x00, 0x00, 0x00, 0x25, 0x00]),
    (0x9F37, &[0x01, 0x02, 0x03, 0x04]),
];

/// 98, 70, 9F02 of five and of eight bytes, 5A of twelve and 9F37 of two.
const LIST: [u8; 15] = [
    0x98, 0x14, 0x70, 0x02, 0x9F, 0x02, 0x05, 0x9F, 0x02, 0x08, 0x5A, 0x0C, 0x9F, 0x37, 0x02,
];

const FILLED: [u8; 49] = [
    0, 0, 0, 0, 0, 0, 0, 0, 0, 0, 0, 0, 0, 0, 0, 0, 0, 0, 0, 0, 0, 0, //
    0x00, 0x00, 0x00, 0x25, 0x00, //
    0x00, 0x00, 0x00, 0x00, 0x00, 0x00, 0x25, 0x00, //
    0x47, 0x61, 0x73, 0x90, 0x01, 0x01, 0x00, 0x10, 0xFF, 0xFF, 0xFF, 0xFF, //
    0x01, 0x02,
];

/// A map of these objects, where they can all be put.
fn map_of(objects: &[(u32, &[u8])]) -> Option<Env> {
    let mut env = Env::new();
    for (tag, value) in objects {
        if env.put(Tag(*tag), value).is_err() {
            return None;
        }
    }
    Some(env)
}

#[test]
fn lists_are_filled_by_format_and_origin(rt: HostRuntime) {
    let (Some(card), Some(terminal), Ok(dol)) = (map_of(&CARD), map_of(&TERMINAL), read_dol(&LIST))
    else {
        assert!(rt; false, "the objects or the list");
        return;
    };
    assert!(rt; total(&dol) == 49);
    assert!(rt; place(&dol, Tag(0x9F02), 8) == Some(27) && place(&dol, Tag(0x9F02), 6).is_none());
    let mut out = ArrayVec::new();
    assert!(rt;
        fill(&dol, &card, &terminal, &mut out) == Ok(()) && out.as_slice() == FILLED.as_slice()
    );
}

const FAULTS: [(&[u8], DolFault); 5] = [
    (&[0x9F], DolFault::Truncated(0)),
    (&[0x5A], DolFault::Truncated(0)),
    (&[0x00, 0x02, 0x9F, 0x37], DolFault::Truncated(2)),
    (&[0x9F, 0x81, 0x81, 0x01, 0x02], DolFault::LongTag(0)),
    (&[0x9A, 0x03, 0x9F, 0x81], DolFault::Truncated(2)),
];

#[test]
fn the_first_fault_is_named(rt: HostRuntime) {
    for (bytes, fault) in FAULTS {
        assert!(rt; read_dol(bytes).err() == Some(fault), "{bytes:?}");
    }
}

/// How many bytes of one object a list asks for, and whether they are given.
const COUNTS: [(u8, Result<(), Full>); 2] = [
    (252, Ok(())),
    (
        253,
        Err(Full {
            needed: 253,
            free: 252,
        }),
    ),
];

/// What filling a list of one object, which no one has, gives, and how many bytes stand there then.
fn filled_with(count: u8, out: &mut ArrayVec<u8, 252>) -> Option<Result<(), Full>> {
    let none = Env::new();
    match read_dol(&[0x5A, count]) {
        Ok(dol) => Some(fill(&dol, &none, &none, out)),
        Err(_) => None,
    }
}

#[test]
fn data_have_at_most_252_bytes(rt: HostRuntime) {
    let mut out = ArrayVec::new();
    for (count, wanted) in COUNTS {
        assert!(rt; filled_with(count, &mut out) == Some(wanted), "{count}");
    }
    assert!(rt; out.is_empty());
}
