//! Objects that are kept by tag, up to the room for them, and objects that are gathered.
use ber_tlv::{Tag, TlvFault};
use env_map::{Env, EnvFault, GatherFault, gather};

/// Objects that are put one behind the other, and what comes of it.
const PUTS: [(u32, &[u8], Result<(), EnvFault>); 4] = [
    (0x9F36, &[0x00, 0x0A], Ok(())),
    (0x50, &[0x41, 0x42], Ok(())),
    (0x9F02, &[], Ok(())),
    (0x50, &[0x43], Err(EnvFault::Repeated(Tag(0x50)))),
];

/// Tags, and the object behind each, by rising tag; none stands behind the last one.
const IN_ORDER: [(Option<u32>, Option<(u32, &[u8])>); 4] = [
    (None, Some((0x50, &[0x41, 0x42]))),
    (Some(0x50), Some((0x9F02, &[]))),
    (Some(0x9F35), Some((0x9F36, &[0x00, 0x0B]))),
    (Some(0x9F36), None),
];

/// The map that the objects are put into, where each put comes out so.
fn put_all(puts: &[(u32, &[u8], Result<(), EnvFault>)]) -> Option<Env> {
    let mut env = Env::new();
    for (tag, value, wanted) in puts {
        if env.put(Tag(*tag), value) != *wanted {
            return None;
        }
    }
    Some(env)
}

#[test]
fn objects_are_kept_by_tag(rt: HostRuntime) {
    let Some(mut env) = put_all(&PUTS) else {
        assert!(rt; false, "an object isn't put as it must be");
        return;
    };
    assert!(rt;
        env.get(Tag(0x50)) == Some([0x41, 0x42].as_slice()) && env.get(Tag(0x5A)).is_none()
    );
    assert!(rt;
        env.get(Tag(0x9F36)).is_some_and(|value| value.len() == 2)
            && env.set(Tag(0x9F36), &[0x00, 0x0B]) == Ok(())
    );
    for (before, wanted) in IN_ORDER {
        let found = env
            .after(before.map(Tag))
            .map(|(tag, value)| (tag.0, value));
        assert!(rt; found == wanted, "{before:?}");
    }
}

/// In a map of 512 objects. A tag that is there comes before the missing room, and too many objects before too
/// many bytes.
const BEHIND_512: [(u32, &[u8], EnvFault); 3] = [
    (512, &[], EnvFault::TooMany),
    (7, &[], EnvFault::Repeated(Tag(7))),
    (512, &[0; 16385], EnvFault::TooMany),
];

#[test]
fn object_513_is_refused(rt: HostRuntime) {
    let mut env = Env::new();
    for number in 0..512 {
        assert!(rt; env.put(Tag(number), &[]) == Ok(()), "{number}");
    }
    for (tag, value, fault) in BEHIND_512 {
        assert!(rt; env.put(Tag(tag), value) == Err(fault), "{tag}");
    }
}

const TO_THE_LAST_BYTE: [(u32, &[u8], Result<(), EnvFault>); 3] = [
    (0x50, &[7; 16383], Ok(())),
    (0x57, &[1, 2], Err(EnvFault::TooLong)),
    (0x57, &[1], Ok(())),
];

#[test]
fn byte_16385_is_refused(rt: HostRuntime) {
    assert!(rt; put_all(&TO_THE_LAST_BYTE).is_some());
}

/// Bytes that are gathered one behind the other into one map, and what comes of it. First 70 holds 5F34,
/// padding, and A5 with 50; 9F36 stands behind it. Then an object is repeated before a fault, and one is cut.
const GATHERED: [(&[u8], Result<(), GatherFault>); 3] = [
    (
        &[
            0x70, 0x0A, 0x5F, 0x34, 0x01, 0x01, 0x00, 0xA5, 0x03, 0x50, 0x01, 0x41, 0x9F, 0x36,
            0x00,
        ],
        Ok(()),
    ),
    (
        &[0x70, 0x03, 0x50, 0x01, 0x42, 0x5A],
        Err(GatherFault::Put(EnvFault::Repeated(Tag(0x50)))),
    ),
    (
        &[0x70, 0x03, 0x5A, 0x02, 0x42, 0x43],
        Err(GatherFault::Coding(TlvFault::Truncated(2))),
    ),
];

/// What stands in the map behind the first of them.
const HELD: [(u32, Option<&[u8]>); 4] = [
    (0x5F34, Some(&[0x01])),
    (0x50, Some(&[0x41])),
    (0x9F36, Some(&[])),
    (0xA5, None),
];

fn holds_all(env: &Env) -> bool {
    for (tag, wanted) in HELD {
        if env.get(Tag(tag)) != wanted {
            return false;
        }
    }
    true
}

#[test]
fn primitive_objects_are_gathered(rt: HostRuntime) {
    let mut env = Env::new();
    for (bytes, wanted) in GATHERED {
        assert!(rt;
            gather(&mut env, bytes) == wanted && (wanted.is_err() || holds_all(&env)),
            "{bytes:?}"
        );
    }
}
