//! Data objects that are read, entered, written and found, and bytes that are none.
use arrayvec::ArrayVec;
use ber_tlv::{
    Cursor, Full, Tag, TlvFault, deep_fault, first_fault, first_value, is_constructed, is_readable,
    place_or_zero, read_tag, sole_value, template_fault, write_item,
};

/// What `next` gives: an object's tag, value and place, the end, or a fault.
type Next<'a> = Result<Option<(u32, &'a [u8], usize)>, TlvFault>;

/// Whether a cursor over the bytes gives these in turn.
fn gives(bytes: &[u8], nexts: &[Next]) -> bool {
    let mut cursor = Cursor::new(bytes);
    for wanted in nexts {
        let found = match cursor.next() {
            Ok(Some(item)) => Ok(Some((item.tag.0, item.value, item.start))),
            Ok(None) => Ok(None),
            Err(fault) => Err(fault),
        };
        if found != *wanted {
            return false;
        }
    }
    true
}

/// 5A 82 01 00 wants 256 bytes, and 255 stand behind it.
fn cut() -> [u8; 259] {
    let mut cut = [0u8; 259];
    cut[..4].copy_from_slice(&[0x5A, 0x82, 0x01, 0x00]);
    cut
}

#[test]
fn objects_are_given_in_turn(rt: HostRuntime) {
    let cut = cut();
    let rows: [(&[u8], &[Next]); 2] = [
        (
            &[0x5A, 0x81, 0x05, 1, 2, 3, 4, 5],
            &[Ok(Some((0x5A, &[1, 2, 3, 4, 5], 0))), Ok(None), Ok(None)],
        ),
        (
            &cut,
            &[Err(TlvFault::Truncated(0)), Err(TlvFault::Truncated(0))],
        ),
    ];
    for (bytes, nexts) in rows {
        assert!(rt; gives(bytes, nexts), "{bytes:?}");
    }
}

/// A template, which ends within its child, though bytes follow there.
const ENDS_WITHIN: [u8; 7] = [0x70, 0x03, 0x9F, 0x36, 0x02, 0x50, 0x00];

#[test]
fn first_faults_are_named(rt: HostRuntime) {
    let cut = cut();
    let rows: [(&[u8], Option<TlvFault>); 7] = [
        (&[0x5A, 0x81, 0x05, 1, 2, 3, 4, 5], None),
        (&cut, Some(TlvFault::Truncated(0))),
        (&[0x5A, 0x80], Some(TlvFault::BadLength(1))),
        (&[0x9F, 0x81, 0x81, 0x01], Some(TlvFault::LongTag(0))),
        (&[0x9F, 0x81, 0x80, 0x01], Some(TlvFault::LongTag(0))),
        // Padding, a whole object, padding, and a tag that is cut.
        (
            &[0, 0x50, 0x01, 0x41, 0, 0x9F],
            Some(TlvFault::Truncated(5)),
        ),
        (&ENDS_WITHIN, None),
    ];
    for (bytes, wanted) in rows {
        assert!(rt; first_fault(bytes) == wanted, "{bytes:?}");
    }
}

#[test]
fn constructed_objects_are_entered(rt: HostRuntime) {
    assert!(rt;
        deep_fault(&ENDS_WITHIN) == Some(TlvFault::Truncated(2))
            && deep_fault(&[0x70, 0x03, 0x9F, 0x36, 0x00, 0x50, 0x00]).is_none()
    );
    let mut cursor = Cursor::new(&ENDS_WITHIN);
    let inside = match cursor.next() {
        Ok(Some(item)) => matches!(cursor.inside(&item).next(), Err(TlvFault::Truncated(2))),
        _ => false,
    };
    assert!(rt; inside);
}

/// Objects that are written one behind the other where there is room for 140 bytes: the tag, the value, what
/// comes of it, the first bytes of all then and how many they are.
type Written<'a> = (u32, &'a [u8], Result<(), Full>, &'a [u8], usize);

#[test]
fn the_shortest_spelling_is_written(rt: HostRuntime) {
    let full = Err(Full { needed: 3, free: 1 });
    let front: &[u8] = &[0x9F, 0x36, 0x02, 0x00, 0x0A, 0x50, 0x81, 0x83];
    let rows: [Written; 3] = [
        (0x9F36, &[0x00, 0x0A], Ok(()), &front[..5], 5),
        (0x50, &[7; 131], Ok(()), front, 139),
        (0x84, &[1], full, front, 139),
    ];
    let mut out: ArrayVec<u8, 140> = ArrayVec::new();
    for (tag, value, wanted, front, count) in rows {
        assert!(rt;
            is_readable(Tag(tag))
                && value.len() <= 255
                && write_item(&mut out, Tag(tag), value) == wanted
                && out.starts_with(front)
                && out.len() == count,
            "{tag:x}"
        );
    }
}

#[test]
fn tags_are_read(rt: HostRuntime) {
    assert!(rt; read_tag(&[0x00, 0x9F, 0x36], 1) == Ok((Tag(0x9F36), 3)));
    assert!(rt; is_constructed(Tag(0x6F)) && !is_constructed(Tag(0x9F36)));
    assert!(rt; is_readable(Tag(0x9F36)) && !is_readable(Tag(0x9F)) && !is_readable(Tag(0x9F81)));
}

/// 6F holds 84, A5 and another 84; bytes 00 stand around it.
const FCI: [u8; 12] = [
    0, 0x6F, 0x08, 0x84, 0x01, 0xA0, 0xA5, 0x00, 0x84, 0x01, 0xA1, 0,
];

#[test]
fn sole_values_are_found(rt: HostRuntime) {
    let rows: [(&[u8], u32, Option<&[u8]>); 3] = [
        (&FCI, 0x6F, Some(&FCI[3..11])),
        (&FCI, 0x70, None),
        (&[0x80, 0x00, 0x80, 0x00], 0x80, None),
    ];
    for (bytes, tag, wanted) in rows {
        assert!(rt; sole_value(bytes, Tag(tag)) == wanted, "{tag:x}");
    }
}

#[test]
fn first_values_are_found(rt: HostRuntime) {
    let rows: [(&[u8], u32, Result<Option<&[u8]>, TlvFault>); 4] = [
        (&FCI[3..11], 0x84, Ok(Some(&[0xA0]))),
        (&FCI[3..11], 0x87, Ok(None)),
        (&[0x84, 0x02, 0xA0], 0x84, Err(TlvFault::Truncated(0))),
        // What stands behind the first one is looked at too.
        (&[0x84, 0x00, 0x84, 0x02], 0x84, Err(TlvFault::Truncated(2))),
    ];
    for (bytes, tag, wanted) in rows {
        assert!(rt; first_value(bytes, Tag(tag)) == wanted, "{bytes:?}");
    }
}

/// An object in a template 77 is cut; in a 70 it is not looked at.
#[test]
fn faults_in_templates_have_places(rt: HostRuntime) {
    let cut = [0x77, 0x04, 0x82, 0x00, 0x5A, 0x05];
    let fault = template_fault(&cut, Tag(0x77));
    assert!(rt; fault == Some(TlvFault::Truncated(4)) && place_or_zero(fault) == 4);
    assert!(rt; template_fault(&cut, Tag(0x70)).is_none() && place_or_zero(None) == 0);
    assert!(rt; TlvFault::BadLength(7).place() == 7);
}
