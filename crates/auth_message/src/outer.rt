ghost use Rattle.std.specs.Prelude.{◌≡◌, ◌≤◌, ◌==◌, length, MatchResult, IfOk, Ok, Err};
ghost use Rattle.std.specs.List.{list_any};
ghost use Rattle.ber_tlv.specs.Left.{items_behind, fault_of};
ghost use Rattle.auth_message.specs.Outer.{outer_of};

use crate::fault::MessageFault;
use crate::fields::Fields;
use ber_tlv::{Cursor, TlvFault, first_fault};

/// The tag of a message and its fields, where it is one of the known tags.
pub fn open<'a>(bytes: &'a [u8], known: &[u32]) -> Result<(u32, Fields<'a>), MessageFault>
    ensures value { MatchResult result (λ found. outer_of known.now bytes.now ≡ Ok (found.0, found.1.left))
        (λ fault. outer_of known.now bytes.now ≡ Err fault) }
    ensures bytes { IfOk result (λ found. found.1.bytes ≡ bytes.now) }
{
    let mut cursor = Cursor::new(bytes);
    let item = match cursor.next() {
        Ok(Some(item)) => item,
        Ok(None) => return Err(MessageFault::Coding(0)),
        Err(fault) => return Err(MessageFault::Coding(fault.place())),
    };
    let inside = cursor.inside(&item);
    if let Some(fault) = fault_behind(&mut cursor.inside(&item)) {
        return Err(MessageFault::Coding(fault.place()));
    }
    if let Some(fault) = first_fault(bytes) {
        return Err(MessageFault::Coding(fault.place()));
    }
    if !is_known(item.tag.0, known) {
        return Err(MessageFault::Coding(item.start));
    }
    match cursor.next() {
        Ok(Some(other)) => Err(MessageFault::Coding(other.start)),
        Ok(None) => Ok((item.tag.0, Fields::new(bytes, inside))),
        Err(_) => unreachable!(),
    }
}

/// Whether the tag is one of these.
fn is_known(tag: u32, known: &[u32]) -> bool
    ensures { result ≡ list_any (λ t. t == tag) known.now }
{
    known.iter().any(|t| *t == tag)
}

/// Why what is left is no list of data objects, if it is none.
fn fault_behind(cursor: &mut Cursor) -> Option<TlvFault>
    requires { cursor.old.place ≤ length cursor.old.bytes }
    ensures { result ≡ fault_of (items_behind cursor.old.bytes cursor.old.place) }
{
    loop {
        match cursor.next() {
            Ok(Some(_)) => {}
            Ok(None) => return None,
            Err(fault) => return Some(fault),
        }
    }
}
