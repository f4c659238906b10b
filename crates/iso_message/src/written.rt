//! The items of field 55, each spelled as it is written.
ghost use Rattle.std.specs.Prelude.{◌≡◌, ◌≤◌, length, is_ok, Ok, Err, MatchResult};
ghost use Rattle.ber_tlv.specs.Item.{AreBytes};
ghost use Rattle.ber_tlv.specs.Left.{items_of};
ghost use Rattle.iso_message.specs.Left.{as_written as written_items};

use crate::fault::IsoFault;
use arrayvec::ArrayVec;
use auth_message::Fields;
use ber_tlv::{Cursor, write_item};

/// The items of a content of at most 9,999 bytes, as many as a length of four digits counts.
pub fn as_written(content: &[u8]) -> Result<Fields<'_>, IsoFault>
    requires { length content.now ≤ 9999 }
    ensures value { MatchResult result (λ v. written_items content.now (items_of content.now) ≡ Ok v.left) (λ fault. written_items content.now (items_of content.now) ≡ Err fault) }
    ensures bytes { MatchResult result (λ v. v.bytes ≡ content.now) (λ _. Unit {0}) }
{
    if !is_as_written(content) {
        return Err(IsoFault::Field(55));
    }
    Ok(Fields::new(content, Cursor::new(content)))
}

/// Whether the content is items, each spelled as it is written, with no byte 00 between them.
#[tactic(auto, unfolding(ber_tlv::specs::Tag::IsReadable))]
fn is_as_written(content: &[u8]) -> bool
    requires short { length content.now ≤ 9999 }
    requires bytes { AreBytes content.now }
    ensures { result ≡ is_ok (written_items content.now (items_of content.now)) }
{
    let mut again: ArrayVec<u8, 9999> = ArrayVec::new();
    let mut cursor = Cursor::new(content);
    loop {
        match cursor.next() {
            Ok(Some(item)) => {
                if write_item(&mut again, item.tag, item.value).is_err() {
                    unreachable!();
                }
            }
            Ok(None) => return again.as_slice() == content,
            Err(_) => return false,
        }
    }
}
