ghost use Rattle.std.specs.Prelude.{◌≡◌, ◌≤◌, ◌↔◌, IsNone, length};
ghost use Rattle.ber_tlv.specs.Walked.{Forest, Spells, walk_behind, walk_fault, walk_of, walk_of_forest};

use crate::cursor::Cursor;
use crate::item::TlvFault;
use crate::tag::is_constructed;

/// The first fault at any depth, in the order of the bytes, or `None` where the bytes are data
/// objects and the value of each constructed one is made of data objects in turn
/// (EMV 4.3 Book 3 Annex B). Places count from the first byte, inside constructed objects too.
pub fn deep_fault(bytes: &[u8]) -> Option<TlvFault>
    ensures exact { result ≡ walk_fault (walk_of bytes.now) }
    ensures spelled { IsNone result ↔ ((forest : Forest) × Spells bytes.now 0 forest) }
    // The walk of bytes that a forest spells is the walk of the forest.
    ensures walk { (forest : Forest) → Spells bytes.now 0 forest → walk_of bytes.now ≡ walk_of_forest forest }
{
    fault_behind(&mut Cursor::new(bytes))
}

#[tactic(auto, using(crate::proofs::Walking::fault_of_first, crate::proofs::Walking::fault_of_second))]
fn fault_behind(cursor: &mut Cursor) -> Option<TlvFault>
    requires { cursor.old.place ≤ length cursor.old.bytes }
    ensures { result ≡ walk_fault (walk_behind cursor.old.bytes cursor.old.place) }
{
    loop {
        let item = match cursor.next() {
            Ok(Some(item)) => item,
            Ok(None) => return None,
            Err(fault) => return Some(fault),
        };
        if is_constructed(item.tag) {
            if let Some(fault) = fault_behind(&mut cursor.inside(&item)) {
                return Some(fault);
            }
        }
    }
}
