ghost use Rattle.std.specs.Prelude.{◌≡◌, ℕ, ◌+◌, ◌<◌, ◌≤◌, ◌^◌, ◌↔◌, ◌++◌, List, length, IsTrue, IsOk, OnOk, OnErr, IfErr, Ok};
ghost use Rattle.ber_tlv.specs.Item.{AreBytes, item_at, tag_at};
ghost use Rattle.ber_tlv.specs.Tag as tag_spec;
ghost use Rattle.ber_tlv.specs.Written as spec;

use crate::buffer::append;
use crate::tag::Tag;
use arrayvec::ArrayVec;

/// There is no room for a data object: it needs `needed` bytes, and `free` are left.
#[derive(Clone, Copy, PartialEq, Eq, Debug)]
pub struct Full {
    pub needed: usize,
    pub free: usize,
}

/// Appends a data object in its one shortest spelling (EMV 4.3 Book 3 Annex B1 and B2). `Full`
/// comes exactly where it does not fit, and then `out` stays as it was.
#[tactic(auto, unfolding(crate::specs::Written::written))]
pub fn write_item<const N: usize>(
    out: &mut ArrayVec<u8, N>,
    tag: Tag,
    value: &[u8],
) -> Result<(), Full>
    requires readable { IsTrue (tag_spec.is_readable tag.0) }
    requires short { length value.now ≤ 65535 }
    ensures ok { OnOk result (out.new.items ≡ out.old.items ++ spec.written tag.0 value.now) }
    ensures fits { IsOk result ↔ (length out.old.items + length (spec.written tag.0 value.now) ≤ N) }
    ensures needed { IfErr result (λ full. full.needed ≡ length (spec.written tag.0 value.now)) }
    ensures free { IfErr result (λ full. full.free + length out.old.items ≡ N) }
    ensures err { OnErr result (out.new ≡ out.old) }

    // What was written is read again, whatever stands behind it.
    ensures read_again { OnOk result ((rest : List ℕ) → item_at (out.new.items ++ rest) (length out.old.items)
        ≡ Ok (record { tag = tag.0; value = value.now; start = length out.old.items }, length out.new.items)) }

    // Whatever else is read as this object has at least as many bytes.
    ensures shortest { (bytes : List ℕ) (start next : ℕ) → AreBytes bytes
        → item_at bytes start ≡ Ok (record { tag = tag.0; value = value.now; start = start }, next)
        → start + length (spec.written tag.0 value.now) ≤ next }
{
    let needed = written_length(tag, value.len());
    let free = out.remaining_capacity();
    if needed > free {
        return Err(Full { needed, free });
    }
    append(out, &tag_bytes(tag));
    append(out, &length_bytes(value.len()));
    append(out, value);
    Ok(())
}

/// How many bytes `write_item` appends for this tag and a value of so many bytes, at most 65,535
/// (EMV 4.3 Book 3 Annex B1 and B2).
pub fn written_length(tag: Tag, count: usize) -> usize
    requires { count ≤ 65535 }
    ensures { result ≡ spec.written_length tag.0 count }
{
    tag_bytes(tag).len() + length_bytes(count).len() + count
}

/// The bytes of a tag of one to three bytes, in the order in which they stand in a byte string
/// (EMV 4.3 Book 3 Annex B1). A number above three bytes gives its lowest three.
pub fn tag_bytes(tag: Tag) -> ArrayVec<u8, 3>
    ensures bytes { result.items ≡ spec.tag_bytes tag.0 }

    // A readable tag is read again, wherever its bytes stand.
    ensures read_again { IsTrue (tag_spec.is_readable tag.0) → (front rest : List ℕ)
        → tag_at (front ++ (spec.tag_bytes tag.0 ++ rest)) (length front) ≡ Ok (tag.0, length front + length (spec.tag_bytes tag.0)) }
{
    let tag = tag.0;
    let mut bytes = ArrayVec::new();
    if tag < 256 {
        append(&mut bytes, &[tag as u8]);
    } else if tag < 65536 {
        append(&mut bytes, &[(tag / 256) as u8, (tag % 256) as u8]);
    } else {
        append(
            &mut bytes,
            &[
                (tag / 65536 % 256) as u8,
                (tag / 256 % 256) as u8,
                (tag % 256) as u8,
            ],
        );
    }
    bytes
}

fn length_bytes(count: usize) -> ArrayVec<u8, 3>
    requires { count ≤ 65535 }
    ensures { result.items ≡ spec.length_bytes count }
{
    let mut bytes = ArrayVec::new();
    if count < 128 {
        append(&mut bytes, &[count as u8]);
    } else if count < 256 {
        append(&mut bytes, &[0x81, count as u8]);
    } else {
        append(
            &mut bytes,
            &[0x82, (count / 256) as u8, (count % 256) as u8],
        );
    }
    bytes
}
