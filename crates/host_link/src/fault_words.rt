//! The fault of a message in words, as a terminal and an issuer's host at lines tell it.
ghost use Rattle.std.specs.Prelude.{◌≡◌, ◌≤◌, ◌+◌, ◌++◌, decimal, length};
ghost use Rattle.arrayvec.specs.ArrayVec.{array_vec_len};
ghost use Rattle.host_link.specs.FaultWords as spec;

use auth_message::MessageFault;
use ber_tlv::{Tag, tag_bytes};
use iso_message::IsoFault;
use report_text::Text;
use report_text::pieces::{append, hex_or_dash, number};

/// A word with a number behind it.
fn put_place(word: &[u8], place: u64, out: &mut Text)
    requires word { length word.now ≤ 20 }
    requires room { array_vec_len out.old ≤ 1000 }
    ensures text { out.new.items ≡ out.old.items ++ (word.now ++ decimal place) }
    ensures len { array_vec_len out.new ≤ array_vec_len out.old + 60 }
{
    append(out, word);
    number(out, place);
}

/// A word with a tag behind it.
fn put_tag(word: &[u8], tag: Tag, out: &mut Text)
    requires word { length word.now ≤ 20 }
    requires room { array_vec_len out.old ≤ 1000 }
    ensures text { out.new.items ≡ out.old.items ++ (word.now ++ spec.tag_text tag) }
    ensures len { array_vec_len out.new ≤ array_vec_len out.old + 60 }
{
    append(out, word);
    hex_or_dash(out, &tag_bytes(tag));
}

/// Appends why bytes are no message, for which there are 60 bytes of room.
pub fn put_message_fault(fault: MessageFault, out: &mut Text)
    requires room { array_vec_len out.old ≤ 1000 }
    ensures text { out.new.items ≡ out.old.items ++ spec.message_fault_words fault }
    ensures len { array_vec_len out.new ≤ array_vec_len out.old + 60 }
{
    match fault {
        MessageFault::Coding(place) => put_place(b"coding ", place as u64, out),
        MessageFault::Missing(tag) => put_tag(b"missing ", tag, out),
        MessageFault::Value(tag) => put_tag(b"value ", tag, out),
    }
}

/// Appends why bytes can't be read in the style of ISO 8583, for which there are 60 bytes of room.
pub fn put_iso_fault(fault: IsoFault, out: &mut Text)
    requires room { array_vec_len out.old ≤ 1000 }
    ensures text { out.new.items ≡ out.old.items ++ spec.iso_fault_words fault }
    ensures len { array_vec_len out.new ≤ array_vec_len out.old + 60 }
{
    match fault {
        IsoFault::Short(place) => put_place(b"short ", place as u64, out),
        IsoFault::WrongType => append(out, b"type"),
        IsoFault::Bitmap => append(out, b"bitmap"),
        IsoFault::Field(field) => put_place(b"field ", u64::from(field), out),
        IsoFault::Rest(place) => put_place(b"rest ", place as u64, out),
    }
}
