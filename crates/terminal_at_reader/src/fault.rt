//! Why a reply of the host can't be read, and the line that tells it.
ghost use Rattle.std.specs.Prelude.{◌≡◌, ◌≤◌, ◌+◌, ◌++◌};
ghost use Rattle.arrayvec.specs.ArrayVec.{array_vec_len};
ghost use Rattle.terminal_at_reader.specs.Hearing as spec;

use auth_message::MessageFault;
use host_link::{put_iso_fault, put_message_fault};
use iso_message::IsoFault;
use report_text::Text;
use report_text::pieces::append;

/// Why a reply of the host can't be read.
#[derive(Clone, Copy, PartialEq, Eq, Debug)]
pub enum ReplyFault {
    /// In the first dialect.
    Message(MessageFault),
    /// In the style of ISO 8583.
    Iso(IsoFault),
}

/// A fault in words, behind what is there.
fn add_fault(out: &mut Text, fault: ReplyFault)
    requires { array_vec_len out.old ≤ 100 }
    ensures text { out.new.items ≡ out.old.items ++ spec.reply_fault_words fault }
    ensures len { array_vec_len out.new ≤ array_vec_len out.old + 60 }
{
    match fault {
        ReplyFault::Message(fault) => put_message_fault(fault, out),
        ReplyFault::Iso(fault) => put_iso_fault(fault, out),
    }
}

/// The line that tells why a reply can't be read, in place of what was there; nothing of one that can.
pub fn tell_fault(fault: Option<ReplyFault>, out: &mut Text)
    ensures { out.new.items ≡ spec.fault_line fault }
{
    out.clear();
    let Some(fault) = fault else {
        return;
    };
    append(out, b"? reply ");
    add_fault(out, fault);
    append(out, b"\n");
}
