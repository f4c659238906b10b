//! What a terminal asks, as a line.
ghost use Rattle.std.specs.Prelude.{◌≡◌, ◌≢◌, ◌≤◌, ◌++◌, ◌∷◌, [], List, length};
ghost use Rattle.auth_message.specs.Whole.{IsMessage};
ghost use Rattle.iso_message.specs.Dialect.{call_in};
ghost use Rattle.kernel.specs.Dialogue.{dialogue};
ghost use Rattle.kernel.specs.Kernel.{KernelStands, outset_in, kernel_next, standing_next};
ghost use Rattle.kernel.specs.Reply.{Reply};
ghost use Rattle.kernel.specs.declared.kernel.Next.TheVariants as next;
ghost use Rattle.trace_check.specs.Dialogues as traces;
ghost use Rattle.report_text.specs.Pieces.{hex_or_dash as hex_text};
ghost use Rattle.trace_check.specs.declared.entry.Entry.TheVariants as entries;
ghost use Rattle.terminal_at_reader.specs.Settlement.{settled_line, settlement_line};
ghost use Rattle.terminal_at_reader.specs.Talk.{asked_line, line_of};

use crate::till::{Captured, Outcome};
use auth_message::Message;
use host_link::write_call;
use kernel::{EndRecord, Kernel, Next};
use report_text::Text;
use report_text::pieces::{append, hex_or_dash, number};
use trace_check::add_end_text;

/// The line of an end.
fn write_end(end: EndRecord, out: &mut Text)
    ensures { out.new.items ≡ line_of (entries.End (traces.end_text end)) }
{
    out.clear();
    append(out, b"end ");
    add_end_text(end, out);
    append(out, b"\n");
}

/// Writes the line of an end, which is the same in each dialect, and gives what is kept of the purchase.
pub fn tell_end(end: EndRecord, out: &mut Text) -> Outcome
    ensures told { out.new.items ≡ line_of (entries.End (traces.end_text end)) }
    ensures ending { result.ending ≡ end.ending }
    ensures pan { result.pan ≡ end.pan }
    ensures captured { result.captured ≡ end.capture }
{
    let EndRecord {
        ending,
        tvr,
        tsi,
        cvm,
        pan,
        code,
        last,
        scripts,
        capture,
    } = end;
    let captured = Captured::of(capture);
    let shown = EndRecord {
        ending,
        tvr,
        tsi,
        cvm,
        pan: None,
        code,
        last,
        scripts,
        capture: None,
    };
    write_end(shown, out);
    Outcome {
        ending,
        pan,
        captured,
    }
}

/// A line with bytes behind its mark.
fn write_bytes(mark: &[u8], bytes: &[u8], out: &mut Text)
    requires mark { length mark.now ≤ 9 }
    requires few { length bytes.now ≤ 2048 }
    ensures { out.new.items ≡ (mark.now ++ hex_text bytes.now) ++ 10 ∷ [] }
{
    out.clear();
    append(out, mark);
    hex_or_dash(out, bytes);
    append(out, b"\n");
}

/// The line of a message to the host behind its mark, in the dialect.
fn write_message(iso: bool, mark: &[u8], message: &[u8], out: &mut Text)
    requires mark { length mark.now ≤ 9 }
    requires few { length message.now ≤ 2048 }
    requires read { IsMessage message.now }
    ensures { out.new.items ≡ (mark.now ++ hex_text (call_in iso message.now)) ++ 10 ∷ [] }
{
    let mut call = Message::new();
    write_call(iso, message, &mut call);
    write_bytes(mark, call.as_slice(), out);
}

/// The line of what a dialogue asks that is not over, a message to the host in the dialect.
pub fn tell_ask(iso: bool, kernel: &Kernel<'_>, out: &mut Text)
    requires { kernel_next kernel.now ≢ next.Ended }
    ensures told { (replies : List Reply) → KernelStands kernel.now replies → out.new.items ≡ asked_line iso (outset_in kernel.now) replies }
    ensures waits { (replies : List Reply) → KernelStands kernel.now replies → kernel_next kernel.now ≡ standing_next (dialogue (outset_in kernel.now) replies) }
{
    match kernel.next() {
        Next::ToCard => write_bytes(b"> ", kernel.bytes(), out),
        Next::ToHost => write_message(iso, b"host > ", kernel.bytes(), out),
        Next::Ended => unreachable!(),
    }
}

/// The line of a message that is settled, in the dialect.
pub fn tell_settlement(iso: bool, captured: &Captured, out: &mut Text)
    ensures { out.new.items ≡ settlement_line iso captured.now }
{
    write_message(iso, b"settle > ", captured.as_slice(), out);
}

/// The line behind the last message of a settlement, of which so many were sent.
pub fn tell_settled(count: usize, out: &mut Text)
    ensures { out.new.items ≡ settled_line count }
{
    out.clear();
    append(out, b"settled ");
    number(out, count as u64);
    append(out, b"\n");
}
