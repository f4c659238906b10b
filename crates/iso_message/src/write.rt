//! Writing a call and a reply.
ghost use Rattle.std.specs.Prelude.{◌≡◌, ◌+◌, ◌*◌, ◌≤◌, [], ◌++◌, length, Ok, IfSome, IsTrue, option_map, unwrap_or};
ghost use Rattle.emv_dict.specs.Digits.{AllDecimal};
ghost use Rattle.emv_dict.specs.Nibbles.{nibbles};
ghost use Rattle.emv_dict.specs.Pan.{HasPanLength};
ghost use Rattle.emv_dict.specs.Settings.{is_code};
ghost use Rattle.ber_tlv.specs.Tag.{is_readable};
ghost use Rattle.ber_tlv.specs.Written.{written};
ghost use Rattle.auth_message.specs.Accepted.{IsRequest, IsPresent, IsReversal};
ghost use Rattle.auth_message.specs.Spelling.{optional, spelled};
ghost use Rattle.auth_message.specs.declared.message.Incoming.{Incoming};
ghost use Rattle.auth_message.specs.declared.message.Incoming.TheVariants.{Request, Present, Reverse};
ghost use Rattle.auth_message.specs.Reply.{ReplyData};
ghost use Rattle.iso_message.specs.declared.kind.CallKind.{CallKind};
ghost use Rattle.auth_message.specs.Whole.{IsAccepted, HasCodes, IsCoded, AreSpelledScripts};
ghost use Rattle.iso_message.specs.Items.{icc_items, reply_items};
ghost use Rattle.iso_message.specs.Layout.{reply_type as type_of_reply};
ghost use Rattle.iso_message.specs.Reading.{call_of};
ghost use Rattle.iso_message.specs.Reply.{iso_reply_of};
ghost use Rattle.iso_message.specs.Spelling.{call_bytes, iso_request_bytes, iso_present_bytes, iso_reversal_bytes, iso_reply_bytes, account_number_field, processing_field, amount_field, audit_field, reference_field, terminal_field, currency_field};
ghost use Rattle.iso_message.specs.Text.{digit_characters, with_length};

use crate::bits::{present_bits, reply_bits, request_bits, reversal_bits};
use crate::digits::currency;
use crate::icc::{IccData, icc_data};
use crate::kind::CallKind;
use crate::numeral::{counter, four_digits, reference, two_digits};
use auth_message::{Incoming, Message, PresentFields, Reply, RequestFields, ReversalFields};
use ber_tlv::{Tag, append, write_item};
use emv_dict::Digits;

/// Writes a call, in place of what `out` holds. It needs fields that `read_message` accepts, a currency of
/// three digits behind a zero, and a transaction type of two digits.
pub fn write_iso_call(call: &Incoming<'_>, out: &mut Message)
    requires accepted { IsAccepted call.now }
    requires codes { HasCodes call.now }
    ensures exact { out.new.items ≡ call_bytes call.now }
    ensures read_again { call_of (call_bytes call.now) ≡ Ok call.now }
    // Another call that is read back has other bytes.
    ensures apart { (other : Incoming) → call_of (call_bytes other) ≡ Ok other → call_bytes other ≡ call_bytes call.now → other ≡ call.now }
{
    match call {
        Incoming::Request(fields) => write_request(fields, out),
        Incoming::Present(fields) => write_present(fields, out),
        Incoming::Reverse(fields) => write_reversal(fields, out),
    }
}

/// Writes the reply to a call of a kind, in place of what `out` holds. It needs issuer authentication data of
/// 8 to 16 bytes if there is any, and at most 8 templates 71 or 72 of at most 1,024 bytes together, each
/// spelled as `write_item` does, with no byte 00 between them.
pub fn write_iso_reply(kind: CallKind, reply: &Reply<'_>, out: &mut Message)
    requires auth { IfSome reply.now.auth (λ value. (8 ≤ length value) × (length value ≤ 16)) }
    requires scripts { AreSpelledScripts reply.now.scripts }
    ensures exact { out.new.items ≡ iso_reply_bytes kind reply.now }
    ensures read_again { iso_reply_of (iso_reply_bytes kind reply.now) ≡ Ok (kind, reply.now) }
    // Another reply that is read back has other bytes, as has the same one to another kind of call.
    ensures apart { (of : CallKind) (other : ReplyData) → iso_reply_of (iso_reply_bytes of other) ≡ Ok (of, other) → iso_reply_bytes of other ≡ iso_reply_bytes kind reply.now
        → (of ≡ kind) × (other ≡ reply.now) }
{
    out.clear();
    append(out, &reply_type(kind));
    append(out, &reply_bits());
    append(out, &reply.code);
    let mut items = Message::new();
    put_auth(&mut items, reply.auth);
    append(&mut items, reply.scripts);
    put_counted(out, &items);
}

/// The type of a reply.
fn reply_type(kind: CallKind) -> [u8; 4]
    ensures { result ≡ type_of_reply kind }
{
    match kind {
        CallKind::Request => *b"0110",
        CallKind::Presentment => *b"0230",
        CallKind::Reversal => *b"0410",
    }
}

/// Writes a request.
fn write_request(request: &RequestFields, out: &mut Message)
    requires accepted { IsRequest request.now }
    requires codes { IsCoded request.now.paid.t5f2a request.now.paid.t9c }
    ensures exact { out.new.items ≡ iso_request_bytes request.now }
    ensures read_again { call_of (iso_request_bytes request.now) ≡ Ok (Request request.now) }
{
    out.clear();
    append(out, b"0100");
    append(out, &request_bits(request.tdf11.is_some()));
    put_account(out, &request.pan);
    put_processing(out, request.t9c);
    put_numbers(out, request.t9f02, request.t9f36);
    put_acceptor(out, request.t9f1c, request.t5f2a);
    put_block(out, &request.tdf11);
    let mut items = Message::new();
    put_if_there(&mut items, 0x5F34, &request.t5f34);
    put(&mut items, 0x5F24, &request.t5f24);
    put_icc(&mut items, &icc_data(&request.paid()));
    put(&mut items, 0x9F10, request.t9f10);
    put_counted(out, &items);
}

/// Writes a presentment.
fn write_present(fields: &PresentFields, out: &mut Message)
    requires accepted { IsPresent fields.now }
    requires codes { IsCoded fields.now.paid.t5f2a fields.now.paid.t9c }
    ensures exact { out.new.items ≡ iso_present_bytes fields.now }
    ensures read_again { call_of (iso_present_bytes fields.now) ≡ Ok (Present fields.now) }
{
    out.clear();
    append(out, b"0220");
    append(out, &present_bits());
    put_account(out, &fields.pan);
    put_processing(out, fields.t9c);
    put_numbers(out, fields.t9f02, fields.t9f36);
    append(out, &fields.t8a);
    put_acceptor(out, fields.t9f1c, fields.t5f2a);
    let mut items = Message::new();
    put_if_there(&mut items, 0x5F34, &fields.t5f34);
    put_icc(&mut items, &icc_data(&fields.paid()));
    put(&mut items, 0x9F10, fields.t9f10);
    put_counted(out, &items);
}

/// Writes a reversal.
fn write_reversal(fields: &ReversalFields, out: &mut Message)
    requires accepted { IsReversal fields.now }
    requires codes { IsTrue (is_code fields.now.t5f2a) }
    ensures exact { out.new.items ≡ iso_reversal_bytes fields.now }
    ensures read_again { call_of (iso_reversal_bytes fields.now) ≡ Ok (Reverse fields.now) }
{
    out.clear();
    append(out, b"0400");
    append(out, &reversal_bits());
    put_account(out, &fields.pan);
    put_numbers(out, fields.t9f02, fields.t9f36);
    append(out, &fields.t8a);
    put_acceptor(out, fields.t9f1c, fields.t5f2a);
    let mut items = Message::new();
    put_if_there(&mut items, 0x5F34, &fields.t5f34);
    put(&mut items, 0x9F36, &fields.t9f36);
    put_counted(out, &items);
}

/// Appends field 2.
#[tactic(auto, unfolding(crate::specs::Text::with_length))]
fn put_account(out: &mut Message, pan: &Digits)
    requires sized { HasPanLength pan.now }
    requires room { length out.old.items ≤ 2000 }
    ensures field { out.new.items ≡ out.old.items ++ (account_number_field pan.now).1 }
    ensures decimal { AllDecimal pan.now }
    ensures short { length out.new.items ≤ length out.old.items + 21 }
{
    append(out, &two_digits(pan.len()));
    put_text(out, pan.as_slice());
}

/// Appends digits as characters.
fn put_text(out: &mut Message, digits: &[u8])
    requires decimal { AllDecimal digits.now }
    requires room { length out.old.items + length digits.now ≤ 2048 }
    ensures field { out.new.items ≡ out.old.items ++ digit_characters digits.now }
    ensures long { length out.new.items ≡ length out.old.items + length digits.now }
{
    for digit in digits {
        out.push(48 + *digit);
    }
}

/// Appends the two digits of each byte.

fn put_packed(out: &mut Message, bytes: &[u8])
    requires { length out.old.items + 2 * length bytes.now ≤ 2048 }
    ensures field { out.new.items ≡ out.old.items ++ digit_characters (nibbles bytes.now) }
    ensures long { length out.new.items ≡ length out.old.items + 2 * length bytes.now }
{
    for byte in bytes {
        out.push(48 + *byte / 16);
        out.push(48 + *byte % 16);
    }
}

/// Appends field 3.
fn put_processing(out: &mut Message, t9c: [u8; 1])
    requires { length out.old.items ≤ 2000 }
    ensures field { out.new.items ≡ out.old.items ++ (processing_field t9c).1 }
    ensures short { length out.new.items ≤ length out.old.items + 6 }
{
    put_packed(out, &t9c);
    append(out, b"0000");
}

/// Appends fields 4, 11 and 37.
fn put_numbers(out: &mut Message, t9f02: [u8; 6], t9f36: [u8; 2])
    requires { length out.old.items ≤ 2000 }
    ensures field { out.new.items ≡ ((out.old.items ++ (amount_field t9f02).1) ++ (audit_field t9f36).1) ++ (reference_field t9f36).1 }
    ensures sized { (length t9f02 ≡ 6) × (length t9f36 ≡ 2) }
    ensures short { length out.new.items ≤ length out.old.items + 30 }
{
    put_packed(out, &t9f02);
    append(out, &counter(t9f36));
    append(out, &reference(t9f36));
}

/// Appends fields 41 and 49.
fn put_acceptor(out: &mut Message, t9f1c: [u8; 8], t5f2a: [u8; 2])
    requires { length out.old.items ≤ 2000 }
    ensures field { out.new.items ≡ (out.old.items ++ (terminal_field t9f1c).1) ++ (currency_field t5f2a).1 }
    ensures sized { (length t9f1c ≡ 8) × (length t5f2a ≡ 2) }
    ensures short { length out.new.items ≤ length out.old.items + 11 }
{
    append(out, &t9f1c);
    append(out, &currency(&t5f2a));
}

/// Appends field 52 if it is there.
fn put_block(out: &mut Message, block: &Option<[u8; 8]>)
    requires { length out.old.items ≤ 2000 }
    ensures field { out.new.items ≡ out.old.items ++ unwrap_or block.now [] }
    ensures sized { IfSome block.now (λ v. length v ≡ 8) }
    ensures short { length out.new.items ≤ length out.old.items + 8 }
{
    if let Some(bytes) = block {
        append(out, bytes);
    }
}

/// Appends field 55.
#[tactic(auto, unfolding(crate::specs::Text::with_length))]
fn put_counted(out: &mut Message, content: &[u8])
    requires { length out.old.items + length content.now ≤ 2044 }
    ensures { out.new.items ≡ out.old.items ++ with_length 4 content.now }
{
    append(out, &four_digits(content.len()));
    append(out, content);
}

/// Appends what the items of a request and of a presentment share, but 9F10.
fn put_icc(out: &mut Message, icc: &IccData)
    requires room { length out.old.items ≤ 1500 }
    ensures fields { out.new.items ≡ out.old.items ++ spelled (icc_items icc.now) }
    ensures short { length out.new.items ≤ length out.old.items + 304 }
{
    put(out, 0x9F03, &icc.t9f03);
    put(out, 0x9F1A, &icc.t9f1a);
    put(out, 0x95, &icc.t95);
    put(out, 0x9A, &icc.t9a);
    put(out, 0x9F37, &icc.t9f37);
    put(out, 0x82, &icc.t82);
    put(out, 0x9F36, &icc.t9f36);
    put(out, 0x9F26, &icc.t9f26);
}

/// Appends an item of one byte that may be absent.
fn put_if_there(out: &mut Message, tag: u32, value: &Option<[u8; 1]>)
    requires readable { IsTrue (is_readable tag) }
    requires room { length out.old.items ≤ 2000 }
    ensures fields { out.new.items ≡ out.old.items ++ spelled (optional tag value.now) }
    ensures sized { IfSome value.now (λ v. length v ≡ 1) }
    ensures short { length out.new.items ≤ length out.old.items + 38 }
{
    if let Some(bytes) = value {
        put(out, tag, bytes);
    }
}

/// Appends item 91 if it is there.
fn put_auth(out: &mut Message, auth: Option<&[u8]>)
    requires few { IfSome auth (λ v. length v.now ≤ 32) }
    requires room { length out.old.items ≤ 2000 }
    ensures fields { out.new.items ≡ out.old.items ++ spelled (reply_items (option_map (λ v. v.now) auth.entry)) }
    ensures short { length out.new.items ≤ length out.old.items + 38 }
{
    if let Some(bytes) = auth {
        put(out, 0x91, bytes);
    }
}

/// Appends an item.
#[tactic(auto, using(auth_message::proofs::Sizes::written_short))]
fn put(out: &mut Message, tag: u32, value: &[u8])
    requires readable { IsTrue (is_readable tag) }
    requires few { length value.now ≤ 32 }
    requires room { length out.old.items ≤ 2000 }
    ensures field { out.new.items ≡ out.old.items ++ written tag value.now }
    ensures short { length out.new.items ≤ length out.old.items + 38 }
{
    if write_item(out, Tag(tag), value).is_err() {
        unreachable!();
    }
}
