//! Writing the messages and the reply.
ghost use Rattle.std.specs.Prelude.{◌≡◌, ◌+◌, ◌≤◌, ◌++◌, Ok, length, IfSome, IsTrue, option_map};
ghost use Rattle.emv_dict.specs.Pan.{HasPanLength, pan_of, pan_field};
ghost use Rattle.emv_dict.specs.Settings.{is_code};
ghost use Rattle.ber_tlv.specs.Tag.{is_readable};
ghost use Rattle.ber_tlv.specs.Written.{written};
ghost use Rattle.auth_message.specs.Accepted.{IsRequest, IsPresent, IsReversal};
ghost use Rattle.auth_message.specs.Message.{message_of};
ghost use Rattle.auth_message.specs.Reply.{AreScripts, reply_of, ReplyData};
ghost use Rattle.auth_message.specs.Spelling.{optional, spelled, named_fields, paid_fields, request_fields, request_bytes, present_fields, present_bytes, reversal_fields, reversal_bytes, reply_bytes};
ghost use Rattle.auth_message.specs.Whole.{IsCoded, IsMessage};
ghost use Rattle.auth_message.specs.declared.message.Incoming.TheVariants.{Request, Present, Reverse};

use crate::groups::{Named, Paid};
use crate::presentment::PresentFields;
use crate::request::RequestFields;
use crate::reversal::ReversalFields;
use arrayvec::ArrayVec;
use ber_tlv::{Tag, append, write_item};
use emv_dict::pan_field;

/// A message to the host or its reply.
pub type Message = ArrayVec<u8, 2048>;

/// Writes a request (E1), in place of what `out` holds: the fields in their order, each in its shortest
/// spelling. It needs fields that `read_message` accepts.
pub fn write_request(fields: &RequestFields, out: &mut Message)
    requires { IsRequest fields.now }
    ensures exact { out.new.items ≡ request_bytes fields.now }
    ensures read_again { message_of (request_bytes fields.now) ≡ Ok (Request fields.now) }
    ensures message { IsCoded fields.now.paid.t5f2a fields.now.paid.t9c → IsMessage out.new.items }
{
    let mut value = Message::new();
    put_named(&mut value, &fields.named());
    put(&mut value, 0x5F24, &fields.t5f24);
    put_paid(&mut value, &fields.paid());
    put(&mut value, 0x9F10, fields.t9f10);
    put_if_there(&mut value, 0xDF11, &fields.tdf11);
    finish(out, 0xE1, &value);
}

/// Writes a presentment (E3), in place of what `out` holds: the fields in their order, each in its
/// shortest spelling. It needs fields that `read_message` accepts.
pub fn write_presentment(fields: &PresentFields, out: &mut Message)
    requires { IsPresent fields.now }
    ensures exact { out.new.items ≡ present_bytes fields.now }
    ensures read_again { message_of (present_bytes fields.now) ≡ Ok (Present fields.now) }
    ensures message { IsCoded fields.now.paid.t5f2a fields.now.paid.t9c → IsMessage out.new.items }
{
    let mut value = Message::new();
    put_named(&mut value, &fields.named());
    put_paid(&mut value, &fields.paid());
    put(&mut value, 0x9F10, fields.t9f10);
    put(&mut value, 0x8A, &fields.t8a);
    finish(out, 0xE3, &value);
}

/// Writes a reversal (E4), in place of what `out` holds: the fields in their order, each in its shortest
/// spelling. It needs fields that `read_message` accepts.
pub fn write_reversal(fields: &ReversalFields, out: &mut Message)
    requires { IsReversal fields.now }
    ensures exact { out.new.items ≡ reversal_bytes fields.now }
    ensures read_again { message_of (reversal_bytes fields.now) ≡ Ok (Reverse fields.now) }
    ensures message { IsTrue (is_code fields.now.t5f2a) → IsMessage out.new.items }
{
    let mut value = Message::new();
    put_named(
        &mut value,
        &Named {
            t9f1c: fields.t9f1c,
            pan: fields.pan.copy(),
            t5f34: fields.t5f34,
        },
    );
    put(&mut value, 0x9F36, &fields.t9f36);
    put(&mut value, 0x9F02, &fields.t9f02);
    put(&mut value, 0x5F2A, &fields.t5f2a);
    put(&mut value, 0x8A, &fields.t8a);
    finish(out, 0xE4, &value);
}

/// Writes a reply (E2), in place of what `out` holds: the code, the issuer authentication data of 8 to 16
/// bytes if there is any, and the scripts (EMV 4.3 Book 3 section 10.10) as they are: at most 8 templates
/// 71 or 72 of at most 1,024 bytes together, with no byte 00 before the first or behind the last.
pub fn write_reply(code: [u8; 2], auth: Option<&[u8]>, scripts: &[u8], out: &mut Message)
    requires auth { IfSome auth (λ value. (8 ≤ length value.now) × (length value.now ≤ 16)) }
    requires scripts { AreScripts scripts.now }
    ensures exact { out.new.items ≡ reply_bytes code (option_map (λ value. value.now) auth.entry) scripts.now }
    ensures read_again { reply_of (reply_bytes code (option_map (λ value. value.now) auth.entry) scripts.now)
        ≡ Ok (record { code = code; auth = option_map (λ value. value.now) auth.entry; scripts = scripts.now }) }
{
    let mut value = Message::new();
    put(&mut value, 0x8A, &code);
    put_bytes_if_there(&mut value, 0x91, auth);
    append(&mut value, scripts);
    finish(out, 0xE2, &value);
}

/// Appends what names a transaction.
fn put_named(out: &mut Message, named: &Named)
    requires room { length out.old.items ≤ 1500 }
    requires account_number { HasPanLength named.now.pan }
    ensures fields { out.new.items ≡ out.old.items ++ spelled (named_fields named.now) }
    ensures read_again { pan_of (pan_field named.now.pan) ≡ Ok named.now.pan }
    ensures sequence { IfSome named.now.t5f34 (λ v. length v ≡ 1) }
    ensures short { length out.new.items ≤ length out.old.items + 114 }
{
    put(out, 0x9F1C, &named.t9f1c);
    put(out, 0x5A, &pan_field(&named.pan));
    put_if_there(out, 0x5F34, &named.t5f34);
}

/// Appends a payment's fields.
fn put_paid(out: &mut Message, paid: &Paid)
    requires room { length out.old.items ≤ 1500 }
    ensures fields { out.new.items ≡ out.old.items ++ spelled (paid_fields paid.now) }
    ensures short { length out.new.items ≤ length out.old.items + 418 }
{
    put(out, 0x9F02, &paid.t9f02);
    put(out, 0x9F03, &paid.t9f03);
    put(out, 0x9F1A, &paid.t9f1a);
    put(out, 0x95, &paid.t95);
    put(out, 0x5F2A, &paid.t5f2a);
    put(out, 0x9A, &paid.t9a);
    put(out, 0x9C, &paid.t9c);
    put(out, 0x9F37, &paid.t9f37);
    put(out, 0x82, &paid.t82);
    put(out, 0x9F36, &paid.t9f36);
    put(out, 0x9F26, &paid.t9f26);
}

/// Appends a field that may be absent.
fn put_if_there<const N: usize>(out: &mut Message, tag: u32, value: &Option<[u8; N]>)
    requires readable { IsTrue (is_readable tag) }
    requires few { N ≤ 32 }
    requires room { length out.old.items ≤ 2000 }
    ensures fields { out.new.items ≡ out.old.items ++ spelled (optional tag value.now) }
    ensures sized { IfSome value.now (λ v. length v ≡ N) }
    ensures short { length out.new.items ≤ length out.old.items + 38 }
{
    if let Some(bytes) = value {
        put(out, tag, bytes);
    }
}

/// Appends a field of any length that may be absent.
fn put_bytes_if_there(out: &mut Message, tag: u32, value: Option<&[u8]>)
    requires readable { IsTrue (is_readable tag) }
    requires few { IfSome value (λ v. length v.now ≤ 32) }
    requires room { length out.old.items ≤ 2000 }
    ensures fields { out.new.items ≡ out.old.items ++ spelled (optional tag (option_map (λ v. v.now) value.entry)) }
    ensures short { length out.new.items ≤ length out.old.items + 38 }
{
    if let Some(bytes) = value {
        put(out, tag, bytes);
    }
}

/// Appends a field.
#[tactic(auto, using(crate::proofs::Sizes::written_short))]
fn put(out: &mut Message, tag: u32, value: &[u8])
    requires readable { IsTrue (is_readable tag) }
    requires few { length value.now ≤ 32 }
    requires room { length out.old.items ≤ 2000 }
    ensures field { out.new.items ≡ out.old.items ++ written tag value.now }
    ensures short { length out.new.items ≤ length out.old.items + 38 }
{
    if write_item(out, Tag(tag), value).is_err() {
        unreachable!();
    }
}

/// Writes the one item that a message is, in place of what `out` holds.
#[tactic(auto, using(crate::proofs::Sizes::written_short))]
fn finish(out: &mut Message, tag: u32, value: &[u8])
    requires readable { IsTrue (is_readable tag) }
    requires room { length value.now ≤ 2042 }
    ensures { out.new.items ≡ written tag value.now }
{
    out.clear();
    if write_item(out, Tag(tag), value).is_err() {
        unreachable!();
    }
}
