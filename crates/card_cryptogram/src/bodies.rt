//! The cryptogram, and the answer that holds it.
ghost use Rattle.std.specs.Prelude.{◌≡◌, ◌∷◌, ◌++◌, ◌+◌, ◌<◌, ◌≤◌, ◌==◌, [], length, IsTrue, Some, if◌then◌else◌};
ghost use Rattle.arrayvec.specs.ArrayVec.{array_vec_len};
ghost use Rattle.ber_tlv.specs.Tag.{is_readable};
ghost use Rattle.ber_tlv.specs.Written.{written};
ghost use Rattle.card_cryptogram.specs.Bodies as spec;

use crate::fields::{TerminalFields, covered};
use app_cryptogram::ac;
use arrayvec::ArrayVec;
use ber_tlv::{Tag, write_item};
use card_keys::session_ac;
use card_state::{AppState, flags};
use emv_dict::Kind;
use triple_des::Key16;

/// The body of an answer, at most 256 bytes.
pub type Body = ArrayVec<u8, 256>;

/// The issuer application data, object 9F10, of a state: its form, the kind, the flags, the count of
/// offline approvals, the PIN tries, and its end.
#[tactic(auto, unfolding(crate::specs::Bodies::iad_of))]
pub fn issuer_data(kind: Kind, state: &AppState) -> [u8; 6]
    ensures { result ≡ spec.iad_of kind state.now }
{
    [
        0x01,
        kind.byte(),
        flags(state),
        state.count,
        state.tries,
        0x01,
    ]
}

/// The application cryptogram of a kind under the card's key (EMV 4.3 Book 2 section 8.1), over what
/// was given, the interchange profile, the counter and the issuer application data of the state.
#[tactic(auto, unfolding(crate::specs::Bodies::cryptogram_of))]
pub fn cryptogram(
    key: &Key16,
    aip: [u8; 2],
    state: &AppState,
    kind: Kind,
    given: &TerminalFields,
) -> [u8; 8]
    ensures { result ≡ spec.cryptogram_of key.now aip state.now kind given.now }
{
    let session = session_ac(key, state.counter);
    ac(
        &session,
        &covered(given, aip, state.counter),
        &issuer_data(kind, state),
    )
}

/// Appends a data object for which there is room.
#[tactic(auto, unfolding(ber_tlv::specs::Written::written))]
pub fn put<const N: usize>(out: &mut ArrayVec<u8, N>, tag: Tag, value: &[u8])
    requires two_bytes { tag.0 < 65536 }
    requires readable { IsTrue (is_readable tag.0) }
    requires short { length value.now < 256 }
    requires room { array_vec_len out.old + 5 + length value.now ≤ N }
    ensures items { out.new.items ≡ out.old.items ++ written tag.0 value.now }
    ensures len { array_vec_len out.new ≤ array_vec_len out.old + 5 + length value.now }
{
    if write_item(out, tag, value).is_err() {
        unreachable!();
    }
}

/// Replaces `out` by these bytes.
pub fn replace(bytes: &[u8], out: &mut Body)
    requires { length bytes.now ≤ 256 }
    ensures { out.new.items ≡ bytes.now }
{
    out.clear();
    if out.try_extend_from_slice(bytes).is_err() {
        unreachable!();
    }
}

/// Appends bytes for which there is room.
fn append<const N: usize>(out: &mut ArrayVec<u8, N>, part: &[u8])
    requires { array_vec_len out.old + length part.now ≤ N }
    ensures items { out.new.items ≡ out.old.items ++ part.now }
    ensures len { array_vec_len out.new ≡ array_vec_len out.old + length part.now }
{
    if out.try_extend_from_slice(part).is_err() {
        unreachable!();
    }
}

/// Replaces `out` by the answer in format 1: the values alone, one behind another.
#[tactic(auto, unfolding(crate::specs::Bodies::body_one))]
fn write_one(kind: Kind, counter: u16, cryptogram: [u8; 8], iad: [u8; 6], out: &mut Body)
    ensures { out.new.items ≡ spec.body_one kind counter cryptogram iad }
{
    let mut value: ArrayVec<u8, 17> = ArrayVec::new();
    append(&mut value, &[kind.byte()]);
    append(&mut value, &counter.to_be_bytes());
    append(&mut value, &cryptogram);
    append(&mut value, &iad);
    out.clear();
    put(out, Tag(0x80), value.as_slice());
}

/// Replaces `out` by the answer in format 2: an object for each value.
#[tactic(auto, unfolding(crate::specs::Bodies::body_two))]
fn write_two(kind: Kind, counter: u16, cryptogram: [u8; 8], iad: [u8; 6], out: &mut Body)
    ensures { out.new.items ≡ spec.body_two kind counter cryptogram iad }
{
    let mut value: ArrayVec<u8, 64> = ArrayVec::new();
    put(&mut value, Tag(0x9f27), &[kind.byte()]);
    put(&mut value, Tag(0x9f36), &counter.to_be_bytes());
    put(&mut value, Tag(0x9f26), &cryptogram);
    put(&mut value, Tag(0x9f10), &iad);
    out.clear();
    put(out, Tag(0x77), value.as_slice());
}

/// Replaces `out` by the body of the answer that holds a cryptogram, in format 1 or 2 (EMV 4.3 Book 3
/// section 6.5.5.4). The kind and the cryptogram are read back at their places.
pub fn write_body(format: u8, state: &AppState, kind: Kind, cryptogram: [u8; 8], out: &mut Body)
    ensures body { out.new.items ≡ spec.body_with format state.now kind cryptogram }
    ensures kind { spec.kind_in format out.new.items ≡ Some kind }
    ensures cryptogram { spec.cryptogram_in format out.new.items ≡ cryptogram }
{
    let iad = issuer_data(kind, state);
    if format == 1 {
        write_one(kind, state.counter, cryptogram, iad, out);
    } else {
        write_two(kind, state.counter, cryptogram, iad, out);
    }
}
