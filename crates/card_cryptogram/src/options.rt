//! The answer to GET PROCESSING OPTIONS.
ghost use Rattle.std.specs.Prelude.{◌≡◌, ◌≤◌, ◌++◌, [], length, IsTrue, false, nat_le};
ghost use Rattle.ber_tlv.specs.Written.{written};
ghost use Rattle.card_cryptogram.specs.Options as spec;

use crate::bodies::{Body, put};
use arrayvec::ArrayVec;
use ber_tlv::{Tag, write_item};

/// Appends the profile and the locator alone, format 1.
fn write_alone(aip: [u8; 2], afl: &[u8], out: &mut Body) -> bool
    requires empty { out.old.items ≡ [] }
    requires afl { length afl.now ≤ 248 }
    ensures fits { result ≡ nat_le (length (written 0x80 (aip ++ afl.now))) 256 }
    ensures body { IsTrue result → out.new.items ≡ written 0x80 (aip ++ afl.now) }
    ensures none { result ≡ false → out.new.items ≡ [] }
{
    let mut value: ArrayVec<u8, 250> = ArrayVec::new();
    if value.try_extend_from_slice(&aip).is_err() {
        unreachable!();
    }
    if value.try_extend_from_slice(afl).is_err() {
        unreachable!();
    }
    write_item(out, Tag(0x80), value.as_slice()).is_ok()
}

/// Appends the profile and the locator each as an object, format 2.
fn write_each(aip: [u8; 2], afl: &[u8], out: &mut Body) -> bool
    requires empty { out.old.items ≡ [] }
    requires afl { length afl.now ≤ 248 }
    ensures fits { result ≡ nat_le (length (written 0x77 (written 0x82 aip ++ written 0x94 afl.now))) 256 }
    ensures body { IsTrue result → out.new.items ≡ written 0x77 (written 0x82 aip ++ written 0x94 afl.now) }
    ensures none { result ≡ false → out.new.items ≡ [] }
{
    let mut value: ArrayVec<u8, 264> = ArrayVec::new();
    put(&mut value, Tag(0x82), &aip);
    put(&mut value, Tag(0x94), afl);
    write_item(out, Tag(0x77), value.as_slice()).is_ok()
}

/// Appends the body of the answer to GET PROCESSING OPTIONS, in format 1 or 2 (EMV 4.3 Book 3 section
/// 6.5.8.4): the application interchange profile and the application file locator. Where it has more
/// than 256 bytes nothing is appended.
#[tactic(auto, unfolding(crate::specs::Options::options_body))]
pub fn write_options(format: u8, aip: [u8; 2], afl: &[u8], out: &mut Body) -> bool
    requires empty { out.old.items ≡ [] }
    requires afl { length afl.now ≤ 248 }
    ensures fits { result ≡ nat_le (length (spec.options_body format aip afl.now)) 256 }
    ensures body { IsTrue result → out.new.items ≡ spec.options_body format aip afl.now }
    ensures none { result ≡ false → out.new.items ≡ [] }
{
    if format == 1 {
        write_alone(aip, afl, out)
    } else {
        write_each(aip, afl, out)
    }
}
