//! The cause where an answer's objects can't be read (EMV 4.3 Book 3 sections 6.5.5.4 and 6.5.8.4).
ghost use Rattle.std.specs.Prelude.{◌≡◌};
ghost use Rattle.object_lists.specs.Coding.{coding_cause};

use ber_tlv::{Tag, place_or_zero, template_fault};
use emv_dict::Cause;

/// The cause of an answer's body that isn't of format 2: its first fault, by its place, among the objects of the body
/// and those directly in a template 77, or place 0.
pub fn coding_cause(body: &[u8]) -> Cause
    ensures { result ≡ coding_cause body.now }
{
    Cause::Coding(place_or_zero(template_fault(body, Tag(0x77))))
}
