ghost use Rattle.std.specs.Prelude.{MatchResult, Some, None, ◌≡◌, ◌↔◌, ◌<◌, ◌≤◌, ◌-◌, length, drop, IfOk, IsErrOf, IsOk};
ghost use Rattle.std.specs.Int.{from_be_bytes, w16};
ghost use Rattle.apdu_core.specs.Response.{response_bytes, response_of};
ghost use Rattle.apdu_core.specs.Seen.{seen_response};

use crate::ApduFault;
use arrayvec::ArrayVec;
use ber_tlv::append;

/// The bytes of a response: at most 256 body bytes and the status.
pub type Answer = ArrayVec<u8, 258>;

/// An answer of the card (ISO/IEC 7816-4 section 5.1).
#[derive(Clone, Copy, PartialEq, Eq, Debug)]
pub struct Response<'a> {
    /// The body, of at most 256 bytes; empty where there is none.
    pub body: &'a [u8],
    /// SW1 SW2 as one number, as 0x9000.
    pub status: u16,
}

/// Reads a response from all of `bytes`: a body of at most 256 bytes, then the status. Fewer than
/// two bytes are `Short`, more than 258 `LengthMismatch`.
#[tactic(auto, unfolding(crate::specs::Response::response_of))]
pub fn read_response(bytes: &[u8]) -> Result<Response<'_>, ApduFault>
    ensures exact { MatchResult result (λ response. response_of bytes.now ≡ Some (seen_response response)) (λ _. response_of bytes.now ≡ None) }
    ensures spelled { IfOk result (λ response. response_bytes response.body.now response.status ≡ bytes.now) }
    // The status is the number of the last two bytes, the high one first.
    ensures status { IfOk result (λ response. response.status ≡ from_be_bytes w16 (drop (length bytes.now - 2) bytes.now)) }
    ensures fits { IfOk result (λ response. length response.body.now ≤ 256) }
    ensures short { IsErrOf result ApduFault.Short ↔ (length bytes.now < 2) }
    ensures mismatch { IsErrOf result ApduFault.LengthMismatch ↔ (258 < length bytes.now) }
{
    if bytes.len() > 258 {
        return Err(ApduFault::LengthMismatch);
    }
    let [body @ .., high, low] = bytes else {
        return Err(ApduFault::Short);
    };
    Ok(Response {
        body,
        status: u16::from(*high) * 256 + u16::from(*low),
    })
}

/// Writes a response's bytes to `out`, in place of what it held.
pub fn write_response(response: &Response<'_>, out: &mut Answer)
    requires { length response.now.body.now ≤ 256 }
    ensures written { out.new.items ≡ response_bytes response.now.body.now response.now.status }
    ensures read_again { response_of out.new.items ≡ Some (seen_response response.now) }
{
    out.clear();
    append(out, response.body);
    out.push((response.status / 256) as u8);
    out.push((response.status % 256) as u8);
}
