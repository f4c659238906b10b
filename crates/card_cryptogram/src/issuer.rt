//! How EXTERNAL AUTHENTICATE authenticates the issuer (EMV 4.3 Book 2 section 8.2).
ghost use Rattle.std.specs.Prelude.{◌≡◌, ◌≤◌, IsTrue, true, false, length, drop, if◌then◌else◌};
ghost use Rattle.card_state.specs.declared.decision.Auth.TheVariants.{Absent, One, Two};
ghost use Rattle.card_cryptogram.specs.Authentication as spec;

use crate::scripts::block_of;
use app_cryptogram::{arpc_one, arpc_two};
use card_keys::session_ac;
use card_state::{Auth, Steered};
use triple_des::Key16;

/// Whether the data of EXTERNAL AUTHENTICATE may have so many bytes: from 8 to 16.
pub fn is_authentication_size(size: usize) -> bool
    ensures exact { result ≡ spec.is_authentication_size size }
    ensures least { IsTrue result → 8 ≤ size }
    ensures most { IsTrue result → size ≤ 16 }
{
    8 <= size && size <= 16
}

/// How the data of EXTERNAL AUTHENTICATE authenticate the issuer, under the session key of the card's
/// key and of this counter. Ten bytes are data of method 1: the response cryptogram of the first
/// cryptogram and the response code, and that code. Any other number are data of method 2: the response
/// cryptogram of the first cryptogram, the card status update and the proprietary data, and those two.
#[tactic(auto, unfolding(crate::specs::Authentication::authentication))]
pub fn authentication(key: &Key16, counter: u16, first: [u8; 8], body: &[u8]) -> Auth
    requires least { 8 ≤ length body.now }
    requires most { length body.now ≤ 16 }
    ensures exact { result ≡ spec.authentication key.now counter first body.now }
    ensures right { spec.is_authenticated result ≡ true → result ≡ spec.told_by body.now }
    ensures wrong { spec.is_authenticated result ≡ false → result ≡ Absent }
{
    let session = session_ac(key, counter);
    if body.len() == 10 {
        by_code(&session, first, body)
    } else {
        by_status(&session, first, body)
    }
}

/// Method 1: ten bytes.
fn by_code(session: &Key16, first: [u8; 8], body: &[u8]) -> Auth
    requires { length body.now ≡ 10 }
    ensures exact { result ≡ (if spec.is_response_one session.now first body.now then One else Absent) }
    ensures right { spec.is_authenticated result ≡ true → result ≡ One }
    ensures wrong { spec.is_authenticated result ≡ false → result ≡ Absent }
{
    if block_of(&body[..8]) == arpc_one(session, first, code_of(body)) {
        Auth::One
    } else {
        Auth::Absent
    }
}

/// The response code behind the response cryptogram of method 1.
fn code_of(body: &[u8]) -> [u8; 2]
    requires { length body.now ≡ 10 }
    ensures { result ≡ drop 8 body.now }
{
    let mut code = [0; 2];
    code.copy_from_slice(&body[8..]);
    code
}

/// Method 2: eight bytes, and at most eight more of proprietary data.
fn by_status(session: &Key16, first: [u8; 8], body: &[u8]) -> Auth
    requires least { 8 ≤ length body.now }
    requires most { length body.now ≤ 16 }
    ensures exact { result ≡ (if spec.is_response_two session.now first body.now then Two (spec.status_in body.now) else Absent) }
    ensures right { spec.is_authenticated result ≡ true → result ≡ Two (spec.status_in body.now) }
    ensures wrong { spec.is_authenticated result ≡ false → result ≡ Absent }
{
    let (_, further) = body.split_at(8);
    let status = status_of(body);
    if four_of(&body[..4]) == arpc_two(session, first, status, further) {
        Auth::Two(status)
    } else {
        Auth::Absent
    }
}

/// The card status update behind the response cryptogram of method 2.
fn status_of(body: &[u8]) -> [u8; 4]
    requires { 8 ≤ length body.now }
    ensures { result ≡ spec.status_in body.now }
{
    four_of(&body[4..8])
}

/// Four bytes as an array.
fn four_of(bytes: &[u8]) -> [u8; 4]
    requires { length bytes.now ≡ 4 }
    ensures { result ≡ bytes.now }
{
    let mut four = [0; 4];
    four.copy_from_slice(bytes);
    four
}

/// How the issuer was authenticated, where EXTERNAL AUTHENTICATE was sent or not.
pub fn auth_of(sent: Option<Auth>) -> Auth
    ensures { result ≡ spec.auth_of sent }
{
    match sent {
        Some(auth) => auth,
        None => Auth::Absent,
    }
}

/// Whether the issuer was authenticated.
pub fn is_authenticated(auth: Auth) -> bool
    ensures { result ≡ spec.is_authenticated auth }
{
    match auth {
        Auth::Absent => false,
        Auth::One => true,
        Auth::Two(_) => true,
    }
}

/// What a card status update steers, which may restore so many PIN tries; nothing by method 1.
pub fn steered_by(auth: Auth, limit: u8) -> Option<Steered>
    ensures { result ≡ spec.steered_by limit auth }
{
    match auth {
        Auth::Absent => None,
        Auth::One => None,
        Auth::Two(status) => Some(Steered { status, limit }),
    }
}
