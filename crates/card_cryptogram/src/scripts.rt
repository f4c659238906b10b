//! What an issuer's script commands hold under session keys.
ghost use Rattle.std.specs.Prelude.{◌≡◌, ◌≤◌, length};
ghost use Rattle.card_cryptogram.specs.Scripts as spec;

use app_cryptogram::script_mac;
use card_keys::session_script;
use triple_des::Key16;

/// Eight bytes as a block.
pub fn block_of(bytes: &[u8]) -> [u8; 8]
    requires { length bytes.now ≡ 8 }
    ensures { result ≡ bytes.now }
{
    let mut block = [0; 8];
    block.copy_from_slice(bytes);
    block
}

/// Whether the last eight bytes of a script command's data are its code (EMV 4.3 Book 2 section 9.2):
/// that of the header, the transaction counter, the first cryptogram and the data before them, under
/// the session key of the card's key for codes.
#[tactic(auto, unfolding(crate::specs::Scripts::has_code))]
pub fn has_code(key: &Key16, first: [u8; 8], counter: u16, header: [u8; 4], body: &[u8]) -> bool
    requires { 8 ≤ length body.now }
    ensures { result ≡ spec.has_code key.now first counter header body.now }
{
    let (payload, code) = body.split_at(body.len() - 8);
    let session = session_script(key, first);
    block_of(code) == script_mac(&session, header, counter, first, payload)
}

/// The block that is enciphered in the first eight bytes of a script command's data (EMV 4.3 Book 2
/// section 9.3), under the session key of the card's key for enciphered data.
#[tactic(auto, unfolding(crate::specs::Scripts::block_in))]
pub fn block_in(key: &Key16, first: [u8; 8], body: &[u8]) -> [u8; 8]
    requires { 8 ≤ length body.now }
    ensures { result ≡ spec.block_in key.now first body.now }
{
    session_script(key, first).decipher(block_of(&body[..8]))
}
