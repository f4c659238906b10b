ghost use Rattle.std.specs.Prelude.{◌≡◌};
ghost use Rattle.card_keys.specs.Session.{session_key_of, session_ac_of, session_script_of};

use crate::joining::join;
use triple_des::Key16;

/// The session key for application cryptograms: R is the Application Transaction Counter (9F36), its
/// high byte first, and six zero bytes (EMV 4.3 Book 2 Annex A1.3).
pub fn session_ac(master: &Key16, counter: u16) -> Key16
    ensures { result ≡ session_ac_of master.now counter }
{
    let mut r = [0; 8];
    r[..2].copy_from_slice(&counter.to_be_bytes());
    session_key(master, r)
}

/// The session key for script commands: R is the first application cryptogram of the transaction (EMV
/// 4.3 Book 2 Annex A1.3).
pub fn session_script(master: &Key16, r: [u8; 8]) -> Key16
    ensures { result ≡ session_script_of master.now r }
{
    session_key(master, r)
}

/// Enciphers R with F0 as its third byte for the left half, and with 0F for the right half.
#[tactic(auto, unfolding(crate::specs::Session::session_key_of))]
fn session_key(master: &Key16, r: [u8; 8]) -> Key16
    ensures { result ≡ session_key_of master.now r }
{
    let mut left = r;
    left[2] = 0xf0;
    let mut right = r;
    right[2] = 0x0f;
    Key16::new(join(master.encipher(left), master.encipher(right)))
}
