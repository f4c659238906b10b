ghost use Rattle.std.specs.Prelude.{◌≡◌, ◌≤◌, [], ◌++◌, length};
ghost use Rattle.std.specs.Int.{to_be_bytes, w16};
ghost use Rattle.app_cryptogram.specs.Cryptograms.{ac_of, arpc_of, arpc_two_of, script_mac_of};

use crate::fields::AcFields;
use crate::joining::put;
use triple_des::{Key16, mac_joined, xor_blocks};

/// The application cryptogram under the session key of the transaction: the message authentication
/// code of the fields and, behind them, the whole issuer application data (9F10) as the card gives it,
/// of any length (EMV 4.3 Book 2 section 8.1).
#[tactic(auto, unfolding(crate::specs::Cryptograms::ac_of))]
pub fn ac(session: &Key16, fields: &AcFields, iad: &[u8]) -> [u8; 8]
    ensures { result ≡ ac_of session.now fields.now iad.now }
{
    mac_joined(session, &fields.bytes(), iad)
}

/// The authorisation response cryptogram by method 1: the request cryptogram, with the two characters
/// of the Authorisation Response Code (8A) added bit by bit to its first two bytes, enciphered under
/// the session key of the transaction (EMV 4.3 Book 2 section 8.2.1).
#[tactic(auto, unfolding(crate::specs::Cryptograms::arpc_of))]
pub fn arpc_one(session: &Key16, arqc: [u8; 8], code: [u8; 2]) -> [u8; 8]
    ensures { result ≡ arpc_of session.now arqc code }
{
    let mut response = [0; 8];
    response[..2].copy_from_slice(&code);
    session.encipher(xor_blocks(arqc, response))
}

/// The authorisation response cryptogram by method 2: the leftmost four bytes of the message
/// authentication code, under the session key of the transaction, of the request cryptogram, the four
/// bytes of the Card Status Update and at most eight bytes of Proprietary Authentication Data behind
/// them (EMV 4.3 Book 2 section 8.2.2).
#[tactic(auto, unfolding(crate::specs::Cryptograms::arpc_two_of))]
pub fn arpc_two(session: &Key16, arqc: [u8; 8], status: [u8; 4], further: &[u8]) -> [u8; 4]
    requires { length further.now ≤ 8 }
    ensures { result ≡ arpc_two_of session.now arqc status further.now }
{
    let mut head = [0; 12];
    put(&mut head, 0, &arqc);
    put(&mut head, 8, &status);
    let [a, b, c, d, ..] = mac_joined(session, &head, further);
    [a, b, c, d]
}

/// The code over a script command under its session key: the message authentication code of the four
/// bytes of its header (class, instruction, P1 and P2), the Application Transaction Counter, the first
/// application cryptogram of the transaction and the command's data (EMV 4.3 Book 2 section 9.2).
#[tactic(auto, unfolding(crate::specs::Cryptograms::script_mac_of))]
pub fn script_mac(
    session: &Key16,
    header: [u8; 4],
    counter: u16,
    cryptogram: [u8; 8],
    payload: &[u8],
) -> [u8; 8]
    ensures { result ≡ script_mac_of session.now header counter cryptogram payload.now }
{
    mac_joined(session, &script_head(header, counter, cryptogram), payload)
}

/// What the code over a script command covers before the command's data.
fn script_head(header: [u8; 4], counter: u16, cryptogram: [u8; 8]) -> [u8; 14]
    ensures { result ≡ header ++ to_be_bytes w16 counter ++ cryptogram }
{
    let mut bytes = [0; 14];
    put(&mut bytes, 0, &header);
    put(&mut bytes, 4, &counter.to_be_bytes());
    put(&mut bytes, 6, &cryptogram);
    bytes
}
