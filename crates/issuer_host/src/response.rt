//! The issuer authentication data (91) of a reply (EMV 4.3 Book 2 section 8.2).
ghost use Rattle.std.specs.Prelude.{◌≡◌, ◌≤◌, ◌+◌, ◌++◌, length, IsTrue};
ghost use Rattle.issuer_host.specs.Account.{is_status};
ghost use Rattle.issuer_host.specs.Response.{status_for, response_by};

use crate::account::{Account, Method};
use crate::code::Code;
use app_cryptogram::{arpc_one, arpc_two};
use arrayvec::ArrayVec;
use ber_tlv::append;
use triple_des::Key16;

/// Issuer authentication data: ten bytes by method 1, eight by method 2.
pub type IssuerData = ArrayVec<u8, 10>;

/// Bit 8 of the first status byte: approved.
const APPROVED: u8 = 0x80;

/// Bit 8 of the second status byte: the card resets its totals.
const RESET_TOTALS: u8 = 0x80;

/// The issuer authentication data for a request cryptogram, by the account's method.
pub fn issuer_data(session: &Key16, account: &Account, arqc: [u8; 8], code: Code) -> IssuerData
    requires { IsTrue (is_status account.now.status) }
    ensures bytes { result.items ≡ response_by account.now.arpc account.now.status session.now arqc code }
    ensures least { 8 ≤ length result.items }
    ensures most { length result.items ≤ 10 }
{
    match account.arpc {
        Method::One => joined(&arpc_one(session, arqc, code.bytes()), &code.bytes()),
        Method::Two => {
            let status = status_bytes(account.status, code);
            joined(&arpc_two(session, arqc, status, &[]), &status)
        }
    }
}

/// The status bytes of method 2.
#[tactic(auto, using(crate::proofs::Responses::status_small))]
fn status_bytes(status: u8, code: Code) -> [u8; 4]
    requires { IsTrue (is_status status) }
    ensures { result ≡ status_for status code }
{
    if code.is_approved() {
        [APPROVED, RESET_TOTALS + status, 0, 0]
    } else {
        [0, status, 0, 0]
    }
}

/// A response cryptogram with what stands behind it.
fn joined(cryptogram: &[u8], behind: &[u8]) -> IssuerData
    requires { length cryptogram.now + length behind.now ≤ 10 }
    ensures { result.items ≡ cryptogram.now ++ behind.now }
{
    let mut bytes = IssuerData::new();
    append(&mut bytes, cryptogram);
    append(&mut bytes, behind);
    bytes
}
