//! The issuer's script commands by their codes (EMV 4.3 Book 3 sections 6.5.1 to 6.5.3 and 6.5.10).
ghost use Rattle.std.specs.Prelude.{◌≡◌, ◌≤◌, length, take};
ghost use Rattle.std.specs.List.{list_all};
ghost use Rattle.emv_dict.specs.Bcd.{has_digits as is_digits};
ghost use Rattle.card_cryptogram.specs.ScriptHeaders as spec;

use card_state::Scripted;
use emv_dict::{amount_of, has_digits};

/// What a script command is, by its instruction and P1 P2.
#[derive(Clone, Copy, PartialEq, Eq, Debug)]
pub enum ScriptCommand {
    /// APPLICATION BLOCK, 84 1E 00 00.
    BlockApp,
    /// APPLICATION UNBLOCK, 84 18 00 00.
    UnblockApp,
    /// CARD BLOCK, 84 16 00 00.
    BlockCard,
    /// PIN CHANGE/UNBLOCK that restores the tries, 84 24 00 00.
    UnblockPin,
    /// PIN CHANGE/UNBLOCK with a new PIN, 84 24 00 02.
    ChangePin,
    /// PUT DATA of the limit of consecutive offline approvals, 04 DA DF 01.
    LimitCount,
    /// PUT DATA of the limit of their amounts, 04 DA DF 02.
    LimitSum,
}

/// An order whose P1 P2 are zero.
pub fn plain_order(order: ScriptCommand, p1: u8, p2: u8) -> Option<ScriptCommand>
    ensures { result ≡ spec.plain_order order p1 p2 }
{
    match (p1, p2) {
        (0x00, 0x00) => Some(order),
        _ => None,
    }
}

/// The order of PIN CHANGE/UNBLOCK with these P1 P2.
pub fn pin_order(p1: u8, p2: u8) -> Option<ScriptCommand>
    ensures { result ≡ spec.pin_order p1 p2 }
{
    match (p1, p2) {
        (0x00, 0x00) => Some(ScriptCommand::UnblockPin),
        (0x00, 0x02) => Some(ScriptCommand::ChangePin),
        _ => None,
    }
}

/// The order of PUT DATA with these P1 P2.
pub fn limit_order(p1: u8, p2: u8) -> Option<ScriptCommand>
    ensures { result ≡ spec.limit_order p1 p2 }
{
    match (p1, p2) {
        (0xdf, 0x01) => Some(ScriptCommand::LimitCount),
        (0xdf, 0x02) => Some(ScriptCommand::LimitSum),
        _ => None,
    }
}

/// How many bytes of data an order has, with the code of eight bytes at their end.
pub fn size_of(order: ScriptCommand) -> usize
    ensures size { result ≡ spec.size_of order }
    ensures code { 8 ≤ result }
{
    match order {
        ScriptCommand::BlockApp
        | ScriptCommand::UnblockApp
        | ScriptCommand::BlockCard
        | ScriptCommand::UnblockPin => 8,
        ScriptCommand::ChangePin => 16,
        ScriptCommand::LimitCount => 9,
        ScriptCommand::LimitSum => 14,
    }
}

/// Whether each byte has two decimal digits.
fn are_digits(bytes: &[u8]) -> bool
    ensures { result ≡ list_all is_digits bytes.now }
{
    bytes.iter().all(|byte| has_digits(*byte))
}

/// The new limit of the sum, where its six bytes are digits.
pub fn limit_to(body: &[u8]) -> Option<Scripted>
    requires { length body.now ≡ 14 }
    ensures { result ≡ spec.limit_to (take 6 body.now) }
{
    let mut digits = [0; 6];
    digits.copy_from_slice(&body[..6]);
    if are_digits(&digits) {
        Some(Scripted::Sum(amount_of(digits)))
    } else {
        None
    }
}
