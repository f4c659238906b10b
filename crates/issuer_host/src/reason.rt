ghost use Rattle.std.specs.Prelude.{◌≡◌};
ghost use Rattle.issuer_host.specs.Reasons.{code_of_reason};

use crate::code::Code;
use auth_message::MessageFault;

/// Why the host replies to a message as it does. Of several reasons it is the first, in the order in which
/// the rules are tried: of a request that of these variants, of a presentment the cryptogram, the currency
/// and the reversal. Amounts are in the least unit of the account's currency.
#[derive(Clone, Copy, PartialEq, Eq, Debug)]
pub enum Reason {
    /// 05: the bytes are no message, for this first fault.
    Unreadable { fault: MessageFault },
    /// A message of this kind and transaction was kept with the same bytes: the kept reply comes again, with
    /// its code.
    Repeat,
    /// 05: a message of this kind and transaction was kept with other bytes.
    OtherBytes,
    /// 14: no account has the account number (5A).
    UnknownAccount,
    /// 05: the cryptogram (9F26) of the request or the presentment is not the card's.
    WrongCryptogram,
    /// 05: each request of the account is declined.
    Blocked,
    /// 05: the currency (5F2A) of the request or the presentment is not the account's.
    OtherCurrency { message: [u8; 2], account: [u8; 2] },
    /// 05: to a request, a reversal of its transaction was kept; to a presentment, one was approved.
    Reversed,
    /// 05: to a request, a presentment of its transaction was kept; to a reversal, one was approved.
    Presented,
    /// 54: the application expired (5F24) before the day of the transaction (9A), both of six digits.
    Expired { expiry: [u8; 3], day: [u8; 3] },
    /// 55: the PIN that the terminal sent is not the account's.
    WrongPin,
    /// 51: the amount (9F02) is above the balance.
    AboveBalance { amount: u64, balance: i128 },
    /// 00: the request's amount (9F02) is held.
    Approved { amount: u64 },
    /// 00: the presentment's amount (9F02) is booked, in place of the held one where the request was approved.
    Settled { amount: u64, held: Option<u64> },
    /// 00: the reversal releases the amount of the approved request.
    Released { amount: u64 },
    /// 00: the reversal releases nothing, since no request of its transaction was approved.
    NothingHeld,
}

impl Reason {
    /// The code of a reply with this reason, `None` for a repeat, which has the code of the kept reply.
    pub fn code(self) -> Option<Code>
        ensures { result ≡ code_of_reason self }
    {
        match self {
            Reason::Repeat => None,
            Reason::UnknownAccount => Some(Code::UnknownAccount),
            Reason::Expired { .. } => Some(Code::Expired),
            Reason::WrongPin => Some(Code::WrongPin),
            Reason::AboveBalance { .. } => Some(Code::NoFunds),
            Reason::Approved { .. } => Some(Code::Approved),
            Reason::Settled { .. } => Some(Code::Approved),
            Reason::Released { .. } => Some(Code::Approved),
            Reason::NothingHeld => Some(Code::Approved),
            _ => Some(Code::Declined),
        }
    }
}
