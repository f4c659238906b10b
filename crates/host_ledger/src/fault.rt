ghost use Rattle.std.specs.Prelude.{◌≡◌};
ghost use Rattle.host_ledger.specs.declared.fault.LedgerFault.TheVariants.{OutOfMemory};

use crate::entry::Entry;
use std::alloc::AllocError;

/// Why the ledger refuses.
#[derive(Drop, PartialEq, Eq, Debug)]
pub enum LedgerFault {
    /// This account, counted from 0, is the first whose account number an earlier one has.
    SamePan(usize),
    /// No account has the account number.
    UnknownAccount,
    /// The transaction has this entry already.
    AlreadyBooked(Entry),
    /// The amount is above this balance.
    NoFunds(i128),
    OutOfMemory,
}

impl From<AllocError> for LedgerFault {
    ghost from_gives = { λ _ fault. fault ≡ OutOfMemory };

    fn from(_error: AllocError) -> LedgerFault {
        LedgerFault::OutOfMemory
    }
}
