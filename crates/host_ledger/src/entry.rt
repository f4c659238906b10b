ghost use Rattle.std.specs.Prelude.{◌≡◌};
ghost use Rattle.host_ledger.specs.Entries.{amount_taken};

use crate::key::Key;

/// How far a transaction has come.
#[derive(Clone, Copy, PartialEq, Eq, Debug)]
pub enum EntryState {
    /// Authorised: the amount is taken from the balance until it is booked or released.
    Held,
    /// Presented: the amount is taken from the balance for good.
    Booked,
    /// Reversed: the amount is not taken from the balance.
    Released,
}

/// What the ledger keeps of a transaction.
#[derive(Drop, PartialEq, Eq, Debug)]
pub struct Entry {
    pub key: Key,
    /// In the least unit of the account's currency, at most 12 digits.
    pub amount: u64,
    pub state: EntryState,
}

impl Entry {
    /// What it takes from the balance of its account.
    pub(crate) fn taken(&self) -> u64
        ensures { result ≡ amount_taken self.now.state self.now.amount }
    {
        match self.state {
            EntryState::Held | EntryState::Booked => self.amount,
            EntryState::Released => 0,
        }
    }
}
