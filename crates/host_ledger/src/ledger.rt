ghost use Rattle.std.specs.Prelude.{◌≡◌, ◌≤◌, ◌+ℤ◌, ◌-ℤ◌, ◌≤ℤ◌, pos, negsuc, map, length, [], Some, None, Err, IfOk, IfErr, OnOk, OnErr, IsSome};
ghost use Rattle.std.specs.List.{All, list_any};
ghost use Rattle.std.specs.Str.{bytes_eq};
ghost use Rattle.emv_dict.specs.Settings.{most_amount};
ghost use Rattle.host_ledger.specs.Account.{account_at, with_opening_balance, AreBalanced};
ghost use Rattle.host_ledger.specs.Accounts.{balance_of, AreDistinctBelow, RefusesAccounts, KeepsEntry};
ghost use Rattle.host_ledger.specs.Entries.{entry_at, with_entry};
ghost use Rattle.host_ledger.specs.Refusals.{AnswersRefusal, hold_refusal, settle_refusal, settled_entry};
ghost use Rattle.host_ledger.specs.declared.fault.LedgerFault.TheVariants.{OutOfMemory};
ghost use Rattle.host_ledger.specs.declared.entry.EntryState.TheVariants.{Held, Booked, Released};

use crate::accounts::{Account, Accounts};
use crate::entry::{Entry, EntryState};
use crate::fault::LedgerFault;
use crate::keep::keep;
use crate::key::Key;
use crate::rows::Rows;
use emv_dict::Digits;
use std::alloc::Global;
use std::marker::Model;

/// The accounts of an issuer and the entries of their transactions. Contracts see the account numbers
/// with their opening balances, and the entries, each in the order in which they came.
#[derive(Drop)]
pub struct Ledger {
    accounts: Accounts,
    rows: Rows,
}

impl Model for Ledger {
    ghost use Rattle.std.specs.Prelude.{map};
    ghost use Rattle.host_ledger.specs.Account.{with_opening_balance, AreBalanced};
    ghost use Rattle.host_ledger.specs.Accounts.{LedgerData};

    ghost Value = { LedgerData };

    ghost view = { λ l. record { accounts = map with_opening_balance l.accounts; entries = l.rows } };

    ghost invariant = { λ l. AreBalanced l.accounts l.rows };
}

impl Ledger {
    /// A ledger of these account numbers with their opening balances, each at most 12 digits in the least
    /// unit of its currency, and no entries. `SamePan` comes exactly where an account number stands twice,
    /// also where memory is wanting, and has the place, from 0, of the first account whose number an
    /// earlier one has.
    pub fn new(alloc: Global, accounts: Vec<(Digits, u64)>) -> Result<Ledger, LedgerFault>
        requires { All (λ account. account.1 ≤ most_amount) accounts.items }
        ensures ok { IfOk result (λ ledger. ledger ≡ record { accounts = accounts.items; entries = [] }) }
        ensures distinct { OnOk result (AreDistinctBelow accounts.items (length accounts.items)) }
        ensures refused { IfErr result (RefusesAccounts accounts.items) }
    {
        let mut opened = Accounts::new(alloc);
        for (place, account) in accounts.iter().enumerate() {
            if opened.get(&account.0).is_some() {
                return Err(LedgerFault::SamePan(place));
            }
            let entry = Account {
                opening: account.1,
                balance: i128::from(account.1),
            };
            let Ok(()) = opened.put(account.0.copy(), entry) else {
                return Err(without_memory(accounts.as_slice()));
            };
        }
        Ok(Ledger {
            accounts: opened,
            rows: Rows::new(alloc),
        })
    }

    /// The balance of an account number, `None` where no account has it: the opening balance less the
    /// amounts of the held and booked entries. A booking may take it below zero.
    pub fn balance(&self, pan: &Digits) -> Option<i128>
        ensures { result ≡ balance_of pan.now self.now }
    {
        let account = self.accounts.get(pan)?;
        Some(account.balance)
    }

    /// Holds an amount of at most 12 digits for a transaction. Refused, the first that applies:
    /// `UnknownAccount` exactly where no account has the account number; `AlreadyBooked` exactly where the
    /// transaction has an entry; `NoFunds` exactly where the amount is above the balance; `OutOfMemory`.
    /// After a refusal nothing has changed.
    pub fn hold(&mut self, key: &Key, amount: u64) -> Result<(), LedgerFault>
        requires { amount ≤ most_amount }
        ensures refused { AnswersRefusal result (hold_refusal (balance_of key.now.pan self.old) (entry_at key.now self.old.entries) amount) }
        ensures ok { OnOk result (KeepsEntry (record { key = key.now; amount = amount; state = Held }) self.old self.new) }
        ensures err { OnErr result (self.new ≡ self.old) }
    {
        let Some(account) = self.accounts.get(&key.pan) else {
            return Err(LedgerFault::UnknownAccount);
        };
        if let Some(entry) = self.rows.get(key) {
            return Err(LedgerFault::AlreadyBooked(entry));
        }
        if account.balance < i128::from(amount) {
            return Err(LedgerFault::NoFunds(account.balance));
        }
        let entry = Entry {
            key: key.copy(),
            amount,
            state: EntryState::Held,
        };
        keep(&mut self.accounts, &mut self.rows, account, entry)?;
        Ok(())
    }

    /// Books an amount of at most 12 digits for a transaction, in place of what is held for it. Refused,
    /// the first that applies: `UnknownAccount` exactly where no account has the account number;
    /// `AlreadyBooked` exactly where the transaction's entry is booked or released; `OutOfMemory`, only
    /// where it has no entry. After a refusal nothing has changed.
    pub fn book(&mut self, key: &Key, amount: u64) -> Result<(), LedgerFault>
        requires { amount ≤ most_amount }
        ensures refused { AnswersRefusal result (settle_refusal (balance_of key.now.pan self.old) (entry_at key.now self.old.entries)) }
        // Only a transaction without an entry needs memory.
        ensures memory { result ≡ Err OutOfMemory → entry_at key.now self.old.entries ≡ None }
        ensures ok { OnOk result (KeepsEntry (record { key = key.now; amount = amount; state = Booked }) self.old self.new) }
        ensures err { OnErr result (self.new ≡ self.old) }
    {
        self.settle(Entry {
            key: key.copy(),
            amount,
            state: EntryState::Booked,
        })
    }

    /// Releases what is held for a transaction, and keeps an entry of this amount, of at most 12 digits.
    /// Refused as `book` is. After a refusal nothing has changed.
    pub fn release(&mut self, key: &Key, amount: u64) -> Result<(), LedgerFault>
        requires { amount ≤ most_amount }
        ensures refused { AnswersRefusal result (settle_refusal (balance_of key.now.pan self.old) (entry_at key.now self.old.entries)) }
        // Only a transaction without an entry needs memory.
        ensures memory { result ≡ Err OutOfMemory → entry_at key.now self.old.entries ≡ None }
        ensures ok { OnOk result (KeepsEntry (record { key = key.now; amount = amount; state = Released }) self.old self.new) }
        ensures err { OnErr result (self.new ≡ self.old) }
    {
        self.settle(Entry {
            key: key.copy(),
            amount,
            state: EntryState::Released,
        })
    }

    /// Keeps an entry where its transaction has none or a held one.
    fn settle(&mut self, entry: Entry) -> Result<(), LedgerFault>
        requires { entry.amount ≤ most_amount }
        ensures refused { AnswersRefusal result (settle_refusal (balance_of entry.key.pan self.old) (entry_at entry.key self.old.entries)) }
        ensures memory { result ≡ Err OutOfMemory → entry_at entry.key self.old.entries ≡ None }
        ensures ok { OnOk result (KeepsEntry entry self.old self.new) }
        ensures err { OnErr result (self.new ≡ self.old) }
    {
        let Some(account) = self.accounts.get(&entry.key.pan) else {
            return Err(LedgerFault::UnknownAccount);
        };
        if let Some(kept) = settled(self.rows.get(&entry.key)) {
            return Err(LedgerFault::AlreadyBooked(kept));
        }
        keep(&mut self.accounts, &mut self.rows, account, entry)?;
        Ok(())
    }
}

/// Why no ledger is made where memory is wanting: a repeat comes first, wherever memory ended.
fn without_memory(accounts: &[(Digits, u64)]) -> LedgerFault
    ensures { RefusesAccounts accounts.now result }
{
    for place in 0..accounts.len() {
        if has_pan(&accounts[..place], &accounts[place].0) {
            return LedgerFault::SamePan(place);
        }
    }
    LedgerFault::OutOfMemory
}

/// Whether one of the accounts has an account number.
fn has_pan(accounts: &[(Digits, u64)], pan: &Digits) -> bool
    ensures { result ≡ list_any (λ account. bytes_eq pan.now account.0) accounts.now }
{
    accounts.iter().any(|account| *pan == account.0)
}

/// The entry where it is booked or released.
fn settled(kept: Option<Entry>) -> Option<Entry>
    ensures { result ≡ settled_entry kept }
{
    let entry = kept?;
    match entry.state {
        EntryState::Held => None,
        EntryState::Booked | EntryState::Released => Some(entry),
    }
}
