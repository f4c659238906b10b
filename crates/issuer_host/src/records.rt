//! The messages that the host keeps, and the ledger that goes with them.
ghost use Rattle.std.specs.Prelude.{◌≡◌, ◌≤◌, [], ◌∷◌, ◌++◌, None, Some, IsSome, IfOk, IfErr, OnOk, OnErr, option_map, true, false, not, length};
ghost use Rattle.std.specs.List.{All};
ghost use Rattle.emv_dict.specs.Settings.{most_amount};
ghost use Rattle.host_ledger.specs.Accounts.{RefusesAccounts, AreDistinctBelow, opening_balance_of, balance_of, KeepsEntry};
ghost use Rattle.host_ledger.specs.Entries.{entry_at};
ghost use Rattle.host_ledger.specs.Refusals.{hold_refusal, settle_refusal};
ghost use Rattle.host_ledger.specs.declared.entry.EntryState.TheVariants.{Held, Booked, Released};
ghost use Rattle.issuer_host.specs.Balance.{is_booked, is_released};
ghost use Rattle.host_ledger.specs.declared.key.Key.{Key};
ghost use Rattle.issuer_host.specs.Books.{no_books, kept_at, was_approved};
ghost use Rattle.issuer_host.specs.Code.{is_approved};
ghost use Rattle.issuer_host.specs.Keeping.{kept_message};
ghost use Rattle.issuer_host.specs.Records.{is_open, balance_left};

use crate::keeping::{Keeping, KeptMessage};
use emv_dict::Digits;
use host_ledger::{Key, Ledger, LedgerFault};
use std::alloc::{AllocError, Global};
use std::marker::Model;

/// The kept messages of each kind, with the ledger of what the approved ones hold, book and release.
/// Contracts see the accounts with their opening balances, and the kept messages.
#[derive(Drop)]
pub struct Records {
    ledger: Ledger,
    requests: Keeping,
    presentments: Keeping,
    reversals: Keeping,
}

impl Model for Records {
    ghost use Rattle.issuer_host.specs.Records.{RecordsData, LedgerAgrees};

    ghost Value = { RecordsData };

    ghost view = { λ r. record {
      accounts = r.ledger.accounts;
      books = record { requests = r.requests; presentments = r.presentments; reversals = r.reversals };
    } };

    ghost invariant = { λ r. LedgerAgrees (record { requests = r.requests; presentments = r.presentments; reversals = r.reversals }) r.ledger.entries };
}

impl Records {
    /// No messages, and these account numbers with their opening balances.
    pub fn new(alloc: Global, accounts: Vec<(Digits, u64)>) -> Result<Records, LedgerFault>
        requires { All (λ account. account.1 ≤ most_amount) accounts.items }
        ensures ok { IfOk result (λ records. records ≡ record { accounts = accounts.items; books = no_books }) }
        ensures distinct { OnOk result (AreDistinctBelow accounts.items (length accounts.items)) }
        ensures refused { IfErr result (RefusesAccounts accounts.items) }
    {
        let ledger = Ledger::new(alloc, accounts)?;
        Ok(Records {
            ledger,
            requests: Keeping::new(alloc),
            presentments: Keeping::new(alloc),
            reversals: Keeping::new(alloc),
        })
    }

    /// The balance of an account number, `None` where no account has it.
    pub fn balance(&self, pan: &Digits) -> Option<i128>
        ensures { result ≡ balance_left self.now pan.now }
    {
        self.ledger.balance(pan)
    }

    /// The kept request of a transaction.
    pub fn request(&self, key: &Key) -> Option<&KeptMessage>
        ensures { option_map (λ kept. kept_message key.now kept.now) result ≡ kept_at key.now self.now.books.requests }
    {
        self.requests.get(key)
    }

    /// The kept presentment of a transaction.
    pub fn presentment(&self, key: &Key) -> Option<&KeptMessage>
        ensures { option_map (λ kept. kept_message key.now kept.now) result ≡ kept_at key.now self.now.books.presentments }
    {
        self.presentments.get(key)
    }

    /// The kept reversal of a transaction.
    pub fn reversal(&self, key: &Key) -> Option<&KeptMessage>
        ensures { option_map (λ kept. kept_message key.now kept.now) result ≡ kept_at key.now self.now.books.reversals }
    {
        self.reversals.get(key)
    }

    /// Whether a presentment of the transaction was approved.
    pub fn is_booked(&self, key: &Key) -> bool
        ensures { result ≡ is_booked self.now.books key.now }
    {
        was_approved(self.presentment(key))
    }

    /// Whether a reversal of the transaction was approved.
    pub fn is_released(&self, key: &Key) -> bool
        ensures { result ≡ is_released self.now.books key.now }
    {
        was_approved(self.reversal(key))
    }

    /// Keeps the first request of a transaction. An approved one holds its amount.
    pub fn keep_request(&mut self, key: &Key, kept: KeptMessage) -> Result<(), AllocError>
        requires new { kept_at key.now self.old.books.requests ≡ None }
        requires small { kept.amount ≤ most_amount }
        requires held { is_approved kept.code ≡ true → is_open self.old key.now kept.amount ≡ true }
        ensures ok { OnOk result (self.new ≡ record { accounts = self.old.accounts; books = record self.old.books { requests = self.old.books.requests ++ kept_message key.now kept ∷ [] } }) }
        ensures err { OnErr result (self.new ≡ self.old) }
    {
        let amount = kept.amount;
        let approved = kept.code.is_approved();
        self.requests.put(key.copy(), kept)?;
        if !approved {
            return Ok(());
        }
        match hold(&mut self.ledger, key, amount) {
            Ok(()) => return Ok(()),
            Err(_) => {}
        }
        self.requests.forget_last();
        Err(AllocError)
    }

    /// Keeps the first presentment of a transaction. An approved one books its amount in place of the held
    /// one.
    pub fn keep_presentment(&mut self, key: &Key, kept: KeptMessage) -> Result<(), AllocError>
        requires new { kept_at key.now self.old.books.presentments ≡ None }
        requires small { kept.amount ≤ most_amount }
        requires known { is_approved kept.code ≡ true → IsSome (balance_left self.old key.now.pan) }
        requires booked { is_approved kept.code ≡ true → is_released self.old.books key.now ≡ false }
        ensures ok { OnOk result (self.new ≡ record { accounts = self.old.accounts; books = record self.old.books { presentments = self.old.books.presentments ++ kept_message key.now kept ∷ [] } }) }
        ensures err { OnErr result (self.new ≡ self.old) }
    {
        let amount = kept.amount;
        let approved = kept.code.is_approved();
        self.presentments.put(key.copy(), kept)?;
        if !approved {
            return Ok(());
        }
        match book(&mut self.ledger, key, amount) {
            Ok(()) => return Ok(()),
            Err(_) => {}
        }
        self.presentments.forget_last();
        Err(AllocError)
    }

    /// Keeps the first reversal of a transaction. An approved one releases what is held.
    pub fn keep_reversal(&mut self, key: &Key, kept: KeptMessage) -> Result<(), AllocError>
        requires new { kept_at key.now self.old.books.reversals ≡ None }
        requires small { kept.amount ≤ most_amount }
        requires known { is_approved kept.code ≡ true → IsSome (balance_left self.old key.now.pan) }
        requires released { is_approved kept.code ≡ true → is_booked self.old.books key.now ≡ false }
        ensures ok { OnOk result (self.new ≡ record { accounts = self.old.accounts; books = record self.old.books { reversals = self.old.books.reversals ++ kept_message key.now kept ∷ [] } }) }
        ensures err { OnErr result (self.new ≡ self.old) }
    {
        let amount = kept.amount;
        let approved = kept.code.is_approved();
        self.reversals.put(key.copy(), kept)?;
        if !approved {
            return Ok(());
        }
        match release(&mut self.ledger, key, amount) {
            Ok(()) => return Ok(()),
            Err(_) => {}
        }
        self.reversals.forget_last();
        Err(AllocError)
    }
}

/// Holds an amount that the ledger does not refuse.
fn hold(ledger: &mut Ledger, key: &Key, amount: u64) -> Result<(), AllocError>
    requires small { amount ≤ most_amount }
    requires taken { hold_refusal (balance_of key.now.pan ledger.old) (entry_at key.now ledger.old.entries) amount ≡ None }
    ensures ok { OnOk result (KeepsEntry (record { key = key.now; amount = amount; state = Held }) ledger.old ledger.new) }
    ensures err { OnErr result (ledger.new ≡ ledger.old) }
{
    match ledger.hold(key, amount) {
        Ok(()) => Ok(()),
        Err(LedgerFault::OutOfMemory) => Err(AllocError),
        Err(_) => unreachable!(),
    }
}

/// Books an amount that the ledger does not refuse.
fn book(ledger: &mut Ledger, key: &Key, amount: u64) -> Result<(), AllocError>
    requires small { amount ≤ most_amount }
    requires taken { settle_refusal (balance_of key.now.pan ledger.old) (entry_at key.now ledger.old.entries) ≡ None }
    ensures ok { OnOk result (KeepsEntry (record { key = key.now; amount = amount; state = Booked }) ledger.old ledger.new) }
    ensures err { OnErr result (ledger.new ≡ ledger.old) }
{
    match ledger.book(key, amount) {
        Ok(()) => Ok(()),
        Err(LedgerFault::OutOfMemory) => Err(AllocError),
        Err(_) => unreachable!(),
    }
}

/// Releases an amount where the ledger does not refuse.
fn release(ledger: &mut Ledger, key: &Key, amount: u64) -> Result<(), AllocError>
    requires small { amount ≤ most_amount }
    requires taken { settle_refusal (balance_of key.now.pan ledger.old) (entry_at key.now ledger.old.entries) ≡ None }
    ensures ok { OnOk result (KeepsEntry (record { key = key.now; amount = amount; state = Released }) ledger.old ledger.new) }
    ensures err { OnErr result (ledger.new ≡ ledger.old) }
{
    match ledger.release(key, amount) {
        Ok(()) => Ok(()),
        Err(LedgerFault::OutOfMemory) => Err(AllocError),
        Err(_) => unreachable!(),
    }
}

/// Whether a message was kept with code 00.
fn was_approved(kept: Option<&KeptMessage>) -> bool
    ensures { (key : Key) → result ≡ was_approved (option_map (λ k. kept_message key k.now) kept.entry) }
{
    match kept {
        Some(kept) => kept.code.is_approved(),
        None => false,
    }
}
