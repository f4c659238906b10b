ghost use Rattle.std.specs.Prelude.{◌≡◌, [], None, OnOk, OnErr};
ghost use Rattle.host_ledger.specs.Account.{account_at, with_account};

use emv_dict::Digits;
use indexmap::IndexMap;
use std::alloc::{AllocError, Global};
use std::marker::Model;

/// What an account opened with, and what is left of it.
#[derive(Clone, Copy)]
pub struct Account {
    /// At most 12 digits, in the least unit of the currency.
    pub opening: u64,
    pub balance: i128,
}

/// The accounts by their account numbers. Contracts see the list of them in the order in which they came.
#[derive(Drop)]
pub struct Accounts {
    table: IndexMap<Digits, Account>,
}

impl Model for Accounts {
    ghost use Rattle.std.specs.Prelude.{List, ℕ};
    ghost use Rattle.host_ledger.specs.declared.accounts.Account.{Account};

    ghost Value = { List (List ℕ × Account) };

    ghost view = { λ a. a.table.entries };
}

impl Accounts {
    /// No accounts.
    pub fn new(alloc: Global) -> Accounts
        ensures { result ≡ [] }
    {
        Accounts {
            table: IndexMap::new(alloc),
        }
    }

    /// The account of an account number.
    pub fn get(&self, pan: &Digits) -> Option<Account>
        ensures { result ≡ account_at pan.now self.now }
    {
        self.table.get(pan).copied()
    }

    /// Keeps an account, in place of the one of its account number if there is one. Only a new account
    /// number needs memory.
    pub fn put(&mut self, pan: Digits, account: Account) -> Result<(), AllocError>
        ensures ok { OnOk result (self.new ≡ with_account pan account self.old) }
        ensures err { OnErr result (self.new ≡ self.old) }
        ensures absent { OnErr result (account_at pan self.old ≡ None) }
    {
        match self.table.insert(pan, account) {
            Ok(_) => return Ok(()),
            Err(_) => return Err(AllocError),
        }
    }
}
