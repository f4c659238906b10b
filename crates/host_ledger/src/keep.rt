ghost use Rattle.std.specs.Prelude.{◌≡◌, ℕ, ◌+◌, ◌*◌, ◌^◌, ◌≤◌, ◌+ℤ◌, ◌-ℤ◌, ◌≤ℤ◌, pos, map, OnOk, OnErr, Some, None};
ghost use Rattle.emv_dict.specs.Settings.{most_amount};
ghost use Rattle.host_ledger.specs.Account.{account_at, with_opening_balance, AreBalanced};
ghost use Rattle.host_ledger.specs.Entries.{entry_at, with_entry, taken_at};

use crate::accounts::{Account, Accounts};
use crate::entry::Entry;
use crate::rows::Rows;
use std::alloc::AllocError;

/// Keeps an entry of this account, and moves the account's balance by what the entry takes more or less
/// than the one that it replaces.
pub fn keep(
    accounts: &mut Accounts,
    rows: &mut Rows,
    account: Account,
    entry: Entry,
) -> Result<(), AllocError>
    requires known { account_at entry.key.pan accounts.old ≡ Some account }
    requires balanced { AreBalanced accounts.old rows.old }
    requires small { entry.amount ≤ most_amount }
    ensures ok { OnOk result (rows.new ≡ with_entry entry rows.old) }
    ensures opened { map with_opening_balance accounts.new ≡ map with_opening_balance accounts.old }
    ensures balanced { AreBalanced accounts.new rows.new }
    ensures err { OnErr result ((accounts.new ≡ accounts.old) × (rows.new ≡ rows.old)) }
    ensures absent { OnErr result (entry_at entry.key rows.old ≡ None) }
{
    // Fewer than 2 ^ 63 entries of 12 digits each: the balance fits.
    let _count = rows.len();
    let before = taken_by(&rows.get(&entry.key));
    let balance = moved(account.balance, before, entry.taken());
    let pan = entry.key.pan.copy();
    rows.put(entry)?;
    let account = Account {
        opening: account.opening,
        balance,
    };
    match accounts.put(pan, account) {
        Ok(()) => Ok(()),
        Err(_) => unreachable!(),
    }
}

/// What the entry of a transaction takes, if there is one.
fn taken_by(kept: &Option<Entry>) -> u64
    ensures { result ≡ taken_at kept.now }
{
    match kept {
        Some(entry) => entry.taken(),
        None => 0,
    }
}

/// A balance from which one amount is taken in place of another.
fn moved(balance: i128, before: u64, after: u64) -> i128
    requires small_before { before ≤ most_amount }
    requires small_after { after ≤ most_amount }
    requires high { balance ≤ℤ pos most_amount }
    requires low { pos 0 ≤ℤ (balance +ℤ pos (most_amount * 2 ^ 63)) }
    ensures { result ≡ (balance +ℤ pos before) -ℤ pos after }
{
    balance + i128::from(before) - i128::from(after)
}
