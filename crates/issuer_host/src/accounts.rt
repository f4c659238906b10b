//! The host's accounts by their places.
ghost use Rattle.std.specs.Prelude.{◌≡◌, ◌≤◌, ◌+◌, map, length, option_map, IfOk, IfErr};
ghost use Rattle.std.specs.List.{All, list_any};
ghost use Rattle.std.specs.Str.{bytes_eq};
ghost use Rattle.emv_dict.specs.Settings.{most_amount};
ghost use Rattle.host_ledger.specs.Accounts.{RefusesAccounts};
ghost use Rattle.issuer_host.specs.Account.{IsAccount};
ghost use Rattle.issuer_host.specs.Holds.{account_place, account_in, flag_at, with_flag, opening_balance};
ghost use Rattle.std.specs.Prelude.{replicate, false};

use crate::account::Account;
use emv_dict::Digits;
use host_ledger::LedgerFault;
use std::alloc::{AllocError, Global};

/// The account numbers with their opening balances.
pub fn openings(alloc: Global, accounts: &[Account]) -> Result<Vec<(Digits, u64)>, AllocError>
    requires { All IsAccount accounts.now }
    ensures value { IfOk result (λ openings. openings.items ≡ map opening_balance accounts.now) }
    ensures small { IfOk result (λ openings. All (λ account. account.1 ≤ most_amount) openings.items) }
{
    let mut openings = Vec::new(alloc);
    for account in accounts {
        openings.push((account.pan.copy(), account.balance))?;
    }
    Ok(openings)
}

/// A false flag for each account.
pub fn none_served(alloc: Global, accounts: &[Account]) -> Result<Vec<bool>, AllocError>
    ensures { IfOk result (λ flags. flags.items ≡ replicate (length accounts.now) false) }
{
    let mut flags = Vec::new(alloc);
    for _account in accounts {
        flags.push(false)?;
    }
    Ok(flags)
}

/// Why no host is made where memory is wanting: a repeat comes first, wherever memory ended.
pub fn without_memory(accounts: &[Account]) -> LedgerFault
    ensures { RefusesAccounts (map opening_balance accounts.now) result }
{
    for place in 0..accounts.len() {
        let account = &accounts[place];
        if has_pan(&accounts[..place], &account.pan) {
            return LedgerFault::SamePan(place);
        }
    }
    LedgerFault::OutOfMemory
}

/// Whether one of the accounts has an account number.
fn has_pan(accounts: &[Account], pan: &Digits) -> bool
    ensures { result ≡ list_any (λ account. bytes_eq pan.now account.pan) accounts.now }
{
    accounts.iter().any(|account| *pan == account.pan)
}

/// The place of the account of an account number.
pub fn place_of(accounts: &[Account], pan: &Digits) -> Option<usize>
    ensures { result ≡ account_place pan.now accounts.now }
{
    for (place, account) in accounts.iter().enumerate() {
        if *pan == account.pan {
            return Some(place);
        }
    }
    None
}

/// The account at a place.
pub fn account_at(accounts: &[Account], place: Option<usize>) -> Option<&Account>
    ensures { option_map (λ account. account.now) result ≡ account_in accounts.now place }
{
    match place {
        Some(place) => accounts.get(place),
        None => None,
    }
}

/// The flag at a place.
pub fn flag_at(flags: &[bool], place: Option<usize>) -> bool
    ensures { result ≡ flag_at flags.now place }
{
    match place {
        Some(place) => match flags.get(place) {
            Some(flag) => *flag,
            None => false,
        },
        None => false,
    }
}

/// Sets the flag at a place.
pub fn set_flag(flags: &mut Vec<bool>, place: Option<usize>)
    ensures { flags.new.items ≡ with_flag flags.old.items place }
{
    if let Some(place) = place {
        if place < flags.len() {
            flags[place] = true;
        }
    }
}
