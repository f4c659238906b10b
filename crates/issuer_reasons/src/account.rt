//! What is known of the accounts beside the report, and what approved requests took from them.
ghost use Rattle.std.specs.Prelude.{◌≡◌, ◌<◌, length, IfSome, OnOk};
ghost use Rattle.issuer_reasons.specs.Accounts as spec;

use arrayvec::ArrayVec;
use std::alloc::AllocError;

/// The most accounts whose charges are kept.
const MOST_CHARGED: usize = 64;

/// An account, as it was when the report began.
#[derive(Drop)]
pub struct Account {
    /// Its number, as object 5A has it.
    pub pan: ArrayVec<u8, 10>,
    pub balance: u64,
    pub blocked: bool,
    /// Its currency as the number of its two bytes.
    pub currency: u64,
}

/// What approved requests took from an account.
#[derive(Drop)]
pub struct Charge {
    pub pan: ArrayVec<u8, 10>,
    pub amount: u64,
}

/// An account as a reply comes.
#[derive(Clone, Copy, PartialEq, Eq, Debug)]
pub struct AccountNow {
    pub balance: u64,
    pub blocked: bool,
    pub currency: u64,
}

/// Whether this is the account of this number.
fn is_account(account: &Account, pan: &[u8]) -> bool
    ensures { result ≡ spec.is_account pan.now account.now }
{
    account.pan.as_slice() == pan
}

/// The place of the account of this number.
fn account_place(accounts: &[Account], pan: &[u8]) -> Option<usize>
    ensures place { result ≡ spec.known_account_place accounts.now pan.now }
    ensures within { IfSome result (λ place. place < length accounts.now) }
{
    accounts.iter().position(|account| is_account(account, pan))
}

/// Whether this is what was taken from the account of this number.
fn is_charged(charge: &Charge, pan: &[u8]) -> bool
    ensures { result ≡ spec.is_charged pan.now charge.now }
{
    charge.pan.as_slice() == pan
}

/// The place of what was taken from the account of this number.
fn charge_place(charges: &[Charge], pan: &[u8]) -> Option<usize>
    ensures place { result ≡ spec.charge_place charges.now pan.now }
    ensures within { IfSome result (λ place. place < length charges.now) }
{
    charges.iter().position(|charge| is_charged(charge, pan))
}

/// What was taken from the account of this number.
fn taken(charges: &[Charge], pan: &[u8]) -> u64
    ensures { result ≡ spec.charged_so_far charges.now pan.now }
{
    match charge_place(charges, pan) {
        Some(place) => charges[place].amount,
        None => 0,
    }
}

/// An account behind what was taken from it.
fn account_behind(account: &Account, taken: u64) -> AccountNow
    ensures { result ≡ spec.account_behind account.now taken }
{
    AccountNow {
        balance: account.balance.saturating_sub(taken),
        blocked: account.blocked,
        currency: account.currency,
    }
}

/// The account of this number, behind what was taken from it.
pub fn account_now(accounts: &[Account], charges: &[Charge], pan: &[u8]) -> Option<AccountNow>
    ensures { result ≡ spec.account_now accounts.now charges.now pan.now }
{
    match account_place(accounts, pan) {
        Some(place) => Some(account_behind(&accounts[place], taken(charges, pan))),
        None => None,
    }
}

/// Takes an amount more.
fn raise(charge: &mut Charge, amount: u64)
    ensures { charge.new ≡ spec.raised_by amount charge.old }
{
    charge.amount = charge.amount.saturating_add(amount);
}

/// Takes an amount from an account from which none was taken.
fn charge_first(charges: &mut Vec<Charge>, pan: &[u8], amount: u64) -> Result<(), AllocError>
    ensures { OnOk result (charges.new.items ≡ spec.charges_with pan.now amount charges.old.items) }
{
    if charges.len() >= MOST_CHARGED {
        return Ok(());
    }
    let mut number = ArrayVec::new();
    if number.try_extend_from_slice(pan).is_ok() {
        charges.push(Charge {
            pan: number,
            amount,
        })?;
    }
    Ok(())
}

/// Takes an amount from the account of this number. An error says that there was no memory.
pub fn charge_account(charges: &mut Vec<Charge>, pan: &[u8], amount: u64) -> Result<(), AllocError>
    ensures { OnOk result (charges.new.items ≡ spec.charged pan.now amount charges.old.items) }
{
    match charge_place(charges, pan) {
        Some(place) => {
            match charges.get_mut(place) {
                Some(charge) => raise(charge, amount),
                None => {}
            }
            Ok(())
        }
        None => charge_first(charges, pan, amount),
    }
}
