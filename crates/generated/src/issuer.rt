//! The issuer: its keys and its accounts.
ghost use Rattle.std.specs.Prelude.{◌≡◌, ◌<◌, IfOk, map};
ghost use Rattle.std.specs.List.{range_with_len};
ghost use Rattle.emv_dict.specs.Digits.{AreDigits};
ghost use Rattle.generated.specs.Issuer.{generated_keys, generated_pan, pin as pin_digits, generated_account};
ghost use Rattle.generated.specs.Purchases.{cards};

use emv_dict::Digits;
use issuer_host::{Account, HostKeys, Method};
use std::alloc::{AllocError, Global};
use triple_des::Key16;

/// How many cards there are, each with an account of its own.
pub(crate) const CARDS: u8 = 8;

/// The country and the currency of everything: the United States, and their dollar.
pub(crate) const CODE: [u8; 2] = [0x08, 0x40];

/// The issuer's master key for application cryptograms.
const AC_KEY: [u8; 16] = [
    0x01, 0x23, 0x45, 0x67, 0x89, 0xab, 0xcd, 0xef, 0xfe, 0xdc, 0xba, 0x98, 0x76, 0x54, 0x32, 0x10,
];

/// Its master key for the codes of script commands.
const MAC_KEY: [u8; 16] = [
    0x23, 0x45, 0x67, 0x89, 0xab, 0xcd, 0xef, 0x01, 0xdc, 0xba, 0x98, 0x76, 0x54, 0x32, 0x10, 0xfe,
];

/// Its master key for the enciphered data of script commands.
const ENC_KEY: [u8; 16] = [
    0x45, 0x67, 0x89, 0xab, 0xcd, 0xef, 0x01, 0x23, 0xba, 0x98, 0x76, 0x54, 0x32, 0x10, 0xfe, 0xdc,
];

/// Its key for the PINs that terminals send.
const PIN_KEY: [u8; 16] = [
    0x67, 0x89, 0xab, 0xcd, 0xef, 0x01, 0x23, 0x45, 0x98, 0x76, 0x54, 0x32, 0x10, 0xfe, 0xdc, 0xba,
];

/// The digits of an account number before its last one, the card's number.
const PAN_FRONT: [u8; 15] = [4, 7, 6, 1, 7, 3, 9, 0, 0, 1, 0, 1, 0, 0, 1];

/// The PIN of every card.
const PIN: [u8; 4] = [1, 2, 3, 4];

/// What each account has at first, in cents.
const BALANCE: u64 = 1_000_000;

/// The issuer's keys.
#[tactic(auto, unfolding(crate::specs::Issuer::generated_keys))]
pub(crate) fn issuer_keys() -> HostKeys
    ensures { result ≡ generated_keys }
{
    HostKeys {
        ac: Key16::new(AC_KEY),
        mac: Key16::new(MAC_KEY),
        enc: Key16::new(ENC_KEY),
        pin: Key16::new(PIN_KEY),
    }
}

fn digits(numbers: &[u8]) -> Digits
    requires { AreDigits numbers.now }
    ensures { result ≡ numbers.now }
{
    match Digits::new(numbers) {
        Some(digits) => digits,
        None => unreachable!(),
    }
}

/// The account number of a card.
pub(crate) fn pan(card: u8) -> Digits
    requires { card < 8 }
    ensures { result ≡ generated_pan card }
{
    let mut pan = digits(&PAN_FRONT);
    pan.push(card);
    pan
}

/// The PIN of every card.
pub(crate) fn pin() -> Digits
    ensures { result ≡ pin_digits }
{
    digits(&PIN)
}

/// The account of a card.
#[tactic(auto, unfolding(crate::specs::Issuer::generated_account))]
fn account(alloc: Global, card: u8) -> Account
    requires { card < 8 }
    ensures { result ≡ generated_account card }
{
    Account {
        pan: pan(card),
        currency: CODE,
        balance: BALANCE,
        blocked: false,
        pin: Some(pin()),
        scripts: Vec::new(alloc),
        arpc: Method::One,
        status: 0,
    }
}

/// The accounts of all cards.
pub(crate) fn accounts(alloc: Global) -> Result<Vec<Account>, AllocError>
    ensures { IfOk result (λ accounts. accounts.items ≡ map generated_account (range_with_len 0 cards)) }
{
    let mut accounts = Vec::with_capacity(alloc, usize::from(CARDS))?;
    for card in 0..CARDS {
        accounts.push(account(alloc, card))?;
    }
    Ok(accounts)
}
