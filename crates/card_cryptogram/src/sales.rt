//! The sale that a cryptogram is for.
ghost use Rattle.std.specs.Prelude.{◌≡◌};
ghost use Rattle.card_cryptogram.specs.Sales as spec;

use crate::fields::TerminalFields;
use card_state::{Sale, Which};
use emv_dict::amount_of;

/// In which of a card's currencies an amount is: the first, the second where it has one, or neither.
fn which_of(first: [u8; 2], second: Option<[u8; 2]>, currency: [u8; 2]) -> Which
    ensures { result ≡ spec.which_of first second currency }
{
    if currency == first {
        return Which::One;
    }
    match second {
        Some(second) if currency == second => Which::Two,
        _ => Which::Neither,
    }
}

/// The sale that was given for a cryptogram, to a card of these currencies.
#[tactic(auto, unfolding(crate::specs::Sales::sale_of))]
pub fn sale_of(first: [u8; 2], second: Option<[u8; 2]>, given: &TerminalFields) -> Sale
    ensures { result ≡ spec.sale_of first second given.now }
{
    Sale {
        amount: amount_of(given.amount),
        raw: given.amount,
        currency: given.currency,
        date: given.date,
        which: which_of(first, second, given.currency),
    }
}
