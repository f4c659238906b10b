//! The messages that settle a purchase (their formats are this project's own).
ghost use Rattle.std.specs.Prelude.{◌≡◌};
ghost use Rattle.auth_message.specs.Whole.{IsMessage};
ghost use Rattle.emv_dict.specs.Settings.{IsPurchase};
ghost use Rattle.online_step.specs.Captures.{presentment_of, reversal_of};

use crate::fields::{country, cryptogram, currency, date, identification, number, sequence_number};
use auth_message::{Message, PresentFields, ReversalFields, write_presentment, write_reversal};
use emv_dict::{Ac, Purchase, Settings, Tvr, amount_bytes};
use object_lists::CardData;

/// What approved a purchase.
#[derive(Drop)]
pub struct Approval<'a> {
    /// The verification results (95) that the approving cryptogram was asked with.
    pub tvr: Tvr,
    /// The approving cryptogram.
    pub ac: &'a Ac,
    /// The authorisation response code (8A).
    pub code: [u8; 2],
}

/// Writes the presentment (E3) of a purchase with this approval, in place of what `out` held.
#[tactic(auto, unfolding(crate::specs::Captures::presentment_of))]
pub fn presentment(
    card: &CardData,
    settings: &Settings,
    purchase: &Purchase,
    approval: &Approval<'_>,
    out: &mut Message,
)
    requires { IsPurchase purchase.now }
    ensures bytes { out.new.items ≡ presentment_of card.now settings.now purchase.now approval.now.tvr.0 approval.now.ac.now approval.now.code }
    // The host reads it.
    ensures read { IsMessage out.new.items }
{
    let ac = approval.ac;
    let fields = PresentFields {
        t9f1c: identification(settings),
        pan: card.pan.copy(),
        t5f34: sequence_number(card),
        t9f02: amount_bytes(purchase.amount),
        t9f03: amount_bytes(purchase.other),
        t9f1a: country(settings),
        t95: approval.tvr.bytes(),
        t5f2a: currency(purchase),
        t9a: date(purchase),
        t9c: [purchase.trade],
        t9f37: number(purchase),
        t82: card.aip,
        t9f36: ac.counter.to_be_bytes(),
        t9f26: cryptogram(ac),
        t9f10: &ac.iad,
        t8a: approval.code,
    };
    write_presentment(&fields, out);
}

/// Writes the reversal (E4) of a purchase whose request was sent and that is not approved, in place of what
/// `out` held: with the application transaction counter of the request, and the response code (8A).
#[tactic(auto, unfolding(crate::specs::Captures::reversal_of))]
pub fn reversal(
    card: &CardData,
    settings: &Settings,
    purchase: &Purchase,
    counter: u16,
    code: [u8; 2],
    out: &mut Message,
)
    requires { IsPurchase purchase.now }
    ensures bytes { out.new.items ≡ reversal_of card.now settings.now purchase.now counter code }
    // The host reads it.
    ensures read { IsMessage out.new.items }
{
    let fields = ReversalFields {
        t9f1c: identification(settings),
        pan: card.pan.copy(),
        t5f34: sequence_number(card),
        t9f36: counter.to_be_bytes(),
        t9f02: amount_bytes(purchase.amount),
        t5f2a: currency(purchase),
        t8a: code,
    };
    write_reversal(&fields, out);
}
