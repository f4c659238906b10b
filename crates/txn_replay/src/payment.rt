//! A purchase with all that its scenario says of it.
ghost use Rattle.std.proofs.Props.{props};
ghost use Rattle.txn_replay.specs.PaymentFits.{PaymentFits};

use emv_dict::Settings;
use scenario_lanes::Planned;
use scenario_plan::NamedCard;

/// How often a settlement message is sent, the lane's index, whether it speaks ISO 8583 with the host and whether
/// it keeps its captures durably, its terminal's settings, what is planned, and the card.
#[derive(Clone, Copy)]
pub(crate) struct Payment<'s> {
    pub copies: u8,
    pub lane: u8,
    pub iso: bool,
    pub durable: bool,
    pub settings: &'s Settings,
    pub planned: &'s Planned,
    pub card: &'s NamedCard,
    ghost fits: { PaymentFits copies settings.now planned.now card.now.name.items } by { Prim.hlevel props },
}
