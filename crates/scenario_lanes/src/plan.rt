use emv_dict::{Purchase, Settings};
use emv_ports::Tear;
use std::marker::Model;

/// What becomes of a message to the issuer's host.
#[derive(Clone, Copy, PartialEq, Eq, Debug)]
pub enum Link {
    /// It is delivered and its reply comes back.
    Sound,
    /// It is not delivered.
    RequestLost,
    /// It is delivered and its reply is lost.
    ReplyLost,
    /// It is delivered twice, and the first reply comes back.
    Twice,
}

/// A purchase of a lane.
#[derive(Drop, Debug)]
pub struct Planned {
    pub purchase: Purchase,
    /// The index of its card among the scenario's cards.
    pub card: usize,
    /// What becomes of its message to the issuer's host.
    pub link: Link,
    /// Where the power of its card is cut.
    pub tear: Option<Tear>,
    /// Where the power of its terminal is cut, whose commits are counted from the store's opening.
    pub terminal_tear: Option<Tear>,
}

/// A terminal and its purchases in their order. Contracts see a list in place of the vector.
#[derive(Drop, Debug)]
pub struct Lane {
    pub settings: Settings,
    pub purchases: Vec<Planned>,
    /// Whether its messages to the issuer's host go in the form of ISO 8583.
    pub iso: bool,
    /// Whether it keeps its captures on a page object of the bank, and not in working memory alone.
    pub durable: bool,
}

impl Model for Lane {
    ghost use Rattle.scenario_lanes.specs.Plan.{LaneData};

    ghost Value = { LaneData };

    ghost view = { λ lane. record { settings = lane.settings; purchases = lane.purchases.items; iso = lane.iso; durable = lane.durable } };
}
