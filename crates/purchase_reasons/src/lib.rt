//! Why a purchase came out as it did, party by party: what its terminal asked for and why, what its card answered and by
//! which of its tests, and on what its issuer's code rests; and what is left of a card's limits; from the lines of a report,
//! and from what is known of the cards and the accounts beside it.
#![tactic(auto)]

pub mod approval;
pub mod card;
pub mod followed;
pub mod kept;
pub mod left;
pub mod limits;
pub mod reasons;
pub mod terminal;

pub use followed::Followed;
pub use kept::{charge_reply, keep_limits};
pub use left::tell_cards_left;
pub use limits::{CardApp, ChangedLimits, Limit, Limits};
pub use reasons::tell_reasons;
