//! What a terminal decides about a card and a purchase, by rows: restrictions, cardholder verification, risk
//! management and action analysis; and the memory that tears: a state on pages, and a terminal's captures on them.
#![tactic(auto)]

#[cfg(test)]
mod action_codes;
#[cfg(test)]
mod captures;
#[cfg(test)]
mod fixture;
#[cfg(test)]
mod pages_by_hand;
#[cfg(test)]
mod risk;
#[cfg(test)]
mod tears;
#[cfg(test)]
mod usage_and_dates;
#[cfg(test)]
mod verification;
