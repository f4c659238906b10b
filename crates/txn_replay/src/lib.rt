//! A scenario's run: the cards, the terminals and the issuer's host together, one exchange at a time.
#![tactic(auto)]

mod audit;
mod bank;
pub mod event;
mod exchange;
mod lane;
pub mod laws;
pub mod lines;
mod payment;
mod purchases;
mod run_card;
mod settlement;
mod storing;
mod terminal;
pub mod world;

pub use event::Event;
pub use laws::{
    captures_are_sent, cards_are_named, cards_are_told, commands_are_told, dialects_show,
    lanes_are_sound, lanes_stand_alone, losses_are_told, pages_tell_totals, replies_are_told,
    run_is_one, runs_are_fair, runs_end, stores_are_emptied,
};
pub use lines::Lines;
pub use world::{NoWorld, World};
