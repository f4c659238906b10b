//! A scenario of as many purchases as are wanted: a large input that anyone can make again.
#![tactic(auto)]

ghost use Rattle.std.specs.Prelude.{◌≡◌, ◌≤◌, IfOk, IfSome};
ghost use Rattle.std.specs.List.{All};
ghost use Rattle.scenario_plan.specs.Plan.{IsScenario};
ghost use Rattle.generated.specs.Generated.{generated_of};
ghost use Rattle.generated.specs.Purchases.{LeavesNoChoice};

mod card;
mod issuer;
mod lane;
mod purchase;

use crate::card::cards;
use crate::issuer::{accounts, issuer_keys};
use crate::lane::lanes;
use scenario_plan::Scenario;
use std::alloc::{AllocError, Global};

/// How often each settlement message is sent.
const COPIES: u8 = 2;

/// The scenario of so many purchases, from 1 to 10,000: four lanes, on which purchases and the eight
/// cards take turns, and amounts, lost replies and torn cards by a generator of numbers whose seed is
/// the count. Each tear cuts a decision before its first write, so that the report has one answer.
#[tactic(auto, unfolding(crate::specs::Generated::generated_of))]
pub fn generated(alloc: Global, count: u32) -> Result<Scenario, AllocError>
    requires some { 1 ≤ count }
    requires few { count ≤ 10000 }
    ensures exact { IfOk result (λ s. s ≡ generated_of count) }
    ensures rules { IfOk result IsScenario }
    ensures no_choice { IfOk result (λ s. All (λ lane. All (λ planned. IfSome planned.tear LeavesNoChoice) lane.purchases) s.lanes) }
{
    let issuer = issuer_keys();
    let accounts = accounts(alloc)?;
    let cards = cards(alloc, &issuer)?;
    let lanes = lanes(alloc, &issuer, count)?;
    Ok(Scenario {
        issuer,
        accounts,
        cards,
        lanes,
        schedule: Vec::new(alloc),
        copies: COPIES,
    })
}
