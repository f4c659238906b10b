//! The run of a generated scenario, and its summary in place of a report.
ghost use Rattle.std.specs.Prelude.{◌≡◌, ◌≤◌, ℕ, List, [], None, IfOk};
ghost use Rattle.std.specs.declared.option.Option.{Option};
ghost use Rattle.std.specs.Io.{WritesAtMost};
ghost use Rattle.emv_top.specs.Answers.{AreSettled, Completes};
ghost use Rattle.emv_top.specs.Decided.{DecidedRun};
ghost use Rattle.emv_top.specs.Generating.{Generates, IsGenerated, booked, capped_sum, paid, summary_of};
ghost use Rattle.emv_top.specs.StatusCode.{Concludes};
ghost use Rattle.scenario_plan.specs.Plan.{IsScenario};
ghost use Rattle.txn_replay.specs.Laws.{IsFair};
ghost use Rattle.txn_replay.specs.World.{World as Told};
ghost use Rattle.txn_replay.specs.Seen.{WorldStands};

use crate::bank::BlankBank;
use crate::ended::{Ended, end_world, unbegun};
use crate::replaying::replay_whole;
use crate::status::Status;
use emv_ports::{Failed, Pages, Sink, write_all};
use generated::generated;
use issuer_host::Account;
use kernel::Tally;
use report_text::Text;
use report_text::pieces::{amount, append, number};
use scenario_plan::Scenario;
use std::alloc::{AllocError, Global};
use txn_replay::World;

/// A sink for the report of a run that is only summed up: it takes every line and keeps none.
#[derive(Drop)]
struct Unheard;

impl Sink for Unheard {
    ghost held = { λ s. None };

    ghost faults = { λ s. 0 };

    fn write(&mut self, piece: &[u8]) -> Result<usize, Failed> {
        Ok(piece.len())
    }
}

/// The summary of so many purchases.
#[tactic(auto, unfolding(crate::specs::Generating::summary_of))]
fn write_summary(count: u32, tally: &Tally, booked: i128, out: &mut Text)
    ensures { out.new.items ≡ summary_of count tally.now booked }
{
    let [approved, declined, other, _] = tally.counts();
    out.clear();
    append(out, b"generated ");
    number(out, u64::from(count));
    append(out, b"\n");
    append(out, b"approved ");
    number(out, approved);
    append(out, b" declined ");
    number(out, declined);
    append(out, b" other ");
    number(out, other);
    append(out, b"\n");
    append(out, b"booked ");
    amount(out, booked);
    append(out, b"\n");
}

/// What an account has paid.
fn paid<P: Pages>(account: &Account, world: &World<'_, P>) -> i128
    ensures { (w : Told) → WorldStands world.now w → result ≡ capped_sum (paid world.now.scenario w account.now) }
{
    match world.balance(&account.pan) {
        Some(balance) => i128::from(account.balance).saturating_sub(balance),
        None => 0,
    }
}

/// What all accounts have paid; it stops at the greatest number.
fn booked<P: Pages>(scenario: &Scenario, world: &World<'_, P>) -> i128
    requires rules { IsScenario scenario.now }
    requires told { world.now.scenario ≡ scenario.now }
    ensures { (w : Told) → WorldStands world.now w → result ≡ capped_sum (booked scenario.now w) }
{
    let mut sum: i128 = 0;
    for account in &scenario.accounts {
        sum = sum.saturating_add(paid(account, world));
    }
    sum
}

/// The summary of a whole run.
fn sum_up<P: Pages, K: Sink>(
    count: u32,
    scenario: &Scenario,
    world: World<'_, P>,
    sink: &mut K,
) -> Ended<P>
    requires generated { IsGenerated count scenario.now }
    requires told { world.scenario ≡ scenario.now }
    requires whole { Completes (DecidedRun scenario.now) (λ w. WorldStands world w × IsFair scenario.now w × AreSettled scenario.now w) None None }
    ensures { Concludes (Generates count (K.held sink.old) (K.held sink.new) result.bank result.tally) (K.faults sink.old) (K.faults sink.new) result.status }
{
    let booked = booked(scenario, &world);
    let ended = end_world(Status::Done, world);
    let mut text = Text::new();
    write_summary(count, &ended.tally, booked, &mut text);
    match write_all(sink, text.as_slice()) {
        Ok(()) => ended,
        Err(Failed) => Ended {
            status: Status::WriteFault,
            bank: ended.bank,
            tally: ended.tally,
        },
    }
}

/// The run of the generated scenario of so many purchases.
fn replay_generated<P: Pages, K: Sink>(
    alloc: Global,
    count: u32,
    scenario: &Scenario,
    bank: BlankBank<P>,
    sink: &mut K,
) -> Ended<P>
    requires { IsGenerated count scenario.now }
    ensures { Concludes (Generates count (K.held sink.old) (K.held sink.new) result.bank result.tally) (K.faults sink.old) (K.faults sink.new) result.status }
{
    match replay_whole(alloc, scenario, bank, &mut Unheard) {
        Ok(world) => sum_up(count, scenario, world, sink),
        Err(ended) => ended,
    }
}

/// Generates a scenario of so many purchases, replays it, and writes the summary of its run.
pub fn generate<P: Pages, K: Sink>(
    alloc: Global,
    count: u32,
    bank: BlankBank<P>,
    sink: &mut K,
) -> Ended<P>
    requires some { 1 ≤ count }
    requires few { count ≤ 10000 }
    ensures { Concludes (Generates count (K.held sink.old) (K.held sink.new) result.bank result.tally) (K.faults sink.old) (K.faults sink.new) result.status }
{
    match generated(alloc, count) {
        Ok(scenario) => replay_generated(alloc, count, &scenario, bank, sink),
        Err(AllocError) => unbegun(Status::OutOfMemory, bank),
    }
}
