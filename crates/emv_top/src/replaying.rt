//! The events of a whole run: the schedule, the rounds, the settlement and the audit.
ghost use Rattle.std.specs.Prelude.{◌≡◌, ◌≢◌, ◌<◌, true, false, IfOk, IfErr, OnOk, OnErr};
ghost use Rattle.emv_top.specs.Answers.{AreSettled, Completes, Plays};
ghost use Rattle.emv_top.specs.Decided.{DecidedRun};
ghost use Rattle.emv_top.specs.RunsSoFar.{RunHasReached, IsPlayed, Passage, Replays, RunOfBytes, RunWasStopped, all_lines};
ghost use Rattle.emv_top.specs.StatusCode.{SinkCount};
ghost use Rattle.emv_top.specs.Stops.{HasStop};
ghost use Rattle.emv_top.specs.declared.status.Status.{Status};
ghost use Rattle.emv_top.specs.declared.words.Task.{Task};
ghost use Rattle.scenario_plan.specs.Plan.{IsScenario};
ghost use Rattle.txn_replay.specs.Laws.{IsFair};
ghost use Rattle.txn_replay.specs.Run.{Reached, Scheduled, Round, Settling, Auditing, Finished, all_over};
ghost use Rattle.txn_replay.specs.World.{World as Told, first_world};
ghost use Rattle.txn_replay.specs.Seen.{WorldStands, is_done, turns_left};

use crate::bank::BlankBank;
use crate::closing::close;
use crate::ended::{Ended, end_world, unbegun};
use crate::events::{audit, settle, turn};
use crate::laws::runs_are_decided;
use crate::lines::EventBuffers;
use crate::status::Status;
use crate::stop::Stop;
use emv_ports::{Pages, Sink};
use scenario_plan::Scenario;
use std::alloc::Global;
use txn_replay::{
    NoWorld, World, captures_are_sent, cards_are_named, commands_are_told, dialects_show,
    lanes_stand_alone, losses_are_told, runs_are_fair, stores_are_emptied,
};

/// The turns of the schedule.
pub fn schedule<P: Pages, K: Sink>(
    scenario: &Scenario,
    world: &mut World<'_, P>,
    room: &mut EventBuffers,
    sink: &mut K,
) -> Result<(), Stop>
    requires played { IsPlayed scenario.now world.old }
    ensures { Passage scenario.now world.old world.new (K.held sink.old) (K.held sink.new) (K.faults sink.old) (K.faults sink.new) (Scheduled 0) (Round 0) result }
{
    for lane in &scenario.schedule {
        match turn(usize::from(*lane), world, room, sink) {
            Ok(_) => {}
            Err(stop) => return Err(stop),
        }
    }
    Ok(())
}

/// A turn of each lane.
fn round<P: Pages, K: Sink>(
    scenario: &Scenario,
    world: &mut World<'_, P>,
    room: &mut EventBuffers,
    sink: &mut K,
) -> Result<(), Stop>
    requires told { world.old.scenario ≡ scenario.now }
    requires here { RunHasReached world.old (K.held sink.old) (Reached scenario.now (Round 0)) }
    requires busy { (w : Told) → WorldStands world.old w → all_over scenario.now w ≡ false }
    ensures passage { Passage scenario.now world.old world.new (K.held sink.old) (K.held sink.new) (K.faults sink.old) (K.faults sink.new) (Round 0) (Round 0) result }
    ensures nearer { OnOk result (turns_left world.new < turns_left world.old) }
{
    let lanes = scenario.lanes.as_slice();
    let mut lane = 0;
    while lane < lanes.len() {
        match turn(lane, world, room, sink) {
            Ok(_) => lane += 1,
            Err(stop) => return Err(stop),
        }
    }
    Ok(())
}

/// Rounds until no purchase is left.
pub fn rounds<P: Pages, K: Sink>(
    scenario: &Scenario,
    world: &mut World<'_, P>,
    room: &mut EventBuffers,
    sink: &mut K,
) -> Result<(), Stop>
    requires told { world.old.scenario ≡ scenario.now }
    requires here { RunHasReached world.old (K.held sink.old) (Reached scenario.now (Round 0)) }
    ensures passage { Passage scenario.now world.old world.new (K.held sink.old) (K.held sink.new) (K.faults sink.old) (K.faults sink.new) (Round 0) (Settling 0) result }
    ensures done { OnOk result (is_done world.new ≡ true) }
{
    while !world.done() {
        match round(scenario, world, room, sink) {
            Ok(()) => {}
            Err(stop) => return Err(stop),
        }
    }
    Ok(())
}

/// The settlement.
pub fn settlement<P: Pages, K: Sink>(
    scenario: &Scenario,
    world: &mut World<'_, P>,
    room: &mut EventBuffers,
    sink: &mut K,
) -> Result<(), Stop>
    requires played { IsPlayed scenario.now world.old }
    requires done { is_done world.old ≡ true }
    requires here { RunHasReached world.old (K.held sink.old) (Reached scenario.now (Settling 0)) }
    ensures passage { Passage scenario.now world.old world.new (K.held sink.old) (K.held sink.new) (K.faults sink.old) (K.faults sink.new) (Settling 0) (Auditing 0) result }
    ensures done { is_done world.new ≡ is_done world.old }
{
    let mut number: u32 = 0;
    loop {
        match settle(number, world, room, sink) {
            Ok(true) => number += 1,
            Ok(false) => return Ok(()),
            Err(stop) => return Err(stop),
        }
    }
}

/// The audit.
pub fn audits<P: Pages, K: Sink>(
    scenario: &Scenario,
    world: &mut World<'_, P>,
    room: &mut EventBuffers,
    sink: &mut K,
) -> Result<(), Stop>
    requires told { world.old.scenario ≡ scenario.now }
    requires done { is_done world.old ≡ true }
    ensures { Passage scenario.now world.old world.new (K.held sink.old) (K.held sink.new) (K.faults sink.old) (K.faults sink.new) (Auditing 0) Finished result }
{
    let mut number: u32 = 0;
    loop {
        match audit(number, world, room, sink) {
            Ok(true) => number += 1,
            Ok(false) => return Ok(()),
            Err(stop) => return Err(stop),
        }
    }
}

/// All events of a run.
fn events<P: Pages, K: Sink>(
    scenario: &Scenario,
    world: &mut World<'_, P>,
    room: &mut EventBuffers,
    sink: &mut K,
) -> Result<(), Stop>
    requires played { IsPlayed scenario.now world.old }
    requires here { RunHasReached world.old (K.held sink.old) (Reached scenario.now (Scheduled 0)) }
    ensures { Passage scenario.now world.old world.new (K.held sink.old) (K.held sink.new) (K.faults sink.old) (K.faults sink.new) (Scheduled 0) Finished result }
{
    schedule(scenario, world, room, sink)?;
    rounds(scenario, world, room, sink)?;
    settlement(scenario, world, room, sink)?;
    audits(scenario, world, room, sink)
}

/// All events of a run, and the lines behind them.
pub fn replay_through<P: Pages, K: Sink>(
    scenario: &Scenario,
    world: &mut World<'_, P>,
    sink: &mut K,
) -> Result<(), Stop>
    requires played { IsPlayed scenario.now world.old }
    requires start { WorldStands world.old (first_world scenario.now) }
    ensures ok { OnOk result (Completes (RunOfBytes scenario.now) (WorldStands world.new) (K.held sink.old) (K.held sink.new)) }
    ensures err { OnErr result (RunWasStopped scenario.now all_lines (Replays scenario.now) (WorldStands world.new) (K.held sink.old) (K.held sink.new)) }
    ensures told { world.new.scenario ≡ scenario.now }
    ensures stop { HasStop (K.faults sink.old) (K.faults sink.new) result }
{
    let mut room = EventBuffers::new();
    match events(scenario, world, &mut room, sink) {
        Ok(()) => close(scenario, world, &mut room.text, sink),
        Err(stop) => Err(stop),
    }
}

/// A whole run of a scenario: the world that it leads to, or how it ended before.
pub fn replay_whole<'s, P: Pages, K: Sink>(
    alloc: Global,
    scenario: &'s Scenario,
    bank: BlankBank<P>,
    sink: &mut K,
) -> Result<World<'s, P>, Ended<P>>
    requires rules { IsScenario scenario.now }
    ensures whole { IfOk result (λ world. Completes (DecidedRun scenario.now)
        (λ w. WorldStands world w × IsFair scenario.now w × AreSettled scenario.now w) (K.held sink.old) (K.held sink.new)) }
    ensures told { IfOk result (λ world. world.scenario ≡ scenario.now) }
    ensures calm { OnOk result (K.faults sink.new ≡ K.faults sink.old) }
    ensures cut { IfErr result (λ ended. Plays Task.Replay scenario.now (K.held sink.old) (K.held sink.new) ended.bank ended.tally ended.status) }
    ensures unfinished { IfErr result (λ ended. ended.status ≢ Status.Done) }
    ensures count { IfErr result (λ ended. SinkCount (K.faults sink.old) (K.faults sink.new) ended.status) }
{
    runs_are_fair();
    runs_are_decided();
    cards_are_named();
    commands_are_told();
    losses_are_told();
    dialects_show();
    captures_are_sent();
    stores_are_emptied();
    lanes_stand_alone();
    match World::new(alloc, scenario, bank.into_pages()) {
        Ok(world) => {
            let mut world = world;
            match replay_through(scenario, &mut world, sink) {
                Ok(()) => {
                    world.made_messages();
                    Ok(world)
                }
                Err(Stop::Sink) => Err(end_world(Status::WriteFault, world)),
                Err(Stop::OutOfMemory) => Err(end_world(Status::OutOfMemory, world)),
            }
        }
        Err(NoWorld { bank }) => Err(unbegun(Status::OutOfMemory, BlankBank::new(bank))),
    }
}
