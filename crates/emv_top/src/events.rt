//! An event of the world, with its lines to the sink.
ghost use Rattle.std.specs.Prelude.{◌≡◌, ◌+◌, ◌<◌, true, false, None, IfOk, slice_get, length};
ghost use Rattle.emv_top.specs.RunsSoFar.{Happens, IsThere, all_lines, shown_lines};
ghost use Rattle.txn_replay.specs.Sound.{IsIdle};
ghost use Rattle.txn_replay.specs.Steps.{settlements, checks};
ghost use Rattle.txn_replay.specs.World.{World as Told};
ghost use Rattle.txn_replay.specs.declared.event.Event.{Event};
ghost use Rattle.txn_replay.specs.Seen.{WorldStands, is_done, turns_left, IsSettling, IsNext};
ghost use Rattle.txn_replay.specs.Stored.{IsSettledTo};

use crate::lines::{EventBuffers, write_lines, write_shown};
use crate::stop::Stop;
use emv_ports::{Pages, Sink};
use std::alloc::AllocError;
use txn_replay::World;

/// One exchange of a lane; whether there was one.
pub fn turn<P: Pages, K: Sink>(
    lane: usize,
    world: &mut World<'_, P>,
    room: &mut EventBuffers,
    sink: &mut K,
) -> Result<bool, Stop>
    requires { lane < length world.old.scenario.lanes }
    ensures happens { Happens (WorldStands world.old) world.old world.new (Event.Turn lane) all_lines (K.held sink.old) (K.held sink.new)
        (K.faults sink.old) (K.faults sink.new) result }
    ensures nearer { IfOk result (λ went. went ≡ true → turns_left world.new < turns_left world.old) }
    ensures idle { IfOk result (λ went. went ≡ false → (w : Told) → WorldStands world.old w → IsIdle world.old.scenario w lane) }
    ensures still { IfOk result (λ went. went ≡ false → world.new ≡ world.old) }
{
    room.lines.clear();
    match world.turn(lane, &mut room.lines) {
        Ok(went) => {
            room.lines.fit();
            match write_lines(&room.lines, &mut room.text, sink) {
                Ok(()) => Ok(went),
                Err(stop) => Err(stop),
            }
        }
        Err(AllocError) => Err(Stop::OutOfMemory),
    }
}

/// One exchange of the first lane, of which its end line isn't shown; whether there was one.
pub fn read_turn<P: Pages, K: Sink>(
    world: &mut World<'_, P>,
    room: &mut EventBuffers,
    sink: &mut K,
) -> Result<bool, Stop>
    requires { 0 < length world.old.scenario.lanes }
    ensures happens { Happens (WorldStands world.old) world.old world.new (Event.Turn 0) shown_lines (K.held sink.old) (K.held sink.new)
        (K.faults sink.old) (K.faults sink.new) result }
    ensures nearer { IfOk result (λ went. went ≡ true → turns_left world.new < turns_left world.old) }
    ensures idle { IfOk result (λ went. went ≡ false → (w : Told) → WorldStands world.old w → IsIdle world.old.scenario w 0) }
{
    room.lines.clear();
    match world.turn(0, &mut room.lines) {
        Ok(went) => {
            room.lines.fit();
            match write_shown(&room.lines, &mut room.text, sink) {
                Ok(()) => Ok(went),
                Err(stop) => Err(stop),
            }
        }
        Err(AllocError) => Err(Stop::OutOfMemory),
    }
}

/// The step of the settlement of this number; whether there is one.
pub fn settle<P: Pages, K: Sink>(
    number: u32,
    world: &mut World<'_, P>,
    room: &mut EventBuffers,
    sink: &mut K,
) -> Result<bool, Stop>
    requires done { is_done world.old ≡ true }
    requires next { IsSettling world.old number }
    ensures happens { Happens (λ w. WorldStands world.old w × IsSettledTo world.old.scenario w number) world.old world.new (Event.Settle number) all_lines
        (K.held sink.old) (K.held sink.new) (K.faults sink.old) (K.faults sink.new) result }
    ensures there { IfOk result (λ went. went ≡ true → (w : Told) → WorldStands world.old w → IsThere world.old.scenario w (Event.Settle number)) }
    ensures past { IfOk result (λ went. went ≡ false → (w : Told) → WorldStands world.old w → slice_get (settlements world.old.scenario w) number ≡ None) }
    ensures still { IfOk result (λ went. went ≡ false → (world.new ≡ world.old) × (sink.new ≡ sink.old)) }
    ensures few { IfOk result (λ went. went ≡ true → number < 30352) }
    ensures done { is_done world.new ≡ is_done world.old }
{
    room.lines.clear();
    match world.settle(number, &mut room.lines) {
        Ok(true) => {
            room.lines.fit();
            match write_lines(&room.lines, &mut room.text, sink) {
                Ok(()) => Ok(true),
                Err(stop) => Err(stop),
            }
        }
        Ok(false) => Ok(false),
        Err(AllocError) => Err(Stop::OutOfMemory),
    }
}

/// The step of the audit of this number; whether there is one.
pub fn audit<P: Pages, K: Sink>(
    number: u32,
    world: &mut World<'_, P>,
    room: &mut EventBuffers,
    sink: &mut K,
) -> Result<bool, Stop>
    requires done { is_done world.old ≡ true }
    requires next { IsNext world.old number }
    ensures happens { Happens (WorldStands world.old) world.old world.new (Event.Audit number) all_lines (K.held sink.old) (K.held sink.new)
        (K.faults sink.old) (K.faults sink.new) result }
    ensures there { IfOk result (λ went. went ≡ true → (w : Told) → IsThere world.old.scenario w (Event.Audit number)) }
    ensures past { IfOk result (λ went. went ≡ false → slice_get (checks world.old.scenario) number ≡ None) }
    ensures still { IfOk result (λ went. went ≡ false → (world.new ≡ world.old) × (sink.new ≡ sink.old)) }
    ensures few { IfOk result (λ went. went ≡ true → number < 832) }
    ensures next { IfOk result (λ went. went ≡ true → IsNext world.new (number + 1)) }
    ensures done { is_done world.new ≡ true }
{
    room.lines.clear();
    if !world.audit(number, &mut room.lines) {
        return Ok(false);
    }
    room.lines.fit();
    match write_lines(&room.lines, &mut room.text, sink) {
        Ok(()) => Ok(true),
        Err(stop) => Err(stop),
    }
}
