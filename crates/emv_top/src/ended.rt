//! What a run leaves: a status, the pages and the tally.
ghost use Rattle.std.specs.Prelude.{◌≡◌};
ghost use Rattle.emv_top.specs.Answers.{Leaves, Refuses, Unbegun};
ghost use Rattle.emv_top.specs.StatusCode.{Concludes};
ghost use Rattle.txn_replay.specs.Laws.{IsFair};
ghost use Rattle.txn_replay.specs.World.{World as Told};
ghost use Rattle.txn_replay.specs.Seen.{WorldStands};

use crate::bank::{BlankBank, UsedBank};
use crate::status::Status;
use emv_ports::{Failed, Pages, Sink, write_all};
use kernel::Tally;
use scenario_fields::ScenarioFault;
use std::alloc::Global;
use txn_replay::World;

/// How a run ended, the cards' pages, and what the terminals counted.
#[derive(Drop)]
pub struct Ended<P: Pages> {
    pub status: Status,
    pub bank: UsedBank<P>,
    pub tally: Tally,
}

/// The end before a world was made.
pub fn unbegun<P: Pages>(status: Status, bank: BlankBank<P>) -> Ended<P>
    ensures status { result.status ≡ status }
    ensures unbegun { Unbegun result.bank result.tally }
{
    Ended {
        status,
        bank: bank.unused(),
        tally: Tally::new(),
    }
}

/// The end with the line of a fault.
pub fn refuse<P: Pages, K: Sink>(
    alloc: Global,
    fault: &ScenarioFault,
    bank: BlankBank<P>,
    sink: &mut K,
) -> Ended<P>
    ensures refuses { Concludes (Refuses fault.now (K.held sink.old) (K.held sink.new) result.bank result.tally) (K.faults sink.old) (K.faults sink.new) result.status }
    ensures unbegun { Unbegun result.bank result.tally }
{
    match fault.line(alloc) {
        Ok(line) => match write_all(sink, line.as_bytes()) {
            Ok(()) => unbegun(Status::Refused, bank),
            Err(Failed) => unbegun(Status::WriteFault, bank),
        },
        Err(_) => unbegun(Status::OutOfMemory, bank),
    }
}

/// The end of a world.
pub fn end_world<P: Pages>(status: Status, world: World<'_, P>) -> Ended<P>
    ensures status { result.status ≡ status }
    ensures leaves { (w : Told) → WorldStands world.entry w → IsFair world.entry.scenario w
        → Leaves world.entry.scenario result.bank result.tally w }
{
    let (bank, tally) = world.into_bank();
    Ended {
        status,
        bank: UsedBank::new(bank),
        tally,
    }
}
