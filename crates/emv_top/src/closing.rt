//! The lines behind the events of a run: each account's balance, and how many purchases ended.
ghost use Rattle.std.specs.Prelude.{◌≡◌, OnOk, OnErr};
ghost use Rattle.std.specs.Io.KnownBytes.{Appends};
ghost use Rattle.emv_ports.specs.Growth.{AppendsFront};
ghost use Rattle.emv_top.specs.Stops.{HasStop};
ghost use Rattle.emv_top.specs.Texts.{text_of_lines};
ghost use Rattle.txn_replay.specs.Run.{account_lines, closing};
ghost use Rattle.txn_replay.specs.World.{World as Told};
ghost use Rattle.txn_replay.specs.Seen.{WorldStands};

use crate::lines::emit;
use crate::stop::Stop;
use emv_ports::{Pages, Sink};
use issuer_host::Account;
use report_text::{Line, Text};
use scenario_plan::Scenario;
use txn_replay::World;

/// An account's balance.
fn balance<P: Pages, K: Sink>(
    account: &Account,
    world: &World<'_, P>,
    text: &mut Text,
    sink: &mut K,
) -> Result<(), Stop>
    ensures all { OnOk result ((w : Told) → WorldStands world.now w
        → Appends (K.held sink.old) (K.held sink.new) (text_of_lines (account_lines world.now.scenario w account.now))) }
    ensures front { OnErr result ((w : Told) → WorldStands world.now w
        → AppendsFront (K.held sink.old) (K.held sink.new) (text_of_lines (account_lines world.now.scenario w account.now))) }
    ensures stop { HasStop (K.faults sink.old) (K.faults sink.new) result }
{
    match world.balance(&account.pan) {
        Some(amount) => {
            let line = Line::Balance {
                pan: account.pan.copy(),
                amount,
            };
            emit(&line, text, sink)
        }
        None => Ok(()),
    }
}

/// The lines behind the events.
pub fn close<P: Pages, K: Sink>(
    scenario: &Scenario,
    world: &World<'_, P>,
    text: &mut Text,
    sink: &mut K,
) -> Result<(), Stop>
    requires { world.now.scenario ≡ scenario.now }
    ensures all { OnOk result ((w : Told) → WorldStands world.now w → Appends (K.held sink.old) (K.held sink.new) (text_of_lines (closing scenario.now w))) }
    ensures front { OnErr result ((w : Told) → WorldStands world.now w → AppendsFront (K.held sink.old) (K.held sink.new) (text_of_lines (closing scenario.now w))) }
    ensures stop { HasStop (K.faults sink.old) (K.faults sink.new) result }
{
    for account in &scenario.accounts {
        match balance(account, world, text, sink) {
            Ok(()) => {}
            Err(stop) => return Err(stop),
        }
    }
    let line = Line::Done {
        number: world.ended(),
    };
    emit(&line, text, sink)
}
