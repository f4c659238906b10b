//! The bytes that were read, as a scenario or its first fault.
ghost use Rattle.std.specs.Prelude.{◌≡◌, ◌≤◌, length, codes, IfOk};
ghost use Rattle.scenario_plan.specs.Plan.{IsScenario};
ghost use Rattle.scenario_fields.specs.Fault.{TellsFault};
ghost use Rattle.scenario_fields.specs.declared.fault.ScenarioFault.TheVariants.{UnknownName};
ghost use Rattle.txn_replay.specs.Reading.{to_read};
ghost use Rattle.emv_top.specs.declared.words.Task.{Task};
ghost use Rattle.emv_top.specs.Input.{IsInput, first_purchases};

use crate::words::Task;
use scenario::{Path, ScenarioFault, read_scenario};
use scenario_plan::Scenario;
use std::alloc::Global;

/// The fault of a scenario of which no card can be read.
fn no_purchase(alloc: Global) -> ScenarioFault
    ensures { TellsFault result (UnknownName (codes "lane[0].purchase[0]")) }
{
    match String::from_str(alloc, "lane[0].purchase[0]") {
        Ok(text) => ScenarioFault::UnknownName {
            path: Path::new(text),
        },
        Err(_) => ScenarioFault::OutOfMemory,
    }
}

/// How many purchases the first lane has.
fn first_count(scenario: &Scenario) -> usize
    requires { IsScenario scenario.now }
    ensures { result ≡ length (first_purchases scenario.now.lanes) }
{
    let lanes = scenario.lanes.as_slice();
    match lanes {
        [first, ..] => first.purchases.as_slice().len(),
        [] => 0,
    }
}

/// Reads the scenario of its document's bytes. For `read` its first lane must have a purchase, which is
/// tried last of all.
pub fn read_input(alloc: Global, task: Task, bytes: &[u8]) -> Result<Scenario, ScenarioFault>
    ensures exact { IsInput task bytes.now result }
    ensures rules { IfOk result IsScenario }
    ensures some { IfOk result (λ scenario. task ≡ Task.Read → 1 ≤ length (first_purchases scenario.lanes)) }
{
    let scenario = read_scenario(alloc, bytes)?;
    match task {
        Task::Replay => Ok(scenario),
        Task::Read => {
            if first_count(&scenario) == 0 {
                Err(no_purchase(alloc))
            } else {
                Ok(scenario)
            }
        }
    }
}

fn drop_tear(scenario: &mut Scenario)
    requires { IsScenario scenario.old }
    ensures { scenario.new ≡ to_read scenario.old }
{
    if let Some(planned) = scenario.lanes[0].purchases.first_mut() {
        planned.tear = None;
        planned.terminal_tear = None;
    }
}

/// Takes the tears of card and terminal off the first lane's first purchase.
pub fn take_tear(scenario: &mut Scenario)
    requires { IsScenario scenario.old }
    ensures taken { scenario.new ≡ to_read scenario.old }
    ensures rules { IsScenario scenario.new }
    ensures same { length (first_purchases scenario.new.lanes) ≡ length (first_purchases scenario.old.lanes) }
{
    drop_tear(scenario);
}
