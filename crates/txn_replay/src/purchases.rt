//! The purchases of a scenario's lanes.
ghost use Rattle.std.specs.Prelude.{◌≡◌, ◌<◌, length, option_map, IfSome};
ghost use Rattle.scenario_plan.specs.Plan.{IsScenario};
ghost use Rattle.txn_replay.specs.Payment.{payment_in, dialect_of, durable_of};
ghost use Rattle.txn_replay.specs.Standing.{seen_payment};

use crate::payment::Payment;
use scenario_plan::Scenario;

/// The lane's purchase of this number, from 0, where it has one.
pub(crate) fn payment_at(scenario: &Scenario, lane: usize, number: u32) -> Option<Payment<'_>>
    requires scenario { IsScenario scenario.now }
    requires lane { lane < length scenario.now.lanes }
    ensures payment { option_map (seen_payment scenario.now.issuer scenario.now.accounts) result ≡ payment_in scenario.now lane number }
    ensures card { IfSome result (λ at. at.planned.now.card < length scenario.now.cards) }
{
    let terminal = &scenario.lanes[lane];
    match terminal.purchases.get(number as usize) {
        Some(planned) => Some(Payment {
            copies: scenario.copies,
            lane: lane as u8,
            iso: terminal.iso,
            durable: terminal.durable,
            settings: &terminal.settings,
            planned,
            card: &scenario.cards[planned.card],
        }),
        None => None,
    }
}

/// Whether the lane speaks ISO 8583 with the host.
pub(crate) fn speaks_iso(scenario: &Scenario, lane: usize) -> bool
    ensures { result ≡ dialect_of scenario.now lane }
{
    match scenario.lanes.get(lane) {
        Some(terminal) => terminal.iso,
        None => false,
    }
}

/// Whether the lane keeps its captures durably.
pub(crate) fn is_durable(scenario: &Scenario, lane: usize) -> bool
    ensures { result ≡ durable_of scenario.now lane }
{
    match scenario.lanes.get(lane) {
        Some(terminal) => terminal.durable,
        None => false,
    }
}
