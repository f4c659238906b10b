//! The terminal as it answers line by line.
ghost use Rattle.std.specs.Prelude.{◌≡◌, ◌≤◌, ◌<◌, ◌+◌, [], length, IfOk, option_map, slice_get};
ghost use Rattle.emv_dict.specs.Settings.{IsPurchase, IsSettings};
ghost use Rattle.scenario_lanes.specs.Plan.{IsLane};
ghost use Rattle.terminal_at_reader.specs.Document.{most_purchases};
ghost use Rattle.terminal_at_reader.specs.Talk.{Doing, HasAmounts, HasAskedSo, IsTerminalTalk, IsTurnOf, Rests, WorksAt, asked_turn, next_turn, outset_of_planned, resting_turn, terminal_opening, terminal_turn};
ghost use Rattle.terminal_at_reader.specs.Till.{TillData, till_begun};

use crate::asking::tell_ask;
use crate::losing::answer_losing;
use crate::paying::{add_asked, answer_paying};
use crate::saying::{put_other, put_why};
use crate::settling::{add_settlement, answer_settling};
use crate::till::Till;
use crate::work::{Phase, Work};
use kernel::{Kernel, Next};
use line_talk::{LineText, Onward, Party};
use scenario_lanes::{Lane, Planned};
use std::alloc::{AllocError, Global};

/// A terminal with its purchases.
#[derive(Drop)]
pub struct Terminal<'s> {
    pub lane: &'s Lane,
    pub work: Work<'s>,
}

/// Whether a lane's messages to the issuer's host go in the style of ISO 8583.
fn is_iso(lane: &Lane) -> bool
    ensures { result ≡ lane.now.iso }
{
    lane.iso
}

/// The type of a lane's terminal.
fn type_of(lane: &Lane) -> u8
    ensures { result ≡ lane.now.settings.kind }
{
    lane.settings.kind
}

/// The amount of a purchase.
fn amount_of(planned: &Planned) -> u64
    ensures { result ≡ planned.now.purchase.amount }
{
    planned.purchase.amount
}

/// The purchase behind so many of a lane.
fn planned_at(lane: &Lane, number: usize) -> Option<&Planned>
    ensures { option_map (λ planned. planned.now) result ≡ slice_get lane.now.purchases number }
{
    lane.purchases.get(number)
}

/// A terminal whose first purchase begins.
pub fn begin<'s>(alloc: Global, lane: &'s Lane) -> Terminal<'s>
    requires some { 1 ≤ length lane.now.purchases }
    requires few { length lane.now.purchases ≤ most_purchases }
    requires rules { IsLane lane.now }
    ensures begun { HasAskedSo result.lane.now result.work [] }
    ensures lane { result.lane.now ≡ lane.now }
{
    let planned = &lane.purchases[0];
    let mut till = Till::new(alloc);
    till.begin();
    let kernel = Kernel::begin(&lane.settings, &planned.purchase);
    // It asks the card first.
    let waits = kernel.next();
    prove!(matches!(waits, Next::ToCard));
    let work = Work {
        kernel,
        amount: amount_of(planned),
        terminal_type: type_of(lane),
        phase: Phase::Pays,
        till,
    };
    Terminal { lane, work }
}

/// Begins a purchase in place of the one before it, and puts what it asks first into a text that is empty.
fn begin_planned<'s>(
    lane: &'s Lane,
    planned: &'s Planned,
    work: &mut Work<'s>,
    text: &mut Vec<u8>,
) -> Result<Onward, AllocError>
    requires settings { IsSettings lane.now.settings }
    requires purchase { IsPurchase planned.now.purchase }
    requires few { work.old.till.begun < most_purchases }
    requires log { HasAmounts work.old.till.log }
    ensures turn { IfOk result (λ onward. IsTurnOf work.new text.new.items onward
        (asked_turn lane.now.iso (outset_of_planned lane.now planned.now) [] (till_begun work.old.till) text.old.items)) }
{
    work.kernel.begin_again(&lane.settings, &planned.purchase);
    work.amount = amount_of(planned);
    work.terminal_type = type_of(lane);
    work.phase = Phase::Pays;
    work.till.begin();
    add_asked(is_iso(lane), work, text)
}

/// Begins the next purchase, where one is left.
fn begin_next<'s>(
    lane: &'s Lane,
    work: &mut Work<'s>,
    text: &mut Vec<u8>,
) -> Result<Onward, AllocError>
    requires rules { IsLane lane.now }
    requires few { length lane.now.purchases ≤ most_purchases }
    requires works { WorksAt work.old Rests work.old.till }
    requires empty { text.old.items ≡ [] }
    ensures turn { IfOk result (λ onward. IsTurnOf work.new text.new.items onward (next_turn lane.now work.old.till)) }
{
    match planned_at(lane, work.till.begun()) {
        Some(planned) => begin_planned(lane, planned, work, text),
        None => put_other(Onward::Rests, text),
    }
}

/// Answers a line at rest: `next` by what the next purchase asks first, `settle` by the first message that waits for
/// settlement, and `why` by what the last question of the purchase that ended last rests on; or it has lost its power.
fn answer_resting<'s>(
    lane: &'s Lane,
    work: &mut Work<'s>,
    line: &[u8],
    text: &mut Vec<u8>,
) -> Result<Onward, AllocError>
    requires rules { IsLane lane.now }
    requires few { length lane.now.purchases ≤ most_purchases }
    requires works { WorksAt work.old Rests work.old.till }
    ensures turn { IfOk result (λ onward. IsTurnOf work.new text.new.items onward (resting_turn lane.now work.old.till line.now)) }
{
    text.clear();
    if line == b"next".as_slice() {
        return begin_next(lane, work, text);
    }
    if line == b"settle".as_slice() {
        return add_settlement(is_iso(lane), work, 0, text);
    }
    if line == b"why".as_slice() {
        return put_why(work.till.question(), Onward::Rests, text);
    }
    answer_losing(work, line, text)
}

/// Answers a line, by what the terminal is at.
fn answer_line<'s>(
    alloc: Global,
    lane: &'s Lane,
    work: &mut Work<'s>,
    line: &[u8],
    text: &mut Vec<u8>,
) -> Result<Onward, AllocError>
    requires rules { IsLane lane.now }
    requires few { length lane.now.purchases ≤ most_purchases }
    requires works { (doing : Doing) × (till : TillData) × WorksAt work.old doing till }
    ensures turn { IfOk result (λ onward. (doing : Doing) (till : TillData) → WorksAt work.old doing till
        → IsTurnOf work.new text.new.items onward (terminal_turn lane.now doing till line.now)) }
{
    match work.phase {
        Phase::Pays => answer_paying(alloc, is_iso(lane), work, line, text),
        Phase::Rests => answer_resting(lane, work, line, text),
        Phase::Settles(answered) => {
            answer_settling(alloc, is_iso(lane), work, answered, line, text)
        }
    }
}

impl Party for Terminal<'_> {
    ghost opening = { λ terminal. terminal_opening terminal.lane.now };

    ghost stands = { λ terminal turns. HasAskedSo terminal.lane.now terminal.work turns };

    ghost talks = { λ terminal turns. IsTerminalTalk terminal.lane.now turns };

    fn open(&mut self, text: &mut LineText) -> Onward {
        tell_ask(is_iso(self.lane), &self.work.kernel, text);
        Onward::Awaits
    }

    fn answer(
        &mut self,
        alloc: Global,
        line: &[u8],
        text: &mut Vec<u8>,
    ) -> Result<Onward, AllocError> {
        answer_line(alloc, self.lane, &mut self.work, line, text)
    }

    ghost told = { λ terminal turns stands. (stands.doing, stands.till, stands.talked) };
}
