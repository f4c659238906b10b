//! The settlement: by lane, its captures by purchase, or the opening of its store and what it found.
ghost use Rattle.std.specs.Prelude.{◌≡◌, ◌≤◌, ◌<◌, ◌+◌, ◌++◌, ◌∷◌, [], ℕ, List, Bool, true, length, slice_get, Some, None, OnOk, OnErr};
ghost use Rattle.std.specs.List.{All};
ghost use Rattle.auth_message.specs.Message.{message_of};
ghost use Rattle.auth_message.specs.Whole.{IsMessage};
ghost use Rattle.capture_store.specs.SeenLaneStore.{LaneStoreOn, LaneStoreOff, IsLaneStoreOff, store_losses};
ghost use Rattle.capture_store.specs.StoreRow.{StoreRow, opened_to_settle};
ghost use Rattle.issuer_host.specs.History.{HostStands, host_reply, is_new_message};
ghost use Rattle.scenario_plan.specs.Plan.{IsScenario};
ghost use Rattle.txn_replay.specs.Lines.{settle_lines};
ghost use Rattle.txn_replay.specs.Payment.{durable_of};
ghost use Rattle.txn_replay.specs.Standing.{KeepsIssuer};
ghost use Rattle.txn_replay.specs.Settling.{LanesKeep, IsStepOf, steps_of as steps_in, step_in as found_in};
ghost use Rattle.txn_replay.specs.Steps.{settlements_from, settled_store};
ghost use Rattle.txn_replay.specs.World.{LaneRow};

use crate::lane::Lane;
use crate::lines::Lines;
use crate::purchases::is_durable;
use crate::storing::copy_first;
use auth_message::Message;
use capture_store::LaneStore;
use emv_ports::Pages;
use host_link::{Wire, deliver};
use issuer_host::Host;
use scenario_lanes::Link;
use scenario_plan::Scenario;
use std::alloc::AllocError;

/// A step of the settlement.
pub(crate) enum Settling<'a> {
    /// The store of a lane is opened.
    Opens(usize),
    /// A message that a lane has captured is sent.
    Sends(usize, &'a [u8]),
    /// The oldest message of a lane's store is sent, and dropped behind its last copy.
    Drains { lane: usize, drops: bool },
}

/// How many steps a lane has.
fn steps_of(lane: &Lane<'_>, durable: bool, copies: usize) -> usize
    requires copies { copies ≤ 3 }
    requires few { length lane.now.captures.messages ≤ 10000 }
    ensures { result ≡ steps_in lane.now durable copies }
{
    if !durable {
        return lane.captures.len() * copies;
    }
    match lane.found {
        Some(found) => 1 + usize::from(found) * copies,
        None => 1,
    }
}

/// The step of this number among those of a lane.
fn step_in<'a>(
    lane: &'a Lane<'_>,
    index: usize,
    durable: bool,
    copies: usize,
    number: usize,
) -> Settling<'a>
    requires copies { 1 ≤ copies }
    requires within { number < steps_in lane.now durable copies }
    ensures { found_in lane.now index durable copies number result }
{
    if !durable {
        return Settling::Sends(index, lane.captures.at(number / copies));
    }
    if number == 0 {
        return Settling::Opens(index);
    }
    Settling::Drains {
        lane: index,
        drops: number % copies == 0,
    }
}

/// The step of the settlement of this number, from 0.
pub(crate) fn settlement<'a>(
    scenario: &Scenario,
    lanes: &'a [Lane<'_>],
    number: u32,
) -> Option<Settling<'a>>
    requires scenario { IsScenario scenario.now }
    requires few { length lanes.now ≤ 16 }
    requires captures { All (λ lane. length lane.captures.messages ≤ 10000) lanes.now }
    ensures { (rows : List LaneRow) → LanesKeep lanes.now rows → IsStepOf (durable_of scenario.now) (slice_get (settlements_from scenario.now 0 rows) number) result }
{
    let copies = usize::from(scenario.copies);
    let mut left = number as usize;
    for (index, lane) in lanes.iter().enumerate() {
        let durable = is_durable(scenario, index);
        let steps = steps_of(lane, durable, copies);
        if left < steps {
            return Some(step_in(lane, index, durable, copies, left));
        }
        left -= steps;
    }
    None
}

/// A settlement message goes to the host in the dialect of its lane, and both its lines are made. After
/// `AllocError`, which doesn't come where the host has had the message, nothing has changed.
pub(crate) fn send(
    iso: bool,
    lane: u8,
    message: &[u8],
    host: &mut Host<'_>,
    lines: &mut Lines,
) -> Result<(), AllocError>
    requires short { length message.now ≤ 2048 }
    requires message { iso ≡ true → IsMessage message.now }
    requires room { length lines.old.items < 7 }
    requires stands { (messages : List (List ℕ)) × HostStands host.old messages }
    ensures sent { OnOk result ((messages : List (List ℕ)) → HostStands host.old messages
        → (lines.new.items ≡ lines.old.items ++ settle_lines iso lane message.now (host_reply host.old.keys host.old.accounts messages message.now))
        × HostStands host.new (messages ++ message.now ∷ [])) }
    ensures two { OnOk result (length lines.new.items ≡ length lines.old.items + 2) }
    ensures issuer { KeepsIssuer host.old host.new }
    ensures err { OnErr result ((host.new ≡ host.old) × (lines.new.items ≡ lines.old.items)) }
    ensures memory { OnErr result (is_new_message host.old.books (message_of message.now) ≡ true) }
{
    let mut wire = Wire::new();
    let mut reply = Message::new();
    let _ = deliver(iso, Link::Sound, message, host, &mut wire, &mut reply)?;
    lines.settle_call(lane, wire.call.as_slice());
    lines.settle_reply(lane, wire.reply.as_slice());
    Ok(())
}

/// A lane's store is opened for settlement, without a plan.
pub(crate) fn open_to_settle<P: Pages>(lane: &mut Lane<'_>, lane_store: &mut LaneStore<P>)
    requires off { IsLaneStoreOff lane_store.old }
    ensures opened { (row : StoreRow) → LaneStoreOff lane_store.old row
        → (found : Bool) × LaneStoreOn lane_store.new (opened_to_settle row found) None × (lane.new.found ≡ Some (length (opened_to_settle row found).list)) }
    ensures losses { store_losses lane_store.new ≡ store_losses lane_store.old }
    ensures same { lane.new ≡ record lane.old { found = lane.new.found } }
{
    let Ok(()) = lane_store.open(None) else {
        unreachable!();
    };
    lane.found = Some(lane_store.count() as u8);
}

/// The oldest message of a lane's store, which is on without a plan, is sent, and dropped behind its last copy. Its
/// lines stand in place of what the lines held; after `AllocError` there are none, and nothing else has changed.
pub(crate) fn drain<P: Pages>(
    iso: bool,
    lane: u8,
    drops: bool,
    lane_store: &mut LaneStore<P>,
    host: &mut Host<'_>,
    lines: &mut Lines,
) -> Result<(), AllocError>
    requires on { (row : StoreRow) × LaneStoreOn lane_store.old row None × (0 < length row.list) × All IsMessage row.list }
    requires stands { (messages : List (List ℕ)) × HostStands host.old messages }
    ensures drained { OnOk result ((row : StoreRow) → LaneStoreOn lane_store.old row None → LaneStoreOn lane_store.new (settled_store drops row) None) }
    ensures lines { OnOk result ((row : StoreRow) (message : List ℕ) (messages : List (List ℕ)) → LaneStoreOn lane_store.old row None
        → slice_get row.list 0 ≡ Some message → HostStands host.old messages
        → (lines.new.items ≡ settle_lines iso lane message (host_reply host.old.keys host.old.accounts messages message))
        × HostStands host.new (messages ++ message ∷ [])) }
    ensures losses { store_losses lane_store.new ≡ store_losses lane_store.old }
    ensures issuer { KeepsIssuer host.old host.new }
    ensures err { OnErr result ((lane_store.new ≡ lane_store.old) × (host.new ≡ host.old) × (lines.new.items ≡ [])) }
{
    let mut message = Message::new();
    copy_first(lane_store, &mut message);
    lines.clear();
    send(iso, lane, message.as_slice(), host, lines)?;
    if drops {
        let Ok(()) = lane_store.drop_first() else {
            unreachable!();
        };
    }
    Ok(())
}
