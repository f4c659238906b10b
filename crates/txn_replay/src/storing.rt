//! What comes before a purchase of a lane that keeps its captures durably: its store is opened, and a full one
//! delivers its first message.
ghost use Rattle.std.specs.Prelude.{◌≡◌, ◌+◌, ◌≤◌, ◌<◌, ◌++◌, [], ℕ, List, Bool, length, replicate, slice_get, true, false, Some, Option, IfOk, OnOk, OnErr};
ghost use Rattle.std.specs.List.{All};
ghost use Rattle.auth_message.specs.Whole.{IsMessage};
ghost use Rattle.capture_store.specs.SeenLaneStore.{LaneStoreOn, has_power};
ghost use Rattle.capture_store.specs.StoreRow.{StoreRow};
ghost use Rattle.emv_ports.specs.declared.tear.Tear.{Tear as Plan};
ghost use Rattle.issuer_host.specs.Account.{AccountData};
ghost use Rattle.issuer_host.specs.History.{HostData, HostStands};
ghost use Rattle.issuer_host.specs.declared.keys.HostKeys.{HostKeys};
ghost use Rattle.txn_replay.specs.Part.{Part};
ghost use Rattle.txn_replay.specs.Prepared.{StoreRests, PreparedBy};
ghost use Rattle.txn_replay.specs.Standing.{HasRoomForCapture, lane_left, lane_store_left, seen_payment, StillWaits, KeepsIssuer};
ghost use Rattle.txn_replay.specs.Storing.{copy_lines, before_purchase};

use crate::lane::{Lane, lose_purchase};
use crate::lines::Lines;
use crate::payment::Payment;
use crate::settlement::send;
use auth_message::Message;
use ber_tlv::append;
use capture_store::LaneStore;
use emv_ports::{Gone, Pages};
use issuer_host::Host;
use std::alloc::AllocError;

/// What comes before the next purchase of a lane, whose card no purchase has. Answers whether the purchase
/// begins in this exchange: it doesn't where a full store is found, which is delivered from in the next one,
/// where that is done, or where the terminal loses its power at either. After `AllocError` nothing has changed.
pub(crate) fn prepare<P: Pages>(
    at: &Payment<'_>,
    lane: &mut Lane<'_>,
    lane_store: &mut LaneStore<P>,
    host: &mut Host<'_>,
    lines: &mut Lines,
) -> Result<bool, AllocError>
    requires stands { (part : Part) × StoreRests (seen_payment host.old.keys host.old.accounts at.now) lane.old lane_store.old part
        × HostStands host.old part.messages }
    ensures prepared { IfOk result (λ begins. (part : Part)
        → StoreRests (seen_payment host.old.keys host.old.accounts at.now) lane.old lane_store.old part → HostStands host.old part.messages
        → (one : Bool) × PreparedBy (seen_payment host.old.keys host.old.accounts at.now) lane.new lane_store.new host.new lines.new.items begins
        (before_purchase (seen_payment host.old.keys host.old.accounts at.now) part one)) }
    ensures same { IfOk result (λ begins. begins ≡ true → lane.new ≡ lane.old) }
    ensures room { IfOk result (λ begins. begins ≡ true → HasRoomForCapture lane_store.new at.now.durable) }
    ensures waits { OnOk result (StillWaits lane.old lane.new lane_store.new (lane_left lane.old + lane_store_left lane_store.old + 1)) }
    ensures closer { IfOk result (λ begins. begins ≡ false → lane_left lane.new + lane_store_left lane_store.new < lane_left lane.old + lane_store_left lane_store.old) }
    ensures issuer { KeepsIssuer host.old host.new }
    ensures err { OnErr result ((lane.new ≡ lane.old) × (lane_store.new ≡ lane_store.old) × (host.new ≡ host.old) × (lines.old.items ≡ [] → lines.new.items ≡ [])) }
{
    if !at.durable {
        return Ok(true);
    }
    if !lane_store.is_on() {
        return Ok(open_store(at, lane, lane_store, lines));
    }
    if !lane_store.is_full() {
        return Ok(true);
    }
    deliver_first(at, lane, lane_store, host, lines)?;
    Ok(false)
}

/// The store is opened under the terminal's plan. Answers whether it has room.
fn open_store<P: Pages>(
    at: &Payment<'_>,
    lane: &mut Lane<'_>,
    lane_store: &mut LaneStore<P>,
    lines: &mut Lines,
) -> bool
    requires durable { at.now.durable ≡ true }
    requires off { has_power lane_store.old ≡ false }
    requires stands { (issuer : HostKeys) × (accounts : List AccountData) × (part : Part)
        × StoreRests (seen_payment issuer accounts at.now) lane.old lane_store.old part }
    ensures opened { (issuer : HostKeys) (accounts : List AccountData) (part : Part) (host : HostData)
        → StoreRests (seen_payment issuer accounts at.now) lane.old lane_store.old part → HostStands host part.messages
        → (one : Bool) × PreparedBy (seen_payment issuer accounts at.now) lane.new lane_store.new host lines.new.items result
        (before_purchase (seen_payment issuer accounts at.now) part one) }
    ensures same { result ≡ true → lane.new ≡ lane.old }
    ensures room { result ≡ true → HasRoomForCapture lane_store.new at.now.durable }
    ensures waits { StillWaits lane.old lane.new lane_store.new (lane_left lane.old + lane_store_left lane_store.old) }
{
    lines.clear();
    match lane_store.open(at.planned.terminal_tear) {
        Ok(()) => !lane_store.is_full(),
        Err(Gone) => {
            lose_purchase(at, lane, lines);
            false
        }
    }
}

/// The first message of a full store is sent as often as a settlement message is, and dropped. After
/// `AllocError` nothing has changed.
fn deliver_first<P: Pages>(
    at: &Payment<'_>,
    lane: &mut Lane<'_>,
    lane_store: &mut LaneStore<P>,
    host: &mut Host<'_>,
    lines: &mut Lines,
) -> Result<(), AllocError>
    requires durable { at.now.durable ≡ true }
    requires full { lane_store_left lane_store.old ≡ 1 }
    requires stands { (part : Part) × StoreRests (seen_payment host.old.keys host.old.accounts at.now) lane.old lane_store.old part
        × HostStands host.old part.messages }
    ensures delivered { OnOk result ((part : Part) (one : Bool)
        → StoreRests (seen_payment host.old.keys host.old.accounts at.now) lane.old lane_store.old part → HostStands host.old part.messages
        → PreparedBy (seen_payment host.old.keys host.old.accounts at.now) lane.new lane_store.new host.new lines.new.items false
        (before_purchase (seen_payment host.old.keys host.old.accounts at.now) part one)) }
    ensures waits { OnOk result (StillWaits lane.old lane.new lane_store.new (lane_left lane.old + lane_store_left lane_store.old)) }
    ensures issuer { KeepsIssuer host.old host.new }
    ensures err { OnErr result ((lane.new ≡ lane.old) × (lane_store.new ≡ lane_store.old) × (host.new ≡ host.old) × (lines.old.items ≡ [] → lines.new.items ≡ [])) }
{
    let mut message = Message::new();
    copy_first(lane_store, &mut message);
    send_copies(at, message.as_slice(), host, lines)?;
    match lane_store.drop_first() {
        Ok(()) => Ok(()),
        Err(Gone) => {
            lose_purchase(at, lane, lines);
            Ok(())
        }
    }
}

/// The oldest message of a store that has one, in place of what `out` held.
pub(crate) fn copy_first<P: Pages>(lane_store: &LaneStore<P>, out: &mut Message)
    requires on { has_power lane_store.now ≡ true }
    requires some { (row : StoreRow) × (plan : Option Plan) × LaneStoreOn lane_store.now row plan × (0 < length row.list) × All IsMessage row.list }
    ensures first { (row : StoreRow) (plan : Option Plan) → LaneStoreOn lane_store.now row plan → slice_get row.list 0 ≡ Some out.new.items }
    ensures read { IsMessage out.new.items }
{
    let Some(first) = lane_store.first() else {
        unreachable!();
    };
    out.clear();
    append(out, first);
}

/// So many copies of a settlement message as the scenario says, whose lines stand in place of what the lines held.
/// After `AllocError` nothing has happened: only the first of them can want memory.
fn send_copies(
    at: &Payment<'_>,
    message: &[u8],
    host: &mut Host<'_>,
    lines: &mut Lines,
) -> Result<(), AllocError>
    requires message { IsMessage message.now }
    requires short { length message.now ≤ 2048 }
    requires stands { (messages : List (List ℕ)) × HostStands host.old messages }
    ensures lines { OnOk result ((messages : List (List ℕ)) → HostStands host.old messages
        → lines.new.items ≡ copy_lines (seen_payment host.old.keys host.old.accounts at.now) message.now messages at.now.copies) }
    ensures count { OnOk result (length lines.new.items ≤ 6) }
    ensures stands { OnOk result ((messages : List (List ℕ)) → HostStands host.old messages
        → HostStands host.new (messages ++ replicate at.now.copies message.now)) }
    ensures issuer { KeepsIssuer host.old host.new }
    ensures err { OnErr result ((host.new ≡ host.old) × (lines.new.items ≡ [])) }
{
    lines.clear();
    for _copy in 0..at.copies {
        send(at.iso, at.lane, message, host, lines)?;
    }
    Ok(())
}
