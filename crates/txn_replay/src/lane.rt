//! A lane of a run: a terminal with its purchases.
ghost use Rattle.std.specs.Prelude.{◌≡◌, ◌+◌, ◌≤◌, ◌<◌, ◌++◌, ◌∷◌, [], List, length, true, false, if◌then◌else◌, IsSomeAnd, Some, None, Option, IsSome, IfOk, OnOk, sum_by, option_map, option_to_list};
ghost use Rattle.std.specs.List.{All};
ghost use Rattle.std.specs.Vec.{vec_len, vec_capacity};
ghost use Rattle.auth_message.specs.Whole.{IsMessage};
ghost use Rattle.emv_dict.specs.Settings.{most_amount};
ghost use Rattle.emv_dict.specs.Views.{PurchaseData};
ghost use Rattle.issuer_host.specs.Account.{AccountData};
ghost use Rattle.issuer_host.specs.declared.keys.HostKeys.{HostKeys};
ghost use Rattle.kernel.specs.Ended.{EndData};
ghost use Rattle.kernel.specs.Kernel.{kernel_next};
ghost use Rattle.kernel.specs.Reply.{Reply};
ghost use Rattle.kernel.specs.Tally.{raised};
ghost use Rattle.kernel.specs.declared.kernel.Next.TheVariants as next;
ghost use Rattle.object_lists.specs.CardRead.{ReadCard};
ghost use Rattle.capture_store.specs.SeenLaneStore.{has_power, count_of};
ghost use Rattle.capture_store.specs.Waits.{HasSpace};
ghost use Rattle.emv_ports.specs.declared.tear.Tear.{Tear as Plan};
ghost use Rattle.report_text.specs.declared.line.Line.TheVariants.{EndLost};
ghost use Rattle.txn_replay.specs.Lines.{outcome_line};
ghost use Rattle.txn_replay.specs.Stocking.{IsStoredBy, IsNoRequest};
ghost use Rattle.txn_replay.specs.Part.{lane_ended, loses, approval};
ghost use Rattle.txn_replay.specs.declared.lane.Outcome.TheVariants as outcome;
ghost use Rattle.txn_replay.specs.Payment.{end_at};
ghost use Rattle.txn_replay.specs.Standing.{SameLane, card_last_read, LaneKeeps, LaneStands, LaneStoreStands, HasRoomForCapture, lane_left, lane_store_left, seen_payment, MayBegin, MayFinish};
ghost use Rattle.txn_replay.specs.Storing.{lane_lost};
ghost use Rattle.txn_replay.specs.Seen.{IsNewLane, done_below, is_lane_done};
ghost use Rattle.txn_replay.specs.World.{LaneRow};

use crate::lines::{Lines, end_parts};
use crate::payment::Payment;
use auth_message::Message;
use capture_store::{LaneStore, Waiting};
use emv_dict::{Digits, Ending, Logged};
use emv_ports::{Gone, Pages};
use kernel::{Capture, EndRecord, Kernel, Tally};
use object_lists::CardData;
use report_text::Line;
use scenario_lanes::{Lane as Terminal, Planned};
use std::alloc::{AllocError, Global};

/// A terminal: how many of its purchases have ended, the one that runs, its log of approvals, the messages
/// for settlement, how the purchase that ended last has ended, and how many messages the opening of its store
/// for settlement has found.
#[derive(Drop)]
pub(crate) struct Lane<'s> {
    pub ended: u32,
    pub running: Option<Box<Kernel<'s>>>,
    /// The dialogue that ended last, with what reading gave. The next one begins in its place.
    pub place: Option<Box<Kernel<'s>>>,
    pub log: Vec<Logged>,
    pub captures: Waiting,
    pub ending: Option<Ending>,
    pub found: Option<u8>,
}

/// Makes room for an approval and for what is captured, and where no purchase runs for the dialogue of the next
/// one. After `AllocError` the lane has at most more room than before.
pub(crate) fn make_room<'s>(at: &Payment<'s>, lane: &mut Lane<'s>) -> Result<(), AllocError>
    ensures same { SameLane lane.old lane.new }
    ensures place { OnOk result (lane.new.running ≡ None → IsSome lane.new.place) }
    ensures log { OnOk result (vec_len lane.new.log < vec_capacity lane.new.log) }
    ensures captures { OnOk result (HasSpace lane.new.captures) }
{
    lane.log.reserve(1)?;
    lane.captures.reserve()?;
    if lane.running.is_none() && lane.place.is_none() {
        let alloc = *lane.log.allocator();
        let planned = at.planned;
        let kernel = Kernel::begin(at.settings, &planned.purchase);
        lane.place = Some(Box::new(alloc, kernel)?);
    }
    Ok(())
}

/// What becomes of a purchase's outcome.
#[derive(Clone, Copy, PartialEq, Eq, Debug)]
pub(crate) enum Outcome {
    /// It is told.
    Told,
    /// The terminal has lost its power as it was stored.
    Lost,
}

/// Ends the purchase whose dialogue is over: its capture goes to the store, which is turned off then, or waits
/// for settlement; behind that its end line is made, and an approval joins the log. Where the terminal loses
/// its power at the store, the line tells that the purchase is lost, and it joins no log.
pub(crate) fn finish<'s, P: Pages>(
    at: &Payment<'s>,
    lane: &mut Lane<'s>,
    lane_store: &mut LaneStore<P>,
    tally: &mut Tally,
    lines: &mut Lines,
)
    requires over { IsSomeAnd lane.old.running (λ kernel. kernel_next kernel.value ≡ next.Ended) }
    requires ready { MayFinish lane.old lane_store.old at.now.durable lines.old.items }
    ensures stands { (issuer : HostKeys) (accounts : List AccountData) (replies : List Reply) (row : LaneRow)
        → LaneStands lane.old (seen_payment issuer accounts at.now) (record row { running = Some replies })
        → LaneStoreStands lane_store.old (seen_payment issuer accounts at.now) row
        → (end : EndData) × (end_at (seen_payment issuer accounts at.now) replies ≡ Some end)
        × LaneStands lane.new (seen_payment issuer accounts at.now) (lane_ended (seen_payment issuer accounts at.now) replies end row)
        × LaneStoreStands lane_store.new (seen_payment issuer accounts at.now) (lane_ended (seen_payment issuer accounts at.now) replies end row)
        × (lines.new.items ≡ lines.old.items ++ outcome_line (loses (seen_payment issuer accounts at.now) row.store end.capture) at.now.lane (length row.ended + 1) end ∷ [])
        × (tally.new ≡ raised tally.old end.ending (length replies)) }
    ensures amounts { All (λ logged. logged.amount ≤ most_amount) lane.new.log.items }
    ensures ended { lane.new.ended ≡ lane.old.ended + 1 }
    ensures rests { lane.new.running ≡ None }
    ensures nearer { lane_left lane.new + lane_store_left lane_store.new < lane_left lane.old + lane_store_left lane_store.old }
{
    let Some(mut kernel) = lane.running.take() else {
        unreachable!();
    };
    let ended = kernel.end(tally);
    lane.place = Some(kernel);
    lane.ended += 1;
    let parts = end_parts(&ended);
    let EndRecord {
        ending,
        tvr: _,
        tsi: _,
        cvm: _,
        pan,
        code: _,
        last: _,
        scripts: _,
        capture,
    } = ended;
    lane.ending = Some(ending);
    match keep_capture(at, &mut lane.captures, lane_store, capture) {
        Outcome::Told => {
            lines.end(at.lane, lane.ended, parts);
            add_approval(&mut lane.log, ending, pan, amount_of(at.planned));
        }
        Outcome::Lost => lines.end_lost(at.lane, lane.ended),
    }
}

/// What is captured goes to the store of a terminal that has one, or waits for settlement.
fn keep_capture<P: Pages>(
    at: &Payment<'_>,
    captures: &mut Waiting,
    lane_store: &mut LaneStore<P>,
    capture: Option<Capture>,
) -> Outcome
    requires captures { HasSpace captures.old }
    requires room { HasRoomForCapture lane_store.old at.now.durable }
    requires settles { IsNoRequest capture }
    ensures waits { captures.new.messages ≡ captures.old.messages ++ (if at.now.durable then [] else option_to_list capture) }
    ensures read { All IsMessage (option_to_list capture) }
    ensures stored { at.now.durable ≡ true → IsStoredBy lane_store.old lane_store.new at.now.planned.now.terminal_tear capture result }
    ensures told { at.now.durable ≡ false → (result ≡ outcome.Told) × (lane_store.new ≡ lane_store.old) }
{
    if at.durable {
        return store_capture(lane_store, capture);
    }
    add_capture(captures, capture);
    Outcome::Told
}

/// What is captured joins the messages of the store, which is turned off then.
fn store_capture<P: Pages>(lane_store: &mut LaneStore<P>, capture: Option<Capture>) -> Outcome
    requires on { has_power lane_store.old ≡ true }
    requires room { count_of lane_store.old < 7 }
    requires settles { IsNoRequest capture }
    ensures stored { (plan : Option Plan) → IsStoredBy lane_store.old lane_store.new plan capture result }
    ensures read { All IsMessage (option_to_list capture) }
{
    let Some(capture) = capture else {
        lane_store.power_off();
        return Outcome::Told;
    };
    let mut message = Message::new();
    capture.into_message(&mut message);
    match lane_store.add(message.as_slice()) {
        Ok(()) => {
            lane_store.power_off();
            Outcome::Told
        }
        Err(Gone) => Outcome::Lost,
    }
}

/// The purchase that is next is lost before its card is powered up.
pub(crate) fn lose_purchase(at: &Payment<'_>, lane: &mut Lane<'_>, lines: &mut Lines)
    requires begins { MayBegin lane.old }
    requires lines { length lines.old.items < 8 }
    ensures keeps { (row : LaneRow) → LaneKeeps lane.old row → LaneKeeps lane.new (lane_lost row) }
    ensures line { lines.new.items ≡ lines.old.items ++ EndLost at.now.lane lane.new.ended ∷ [] }
    ensures ended { lane.new.ended ≡ lane.old.ended + 1 }
    ensures same { lane.new ≡ record lane.old { ended = lane.new.ended; place = None; ending = None } }
{
    lane.ended += 1;
    lane.place = None;
    lane.ending = None;
    lines.end_lost(at.lane, lane.ended);
}

/// What reading gave in the dialogue of this place.
pub(crate) fn data_in<'a>(place: &'a Option<Box<Kernel<'_>>>) -> Option<&'a CardData>
    ensures { option_map (λ card. card.now) result ≡ card_last_read place.now }
{
    match place {
        Some(kernel) => kernel.data(),
        None => None,
    }
}

/// The amount of a purchase.
fn amount_of(planned: &Planned) -> u64
    ensures { result ≡ planned.now.purchase.amount }
{
    planned.purchase.amount
}

/// An approval joins the log, under the number of the card's account.
fn add_approval(log: &mut Vec<Logged>, ending: Ending, pan: Option<Digits>, amount: u64)
    requires room { vec_len log.old < vec_capacity log.old }
    ensures appended { (purchase : PurchaseData) (card : Option ReadCard) → purchase.amount ≡ amount → pan ≡ option_map (λ card. card.pan) card
        → log.new.items ≡ log.old.items ++ approval purchase ending card }
    ensures amounts { All (λ logged. logged.amount ≤ most_amount) log.old.items → amount ≤ most_amount → All (λ logged. logged.amount ≤ most_amount) log.new.items }
{
    let Ending::Approved { online: _ } = ending else {
        return;
    };
    let Some(pan) = pan else {
        return;
    };
    if log.push(Logged { pan, amount }).is_err() {
        unreachable!();
    }
}

/// What is captured waits for settlement.
fn add_capture(captures: &mut Waiting, capture: Option<Capture>)
    requires room { HasSpace captures.old }
    ensures added { captures.new.messages ≡ captures.old.messages ++ option_to_list capture }
    ensures read { All IsMessage (option_to_list capture) }
{
    let Some(capture) = capture else {
        return;
    };
    let mut message = Message::new();
    capture.into_message(&mut message);
    captures.push(message.as_slice());
}

/// So many lanes before their first purchase.
pub(crate) fn new_lanes<'s>(alloc: Global, count: usize) -> Result<Vec<Lane<'s>>, AllocError>
    ensures count { IfOk result (λ lanes. vec_len lanes ≡ count) }
    ensures new { IfOk result (λ lanes. All IsNewLane lanes.items) }
{
    let mut lanes = Vec::with_capacity(alloc, count)?;
    for _ in 0..count {
        lanes.push(Lane {
            ended: 0,
            running: None,
            place: None,
            log: Vec::new(alloc),
            captures: Waiting::new(alloc),
            ending: None,
            found: None,
        })?;
    }
    Ok(lanes)
}

/// Whether a lane runs no purchase and has none left.
fn is_done(terminal: &Terminal, lane: &Lane<'_>) -> bool
    ensures { result ≡ is_lane_done (Some terminal.now) (Some lane.now) }
{
    lane.running.is_none() && lane.ended as usize == terminal.purchases.len()
}

/// Whether no lane runs a purchase or has one left.
pub(crate) fn are_done(terminals: &[Terminal], lanes: &[Lane<'_>]) -> bool
    requires { length lanes.now ≡ length terminals.now }
    ensures { result ≡ done_below terminals.now lanes.now (length terminals.now) }
{
    for (index, terminal) in terminals.iter().enumerate() {
        if !is_done(terminal, &lanes[index]) {
            return false;
        }
    }
    true
}

/// How many purchases of all lanes have ended.
pub(crate) fn all_ended(lanes: &[Lane<'_>]) -> u32
    requires { sum_by (λ lane. lane.ended) lanes.now ≤ 10000 }
    ensures { result ≡ sum_by (λ lane. lane.ended) lanes.now }
{
    let mut all = 0;
    for lane in lanes {
        all += lane.ended;
    }
    all
}
