//! One exchange of a lane, on what it touches: the lane, its card, and the host.
ghost use Rattle.std.specs.Prelude.{◌≡◌, ◌+◌, ◌≤◌, ◌<◌, ◌++◌, [], ℕ, List, Bool, length, true, false, ◌&&◌, is_none, IsSomeAnd, IfSome, IfOk, Some, None, Option, OnOk, OnErr, option_map};
ghost use Rattle.auth_message.specs.Whole.{IsMessage};
ghost use Rattle.card_state.specs.Decisions.{Decided};
ghost use Rattle.host_link.specs.Delivery.{delivered, heard, reply_if};
ghost use Rattle.host_link.specs.Dialect.{call_in, reply_in};
ghost use Rattle.issuer_host.specs.Account.{AccountData};
ghost use Rattle.issuer_host.specs.declared.keys.HostKeys.{HostKeys};
ghost use Rattle.kernel.specs.Dialogue.{dialogue};
ghost use Rattle.kernel.specs.Kernel.{kernel_next, told_bytes};
ghost use Rattle.issuer_host.specs.History.{HostStands, host_reply};
ghost use Rattle.kernel.specs.Reply.{Reply};
ghost use Rattle.kernel.specs.declared.kernel.Next.TheVariants as next;
ghost use Rattle.txn_replay.specs.Part as step;
ghost use Rattle.txn_replay.specs.Part.{Part};
ghost use Rattle.txn_replay.specs.Payment.{Payment as Paid, outset_for};
ghost use Rattle.txn_replay.specs.Standing.{PartRests, NextRests, PartRuns, PartStands, ExchangeIsCounted, SameLane, LaneFits, RunStands, lane_left, HasRoomForCapture, lane_store_left, seen_payment, MayFinish, MayAsk, MayStart, GoesOnward, KeepsIssuer};
ghost use Rattle.txn_replay.specs.RunCard.{RunCardOff, run_card_is_powered as has_power};
ghost use Rattle.txn_replay.specs.Storing.{lane_piece};

use crate::lane::{Lane, finish, make_room};
use crate::lines::{Lines, name_of, tell_answer, tell_host, tell_power_torn};
use crate::payment::Payment;
use crate::run_card::RunCard;
use crate::storing::prepare;
use crate::terminal::{hear, is_over, lose, start, waits_for};
use apdu_core::Answer;
use auth_message::Message;
use capture_store::LaneStore;
use emv_ports::{Gone, Pages};
use host_link::{Wire, deliver};
use issuer_host::Host;
use kernel::{Kernel, Next, Tally};
use std::alloc::AllocError;

/// What all lanes have in common: the issuer's host, and the tally of the dialogues that have ended.
#[derive(Drop)]
pub(crate) struct Common<'s> {
    pub host: Host<'s>,
    pub tally: Tally,
}

/// The purchase goes on behind a reply, or has ended: the card is turned off then.
fn end_if_over<'s, P: Pages>(
    at: &Payment<'s>,
    lane: &mut Lane<'s>,
    lane_store: &mut LaneStore<P>,
    run_card: &mut RunCard<'s, P>,
    tally: &mut Tally,
    lines: &mut Lines,
)
    requires ready { MayFinish lane.old lane_store.old at.now.durable lines.old.items }
    requires on { has_power run_card.old ≡ true }
    ensures led { (issuer : HostKeys) (accounts : List AccountData) (replies : List Reply) (part : Part)
        → PartRuns (seen_payment issuer accounts at.now) lane.old lane_store.old run_card.old replies part
        → ExchangeIsCounted (seen_payment issuer accounts at.now) lane.new lane_store.new run_card.new tally.old tally.new lines.new.items part
        (step.ended_if_over (seen_payment issuer accounts at.now) replies part lines.old.items) }
    ensures fits { LaneFits lane.new }
    ensures nearer { lane_left lane.new + lane_store_left lane_store.new ≤ lane_left lane.old + lane_store_left lane_store.old }
{
    if !is_over(&lane.running) {
        return;
    }
    run_card.power_off();
    finish(at, lane, lane_store, tally, lines);
}

/// The card is asked: it answers, or is gone.
fn ask_card<'s, P: Pages>(
    at: &Payment<'s>,
    lane: &mut Lane<'s>,
    lane_store: &mut LaneStore<P>,
    run_card: &mut RunCard<'s, P>,
    tally: &mut Tally,
    lines: &mut Lines,
)
    requires ready { MayAsk lane.old lane_store.old run_card.old at.now.durable }
    requires waits { IsSomeAnd lane.old.running (λ kernel. kernel_next kernel.value ≡ next.ToCard) }
    ensures led { (issuer : HostKeys) (accounts : List AccountData) (replies : List Reply) (part : Part)
        → PartRuns (seen_payment issuer accounts at.now) lane.old lane_store.old run_card.old replies part
        → ExchangeIsCounted (seen_payment issuer accounts at.now) lane.new lane_store.new run_card.new tally.old tally.new lines.new.items part
        (step.asked_card (seen_payment issuer accounts at.now) replies (told_bytes (dialogue (outset_for (seen_payment issuer accounts at.now)) replies)) part) }
    ensures onward { GoesOnward lane.old lane.new lane_store.old lane_store.new }
{
    let mut answer = Answer::new();
    let Some(place) = &mut lane.running else {
        unreachable!();
    };
    let kernel = &mut **place;
    match run_card.process(kernel.bytes(), &mut answer) {
        Ok(()) => {
            tell_answer(at.lane, kernel.bytes(), answer.as_slice(), lines);
            kernel.take_card(answer.as_slice(), lane.log.as_slice());
            end_if_over(at, lane, lane_store, run_card, tally, lines);
        }
        Err(Gone) => {
            run_card.tell_gone(at.lane, kernel.bytes(), lines);
            kernel.take_gone();
            finish(at, lane, lane_store, tally, lines);
        }
    }
}

/// The terminal's message goes to the host in the lane's dialect, as `deliver` does.
fn send(
    at: &Payment<'_>,
    running: &Option<Box<Kernel<'_>>>,
    host: &mut Host<'_>,
    wire: &mut Wire,
    reply: &mut Message,
) -> Result<bool, AllocError>
    requires waits { IsSomeAnd running.now (λ kernel. kernel_next kernel.value ≡ next.ToHost) }
    requires stands { (messages : List (List ℕ)) × HostStands host.old messages }
    ensures heard { IfOk result (λ comes. (p : Paid) (replies : List Reply) (messages : List (List ℕ))
        → RunStands running.now p (Some replies) → HostStands host.old messages
        → reply_if comes reply.new.items ≡ heard at.now.planned.now.link
        (host_reply host.old.keys host.old.accounts messages (told_bytes (dialogue (outset_for p) replies)))) }
    ensures stands { OnOk result ((p : Paid) (replies : List Reply) (messages : List (List ℕ))
        → RunStands running.now p (Some replies) → HostStands host.old messages
        → HostStands host.new (messages ++ delivered at.now.planned.now.link (told_bytes (dialogue (outset_for p) replies)))) }
    ensures call { (p : Paid) (replies : List Reply) → RunStands running.now p (Some replies)
        → wire.new.call.items ≡ call_in at.now.iso (told_bytes (dialogue (outset_for p) replies)) }
    // The host reads it.
    ensures read { (p : Paid) (replies : List Reply) → RunStands running.now p (Some replies) → IsMessage (told_bytes (dialogue (outset_for p) replies)) }
    ensures shown { IfOk result (λ comes. (p : Paid) (replies : List Reply) → RunStands running.now p (Some replies)
        → reply_if comes wire.new.reply.items
        ≡ option_map (reply_in at.now.iso (told_bytes (dialogue (outset_for p) replies))) (reply_if comes reply.new.items)) }
    ensures issuer { KeepsIssuer host.old host.new }
    ensures err { OnErr result (host.new ≡ host.old) }
{
    let Some(kernel) = running else {
        unreachable!();
    };
    deliver(at.iso, at.planned.link, kernel.bytes(), host, wire, reply)
}

/// The reply that comes back, or none.
fn said(comes: bool, reply: &Message) -> Option<&[u8]>
    ensures reply { option_map (λ said. said.now) result ≡ reply_if comes reply.now.items }
    ensures short { IfSome result (λ said. length said.now ≤ 2048) }
{
    if comes { Some(reply.as_slice()) } else { None }
}

/// The host is asked. After `AllocError` nothing has changed.
fn ask_host<'s, P: Pages>(
    at: &Payment<'s>,
    lane: &mut Lane<'s>,
    lane_store: &mut LaneStore<P>,
    run_card: &mut RunCard<'s, P>,
    common: &mut Common<'s>,
    lines: &mut Lines,
) -> Result<(), AllocError>
    requires ready { MayAsk lane.old lane_store.old run_card.old at.now.durable }
    requires waits { IsSomeAnd lane.old.running (λ kernel. kernel_next kernel.value ≡ next.ToHost) }
    requires stands { (messages : List (List ℕ)) × HostStands common.old.host messages }
    ensures led { OnOk result ((replies : List Reply) (part : Part)
        → PartRuns (seen_payment common.old.host.keys common.old.host.accounts at.now) lane.old lane_store.old run_card.old replies part → HostStands common.old.host part.messages
        → ExchangeIsCounted (seen_payment common.old.host.keys common.old.host.accounts at.now) lane.new lane_store.new run_card.new common.old.tally common.new.tally lines.new.items part
        (step.asked_host (seen_payment common.old.host.keys common.old.host.accounts at.now) replies
        (told_bytes (dialogue (outset_for (seen_payment common.old.host.keys common.old.host.accounts at.now)) replies)) part)) }
    ensures messages { OnOk result ((replies : List Reply) (part : Part)
        → PartRuns (seen_payment common.old.host.keys common.old.host.accounts at.now) lane.old lane_store.old run_card.old replies part → HostStands common.old.host part.messages
        → HostStands common.new.host (step.asked_host (seen_payment common.old.host.keys common.old.host.accounts at.now) replies
        (told_bytes (dialogue (outset_for (seen_payment common.old.host.keys common.old.host.accounts at.now)) replies)) part).part.messages) }
    ensures issuer { KeepsIssuer common.old.host common.new.host }
    ensures onward { OnOk result (GoesOnward lane.old lane.new lane_store.old lane_store.new) }
    ensures err { OnErr result ((lane.new ≡ lane.old) × (lane_store.new ≡ lane_store.old) × (run_card.new ≡ run_card.old) × (common.new ≡ common.old) × (lines.old.items ≡ [] → lines.new.items ≡ [])) }
{
    let mut wire = Wire::new();
    let mut reply = Message::new();
    let comes = send(at, &lane.running, &mut common.host, &mut wire, &mut reply)?;
    tell_host(
        at.lane,
        wire.call.as_slice(),
        said(comes, &wire.reply),
        lines,
    );
    hear(lane, said(comes, &reply));
    end_if_over(at, lane, lane_store, run_card, &mut common.tally, lines);
    Ok(())
}

/// The next purchase begins: its card, which no purchase has, is powered up under its tear.
fn begin<'s, P: Pages>(
    at: &Payment<'s>,
    lane: &mut Lane<'s>,
    lane_store: &mut LaneStore<P>,
    run_card: &mut RunCard<'s, P>,
    tally: &mut Tally,
    lines: &mut Lines,
)
    requires starts { MayStart lane.old }
    requires room { HasRoomForCapture lane_store.old at.now.durable }
    requires off { (kept : List Decided) × (pending : Option Decided) × RunCardOff run_card.old kept pending }
    ensures led { (issuer : HostKeys) (accounts : List AccountData) (part : Part)
        → PartRests (seen_payment issuer accounts at.now) lane.old lane_store.old run_card.old part
        → (choice : Bool) × ExchangeIsCounted (seen_payment issuer accounts at.now) lane.new lane_store.new run_card.new tally.old tally.new lines.new.items part
        (step.begun_with (seen_payment issuer accounts at.now) part choice (seen_payment issuer accounts at.now).card.canned) }
    ensures onward { GoesOnward lane.old lane.new lane_store.old lane_store.new }
{
    start(at, lane);
    match run_card.power_up(at.planned.tear) {
        Ok(()) => {
            run_card.tell_power(at.lane, name_of(at.card.name.as_slice()), lines);
            end_if_over(at, lane, lane_store, run_card, tally, lines);
        }
        Err(Gone) => {
            tell_power_torn(at.lane, name_of(at.card.name.as_slice()), lines);
            lose(lane);
            finish(at, lane, lane_store, tally, lines);
        }
    }
}

/// The next purchase begins, behind what its terminal's store has to do first, which may be all of this exchange.
/// After `AllocError` nothing has changed.
fn begin_next<'s, P: Pages>(
    at: &Payment<'s>,
    lane: &mut Lane<'s>,
    lane_store: &mut LaneStore<P>,
    run_card: &mut RunCard<'s, P>,
    common: &mut Common<'s>,
    lines: &mut Lines,
) -> Result<(), AllocError>
    requires starts { MayStart lane.old }
    requires stands { (part : Part) × NextRests (seen_payment common.old.host.keys common.old.host.accounts at.now) lane.old lane_store.old run_card.old part
        × HostStands common.old.host part.messages }
    ensures led { OnOk result ((part : Part)
        → NextRests (seen_payment common.old.host.keys common.old.host.accounts at.now) lane.old lane_store.old run_card.old part → HostStands common.old.host part.messages
        → (one : Bool) × (other : Bool)
        × ExchangeIsCounted (seen_payment common.old.host.keys common.old.host.accounts at.now) lane.new lane_store.new run_card.new common.old.tally common.new.tally lines.new.items part
        (lane_piece (seen_payment common.old.host.keys common.old.host.accounts at.now) part one other)
        × HostStands common.new.host (lane_piece (seen_payment common.old.host.keys common.old.host.accounts at.now) part one other).part.messages) }
    ensures issuer { KeepsIssuer common.old.host common.new.host }
    ensures onward { OnOk result (GoesOnward lane.old lane.new lane_store.old lane_store.new) }
    ensures err { OnErr result ((lane.new ≡ lane.old) × (lane_store.new ≡ lane_store.old) × (run_card.new ≡ run_card.old) × (common.new ≡ common.old) × (lines.old.items ≡ [] → lines.new.items ≡ [])) }
{
    let begins = prepare(at, lane, lane_store, &mut common.host, lines)?;
    if !begins {
        return Ok(());
    }
    begin(at, lane, lane_store, run_card, &mut common.tally, lines);
    Ok(())
}

/// Whether the lane waits for a card that another purchase has.
pub(crate) fn is_held<P: Pages>(
    running: &Option<Box<Kernel<'_>>>,
    run_card: &RunCard<'_, P>,
) -> bool
    ensures exact { result ≡ (is_none running.now && has_power run_card.now) }
    ensures off { (kept : List Decided) (pending : Option Decided) → RunCardOff run_card.now kept pending → result ≡ false }
{
    running.is_none() && run_card.is_on()
}

/// One exchange of a purchase that has its card, or begins, behind what its terminal's store has to do first.
/// After `AllocError` nothing has changed.
pub(crate) fn exchange<'s, P: Pages>(
    at: &Payment<'s>,
    lane: &mut Lane<'s>,
    lane_store: &mut LaneStore<P>,
    run_card: &mut RunCard<'s, P>,
    common: &mut Common<'s>,
    lines: &mut Lines,
) -> Result<(), AllocError>
    requires few { lane.old.ended < 10000 }
    requires free { (is_none lane.old.running && has_power run_card.old) ≡ false }
    requires fits { LaneFits lane.old }
    requires stands { (part : Part) × PartStands (seen_payment common.old.host.keys common.old.host.accounts at.now) lane.old lane_store.old run_card.old part × HostStands common.old.host part.messages }
    ensures led { OnOk result ((part : Part)
        → PartStands (seen_payment common.old.host.keys common.old.host.accounts at.now) lane.old lane_store.old run_card.old part → HostStands common.old.host part.messages
        → (one : Bool) × (other : Bool)
        × ExchangeIsCounted (seen_payment common.old.host.keys common.old.host.accounts at.now) lane.new lane_store.new run_card.new common.old.tally common.new.tally lines.new.items part
        (lane_piece (seen_payment common.old.host.keys common.old.host.accounts at.now) part one other)
        × HostStands common.new.host (lane_piece (seen_payment common.old.host.keys common.old.host.accounts at.now) part one other).part.messages) }
    ensures err { OnErr result (SameLane lane.old lane.new × (lane_store.new ≡ lane_store.old) × (run_card.new ≡ run_card.old) × (common.new ≡ common.old) × (lines.old.items ≡ [] → lines.new.items ≡ [])) }
    ensures issuer { KeepsIssuer common.old.host common.new.host }
    ensures fits { LaneFits lane.new }
    ensures nearer { OnOk result (lane_left lane.new + lane_store_left lane_store.new < lane_left lane.old + lane_store_left lane_store.old) }
{
    make_room(at, lane)?;
    match waits_for(&lane.running) {
        None => begin_next(at, lane, lane_store, run_card, common, lines)?,
        Some(Next::ToCard) => ask_card(at, lane, lane_store, run_card, &mut common.tally, lines),
        Some(Next::ToHost) => ask_host(at, lane, lane_store, run_card, common, lines)?,
        Some(Next::Ended) => unreachable!(),
    }
    Ok(())
}
