//! The terminal of a lane: its dialogue begins, hears a reply, and is over.
ghost use Rattle.std.specs.Prelude.{◌≡◌, ◌≤◌, ◌<◌, ◌++◌, ◌∷◌, [], List, length, false, IsSome, IsSomeAnd, IfSome, Some, option_map};
ghost use Rattle.issuer_host.specs.Account.{AccountData};
ghost use Rattle.issuer_host.specs.declared.keys.HostKeys.{HostKeys};
ghost use Rattle.kernel.specs.Dialogue.{dialogue};
ghost use Rattle.kernel.specs.Kernel.{kernel_next, standing_next};
ghost use Rattle.kernel.specs.Reply.{Reply, CardGone, from_host};
ghost use Rattle.kernel.specs.declared.kernel.Next.TheVariants as next;
ghost use Rattle.txn_replay.specs.Payment.{Payment as Paid, outset_for};
ghost use Rattle.txn_replay.specs.Standing.{LaneStands, RunStands, HasTaken, rank_in, lane_left, is_ended, is_over as over_test, seen_payment};
ghost use Rattle.txn_replay.specs.World.{LaneRow};

use crate::lane::Lane;
use crate::payment::Payment;
use kernel::{Kernel, Next};

/// What the purchase that runs waits for.
pub(crate) fn waits_for(running: &Option<Box<Kernel<'_>>>) -> Option<Next>
    ensures exact { result ≡ option_map (λ kernel. kernel_next kernel.value) running.now }
    ensures told { (p : Paid) (replies : List Reply) → RunStands running.now p (Some replies) → result ≡ Some (standing_next (dialogue (outset_for p) replies)) }
{
    match running {
        Some(kernel) => Some(kernel.next()),
        None => None,
    }
}

/// Whether the dialogue of a purchase that runs is over.
pub(crate) fn is_over(running: &Option<Box<Kernel<'_>>>) -> bool
    ensures exact { result ≡ over_test running.now }
    ensures told { (p : Paid) (replies : List Reply) → RunStands running.now p (Some replies) → result ≡ is_ended (standing_next (dialogue (outset_for p) replies)) }
{
    match running {
        Some(kernel) => match kernel.next() {
            Next::Ended => true,
            Next::ToCard | Next::ToHost => false,
        },
        None => false,
    }
}

/// The terminal begins its dialogue.
pub(crate) fn start<'s>(at: &Payment<'s>, lane: &mut Lane<'s>)
    requires place { IsSome lane.old.place }
    ensures same { IsSomeAnd lane.new.running (λ kernel. lane.new ≡ record lane.old { running = Some kernel; place = lane.new.place }) }
    ensures fresh { IsSomeAnd lane.new.running (λ kernel. kernel.value.is_spent ≡ false) }
    ensures told { (issuer : HostKeys) (accounts : List AccountData)
        → RunStands lane.new.running (seen_payment issuer accounts at.now) (Some []) }
    ensures taken { HasTaken lane.new.running }
    ensures waits { IsSomeAnd lane.new.running (λ kernel. kernel_next kernel.value ≡ next.ToCard) }
    ensures few { rank_in lane.new.running ≤ 20015 }
{
    let Some(mut kernel) = lane.place.take() else {
        unreachable!();
    };
    let planned = at.planned;
    kernel.begin_again(at.settings, &planned.purchase);
    lane.running = Some(kernel);
}

/// The terminal takes the host's reply where it comes back, and else its silence.
pub(crate) fn hear(lane: &mut Lane<'_>, reply: Option<&[u8]>)
    requires waits { IsSomeAnd lane.old.running (λ kernel. kernel_next kernel.value ≡ next.ToHost) }
    requires reply { IfSome reply (λ reply. length reply.now ≤ 2048) }
    ensures told { (p : Paid) (replies : List Reply) (row : LaneRow)
        → LaneStands lane.old p (record row { running = Some replies })
        → LaneStands lane.new p (record row { running = Some (replies ++ from_host (option_map (λ reply. reply.now) reply.entry) ∷ []) }) }
    ensures same { IsSomeAnd lane.new.running (λ kernel. lane.new ≡ record lane.old { running = Some kernel; place = lane.new.place }) }
    ensures taken { HasTaken lane.old.running → HasTaken lane.new.running }
    ensures fresh { IsSomeAnd lane.new.running (λ kernel. kernel.value.is_spent ≡ false) }
    ensures nearer { lane_left lane.new < lane_left lane.old }
{
    let Some(kernel) = &mut lane.running else {
        unreachable!();
    };
    kernel.take_host(reply);
}

/// The card is gone before the terminal could ask it.
pub(crate) fn lose(lane: &mut Lane<'_>)
    requires waits { IsSomeAnd lane.old.running (λ kernel. kernel_next kernel.value ≡ next.ToCard) }
    ensures same { IsSomeAnd lane.new.running (λ kernel. lane.new ≡ record lane.old { running = Some kernel; place = lane.new.place }) }
    ensures fresh { IsSomeAnd lane.new.running (λ kernel. kernel.value.is_spent ≡ false) }
    ensures told { (p : Paid) (replies : List Reply) → RunStands lane.old.running p (Some replies)
        → RunStands lane.new.running p (Some (replies ++ CardGone ∷ [])) }
    ensures taken { HasTaken lane.old.running → HasTaken lane.new.running }
    ensures over { IsSomeAnd lane.new.running (λ kernel. kernel_next kernel.value ≡ next.Ended) }
    ensures nearer { rank_in lane.new.running < rank_in lane.old.running }
{
    let Some(kernel) = &mut lane.running else {
        unreachable!();
    };
    kernel.take_gone();
}
