//! A PIN that is compared behind the try that it costs.
ghost use Rattle.std.specs.Prelude.{◌≡◌, ◌+◌, ◌-◌, [], true, OnOk, OnErr};
ghost use Rattle.torn_store.specs.Store.{HasLostPower};
ghost use Rattle.card_app.specs.Comparing as spec;
ghost use Rattle.card_app.specs.Comparing.{MayCompare, comparison_reply, is_equal};
ghost use Rattle.card_app.specs.PageReplies.{SaysReply, shows};
ghost use Rattle.card_app.specs.SeenKept.{Takes, StaysOn, IsDecisionCut};

use crate::kept::CardPages;
use apdu_core::status::NO_ERROR;
use apdu_core::{Answer, Response, write_response};
use arrayvec::ArrayVec;
use card_state::{AppState, Decision};
use emv_ports::{Gone, Pages};

/// A PIN block to compare, behind one more PIN try.
#[derive(Clone, Copy, PartialEq, Eq, Debug)]
pub struct Comparison {
    /// The application.
    pub app: u8,
    /// The block that came.
    pub block: [u8; 8],
    /// The block of the application's PIN.
    pub pin: [u8; 8],
    /// The tries that a right PIN restores.
    pub limit: u8,
    /// The tries that are left before this one.
    pub tries: u8,
}

/// Whether the application has a PIN: its block isn't eight zero bytes.
pub fn has_pin(state: &AppState) -> bool
    ensures { result ≡ spec.has_pin state.now }
{
    state.pin != [0; 8]
}

/// Replaces `out` by the answer of this body, which has at most 256 bytes, and this status.
pub fn respond(body: &ArrayVec<u8, 256>, status: u16, out: &mut Answer)
    ensures { SaysReply (shows body.now.items status) out.new.items }
{
    let response = Response {
        body: body.as_slice(),
        status,
    };
    write_response(&response, out);
}

/// Takes a PIN try, and only then compares: a right PIN is one more decision. The answer goes to `out`
/// behind the decisions.
///
/// `Gone` comes exactly where the plan cuts one of the two decisions; `out` is empty then.
pub fn compare<P: Pages>(
    kept: &mut CardPages<P>,
    with: &Comparison,
    out: &mut Answer,
) -> Result<(), Gone>
    requires on { kept.old.memory.on ≡ true }
    requires may { MayCompare kept.old.state with.now }
    ensures takes { OnOk result (Takes kept.old kept.new (comparison_reply with.now).new) }
    ensures stays { OnOk result (StaysOn kept.old kept.new) }
    ensures says { OnOk result (SaysReply (comparison_reply with.now) out.new.items) }
    ensures cut { OnErr result (IsDecisionCut kept.old kept.new.memory (comparison_reply with.now).new) }
    ensures gone { OnErr result (HasLostPower kept.old.memory kept.new.memory) }
    ensures silent { OnErr result (out.new.items ≡ []) }
{
    out.clear();
    match kept.decide(with.app, &Decision::PinTry) {
        Ok(()) => {}
        Err(Gone) => return Err(Gone),
    }
    let body = ArrayVec::new();
    if !is_right(with) {
        respond(&body, tries_left(with.tries), out);
        return Ok(());
    }
    let right = Decision::PinRight { limit: with.limit };
    match kept.decide(with.app, &right) {
        Ok(()) => {
            respond(&body, NO_ERROR, out);
            Ok(())
        }
        Err(Gone) => Err(Gone),
    }
}

/// Whether the block that came is the PIN's.
fn is_right(with: &Comparison) -> bool
    ensures { result ≡ is_equal with.now }
{
    with.block == with.pin
}

/// The status of a wrong PIN, which gives the tries that are left: one fewer than before.
fn tries_left(before: u8) -> u16
    ensures { result ≡ 0x63C0 + (before - 1) }
{
    0x63c0 + u16::from(before.saturating_sub(1))
}
