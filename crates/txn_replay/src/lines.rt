//! The lines of a report, as they are made.
ghost use Rattle.std.specs.Prelude.{◌≡◌, ◌≤◌, ◌<◌, ◌∷◌, [], length, option_map, IfSome};
ghost use Rattle.card_app.specs.Counters.{shown_all};
ghost use Rattle.kernel.specs.Ended.{EndData};
ghost use Rattle.kernel.specs.EndShown.{shown_end};
ghost use Rattle.report_text.specs.declared.line.Line.TheVariants.{Power, PowerCanned, PowerTorn, AuditPower, AuditAsk, AuditAnswer};
ghost use Rattle.txn_replay.specs.Lines as spec;

use arrayvec::ArrayVec;
use ber_tlv::append;
use card_app::shown_all;
use card_files::Image;
use card_state::CardState;
use kernel::EndRecord;
use report_text::EndParts;
pub use report_text::Lines;

/// What the end line of a purchase tells.
pub(crate) fn end_parts(ended: &EndRecord) -> EndParts
    ensures { (end : EndData) → ended.now ≡ shown_end end → result ≡ spec.end_parts end }
{
    let mut scripts = ArrayVec::new();
    if scripts
        .try_extend_from_slice(ended.scripts.as_slice())
        .is_err()
    {
        unreachable!();
    }
    EndParts {
        ending: ended.ending,
        tvr: ended.tvr,
        tsi: ended.tsi,
        cvm: ended.cvm,
        arc: ended.code,
        atc_ac: match &ended.last {
            Some(ac) => Some((ac.counter, ac.cryptogram)),
            None => None,
        },
        scripts,
    }
}

/// The name of a card.
pub(crate) fn name_of(name: &[u8]) -> ArrayVec<u8, 16>
    requires { length name.now ≤ 16 }
    ensures { result.items ≡ name.now }
{
    let mut copy = ArrayVec::new();
    append(&mut copy, name);
    copy
}

/// A command that is answered, in place of what the lines held.
pub(crate) fn tell_answer(lane: u8, command: &[u8], answer: &[u8], lines: &mut Lines)
    requires command { length command.now ≤ 261 }
    requires answer { length answer.now ≤ 258 }
    ensures { lines.new.items ≡ spec.answer_lines lane command.now answer.now }
{
    lines.clear();
    lines.to_card(lane, command);
    lines.from_card(lane, answer);
}

/// What stood on the wire to the host, and what came back, or silence, in place of what the lines held.
pub(crate) fn tell_host(lane: u8, call: &[u8], reply: Option<&[u8]>, lines: &mut Lines)
    requires call { length call.now ≤ 2048 }
    requires reply { IfSome reply (λ reply. length reply.now ≤ 2048) }
    ensures lines { lines.new.items ≡ spec.wire_lines lane call.now (option_map (λ reply. reply.now) reply.entry) }
    ensures count { length lines.new.items ≡ 2 }
{
    lines.clear();
    lines.to_host(lane, call);
    match reply {
        Some(reply) => lines.from_host(lane, reply),
        None => lines.no_reply(lane),
    }
}

/// A card is powered up: this line alone.
pub(crate) fn tell_power(
    lane: u8,
    name: ArrayVec<u8, 16>,
    image: &Image,
    state: &CardState,
    lines: &mut Lines,
)
    ensures { lines.new.items ≡ Power lane (record { items = name.items }) (record { items = shown_all image.now.apps state.now }) ∷ [] }
{
    lines.clear();
    lines.power(lane, name, shown_all(image, state));
}

/// A card of canned answers is powered up: this line alone.
pub(crate) fn tell_power_canned(lane: u8, name: ArrayVec<u8, 16>, lines: &mut Lines)
    ensures { lines.new.items ≡ PowerCanned lane (record { items = name.items }) ∷ [] }
{
    lines.clear();
    lines.power_canned(lane, name);
}

/// The power is cut as a card is powered up: this line alone.
pub(crate) fn tell_power_torn(lane: u8, name: ArrayVec<u8, 16>, lines: &mut Lines)
    ensures { lines.new.items ≡ PowerTorn lane (record { items = name.items }) ∷ [] }
{
    lines.clear();
    lines.power_torn(lane, name);
}

/// A card is powered up for the audit: this line alone.
pub(crate) fn tell_audit_power(
    name: ArrayVec<u8, 16>,
    image: &Image,
    state: &CardState,
    lines: &mut Lines,
)
    ensures { lines.new.items ≡ AuditPower (record { items = name.items }) (record { items = shown_all image.now.apps state.now }) ∷ [] }
{
    lines.clear();
    lines.audit_power(name, shown_all(image, state));
}

/// A command of the audit and its answer, in place of what the lines held.
pub(crate) fn tell_audit(name: &[u8], command: &[u8], answer: &[u8], lines: &mut Lines)
    requires name { length name.now ≤ 16 }
    requires command { length command.now ≤ 261 }
    requires answer { length answer.now ≤ 258 }
    ensures { lines.new.items ≡ AuditAsk (record { items = name.now }) (record { items = command.now })
        ∷ AuditAnswer (record { items = name.now }) (record { items = answer.now }) ∷ [] }
{
    lines.clear();
    lines.audit_ask(name_of(name), command);
    lines.audit_answer(name_of(name), answer);
}
