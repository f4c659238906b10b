//! The decisions of a card in words.
ghost use Rattle.std.specs.Prelude.{◌≡◌, ◌+◌, ◌≤◌, ◌++◌, OnOk, codes, decimal, length, option_map, slice_get};
ghost use Rattle.arrayvec.specs.ArrayVec.{array_vec_len};
ghost use Rattle.report_text.specs.Pieces.{newline};
ghost use Rattle.card_state.specs.Decisions.{blocks_app as blocks_one, blocks_whole as blocks_all, restores as restores_tries};
ghost use Rattle.card_words.specs.DecisionText as spec;

use crate::state::field;
use card_state::{AppState, CardState, Decision, How, Sale, Scripted, Steered, Which};
use emv_dict::Kind;
use line_talk::put_line;
use report_text::Text;
use report_text::pieces::{append, number};
use std::alloc::AllocError;

/// A decision as it is told.
#[derive(Clone, Copy, PartialEq, Eq, Debug)]
pub struct Told {
    /// The application.
    pub app: u8,
    /// What was decided.
    pub decision: Decision,
    /// The counter that a start took, or the tries that a PIN try left; 0 for another decision.
    pub left: u64,
    /// Whether it is kept; where not, it may be kept or not.
    pub sure: bool,
}

/// The counter that a start takes.
fn counter_behind(state: &AppState) -> u64
    ensures { result ≡ state.now.counter + 1 }
{
    u64::from(state.counter) + 1
}

/// The number that a decision leaves and doesn't hold itself, by the state of its application before it.
fn number_left(decision: &Decision, state: Option<&AppState>) -> u64
    ensures { result ≡ spec.number_left decision.now (option_map (λ s. s.now) state.entry) }
{
    match (decision, state) {
        (Decision::Started, Some(state)) => counter_behind(state),
        (Decision::PinTry, Some(state)) => u64::from(state.tries.saturating_sub(1)),
        _ => 0,
    }
}

/// A decision as it is told, taken in a state of the card.
pub fn told_in(state: &CardState, app: u8, decision: Decision) -> Told
    ensures { result ≡ spec.told_in state.now (record { app = app; decision = decision }) }
{
    let found = state.apps.as_slice().get(usize::from(app));
    Told {
        app,
        decision,
        left: number_left(&decision, found),
        sure: true,
    }
}

/// A kind of cryptogram.
pub(crate) fn kind(out: &mut Text, kind: Kind)
    requires { array_vec_len out.old + 5 ≤ 8192 }
    ensures text { out.new.items ≡ out.old.items ++ spec.kind_text kind }
    ensures len { array_vec_len out.new ≤ array_vec_len out.old + 5 }
{
    match kind {
        Kind::Aac => append(out, b" aac"),
        Kind::Tc => append(out, b" tc"),
        Kind::Arqc => append(out, b" arqc"),
    }
}

/// In which of the application's currencies.
pub(crate) fn which(out: &mut Text, which: Which)
    requires { array_vec_len out.old + 8 ≤ 8192 }
    ensures text { out.new.items ≡ out.old.items ++ spec.which_text which }
    ensures len { array_vec_len out.new ≤ array_vec_len out.old + 8 }
{
    match which {
        Which::One => append(out, b" one"),
        Which::Two => append(out, b" two"),
        Which::Neither => append(out, b" neither"),
    }
}

/// The currency and the amount of a sale.
#[tactic(auto, unfolding(crate::specs::DecisionText::sale_text))]
fn sale(out: &mut Text, sale: &Sale)
    requires { array_vec_len out.old + 70 ≤ 8192 }
    ensures text { out.new.items ≡ out.old.items ++ spec.sale_text sale.now }
    ensures len { array_vec_len out.new ≤ array_vec_len out.old + 70 }
{
    which(out, sale.which);
    field(out, b" ", sale.amount);
}

/// On what a second cryptogram rests.
pub(crate) fn how(out: &mut Text, how: How)
    requires { array_vec_len out.old + 20 ≤ 8192 }
    ensures text { out.new.items ≡ out.old.items ++ spec.how_text how }
    ensures len { array_vec_len out.new ≤ array_vec_len out.old + 20 }
{
    match how {
        How::Authenticated => append(out, b" authenticated"),
        How::Held => append(out, b" held"),
        How::Alone => append(out, b" alone"),
        How::Offline => append(out, b" offline"),
    }
}

/// Whether an issuer authentication was right.
fn right(out: &mut Text, right: bool)
    requires { array_vec_len out.old + 6 ≤ 8192 }
    ensures text { out.new.items ≡ out.old.items ++ spec.right_text right }
    ensures len { array_vec_len out.new ≤ array_vec_len out.old + 6 }
{
    if right {
        append(out, b" right");
    } else {
        append(out, b" wrong");
    }
}

/// A word where something holds.
fn word_if(out: &mut Text, holds: bool, word: &[u8])
    requires word { length word.now ≤ 20 }
    requires room { array_vec_len out.old + 20 ≤ 8192 }
    ensures text { out.new.items ≡ out.old.items ++ spec.word_if holds word.now }
    ensures len { array_vec_len out.new ≤ array_vec_len out.old + 20 }
{
    if holds {
        append(out, word);
    }
}

/// Whether a card status update blocks the application.
fn blocks_app(by: &Steered) -> bool
    ensures { result ≡ blocks_one by.now }
{
    by.status[1] / 64 % 2 == 1
}

/// Whether it blocks the card as a whole.
fn blocks_card(by: &Steered) -> bool
    ensures { result ≡ blocks_all by.now }
{
    by.status[1] / 32 % 2 == 1
}

/// Whether it restores the PIN tries.
fn restores(by: &Steered) -> bool
    ensures { result ≡ restores_tries by.now }
{
    by.status[1] / 16 % 2 == 1
}

/// What a card status update changes.
#[tactic(auto, unfolding(crate::specs::DecisionText::steered_text))]
fn steered(out: &mut Text, steered: &Option<Steered>)
    requires { array_vec_len out.old + 110 ≤ 8192 }
    ensures text { out.new.items ≡ out.old.items ++ spec.steered_text steered.now }
    ensures len { array_vec_len out.new ≤ array_vec_len out.old + 110 }
{
    let Some(steered) = steered else {
        return;
    };
    word_if(out, blocks_app(steered), b" block");
    word_if(out, blocks_card(steered), b" card-block");
    if restores(steered) {
        field(out, b" tries ", u64::from(steered.limit));
    }
}

/// What a script command changes.
fn script(out: &mut Text, command: &Scripted)
    requires { array_vec_len out.old + 60 ≤ 8192 }
    ensures text { out.new.items ≡ out.old.items ++ spec.script_text command.now }
    ensures len { array_vec_len out.new ≤ array_vec_len out.old + 60 }
{
    match command {
        Scripted::Block => append(out, b" block"),
        Scripted::Unblock => append(out, b" unblock"),
        Scripted::CardBlock => append(out, b" card-block"),
        Scripted::PinUnblock { limit } => field(out, b" pin-unblock ", u64::from(*limit)),
        Scripted::PinChange { limit, .. } => field(out, b" pin-change ", u64::from(*limit)),
        Scripted::Count(limit) => field(out, b" count-limit ", u64::from(*limit)),
        Scripted::Sum(limit) => field(out, b" sum-limit ", *limit),
    }
}

/// A decision, with the number that it leaves.
#[tactic(auto, unfolding(crate::specs::DecisionText::decision_text))]
fn decided(out: &mut Text, left: u64, decision: &Decision)
    requires { array_vec_len out.old + 150 ≤ 8192 }
    ensures text { out.new.items ≡ out.old.items ++ spec.decision_text left decision.now }
    ensures len { array_vec_len out.new ≤ array_vec_len out.old + 150 }
{
    match decision {
        Decision::Started => field(out, b" started ", left),
        Decision::PinTry => field(out, b" pin-try ", left),
        Decision::PinRight { limit } => field(out, b" pin-right ", u64::from(*limit)),
        Decision::First {
            kind: made,
            sale: of,
        } => {
            append(out, b" first");
            kind(out, *made);
            sale(out, of);
        }
        Decision::Authenticated {
            right: is,
            steered: by,
        } => {
            append(out, b" authenticated");
            right(out, *is);
            steered(out, by);
        }
        Decision::Script(command) => {
            append(out, b" script");
            script(out, command);
        }
        Decision::Second {
            kind: made,
            how: rests,
            sale: of,
        } => {
            append(out, b" second");
            kind(out, *made);
            how(out, *rests);
            sale(out, of);
        }
    }
}

/// The line of a decision.
#[tactic(auto, unfolding(crate::specs::DecisionText::told_text))]
fn line(out: &mut Text, told: &Told)
    requires { array_vec_len out.old ≡ 0 }
    ensures { out.new.items ≡ out.old.items ++ spec.told_text told.now }
{
    field(out, b"app ", u64::from(told.app));
    decided(out, told.left, &told.decision);
    if !told.sure {
        append(out, b" unsure");
    }
    append(out, b"\n");
}

/// Appends the line of a decision.
fn tell_line(text: &mut Vec<u8>, told: &Told) -> Result<(), AllocError>
    ensures { OnOk result (text.new.items ≡ text.old.items ++ spec.told_text told.now) }
{
    let mut out = Text::new();
    line(&mut out, told);
    text.extend_from_slice(out.as_slice())
}

/// The line that counts the decisions.
fn tell_count(text: &mut Vec<u8>, count: usize) -> Result<(), AllocError>
    ensures { OnOk result (text.new.items ≡ codes "decided " ++ decimal count ++ newline) }
{
    let mut out = Text::new();
    append(&mut out, b"decided ");
    number(&mut out, count as u64);
    append(&mut out, b"\n");
    put_line(text, out.as_slice())
}

/// Decisions in words, in place of what the text held: how many there are, and a line for each.
#[tactic(auto, unfolding(crate::specs::DecisionText::decided_text))]
pub fn tell_decided(text: &mut Vec<u8>, told: &[Told]) -> Result<(), AllocError>
    ensures { OnOk result (text.new.items ≡ spec.decided_text told.now) }
{
    tell_count(text, told.len())?;
    for one in told {
        tell_line(text, one)?;
    }
    Ok(())
}
