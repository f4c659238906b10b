//! The audit: each card with applications is powered up, and each of these is asked for its counters.
ghost use Rattle.std.specs.Prelude.{◌≡◌, ◌≤◌, ◌<◌, ◌+◌, ◌*◌, ◌∷◌, [], ℕ, Bool, true, None, option_map, slice_get, length, IfSome};
ghost use Rattle.card_app.specs.SeenIcc.{IccOn, IccOff, icc_is_powered as icc_on};
ghost use Rattle.card_app.specs.Pages.{found_of};
ghost use Rattle.risk_mgmt.specs.Counters.{get_data};
ghost use Rattle.scenario_plan.specs.Cards.{CardData};
ghost use Rattle.scenario_plan.specs.SeenCards.{image_of, canned_of, seen_card, seen_cards};
ghost use Rattle.txn_replay.specs.Audited.{audit_question, question_check, question_command, step_check, RowRests, IsAuditAsked, IsChecked};
ghost use Rattle.txn_replay.specs.Lines.{audit_power_line};
ghost use Rattle.txn_replay.specs.SameIcc.{KeepsIcc};
ghost use Rattle.txn_replay.specs.RunCard.{OfApps, IsRunCardOf, HasLost, run_card_is_powered as has_power};
ghost use Rattle.txn_replay.specs.Steps.{app_checks, checks_from};
ghost use Rattle.txn_replay.specs.World.{CardRow};
ghost use Rattle.std.specs.List.{flat_map};

use crate::lines::{Lines, name_of, tell_audit, tell_audit_power};
use crate::run_card::{RunCard, RunCardKind};
use apdu_core::{Answer, Command, Out, write_command};
use app_select::{FIRST_OCCURRENCE, write_select};
use card_app::Icc;
use card_files::AppImage;
use emv_ports::Pages;
use scenario_plan::NamedCard;

/// What the audit asks of an application.
#[derive(Clone, Copy)]
pub(crate) enum Question<'s> {
    /// SELECT of its name (EMV 4.3 Book 1 section 11.3).
    Select(&'s AppImage),
    /// GET DATA of its application transaction counter (EMV 4.3 Book 3 section 6.5.7).
    Counter,
    /// GET DATA of its last online transaction counter.
    LastOnline,
}

/// A step of the audit: a card at its index is powered up, or asked a question.
#[derive(Clone, Copy)]
pub(crate) struct AuditStep<'s> {
    pub index: usize,
    pub card: &'s NamedCard,
    pub question: Option<Question<'s>>,
}

/// The question of this number to the applications of a card.
fn question_at(apps: &[AppImage], number: usize) -> Option<Question<'_>>
    ensures asked { (i : ℕ) (card : CardData) → option_map (question_check i card) result ≡ slice_get (flat_map (app_checks i card) apps.now) number }
    ensures behind { result ≡ None → 3 * length apps.now ≤ number }
{
    match apps.get(number / 3) {
        Some(app) => Some(question_of(app, number % 3)),
        None => None,
    }
}

/// The first, second or third question to an application.
fn question_of(app: &AppImage, number: usize) -> Question<'_>
    requires { number < 3 }
    ensures { (i : ℕ) (card : CardData) → question_check i card result ≡ audit_question i card app.now number }
{
    match number {
        0 => Question::Select(app),
        1 => Question::Counter,
        _ => Question::LastOnline,
    }
}

/// The step of the audit of this number, from 0. A card of canned answers is passed over.
pub(crate) fn audit_step(cards: &[NamedCard], number: u32) -> Option<AuditStep<'_>>
    requires few { length cards.now ≤ 64 }
    ensures step { option_map step_check result ≡ slice_get (checks_from 0 (seen_cards cards.now)) number }
    ensures there { IfSome result (λ step. slice_get cards.now step.index ≡ Some step.card.now) }
    ensures apps { IfSome result (λ step. canned_of step.card.now.kind ≡ None) }
{
    let mut left = number as usize;
    for (index, card) in cards.iter().enumerate() {
        let Some(image) = card.kind.image() else {
            continue;
        };
        if left == 0 {
            return Some(AuditStep {
                index,
                card,
                question: None,
            });
        }
        let apps = image.apps();
        if let Some(question) = question_at(apps, left - 1) {
            return Some(AuditStep {
                index,
                card,
                question: Some(question),
            });
        }
        left -= 1 + 3 * apps.len();
    }
    None
}

/// The step is carried out on its card, which no purchase has, and which has applications.
pub(crate) fn carry_out<P: Pages>(
    step: AuditStep<'_>,
    run_card: &mut RunCard<'_, P>,
    lines: &mut Lines,
)
    requires rests { (row : CardRow) × RowRests run_card.old row }
    requires is { IsRunCardOf run_card.old (seen_card step.card.now) }
    requires apps { canned_of step.card.now.kind ≡ None }
    requires on { IfSome step.question (λ question. has_power run_card.old ≡ true) }
    requires name { length step.card.now.name.items ≤ 16 }
    ensures checked { (row : CardRow) → RowRests run_card.old row
        → (choice : Bool) × IsChecked run_card.new (seen_card step.entry.card.now) row step.entry.question choice lines.new.items }
    ensures on { has_power run_card.new ≡ true }
    ensures is { (card : CardData) → IsRunCardOf run_card.old card → IsRunCardOf run_card.new card }
    ensures losses { (count : ℕ) → HasLost run_card.old count → HasLost run_card.new count }
{
    let RunCardKind::App(icc) = &mut run_card.0 else {
        unreachable!();
    };
    match step.question {
        None => power(step.card, icc, lines),
        Some(question) => ask(step.card, icc, question, lines),
    }
}

/// A card that the audit has turned on is turned off.
fn turn_off<P: Pages>(icc: &mut Icc<'_, P>)
    ensures off { (row : CardRow) → RowRests (OfApps icc.old) row → IccOff icc.new row.kept row.pending }
    ensures same { KeepsIcc icc.old icc.new }
{
    if icc.is_on() {
        icc.power_off();
    }
}

/// A card is powered up without a plan.
fn power<P: Pages>(card: &NamedCard, icc: &mut Icc<'_, P>, lines: &mut Lines)
    requires rests { (row : CardRow) × RowRests (OfApps icc.old) row }
    requires name { length card.now.name.items ≤ 16 }
    ensures powered { (row : CardRow) → RowRests (OfApps icc.old) row → icc.old.image ≡ image_of card.now.kind
        → (with_it : Bool) × IccOn icc.new [] (found_of row.kept row.pending with_it) None 0
        × (lines.new.items ≡ audit_power_line (seen_card card.now) (found_of row.kept row.pending with_it) ∷ []) }
    ensures on { icc_on icc.new ≡ true }
    ensures same { KeepsIcc icc.old icc.new }
{
    turn_off(icc);
    let Ok(()) = icc.power_up(None) else {
        unreachable!();
    };
    tell_audit_power(
        name_of(card.name.as_slice()),
        icc.image(),
        icc.totals(),
        lines,
    );
}

/// A card that the audit has turned on is asked.
fn ask<P: Pages>(card: &NamedCard, icc: &mut Icc<'_, P>, question: Question<'_>, lines: &mut Lines)
    requires rests { (row : CardRow) × RowRests (OfApps icc.old) row }
    requires on { icc_on icc.old ≡ true }
    requires name { length card.now.name.items ≤ 16 }
    ensures asked { (row : CardRow) → RowRests (OfApps icc.old) row → icc.old.image ≡ image_of card.now.kind
        → IsAuditAsked icc.new (seen_card card.now) row (question_command question.entry) lines.new.items }
    ensures on { icc_on icc.new ≡ true }
    ensures same { KeepsIcc icc.old icc.new }
{
    prove!(icc.is_on());
    let mut command = Out::new();
    write_question(question, &mut command);
    let mut answer = Answer::new();
    let Ok(()) = icc.process(command.as_slice(), &mut answer) else {
        unreachable!();
    };
    tell_audit(
        card.name.as_slice(),
        command.as_slice(),
        answer.as_slice(),
        lines,
    );
}

/// The command of a question.
fn write_question(question: Question<'_>, out: &mut Out)
    ensures { out.new.items ≡ question_command question.entry }
{
    match question {
        Question::Select(app) => write_select(app.name.0.as_slice(), FIRST_OCCURRENCE, out),
        Question::Counter => write_get_data(0x36, out),
        Question::LastOnline => write_get_data(0x13, out),
    }
}

/// GET DATA of an object whose tag has this second byte behind 9F.
#[tactic(auto, unfolding(risk_mgmt::specs::Counters::get_data))]
fn write_get_data(second: u8, out: &mut Out)
    ensures { out.new.items ≡ get_data (0x9F00 + second) }
{
    write_command(
        &Command {
            class: 0x80,
            ins: 0xCA,
            p1: 0x9F,
            p2: second,
            body: &[],
            expects: Some(0),
        },
        out,
    );
}
