//! A card in a reader, and what it answers to each line.
ghost use Rattle.std.specs.Prelude.{◌≡◌, ◌≤◌, ◌++◌, ◌∷◌, [], ℕ, List, Bool, true, None, Some, false, length, codes, IsTrue, IfOk, OnOk};
ghost use Rattle.std.specs.declared.option.Option.{Option};
ghost use Rattle.card_app.specs.SeenIcc.{IccOff, IccOn, IsIccOff, icc_is_powered as has_power};
ghost use Rattle.card_app.specs.Session.{Exchange};
ghost use Rattle.card_app.specs.Cuts.{cut_of};
ghost use Rattle.card_app.specs.Answering.{card_answer};
ghost use Rattle.card_app.specs.Counters as counts;
ghost use Rattle.card_state.specs.Decisions.{Decided};
ghost use Rattle.emv_ports.specs.Cut.{is_plan};
ghost use Rattle.report_text.specs.Text.{all_shown};
ghost use Rattle.card_at_reader.specs.Desk as spec;
ghost use Rattle.card_at_reader.specs.Desk.{At, HasAnswered, IsCardTalk, CanBeDone, IsTurn, Side, SideHolds, SideStands, DeskStands, at_of, card_opening};
ghost use Rattle.card_at_reader.specs.Notes.{answered_notes, torn_notes};
ghost use Rattle.card_at_reader.specs.SincePower.{Since, told_coming, told_of_cut};

use crate::notes::Notes;
use crate::since::{Coming, coming_in, note_taken, note_torn_off};
use crate::torn_text::tell_torn;
use crate::word::{Order, Question, Word, word_of};
use apdu_core::Answer;
use arrayvec::ArrayVec;
use card_app::{Icc, Reason, shown_all};
use card_files::Image;
use card_state::CardState;
use card_words::{Told, tell_decided, tell_reason, tell_state};
use emv_ports::{Gone, Pages, Tear};
use line_talk::{LineText, Onward, Party, put_line};
use report_text::pieces::{append, hex_or_dash};
use report_text::{Line, Text, write_line};
use std::alloc::{AllocError, Global};

/// A card in a reader, what is noted beside it, and its decisions since the power-up as they are told.
#[derive(Drop)]
pub struct Desk<'i, P: Pages> {
    pub icc: Icc<'i, P>,
    pub notes: Notes,
    pub told: Vec<Told>,
}

/// A card that has decided nothing yet, off.
pub fn put_in<'i, P: Pages>(alloc: Global, image: &'i Image, pages: P) -> Desk<'i, P>
    requires off { (P.memory pages).on ≡ false }
    requires plan { (P.memory pages).plan ≡ None }
    ensures stands { DeskStands result.icc result.notes result.told.items (spec.desk_at_first) }
    ensures image { result.icc.image ≡ image.now }
{
    Desk {
        icc: Icc::new(image, pages),
        notes: Notes::new(),
        told: Vec::new(alloc),
    }
}

/// A text in place of what was there.
fn tell(out: &mut Text, text: &[u8])
    requires { length text.now ≤ 8192 }
    ensures { out.new.items ≡ text.now }
{
    out.clear();
    append(out, text);
}

/// The numbers of a power-up: those of a report's line, behind its first letter and the name.
#[tactic(auto, unfolding(report_text::specs::Text::line_text))]
fn tell_power(image: &Image, state: &CardState, out: &mut Text)
    ensures { out.new.items ≡ codes "power" ++ (all_shown (counts.shown_all image.now.apps state.now) ++ 10 ∷ []) }
{
    let line = Line::AuditPower {
        card: ArrayVec::new(),
        apps: shown_all(image, state),
    };
    let mut text = Text::new();
    write_line(&line, &mut text);
    tell(out, &text.as_slice()[3..]);
}

/// Turns a card on that is off.
fn turn_on<P: Pages>(desk: &mut Desk<'_, P>, out: &mut Text)
    requires off { IsIccOff desk.old.icc }
    ensures turn { (kept : List Decided) (pending : Option Decided) → IccOff desk.old.icc kept pending
        → (with_it : Bool) × IsTurn desk.new.icc desk.new.notes desk.new.told.items out.new.items (spec.desk_powered desk.old.icc.image with_it desk.old.notes kept pending) }
    ensures image { desk.new.icc.image ≡ desk.old.icc.image }
{
    desk.notes.take_plan();
    desk.told.clear();
    match desk.icc.power_up(desk.notes.plan()) {
        Ok(()) => tell_power(desk.icc.image(), desk.icc.totals(), out),
        Err(Gone) => {
            desk.notes.note_torn();
            tell(out, b"power torn\n");
        }
    }
}

/// Turns a card off, where it is on.
fn turn_off<P: Pages>(desk: &mut Desk<'_, P>)
    requires stands { (side : Side) × SideStands desk.old.icc desk.old.notes.plan side }
    ensures holds { (side : Side) → SideHolds desk.old.icc desk.old.notes.plan desk.old.told.items side
        → SideHolds desk.new.icc desk.new.notes.plan desk.new.told.items (spec.off_side side) }
    ensures off { IsIccOff desk.new.icc }
    ensures notes { desk.new.notes ≡ desk.old.notes }
    ensures image { desk.new.icc.image ≡ desk.old.icc.image }
{
    if !desk.icc.is_on() {
        return;
    }
    desk.icc.power_off();
}

/// The line of an answer.
fn tell_answer(answer: &[u8], out: &mut Text)
    requires { length answer.now ≤ 258 }
    ensures { out.new.items ≡ spec.answer_text answer.now }
{
    tell(out, b"< ");
    hex_or_dash(out, answer);
    append(out, b"\n");
}

/// Notes what a command that was answered has decided, and why, and tells the answer.
fn note_answered<P: Pages>(
    desk: &mut Desk<'_, P>,
    coming: &Coming,
    reason: Option<Reason>,
    answer: &[u8],
    out: &mut Text,
) -> Result<(), AllocError>
    requires few { length answer.now ≤ 258 }
    ensures told { OnOk result (desk.new.told.items ≡ desk.old.told.items ++ told_coming coming.now) }
    ensures noted { OnOk result (desk.new.notes ≡ answered_notes desk.old.notes reason) }
    ensures text { OnOk result (out.new.items ≡ spec.answer_text answer.now) }
    ensures icc { desk.new.icc ≡ desk.old.icc }
{
    note_taken(&mut desk.told, coming)?;
    desk.notes.note_reason(reason);
    tell_answer(answer, out);
    Ok(())
}

/// Notes what is kept of a command that the plan cut off, and tells that.
fn note_cut_off<P: Pages>(
    desk: &mut Desk<'_, P>,
    coming: &Coming,
    out: &mut Text,
) -> Result<(), AllocError>
    ensures told { OnOk result (desk.new.told.items
        ≡ desk.old.told.items ++ told_of_cut desk.old.notes.plan (length desk.old.told.items) (told_coming coming.now)) }
    ensures noted { OnOk result (desk.new.notes ≡ torn_notes desk.old.notes) }
    ensures text { OnOk result (out.new.items ≡ spec.torn_text) }
    ensures icc { desk.new.icc ≡ desk.old.icc }
{
    note_torn_off(&mut desk.told, desk.notes.plan(), coming)?;
    desk.notes.note_torn();
    tell(out, b"< torn\n");
    Ok(())
}

/// Gives a command to a card that is on.
fn command_on<P: Pages>(
    desk: &mut Desk<'_, P>,
    command: &[u8],
    out: &mut Text,
) -> Result<(), AllocError>
    requires on { has_power desk.old.icc ≡ true }
    ensures turn { OnOk result ((session : List Exchange) (found : List Decided) (taken : List Decided)
        → SideHolds desk.old.icc desk.old.notes.plan desk.old.told.items (spec.IsOn session found taken)
        → IsTurn desk.new.icc desk.new.notes desk.new.told.items out.new.items
        (spec.commanded desk.old.icc.image session found taken desk.old.notes command.now
        (cut_of desk.old.notes.plan (length taken) (card_answer desk.old.icc.image (found ++ taken) session command.now).new))) }
    ensures image { desk.new.icc.image ≡ desk.old.icc.image }
{
    let foretold = desk.icc.foretell(command);
    let coming = coming_in(desk.icc.totals(), &foretold);
    let reason = desk.icc.reason(command);
    let mut answer = Answer::new();
    match desk.icc.process(command, &mut answer) {
        Ok(()) => note_answered(desk, &coming, reason, answer.as_slice(), out),
        Err(Gone) => note_cut_off(desk, &coming, out),
    }
}

/// Gives a card a command.
fn give<P: Pages>(desk: &mut Desk<'_, P>, command: &[u8], out: &mut Text) -> Result<(), AllocError>
    ensures turn { OnOk result ((side : Side) → SideHolds desk.old.icc desk.old.notes.plan desk.old.told.items side
        → IsTurn desk.new.icc desk.new.notes desk.new.told.items out.new.items (spec.command_turn desk.old.icc.image desk.old.notes command.now side)) }
    ensures image { desk.new.icc.image ≡ desk.old.icc.image }
{
    if !desk.icc.is_on() {
        tell(out, b"?\n");
        return Ok(());
    }
    command_on(desk, command, out)
}

/// Plans a tear for the next power-up, and says the line again.
fn plan_tear<P: Pages>(desk: &mut Desk<'_, P>, tear: Tear, line: &[u8], out: &mut Text)
    requires tear { IsTrue (is_plan (Some tear)) }
    requires short { length line.now ≤ 8191 }
    ensures turn { (side : Side) → SideHolds desk.old.icc desk.old.notes.plan desk.old.told.items side
        → IsTurn desk.new.icc desk.new.notes desk.new.told.items out.new.items (spec.pull_turn (at_of side desk.old.notes) line.now tear) }
    ensures image { desk.new.icc.image ≡ desk.old.icc.image }
{
    desk.notes.plan_next(tear);
    tell(out, line);
    append(out, b"\n");
}

/// Turns a card off, where it is on, and on.
fn power<P: Pages>(desk: &mut Desk<'_, P>, out: &mut Text)
    requires stands { (side : Side) × SideStands desk.old.icc desk.old.notes.plan side }
    ensures turn { (side : Side) → SideHolds desk.old.icc desk.old.notes.plan desk.old.told.items side
        → (with_it : Bool) × IsTurn desk.new.icc desk.new.notes desk.new.told.items out.new.items (spec.power_turn desk.old.icc.image with_it desk.old.notes side) }
    ensures image { desk.new.icc.image ≡ desk.old.icc.image }
{
    turn_off(desk);
    turn_on(desk, out);
}

/// Has the card do what a line says.
fn obey<P: Pages>(
    desk: &mut Desk<'_, P>,
    order: &Order,
    line: &[u8],
    out: &mut Text,
) -> Result<(), AllocError>
    requires stands { (side : Side) × SideStands desk.old.icc desk.old.notes.plan side }
    requires tear { CanBeDone order.now }
    requires short { length line.now ≤ 8191 }
    ensures turn { OnOk result ((side : Side) → SideHolds desk.old.icc desk.old.notes.plan desk.old.told.items side
        → (with_it : Bool) × IsTurn desk.new.icc desk.new.notes desk.new.told.items out.new.items
        (spec.order_turn desk.old.icc.image with_it (at_of side desk.old.notes) line.now order.now)) }
    ensures image { desk.new.icc.image ≡ desk.old.icc.image }
{
    match order {
        Order::Power => power(desk, out),
        Order::Off => {
            turn_off(desk);
            tell(out, b"off\n");
        }
        Order::Command(command) => return give(desk, command.as_slice(), out),
        Order::Pull(tear) => plan_tear(desk, *tear, line, out),
    }
    Ok(())
}

/// Tells the state of a card that is off, as a power-up without a plan finds it. What it finds is what the next one finds.
fn tell_found<P: Pages>(desk: &mut Desk<'_, P>, text: &mut Vec<u8>) -> Result<(), AllocError>
    requires off { IsIccOff desk.old.icc }
    ensures turn { OnOk result ((kept : List Decided) (pending : Option Decided) (since : Since)
        → SideHolds desk.old.icc desk.old.notes.plan desk.old.told.items (spec.IsOff kept pending since)
        → (with_it : Bool) × IsTurn desk.new.icc desk.new.notes desk.new.told.items text.new.items
        (spec.state_turn desk.old.icc.image with_it desk.old.notes (spec.IsOff kept pending since))) }
    ensures notes { desk.new.notes ≡ desk.old.notes }
    ensures image { desk.new.icc.image ≡ desk.old.icc.image }
{
    match desk.icc.power_up(None) {
        Ok(()) => {
            tell_state(text, desk.icc.totals())?;
            desk.icc.power_off();
            Ok(())
        }
        Err(Gone) => unreachable!(),
    }
}

/// Tells the state of a card.
fn tell_card<P: Pages>(desk: &mut Desk<'_, P>, text: &mut Vec<u8>) -> Result<(), AllocError>
    requires stands { (side : Side) × SideStands desk.old.icc desk.old.notes.plan side }
    ensures turn { OnOk result ((side : Side) → SideHolds desk.old.icc desk.old.notes.plan desk.old.told.items side
        → (with_it : Bool) × IsTurn desk.new.icc desk.new.notes desk.new.told.items text.new.items (spec.state_turn desk.old.icc.image with_it desk.old.notes side)) }
    ensures notes { desk.new.notes ≡ desk.old.notes }
    ensures image { desk.new.icc.image ≡ desk.old.icc.image }
{
    if desk.icc.is_on() {
        return tell_state(text, desk.icc.totals());
    }
    tell_found(desk, text)
}

/// Tells what is asked.
fn tell_asked<P: Pages>(
    desk: &mut Desk<'_, P>,
    question: Question,
    text: &mut Vec<u8>,
) -> Result<(), AllocError>
    requires stands { (side : Side) × SideStands desk.old.icc desk.old.notes.plan side }
    ensures turn { OnOk result ((side : Side) → SideHolds desk.old.icc desk.old.notes.plan desk.old.told.items side
        → (with_it : Bool) × IsTurn desk.new.icc desk.new.notes desk.new.told.items text.new.items
        (spec.question_turn desk.old.icc.image with_it (at_of side desk.old.notes) question)) }
    ensures notes { desk.new.notes ≡ desk.old.notes }
    ensures image { desk.new.icc.image ≡ desk.old.icc.image }
{
    match question {
        Question::State => tell_card(desk, text),
        Question::Torn => {
            let mut line = LineText::new();
            tell_torn(&mut line, desk.notes.torn());
            put_line(text, line.as_slice())
        }
        Question::Decided => tell_decided(text, desk.told.as_slice()),
        Question::Why => {
            let mut line = LineText::new();
            tell_reason(&mut line, desk.notes.why());
            put_line(text, line.as_slice())
        }
    }
}

/// Answers what a line says.
fn answer_word<P: Pages>(
    desk: &mut Desk<'_, P>,
    word: &Word,
    line: &[u8],
    text: &mut Vec<u8>,
) -> Result<(), AllocError>
    requires stands { (side : Side) × SideStands desk.old.icc desk.old.notes.plan side }
    requires tear { spec.CanBePlanned word.now }
    requires short { length line.now ≤ 8191 }
    ensures turn { OnOk result ((side : Side) → SideHolds desk.old.icc desk.old.notes.plan desk.old.told.items side
        → (with_it : Bool) × IsTurn desk.new.icc desk.new.notes desk.new.told.items text.new.items
        (spec.turn_by desk.old.icc.image with_it (at_of side desk.old.notes) line.now word.now)) }
    ensures image { desk.new.icc.image ≡ desk.old.icc.image }
{
    match word {
        Word::Does(order) => {
            let mut told = LineText::new();
            obey(desk, order, line, &mut told)?;
            put_line(text, told.as_slice())
        }
        Word::Asks(question) => tell_asked(desk, *question, text),
        Word::Other => put_line(text, b"?\n"),
    }
}

/// Answers a line. Where there is no memory to read it, the card is left as it was.
pub fn answer_line<P: Pages>(
    alloc: Global,
    desk: &mut Desk<'_, P>,
    line: &[u8],
    text: &mut Vec<u8>,
) -> Result<(), AllocError>
    requires stands { (at : At) × DeskStands desk.old.icc desk.old.notes desk.old.told.items at }
    requires short { length line.now ≤ 8191 }
    ensures turn { OnOk result ((at : At) → DeskStands desk.old.icc desk.old.notes desk.old.told.items at
        → (with_it : Bool) × IsTurn desk.new.icc desk.new.notes desk.new.told.items text.new.items (spec.turn desk.old.icc.image with_it at line.now)) }
    ensures image { desk.new.icc.image ≡ desk.old.icc.image }
{
    let word = word_of(alloc, line)?;
    answer_word(desk, &word, line, text)
}

impl<P: Pages> Party for Desk<'_, P> {
    ghost opening = { λ desk. card_opening };

    ghost stands = { λ desk turns. HasAnswered desk.icc desk.notes desk.told.items turns };

    ghost talks = { λ desk turns. IsCardTalk desk.icc.image turns };

    fn open(&mut self, text: &mut LineText) -> Onward {
        text.clear();
        Onward::Rests
    }

    fn answer(
        &mut self,
        alloc: Global,
        line: &[u8],
        text: &mut Vec<u8>,
    ) -> Result<Onward, AllocError> {
        answer_line(alloc, self, line, text)?;
        Ok(Onward::Rests)
    }

    ghost told = { λ desk turns stands. (stands.at, stands.talked) };
}
