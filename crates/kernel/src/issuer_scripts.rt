//! The issuer's scripts before the second GENERATE AC (templates 71) and behind it (72; EMV 4.3 Book 3
//! section 10.10).
ghost use Rattle.std.specs.Prelude.{◌≡◌, ◌∷◌, ◌+◌, ◌-◌, ◌<◌, ◌≤◌, [], List, ℕ, length, drop, slice_get, option_map, IfSome};
ghost use Rattle.emv_dict.specs.Progress.{Progress};
ghost use Rattle.emv_dict.specs.declared.ending.Step.TheVariants as step;
ghost use Rattle.emv_dict.specs.declared.purchase.Logged.{Logged};
ghost use Rattle.kernel.specs.StepsInTurn.{Standing, card_step, cut_off};
ghost use Rattle.kernel.specs.Dialogue.{TransactionData, scripts_before, scripts_behind, left_script, all_failed, kind_for as kind_of_code};
ghost use Rattle.kernel.specs.Rank.{bytes_in_templates, commands_left};
ghost use Rattle.kernel.specs.Reply.{Reply, CardGone};
ghost use Rattle.kernel.specs.Stages.{TradingStands, Begins, HasAsked, HasRoomForResults};
ghost use Rattle.kernel.specs.Steps.{BeginsAs, StepComes, TakesAnswer, TakesReply};
ghost use Rattle.kernel.specs.Transactions.{transaction_of};
ghost use Rattle.kernel.specs.declared.stage.Trading.TheVariants as stage;
ghost use Rattle.script_run.specs.Leading.{RunNextLeads, commands_left_next};
ghost use Rattle.terminal_state.specs.StepResults.{StepResult, HasRunBefore, HasRunBehind, state_so_far as moment_of};
ghost use Rattle.terminal_state.specs.Scripts.{templates_of_tag};

use crate::second::begin_second;
use crate::stage::{AtScript, AtSecond, OnlineOutcome, Trading};
use crate::transaction::Transaction;
use ber_tlv::{Tag, nth_value};
use emv_dict::{Ending, Kind};
use script_run::{RunNext, Running};
use terminal_state::{HostReply, StateSoFar, Table};

/// The tag of a script before the second GENERATE AC.
const BEFORE: Tag = Tag(0x71);

/// That of one behind it.
const BEHIND: Tag = Tag(0x72);

/// The template of this tag that has so many of it before it in the reply.
#[tactic(auto, unfolding(terminal_state::specs::Scripts::templates_of_tag))]
fn template_of(reply: &HostReply, tag: Tag, index: usize) -> Option<&[u8]>
    ensures template { option_map (λ value. value.now) result ≡ slice_get (templates_of_tag tag.0 reply.now.scripts) index }
    ensures short { IfSome result (λ value. length value.now ≤ 1024) }
    ensures few { IfSome result (λ _. index < 8) }
{
    nth_value(&reply.scripts, tag, index)
}

/// The kind that the reply's code asks for: 00 approves.
fn kind_for(reply: &HostReply) -> Kind
    ensures { result ≡ kind_of_code reply.now.code }
{
    if reply.code == *b"00" {
        Kind::Tc
    } else {
        Kind::Aac
    }
}

/// Runs the scripts before the second GENERATE AC, from the one that has so many before it on, and asks for
/// the second cryptogram behind them.
#[cycle(before)]
pub(crate) fn run_before<'s>(
    table: &mut Table<'s>,
    transaction: &Transaction<'_, 's>,
    index: usize,
) -> Trading<'s>
    requires room { HasRoomForResults table.old ((length (templates_of_tag 0x71 table.old.reply.scripts) - index) + length (templates_of_tag 0x72 table.old.reply.scripts)) }
    ensures stands { (steps_done : List StepResult) (log : List Logged) → BeginsAs table.old table.new (transaction_of transaction.now) result steps_done log (scripts_before (transaction_of transaction.now) table.old.reply (drop index (templates_of_tag 0x71 table.old.reply.scripts)) steps_done log) }
    ensures step { StepComes table.old table.new result (2 + (bytes_in_templates (drop index (templates_of_tag 0x71 table.old.reply.scripts)) + bytes_in_templates (templates_of_tag 0x72 table.old.reply.scripts))) }
{
    match template_of(&table.reply, BEFORE, index) {
        Some(template) => {
            let next = Running::begin(template);
            before_next(table, transaction, next, index + 1)
        }
        None => {
            let asked = kind_for(&table.reply);
            let outcome = OnlineOutcome::Replied;
            begin_second(table, transaction, AtSecond { asked, outcome })
        }
    }
}

/// How a script before the second GENERATE AC goes on; `index` is the one of the script behind it.
#[cycle(before)]
fn before_next<'s>(
    table: &mut Table<'s>,
    transaction: &Transaction<'_, 's>,
    next: RunNext,
    index: usize,
) -> Trading<'s>
    requires room { HasRoomForResults table.old (1 + (length (templates_of_tag 0x71 table.old.reply.scripts) - index) + length (templates_of_tag 0x72 table.old.reply.scripts)) }
    ensures stands { (steps_done : List StepResult) (log : List Logged) (course : List (List ℕ) → Progress (List ℕ)) (rest : List Reply → Standing StepResult)
        → Begins table.old transaction.now.card.now steps_done rest (card_step (cut_off steps_done) step.Script step.Script steps_done course
        (λ found. scripts_before (transaction_of transaction.now) table.old.reply (drop index (templates_of_tag 0x71 table.old.reply.scripts)) (HasRunBefore found ∷ steps_done)) log)
        → RunNextLeads course [] next
        → TradingStands table.new (transaction_of transaction.now) result log rest }
    ensures step { StepComes table.old table.new result (commands_left_next next + 3 + (bytes_in_templates (drop index (templates_of_tag 0x71 table.old.reply.scripts)) + bytes_in_templates (templates_of_tag 0x72 table.old.reply.scripts))) }
{
    match next {
        RunNext::Ask(running) => {
            running.ask(&mut table.command);
            table.running = Some(running);
            Trading::ScriptBefore(AtScript { next: index })
        }
        RunNext::Done(found) => {
            table.state_so_far.has_run_before(found);
            run_before(table, transaction, index)
        }
    }
}

/// The card's answer in a script before the second GENERATE AC.
pub(crate) fn on_script_before<'s>(
    table: &mut Table<'s>,
    transaction: &Transaction<'_, 's>,
    state: AtScript,
    reply: &[u8],
) -> Trading<'s>
    requires asked { HasAsked table.old (stage.ScriptBefore state) }
    requires room { HasRoomForResults table.old (1 + (length (templates_of_tag 0x71 table.old.reply.scripts) - state.next) + length (templates_of_tag 0x72 table.old.reply.scripts)) }
    ensures stands { TakesAnswer table.old table.new (transaction_of transaction.now) (stage.ScriptBefore state) result reply.now }
    ensures step { StepComes table.old table.new result (commands_left table.old.running + 2 + (bytes_in_templates (drop state.next (templates_of_tag 0x71 table.old.reply.scripts)) + bytes_in_templates (templates_of_tag 0x72 table.old.reply.scripts))) }
{
    let Some(running) = table.running.take() else {
        unreachable!();
    };
    let gone_on = running.take(reply);
    before_next(table, transaction, gone_on, state.next)
}

/// Runs the scripts behind the second GENERATE AC, from the one that has so many before it on.
#[cycle(behind)]
pub(crate) fn run_behind<'s>(table: &mut Table<'s>, ending: Ending, index: usize) -> Trading<'s>
    requires room { HasRoomForResults table.old (length (templates_of_tag 0x72 table.old.reply.scripts) - index) }
    ensures stands { (transaction : TransactionData) (steps_done : List StepResult) (log : List Logged) → BeginsAs table.old table.new transaction result steps_done log (scripts_behind ending (drop index (templates_of_tag 0x72 table.old.reply.scripts)) steps_done log) }
    ensures step { StepComes table.old table.new result (1 + bytes_in_templates (drop index (templates_of_tag 0x72 table.old.reply.scripts))) }
{
    match template_of(&table.reply, BEHIND, index) {
        Some(template) => {
            let next = Running::begin(template);
            behind_next(table, ending, next, index + 1)
        }
        None => Trading::Over(ending),
    }
}

/// How a script behind the second GENERATE AC goes on; `index` is the one of the script behind it.
#[cycle(behind)]
fn behind_next<'s>(
    table: &mut Table<'s>,
    ending: Ending,
    next: RunNext,
    index: usize,
) -> Trading<'s>
    requires room { HasRoomForResults table.old (1 + (length (templates_of_tag 0x72 table.old.reply.scripts) - index)) }
    ensures stands { (transaction : TransactionData) (steps_done : List StepResult) (log : List Logged) (course : List (List ℕ) → Progress (List ℕ)) (rest : List Reply → Standing StepResult)
        → Begins table.old transaction.card steps_done rest (card_step (left_script ending (drop index (templates_of_tag 0x72 table.old.reply.scripts)) steps_done) step.Script step.Script steps_done course
        (λ found. scripts_behind ending (drop index (templates_of_tag 0x72 table.old.reply.scripts)) (HasRunBehind found ∷ steps_done)) log)
        → RunNextLeads course [] next
        → TradingStands table.new transaction result log rest }
    ensures step { StepComes table.old table.new result (commands_left_next next + 2 + bytes_in_templates (drop index (templates_of_tag 0x72 table.old.reply.scripts))) }
{
    match next {
        RunNext::Ask(running) => {
            running.ask(&mut table.command);
            table.running = Some(running);
            Trading::ScriptBehind(AtScript { next: index }, ending)
        }
        RunNext::Done(found) => {
            table.state_so_far.has_run_behind(found);
            run_behind(table, ending, index)
        }
    }
}

/// The card's answer in a script behind the second GENERATE AC.
pub(crate) fn on_script_behind<'s>(
    table: &mut Table<'s>,
    state: AtScript,
    ending: Ending,
    reply: &[u8],
) -> Trading<'s>
    requires asked { HasAsked table.old (stage.ScriptBehind state ending) }
    requires room { HasRoomForResults table.old (1 + (length (templates_of_tag 0x72 table.old.reply.scripts) - state.next)) }
    ensures stands { (transaction : TransactionData) → TakesAnswer table.old table.new transaction (stage.ScriptBehind state ending) result reply.now }
    ensures step { StepComes table.old table.new result (commands_left table.old.running + 1 + bytes_in_templates (drop state.next (templates_of_tag 0x72 table.old.reply.scripts))) }
{
    let Some(running) = table.running.take() else {
        unreachable!();
    };
    let gone_on = running.take(reply);
    behind_next(table, ending, gone_on, state.next)
}

/// The card is gone in a script behind the second GENERATE AC: this script failed, and each one behind it.
pub(crate) fn gone_behind<'s>(table: &mut Table<'s>, state: AtScript, ending: Ending) -> Trading<'s>
    requires asked { HasAsked table.old (stage.ScriptBehind state ending) }
    requires room { HasRoomForResults table.old (1 + (length (templates_of_tag 0x72 table.old.reply.scripts) - state.next)) }
    ensures stands { (transaction : TransactionData) → TakesReply table.old table.new transaction (stage.ScriptBehind state ending) result CardGone }
    ensures over { result ≡ stage.Over ending }
    ensures step { StepComes table.old table.new result 1 }
{
    let Some(running) = table.running.take() else {
        unreachable!();
    };
    let found = running.gone();
    table.state_so_far.has_run_behind(found);
    fail_behind(&mut table.state_so_far, &table.reply, state.next);
    Trading::Over(ending)
}

/// The result of a script that wasn't run.
const NOT_RUN: [u8; 5] = [0; 5];

/// The scripts behind the second GENERATE AC fail, from the one that has so many before it on.
fn fail_behind(state_so_far: &mut StateSoFar, reply: &HostReply, index: usize)
    requires room { length state_so_far.old.scripts + (length (templates_of_tag 0x72 reply.now.scripts) - index) ≤ 8 }
    ensures steps_done { (steps_done : List StepResult) → state_so_far.old ≡ moment_of steps_done
        → state_so_far.new ≡ moment_of (all_failed (drop index (templates_of_tag 0x72 reply.now.scripts)) steps_done) }
    ensures room { length state_so_far.new.scripts ≤ 8 }
{
    match template_of(reply, BEHIND, index) {
        Some(_) => {
            state_so_far.has_run_behind(NOT_RUN);
            fail_behind(state_so_far, reply, index + 1);
        }
        None => {}
    }
}
