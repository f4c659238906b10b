//! Completion: the second GENERATE AC and what its cryptogram decides (EMV 4.3 Book 3 section 10.11).
ghost use Rattle.std.specs.Prelude.{◌≡◌, ◌∷◌, ◌+◌, List, length};
ghost use Rattle.emv_dict.specs.declared.purchase.Logged.{Logged};
ghost use Rattle.kernel.specs.Dialogue.{second, TransactionData, scripts_behind, decision};
ghost use Rattle.kernel.specs.Rank.{bytes_in_templates};
ghost use Rattle.kernel.specs.Stages.{HasRoomForResults, behind_if};
ghost use Rattle.kernel.specs.Steps.{BeginsAs, StepComes, TakesAnswer};
ghost use Rattle.kernel.specs.Transactions.{transaction_of};
ghost use Rattle.kernel.specs.declared.stage.Trading.TheVariants as stage;
ghost use Rattle.terminal_state.specs.StepResults.{StepResult, HasSecond};

use crate::generate::ask_generate;
use crate::issuer_scripts::run_behind;
use crate::stage::{AtSecond, OnlineOutcome, Trading};
use crate::transaction::Transaction;
use ber_tlv::Tag;
use emv_dict::{Ac, Cause, Ending, Kind, Step};
use online_step::{GenerateAc, read_ac};
use terminal_state::Table;

/// The object list of the second GENERATE AC (CDOL2).
const SECOND_LIST: Tag = Tag(0x8d);

/// The second GENERATE AC is asked.
#[tactic(auto, unfolding(crate::specs::Completion::second))]
pub(crate) fn begin_second<'s>(
    table: &mut Table<'s>,
    transaction: &Transaction<'_, 's>,
    state: AtSecond,
) -> Trading<'s>
    requires room { HasRoomForResults table.old (length (behind_if state.outcome table.old.reply.scripts)) }
    ensures stands { (steps_done : List StepResult) (log : List Logged) → BeginsAs table.old table.new (transaction_of transaction.now) result steps_done log (second (transaction_of transaction.now) state.outcome state.asked (behind_if state.outcome table.old.reply.scripts) steps_done log) }
    ensures step { StepComes table.old table.new result (2 + bytes_in_templates (behind_if state.outcome table.old.reply.scripts)) }
{
    if ask_generate(table, transaction, SECOND_LIST, state.asked) {
        Trading::Second(state)
    } else {
        Trading::Over(Ending::Terminated(Step::Second, Cause::Dol(SECOND_LIST)))
    }
}

/// The card's answer to the second GENERATE AC.
pub(crate) fn on_second<'s>(table: &mut Table<'s>, state: AtSecond, reply: &[u8]) -> Trading<'s>
    requires room { HasRoomForResults table.old (length (behind_if state.outcome table.old.reply.scripts)) }
    ensures stands { (transaction : TransactionData) → TakesAnswer table.old table.new transaction (stage.Second state) result reply.now }
    ensures step { StepComes table.old table.new result (1 + bytes_in_templates (behind_if state.outcome table.old.reply.scripts)) }
{
    match read_ac(reply, state.asked, GenerateAc::Second) {
        Ok(ac) => finish(table, state.outcome, ac),
        Err(cause) => Trading::Over(Ending::Terminated(Step::Second, cause)),
    }
}

/// The second cryptogram settles the ending, and scripts may run behind it.
fn finish<'s>(table: &mut Table<'s>, outcome: OnlineOutcome, ac: Ac) -> Trading<'s>
    requires room { HasRoomForResults table.old (length (behind_if outcome table.old.reply.scripts)) }
    ensures stands { (transaction : TransactionData) (steps_done : List StepResult) (log : List Logged) → BeginsAs table.old table.new transaction result steps_done log (scripts_behind (decision outcome ac.kind) (behind_if outcome table.old.reply.scripts) (HasSecond ac ∷ steps_done) log) }
    ensures step { StepComes table.old table.new result (1 + bytes_in_templates (behind_if outcome table.old.reply.scripts)) }
{
    let ending = ending_of(outcome, &ac);
    table.state_so_far.has_second(ac);
    match outcome {
        OnlineOutcome::Replied => run_behind(table, ending, 0),
        OnlineOutcome::Unable => Trading::Over(ending),
    }
}

/// What a cryptogram ends with.
fn ending_of(outcome: OnlineOutcome, ac: &Ac) -> Ending
    ensures { result ≡ decision outcome ac.now.kind }
{
    let online = matches!(outcome, OnlineOutcome::Replied);
    match ac.kind {
        Kind::Tc => Ending::Approved { online },
        Kind::Aac | Kind::Arqc => Ending::Declined { online },
    }
}
