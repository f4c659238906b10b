//! Terminal risk management (EMV 4.3 Book 3 section 10.6).
ghost use Rattle.std.specs.Prelude.{◌+◌, [], ◌∷◌, ℕ, List};
ghost use Rattle.emv_dict.specs.Progress.{Progress};
ghost use Rattle.emv_dict.specs.declared.ending.Step.TheVariants as step;
ghost use Rattle.emv_dict.specs.declared.judged.Judged.{Judged};
ghost use Rattle.emv_dict.specs.declared.purchase.Logged.{Logged};
ghost use Rattle.kernel.specs.StepsInTurn.{Standing, card_step, cut_off};
ghost use Rattle.kernel.specs.Dialogue.{risk, analysis};
ghost use Rattle.kernel.specs.Rank.{most_scripts};
ghost use Rattle.kernel.specs.Reply.{Reply};
ghost use Rattle.kernel.specs.Stages.{TradingStands, Begins, HasRoomForResults};
ghost use Rattle.kernel.specs.Steps.{BeginsAs, StepComes, TakesAnswer};
ghost use Rattle.kernel.specs.Transactions.{transaction_of};
ghost use Rattle.kernel.specs.declared.stage.Trading.TheVariants as stage;
ghost use Rattle.risk_mgmt.specs.Asked.{counters_by};
ghost use Rattle.risk_mgmt.specs.Judging.{JudgeNextLeads as JudgeLeads, counters_left};
ghost use Rattle.terminal_state.specs.StepResults.{StepResult, HasJudged};

use crate::analysis::analyse;
use crate::stage::Trading;
use crate::transaction::Transaction;
use emv_dict::{Ending, Step};
use risk_mgmt::{JudgeNext, Judging};
use terminal_state::Table;

/// Terminal risk management begins.
#[tactic(auto, unfolding(crate::specs::TerminalRiskManagement::risk))]
pub(crate) fn begin_risk<'s>(
    table: &mut Table<'s>,
    transaction: &Transaction<'_, 's>,
) -> Trading<'s>
    requires room { HasRoomForResults table.old 8 }
    ensures stands { (steps_done : List StepResult) → BeginsAs table.old table.new (transaction_of transaction.now) result steps_done transaction.now.log.now (risk (transaction_of transaction.now) steps_done transaction.now.log.now) }
    ensures step { StepComes table.old table.new result (7 + most_scripts) }
{
    let next = Judging::begin(
        transaction.card,
        transaction.settings,
        transaction.row,
        transaction.purchase,
        transaction.log,
    );
    judge_next(table, transaction, next)
}

/// The card's answer in terminal risk management.
pub(crate) fn on_judge<'s>(
    table: &mut Table<'s>,
    transaction: &Transaction<'_, 's>,
    judging: Judging,
    reply: &[u8],
) -> Trading<'s>
    requires room { HasRoomForResults table.old 8 }
    ensures stands { TakesAnswer table.old table.new (transaction_of transaction.now) (stage.Risk judging) result reply.now }
    ensures step { StepComes table.old table.new result (counters_by judging.asking + 4 + most_scripts) }
{
    let next = judging.take(reply);
    judge_next(table, transaction, next)
}

/// How terminal risk management goes on.
fn judge_next<'s>(
    table: &mut Table<'s>,
    transaction: &Transaction<'_, 's>,
    next: JudgeNext,
) -> Trading<'s>
    requires room { HasRoomForResults table.old 8 }
    ensures stands { (steps_done : List StepResult) (log : List Logged) (course : List (List ℕ) → Progress Judged) (rest : List Reply → Standing StepResult)
        → Begins table.old transaction.now.card.now steps_done rest (card_step (cut_off steps_done) step.Risk step.Risk steps_done course
        (λ judged. analysis (transaction_of transaction.now) (HasJudged judged ∷ steps_done)) log)
        → JudgeLeads course [] next
        → TradingStands table.new (transaction_of transaction.now) result log rest }
    ensures step { StepComes table.old table.new result (5 + most_scripts + counters_left next) }
{
    match next {
        JudgeNext::Ask(judging) => {
            judging.ask(&mut table.command);
            Trading::Risk(judging)
        }
        JudgeNext::Done(judged) => {
            table.state_so_far.has_judged(judged);
            analyse(table, transaction)
        }
        JudgeNext::Ended(cause) => Trading::Over(Ending::Terminated(Step::Risk, cause)),
    }
}
