//! Processing restrictions and cardholder verification (EMV 4.3 Book 3 sections 10.4 and 10.5).
ghost use Rattle.std.specs.Prelude.{◌≡◌, ◌+◌, [], ◌∷◌, ℕ, List, length};
ghost use Rattle.cvm_list.specs.NextIs.{VerifyNextLeads as VerifyLeads, entries_left};
ghost use Rattle.emv_dict.specs.Progress.{Progress};
ghost use Rattle.emv_dict.specs.declared.ending.Step.TheVariants as step;
ghost use Rattle.emv_dict.specs.declared.purchase.Logged.{Logged};
ghost use Rattle.emv_dict.specs.declared.verified.Verified.{Verified};
ghost use Rattle.kernel.specs.StepsInTurn.{Standing, card_step, cut_off};
ghost use Rattle.kernel.specs.Dialogue.{restrictions, verification, risk};
ghost use Rattle.kernel.specs.Rank.{most_scripts};
ghost use Rattle.kernel.specs.Reply.{Reply, CardSaid};
ghost use Rattle.kernel.specs.Stages.{TradingStands, Begins, HasRoomForResults};
ghost use Rattle.kernel.specs.Steps.{BeginsAs, StepComes, TakesOn};
ghost use Rattle.kernel.specs.Transactions.{transaction_of};
ghost use Rattle.kernel.specs.declared.stage.Trading.TheVariants as stage;
ghost use Rattle.terminal_state.specs.StepResults.{StepResult, HasVerified, state_so_far};

use crate::risk::begin_risk;
use crate::stage::Trading;
use crate::transaction::Transaction;
use cvm_list::{VerifyNext, Verifying};
use emv_dict::{Ending, Step};
use restrictions::restrict;
use terminal_state::Table;

/// The card is read: the processing restrictions, which ask it nothing, and then cardholder verification.
#[tactic(auto, unfolding(crate::specs::ProcessingRestrictions::restrictions))]
pub(crate) fn begin_trading<'s>(
    table: &mut Table<'s>,
    transaction: &Transaction<'_, 's>,
) -> Trading<'s>
    requires state_so_far { table.old.state_so_far ≡ state_so_far [] }
    ensures stands { (rest : List Reply → Standing StepResult)
        → ((later : List Reply) → rest later ≡ restrictions (transaction_of transaction.now) transaction.now.log.now later)
        → TradingStands table.new (transaction_of transaction.now) result transaction.now.log.now rest }
    ensures step { StepComes table.old table.new result (length transaction.now.purchase.now.pins + 7 + most_scripts) }
{
    let bits = restrict(
        transaction.card,
        transaction.settings,
        transaction.row,
        transaction.purchase,
    );
    table.state_so_far.has_read();
    table.state_so_far.has_restricted(bits);
    begin_verify(table, transaction)
}

/// Cardholder verification begins.
#[tactic(auto, unfolding(crate::specs::CardholderVerification::verification))]
fn begin_verify<'s>(table: &mut Table<'s>, transaction: &Transaction<'_, 's>) -> Trading<'s>
    requires room { HasRoomForResults table.old 8 }
    ensures stands { (steps_done : List StepResult) → BeginsAs table.old table.new (transaction_of transaction.now) result steps_done transaction.now.log.now
        (verification (transaction_of transaction.now) steps_done transaction.now.log.now) }
    ensures step { StepComes table.old table.new result (length transaction.now.purchase.now.pins + 7 + most_scripts) }
{
    let next = Verifying::begin(transaction.card, transaction.settings, transaction.purchase);
    verify_next(table, transaction, next)
}

/// The card's answer in cardholder verification.
pub(crate) fn on_verify<'s>(
    table: &mut Table<'s>,
    transaction: &Transaction<'_, 's>,
    verifying: Verifying<'s>,
    reply: &[u8],
) -> Trading<'s>
    requires room { HasRoomForResults table.old 8 }
    ensures stands { (before : List Logged) → TakesOn (TradingStands table.old (transaction_of transaction.now) (stage.Verify verifying.entry) before)
        (TradingStands table.new (transaction_of transaction.now) result transaction.now.log.now) (CardSaid reply.now transaction.now.log.now) }
    ensures step { StepComes table.old table.new result (length verifying.entry.pins + 6 + most_scripts) }
{
    let next = verifying.take(reply);
    verify_next(table, transaction, next)
}

/// How cardholder verification goes on.
fn verify_next<'s>(
    table: &mut Table<'s>,
    transaction: &Transaction<'_, 's>,
    next: VerifyNext<'s>,
) -> Trading<'s>
    requires room { HasRoomForResults table.old 8 }
    ensures stands { (steps_done : List StepResult) (course : List (List ℕ) → Progress Verified) (rest : List Reply → Standing StepResult)
        → Begins table.old transaction.now.card.now steps_done rest (card_step (cut_off steps_done) step.Verify step.Verify steps_done course
        (λ verified. risk (transaction_of transaction.now) (HasVerified verified ∷ steps_done)) transaction.now.log.now)
        → VerifyLeads course [] next.entry
        → TradingStands table.new (transaction_of transaction.now) result transaction.now.log.now rest }
    ensures step { StepComes table.old table.new result (7 + most_scripts + entries_left next.entry) }
{
    match next {
        VerifyNext::Ask(verifying) => {
            verifying.ask(&mut table.command);
            Trading::Verify(verifying)
        }
        VerifyNext::Done(verified) => {
            table.state_so_far.has_verified(verified);
            begin_risk(table, transaction)
        }
        VerifyNext::Ended(cause) => Trading::Over(Ending::Terminated(Step::Verify, cause)),
    }
}
