//! A kernel takes the replies of the card and of the host.
ghost use Rattle.std.specs.Prelude.{◌+◌, ◌≡◌, ◌≤◌, ◌<◌, ◌∷◌, ◌++◌, [], List, Option, Some, IsSome, false, option_map};
ghost use Rattle.std.specs.List.{All, list_any};
ghost use Rattle.emv_dict.specs.Settings.{IsAidRow, most_amount};
ghost use Rattle.emv_dict.specs.declared.purchase.Logged.{Logged as LoggedRow};
ghost use Rattle.kernel.specs.StepsInTurn.{Standing};
ghost use Rattle.kernel.specs.Dialogue.{dialogue, restrictions};
ghost use Rattle.kernel.specs.Fits.{OpeningFits, HasReadCard};
ghost use Rattle.kernel.specs.Kernel.{KernelStands, StageFits, StageGoes, TradingFits, TradingGoes, outset_in, kernel_next, stage_next, trading_next};
ghost use Rattle.kernel.specs.Laws.{LeavesBy, is_second, is_unanswered};
ghost use Rattle.kernel.specs.Rank.{kernel_rank, stage_rank, opening_rank, trading_rank, rank_behind};
ghost use Rattle.kernel.specs.Reading.{IsBeforeReading};
ghost use Rattle.kernel.specs.Reply.{Reply, CardSaid, CardGone, from_host};
ghost use Rattle.kernel.specs.Steps.{OpeningTakes, OpensAs, StageComes, TakesOn};
ghost use Rattle.kernel.specs.Transactions.{transaction_of};
ghost use Rattle.kernel.specs.declared.kernel.Next.TheVariants as next;
ghost use Rattle.kernel.specs.declared.stage.Stage.TheVariants as stages;
ghost use Rattle.object_lists.specs.CardRead.{ReadCard, card_of_objects};
ghost use Rattle.terminal_state.specs.StepResults.{StepResult};
ghost use Rattle.terminal_state.specs.Table.{IsOutset, outset_of};

use super::Kernel;
use super::turns::{cut_off, on_answer, on_card, on_gone, on_host};
use crate::reading::on_read;
use crate::stage::{AtTrading, Opening, Stage, Trading};
use crate::transaction::Transaction;
use crate::verification::begin_trading;
use emv_dict::{AidRow, Ending, Logged, Step};
use read_records::CourseStep;
use std::mem;
use terminal_state::{HeldCard, Table};

/// What stands in place of a stage while it is taken out.
const TAKEN_OUT: Ending = Ending::CutOff(Step::Power);

impl<'s> Kernel<'s> {
    /// Takes the card's answer, with the terminal's log of earlier purchases as it is now.
    pub fn take_card(&mut self, reply: &[u8], log: &[Logged])
        requires waits { kernel_next self.old ≡ next.ToCard }
        requires log { All (λ logged. logged.amount ≤ most_amount) log.now }
        ensures stands { (replies : List Reply) → KernelStands self.old replies
            → KernelStands self.new (replies ++ CardSaid reply.now log.now ∷ []) }
        ensures outset { outset_in self.new ≡ outset_in self.old }
        ensures nearer { kernel_rank self.new < kernel_rank self.old }
        ensures fresh { self.new.is_spent ≡ false }
    {
        stage_said(&mut self.table, &mut self.card, &mut self.stage, reply, log);
        self.taken = self.taken.saturating_add(1);
    }

    /// The card is gone.
    pub fn take_gone(&mut self)
        requires waits { kernel_next self.old ≡ next.ToCard }
        ensures stands { (replies : List Reply) → KernelStands self.old replies
            → KernelStands self.new (replies ++ CardGone ∷ []) }
        // It is cut off in the step of the command that was asked, unless a script behind the second cryptogram
        // runs: then the ending stands.
        ensures leaves { (replies : List Reply) → KernelStands self.old replies
            → let now = dialogue (outset_in self.old) replies in
            LeavesBy (list_any is_second now.steps_done) (is_unanswered replies) now (dialogue (outset_in self.old) (replies ++ CardGone ∷ [])) }
        ensures outset { outset_in self.new ≡ outset_in self.old }
        ensures nearer { kernel_rank self.new < kernel_rank self.old }
        ensures fresh { self.new.is_spent ≡ false }
        ensures ended { kernel_next self.new ≡ next.Ended }
    {
        let stage = mem::replace(&mut self.stage, Stage::Opening(Opening::Over(TAKEN_OUT)));
        self.stage = stage_gone(&mut self.table, stage);
        self.taken = self.taken.saturating_add(1);
    }

    /// Takes the host's reply, or its silence.
    pub fn take_host(&mut self, reply: Option<&[u8]>)
        requires waits { kernel_next self.old ≡ next.ToHost }
        ensures stands { (replies : List Reply) → KernelStands self.old replies
            → KernelStands self.new (replies ++ from_host (option_map (λ reply. reply.now) reply.entry) ∷ []) }
        ensures outset { outset_in self.new ≡ outset_in self.old }
        ensures nearer { kernel_rank self.new < kernel_rank self.old }
        ensures fresh { self.new.is_spent ≡ false }
    {
        let stage = mem::replace(&mut self.stage, Stage::Opening(Opening::Over(TAKEN_OUT)));
        self.stage = stage_heard(&mut self.table, &self.card, stage, reply);
        self.taken = self.taken.saturating_add(1);
    }
}

/// The card's answer in application selection, or to GET PROCESSING OPTIONS.
fn opening_said<'s>(table: &mut Table<'s>, opening: &mut Opening<'s>, reply: &[u8])
    requires fits { OpeningFits table.old opening.old }
    requires before { IsBeforeReading opening.old }
    ensures stands { OpeningTakes table.old table.new opening.old opening.new reply.now }
    ensures step { OpensAs table.old table.new opening.new (opening_rank table.old opening.old) }
{
    let state = mem::replace(opening, Opening::Over(TAKEN_OUT));
    *opening = on_answer(table, state, reply);
}

/// The card is read, and the trading begins. The data take their place before, and stay in it.
fn has_read<'s>(
    table: &mut Table<'s>,
    held: &mut HeldCard,
    row: &'s AidRow,
    log: &[Logged],
) -> Trading<'s>
    requires read { HasReadCard table.old row.now }
    requires log { All (λ logged. logged.amount ≤ most_amount) log.now }
    ensures stands { (rest : List Reply → Standing StepResult) → ((later : List Reply) → rest later ≡ restrictions (record { outset = outset_of table.old; row = row.entry.now; card = card_of_objects table.old.objects }) log.now later)
        → TradingGoes table.new held.new (record { row = row.entry; trading = result }) log.now rest }
    ensures step { StageComes table.old table.new held.new (stages.Trading (record { row = row.entry; trading = result })) (1 + rank_behind table.old) }
{
    held.keep(&table.objects);
    let transaction = transaction_at(table, row, held, log);
    begin_trading(table, &transaction)
}

/// The transaction at this table, in the application of this row, with the card that is held.
fn transaction_at<'d, 's>(
    table: &Table<'s>,
    row: &'s AidRow,
    held: &'d HeldCard,
    log: &'d [Logged],
) -> Transaction<'d, 's>
    requires outset { IsOutset (outset_of table.now) }
    requires row { IsAidRow row.now }
    requires held { IsSome held.now }
    requires log { All (λ logged. logged.amount ≤ most_amount) log.now }
    ensures outset { (transaction_of result).outset ≡ outset_of table.now }
    ensures row { result.row.now ≡ row.entry.now }
    ensures card { Some result.card.now ≡ held.entry.now }
    ensures log { result.log.now ≡ log.entry.now }
{
    let Some(card) = held.get() else {
        unreachable!();
    };
    Transaction {
        settings: table.settings,
        purchase: table.purchase,
        row,
        card,
        log,
    }
}

/// The card's answer at any stage.
fn stage_said<'s>(
    table: &mut Table<'s>,
    held: &mut HeldCard,
    stage: &mut Stage<'s>,
    reply: &[u8],
    log: &[Logged],
)
    requires fits { StageFits table.old held.old stage.old }
    requires waits { stage_next stage.old ≡ next.ToCard }
    requires log { All (λ logged. logged.amount ≤ most_amount) log.now }
    ensures stands { (before : List LoggedRow) → TakesOn (StageGoes table.old held.old stage.old before) (StageGoes table.new held.new stage.new log.now) (CardSaid reply.now log.now) }
    ensures step { StageComes table.old table.new held.new stage.new (stage_rank table.old stage.old) }
{
    match stage {
        Stage::Opening(Opening::Read(at)) => match on_read(table, at, reply) {
            CourseStep::Ask => {}
            CourseStep::Done => {
                let row = at.row;
                let trading = has_read(table, held, row, log);
                *stage = Stage::Trading(AtTrading { row, trading });
            }
            CourseStep::Ended(cause) => {
                let ending = Ending::Terminated(Step::Read, cause);
                *stage = Stage::Opening(Opening::Over(ending));
            }
        },
        Stage::Opening(opening) => opening_said(table, opening, reply),
        Stage::Trading(at) => trading_said(table, held, at, reply, log),
    }
}

/// The card's answer once it is read.
fn trading_said<'s>(
    table: &mut Table<'s>,
    held: &HeldCard,
    at: &mut AtTrading<'s>,
    reply: &[u8],
    log: &[Logged],
)
    requires fits { TradingFits table.old held.now at.old }
    requires waits { trading_next at.old.trading ≡ next.ToCard }
    requires log { All (λ logged. logged.amount ≤ most_amount) log.now }
    ensures stands { (before : List LoggedRow) → TakesOn (TradingGoes table.old held.now at.old before) (TradingGoes table.new held.now at.new log.now) (CardSaid reply.now log.now) }
    ensures step { StageComes table.old table.new held.now (stages.Trading at.new) (trading_rank table.old at.old.trading) }
{
    let transaction = transaction_at(table, at.row, held, log);
    let trading = mem::replace(&mut at.trading, Trading::Over(TAKEN_OUT));
    at.trading = on_card(table, &transaction, trading, reply);
}

/// The card is gone at any stage.
fn stage_gone<'s>(table: &mut Table<'s>, stage: Stage<'s>) -> Stage<'s>
    requires fits { (held : Option ReadCard) × StageFits table.old held stage }
    requires waits { stage_next stage ≡ next.ToCard }
    ensures stands { (held : Option ReadCard) (before : List LoggedRow) → TakesOn (StageGoes table.old held stage.entry before) (StageGoes table.new held result before) CardGone }
    ensures step { (held : Option ReadCard) → StageFits table.old held stage.entry → StageComes table.old table.new held result (stage_rank table.old stage.entry) }
    ensures ended { stage_next result ≡ next.Ended }
{
    match stage {
        Stage::Opening(state) => Stage::Opening(cut_off(state)),
        Stage::Trading(at) => {
            let AtTrading { row, trading } = at;
            let trading = on_gone(table, trading);
            Stage::Trading(AtTrading { row, trading })
        }
    }
}

/// The host's reply, or its silence, at the stage that waits for it.
fn stage_heard<'s>(
    table: &mut Table<'s>,
    held: &HeldCard,
    stage: Stage<'s>,
    reply: Option<&[u8]>,
) -> Stage<'s>
    requires fits { StageFits table.old held.now stage }
    requires waits { stage_next stage ≡ next.ToHost }
    ensures stands { (log : List LoggedRow) → TakesOn (StageGoes table.old held.now stage.entry log) (StageGoes table.new held.now result log) (from_host (option_map (λ reply. reply.now) reply.entry)) }
    ensures step { StageComes table.old table.new held.now result (stage_rank table.old stage.entry) }
{
    match stage {
        Stage::Opening(_) => unreachable!(),
        Stage::Trading(at) => Stage::Trading(trading_heard(table, held, at, reply)),
    }
}

/// The host's reply, or its silence, once the card is read.
fn trading_heard<'s>(
    table: &mut Table<'s>,
    held: &HeldCard,
    at: AtTrading<'s>,
    reply: Option<&[u8]>,
) -> AtTrading<'s>
    requires fits { TradingFits table.old held.now at }
    requires waits { trading_next at.trading ≡ next.ToHost }
    ensures stands { (log : List LoggedRow) → TakesOn (TradingGoes table.old held.now at.entry log) (TradingGoes table.new held.now result log) (from_host (option_map (λ reply. reply.now) reply.entry)) }
    ensures step { StageComes table.old table.new held.now (stages.Trading result) (trading_rank table.old at.entry.trading) }
{
    let AtTrading { row, trading } = at;
    let transaction = transaction_at(table, row, held, &[]);
    let trading = on_host(table, &transaction, trading, reply);
    AtTrading { row, trading }
}
