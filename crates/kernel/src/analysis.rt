//! Terminal and card action analysis: the first GENERATE AC (EMV 4.3 Book 3 sections 10.7 and 10.8).
ghost use Rattle.std.specs.Prelude.{◌≡◌, ◌+◌, ◌∷◌, List};
ghost use Rattle.action_analysis.specs.Analysed as spec;
ghost use Rattle.emv_dict.specs.declared.purchase.Logged.{Logged};
ghost use Rattle.kernel.specs.Dialogue.{analysis, first, first_answered};
ghost use Rattle.kernel.specs.Rank.{most_scripts};
ghost use Rattle.kernel.specs.Stages.{HasRoomForResults};
ghost use Rattle.kernel.specs.Steps.{BeginsAs, StepComes, TakesAnswer};
ghost use Rattle.kernel.specs.Transactions.{transaction_of};
ghost use Rattle.kernel.specs.declared.stage.Trading.TheVariants as stage;
ghost use Rattle.terminal_state.specs.StepResults.{StepResult, state_so_far, HasFirst};

use crate::generate::ask_generate;
use crate::online::go_online;
use crate::stage::Trading;
use crate::transaction::Transaction;
use action_analysis::{codes_of, wanted};
use ber_tlv::Tag;
use emv_dict::{Ac, Cause, Ending, Kind, Step};
use online_step::{GenerateAc, read_ac};
use terminal_state::{StateSoFar, Table};

/// The object list of the first GENERATE AC (CDOL1).
const FIRST_LIST: Tag = Tag(0x8c);

/// Action analysis asks the card nothing.
#[tactic(auto, unfolding(crate::specs::TerminalActionAnalysis::analysis))]
pub(crate) fn analyse<'s>(table: &mut Table<'s>, transaction: &Transaction<'_, 's>) -> Trading<'s>
    requires room { HasRoomForResults table.old 8 }
    ensures stands { (steps_done : List StepResult) (log : List Logged) → BeginsAs table.old table.new (transaction_of transaction.now) result steps_done log (analysis (transaction_of transaction.now) steps_done log) }
    ensures step { StepComes table.old table.new result (5 + most_scripts) }
{
    let asked = kind_wanted(&table.state_so_far, transaction);
    table.state_so_far.has_analysed(transaction.row, asked);
    begin_first(table, transaction, asked)
}

/// The kind of cryptogram that is asked for first.
fn kind_wanted(state_so_far: &StateSoFar, transaction: &Transaction<'_, '_>) -> Kind
    ensures { result ≡ spec.wanted state_so_far.now.tvr (spec.codes_of transaction.now.card.now transaction.now.row.now) transaction.now.settings.now.kind }
{
    let codes = codes_of(transaction.card, transaction.row);
    let settings = transaction.settings;
    wanted(state_so_far.tvr, &codes, settings.kind)
}

/// The first GENERATE AC is asked for a cryptogram of this kind.
#[tactic(auto, unfolding(crate::specs::CardActionAnalysis::first))]
fn begin_first<'s>(
    table: &mut Table<'s>,
    transaction: &Transaction<'_, 's>,
    asked: Kind,
) -> Trading<'s>
    requires room { HasRoomForResults table.old 8 }
    ensures stands { (steps_done : List StepResult) (log : List Logged) → BeginsAs table.old table.new (transaction_of transaction.now) result steps_done log (first (transaction_of transaction.now) asked steps_done log) }
    ensures step { StepComes table.old table.new result (5 + most_scripts) }
{
    if ask_generate(table, transaction, FIRST_LIST, asked) {
        Trading::First(asked)
    } else {
        Trading::Over(Ending::Terminated(Step::First, Cause::Dol(FIRST_LIST)))
    }
}

/// The card's answer to the first GENERATE AC.
pub(crate) fn on_first<'s>(
    table: &mut Table<'s>,
    transaction: &Transaction<'_, 's>,
    asked: Kind,
    reply: &[u8],
) -> Trading<'s>
    requires room { HasRoomForResults table.old 8 }
    ensures stands { TakesAnswer table.old table.new (transaction_of transaction.now) (stage.First asked) result reply.now }
    ensures step { StepComes table.old table.new result (4 + most_scripts) }
{
    match read_ac(reply, asked, GenerateAc::First) {
        Ok(ac) => decide(table, transaction, ac),
        Err(cause) => Trading::Over(Ending::Terminated(Step::First, cause)),
    }
}

/// The first cryptogram decides, or asks the issuer.
fn decide<'s>(table: &mut Table<'s>, transaction: &Transaction<'_, 's>, ac: Ac) -> Trading<'s>
    requires room { HasRoomForResults table.old 8 }
    ensures stands { (steps_done : List StepResult) (log : List Logged) → BeginsAs table.old table.new (transaction_of transaction.now) result steps_done log (first_answered (transaction_of transaction.now) ac (HasFirst ac ∷ steps_done) ac.kind log) }
    ensures step { StepComes table.old table.new result (4 + most_scripts) }
{
    let kind = ac.kind;
    table.state_so_far.has_first(ac);
    match kind {
        Kind::Tc => Trading::Over(Ending::Approved { online: false }),
        Kind::Aac => Trading::Over(Ending::Declined { online: false }),
        Kind::Arqc => go_online(table, transaction),
    }
}
