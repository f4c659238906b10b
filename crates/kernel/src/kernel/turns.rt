//! One reply, in whatever step waits for it.
ghost use Rattle.std.specs.Prelude.{◌≡◌, List, option_map};
ghost use Rattle.emv_dict.specs.declared.purchase.Logged.{Logged};
ghost use Rattle.kernel.specs.Dialogue.{TransactionData};
ghost use Rattle.kernel.specs.Fits.{OpeningFits};
ghost use Rattle.kernel.specs.Kernel.{opening_next, trading_next};
ghost use Rattle.kernel.specs.Rank.{opening_rank, trading_rank};
ghost use Rattle.kernel.specs.Reading.{IsBeforeReading};
ghost use Rattle.kernel.specs.Reply.{CardSaid, CardGone, from_host};
ghost use Rattle.kernel.specs.Stages.{HasAsked, OpeningStands, TradingStands, HasRoomForResults, scripts_left};
ghost use Rattle.kernel.specs.Steps.{StepComes, OpeningTakes, OpensAs, TakesOn, TakesReply};
ghost use Rattle.kernel.specs.Transactions.{transaction_of};
ghost use Rattle.kernel.specs.declared.kernel.Next.TheVariants as next;
ghost use Rattle.terminal_state.specs.declared.table.Table.{Table};

use crate::analysis::on_first;
use crate::initiation::on_initiate;
use crate::issuer_scripts::{gone_behind, on_script_before, on_script_behind};
use crate::online::{on_authenticate, on_reply, on_silence};
use crate::risk::on_judge;
use crate::second::on_second;
use crate::selection::{on_directory, on_select};
use crate::stage::{Opening, Trading};
use crate::transaction::Transaction;
use crate::verification::on_verify;
use emv_dict::{Ending, Step};
use terminal_state::Table;

/// The card's answer before its records are read.
pub(super) fn on_answer<'s>(table: &mut Table<'s>, state: Opening<'s>, reply: &[u8]) -> Opening<'s>
    requires fits { OpeningFits table.old state }
    requires before { IsBeforeReading state }
    ensures stands { OpeningTakes table.old table.new state.entry result reply.now }
    ensures step { OpensAs table.old table.new result (opening_rank table.old state.entry) }
{
    match state {
        Opening::Directory(state) => on_directory(table, state, reply),
        Opening::Select(state) => on_select(table, state, reply),
        Opening::Initiate(state) => on_initiate(table, state, reply),
        Opening::Read(_) | Opening::Over(_) => unreachable!(),
    }
}

/// The card is gone before it is read: at the power-up where it has not answered yet, else in the step that
/// waits.
pub(super) fn cut_off<'s>(state: Opening<'s>) -> Opening<'s>
    ensures stands { (table : Table) (before : List Logged) → TakesOn (OpeningStands table state.entry before) (OpeningStands table result before) CardGone }
    ensures fits { (table : Table) → OpeningFits table result }
    ensures over { (table : Table) → opening_rank table result ≡ 0 }
    ensures ended { opening_next result ≡ next.Ended }
{
    match state {
        Opening::Directory(state) => Opening::Over(Ending::CutOff(state.cut)),
        Opening::Select(state) => Opening::Over(Ending::CutOff(state.cut)),
        Opening::Initiate(_) => Opening::Over(Ending::CutOff(Step::Initiate)),
        Opening::Read(_) => Opening::Over(Ending::CutOff(Step::Read)),
        Opening::Over(ending) => Opening::Over(ending),
    }
}

/// The card's answer once it is read.
pub(super) fn on_card<'s>(
    table: &mut Table<'s>,
    transaction: &Transaction<'_, 's>,
    trading: Trading<'s>,
    reply: &[u8],
) -> Trading<'s>
    requires room { HasRoomForResults table.old (scripts_left table.old.reply.scripts trading) }
    requires asked { HasAsked table.old trading }
    requires waits { trading_next trading ≡ next.ToCard }
    ensures stands { (before : List Logged) → TakesOn (TradingStands table.old (transaction_of transaction.now) trading.entry before)
        (TradingStands table.new (transaction_of transaction.now) result transaction.now.log.now) (CardSaid reply.now transaction.now.log.now) }
    ensures step { StepComes table.old table.new result (trading_rank table.old trading.entry) }
{
    match trading {
        Trading::Verify(state) => on_verify(table, transaction, state, reply),
        Trading::Risk(state) => on_judge(table, transaction, state, reply),
        Trading::First(asked) => on_first(table, transaction, asked, reply),
        Trading::Authenticate => on_authenticate(table, transaction, reply),
        Trading::ScriptBefore(state) => on_script_before(table, transaction, state, reply),
        Trading::Second(state) => on_second(table, state, reply),
        Trading::ScriptBehind(state, ending) => on_script_behind(table, state, ending, reply),
        Trading::Online | Trading::Over(_) => unreachable!(),
    }
}

/// The card is gone: the step that waits is named, and behind the second cryptogram the ending stands.
pub(super) fn on_gone<'s>(table: &mut Table<'s>, trading: Trading<'s>) -> Trading<'s>
    requires room { HasRoomForResults table.old (scripts_left table.old.reply.scripts trading) }
    requires asked { HasAsked table.old trading }
    requires waits { trading_next trading ≡ next.ToCard }
    ensures stands { (transaction : TransactionData) → TakesReply table.old table.new transaction trading.entry result CardGone }
    ensures ended { trading_next result ≡ next.Ended }
    ensures step { StepComes table.old table.new result (trading_rank table.old trading.entry) }
{
    match trading {
        Trading::Verify(_) => Trading::Over(Ending::CutOff(Step::Verify)),
        Trading::Risk(_) => Trading::Over(Ending::CutOff(Step::Risk)),
        Trading::First(_) => Trading::Over(Ending::CutOff(Step::First)),
        Trading::Authenticate => Trading::Over(Ending::CutOff(Step::Authenticate)),
        Trading::ScriptBefore(_) => Trading::Over(Ending::CutOff(Step::Script)),
        Trading::Second(_) => Trading::Over(Ending::CutOff(Step::Second)),
        Trading::ScriptBehind(state, ending) => gone_behind(table, state, ending),
        Trading::Online | Trading::Over(_) => unreachable!(),
    }
}

/// The host's reply, or its silence.
pub(super) fn on_host<'s>(
    table: &mut Table<'s>,
    transaction: &Transaction<'_, 's>,
    trading: Trading<'s>,
    reply: Option<&[u8]>,
) -> Trading<'s>
    requires room { HasRoomForResults table.old (scripts_left table.old.reply.scripts trading) }
    requires waits { trading_next trading ≡ next.ToHost }
    ensures stands { TakesReply table.old table.new (transaction_of transaction.now) trading.entry result (from_host (option_map (λ reply. reply.now) reply.entry)) }
    ensures step { StepComes table.old table.new result (trading_rank table.old trading.entry) }
{
    match trading {
        Trading::Online => match reply {
            Some(reply) => on_reply(table, transaction, reply),
            None => on_silence(table, transaction),
        },
        _ => unreachable!(),
    }
}
