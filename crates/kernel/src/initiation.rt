//! Initiate application processing (EMV 4.3 Book 3 section 10.1).
ghost use Rattle.std.specs.Prelude.{◌≡◌, ◌+◌, ◌*◌, [], ℕ, List, length, Option};
ghost use Rattle.app_select.specs.Leading.{selected_with};
ghost use Rattle.emv_dict.specs.Progress.{Progress};
ghost use Rattle.emv_dict.specs.declared.ending.Step.TheVariants as step;
ghost use Rattle.emv_dict.specs.declared.purchase.Logged.{Logged};
ghost use Rattle.kernel.specs.StepsInTurn.{Standing, card_step, cut_off};
ghost use Rattle.kernel.specs.Dialogue.{initiation, candidates_left, granted};
ghost use Rattle.kernel.specs.Fits.{IsUnread, OptionsFit};
ghost use Rattle.kernel.specs.Rank.{rank_behind};
ghost use Rattle.kernel.specs.Reply.{Reply};
ghost use Rattle.kernel.specs.Stages.{OpeningStands};
ghost use Rattle.kernel.specs.Steps.{OpeningTakes, OpensAs};
ghost use Rattle.kernel.specs.declared.stage.Opening.TheVariants as stage;
ghost use Rattle.read_records.specs.Afl.{most_records};
ghost use Rattle.read_records.specs.Leading.{OptionsNextLeads};
ghost use Rattle.read_records.specs.Options.{Opened};
ghost use Rattle.terminal_state.specs.StepResults.{StepResult};
ghost use Rattle.terminal_state.specs.Table.{outset_of};

use crate::reading::ask_record;
use crate::selection::search_next;
use crate::stage::{AtInitiate, Opening};
use app_select::Choice;
use emv_dict::{Ending, Step};
use read_records::{Initiating, OptionsNext};
use terminal_state::{Table, put_terminal};

/// GET PROCESSING OPTIONS is asked.
#[tactic(auto, unfolding(crate::specs::InitiateProcessing::initiation))]
pub(crate) fn initiate<'s>(table: &mut Table<'s>, choice: Choice<'s>) -> Opening<'s>
    requires fits { IsUnread table.old }
    ensures stands { (log : List Logged) (rest : List Reply → Standing StepResult)
        → ((later : List Reply) → rest later
        ≡ initiation (outset_of table.old) (selected_with choice.entry table.old.candidates) (candidates_left (outset_of table.old) table.old.candidates) log later)
        → OpeningStands table.new result log rest }
    ensures step { OpensAs table.old table.new result (2 + 2 * length table.old.candidates + (most_records + rank_behind table.old)) }
{
    put_terminal(
        &mut table.objects,
        table.settings,
        table.purchase,
        choice.row(),
        &table.state_so_far,
    );
    let begun = Initiating::begin(choice.pdol(), &table.objects);
    table.objects.clear();
    match begun {
        Ok(initiating) => {
            initiating.ask(&mut table.command);
            Opening::Initiate(AtInitiate { initiating, choice })
        }
        Err(cause) => Opening::Over(Ending::Terminated(Step::Initiate, cause)),
    }
}

/// The card's answer to GET PROCESSING OPTIONS.
pub(crate) fn on_initiate<'s>(
    table: &mut Table<'s>,
    state: AtInitiate<'s>,
    reply: &[u8],
) -> Opening<'s>
    requires fits { IsUnread table.old }
    ensures stands { OpeningTakes table.old table.new (stage.Initiate state.entry) result reply.now }
    ensures step { OpensAs table.old table.new result (1 + 2 * length table.old.candidates + (most_records + rank_behind table.old)) }
{
    let AtInitiate { initiating, choice } = state;
    let next = initiating.take_into(&mut table.objects, reply);
    initiate_next(table, choice, next)
}

/// What follows the answer to GET PROCESSING OPTIONS.
fn initiate_next<'s>(table: &mut Table<'s>, choice: Choice<'s>, next: OptionsNext) -> Opening<'s>
    requires fits { OptionsFit table.old next }
    ensures stands { (log : List Logged) (course : List (List ℕ) → Progress (Option Opened)) (rest : List Reply → Standing StepResult)
        → ((later : List Reply) → rest later ≡ card_step (cut_off []) step.Initiate step.Initiate [] course
        (granted (outset_of table.old) choice.entry.row (candidates_left (outset_of table.old) table.old.candidates)) log later)
        → OptionsNextLeads table.old.objects course [] next
        → OpeningStands table.new result log rest }
    ensures step { OpensAs table.old table.new result (1 + 2 * length table.old.candidates + (most_records + rank_behind table.old)) }
{
    match next {
        OptionsNext::Refused => {
            let next = choice.refuse(&mut table.candidates);
            search_next(table, next)
        }
        OptionsNext::Read(course) => ask_record(table, choice.row(), course),
        OptionsNext::Ended(cause) => Opening::Over(Ending::Terminated(Step::Initiate, cause)),
    }
}
