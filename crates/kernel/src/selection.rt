//! Application selection (EMV 4.3 Book 1 section 12).
ghost use Rattle.std.specs.Prelude.{◌≡◌, ◌≤◌, ◌+◌, ◌*◌, [], ℕ, List};
ghost use Rattle.app_select.specs.Leading.{HasRoomForCandidates, rest_with, search_answers_left};
ghost use Rattle.app_select.specs.NextLeads.{SearchNextLeads, NextHasRoom};
ghost use Rattle.emv_dict.specs.Settings.{IsSettings};
ghost use Rattle.emv_dict.specs.declared.ending.Step.TheVariants as step;
ghost use Rattle.kernel.specs.Dialogue.{dialogue};
ghost use Rattle.kernel.specs.Fits.{OpeningFits, SelectFits, IsUnread};
ghost use Rattle.kernel.specs.Kernel.{opening_next};
ghost use Rattle.kernel.specs.Rank.{opening_rank, search_rank, rank_behind};
ghost use Rattle.kernel.specs.Stages.{OpeningStands};
ghost use Rattle.kernel.specs.Steps.{OpeningTakes, OpensAs, SelectsAs};
ghost use Rattle.kernel.specs.declared.kernel.Next.TheVariants as waits;
ghost use Rattle.kernel.specs.declared.stage.Opening.TheVariants as stage;
ghost use Rattle.pse_directory.specs.Left.{directory_answers_left};
ghost use Rattle.pse_directory.specs.Next.{DirectoryNextHasRoom, DirectoryNextLeads, directory_answers_left_next};
ghost use Rattle.read_records.specs.Afl.{most_records};
ghost use Rattle.terminal_state.specs.StepResults.{state_so_far};
ghost use Rattle.terminal_state.specs.Table.{outset_of};
ghost use Rattle.terminal_state.specs.declared.table.Table.{Table};

use crate::initiation::initiate;
use crate::stage::{AtDirectory, AtSelect, Opening};
use apdu_core::Out;
use app_select::{Search, SearchNext};
use emv_dict::{Ending, Purchase, Settings, Step};
use pse_directory::{DirectoryNext, Listing};
use terminal_state::Table;

/// A dialogue begins with its first command: no candidate is found, and no object is read.
#[tactic(auto, unfolding(crate::specs::Dialogue::dialogue))]
pub(crate) fn begin<'s>(
    settings: &'s Settings,
    purchase: &Purchase,
    command: &mut Out,
) -> Opening<'s>
    requires settings { IsSettings settings.now }
    ensures stands { (table : Table) → outset_of table ≡ record { settings = settings.now; purchase = purchase.now }
        → table.candidates ≡ [] → table.objects ≡ [] → table.state_so_far ≡ state_so_far [] → table.command.items ≡ command.new.items
        → OpeningStands table result [] (dialogue (outset_of table)) }
    ensures waits { opening_next result ≡ waits.ToCard }
    ensures few { (table : Table) → table.candidates ≡ [] → opening_rank table result ≤ 2 * 768 + (most_records + rank_behind table) }
    ensures fits { (table : Table) → table.candidates ≡ [] → IsUnread table → OpeningFits table result }
{
    let cut = Step::Power;
    if settings.pse {
        let listing = Listing::begin(settings, purchase.confirm);
        listing.ask(command);
        Opening::Directory(AtDirectory { listing, cut })
    } else {
        let search = Search::begin(settings, purchase.confirm);
        search.ask(command);
        Opening::Select(AtSelect { search, cut })
    }
}

/// How application selection goes on behind an answer for the directory.
fn directory_next<'s>(table: &mut Table<'s>, next: DirectoryNext<'s>) -> Opening<'s>
    requires fits { IsUnread table.old }
    requires room { DirectoryNextHasRoom next table.old.candidates }
    ensures stands { SelectsAs table.old table.new result (λ course. DirectoryNextLeads table.old.candidates course [] next.entry) }
    ensures step { OpensAs table.old table.new result (1 + 2 * directory_answers_left_next next.entry table.old.candidates + (most_records + rank_behind table.old)) }
{
    match next {
        DirectoryNext::Ask(listing) => {
            listing.ask(&mut table.command);
            let cut = Step::Select;
            Opening::Directory(AtDirectory { listing, cut })
        }
        DirectoryNext::Found(search) => ask_search(table, search),
        DirectoryNext::List(search) => ask_search(table, search),
        DirectoryNext::Ended(cause) => Opening::Over(Ending::Terminated(Step::Select, cause)),
    }
}

/// The next SELECT is asked.
fn ask_search<'s>(table: &mut Table<'s>, search: Search<'s>) -> Opening<'s>
    requires fits { IsUnread table.old }
    requires room { HasRoomForCandidates search table.old.candidates }
    ensures stands { SelectsAs table.old table.new result (λ course. (later : List (List ℕ)) → course later ≡ rest_with search.entry table.old.candidates later) }
    ensures step { OpensAs table.old table.new result (1 + 2 * search_answers_left search.entry table.old.candidates + (most_records + rank_behind table.old)) }
{
    search.ask(&mut table.command);
    let cut = Step::Select;
    Opening::Select(AtSelect { search, cut })
}

/// The card's answer for its directory.
pub(crate) fn on_directory<'s>(
    table: &mut Table<'s>,
    state: AtDirectory<'s>,
    reply: &[u8],
) -> Opening<'s>
    requires fits { IsUnread table.old }
    ensures stands { OpeningTakes table.old table.new (stage.Directory state.entry) result reply.now }
    ensures step { OpensAs table.old table.new result (2 * directory_answers_left state.entry.listing + (most_records + rank_behind table.old)) }
{
    let AtDirectory { listing, cut: _ } = state;
    let next = listing.take_into(&mut table.candidates, reply);
    directory_next(table, next)
}

/// How application selection goes on behind an answer or a refusal.
pub(crate) fn search_next<'s>(table: &mut Table<'s>, next: SearchNext<'s>) -> Opening<'s>
    requires fits { IsUnread table.old }
    requires room { NextHasRoom next table.old.candidates }
    ensures stands { SelectsAs table.old table.new result (λ course. SearchNextLeads table.old.candidates course [] next.entry) }
    ensures step { OpensAs table.old table.new result (1 + search_rank next.entry table.old.candidates + (most_records + rank_behind table.old)) }
{
    match next {
        SearchNext::Ask(search) => ask_search(table, search),
        SearchNext::Chosen(choice) => initiate(table, choice),
        SearchNext::Ended(cause) => Opening::Over(Ending::Terminated(Step::Select, cause)),
    }
}

/// The card's answer in application selection.
pub(crate) fn on_select<'s>(table: &mut Table<'s>, state: AtSelect<'s>, reply: &[u8]) -> Opening<'s>
    requires fits { SelectFits table.old state }
    ensures stands { OpeningTakes table.old table.new (stage.Select state.entry) result reply.now }
    ensures step { OpensAs table.old table.new result (2 * search_answers_left state.entry.search table.old.candidates + (most_records + rank_behind table.old)) }
{
    let AtSelect { search, cut: _ } = state;
    let next = search.take(&mut table.candidates, reply);
    search_next(table, next)
}
