//! What an answer for the directory changes.
ghost use Rattle.std.specs.Prelude.{◌≡◌, ◌≤◌, ◌+◌, ◌*◌, ◌∷◌, ℕ, [], List};
ghost use Rattle.app_select.specs.Candidates.{candidates as candidates_among};
ghost use Rattle.app_select.specs.Named.{HaveRows, all_named};
ghost use Rattle.app_select.specs.Selecting.{SelectedData, first_selected, selecting};
ghost use Rattle.emv_dict.specs.Progress.{Progress, Leads};
ghost use Rattle.emv_dict.specs.Settings.{IsSettings};
ghost use Rattle.pse_directory.specs.Directory.{done, found_or};
ghost use Rattle.pse_directory.specs.Left.{AtName, directory_left_at, directory_left};
ghost use Rattle.pse_directory.specs.Next.{answered_left, ListingGoesOn, DirectoryNextIs, DirectoryNextLeads, DirectoryNextHasRoom, directory_answers_left_next, ListNextIs, ListNextLeads};
ghost use Rattle.pse_directory.specs.SeenAwaited.{seen_records, IsRecordsInRange};

use super::{Answered, Awaited, DirectoryNext, ListNext, Listing, Records};
use crate::entry::FoundList;
use crate::name::{NameSaid, read_name};
use crate::record::{RecordAnswer, read_record};
use app_select::{Candidates, Search, SearchNext, SelectNext, Selecting};
use emv_dict::{Cause, Settings};

/// The first record of a file.
const FIRST_RECORD: u8 = 1;

/// The last record that a file may have.
const LAST_RECORD: u8 = 255;

/// Takes the answer.
pub(super) fn answered<'s>(listing: Listing<'s>, reply: &[u8]) -> Answered<'s>
    ensures step { (later : List (List ℕ)) → directory_left listing.entry (reply.now ∷ later) ≡ answered_left listing.entry.rows listing.entry.confirm result later }
    ensures on { ListingGoesOn listing.entry result }
{
    let Listing {
        settings,
        confirm,
        place,
    } = listing;
    match place {
        Awaited::Name => name_answered(settings, confirm, reply),
        Awaited::Record(records) => record_answered(settings, confirm, records, reply),
    }
}

/// Takes the answer to SELECT of the directory.
#[tactic(auto, unfolding(crate::specs::Directory::directory))]
fn name_answered<'s>(settings: &'s Settings, confirm: bool, reply: &[u8]) -> Answered<'s>
    requires { IsSettings settings.now }
    ensures step { (later : List (List ℕ)) → directory_left_at settings.entry.now.aids confirm AtName (reply.now ∷ later) ≡ answered_left settings.entry.now.aids confirm result later }
    ensures on { ListingGoesOn (record { rows = settings.entry.now.aids; confirm = confirm; place = AtName }) result }
{
    match read_name(reply) {
        NameSaid::NoResponse => Answered::Ended(Cause::Answer),
        NameSaid::Blocked => Answered::Ended(Cause::CardBlocked),
        NameSaid::Gives(sfi) => Answered::Ask(Listing {
            settings,
            confirm,
            place: Awaited::Record(Records {
                sfi,
                number: FIRST_RECORD,
                found: FoundList::new(),
            }),
        }),
        NameSaid::Nothing => Answered::Found(FoundList::new()),
    }
}

/// Takes the answer for a record.
fn record_answered<'s>(
    settings: &'s Settings,
    confirm: bool,
    records: Records,
    reply: &[u8],
) -> Answered<'s>
    requires settings { IsSettings settings.now }
    requires reading { IsRecordsInRange settings.now.aids records }
    ensures step { (later : List (List ℕ))
        → directory_left_at settings.entry.now.aids confirm (seen_records settings.entry.now.aids records) (reply.now ∷ later)
        ≡ answered_left settings.entry.now.aids confirm result later }
    ensures on { ListingGoesOn (record { rows = settings.entry.now.aids; confirm = confirm; place = seen_records settings.entry.now.aids records }) result }
{
    let Records {
        sfi,
        number,
        mut found,
    } = records;
    match read_record(settings.aids.as_slice(), reply, &mut found) {
        RecordAnswer::Unreadable => Answered::Ended(Cause::Answer),
        RecordAnswer::Past => Answered::Found(found),
        RecordAnswer::Added => {
            if number == LAST_RECORD {
                return Answered::Found(found);
            }
            Answered::Ask(Listing {
                settings,
                confirm,
                place: Awaited::Record(Records {
                    sfi,
                    number: number + 1,
                    found,
                }),
            })
        }
        RecordAnswer::Faulty => Answered::Found(FoundList::new()),
    }
}

/// Goes on with the applications of the directory, or where none of them may be selected with the list.
pub(super) fn select<'s>(
    settings: &'s Settings,
    confirm: bool,
    found: &FoundList,
    candidates: &mut Candidates<'s>,
) -> DirectoryNext<'s>
    requires settings { IsSettings settings.now }
    requires rows { HaveRows settings.now.aids found.now.items }
    ensures exact { DirectoryNextIs (done (candidates_among confirm (all_named settings.entry.now.aids found.now.items)) []) result }
    ensures leads { (whole : List (List ℕ) → Progress SelectedData) (answers : List (List ℕ))
        → Leads whole answers (found_or first_selected (selecting settings.entry.now.aids confirm) (candidates_among confirm (all_named settings.entry.now.aids found.now.items)))
        → DirectoryNextLeads candidates.new whole answers result }
    ensures room { DirectoryNextHasRoom result candidates.new }
    ensures few { directory_answers_left_next result candidates.new ≤ 16 * 16 + 256 }
{
    match Search::from_names(settings, confirm, found.as_slice(), candidates) {
        SearchNext::Ask(search) => DirectoryNext::Found(search),
        SearchNext::Chosen(_) => unreachable!(),
        SearchNext::Ended(_) => DirectoryNext::List(Search::begin(settings, confirm)),
    }
}

/// The same with candidates of its own.
pub(super) fn select_alone<'s>(
    settings: &'s Settings,
    confirm: bool,
    found: FoundList,
) -> ListNext<'s>
    requires settings { IsSettings settings.now }
    requires rows { HaveRows settings.now.aids found.items }
    ensures exact { ListNextIs (done (candidates_among confirm (all_named settings.entry.now.aids found.items)) []) result }
    ensures leads { (whole : List (List ℕ) → Progress SelectedData) (answers : List (List ℕ))
        → Leads whole answers (found_or first_selected (selecting settings.entry.now.aids confirm) (candidates_among confirm (all_named settings.entry.now.aids found.items)))
        → ListNextLeads whole answers result }
{
    match Selecting::from_names(settings, confirm, found) {
        SelectNext::Ask(selecting) => ListNext::Found(selecting),
        SelectNext::Chosen(_) => unreachable!(),
        SelectNext::Ended(_) => ListNext::List(Selecting::begin(settings, confirm)),
    }
}
