//! Selection by the payment system directory (EMV 4.3 Book 1 section 12.3.2).
ghost use Rattle.std.specs.Prelude.{◌≡◌, ◌<◌, ◌∷◌, ◌++◌, ℕ, true, [], List};
ghost use Rattle.app_select.specs.Candidates.{CandidateData};
ghost use Rattle.app_select.specs.Selecting.{SelectedData};
ghost use Rattle.emv_dict.specs.Progress.{Progress, Wants, Leads};
ghost use Rattle.emv_dict.specs.Settings.{IsSettings};
ghost use Rattle.pse_directory.specs.Directory.{selecting_by};
ghost use Rattle.pse_directory.specs.Left.{AtName, directory_left, directory_rest, directory_answers_left};

use crate::entry::FoundList;
use crate::name::write_name;
use apdu_core::{Out, write_record_command};
use app_select::{Candidates, Search, Selecting};
use emv_dict::{Cause, Settings};
use std::marker::Model;

mod steps;

use steps::{answered, select, select_alone};

/// A file of the directory, the record in it that is asked for, and the applications of the records before it.
#[derive(Drop)]
pub(crate) struct Records {
    pub sfi: u8,
    pub number: u8,
    pub found: FoundList,
}

/// Which answer is to come.
#[derive(Drop)]
pub(crate) enum Awaited {
    /// That to SELECT of the directory.
    Name,
    /// That for a record of it.
    Record(Records),
}

/// A terminal that reads the card's directory, and waits for an answer. What the directory's answers to come give is
/// `directory_left`; with what follows them it is `directory_rest`.
#[derive(Drop)]
pub struct Listing<'s> {
    settings: &'s Settings,
    confirm: bool,
    place: Awaited,
}

impl<'s> Model for Listing<'s> {
    ghost use Rattle.emv_dict.specs.Settings.{IsSettings};
    ghost use Rattle.pse_directory.specs.Left.{DirectoryData};
    ghost use Rattle.pse_directory.specs.SeenAwaited.{seen_place, IsAwaitedInRange};

    ghost Value = { DirectoryData };

    ghost view = { λ l. record { rows = l.settings.now.aids; confirm = l.confirm; place = seen_place l.settings.now.aids l.place } };

    ghost invariant = { λ l. IsSettings l.settings.now × IsAwaitedInRange l.settings.now.aids l.place };
}

/// How selection goes on behind an answer for the directory.
#[derive(Drop)]
pub enum ListNext<'s> {
    /// The card is asked for another record.
    Ask(Listing<'s>),
    /// The candidates of the directory are selected.
    Found(Selecting<'s>),
    /// The directory gives none: the terminal's list of AIDs is gone through.
    List(Selecting<'s>),
    /// The transaction ends for this cause: the card is blocked, or the answer can't be read.
    Ended(Cause),
}

/// The same where the candidates stand beside it.
#[derive(Drop)]
pub enum DirectoryNext<'s> {
    /// The card is asked for another record.
    Ask(Listing<'s>),
    /// The candidates of the directory are selected.
    Found(Search<'s>),
    /// The directory gives none: the terminal's list of AIDs is gone through.
    List(Search<'s>),
    /// The transaction ends for this cause.
    Ended(Cause),
}

/// What an answer leads to, before a candidate is selected.
#[derive(Drop)]
pub(crate) enum Answered<'s> {
    /// Another record is asked for.
    Ask(Listing<'s>),
    /// The directory names these applications, and no others.
    Found(FoundList),
    /// The transaction ends for this cause.
    Ended(Cause),
}

impl<'s> Listing<'s> {
    ghost use Rattle.pse_directory.specs.Next.{DirectoryNextLeads, DirectoryNextIs, DirectoryNextHasRoom, directory_answers_left_next, ListNextLeads, ListNextIs};

    /// Begins selection for a terminal with these settings, which asks for the directory at first, and at which the
    /// cardholder can confirm an application, or can't.
    #[tactic(auto, unfolding(crate::specs::Directory::selecting_by))]
    pub fn begin(settings: &'s Settings, confirm: bool) -> Listing<'s>
        requires { IsSettings settings.now }
        ensures is { result ≡ record { rows = settings.entry.now.aids; confirm = confirm; place = AtName } }
        ensures leads { Leads (selecting_by true settings.entry.now.aids confirm) [] (directory_rest result) }
    {
        Listing {
            settings,
            confirm,
            place: Awaited::Name,
        }
    }

    /// Writes the command that the card is to answer, in place of what `out` held.
    #[tactic(auto, unfolding(crate::specs::Directory::directory, crate::specs::Directory::records))]
    pub fn ask(&self, out: &mut Out)
        ensures wants { directory_left self.now [] ≡ Wants out.new.items }
    {
        match &self.place {
            Awaited::Name => write_name(out),
            Awaited::Record(records) => write_record_command(records.sfi, records.number, out),
        }
    }

    /// Goes on with the card's answer: `Ended` exactly where the card is blocked at the directory's name, or the
    /// answer is no response; `List` exactly where the directory has ended without a candidate, and `Found` where it
    /// has ended with one.
    pub fn take(self, reply: &[u8]) -> ListNext<'s>
        ensures exact { ListNextIs (directory_left self.entry (reply.now ∷ [])) result }
        ensures leads { (whole : List (List ℕ) → Progress SelectedData) (answers : List (List ℕ))
            → Leads whole answers (directory_rest self.entry) → ListNextLeads whole (answers ++ reply.now ∷ []) result }
    {
        let settings = self.settings;
        let confirm = self.confirm;
        match answered(self, reply) {
            Answered::Ask(listing) => ListNext::Ask(listing),
            Answered::Found(found) => select_alone(settings, confirm, found),
            Answered::Ended(cause) => ListNext::Ended(cause),
        }
    }

    /// As `take`, with the candidates put where they stand, in place of what stood there.
    pub fn take_into(self, candidates: &mut Candidates<'s>, reply: &[u8]) -> DirectoryNext<'s>
        ensures exact { DirectoryNextIs (directory_left self.entry (reply.now ∷ [])) result }
        ensures leads { (whole : List (List ℕ) → Progress SelectedData) (answers : List (List ℕ))
            → Leads whole answers (directory_rest self.entry) → DirectoryNextLeads candidates.new whole (answers ++ reply.now ∷ []) result }
        ensures room { DirectoryNextHasRoom result candidates.new }
        // Fewer answers are left to be taken.
        ensures nearer { directory_answers_left_next result candidates.new < directory_answers_left self.entry }
    {
        let settings = self.settings;
        let confirm = self.confirm;
        match answered(self, reply) {
            Answered::Ask(listing) => DirectoryNext::Ask(listing),
            Answered::Found(found) => select(settings, confirm, &found, candidates),
            Answered::Ended(cause) => DirectoryNext::Ended(cause),
        }
    }
}
