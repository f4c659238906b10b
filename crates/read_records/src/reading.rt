//! READ RECORD for each record that the locator names (EMV 4.3 Book 3 section 10.2).
ghost use Rattle.std.specs.Prelude.{◌≡◌, ℕ, List, [], ◌∷◌, ◌++◌, ◌+◌, ◌-◌, ◌/◌, ◌<◌, ◌≤◌, length, map, Err};
ghost use Rattle.emv_dict.specs.Progress.{Progress, Wants, Leads};
ghost use Rattle.emv_dict.specs.declared.ending.Cause.{Cause};
ghost use Rattle.env_map.specs.Entries.{Entries};
ghost use Rattle.object_lists.specs.CardRead.{ReadCard};
ghost use Rattle.object_lists.specs.Checked.{HasOptions};
ghost use Rattle.object_lists.specs.Forms.{HasForms};
ghost use Rattle.read_records.specs.Afl.{RecordPlace, places_from, places_of, places_with};
ghost use Rattle.read_records.specs.DataRead.{reading, finished, card_read, data_read, at_step};
ghost use Rattle.read_records.specs.Options.{Opened, Refused, Granted, Faulty, options_said};
ghost use Rattle.apdu_core.specs.Command.{record_command};

use crate::afl::{Group, Groups};
use crate::record::read_record;
use apdu_core::{Out, write_record_command};
use emv_dict::{Cause, Step};
use env_map::Env;
use object_lists::{CardData, objects_fault};
use std::marker::Model;

/// The records that are still to be read, at least one. The objects so far stand beside it, in a map that
/// each answer is taken into. Contracts see the places of the records.
#[derive(Drop)]
pub struct RecordsToRead {
    current: Group,
    later: Groups,
}

impl Model for RecordsToRead {
    ghost use Rattle.std.specs.Prelude.{List};
    ghost use Rattle.read_records.specs.Afl.{RecordPlace};

    ghost Value = { List RecordPlace };

    ghost use Rattle.read_records.specs.Afl.{places_with};

    ghost view = { λ course. places_with course.current course.later.items };
}

/// What reading does next.
#[derive(Drop)]
pub enum RecordsNext {
    /// It asks for a record.
    Ask(RecordsToRead),
    /// All records are read, and their objects are as they must be.
    Done,
    /// It ended for this cause.
    Ended(Cause),
}

/// The same where the course goes on in its place.
#[derive(Drop)]
pub enum CourseStep {
    /// It asks for the record that the course has come to.
    Ask,
    /// All records are read, and their objects are as they must be.
    Done,
    /// It ended for this cause.
    Ended(Cause),
}

impl RecordsToRead {
    ghost use Rattle.read_records.specs.Leading.{CourseNextLeads, records_left_next};
    ghost use Rattle.read_records.specs.Stepping.{next_with};

    /// The course through the records of these groups, at least one.
    pub(crate) fn new(groups: Groups) -> RecordsToRead
        requires { 0 < length groups.items }
        ensures { result ≡ places_of groups.items }
    {
        let mut later = groups;
        let current = later.remove(0);
        RecordsToRead { current, later }
    }

    /// The command for the next record.
    #[tactic(auto, unfolding(crate::specs::DataRead::reading))]
    pub fn ask(&self, out: &mut Out)
        ensures wants { (entries : Entries) (whole : List (List ℕ) → Progress ReadCard) (answers : List (List ℕ))
            → Leads whole answers (reading (record { entries = entries; left = self.now }))
            → whole answers ≡ Wants out.new.items }
    {
        ask_record(&self.current, out);
    }

    /// Takes the answer to it, and puts its objects into the map.
    pub fn take(self, env: &mut Env, reply: &[u8]) -> RecordsNext
        requires { HasOptions env.old }
        ensures leads { (whole : List (List ℕ) → Progress ReadCard) (answers : List (List ℕ))
            → Leads whole answers (reading (record { entries = env.old; left = self }))
            → CourseNextLeads env.new whole (answers ++ reply.now ∷ []) result }
        ensures options { HasOptions env.new }
        ensures forms { result ≡ RecordsNext.Done → HasForms env.new }
        // Fewer records are left.
        ensures nearer { length (records_left_next result) < length self }
    {
        let mut course = self;
        match course.go_on(env, reply) {
            CourseStep::Ask => RecordsNext::Ask(course),
            CourseStep::Done => RecordsNext::Done,
            CourseStep::Ended(cause) => RecordsNext::Ended(cause),
        }
    }

    /// As `take`, where the course stands: it comes to the next record in its place.
    pub fn go_on(&mut self, env: &mut Env, reply: &[u8]) -> CourseStep
        requires { HasOptions env.old }
        ensures leads { (whole : List (List ℕ) → Progress ReadCard) (answers : List (List ℕ))
            → Leads whole answers (reading (record { entries = env.old; left = self.old }))
            → CourseNextLeads env.new whole (answers ++ reply.now ∷ []) (next_with result self.new) }
        ensures options { HasOptions env.new }
        ensures forms { result ≡ CourseStep.Done → HasForms env.new }
        // Fewer records are left.
        ensures nearer { length (records_left_next (next_with result self.new)) < length self.old }
    {
        match read_record(self.current.file / 8, env, reply) {
            Ok(()) => RecordsToRead::advance(env, &mut self.current, &mut self.later),
            Err(cause) => CourseStep::Ended(cause),
        }
    }

    /// Goes on behind the first record of a group.
    fn advance(env: &Env, current: &mut Group, later: &mut Groups) -> CourseStep
        requires { HasOptions env.now }
        ensures leads { (whole : List (List ℕ) → Progress ReadCard) (answers : List (List ℕ))
            → Leads whole answers (reading (record { entries = env.now; left = places_from (current.old.file / 8) (current.old.first + 1) (current.old.last - current.old.first) ++ places_of later.old.items }))
            → CourseNextLeads env.now whole answers (next_with result (places_with current.new later.new.items)) }
        ensures forms { result ≡ CourseStep.Done → HasForms env.now }
        ensures left { length (records_left_next (next_with result (places_with current.new later.new.items)))
            ≤ length (places_from (current.old.file / 8) (current.old.first + 1) (current.old.last - current.old.first) ++ places_of later.old.items) }
    {
        if current.first < current.last {
            current.first += 1;
            return CourseStep::Ask;
        }
        if later.is_empty() {
            RecordsToRead::finish(env)
        } else {
            *current = later.remove(0);
            CourseStep::Ask
        }
    }

    /// Ends reading: the mandatory objects must be there, and the checked ones have their forms.
    #[tactic(auto, unfolding(crate::specs::DataRead::reading))]
    fn finish(env: &Env) -> CourseStep
        requires { HasOptions env.now }
        ensures leads { (whole : List (List ℕ) → Progress ReadCard) (answers : List (List ℕ)) (left : List RecordPlace)
            → Leads whole answers (reading (record { entries = env.now; left = [] }))
            → CourseNextLeads env.now whole answers (next_with result left) }
        ensures forms { result ≡ CourseStep.Done → HasForms env.now }
        ensures left { (left : List RecordPlace) → records_left_next (next_with result left) ≡ [] }
    {
        match objects_fault(env) {
            None => CourseStep::Done,
            Some(cause) => CourseStep::Ended(cause),
        }
    }
}

/// READ RECORD of the first record of a group.
fn ask_record(group: &Group, out: &mut Out)
    ensures { out.new.items ≡ record_command (group.now.file / 8) group.now.first }
{
    write_record_command(group.file / 8, group.first, out);
}

/// The steps give what the card's answers give as a whole: where each record has its answer, the data
/// that are read, or the first fault.
pub fn steps_give_data()
    ensures read { (start : Opened) (answers : List (List ℕ)) → length answers ≡ length start.left
        → reading start answers ≡ finished (card_read start answers) [] }
    ensures data { (options : List ℕ) (start : Opened) (answers : List (List ℕ)) → options_said options ≡ Granted start
        → data_read options answers ≡ at_step Step.Read (card_read start answers) }
    ensures refused { (options : List ℕ) (answers : List (List ℕ)) → options_said options ≡ Refused
        → data_read options answers ≡ Err (Step.Initiate, Cause.Status 0x6985) }
    ensures faulty { (options : List ℕ) (cause : Cause) (answers : List (List ℕ)) → options_said options ≡ Faulty cause
        → data_read options answers ≡ Err (Step.Initiate, cause) }
{}

/// Reading with its map. Contracts see the objects so far, and the places of the records that are left.
#[derive(Drop)]
pub struct Reading {
    env: Env,
    course: RecordsToRead,
}

impl Model for Reading {
    ghost use Rattle.read_records.specs.Options.{Opened, Refused, Granted, Faulty, options_said};

    ghost Value = { Opened };

    ghost use Rattle.object_lists.specs.Checked.{HasOptions};

    ghost view = { λ reading. record { entries = reading.env; left = reading.course } };

    ghost invariant = { λ reading. HasOptions reading.env };
}

/// What reading does next, with its map.
#[derive(Drop)]
pub enum ReadNext {
    /// It asks for a record.
    Ask(Reading),
    /// All records are read, and their objects are as they must be.
    Done(CardData),
    /// It ended for this cause.
    Ended(Cause),
}

impl Reading {
    ghost use Rattle.read_records.specs.Leading.{ReadNextLeads};

    pub(crate) fn new(env: Env, course: RecordsToRead) -> Reading
        requires { HasOptions env }
        ensures { result ≡ record { entries = env; left = course } }
    {
        Reading { env, course }
    }

    /// The command for the next record.
    pub fn ask(&self, out: &mut Out)
        ensures wants { (whole : List (List ℕ) → Progress ReadCard) (answers : List (List ℕ))
            → Leads whole answers (reading self.now) → whole answers ≡ Wants out.new.items }
    {
        self.course.ask(out);
    }

    /// Takes the answer to it. Moves the map, which `Course::take` leaves where it is.
    pub fn take(self, reply: &[u8]) -> ReadNext
        ensures leads { (whole : List (List ℕ) → Progress ReadCard) (answers : List (List ℕ))
            → Leads whole answers (reading self) → ReadNextLeads whole (answers ++ reply.now ∷ []) result }
    {
        let Reading { mut env, course } = self;
        match course.take(&mut env, reply) {
            RecordsNext::Ask(course) => ReadNext::Ask(Reading { env, course }),
            RecordsNext::Done => ReadNext::Done(CardData::new(env)),
            RecordsNext::Ended(cause) => ReadNext::Ended(cause),
        }
    }
}
