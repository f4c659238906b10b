//! GET PROCESSING OPTIONS (EMV 4.3 Book 3 section 10.1).
ghost use Rattle.std.specs.Prelude.{◌≡◌, ◌≢◌, ℕ, List, [], ◌∷◌, ◌++◌, ◌≤◌, ◌<◌, length, Option, Some, None, MatchResult, option_map};
ghost use Rattle.emv_dict.specs.Progress.{Progress, Wants, Stopped, Leads};
ghost use Rattle.read_records.specs.Afl.{most_records};
ghost use Rattle.object_lists.specs.Checked.{HasOptions};
ghost use Rattle.read_records.specs.Options.{Opened, initiated, initiating, options_command, options_data};
ghost use Rattle.object_lists.specs.Filled.{dol_data};

use crate::options::{Options, Said, read_answer};
use crate::reading::{Reading, RecordsToRead};
use apdu_core::{Command, Out, write_command};
use arrayvec::ArrayVec;
use ber_tlv::{Tag, write_item};
use emv_dict::Cause;
use env_map::Env;
use object_lists::{fill_without_card, read_dol};
use std::marker::Model;

/// The most bytes that an object list is read from.
const LONGEST_LIST: usize = 255;

/// GET PROCESSING OPTIONS is to be answered. Contracts see the data that it is sent with.
#[derive(Drop)]
pub struct Initiating {
    data: ArrayVec<u8, 252>,
}

impl Model for Initiating {
    ghost use Rattle.std.specs.Prelude.{List, ℕ};

    ghost Value = { List ℕ };

    ghost use Rattle.std.specs.Prelude.{◌≤◌, length};

    ghost view = { λ initiating. initiating.data.items };

    ghost invariant = { λ initiating. length initiating.data.items ≤ 252 };
}

/// What follows the answer, where the map is lent.
#[derive(Drop)]
pub enum OptionsNext {
    /// The application is not to be used now (status 6985).
    Refused,
    /// Its records are read.
    Read(RecordsToRead),
    /// The transaction ended for this cause.
    Ended(Cause),
}

/// What follows the answer.
#[derive(Drop)]
pub enum InitiateNext {
    /// The application is not to be used now (status 6985).
    Refused,
    /// Its records are read.
    Read(Reading),
    /// The transaction ended for this cause.
    Ended(Cause),
}

impl Initiating {
    ghost use Rattle.read_records.specs.Leading.{OptionsNextLeads, InitiateNextLeads, IsBegun, begun_next};

    /// Fills the card's object list (9F38) from the terminal's objects. The cause is `Dol` of 9F38, where
    /// the list can't be read or wants more than 252 bytes.
    #[tactic(auto, unfolding(crate::specs::Options::initiated))]
    pub fn begin(pdol: Option<&[u8]>, terminal: &Env) -> Result<Initiating, Cause>
        ensures { MatchResult result
            (λ state. Leads (initiating (option_map (λ list. list.now) pdol.entry) terminal.now) [] (initiated state))
            (λ cause. Leads (initiating (option_map (λ list. list.now) pdol.entry) terminal.now) [] (λ _. Stopped cause)) }
    {
        match filled(pdol, terminal) {
            Some(data) => Ok(Initiating { data }),
            None => Err(Cause::Dol(Tag(0x9f38))),
        }
    }

    /// The command.
    pub fn ask(&self, out: &mut Out)
        ensures wants { (whole : List (List ℕ) → Progress (Option Opened)) (answers : List (List ℕ))
            → Leads whole answers (initiated self.now) → whole answers ≡ Wants out.new.items }
    {
        write_options(&self.data, out);
    }

    /// Takes the answer to it, and puts the first objects into the map, which is empty as yet.
    pub fn take_into(self, env: &mut Env, reply: &[u8]) -> OptionsNext
        requires { env.old ≡ [] }
        ensures leads { (whole : List (List ℕ) → Progress (Option Opened)) (answers : List (List ℕ))
            → Leads whole answers (initiated self) → OptionsNextLeads env.new whole (answers ++ reply.now ∷ []) result }
        ensures options { IsBegun result → HasOptions env.new }
        ensures refused { result ≡ OptionsNext.Refused → env.new ≡ [] }
        ensures few { length (begun_next result) ≤ most_records }
    {
        match read_answer(reply) {
            Said::Refused => OptionsNext::Refused,
            Said::Granted(options) => {
                put_options(env, &options);
                OptionsNext::Read(RecordsToRead::new(options.groups))
            }
            Said::Faulty(cause) => OptionsNext::Ended(cause),
        }
    }

    /// Takes the answer to it. The map is a new one, which `take_into` leaves where it is.
    pub fn take(self, reply: &[u8]) -> InitiateNext
        ensures leads { (whole : List (List ℕ) → Progress (Option Opened)) (answers : List (List ℕ))
            → Leads whole answers (initiated self) → InitiateNextLeads whole (answers ++ reply.now ∷ []) result }
    {
        let mut env = Env::new();
        match self.take_into(&mut env, reply) {
            OptionsNext::Refused => InitiateNext::Refused,
            OptionsNext::Read(course) => InitiateNext::Read(Reading::new(env, course)),
            OptionsNext::Ended(cause) => InitiateNext::Ended(cause),
        }
    }
}

#[tactic(auto, using(crate::proofs::Commands::template_room))]
fn write_options(data: &[u8], out: &mut Out)
    requires { length data.now ≤ 252 }
    ensures { out.new.items ≡ options_command data.now }
{
    let mut template: ArrayVec<u8, 255> = ArrayVec::new();
    if write_item(&mut template, Tag(0x83), data).is_err() {
        unreachable!();
    }
    let command = Command {
        class: 0x80,
        ins: 0xa8,
        p1: 0x00,
        p2: 0x00,
        body: &template,
        expects: Some(0),
    };
    write_command(&command, out);
}

/// The data of an object list, where it can be read and its data have room.
fn filled(pdol: Option<&[u8]>, terminal: &Env) -> Option<ArrayVec<u8, 252>>
    ensures { option_map (λ given. given.items) result ≡ options_data (option_map (λ list. list.now) pdol.entry) terminal.now }
{
    let mut data = ArrayVec::new();
    let Some(pdol) = pdol else {
        return Some(data);
    };
    if pdol.len() > LONGEST_LIST {
        return None;
    }
    let Ok(dol) = read_dol(pdol) else {
        return None;
    };
    match fill_without_card(&dol, terminal, &mut data) {
        Ok(()) => Some(data),
        Err(_) => None,
    }
}

/// Puts the application interchange profile and the file locator.
fn put_options(env: &mut Env, options: &Options)
    requires empty { env.old ≡ [] }
    requires short { length options.now.afl.now < 256 }
    ensures entries { env.new ≡ (0x82, options.now.aip) ∷ (0x94, options.now.afl.now) ∷ [] }
    ensures options { HasOptions env.new }
{
    if env.put(Tag(0x82), &options.aip).is_err() {
        unreachable!();
    }
    if env.put(Tag(0x94), options.afl).is_err() {
        unreachable!();
    }
}
