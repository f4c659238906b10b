//! Which names a lane's terminal asked for and was given as it selected an application (EMV 4.3 Book 1 section 12.3).
ghost use Rattle.std.specs.Prelude.{◌≡◌, ◌<◌, true, length, option_map};
ghost use Rattle.narrator.specs.Selections as spec;

use apdu_core::status::NO_ERROR;
use apdu_core::{read_command, read_response};
use arrayvec::ArrayVec;
use ber_tlv::{Tag, first_value, sole_value};
use exchange_words::{keep, value_or_empty};
use std::mem;

/// The most names that are found: those of 16 occurrences of each of 16 AIDs, and the directory's.
const MOST_FOUND: usize = 257;

/// A name that an answer to SELECT gave.
#[derive(Drop)]
pub struct NameFound {
    /// The name that was asked for.
    pub asked: ArrayVec<u8, 16>,
    /// The whole name of the application.
    pub given: ArrayVec<u8, 16>,
}

/// The contents of an unused place.
impl Default for NameFound {
    fn default() -> NameFound {
        NameFound {
            asked: ArrayVec::new(),
            given: ArrayVec::new(),
        }
    }
}

/// What SELECT asked for and was given since the lane's card was powered up.
#[derive(Drop)]
pub struct Selection {
    /// The name that was asked for last.
    pub name: ArrayVec<u8, 16>,
    /// The name that was given for it, where no other command came since.
    pub given: ArrayVec<u8, 16>,
    /// The names that were given before another SELECT.
    pub found: ArrayVec<NameFound, MOST_FOUND>,
}

/// The name that SELECT asks for; `None` of another command.
fn name_asked(command: &[u8]) -> Option<&[u8]>
    ensures { option_map (λ name. name.now) result ≡ spec.name_asked command.now }
{
    match read_command(command) {
        Ok(command) => {
            if command.class == 0x00 && command.ins == 0xa4 {
                Some(command.body)
            } else {
                None
            }
        }
        Err(_) => None,
    }
}

/// Whether the priority indicator in a template A5 has one byte, where it is there.
fn has_indicator(proprietary: &[u8]) -> bool
    ensures { result ≡ spec.has_indicator proprietary.now }
{
    match first_value(proprietary, Tag(0x87)) {
        Ok(Some(indicator)) => indicator.len() == 1,
        Ok(None) => true,
        Err(_) => false,
    }
}

/// Whether file control information can be read.
fn is_fci(template: &[u8]) -> bool
    ensures { result ≡ spec.is_fci template.now }
{
    match first_value(template, Tag(0xa5)) {
        Ok(Some(proprietary)) => has_indicator(proprietary),
        Ok(None) => true,
        Err(_) => false,
    }
}

/// The name in file control information (EMV 4.3 Book 1 section 11.3.4); nothing where that can't be read.
fn name_in_fci(template: &[u8]) -> &[u8]
    ensures { result.now ≡ spec.name_in_fci template.now }
{
    if is_fci(template) {
        value_or_empty(template, 0x84)
    } else {
        &[]
    }
}

/// The name in the body of an answer to SELECT.
fn name_selected(body: &[u8]) -> &[u8]
    ensures { result.now ≡ spec.name_selected body.now }
{
    match sole_value(body, Tag(0x6f)) {
        Some(template) => name_in_fci(template),
        None => &[],
    }
}

/// The name that an answer to SELECT gives; nothing where it selects no valid application.
fn name_given(answer: &[u8]) -> &[u8]
    ensures { result.now ≡ spec.name_given answer.now }
{
    match read_response(answer) {
        Ok(response) => {
            if response.status == NO_ERROR {
                name_selected(response.body)
            } else {
                &[]
            }
        }
        Err(_) => &[],
    }
}

impl Selection {
    /// Before any command.
    pub fn new() -> Selection
        ensures { result ≡ spec.nothing_selected }
    {
        Selection {
            name: ArrayVec::new(),
            given: ArrayVec::new(),
            found: ArrayVec::new(),
        }
    }

    /// Whether a name was given, and there is room for it.
    fn is_finding(&self) -> bool
        ensures exact { result ≡ spec.is_finding self.now }
        ensures room { result ≡ true → length self.now.found.items < 257 }
    {
        !self.given.is_empty() && self.found.len() < MOST_FOUND
    }

    /// Takes the name that was given for the last one among those that are found.
    fn keep_found(&mut self)
        ensures { self.new ≡ spec.with_found self.old }
    {
        let is_finding = self.is_finding();
        let asked = mem::take(&mut self.name);
        let given = mem::take(&mut self.given);
        if is_finding {
            self.found.push(NameFound { asked, given });
        }
    }

    /// Keeps what a command asks for.
    pub fn note_command(&mut self, command: &[u8])
        ensures { self.new ≡ spec.selection_asked command.now self.old }
    {
        match name_asked(command) {
            Some(name) => {
                self.keep_found();
                keep(&mut self.name, name);
            }
            None => self.given.clear(),
        }
    }

    /// Keeps the name that an answer to SELECT gives.
    pub fn note_given(&mut self, command: &[u8], answer: &[u8])
        ensures { self.new ≡ spec.selection_answered command.now answer.now self.old }
    {
        if name_asked(command).is_some() {
            keep(&mut self.given, name_given(answer));
        }
    }
}
