//! The commands of one template, sent to the card in their order (EMV 4.3 Book 3 section 10.10).
ghost use Rattle.std.specs.Prelude.{◌≡◌, ◌≤◌, ◌<◌, ◌+◌, ◌-◌, ◌*◌, ◌++◌, [], ◌∷◌, ℕ, List, length, drop, is_some, true, IsOk, IfSome, MatchOption};
ghost use Rattle.apdu_core.specs.Command.{command_of};
ghost use Rattle.ber_tlv.specs.Left.{items_of};
ghost use Rattle.emv_dict.specs.Progress.{Progress, Wants, Done, Leads};
ghost use Rattle.script_run.specs.Ran.{all_went_on, failed_at, goes_on, ran, running_rest, template_ran};
ghost use Rattle.script_run.specs.Leading.{RunNextLeads, commands_left_next, AsksNumber};
ghost use Rattle.script_run.specs.Ran as spec;
ghost use Rattle.script_run.specs.Script.{commands_of};

use crate::template::{command_at, read_identifier};
use apdu_core::status::is_warning;
use apdu_core::{Out, read_command, read_response};
use arrayvec::ArrayVec;
use ber_tlv::append;
use std::marker::Model;

/// The most bytes that a template's value has.
pub const MOST_BYTES: usize = 1024;

/// SW1 of an answer to a command that was carried out.
const CARRIED_OUT: u16 = 0x90;

/// The greatest number of a command that a result tells.
const GREATEST_NUMBER: usize = 15;

/// The result of a template that holds no script.
const NO_SCRIPT: [u8; 5] = [0; 5];

/// A script one of whose commands the card is to answer. Contracts see the identifier, the number of this
/// command, and the commands from it on.
#[derive(Drop)]
pub struct Running {
    template: ArrayVec<u8, 1024>,
    identifier: [u8; 4],
    /// How many commands stand before the one that is asked.
    before: usize,
}

impl Model for Running {
    ghost use Rattle.script_run.specs.Ran.{RunningData};

    ghost Value = { RunningData };

    ghost use Rattle.std.specs.Prelude.{◌+◌, ◌<◌, length, drop, IsOk, IsTrue, is_some};
    ghost use Rattle.script_run.specs.Script.{commands_of};

    ghost view = { λ running. record { identifier = running.identifier; number = running.before + 1; commands = drop running.before (commands_of running.template.items) } };

    ghost use Rattle.script_run.specs.Asked.{IsCommandAsked};

    ghost invariant = { λ running. IsCommandAsked running.template.items running.before };
}

/// How a script goes on.
#[derive(Drop)]
pub enum RunNext {
    /// The card is asked.
    Ask(Running),
    /// It is done. The result's first byte is 20 where all commands went on, 1n where the command of number
    /// n failed, from 1, with F for 15 and above, and 00 where the template holds no script; the identifier
    /// follows (EMV 4.3 Book 4 Annex A5).
    Done([u8; 5]),
}

impl Running {
    /// Begins the script of a template's value, of which a copy is kept.
    pub fn begin(template: &[u8]) -> RunNext
        requires { length template.now ≤ 1024 }
        ensures leads { RunNextLeads (template_ran template.now) [] result }
        ensures number { AsksNumber 1 result }
        ensures few { 2 * commands_left_next result ≤ length template.now }
    {
        let Some(identifier) = read_identifier(template) else {
            return RunNext::Done(NO_SCRIPT);
        };
        let mut copy = ArrayVec::new();
        append(&mut copy, template);
        go_on(copy, identifier, 0)
    }

    /// Writes the command that the card is to answer, in place of what `out` held.
    pub fn ask(&self, out: &mut Out)
        ensures wants { (whole : List (List ℕ) → Progress (List ℕ)) (answers : List (List ℕ))
            → Leads whole answers (running_rest self.now) → whole answers ≡ Wants out.new.items }
    {
        let Some(command) = asked(&self.template, self.before) else {
            unreachable!();
        };
        write_bytes(command, out);
    }

    /// Goes on with the card's answer.
    pub fn take(self, reply: &[u8]) -> RunNext
        ensures leads { (whole : List (List ℕ) → Progress (List ℕ)) (answers : List (List ℕ))
            → Leads whole answers (running_rest self) → RunNextLeads whole (answers ++ reply.now ∷ []) result }
        ensures number { AsksNumber (self.number + 1) result }
        // Fewer commands are left.
        ensures nearer { commands_left_next result < length self.commands }
    {
        let Running {
            template,
            identifier,
            before,
        } = self;
        if goes_on(reply) {
            go_on(template, identifier, before + 1)
        } else {
            RunNext::Done(failed_at(identifier, before + 1))
        }
    }

    /// The result where the card is gone: the command that it was asked failed, as if the answer had no bytes.
    pub fn gone(self) -> [u8; 5]
        ensures leads { (whole : List (List ℕ) → Progress (List ℕ)) (answers : List (List ℕ))
            → Leads whole answers (running_rest self) → Leads whole (answers ++ [] ∷ []) (Done result) }
        ensures failed { result ≡ spec.failed_at self.identifier self.number }
    {
        failed_at(self.identifier, self.before + 1)
    }
}

/// Goes on with the command that has so many before it.
fn go_on(template: ArrayVec<u8, 1024>, identifier: [u8; 4], before: usize) -> RunNext
    requires whole { IsOk (items_of template.items) }
    requires few { before ≤ 512 }
    ensures leads { (whole : List (List ℕ) → Progress (List ℕ)) (answers : List (List ℕ))
        → Leads whole answers (ran identifier (before + 1) (drop before (commands_of template.items))) → RunNextLeads whole answers result }
    ensures number { AsksNumber (before + 1) result }
    ensures left { commands_left_next result ≤ length (drop before (commands_of template.items)) }
{
    let Some(command) = asked(&template, before) else {
        return RunNext::Done(all_went_on(identifier));
    };
    if is_command(command) {
        RunNext::Ask(Running {
            template,
            identifier,
            before,
        })
    } else {
        RunNext::Done(failed_at(identifier, before + 1))
    }
}

/// The command that has so many before it.
fn asked(template: &ArrayVec<u8, 1024>, before: usize) -> Option<&[u8]>
    requires { IsOk (items_of template.now.items) }
    ensures left { MatchOption result (drop before (commands_of template.now.items) ≡ [])
        (λ command. drop before (commands_of template.now.items) ≡ command.now ∷ drop (before + 1) (commands_of template.now.items)) }
    ensures few { IfSome result (λ _. before < 512) }
{
    command_at(template, before)
}

/// Whether these bytes are a command.
fn is_command(bytes: &[u8]) -> bool
    ensures { result ≡ is_some (command_of bytes.now) }
{
    read_command(bytes).is_ok()
}

/// Writes a command as it is, in place of what `out` held.
fn write_bytes(command: &[u8], out: &mut Out)
    requires { is_some (command_of command.now) ≡ true }
    ensures { out.new.items ≡ command.now }
{
    out.clear();
    append(out, command);
}

/// Whether the next command follows behind this answer.
#[tactic(auto, unfolding(crate::specs::Ran::goes_on))]
fn goes_on(reply: &[u8]) -> bool
    ensures { result ≡ spec.goes_on reply.now }
{
    match read_response(reply) {
        Ok(response) => response.status / 256 == CARRIED_OUT || is_warning(response.status),
        Err(_) => false,
    }
}

/// The result of a script whose commands all went on.
fn all_went_on(identifier: [u8; 4]) -> [u8; 5]
    ensures { result ≡ spec.all_went_on identifier }
{
    let [a, b, c, d] = identifier;
    [0x20, a, b, c, d]
}

/// The result of one whose command of this number failed, counted from 1.
fn failed_at(identifier: [u8; 4], number: usize) -> [u8; 5]
    ensures { result ≡ spec.failed_at identifier number }
{
    let [a, b, c, d] = identifier;
    [0x10 + number.min(GREATEST_NUMBER) as u8, a, b, c, d]
}
