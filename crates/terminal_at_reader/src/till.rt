//! What a terminal has of its purchases: how many have begun, the log of those that were approved, the messages that wait
//! for settlement, the last question about a cryptogram, and what of them is lost with the power.
ghost use Rattle.std.specs.Prelude.{◌≡◌, ◌≤◌, ◌<◌, ◌+◌, ◌++◌, [], length, OnOk, option_map, option_to_list, slice_get};
ghost use Rattle.std.specs.List.{All};
ghost use Rattle.auth_message.specs.Whole.{IsMessage};
ghost use Rattle.emv_dict.specs.Settings.{most_amount};
ghost use Rattle.kernel.specs.EndShown.{EndShown};
ghost use Rattle.terminal_at_reader.specs.Talk.{HasAmounts};
ghost use Rattle.terminal_at_reader.specs.Till.{approval_logged, new_till, till_begun, till_broken_off, till_ended, till_lost, till_lost_captured, till_settled};

use auth_message::Message;
use emv_dict::{Digits, Ending, Logged};
use kernel::Capture;
use std::alloc::{AllocError, Global};
use std::marker::Model;
use trace_check::Question;

/// A message that waits for settlement. Contracts see its bytes, which the host reads.
#[derive(Drop)]
pub struct Captured {
    message: Message,
}

impl Model for Captured {
    ghost use Rattle.std.specs.Prelude.{List, ℕ};

    ghost Value = { List ℕ };

    ghost view = { λ c. c.message.items };

    ghost use Rattle.auth_message.specs.Whole.{IsMessage};

    ghost invariant = { λ c. IsMessage c.message.items };
}

impl Captured {
    /// What a dialogue captured.
    pub fn of(capture: Option<Capture>) -> Option<Captured>
        ensures { result ≡ capture }
    {
        let Some(capture) = capture else {
            return None;
        };
        let mut message = Message::new();
        capture.into_message(&mut message);
        Some(Captured { message })
    }

    /// The message.
    pub fn as_slice(&self) -> &[u8]
        ensures bytes { result.now ≡ self.now }
        ensures short { length result.now ≤ 2048 }
        ensures read { IsMessage result.now }
    {
        self.message.as_slice()
    }
}

/// What is kept of a purchase that has ended.
#[derive(Drop)]
pub struct Outcome {
    pub ending: Ending,
    /// The primary account number, where reading was finished.
    pub pan: Option<Digits>,
    pub captured: Option<Captured>,
}

/// How many purchases have begun, the log of approvals, what waits for settlement, oldest first, and the last question of
/// the purchase that ended last; and how long log and messages were before that purchase, or behind a settlement since.
#[derive(Drop)]
pub struct Till {
    begun: usize,
    log: Vec<Logged>,
    captures: Vec<Captured>,
    question: Option<Question>,
    log_before: usize,
    captures_before: usize,
}

impl Model for Till {
    ghost use Rattle.terminal_at_reader.specs.Till.{TillData};

    ghost Value = { TillData };

    ghost view = { λ t. record { begun = t.begun; log = t.log.items; captures = t.captures.items; question = t.question; log_before = t.log_before; captures_before = t.captures_before } };
}

impl Till {
    /// No purchase has begun.
    pub fn new(alloc: Global) -> Till
        ensures { result ≡ new_till }
    {
        Till {
            begun: 0,
            log: Vec::new(alloc),
            captures: Vec::new(alloc),
            question: None,
            log_before: 0,
            captures_before: 0,
        }
    }

    /// How many purchases have begun.
    pub fn begun(&self) -> usize
        ensures { result ≡ self.now.begun }
    {
        self.begun
    }

    /// One more begins, and what there is stays.
    pub fn begin(&mut self)
        requires { self.old.begun < usize.MAX }
        ensures { self.new ≡ till_begun self.old }
    {
        self.begun += 1;
        self.log_before = self.log.len();
        self.captures_before = self.captures.len();
    }

    /// The log of the purchases that were approved.
    pub fn log(&self) -> &[Logged]
        ensures { result.now ≡ self.now.log }
    {
        self.log.as_slice()
    }

    /// How many messages wait for settlement.
    pub fn count(&self) -> usize
        ensures { result ≡ length self.now.captures }
    {
        self.captures.len()
    }

    /// The message behind so many that wait for settlement.
    pub fn captured(&self, number: usize) -> Option<&Captured>
        ensures { option_map (λ captured. captured.now) result ≡ slice_get self.now.captures number }
    {
        self.captures.get(number)
    }

    /// The last question about a cryptogram of the purchase that ended last, where it had one.
    pub fn question(&self) -> Option<Question>
        ensures { result ≡ self.now.question }
    {
        self.question
    }

    /// A purchase of this amount has ended behind this last question: where it was approved it joins the log, and what it
    /// captured waits for settlement. After `AllocError` nothing is said of what is kept.
    pub fn keep(
        &mut self,
        amount: u64,
        question: Option<Question>,
        outcome: Outcome,
    ) -> Result<(), AllocError>
        ensures kept { OnOk result ((end : EndShown) → end.ending ≡ outcome.ending → end.pan ≡ outcome.pan → end.capture ≡ outcome.captured
            → self.new ≡ till_ended amount end question self.old) }
        ensures amounts { OnOk result (amount ≤ most_amount → HasAmounts self.old.log → HasAmounts self.new.log) }
    {
        let Outcome {
            ending,
            pan,
            captured,
        } = outcome;
        add_approval(&mut self.log, ending, pan, amount)?;
        add_captured(&mut self.captures, captured)?;
        self.question = question;
        Ok(())
    }

    /// Nothing waits for settlement any more, and what there is stays.
    pub fn settle(&mut self)
        ensures { self.new ≡ till_settled self.old }
    {
        self.captures.clear();
        self.log_before = self.log.len();
        self.captures_before = 0;
    }

    /// The power is lost in a purchase: it leaves nothing, and no question.
    pub fn break_off(&mut self)
        ensures { self.new ≡ till_broken_off self.old }
    {
        self.question = None;
    }

    /// The power is lost behind a purchase: its approval leaves the log, and the message that it captured no longer waits.
    pub fn lose(&mut self)
        ensures { self.new ≡ till_lost self.old }
    {
        self.lose_approval();
        self.captures.truncate(self.captures_before);
    }

    /// The power is lost where the store had that message: the approval leaves the log.
    pub fn lose_approval(&mut self)
        ensures { self.new ≡ till_lost_captured self.old }
    {
        self.log.truncate(self.log_before);
    }
}

/// An approval joins the log, under the number of the card's account.
fn add_approval(
    log: &mut Vec<Logged>,
    ending: Ending,
    pan: Option<Digits>,
    amount: u64,
) -> Result<(), AllocError>
    ensures joined { OnOk result (log.new.items ≡ log.old.items ++ approval_logged amount ending pan) }
    ensures amounts { OnOk result (amount ≤ most_amount → HasAmounts log.old.items → HasAmounts log.new.items) }
{
    let Ending::Approved { online: _ } = ending else {
        return Ok(());
    };
    let Some(pan) = pan else {
        return Ok(());
    };
    log.push(Logged { pan, amount })?;
    Ok(())
}

/// What was captured waits for settlement, behind the others.
fn add_captured(captures: &mut Vec<Captured>, captured: Option<Captured>) -> Result<(), AllocError>
    ensures { OnOk result (captures.new.items ≡ captures.old.items ++ option_to_list captured) }
{
    if let Some(captured) = captured {
        captures.push(captured)?;
    }
    Ok(())
}
