//! What is noted beside a card in a reader.
ghost use Rattle.std.specs.Prelude.{◌≡◌, Some, IsTrue};
ghost use Rattle.card_at_reader.specs.Notes as spec;
ghost use Rattle.emv_ports.specs.Cut.{is_plan};

use card_app::Reason;
use emv_ports::Tear;
use std::marker::Model;

/// What is noted beside a card in a reader, and isn't on it.
#[derive(Drop)]
pub struct Notes {
    /// The plan under which it is powered up until it has fired.
    plan: Option<Tear>,
    /// The one that replaces it at the next power-up.
    next: Option<Tear>,
    /// The one that fired last.
    torn: Option<Tear>,
    /// Why the last cryptogram since the power-up is of its kind.
    why: Option<Reason>,
}

impl Model for Notes {
    ghost use Rattle.std.specs.Prelude.{IsTrue};
    ghost use Rattle.card_at_reader.specs.Notes.{NotesData};
    ghost use Rattle.emv_ports.specs.Cut.{is_plan};

    ghost Value = { NotesData };

    ghost view = { λ notes. record { plan = notes.plan; next = notes.next; torn = notes.torn; why = notes.why } };

    ghost invariant = { λ notes. IsTrue (is_plan notes.plan) × IsTrue (is_plan notes.next) };
}

impl Notes {
    /// Of a card that was never in a reader.
    pub fn new() -> Notes
        ensures { result ≡ spec.no_notes }
    {
        Notes {
            plan: None,
            next: None,
            torn: None,
            why: None,
        }
    }

    /// The plan under which the card is powered up until it has fired.
    pub fn plan(&self) -> Option<Tear>
        ensures exact { result ≡ self.now.plan }
        ensures fits { IsTrue (is_plan result) }
    {
        self.plan
    }

    /// The plan that fired last.
    pub fn torn(&self) -> Option<Tear>
        ensures { result ≡ self.now.torn }
    {
        self.torn
    }

    /// Why the last cryptogram since the power-up is of its kind.
    pub fn why(&self) -> &Option<Reason>
        ensures { result.now ≡ self.now.why }
    {
        &self.why
    }

    /// Takes the plan of the next power-up, behind which no cryptogram was made yet.
    pub fn take_plan(&mut self)
        ensures { self.new ≡ spec.powered_notes self.old }
    {
        self.why = None;
        if let Some(tear) = self.next {
            self.plan = Some(tear);
            self.next = None;
        }
    }

    /// Notes that the plan has fired.
    pub fn note_torn(&mut self)
        ensures { self.new ≡ spec.torn_notes self.old }
    {
        self.torn = self.plan;
        self.plan = None;
    }

    /// Notes why the cryptogram of a command is of its kind, where it made one.
    pub fn note_reason(&mut self, reason: Option<Reason>)
        ensures { self.new ≡ spec.answered_notes self.old reason }
    {
        if reason.is_some() {
            self.why = reason;
        }
    }

    /// Notes a plan for the next power-up.
    pub fn plan_next(&mut self, tear: Tear)
        requires { IsTrue (is_plan (Some tear)) }
        ensures { self.new ≡ record self.old { next = Some tear } }
    {
        self.next = Some(tear);
    }
}
