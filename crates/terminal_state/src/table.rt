//! What lies on the terminal's table while a dialogue goes on: what was dealt, what is known, and the
//! buffers that are lent to the steps.
ghost use Rattle.std.specs.Prelude.{◌≡◌, []};
ghost use Rattle.terminal_state.specs.StepResults.{state_so_far};
ghost use Rattle.terminal_state.specs.Table.{outset_of, no_reply};

use crate::state_so_far::{IssuerData, StateSoFar};
use apdu_core::Out;
use app_select::Candidates;
use arrayvec::ArrayVec;
use auth_message::Message;
use emv_dict::{Purchase, Settings};
use env_map::Env;
use script_run::Running;
use std::marker::Model;

/// The host's reply, kept for the steps behind it.
#[derive(Drop)]
pub struct HostReply {
    /// The authorisation response code (8A).
    pub code: [u8; 2],
    /// The issuer authentication data (91).
    pub issuer_data: Option<IssuerData>,
    /// The script templates (71 and 72).
    pub scripts: ArrayVec<u8, 1024>,
}

impl Model for HostReply {
    ghost use Rattle.std.specs.Prelude.{option_map};
    ghost use Rattle.auth_message.specs.Reply.{ReplyData};

    ghost Value = { ReplyData };

    ghost view = { λ r. record { code = r.code; auth = option_map (λ value. value.items) r.issuer_data; scripts = r.scripts.items } };

    ghost use Rattle.terminal_state.specs.Scripts.{AreFew};

    ghost invariant = { λ r. AreFew r.scripts.items };
}

/// The table.
#[derive(Drop)]
pub struct Table<'s> {
    pub settings: &'s Settings,
    pub purchase: &'s Purchase,
    pub candidates: Candidates<'s>,
    pub state_so_far: StateSoFar,
    pub reply: HostReply,
    /// The issuer script that runs. It stands here and in no stage, which moves at each step.
    pub running: Option<Running>,
    /// The card's objects while it is read, and then the terminal's for the card's object lists.
    pub objects: Env,
    pub command: Out,
    pub message: Message,
}

impl<'s> Table<'s> {
    /// The table for another dialogue. The command stays until the next one is asked.
    pub fn clear_for(&mut self, settings: &'s Settings, purchase: &'s Purchase)
        ensures outset { outset_of self.new ≡ record { settings = settings.now; purchase = purchase.now } }
        ensures candidates { self.new.candidates ≡ [] }
        ensures state_so_far { self.new.state_so_far ≡ state_so_far [] }
        ensures reply { self.new.reply ≡ no_reply }
        ensures objects { self.new.objects ≡ [] }
        ensures message { self.new.message.items ≡ [] }
        ensures command { self.new.command ≡ self.old.command }
    {
        self.settings = settings;
        self.purchase = purchase;
        self.candidates.clear();
        self.state_so_far = StateSoFar::new();
        self.reply = HostReply::none();
        self.running = None;
        self.objects.clear();
        self.message.clear();
    }
}

impl HostReply {
    /// No reply.
    pub fn none() -> HostReply
        ensures { result ≡ no_reply }
    {
        HostReply {
            code: [0; 2],
            issuer_data: None,
            scripts: ArrayVec::new(),
        }
    }
}
