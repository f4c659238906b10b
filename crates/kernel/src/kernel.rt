//! The dialogue of a terminal, a reply at a time.
ghost use Rattle.std.specs.Prelude.{◌≡◌, ◌≤◌, [], List, length, option_map, None};
ghost use Rattle.auth_message.specs.Whole.{IsMessage};
ghost use Rattle.emv_dict.specs.Settings.{IsSettings, IsPurchase};
ghost use Rattle.kernel.specs.BeginEnd.{HasBegun};
ghost use Rattle.kernel.specs.Dialogue.{dialogue};
ghost use Rattle.kernel.specs.Kernel.{KernelStands, outset_in, kernel_next, standing_next, told_bytes};
ghost use Rattle.kernel.specs.Kernel as spec;
ghost use Rattle.kernel.specs.Reply.{Reply};
ghost use Rattle.terminal_state.specs.StepResults.{latest, sets_card, state_so_far};

use crate::selection;
use crate::stage::{Opening, Stage, Trading};
use apdu_core::Out;
use app_select::Candidates;
use arrayvec::ArrayVec;
use emv_dict::{Purchase, Settings};
use env_map::Env;
use object_lists::CardData;
use std::marker::Model;
use terminal_state::{HeldCard, HostReply, StateSoFar, Table};

mod by_value;
mod finish;
mod taking;
mod turns;

/// What a terminal waits for.
#[derive(Clone, Copy, PartialEq, Eq, Debug)]
pub enum Next {
    /// The card's answer.
    ToCard,
    /// The host's reply.
    ToHost,
    /// Nothing: the dialogue is over.
    Ended,
}

/// A terminal in its dialogue. Contracts speak of the replies that it has taken: `KernelStands`.
#[derive(Drop)]
pub struct Kernel<'s> {
    table: Table<'s>,
    card: HeldCard,
    stage: Stage<'s>,
    /// How many replies were taken, which stops at the greatest number.
    taken: u64,
    /// Whether its end was handed out.
    is_spent: bool,
}

impl<'s> Model for Kernel<'s> {
    ghost use Rattle.kernel.specs.Kernel.{KernelData, KernelFits};

    ghost Value = { KernelData };

    ghost view = { λ k. record { table = k.table; card = k.card; stage = k.stage; taken = k.taken; is_spent = k.is_spent } };

    ghost invariant = { λ k. KernelFits (record { table = k.table; card = k.card; stage = k.stage; taken = k.taken; is_spent = k.is_spent }) };
}

impl<'s> Kernel<'s> {
    /// A dialogue begins, for this purchase at a terminal with these settings.
    pub fn begin(settings: &'s Settings, purchase: &'s Purchase) -> Kernel<'s>
        requires settings { IsSettings settings.now }
        requires purchase { IsPurchase purchase.now }
        ensures { HasBegun (record { settings = settings.now; purchase = purchase.now }) result }
    {
        let mut command = Out::new();
        let opening = selection::begin(settings, purchase, &mut command);
        Kernel {
            // Made in its place: a function of its own would move the candidates once more.
            table: Table {
                settings,
                purchase,
                candidates: Candidates::new(settings),
                state_so_far: StateSoFar::new(),
                reply: HostReply::none(),
                running: None,
                objects: Env::new(),
                command,
                message: ArrayVec::new(),
            },
            card: HeldCard::none(),
            stage: Stage::Opening(opening),
            taken: 0,
            is_spent: false,
        }
    }

    /// As `begin`, in the place of an earlier dialogue, of which nothing is left. Its large parts are
    /// cleared and not made anew.
    pub fn begin_again(&mut self, settings: &'s Settings, purchase: &'s Purchase)
        requires settings { IsSettings settings.now }
        requires purchase { IsPurchase purchase.now }
        ensures { HasBegun (record { settings = settings.now; purchase = purchase.now }) self.new }
    {
        self.card.let_go();
        self.table.clear_for(settings, purchase);
        let opening = selection::begin(settings, purchase, &mut self.table.command);
        self.stage = Stage::Opening(opening);
        self.taken = 0;
        self.is_spent = false;
    }

    /// What the terminal waits for.
    pub fn next(&self) -> Next
        ensures exact { result ≡ kernel_next self.now }
        ensures told { (replies : List Reply) → KernelStands self.now replies → result ≡ standing_next (dialogue (outset_in self.now) replies) }
    {
        stage_next(&self.stage)
    }

    /// The command or the message to send, empty where the dialogue is over. A command has at most 261
    /// bytes, and a message at most 2,048.
    pub fn bytes(&self) -> &[u8]
        ensures told { (replies : List Reply) → KernelStands self.now replies → result.now ≡ told_bytes (dialogue (outset_in self.now) replies) }
        ensures command { kernel_next self.now ≡ Next.ToCard → length result.now ≤ 261 }
        ensures short { length result.now ≤ 2048 }
        // The host reads it.
        ensures read { kernel_next self.now ≡ Next.ToHost → IsMessage result.now }
    {
        bytes_by(&self.table, stage_next(&self.stage))
    }

    /// Whether the end of the dialogue was handed out.
    pub fn is_spent(&self) -> bool
        ensures { result ≡ self.now.is_spent }
    {
        self.is_spent
    }

    /// What reading gave, where it is finished.
    pub fn data(&self) -> Option<&CardData>
        ensures exact { option_map (λ card. card.now) result ≡ self.now.card }
        ensures told { (replies : List Reply) → KernelStands self.now replies
            → option_map (λ card. card.now) result ≡ latest sets_card None (dialogue (outset_in self.now) replies).steps_done }
    {
        self.card.get()
    }

    /// What the steps that are finished leave, until the end is handed out.
    pub fn state_so_far(&self) -> &StateSoFar
        ensures exact { result.now ≡ self.now.table.state_so_far }
        ensures told { (replies : List Reply) → KernelStands self.now replies
            → result.now ≡ state_so_far (dialogue (outset_in self.now) replies).steps_done }
    {
        &self.table.state_so_far
    }
}

/// What a stage waits for.
fn stage_next(stage: &Stage<'_>) -> Next
    ensures { result ≡ spec.stage_next stage.now }
{
    match stage {
        Stage::Opening(Opening::Directory(_) | Opening::Select(_)) => Next::ToCard,
        Stage::Opening(Opening::Initiate(_) | Opening::Read(_)) => Next::ToCard,
        Stage::Opening(Opening::Over(_)) => Next::Ended,
        Stage::Trading(at) => trading_next(&at.trading),
    }
}

/// What a stage waits for once the card is read.
fn trading_next(trading: &Trading<'_>) -> Next
    ensures { result ≡ spec.trading_next trading.now }
{
    match trading {
        Trading::Online => Next::ToHost,
        Trading::Over(_) => Next::Ended,
        Trading::Verify(_) | Trading::Risk(_) | Trading::First(_) => Next::ToCard,
        Trading::Authenticate | Trading::ScriptBefore(_) => Next::ToCard,
        Trading::Second(_) | Trading::ScriptBehind(_, _) => Next::ToCard,
    }
}

/// The bytes of what a terminal does next.
fn bytes_by<'a>(table: &'a Table<'_>, next: Next) -> &'a [u8]
    ensures bytes { result.now ≡ spec.bytes_by table.now next }
    ensures command { next ≡ Next.ToCard → length result.now ≤ 261 }
    ensures short { length result.now ≤ 2048 }
{
    match next {
        Next::ToCard => table.command.as_slice(),
        Next::ToHost => table.message.as_slice(),
        Next::Ended => &[],
    }
}
