//! A scenario and its cards.
ghost use Rattle.std.specs.Prelude.{◌≡◌, map, option_map};
ghost use Rattle.scenario_plan.specs.SeenCards.{canned_of, image_there};

use card_files::Image;
use issuer_host::{Account, HostKeys};
use scenario_lanes::Lane;
use std::marker::Model;

/// What a card of a scenario answers by.
#[derive(Drop)]
pub enum CardKind {
    /// Its applications.
    App(Image),
    /// At most 300 answers of at most 258 bytes: the first command behind a power-up gets the first of
    /// them, whatever it is, and behind the last one the card is gone.
    Canned(Vec<Vec<u8>>),
}

impl CardKind {
    /// The applications of a card that has some.
    pub fn image(&self) -> Option<&Image>
        ensures { option_map (λ image. image.now) result ≡ image_there self.now }
    {
        match self {
            CardKind::App(image) => Some(image),
            CardKind::Canned(_) => None,
        }
    }

    /// The answers of a card of canned answers.
    pub fn canned(&self) -> Option<&[Vec<u8>]>
        ensures { option_map (λ answers. map (λ answer. answer.items) answers.now) result ≡ canned_of self.now }
    {
        match self {
            CardKind::App(_) => None,
            CardKind::Canned(answers) => Some(answers.as_slice()),
        }
    }
}

/// A card of a scenario.
#[derive(Drop)]
pub struct NamedCard {
    /// Its name, from 1 to 16 characters of a to z and 0 to 9.
    pub name: Vec<u8>,
    /// What it answers by.
    pub kind: CardKind,
}

/// An issuer with its accounts, cards, and lanes with their purchases. Contracts see lists in place of
/// the vectors.
#[derive(Drop)]
pub struct Scenario {
    /// The issuer's keys.
    pub issuer: HostKeys,
    /// At most 1,000 accounts, no two of one PAN.
    pub accounts: Vec<Account>,
    /// From 1 to 64 cards, no two of one name.
    pub cards: Vec<NamedCard>,
    /// From 1 to 16 lanes, with at most 10,000 purchases together.
    pub lanes: Vec<Lane>,
    /// At most 200,000 indices of lanes: whose exchange comes next.
    pub schedule: Vec<u8>,
    /// How often each settlement message is sent, from 1 to 3.
    pub copies: u8,
}

impl Model for Scenario {
    ghost use Rattle.scenario_plan.specs.Plan.{ScenarioData};
    ghost use Rattle.scenario_plan.specs.SeenCards.{seen_cards};

    ghost Value = { ScenarioData };

    ghost view = { λ s. record {
      issuer = s.issuer;
      accounts = s.accounts.items;
      cards = seen_cards s.cards.items;
      lanes = s.lanes.items;
      schedule = s.schedule.items;
      copies = s.copies;
    } };
}
