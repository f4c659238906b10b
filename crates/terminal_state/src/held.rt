//! The card's data in the place of a terminal.
ghost use Rattle.std.specs.Prelude.{◌≡◌, None, Some, option_map};
ghost use Rattle.object_lists.specs.CardRead.{card_of_objects};
ghost use Rattle.object_lists.specs.Forms.{HasForms};

use env_map::Env;
use object_lists::CardData;
use std::marker::Model;

/// The card's data, where reading is finished. Where they are let go their place stays as it is, since it has
/// 20 KB to clear.
#[derive(Drop)]
pub struct HeldCard {
    card: Option<CardData>,
    is_held: bool,
}

impl Model for HeldCard {
    ghost use Rattle.std.specs.Prelude.{Option, None, if◌then◌else◌};
    ghost use Rattle.object_lists.specs.CardRead.{ReadCard};

    ghost Value = { Option ReadCard };

    ghost view = { λ h. if h.is_held then h.card else None };
}

impl HeldCard {
    /// No data.
    pub fn none() -> HeldCard
        ensures { result ≡ None }
    {
        HeldCard {
            card: None,
            is_held: false,
        }
    }

    /// The data.
    pub fn get(&self) -> Option<&CardData>
        ensures { option_map (λ card. card.now) result ≡ self.now }
    {
        if self.is_held {
            self.card.as_ref()
        } else {
            None
        }
    }

    /// Keeps what these objects make.
    pub fn keep(&mut self, objects: &Env)
        requires { HasForms objects.now }
        ensures { self.new ≡ Some (card_of_objects objects.now) }
    {
        match &mut self.card {
            Some(card) => card.refill(objects),
            None => {
                let mut first = Env::new();
                first.copy_from(objects);
                self.card = Some(CardData::new(first));
            }
        }
        self.is_held = true;
    }

    /// Lets the data go.
    pub fn let_go(&mut self)
        ensures { self.new ≡ None }
    {
        self.is_held = false;
    }

    /// Gives the data.
    pub fn into_data(self) -> Option<CardData>
        ensures { result ≡ self }
    {
        if self.is_held { self.card } else { None }
    }
}
