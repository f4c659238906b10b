ghost use Rattle.std.specs.Prelude.{◌≡◌, ◌↔◌, Some, IsSome, IfSome, option_and_then, option_map};
ghost use Rattle.std.specs.Result.{result_ok};
ghost use Rattle.emv_dict.specs.Pan.{pan_of};
ghost use Rattle.env_map.specs.Entries.{value_of};
ghost use Rattle.object_lists.specs.CardRead.{IsRead, card_of_objects};
ghost use Rattle.object_lists.specs.Forms.{HasForms};

use crate::checked::{has_options, objects_fault};
use ber_tlv::Tag;
use emv_dict::{Digits, pan_digits};
use env_map::Env;
use std::marker::Model;

/// What a terminal has of a card once its records are read (EMV 4.3 Book 3 section 10.2): its data
/// objects, the application interchange profile and the digits of the primary account number. Each
/// value of the type is one that a finished reading gives: the mandatory objects are there, and those
/// that are checked have their forms.
#[derive(Drop)]
pub struct CardData {
    pub env: Env,
    pub aip: [u8; 2],
    pub pan: Digits,
}

impl Model for CardData {
    ghost use Rattle.object_lists.specs.CardRead.{ReadCard, IsRead};

    ghost Value = { ReadCard };

    ghost view = { λ card. record { entries = card.env; aip = card.aip; pan = card.pan } };

    ghost invariant = { λ card. IsRead (record { entries = card.env; aip = card.aip; pan = card.pan }) };
}

impl CardData {
    /// What these objects make, where they are those of a finished reading.
    pub fn checked(env: Env) -> Option<CardData>
        ensures card { IfSome result (λ card. card ≡ card_of_objects env) }
        ensures read { IsSome result ↔ HasForms env }
    {
        if !has_options(&env) {
            return None;
        }
        match objects_fault(&env) {
            None => Some(CardData::new(env)),
            Some(_) => None,
        }
    }

    /// What these objects make.
    pub fn new(env: Env) -> CardData
        requires { HasForms env }
        ensures card { result ≡ card_of_objects env }
        ensures read { IsRead result }
    {
        let (aip, pan) = named_data(&env);
        CardData { env, aip, pan }
    }

    /// Makes of these data what the objects make, in their place.
    pub fn refill(&mut self, objects: &Env)
        requires { HasForms objects.now }
        ensures { self.new ≡ card_of_objects objects.now }
    {
        let (aip, pan) = named_data(objects);
        self.aip = aip;
        self.pan = pan;
        self.env.copy_from(objects);
    }

    /// The objects.
    pub fn env(&self) -> &Env
        ensures entries { result.now ≡ self.now.entries }
        ensures read { IsRead self.now }
    {
        &self.env
    }

    /// The value of an object.
    pub fn value(&self, tag: Tag) -> Option<&[u8]>
        ensures value { option_map (λ value. value.now) result ≡ value_of tag.0 self.now.entries }
        ensures read { IsRead self.now }
    {
        self.env.get(tag)
    }
}

/// The profile and the digits of the account number that are in these objects.
fn named_data(objects: &Env) -> ([u8; 2], Digits)
    requires { HasForms objects.now }
    ensures profile { value_of 0x82 objects.now ≡ Some result.0 }
    ensures digits { option_and_then (λ field. result_ok (pan_of field)) (value_of 0x5A objects.now) ≡ Some result.1 }
{
    let Some([high, low]) = objects.get(Tag(0x82)) else {
        unreachable!();
    };
    let aip = [*high, *low];
    let Some(field) = objects.get(Tag(0x5a)) else {
        unreachable!();
    };
    let Ok(pan) = pan_digits(field) else {
        unreachable!();
    };
    (aip, pan)
}
