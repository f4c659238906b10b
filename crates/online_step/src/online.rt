//! The request to the issuer's host (EMV 4.3 Book 3 section 10.9; the format is this project's own).
ghost use Rattle.std.specs.Prelude.{◌≡◌, ◌<◌, IfSome, length, option_map};
ghost use Rattle.auth_message.specs.Accepted.{AreDigitBytes};
ghost use Rattle.auth_message.specs.Whole.{IsMessage};
ghost use Rattle.emv_dict.specs.Digits.{HasPinLength};
ghost use Rattle.env_map.specs.Entries.{value_of};
ghost use Rattle.online_step.specs.Request.{enciphered_pin, request_of};
ghost use Rattle.online_step.specs.TerminalData.{HasTerminalData};

use crate::fields::{cryptogram, expiry, object, sequence_number};
use auth_message::{Message, RequestFields, write_request};
use ber_tlv::Tag;
use emv_dict::{Ac, Digits, Settings};
use env_map::Env;
use object_lists::CardData;
use pin_block::online_block;
use triple_des::Key16;

/// Writes the request (E1) for the first cryptogram, in place of what `out` held. The terminal's objects are
/// those that the cryptogram was asked with, the verification results (95) among them; a PIN that was entered
/// goes enciphered under the terminal's key.
#[tactic(auto, unfolding(crate::specs::Request::request_of))]
pub fn request(
    card: &CardData,
    terminal: &Env,
    settings: &Settings,
    ac: &Ac,
    pin: Option<&Digits>,
    out: &mut Message,
)
    requires terminal { HasTerminalData terminal.now }
    requires pin { IfSome pin (λ digits. HasPinLength digits.now) }
    ensures bytes { out.new.items ≡ request_of card.now terminal.now settings.now ac.now (option_map (λ digits. digits.now) pin.entry) }
    // The host reads it.
    ensures read { IsMessage out.new.items }
{
    let fields = RequestFields {
        t9f1c: object(terminal, 0x9f1c),
        pan: card.pan.copy(),
        t5f34: sequence_number(card),
        t5f24: expiry(card),
        t9f02: object(terminal, 0x9f02),
        t9f03: object(terminal, 0x9f03),
        t9f1a: object(terminal, 0x9f1a),
        t95: object(terminal, 0x95),
        t5f2a: object(terminal, 0x5f2a),
        t9a: object(terminal, 0x9a),
        t9c: object(terminal, 0x9c),
        t9f37: object(terminal, 0x9f37),
        t82: card.aip,
        t9f36: ac.counter.to_be_bytes(),
        t9f26: cryptogram(ac),
        t9f10: &ac.iad,
        tdf11: enciphered(settings, card, pin),
    };
    write_request(&fields, out);
}

/// The PIN block that goes to the issuer, where a PIN was entered.
fn enciphered(settings: &Settings, card: &CardData, pin: Option<&Digits>) -> Option<[u8; 8]>
    requires { IfSome pin (λ digits. HasPinLength digits.now) }
    ensures { result ≡ enciphered_pin settings.now card.now (option_map (λ digits. digits.now) pin.entry) }
{
    match pin {
        Some(digits) => Some(online_block(&Key16::new(settings.pin_key), digits, &card.pan)),
        None => None,
    }
}
