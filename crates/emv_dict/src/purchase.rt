use crate::digits::Digits;
use crate::name::Name;
use std::marker::Model;

/// What a terminal keeps for one application that it supports.
#[derive(Drop, PartialEq, Eq, Debug)]
pub struct AidRow {
    /// The application identifier (EMV 4.3 Book 1 section 12.2.1).
    pub name: Name,
    /// Whether a card's longer name that begins with this one is supported too.
    pub partial: bool,
    /// The application version number, object 9F09.
    pub version: [u8; 2],
    /// The terminal action code for denial, with the bits of the terminal verification results.
    pub denial: [u8; 5],
    /// The terminal action code for going online.
    pub online: [u8; 5],
    /// The default terminal action code, for a terminal that can't go online.
    pub fallback: [u8; 5],
    /// The floor limit, in the currency's least unit.
    pub floor: u64,
    /// The threshold for biased random selection, in the currency's least unit.
    pub threshold: u64,
    /// The target percentage of random selection.
    pub target: u8,
    /// The greatest percentage of biased random selection.
    pub max_target: u8,
}

/// A terminal's settings. Contracts see them with lists in place of vectors.
#[derive(Drop, Debug)]
pub struct Settings {
    /// The terminal type as a decimal number, 21 to 26; the object 9F35 holds its two digits in one
    /// byte (EMV 4.3 Book 4 Annex A1).
    pub kind: u8,
    /// The terminal country code, object 9F1A.
    pub country: [u8; 2],
    /// The terminal capabilities, object 9F33 (EMV 4.3 Book 4 Annex A2).
    pub caps: [u8; 3],
    /// The terminal identification, object 9F1C: letters and digits.
    pub id: [u8; 8],
    /// The key under which a PIN goes to the issuer.
    pub pin_key: [u8; 16],
    /// The account numbers of the terminal exception file.
    pub exceptions: Vec<Digits>,
    /// The applications that the terminal supports, the preferred one first.
    pub aids: Vec<AidRow>,
    /// Whether the terminal begins with the payment system directory (EMV 4.3 Book 1 section 12.3.2).
    pub pse: bool,
}

impl Model for Settings {
    ghost use Rattle.emv_dict.specs.Views.{SettingsData};

    ghost Value = { SettingsData };

    ghost view = { λ s. record {
      kind = s.kind;
      country = s.country;
      caps = s.caps;
      id = s.id;
      pin_key = s.pin_key;
      exceptions = s.exceptions.items;
      aids = s.aids.items;
      pse = s.pse;
    } };
}

/// One purchase as the terminal is asked for it. Contracts see it with a list in place of the vector.
#[derive(Drop, Debug)]
pub struct Purchase {
    /// The amount authorised, in the currency's least unit: at most 12 digits.
    pub amount: u64,
    /// The part of it that is paid out as cash.
    pub other: u64,
    /// The transaction currency code, object 5F2A.
    pub currency: [u8; 2],
    /// The transaction type, object 9C: 00 a purchase, 01 cash, 09 a purchase with cashback.
    pub trade: u8,
    /// Whether services are bought; else goods.
    pub services: bool,
    /// The transaction date, object 9A: year, month and day, two digits a byte.
    pub date: [u8; 3],
    /// The transaction time, object 9F21: hours, minutes and seconds, two digits a byte.
    pub time: [u8; 3],
    /// The unpredictable number, object 9F37.
    pub number: [u8; 4],
    /// The random word for random transaction selection.
    pub word: u32,
    /// The PINs that the cardholder enters, in the order of the tries.
    pub pins: Vec<Digits>,
    /// Whether the merchant forces the transaction online.
    pub forced: bool,
    /// Whether the cardholder can confirm an application.
    pub confirm: bool,
}

impl Model for Purchase {
    ghost use Rattle.emv_dict.specs.Views.{PurchaseData};

    ghost Value = { PurchaseData };

    ghost view = { λ p. record {
      amount = p.amount;
      other = p.other;
      currency = p.currency;
      trade = p.trade;
      services = p.services;
      date = p.date;
      time = p.time;
      number = p.number;
      word = p.word;
      pins = p.pins.items;
      forced = p.forced;
      confirm = p.confirm;
    } };
}

/// An earlier purchase in the terminal's log.
#[derive(Drop, PartialEq, Eq, Debug)]
pub struct Logged {
    /// The application primary account number.
    pub pan: Digits,
    /// The amount authorised, in the currency's least unit.
    pub amount: u64,
}
