use emv_dict::Digits;
use std::marker::Model;

/// What one script command tells the card to do (EMV 4.3 Book 3 section 6.5).
#[derive(Drop, PartialEq, Eq, Debug)]
pub enum Word {
    /// APPLICATION BLOCK.
    Block,
    /// APPLICATION UNBLOCK.
    Unblock,
    /// CARD BLOCK.
    CardBlock,
    /// PIN CHANGE/UNBLOCK that sets the tries back to their limit.
    PinUnblock,
    /// PIN CHANGE/UNBLOCK with a new PIN of 4 to 12 digits.
    Pin(Digits),
    /// PUT DATA of the limit of consecutive offline transactions.
    Count(u8),
    /// PUT DATA of the limit of the offline amounts together, in the currency's least unit: at most
    /// 12 digits.
    Amount(u64),
}

/// One command of a script.
#[derive(Drop, PartialEq, Eq, Debug)]
pub struct Ordered {
    pub word: Word,
    /// Whether the last byte of its message authentication code is made wrong on purpose.
    pub bad: bool,
}

/// A script that the issuer sends once to an account's card (EMV 4.3 Book 3 section 10.10).
#[derive(Drop, Debug)]
pub struct Script {
    /// Whether it runs before the final GENERATE AC, template 71; else behind it, template 72.
    pub before: bool,
    /// The issuer script identifier, object 9F18.
    pub id: Option<[u8; 4]>,
    /// From 1 to 16 commands, in the order in which the card gets them.
    pub commands: Vec<Ordered>,
}

impl Model for Script {
    ghost use Rattle.script_words.specs.Script.{ScriptData};

    ghost Value = { ScriptData };

    ghost view = { λ s. record { before = s.before; id = s.id; commands = s.commands.items } };
}
