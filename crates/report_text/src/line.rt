use arrayvec::ArrayVec;
use ber_tlv::Tag;
use emv_dict::{Digits, Ending, Tsi, Tvr};

/// An application's counters as a power line shows them.
#[derive(Clone, Copy, PartialEq, Eq, Debug, Default)]
pub struct Shown {
    /// The application transaction counter.
    pub counter: u16,
    /// The last online application transaction counter.
    pub last_online: u16,
    /// How many payments were approved offline since the last one online.
    pub count: u8,
    /// The sum of their amounts, in the smallest unit of the currency.
    pub sum: u64,
    /// The PIN tries that are left.
    pub tries: u8,
    /// 1 where the application is blocked, plus 2 where issuer authentication failed.
    pub flags: u8,
    /// The sum of the amounts in a second currency, where the application has one.
    pub sum_two: Option<u64>,
}

/// How a payment ended, for its end line.
#[derive(Drop, Default)]
pub struct EndParts {
    pub ending: Ending,
    /// Terminal verification results.
    pub tvr: Tvr,
    /// Transaction status information.
    pub tsi: Tsi,
    /// Cardholder verification method results.
    pub cvm: [u8; 3],
    /// The authorisation response code, two characters, where it is set.
    pub arc: Option<[u8; 2]>,
    /// The counter and the cryptogram of the last answer to GENERATE AC that was read.
    pub atc_ac: Option<(u16, [u8; 8])>,
    /// The result of each issuer script.
    pub scripts: ArrayVec<[u8; 5], 8>,
}

/// A line of a report. Lanes and purchases are numbered, cards go by their names.
#[derive(Drop, Default)]
pub enum Line {
    /// A card is powered up; the counters of each of its applications.
    Power {
        lane: u8,
        card: ArrayVec<u8, 16>,
        apps: ArrayVec<Shown, 4>,
    },
    /// A card of canned answers is powered up.
    PowerCanned {
        lane: u8,
        card: ArrayVec<u8, 16>,
    },
    /// The card was gone as it was powered up.
    PowerTorn {
        lane: u8,
        card: ArrayVec<u8, 16>,
    },
    /// A command.
    ToCard {
        lane: u8,
        bytes: ArrayVec<u8, 261>,
    },
    /// A response.
    FromCard {
        lane: u8,
        bytes: ArrayVec<u8, 258>,
    },
    /// The power was cut in place of a response.
    Torn {
        lane: u8,
    },
    /// A card of canned answers had none left.
    Gone {
        lane: u8,
    },
    /// A message to the issuer's host.
    ToHost {
        lane: u8,
        bytes: ArrayVec<u8, 2048>,
    },
    /// The host's reply.
    FromHost {
        lane: u8,
        bytes: ArrayVec<u8, 2048>,
    },
    /// No reply came.
    NoReply {
        lane: u8,
    },
    /// The lane's purchase of this number, from 1, has ended.
    End {
        lane: u8,
        number: u32,
        parts: EndParts,
    },
    /// The lane's purchase of this number, from 1, was lost: the power of its terminal was cut before its
    /// outcome was stored.
    EndLost {
        lane: u8,
        number: u32,
    },
    /// A settlement message of a lane.
    SettleCall {
        lane: u8,
        bytes: ArrayVec<u8, 2048>,
    },
    /// The host's reply to it.
    SettleReply {
        lane: u8,
        bytes: ArrayVec<u8, 2048>,
    },
    /// A card is powered up for the audit.
    AuditPower {
        card: ArrayVec<u8, 16>,
        apps: ArrayVec<Shown, 4>,
    },
    /// A command of the audit.
    AuditAsk {
        card: ArrayVec<u8, 16>,
        bytes: ArrayVec<u8, 261>,
    },
    /// Its response.
    AuditAnswer {
        card: ArrayVec<u8, 16>,
        bytes: ArrayVec<u8, 258>,
    },
    /// An account's balance, in the smallest unit of its currency.
    Balance {
        pan: Digits,
        amount: i128,
    },
    /// How many purchases ended.
    Done {
        number: u32,
    },
    /// A data object that the card gave.
    Object {
        tag: Tag,
        value: ArrayVec<u8, 256>,
    },
    /// The card's data was read to its end.
    #[default]
    ReadOk,
    /// Reading ended before.
    ReadEnded {
        ending: Ending,
    },
}
