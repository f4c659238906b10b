//! What is followed of a purchase: its card, its first question, and what the card took from the issuer.
ghost use Rattle.std.specs.Prelude.{◌≡◌};
ghost use Rattle.apdu_core.specs.Seen.{seen_command};
ghost use Rattle.exchange_words.specs.Learned.{found_deep};
ghost use Rattle.purchase_reasons.specs.Followed as spec;

use crate::limits::Limit;
use apdu_core::status::NO_ERROR;
use apdu_core::{Command, read_command, read_response};
use arrayvec::ArrayVec;
use ber_tlv::{Tag, sole_value};
use emv_dict::{Kind, amount_of};
use exchange_words::{LaneState, find_deep, keep};
use issuer_reasons::Reply;
use value_words::Reason;

/// How a card stands to its issuer since it was powered up.
#[derive(Clone, Copy, PartialEq, Eq, Debug)]
pub struct Standing {
    /// The card was blocked.
    pub card_blocked: bool,
    /// The application was blocked, and not unblocked since.
    pub blocked: bool,
    /// Whether EXTERNAL AUTHENTICATE found the response cryptogram right, where it was sent.
    pub authenticated: Option<bool>,
}

/// What is followed of a purchase.
#[derive(Drop)]
pub struct Followed {
    /// The card's name in the report.
    pub card: ArrayVec<u8, 16>,
    /// The kind that was asked for first, why, and the kind that was answered.
    pub asked: Option<Kind>,
    pub reason: Option<Reason>,
    pub answered: Option<Kind>,
    pub standing: Standing,
    /// The limits that scripts set.
    pub count: Limit,
    pub sum: Limit,
    /// The account number that the card's records gave (5A).
    pub pan: ArrayVec<u8, 10>,
    /// Whether a request was sent to the issuer, and its reply.
    pub requested: bool,
    pub reply: Option<Reply>,
}

/// Nothing was blocked, and the issuer wasn't authenticated.
const UNTOUCHED: Standing = Standing {
    card_blocked: false,
    blocked: false,
    authenticated: None,
};

impl Followed {
    /// Before any line.
    pub fn new() -> Followed
        ensures { result ≡ spec.nothing_followed }
    {
        Followed {
            card: ArrayVec::new(),
            asked: None,
            reason: None,
            answered: None,
            standing: UNTOUCHED,
            count: Limit::AsMade,
            sum: Limit::AsMade,
            pan: ArrayVec::new(),
            requested: false,
            reply: None,
        }
    }

    /// A card of this name is powered up.
    pub fn begin(&mut self, card: &[u8])
        ensures { self.new ≡ spec.followed_from card.now }
    {
        keep(&mut self.card, card);
        self.asked = None;
        self.reason = None;
        self.answered = None;
        self.standing = UNTOUCHED;
        self.count = Limit::AsMade;
        self.sum = Limit::AsMade;
        self.pan.clear();
        self.requested = false;
        self.reply = None;
    }

    /// Keeps the first question, up to the second one.
    pub fn note_question(&mut self, talk: &LaneState)
        ensures { self.new ≡ spec.with_first_question talk.now self.old }
    {
        if !talk.second {
            self.asked = talk.asked;
            self.reason = talk.reason;
            self.answered = talk.answered;
        }
    }

    /// Keeps what the second byte of a card status update steers: it may block the application and the card.
    fn note_steered(&mut self, byte: u8)
        ensures { self.new ≡ spec.with_steered byte self.old }
    {
        if byte / 64 % 2 == 1 {
            self.standing.blocked = true;
        }
        if byte / 32 % 2 == 1 {
            self.standing.card_blocked = true;
        }
    }

    /// Keeps the card status update that stands behind a response cryptogram of method 2.
    fn note_update(&mut self, body: &[u8])
        ensures { self.new ≡ spec.with_update body.now self.old }
    {
        if body.len() != 10 {
            if let [_, _, _, _, _, steers, ..] = body {
                self.note_steered(*steers);
            }
        }
    }

    /// Keeps that EXTERNAL AUTHENTICATE was answered.
    fn note_authentication(&mut self, body: &[u8], is_right: bool)
        ensures { self.new ≡ spec.with_authentication body.now is_right self.old }
    {
        self.standing.authenticated = Some(is_right);
        if is_right {
            self.note_update(body);
        }
    }

    /// Keeps the limit of the number that a script set.
    fn note_count(&mut self, body: &[u8])
        ensures { self.new ≡ spec.with_count_set body.now self.old }
    {
        if let [limit, ..] = body {
            self.count = Limit::Set(u64::from(*limit));
        }
    }

    /// Keeps the limit of the sum that a script set.
    fn note_sum(&mut self, body: &[u8])
        ensures { self.new ≡ spec.with_sum_set body.now self.old }
    {
        if let [a, b, c, d, e, f, ..] = body {
            self.sum = Limit::Set(amount_of([*a, *b, *c, *d, *e, *f]));
        }
    }

    /// Keeps the limit that PUT DATA set.
    fn note_data(&mut self, name: u8, body: &[u8])
        ensures { self.new ≡ spec.with_data_set name body.now self.old }
    {
        match name {
            1 => self.note_count(body),
            2 => self.note_sum(body),
            _ => {}
        }
    }

    /// Keeps what a script command of the class 84 left.
    fn note_blocking(&mut self, instruction: u8)
        ensures { self.new ≡ spec.with_blocking instruction self.old }
    {
        match instruction {
            0x16 => self.standing.card_blocked = true,
            0x18 => self.standing.blocked = false,
            0x1e => self.standing.blocked = true,
            _ => {}
        }
    }

    /// Keeps what a script command left that was carried out.
    fn note_script(&mut self, command: &Command<'_>)
        ensures { self.new ≡ spec.with_script (seen_command command.now) self.old }
    {
        match command.class {
            0x84 => self.note_blocking(command.ins),
            0x04 => {
                if command.ins == 0xda && command.p1 == 0xdf {
                    self.note_data(command.p2, command.body);
                }
            }
            _ => {}
        }
    }

    /// Keeps the account number of a record, where it has one.
    fn note_objects(&mut self, objects: &[u8])
        ensures { self.new ≡ spec.with_number (found_deep 8 0x5a objects.now) self.old }
    {
        if let Some(number) = find_deep(objects, Tag(0x5a), 8) {
            keep(&mut self.pan, number);
        }
    }

    /// Keeps the account number of the answer to READ RECORD, where it has one.
    fn note_record(&mut self, body: &[u8])
        ensures { self.new ≡ spec.with_record_of body.now self.old }
    {
        if let Some(objects) = sole_value(body, Tag(0x70)) {
            self.note_objects(objects);
        }
    }

    /// A request was sent to the issuer.
    pub fn note_request(&mut self)
        ensures { self.new ≡ spec.with_request self.old }
    {
        self.requested = true;
    }

    /// Keeps the issuer's reply.
    pub fn note_reply(&mut self, reply: Option<Reply>)
        ensures { self.new ≡ spec.with_reply reply self.old }
    {
        self.reply = reply;
    }

    /// Keeps what a command left that was answered by a status.
    fn note_status(&mut self, command: &Command<'_>, is_good: bool)
        ensures { self.new ≡ spec.with_status (seen_command command.now) is_good self.old }
    {
        if command.class == 0 && command.ins == 0x82 {
            self.note_authentication(command.body, is_good);
        } else if is_good {
            self.note_script(command);
        }
    }

    /// Keeps what a command and its answer left.
    pub fn note_answer(&mut self, command: &[u8], answer: &[u8])
        ensures { self.new ≡ spec.with_answer command.now answer.now self.old }
    {
        if let Ok(response) = read_response(answer) {
            if let Ok(read) = read_command(command) {
                if read.class == 0 && read.ins == 0xb2 {
                    self.note_record(response.body);
                } else {
                    self.note_status(&read, response.status == NO_ERROR);
                }
            }
        }
    }

    /// Keeps that the card was pulled out before it had answered: whether a limit was set isn't known.
    fn note_unanswered(&mut self, name: u8)
        ensures { self.new ≡ spec.with_data_unsure name self.old }
    {
        match name {
            1 => self.count = Limit::Unsure,
            2 => self.sum = Limit::Unsure,
            _ => {}
        }
    }

    /// Keeps what a command left that the card was pulled out in.
    pub fn note_torn(&mut self, command: &[u8])
        ensures { self.new ≡ spec.with_torn command.now self.old }
    {
        if let [0x04, 0xda, 0xdf, name, ..] = command {
            self.note_unanswered(*name);
        }
    }
}
