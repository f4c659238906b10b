//! What the lines of a lane leave for those behind them.
ghost use Rattle.std.specs.Prelude.{◌≡◌};
ghost use Rattle.narrator.specs.State as state;
ghost use Rattle.narrator.specs.Words as spec;
ghost use Rattle.report_lines.specs.Pieces.{Tells};

use crate::selection::Selection;
use crate::terminal::{Terminal, row_for};
use exchange_words::{LaneState, first_fields, tell_answer, tell_command};
use issuer_reasons::Reply;
use message_words::{Settled, code_in, settled_by, tell_call, tell_reply};
use purchase_reasons::Followed;
use report_lines::WordLines;
use std::mem;

/// What the lines of a lane left.
#[derive(Drop)]
pub struct LanePast {
    /// What commands and answers left since the lane's card was powered up.
    pub talk: LaneState,
    /// What SELECT asked for and was given since then.
    pub selection: Selection,
    /// What is followed of the purchase for its reasons.
    pub followed: Followed,
    /// The last message of the settlement.
    pub settled: Settled,
    /// The number of the last purchase that ended.
    pub last_end: u64,
}

impl LanePast {
    /// Before any line.
    pub fn new() -> LanePast
        ensures { result ≡ state.untold }
    {
        LanePast {
            talk: LaneState::new(),
            selection: Selection::new(),
            followed: Followed::new(),
            settled: Settled::Nothing,
            last_end: 0,
        }
    }

    /// Forgets what the last card gave and was sent, as the one of this name is powered up.
    pub fn begin(&mut self, card: &[u8])
        ensures { self.new ≡ state.lane_begun card.now self.old }
    {
        self.talk.begin();
        self.selection = Selection::new();
        self.followed.begin(card);
    }

    /// Keeps that a request was sent to the issuer.
    pub fn note_request(&mut self)
        ensures { self.new ≡ state.lane_requested self.old }
    {
        self.followed.note_request();
    }

    /// Keeps the issuer's reply to it.
    pub fn note_reply(&mut self, reply: Option<Reply>)
        ensures { self.new ≡ state.lane_with_reply reply self.old }
    {
        self.followed.note_reply(reply);
    }

    /// Keeps what the last command leaves that the card was pulled out in.
    pub fn note_torn(&mut self)
        ensures { self.new ≡ state.lane_torn self.old }
    {
        self.followed.note_torn(self.talk.command.as_slice());
    }

    /// Tells a command. `place` is the lane's place, by which the rows of its terminal are found.
    pub fn tell_sent(
        &mut self,
        terminals: &[Terminal],
        place: u8,
        bytes: &[u8],
        brief: bool,
        out: &mut WordLines,
    )
        ensures words { Tells out.old out.new (spec.sent_words brief terminals.now place bytes.now self.old) }
        ensures state { self.new ≡ state.lane_asked terminals.now place bytes.now self.old }
    {
        let row = row_for(terminals, place, &self.selection);
        self.selection.note_command(bytes);
        tell_command(out, &mut self.talk, bytes, row, brief);
        self.followed.note_question(&self.talk);
    }

    /// Tells an answer to the last command, which waits for none any longer.
    pub fn tell_given(&mut self, bytes: &[u8], brief: bool, out: &mut WordLines)
        ensures words { Tells out.old out.new (spec.given_words brief bytes.now self.old) }
        ensures state { self.new ≡ state.lane_answered bytes.now self.old }
    {
        let command = mem::take(&mut self.talk.command);
        tell_answer(out, &mut self.talk, command.as_slice(), bytes, brief);
        self.followed.note_question(&self.talk);
        self.followed.note_answer(command.as_slice(), bytes);
        self.selection.note_given(command.as_slice(), bytes);
    }

    /// Tells a message to the issuer.
    pub fn tell_to_host(&self, bytes: &[u8], brief: bool, out: &mut WordLines)
        ensures { Tells out.old out.new (spec.to_host_words brief bytes.now self.now) }
    {
        tell_call(out, first_fields(&self.talk), bytes, brief);
    }

    /// Tells a reply of the issuer, and keeps its response code.
    pub fn tell_from_host(&mut self, bytes: &[u8], brief: bool, out: &mut WordLines)
        ensures words { Tells out.old out.new (spec.from_host_words brief bytes.now) }
        ensures state { self.new ≡ state.lane_replied bytes.now self.old }
    {
        self.talk.code = code_in(bytes);
        tell_reply(out, Settled::Nothing, bytes, brief);
    }

    /// Tells a message of the settlement, and keeps which one it is.
    pub fn tell_settling(&mut self, bytes: &[u8], brief: bool, out: &mut WordLines)
        ensures words { Tells out.old out.new (spec.to_host_words brief bytes.now self.old) }
        ensures state { self.new ≡ state.settling bytes.now self.old }
    {
        self.settled = settled_by(bytes);
        self.tell_to_host(bytes, brief, out);
    }

    /// Tells a reply in the settlement.
    pub fn tell_settled(&self, bytes: &[u8], brief: bool, out: &mut WordLines)
        ensures { Tells out.old out.new (spec.settled_words brief bytes.now self.now) }
    {
        tell_reply(out, self.settled, bytes, brief);
    }
}
