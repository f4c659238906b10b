//! What the lines of a report leave for those behind them.
ghost use Rattle.std.specs.Prelude.{◌≡◌, ◌<◌, [], replicate, slice_get, OnOk, IfOk, option_map};
ghost use Rattle.message_words.specs.Cards.{power_words};
ghost use Rattle.narrator.specs.State as state;
ghost use Rattle.narrator.specs.State.{past_state};
ghost use Rattle.narrator.specs.Words as spec;
ghost use Rattle.purchase_reasons.specs.Kept.{cards_data};
ghost use Rattle.report_lines.specs.Bytes.{bytes_told};
ghost use Rattle.report_lines.specs.Reading.{seen_ending, seen_fields, seen_line, seen_what, seen_whose};
ghost use Rattle.report_lines.specs.Pieces.{Tells};

use crate::alone::tell_alone;
use crate::report::tell_of_report;
use crate::{Basis, LanePast};
use ending_words::tell_end;
use exchange_words::tell_torn;
use issuer_reasons::{Charge, KnownAccounts, Reply, reply_of};
use message_words::{CardSeen, tell_power};
use purchase_reasons::kept::Cards;
use purchase_reasons::{ChangedLimits, charge_reply, keep_limits, tell_cards_left, tell_reasons};
use report_lines::{EndFields, Ending, ReportLine, What, Whose, WordLines, bytes_of};
use std::alloc::{AllocError, Global};

/// The place where the audit's card is kept, behind the lanes.
const AUDIT: u8 = 16;

/// What the lines of a report left.
#[derive(Drop)]
pub struct ReportPast {
    /// Of 16 lanes, and of the audit's card behind them.
    pub lanes: Vec<LanePast>,
    /// The cards whose counters were seen.
    pub cards: Vec<CardSeen>,
    /// The limits that scripts have set.
    pub changed: Vec<ChangedLimits>,
    /// What approved requests took from accounts.
    pub charges: Vec<Charge>,
    /// Whether more may have been taken than was seen.
    pub is_unsure: bool,
}

/// The lanes before the first line, and the audit's card behind them.
fn fresh_lanes(alloc: Global) -> Result<Vec<LanePast>, AllocError>
    ensures { IfOk result (λ lanes. lanes.items ≡ replicate 17 state.untold) }
{
    let mut lanes = Vec::with_capacity(alloc, 17)?;
    for place in 0..17u8 {
        lanes.push(LanePast::new())?;
    }
    Ok(lanes)
}

impl ReportPast {
    /// Before the first line.
    pub(crate) fn new(alloc: Global) -> Result<ReportPast, AllocError>
        ensures { IfOk result (λ past. past_state past ≡ state.start) }
    {
        let lanes = fresh_lanes(alloc)?;
        Ok(ReportPast {
            lanes,
            cards: Vec::new(alloc),
            changed: Vec::new(alloc),
            charges: Vec::new(alloc),
            is_unsure: false,
        })
    }

    /// The number of the last purchase of a line's lane that ended before it; 0 where none has.
    pub(crate) fn last_end(&self, whose: &Whose<'_>) -> u64
        ensures { result ≡ spec.last_end (past_state self.now) (seen_whose whose.now) }
    {
        match whose {
            Whose::Lane(lane) => match self.lanes.get(usize::from(*lane)) {
                Some(past) => past.last_end,
                None => 0,
            },
            _ => 0,
        }
    }

    /// Tells a command.
    fn tell_sent(&mut self, basis: &Basis, place: u8, bytes: &[u8], out: &mut WordLines)
        ensures words { Tells out.old out.new (spec.at_past (spec.sent_words basis.now.filter.brief basis.now.terminals.items place bytes.now) (slice_get self.old.lanes.items place)) }
        ensures state { past_state self.new ≡ state.state_changed (state.lane_asked basis.now.terminals.items place bytes.now) (past_state self.old) place }
    {
        let brief = basis.filter.brief;
        match self.lanes.get_mut(usize::from(place)) {
            Some(past) => past.tell_sent(&basis.terminals, place, bytes, brief, out),
            None => {}
        }
    }

    /// Tells an answer.
    fn tell_given(&mut self, place: u8, bytes: &[u8], brief: bool, out: &mut WordLines)
        ensures words { Tells out.old out.new (spec.at_past (spec.given_words brief bytes.now) (slice_get self.old.lanes.items place)) }
        ensures state { past_state self.new ≡ state.state_changed (state.lane_answered bytes.now) (past_state self.old) place }
    {
        match self.lanes.get_mut(usize::from(place)) {
            Some(past) => past.tell_given(bytes, brief, out),
            None => {}
        }
    }

    /// Tells a reply of the issuer.
    fn tell_from_host(&mut self, place: u8, bytes: &[u8], brief: bool, out: &mut WordLines)
        ensures words { Tells out.old out.new (spec.at_past (λ _. spec.from_host_words brief bytes.now) (slice_get self.old.lanes.items place)) }
        ensures state { past_state self.new ≡ state.state_changed (state.lane_replied bytes.now) (past_state self.old) place }
    {
        match self.lanes.get_mut(usize::from(place)) {
            Some(past) => past.tell_from_host(bytes, brief, out),
            None => {}
        }
    }

    /// Keeps that a request was sent to the issuer.
    fn keep_request(&mut self, place: u8)
        ensures state { past_state self.new ≡ state.state_changed state.lane_requested (past_state self.old) place }
    {
        match self.lanes.get_mut(usize::from(place)) {
            Some(past) => past.note_request(),
            None => {}
        }
    }

    /// The issuer's reply, and what was known of the account before it.
    fn reply_at(&self, basis: &Basis, place: u8, bytes: &[u8]) -> Option<Reply>
        ensures { result ≡ state.reply_of_lane (state.manner_from basis.now) (past_state self.now) bytes.now (slice_get self.now.lanes.items place) }
    {
        let known = KnownAccounts {
            accounts: basis.accounts.as_slice(),
            charges: self.charges.as_slice(),
            is_unsure: self.is_unsure,
        };
        match self.lanes.get(usize::from(place)) {
            Some(past) => reply_of(&known, past.followed.pan.as_slice(), past.talk.code, bytes),
            None => None,
        }
    }

    /// Keeps the issuer's reply.
    fn keep_reply(&mut self, place: u8, reply: Option<Reply>)
        ensures state { past_state self.new ≡ state.state_changed (state.lane_with_reply reply) (past_state self.old) place }
    {
        match self.lanes.get_mut(usize::from(place)) {
            Some(past) => past.note_reply(reply),
            None => {}
        }
    }

    /// Takes what a lane's reply approved from its account.
    fn charge_at(&mut self, place: u8) -> Result<(), AllocError>
        ensures state { OnOk result (past_state self.new ≡ state.with_charges (past_state self.old) place) }
    {
        match self.lanes.get(usize::from(place)) {
            Some(past) => charge_reply(&mut self.charges, &past.followed, &past.talk),
            None => Ok(()),
        }
    }

    /// Keeps the issuer's reply, and takes what it approved.
    fn reply(&mut self, basis: &Basis, place: u8, bytes: &[u8]) -> Result<(), AllocError>
        ensures state { OnOk result (past_state self.new ≡ state.state_replied (state.manner_from basis.now) bytes.now (past_state self.old) place) }
    {
        let reply = self.reply_at(basis, place, bytes);
        self.keep_reply(place, reply);
        self.charge_at(place)
    }

    /// Tells a message to the issuer.
    fn tell_to_host(&self, place: u8, bytes: &[u8], brief: bool, out: &mut WordLines)
        ensures { Tells out.old out.new (spec.at_past (spec.to_host_words brief bytes.now) (slice_get self.now.lanes.items place)) }
    {
        if let Some(past) = self.lanes.get(usize::from(place)) {
            past.tell_to_host(bytes, brief, out);
        }
    }

    /// Tells a command, an answer, or a message of a lane or of the audit.
    fn tell_bytes(
        &mut self,
        basis: &Basis,
        place: u8,
        what: &What<'_>,
        bytes: &[u8],
        out: &mut WordLines,
    ) -> Result<(), AllocError>
        ensures words { OnOk result (Tells out.old out.new (spec.bytes_words (state.manner_from basis.now) (past_state self.old) place (seen_what what.now) bytes.now)) }
        ensures state { OnOk result (past_state self.new ≡ state.left_of_bytes (state.manner_from basis.now) (seen_what what.now) bytes.now (past_state self.old) place) }
    {
        match what {
            What::Sent(_) => self.tell_sent(basis, place, bytes, out),
            What::Given(_) => self.tell_given(place, bytes, basis.filter.brief, out),
            What::ToHost(_) => {
                self.tell_to_host(place, bytes, basis.filter.brief, out);
                self.keep_request(place);
            }
            What::FromHost(_) => {
                self.tell_from_host(place, bytes, basis.filter.brief, out);
                return self.reply(basis, place, bytes);
            }
            _ => {}
        }
        Ok(())
    }

    /// Tells a command, an answer or a message of a lane or of the audit, which stands in hexadecimal.
    fn tell_exchange(
        &mut self,
        basis: &Basis,
        place: u8,
        what: &What<'_>,
        text: &[u8],
        out: &mut WordLines,
    ) -> Result<(), AllocError>
        ensures words { OnOk result (Tells out.old out.new (spec.talk_words (state.manner_from basis.now) (past_state self.old) place (seen_what what.now) (bytes_told text.now))) }
        ensures state { OnOk result (past_state self.new ≡ state.left_of_exchange (state.manner_from basis.now) (seen_what what.now) (bytes_told text.now) (past_state self.old) place) }
    {
        match bytes_of(basis.alloc, text)? {
            Some(bytes) => self.tell_bytes(basis, place, what, bytes.as_slice(), out),
            None => Ok(()),
        }
    }

    /// Tells that the power was cut, from what the lane's lines before it left.
    fn tell_torn_at(&self, place: u8, out: &mut WordLines)
        ensures { Tells out.old out.new (spec.torn_at (slice_get self.now.lanes.items place)) }
    {
        if let Some(past) = self.lanes.get(usize::from(place)) {
            tell_torn(out, past.talk.command.as_slice());
        }
    }

    /// Tells that a purchase ended, from what the lane's lines before it left.
    fn tell_end_at(
        &self,
        place: u8,
        ending: &Ending<'_>,
        fields: &EndFields<'_>,
        brief: bool,
        out: &mut WordLines,
    )
        ensures { Tells out.old out.new (spec.lane_end_words (slice_get self.now.lanes.items place) (seen_ending ending.now) (seen_fields fields.now) brief) }
    {
        if let Some(past) = self.lanes.get(usize::from(place)) {
            tell_end(out, &past.talk, ending, fields, brief);
        }
    }

    /// What is known of the cards: beside the report, and by its lines.
    fn cards_known<'a>(&'a self, basis: &'a Basis) -> Cards<'a>
        ensures { cards_data result ≡ spec.cards_known (state.manner_from basis.now) (past_state self.now) }
    {
        Cards {
            apps: basis.card_apps.as_slice(),
            changed: self.changed.as_slice(),
            seen: self.cards.as_slice(),
        }
    }

    /// What the lines of a lane left.
    fn past_at(&self, place: u8) -> Option<&LanePast>
        ensures { option_map (λ past. past.now) result ≡ slice_get self.now.lanes.items place }
    {
        self.lanes.get(usize::from(place))
    }

    /// Tells why a lane's purchase came out as it did.
    fn tell_reasons_at(&self, basis: &Basis, place: u8, out: &mut WordLines)
        ensures { Tells out.old out.new (spec.reasons_at (state.manner_from basis.now) (past_state self.now) (slice_get self.now.lanes.items place)) }
    {
        if let Some(past) = self.past_at(place) {
            tell_reasons(out, &past.followed, &past.talk, &self.cards_known(basis));
        }
    }

    /// Tells why a purchase came out as it did, where that is asked for.
    fn tell_why_at(&self, basis: &Basis, place: u8, out: &mut WordLines)
        ensures { Tells out.old out.new (spec.why_at (state.manner_from basis.now) (past_state self.now) (slice_get self.now.lanes.items place)) }
    {
        if basis.filter.why {
            self.tell_reasons_at(basis, place, out);
        }
    }

    /// Keeps the limits that the scripts of a lane's purchase have set.
    fn keep_limits_of(&mut self, place: u8) -> Result<(), AllocError>
        ensures state { OnOk result (past_state self.new ≡ state.with_limits_kept (past_state self.old) place) }
    {
        match self.lanes.get(usize::from(place)) {
            Some(past) => keep_limits(&mut self.changed, &past.followed, &past.talk),
            None => Ok(()),
        }
    }

    /// Keeps what the last command leaves that the card was pulled out in.
    fn keep_torn(&mut self, place: u8)
        ensures state { past_state self.new ≡ state.state_changed state.lane_torn (past_state self.old) place }
    {
        match self.lanes.get_mut(usize::from(place)) {
            Some(past) => past.note_torn(),
            None => {}
        }
    }

    /// Keeps the number of the purchase that ended.
    fn keep_end(&mut self, place: u8, number: u64)
        ensures state { past_state self.new ≡ state.state_changed (state.lane_ended_purchase number) (past_state self.old) place }
    {
        match self.lanes.get_mut(usize::from(place)) {
            Some(past) => past.last_end = number,
            None => {}
        }
    }

    /// Keeps the number of the purchase that ended, and the limits that its scripts have set.
    fn keep_ended(&mut self, place: u8, number: u64) -> Result<(), AllocError>
        ensures state { OnOk result (past_state self.new ≡ state.state_ended number (past_state self.old) place) }
    {
        self.keep_end(place, number);
        self.keep_limits_of(place)
    }

    /// Forgets what the lane's last card gave.
    fn begin(&mut self, place: u8, card: &[u8])
        ensures state { past_state self.new ≡ state.state_changed (state.lane_begun card.now) (past_state self.old) place }
    {
        match self.lanes.get_mut(usize::from(place)) {
            Some(past) => past.begin(card),
            None => {}
        }
    }

    /// Keeps what a line that tells enough by itself leaves: a card that is powered up leaves nothing of the
    /// last one, and a lost purchase its number and its limits.
    fn keep(&mut self, place: u8, what: &What<'_>) -> Result<(), AllocError>
        ensures state { OnOk result (past_state self.new ≡ state.kept_alone (seen_what what.now) (past_state self.old) place) }
    {
        match what {
            What::PowerTorn(card) | What::PowerCanned(card) => self.begin(place, card),
            What::Lost(number) => return self.keep_ended(place, *number),
            What::NoReply => self.is_unsure = true,
            _ => {}
        }
        Ok(())
    }

    /// Tells the counters of a card that is powered up, and keeps them.
    fn power(
        &mut self,
        place: u8,
        card: &[u8],
        apps: &[u8],
        out: &mut WordLines,
    ) -> Result<(), AllocError>
        ensures words { OnOk result (Tells out.old out.new (power_words self.old.cards.items card.now apps.now)) }
        ensures state { OnOk result (past_state self.new ≡ state.state_powered card.now apps.now (past_state self.old) place) }
    {
        self.begin(place, card);
        tell_power(out, &mut self.cards, card, apps)
    }

    /// Tells a line of a lane or of the audit.
    fn tell_at(
        &mut self,
        basis: &Basis,
        place: u8,
        what: &What<'_>,
        out: &mut WordLines,
    ) -> Result<(), AllocError>
        ensures words { OnOk result (Tells out.old out.new (spec.at_lane (state.manner_from basis.now) (past_state self.old) place (seen_what what.now))) }
        ensures state { OnOk result (past_state self.new ≡ state.lane_left_by (state.manner_from basis.now) (seen_what what.now) (past_state self.old) place) }
    {
        match what {
            What::Power { card, apps } => self.power(place, card, apps, out),
            What::Sent(text) => self.tell_exchange(basis, place, what, text, out),
            What::Given(text) => self.tell_exchange(basis, place, what, text, out),
            What::ToHost(text) => self.tell_exchange(basis, place, what, text, out),
            What::FromHost(text) => self.tell_exchange(basis, place, what, text, out),
            What::Torn => {
                self.tell_torn_at(place, out);
                self.keep_torn(place);
                Ok(())
            }
            What::End {
                number,
                ending,
                fields,
            } => {
                self.tell_end_at(place, ending, fields, basis.filter.brief, out);
                self.tell_why_at(basis, place, out);
                self.keep_ended(place, *number)
            }
            other => {
                tell_alone(out, other);
                self.keep(place, other)
            }
        }
    }

    /// Tells a message of the settlement.
    fn settle(&mut self, place: u8, bytes: &[u8], brief: bool, out: &mut WordLines)
        ensures words { Tells out.old out.new (spec.at_past (spec.to_host_words brief bytes.now) (slice_get self.old.lanes.items place)) }
        ensures state { past_state self.new ≡ state.state_changed (state.settling bytes.now) (past_state self.old) place }
    {
        match self.lanes.get_mut(usize::from(place)) {
            Some(past) => past.tell_settling(bytes, brief, out),
            None => {}
        }
    }

    /// Tells a reply in the settlement.
    fn tell_settled(&self, place: u8, bytes: &[u8], brief: bool, out: &mut WordLines)
        ensures { Tells out.old out.new (spec.at_past (spec.settled_words brief bytes.now) (slice_get self.now.lanes.items place)) }
    {
        if let Some(past) = self.lanes.get(usize::from(place)) {
            past.tell_settled(bytes, brief, out);
        }
    }

    /// Tells a message of the settlement, which stands in hexadecimal.
    fn settle_text(
        &mut self,
        basis: &Basis,
        place: u8,
        text: &[u8],
        out: &mut WordLines,
    ) -> Result<(), AllocError>
        ensures words { OnOk result (Tells out.old out.new (spec.settling_words basis.now.filter.brief (slice_get self.old.lanes.items place) (bytes_told text.now))) }
        ensures state { OnOk result (past_state self.new ≡ state.left_by_settling (bytes_told text.now) (past_state self.old) place) }
    {
        match bytes_of(basis.alloc, text)? {
            Some(bytes) => {
                self.settle(place, bytes.as_slice(), basis.filter.brief, out);
                self.is_unsure = true;
            }
            None => {}
        }
        Ok(())
    }

    /// Tells a reply in the settlement, which stands in hexadecimal.
    fn tell_settled_text(
        &self,
        basis: &Basis,
        place: u8,
        text: &[u8],
        out: &mut WordLines,
    ) -> Result<(), AllocError>
        ensures { OnOk result (Tells out.old out.new (spec.reply_told basis.now.filter.brief (slice_get self.now.lanes.items place) (bytes_told text.now))) }
    {
        match bytes_of(basis.alloc, text)? {
            Some(bytes) => self.tell_settled(place, bytes.as_slice(), basis.filter.brief, out),
            None => {}
        }
        Ok(())
    }

    /// Tells a line of the settlement.
    fn tell_settlement(
        &mut self,
        basis: &Basis,
        place: u8,
        what: &What<'_>,
        out: &mut WordLines,
    ) -> Result<(), AllocError>
        ensures words { OnOk result (Tells out.old out.new (spec.of_settlement basis.now.filter.brief (past_state self.old) place (seen_what what.now))) }
        ensures state { OnOk result (past_state self.new ≡ state.left_by_settlement (seen_what what.now) (past_state self.old) place) }
    {
        match what {
            What::Sent(text) => self.settle_text(basis, place, text, out),
            What::Given(text) => self.tell_settled_text(basis, place, text, out),
            _ => Ok(()),
        }
    }

    /// Tells what is left of the cards' limits, where that is asked for.
    fn tell_left(&self, basis: &Basis, out: &mut WordLines)
        ensures { Tells out.old out.new (spec.limits_at_end (state.manner_from basis.now) (past_state self.now)) }
    {
        if basis.filter.why {
            tell_cards_left(out, &self.cards_known(basis));
        }
    }

    /// Tells a line of no lane and no card: behind the last one what is left of the cards' limits.
    fn tell_report(
        &self,
        basis: &Basis,
        what: &What<'_>,
        out: &mut WordLines,
    ) -> Result<(), AllocError>
        ensures { OnOk result (Tells out.old out.new (spec.of_report (state.manner_from basis.now) (past_state self.now) (seen_what what.now))) }
    {
        match what {
            What::Done => {
                self.tell_left(basis, out);
                Ok(())
            }
            other => tell_of_report(out, basis.alloc, other, basis.filter.brief),
        }
    }

    /// Tells a line, and keeps what it leaves for the lines behind it.
    pub(crate) fn tell_line(
        &mut self,
        basis: &Basis,
        line: &ReportLine<'_>,
        out: &mut WordLines,
    ) -> Result<(), AllocError>
        ensures words { OnOk result (Tells out.old out.new (spec.line_said (state.manner_from basis.now) (past_state self.old) (seen_line line.now))) }
        ensures state { OnOk result (past_state self.new ≡ state.state_left_by (state.manner_from basis.now) (seen_line line.now) (past_state self.old)) }
    {
        match line.whose {
            Whose::Lane(lane) => self.tell_at(basis, lane, &line.what, out),
            Whose::Settlement(lane) => self.tell_settlement(basis, lane, &line.what, out),
            Whose::Audit(_) => self.tell_at(basis, AUDIT, &line.what, out),
            Whose::Report => self.tell_report(basis, &line.what, out),
        }
    }
}
