//! What a terminal holds at a moment of the dialogue (EMV 4.3 Book 3 Annexes C5 and C6, Book 4 Annex A6).
ghost use Rattle.std.specs.Prelude.{◌≡◌, ◌+◌, [], ◌∷◌, ◌<◌, ◌≤◌, ℕ, List, length, option_map, IfSome, Some, not};
ghost use Rattle.emv_dict.specs.Digits.{HasPinLength};
ghost use Rattle.object_lists.specs.CardRead.{ReadCard};
ghost use Rattle.terminal_state.specs.StepResults.{StepResult, HasRead, HasRestricted, HasVerified, HasJudged, HasAnalysed, HasFirst, HasReply, WasUnable, HasAuthenticated, HasRunBefore, HasSecond, HasRunBehind, analysed_by, state_so_far, offline_code as spec_offline, unable_code as spec_unable, ran_whole as whole_test, bits_if, sound_pin as sound, was_sent as sent_test};

use arrayvec::ArrayVec;
use auth_message::Reply;
use ber_tlv::append;
use emv_dict::{Ac, AidRow, Digits, Judged, Kind, Tsi, Tvr, Verified, is_pin_length};
use std::marker::Model;

/// The issuer authentication data (91): 8 to 16 bytes.
pub type IssuerData = ArrayVec<u8, 16>;

/// The request to the issuer, where the terminal was unable to go online (EMV 4.3 Book 3 section 10.9).
#[derive(Clone, Copy)]
pub enum OnlineRequest {
    /// It was sent, and no reply came, or one that can't be read.
    Sent,
    /// The terminal never goes online.
    NotSent,
}

/// Terminal action analysis: the terminal's own action codes for the application, and the kind of cryptogram
/// that is asked for first (EMV 4.3 Book 3 section 10.7).
#[derive(Clone, Copy)]
pub struct Analysed {
    /// The code for denial.
    pub denial: [u8; 5],
    /// The code for going online.
    pub online: [u8; 5],
    /// The default code.
    pub fallback: [u8; 5],
    /// The kind.
    pub wanted: Kind,
}

/// What the kind of the second cryptogram rests on (EMV 4.3 Book 3 sections 10.9 and 10.11).
#[derive(Clone, Copy)]
pub enum Conclusion {
    /// The host's reply was read: its authorisation response code, which asks for TC or AAC.
    ByReply([u8; 2]),
    /// The terminal was unable to go online: the kind that action analysis wants then.
    ByAnalysis(Kind),
}

/// What the steps that are finished leave.
#[derive(Drop)]
pub struct StateSoFar {
    /// The terminal verification results (95) and the transaction status information (9B).
    pub tvr: Tvr,
    pub tsi: Tsi,
    /// The results of cardholder verification (9F34), zeros until it is finished.
    pub results: [u8; 3],
    /// The authorisation response code (8A).
    pub code: Option<[u8; 2]>,
    pub issuer_data: Option<IssuerData>,
    /// The PIN that goes to the issuer.
    pub pin: Option<Digits>,
    /// The transaction counter of the card's first answer to GENERATE AC.
    pub counter: Option<u16>,
    /// The card's last cryptogram.
    pub last: Option<Ac>,
    /// A request was sent, and no reply other than 00 was read.
    pub is_open: bool,
    /// The terminal verification results when the first GENERATE AC was asked, and the second one.
    pub tvr_when_first: Tvr,
    pub tvr_when_second: Option<Tvr>,
    /// What the kind of the first cryptogram rests on, and that of the second one.
    pub analysed: Option<Analysed>,
    pub concluded: Option<Conclusion>,
    /// The results of the scripts.
    pub scripts: ArrayVec<[u8; 5], 8>,
}

impl Model for StateSoFar {
    ghost use Rattle.std.specs.Prelude.{option_map};
    ghost use Rattle.terminal_state.specs.StepResults.{StateSoFarData};

    ghost Value = { StateSoFarData };

    ghost view = { λ m. record {
      tvr = m.tvr.0;
      tsi = m.tsi.0;
      results = m.results;
      code = m.code;
      issuer_data = option_map (λ value. value.items) m.issuer_data;
      pin = m.pin;
      counter = m.counter;
      last = m.last;
      is_open = m.is_open;
      tvr_when_first = m.tvr_when_first.0;
      tvr_when_second = option_map (λ tvr. tvr.0) m.tvr_when_second;
      analysed = m.analysed;
      concluded = m.concluded;
      scripts = m.scripts.items;
    } };

    ghost use Rattle.std.specs.Prelude.{IfSome};
    ghost use Rattle.emv_dict.specs.Digits.{HasPinLength};

    ghost invariant = { λ m. IfSome m.pin HasPinLength };
}

impl StateSoFar {
    /// Before any step is finished.
    pub fn new() -> StateSoFar
        ensures { result ≡ state_so_far [] }
    {
        StateSoFar {
            tvr: Tvr(0),
            tsi: Tsi(0),
            results: [0; 3],
            code: None,
            issuer_data: None,
            pin: None,
            counter: None,
            last: None,
            is_open: false,
            tvr_when_first: Tvr(0),
            tvr_when_second: None,
            analysed: None,
            concluded: None,
            scripts: ArrayVec::new(),
        }
    }

    /// The PIN that goes to the issuer.
    pub fn pin(&self) -> Option<&Digits>
        ensures pin { option_map (λ digits. digits.now) result ≡ self.now.pin }
        ensures length { IfSome result (λ digits. HasPinLength digits.now) }
    {
        self.pin.as_ref()
    }

    /// The card's last cryptogram.
    pub fn last(&self) -> Option<&Ac>
        ensures { option_map (λ ac. ac.now) result ≡ self.now.last }
    {
        self.last.as_ref()
    }

    /// The card is read: without offline data authentication.
    pub fn has_read(&mut self)
        ensures steps_done { (steps_done : List StepResult) (card : ReadCard) → self.old ≡ state_so_far steps_done → self.new ≡ state_so_far (HasRead card ∷ steps_done) }
        ensures scripts { self.new.scripts ≡ self.old.scripts }
    {
        self.tvr = Tvr(self.tvr.0 | Tvr::OFFLINE_DATA_AUTHENTICATION_NOT_PERFORMED.0);
    }

    /// The processing restrictions are looked at, and these flags found.
    pub fn has_restricted(&mut self, bits: Tvr)
        ensures steps_done { (steps_done : List StepResult) → self.old ≡ state_so_far steps_done → self.new ≡ state_so_far (HasRestricted bits.0 ∷ steps_done) }
        ensures scripts { self.new.scripts ≡ self.old.scripts }
    {
        self.tvr = Tvr(self.tvr.0 | bits.0);
    }

    /// Cardholder verification is finished.
    pub fn has_verified(&mut self, verified: Verified)
        ensures steps_done { (steps_done : List StepResult) → self.old ≡ state_so_far steps_done → self.new ≡ state_so_far (HasVerified verified ∷ steps_done) }
        ensures scripts { self.new.scripts ≡ self.old.scripts }
    {
        self.tvr = Tvr(self.tvr.0 | verified.tvr.0);
        self.tsi = Tsi(self.tsi.0 | tsi_if(verified.performed, Tsi::CARDHOLDER_VERIFICATION));
        let Verified {
            results,
            online_pin,
            ..
        } = verified;
        self.results = results;
        self.pin = sound_pin(online_pin);
    }

    /// Terminal risk management is finished.
    pub fn has_judged(&mut self, judged: Judged)
        ensures steps_done { (steps_done : List StepResult) → self.old ≡ state_so_far steps_done → self.new ≡ state_so_far (HasJudged judged ∷ steps_done) }
        ensures scripts { self.new.scripts ≡ self.old.scripts }
    {
        self.tvr = Tvr(self.tvr.0 | judged.tvr.0);
        self.tsi = Tsi(self.tsi.0 | tsi_if(judged.performed, Tsi::TERMINAL_RISK_MANAGEMENT));
    }

    /// Terminal action analysis, in the application of this row, asks the card for this kind of cryptogram.
    pub fn has_analysed(&mut self, row: &AidRow, wanted: Kind)
        ensures steps_done { (steps_done : List StepResult) → self.old ≡ state_so_far steps_done → self.new ≡ state_so_far (HasAnalysed (analysed_by row.now wanted) ∷ steps_done) }
        ensures scripts { self.new.scripts ≡ self.old.scripts }
    {
        self.tvr_when_first = self.tvr;
        self.code = offline_code(wanted);
        self.analysed = Some(Analysed {
            denial: row.denial,
            online: row.online,
            fallback: row.fallback,
            wanted,
        });
    }

    /// The card has answered the first GENERATE AC.
    pub fn has_first(&mut self, ac: Ac)
        ensures steps_done { (steps_done : List StepResult) → self.old ≡ state_so_far steps_done → self.new ≡ state_so_far (HasFirst ac ∷ steps_done) }
        ensures last { self.new.last ≡ Some ac }
        ensures scripts { self.new.scripts ≡ self.old.scripts }
    {
        self.tsi = Tsi(self.tsi.0 | Tsi::CARD_RISK_MANAGEMENT.0);
        self.code = offline_code(ac.kind);
        self.counter = Some(ac.counter);
        self.last = Some(ac);
    }

    /// The host's reply is read: its authorisation response code, and its issuer authentication data of at
    /// most 16 bytes.
    pub fn has_reply(&mut self, reply: &Reply)
        requires { IfSome reply.now.auth (λ value. length value ≤ 16) }
        ensures steps_done { (steps_done : List StepResult) → self.old ≡ state_so_far steps_done → self.new ≡ state_so_far (HasReply reply.now ∷ steps_done) }
        ensures scripts { self.new.scripts ≡ self.old.scripts }
    {
        self.code = Some(reply.code);
        self.issuer_data = kept(reply.auth);
        self.is_open = reply.code == *b"00";
        self.concluded = Some(Conclusion::ByReply(reply.code));
    }

    /// The terminal was unable to go online, behind a request or without one, and asks for this kind of
    /// cryptogram.
    pub fn was_unable(&mut self, request: OnlineRequest, wanted: Kind)
        ensures steps_done { (steps_done : List StepResult) → self.old ≡ state_so_far steps_done → self.new ≡ state_so_far (WasUnable request wanted ∷ steps_done) }
        ensures scripts { self.new.scripts ≡ self.old.scripts }
    {
        self.code = Some(unable_code(wanted));
        self.is_open = was_sent(request);
        self.concluded = Some(Conclusion::ByAnalysis(wanted));
    }

    /// The card has answered EXTERNAL AUTHENTICATE, and found the issuer's cryptogram `good` or not.
    pub fn has_authenticated(&mut self, good: bool)
        ensures steps_done { (steps_done : List StepResult) → self.old ≡ state_so_far steps_done → self.new ≡ state_so_far (HasAuthenticated good ∷ steps_done) }
        ensures scripts { self.new.scripts ≡ self.old.scripts }
    {
        self.tvr = Tvr(self.tvr.0 | tvr_unless(good, Tvr::ISSUER_AUTHENTICATION_FAILED));
        self.tsi = Tsi(self.tsi.0 | Tsi::ISSUER_AUTHENTICATION.0);
    }

    /// A script of the reply has run before the second GENERATE AC, with this result: the digit of its last
    /// command, and its identifier (EMV 4.3 Book 4 Annex A5).
    pub fn has_run_before(&mut self, script: [u8; 5])
        requires { length self.old.scripts < 8 }
        ensures steps_done { (steps_done : List StepResult) → self.old ≡ state_so_far steps_done → self.new ≡ state_so_far (HasRunBefore script ∷ steps_done) }
        ensures scripts { length self.new.scripts ≡ length self.old.scripts + 1 }
    {
        let whole = is_whole(script);
        self.tvr = Tvr(self.tvr.0 | tvr_unless(whole, Tvr::SCRIPT_FAILED_BEFORE_FINAL_CRYPTOGRAM));
        self.tsi = Tsi(self.tsi.0 | Tsi::SCRIPT_PROCESSING.0);
        self.scripts.push(script);
    }

    /// The card has answered the second GENERATE AC.
    pub fn has_second(&mut self, ac: Ac)
        ensures steps_done { (steps_done : List StepResult) → self.old ≡ state_so_far steps_done → self.new ≡ state_so_far (HasSecond ac ∷ steps_done) }
        ensures scripts { self.new.scripts ≡ self.old.scripts }
    {
        self.tvr_when_second = Some(self.tvr);
        self.last = Some(ac);
    }

    /// A script of the reply has run behind the second GENERATE AC, with this result.
    pub fn has_run_behind(&mut self, script: [u8; 5])
        requires { length self.old.scripts < 8 }
        ensures steps_done { (steps_done : List StepResult) → self.old ≡ state_so_far steps_done → self.new ≡ state_so_far (HasRunBehind script ∷ steps_done) }
        ensures scripts { length self.new.scripts ≡ length self.old.scripts + 1 }
    {
        let whole = is_whole(script);
        self.tvr = Tvr(self.tvr.0 | tvr_unless(whole, Tvr::SCRIPT_FAILED_AFTER_FINAL_CRYPTOGRAM));
        self.tsi = Tsi(self.tsi.0 | Tsi::SCRIPT_PROCESSING.0);
        self.scripts.push(script);
    }
}

/// Whether a request went to the issuer.
fn was_sent(request: OnlineRequest) -> bool
    ensures { result ≡ sent_test request }
{
    match request {
        OnlineRequest::Sent => true,
        OnlineRequest::NotSent => false,
    }
}

/// An entry that is a PIN: 4 to 12 digits, as each one has.
fn sound_pin(entry: Option<Digits>) -> Option<Digits>
    ensures pin { result ≡ sound entry }
    ensures length { IfSome result HasPinLength }
{
    match entry {
        Some(digits) if is_pin_length(digits.len()) => Some(digits),
        _ => None,
    }
}

/// These bits where the condition holds.
fn tsi_if(condition: bool, bits: Tsi) -> u16
    ensures { result ≡ bits_if condition bits.0 }
{
    if condition { bits.0 } else { 0 }
}

/// These bits where the condition doesn't hold.
fn tvr_unless(condition: bool, bits: Tvr) -> u64
    ensures { result ≡ bits_if (not condition) bits.0 }
{
    if condition { 0 } else { bits.0 }
}

/// Whether a script's result says that all its commands went on.
fn is_whole(script: [u8; 5]) -> bool
    ensures { result ≡ whole_test script }
{
    let [first, ..] = script;
    first == 0x20
}

/// The response code of a cryptogram that is asked for or answered offline (EMV 4.3 Book 4 Annex A6).
fn offline_code(kind: Kind) -> Option<[u8; 2]>
    ensures { result ≡ spec_offline kind }
{
    match kind {
        Kind::Tc => Some(*b"Y1"),
        Kind::Aac => Some(*b"Z1"),
        Kind::Arqc => None,
    }
}

/// That of a terminal that was unable to go online.
fn unable_code(kind: Kind) -> [u8; 2]
    ensures { result ≡ spec_unable kind }
{
    match kind {
        Kind::Tc => *b"Y3",
        Kind::Aac | Kind::Arqc => *b"Z3",
    }
}

/// A copy of the issuer authentication data.
pub fn kept(given: Option<&[u8]>) -> Option<IssuerData>
    requires { IfSome given (λ value. length value.now ≤ 16) }
    ensures { option_map (λ value. value.items) result ≡ option_map (λ value. value.now) given.entry }
{
    match given {
        None => None,
        Some(value) => {
            let mut copy = ArrayVec::new();
            append(&mut copy, value);
            Some(copy)
        }
    }
}
