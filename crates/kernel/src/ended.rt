//! Completion: what a dialogue ends with (EMV 4.3 Book 3 section 10.11 and Book 4 section 6), and what is
//! captured of it.
ghost use Rattle.std.specs.Prelude.{◌≡◌, ℕ, List, Some, option_map};
ghost use Rattle.auth_message.specs.Whole.{IsMessage};
ghost use Rattle.emv_dict.specs.Settings.{IsPurchase};
ghost use Rattle.kernel.specs.Ended as spec;
ghost use Rattle.kernel.specs.Kernel.{stage_next, trading_next};
ghost use Rattle.kernel.specs.EndShown.{shown_end, stage_over, trading_over};

use crate::kernel::Next;
use crate::stage::{Opening, Stage, Trading};
use arrayvec::ArrayVec;
use auth_message::Message;
use ber_tlv::Tag;
use emv_dict::{Ac, Digits, Ending, Purchase, Settings, Tsi, Tvr};
use object_lists::{CardData, place, read_dol};
use online_step::{Approval, presentment, reversal};
use std::marker::Model;
use terminal_state::StateSoFar;

/// The object list of the second GENERATE AC (CDOL2).
const SECOND_LIST: Tag = Tag(0x8d);

/// The terminal verification results, an object of five bytes.
const RESULTS: Tag = Tag(0x95);

/// A presentment or a reversal, made at the end of a dialogue and spent once. Contracts see its bytes.
pub struct Capture {
    message: Message,
}

impl Model for Capture {
    ghost use Rattle.std.specs.Prelude.{List, ℕ};

    ghost Value = { List ℕ };

    ghost view = { λ c. c.message.items };

    ghost use Rattle.auth_message.specs.Whole.{IsMessage};

    ghost invariant = { λ c. IsMessage c.message.items };
}

impl Capture {
    /// The message that captures the payment, in place of what `out` held.
    pub fn into_message(self, out: &mut Message)
        ensures bytes { out.new.items ≡ self }
        // The host reads it.
        ensures read { IsMessage out.new.items }
    {
        let Capture { message } = self;
        *out = message;
    }
}

/// The end of a dialogue. The account number is there where reading is finished.
pub struct EndRecord {
    pub ending: Ending,
    /// The terminal verification results (95).
    pub tvr: Tvr,
    /// The transaction status information (9B).
    pub tsi: Tsi,
    /// The results of cardholder verification (9F34), zeros where it was not finished.
    pub cvm: [u8; 3],
    /// The primary account number.
    pub pan: Option<Digits>,
    /// The authorisation response code (8A).
    pub code: Option<[u8; 2]>,
    /// The card's last cryptogram.
    pub last: Option<Ac>,
    /// The results of the scripts, the first one first.
    pub scripts: ArrayVec<[u8; 5], 8>,
    /// What is to be captured.
    pub capture: Option<Capture>,
}

impl Model for EndRecord {
    ghost use Rattle.kernel.specs.EndShown.{EndShown};

    ghost Value = { EndShown };

    ghost view = { λ e. record {
      ending = e.ending;
      tvr = e.tvr.0;
      tsi = e.tsi.0;
      cvm = e.cvm;
      pan = e.pan;
      code = e.code;
      last = e.last;
      scripts = e.scripts.items;
      capture = e.capture;
    } };
}

/// An end record with the card's data, which are there where reading is finished.
pub struct Ended {
    pub ending: Ending,
    pub tvr: Tvr,
    pub tsi: Tsi,
    pub cvm: [u8; 3],
    pub pan: Option<Digits>,
    pub card: Option<CardData>,
    pub code: Option<[u8; 2]>,
    pub last: Option<Ac>,
    pub scripts: ArrayVec<[u8; 5], 8>,
    pub capture: Option<Capture>,
}

impl Model for Ended {
    ghost use Rattle.kernel.specs.EndShown.{EndedData};

    ghost Value = { EndedData };

    ghost view = { λ e. record {
      shown = record {
        ending = e.ending;
        tvr = e.tvr.0;
        tsi = e.tsi.0;
        cvm = e.cvm;
        pan = e.pan;
        code = e.code;
        last = e.last;
        scripts = e.scripts.items;
        capture = e.capture;
      };
      card = e.card;
    } };
}

/// An end record with the card's data.
pub(crate) fn with_card(end: EndRecord, card: Option<CardData>) -> Ended
    ensures shown { result.shown ≡ end }
    ensures card { result.card ≡ card }
{
    let EndRecord {
        ending,
        tvr,
        tsi,
        cvm,
        pan,
        code,
        last,
        scripts,
        capture,
    } = end;
    Ended {
        ending,
        tvr,
        tsi,
        cvm,
        pan,
        card,
        code,
        last,
        scripts,
        capture,
    }
}

/// How a stage ended that did.
pub(crate) fn ending_of(stage: &Stage<'_>) -> Ending
    requires { stage_next stage.now ≡ Next.Ended }
    ensures { stage_over stage.now ≡ Some result }
{
    match stage {
        Stage::Opening(Opening::Over(ending)) => *ending,
        Stage::Opening(Opening::Directory(_) | Opening::Select(_)) => unreachable!(),
        Stage::Opening(Opening::Initiate(_) | Opening::Read(_)) => unreachable!(),
        Stage::Trading(at) => trading_ending(&at.trading),
    }
}

fn trading_ending(trading: &Trading<'_>) -> Ending
    requires { trading_next trading.now ≡ Next.Ended }
    ensures { trading_over trading.now ≡ Some result }
{
    match trading {
        Trading::Over(ending) => *ending,
        Trading::Online => unreachable!(),
        Trading::Verify(_) | Trading::Risk(_) | Trading::First(_) => unreachable!(),
        Trading::Authenticate | Trading::ScriptBefore(_) => unreachable!(),
        Trading::Second(_) | Trading::ScriptBehind(_, _) => unreachable!(),
    }
}

/// The end record of a dialogue that ended so.
pub(crate) fn end_record(
    settings: &Settings,
    purchase: &Purchase,
    state_so_far: StateSoFar,
    card: Option<&CardData>,
    ending: Ending,
) -> EndRecord
    requires { IsPurchase purchase.now }
    ensures { result ≡ shown_end (spec.end_with (record { settings = settings.now; purchase = purchase.now }) ending (option_map (λ card. card.now) card.entry) state_so_far) }
{
    let capture = captured(settings, purchase, &state_so_far, card, ending);
    let StateSoFar {
        tvr,
        tsi,
        results,
        code,
        issuer_data: _,
        pin: _,
        counter: _,
        last,
        is_open: _,
        tvr_when_first: _,
        tvr_when_second: _,
        analysed: _,
        concluded: _,
        scripts,
    } = state_so_far;
    EndRecord {
        ending,
        tvr,
        tsi,
        cvm: results,
        pan: account_number(card),
        code,
        last,
        scripts,
        capture,
    }
}

fn account_number(card: Option<&CardData>) -> Option<Digits>
    ensures { result ≡ option_map (λ card. card.now.pan) card.entry }
{
    match card {
        Some(card) => Some(card.pan.copy()),
        None => None,
    }
}

/// What is captured: an approval is presented, a request that may have been approved is reversed.
fn captured(
    settings: &Settings,
    purchase: &Purchase,
    state_so_far: &StateSoFar,
    card: Option<&CardData>,
    ending: Ending,
) -> Option<Capture>
    requires { IsPurchase purchase.now }
    ensures { result ≡ spec.capture (record { settings = settings.now; purchase = purchase.now }) ending (option_map (λ card. card.now) card.entry) state_so_far.now }
{
    let Some(card) = card else {
        return None;
    };
    match ending {
        Ending::Approved { .. } => presented(settings, purchase, state_so_far, card),
        Ending::Declined { .. } => reversed(settings, purchase, state_so_far, card),
        Ending::Terminated(..) => reversed(settings, purchase, state_so_far, card),
        Ending::CutOff(..) => reversed(settings, purchase, state_so_far, card),
    }
}

/// The presentment, with the cryptogram that approved.
#[tactic(auto, unfolding(crate::specs::Ended::presentment))]
fn presented(
    settings: &Settings,
    purchase: &Purchase,
    state_so_far: &StateSoFar,
    card: &CardData,
) -> Option<Capture>
    requires { IsPurchase purchase.now }
    ensures { result ≡ spec.presentment (record { settings = settings.now; purchase = purchase.now }) card.now state_so_far.now }
{
    let Some(ac) = &state_so_far.last else {
        return None;
    };
    let tvr = results_behind(
        card,
        state_so_far.tvr_when_first,
        state_so_far.tvr_when_second,
    );
    let approval = Approval {
        tvr,
        ac,
        code: code_or_zeros(state_so_far.code),
    };
    let mut message = Message::new();
    presentment(card, settings, purchase, &approval, &mut message);
    Some(Capture { message })
}

/// The reversal, where a request may have been approved.
#[tactic(auto, unfolding(crate::specs::Ended::reversal))]
fn reversed(
    settings: &Settings,
    purchase: &Purchase,
    state_so_far: &StateSoFar,
    card: &CardData,
) -> Option<Capture>
    requires { IsPurchase purchase.now }
    ensures { result ≡ spec.reversal (record { settings = settings.now; purchase = purchase.now }) card.now state_so_far.now }
{
    if !state_so_far.is_open {
        return None;
    }
    let Some(counter) = state_so_far.counter else {
        return None;
    };
    let mut message = Message::new();
    reversal(
        card,
        settings,
        purchase,
        counter,
        code_or_zeros(state_so_far.code),
        &mut message,
    );
    Some(Capture { message })
}

fn code_or_zeros(code: Option<[u8; 2]>) -> [u8; 2]
    ensures { result ≡ spec.code_or_zeros code }
{
    match code {
        Some(code) => code,
        None => [0, 0],
    }
}

/// The terminal verification results that the last GENERATE AC was asked with whose list names them, or the
/// first one.
fn results_behind(card: &CardData, first: Tvr, second: Option<Tvr>) -> Tvr
    ensures { result.0 ≡ spec.results_behind card.now first.0 (option_map (λ tvr. tvr.0) second) }
{
    let Some(second) = second else {
        return first;
    };
    let Some(list) = card.value(SECOND_LIST) else {
        return first;
    };
    let Ok(dol) = read_dol(list) else {
        return first;
    };
    if place(&dol, RESULTS, 5).is_some() {
        second
    } else {
        first
    }
}
