ghost use Rattle.std.specs.Prelude.{◌≡◌, ◌≤◌, ◌<◌, ◌∷◌, ◌++◌, [], ℕ, List};
ghost use Rattle.std.specs.List.{All};
ghost use Rattle.emv_dict.specs.Progress.{Progress, Leads, Wants};
ghost use Rattle.emv_dict.specs.Settings.{IsAidRow, most_amount};
ghost use Rattle.object_lists.specs.Forms.{HasIfThere, has_count};
ghost use Rattle.risk_mgmt.specs.Asked.{judging_rest, counters_by};
ghost use Rattle.risk_mgmt.specs.Judging.{JudgeNextLeads, counters_left};
ghost use Rattle.risk_mgmt.specs.Risky as spec;

use crate::counters::{COUNTER, LAST_ONLINE, counted, read_counter, write_get_data};
use crate::selection::is_selected;
use apdu_core::Out;
use ber_tlv::Tag;
use emv_dict::{AidRow, Cause, Digits, Judged, Logged, Purchase, Settings, Tvr};
use env_map::Env;
use object_lists::CardData;
use std::marker::Model;

/// Which counter the card is asked for.
#[derive(Clone, Copy)]
pub enum Asking {
    /// The application transaction counter.
    Counter,
    /// The last online one, with what the card said of the first.
    LastOnline(Option<u16>),
}

/// Terminal risk management that waits for an answer of the card. What the rest of it makes of the
/// answers to come is `judging_rest`.
#[derive(Drop)]
pub struct Judging {
    tvr: Tvr,
    lower: u8,
    upper: u8,
    asking: Asking,
}

impl Model for Judging {
    ghost use Rattle.risk_mgmt.specs.Asked.{JudgingData};

    ghost Value = { JudgingData };

    ghost view = { λ s. record { bits = s.tvr.0; lower = s.lower; upper = s.upper; asking = s.asking } };
}

/// How terminal risk management goes on.
#[derive(Drop)]
pub enum JudgeNext {
    /// The card is asked.
    Ask(Judging),
    /// It is finished.
    Done(Judged),
    /// An answer can't be read, and the transaction ends.
    Ended(Cause),
}

impl Judging {
    /// Begins terminal risk management of a purchase with this card in this application of the
    /// terminal. `log` are earlier purchases, the latest one last.
    #[tactic(auto, unfolding(crate::specs::Risky::risky, crate::specs::Risky::risk_checks))]
    pub fn begin(
        card: &CardData,
        settings: &Settings,
        row: &AidRow,
        purchase: &Purchase,
        log: &[Logged],
    ) -> JudgeNext
        requires row { IsAidRow row.now }
        requires amount { purchase.now.amount ≤ most_amount }
        requires log { All (λ logged. logged.amount ≤ most_amount) log.now }
        ensures leads { JudgeNextLeads (spec.risky card.now settings.now row.now purchase.now log.now) [] result }
        ensures few { counters_left result ≤ 2 }
    {
        let pan = card.pan.as_slice();
        if card.aip[0] & 0x08 == 0 {
            return JudgeNext::Done(Judged {
                tvr: always(pan, settings, purchase),
                performed: false,
            });
        }
        let tvr = alone(pan, settings, row, purchase, log);
        if !may_decide(settings.kind) {
            return JudgeNext::Done(Judged {
                tvr,
                performed: true,
            });
        }
        let objects = card.env();
        match (limit(objects, Tag(0x9f14)), limit(objects, Tag(0x9f23))) {
            (Some(lower), Some(upper)) => JudgeNext::Ask(Judging {
                tvr,
                lower,
                upper,
                asking: Asking::Counter,
            }),
            _ => JudgeNext::Done(Judged {
                tvr,
                performed: true,
            }),
        }
    }

    /// Writes the command that the card is to answer, in place of what `out` held.
    #[tactic(auto, unfolding(crate::specs::Risky::first_asked, crate::specs::Risky::last_asked))]
    pub fn ask(&self, out: &mut Out)
        ensures { judging_rest self.now [] ≡ Wants out.new.items }
    {
        match self.asking {
            Asking::Counter => write_get_data(COUNTER, out),
            Asking::LastOnline(_) => write_get_data(LAST_ONLINE, out),
        }
    }

    /// Goes on with the card's answer.
    pub fn take(self, reply: &[u8]) -> JudgeNext
        ensures leads { (whole : List (List ℕ) → Progress Judged) (answers : List (List ℕ))
            → Leads whole answers (judging_rest self) → JudgeNextLeads whole (answers ++ reply.now ∷ []) result }
        // Fewer counters are left to be asked for.
        ensures nearer { counters_left result < counters_by self.asking }
    {
        match self.asking {
            Asking::Counter => match read_counter(COUNTER, reply) {
                Ok(counter) => JudgeNext::Ask(Judging {
                    tvr: self.tvr,
                    lower: self.lower,
                    upper: self.upper,
                    asking: Asking::LastOnline(counter),
                }),
                Err(cause) => JudgeNext::Ended(cause),
            },
            Asking::LastOnline(counter) => match read_counter(LAST_ONLINE, reply) {
                Ok(last) => JudgeNext::Done(Judged {
                    tvr: counted(self.tvr, self.lower, self.upper, counter, last),
                    performed: true,
                }),
                Err(cause) => JudgeNext::Ended(cause),
            },
        }
    }
}

/// A limit of consecutive offline transactions, where the card gives it.
fn limit(objects: &Env, tag: Tag) -> Option<u8>
    requires { HasIfThere tag.0 (has_count 1) objects.now }
    ensures { result ≡ spec.limit_in tag.0 objects.now }
{
    match objects.get(tag) {
        Some([limit]) => Some(*limit),
        Some(_) => unreachable!(),
        None => None,
    }
}

/// The flags of every transaction.
#[tactic(auto, unfolding(crate::specs::Risky::always))]
fn always(pan: &[u8], settings: &Settings, purchase: &Purchase) -> Tvr
    ensures { result.0 ≡ spec.always pan.now settings.now purchase.now }
{
    Tvr::of_conditions(&[
        (is_exception(pan, &settings.exceptions), Tvr::EXCEPTION_FILE),
        (purchase.forced, Tvr::MERCHANT_FORCED_ONLINE),
    ])
}

/// Those, and the flags that the terminal finds without the card.
#[tactic(auto, unfolding(crate::specs::Risky::terminal_bits))]
fn alone(pan: &[u8], settings: &Settings, row: &AidRow, purchase: &Purchase, log: &[Logged]) -> Tvr
    requires row { IsAidRow row.now }
    requires amount { purchase.now.amount ≤ most_amount }
    requires log { All (λ logged. logged.amount ≤ most_amount) log.now }
    ensures { result.0 ≡ spec.terminal_bits pan.now settings.now row.now purchase.now log.now }
{
    Tvr::of_conditions(&[
        (true, always(pan, settings, purchase)),
        (
            exceeds_floor(pan, settings, row, purchase, log),
            Tvr::FLOOR_LIMIT_EXCEEDED,
        ),
        (is_drawn(settings, row, purchase), Tvr::RANDOMLY_SELECTED),
    ])
}

/// Whether the account number is in the exception file.
fn is_exception(pan: &[u8], exceptions: &[Digits]) -> bool
    ensures { result ≡ spec.is_exception pan.now exceptions.now }
{
    exceptions.iter().any(|listed| listed.as_slice() == pan)
}

/// Whether the amount, with that of the account's latest purchase, reaches the floor limit.
#[tactic(auto, unfolding(crate::specs::Risky::exceeds_floor))]
fn exceeds_floor(
    pan: &[u8],
    settings: &Settings,
    row: &AidRow,
    purchase: &Purchase,
    log: &[Logged],
) -> bool
    requires amount { purchase.now.amount ≤ most_amount }
    requires log { All (λ logged. logged.amount ≤ most_amount) log.now }
    ensures { result ≡ spec.exceeds_floor pan.now settings.now row.now purchase.now log.now }
{
    may_decide(settings.kind) && row.floor <= purchase.amount + latest_amount(pan, log)
}

/// The amount of the account's latest purchase, 0 where the log has none.
fn latest_amount(pan: &[u8], log: &[Logged]) -> u64
    requires { All (λ logged. logged.amount ≤ most_amount) log.now }
    ensures amount { result ≡ spec.latest_amount pan.now log.now }
    ensures small { result ≤ most_amount }
{
    let mut rest = log;
    while let Some((last, earlier)) = rest.split_last() {
        if last.pan.as_slice() == pan {
            return last.amount;
        }
        rest = earlier;
    }
    0
}

/// Whether the purchase is below the floor limit and selected at random.
#[tactic(auto, unfolding(crate::specs::Risky::is_drawn))]
fn is_drawn(settings: &Settings, row: &AidRow, purchase: &Purchase) -> bool
    requires { IsAidRow row.now }
    ensures { result ≡ spec.is_drawn settings.now row.now purchase.now }
{
    may_choose(settings.kind)
        && purchase.amount < row.floor
        && is_selected(row, purchase.amount, purchase.word)
}

/// Whether a terminal of this type may decide offline.
fn may_decide(kind: u8) -> bool
    ensures { result ≡ spec.may_decide kind }
{
    match kind {
        22 | 23 | 25 | 26 => true,
        _ => false,
    }
}

/// Whether a terminal of this type may decide offline or go online.
fn may_choose(kind: u8) -> bool
    ensures { result ≡ spec.may_choose kind }
{
    kind == 22 || kind == 25
}
