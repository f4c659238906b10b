ghost use Rattle.std.specs.Prelude.{◌≡◌, ◌≤◌, length};
ghost use Rattle.std.specs.List.{All};
ghost use Rattle.emv_dict.specs.Digits.{HasPinLength};
ghost use Rattle.cvm_list.specs.Attempts.{AttemptIs, LeavesPins, pin_entries};

use crate::outcome::{Outcome, failed, sent_online, successful, unsupported};
use crate::rule::{Method, Rule, method_of, supports};
use emv_dict::{Digits, Tvr};

/// What a rule comes to before the card is asked, and the entries that it leaves.
#[derive(Drop)]
pub(crate) enum Attempt<'s> {
    /// Its outcome.
    Known(Outcome, &'s [Digits]),
    /// The card is asked about this entry.
    Ask(&'s Digits, &'s [Digits]),
}

/// Tries a rule whose condition holds.
#[tactic(auto, unfolding(crate::specs::Tried::tried, crate::specs::Tried::pin_tried))]
pub(crate) fn try_rule<'s>(caps: u8, rule: Rule, pins: &'s [Digits]) -> Attempt<'s>
    requires { All HasPinLength pins.now }
    ensures is { AttemptIs caps rule pins.now result }
    ensures pins { LeavesPins result }
    ensures few { pin_entries result ≤ length pins.now }
{
    let method = method_of(rule);
    if !supports(caps, method) {
        return Attempt::Known(unsupported(rule), pins);
    }
    match method {
        Method::PlainPin | Method::PlainPinAndSignature => match pins.split_first() {
            Some((pin, others)) => Attempt::Ask(pin, others),
            None => Attempt::Known(failed(rule, Tvr::PIN_NOT_ENTERED), pins),
        },
        Method::OnlinePin => match pins.split_first() {
            Some((pin, others)) => Attempt::Known(sent_online(rule, pin), others),
            None => Attempt::Known(failed(rule, Tvr::PIN_NOT_ENTERED), pins),
        },
        Method::Signature => Attempt::Known(successful(rule, 0), pins),
        Method::NoCvm => Attempt::Known(successful(rule, 2), pins),
        _ => Attempt::Known(failed(rule, Tvr::default()), pins),
    }
}
