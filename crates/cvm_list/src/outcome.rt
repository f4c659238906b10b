ghost use Rattle.std.specs.Prelude.{◌≡◌, true, false, Option, Some, None, option_map};
ghost use Rattle.apdu_core.specs.Response.{response_of};
ghost use Rattle.cvm_list.specs.Cvm.{found_after, is_deciding, verified as result_of};
ghost use Rattle.cvm_list.specs.Settled.{SettledIs, said_in};
ghost use Rattle.cvm_list.specs.Tried as spec;

use crate::rule::{Method, Rule, goes_on, method_of};
use apdu_core::read_response;
use apdu_core::status::{AUTHENTICATION_BLOCKED, DATA_INVALIDATED, NO_ERROR, counter_in};
use emv_dict::{Digits, Tvr, Verified};

/// What came of one rule.
#[derive(Drop, Debug)]
pub struct Outcome {
    pub rule: Rule,
    /// Whether its method was performed.
    pub performed: bool,
    /// Whether it was successful.
    pub good: bool,
    /// The third byte of the results.
    pub result: u8,
    pub tvr: Tvr,
    /// The PIN that goes to the issuer.
    pub online_pin: Option<Digits>,
}

/// What the rules so far came to.
#[derive(Drop, Debug)]
pub struct Found {
    pub tvr: Tvr,
    pub results: [u8; 3],
    /// Whether the last one was successful.
    pub good: bool,
    pub online_pin: Option<Digits>,
}

/// What a card says of a PIN.
#[derive(Clone, Copy, PartialEq, Eq, Debug)]
pub enum Said {
    /// It is right.
    Right,
    /// It is wrong, and another may be tried.
    Again,
    /// No try is left.
    Exceeded,
    /// Anything else.
    Other,
}

/// Whether verification goes on behind a rule.
#[derive(Drop)]
pub(crate) enum Settled {
    GoesOn(Found),
    Done(Verified),
}

/// What rules found, and one rule more.
pub(crate) fn settle(found: Found, outcome: Outcome) -> Settled
    ensures { SettledIs found outcome result }
{
    let decides = outcome.good || !goes_on(outcome.rule);
    let found = joined(found, outcome);
    if decides {
        Settled::Done(verified(found))
    } else {
        Settled::GoesOn(found)
    }
}

fn joined(found: Found, outcome: Outcome) -> Found
    ensures { result ≡ found_after found outcome }
{
    let results = if outcome.performed {
        [outcome.rule.method, outcome.rule.condition, outcome.result]
    } else {
        found.results
    };
    Found {
        tvr: Tvr(found.tvr.0 | outcome.tvr.0),
        results,
        good: outcome.good,
        online_pin: outcome.online_pin,
    }
}

/// What verification comes to where no rule follows.
pub(crate) fn verified(found: Found) -> Verified
    ensures { result ≡ result_of found }
{
    let tvr = if found.good {
        found.tvr
    } else {
        Tvr(found.tvr.0 | Tvr::VERIFICATION_NOT_SUCCESSFUL.0)
    };
    let results = found.results;
    Verified {
        results,
        tvr,
        performed: true,
        online_pin: found.online_pin,
    }
}

/// A rule whose method the terminal doesn't support.
pub(crate) fn unsupported(rule: Rule) -> Outcome
    ensures { result ≡ spec.unsupported rule }
{
    let tvr = match method_of(rule) {
        Method::Fail | Method::Signature | Method::NoCvm => Tvr::default(),
        Method::Unrecognised => Tvr::UNRECOGNISED_CVM,
        _ => Tvr::PIN_PAD_NOT_PRESENT_OR_NOT_WORKING,
    };
    Outcome {
        rule,
        performed: false,
        good: false,
        result: 1,
        tvr,
        online_pin: None,
    }
}

/// A rule whose method was performed without success.
pub(crate) fn failed(rule: Rule, tvr: Tvr) -> Outcome
    ensures { result ≡ spec.failed rule tvr.0 }
{
    Outcome {
        rule,
        performed: true,
        good: false,
        result: 1,
        tvr,
        online_pin: None,
    }
}

/// A rule whose method was performed with success, and the third byte of the results.
pub(crate) fn successful(rule: Rule, result_byte: u8) -> Outcome
    ensures { result ≡ spec.successful rule result_byte }
{
    Outcome {
        rule,
        performed: true,
        good: true,
        result: result_byte,
        tvr: Tvr::default(),
        online_pin: None,
    }
}

/// A rule whose PIN goes to the issuer.
pub(crate) fn sent_online(rule: Rule, pin: &Digits) -> Outcome
    ensures { result ≡ spec.sent_online rule pin.now }
{
    Outcome {
        rule,
        performed: true,
        good: true,
        result: 0,
        tvr: Tvr::ONLINE_PIN_ENTERED,
        online_pin: Some(pin.copy()),
    }
}

/// What an answer to VERIFY says; `None` where it can't be read.
pub(crate) fn read_said(reply: &[u8]) -> Option<Said>
    ensures { result ≡ said_in reply.now }
{
    match read_response(reply) {
        Ok(response) => Some(said_by(response.status)),
        Err(_) => None,
    }
}

fn said_by(status: u16) -> Said
    ensures { result ≡ spec.said_of status }
{
    match counter_in(status) {
        Some(0) => Said::Exceeded,
        Some(_) => Said::Again,
        None => {
            if status == NO_ERROR {
                Said::Right
            } else if status == AUTHENTICATION_BLOCKED || status == DATA_INVALIDATED {
                Said::Exceeded
            } else {
                Said::Other
            }
        }
    }
}
