ghost use Rattle.std.specs.Prelude.{◌≡◌, ◌+◌, ◌≤◌, ◌<◌, ◌∷◌, ◌++◌, [], ℕ, List, length, drop, slice_index, option_map};
ghost use Rattle.std.specs.List.{All};
ghost use Rattle.cvm_list.specs.Begun as spec;
ghost use Rattle.cvm_list.specs.Cvm.{course, nothing_found as found_before, verified_by_rules};
ghost use Rattle.cvm_list.specs.Laws.{AsksForNone, IsPassedOver};
ghost use Rattle.cvm_list.specs.NextIs.{VerifyNextLeads, entries_left};
ghost use Rattle.cvm_list.specs.Plain.{plain_result};
ghost use Rattle.cvm_list.specs.Rules.{rules_of, method_of as rule_method};
ghost use Rattle.cvm_list.specs.Settled.{rest_behind_rule};
ghost use Rattle.cvm_list.specs.Tried.{verify_command};
ghost use Rattle.cvm_list.specs.Waiting.{verifying_rest};
ghost use Rattle.emv_dict.specs.Digits.{HasPinLength};
ghost use Rattle.emv_dict.specs.Progress.{Progress, Leads, Wants};
ghost use Rattle.emv_dict.specs.declared.verified.Verified.{Verified};

use crate::attempt::{Attempt, try_rule};
use crate::outcome::{
    Found, Outcome, Said, Settled, failed, read_said, settle, successful, verified,
};
use crate::rule::{Method, Rule, Rules, Situation, keep_holding, method_of};
use apdu_core::{Command, Out, write_command};
use ber_tlv::Tag;
use emv_dict::{Cause, Digits, Purchase, Settings, Tvr, Verified};
use object_lists::CardData;
use pin_block::plain_block;
use std::marker::Model;

/// Cardholder verification that waits for the card's answer to VERIFY. What the rest of it makes of
/// the answers to come is `verifying_rest`.
#[derive(Drop)]
pub struct Verifying<'s> {
    found: Found,
    caps: u8,
    /// The rules whose condition holds, the place of the one that is tried, and that one.
    rules: Rules,
    at: usize,
    rule: Rule,
    /// The entry that the card is asked about, and those behind it.
    pin: &'s Digits,
    pins: &'s [Digits],
}

impl<'s> Model for Verifying<'s> {
    ghost use Rattle.cvm_list.specs.Waiting.{VerifyingData, verifying_data, IsWaiting};

    ghost Value = { VerifyingData };

    ghost view = { verifying_data };

    ghost invariant = { IsWaiting };
}

/// How cardholder verification goes on.
#[derive(Drop)]
pub enum VerifyNext<'s> {
    /// The card is asked.
    Ask(Verifying<'s>),
    /// It is finished.
    Done(Verified),
    /// An answer can't be read, and the transaction ends.
    Ended(Cause),
}

impl<'s> Verifying<'s> {
    /// Begins cardholder verification of a purchase with this card.
    #[tactic(auto, unfolding(crate::specs::Begun::cvm))]
    pub fn begin(card: &CardData, settings: &Settings, purchase: &'s Purchase) -> VerifyNext<'s>
        requires pins { All HasPinLength purchase.now.pins }
        ensures leads { VerifyNextLeads (spec.cvm card.now settings.now purchase.now) [] result }
        // A card that asks for no verification sets no bit.
        ensures passed_over { AsksForNone card.now → IsPassedOver result }
        ensures few { entries_left result ≤ length purchase.now.pins }
    {
        if card.aip[0] & 0x10 == 0 {
            return VerifyNext::Done(passed(Tvr::default()));
        }
        match card.value(Tag(0x8e)) {
            Some(list) => with_list(list, card.value(Tag(0x9f42)), settings, purchase),
            None => VerifyNext::Done(passed(Tvr::ICC_DATA_MISSING)),
        }
    }

    /// Writes the command that the card is to answer, in place of what `out` held.
    #[tactic(auto, unfolding(crate::specs::Tried::verify_command))]
    pub fn ask(&self, out: &mut Out)
        ensures { verifying_rest self.now [] ≡ Wants out.new.items }
    {
        write_verify(self.pin, out);
    }

    /// Goes on with the card's answer.
    pub fn take(self, reply: &[u8]) -> VerifyNext<'s>
        ensures leads { (whole : List (List ℕ) → Progress Verified) (answers : List (List ℕ))
            → Leads whole answers (verifying_rest self.entry) → VerifyNextLeads whole (answers ++ reply.now ∷ []) result }
        // Each command takes an entry.
        ensures nearer { entries_left result < length self.entry.pins }
    {
        let Verifying {
            found,
            caps,
            rules,
            at,
            rule,
            pin: _,
            pins,
        } = self;
        match read_said(reply) {
            None => VerifyNext::Ended(Cause::Answer),
            Some(Said::Again) => walk(found, caps, rules, at, pins),
            Some(Said::Right) => {
                let outcome = successful(rule, right_result(rule));
                go_on(found, outcome, caps, rules, at + 1, pins)
            }
            Some(Said::Exceeded) => {
                let outcome = failed(rule, Tvr::PIN_TRY_LIMIT_EXCEEDED);
                go_on(found, outcome, caps, rules, at + 1, pins)
            }
            Some(Said::Other) => {
                let outcome = failed(rule, Tvr(0));
                go_on(found, outcome, caps, rules, at + 1, pins)
            }
        }
    }
}

/// The third byte of the results where the card says that the PIN is right.
fn right_result(rule: Rule) -> u8
    ensures { result ≡ plain_result (rule_method rule) }
{
    match method_of(rule) {
        Method::PlainPin => 2,
        _ => 0,
    }
}

/// VERIFY with the plain PIN block of an entry.
#[tactic(auto, unfolding(crate::specs::Tried::verify_command))]
fn write_verify(pin: &Digits, out: &mut Out)
    requires { HasPinLength pin.now }
    ensures { out.new.items ≡ verify_command pin.now }
{
    let block = plain_block(pin);
    let command = Command {
        class: 0x00,
        ins: 0x20,
        p1: 0x00,
        p2: 0x80,
        body: &block,
        expects: None,
    };
    write_command(&command, out);
}

/// Tries the rules from a place on, until the card is to be asked or verification ends.
fn walk<'s>(found: Found, caps: u8, rules: Rules, at: usize, pins: &'s [Digits]) -> VerifyNext<'s>
    requires { All HasPinLength pins.now }
    ensures leads { VerifyNextLeads (λ later. verified_by_rules found (course caps (drop at rules.items) pins.now later) later) [] result }
    ensures few { entries_left result ≤ length pins.now }
{
    if at >= rules.len() {
        return VerifyNext::Done(verified(found));
    }
    let rule = rule_at(&rules, at);
    match try_rule(caps, rule, pins) {
        Attempt::Ask(pin, pins) => VerifyNext::Ask(Verifying {
            found,
            caps,
            rules,
            at,
            rule,
            pin,
            pins,
        }),
        Attempt::Known(outcome, pins) => match settle(found, outcome) {
            Settled::GoesOn(found) => walk(found, caps, rules, at + 1, pins),
            Settled::Done(verified) => VerifyNext::Done(verified),
        },
    }
}

/// The rule at a place.
fn rule_at(rules: &Rules, at: usize) -> Rule
    requires { at < length rules.now.items }
    ensures { drop at rules.now.items ≡ result ∷ drop (at + 1) rules.now.items }
{
    rules.as_slice()[at]
}

/// Goes on behind a rule with this outcome, with the rule at this place.
fn go_on<'s>(
    found: Found,
    outcome: Outcome,
    caps: u8,
    rules: Rules,
    at: usize,
    pins: &'s [Digits],
) -> VerifyNext<'s>
    requires { All HasPinLength pins.now }
    ensures leads { VerifyNextLeads (rest_behind_rule found outcome (course caps (drop at rules.items)) pins.now) [] result }
    ensures few { entries_left result ≤ length pins.now }
{
    match settle(found, outcome) {
        Settled::GoesOn(found) => walk(found, caps, rules, at, pins),
        Settled::Done(verified) => VerifyNext::Done(verified),
    }
}

/// Verification with this list, where the card has one; `currency` is the one of its amounts.
fn with_list<'s>(
    list: &[u8],
    currency: Option<&[u8]>,
    settings: &Settings,
    purchase: &'s Purchase,
) -> VerifyNext<'s>
    requires least { 8 ≤ length list.now }
    requires most { length list.now ≤ 255 }
    requires pins { All HasPinLength purchase.now.pins }
    ensures leads { VerifyNextLeads (spec.by_rules (rules_of (drop 8 list.now))
        (spec.situation list.now (option_map (λ given. given.now) currency.entry) settings.now purchase.now) purchase.now) [] result }
    ensures few { entries_left result ≤ length purchase.now.pins }
{
    if list.len() < 10 {
        return VerifyNext::Done(passed(Tvr::ICC_DATA_MISSING));
    }
    let s = situation(list, currency, settings, purchase);
    let rules = holding_rules(&s, list);
    let pins = purchase.pins.as_slice();
    walk(nothing_found(), s.caps, rules, 0, pins)
}

/// The rules behind X and Y whose condition holds.
fn holding_rules(s: &Situation, list: &[u8]) -> Rules
    requires least { 8 ≤ length list.now }
    requires most { length list.now ≤ 255 }
    ensures { result.items ≡ spec.holding s.now (rules_of (drop 8 list.now)) }
{
    let mut rules = Rules::new();
    keep_holding(s, &list[8..], &mut rules);
    rules
}

/// What conditions are tried on.
#[tactic(auto, unfolding(crate::specs::Begun::situation))]
fn situation(
    list: &[u8],
    currency: Option<&[u8]>,
    settings: &Settings,
    purchase: &Purchase,
) -> Situation
    requires { 8 ≤ length list.now }
    ensures { result ≡ spec.situation list.now (option_map (λ given. given.now) currency.entry) settings.now purchase.now }
{
    Situation {
        kind: settings.kind,
        caps: settings.caps[1],
        trade: purchase.trade,
        in_currency: is_same_currency(currency, purchase),
        amount: purchase.amount,
        x: amount_at(list, 0),
        y: amount_at(list, 4),
    }
}

/// Whether a currency is given and is that of the purchase.
fn is_same_currency(currency: Option<&[u8]>, purchase: &Purchase) -> bool
    ensures { result ≡ spec.is_same_currency (option_map (λ given. given.now) currency.entry) purchase.now }
{
    match currency {
        Some(currency) => currency == purchase.currency.as_slice(),
        None => false,
    }
}

/// The number of the four bytes at a place.
fn amount_at(list: &[u8], place: usize) -> u32
    requires { place + 4 ≤ length list.now }
    ensures { result ≡ spec.amount_at list.now place }
{
    u32::from_be_bytes([
        list[place],
        list[place + 1],
        list[place + 2],
        list[place + 3],
    ])
}

/// Before any rule: the results of no method performed, failed.
fn nothing_found() -> Found
    ensures { result ≡ found_before }
{
    Found {
        tvr: Tvr::default(),
        results: [0x3f, 0x00, 0x01],
        good: false,
        online_pin: None,
    }
}

/// Verification that isn't performed.
fn passed(tvr: Tvr) -> Verified
    ensures { result ≡ spec.passed tvr.0 }
{
    Verified {
        results: [0x3f, 0x00, 0x00],
        tvr,
        performed: false,
        online_pin: None,
    }
}
