//! What is known of a purchase's card: its counters, its limits behind the scripts that came, and what is to be
//! approved.
ghost use Rattle.std.specs.Prelude.{◌≡◌, ◌<◌, length, position, option_map, OnOk, IfSome};
ghost use Rattle.message_words.specs.Cards.{card_place, seen_before};
ghost use Rattle.value_words.specs.Fields.{fields_of};
ghost use Rattle.purchase_reasons.specs.Kept as spec;

use crate::approval::Facts;
use crate::followed::Followed;
use crate::limits::{CardApp, ChangedLimits, Limit, Limits};
use apdu_core::read_response;
use arrayvec::ArrayVec;
use ber_tlv::{Tag, sole_value};
use emv_dict::amount_of;
use exchange_words::{LaneState, first_fields, keep, value_or_empty};
use issuer_reasons::{Charge, Wanted, charge_approved};
use message_words::CardSeen;
use message_words::cards::Counters;
use std::alloc::AllocError;
use value_words::{Fields, number_in, value_in};

/// The most applications whose limits are kept.
const MOST_CHANGED: usize = 64;

/// What is known of the cards.
#[derive(Clone, Copy)]
pub struct Cards<'a> {
    /// Their applications, from beside the report.
    pub apps: &'a [CardApp],
    /// The limits that scripts have set.
    pub changed: &'a [ChangedLimits],
    /// Their counters, by their last power lines.
    pub seen: &'a [CardSeen],
}

/// The name in the body of an answer to SELECT.
fn name_in_body(body: &[u8]) -> &[u8]
    ensures { result.now ≡ spec.name_in_body body.now }
{
    match sole_value(body, Tag(0x6f)) {
        Some(template) => value_or_empty(template, 0x84),
        None => &[],
    }
}

/// The name of the application that an answer to SELECT gives (84).
fn selected_name(answer: &[u8]) -> &[u8]
    ensures { result.now ≡ spec.name_of_selected answer.now }
{
    match read_response(answer) {
        Ok(response) => name_in_body(response.body),
        Err(_) => &[],
    }
}

/// Whether this is the application of this name on the card of this name.
fn is_app(app: &CardApp, card: &[u8], name: &[u8]) -> bool
    ensures { result ≡ spec.is_app card.now name.now app.now }
{
    app.card.as_slice() == card && app.name.as_slice() == name
}

/// The place of an application among those that are known.
fn app_place(apps: &[CardApp], card: &[u8], name: &[u8]) -> Option<usize>
    ensures place { result ≡ spec.app_place apps.now card.now name.now }
    ensures within { IfSome result (λ place. place < length apps.now) }
{
    apps.iter().position(|app| is_app(app, card, name))
}

/// Whether these are the limits of this application.
fn is_changed(limits: &ChangedLimits, card: &[u8], name: &[u8]) -> bool
    ensures { result ≡ spec.is_changed_app card.now name.now limits.now }
{
    limits.card.as_slice() == card && limits.name.as_slice() == name
}

/// The place of an application among those whose limits were set.
fn changed_place(changed: &[ChangedLimits], card: &[u8], name: &[u8]) -> Option<usize>
    ensures place { result ≡ spec.changed_place changed.now card.now name.now }
    ensures within { IfSome result (λ place. place < length changed.now) }
{
    changed
        .iter()
        .position(|limits| is_changed(limits, card, name))
}

/// A limit behind what set it; `None` where that isn't known.
fn limit_now(made: u64, set: Limit) -> Option<u64>
    ensures { result ≡ spec.limit_now made set }
{
    match set {
        Limit::AsMade => Some(made),
        Limit::Set(limit) => Some(limit),
        Limit::Unsure => None,
    }
}

/// Limits behind those that scripts have set.
fn limits_behind(made: &Limits, set: &ChangedLimits) -> Option<Limits>
    ensures { result ≡ spec.limits_behind made.now set.now }
{
    let count = limit_now(made.count, set.count)?;
    let sum = limit_now(made.sum, set.sum)?;
    Some(Limits {
        count,
        sum,
        currency: made.currency,
        second_sum: made.second_sum,
        second_currency: made.second_currency,
    })
}

/// The limits of an application behind the scripts that came.
pub(crate) fn limits_now(app: &CardApp, changed: &[ChangedLimits]) -> Option<Limits>
    ensures { result ≡ spec.limits_now app.now changed.now }
{
    match changed_place(changed, app.card.as_slice(), app.name.as_slice()) {
        Some(place) => limits_behind(&app.limits, &changed[place]),
        None => Some(app.limits),
    }
}

/// Whether this is the card of this name.
fn is_named(card: &CardSeen, name: &[u8]) -> bool
    ensures { result ≡ spec.is_named name.now card.now }
{
    card.name.as_slice() == name
}

/// The place of the card of this name.
fn seen_place(seen: &[CardSeen], name: &[u8]) -> Option<usize>
    ensures place { result ≡ card_place seen.now name.now }
    ensures within { IfSome result (λ place. place < length seen.now) }
{
    seen.iter().position(|card| is_named(card, name))
}

/// The counters of the card of this name.
fn counters_seen<'a>(seen: &'a [CardSeen], name: &[u8]) -> &'a [Counters]
    ensures { result.now ≡ seen_before seen.now (card_place seen.now name.now) }
{
    match seen_place(seen, name) {
        Some(place) => seen[place].apps.as_slice(),
        None => &[],
    }
}

/// The counters of the application at this place.
pub(crate) fn counters_at(counters: &[Counters], place: usize) -> Option<Counters>
    ensures { result ≡ spec.counters_at counters.now place }
{
    match counters.get(place) {
        Some(found) => Some(*found),
        None => None,
    }
}

/// The counters of the only application, where there is one.
fn sole_counters(counters: &[Counters]) -> Option<Counters>
    ensures { result ≡ spec.sole_counters counters.now }
{
    match counters {
        [one] => Some(*one),
        _ => None,
    }
}

/// The amount in the data.
fn amount_wanted(fields: Fields<'_>) -> Option<u64>
    ensures { result ≡ spec.amount_wanted (fields_of fields.entry.list.now fields.entry.data.now) }
{
    match value_in(fields, Tag(0x9f02), 6) {
        Some([a, b, c, d, e, f]) => Some(amount_of([*a, *b, *c, *d, *e, *f])),
        _ => None,
    }
}

/// The currency in the data.
fn currency_wanted(fields: Fields<'_>) -> Option<u64>
    ensures { result ≡ spec.currency_wanted (fields_of fields.entry.list.now fields.entry.data.now) }
{
    match value_in(fields, Tag(0x5f2a), 2) {
        Some(value) => Some(number_in(value)),
        None => None,
    }
}

/// What the first question wants to be approved.
pub(crate) fn wanted_by(talk: &LaneState) -> Option<Wanted>
    ensures { result ≡ spec.asked_approval (fields_of talk.now.cdol1.items talk.now.first.items) }
{
    let amount = amount_wanted(first_fields(talk))?;
    let currency = currency_wanted(first_fields(talk))?;
    Some(Wanted { amount, currency })
}

/// What is known of this application.
fn facts_of_app(
    app: &CardApp,
    changed: &[ChangedLimits],
    counters: &[Counters],
    wanted: Option<Wanted>,
) -> Facts
    ensures { result ≡ spec.facts_of_app app.now changed.now counters.now wanted }
{
    Facts {
        counters: counters_at(counters, usize::from(app.place)),
        limits: limits_now(app, changed),
        wanted,
    }
}

/// What is known of the application of this name on the card of this name.
fn facts_of_named(
    cards: &Cards<'_>,
    card: &[u8],
    name: &[u8],
    counters: &[Counters],
    wanted: Option<Wanted>,
) -> Facts
    ensures { result ≡ spec.facts_of_named cards.now.apps.now cards.now.changed.now card.now name.now counters.now wanted }
{
    match app_place(cards.apps, card, name) {
        Some(place) => facts_of_app(&cards.apps[place], cards.changed, counters, wanted),
        None => Facts {
            counters: sole_counters(counters),
            limits: None,
            wanted,
        },
    }
}

/// What is known of the application of a purchase.
pub(crate) fn facts_of(cards: &Cards<'_>, followed: &Followed, talk: &LaneState) -> Facts
    ensures { result ≡ spec.facts_of (spec.cards_data cards.now) followed.now talk.now }
{
    let card = followed.card.as_slice();
    facts_of_named(
        cards,
        card,
        selected_name(talk.selected.as_slice()),
        counters_seen(cards.seen, card),
        wanted_by(talk),
    )
}

/// A limit that was set last.
fn set_last(before: Limit, now: Limit) -> Limit
    ensures { result ≡ spec.set_last before now }
{
    match now {
        Limit::AsMade => before,
        Limit::Set(_) | Limit::Unsure => now,
    }
}

/// Keeps the limits that a purchase's scripts set in place of those before.
fn renew(limits: &mut ChangedLimits, followed: &Followed)
    ensures { limits.new ≡ spec.renewed_limits followed.now limits.old }
{
    limits.count = set_last(limits.count, followed.count);
    limits.sum = set_last(limits.sum, followed.sum);
}

/// Keeps the limits of an application whose limits were not set before.
fn add(changed: &mut Vec<ChangedLimits>, followed: &Followed, name: &[u8]) -> Result<(), AllocError>
    ensures { OnOk result (changed.new.items ≡ spec.limits_with followed.now name.now changed.old.items) }
{
    if changed.len() >= MOST_CHANGED {
        return Ok(());
    }
    let mut card = ArrayVec::new();
    keep(&mut card, followed.card.as_slice());
    let mut app = ArrayVec::new();
    keep(&mut app, name);
    changed.push(ChangedLimits {
        card,
        name: app,
        count: followed.count,
        sum: followed.sum,
    })?;
    Ok(())
}

/// Keeps the limits of an application at its place, else as one more.
fn keep_at(
    changed: &mut Vec<ChangedLimits>,
    place: Option<usize>,
    followed: &Followed,
    name: &[u8],
) -> Result<(), AllocError>
    ensures { OnOk result (changed.new.items ≡ spec.limits_kept_at followed.now name.now changed.old.items place) }
{
    match place {
        Some(place) => {
            match changed.get_mut(place) {
                Some(limits) => renew(limits, followed),
                None => {}
            }
            Ok(())
        }
        None => add(changed, followed, name),
    }
}

/// Whether a limit is as the card was made.
fn is_as_made(limit: Limit) -> bool
    ensures { result ≡ spec.is_as_made limit }
{
    match limit {
        Limit::AsMade => true,
        Limit::Set(_) | Limit::Unsure => false,
    }
}

/// Keeps the limits that a purchase's scripts set, where they did. An error says that there was no memory.
pub fn keep_limits(
    changed: &mut Vec<ChangedLimits>,
    followed: &Followed,
    talk: &LaneState,
) -> Result<(), AllocError>
    ensures { OnOk result (changed.new.items ≡ spec.kept_limits followed.now talk.now changed.old.items) }
{
    if is_as_made(followed.count) && is_as_made(followed.sum) {
        return Ok(());
    }
    let name = selected_name(talk.selected.as_slice());
    let place = changed_place(changed, followed.card.as_slice(), name);
    keep_at(changed, place, followed, name)
}

/// Takes what a purchase's reply approved from its account. An error says that there was no memory.
pub fn charge_reply(
    charges: &mut Vec<Charge>,
    followed: &Followed,
    talk: &LaneState,
) -> Result<(), AllocError>
    ensures { OnOk result (charges.new.items ≡ spec.charges_behind followed.now.reply followed.now talk.now charges.old.items) }
{
    match followed.reply {
        Some(reply) => charge_approved(charges, followed.pan.as_slice(), &reply, wanted_by(talk)),
        None => Ok(()),
    }
}
