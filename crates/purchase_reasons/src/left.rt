//! What is left of a card's limits at the end of a report (docs/proof/profile.md, CARD-20), in words.
ghost use Rattle.std.specs.Prelude.{◌≡◌, ◌||◌, length, is_some};
ghost use Rattle.std.specs.List.{flat_map};
ghost use Rattle.purchase_reasons.specs.Kept.{cards_data};
ghost use Rattle.purchase_reasons.specs.Left as spec;
ghost use Rattle.report_lines.specs.Pieces.{Tells};

use crate::kept::{Cards, counters_at, limits_now};
use crate::limits::{CardApp, ChangedLimits, Limits};
use issuer_reasons::tell_currency;
use message_words::cards::Counters;
use message_words::{CardSeen, tell_place};
use report_lines::WordLines;

/// Tells what is left of a limit.
fn tell_left_of(out: &mut WordLines, counted: u64, limit: u64)
    ensures { Tells out.old out.new (spec.left_of_limit counted limit) }
{
    out.number(limit.saturating_sub(counted));
    out.text(b" of ");
    out.number(limit);
}

/// Tells what is left of the sum in the second currency, where the application has one.
fn tell_second(out: &mut WordLines, counters: &Counters, limits: &Limits)
    ensures { Tells out.old out.new (spec.second_left counters.now limits.now limits.now.second_currency) }
{
    if let Some(currency) = limits.second_currency {
        out.text(b", sum in ");
        tell_currency(out, currency);
        out.text(b" ");
        tell_left_of(out, counters.second.unwrap_or(0), limits.second_sum);
    }
}

/// Tells what is left of each limit of an application.
fn tell_limits_left(out: &mut WordLines, counters: &Counters, limits: &Limits)
    ensures { Tells out.old out.new (spec.limits_left counters.now limits.now) }
{
    out.text(b"offline approvals ");
    tell_left_of(out, counters.count, limits.count);
    out.text(b", sum ");
    tell_left_of(out, counters.sum, limits.sum);
    tell_second(out, counters, limits);
}

/// The counters and the limits of an application of the card of this name, where both are known.
fn app_known(
    app: &CardApp,
    card: &[u8],
    changed: &[ChangedLimits],
    counters: &[Counters],
) -> Option<(Counters, Limits)>
    ensures { result ≡ spec.app_known card.now changed.now counters.now app.now }
{
    if app.card.as_slice() != card {
        return None;
    }
    let found = counters_at(counters, usize::from(app.place))?;
    let limits = limits_now(app, changed)?;
    Some((found, limits))
}

/// Tells what stands before an application: of the first one the line of its card begins.
fn tell_before(out: &mut WordLines, told: bool, card: &[u8])
    ensures { Tells out.old out.new (spec.before_app told card.now) }
{
    if told {
        out.text(b"; ");
    } else {
        out.line(1);
        out.text(b"left on card ");
        out.text(card);
        out.text(b": ");
    }
}

/// Tells what is left of an application's limits, where they are known, behind others where some were told before;
/// whether any was told. `count` is how many applications the card has.
fn tell_app(
    out: &mut WordLines,
    told: bool,
    card: &[u8],
    count: usize,
    place: u8,
    known: Option<(Counters, Limits)>,
) -> bool
    ensures words { Tells out.old out.new (spec.part_left told card.now count place known) }
    ensures told { result ≡ (told || is_some known) }
{
    match known {
        Some((counters, limits)) => {
            tell_before(out, told, card);
            tell_place(out, count > 1, usize::from(place));
            tell_limits_left(out, &counters, &limits);
            true
        }
        None => told,
    }
}

/// Tells what is left of a card's limits in a line, as far as they are known.
fn tell_card_left(
    out: &mut WordLines,
    apps: &[CardApp],
    changed: &[ChangedLimits],
    name: &[u8],
    counters: &[Counters],
)
    ensures { Tells out.old out.new (spec.named_left apps.now changed.now name.now counters.now) }
{
    let mut told = false;
    for app in apps {
        let known = app_known(app, name, changed, counters);
        told = tell_app(out, told, name, counters.len(), app.place, known);
    }
}

/// Tells what is left of the limits of one card after the other, a line a card.
fn tell_each_left(
    out: &mut WordLines,
    apps: &[CardApp],
    changed: &[ChangedLimits],
    seen: &[CardSeen],
)
    ensures { Tells out.old out.new (flat_map (spec.card_left apps.now changed.now) seen.now) }
{
    for card in seen {
        tell_card_left(
            out,
            apps,
            changed,
            card.name.as_slice(),
            card.apps.as_slice(),
        );
    }
}

/// Tells what is left of the limits of the cards that are known, a line a card.
pub fn tell_cards_left(out: &mut WordLines, cards: &Cards<'_>)
    ensures { Tells out.old out.new (spec.cards_left (cards_data cards.now)) }
{
    tell_each_left(out, cards.apps, cards.changed, cards.seen);
}
