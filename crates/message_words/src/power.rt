//! Power lines in words: a card's counters, and what changed since its last power-up.
ghost use Rattle.std.specs.Prelude.{◌≡◌, ◌<◌, ◌^◌, ◌||◌, length, slice_get, OnOk};
ghost use Rattle.message_words.specs.Cards as cards_spec;
ghost use Rattle.message_words.specs.Powers as spec;
ghost use Rattle.report_lines.specs.Pieces.{Tells};

use crate::cards::{Apps, CardSeen, Counters, place_of, read_apps};
use crate::phrases::{APPROVALS, BLOCKED, FAILED, SECOND_SUM, SINCE_LAST, TRANSACTION_COUNTER};
use arrayvec::ArrayVec;
use object_words::phrases::{APPLICATION_BLOCKED, AUTHENTICATION_FAILED, OFFLINE_APPROVALS};
use report_lines::WordLines;
use std::alloc::AllocError;

/// The most cards that are kept.
const MOST_CARDS: usize = 64;

/// Whether an application is blocked.
fn is_blocked(counters: &Counters) -> bool
    ensures { result ≡ spec.is_app_blocked counters.now }
{
    counters.flags % 2 == 1
}

/// Whether its last issuer authentication failed.
fn has_failed(counters: &Counters) -> bool
    ensures { result ≡ spec.has_failed counters.now }
{
    counters.flags / 2 % 2 == 1
}

/// Tells a text where something holds.
fn tell_where(out: &mut WordLines, holds: bool, text: &[u8])
    ensures { Tells out.old out.new (spec.told_where holds text.now) }
{
    if holds {
        out.text(text);
    }
}

/// Tells the sum in the second currency, where there is one.
fn tell_second(out: &mut WordLines, second: Option<u64>)
    ensures { Tells out.old out.new (spec.second_words second) }
{
    if let Some(second) = second {
        if second > 0 {
            out.text(SECOND_SUM);
            out.number(second);
        }
    }
}

/// Tells the transaction counter and the last online one.
#[tactic(auto, unfolding(crate::specs::Powers::transaction_counters_words))]
fn tell_counter(out: &mut WordLines, counters: &Counters)
    ensures { Tells out.old out.new (spec.transaction_counters_words counters.now) }
{
    out.text(TRANSACTION_COUNTER);
    out.number(counters.counter);
    out.text(b", last online ");
    out.number(counters.last_online);
}

/// Tells the offline approvals, and their sum.
#[tactic(auto, unfolding(crate::specs::Powers::approvals_words))]
fn tell_offline(out: &mut WordLines, counters: &Counters)
    ensures { Tells out.old out.new (spec.approvals_words counters.now) }
{
    out.text(OFFLINE_APPROVALS);
    out.number(counters.count);
    out.text(b", sum ");
    out.number(counters.sum);
}

/// Tells the PIN tries that are left.
fn tell_tries(out: &mut WordLines, counters: &Counters)
    ensures { Tells out.old out.new (spec.tries_words counters.now) }
{
    out.text(b", PIN tries ");
    out.number(counters.tries);
}

/// Tells what is not as it should be, and the sum in the second currency.
#[tactic(auto, unfolding(crate::specs::Powers::standing_words))]
fn tell_standing(out: &mut WordLines, counters: &Counters)
    ensures { Tells out.old out.new (spec.standing_words counters.now) }
{
    tell_where(out, is_blocked(counters), APPLICATION_BLOCKED);
    tell_where(out, has_failed(counters), AUTHENTICATION_FAILED);
    tell_second(out, counters.second);
}

/// Tells the counters of an application.
#[tactic(auto, unfolding(crate::specs::Powers::counters_words))]
fn tell_counters(out: &mut WordLines, counters: &Counters)
    ensures { Tells out.old out.new (spec.counters_words counters.now) }
{
    tell_counter(out, counters);
    tell_offline(out, counters);
    tell_tries(out, counters);
    tell_standing(out, counters);
}

/// Tells what stands between two changes.
fn tell_between(out: &mut WordLines, told: bool)
    ensures { Tells out.old out.new (spec.between told) }
{
    if told {
        out.text(b", ");
    } else {
        out.text(b" ");
    }
}

/// Tells how far a number went up or down.
fn tell_step(out: &mut WordLines, before: u64, now: u64)
    ensures { Tells out.old out.new (spec.difference_words before now) }
{
    if before < now {
        out.text(b" +");
        out.number(now - before);
    } else {
        out.text(b" -");
        out.number(before - now);
    }
}

/// Tells how a number changed, where it did; whether any change was told.
fn tell_change(out: &mut WordLines, told: bool, name: &[u8], before: u64, now: u64) -> bool
    ensures words { Tells out.old out.new (spec.change_words told name.now before now) }
    ensures told { result ≡ (told || spec.differ before now) }
{
    if before == now {
        return told;
    }
    tell_between(out, told);
    out.text(name);
    tell_step(out, before, now);
    true
}

/// Whether a flag is not what it was.
fn flags_differ(before: bool, now: bool) -> bool
    ensures { result ≡ spec.flags_differ before now }
{
    before != now
}

/// Tells a flag that is set now, or is so no longer.
fn tell_turned(out: &mut WordLines, told: bool, name: &[u8], before: bool)
    ensures { Tells out.old out.new (spec.turned_words told name.now before) }
{
    tell_between(out, told);
    tell_where(out, before, b"no longer ");
    out.text(name);
}

/// Tells how a flag changed, where it did; whether any change was told.
fn tell_flag(out: &mut WordLines, told: bool, name: &[u8], before: bool, now: bool) -> bool
    ensures words { Tells out.old out.new (spec.changed_flag_words told name.now before now) }
    ensures told { result ≡ (told || spec.flags_differ before now) }
{
    if !flags_differ(before, now) {
        return told;
    }
    tell_turned(out, told, name, before);
    true
}

/// Tells what changed of the numbers of an application; whether anything did.
#[tactic(auto, unfolding(crate::specs::Powers::changes_words))]
fn tell_changes(out: &mut WordLines, before: &Counters, now: &Counters) -> bool
    ensures words { Tells out.old out.new (spec.changes_words before.now now.now) }
    ensures told { result ≡ spec.has_changed before.now now.now }
{
    let told = tell_change(out, false, b"counter", before.counter, now.counter);
    let told = tell_change(
        out,
        told,
        b"last online",
        before.last_online,
        now.last_online,
    );
    let told = tell_change(out, told, APPROVALS, before.count, now.count);
    let told = tell_change(out, told, b"sum", before.sum, now.sum);
    tell_change(out, told, b"PIN tries", before.tries, now.tries)
}

/// Tells what changed of the flags of an application; whether anything was told.
#[tactic(auto, unfolding(crate::specs::Powers::app_flags_words))]
fn tell_flags(out: &mut WordLines, told: bool, before: &Counters, now: &Counters) -> bool
    ensures words { Tells out.old out.new (spec.app_flags_words told before.now now.now) }
    ensures told { result ≡ (told || spec.has_turned before.now now.now) }
{
    let blocked = is_blocked(now);
    let told = tell_flag(out, told, BLOCKED, is_blocked(before), blocked);
    let failed = has_failed(now);
    tell_flag(out, told, FAILED, has_failed(before), failed)
}

/// The sum in the second currency, 0 where there is none.
fn second_sum(counters: &Counters) -> u64
    ensures { result ≡ spec.second_sum_or_zero counters.now }
{
    counters.second.unwrap_or(0)
}

/// Tells all that changed of an application; whether anything did.
fn tell_changed(out: &mut WordLines, before: &Counters, now: &Counters) -> bool
    ensures words { Tells out.old out.new (spec.changed_words before.now now.now) }
    ensures told { result ≡ spec.is_changed before.now now.now }
{
    let told = tell_changes(out, before, now);
    let told = tell_flags(out, told, before, now);
    tell_change(
        out,
        told,
        b"second sum",
        second_sum(before),
        second_sum(now),
    )
}

/// Tells what changed of an application since the card's last power line.
#[tactic(auto, unfolding(crate::specs::Powers::since_last_words))]
fn tell_since(out: &mut WordLines, before: &Counters, now: &Counters)
    ensures { Tells out.old out.new (spec.since_last_words before.now now.now) }
{
    out.line(2);
    out.text(SINCE_LAST);
    let told = tell_changed(out, before, now);
    tell_where(out, !told, b" no change");
}

/// Tells what changed of the application of this place, where it was there before.
fn tell_earlier(out: &mut WordLines, before: &[Counters], place: usize, now: &Counters)
    ensures { Tells out.old out.new (spec.earlier_words (slice_get before.now place) now.now) }
{
    if let Some(earlier) = before.get(place) {
        tell_since(out, earlier, now);
    }
}

/// Tells which of several applications this is.
#[tactic(auto, unfolding(crate::specs::Powers::place_words))]
pub fn tell_place(out: &mut WordLines, several: bool, place: usize)
    requires { place < 2 ^ 32 }
    ensures { Tells out.old out.new (spec.place_words several place) }
{
    if several {
        out.text(b"application ");
        out.number(place as u64 + 1);
        out.text(b": ");
    }
}

/// Tells the counters of an application, and what changed since the card's last power line.
#[tactic(auto, unfolding(crate::specs::Powers::app_words))]
fn tell_app(
    out: &mut WordLines,
    several: bool,
    before: &[Counters],
    place: usize,
    counters: &Counters,
)
    requires { place < 2 ^ 32 }
    ensures { Tells out.old out.new (spec.app_words several before.now place counters.now) }
{
    out.line(1);
    tell_place(out, several, place);
    tell_counters(out, counters);
    tell_earlier(out, before, place, counters);
}

/// The counters of the last power line, where it had as many applications.
fn alike<'a>(before: &'a [Counters], apps: &[Counters]) -> &'a [Counters]
    ensures { result.now ≡ spec.alike before.now apps.now }
{
    if before.len() == apps.len() {
        before
    } else {
        &[]
    }
}

/// Tells the counters of each application, and what changed since those before.
fn tell_each(out: &mut WordLines, several: bool, before: &[Counters], apps: &[Counters])
    requires { length apps.now < 2 ^ 32 }
    ensures { Tells out.old out.new (spec.apps_words_from several before.now 0 apps.now) }
{
    for (place, counters) in apps.iter().enumerate() {
        tell_app(out, several, before, place, counters);
    }
}

/// Tells the counters of each application, and what changed since the card's last power line, where that
/// had as many applications.
#[tactic(auto, unfolding(crate::specs::Powers::apps_words))]
fn tell_apps(out: &mut WordLines, before: &[Counters], apps: &[Counters])
    requires { length apps.now < 2 ^ 32 }
    ensures { Tells out.old out.new (spec.apps_words before.now apps.now) }
{
    tell_each(out, apps.len() > 1, alike(before, apps), apps);
}

/// Keeps the counters of a card that was not seen before.
fn keep_new(cards: &mut Vec<CardSeen>, name: &[u8], apps: Apps) -> Result<(), AllocError>
    ensures { OnOk result (cards.new.items ≡ cards_spec.cards_with cards.old.items name.now apps.items) }
{
    if cards.len() >= MOST_CARDS {
        return Ok(());
    }
    let mut kept = ArrayVec::new();
    if kept.try_extend_from_slice(name).is_ok() {
        cards.push(CardSeen { name: kept, apps })?;
    }
    Ok(())
}

/// Tells the counters of a card that was seen before, and keeps them.
fn tell_seen(out: &mut WordLines, cards: &mut [CardSeen], place: usize, apps: Apps)
    requires { place < length cards.old }
    ensures words { Tells out.old out.new (spec.apps_words (cards_spec.apps_of (slice_get cards.old place)) apps.items) }
    ensures kept { cards.new ≡ cards_spec.renewed cards.old place apps.items (slice_get cards.old place) }
{
    tell_apps(out, cards[place].apps.as_slice(), apps.as_slice());
    cards[place].apps = apps;
}

/// Tells a power line of a card with applications, and keeps its counters.
#[tactic(auto, unfolding(crate::specs::Cards::power_words, crate::specs::Cards::kept_cards))]
pub fn tell_power(
    out: &mut WordLines,
    cards: &mut Vec<CardSeen>,
    name: &[u8],
    apps: &[u8],
) -> Result<(), AllocError>
    ensures words { OnOk result (Tells out.old out.new (cards_spec.power_words cards.old.items name.now apps.now)) }
    ensures kept { OnOk result (cards.new.items ≡ cards_spec.kept_cards cards.old.items name.now apps.now) }
{
    let Some(apps) = read_apps(apps) else {
        return Ok(());
    };
    match place_of(cards, name) {
        Some(place) => {
            tell_seen(out, cards, place, apps);
            Ok(())
        }
        None => {
            tell_apps(out, &[], apps.as_slice());
            keep_new(cards, name, apps)
        }
    }
}
