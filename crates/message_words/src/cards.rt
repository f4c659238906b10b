//! The counters of a card's applications, as a power line shows them.
ghost use Rattle.std.specs.Prelude.{◌≡◌, ◌<◌, length, option_map, IfSome};
ghost use Rattle.message_words.specs.Cards as spec;

use arrayvec::ArrayVec;
use report_lines::{number_of, split_at_comma, split_word};

/// The counters of an application.
#[derive(Clone, Copy, PartialEq, Eq, Debug, Default)]
pub struct Counters {
    /// The application transaction counter.
    pub counter: u64,
    /// The last online one.
    pub last_online: u64,
    /// How many payments were approved offline.
    pub count: u64,
    /// The sum of their amounts.
    pub sum: u64,
    /// The PIN tries that are left.
    pub tries: u64,
    /// 1 where the application is blocked, plus 2 where its last issuer authentication failed.
    pub flags: u64,
    /// The sum in the second currency, where there is one.
    pub second: Option<u64>,
}

/// The counters of a card's applications.
pub type Apps = ArrayVec<Counters, 4>;

/// What a card's last power line showed.
#[derive(Drop)]
pub struct CardSeen {
    pub name: ArrayVec<u8, 16>,
    pub apps: Apps,
}

/// The number before the first comma, and what stands behind it.
fn next_number(text: &[u8]) -> Option<(u64, &[u8])>
    ensures { option_map (λ r. (r.0, r.1.now)) result ≡ spec.number_before_comma text.now }
{
    let (word, rest) = split_at_comma(text);
    Some((number_of(word)?, rest))
}

/// The sum in the second currency; there may be none.
fn read_second(text: &[u8]) -> Option<Option<u64>>
    ensures { result ≡ spec.second_in text.now }
{
    if text.is_empty() {
        return Some(None);
    }
    Some(Some(number_of(text)?))
}

/// The counters of one application.
#[tactic(auto, unfolding(crate::specs::Cards::counters_in))]
fn read_counters(text: &[u8]) -> Option<Counters>
    ensures { result ≡ spec.counters_in text.now }
{
    let (counter, rest) = next_number(text)?;
    let (last_online, rest) = next_number(rest)?;
    let (count, rest) = next_number(rest)?;
    let (sum, rest) = next_number(rest)?;
    let (tries, rest) = next_number(rest)?;
    let (flags, rest) = next_number(rest)?;
    let second = read_second(rest)?;
    Some(Counters {
        counter,
        last_online,
        count,
        sum,
        tries,
        flags,
        second,
    })
}

/// The counters of one to four applications.
pub(crate) fn read_apps(text: &[u8]) -> Option<Apps>
    ensures { option_map (λ apps. apps.items) result ≡ spec.counters_in_text text.now }
{
    let mut apps = Apps::new();
    let mut left = text;
    while !left.is_empty() {
        if apps.len() >= 4 {
            return None;
        }
        let (word, rest) = split_word(left);
        apps.push(read_counters(word)?);
        left = rest;
    }
    if apps.is_empty() { None } else { Some(apps) }
}

/// Whether this is the card of this name.
fn is_named(card: &CardSeen, name: &[u8]) -> bool
    ensures { result ≡ spec.is_card_named name.now card.now }
{
    card.name.as_slice() == name
}

/// The place of the card of this name.
pub(crate) fn place_of(cards: &[CardSeen], name: &[u8]) -> Option<usize>
    ensures place { result ≡ spec.card_place cards.now name.now }
    ensures within { IfSome result (λ place. place < length cards.now) }
{
    cards.iter().position(|card| is_named(card, name))
}
