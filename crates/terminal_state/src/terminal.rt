//! The data objects that a terminal gives to the object lists of a card (EMV 4.3 Book 3 Annex A).
ghost use Rattle.std.specs.Prelude.{◌≡◌, ◌≤◌, ◌<◌, [], ◌∷◌, ◌++◌, length, option_map};
ghost use Rattle.std.specs.List.{AllByRecursion};
ghost use Rattle.emv_dict.specs.Settings.{IsSettings, IsPurchase};
ghost use Rattle.terminal_state.specs.Terminal.{terminal_objects, lasting_objects, object_if_there};

use crate::state_so_far::{IssuerData, StateSoFar};
use ber_tlv::Tag;
use emv_dict::{AidRow, Purchase, Settings, amount_bytes, two_digits};
use env_map::Env;

/// Puts the terminal's objects in this application at this moment, in place of what the map held.
#[tactic(auto, unfolding(crate::specs::Terminal::terminal_objects))]
pub fn put_terminal(
    env: &mut Env,
    settings: &Settings,
    purchase: &Purchase,
    row: &AidRow,
    state_so_far: &StateSoFar,
)
    requires settings { IsSettings settings.now }
    requires purchase { IsPurchase purchase.now }
    ensures { env.new ≡ terminal_objects (record { settings = settings.now; purchase = purchase.now }) row.now state_so_far.now }
{
    put_lasting(env, settings, purchase, row, state_so_far);
    put_issuer_data(env, &state_so_far.issuer_data);
    if let Some(code) = &state_so_far.code {
        add(env, Tag(0x8a), code);
    }
}

/// The issuer authentication data, where there are any.
fn put_issuer_data(env: &mut Env, value: &Option<IssuerData>)
    requires above { AllByRecursion (λ entry. 0x91 < entry.0) env.old }
    requires above_code { AllByRecursion (λ entry. 0x8A < entry.0) env.old }
    requires few { length env.old ≤ 16 }
    requires all_short { AllByRecursion (λ entry. length entry.1 ≤ 256) env.old }
    ensures objects { env.new ≡ object_if_there 0x91 (option_map (λ value. value.items) value.now) ++ env.old }
    ensures above_code { AllByRecursion (λ entry. 0x8A < entry.0) env.new }
    ensures few { length env.new ≤ 17 }
    ensures all_short { AllByRecursion (λ entry. length entry.1 ≤ 256) env.new }
{
    if let Some(value) = value {
        add(env, Tag(0x91), value);
    }
}

/// Those that are always there, by rising tag, so that each goes to the end and none is moved.
#[tactic(auto, unfolding(crate::specs::Terminal::lasting_objects))]
fn put_lasting(
    env: &mut Env,
    settings: &Settings,
    purchase: &Purchase,
    row: &AidRow,
    state_so_far: &StateSoFar,
)
    requires settings { IsSettings settings.now }
    requires purchase { IsPurchase purchase.now }
    ensures objects { env.new ≡ lasting_objects (record { settings = settings.now; purchase = purchase.now }) row.now state_so_far.now }
    ensures above { AllByRecursion (λ entry. 0x91 < entry.0) env.new }
    ensures above_code { AllByRecursion (λ entry. 0x8A < entry.0) env.new }
    ensures few { length env.new ≤ 16 }
    ensures all_short { AllByRecursion (λ entry. length entry.1 ≤ 256) env.new }
{
    env.clear();
    add_last(env, Tag(0x95), &state_so_far.tvr.bytes());
    add_last(env, Tag(0x9a), &purchase.date);
    add_last(env, Tag(0x9b), &state_so_far.tsi.bytes());
    add_last(env, Tag(0x9c), &[purchase.trade]);
    add_last(env, Tag(0x5f2a), &purchase.currency);
    add_last(env, Tag(0x9f02), &amount_bytes(purchase.amount));
    add_last(env, Tag(0x9f03), &amount_bytes(purchase.other));
    add_last(env, Tag(0x9f06), row.name.as_slice());
    add_last(env, Tag(0x9f09), &row.version);
    add_last(env, Tag(0x9f1a), &settings.country);
    add_last(env, Tag(0x9f1c), &settings.id);
    add_last(env, Tag(0x9f21), &purchase.time);
    add_last(env, Tag(0x9f33), &settings.caps);
    add_last(env, Tag(0x9f34), &state_so_far.results);
    add_last(env, Tag(0x9f35), &[two_digits(settings.kind)]);
    add_last(env, Tag(0x9f37), &purchase.number);
}

/// Adds an object before those of greater tags.
fn add(env: &mut Env, tag: Tag, value: &[u8])
    requires above { AllByRecursion (λ entry. tag.0 < entry.0) env.old }
    requires few { length env.old ≤ 60 }
    requires all_short { AllByRecursion (λ entry. length entry.1 ≤ 256) env.old }
    requires short { length value.now ≤ 256 }
    ensures { env.new ≡ (tag.0, value.now) ∷ env.old }
{
    match env.put(tag, value) {
        Ok(()) => {}
        Err(_) => unreachable!(),
    }
}

/// Adds an object behind those of lesser tags.
fn add_last(env: &mut Env, tag: Tag, value: &[u8])
    requires below { AllByRecursion (λ entry. entry.0 < tag.0) env.old }
    requires few { length env.old ≤ 60 }
    requires all_short { AllByRecursion (λ entry. length entry.1 ≤ 256) env.old }
    requires short { length value.now ≤ 256 }
    ensures { env.new ≡ env.old ++ (tag.0, value.now) ∷ [] }
{
    match env.put(tag, value) {
        Ok(()) => {}
        Err(_) => unreachable!(),
    }
}
