//! The table of a card.
ghost use Rattle.std.specs.Prelude.{◌≡◌, ◌≢◌, ◌≤◌, [], length, map, codes, false, IfOk, vec_len};
ghost use Rattle.std.specs.List.{All, AllPairs, list_any};
ghost use Rattle.std.specs.Str.{bytes_eq};
ghost use Rattle.card_files.specs.Directory.{is_hidden as is_hidden_name};
ghost use Rattle.card_files.specs.ImageRules.{KeepsRules, AreApps, IsDirectoryFile, AreInSight};
ghost use Rattle.toml.specs.View.{view, table_view, items_view};
ghost use Rattle.scenario_fields.specs.Fault.{Gives};
ghost use Rattle.scenario_fields.specs.Fields.{only, optional_number};
ghost use Rattle.scenario_fields.specs.TablePaths.{path};
ghost use Rattle.scenario.specs.CardRules.{IsNewCard};
ghost use Rattle.scenario_plan.specs.Cards.{IsKind, IsCard, AreCards};
ghost use Rattle.scenario.specs.Cards as spec;
ghost use Rattle.scenario.specs.Cards.{card_keys, card_of, card_item as item_of, cards_from, apps_from, apps_at as apps_found, version_at as version_found, directory_at as directory_found, canned_kind as canned_found, image_kind as image_found, card_kind_at as kind_found, cards_at as cards_found};
ghost use Rattle.scenario.specs.Seen.{seen_kind};
ghost use Rattle.scenario_plan.specs.SeenCards.{image_of, canned_of, seen_card, seen_cards};

use crate::app::app_item;
use crate::canned::canned_at;
use card_files::{AppImage, DIRECTORY_NAME, Image};
use issuer_host::HostKeys;
use scenario_fields::{Characters, Fields, ScenarioFault, Spot, TablePlace};
use scenario_plan::{CardKind, NamedCard};
use std::alloc::Global;
use toml::{Table, Value};

fn any_named(name: &[u8], cards: &[NamedCard]) -> bool
    ensures { result ≡ list_any (λ c. bytes_eq c.name.items name.now) cards.now }
{
    cards.iter().any(|card| card.name.as_slice() == name)
}

/// Whether a card has this name.
fn is_named(name: &[u8], cards: &[NamedCard]) -> bool
    ensures { result ≡ spec.is_name_used name.now (seen_cards cards.now) }
{
    any_named(name, cards)
}

/// A name that no earlier card has.
#[tactic(auto, unfolding(crate::specs::Cards::new_card_name))]
fn new_card_name(
    alloc: Global,
    index: usize,
    earlier: &[NamedCard],
    table: &Table,
) -> Result<Vec<u8>, ScenarioFault>
    ensures exact { Gives (λ name. name.items) result (spec.new_card_name index (seen_cards earlier.now) (table_view table.now)) }
    ensures some { IfOk result (λ name. 1 ≤ length name.items) }
    ensures short { IfOk result (λ name. length name.items ≤ 16) }
    ensures first { IfOk result (λ name. spec.is_name_used name.items (seen_cards earlier.now) ≡ false) }
{
    let fields = Fields {
        alloc,
        place: TablePlace::Card(index),
        table,
    };
    let name = fields.owned_text("name", Characters::LowercaseOrDigit, 1, 16)?;
    if is_named(name.as_slice(), earlier) {
        return Err(fields.spot("name").bad());
    }
    Ok(name)
}

/// Each application of a card.
fn read_apps(
    alloc: Global,
    card: usize,
    keys: &HostKeys,
    values: &[Value],
) -> Result<Vec<AppImage>, ScenarioFault>
    ensures exact { Gives (λ apps. apps.items) result (apps_from card 0 keys.now [] (items_view values.now)) }
    ensures count { IfOk result (λ apps. vec_len apps ≡ length values.now) }
    ensures rules { IfOk result (λ apps. All KeepsRules apps.items) }
    ensures names { IfOk result (λ apps. AllPairs (λ a b. a.name ≢ b.name) apps.items) }
{
    let mut apps: Vec<AppImage> = Vec::new(alloc);
    for value in values {
        let app = app_item(alloc, card, apps.len(), keys, apps.as_slice(), value)?;
        apps.push(app)?;
    }
    Ok(apps)
}

/// The applications of a card.
#[tactic(auto, unfolding(crate::specs::Cards::apps_at))]
fn apps_at(
    alloc: Global,
    card: usize,
    keys: &HostKeys,
    table: &Table,
) -> Result<Vec<AppImage>, ScenarioFault>
    ensures exact { Gives (λ apps. apps.items) result (apps_found card keys.now (table_view table.now)) }
    ensures image { IfOk result (λ apps. AreApps apps.items) }
{
    let fields = Fields {
        alloc,
        place: TablePlace::Card(card),
        table,
    };
    read_apps(alloc, card, keys, fields.array("app", 1, 4)?)
}

#[tactic(auto, unfolding(crate::specs::Cards::card_keys))]
fn only_card_keys(fields: &Fields) -> Result<(), ScenarioFault>
    ensures { Gives (λ u. u) result (only (path fields.now.place) card_keys (table_view fields.now.table.now)) }
{
    fields.only(&["name", "app", "canned", "version", "pse"])
}

/// The form of a card's state when the scenario begins, 1 or 2; 2 where the key is absent.
#[tactic(auto, unfolding(crate::specs::Cards::version_at, scenario_fields::specs::Value::is_listed))]
fn version_at(fields: &Fields) -> Result<u8, ScenarioFault>
    ensures exact { Gives (λ n. n) result (version_found (path fields.now.place) (table_view fields.now.table.now)) }
    ensures known { IfOk result (λ n. (1 ≤ n) × (n ≤ 2)) }
{
    let number = fields.listed_or(2, "version", &[1, 2])?;
    let version = number as u8;
    Ok(version)
}

/// The number at the key of the payment system directory, where it is there.
fn directory_file(fields: &Fields) -> Result<Option<u8>, ScenarioFault>
    ensures exact { Gives (λ o. o) result (optional_number (path fields.now.place) (codes "pse") 1 10 (table_view fields.now.table.now)) }
    ensures file { IfOk result IsDirectoryFile }
{
    match fields.optional_number("pse", 1, 10)? {
        Some(number) => Ok(Some(number as u8)),
        None => Ok(None),
    }
}

/// Whether the directory's name would find an application of this name.
#[tactic(auto, unfolding(card_files::specs::Directory::is_hidden))]
fn is_hidden(name: &[u8]) -> bool
    ensures { result ≡ is_hidden_name name.now }
{
    name.starts_with(&DIRECTORY_NAME)
}

/// Whether it would find one of these applications.
#[tactic(auto, unfolding(crate::specs::Cards::hides_one))]
fn hides_one(apps: &[AppImage]) -> bool
    ensures { result ≡ spec.hides_one apps.now }
{
    apps.iter().any(|app| is_hidden(app.name.as_slice()))
}

/// Whether the card may have a directory in this file, or has none.
fn is_directory(apps: &[AppImage], sfi: Option<u8>) -> bool
    ensures { result ≡ spec.is_directory apps.now sfi }
{
    match sfi {
        Some(_) => !hides_one(apps),
        None => true,
    }
}

/// The file of the payment system directory (EMV 4.3 Book 1 section 12.2.3), where the card has one.
#[tactic(auto, unfolding(crate::specs::Cards::directory_at))]
fn directory_at(fields: &Fields, apps: &[AppImage]) -> Result<Option<u8>, ScenarioFault>
    ensures exact { Gives (λ o. o) result (directory_found (path fields.now.place) apps.now (table_view fields.now.table.now)) }
    ensures file { IfOk result IsDirectoryFile }
    ensures sight { IfOk result (λ o. AreInSight o apps.now) }
{
    let sfi = directory_file(fields)?;
    if !is_directory(apps, sfi) {
        return Err(fields.spot("pse").bad());
    }
    Ok(sfi)
}

/// What a card answers by that has canned answers and nothing else.
#[tactic(auto, unfolding(crate::specs::Cards::canned_kind))]
fn canned_kind(fields: &Fields) -> Result<CardKind, ScenarioFault>
    ensures exact { Gives seen_kind result (canned_found (path fields.now.place) (table_view fields.now.table.now)) }
    ensures rules { IfOk result (λ kind. IsKind (image_of kind) (canned_of kind)) }
{
    let answers = canned_at(fields)?;
    fields.absent("version")?;
    fields.absent("pse")?;
    Ok(CardKind::Canned(answers))
}

/// What a card answers by that has applications.
#[tactic(auto, unfolding(crate::specs::Cards::image_kind))]
fn image_kind(
    alloc: Global,
    index: usize,
    keys: &HostKeys,
    table: &Table,
) -> Result<CardKind, ScenarioFault>
    ensures exact { Gives seen_kind result (image_found index keys.now (table_view table.now)) }
    ensures rules { IfOk result (λ kind. IsKind (image_of kind) (canned_of kind)) }
{
    let fields = Fields {
        alloc,
        place: TablePlace::Card(index),
        table,
    };
    let apps = apps_at(alloc, index, keys, table)?;
    fields.absent("canned")?;
    let version = version_at(&fields)?;
    let directory = directory_at(&fields, apps.as_slice())?;
    match Image::new(apps, version, directory) {
        Ok(image) => Ok(CardKind::App(image)),
        Err(_) => unreachable!(),
    }
}

/// What a card answers by: its applications, or in place of them its canned answers.
#[tactic(auto, unfolding(crate::specs::Cards::card_kind_at))]
fn kind_at(
    alloc: Global,
    index: usize,
    keys: &HostKeys,
    table: &Table,
) -> Result<CardKind, ScenarioFault>
    ensures exact { Gives seen_kind result (kind_found index keys.now (table_view table.now)) }
    ensures rules { IfOk result (λ kind. IsKind (image_of kind) (canned_of kind)) }
{
    let fields = Fields {
        alloc,
        place: TablePlace::Card(index),
        table,
    };
    if fields.optional("canned").is_some() && fields.optional("app").is_none() {
        return canned_kind(&fields);
    }
    image_kind(alloc, index, keys, table)
}

/// A card behind earlier ones.
#[tactic(auto, unfolding(crate::specs::Cards::card_of, scenario_plan::specs::SeenCards::seen_card))]
fn read_card(
    alloc: Global,
    index: usize,
    keys: &HostKeys,
    earlier: &[NamedCard],
    table: &Table,
) -> Result<NamedCard, ScenarioFault>
    ensures exact { Gives seen_card result (card_of index keys.now (seen_cards earlier.now) (table_view table.now)) }
    ensures new { IfOk result (λ card. IsNewCard (seen_cards earlier.now) (seen_card card)) }
{
    let fields = Fields {
        alloc,
        place: TablePlace::Card(index),
        table,
    };
    let name = new_card_name(alloc, index, earlier, table)?;
    let kind = kind_at(alloc, index, keys, table)?;
    only_card_keys(&fields)?;
    Ok(NamedCard { name, kind })
}

/// A card among those of the document.
#[tactic(auto, unfolding(crate::specs::Cards::card_item))]
fn card_item(
    alloc: Global,
    index: usize,
    keys: &HostKeys,
    earlier: &[NamedCard],
    value: &Value,
) -> Result<NamedCard, ScenarioFault>
    ensures exact { Gives seen_card result (item_of index keys.now (seen_cards earlier.now) (view value.now)) }
    ensures new { IfOk result (λ card. IsNewCard (seen_cards earlier.now) (seen_card card)) }
{
    let spot = Spot {
        alloc,
        place: TablePlace::Top,
        key: "card",
        index: Some(index),
    };
    let table = spot.table(value)?;
    read_card(alloc, index, keys, earlier, table)
}

/// Each card of the document.
fn read_cards(
    alloc: Global,
    keys: &HostKeys,
    values: &[Value],
) -> Result<Vec<NamedCard>, ScenarioFault>
    ensures exact { Gives (λ cards. seen_cards cards.items) result (cards_from 0 keys.now [] (items_view values.now)) }
    ensures count { IfOk result (λ cards. vec_len cards ≡ length values.now) }
    ensures cards { IfOk result (λ cards. All IsCard (seen_cards cards.items)) }
    ensures names { IfOk result (λ cards. AllPairs (λ a b. a.name ≢ b.name) (seen_cards cards.items)) }
{
    let mut cards: Vec<NamedCard> = Vec::new(alloc);
    for value in values {
        let card = card_item(alloc, cards.len(), keys, cards.as_slice(), value)?;
        cards.push(card)?;
    }
    Ok(cards)
}

/// The cards at their key in the document; `keys` are the issuer's, from which those of applications
/// are derived.
#[tactic(auto, unfolding(crate::specs::Cards::cards_at))]
pub fn cards_at(
    alloc: Global,
    keys: &HostKeys,
    document: &Table,
) -> Result<Vec<NamedCard>, ScenarioFault>
    ensures exact { Gives (λ cards. seen_cards cards.items) result (cards_found keys.now (table_view document.now)) }
    ensures some { IfOk result (λ cards. 1 ≤ vec_len cards) }
    ensures few { IfOk result (λ cards. vec_len cards ≤ 64) }
    ensures rules { IfOk result (λ cards. AreCards (seen_cards cards.items)) }
{
    let fields = Fields {
        alloc,
        place: TablePlace::Top,
        table: document,
    };
    read_cards(alloc, keys, fields.array("card", 1, 64)?)
}
