//! What each key of a scenario gives.
use crate::documents::read;
use crate::facts::agree;
use card_files::{AppImage, Image, RecordImage};
use issuer_host::Method;
use scenario_lanes::Link;
use scenario_plan::Scenario;
use std::test::Fail;

/// The issuer's keys.
const AC_KEY: [u8; 16] = [
    0x01, 0x23, 0x45, 0x67, 0x89, 0xAB, 0xCD, 0xEF, 0xFE, 0xDC, 0xBA, 0x98, 0x76, 0x54, 0x32, 0x10,
];

const MAC_KEY: [u8; 16] = [
    0x23, 0x45, 0x67, 0x89, 0xAB, 0xCD, 0xEF, 0x01, 0xDC, 0xBA, 0x98, 0x76, 0x54, 0x32, 0x10, 0xFE,
];

const ENC_KEY: [u8; 16] = [
    0x45, 0x67, 0x89, 0xAB, 0xCD, 0xEF, 0x01, 0x23, 0xBA, 0x98, 0x76, 0x54, 0x32, 0x10, 0xFE, 0xDC,
];

const PIN_KEY: [u8; 16] = [
    0x67, 0x89, 0xAB, 0xCD, 0xEF, 0x01, 0x23, 0x45, 0x98, 0x76, 0x54, 0x32, 0x10, 0xFE, 0xDC, 0xBA,
];

/// The card's keys, derived by OpenSSL.
const CARD_AC_KEY: [u8; 16] = [
    0x2F, 0x02, 0xC8, 0xB0, 0xE9, 0xCB, 0xC7, 0xB0, 0x5B, 0x51, 0x67, 0xF7, 0xA1, 0xCD, 0xE6, 0xE5,
];

const CARD_MAC_KEY: [u8; 16] = [
    0xBF, 0x45, 0xF8, 0x89, 0x91, 0xE3, 0xB6, 0x70, 0x85, 0x79, 0xD3, 0x34, 0x52, 0xD9, 0x76, 0x4A,
];

const CARD_ENC_KEY: [u8; 16] = [
    0xAD, 0x01, 0xF4, 0xB3, 0xA8, 0x49, 0xEA, 0x1A, 0x40, 0xAD, 0xC8, 0xF7, 0xE6, 0xBF, 0xFD, 0xC1,
];

const PAN: [u8; 16] = [4, 7, 6, 1, 7, 3, 9, 0, 0, 1, 0, 1, 0, 0, 1, 0];

const PIN: [u8; 4] = [1, 2, 3, 4];

const AID: [u8; 7] = [0xA0, 0x00, 0x00, 0x00, 0x03, 0x10, 0x10];

const CDOL1: [u8; 21] = [
    0x9F, 0x02, 0x06, 0x9F, 0x03, 0x06, 0x9F, 0x1A, 0x02, 0x95, 0x05, 0x5F, 0x2A, 0x02, 0x9A, 0x03,
    0x9C, 0x01, 0x9F, 0x37, 0x04,
];

const CDOL2: [u8; 23] = [
    0x8A, 0x02, 0x9F, 0x02, 0x06, 0x9F, 0x03, 0x06, 0x9F, 0x1A, 0x02, 0x95, 0x05, 0x5F, 0x2A, 0x02,
    0x9A, 0x03, 0x9C, 0x01, 0x9F, 0x37, 0x04,
];

/// The records of file 1.
const RECORD_1: [u8; 48] = [
    0x70, 0x2E, 0x5A, 0x08, 0x47, 0x61, 0x73, 0x90, 0x01, 0x01, 0x00, 0x10, 0x5F, 0x34, 0x01, 0x01,
    0x5F, 0x24, 0x03, 0x26, 0x12, 0x31, 0x5F, 0x25, 0x03, 0x24, 0x01, 0x01, 0x5F, 0x28, 0x02, 0x08,
    0x40, 0x9F, 0x42, 0x02, 0x08, 0x40, 0x9F, 0x07, 0x02, 0xFF, 0x00, 0x9F, 0x08, 0x02, 0x00, 0x96,
];

const RECORD_2: [u8; 50] = [
    0x70, 0x30, 0x8C, 0x15, 0x9F, 0x02, 0x06, 0x9F, 0x03, 0x06, 0x9F, 0x1A, 0x02, 0x95, 0x05, 0x5F,
    0x2A, 0x02, 0x9A, 0x03, 0x9C, 0x01, 0x9F, 0x37, 0x04, 0x8D, 0x17, 0x8A, 0x02, 0x9F, 0x02, 0x06,
    0x9F, 0x03, 0x06, 0x9F, 0x1A, 0x02, 0x95, 0x05, 0x5F, 0x2A, 0x02, 0x9A, 0x03, 0x9C, 0x01, 0x9F,
    0x37, 0x04,
];

const RECORD_3: [u8; 50] = [
    0x70, 0x30, 0x8E, 0x0E, 0x00, 0x00, 0x00, 0x00, 0x00, 0x00, 0x00, 0x00, 0x41, 0x03, 0x5E, 0x03,
    0x1F, 0x00, 0x9F, 0x0D, 0x05, 0x70, 0x68, 0xBC, 0xF8, 0x00, 0x9F, 0x0E, 0x05, 0x00, 0x10, 0x00,
    0x00, 0x00, 0x9F, 0x0F, 0x05, 0x70, 0x68, 0xBC, 0x98, 0x00, 0x9F, 0x14, 0x01, 0x05, 0x9F, 0x23,
    0x01, 0x09,
];

#[test]
fn the_document_has_one_of_each(rt: HostRuntime) -> Result<(), Fail> {
    let scenario = read(rt.alloc(), &[])?;
    agree(
        &rt,
        &[
            ("account", scenario.accounts.len() == 1),
            ("card", scenario.cards.len() == 1),
            ("lane", scenario.lanes.len() == 1),
            ("schedule", scenario.schedule.is_empty()),
            ("copies", scenario.copies == 1),
            ("ac_key", scenario.issuer.ac.bytes() == AC_KEY),
            ("mac_key", scenario.issuer.mac.bytes() == MAC_KEY),
            ("enc_key", scenario.issuer.enc.bytes() == ENC_KEY),
            ("pin_key", scenario.issuer.pin.bytes() == PIN_KEY),
        ],
    );
    Ok(())
}

#[test]
fn the_account_is_read(rt: HostRuntime) -> Result<(), Fail> {
    let scenario = read(rt.alloc(), &[])?;
    let account = scenario.accounts.first().ok_or("an account")?;
    let pin = account.pin.as_ref().ok_or("a PIN")?;
    agree(
        &rt,
        &[
            ("pan", account.pan.as_slice() == PAN.as_slice()),
            ("currency", account.currency == [0x08, 0x40]),
            ("balance", account.balance == 100_000),
            ("blocked", !account.blocked),
            ("scripts", account.scripts.is_empty()),
            ("arpc", account.arpc == Method::One),
            ("status", account.status == 0),
            ("pin", pin.as_slice() == PIN.as_slice()),
        ],
    );
    Ok(())
}

/// The image of the scenario's first card.
fn image_of(scenario: &Scenario) -> Option<&Image> {
    scenario.cards.first()?.kind.image()
}

/// Its first application.
fn app_of(scenario: &Scenario) -> Option<&AppImage> {
    image_of(scenario)?.apps().first()
}

#[test]
fn the_files_of_the_card_are_read(rt: HostRuntime) -> Result<(), Fail> {
    let scenario = read(rt.alloc(), &[])?;
    let card = scenario.cards.first().ok_or("a card")?;
    let image = image_of(&scenario).ok_or("applications")?;
    let app = app_of(&scenario).ok_or("an application")?;
    agree(
        &rt,
        &[
            ("card", card.name.as_slice() == b"c1".as_slice()),
            ("apps", image.apps().len() == 1),
            ("version", image.version() == 2),
            ("pse", image.pse().is_none()),
            ("name", app.name.as_slice() == AID.as_slice()),
            ("label", app.label.as_slice() == b"CREDIT".as_slice()),
            ("priority", app.priority == Some(1)),
            ("pdol", app.pdol.is_none()),
            ("aip", app.aip == [0x1C, 0x00]),
            (
                "afl",
                app.afl.as_slice() == [0x08, 0x01, 0x03, 0x00].as_slice(),
            ),
            ("gpo_format", app.gpo_format == 1),
            ("ac_format", app.ac_format == 1),
            ("cdol1", app.cdol1.as_slice() == CDOL1.as_slice()),
            ("cdol2", app.cdol2.as_slice() == CDOL2.as_slice()),
        ],
    );
    Ok(())
}

/// Whether the record is this one of file 1.
fn is_record(record: &RecordImage, number: u8, bytes: &[u8]) -> bool {
    record.sfi == 1 && record.number == number && record.bytes.as_slice() == bytes
}

#[test]
fn the_records_of_the_card_are_read(rt: HostRuntime) -> Result<(), Fail> {
    let scenario = read(rt.alloc(), &[])?;
    let app = app_of(&scenario).ok_or("an application")?;
    let are_read = match app.records.as_slice() {
        [one, two, three] => {
            is_record(one, 1, &RECORD_1)
                && is_record(two, 2, &RECORD_2)
                && is_record(three, 3, &RECORD_3)
        }
        _ => false,
    };
    assert!(rt; are_read);
    Ok(())
}

#[test]
fn the_cards_account_and_keys_are_read(rt: HostRuntime) -> Result<(), Fail> {
    let scenario = read(rt.alloc(), &[])?;
    let app = app_of(&scenario).ok_or("an application")?;
    agree(
        &rt,
        &[
            ("pan", app.pan.as_slice() == PAN.as_slice()),
            ("sequence", app.sequence == 0x01),
            ("currency", app.currency == [0x08, 0x40]),
            ("tries", app.tries == 3),
            ("ac_key", app.ac_key.bytes() == CARD_AC_KEY),
            ("mac_key", app.mac_key.bytes() == CARD_MAC_KEY),
            ("enc_key", app.enc_key.bytes() == CARD_ENC_KEY),
            ("currency_two", app.currency_two.is_none()),
            ("limit_two", app.limit_two == 0),
            ("log", app.log == 0),
            ("log_sfi", app.log_sfi == 11),
        ],
    );
    Ok(())
}

/// The keys of an account, a card and an application that have a default.
const BESIDES: [(&str, &str); 3] = [
    (
        "balance = 100000",
        "balance = 100000\narpc = 2\nstatus = 80",
    ),
    ("name = \"c1\"", "name = \"c1\"\nversion = 1\npse = 10"),
    (
        "tries = 3",
        "tries = 3\ncurrency_two = \"978\"\nlimit_two = 3000\nlog = 5\nlog_sfi = 30",
    ),
];

#[test]
fn keys_with_a_default_are_read(rt: HostRuntime) -> Result<(), Fail> {
    let scenario = read(rt.alloc(), &BESIDES)?;
    let account = scenario.accounts.first().ok_or("an account")?;
    let image = image_of(&scenario).ok_or("applications")?;
    let app = app_of(&scenario).ok_or("an application")?;
    let state = &app.opening;
    agree(
        &rt,
        &[
            ("arpc", account.arpc == Method::Two),
            ("status", account.status == 80),
            ("version", image.version() == 1),
            ("pse", image.pse() == Some(10)),
            ("currency_two", app.currency_two == Some([0x09, 0x78])),
            ("limit_two", app.limit_two == 3000),
            ("log", app.log == 5),
            ("log_sfi", app.log_sfi == 30),
            ("sum_two of the state", state.sum_two == 0),
            ("limit_two of the state", state.limit_two == 3000),
            ("log_max of the state", state.log_max == 5),
            ("log of the state", state.log.is_empty()),
        ],
    );
    Ok(())
}

#[test]
fn the_card_opens_as_its_keys_say(rt: HostRuntime) -> Result<(), Fail> {
    let scenario = read(rt.alloc(), &[])?;
    let app = app_of(&scenario).ok_or("an application")?;
    let state = &app.opening;
    let pin = [0x24, 0x12, 0x34, 0xFF, 0xFF, 0xFF, 0xFF, 0xFF];
    agree(
        &rt,
        &[
            ("counter", state.counter == 10),
            ("last_online", state.last_online == 9),
            ("count", state.count == 0),
            ("sum", state.sum == 0),
            ("count_limit", state.count_limit == 5),
            ("sum_limit", state.sum_limit == 20_000),
            ("tries", state.tries == 3),
            ("blocked", !state.blocked),
            ("auth_failed", !state.auth_failed),
            ("pin", state.pin == pin),
        ],
    );
    Ok(())
}

/// A card of canned answers behind the other one.
const CANNED: (&str, &str) = (
    "[[lane]]",
    "[[card]]\nname = \"x\"\ncanned = [\"\", \"6985\"]\n\n[[lane]]",
);

#[test]
fn canned_answers_are_read(rt: HostRuntime) -> Result<(), Fail> {
    let scenario = read(rt.alloc(), &[CANNED])?;
    let card = scenario.cards.last().ok_or("a card")?;
    let answers = card.kind.canned().ok_or("answers")?;
    let first = answers.first().ok_or("an answer")?;
    let last = answers.last().ok_or("an answer")?;
    agree(
        &rt,
        &[
            ("cards", scenario.cards.len() == 2),
            ("image", card.kind.image().is_none()),
            ("answers", answers.len() == 2),
            ("first", first.is_empty()),
            ("last", last.as_slice() == [0x69, 0x85].as_slice()),
        ],
    );
    Ok(())
}

#[test]
fn the_terminal_is_read(rt: HostRuntime) -> Result<(), Fail> {
    let scenario = read(rt.alloc(), &[])?;
    let lane = scenario.lanes.first().ok_or("a lane")?;
    let settings = &lane.settings;
    agree(
        &rt,
        &[
            ("kind", settings.kind == 22),
            ("country", settings.country == [0x08, 0x40]),
            ("caps", settings.caps == [0xE0, 0xB8, 0xC8]),
            ("id", settings.id == *b"TERM0001"),
            ("pin_key", settings.pin_key == PIN_KEY),
            ("exceptions", settings.exceptions.is_empty()),
            ("aid", settings.aids.len() == 1),
            ("purchase", lane.purchases.len() == 1),
        ],
    );
    Ok(())
}

#[test]
fn the_terminals_application_is_read(rt: HostRuntime) -> Result<(), Fail> {
    let scenario = read(rt.alloc(), &[])?;
    let lane = scenario.lanes.first().ok_or("a lane")?;
    let row = lane.settings.aids.first().ok_or("an application")?;
    agree(
        &rt,
        &[
            ("name", row.name.as_slice() == AID.as_slice()),
            ("partial", !row.partial),
            ("version", row.version == [0x00, 0x96]),
            ("denial", row.denial == [0x00, 0x10, 0x00, 0x00, 0x00]),
            ("online", row.online == [0x70, 0x68, 0xBC, 0x98, 0x00]),
            ("default", row.fallback == [0x70, 0x68, 0xBC, 0xF8, 0x00]),
            ("floor", row.floor == 10_000),
            ("threshold", row.threshold == 5000),
            ("target", row.target == 10),
            ("max_target", row.max_target == 50),
        ],
    );
    Ok(())
}

#[test]
fn the_purchase_is_read(rt: HostRuntime) -> Result<(), Fail> {
    let scenario = read(rt.alloc(), &[])?;
    let lane = scenario.lanes.first().ok_or("a lane")?;
    let planned = lane.purchases.first().ok_or("a purchase")?;
    let purchase = &planned.purchase;
    let pin = purchase.pins.first().ok_or("a PIN")?;
    agree(
        &rt,
        &[
            ("card", planned.card == 0),
            ("link", planned.link == Link::Sound),
            ("tear", planned.tear.is_none()),
            ("amount", purchase.amount == 2500),
            ("other", purchase.other == 0),
            ("trade", purchase.trade == 0),
            ("currency", purchase.currency == [0x08, 0x40]),
            ("services", !purchase.services),
            ("date", purchase.date == [0x24, 0x06, 0x15]),
            ("time", purchase.time == [0x12, 0x00, 0x00]),
            ("number", purchase.number == [0x01, 0x02, 0x03, 0x04]),
            ("word", purchase.word == 49),
            ("forced", !purchase.forced),
            ("confirm", purchase.confirm),
            ("pins", purchase.pins.len() == 1),
            ("pin", pin.as_slice() == PIN.as_slice()),
        ],
    );
    Ok(())
}
