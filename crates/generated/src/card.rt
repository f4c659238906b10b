//! The cards, each with one application.
ghost use Rattle.std.specs.Prelude.{◌≡◌, ◌<◌, IfOk, map};
ghost use Rattle.std.specs.List.{range_with_len};
ghost use Rattle.scenario_plan.specs.SeenCards.{seen_card, seen_cards};
ghost use Rattle.generated.specs.Card.{application, holder_record, generated_records, generated_app, generated_image, generated_card};
ghost use Rattle.generated.specs.Card as spec;
ghost use Rattle.generated.specs.Issuer.{generated_keys, generated_pan, pin as pin_digits};
ghost use Rattle.generated.specs.Purchases.{cards};

use crate::issuer::{CARDS, CODE, pan, pin};
use arrayvec::ArrayVec;
use card_files::rules::reference_pin;
use card_files::{AppImage, Image, RecordImage};
use card_keys::master_key;
use card_state::AppState;
use emv_dict::{Digits, Name, pan_field, two_digits};
use issuer_host::HostKeys;
use scenario_plan::{CardKind, NamedCard};
use std::alloc::{AllocError, Global};

/// The name of the application.
const APPLICATION: [u8; 7] = [0xa0, 0x00, 0x00, 0x00, 0x03, 0x10, 0x10];

/// The application interchange profile: cardholder verification, terminal risk management and issuer
/// authentication.
const AIP: [u8; 2] = [0x1c, 0x00];

/// The application file locator: records 1 to 3 of file 1.
const AFL: [u8; 4] = [0x08, 0x01, 0x03, 0x00];

/// What the first GENERATE AC brings: both amounts, country, verification results, currency, date, type
/// and unpredictable number.
const CDOL1: [u8; 21] = [
    0x9f, 0x02, 0x06, 0x9f, 0x03, 0x06, 0x9f, 0x1a, 0x02, 0x95, 0x05, 0x5f, 0x2a, 0x02, 0x9a, 0x03,
    0x9c, 0x01, 0x9f, 0x37, 0x04,
];

/// What the second one brings: the authorisation response code, and the same.
const CDOL2: [u8; 23] = [
    0x8a, 0x02, 0x9f, 0x02, 0x06, 0x9f, 0x03, 0x06, 0x9f, 0x1a, 0x02, 0x95, 0x05, 0x5f, 0x2a, 0x02,
    0x9a, 0x03, 0x9c, 0x01, 0x9f, 0x37, 0x04,
];

/// The record of the cardholder up to the account number.
const HOLDER_FRONT: [u8; 4] = [0x70, 0x2e, 0x5a, 0x08];

/// That record behind it: sequence number, the days of expiry and of effect, country, currency, usage
/// and version.
const HOLDER_REST: [u8; 36] = [
    0x5f, 0x34, 0x01, 0x01, 0x5f, 0x24, 0x03, 0x26, 0x12, 0x31, 0x5f, 0x25, 0x03, 0x24, 0x01, 0x01,
    0x5f, 0x28, 0x02, 0x08, 0x40, 0x9f, 0x42, 0x02, 0x08, 0x40, 0x9f, 0x07, 0x02, 0xff, 0x00, 0x9f,
    0x08, 0x02, 0x00, 0x96,
];

/// The record of both object lists.
const LISTS_RECORD: [u8; 50] = [
    0x70, 0x30, 0x8c, 0x15, 0x9f, 0x02, 0x06, 0x9f, 0x03, 0x06, 0x9f, 0x1a, 0x02, 0x95, 0x05, 0x5f,
    0x2a, 0x02, 0x9a, 0x03, 0x9c, 0x01, 0x9f, 0x37, 0x04, 0x8d, 0x17, 0x8a, 0x02, 0x9f, 0x02, 0x06,
    0x9f, 0x03, 0x06, 0x9f, 0x1a, 0x02, 0x95, 0x05, 0x5f, 0x2a, 0x02, 0x9a, 0x03, 0x9c, 0x01, 0x9f,
    0x37, 0x04,
];

/// The record of the methods of verification, of the issuer's action codes, and of the limits of
/// transactions that go offline in a row.
const RULES_RECORD: [u8; 50] = [
    0x70, 0x30, 0x8e, 0x0e, 0x00, 0x00, 0x00, 0x00, 0x00, 0x00, 0x00, 0x00, 0x41, 0x03, 0x5e, 0x03,
    0x1f, 0x00, 0x9f, 0x0d, 0x05, 0x70, 0x68, 0xbc, 0xf8, 0x00, 0x9f, 0x0e, 0x05, 0x00, 0x10, 0x00,
    0x00, 0x00, 0x9f, 0x0f, 0x05, 0x70, 0x68, 0xbc, 0x98, 0x00, 0x9f, 0x14, 0x01, 0x05, 0x9f, 0x23,
    0x01, 0x09,
];

/// The PIN try limit.
const TRIES: u8 = 3;

/// The file of the log that the application doesn't keep.
const LOG_FILE: u8 = 11;

/// The form of the cards' state.
const VERSION: u8 = 2;

/// The name of the application that cards have and terminals support.
pub(crate) fn application() -> Name
    ensures { result ≡ application }
{
    match Name::new(&APPLICATION) {
        Some(name) => name,
        None => unreachable!(),
    }
}

/// The bytes of the cardholder's record.
#[tactic(auto, unfolding(crate::specs::Card::holder_record))]
fn holder_record(alloc: Global, card: u8) -> Result<Vec<u8>, AllocError>
    requires { card < 8 }
    ensures { IfOk result (λ bytes. bytes.items ≡ holder_record card) }
{
    let mut bytes = Vec::from_slice(alloc, &HOLDER_FRONT)?;
    bytes.extend_from_slice(pan_field(&pan(card)).as_slice())?;
    bytes.extend_from_slice(&HOLDER_REST)?;
    Ok(bytes)
}

/// A record of the one file.
fn record(number: u8, bytes: Vec<u8>) -> RecordImage
    ensures { result ≡ spec.generated_record number bytes.items }
{
    RecordImage {
        sfi: 1,
        number,
        bytes,
    }
}

/// The records of a card.
fn records(alloc: Global, card: u8) -> Result<Vec<RecordImage>, AllocError>
    requires { card < 8 }
    ensures { IfOk result (λ records. records.items ≡ generated_records card) }
{
    let mut records = Vec::with_capacity(alloc, 3)?;
    records.push(record(1, holder_record(alloc, card)?))?;
    records.push(record(2, Vec::from_slice(alloc, &LISTS_RECORD)?))?;
    records.push(record(3, Vec::from_slice(alloc, &RULES_RECORD)?))?;
    Ok(records)
}

/// The state of the application before its first decision.
#[tactic(auto, unfolding(crate::specs::Card::generated_opening))]
fn opening() -> AppState
    ensures { result ≡ spec.generated_opening }
{
    let pin = reference_pin(&Some(pin()));
    AppState {
        counter: 10,
        last_online: 9,
        count: 0,
        sum: 0,
        count_limit: 5,
        sum_limit: 20_000,
        tries: TRIES,
        blocked: false,
        auth_failed: false,
        pin,
        sum_two: 0,
        limit_two: 0,
        log_max: 0,
        log: ArrayVec::new(),
    }
}

/// The application of a card; its keys are derived from the issuer's.
#[tactic(auto, unfolding(crate::specs::Card::generated_app))]
fn app(alloc: Global, issuer: &HostKeys, card: u8) -> Result<AppImage, AllocError>
    requires issuer { issuer.now ≡ generated_keys }
    requires card { card < 8 }
    ensures { IfOk result (λ app. app ≡ generated_app card) }
{
    let label = Vec::from_slice(alloc, b"CREDIT")?;
    let afl = Vec::from_slice(alloc, &AFL)?;
    let cdol1 = Vec::from_slice(alloc, &CDOL1)?;
    let cdol2 = Vec::from_slice(alloc, &CDOL2)?;
    let records = records(alloc, card)?;
    let pan = pan(card);
    let sequence = two_digits(1);
    let ac_key = master_key(&issuer.ac, &pan, sequence);
    let mac_key = master_key(&issuer.mac, &pan, sequence);
    let enc_key = master_key(&issuer.enc, &pan, sequence);
    Ok(AppImage {
        name: application(),
        label,
        priority: Some(1),
        pdol: None,
        aip: AIP,
        afl,
        gpo_format: 1,
        ac_format: 1,
        cdol1,
        cdol2,
        records,
        pan,
        sequence,
        currency: CODE,
        opening: opening(),
        tries: TRIES,
        ac_key,
        currency_two: None,
        limit_two: 0,
        log: 0,
        log_sfi: LOG_FILE,
        mac_key,
        enc_key,
    })
}

/// The image of a card: its one application, with its state in today's form and no directory.
fn image(alloc: Global, issuer: &HostKeys, card: u8) -> Result<Image, AllocError>
    requires issuer { issuer.now ≡ generated_keys }
    requires card { card < 8 }
    ensures { IfOk result (λ image. image ≡ generated_image card) }
{
    let mut apps = Vec::with_capacity(alloc, 1)?;
    apps.push(app(alloc, issuer, card)?)?;
    match Image::new(apps, VERSION, None) {
        Ok(image) => Ok(image),
        Err(_) => unreachable!(),
    }
}

/// A card with its name, `c0` and on.
#[tactic(auto, unfolding(crate::specs::Card::generated_card, scenario_plan::specs::SeenCards::seen_card))]
fn card(alloc: Global, issuer: &HostKeys, number: u8) -> Result<NamedCard, AllocError>
    requires issuer { issuer.now ≡ generated_keys }
    requires card { number < 8 }
    ensures { IfOk result (λ card. seen_card card ≡ generated_card number) }
{
    let name = Vec::from_slice(alloc, &[b'c', b'0' + number])?;
    let image = image(alloc, issuer, number)?;
    Ok(NamedCard {
        name,
        kind: CardKind::App(image),
    })
}

/// All cards.
pub(crate) fn cards(alloc: Global, issuer: &HostKeys) -> Result<Vec<NamedCard>, AllocError>
    requires { issuer.now ≡ generated_keys }
    ensures { IfOk result (λ all. seen_cards all.items ≡ map generated_card (range_with_len 0 cards)) }
{
    let mut cards = Vec::with_capacity(alloc, usize::from(CARDS))?;
    for number in 0..CARDS {
        cards.push(card(alloc, issuer, number)?)?;
    }
    Ok(cards)
}
