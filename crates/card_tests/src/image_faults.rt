//! The first fault of a card's applications.
use crate::images::{CDOL1, PAN, app_of, apps_of, image_of, is_field, name_of, record_of};
use card_files::{AppImage, Image, ImageFault};
use card_state::LogRow;
use emv_dict::Digits;
use std::alloc::Global;
use std::process::Abort;
use std::test::Fail;

/// The keys that have a rule, in their order.
const KEYS: [&str; 20] = [
    "name",
    "label",
    "pdol",
    "afl",
    "gpo_format",
    "ac_format",
    "cdol1",
    "cdol2",
    "record",
    "pan",
    "sequence",
    "currency",
    "sum_limit",
    "pin",
    "tries",
    "currency_two",
    "limit_two",
    "log",
    "log_sfi",
    "opening",
];

/// What is against the rule of a key that has a list of bytes.
const BYTES: [(usize, &[u8]); 5] = [
    (1, &[]),
    (2, &[0x9f]),
    (3, &[0; 249]),
    (6, &[0x8a, 0x02]),
    (7, &CDOL1),
];

/// Puts such bytes at the key of their place.
fn spoil_bytes(alloc: Global, app: &mut AppImage, place: usize) -> Result<(), Fail> {
    for row in &BYTES {
        if row.0 == place {
            let bytes = row.1.to_vec(alloc)?;
            match place {
                1 => app.label = bytes,
                2 => app.pdol = Some(bytes),
                3 => app.afl = bytes,
                6 => app.cdol1 = bytes,
                _ => app.cdol2 = bytes,
            }
        }
    }
    Ok(())
}

/// Puts a value against its rule at the key of this place.
fn spoil(rt: &impl Abort, app: &mut AppImage, place: usize) {
    match place {
        0 => app.name = name_of(rt, &[0xa0; 4]),
        4 => app.gpo_format = 0,
        5 => app.ac_format = 3,
        9 => app.pan = Digits::new(&PAN[..12]).expect(rt, "digits"),
        10 => app.sequence = 0x1a,
        11 => app.currency = [0x18, 0x40],
        12 => app.opening.sum_limit = 1_000_000_000_000,
        13 => app.opening.pin = [0x00, 0, 0, 0, 0, 0, 0, 1],
        14 => app.tries = 16,
        15 => app.currency_two = Some(app.currency),
        16 => app.limit_two = 1_000_000_000_000,
        17 => app.log = 11,
        18 => app.log_sfi = 31,
        19 => app.opening.count = 1,
        _ => {}
    }
}

/// Puts values against their rules at the keys from this place on.
fn spoil_from(rt: &impl Abort, alloc: Global, app: &mut AppImage, from: usize) -> Result<(), Fail> {
    for place in from..KEYS.len() {
        spoil_bytes(alloc, app, place)?;
        spoil(rt, app, place);
    }
    if from <= 8 {
        app.records.push(record_of(alloc, 1, 2, 1)?)?;
    }
    Ok(())
}

/// Puts a value against its rule into the opening state, by its number, or beside it.
fn spoil_opening(rt: &impl Abort, app: &mut AppImage, number: u8) {
    match number {
        0 => app.opening.count = 1,
        1 => app.opening.sum = 1,
        2 => app.opening.auth_failed = true,
        3 => app.opening.tries = 2,
        4 => app.opening.sum_two = 1,
        5 => app.opening.limit_two = 1,
        6 => app.opening.log_max = 1,
        7 => assert!(rt; app.opening.log.try_push(LogRow::default()).is_ok()),
        _ => app.tries = 4,
    }
}

#[test]
fn names_the_first_key(rt: HostRuntime) -> Result<(), Fail> {
    let alloc = rt.alloc();
    for k in 0..KEYS.len() {
        let mut app = app_of(&rt, alloc)?;
        spoil_from(&rt, alloc, &mut app, k)?;
        assert!(rt; is_field(image_of(alloc, app)?, 0, KEYS[k]), "at {k}");
    }
    for number in 0..9 {
        let mut app = app_of(&rt, alloc)?;
        spoil_opening(&rt, &mut app, number);
        assert!(rt;
            is_field(image_of(alloc, app)?, 0, "opening"),
            "at {number}"
        );
    }
    Ok(())
}

/// An answer in a word, with the number that it names.
fn told(answer: Result<Image, ImageFault>) -> (&'static str, usize) {
    match answer {
        Ok(_image) => ("an image", 0),
        Err(ImageFault::Count(count)) => ("count", count),
        Err(ImageFault::SameName { app }) => ("same name", usize::from(app)),
        Err(_) => ("another", 0),
    }
}

/// The last bytes of the names of a card's applications, and what becomes of it.
const NAMES: [(&[u8], &str, usize); 6] = [
    (&[], "count", 0),
    (&[1, 2, 3, 4], "an image", 0),
    (&[1, 2, 3, 4, 5], "count", 5),
    (&[1, 1], "same name", 1),
    (&[1, 2, 3, 2], "same name", 3),
    (&[1, 2, 2, 1], "same name", 2),
];

#[test]
fn counts_applications_and_compares_names(rt: HostRuntime) -> Result<(), Fail> {
    let alloc = rt.alloc();
    for row in &NAMES {
        let (ends, word, number) = *row;
        let (found, of) = told(Image::new(apps_of(&rt, alloc, ends)?, 1, Some(10)));
        assert!(rt; found == word && of == number, "{ends:?}");
    }
    // The key of a later application comes before the second name of an earlier one.
    let mut apps = apps_of(&rt, alloc, &[1, 1, 2])?;
    assert!(rt; apps.len() == 3);
    apps[2].tries = 99;
    assert!(rt; is_field(Image::new(apps, 1, Some(1)), 2, "tries"));
    Ok(())
}
