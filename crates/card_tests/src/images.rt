//! The images of applications.
use arrayvec::ArrayVec;
use card_files::{AppImage, DIRECTORY_NAME, Image, ImageFault, RecordImage, directory_fci};
use card_state::{AppState, CardState};
use emv_dict::{Digits, Name};
use std::alloc::Global;
use std::process::Abort;
use std::test::Fail;
use triple_des::Key16;

const NAME: [u8; 7] = [0xa0, 0x00, 0x00, 0x00, 0x03, 0x10, 0x10];

const LABEL: [u8; 6] = [0x43, 0x52, 0x45, 0x44, 0x49, 0x54];

/// 9F02 06, 9F03 06, 9F1A 02, 95 05, 5F2A 02, 9A 03, 9C 01, 9F37 04.
pub const CDOL1: [u8; 21] = [
    0x9f, 0x02, 0x06, 0x9f, 0x03, 0x06, 0x9f, 0x1a, 0x02, 0x95, 0x05, 0x5f, 0x2a, 0x02, 0x9a, 0x03,
    0x9c, 0x01, 0x9f, 0x37, 0x04,
];

pub const PAN: [u8; 16] = [4, 7, 6, 1, 7, 3, 9, 0, 0, 1, 0, 1, 0, 0, 1, 0];

pub const PIN_1234: [u8; 8] = [0x24, 0x12, 0x34, 0xff, 0xff, 0xff, 0xff, 0xff];

pub fn name_of(rt: &impl Abort, bytes: &[u8]) -> Name {
    Name::new(bytes).expect(rt, "a name")
}

pub(crate) fn record_of(
    alloc: Global,
    sfi: u8,
    number: u8,
    size: usize,
) -> Result<RecordImage, Fail> {
    Ok(RecordImage {
        sfi,
        number,
        bytes: vec![in alloc; 0x70; size]?,
    })
}

fn opening() -> AppState {
    AppState {
        counter: 10,
        last_online: 9,
        count_limit: 5,
        sum_limit: 20000,
        tries: 3,
        pin: PIN_1234,
        ..AppState::default()
    }
}

/// An application with records 1 and 2 of file 1 and record 1 of file 2.
pub fn app_of(rt: &impl Abort, alloc: Global) -> Result<AppImage, Fail> {
    let mut records = Vec::new(alloc);
    for row in &[(1, 1, 1), (1, 2, 2), (2, 1, 256)] {
        records.push(record_of(alloc, row.0, row.1, row.2)?)?;
    }
    Ok(AppImage {
        name: name_of(rt, &NAME),
        label: LABEL.to_vec(alloc)?,
        priority: Some(1),
        pdol: None,
        aip: [0x1c, 0x00],
        afl: [0x08, 0x01, 0x03, 0x00].to_vec(alloc)?,
        gpo_format: 1,
        ac_format: 1,
        cdol1: CDOL1.to_vec(alloc)?,
        cdol2: [0x8a, 0x02].to_vec(alloc)?,
        records,
        pan: Digits::new(&PAN).expect(rt, "digits"),
        sequence: 0x01,
        currency: [0x08, 0x40],
        opening: opening(),
        tries: 3,
        ac_key: Key16::new([0x01; 16]),
        currency_two: None,
        limit_two: 0,
        log: 0,
        log_sfi: 11,
        mac_key: Key16::new([0x23; 16]),
        enc_key: Key16::new([0x45; 16]),
    })
}

pub(crate) fn image_of(alloc: Global, app: AppImage) -> Result<Result<Image, ImageFault>, Fail> {
    let mut apps = Vec::new(alloc);
    apps.push(app)?;
    Ok(Image::new(apps, 2, None))
}

/// The control information of the only application.
fn control_of(
    rt: &impl Abort,
    alloc: Global,
    app: AppImage,
    out: &mut ArrayVec<u8, 256>,
) -> Result<(), Fail> {
    let image = image_of(alloc, app)?.expect(rt, "an image");
    assert!(rt; image.apps().len() == 1);
    image.fci(0, out);
    Ok(())
}

/// The control information of the application.
const CONTROL: [u8; 24] = [
    0x6f, 0x16, 0x84, 0x07, 0xa0, 0x00, 0x00, 0x00, 0x03, 0x10, 0x10, 0xa5, 0x0b, 0x50, 0x06, 0x43,
    0x52, 0x45, 0x44, 0x49, 0x54, 0x87, 0x01, 0x01,
];

/// With an empty object list.
const WITH_LIST: [u8; 27] = [
    0x6f, 0x19, 0x84, 0x07, 0xa0, 0x00, 0x00, 0x00, 0x03, 0x10, 0x10, 0xa5, 0x0e, 0x50, 0x06, 0x43,
    0x52, 0x45, 0x44, 0x49, 0x54, 0x87, 0x01, 0x01, 0x9f, 0x38, 0x00,
];

/// Without a priority.
const WITHOUT_PRIORITY: [u8; 21] = [
    0x6f, 0x13, 0x84, 0x07, 0xa0, 0x00, 0x00, 0x00, 0x03, 0x10, 0x10, 0xa5, 0x08, 0x50, 0x06, 0x43,
    0x52, 0x45, 0x44, 0x49, 0x54,
];

/// With a transaction log of five rows.
const WITH_LOG: [u8; 32] = [
    0x6f, 0x1e, 0x84, 0x07, 0xa0, 0x00, 0x00, 0x00, 0x03, 0x10, 0x10, 0xa5, 0x13, 0x50, 0x06, 0x43,
    0x52, 0x45, 0x44, 0x49, 0x54, 0x87, 0x01, 0x01, 0xbf, 0x0c, 0x05, 0x9f, 0x4d, 0x02, 0x0b, 0x05,
];

/// How an application differs from the one above.
#[derive(Clone, Copy)]
struct Change {
    /// Whether its name and its label are the longest.
    long: bool,
    /// Of its object list: how many entries 9A 02 of two bytes, and what is behind them.
    list: Option<(u8, &'static [u8])>,
    priority: Option<u8>,
    /// The rows of its log.
    rows: u8,
}

const NOTHING: Change = Change {
    long: false,
    list: None,
    priority: Some(1),
    rows: 0,
};

const EMPTY_LIST: Change = Change {
    list: Some((0, &[])),
    ..NOTHING
};

const NO_PRIORITY: Change = Change {
    priority: None,
    ..NOTHING
};

const LOG: Change = Change { rows: 5, ..NOTHING };

/// The longest name, label and object list.
const LONG: Change = Change {
    long: true,
    list: Some((100, &[])),
    ..NOTHING
};

const LONG_WITH_LOG: Change = Change { rows: 10, ..LONG };

/// An object list that is a byte shorter, and a log.
const LESS_LONG_WITH_LOG: Change = Change {
    list: Some((98, &[0x9f, 0x02, 0x06])),
    ..LONG_WITH_LOG
};

/// An application's control information: its length, its first and its last bytes. A log has just so room
/// beside an object list of 199 bytes.
const CONTROLS: [(Change, usize, &[u8], &[u8]); 6] = [
    (NOTHING, 24, &CONTROL, &[]),
    (EMPTY_LIST, 27, &WITH_LIST, &[]),
    (NO_PRIORITY, 21, &WITHOUT_PRIORITY, &[]),
    (LOG, 32, &WITH_LOG, &[]),
    (LONG, 249, &[0x6f, 0x81, 0xf6, 0x84, 0x10], &[0x9a, 0x02]),
    (
        LESS_LONG_WITH_LOG,
        256,
        &[],
        &[0xbf, 0x0c, 0x05, 0x9f, 0x4d, 0x02, 0x0b, 0x0a],
    ),
];

/// So many entries 9A 02 in two bytes each, and these bytes behind them.
fn list_of(alloc: Global, entries: u8, more: &[u8]) -> Result<Vec<u8>, Fail> {
    let mut list = Vec::new(alloc);
    for _ in 0..entries {
        list.extend_from_slice(&[0x9a, 0x02])?;
    }
    list.extend_from_slice(more)?;
    Ok(list)
}

/// A hundred entries 9A 02 in 200 bytes.
pub(crate) fn long_list(alloc: Global) -> Result<Vec<u8>, Fail> {
    list_of(alloc, 100, &[])
}

/// The application with this change.
fn changed(rt: &impl Abort, alloc: Global, change: Change) -> Result<AppImage, Fail> {
    let mut app = app_of(rt, alloc)?;
    if change.long {
        app.name = name_of(rt, &[0xa0; 16]);
        app.label = vec![in alloc; 0x41; 16]?;
    }
    if let Some((entries, more)) = change.list {
        app.pdol = Some(list_of(alloc, entries, more)?);
    }
    app.priority = change.priority;
    app.log = change.rows;
    app.opening.log_max = change.rows;
    Ok(app)
}

#[test]
fn gives_control_information(rt: HostRuntime) -> Result<(), Fail> {
    let alloc = rt.alloc();
    let mut out = ArrayVec::new();
    for row in &CONTROLS {
        let (change, length, front, back) = *row;
        control_of(&rt, alloc, changed(&rt, alloc, change)?, &mut out)?;
        let bytes = out.as_slice();
        let is_given = bytes.len() == length && bytes.starts_with(front) && bytes.ends_with(back);
        assert!(rt; is_given, "{length}");
    }
    Ok(())
}

#[test]
fn a_log_has_no_room_beside_the_longest_list(rt: HostRuntime) -> Result<(), Fail> {
    let app = changed(&rt, rt.alloc(), LONG_WITH_LOG)?;
    assert!(rt; is_field(image_of(rt.alloc(), app)?, 0, "log"));
    Ok(())
}

/// Whether the answer is this key of the application of this number.
pub(crate) fn is_field(answer: Result<Image, ImageFault>, number: u8, name: &str) -> bool {
    match answer {
        Ok(_image) => false,
        Err(fault) => is_key(&fault, number, name),
    }
}

fn is_key(fault: &ImageFault, number: u8, name: &str) -> bool {
    match fault {
        ImageFault::Field { app, key } => { *app == number && key.as_slice() == name.as_bytes() }
        _ => false,
    }
}

/// Applications with these names' last bytes.
pub fn apps_of(rt: &impl Abort, alloc: Global, ends: &[u8]) -> Result<Vec<AppImage>, Fail> {
    let mut apps = Vec::new(alloc);
    for end in ends {
        let mut app = app_of(rt, alloc)?;
        app.name = name_of(rt, &[0xa0, 0x00, 0x00, 0x00, *end]);
        apps.push(app)?;
    }
    Ok(apps)
}

/// The control information of a directory in file 1.
const DIRECTORY_CONTROL: [u8; 23] = [
    0x6f, 0x15, 0x84, 0x0e, 0x31, 0x50, 0x41, 0x59, 0x2e, 0x53, 0x59, 0x53, 0x2e, 0x44, 0x44, 0x46,
    0x30, 0x31, 0xa5, 0x03, 0x88, 0x01, 0x01,
];

/// Its first record.
const ENTRY: [u8; 24] = [
    0x70, 0x16, 0x61, 0x14, 0x4f, 0x07, 0xa0, 0x00, 0x00, 0x00, 0x03, 0x10, 0x10, 0x50, 0x06, 0x43,
    0x52, 0x45, 0x44, 0x49, 0x54, 0x87, 0x01, 0x01,
];

#[test]
fn has_a_directory(rt: HostRuntime) -> Result<(), Fail> {
    let alloc = rt.alloc();
    let mut apps = Vec::new(alloc);
    apps.push(app_of(&rt, alloc)?)?;
    let image = Image::new(apps, 1, Some(1)).expect(&rt, "an image");
    let is_named = image.directory_named(&DIRECTORY_NAME) == Some(1)
        && image.directory_named(&DIRECTORY_NAME[..13]).is_none();
    assert!(rt; is_named && image.version() == 1 && image.pse() == Some(1));
    let mut out = ArrayVec::new();
    directory_fci(1, &mut out);
    let is_control = out.as_slice() == DIRECTORY_CONTROL.as_slice();
    let is_record = image.directory_record(1, &mut out) && out.as_slice() == ENTRY.as_slice();
    assert!(rt; is_control && is_record);
    assert!(rt; !image.directory_record(2, &mut out) && !image.directory_record(255, &mut out));
    Ok(())
}

/// The last byte of the first fourteen of a name, whether the card has a directory, and whether this one hides
/// the application.
const HIDDEN: [(u8, Option<u8>, bool); 3] = [
    (0x31, Some(10), true),
    (0x32, Some(10), false),
    (0x31, None, false),
];

/// No application has the directory's name, or one that begins with it, behind all other faults.
#[test]
fn no_application_is_hidden_by_the_directory(rt: HostRuntime) -> Result<(), Fail> {
    for row in &HIDDEN {
        let (end, directory, is_hidden) = *row;
        let mut apps = apps_of(&rt, rt.alloc(), &[1, 2])?;
        assert!(rt; apps.len() == 2);
        let mut name = [0; 15];
        name[..14].copy_from_slice(&DIRECTORY_NAME);
        name[13] = end;
        apps[1].name = name_of(&rt, &name);
        let found = is_field(Image::new(apps, 2, directory), 1, "pse");
        assert!(rt; found == is_hidden, "{end} {directory:?}");
    }
    Ok(())
}

/// An application, a file and a record, and its length, where it is there.
const RECORDS: [(u8, u8, u8, Option<usize>); 7] = [
    (0, 1, 1, Some(1)),
    (0, 1, 2, Some(2)),
    (0, 2, 1, Some(256)),
    (0, 2, 2, None),
    (0, 3, 1, None),
    (1, 1, 1, None),
    (2, 1, 1, None),
];

/// An application and a file, and whether it is there.
const FILES: [(u8, u8, bool); 5] = [
    (0, 1, true),
    (0, 2, true),
    (0, 3, false),
    (1, 1, false),
    (9, 1, false),
];

/// Two applications, of which the second one has no records and another counter.
fn two_apps(rt: &impl Abort, alloc: Global) -> Result<Image, Fail> {
    let mut apps = apps_of(rt, alloc, &[1, 2])?;
    assert!(rt; apps.len() == 2);
    apps[1].records = Vec::new(alloc);
    apps[1].opening.counter = 77;
    Ok(Image::new(apps, 2, None).expect(rt, "an image"))
}

#[test]
fn finds_records(rt: HostRuntime) -> Result<(), Fail> {
    let image = two_apps(&rt, rt.alloc())?;
    for row in &RECORDS {
        let (app, sfi, number, size) = *row;
        let found = image.record(app, sfi, number).map(|bytes| bytes.len());
        assert!(rt; found == size, "{app} {sfi} {number}");
    }
    for row in &FILES {
        let (app, sfi, is_there) = *row;
        assert!(rt; image.has_file(app, sfi) == is_there, "{app} {sfi}");
    }
    Ok(())
}

#[test]
fn opens_each_application(rt: HostRuntime) -> Result<(), Fail> {
    let image = two_apps(&rt, rt.alloc())?;
    let mut state = CardState::default();
    state.blocked = true;
    state.apps.push(AppState::default());
    image.opening(&mut state);
    assert!(rt; !state.blocked && state.apps.len() == 2);
    assert!(rt; state.apps[0] == opening() && state.apps[1].counter == 77);
    Ok(())
}
