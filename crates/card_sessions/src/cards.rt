//! The cards that are tried, and what is sent to them.
ghost use Rattle.std.specs.Prelude.{◌≡◌, ◌<◌, ◌≤◌, true, OnOk, OnErr};
ghost use Rattle.card_app.specs.SeenIcc.{IsIccOn, IsIccOff, icc_is_powered};
ghost use Rattle.card_files.specs.ImageRules.{IsDirectoryFile};

use crate::send;
use apdu_core::Answer;
use arrayvec::ArrayVec;
use card_app::Icc;
use card_files::{AppImage, Image, RecordImage};
use card_keys::master_key;
use card_state::AppState;
use emv_dict::{Digits, Name};
use emv_ports::{Gone, Pages};
use std::alloc::Global;
use std::process::Abort;
use std::test::Fail;
use triple_des::Key16;

/// How a card differs from the base card.
#[derive(Clone, Copy, PartialEq, Debug)]
pub(crate) enum Variant {
    /// In nothing.
    Base,
    /// No offline approval is within its limits.
    Online,
    /// Both formats are 2, and the profile is 0000.
    FormatTwo,
    /// Its counter is FFFF.
    CounterUsedUp,
    /// No offline approval is within its limits, and the profile has no issuer authentication.
    NoIssuerAuth,
    /// Two applications whose names have the base name's length and one byte more.
    TwoNames,
    /// The application is blocked.
    Blocked,
    /// There is no PIN.
    NoPin,
    /// Object lists of its own, and both formats are 2.
    OwnLists,
    /// The same, and no offline approval is within its limits.
    OwnListsOnline,
    /// The limit of the sum is the largest.
    Largest,
    /// One offline approval is within its limits.
    OneOffline,
    /// Its PIN has no tries.
    NoTries,
    /// There is neither a PIN nor a try.
    NothingToTry,
    /// Its counter is FFFE.
    LastCounter,
    /// A transaction log of ten rows.
    LogOfTen,
    /// A transaction log of one row, and no offline approval is within its limits.
    LogOfOne,
    /// A second currency with a limit of 3000, and a transaction log of five rows.
    TwoCurrencies,
    /// A payment system directory in file 1.
    Directory,
    /// Two names, and a directory in file 10.
    TwoInDirectory,
    /// Its state is in the older form, and no offline approval is within its limits.
    OlderForm,
}

const AC_KEY: u128 = 0x0123_4567_89ab_cdef_fedc_ba98_7654_3210;

const MAC_KEY: u128 = 0x2345_6789_abcd_ef01_dcba_9876_5432_10fe;

const ENC_KEY: u128 = 0x4567_89ab_cdef_0123_ba98_7654_3210_fedc;

const PAN: [u8; 16] = [4, 7, 6, 1, 7, 3, 9, 0, 0, 1, 0, 1, 0, 0, 1, 0];

pub(crate) const PIN_1234: [u8; 8] = [0x24, 0x12, 0x34, 0xff, 0xff, 0xff, 0xff, 0xff];

const CDOL1: &str = "9f02069f03069f1a0295055f2a029a039c019f3704";

const CDOL2: &str = "8a029f02069f03069f1a0295055f2a029a039c019f3704";

/// 9F1A 02, 9F35 01, 9F40 05, 9C 01.
const OWN_PDOL: &str = "9f1a029f35019f40059c01";

/// The eight fields in another order, and among them entries of the amount with another length and of
/// the terminal type.
const OWN_CDOL1: &str = "9f37049f02059f1a029c019a035f2a0295059f35019f03069f0206";

/// The amount, the verification results with another length, the unpredictable number, the response
/// code, and the other amount with another length.
const OWN_CDOL2: &str = "9f020695039f37048a029f0303";

const RECORD_1: &str =
    "702e5a0847617390010100105f3401015f24032612315f25032401015f280208409f420208409f0702ff009f08020096";

const RECORD_2: &str =
    "70308c159f02069f03069f1a0295055f2a029a039c019f37048d178a029f02069f03069f1a0295055f2a029a039c019f3704";

const RECORD_3: &str =
    "70308e0e000000000000000041035e031f009f0d057068bcf8009f0e0500100000009f0f057068bc98009f1401059f230109";

/// The value of a hexadecimal digit.
fn digit_of(letter: u8) -> u8
    ensures { result < 16 }
{
    match letter {
        b'0'..=b'9' => letter - b'0',
        b'a'..=b'f' => letter - b'a' + 10,
        _ => 0,
    }
}

/// The bytes of a hexadecimal text, at most 261 of them.
pub(crate) fn bytes_of(text: &str) -> ArrayVec<u8, 261> {
    let mut bytes = ArrayVec::new();
    let letters = text.as_bytes();
    for i in 0..letters.len() / 2 {
        if !bytes.is_full() {
            bytes.push(digit_of(letters[2 * i]) * 16 + digit_of(letters[2 * i + 1]));
        }
    }
    bytes
}

/// The command of a line and its answer.
pub(crate) fn halves_of(line: Line) -> (&'static str, &'static str) {
    line.split_once(' ').unwrap_or((line, ""))
}

/// The key of the base card under an issuer's key.
fn key_of(issuer: u128, pan: &Digits) -> Key16 {
    master_key(&Key16::new(issuer.to_be_bytes()), pan, 0x01)
}

fn record_of(alloc: Global, number: u8, text: &str) -> Result<RecordImage, Fail> {
    Ok(RecordImage {
        sfi: 1,
        number,
        bytes: bytes_of(text).as_slice().to_vec(alloc)?,
    })
}

/// The records of its one file.
fn records_of(alloc: Global) -> Result<Vec<RecordImage>, Fail> {
    let mut records = Vec::new(alloc);
    records.push(record_of(alloc, 1, RECORD_1)?)?;
    records.push(record_of(alloc, 2, RECORD_2)?)?;
    records.push(record_of(alloc, 3, RECORD_3)?)?;
    Ok(records)
}

/// The PIN try limit.
fn tries_of(variant: Variant) -> u8 {
    match variant {
        Variant::NoTries | Variant::NothingToTry => 0,
        _ => 3,
    }
}

/// Whether the card has object lists of its own.
fn has_own_lists(variant: Variant) -> bool {
    matches!(variant, Variant::OwnLists | Variant::OwnListsOnline)
}

/// The processing options object list.
fn pdol_of(alloc: Global, variant: Variant) -> Result<Option<Vec<u8>>, Fail> {
    if !has_own_lists(variant) {
        return Ok(None);
    }
    Ok(Some(bytes_of(OWN_PDOL).as_slice().to_vec(alloc)?))
}

/// The object lists of both GENERATE ACs.
fn cdols_of(variant: Variant) -> (&'static str, &'static str) {
    if has_own_lists(variant) {
        (OWN_CDOL1, OWN_CDOL2)
    } else {
        (CDOL1, CDOL2)
    }
}

/// The most rows of the transaction log.
fn rows_of(variant: Variant) -> u8 {
    match variant {
        Variant::LogOfTen => 10,
        Variant::LogOfOne => 1,
        Variant::TwoCurrencies => 5,
        _ => 0,
    }
}

/// The greatest sum in the second currency.
fn limit_two_of(variant: Variant) -> u64 {
    match variant {
        Variant::TwoCurrencies => 3_000,
        _ => 0,
    }
}

/// The second currency.
fn second_of(variant: Variant) -> Option<[u8; 2]> {
    match variant {
        Variant::TwoCurrencies => Some([0x09, 0x78]),
        _ => None,
    }
}

/// The file of the payment system directory.
fn directory_of(variant: Variant) -> Option<u8>
    ensures { IsDirectoryFile result }
{
    match variant {
        Variant::Directory => Some(1),
        Variant::TwoInDirectory => Some(10),
        _ => None,
    }
}

/// The state before the first decision.
pub(crate) fn opening_of(variant: Variant) -> AppState {
    AppState {
        counter: match variant {
            Variant::CounterUsedUp => u16::MAX,
            Variant::LastCounter => u16::MAX - 1,
            _ => 10,
        },
        last_online: 9,
        count_limit: match variant {
            Variant::Online
            | Variant::NoIssuerAuth
            | Variant::OwnListsOnline
            | Variant::LogOfOne
            | Variant::OlderForm => 0,
            Variant::OneOffline => 1,
            _ => 5,
        },
        sum_limit: if variant == Variant::Largest {
            999_999_999_999
        } else {
            20_000
        },
        tries: tries_of(variant),
        blocked: variant == Variant::Blocked,
        pin: match variant {
            Variant::NoPin | Variant::NothingToTry => [0; 8],
            _ => PIN_1234,
        },
        limit_two: limit_two_of(variant),
        log_max: rows_of(variant),
        ..AppState::default()
    }
}

/// The profile.
fn profile_of(variant: Variant) -> [u8; 2] {
    match variant {
        Variant::FormatTwo | Variant::TwoNames | Variant::TwoInDirectory => [0x00, 0x00],
        Variant::NoIssuerAuth => [0x18, 0x00],
        _ => [0x1c, 0x00],
    }
}

/// The application of this name.
fn app_of(
    rt: &impl Abort,
    alloc: Global,
    variant: Variant,
    name: &str,
    priority: u8,
) -> Result<AppImage, Fail> {
    let pan = Digits::new(&PAN).expect(rt, "digits");
    let format = if variant == Variant::FormatTwo || has_own_lists(variant) {
        2
    } else {
        1
    };
    let (cdol1, cdol2) = cdols_of(variant);
    Ok(AppImage {
        name: Name::new(bytes_of(name).as_slice()).expect(rt, "a name"),
        label: b"CREDIT".to_vec(alloc)?,
        priority: Some(priority),
        pdol: pdol_of(alloc, variant)?,
        aip: profile_of(variant),
        afl: bytes_of("08010300").as_slice().to_vec(alloc)?,
        gpo_format: format,
        ac_format: format,
        cdol1: bytes_of(cdol1).as_slice().to_vec(alloc)?,
        cdol2: bytes_of(cdol2).as_slice().to_vec(alloc)?,
        records: records_of(alloc)?,
        ac_key: key_of(AC_KEY, &pan),
        currency_two: second_of(variant),
        limit_two: limit_two_of(variant),
        log: rows_of(variant),
        log_sfi: 11,
        mac_key: key_of(MAC_KEY, &pan),
        enc_key: key_of(ENC_KEY, &pan),
        pan,
        sequence: 0x01,
        currency: [0x08, 0x40],
        opening: opening_of(variant),
        tries: tries_of(variant),
    })
}

/// The form of the state before the first decision.
fn version_of(variant: Variant) -> u8
    ensures { (1 ≤ result) × (result ≤ 2) }
{
    match variant {
        Variant::OlderForm => 1,
        _ => 2,
    }
}

/// The image of a card.
pub(crate) fn image_of(rt: &impl Abort, alloc: Global, variant: Variant) -> Result<Image, Fail> {
    let mut apps = Vec::new(alloc);
    if matches!(variant, Variant::TwoNames | Variant::TwoInDirectory) {
        apps.push(app_of(rt, alloc, variant, "a000000003101001", 2)?)?;
        apps.push(app_of(rt, alloc, variant, "a000000003101002", 1)?)?;
    } else {
        apps.push(app_of(rt, alloc, variant, "a0000000031010", 1)?)?;
    }
    Ok(Image::new(apps, version_of(variant), directory_of(variant)).expect(rt, "an image"))
}

/// A command and its answer, with a space between them.
pub(crate) type Line = &'static str;

pub(crate) const SELECT: Line =
    "00a4040007a000000003101000 6f168407a0000000031010a50b50064352454449548701019000";

pub(crate) const OPTIONS: Line = "80a8000002830000 80061c00080103009000";

pub(crate) const VERIFY: Line = "0020008008241234ffffffffff 9000";

/// The first GENERATE AC, which asks for TC and is answered by a request to go online.
pub(crate) const REQUEST: Line =
    "80ae40001d000000002500000000000000084080000000000840240615000102030400 801180000b204bb40db680038e0180000003019000";

/// The first GENERATE AC, which asks for TC and is approved.
pub(crate) const OFFLINE: Line =
    "80ae40001d000000002500000000000000084080000000000840240615000102030400 801140000b6114ff966d2fd2320140000103019000";

pub(crate) const AUTHENTICATE: Line = "008200000a0e66769950e1f3be3030 9000";

/// The second GENERATE AC, which asks for TC with code 00.
pub(crate) const APPROVED: Line =
    "80ae40001f3030000000002500000000000000084080000000000840240615000102030400 801140000b4d89bb8933ef3e9b0140000003019000";

/// GET PROCESSING OPTIONS once more.
pub(crate) const OPTIONS_AGAIN: Line = "80a8000002830000 6985";

/// Sends commands to a card that is on, until its power is gone. Each has to have this answer, and one
/// that is cut has none.
pub(crate) fn go_through<'i, P: Pages>(
    rt: &impl Abort,
    icc: &mut Icc<'i, P>,
    session: &[Line],
) -> Result<(), Gone>
    requires card { IsIccOn icc.old }
    requires runs { icc_is_powered icc.old ≡ true }
    ensures on { OnOk result (IsIccOn icc.new) }
    ensures runs { OnOk result (icc_is_powered icc.new ≡ true) }
    ensures off { OnErr result (IsIccOff icc.new) }
{
    match session {
        [] => Ok(()),
        [line, rest @ ..] => {
            let (command, answer) = halves_of(line);
            let mut out = Answer::new();
            match send(icc, bytes_of(command).as_slice(), &mut out) {
                Ok(()) => {
                    assert_eq!(rt; out.as_slice(), bytes_of(answer).as_slice(), "to {command}");
                    go_through(rt, icc, rest)
                }
                Err(gone) => {
                    assert!(rt; out.is_empty(), "an answer without the release");
                    Err(gone)
                }
            }
        }
    }
}
