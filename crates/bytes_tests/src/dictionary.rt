//! The dictionary and the flags against the annexes, and the plain types that the terminal, the card and the
//! issuer share.
use ber_tlv::Tag;
use emv_dict::{
    Date, Digits, Ending, Format, Kind, MOST_AMOUNT, Name, Origin, PanFault, Row, Tsi, Tvr,
    amount_bytes, amount_of, is_code, nibble_at, pan_digits, pan_field, tag_row,
};

/// EMV 4.3 Book 3 Annex A, read by hand: tag, format, source.
const BY_HAND: [(u32, Format, Origin); 48] = [
    (0x50, Format::Text, Origin::Card),
    (0x57, Format::Binary, Origin::Card),
    (0x5A, Format::Compressed, Origin::Card),
    (0x5F20, Format::Text, Origin::Card),
    (0x5F24, Format::Numeric, Origin::Card),
    (0x5F25, Format::Numeric, Origin::Card),
    (0x5F28, Format::Numeric, Origin::Card),
    (0x5F2A, Format::Numeric, Origin::Terminal),
    (0x5F30, Format::Numeric, Origin::Card),
    (0x5F34, Format::Numeric, Origin::Card),
    (0x82, Format::Binary, Origin::Card),
    (0x8A, Format::Text, Origin::Issuer),
    (0x8C, Format::Binary, Origin::Card),
    (0x8D, Format::Binary, Origin::Card),
    (0x8E, Format::Binary, Origin::Card),
    (0x91, Format::Binary, Origin::Issuer),
    (0x94, Format::Binary, Origin::Card),
    (0x95, Format::Binary, Origin::Terminal),
    (0x9A, Format::Numeric, Origin::Terminal),
    (0x9B, Format::Binary, Origin::Terminal),
    (0x9C, Format::Numeric, Origin::Terminal),
    (0x9F02, Format::Numeric, Origin::Terminal),
    (0x9F03, Format::Numeric, Origin::Terminal),
    (0x9F06, Format::Binary, Origin::Terminal),
    (0x9F07, Format::Binary, Origin::Card),
    (0x9F08, Format::Binary, Origin::Card),
    (0x9F09, Format::Binary, Origin::Terminal),
    (0x9F0D, Format::Binary, Origin::Card),
    (0x9F0E, Format::Binary, Origin::Card),
    (0x9F0F, Format::Binary, Origin::Card),
    (0x9F10, Format::Binary, Origin::Card),
    (0x9F13, Format::Binary, Origin::Card),
    (0x9F14, Format::Binary, Origin::Card),
    (0x9F17, Format::Binary, Origin::Card),
    (0x9F1A, Format::Numeric, Origin::Terminal),
    (0x9F1C, Format::Text, Origin::Terminal),
    (0x9F1F, Format::Text, Origin::Card),
    (0x9F21, Format::Numeric, Origin::Terminal),
    (0x9F23, Format::Binary, Origin::Card),
    (0x9F26, Format::Binary, Origin::Card),
    (0x9F27, Format::Binary, Origin::Card),
    (0x9F33, Format::Binary, Origin::Terminal),
    (0x9F34, Format::Binary, Origin::Terminal),
    (0x9F35, Format::Numeric, Origin::Terminal),
    (0x9F36, Format::Binary, Origin::Card),
    (0x9F37, Format::Binary, Origin::Terminal),
    (0x9F42, Format::Numeric, Origin::Card),
    (0x9F4A, Format::Binary, Origin::Card),
];

#[test]
fn dictionary_is_the_table_read_by_hand(rt: HostRuntime) {
    for (tag, format, origin) in BY_HAND {
        assert!(rt;
            tag_row(Tag(tag)) == Some(Row { format, origin }),
            "{tag:x}"
        );
    }
    let mut listed = 0u32;
    for tag in 0..65536u32 {
        listed = listed.saturating_add(u32::from(tag_row(Tag(tag)).is_some()));
    }
    assert!(rt; listed == 48);
}

/// EMV 4.3 Book 3 Annex C5, read by hand: the flag, the number of its byte and the byte with its bit.
const RESULTS: [(Tvr, usize, u8); 22] = [
    (Tvr::OFFLINE_DATA_AUTHENTICATION_NOT_PERFORMED, 1, 0x80),
    (Tvr::ICC_DATA_MISSING, 1, 0x20),
    (Tvr::EXCEPTION_FILE, 1, 0x10),
    (Tvr::VERSIONS_DIFFER, 2, 0x80),
    (Tvr::EXPIRED, 2, 0x40),
    (Tvr::NOT_YET_EFFECTIVE, 2, 0x20),
    (Tvr::SERVICE_NOT_ALLOWED, 2, 0x10),
    (Tvr::NEW_CARD, 2, 0x08),
    (Tvr::VERIFICATION_NOT_SUCCESSFUL, 3, 0x80),
    (Tvr::UNRECOGNISED_CVM, 3, 0x40),
    (Tvr::PIN_TRY_LIMIT_EXCEEDED, 3, 0x20),
    (Tvr::PIN_PAD_NOT_PRESENT_OR_NOT_WORKING, 3, 0x10),
    (Tvr::PIN_NOT_ENTERED, 3, 0x08),
    (Tvr::ONLINE_PIN_ENTERED, 3, 0x04),
    (Tvr::FLOOR_LIMIT_EXCEEDED, 4, 0x80),
    (Tvr::LOWER_CONSECUTIVE_LIMIT_EXCEEDED, 4, 0x40),
    (Tvr::UPPER_CONSECUTIVE_LIMIT_EXCEEDED, 4, 0x20),
    (Tvr::RANDOMLY_SELECTED, 4, 0x10),
    (Tvr::MERCHANT_FORCED_ONLINE, 4, 0x08),
    (Tvr::ISSUER_AUTHENTICATION_FAILED, 5, 0x40),
    (Tvr::SCRIPT_FAILED_BEFORE_FINAL_CRYPTOGRAM, 5, 0x20),
    (Tvr::SCRIPT_FAILED_AFTER_FINAL_CRYPTOGRAM, 5, 0x10),
];

/// Five bytes of which the one of this number, from 1, is this one.
fn five_bytes(number: usize, byte: u8) -> [u8; 5] {
    let mut bytes = [0; 5];
    if let Some(place) = bytes.get_mut(number.saturating_sub(1)) {
        *place = byte;
    }
    bytes
}

#[test]
fn results_are_the_annexes_bits(rt: HostRuntime) {
    for (flag, number, byte) in RESULTS {
        let bytes = five_bytes(number, byte);
        assert!(rt;
            flag.bytes() == bytes
                && Tvr::from_bytes(bytes) == flag
                && flag.meets(bytes)
                && !flag.meets([0; 5]),
            "byte {number}, {byte:x}"
        );
    }
}

/// EMV 4.3 Book 3 Annex C6, read by hand: the flag and the two bytes.
const INFORMATION: [(Tsi, [u8; 2]); 5] = [
    (Tsi::CARDHOLDER_VERIFICATION, [0x40, 0]),
    (Tsi::CARD_RISK_MANAGEMENT, [0x20, 0]),
    (Tsi::ISSUER_AUTHENTICATION, [0x10, 0]),
    (Tsi::TERMINAL_RISK_MANAGEMENT, [0x08, 0]),
    (Tsi::SCRIPT_PROCESSING, [0x04, 0]),
];

#[test]
fn information_is_the_annexes_bits(rt: HostRuntime) {
    for (flag, bytes) in INFORMATION {
        assert!(rt;
            flag.bytes() == bytes && Tsi::from_bytes(bytes) == flag,
            "{bytes:?}"
        );
    }
}

/// Results, an action code and whether they have a bit in common.
const MEETINGS: [([u8; 5], [u8; 5], bool); 2] = [
    ([0x80, 0, 0x40, 0, 0], [0, 0, 0xC0, 0, 0], true),
    ([0x80, 0, 0x40, 0, 0], [0x7F, 0xFF, 0xBF, 0xFF, 0xFF], false),
];

#[test]
fn results_are_joined_and_meet_codes(rt: HostRuntime) {
    let rows = [
        (true, Tvr::EXPIRED),
        (false, Tvr::NEW_CARD),
        (true, Tvr::EXCEPTION_FILE),
    ];
    assert!(rt; Tvr::of_conditions(&rows).bytes() == [0x10, 0x40, 0, 0, 0]);
    for (seen, code, wanted) in MEETINGS {
        assert!(rt; Tvr::from_bytes(seen).meets(code) == wanted, "{code:?}");
    }
}

const KINDS: [(Kind, u8); 3] = [(Kind::Aac, 0x00), (Kind::Tc, 0x40), (Kind::Arqc, 0x80)];

/// Two kinds, and whether the first is above the second.
const ABOVE: [(Kind, Kind, bool); 4] = [
    (Kind::Tc, Kind::Arqc, true),
    (Kind::Arqc, Kind::Aac, true),
    (Kind::Aac, Kind::Aac, false),
    (Kind::Arqc, Kind::Tc, false),
];

#[test]
fn kinds_are_bits(rt: HostRuntime) {
    for (kind, byte) in KINDS {
        assert!(rt;
            kind.byte() == byte && Kind::of(byte | 0x08) == Some(kind),
            "{byte:x}"
        );
    }
    assert!(rt; Kind::of(0xC0).is_none());
    for (first, second, wanted) in ABOVE {
        assert!(rt; first.is_above(second) == wanted, "{first:?} {second:?}");
    }
}

const AMOUNTS: [(u64, [u8; 6]); 4] = [
    (0, [0; 6]),
    (2500, [0, 0, 0, 0, 0x25, 0]),
    (123_456_789_012, [0x12, 0x34, 0x56, 0x78, 0x90, 0x12]),
    (MOST_AMOUNT, [0x99; 6]),
];

/// Two bytes, and whether they are the digits of a code.
const CODES: [([u8; 2], bool); 5] = [
    ([0x08, 0x40], true),
    ([0x18, 0x40], false),
    ([0x08, 0x4A], false),
    ([0x09, 0x99], true),
    ([0x0A, 0x40], false),
];

#[test]
fn amounts_and_codes_are_digits(rt: HostRuntime) {
    for (amount, bytes) in AMOUNTS {
        assert!(rt;
            amount <= MOST_AMOUNT && amount_bytes(amount) == bytes && amount_of(bytes) == amount,
            "{amount}"
        );
    }
    assert!(rt; amount_of([0, 0, 0, 0, 0, 0xFF]) == 165);
    for (bytes, wanted) in CODES {
        assert!(rt; is_code(bytes) == wanted, "{bytes:?}");
    }
}

const THIRTEEN: &[u8] = &[4, 7, 6, 1, 7, 3, 9, 0, 0, 1, 0, 1, 0];

const NINETEEN: &[u8] = &[4, 7, 6, 1, 7, 3, 9, 0, 0, 1, 0, 1, 0, 0, 1, 0, 1, 2, 3];

/// Account numbers of the card, and their digits or why they are none.
const FIELDS: [(&[u8], Result<&[u8], PanFault>); 9] = [
    (
        &[0x47, 0x61, 0x73, 0x90, 0x01, 0x01, 0x00, 0x10],
        Ok(&[4, 7, 6, 1, 7, 3, 9, 0, 0, 1, 0, 1, 0, 0, 1, 0]),
    ),
    (
        &[0x47, 0x61, 0x73, 0x90, 0x01, 0x01, 0x0F, 0xFF],
        Ok(THIRTEEN),
    ),
    (
        &[0x47, 0x61, 0x73, 0x90, 0x01, 0x01, 0x00, 0x10, 0x12, 0x3F],
        Ok(NINETEEN),
    ),
    (
        &[0x47, 0x61, 0x73, 0x90, 0x01, 0x01],
        Err(PanFault::Length(12)),
    ),
    (
        &[0x47, 0x61, 0x73, 0x90, 0x01, 0x01, 0x00, 0x10, 0x12, 0x34],
        Err(PanFault::Length(20)),
    ),
    (&[], Err(PanFault::Length(0))),
    (
        &[0x47, 0x61, 0x73, 0xF0, 0x01, 0x01, 0x00],
        Err(PanFault::NotDigit(0)),
    ),
    (&[0x47, 0x6C, 0x73, 0xF0, 0x01], Err(PanFault::NotDigit(12))),
    (&[0x47, 0x61, 0x73, 0xFF, 0xFE], Err(PanFault::NotDigit(14))),
];

fn is_read(field: &[u8], wanted: Result<&[u8], PanFault>) -> bool {
    match pan_digits(field) {
        Ok(found) => wanted == Ok(found.as_slice()),
        Err(fault) => wanted == Err(fault),
    }
}

#[test]
fn account_numbers_are_read_up_to_their_filler(rt: HostRuntime) {
    for (field, wanted) in FIELDS {
        assert!(rt; is_read(field, wanted), "{field:?}");
    }
}

/// Digits, and the field that has them.
const SPELLED: [(&[u8], &[u8]); 2] = [
    (THIRTEEN, &[0x47, 0x61, 0x73, 0x90, 0x01, 0x01, 0x0F]),
    (
        NINETEEN,
        &[0x47, 0x61, 0x73, 0x90, 0x01, 0x01, 0x00, 0x10, 0x12, 0x3F],
    ),
];

#[test]
fn account_numbers_are_written(rt: HostRuntime) {
    for (digits, field) in SPELLED {
        let written = match Digits::new(digits) {
            Some(pan) => pan_field(&pan).as_slice() == field,
            None => false,
        };
        assert!(rt; written, "{field:?}");
    }
}

/// Three bytes and the year, the month and the day that they are, where they are a date.
const DATES: [([u8; 3], Option<(u16, u8, u8)>); 12] = [
    ([0x24, 0x06, 0x15], Some((2024, 6, 15))),
    ([0x00, 0x01, 0x31], Some((2000, 1, 31))),
    ([0x49, 0x12, 0x31], Some((2049, 12, 31))),
    ([0x50, 0x01, 0x01], Some((1950, 1, 1))),
    ([0x99, 0x10, 0x09], Some((1999, 10, 9))),
    ([0x24, 0x13, 0x01], None),
    ([0x24, 0x00, 0x01], None),
    ([0x24, 0x06, 0x32], None),
    ([0x24, 0x06, 0x00], None),
    ([0x2A, 0x06, 0x15], None),
    ([0xA2, 0x06, 0x15], None),
    ([0x24, 0x0A, 0x15], None),
];

#[test]
fn dates_have_their_century(rt: HostRuntime) {
    for (bytes, wanted) in DATES {
        let found = Date::read(bytes).map(|date| (date.year, date.month, date.day));
        assert!(rt; found == wanted, "{bytes:?}");
    }
}

/// Days, and whether each is before the 15 June 2024 and whether that day is before it.
const DAYS: [((u16, u8, u8), bool); 4] = [
    ((1999, 12, 31), true),
    ((2024, 5, 31), true),
    ((2024, 6, 14), true),
    ((2024, 6, 15), false),
];

#[test]
fn dates_are_in_order(rt: HostRuntime) {
    let day = Date {
        year: 2024,
        month: 6,
        day: 15,
    };
    for ((year, month, number), wanted) in DAYS {
        let other = Date {
            year,
            month,
            day: number,
        };
        assert!(rt;
            other.is_before(&day) == wanted && !day.is_before(&other),
            "{year} {month} {number}"
        );
    }
}

/// Numbers, and whether they are digits, at most nineteen.
const NO_DIGITS: [(&[u8], bool); 2] = [(&[10], false), (&[0; 20], false)];

#[test]
fn digits_keep_their_rules(rt: HostRuntime) {
    for (numbers, wanted) in NO_DIGITS {
        assert!(rt; Digits::new(numbers).is_some() == wanted, "{numbers:?}");
    }
    let Some(mut pin) = Digits::new(&[1, 2, 3]) else {
        assert!(rt; false, "three digits");
        return;
    };
    if pin.len() == 3 {
        pin.push(4);
    }
    assert!(rt; pin.as_slice() == [1, 2, 3, 4].as_slice() && pin.len() == 4);
    assert!(rt; pin == pin.copy() && !pin.is_empty() && Digits::empty().is_empty());
}

/// Bytes, and whether they are a name.
const NAMES: [(&[u8], bool); 3] = [(&[], false), (&[0; 17], false), (b"1PAY", true)];

#[test]
fn names_keep_their_rules(rt: HostRuntime) {
    for (bytes, wanted) in NAMES {
        let kept = match Name::new(bytes) {
            Some(name) => name.copy().as_slice() == bytes,
            None => false,
        };
        assert!(rt; kept == wanted, "{bytes:?}");
    }
    assert!(rt; nibble_at(&[0x12, 0x3A], 3) == 10);
    assert!(rt; Ending::default() == Ending::Declined { online: false });
}
