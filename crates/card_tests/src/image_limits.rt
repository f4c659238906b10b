//! The limits of what stands on a card.
use crate::images::{CDOL1, PIN_1234, long_list, record_of};
use card_files::lists::{is_cdol1, is_cdol2, is_pdol};
use card_files::rules::{
    are_records, is_afl, is_among, is_format, is_label, is_log_file, is_log_size, is_name,
    is_reference_pin, is_second_code, is_sum_limit, is_tries,
};
use std::test::Fail;

/// A length, and whether a name, a label and a list of files may have it.
const LENGTHS: [(usize, bool, bool, bool); 8] = [
    (0, false, false, true),
    (1, false, true, true),
    (4, false, true, true),
    (5, true, true, true),
    (16, true, true, true),
    (17, false, false, true),
    (248, false, false, true),
    (249, false, false, false),
];

/// A character, and whether a label may have it.
const CHARACTERS: [(u8, bool); 4] = [(0x1f, false), (0x20, true), (0x7e, true), (0x7f, false)];

#[test]
fn keeps_to_the_limits_of_texts(rt: HostRuntime) {
    let bytes = [0x41; 260];
    for row in &LENGTHS {
        let (size, name, label, afl) = *row;
        let text = &bytes[..size];
        let is_kept = is_name(text) == name && is_label(text) == label && is_afl(text) == afl;
        assert!(rt; is_kept, "at {size}");
    }
    for row in &CHARACTERS {
        let (character, is) = *row;
        assert!(rt; is_label(&[0x41, character]) == is, "at {character}");
    }
}

/// A number, and whether it is a format and a limit of tries.
const NUMBERS: [(u8, bool, bool); 6] = [
    (0, false, true),
    (1, true, true),
    (2, true, true),
    (3, false, true),
    (15, false, true),
    (16, false, false),
];

/// A second currency, and whether it may stand beside 0840.
const SECOND_CODES: [(Option<[u8; 2]>, bool); 4] = [
    (Some([0x09, 0x78]), true),
    (Some([0x08, 0x40]), false),
    (Some([0x19, 0x78]), false),
    (None, true),
];

#[test]
fn keeps_to_the_limits_of_numbers(rt: HostRuntime) {
    for row in &NUMBERS {
        let (number, format, tries) = *row;
        let is_kept = is_format(number) == format && is_tries(number) == tries;
        assert!(rt; is_kept, "at {number}");
    }
    for row in &SECOND_CODES {
        let (code, is) = *row;
        assert!(rt; is_second_code([0x08, 0x40], code) == is, "{code:?}");
    }
    assert!(rt; is_sum_limit(999_999_999_999) && !is_sum_limit(1_000_000_000_000));
    assert!(rt; is_log_size(10) && !is_log_size(11));
}

/// A block, and whether it is a reference PIN.
const BLOCKS: [([u8; 8], bool); 8] = [
    ([0; 8], true),
    (PIN_1234, true),
    ([0x2c, 0x12, 0x34, 0x56, 0x78, 0x90, 0x12, 0xff], true),
    ([0x23, 0x12, 0x3f, 0xff, 0xff, 0xff, 0xff, 0xff], false),
    ([0x2d, 0x12, 0x34, 0x56, 0x78, 0x90, 0x12, 0x3f], false),
    ([0x04, 0x12, 0x34, 0xff, 0xff, 0xff, 0xff, 0xff], false),
    ([0x24, 0x12, 0x3a, 0xff, 0xff, 0xff, 0xff, 0xff], false),
    ([0x24, 0x12, 0x34, 0xff, 0xff, 0xff, 0xff, 0xf0], false),
];

#[test]
fn tells_a_reference_pin(rt: HostRuntime) {
    for row in &BLOCKS {
        let (block, is) = *row;
        assert!(rt; is_reference_pin(block) == is, "at {block:?}");
    }
}

/// A list, and whether it may be a processing options object list and the second object list of risk management.
const LISTS: [(&[u8], bool, bool); 4] = [
    (&[], true, false),
    (&[0x9a, 252], true, false),
    (&[0x9a, 253], false, false),
    (&[0x9f, 0x02], false, false),
];

/// A list, and whether it may be the second object list of risk management.
const SECOND_LISTS: [(&[u8], bool); 4] = [
    (&[0x8a, 0x02, 0x9a, 250], true),
    (&[0x8a, 0x02, 0x9a, 251], false),
    (&[0x8a, 0x03, 0x9a, 0x03], false),
    (&[0x9a, 0x03, 0x8a, 0x02], true),
];

/// Bytes of the first object list, of which none may be one more: those of tags and lengths.
const FIXED: [usize; 16] = [1, 2, 4, 5, 7, 8, 9, 10, 12, 13, 14, 15, 16, 17, 19, 20];

#[test]
fn keeps_to_the_limits_of_lists(rt: HostRuntime) {
    for row in &LISTS {
        let (bytes, pdol, cdol2) = *row;
        let is_kept = is_pdol(bytes) == pdol && is_cdol2(bytes) == cdol2;
        assert!(rt; is_kept, "{bytes:?}");
    }
    for row in &SECOND_LISTS {
        let (bytes, is) = *row;
        assert!(rt; is_cdol2(bytes) == is, "{bytes:?}");
    }
    assert!(rt; is_cdol1(&CDOL1));
    for place in &FIXED {
        let mut other = CDOL1;
        assert!(rt; *place < 21);
        other[*place] += 1;
        assert!(rt; !is_cdol1(&other), "at {place}");
    }
}

#[test]
fn keeps_to_the_lengths_of_lists(rt: HostRuntime) -> Result<(), Fail> {
    let alloc = rt.alloc();
    let mut list = long_list(alloc)?;
    let is_long = is_pdol(&list);
    list.extend_from_slice(&[0x9a, 0x00])?;
    assert!(rt; is_long && !is_pdol(&list));
    let mut long = CDOL1.to_vec(alloc)?;
    for _ in 0..231 / 3 {
        long.extend_from_slice(&[0x9f, 0x7e, 0x00])?;
    }
    let is_long = long.len() == 252 && is_cdol1(&long);
    long.extend_from_slice(&[0x9a, 0x00])?;
    assert!(rt; is_long && !is_cdol1(&long));
    Ok(())
}

/// A record's file, number and length, and whether a card may have it.
const RECORDS: [(u8, u8, usize, bool); 7] = [
    (0, 1, 1, false),
    (1, 1, 1, true),
    (30, 255, 256, true),
    (31, 1, 1, false),
    (1, 0, 1, false),
    (1, 1, 0, false),
    (1, 1, 257, false),
];

/// The rows and the file of a log, and whether a card with a record in file 11 may have it.
const LOGS: [(u8, u8, bool); 6] = [
    (1, 10, false),
    (1, 11, false),
    (0, 11, true),
    (1, 12, true),
    (1, 30, true),
    (0, 31, false),
];

#[test]
fn keeps_to_the_limits_of_records(rt: HostRuntime) -> Result<(), Fail> {
    let alloc = rt.alloc();
    for row in &RECORDS {
        let (sfi, number, size, is) = *row;
        let image = record_of(alloc, sfi, number, size)?;
        assert!(rt; are_records(&[image]) == is, "at {sfi} {number} {size}");
    }
    let images = [record_of(alloc, 11, 1, 1)?];
    for row in &LOGS {
        let (log, sfi, is) = *row;
        assert!(rt; is_log_file(log, sfi, &images) == is, "at {log} {sfi}");
    }
    Ok(())
}

#[test]
fn keeps_to_the_number_of_records(rt: HostRuntime) -> Result<(), Fail> {
    let alloc = rt.alloc();
    let mut images = Vec::new(alloc);
    for number in 1..=64 {
        images.push(record_of(alloc, 1, number, 1)?)?;
    }
    let is_there = is_among(&record_of(alloc, 1, 64, 9)?, &images);
    let is_other = is_among(&record_of(alloc, 2, 64, 9)?, &images);
    assert!(rt; are_records(&images) && is_there && !is_other);
    images.push(record_of(alloc, 2, 1, 1)?)?;
    assert!(rt; !are_records(&images));
    Ok(())
}
