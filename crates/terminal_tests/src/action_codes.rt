//! Action analysis by rows: the codes of issuer and terminal, and what terminals of each type ask for.
use crate::fixture::{card_with, row};
use action_analysis::{Codes, codes_of, issuer_codes, unable, wanted};
use emv_dict::{Kind, Tvr};

/// Objects of a card: tags and values.
type Objects = &'static [(u32, &'static [u8])];

/// The issuer's codes for denial, online and default, where the card has them; and what terminals of the
/// types 21 to 26 ask for with 8000000000, AAC (a), TC (t) or ARQC (q): first, as other implementations
/// ask, and unable to go online.
const ROWS: [(Objects, &[u8; 6], &[u8; 6]); 5] = [
    (&[], b"qqaqqa", b"aaaaaa"),
    (
        &[
            (0x9f0e, &[0x00, 0, 0, 0, 0]),
            (0x9f0f, &[0x00, 0, 0, 0, 0]),
            (0x9f0d, &[0x00, 0, 0, 0, 0]),
        ],
        b"qttqtt",
        b"attatt",
    ),
    (
        &[
            (0x9f0e, &[0x80, 0, 0, 0, 0]),
            (0x9f0f, &[0x00, 0, 0, 0, 0]),
            (0x9f0d, &[0x00, 0, 0, 0, 0]),
        ],
        b"aaaaaa",
        b"attatt",
    ),
    (
        &[
            (0x9f0e, &[0x00, 0, 0, 0, 0]),
            (0x9f0f, &[0x80, 0, 0, 0, 0]),
            (0x9f0d, &[0x00, 0, 0, 0, 0]),
        ],
        b"qqtqqt",
        b"attatt",
    ),
    (
        &[
            (0x9f0e, &[0x00, 0, 0, 0, 0]),
            (0x9f0f, &[0x00, 0, 0, 0, 0]),
            (0x9f0d, &[0x80, 0, 0, 0, 0]),
        ],
        b"qtaqta",
        b"aaaaaa",
    ),
];

fn letter(kind: Kind) -> u8 {
    match kind {
        Kind::Aac => b'a',
        Kind::Tc => b't',
        Kind::Arqc => b'q',
    }
}

/// What terminals of the types 21 to 26 ask for first, and where they are unable to go online.
fn asked(codes: &Codes) -> ([u8; 6], [u8; 6]) {
    let tvr = Tvr::OFFLINE_DATA_AUTHENTICATION_NOT_PERFORMED;
    let (mut firsts, mut others) = ([0; 6], [0; 6]);
    for place in 0..6u8 {
        let kind = 21 + place;
        firsts[place as usize] = letter(wanted(tvr, codes, kind));
        others[place as usize] = letter(unable(tvr, codes, kind));
    }
    (firsts, others)
}

#[test]
fn codes_and_types_choose_the_kind(rt: HostRuntime) {
    let row = row(&rt, [[0; 5]; 3], [10000, 5000], [10, 50]);
    for (objects, firsts, others) in ROWS {
        let codes = codes_of(&card_with(&rt, objects), &row);
        assert!(rt;
            asked(&codes) == (*firsts, *others),
            "{firsts:?} {others:?}"
        );
    }
}

/// The issuer's codes by themselves, and what stands in place of absent ones.
#[test]
fn absent_codes_of_the_issuer_have_their_bytes(rt: HostRuntime) {
    let absent = Codes {
        denial: [0; 5],
        online: [0xff; 5],
        fallback: [0xff; 5],
    };
    assert!(rt; issuer_codes(&card_with(&rt, &[])) == absent);
    let objects: [(u32, &[u8]); 3] = [
        (0x9f0d, &[1, 2, 3, 4, 5]),
        (0x9f0e, &[6, 7, 8, 9, 10]),
        (0x9f0f, &[11, 12, 13, 14, 15]),
    ];
    let there = Codes {
        denial: [6, 7, 8, 9, 10],
        online: [11, 12, 13, 14, 15],
        fallback: [1, 2, 3, 4, 5],
    };
    assert!(rt; issuer_codes(&card_with(&rt, &objects)) == there);
}

/// The terminal's codes count beside the issuer's.
#[test]
fn codes_are_joined(rt: HostRuntime) {
    let terminals = [
        [0x00, 0x10, 0, 0, 0],
        [0x70, 0, 0, 0, 0],
        [0, 0, 0, 0, 0x01],
    ];
    let row = row(&rt, terminals, [10000, 5000], [10, 50]);
    let objects: [(u32, &[u8]); 1] = [(0x9f0f, &[0x80, 0, 0, 0, 0x02])];
    let wanted = Codes {
        denial: [0x00, 0x10, 0, 0, 0],
        online: [0xf0, 0, 0, 0, 0x02],
        fallback: [0xff; 5],
    };
    assert!(rt; codes_of(&card_with(&rt, &objects), &row) == wanted);
}
