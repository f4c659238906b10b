//! PIN blocks that are written and read, and bytes that are none.
ghost use Rattle.std.specs.Prelude.{◌≡◌};

use emv_dict::Digits;
use pin_block::{online_block, plain_block, read_online, read_plain};
use std::process::Abort;
use triple_des::Key16;

const PAN: [u8; 16] = [4, 7, 6, 1, 7, 3, 9, 0, 0, 1, 0, 1, 0, 0, 1, 0];

/// A PIN, its key for the way to the issuer, its plain block and its block for the issuer, as OpenSSL
/// and a second implementation gave them.
const BLOCKS: [(&[u8], u128, u64, u64); 3] = [
    (
        &[1, 2, 3, 4],
        0x51af1ade333790dfba4c0279c88f1634,
        0x241234ffffffffff,
        0x2f649716b1db47b5,
    ),
    (
        &[9, 8, 7, 6, 5],
        0xd9eee89051177df77caf92de070991e7,
        0x2598765fffffffff,
        0xd388bc454ad912be,
    ),
    (
        &[1, 2, 3, 4, 5, 6, 7, 8, 9, 0, 1, 2],
        0x1b037fe46c805933f7ca73b7b0f81322,
        0x2c123456789012ff,
        0xdfac72ee5f7dc5ba,
    ),
];

/// Account numbers of other lengths, and the block of 1234 for the issuer under the first of these keys.
const ACCOUNTS: [(&[u8], u64); 4] = [
    (&[4, 7, 6, 1, 7, 3, 9, 0, 0, 1, 0, 1, 0], 0x14e6ce16dc7e39a5),
    (
        &[4, 7, 6, 1, 7, 3, 9, 0, 0, 1, 0, 1, 4, 0, 0, 7, 8],
        0xf271e987c2daed17,
    ),
    (
        &[4, 7, 6, 1, 7, 3, 9, 0, 0, 1, 0, 1, 0, 0, 1, 2, 4, 2],
        0x07f26622a0e2b9c6,
    ),
    (
        &[4, 7, 6, 1, 7, 3, 9, 0, 0, 1, 0, 1, 0, 0, 1, 0, 1, 2, 3],
        0x019f9206924ba212,
    ),
];

/// Bytes that are no plain block.
const REFUSED: [u64; 7] = [
    0x231234ffffffffff,
    0x041234ffffffffff,
    0x23123fffffffffff,
    0x2d1234567890123f,
    0x24123affffffffff,
    0x241234ffffffff0f,
    0x241234fffffffff0,
];

/// Account numbers and keys, and whether the block of 1234 for the first of both is read by them.
const READERS: [([u8; 16], u8, bool); 2] = [
    (
        [4, 7, 6, 1, 7, 3, 9, 0, 0, 1, 0, 1, 9, 9, 9, 0],
        0x11,
        false,
    ),
    (PAN, 0x22, false),
];

/// These digits.
fn digits(rt: &impl Abort, numbers: &[u8]) -> Digits
    ensures { result ≡ numbers.now }
{
    Digits::new(numbers).expect(rt, "each number is a digit")
}

#[test]
fn blocks_are_those_of_other_implementations(rt: HostRuntime) {
    let pan = digits(&rt, &PAN);
    for (pin, key, plain, online) in BLOCKS {
        let key = Key16::new(key.to_be_bytes());
        let (plain, online) = (plain.to_be_bytes(), online.to_be_bytes());
        let digits = digits(&rt, pin);
        assert!(rt;
            4 <= digits.len()
                && digits.len() <= 12
                && plain_block(&digits) == plain
                && read_plain(plain) == Some(digits.copy())
                && online_block(&key, &digits, &pan) == online
                && read_online(&key, online, &pan) == Some(digits),
            "{pin:?}"
        );
    }
}

#[test]
fn blocks_cover_account_numbers_of_other_lengths(rt: HostRuntime) {
    let key = Key16::new(BLOCKS[0].1.to_be_bytes());
    let pin = digits(&rt, &[1, 2, 3, 4]);
    for (pan, wanted) in ACCOUNTS {
        let pan = digits(&rt, pan);
        assert!(rt;
            13 <= pan.len() && online_block(&key, &pin, &pan) == wanted.to_be_bytes(),
            "{wanted:x}"
        );
    }
}

#[test]
fn other_bytes_are_no_block(rt: HostRuntime) {
    for block in REFUSED {
        assert!(rt; read_plain(block.to_be_bytes()).is_none(), "{block:x}");
    }
}

#[test]
fn others_read_no_block(rt: HostRuntime) {
    let block = online_block(
        &Key16::new([0x11; 16]),
        &digits(&rt, &[1, 2, 3, 4]),
        &digits(&rt, &PAN),
    );
    for (pan, key, wanted) in READERS {
        let read = read_online(&Key16::new([key; 16]), block, &digits(&rt, &pan));
        assert_eq!(rt; read.is_some(), wanted, "{pan:?} {key}");
    }
}
