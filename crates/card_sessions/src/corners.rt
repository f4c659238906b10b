//! Sessions in a text each: what a command may have besides what a terminal sends, and amounts that are no digits. The
//! answers follow from the rules, their cryptograms and codes are by OpenSSL.

use crate::cards::{APPROVED, Line, OPTIONS, OPTIONS_AGAIN, REQUEST, SELECT, VERIFY};
use arrayvec::ArrayVec;

/// Cards that approve nothing offline.
pub(crate) const ISSUER_CORNERS: [Line; 3] = [
    // the issuer is wrong, and its scripts are carried out all the same
    "select > options > verify > request > 008200000a0f66769950e1f3be3030 6300 > 04dadf010902a36551c4150870a3 9000 > 841e000008c8f7aeabb5b88a5c 9000 > 80ae40001f3030000000002500000000000000084080000000000840240615000102030400 801100000b674a5d35ea5541160100030003019000 > 84180000088aa326cee53f1516 9000 > select",
    // an expected length where no answer has a body
    "select > options > 0020008008241234ffffffffff00 9000 > request > 008200000a0e66769950e1f3be303000 9000 > 04dadf010902a36551c4150870a300 9000 > 04dadf020e000000005000f16115efd57ce4b400 9000 > 84240000081561db40dd9b88c200 9000 > 8424000210b0869a45da56310b591ffd95cee7feef00 9000 > 841e000008c8f7aeabb5b88a5c00 9000 > 84180000088aa326cee53f151600 9000 > approved > 8416000008fc25e7bbf0a5e82900 9000 > 00a4040007a000000003101000 6a81",
    // a limit whose half bytes are no digits, the left ones of their bytes or both
    "select > options > verify > request > 04dadf020ea0000000500045f5dca3a0086754 6985 > 04dadf020e0000000050a0fa1de206a4eb0662 6985 > 04dadf020ef99999999999c2ba9c257964d308 6985 > 04dadf020e9a0000005000499ffb06b257221a 6985 > 04dadf020e999999999999d2d32e28b94aa52e 9000",
];

/// Cards in nothing another than the base card.
pub(crate) const CORNERS: [Line; 5] = [
    // names of one to four bytes, with which the application's name begins or doesn't
    "00a4040001a000 6f168407a0000000031010a50b50064352454449548701019000 > 00a4040002a00000 6f168407a0000000031010a50b50064352454449548701019000 > 00a4040003a0000000 6f168407a0000000031010a50b50064352454449548701019000 > 00a4040004a000000000 6f168407a0000000031010a50b50064352454449548701019000 > 00a4040001b000 6a82 > 00a4040004a000000100 6a82 > options",
    // no expected length, or a shorter one than the answer's
    "00a4040007a0000000031010 6f168407a0000000031010a50b50064352454449548701019000 > 00b2010c 702e5a0847617390010100105f3401015f24032612315f25032401015f280208409f420208409f0702ff009f080200969000 > 00b20114 6a82 > 80ca9f36 9f3602000a9000 > 80ca9f3601 9f3602000a9000 > 80a80000028300 80061c00080103009000 > 80ca9f13 9f130200099000 > 80ca9f17 9f1701039000 > 80ae40001d0000000025000000000000000840800000000008402406150001020304 801140000b6114ff966d2fd2320140000103019000",
    // bytes 00 before the object 83 and behind it
    "select > 80a800000300830000 80061c00080103009000 > select > 80a80000040000830000 80061c00080103009000 > select > 80a80000040083000000 80061c00080103009000 > select > 80a80000048300000000 80061c00080103009000 > 80ca9f3600 9f3602000e9000 > select > 80a800000300008300 6700 > 80a8000002000000 6700",
    // half bytes that are no digits count by their places: 10000 and 10000 are the limit
    "select > options > 80ae40001d00000000a000000000000000084080000000000840240615000102030400 801140000bd39973abfe71f5d30140000103019000 > select > options > 80ae40001d000000010000000000000000084080000000000840240615000102030400 801140000c103e6410e9c6a3b50140000203019000 > select > options > 80ae40001d000000000001000000000000084080000000000840240615000102030400 801180000d6bb29eeb2fed4e8d0180000203019000",
    // and 25000 is above it
    "select > options > 80ae40001d00000001f000000000000000084080000000000840240615000102030400 801180000b004f64d0379f4e8f0180000003019000",
];

/// The command and the answer that a word names, or that it is.
fn exchange(word: Line) -> Line {
    match word {
        "select" => SELECT,
        "options" => OPTIONS,
        "again" => OPTIONS_AGAIN,
        "verify" => VERIFY,
        "request" => REQUEST,
        "approved" => APPROVED,
        _ => word,
    }
}

/// The exchanges of a text, up to 20 of them.
pub(crate) fn lines_in(text: Line) -> ArrayVec<Line, 20> {
    let mut lines = ArrayVec::new();
    for word in text.split(" > ") {
        if !lines.is_full() {
            lines.push(exchange(word));
        }
    }
    lines
}
