//! Sessions of whole cards, each command with its answer.
ghost use Rattle.std.specs.Prelude.{◌≡◌, None, false};

use crate::cards::{
    APPROVED, AUTHENTICATE, Line, OFFLINE, OPTIONS, OPTIONS_AGAIN, REQUEST, SELECT, VERIFY,
    Variant, bytes_of, halves_of, image_of,
};
use crate::corners::{CORNERS, ISSUER_CORNERS, lines_in};
use crate::directories::DIRECTORIES;
use crate::issuers::ISSUERS;
use crate::limits::LIMITS;
use crate::logs::LOGS;
use crate::turned_on;
use apdu_core::Answer;
use card_app::{Card, personalise};
use card_files::Image;
use emv_ports::{Held, MemoryPages, Pages};
use std::alloc::Global;
use std::process::Abort;
use std::test::Fail;

/// A card, what its terminal sends and what it answers, by independent implementations.
const SESSIONS: [(Variant, &[Line]); 12] = [
    (
        Variant::Base,
        &[
            SELECT,
            OPTIONS,
            "00b2010c00 702e5a0847617390010100105f3401015f24032612315f25032401015f280208409f420208409f0702ff009f080200969000",
            "00b2020c00 70308c159f02069f03069f1a0295055f2a029a039c019f37048d178a029f02069f03069f1a0295055f2a029a039c019f37049000",
            "00b2030c00 70308e0e000000000000000041035e031f009f0d057068bcf8009f0e0500100000009f0f057068bc98009f1401059f2301099000",
            VERIFY,
            "80ca9f3600 9f3602000b9000",
            "80ca9f1300 9f130200099000",
            OFFLINE,
        ],
    ),
    (
        Variant::Online,
        &[
            SELECT,
            OPTIONS,
            VERIFY,
            REQUEST,
            AUTHENTICATE,
            APPROVED,
            "80ca9f1300 9f1302000b9000",
        ],
    ),
    (
        Variant::Online,
        &[
            SELECT,
            OPTIONS,
            VERIFY,
            REQUEST,
            "008200000ae50ca315fbd995d93531 9000",
            "80ae00001f3531000000002500000000000000084080000000000840240615000102030400 801100000bce662d9e0740373e0100000003019000",
        ],
    ),
    (
        Variant::Online,
        &[
            SELECT,
            OPTIONS,
            VERIFY,
            REQUEST,
            AUTHENTICATE,
            "04dadf01090935c47f63c1704132 9000",
            "841e000008c8f7aeabb5b88aa3 6988",
            "80ae40001f3030000000002500000000000000084080000000200840240615000102030400 801140000baeeb602c93d476400140000003019000",
        ],
    ),
    (
        Variant::Online,
        &[
            SELECT,
            OPTIONS,
            VERIFY,
            REQUEST,
            AUTHENTICATE,
            APPROVED,
            "8424000210b0869a45da56310b591ffd95cee7feef 9000",
            SELECT,
            OPTIONS,
            "0020008008249876ffffffffff 9000",
            "80ae40001d000000002500000000000000084080000000000840240615000102030400 801180000c7058f21f87f87ac50180000003019000",
            "008200000aa01c14305c2460543030 9000",
            "80ae40001f3030000000002500000000000000084080000000000840240615000102030400 801140000cc6978e4de16233ac0140000003019000",
        ],
    ),
    (
        Variant::Online,
        &[
            SELECT,
            OPTIONS,
            VERIFY,
            REQUEST,
            AUTHENTICATE,
            APPROVED,
            "8416000008fc25e7bbf0a5e829 9000",
            "00a4040007a000000003101000 6a81",
            "00a4050007a000000003101000 6a86",
            "00a4040000 6700",
            OPTIONS_AGAIN,
        ],
    ),
    (
        Variant::FormatTwo,
        &[
            SELECT,
            "80a8000002830000 770a820200009404080103009000",
            "80ae40001d000000002500000000000000084080000000000840240615000102030400 771d9f2701409f3602000b9f26083a25d8548f7ed3cb9f10060140000103019000",
        ],
    ),
    (
        Variant::NoIssuerAuth,
        &[
            SELECT,
            "80a8000002830000 80061800080103009000",
            VERIFY,
            "80ae40001d000000002500000000000000084080000000000840240615000102030400 801180000b2048120c52d7ee5a0180000003019000",
            "008200000700000000000000 6985",
            "008200000a0e66769950e1f3be3030 6985",
            "80ae40001f5933000000002500000000000000084080000000000840240615000102030400 801100000bd50a8dc0383ffa0f0100000003019000",
        ],
    ),
    (
        Variant::Base,
        &[
            SELECT,
            OPTIONS,
            "0020008008241111ffffffffff 63c2",
            "00200080082412340000000000 63c1",
            VERIFY,
            "80ae40001d000000002500000000000000084080004000000840240615000102030400 801140000b1fe5da94e94c28660140000103019000",
        ],
    ),
    (
        Variant::TwoNames,
        &[
            "00a4040007a000000003101000 6f178408a000000003101001a50b50064352454449548701029000",
            "00a4040207a000000003101000 6f178408a000000003101002a50b50064352454449548701019000",
            "00a4040207a000000003101000 6a82",
            "00a4040008a00000000310100200 6f178408a000000003101002a50b50064352454449548701019000",
            "80a8000002830000 80060000080103009000",
            "80ae40001d000000002500000000000000084080000000000840240615000102030400 801140000b3a25d8548f7ed3cb0140000103019000",
            "00a4040008a00000000310100100 6f178408a000000003101001a50b50064352454449548701029000",
            "80ca9f3600 9f3602000a9000",
        ],
    ),
    (
        Variant::CounterUsedUp,
        &[SELECT, OPTIONS_AGAIN, "80ca9f3600 9f3602ffff9000"],
    ),
    (
        Variant::Blocked,
        &[
            "00a4040007a000000003101000 6f168407a0000000031010a50b50064352454449548701016283",
            OPTIONS_AGAIN,
            "0020008008241234ffffffffff 6985",
        ],
    ),
];

/// Cards that approve nothing offline. The answers follow from the rules, by an implementation of these apart
/// from this program.
const ONLINE: [&[Line]; 8] = [
    // a wrong issuer
    &[
        SELECT,
        OPTIONS,
        VERIFY,
        REQUEST,
        "008200000a0f66769950e1f3be3030 6300",
        "008200000a0e66769950e1f3be3030 6985",
        "80ae40001f3030000000002500000000000000084080000000000840240615000102030400 801100000baa8a2c03c2666cd00100020003019000",
        SELECT,
        OPTIONS,
        "80ae40001d000000000100000000000000084000000080000840240615000102030400 801180000cf367bb9e931164a30180020003019000",
    ],
    // tries used up, restored
    &[
        SELECT,
        OPTIONS,
        "0020008008241111ffffffffff 63c2",
        "0020008008241111ffffffffff 63c1",
        "0020008008241111ffffffffff 63c0",
        "0020008008241234ffffffffff 6983",
        "80ae40001d000000002500000000000000084080000000000840240615000102030400 801180000b102647eee4a8bcb00180000000019000",
        "842400000836e631f298fc5388 9000",
        "80ca9f1700 9f1701039000",
        SELECT,
        OPTIONS,
        VERIFY,
    ],
    // scripts
    &[
        SELECT,
        OPTIONS,
        REQUEST,
        "80ae80001f3030000000002500000000000000084080000000000840240615000102030400 6a86",
        "04dadf020e0000000a0000954f26b0e0778d2b 6985",
        "04dadf020e0000000500006d626ad8e5b8d5ec 9000",
        "84240002102ecb01d41b5c0c9d63354555b23a5977 6985",
        "84240002105edfcca5ad02666da309a687ad6c26a1 6985",
        "84240002108a6c96f72aa87cbeddfcbfea771c3b10 9000",
        "04dadf010902a36551c4150870a3 9000",
        "841e000008c8f7aeabb5b88a5c 9000",
        "80ae40001f3030000000002500000000000000084080000000000840240615000102030400 801100000b9675eb9f3bacb7700100010003019000",
        "84180000088aa326cee53f1516 9000",
        "841e000008c8f7aeabb5b88a5c 9000",
        "00a4040007a000000003101000 6f168407a0000000031010a50b50064352454449548701016283",
        OPTIONS_AGAIN,
        "841800000833ebc0e7a4fb0d6c 6985",
    ],
    // a blocked application in its transaction, which an update without b7 leaves blocked
    &[
        SELECT,
        OPTIONS,
        REQUEST,
        "841e000008c8f7aeabb5b88a5c 9000",
        "00820000088ea4806180800000 9000",
        "80ae40001f3030000000002500000000000000084080000000000840240615000102030400 801100000b9675eb9f3bacb7700100010003019000",
    ],
    // issuer authentication data of eight bytes
    &[
        SELECT,
        OPTIONS,
        VERIFY,
        REQUEST,
        "0082000008e50ca315fbd995d9 6300",
        "008200000a0e66769950e1f3be3030 6985",
    ],
    // and of sixteen, the most
    &[
        SELECT,
        OPTIONS,
        VERIFY,
        REQUEST,
        "008200001000000000000000000000000000000000 6300",
    ],
    // a second list with other values than the first one's: all of them are taken
    &[
        SELECT,
        OPTIONS,
        VERIFY,
        REQUEST,
        AUTHENTICATE,
        "80ae40001f3030000000002600000000000100097880000000010978240616090506070800 801140000bee14e35e8eea1b620140000003019000",
    ],
    // ten bytes authenticate, and no more of them
    &[
        SELECT,
        OPTIONS,
        VERIFY,
        REQUEST,
        "008200000b0e66769950e1f3be303000 6300",
    ],
];

/// Sends commands, each of which has to have this answer.
fn send_all<'i, P: Pages>(rt: &impl Abort, card: Card<'i, P>, session: &[Line]) {
    match session {
        [] => {}
        [line, rest @ ..] => {
            let (command, answer) = halves_of(line);
            let mut out = Answer::new();
            match card.process(bytes_of(command).as_slice(), &mut out) {
                Ok(card) => {
                    let wanted = bytes_of(answer);
                    assert!(rt; out.as_slice() == wanted.as_slice(), "to {command}");
                    send_all(rt, card, rest);
                }
                Err(_) => panic!(rt; "the power is gone"),
            }
        }
    }
}

/// One session of a card that has decided nothing yet.
fn hold<P: Pages>(rt: &impl Abort, image: &Image, pages: P, session: &[Line])
    requires off { (P.memory pages).on ≡ false }
    requires plan { (P.memory pages).plan ≡ None }
{
    match turned_on(image, personalise(image, pages), None) {
        Ok(card) => send_all(rt, card, session),
        Err(_) => panic!(rt; "the power is gone"),
    }
}

/// Holds each session with a card of its own.
fn hold_each(rt: &impl Abort, alloc: Global, sessions: &[(Variant, &[Line])]) -> Result<(), Fail> {
    for (variant, session) in sessions {
        let image = image_of(rt, alloc, *variant)?;
        let pages = Held::new(alloc, MemoryPages::blank())?;
        hold(rt, &image, pages, *session);
    }
    Ok(())
}

/// Holds each session with a card that approves nothing offline.
fn hold_online(rt: &impl Abort, alloc: Global, sessions: &[&[Line]]) -> Result<(), Fail> {
    let image = image_of(rt, alloc, Variant::Online)?;
    for session in sessions {
        let pages = Held::new(alloc, MemoryPages::blank())?;
        hold(rt, &image, pages, *session);
    }
    Ok(())
}

/// Holds each session, which stands in a text, with a card of its own.
fn hold_texts(
    rt: &impl Abort,
    alloc: Global,
    variant: Variant,
    texts: &[Line],
) -> Result<(), Fail> {
    let image = image_of(rt, alloc, variant)?;
    for text in texts {
        let session = lines_in(*text);
        assert!(rt; !session.is_full(), "a longer text: {text}");
        let pages = Held::new(alloc, MemoryPages::blank())?;
        hold(rt, &image, pages, session.as_slice());
    }
    Ok(())
}

#[test]
fn sessions_are_those_of_independent_implementations(rt: HostRuntime) -> Result<(), Fail> {
    hold_each(&rt, rt.alloc(), &SESSIONS)
}

#[test]
fn logs_issuers_and_directories_are_told(rt: HostRuntime) -> Result<(), Fail> {
    hold_each(&rt, rt.alloc(), &LOGS)?;
    hold_texts(&rt, rt.alloc(), Variant::Online, &ISSUERS)?;
    hold_each(&rt, rt.alloc(), &DIRECTORIES)
}

#[test]
fn limits_and_lists_are_the_cards_own(rt: HostRuntime) -> Result<(), Fail> {
    hold_each(&rt, rt.alloc(), &LIMITS)?;
    hold_online(&rt, rt.alloc(), &ONLINE)
}

#[test]
fn commands_that_no_terminal_sends_are_answered(rt: HostRuntime) -> Result<(), Fail> {
    hold_texts(&rt, rt.alloc(), Variant::Online, &ISSUER_CORNERS)?;
    hold_texts(&rt, rt.alloc(), Variant::Base, &CORNERS)
}
