//! The words that order commands of a script.
use crate::facts::agree;
use emv_dict::Digits;
use script_words::{Ordered, Script, Word, made_length, read_order};
use std::process::Abort;
use std::test::Fail;

/// Texts that order nothing.
const REFUSED: [&[u8]; 36] = [
    b"",
    b" ",
    b"bad",
    b" bad",
    b"block ",
    b" block",
    b"Block",
    b"blocks",
    b"block  bad",
    b"block bad ",
    b"blockbad",
    b"block bad bad",
    b"block Bad",
    b"block worse",
    b"card block",
    b"pin",
    b"pin ",
    b"pin 123",
    b"pin 1234567890123",
    b"pin 12a4",
    b"pin  1234",
    b"pin 1234bad",
    b"pin 12 34",
    b"count",
    b"count ",
    b"count bad",
    b"count  1",
    b"count 01",
    b"count 00",
    b"count 256",
    b"count 1000",
    b"count +1",
    b"count 9bad",
    b"amount 1000000000000",
    b"amount 0999",
    b"amount 18446744073709551617",
];

#[test]
fn words_order_commands(rt: HostRuntime) {
    let short = digits(&rt, &[0, 1, 2, 3]);
    let long = digits(&rt, &[1, 2, 3, 4, 5, 6, 7, 8, 9, 0, 1, 2]);
    agree(
        &rt,
        &[
            ("block", gives(b"block", Word::Block, false)),
            ("block bad", gives(b"block bad", Word::Block, true)),
            ("unblock", gives(b"unblock", Word::Unblock, false)),
            ("card_block", gives(b"card_block", Word::CardBlock, false)),
            (
                "pin_unblock",
                gives(b"pin_unblock bad", Word::PinUnblock, true),
            ),
            ("pin", gives(b"pin 0123", Word::Pin(short), false)),
            (
                "pin bad",
                gives(b"pin 123456789012 bad", Word::Pin(long), true),
            ),
            ("count", gives(b"count 0", Word::Count(0), false)),
            ("count bad", gives(b"count 255 bad", Word::Count(255), true)),
            ("amount bad", gives(b"amount 0 bad", Word::Amount(0), true)),
            (
                "amount",
                gives(b"amount 999999999999", Word::Amount(999_999_999_999), false),
            ),
        ],
    );
}

#[test]
fn other_texts_order_nothing(rt: HostRuntime) {
    for text in &REFUSED {
        assert!(rt; read_order(*text).is_none(), "{text:?}");
    }
}

/// The word of each command, how many there are, whether an identifier is there, and the bytes of the
/// script by hand: two for the tag and the length of a command, 13 for a command alone, 21 with a PIN,
/// 14 with a count and 19 with an amount; seven for an identifier; a template's tag, and its length in
/// one byte up to 127, in two up to 255, else in three.
const LENGTHS: [(&str, usize, bool, usize); 9] = [
    ("block", 1, false, 17),
    ("pin 1234", 1, false, 25),
    ("count 9 bad", 1, true, 25),
    ("amount 100", 1, false, 23),
    ("card_block", 8, true, 129),
    ("count 1", 8, false, 131),
    ("pin_unblock", 16, true, 250),
    ("count 1", 16, false, 260),
    ("pin 1234", 16, true, 379),
];

#[test]
fn scripts_have_their_length(rt: HostRuntime) -> Result<(), Fail> {
    for row in &LENGTHS {
        let (text, count, named, length) = *row;
        let mut commands = Vec::new(rt.alloc());
        for _ in 0..count {
            commands.push(order(&rt, text))?;
        }
        assert!(rt; commands.len() <= 16);
        let id = if named { Some([0, 0, 0, 1]) } else { None };
        let script = Script {
            before: named,
            id,
            commands,
        };
        assert!(rt; made_length(&script) == length, "{count} {text}");
    }
    Ok(())
}

#[test]
fn commands_of_a_script_add_up(rt: HostRuntime) -> Result<(), Fail> {
    let mut commands = Vec::new(rt.alloc());
    for text in ["count 9", "block bad", "amount 1"] {
        commands.push(order(&rt, text))?;
    }
    assert!(rt; commands.len() <= 16);
    let script = Script {
        before: false,
        id: None,
        commands,
    };
    assert!(rt; made_length(&script) == 54);
    Ok(())
}

fn gives(text: &[u8], word: Word, bad: bool) -> bool {
    read_order(text) == Some(Ordered { word, bad })
}

fn digits(rt: &impl Abort, numbers: &[u8]) -> Digits {
    Digits::new(numbers).expect(rt, "each number is a digit")
}

fn order(rt: &impl Abort, text: &str) -> Ordered {
    read_order(text.as_bytes()).expect(rt, "an order")
}
