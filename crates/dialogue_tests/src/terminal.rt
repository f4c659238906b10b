//! The card and the terminal of the worked dialogues.
ghost use Rattle.std.specs.Prelude.{◌≡◌, IsTrue, length};
ghost use Rattle.auth_message.specs.Accepted.{AreDigitBytes};
ghost use Rattle.auth_message.specs.Field.{are_digits as all_digits};
ghost use Rattle.emv_dict.specs.Settings.{is_code};
ghost use Rattle.online_step.specs.TerminalData.{object, HasTerminalData};

use crate::hexadecimal::bytes;
use ber_tlv::Tag;
use emv_dict::has_digits;
use env_map::Env;
use object_lists::CardData;
use std::process::Abort;

/// The card's objects: its account number has the sequence number 01, and its lists ask for the fields of a
/// cryptogram.
const CARD: [(u32, &str); 7] = [
    (0x82, "1c00"),
    (0x94, "08010300"),
    (0x5a, "4761739001010010"),
    (0x5f34, "01"),
    (0x5f24, "261231"),
    (0x8c, "9f02069f03069f1a0295055f2a029a039c019f3704"),
    (0x8d, "8a029f02069f03069f1a0295055f2a029a039c019f3704"),
];

/// The card of the worked dialogues.
pub fn card(rt: &impl Abort) -> CardData {
    let mut env = Env::new();
    for (tag, value) in CARD {
        let _ = env.put(Tag(tag), &bytes(value));
    }
    CardData::checked(env).expect(rt, "a card that is read")
}

/// The terminal's objects of the worked dialogues.
pub fn terminal(rt: &impl Abort) -> Env
    ensures { HasTerminalData result }
{
    let mut env = Env::new();
    for (tag, value) in TERMINAL {
        let _ = env.put(Tag(tag), &bytes(value));
    }
    assert!(rt; has_terminal_data(&env));
    env
}

const TERMINAL: [(u32, &str); 10] = [
    (0x9f1c, "5445524d30303031"),
    (0x9f02, "000000002500"),
    (0x9f03, "000000000000"),
    (0x9f1a, "0840"),
    (0x95, "8000000000"),
    (0x5f2a, "0840"),
    (0x9a, "240615"),
    (0x9c, "00"),
    (0x9f37, "01020304"),
    (0x8a, "3030"),
];

/// Whether the objects that go into a request are there.
fn has_terminal_data(env: &Env) -> bool
    ensures { IsTrue result → HasTerminalData env.now }
{
    if !is_sized(env, 0x9f1c, 8) || !is_sized(env, 0x9f1a, 2) || !is_sized(env, 0x95, 5) {
        return false;
    }
    if !is_numeric(env, 0x9f02, 6) || !is_numeric(env, 0x9f03, 6) {
        return false;
    }
    if !has_code(env) || !is_numeric(env, 0x9a, 3) {
        return false;
    }
    is_numeric(env, 0x9c, 1) && is_sized(env, 0x9f37, 4)
}

fn is_sized(env: &Env, tag: u32, count: usize) -> bool
    ensures { IsTrue result → length (object tag env.now) ≡ count }
{
    match env.get(Tag(tag)) {
        Some(value) => value.len() == count,
        None => false,
    }
}

fn is_numeric(env: &Env, tag: u32, count: usize) -> bool
    ensures sized { IsTrue result → length (object tag env.now) ≡ count }
    ensures digits { IsTrue result → AreDigitBytes (object tag env.now) }
{
    match env.get(Tag(tag)) {
        Some(value) => value.len() == count && are_digits(value),
        None => false,
    }
}

/// Whether the currency is a code of three digits.
fn has_code(env: &Env) -> bool
    ensures sized { IsTrue result → length (object 0x5F2A env.now) ≡ 2 }
    ensures code { IsTrue result → IsTrue (is_code (object 0x5F2A env.now)) }
{
    match env.get(Tag(0x5f2a)) {
        Some(&[first, second]) => first <= 9 && has_digits(second),
        _ => false,
    }
}

fn are_digits(value: &[u8]) -> bool
    ensures { result ≡ all_digits value.now }
{
    value.iter().all(|byte| has_digits(*byte))
}
