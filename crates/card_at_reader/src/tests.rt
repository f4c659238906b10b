mod asked;
mod canned;

use crate::top::run;
use emv_ports::{Held, MemoryPages, MemorySink, MemorySource};
use std::alloc::{AllocError, Global};
use std::process::Abort;
use std::test::Fail;

/// The issuer, and a card with one application.
const CARD: &str = r#"[issuer]
ac_key = "0123456789ABCDEFFEDCBA9876543210"
mac_key = "23456789ABCDEF01DCBA9876543210FE"
enc_key = "456789ABCDEF0123BA9876543210FEDC"
pin_key = "6789ABCDEF0123459876543210FEDCBA"
[[card]]
name = "c1"
[[card.app]]
name = "A0000000031010"
label = "CREDIT"
priority = 1
aip = "1C00"
afl = "08010300"
cdol1 = "9F02069F03069F1A0295055F2A029A039C019F3704"
cdol2 = "8A029F02069F03069F1A0295055F2A029A039C019F3704"
pan = "4761739001010010"
sequence = 1
currency = "840"
counter = 10
last_online = 9
count_limit = 5
sum_limit = 20000
pin = "1234"
[[card.app.record]]
sfi = 1
number = 1
bytes = "702E5A0847617390010100105F3401015F24032612315F25032401015F280208409F420208409F0702FF009F08020096"
[[card.app.record]]
sfi = 1
number = 2
bytes = "70308C159F02069F03069F1A0295055F2A029A039C019F37048D178A029F02069F03069F1A0295055F2A029A039C019F3704"
[[card.app.record]]
sfi = 1
number = 3
bytes = "70308E0E000000000000000041035E031F009F0D057068BCF8009F0E0500100000009F0F057068BC98009F1401059F230109"
"#;

/// A card of canned answers behind it.
const CANNED: &str = "[[card]]\nname = \"c2\"\ncanned = [\"9000\", \"\", \"6f6a82\"]\n";

/// A document behind its line, and what comes behind it.
fn talk(alloc: Global, document: &str, lines: &str) -> Result<String, AllocError> {
    let mut text = String::new(alloc);
    text.push_str("document ")?;
    text.push_str(document.len().to_string(alloc)?.as_str())?;
    text.push_str("\n")?;
    text.push_str(document)?;
    text.push_str(lines)?;
    Ok(text)
}

/// The exit status, and what the sink holds. The calls of source and sink with these numbers fail.
fn run_of(
    alloc: Global,
    words: &[&str],
    text: &str,
    fails: (&[u32], &[u32]),
) -> Result<(u8, Vec<u8>), Fail> {
    let mut list = Vec::new(alloc);
    for word in words {
        list.push(String::from_str(alloc, word)?)?;
    }
    let pages = Held::new(alloc, MemoryPages::blank())?;
    let bytes = text.as_bytes().to_vec(alloc)?;
    let mut source = MemorySource::slow(bytes, fails.0.to_vec(alloc)?, 5);
    let mut sink = MemorySink::new(alloc, 10_000, fails.1.to_vec(alloc)?)?;
    let status = run(alloc, &list, pages, &mut source, &mut sink).code();
    Ok((status, sink.bytes().to_vec(alloc)?))
}

/// Tries what becomes of these lines behind a document, for the card of this name.
fn hold_for(
    rt: &impl Abort,
    alloc: Global,
    (name, document): (&str, &str),
    lines: &str,
    wanted: &str,
) -> Result<(), Fail> {
    let text = talk(alloc, document, lines)?;
    let (status, told) = run_of(alloc, &[name], text.as_str(), (&[], &[]))?;
    assert_eq!(rt; status, 0, "{lines}");
    assert!(rt; told.as_slice() == wanted.as_bytes(), "{lines}");
    Ok(())
}

/// Tries what becomes of these lines.
fn hold(rt: &impl Abort, alloc: Global, lines: &str, wanted: &str) -> Result<(), Fail> {
    hold_for(rt, alloc, ("c1", CARD), lines, wanted)
}

/// A session up to the PIN, with capital digits too.
const SESSION: &str = "\
power
00a4040007a000000003101000
80A8000002830000
0020008008241234ffffffffff
80ca9f3600
off
80ca9f3600
power
";

const ANSWERS: &str = "\
power 10,9,0,0,3,0
< 6f168407a0000000031010a50b50064352454449548701019000
< 80061c00080103009000
< 9000
< 9f3602000b9000
off
?
power 11,9,0,0,3,0
";

#[test]
fn a_card_answers_by_its_session(rt: HostRuntime) -> Result<(), Fail> {
    hold(&rt, rt.alloc(), SESSION, ANSWERS)
}

/// The card is pulled out while it checks the PIN, behind a power-up that isn't cut, and again as it is powered up.
const PULLED: &str = "\
pull 3 within 2
power
power
00a4040007a000000003101000
80a8000002830000
0020008008241234ffffffffff
80ca9f3600
power
pull 0 release
off
power
power
";

const PULLED_ANSWERS: &str = "\
pull 3 within 2
power 10,9,0,0,3,0
power 10,9,0,0,3,0
< 6f168407a0000000031010a50b50064352454449548701019000
< 80061c00080103009000
< torn
?
power 11,9,0,0,2,0
pull 0 release
off
power torn
power 11,9,0,0,2,0
";

#[test]
fn a_plan_fires_once(rt: HostRuntime) -> Result<(), Fail> {
    hold(&rt, rt.alloc(), PULLED, PULLED_ANSWERS)
}

/// The later of two plans holds, and only from the next power-up, also behind one that has fired.
const REPLACED: &str = "\
pull 1 before 1
pull 9 release
power
pull 1 before 1
00a4040007a000000003101000
80a8000002830000
power
pull 1 release
00a4040007a000000003101000
80a8000002830000
power
00a4040007a000000003101000
80a8000002830000
power
";

const REPLACED_ANSWERS: &str = "\
pull 1 before 1
pull 9 release
power 10,9,0,0,3,0
pull 1 before 1
< 6f168407a0000000031010a50b50064352454449548701019000
< 80061c00080103009000
power 11,9,0,0,3,0
pull 1 release
< 6f168407a0000000031010a50b50064352454449548701019000
< torn
power 11,9,0,0,3,0
< 6f168407a0000000031010a50b50064352454449548701019000
< torn
power 12,9,0,0,3,0
";

#[test]
fn a_later_plan_replaces_one(rt: HostRuntime) -> Result<(), Fail> {
    hold(&rt, rt.alloc(), REPLACED, REPLACED_ANSWERS)
}

/// Lines that ask nothing.
const HOSTILE: [&str; 34] = [
    "",
    " ",
    "power ",
    " power",
    "POWER",
    "power\r",
    "off 1",
    "state ",
    "states",
    "torn 1 release",
    "TORN",
    "pull",
    "pull ",
    "pull 1",
    "pull 1 ",
    "pull x release",
    "pull 256 release",
    "pull 1 before",
    "pull 1 before 0",
    "pull 1 before 256",
    "pull 1 within -1",
    "pull 1  release",
    "pull 1 release ",
    "pull 1 release 2",
    "pull -1 release",
    "0",
    "00a",
    "00 a4",
    "0x00a4",
    "> 00a4",
    "g0",
    "\0",
    "\u{e9}",
    "document 3",
];

#[test]
fn other_lines_ask_nothing(rt: HostRuntime) -> Result<(), Fail> {
    let mut lines = String::from_str(rt.alloc(), "power\n")?;
    let mut wanted = String::from_str(rt.alloc(), "power 10,9,0,0,3,0\n")?;
    for line in HOSTILE {
        lines.push_str(line)?;
        lines.push_str("\n")?;
        wanted.push_str("?\n")?;
    }
    // The card was left as it was.
    lines.push_str("00\n80ca9f3600\npull 255 within 255\npower\nno newline")?;
    wanted.push_str("< 6700\n< 6985\npull 255 within 255\npower 10,9,0,0,3,0\n")?;
    hold(&rt, rt.alloc(), lines.as_str(), wanted.as_str())
}

/// A line of so many bytes 00 in hexadecimal.
fn zeros(alloc: Global, count: u32) -> Result<String, AllocError> {
    let mut line = String::new(alloc);
    for _ in 0..count {
        line.push_str("00")?;
    }
    line.push_str("\n")?;
    Ok(line)
}

#[test]
fn a_command_is_short(rt: HostRuntime) -> Result<(), Fail> {
    let mut lines = String::from_str(rt.alloc(), "power\n")?;
    lines.push_str(zeros(rt.alloc(), 261)?.as_str())?;
    lines.push_str(zeros(rt.alloc(), 262)?.as_str())?;
    hold(
        &rt,
        rt.alloc(),
        lines.as_str(),
        "power 10,9,0,0,3,0\n< 6700\n?\n",
    )?;
    let text = talk(rt.alloc(), CARD, zeros(rt.alloc(), 5000)?.as_str())?;
    let (status, told) = run_of(rt.alloc(), &[], text.as_str(), (&[], &[]))?;
    assert_eq!(rt; status, 2);
    assert_eq!(rt; told.as_slice(), b"?\n".as_slice());
    Ok(())
}

#[test]
fn a_card_goes_by_its_name(rt: HostRuntime) -> Result<(), Fail> {
    let alloc = rt.alloc();
    let mut both = String::from_str(alloc, CARD)?;
    both.push_str(CANNED)?;
    let text = talk(alloc, both.as_str(), "off\n")?;
    let text = text.as_str();
    for (words, status, wanted) in [
        ([].as_slice(), 0, "off\n"),
        (["c1"].as_slice(), 0, "off\n"),
        (["c2"].as_slice(), 0, "off\n"),
        (["c3"].as_slice(), 2, "?\n"),
        ([""].as_slice(), 2, "?\n"),
        (["c1", "c2"].as_slice(), 2, "?\n"),
    ] {
        let (found, told) = run_of(alloc, words, text, (&[], &[]))?;
        assert_eq!(rt; found, status);
        assert!(rt; told.as_slice() == wanted.as_bytes());
    }
    // Without a name the first card counts, whatever it is.
    let mut turned = String::from_str(alloc, CANNED)?;
    turned.push_str(CARD)?;
    let text = talk(alloc, turned.as_str(), "power\n")?;
    let (status, told) = run_of(alloc, &[], text.as_str(), (&[], &[]))?;
    assert_eq!(rt; status, 0);
    assert_eq!(rt; told.as_slice(), b"power canned\n".as_slice());
    Ok(())
}

/// What is no document of a card, and what is answered.
const REFUSED: [(&str, u8, &str); 5] = [
    ("document 3\npin", 1, "refused 1 Toml\n"),
    ("document 0\n", 1, "refused 2 MissingKey issuer\n"),
    ("document 4\npin", 2, "?\n"),
    ("power\n", 2, "?\n"),
    ("", 2, "?\n"),
];

#[test]
fn a_document_is_refused(rt: HostRuntime) -> Result<(), Fail> {
    for (text, status, wanted) in REFUSED {
        let (found, told) = run_of(rt.alloc(), &[], text, (&[], &[]))?;
        assert_eq!(rt; found, status, "{text}");
        assert!(rt; told.as_slice() == wanted.as_bytes(), "{text}");
    }
    // A table that no scenario has.
    let mut more = String::from_str(rt.alloc(), CARD)?;
    more.push_str("[zeta]\n")?;
    let text = talk(rt.alloc(), more.as_str(), "off\n")?;
    let (status, told) = run_of(rt.alloc(), &[], text.as_str(), (&[], &[]))?;
    assert_eq!(rt; status, 1);
    assert!(rt; told.as_slice() == b"refused 5 UnknownKey zeta\n".as_slice());
    Ok(())
}

#[test]
fn faults_have_their_status(rt: HostRuntime) -> Result<(), Fail> {
    let text = talk(rt.alloc(), CARD, "power\noff\n")?;
    let (status, told) = run_of(rt.alloc(), &[], text.as_str(), (&[1], &[]))?;
    assert_eq!(rt; status, 3);
    assert!(rt; told.is_empty());
    let (status, told) = run_of(rt.alloc(), &[], text.as_str(), (&[], &[2]))?;
    assert_eq!(rt; status, 4);
    assert_eq!(rt; told.as_slice(), b"power 10,9,0,0,3,0\n".as_slice());
    Ok(())
}
