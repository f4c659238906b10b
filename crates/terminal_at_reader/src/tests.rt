mod lost;
mod questions;
mod settlement;

use crate::top::run;
use emv_ports::{MemorySink, MemorySource};
use std::alloc::{AllocError, Global};
use std::process::Abort;
use std::test::Fail;

/// The key of a document.
const KEY: &str = "pin_key = \"6789ABCDEF0123459876543210FEDCBA\"\n";

/// A terminal that can ask the issuer, with one purchase.
const LANE: &str = r#"kind = 22
country = "840"
caps = "E0B8C8"
id = "TERM0001"
[[lane.aid]]
name = "A0000000031010"
version = "0096"
denial = "0010000000"
online = "7068BC9800"
default = "7068BCF800"
floor = 10000
threshold = 5000
target = 10
max_target = 50
[[lane.purchase]]
card = "c1"
amount = 2500
currency = "840"
date = "240615"
time = "120000"
number = 16909060
word = 49
pins = ["1234"]
"#;

/// A terminal's document, with more keys at its top, in its lane and in its purchase.
fn terminal(alloc: Global, more: (&str, &str, &str)) -> Result<String, AllocError> {
    let mut text = String::from_str(alloc, KEY)?;
    text.push_str(more.0)?;
    text.push_str("[lane]\n")?;
    text.push_str(more.1)?;
    text.push_str(LANE)?;
    text.push_str(more.2)?;
    Ok(text)
}

/// The card's answers in a purchase that is approved offline.
const REPLIES: &str = "\
< 6f168407a0000000031010a50b50064352454449548701019000
< 6f168407a0000000031010a50b50064352454449548701019000
< 80061c00080103009000
< 702e5a0847617390010100105f3401015f24032612315f25032401015f280208409f420208409f0702ff009f080200969000
< 70308c159f02069f03069f1a0295055f2a029a039c019f37048d178a029f02069f03069f1a0295055f2a029a039c019f37049000
< 70308e0e000000000000000041035e031f009f0d057068bcf8009f0e0500100000009f0f057068bc98009f1401059f2301099000
< 9000
< 9f3602000b9000
< 9f130200099000
< 801140000b6114ff966d2fd2320140000103019000
";

/// What the terminal asks, and how it ends.
const ASKED: &str = "\
> 00a4040007a000000003101000
> 00a4040007a000000003101000
> 80a8000002830000
> 00b2010c00
> 00b2020c00
> 00b2030c00
> 0020008008241234ffffffffff
> 80ca9f3600
> 80ca9f1300
> 80ae40001d000000002500000000000000084080000000000840240615000102030400
end approved offline tvr=8000000000 tsi=6800 cvm=410302 arc=Y1 atc=000b ac=6114ff966d2fd232 scripts=-
";

/// What the card says that asks to go online.
const ONLINE: &str = "\
< 6f168407a0000000031010a50b50064352454449548701019000
< 6f168407a0000000031010a50b50064352454449548701019000
< 80060000080101009000
< 70405a0847617390010100105f24032612318c159f02069f03069f1a0295055f2a029a039c019f37048d178a029f02069f03069f1a0295055f2a029a039c019f37049000
< 801180000b11223344556677880140000103019000
";

/// What it says behind the host's turn.
const BEHIND: &str = "< 801100000b11223344556677880140000103019000\n";

/// What the terminal asks then, up to the host.
const ASKED_ONLINE: &str = "\
> 00a4040007a000000003101000
> 00a4040007a000000003101000
> 80a8000002830000
> 00b2010c00
> 80ae80001d000000002500000000000000084080000000000840240615000102030400
";

/// What it asks the host.
const ASKED_HOST: &str = "\
host > e16a9f1c085445524d303030315a0847617390010100105f24032612319f02060000000025009f03060000000000009f1a020840950580000000005f2a0208409a032406159c01009f370401020304820200009f3602000b9f260811223344556677889f1006014000010301
";

/// What it asks where the host says nothing, and how it ends.
const ASKED_BEHIND: &str = "\
> 80ae00001f5a33000000002500000000000000084080000000000840240615000102030400
end declined offline tvr=8000000000 tsi=2000 cvm=3f0000 arc=Z3 atc=000b ac=1122334455667788 scripts=-
";

/// The card's answers in a purchase whose messages go in the style of ISO 8583, up to the host.
const ISO_ONLINE: &str = "\
< 6f168407a0000000031010a50b50064352454449548701019000
< 6f168407a0000000031010a50b50064352454449548701019000
< 80061c00080103009000
< 702e5a0847617390010100105f3401015f24032612315f25032401015f280208409f420208409f0702ff009f080200969000
< 70308c159f02069f03069f1a0295055f2a029a039c019f37048d178a029f02069f03069f1a0295055f2a029a039c019f37049000
< 70308e0e000000000000000041035e031f009f0d057068bcf8009f0e0500100000009f0f057068bc98009f1401059f2301099000
< 9000
< 9f3602000b9000
< 9f130200099000
< 800b80000b6114ff966d2fd2329000
";

/// What the terminal asks then, the host last.
const ISO_ASKED: &str = "\
> 00a4040007a000000003101000
> 00a4040007a000000003101000
> 80a8000002830000
> 00b2010c00
> 00b2020c00
> 00b2030c00
> 0020008008241234ffffffffff
> 80ca9f3600
> 80ca9f1300
> 80ae40001d000000002500000000000000084080000000000840240615000102030400
host > 3031303070200000088082003136343736313733393030313031303031303030303030303030303030303030323530303030303031313030303030303030303031315445524d30303031383430303036365f3401015f24032612319f03060000000000009f1a020840950580000000009a032406159f37040102030482021c009f3602000b9f26086114ff966d2fd2329f1000
";

/// The issuer declines, and the card does.
const ISO_BEHIND: &str = "\
host < 303131300000000002000200303530303030
< 800b00000b6114ff966d2fd2329000
";

const ISO_ASKED_BEHIND: &str = "\
> 80ae00001f3035000000002500000000000000084080000000000840240615000102030400
end declined online tvr=8000000000 tsi=6800 cvm=410302 arc=05 atc=000b ac=6114ff966d2fd232 scripts=-
";

/// What the terminal asks where the host can't be understood, and the card approves: no bit of the results is among those
/// of the default code.
const ISO_UNABLE: &str = "\
> 80ae40001f5933000000002500000000000000084080000000000840240615000102030400
end approved offline tvr=8000000000 tsi=6800 cvm=410302 arc=Y3 atc=000b ac=6114ff966d2fd232 scripts=-
";

/// A document behind its line, and what comes behind it.
fn talk(alloc: Global, document: &str, replies: &str) -> Result<String, AllocError> {
    let mut text = String::new(alloc);
    text.push_str("document ")?;
    text.push_str(document.len().to_string(alloc)?.as_str())?;
    text.push_str("\n")?;
    text.push_str(document)?;
    text.push_str(replies)?;
    Ok(text)
}

/// The exit status, and what the sink holds. The calls of source and sink with these numbers fail.
fn run_of(alloc: Global, text: &str, fails: (&[u32], &[u32])) -> Result<(u8, Vec<u8>), Fail> {
    let bytes = text.as_bytes().to_vec(alloc)?;
    let mut source = MemorySource::slow(bytes, fails.0.to_vec(alloc)?, 5);
    let mut sink = MemorySink::new(alloc, 10_000, fails.1.to_vec(alloc)?)?;
    let status = run(alloc, &mut source, &mut sink).code();
    Ok((status, sink.bytes().to_vec(alloc)?))
}

/// Texts one behind the other.
fn joined(alloc: Global, parts: &[&str]) -> Result<String, AllocError> {
    let mut text = String::new(alloc);
    for part in parts {
        text.push_str(part)?;
    }
    Ok(text)
}

/// Tries what becomes of these replies.
fn hold(
    rt: &impl Abort,
    alloc: Global,
    replies: &str,
    status: u8,
    wanted: &str,
) -> Result<(), Fail> {
    hold_in(rt, alloc, "", replies, status, wanted)
}

/// The same of a lane with these keys more.
fn hold_in(
    rt: &impl Abort,
    alloc: Global,
    lane: &str,
    replies: &str,
    status: u8,
    wanted: &str,
) -> Result<(), Fail> {
    let document = terminal(alloc, ("", lane, ""))?;
    let text = talk(alloc, document.as_str(), replies)?;
    let (found, told) = run_of(alloc, text.as_str(), (&[], &[]))?;
    assert_eq!(rt; found, status, "{replies}");
    assert!(rt; told.as_slice() == wanted.as_bytes(), "{replies}");
    Ok(())
}

#[test]
fn a_dialogue_is_the_kernels(rt: HostRuntime) -> Result<(), Fail> {
    hold(&rt, rt.alloc(), REPLIES, 0, ASKED)?;
    let silent = joined(rt.alloc(), &[ONLINE, "host < none\n", BEHIND])?;
    let asked = joined(rt.alloc(), &[ASKED_ONLINE, ASKED_HOST, ASKED_BEHIND])?;
    hold(&rt, rt.alloc(), silent.as_str(), 0, asked.as_str())
}

#[test]
fn what_is_wanted_is_asked_again(rt: HostRuntime) -> Result<(), Fail> {
    let replies = joined(
        rt.alloc(),
        &["want\nwant\n", ONLINE, "want\nhost < none\n", BEHIND],
    )?;
    let asked = joined(
        rt.alloc(),
        &[
            FIRST,
            FIRST,
            ASKED_ONLINE,
            ASKED_HOST,
            ASKED_HOST,
            ASKED_BEHIND,
        ],
    )?;
    hold(&rt, rt.alloc(), replies.as_str(), 0, asked.as_str())
}

/// Replies that can't be read, and what is told of them.
const UNREAD: [(&str, &str); 5] = [
    ("host < -\n", "? reply coding 0\n"),
    ("host < e2028a02\n", "? reply coding 2\n"),
    ("host < e2048a009f02\n", "? reply coding 4\n"),
    ("host < e200\n", "? reply missing 8a\n"),
    ("host < e2038a0130\n", "? reply value 8a\n"),
];

#[test]
fn a_reply_that_cannot_be_read_is_told(rt: HostRuntime) -> Result<(), Fail> {
    for (reply, told) in UNREAD {
        let replies = joined(rt.alloc(), &[ONLINE, reply, BEHIND])?;
        let asked = joined(rt.alloc(), &[ASKED_ONLINE, ASKED_HOST, told, ASKED_BEHIND])?;
        hold(&rt, rt.alloc(), replies.as_str(), 0, asked.as_str())?;
    }
    Ok(())
}

/// The key of the dialect.
const ISO: &str = "dialect = \"iso\"\n";

/// Replies that can't be read in the style of ISO 8583: too short, to a presentment, with another bitmap, and with a byte
/// behind their last field.
const ISO_UNREAD: [(&str, &str); 5] = [
    ("host < 303131\n", "? reply short 0\n"),
    ("host < 30313130\n", "? reply short 4\n"),
    (
        "host < 303233300000000002000200303530303030\n",
        "? reply type\n",
    ),
    (
        "host < 303131300000000002000201303530303030\n",
        "? reply bitmap\n",
    ),
    (
        "host < 30313130000000000200020030353030303000\n",
        "? reply rest 18\n",
    ),
];

#[test]
fn messages_are_in_the_lanes_dialect(rt: HostRuntime) -> Result<(), Fail> {
    let replies = joined(rt.alloc(), &[ISO_ONLINE, ISO_BEHIND])?;
    let asked = joined(rt.alloc(), &[ISO_ASKED, ISO_ASKED_BEHIND])?;
    hold_in(&rt, rt.alloc(), ISO, replies.as_str(), 0, asked.as_str())?;
    for (reply, told) in ISO_UNREAD {
        let approved = "< 800b40000b6114ff966d2fd2329000\n";
        let replies = joined(rt.alloc(), &[ISO_ONLINE, reply, approved])?;
        let asked = joined(rt.alloc(), &[ISO_ASKED, told, ISO_UNABLE])?;
        hold_in(&rt, rt.alloc(), ISO, replies.as_str(), 0, asked.as_str())?;
    }
    Ok(())
}

/// What is asked first, and how it ends where the card is gone.
const FIRST: &str = "> 00a4040007a000000003101000\n";

const GONE: &str = "\
> 00a4040007a000000003101000
end cut power tvr=0000000000 tsi=0000 cvm=000000 arc=-- atc=---- ac=---------------- scripts=-
";

const OTHER: &str = "> 00a4040007a000000003101000\n?\n";

#[test]
fn a_card_that_is_gone_ends_it(rt: HostRuntime) -> Result<(), Fail> {
    let told = joined(rt.alloc(), &[GONE, "?\n"])?;
    hold(&rt, rt.alloc(), "< gone\n< 9000\n", 0, told.as_str())
}

#[test]
fn other_lines_break_it_off(rt: HostRuntime) -> Result<(), Fail> {
    for other in [
        "",
        "\n",
        "9000\n",
        "< 9000",
        "< 900\n",
        "< 9F\n",
        "<9000\n",
        " < 9000\n",
        "< 9000 \n",
        "< 9000\r\n",
        "host < none\n",
        "host < 9000\n",
        "> 00a40400\n",
        "end approved offline\n",
        "< torn\n",
        "document 3\n",
        "lost captured\n",
        "lost \n",
        "\0\n",
        "< \u{e9}\n",
    ] {
        hold(&rt, rt.alloc(), other, 2, OTHER)?;
    }
    Ok(())
}

#[test]
fn too_long_a_line_breaks_it_off(rt: HostRuntime) -> Result<(), Fail> {
    let mut long = String::from_str(rt.alloc(), "< ")?;
    for _ in 0..259 {
        long.push_str("90")?;
    }
    long.push_str("\n")?;
    hold(&rt, rt.alloc(), long.as_str(), 2, OTHER)?;
    for _ in 0..9000 {
        long.push_str("0")?;
    }
    hold(&rt, rt.alloc(), long.as_str(), 2, OTHER)
}

/// Documents that are refused, and what is answered.
const REFUSED: [(&str, u8, &str); 7] = [
    ("document 3\npin", 1, "refused 1 Toml\n"),
    ("document 0\n", 1, "refused 2 MissingKey pin_key\n"),
    ("document 4\npin", 2, "?\n"),
    ("document\n", 2, "?\n"),
    ("< 9000\n", 2, "?\n"),
    ("", 2, "?\n"),
    ("document 4194305\n", 2, "?\n"),
];

#[test]
fn a_document_is_refused(rt: HostRuntime) -> Result<(), Fail> {
    for (text, status, wanted) in REFUSED {
        let (found, told) = run_of(rt.alloc(), text, (&[], &[]))?;
        assert_eq!(rt; found, status, "{text}");
        assert!(rt; told.as_slice() == wanted.as_bytes(), "{text}");
    }
    Ok(())
}

/// A tear of a purchase.
const TORN: &str = "tear = { commit = 1, at = \"release\" }\n";

const TERMINAL_TORN: &str = "terminal_tear = { commit = 1, at = \"release\" }\n";

/// Keys that no terminal at a reader has, at the top, in the lane and in the purchase, and what is answered.
const OTHER_KEYS: [((&str, &str, &str), &str); 6] = [
    (("trace = []\n", "", ""), "refused 5 UnknownKey trace\n"),
    (
        ("trace = []\n", "durable = true\n", ""),
        "refused 3 BadValue lane.durable\n",
    ),
    (
        ("", "durable = true\n", ""),
        "refused 3 BadValue lane.durable\n",
    ),
    (
        ("", "dialect = \"emv\"\n", ""),
        "refused 3 BadValue lane.dialect\n",
    ),
    (("", "", TORN), "refused 3 BadValue lane.purchase[0].tear\n"),
    (
        ("", "", TERMINAL_TORN),
        "refused 3 BadValue lane.purchase[0].terminal_tear\n",
    ),
];

#[test]
fn other_keys_are_refused(rt: HostRuntime) -> Result<(), Fail> {
    for (more, wanted) in OTHER_KEYS {
        let document = terminal(rt.alloc(), more)?;
        let text = talk(rt.alloc(), document.as_str(), "")?;
        let (found, told) = run_of(rt.alloc(), text.as_str(), (&[], &[]))?;
        assert_eq!(rt; found, 1, "{wanted}");
        assert!(rt; told.as_slice() == wanted.as_bytes(), "{wanted}");
    }
    Ok(())
}

#[test]
fn faults_have_their_status(rt: HostRuntime) -> Result<(), Fail> {
    let document = terminal(rt.alloc(), ("", "", ""))?;
    let text = talk(rt.alloc(), document.as_str(), "< gone\n")?;
    let (status, told) = run_of(rt.alloc(), text.as_str(), (&[1], &[]))?;
    assert_eq!(rt; status, 3);
    assert!(rt; told.is_empty());
    let (status, told) = run_of(rt.alloc(), text.as_str(), (&[], &[2]))?;
    assert_eq!(rt; status, 4);
    assert_eq!(rt; told.as_slice(), FIRST.as_bytes());
    let (status, told) = run_of(rt.alloc(), "document 3\npin", (&[], &[1]))?;
    assert_eq!(rt; status, 4);
    assert!(rt; told.is_empty());
    Ok(())
}
