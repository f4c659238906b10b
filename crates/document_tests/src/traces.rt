//! Traces against what their terminal would have said.
use std::alloc::{AllocError, Global};
use std::test::Fail;
use trace_check::{Verdict, check, read_trace};

const KEY: &str = "pin_key = \"6789ABCDEF0123459876543210FEDCBA\"\n";

const LANE: &str = r#"[lane]
kind = 22
country = "840"
caps = "E0B8C8"
id = "TERM0001"
"#;

const DIRECTORY: &str = "pse = true\n";

const APPLICATION: &str = r#"[[lane.aid]]
name = "A0000000031010"
version = "0096"
denial = "0010000000"
online = "7068BC9800"
default = "7068BCF800"
floor = 10000
threshold = 5000
target = 10
max_target = 50
"#;

const PURCHASE: &str = r#"[[lane.purchase]]
card = "c1"
amount = 2500
currency = "840"
date = "240615"
time = "120000"
number = 16909060
word = 49
pins = ["1234"]
"#;

/// A purchase that is approved offline, up to the command for the last online counter: 17 entries.
const OPENING: &str = r#""> 00a4040007a000000003101000",
"< 6f168407a0000000031010a50b50064352454449548701019000",
"> 00a4040007a000000003101000",
"< 6f168407a0000000031010a50b50064352454449548701019000",
"> 80a8000002830000", "< 80061c00080103009000", "> 00b2010c00",
"< 702e5a0847617390010100105f3401015f24032612315f25032401015f280208409f420208409f0702ff009f080200969000",
"> 00b2020c00",
"< 70308c159f02069f03069f1a0295055f2a029a039c019f37048d178a029f02069f03069f1a0295055f2a029a039c019f37049000",
"> 00b2030c00",
"< 70308e0e000000000000000041035e031f009f0d057068bcf8009f0e0500100000009f0f057068bc98009f1401059f2301099000",
"> 0020008008241234ffffffffff", "< 9000", "> 80ca9f3600", "< 9f3602000b9000", "> 80ca9f1300""#;

/// The counter that the card gave then, and another one.
const COUNTER: &str = r#", "< 9f130200099000""#;

const OTHER_COUNTER: &str = r#", "< 9f1302000b9000""#;

/// The cryptogram.
const CRYPTOGRAM: &str =
    r#", "> 80ae40001d000000002500000000000000084080000000000840240615000102030400",
"< 801140000b6114ff966d2fd2320140000103019000""#;

const END: &str =
    r#", "end approved offline tvr=8000000000 tsi=6800 cvm=410302 arc=Y1 atc=000b ac=6114ff966d2fd232 scripts=-""#;

/// The document with these entries, and with this in its lane.
fn document(alloc: Global, lane: &str, parts: &[&str]) -> Result<String, AllocError> {
    let mut text = String::new(alloc);
    text.push_str(KEY)?;
    text.push_str("trace = [")?;
    for part in parts {
        text.push_str(part)?;
    }
    text.push_str("]\n")?;
    text.push_str(LANE)?;
    text.push_str(lane)?;
    text.push_str(APPLICATION)?;
    text.push_str(PURCHASE)?;
    Ok(text)
}

/// A card without a directory is asked for it, and then for the applications.
const NO_DIRECTORY: &str = r#""> 00a404000e315041592e5359532e444446303100", "< 6a82", "#;

/// What is in the lane, the entries of a trace, and what the trace is. What differs is counted from zero.
const TRACES: [(&str, &[&str], Verdict); 9] = [
    ("", &[OPENING, COUNTER, CRYPTOGRAM, END], Verdict::Same),
    (
        "",
        &[OPENING, OTHER_COUNTER, CRYPTOGRAM, END],
        Verdict::Differs(18),
    ),
    ("", &[OPENING, COUNTER, CRYPTOGRAM], Verdict::Differs(20)),
    (
        "",
        &[OPENING, COUNTER, CRYPTOGRAM, END, END],
        Verdict::Differs(21),
    ),
    ("", &[OPENING, ", \"host < none\""], Verdict::Differs(17)),
    ("", &[], Verdict::Differs(0)),
    // A terminal asks for the directory first.
    (
        DIRECTORY,
        &[NO_DIRECTORY, OPENING, COUNTER, CRYPTOGRAM, END],
        Verdict::Same,
    ),
    (
        "",
        &[NO_DIRECTORY, OPENING, COUNTER, CRYPTOGRAM, END],
        Verdict::Differs(0),
    ),
    (
        DIRECTORY,
        &[OPENING, COUNTER, CRYPTOGRAM, END],
        Verdict::Differs(0),
    ),
];

#[test]
fn the_first_entry_that_differs_is_told(rt: HostRuntime) -> Result<(), Fail> {
    for (number, row) in TRACES.iter().enumerate() {
        let (lane, parts, verdict) = *row;
        let text = document(rt.alloc(), lane, parts)?;
        let trace = read_trace(rt.alloc(), text.as_bytes())?;
        assert!(rt; check(&trace) == verdict, "trace {number}");
    }
    Ok(())
}

/// The line of the fault of a document.
fn refused(alloc: Global, entries: &str, rest: &str) -> Result<Option<String>, AllocError> {
    let mut text = String::new(alloc);
    text.push_str(KEY)?;
    text.push_str(entries)?;
    text.push_str(LANE)?;
    text.push_str(APPLICATION)?;
    text.push_str(PURCHASE)?;
    text.push_str(rest)?;
    match read_trace(alloc, text.as_bytes()) {
        Ok(_) => Ok(None),
        Err(fault) => Ok(Some(fault.line(alloc)?)),
    }
}

/// What is behind the one purchase, the entries, and the fault's line.
const REFUSED: [(&str, &str, &str); 9] = [
    ("", "", "refused 2 MissingKey trace\n"),
    (
        "link = \"ok\"\n",
        "trace = []\n",
        "refused 3 BadValue lane.purchase[0].link\n",
    ),
    (
        "tear = { commit = 1, at = \"release\" }\n",
        "trace = []\n",
        "refused 3 BadValue lane.purchase[0].tear\n",
    ),
    (
        PURCHASE,
        "trace = []\n",
        "refused 4 OutOfLimit lane.purchase\n",
    ),
    (
        "",
        "trace = [\"< GONE\"]\n",
        "refused 3 BadValue trace[0]\n",
    ),
    (
        "",
        "trace = [\"< gone\", \"> 00A4\"]\n",
        "refused 3 BadValue trace[1]\n",
    ),
    ("", "trace = [\"> 0\"]\n", "refused 3 BadValue trace[0]\n"),
    ("", "trace = [\"> \"]\n", "refused 3 BadValue trace[0]\n"),
    ("", "trace = [7]\n", "refused 3 BadValue trace[0]\n"),
];

#[test]
fn a_document_that_is_no_trace_is_refused(rt: HostRuntime) -> Result<(), Fail> {
    for row in &REFUSED {
        let (rest, entries, wanted) = *row;
        let line = refused(rt.alloc(), entries, rest)?;
        assert!(rt;
            line.is_some_and(|line| line.as_str() == wanted),
            "{wanted}"
        );
    }
    Ok(())
}
