use crate::rows::{ISSUER, TALK};
use crate::top::run;
use emv_ports::{MemorySink, MemorySource};
use std::alloc::{AllocError, Global};
use std::process::Abort;
use std::test::Fail;

/// A document behind its line, and what comes behind it.
fn talk(alloc: Global, document: &str, lines: &str) -> Result<String, AllocError> {
    let mut text = String::new(alloc);
    text.push_str("document ")?;
    text.push_str(document.len().to_string(alloc)?.as_str())?;
    text.push_str("\n")?;
    text.push_str(document)?;
    text.push_str(lines)?;
    Ok(text)
}

/// The exit status, and what the sink holds. The calls of source and sink with these numbers fail.
fn run_of(
    alloc: Global,
    words: &[&str],
    text: &str,
    fails: (&[u32], &[u32]),
) -> Result<(u8, Vec<u8>), Fail> {
    let mut list = Vec::new(alloc);
    for word in words {
        list.push(String::from_str(alloc, word)?)?;
    }
    let bytes = text.as_bytes().to_vec(alloc)?;
    let mut source = MemorySource::slow(bytes, fails.0.to_vec(alloc)?, 5);
    let mut sink = MemorySink::new(alloc, 100_000, fails.1.to_vec(alloc)?)?;
    let status = run(alloc, &list, &mut source, &mut sink).code();
    Ok((status, sink.bytes().to_vec(alloc)?))
}

/// Tries what becomes of these lines behind a document.
fn hold(
    rt: &impl Abort,
    alloc: Global,
    document: &str,
    lines: &str,
    wanted: &str,
) -> Result<(), Fail> {
    let text = talk(alloc, document, lines)?;
    let (status, told) = run_of(alloc, &[], text.as_str(), (&[], &[]))?;
    assert_eq!(rt; status, 0);
    assert!(rt; told.as_slice() == wanted.as_bytes());
    Ok(())
}

#[test]
fn each_message_is_answered_behind_those_before(rt: HostRuntime) -> Result<(), Fail> {
    let mut lines = String::new(rt.alloc());
    let mut wanted = String::new(rt.alloc());
    for (line, answer) in TALK {
        lines.push_str(line)?;
        lines.push_str("\n")?;
        wanted.push_str(answer)?;
        wanted.push_str("\n")?;
    }
    hold(&rt, rt.alloc(), ISSUER, lines.as_str(), wanted.as_str())
}

/// Lines that ask nothing.
const HOSTILE: [&str; 26] = [
    "",
    " ",
    "accounts ",
    " accounts",
    "ACCOUNTS",
    "because 1",
    "balance",
    "balance ",
    "balance x",
    "balance 4761739001010011",
    "balance 4761739001010010 ",
    "balance 47617390010100101234",
    ">",
    "> ",
    "> 0",
    "> 0g",
    ">00",
    "> 00 ",
    "iso >",
    "iso > ",
    "iso > 0",
    "iso  > 00",
    "< 00",
    "document 3",
    "\0",
    "\u{e9}",
];

#[test]
fn other_lines_ask_nothing(rt: HostRuntime) -> Result<(), Fail> {
    let mut lines = String::new(rt.alloc());
    let mut wanted = String::new(rt.alloc());
    for line in HOSTILE {
        lines.push_str(line)?;
        lines.push_str("\n")?;
        wanted.push_str("?\n")?;
    }
    // The host was left as it was.
    lines.push_str("because\nbalance 4761739001010010\n> FF\nbecause\nno newline")?;
    wanted.push_str("?\nbalance 4761739001010010 10000\n< e2048a023035\n")?;
    wanted.push_str("because unreadable coding 0\n")?;
    hold(&rt, rt.alloc(), ISSUER, lines.as_str(), wanted.as_str())
}

/// A line of a message of so many bytes 00.
fn zeros(alloc: Global, count: u32) -> Result<String, AllocError> {
    let mut line = String::from_str(alloc, "> ")?;
    for _ in 0..count {
        line.push_str("00")?;
    }
    line.push_str("\n")?;
    Ok(line)
}

#[test]
fn a_message_is_short(rt: HostRuntime) -> Result<(), Fail> {
    let mut lines = zeros(rt.alloc(), 2048)?;
    lines.push_str(zeros(rt.alloc(), 2049)?.as_str())?;
    hold(
        &rt,
        rt.alloc(),
        ISSUER,
        lines.as_str(),
        "< e2048a023035\n?\n",
    )?;
    let text = talk(rt.alloc(), ISSUER, zeros(rt.alloc(), 5000)?.as_str())?;
    let (status, told) = run_of(rt.alloc(), &[], text.as_str(), (&[], &[]))?;
    assert_eq!(rt; status, 2);
    assert_eq!(rt; told.as_slice(), b"?\n".as_slice());
    Ok(())
}

/// The keys of an issuer.
const KEYS: &str = r#"[issuer]
ac_key = "0123456789ABCDEFFEDCBA9876543210"
mac_key = "23456789ABCDEF01DCBA9876543210FE"
enc_key = "456789ABCDEF0123BA9876543210FEDC"
pin_key = "6789ABCDEF0123459876543210FEDCBA"
"#;

/// The balances of more accounts than a line has room for.
#[test]
fn all_accounts_are_told(rt: HostRuntime) -> Result<(), Fail> {
    let alloc = rt.alloc();
    let mut document = String::from_str(alloc, KEYS)?;
    let mut wanted = String::from_str(alloc, "accounts 400\n")?;
    for number in 100..500u32 {
        let number = number.to_string(alloc)?;
        document.push_str("[[account]]\npan = \"4761739001000")?;
        document.push_str(number.as_str())?;
        document.push_str("\"\ncurrency = \"840\"\nbalance = 1")?;
        document.push_str(number.as_str())?;
        document.push_str("\n")?;
        wanted.push_str("balance 4761739001000")?;
        wanted.push_str(number.as_str())?;
        wanted.push_str(" 1")?;
        wanted.push_str(number.as_str())?;
        wanted.push_str("\n")?;
    }
    hold(&rt, alloc, document.as_str(), "accounts\n", wanted.as_str())?;
    let mut none = String::from_str(alloc, "account = []\n")?;
    none.push_str(KEYS)?;
    hold(&rt, alloc, none.as_str(), "accounts\n", "accounts 0\n")
}

#[test]
fn a_word_asks_for_nobody(rt: HostRuntime) -> Result<(), Fail> {
    let text = talk(rt.alloc(), ISSUER, "accounts\n")?;
    for words in [["c1"].as_slice(), [""].as_slice(), ["a", "b"].as_slice()] {
        let (status, told) = run_of(rt.alloc(), words, text.as_str(), (&[], &[]))?;
        assert_eq!(rt; status, 2);
        assert_eq!(rt; told.as_slice(), b"?\n".as_slice());
    }
    Ok(())
}

/// What is no document of an issuer, and what is answered.
const REFUSED: [(&str, u8, &str); 5] = [
    ("document 3\npin", 1, "refused 1 Toml\n"),
    ("document 0\n", 1, "refused 2 MissingKey issuer\n"),
    ("document 4\npin", 2, "?\n"),
    ("accounts\n", 2, "?\n"),
    ("", 2, "?\n"),
];

/// What is wrong behind the keys of an issuer, and the fault's line.
const FAULTS: [(&str, &str); 4] = [
    ("", "refused 2 MissingKey account\n"),
    ("[[account]]\n", "refused 2 MissingKey account[0].pan\n"),
    (
        "[[account]]\npan = \"4761739001010010\"\ncurrency = \"840\"\nbalance = 1\n[[account]]\npan = \"4761739001010010\"\n",
        "refused 3 BadValue account[1].pan\n",
    ),
    (
        "[[account]]\npan = \"4761739001010010\"\ncurrency = \"840\"\nbalance = 1\n[zeta]\n",
        "refused 5 UnknownKey zeta\n",
    ),
];

#[test]
fn a_document_is_refused(rt: HostRuntime) -> Result<(), Fail> {
    for (text, status, wanted) in REFUSED {
        let (found, told) = run_of(rt.alloc(), &[], text, (&[], &[]))?;
        assert_eq!(rt; found, status, "{text}");
        assert!(rt; told.as_slice() == wanted.as_bytes(), "{text}");
    }
    for (more, wanted) in FAULTS {
        let mut document = String::from_str(rt.alloc(), KEYS)?;
        document.push_str(more)?;
        let text = talk(rt.alloc(), document.as_str(), "accounts\n")?;
        let (status, told) = run_of(rt.alloc(), &[], text.as_str(), (&[], &[]))?;
        assert_eq!(rt; status, 1, "{more}");
        assert!(rt; told.as_slice() == wanted.as_bytes(), "{more}");
    }
    Ok(())
}

#[test]
fn other_tables_are_not_read(rt: HostRuntime) -> Result<(), Fail> {
    let mut document = String::from_str(rt.alloc(), "card = 1\nlane = 2\ncopies = \"x\"\n")?;
    document.push_str(ISSUER)?;
    hold(&rt, rt.alloc(), document.as_str(), "because\n", "?\n")
}

#[test]
fn faults_have_their_status(rt: HostRuntime) -> Result<(), Fail> {
    let text = talk(rt.alloc(), ISSUER, "because\naccounts\n")?;
    let (status, told) = run_of(rt.alloc(), &[], text.as_str(), (&[1], &[]))?;
    assert_eq!(rt; status, 3);
    assert!(rt; told.is_empty());
    let (status, told) = run_of(rt.alloc(), &[], text.as_str(), (&[], &[2]))?;
    assert_eq!(rt; status, 4);
    assert_eq!(rt; told.as_slice(), b"?\n".as_slice());
    Ok(())
}
