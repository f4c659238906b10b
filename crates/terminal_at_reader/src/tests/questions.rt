use crate::tests::{
    ASKED, ASKED_BEHIND, ASKED_HOST, ASKED_ONLINE, BEHIND, FIRST, GONE, ISO, ISO_ASKED, ISO_ONLINE,
    ISO_UNABLE, ONLINE, REPLIES, hold, hold_in, joined, run_of, talk, terminal,
};
use std::process::Abort;
use std::test::Fail;

/// Why the purchase that is approved offline asks for a TC: no bit of its results is in a denial or an online code. The
/// issuer's codes are the last record's.
pub const OFFLINE: &str = "\
why first kind tc type 22 tvr 8000000000 issuer_denial 0010000000 issuer_online 7068bc9800 issuer_default 7068bcf800 terminal_denial 0010000000 terminal_online 7068bc9800 terminal_default 7068bcf800
";

/// Why an ARQC is asked for of a card without action codes: an absent online code has all bits.
const TO_ISSUER: &str = "\
why first kind arqc type 22 tvr 8000000000 issuer_denial 0000000000 issuer_online ffffffffff issuer_default ffffffffff terminal_denial 0010000000 terminal_online 7068bc9800 terminal_default 7068bcf800
";

/// Why an AAC is asked for where no reply comes, and a TC where the card's default code has no bit of the results.
const UNABLE: &str =
    "why second kind aac type 22 tvr 8000000000 issuer_default ffffffffff terminal_default 7068bcf800\n";

const UNABLE_APPROVED: &str =
    "why second kind tc type 22 tvr 8000000000 issuer_default 7068bcf800 terminal_default 7068bcf800\n";

/// The second GENERATE AC where the terminal was unable to go online, behind a decline, and behind an approval.
const ASKED_UNABLE: &str =
    "> 80ae00001f5a33000000002500000000000000084080000000000840240615000102030400\n";

const ASKED_DECLINED: &str =
    "> 80ae00001f3035000000002500000000000000084080000000000840240615000102030400\n";

const ASKED_APPROVED: &str =
    "> 80ae40001f3030000000002500000000000000084080000000000840240615000102030400\n";

/// The card declines behind each reply that was read.
const END_DECLINED: &str = "\
end declined online tvr=8000000000 tsi=2000 cvm=3f0000 arc=05 atc=000b ac=1122334455667788 scripts=-
";

const END_APPROVED: &str = "\
end declined online tvr=8000000000 tsi=2000 cvm=3f0000 arc=00 atc=000b ac=1122334455667788 scripts=-
";

/// What stands behind the first line or lines of a text.
fn behind<'a>(text: &'a str, first: &str) -> &'a str {
    text.strip_prefix(first).unwrap_or("")
}

#[test]
fn why_tells_the_first_question(rt: HostRuntime) -> Result<(), Fail> {
    let alloc = rt.alloc();
    let replies = joined(alloc, &["why\n", REPLIES, "why\nwhy\n"])?;
    let asked = joined(
        alloc,
        &[FIRST, "?\n", behind(ASKED, FIRST), OFFLINE, OFFLINE],
    )?;
    hold(&rt, alloc, replies.as_str(), 0, asked.as_str())
}

/// Replies that are read, with what is asked behind each, why, and how it ends.
const READ: [(&str, &str, &str, &str); 2] = [
    (
        "host < e2048a023035\nwhy\n",
        ASKED_DECLINED,
        "why second kind aac code 3035\n",
        END_DECLINED,
    ),
    (
        "host < e2048a023030\nwhy\n",
        ASKED_APPROVED,
        "why second kind tc code 3030\n",
        END_APPROVED,
    ),
];

#[test]
fn why_tells_the_second_question(rt: HostRuntime) -> Result<(), Fail> {
    let alloc = rt.alloc();
    for (reply, ask, told, end) in READ {
        let replies = joined(alloc, &[ONLINE, reply, BEHIND, "why\n"])?;
        let asked = joined(alloc, &[ASKED_ONLINE, ASKED_HOST, ask, told, end, told])?;
        hold(&rt, alloc, replies.as_str(), 0, asked.as_str())?;
    }
    let silent = "why\nhost < none\nwhy\nwant\n";
    let replies = joined(alloc, &[ONLINE, silent, BEHIND, "why\n"])?;
    let before = [ASKED_ONLINE, ASKED_HOST, TO_ISSUER, ASKED_UNABLE, UNABLE];
    let asked = joined(alloc, &before)?;
    let rest = joined(alloc, &[asked.as_str(), ASKED_BEHIND, UNABLE])?;
    hold(&rt, alloc, replies.as_str(), 0, rest.as_str())?;
    let approved = "host < none\n< 800b40000b6114ff966d2fd2329000\nwhy\n";
    let replies = joined(alloc, &[ISO_ONLINE, approved])?;
    let asked = joined(alloc, &[ISO_ASKED, ISO_UNABLE, UNABLE_APPROVED])?;
    hold_in(&rt, alloc, ISO, replies.as_str(), 0, asked.as_str())
}

/// A second purchase.
const NEXT: &str = r#"[[lane.purchase]]
card = "c1"
amount = 2500
currency = "840"
date = "240615"
time = "120000"
number = 16909060
word = 49
pins = ["1234"]
"#;

#[test]
fn why_is_of_the_purchase_that_runs_or_ended_last(rt: HostRuntime) -> Result<(), Fail> {
    let alloc = rt.alloc();
    let document = terminal(alloc, ("", "", NEXT))?;
    let replies = joined(alloc, &[REPLIES, "why\nnext\nwhy\n< gone\nwhy\n"])?;
    let asked = joined(
        alloc,
        &[ASKED, OFFLINE, FIRST, "?\n", behind(GONE, FIRST), "?\n"],
    )?;
    let text = talk(alloc, document.as_str(), replies.as_str())?;
    let (status, told) = run_of(alloc, text.as_str(), (&[], &[]))?;
    assert_eq!(rt; status, 0);
    assert!(rt; told.as_slice() == asked.as_bytes());
    Ok(())
}
