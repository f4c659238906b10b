use crate::tests::questions::OFFLINE;
use crate::tests::settlement::{SETTLED, SETTLED_WELL};
use crate::tests::{ASKED, FIRST, REPLIES, hold, joined, run_of, talk, terminal};
use std::alloc::Global;
use std::process::Abort;
use std::test::Fail;

/// A second purchase: with the first one's amount it reaches the floor limit, and alone it is below.
const SECOND: &str = r#"[[lane.purchase]]
card = "c1"
amount = 7500
currency = "840"
date = "240615"
time = "120000"
number = 16909060
word = 49
pins = ["1234"]
"#;

/// Its GENERATE AC where the first one is in no log, and how it ends; the same where it is in the log; and its presentment.
const ALONE: &str = "\
> 80ae40001d000000007500000000000000084080000000000840240615000102030400
end approved offline tvr=8000000000 tsi=6800 cvm=410302 arc=Y1 atc=000b ac=6114ff966d2fd232 scripts=-
";

const TOGETHER: &str = "> 80ae80001d000000007500000000000000084080000080000840240615000102030400\n";

const SETTLED_SECOND: &str = "\
settle > e36c9f1c085445524d303030315a0847617390010100105f3401019f02060000000075009f03060000000000009f1a020840950580000000005f2a0208409a032406159c01009f37040102030482021c009f3602000b9f26086114ff966d2fd2329f10060140000103018a025931
";

/// Tries what becomes of these lines where there are two purchases.
fn hold_two(rt: &impl Abort, alloc: Global, said: &[&str], wanted: &[&str]) -> Result<(), Fail> {
    let document = terminal(alloc, ("", "", SECOND))?;
    let replies = joined(alloc, said)?;
    let text = talk(alloc, document.as_str(), replies.as_str())?;
    let (status, told) = run_of(alloc, text.as_str(), (&[], &[]))?;
    assert_eq!(rt; status, 0, "{replies}");
    let wanted = joined(alloc, wanted)?;
    assert!(rt; told.as_slice() == wanted.as_bytes(), "{replies}");
    Ok(())
}

/// What is said behind the first purchase, which is answered by itself; and whether its message waits then.
const LOSSES: [(&str, bool); 6] = [
    ("lost\n", false),
    ("lost\nlost\n", false),
    ("lost\nlost captured\n", false),
    ("lost captured\nlost\n", false),
    ("lost captured\n", true),
    ("lost captured\nlost captured\n", true),
];

#[test]
fn what_is_lost_joins_no_log(rt: HostRuntime) -> Result<(), Fail> {
    let alloc = rt.alloc();
    let (front, _) = ASKED.split_once("> 80ae").ok_or("a GENERATE AC")?;
    for (lines, waits) in LOSSES {
        let reply = if waits { SETTLED_WELL } else { "" };
        let message = if waits { SETTLED } else { "" };
        let count = if waits { "settled 2\n" } else { "settled 1\n" };
        let next = "why\nnext\n";
        hold_two(
            &rt,
            alloc,
            &[
                REPLIES,
                lines,
                next,
                REPLIES,
                "settle\n",
                reply,
                SETTLED_WELL,
            ],
            &[
                ASKED,
                lines,
                OFFLINE,
                front,
                ALONE,
                message,
                SETTLED_SECOND,
                count,
            ],
        )?;
    }
    Ok(())
}

/// A settlement of one message; and lost power, before a purchase begins.
const SETTLES: &str = "settle\nsettle < e2048a023030\n";

const LOST_AND_NEXT: &str = "lost\nlost captured\nnext\n";

#[test]
fn what_was_kept_before_stays(rt: HostRuntime) -> Result<(), Fail> {
    let alloc = rt.alloc();
    let (front, _) = ASKED.split_once("> 80ae").ok_or("a GENERATE AC")?;
    let (replies, _) = REPLIES.split_once("< 8011").ok_or("the answer to it")?;
    let settled = "settled 1\nlost\nlost captured\n";
    let (lines, told) = ("lost\nlost\nsettle\n", "lost\nlost\nsettled 0\n");
    hold_two(
        &rt,
        alloc,
        &[REPLIES, SETTLES, LOST_AND_NEXT, replies, lines],
        &[ASKED, SETTLED, settled, front, TOGETHER, told],
    )?;
    let (lines, told) = (
        "next\nlost\nwhy\nlost\nnext\nlost\n",
        "lost\n?\nlost\n?\nlost\n",
    );
    hold_two(
        &rt,
        alloc,
        &[REPLIES, lines, SETTLES],
        &[ASKED, FIRST, told, SETTLED, "settled 1\n"],
    )
}

#[test]
fn a_purchase_that_is_lost_leaves_nothing(rt: HostRuntime) -> Result<(), Fail> {
    let lines = "lost\nwhy\nlost\nlost captured\nsettle\nnext\n";
    let told = joined(
        rt.alloc(),
        &[FIRST, "lost\n?\nlost\nlost captured\nsettled 0\n?\n"],
    )?;
    hold(&rt, rt.alloc(), lines, 0, told.as_str())
}
