use crate::tests::questions::OFFLINE;
use crate::tests::{ASKED, ISO, ISO_ONLINE, REPLIES, UNREAD, hold, joined, run_of, talk, terminal};
use std::process::Abort;
use std::test::Fail;

/// The presentment of the purchase that is approved offline, and the host's reply.
pub const SETTLED: &str = "\
settle > e36c9f1c085445524d303030315a0847617390010100105f3401019f02060000000025009f03060000000000009f1a020840950580000000005f2a0208409a032406159c01009f37040102030482021c009f3602000b9f26086114ff966d2fd2329f10060140000103018a025931
";

pub const SETTLED_WELL: &str = "settle < e2048a023030\n";

#[test]
fn what_was_captured_is_settled_once(rt: HostRuntime) -> Result<(), Fail> {
    let replies = joined(
        rt.alloc(),
        &[
            REPLIES,
            "settle\nwant\nwhy\n",
            SETTLED_WELL,
            "settle\nwhy\nnext\nwant\n",
        ],
    )?;
    let asked = joined(
        rt.alloc(),
        &[
            ASKED,
            SETTLED,
            SETTLED,
            OFFLINE,
            "settled 1\nsettled 0\n",
            OFFLINE,
            "?\n?\n",
        ],
    )?;
    hold(&rt, rt.alloc(), replies.as_str(), 0, asked.as_str())
}

#[test]
fn a_settlement_that_waits_takes_its_reply_alone(rt: HostRuntime) -> Result<(), Fail> {
    for other in [
        "",
        "settle\n",
        "next\n",
        "lost\n",
        "lost captured\n",
        "< 9000\n",
        "host < none\n",
        "settle < \n",
        "settle < 9\n",
    ] {
        let replies = joined(rt.alloc(), &[REPLIES, "settle\n", other])?;
        let asked = joined(rt.alloc(), &[ASKED, SETTLED, "?\n"])?;
        hold(&rt, rt.alloc(), replies.as_str(), 2, asked.as_str())?;
    }
    Ok(())
}

#[test]
fn a_settlement_reply_that_cannot_be_read_is_told(rt: HostRuntime) -> Result<(), Fail> {
    for (reply, told) in UNREAD {
        let replies = joined(
            rt.alloc(),
            &[REPLIES, "settle\n", "settle", reply_of(reply)],
        )?;
        let asked = joined(rt.alloc(), &[ASKED, SETTLED, told, "settled 1\n"])?;
        hold(&rt, rt.alloc(), replies.as_str(), 0, asked.as_str())?;
    }
    Ok(())
}

/// A line of the host's reply, without the word that it begins with.
fn reply_of(line: &str) -> &str {
    line.strip_prefix("host").unwrap_or("")
}

/// Replies in the style of ISO 8583 to a presentment, and what is told: one to a request, and one to a reversal, each with
/// code 00; and one to a presentment.
const ISO_SETTLED: [(&str, &str); 3] = [
    (
        "settle < 303131300000000002000200303030303030\n",
        "? reply type\nsettled 1\n",
    ),
    (
        "settle < 303431300000000002000200303030303030\n",
        "? reply type\nsettled 1\n",
    ),
    (
        "settle < 303233300000000002000200303030303030\n",
        "settled 1\n",
    ),
];

#[test]
fn a_settlement_reply_has_the_kind_of_its_message(rt: HostRuntime) -> Result<(), Fail> {
    let document = terminal(rt.alloc(), ("", ISO, ""))?;
    for (reply, told) in ISO_SETTLED {
        let approved = "< 800b40000b6114ff966d2fd2329000\n";
        let replies = joined(
            rt.alloc(),
            &[ISO_ONLINE, "host < none\n", approved, "settle\n", reply],
        )?;
        let text = talk(rt.alloc(), document.as_str(), replies.as_str())?;
        let (status, found) = run_of(rt.alloc(), text.as_str(), (&[], &[]))?;
        assert_eq!(rt; status, 0, "{reply}");
        assert!(rt; found.as_slice().ends_with(told.as_bytes()), "{reply}");
        assert_eq!(rt;
            told.starts_with("?"),
            found.as_slice().ends_with(b"? reply type\nsettled 1\n"),
            "{reply}"
        );
    }
    Ok(())
}
