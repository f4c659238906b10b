use crate::top::run;
use emv_ports::{MemorySink, MemorySource};
use std::alloc::Global;
use std::test::Fail;

/// Two lanes with a purchase each, and what stands behind them.
const REPORT: &str = "\
L0 power c1 10,9,0,0,3,0
L1 power c2 1,0,0,0,3,0
L0 > 80ca9f1700
L0 < 9f1701039000
L0 end 1 cut read tvr=8000000000 tsi=0000 cvm=000000 arc=-- atc=---- ac=---------------- scripts=-
L0 power c1 torn
L0 end 2 lost
L0 power x canned
S1 > e4098a025a339f3602000b
A c1 power torn
done 2
of another form
no newline";

/// The exit status, and what the sink holds. The calls of source and sink with these numbers fail.
fn run_of(
    alloc: Global,
    words: &[&str],
    text: &str,
    fails: (&[u32], &[u32]),
) -> Result<(u8, Vec<u8>), Fail> {
    let mut list = Vec::new(alloc);
    for word in words {
        list.push(String::from_str(alloc, word)?)?;
    }
    let bytes = text.as_bytes().to_vec(alloc)?;
    let mut source = MemorySource::slow(bytes, fails.0.to_vec(alloc)?, 5);
    let mut sink = MemorySink::new(alloc, 10_000, fails.1.to_vec(alloc)?)?;
    let status = run(alloc, &list, &mut source, &mut sink);
    Ok((status.code(), sink.bytes().to_vec(alloc)?))
}

/// Without the words of objects.
const BRIEF: &str = "\
L0 power c1 10,9,0,0,3,0
  transaction counter 10, last online 9, offline approvals 0, sum 0, PIN tries 3
L1 power c2 1,0,0,0,3,0
  transaction counter 1, last online 0, offline approvals 0, sum 0, PIN tries 3
L0 > 80ca9f1700
  GET DATA 9F17 Personal Identification Number (PIN) Try Counter
L0 < 9f1701039000
L0 end 1 cut read tvr=8000000000 tsi=0000 cvm=000000 arc=-- atc=---- ac=---------------- scripts=-
  the card was pulled out: reading the records
  CVM not reached
L0 power c1 torn
  the card was pulled out while it was powered up
L0 end 2 lost
  the terminal lost power while it wrote to its own memory: whether the purchase is kept shows at its settlement
L0 power x canned
  a card of canned answers: it has no counters
S1 > e4098a025a339f3602000b
  reversal
A c1 power torn
  the card was pulled out while it was powered up
done 2
of another form
no newline";

/// The lines of lane 1.
const OF_LANE: &str = "\
L1 power c2 1,0,0,0,3,0
  transaction counter 1, last online 0, offline approvals 0, sum 0, PIN tries 3
S1 > e4098a025a339f3602000b
  reversal
    8A Authorisation Response Code: Z3, unable to go online, offline declined
    9F36 Application Transaction Counter (ATC): 11
";

/// The lines of the second purchases.
const OF_PURCHASE: &str = "\
L0 power c1 torn
  the card was pulled out while it was powered up
L0 end 2 lost
  the terminal lost power while it wrote to its own memory: whether the purchase is kept shows at its settlement
";

/// Where lane 0's first purchase begins and ends.
const ENDS: &str = "\
L0 power c1 10,9,0,0,3,0
  transaction counter 10, last online 9, offline approvals 0, sum 0, PIN tries 3
L0 end 1 cut read tvr=8000000000 tsi=0000 cvm=000000 arc=-- atc=---- ac=---------------- scripts=-
  the card was pulled out: reading the records
  TVR 1.8 offline data authentication was not performed
  TSI no bit
  CVM not reached
";

#[test]
fn filters_leave_lines_and_brief_leaves_out_words(rt: HostRuntime) -> Result<(), Fail> {
    let rows: [(&[&str], &str); 6] = [
        (&["--brief"], BRIEF),
        (&["--ends", "--purchase", "2"], OF_PURCHASE),
        (&["--lane", "1"], OF_LANE),
        (&["--purchase", "2"], OF_PURCHASE),
        (&["--ends", "--lane", "0", "--purchase", "1"], ENDS),
        (&["--ends", "--lane", "3"], ""),
    ];
    for (words, wanted) in rows {
        let (status, text) = run_of(rt.alloc(), words, REPORT, (&[], &[]))?;
        assert_eq!(rt; status, 0);
        assert_eq!(rt; text.as_slice(), wanted.as_bytes());
    }
    Ok(())
}

/// A card with a list 8C of 95 alone, an online code with 2.7 and an empty default code; its terminal
/// approves an expired application.
const EXPIRED: &str = "\
L0 > 00a4040007a000000003101000
L0 > 00b2010c00
L0 < 70148c0295059f0f0500400000009f0d0500000000009000
L0 > 80ae400005804000000000
";

#[test]
fn the_terminals_codes_come_as_words(rt: HostRuntime) -> Result<(), Fail> {
    let rows: [(&[&str], &str); 3] = [
        (
            &[],
            "
      1.8 offline data authentication was not performed: in no code of the card
      2.7 expired application: in online 9F0F
  because no denial code has a set bit, and the terminal is offline only, since an online code has 2.7: no default code has one
",
        ),
        (
            &[
                "--terminal",
                "0,23,A000000003,1,0000000000,0000000000,0000000000",
            ],
            "
      1.8 offline data authentication was not performed: in no code
      2.7 expired application: in online 9F0F
  because an offline-only terminal, and no denial or default code has a set bit
",
        ),
        (
            &[
                "--terminal",
                "0,22,a0000000031010,0,0000000000,0000000000,0040000000",
            ],
            "
      1.8 offline data authentication was not performed: in no code
      2.7 expired application: in online 9F0F, terminal default
  because not explained by the codes
",
        ),
    ];
    for (words, wanted) in rows {
        let (_, text) = run_of(rt.alloc(), words, EXPIRED, (&[], &[]))?;
        assert!(rt; text.as_slice().ends_with(wanted.as_bytes()));
    }
    Ok(())
}

/// A record that is not there, and a card with its counters at the end.
const ASKED: &str = "\
L0 > 00b2010c00
L0 < 6a83
A c1 power 11,9,4,17500,3,0
done 1
";

/// The same with what is left of the card's limits, and where command and status stand.
const CITED: &str = "\
L0 > 00b2010c00
  READ RECORD 1 of file 1 (CARD-8; Book 1, 11.2)
L0 < 6a83
  6A83: no such record (Book 3, 6.3.5)
A c1 power 11,9,4,17500,3,0
  transaction counter 11, last online 9, offline approvals 4, sum 17500, PIN tries 3
done 1
  left on card c1: offline approvals 1 of 5, sum 2500 of 20000
";

#[test]
fn references_and_what_is_left_of_limits_are_told(rt: HostRuntime) -> Result<(), Fail> {
    let card = "c1,0,A0000000031010,5,20000,0840,0,-";
    let words = ["--card", card, "--books", "--why"];
    let (status, text) = run_of(rt.alloc(), &words, ASKED, (&[], &[]))?;
    assert_eq!(rt; status, 0);
    assert_eq!(rt; text.as_slice(), CITED.as_bytes());
    Ok(())
}

#[test]
fn other_words_give_the_usage_line(rt: HostRuntime) -> Result<(), Fail> {
    let rows: [&[&str]; 12] = [
        &["x"],
        &["--books", "--books"],
        &["--lane"],
        &["--lane", "16"],
        &["--lane", "1", "--lane", "1"],
        &["--purchase", "one"],
        &["--brief", "--brief"],
        &["--purchase", "1", "--purchase", "1"],
        &[
            "--terminal",
            "0,22,A000000003,2,0000000000,0000000000,0000000000",
        ],
        &[
            "--terminal",
            "0,22,A000000003,0,00000000,0000000000,0000000000",
        ],
        &[
            "--terminal",
            "0,27,A000000003,0,0000000000,0000000000,0000000000",
        ],
        &[
            "--terminal",
            "0,22,A0000000,0,0000000000,0000000000,0000000000",
        ],
    ];
    for words in rows {
        let (status, text) = run_of(rt.alloc(), words, REPORT, (&[1], &[]))?;
        assert_eq!(rt; status, 2);
        assert_eq!(rt;
            text.as_slice(),
            b"usage: explain [--brief] [--ends] [--why] [--books] [--lane N] [--purchase N] [--terminal T]... [--card T]... [--account T]...\n".as_slice()
        );
    }
    Ok(())
}

#[test]
fn faults_of_source_and_sink_are_told(rt: HostRuntime) -> Result<(), Fail> {
    let (status, text) = run_of(rt.alloc(), &[], "done 1\ndone 2\n", (&[3], &[]))?;
    assert_eq!(rt; status, 3);
    assert_eq!(rt; text.as_slice(), b"done 1\n".as_slice());
    let (status, text) = run_of(rt.alloc(), &[], "done 1\ndone 2\n", (&[], &[3]))?;
    assert_eq!(rt; status, 4);
    assert_eq!(rt; text.as_slice(), b"done 1\n".as_slice());
    Ok(())
}
