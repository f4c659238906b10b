//! Scripts with cards, some of which answer as they should not, and templates that hold no script.
use crate::hexadecimal::bytes;
use apdu_core::Out;
use script_run::{RunNext, Running};
use std::process::Abort;

/// In each row the value of a template, then the commands with their answers, in hexadecimal digits, and the
/// result. A card that is `gone` gives no answer.
const SCRIPTS: &str = "\
9f180400000001860e04dadf01090935c47f63c1704132860d841e000008c8f7aeabb5b88aa3860d84180000088aa326cee53f1516 > 04dadf01090935c47f63c1704132 9000 > 841e000008c8f7aeabb5b88aa3 6988 = 1200000001
860d84180000085730546475c1ad8a861304dadf020e00000000000076a764032bd5fb67860d84180000085730546475c1ad8a > 84180000085730546475c1ad8a 9000 > 04dadf020e00000000000076a764032bd5fb67 9000 > 84180000085730546475c1ad8a 9000 = 2000000000
9f180432fa013c860d8416000008918bf49ff53d5c4f > 8416000008918bf49ff53d5c4f 9000 = 2032fa013c
9f1804a2591333860d841800000878d0f633d3df2297 > 841800000878d0f633d3df2297 9000 = 20a2591333
86158424000210b0869a45da56310b591ffd95cee7feef > 8424000210b0869a45da56310b591ffd95cee7feef 9000 = 2000000000
 = 2000000000
0000 = 2000000000
9f180400000007 = 2000000007
9f1803000001860484160000 = 0000000000
9f1800860484160000 = 0000000000
8604841600009f180400000001 = 0000000000
9f1804000000019f180400000002 = 0000000000
5a0100 = 0000000000
8605841e0000 = 0000000000
86808416 = 0000000000
719f1804 = 0000000000
9f18040000000186038416008604841e0000 = 1100000001
8604841e000086028418 > 841e0000 9000 = 1200000000
8606841600000200 = 1100000000
8604841e0000860484180000 > 841e0000 6283 > 84180000 63c1 = 2000000000
8604841e0000860484180000 > 841e0000 9001 > 84180000 6300 = 2000000000
8604841e0000860484180000 > 841e0000 61ff = 1100000000
8604841e0000860484180000 > 841e0000 6400 = 1100000000
8604841e0000860484180000 > 841e0000 6983 = 1100000000
8604841e0000860484180000 > 841e0000 6a81 = 1100000000
8604841e0000860484180000 > 841e0000 90 = 1100000000
8604841e0000860484180000 > 841e0000 - = 1100000000
8604841e0000860484180000 > 841e0000 9f3602000b6f00 = 1100000000
8604841e0000860484180000 > 841e0000 00 = 1100000000
8604841e0000860484180000 > 841e0000 9000 > 84180000 6985 = 1200000000
8604841e0000860484180000 > 841e0000 gone = 1100000000
8604841e0000860484180000 > 841e0000 9f3602000b9000 > 84180000 gone = 1200000000
008604841e0000000086048418000000 > 841e0000 9000 > 84180000 9000 = 2000000000";

/// What follows an exchange, whose command is as it must be.
fn behind(rt: &impl Abort, next: RunNext, exchange: &str) -> RunNext {
    let (command, answer) = exchange.split_once(' ').unwrap_or((exchange, ""));
    let RunNext::Ask(running) = next else {
        assert!(rt; false, "{exchange}");
        return next;
    };
    let mut out = Out::new();
    running.ask(&mut out);
    assert!(rt; out.as_slice() == bytes(command).as_slice(), "{exchange}");
    if answer == "gone" {
        RunNext::Done(running.gone())
    } else {
        running.take(&bytes(answer))
    }
}

/// What follows the exchanges of a row.
fn run(rt: &impl Abort, template: &str, exchanges: &str) -> RunNext {
    let mut next = Running::begin(&bytes(template));
    if exchanges.is_empty() {
        return next;
    }
    for exchange in exchanges.split(" > ") {
        next = behind(rt, next, exchange);
    }
    next
}

#[test]
fn scripts_run(rt: HostRuntime) {
    for row in SCRIPTS.lines() {
        let (exchanges, result) = row.split_once(" = ").unwrap_or((row, ""));
        let (template, exchanges) = exchanges.split_once(" > ").unwrap_or((exchanges, ""));
        let done = match run(&rt, template, exchanges) {
            RunNext::Done(found) => found.as_slice() == bytes(result).as_slice(),
            RunNext::Ask(_) => false,
        };
        assert!(rt; done, "{row}");
    }
}

/// Sixteen commands.
const SIXTEEN: &str =
    "860484180000860484180000860484180000860484180000860484180000860484180000860484180000860484180000860484180000860484180000860484180000860484180000860484180000860484180000860484180000860484180000";

/// Of sixteen commands the one of this number from 1 fails, or none does, and the first byte of the result. A
/// result tells numbers up to 15.
const FAILURES: [(u8, u8); 5] = [(1, 0x11), (14, 0x1e), (15, 0x1f), (16, 0x1f), (17, 0x20)];

/// What follows where the command of this number fails.
fn failed(number: u8) -> RunNext {
    let mut next = Running::begin(&bytes(SIXTEEN));
    for place in 1..17u8 {
        next = match next {
            RunNext::Ask(running) if place == number => running.take(&[0x69, 0x85]),
            RunNext::Ask(running) => running.take(&[0x90, 0x00]),
            RunNext::Done(result) => RunNext::Done(result),
        };
    }
    next
}

#[test]
fn numbers_are_told(rt: HostRuntime) {
    for (number, first) in FAILURES {
        let told = match failed(number) {
            RunNext::Done(result) => result == [first, 0, 0, 0, 0],
            RunNext::Ask(_) => false,
        };
        assert!(rt; told, "{number}");
    }
}
