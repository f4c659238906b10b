//! Documents that are refused, and what is read of one.
use crate::facts::agree;
use crate::rows::BASE;
use crate::runs::{ANSWER, Row, changed, play, run_of};
use emv_ports::{Tear, TearAt};
use issuer_host::Word;
use scenario::read_scenario;
use scenario_lanes::Link;
use scenario_plan::Scenario;
use std::alloc::Global;
use std::test::Fail;

/// The scenario of the document with these changes.
pub(crate) fn read(alloc: Global, changes: &[(&str, &str)]) -> Result<Scenario, Fail> {
    let text = changed(alloc, BASE, changes)?;
    Ok(
        read_scenario(alloc, text.as_bytes())
            .ok()
            .ok_or("a scenario")?,
    )
}

/// The document, refused.
const REFUSED: Row = Row {
    words: &["read"],
    document: BASE,
    status: 1,
    ..ANSWER
};

/// Changes of the document, and the line that refuses it then.
const REFUSALS: [Row; 4] = [
    Row {
        changes: &[("pin_key = \"6789ABCDEF0123459876543210FEDCBA\"", "")],
        text: "refused 2 MissingKey issuer.pin_key\n",
        ..REFUSED
    },
    Row {
        changes: &[("kind = 22", "kind = 20")],
        text: "refused 4 OutOfLimit lane[0].kind\n",
        ..REFUSED
    },
    Row {
        changes: &[("\n[issuer]", "b = 1\na = 1\n[issuer]")],
        text: "refused 5 UnknownKey a\n",
        ..REFUSED
    },
    Row {
        changes: &[("card = \"c1\"", "card = \"c2\"")],
        text: "refused 6 UnknownName lane[0].purchase[0].card\n",
        ..REFUSED
    },
];

#[test]
fn a_document_is_refused_at_its_first_fault(rt: HostRuntime) -> Result<(), Fail> {
    for row in &REFUSALS {
        let replayed = Row {
            words: &["replay"],
            ..*row
        };
        play(&rt, rt.alloc(), &[*row, replayed])?;
    }
    Ok(())
}

/// Whether both orders refuse a document by this line.
fn is_refused(alloc: Global, bytes: &[u8], line: &str) -> Result<bool, Fail> {
    let mut is_refused = true;
    for word in ["read", "replay"] {
        let ended = run_of(alloc, &[word], bytes, (&[], &[]))?;
        is_refused = is_refused && ended.status == 1 && ended.text.as_slice() == line.as_bytes();
    }
    Ok(is_refused)
}

/// Bytes that are no document, and the line that refuses them.
const BYTES: [(&[u8], &str); 3] = [
    (b"", "refused 2 MissingKey issuer\n"),
    (b"issuer = ", "refused 1 Toml\n"),
    (b"# \xFF", "refused 1 Toml\n"),
];

/// How many blanks, and the line that refuses them.
const BLANKS: [(usize, &str); 2] = [
    (4_194_304, "refused 2 MissingKey issuer\n"),
    (4_194_305, "refused 4 OutOfLimit file\n"),
];

#[test]
fn bytes_are_refused(rt: HostRuntime) -> Result<(), Fail> {
    for row in &BYTES {
        let (bytes, line) = *row;
        assert!(rt; is_refused(rt.alloc(), bytes, line)?, "{line}");
    }
    for row in &BLANKS {
        let (count, line) = *row;
        let mut blanks = Vec::new(rt.alloc());
        blanks.resize(count, b' ')?;
        assert!(rt; is_refused(rt.alloc(), blanks.as_slice(), line)?, "{line}");
    }
    Ok(())
}

#[test]
fn a_card_is_read_in_a_purchase(rt: HostRuntime) -> Result<(), Fail> {
    let lane = "id = \"TERM0001\"";
    let text = changed(
        rt.alloc(),
        BASE,
        &[(lane, "id = \"TERM0001\"\npurchase = []")],
    )?;
    let (head, _) = text.split_once("[[lane.purchase]]").ok_or("a purchase")?;
    let ended = run_of(rt.alloc(), &["read"], head.as_bytes(), (&[], &[]))?;
    let line = "refused 6 UnknownName lane[0].purchase[0]\n";
    assert!(rt; ended.status == 1 && ended.text.as_slice() == line.as_bytes());
    Ok(())
}

/// The document with scripts, a purchase whose flags are turned, that is cut and whose reply is lost, and
/// a schedule.
const MORE: [(&str, &str); 3] = [
    ("\n[issuer]", "schedule = [0, 0]\ncopies = 3\n\n[issuer]"),
    (
        "\n[[card]]",
        "\n[[account.scripts]]\nwhen = \"before\"\nid = \"00000001\"\ncommands = [\"count 9\", \"block bad\"]\n\n[[account.scripts]]\nwhen = \"after\"\ncommands = [\"unblock\"]\n\n[[card]]",
    ),
    (
        "pins = [\"1234\"]",
        "other = 500\ntrade = 9\nservices = true\nforced = true\nconfirm = false\nlink = \"reply_lost\"\n[lane.purchase.tear]\ncommit = 4\nat = \"within\"\nwrite = 2",
    ),
];

#[test]
fn scripts_are_read(rt: HostRuntime) -> Result<(), Fail> {
    let scenario = read(rt.alloc(), &MORE)?;
    let account = scenario.accounts.first().ok_or("an account")?;
    let script = account.scripts.first().ok_or("a script")?;
    let first = script.commands.first().ok_or("a command")?;
    let last = script.commands.last().ok_or("a command")?;
    let later = account.scripts.last().ok_or("a script")?;
    agree(
        &rt,
        &[
            ("copies", scenario.copies == 3),
            (
                "schedule",
                scenario.schedule.as_slice() == [0, 0].as_slice(),
            ),
            ("before", script.before && script.id == Some([0, 0, 0, 1])),
            ("commands", script.commands.len() == 2),
            ("first", first.word == Word::Count(9) && !first.bad),
            ("last", last.word == Word::Block && last.bad),
            ("later", !later.before && later.id.is_none()),
            ("scripts", account.scripts.len() == 2),
        ],
    );
    Ok(())
}

#[test]
fn tears_and_links_are_read(rt: HostRuntime) -> Result<(), Fail> {
    let scenario = read(rt.alloc(), &MORE)?;
    let lane = scenario.lanes.first().ok_or("a lane")?;
    let planned = lane.purchases.first().ok_or("a purchase")?;
    let purchase = &planned.purchase;
    let cut = Tear {
        commit: 4,
        at: TearAt::Within(2),
    };
    agree(
        &rt,
        &[
            ("tear", planned.tear == Some(cut)),
            ("link", planned.link == Link::ReplyLost),
            ("pins", purchase.pins.is_empty()),
            ("other", purchase.other == 500),
            ("trade", purchase.trade == 9),
            ("services", purchase.services),
            ("forced", purchase.forced),
            ("confirm", !purchase.confirm),
        ],
    );
    Ok(())
}

/// The words for what becomes of a message.
const LINKS: [(&str, Link); 4] = [
    ("link = \"ok\"", Link::Sound),
    ("link = \"request_lost\"", Link::RequestLost),
    ("link = \"reply_lost\"", Link::ReplyLost),
    ("link = \"twice\"", Link::Twice),
];

/// What becomes of the first message of a scenario.
fn first_link(scenario: &Scenario) -> Option<Link> {
    Some(scenario.lanes.first()?.purchases.first()?.link)
}

#[test]
fn each_link_has_its_word(rt: HostRuntime) -> Result<(), Fail> {
    for row in &LINKS {
        let (line, link) = *row;
        let scenario = read(rt.alloc(), &[("pins = [\"1234\"]", line)])?;
        assert!(rt; first_link(&scenario) == Some(link), "{line}");
    }
    Ok(())
}
