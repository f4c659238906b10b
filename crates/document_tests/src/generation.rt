//! A generated scenario.
use crate::facts::agree;
use card_files::Image;
use emv_ports::{Tear, TearAt};
use generated::generated;
use scenario_lanes::{Lane, Link, Planned};
use scenario_plan::{CardKind, Scenario};
use std::process::Abort;
use std::test::Fail;

/// The lane of this number.
fn lane<'a>(rt: &impl Abort, scenario: &'a Scenario, number: usize) -> &'a Lane {
    scenario.lanes.get(number).expect(rt, "a lane")
}

/// The purchase of this place on the lane of this number.
fn purchase<'a>(
    rt: &impl Abort,
    scenario: &'a Scenario,
    number: usize,
    place: usize,
) -> &'a Planned {
    lane(rt, scenario, number)
        .purchases
        .get(place)
        .expect(rt, "a purchase")
}

/// The image of the card of this number.
fn image<'a>(rt: &impl Abort, scenario: &'a Scenario, number: usize) -> &'a Image {
    match &scenario.cards.get(number).expect(rt, "a card").kind {
        CardKind::App(image) => image,
        CardKind::Canned(_) => panic!(rt; "canned answers"),
    }
}

/// 1 * 1103515245 + 12345 is 1103527590, below 2^31, and in bytes 41 C6 7E A6.
#[test]
fn first_purchase_of_one(rt: HostRuntime) -> Result<(), Fail> {
    let scenario = generated(rt.alloc(), 1)?;
    let planned = purchase(&rt, &scenario, 0, 0);
    agree(
        &rt,
        &[
            ("amount", planned.purchase.amount == 4_390),
            (
                "number",
                planned.purchase.number == [0x41, 0xc6, 0x7e, 0xa6],
            ),
            ("word", planned.purchase.word == 0x41c6),
            ("pins", planned.purchase.pins.len() == 1),
            ("card", planned.card == 0),
            ("link", planned.link == Link::Sound),
            ("tear", planned.tear.is_none()),
        ],
    );
    Ok(())
}

/// Of a hundred, purchases 1, 8, 12, 18, 19, 45 and 95 lose their reply, and the cards of purchases 23, 41 and 72
/// are pulled out: a lane, how many replies are lost there, and how many cards pulled out.
const OF_A_HUNDRED: [(usize, usize, usize); 4] = [(0, 2, 1), (1, 2, 1), (2, 1, 0), (3, 2, 1)];

#[test]
fn lost_replies_and_tears_of_a_hundred(rt: HostRuntime) -> Result<(), Fail> {
    let scenario = generated(rt.alloc(), 100)?;
    for row in &OF_A_HUNDRED {
        let (number, replies, tears) = *row;
        let purchases = &lane(&rt, &scenario, number).purchases;
        let lost = purchases
            .iter()
            .filter(|planned| planned.link == Link::ReplyLost)
            .count();
        let torn = purchases
            .iter()
            .filter(|planned| planned.tear.is_some())
            .count();
        assert!(rt; lost == replies && torn == tears, "lane {number}");
    }
    Ok(())
}

/// A purchase of a hundred, and the first one of 178: x is 1004713987, 3BE2B803: the reply is lost, and the card
/// is pulled out all the same.
#[test]
fn a_torn_purchase(rt: HostRuntime) -> Result<(), Fail> {
    let hundred = generated(rt.alloc(), 100)?;
    let torn = purchase(&rt, &hundred, 3, 5);
    let more = generated(rt.alloc(), 178)?;
    let lost = purchase(&rt, &more, 0, 0);
    let cut = Tear {
        commit: 4,
        at: TearAt::Before(1),
    };
    agree(
        &rt,
        &[
            (
                "number",
                torn.purchase.number == 1_194_874_924u32.to_be_bytes(),
            ),
            ("card", torn.card == 7),
            ("tear", torn.tear == Some(cut)),
            ("link", lost.link == Link::ReplyLost),
            ("tear of the lost one", lost.tear == Some(cut)),
        ],
    );
    Ok(())
}

/// How many purchases, and how many of them each lane has.
const COUNTS: [(u32, [usize; 4]); 2] = [(10, [3, 3, 2, 2]), (10_000, [2_500, 2_500, 2_500, 2_500])];

#[test]
fn purchases_of_each_lane(rt: HostRuntime) -> Result<(), Fail> {
    for row in &COUNTS {
        let (count, wanted) = *row;
        assert!(rt; 1 <= count && count <= 10_000);
        let scenario = generated(rt.alloc(), count)?;
        assert!(rt; scenario.lanes.len() == 4);
        for (number, purchases) in wanted.into_iter().enumerate() {
            let found = lane(&rt, &scenario, number).purchases.len();
            assert!(rt; found == purchases, "lane {number} of {count}");
        }
    }
    Ok(())
}

/// The account number 4761739001010017, in the image and in record 1 of file 1.
#[test]
fn last_card(rt: HostRuntime) -> Result<(), Fail> {
    let scenario = generated(rt.alloc(), 1)?;
    let image = image(&rt, &scenario, 7);
    let app = image.apps().get(0).expect(&rt, "an application");
    let pan = [4, 7, 6, 1, 7, 3, 9, 0, 0, 1, 0, 1, 0, 0, 1, 7];
    assert!(rt; app.pan.as_slice() == pan.as_slice());
    let record = image.record(0, 1, 1).expect(&rt, "a record");
    let begins = [
        0x70, 0x2e, 0x5a, 0x08, 0x47, 0x61, 0x73, 0x90, 0x01, 0x01, 0x00, 0x17,
    ];
    assert!(rt; record.len() == 48 && record.starts_with(&begins));
    Ok(())
}
