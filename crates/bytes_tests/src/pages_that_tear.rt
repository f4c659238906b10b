//! Pages in memory whose power is cut by plan, and what their cells give then.
ghost use Rattle.std.specs.Prelude.{◌≡◌, ◌≤◌, true};

use emv_ports::{Gone, Held, MemoryPages, Pages, RoughPages, Tear, TearAt};
use std::test::Fail;

/// The bytes of a page; of the last four the second half alone is new.
#[derive(Clone, Copy)]
enum Bytes {
    Blank,
    Old,
    HalfNew,
    /// Odd cells give the new byte, even ones the old one.
    OddNew,
    /// Even cells give the new byte, odd ones the old one.
    EvenNew,
    /// Cell i gives so many more than i, modulo 256.
    Rough(u8),
}

fn cell(bytes: Bytes, i: u8) -> u8 {
    match bytes {
        Bytes::Blank => 0,
        Bytes::Old => 0xaa,
        _ if i < 32 => 0xaa,
        Bytes::HalfNew => 0x55,
        Bytes::OddNew => { if i % 2 == 1 { 0x55 } else { 0xaa } }
        Bytes::EvenNew => { if i % 2 == 0 { 0x55 } else { 0xaa } }
        Bytes::Rough(more) => i.wrapping_add(more),
    }
}

fn page(bytes: Bytes) -> [u8; 64] {
    let mut page = [0; 64];
    for i in 0..64u8 {
        page[i as usize] = cell(bytes, i);
    }
    page
}

/// What pages of these numbers give.
type Given = &'static [(u8, Bytes)];

/// Whether the pages give these bytes.
fn gives<P: Pages>(pages: &P, given: Given) -> bool
    requires { (P.memory pages.now).on ≡ true }
{
    for (number, bytes) in given {
        if *number >= 64 || pages.read(*number) != page(*bytes) {
            return false;
        }
    }
    true
}

/// A power-up: whether a tear within the first write is planned before it, what pages give behind it, and then the
/// write of a page with what comes of it, whether the write is released, and what pages give at the end.
type Cycle = (
    bool,
    Given,
    Option<(u8, Bytes, Result<(), Gone>)>,
    bool,
    Given,
);

/// Page 7 is written, and at power-up 2 its write is torn.
const TORN: [Cycle; 2] = [
    (
        false,
        &[(63, Bytes::Blank), (7, Bytes::Blank)],
        Some((7, Bytes::Old, Ok(()))),
        true,
        &[(7, Bytes::Old)],
    ),
    (
        true,
        &[(7, Bytes::Old)],
        Some((7, Bytes::HalfNew, Err(Gone))),
        false,
        &[],
    ),
];

/// At power-up 3 odd cells give the torn write's byte, even ones what they gave when they were torn; at power-up 4 it is
/// the other way round, and so on.
const SETTLED: [Cycle; 3] = [
    (false, &[(7, Bytes::OddNew)], None, false, &[]),
    (false, &[(7, Bytes::EvenNew)], None, false, &[]),
    (false, &[(7, Bytes::OddNew)], None, false, &[]),
];

/// The word is 18 * 256 + 52. Page 7 adds 49 to it, and power-up 3 adds 93: cells 32 to 61 give 226 to 255, and the
/// last two 0 and 1, until it is over. Power-up 4 adds 31 more, so that cell 32 gives 1.
const ROUGHENED: [Cycle; 2] = [
    (
        false,
        &[(7, Bytes::Rough(194))],
        Some((8, Bytes::Old, Ok(()))),
        false,
        &[(7, Bytes::Rough(194))],
    ),
    (
        false,
        &[(7, Bytes::Rough(225)), (8, Bytes::Old)],
        None,
        false,
        &[],
    ),
];

/// Goes through a power-up, and says whether all comes out so.
macro_rules! cycled {
    ($pages:ident, $cycle:ident) => {{
        let (planned, before, write, released, behind) = *$cycle;
        if planned {
            $pages.plan(Some(Tear {
                commit: 1,
                at: TearAt::Within(1),
            }));
        }
        $pages.power_up();
        let mut right = gives($pages, before);
        if let Some((number, bytes, wanted)) = write {
            $pages.mark();
            if number >= 64 {
                return false;
            }
            let found = $pages.write(number, &page(bytes));
            if found.is_err() {
                return right && wanted.is_err();
            }
            if released && $pages.release().is_err() {
                return false;
            }
            right = right && wanted.is_ok() && gives($pages, behind);
        }
        $pages.power_off();
        right
    }};
}

fn settle(pages: &mut MemoryPages, cycle: &Cycle) -> bool {
    cycled!(pages, cycle)
}

#[test]
fn a_torn_page_settles_in_turn(rt: HostRuntime) {
    let mut pages = MemoryPages::blank();
    for cycle in &TORN {
        assert!(rt; settle(&mut pages, cycle), "torn");
    }
    assert!(rt; (pages.marks(), pages.writes(), pages.losses()) == (2, 2, 1));
    for cycle in &SETTLED {
        assert!(rt; settle(&mut pages, cycle), "settled");
    }
}

fn roughen(pages: &mut RoughPages, cycle: &Cycle) -> bool {
    cycled!(pages, cycle)
}

#[test]
fn the_unsure_cells_of_a_torn_page_give_rough_bytes(rt: HostRuntime) {
    let mut pages = RoughPages::blank(4660);
    for cycle in &TORN {
        assert!(rt; roughen(&mut pages, cycle), "torn");
    }
    for cycle in &ROUGHENED {
        assert!(rt; roughen(&mut pages, cycle), "roughened");
    }
}

/// The number of the write that is lost, of three in commit 1, or 4 for the release, or 0 for none.
fn lost_at(pages: &mut MemoryPages) -> u8 {
    pages.power_up();
    pages.mark();
    for number in 1..=3 {
        if pages.write(0, &page(Bytes::Old)).is_err() {
            return number;
        }
    }
    if pages.release().is_err() { 4 } else { 0 }
}

/// A planned tear's commit and its place there, and what is lost.
const PLANS: [(u8, TearAt, u8); 8] = [
    (1, TearAt::Before(1), 1),
    (1, TearAt::Before(3), 3),
    (1, TearAt::Within(2), 2),
    (1, TearAt::Within(4), 4),
    (1, TearAt::Before(255), 4),
    (1, TearAt::Release, 4),
    (0, TearAt::Before(1), 0),
    (2, TearAt::Release, 0),
];

/// The plan is spent, or dropped with the power, so that the same again loses nothing.
#[test]
fn a_plan_for_a_commit_that_is_reached_fires_in_it(rt: HostRuntime) {
    for (commit, at, lost) in PLANS {
        let mut pages = MemoryPages::blank();
        pages.plan(Some(Tear { commit, at }));
        let first = lost_at(&mut pages);
        pages.power_off();
        assert!(rt;
            (first, lost_at(&mut pages)) == (lost, 0),
            "at {commit} {at:?}"
        );
    }
}

/// The number of the write that is lost in a commit of so many, or the one behind them for the release, or 0 for none.
fn lost_of(pages: &mut MemoryPages, writes: u16) -> u16
    requires { writes ≤ 256 }
{
    pages.mark();
    for number in 1..=writes {
        if pages.write(0, &page(Bytes::Old)).is_err() {
            return number;
        }
    }
    if pages.release().is_err() {
        writes + 1
    } else {
        0
    }
}

/// The numbers of the commit and of its write that are lost, of so many commits of so many writes each.
fn lost_among(pages: &mut MemoryPages, commits: u16, writes: u16) -> (u16, u16)
    requires { writes ≤ 256 }
{
    pages.power_up();
    for commit in 1..=commits {
        let number = lost_of(pages, writes);
        if number > 0 {
            return (commit, number);
        }
    }
    (0, 0)
}

/// A planned tear's commit and its place there, the commits and the writes of each, and what is lost. The numbers stop at
/// 255, so that the commit behind it isn't number 0.
const LATE_PLANS: [(u8, TearAt, u16, u16, (u16, u16)); 9] = [
    (254, TearAt::Before(1), 256, 1, (254, 1)),
    (255, TearAt::Before(1), 256, 1, (255, 1)),
    (255, TearAt::Within(2), 256, 1, (255, 2)),
    (255, TearAt::Release, 256, 1, (255, 2)),
    (0, TearAt::Release, 256, 1, (0, 0)),
    (1, TearAt::Before(254), 1, 256, (1, 254)),
    (1, TearAt::Before(255), 1, 256, (1, 255)),
    (1, TearAt::Within(255), 1, 256, (1, 255)),
    (1, TearAt::Release, 1, 256, (1, 257)),
];

#[test]
fn a_plan_fires_at_the_greatest_numbers(rt: HostRuntime) {
    for (commit, at, commits, writes, lost) in LATE_PLANS {
        let mut pages = MemoryPages::blank();
        pages.plan(Some(Tear { commit, at }));
        assert!(rt; writes <= 256);
        assert!(rt;
            lost_among(&mut pages, commits, writes) == lost,
            "at {commit} {at:?}"
        );
    }
}

#[test]
fn held_pages_are_the_pages_within(rt: HostRuntime) -> Result<(), Fail> {
    let mut held = Held::new(rt.alloc(), MemoryPages::blank())?;
    held.power_up();
    held.mark();
    assert!(rt; held.write(9, &[7; 64]).is_ok());
    assert!(rt; held.release().is_ok());
    assert!(rt; held.read(9) == [7; 64]);
    held.power_off();
    held.plan(Some(Tear {
        commit: 1,
        at: TearAt::Release,
    }));
    held.power_up();
    held.mark();
    assert!(rt; held.release() == Err(Gone));
    let pages = held.into_inner();
    assert!(rt; (pages.marks(), pages.writes()) == (2, 1));
    Ok(())
}
