//! A terminal's captures on pages that tear, and those that wait in working memory.
ghost use Rattle.std.specs.Prelude.{◌≡◌, ◌<◌, ◌≤◌, ◌++◌, ◌∷◌, [], true, false, None, Some, length, IsTrue};
ghost use Rattle.emv_ports.specs.Cut.{is_place};
ghost use Rattle.capture_store.specs.Calls.{Adds};
ghost use Rattle.capture_store.specs.SeenLaneStore.{LaneStoreOn, IsLaneStoreOff, has_power};
ghost use Rattle.capture_store.specs.Spelling.{IsCaptureMessage};
ghost use Rattle.capture_store.specs.StoreRow.{StoreRow, call_under_plan};

use capture_store::{Captures, LaneStore, Waiting, prepare};
use emv_ports::{Gone, MemoryPages, Pages, RoughPages, Tear, TearAt};
use std::alloc::AllocError;
use std::process::Abort;

/// The bytes of the first page that holds the state.
fn first_page(pages: MemoryPages) -> [u8; 64]
    requires { pages.memory.on ≡ false }
{
    let mut pages = pages;
    pages.power_up();
    pages.read(1)
}

/// A page that begins with these bytes, and 00 behind them.
fn page_of(bytes: &[u8]) -> [u8; 64]
    requires { length bytes.now ≤ 64 }
{
    let mut page = [0; 64];
    page[..bytes.len()].copy_from_slice(bytes);
    page
}

/// A list of no messages, on.
fn begun(rt: &impl Abort) -> Captures<MemoryPages> {
    match Captures::open(prepare(MemoryPages::blank())) {
        Ok(captures) => captures,
        Err(_) => panic!(rt; "no tear is planned"),
    }
}

/// The list with one message more.
fn with_one(
    rt: &impl Abort,
    captures: Captures<MemoryPages>,
    message: &[u8],
) -> Captures<MemoryPages>
    requires { IsCaptureMessage message.now }
{
    assert!(rt; captures.count() < 7);
    match captures.add(message) {
        Ok(captures) => captures,
        Err(_) => panic!(rt; "no tear is planned"),
    }
}

/// The list without its first message.
fn without_one(rt: &impl Abort, captures: Captures<MemoryPages>) -> Captures<MemoryPages> {
    assert!(rt; captures.count() > 0);
    match captures.drop_first() {
        Ok(captures) => captures,
        Err(_) => panic!(rt; "no tear is planned"),
    }
}

/// A list of the messages AA and BB CC.
fn two_messages(rt: &impl Abort) -> Captures<MemoryPages> {
    with_one(rt, with_one(rt, begun(rt), &[0xaa]), &[0xbb, 0xcc])
}

/// Two bytes of length stand before the state, and two before each message.
#[test]
fn the_pages_hold_the_messages_behind_their_lengths(rt: HostRuntime) {
    let none = first_page(prepare(MemoryPages::blank()));
    let two = two_messages(&rt);
    let one = without_one(&rt, two_messages(&rt));
    let are_counted = two.count() == 2 && one.count() == 1;
    let are_held = none == page_of(&[0, 2, 1, 0])
        && first_page(two.power_off()) == page_of(&[0, 9, 1, 2, 0, 1, 0xaa, 0, 2, 0xbb, 0xcc])
        && first_page(one.power_off()) == page_of(&[0, 6, 1, 1, 0, 2, 0xbb, 0xcc]);
    assert!(rt; are_counted && are_held);
}

/// With the first two the state has 175 bytes, and its length two.
const FIRST: [u8; 139] = [0x11; 139];

const SECOND: [u8; 30] = [0x22; 30];

const THIRD: [u8; 139] = [0x33; 139];

/// A call, the home pages that it changes and the count and the first byte of the first message behind it.
#[derive(Clone, Copy)]
struct Change {
    adds: bool,
    pages: u8,
    count: usize,
    first: u8,
}

/// The first page has the count. Of 177 bytes the first 139 stay, so that the second page stays too; the
/// third one ends differently, and two more are begun.
const ADDS: Change = Change {
    adds: true,
    pages: 4,
    count: 3,
    first: 0x11,
};

/// 36 bytes are left, on the first page.
const DROPS: Change = Change {
    adds: false,
    pages: 1,
    count: 1,
    first: 0x22,
};

/// Adds a message under no plan.
fn put<P: Pages>(rt: &impl Abort, lane_store: &mut LaneStore<P>, message: &[u8])
    requires on { has_power lane_store.old ≡ true }
    requires message { IsCaptureMessage message.now }
    ensures on { has_power lane_store.new ≡ true }
    ensures made { (row : StoreRow) → LaneStoreOn lane_store.old row None
        → LaneStoreOn lane_store.new (call_under_plan None row (Adds message.now)) None }
{
    assert!(rt; lane_store.count() < 7);
    match lane_store.add(message) {
        Ok(()) => {}
        Err(Gone) => panic!(rt; "no tear is planned"),
    }
}

/// A store of two messages, off.
fn filled<P: Pages>(rt: &impl Abort, pages: P) -> LaneStore<P>
    requires off { (P.memory pages).on ≡ false }
    requires plan { (P.memory pages).plan ≡ None }
    ensures { IsLaneStoreOff result }
{
    let mut lane_store = LaneStore::new(pages);
    match lane_store.open(None) {
        Ok(()) => {}
        Err(Gone) => panic!(rt; "no tear is planned"),
    }
    put(rt, &mut lane_store, &FIRST);
    put(rt, &mut lane_store, &SECOND);
    lane_store.power_off();
    lane_store
}

/// Opens it under a tear of the first commit, which cuts the call.
fn cut<P: Pages>(rt: &impl Abort, lane_store: &mut LaneStore<P>, change: Change, at: TearAt)
    requires off { IsLaneStoreOff lane_store.old }
    requires tear { IsTrue (is_place at) }
    ensures { IsLaneStoreOff lane_store.new }
{
    match lane_store.open(Some(Tear { commit: 1, at })) {
        Ok(()) => {}
        Err(Gone) => panic!(rt; "the tear is planned for the first commit"),
    }
    let count = lane_store.count();
    assert!(rt; count > 0 && count < 7);
    let called = if change.adds {
        lane_store.add(&THIRD)
    } else {
        lane_store.drop_first()
    };
    match called {
        Ok(()) => panic!(rt; "the tear is planned for this commit"),
        Err(Gone) => {}
    }
}

/// Whether the list before the call may be found, and whether the one behind it: the gate opens at the
/// second write behind those of the journal.
fn may_be_found(change: Change, at: TearAt) -> (bool, bool)
    requires { change.pages ≤ 4 }
{
    let gate = change.pages + 2;
    match at {
        TearAt::Before(number) => (number <= gate, number > gate),
        TearAt::Within(number) => (number <= gate, number >= gate),
        TearAt::Release => (false, true),
    }
}

/// Cuts the call, and finds the list before it or behind it.
fn check<P: Pages>(rt: &impl Abort, pages: P, change: Change, at: TearAt)
    requires off { (P.memory pages).on ≡ false }
    requires plan { (P.memory pages).plan ≡ None }
    requires tear { IsTrue (is_place at) }
    requires pages { change.pages ≤ 4 }
{
    let mut lane_store = filled(rt, pages);
    cut(rt, &mut lane_store, change, at);
    match lane_store.open(None) {
        Ok(()) => {}
        Err(Gone) => panic!(rt; "no tear is planned"),
    }
    let first = match lane_store.first() {
        Some([byte, ..]) => *byte,
        _ => panic!(rt; "no message"),
    };
    let found = (lane_store.count(), first);
    let (before, behind) = may_be_found(change, at);
    let is_before = before && found == (2, 0x11);
    let is_behind = behind && found == (change.count, change.first);
    assert!(rt; is_before || is_behind, "{} pages, {at:?}", change.pages);
}

/// Before and within each write, before one more, and at the release.
fn place_of(number: u8, writes: u8) -> TearAt
    ensures { IsTrue (is_place result) }
{
    if number / 2 > writes {
        return TearAt::Release;
    }
    if number % 2 == 0 {
        TearAt::Before(number / 2 + 1)
    } else {
        TearAt::Within(number / 2 + 1)
    }
}

#[test]
fn a_tear_at_any_place_leaves_the_list_before_the_call_or_behind_it(rt: HostRuntime) {
    for change in [ADDS, DROPS] {
        let writes = 2 * change.pages + 3;
        for number in 0..2 * writes + 3 {
            let at = place_of(number, writes);
            check(&rt, MemoryPages::blank(), change, at);
            check(&rt, RoughPages::blank(0), change, at);
            check(&rt, RoughPages::blank(4660), change, at);
        }
    }
}

/// One message more waits.
fn wait(rt: &impl Abort, waiting: &mut Waiting, message: &[u8])
    requires { length message.now ≤ 2048 }
    ensures { waiting.new.messages ≡ waiting.old.messages ++ message.now ∷ [] }
{
    match waiting.reserve() {
        Ok(()) => waiting.push(message),
        Err(AllocError) => panic!(rt; "no memory"),
    }
}

const MESSAGES: [&[u8]; 4] = [&[0x11, 0x12], &[0x22; 2048], &[], &[0x33]];

#[test]
fn what_waits_keeps_its_length_and_its_order(rt: HostRuntime) {
    let mut waiting = Waiting::new(rt.alloc());
    assert!(rt; waiting.len() == 0);
    for message in &MESSAGES {
        assert!(rt; message.len() <= 2048);
        wait(&rt, &mut waiting, *message);
    }
    assert!(rt; waiting.len() == 4);
    for (index, message) in MESSAGES.iter().enumerate() {
        let is_kept = index < waiting.len() && waiting.at(index) == *message;
        assert!(rt; is_kept, "message {index}");
    }
}

/// The room for the bytes grows more than once, and each message is found behind it.
#[test]
fn what_waits_is_found_where_the_room_has_grown(rt: HostRuntime) {
    let mut waiting = Waiting::new(rt.alloc());
    for count in 0..=255 {
        wait(&rt, &mut waiting, &[count; 100][..usize::from(count % 101)]);
    }
    assert!(rt; waiting.len() == 256);
    for count in 0..=255 {
        let index = usize::from(count);
        let is_kept = index < waiting.len() && waiting.at(index) == &[count; 100][..index % 101];
        assert!(rt; is_kept, "message {index}");
    }
}
