//! A state on pages that tear at any place.
ghost use Rattle.std.specs.Prelude.{◌≡◌, ◌<◌, ◌≤◌, ◌⊎◌, ◌++◌, ◌==◌, ℕ, List, [], ◌∷◌, length, None, Some, false};
ghost use Rattle.std.specs.Prelude.{IsTrue, IfOk, IfErr, if◌then◌else◌};
ghost use Rattle.emv_ports.specs.Cut.{is_place, is_plan};
ghost use Rattle.torn_store.specs.Layout.{recover};
ghost use Rattle.torn_store.specs.Recovery.{Among, Between};

use arrayvec::ArrayVec;
use emv_ports::{Gone, MemoryPages, Pages, Tear, TearAt};
use std::process::Abort;
use torn_store::{Convert, Lost, Store, StorePlace};

/// Commits and releases.
fn settled<P: Pages>(store: Store<P>, new: &[u8]) -> Result<Store<P>, Lost<P>>
    requires { length new.now ≤ 1024 }
    ensures state { IfOk result (λ next. next.state ≡ new.now) }
    ensures lost { IfErr result (λ lost.
        Between recover (P.memory lost.pages).cells store.state new.now) }
    ensures off { IfErr result (λ lost. (P.memory lost.pages).on ≡ false) }
{
    store.commit(new)?.release()
}

/// Opens the pages, once more where a tear cuts the first time off.
pub fn opened<P: Pages>(pages: P, tear: Option<Tear>) -> Store<P>
    requires off { (P.memory pages).on ≡ false }
    requires tear { IsTrue (is_plan tear) }
    requires between { (before : List ℕ) × (after : List ℕ)
        × Between recover (P.memory pages).cells before after }
    ensures { (before after : List ℕ) → Between recover (P.memory pages).cells before after
        → (result.state ≡ before) ⊎ (result.state ≡ after) }
{
    let mut pages = pages;
    pages.plan(tear);
    match Store::open(pages) {
        Ok(store) => store,
        Err(lost) => match Store::open(lost.pages) {
            Ok(store) => store,
            Err(_) => unreachable!(),
        },
    }
}

/// Pages with a state, and a tear planned, or none.
fn formatted<P: Pages>(pages: P, first: &[u8], tear: Option<Tear>) -> P
    requires off { (P.memory pages).on ≡ false }
    requires plan { (P.memory pages).plan ≡ None }
    requires tear { IsTrue (is_plan tear) }
    requires fits { length first.now ≤ 1024 }
    ensures off { (P.memory result).on ≡ false }
    ensures between { (before : List ℕ) × (after : List ℕ)
        × Between recover (P.memory result).cells before after }
{
    let mut pages = Store::format(pages, first).into_pages();
    pages.plan(tear);
    pages
}

/// A commit behind a format, with a tear planned: the pages, and in which commit the tear came, or
/// 2.
pub fn torn_pages<P: Pages>(pages: P, old: &[u8], new: &[u8], tear: Tear) -> (P, u8)
    requires off { (P.memory pages).on ≡ false }
    requires plan { (P.memory pages).plan ≡ None }
    requires tear { IsTrue (is_place tear.at) }
    requires short { length old.now ≤ 1024 }
    requires fits { length new.now ≤ 1024 }
    ensures off { (P.memory result.0).on ≡ false }
    ensures between { (before : List ℕ) × (after : List ℕ)
        × Between recover (P.memory result.0).cells before after }
{
    let pages = formatted(pages, old, Some(tear));
    let store = match Store::open(pages) {
        Ok(store) => store,
        Err(lost) => return (lost.pages, 0),
    };
    match settled(store, new) {
        Ok(store) => (store.into_pages(), 2),
        Err(lost) => (lost.pages, 1),
    }
}

/// A state, a new one, and how many home pages change.
#[derive(Clone, Copy)]
struct Change<'a> {
    old: &'a [u8],
    new: &'a [u8],
    pages: u8,
}

/// Whether the old state may be found behind a tear, and whether the new one: the gate opens at the
/// second write behind those of the journal.
fn may_be_found(tear: Tear, pages: u8) -> (bool, bool)
    requires { pages ≤ 17 }
{
    if tear.commit == 0 {
        return (true, false);
    }
    let gate = pages + 2;
    match tear.at {
        TearAt::Before(number) => (number <= gate, number > gate),
        TearAt::Within(number) => (number <= gate, number >= gate),
        TearAt::Release => (false, true),
    }
}

/// Tears the pages, finds a state in spite of a second tear, and finds it again.
fn check_tear(rt: &impl Abort, change: Change, tear: Tear, second: Option<Tear>)
    requires tear { IsTrue (is_place tear.at) }
    requires second { IsTrue (is_plan second) }
    requires short { length change.old.now ≤ 1024 }
    requires fits { length change.new.now ≤ 1024 }
    requires pages { change.pages ≤ 17 }
{
    let (pages, commit) = torn_pages(MemoryPages::blank(), change.old, change.new, tear);
    let store = opened(pages, second);
    let (old, new) = may_be_found(tear, change.pages);
    let found_old = old && store.state() == change.old;
    let found = if found_old { change.old } else { change.new };
    let is_found = commit == tear.commit && (found_old || new) && store.state() == found;
    let again = opened(store.into_pages(), second);
    assert!(rt;
        is_found && again.state() == found,
        "{} pages, {tear:?}, {second:?}",
        change.pages
    );
}

/// A place by a number: before and within each of so many writes, and then the release.
pub fn place_of(number: u8, writes: u8) -> TearAt
    ensures { IsTrue (is_place result) }
{
    if number / 2 >= writes {
        return TearAt::Release;
    }
    if number % 2 == 0 {
        TearAt::Before(number / 2 + 1)
    } else {
        TearAt::Within(number / 2 + 1)
    }
}

/// A commit that is torn at this place, and then again at the writes of the repair: at each where
/// few pages change, else at each eighth from a place on.
fn check_place(rt: &impl Abort, change: Change, tear: Tear, from: u8)
    requires tear { IsTrue (is_place tear.at) }
    requires short { length change.old.now ≤ 1024 }
    requires fits { length change.new.now ≤ 1024 }
    requires pages { change.pages ≤ 17 }
{
    check_tear(rt, change, tear, None);
    let writes = change.pages + 3;
    let step = if change.pages > 3 { 8 } else { 1 };
    for number in 0..2 * writes + 1 {
        if number % step != from % step {
            continue;
        }
        let second = Tear {
            commit: 0,
            at: place_of(number, writes),
        };
        check_tear(rt, change, tear, Some(second));
    }
}

/// A commit that is torn at each of its writes, at one more and at its release, or so before it.
fn check_change(rt: &impl Abort, change: Change)
    requires short { length change.old.now ≤ 1024 }
    requires fits { length change.new.now ≤ 1024 }
    requires pages { change.pages ≤ 17 }
{
    for commit in 0..2 {
        let writes = if commit == 0 { 2 } else { 2 * change.pages + 4 };
        for number in 0..2 * writes + 1 {
            let at = place_of(number, writes);
            check_place(rt, change, Tear { commit, at }, number);
        }
    }
}

/// How many writes a commit makes, between its opening and its release.
fn writes_of(rt: &impl Abort, old: &[u8], new: &[u8]) -> u32
    requires short { length old.now ≤ 1024 }
    requires fits { length new.now ≤ 1024 }
{
    let pages = formatted(MemoryPages::blank(), old, None);
    let before = pages.writes();
    let Ok(store) = Store::open(pages) else {
        panic!(rt; "no tear is planned");
    };
    match settled(store, new) {
        Ok(store) => store
            .into_pages()
            .writes()
            .saturating_sub(before)
            .saturating_sub(1),
        Err(_) => panic!(rt; "no tear is planned"),
    }
}

/// The state of a card with four applications.
const BEFORE: [u8; 132] = [7; 132];

/// The state behind a decision of the third application.
fn one_counter_differs() -> [u8; 132] {
    let mut state = BEFORE;
    state[4 + 2 * 32 + 1] = 8;
    state
}

const LONG: [u8; 1024] = [3; 1024];

/// A state that differs in the first page, in the second and in the last.
fn three_pages_differ() -> [u8; 1024] {
    let mut state = LONG;
    state[61] = 4;
    state[62] = 4;
    state[1023] = 4;
    state
}

#[test]
fn a_tear_at_any_place_leaves_the_old_or_the_new_state(rt: HostRuntime) {
    let after = one_counter_differs();
    let three = three_pages_differ();
    for (old, new, pages) in [
        (&LONG[..2], &LONG[..2], 0),
        (&LONG[..2], &BEFORE[..2], 1),
        (&LONG, &LONG[..2], 1),
        (&BEFORE, &after, 1),
        (&LONG[..2], &LONG[..130], 3),
        (&LONG, &three, 3),
        (&LONG, &[4; 1024], 17),
    ] {
        let change = Change { old, new, pages };
        let writes = writes_of(&rt, old, new);
        assert!(rt; writes == 2 * u32::from(pages) + 3, "{pages} pages");
        check_change(&rt, change);
    }
}

#[test]
fn a_counter_of_one_of_four_applications_takes_five_writes(rt: HostRuntime) {
    assert!(rt; writes_of(&rt, &BEFORE, &one_counter_differs()) == 5);
}

/// Makes a state of two bytes a byte longer.
struct Longer;

impl Convert for Longer {
    ghost means = { λ _ old. (if length old == 2 then Some (old ++ 9 ∷ []) else None) };

    fn convert(&self, old: &[u8], out: &mut ArrayVec<u8, 1024>) -> bool {
        if old.len() != 2 {
            return false;
        }
        out.clear();
        out.push(old[0]);
        out.push(old[1]);
        out.push(9);
        true
    }
}

/// Pages that were turned on with a tear planned, or none.
fn turned_on<P: Pages>(pages: P, tear: Option<Tear>) -> P
    requires off { (P.memory pages).on ≡ false }
    requires tear { IsTrue (is_plan tear) }
    requires among { (states : List (List ℕ)) × Among recover (P.memory pages).cells states }
    ensures off { (P.memory result).on ≡ false }
    ensures among { (states : List (List ℕ)) × Among recover (P.memory result).cells states }
{
    let mut pages = pages;
    pages.plan(tear);
    match Store::open_with(pages, &Longer) {
        Ok(store) => store.into_pages(),
        Err(lost) => lost.pages,
    }
}

/// A conversion that is torn at this place, and again at the same place of the next one.
fn check_conversion(rt: &impl Abort, first: Tear, second: Tear)
    requires first { IsTrue (is_place first.at) }
    requires second { IsTrue (is_place second.at) }
{
    let pages = formatted(MemoryPages::blank(), &[1, 2], None);
    let pages = turned_on(turned_on(pages, Some(first)), Some(second));
    match Store::open_with(pages, &Longer) {
        Ok(store) => {
            let is_longer = store.state() == [1, 2, 9].as_slice();
            assert!(rt; is_longer, "{first:?}, {second:?}");
        }
        Err(_) => panic!(rt; "no tear is planned"),
    }
}

#[test]
fn a_torn_conversion_is_made_in_the_end(rt: HostRuntime) {
    for number in 0..15 {
        for again in 0..15 {
            let first = Tear {
                commit: 0,
                at: place_of(number, 7),
            };
            let second = Tear {
                commit: 0,
                at: place_of(again, 7),
            };
            check_conversion(&rt, first, second);
        }
    }
}

/// Each second byte is 01, from the first on.
fn every_second() -> [u8; 64] {
    let mut bytes = [0; 64];
    for i in 0..32 {
        bytes[2 * i] = 1;
    }
    bytes
}

/// A cell that a write tore is settled in turn, half of a page at each power-up.
#[test]
fn a_format_turns_the_pages_on_once(rt: HostRuntime) {
    let mut pages = MemoryPages::blank();
    pages.plan(Some(Tear {
        commit: 0,
        at: TearAt::Within(1),
    }));
    pages.power_up();
    let Err(Gone) = pages.write(40, &[1; 64]) else {
        panic!(rt; "a tear is planned");
    };
    let mut place = StorePlace::new(pages);
    place.format(&[1, 2]);
    assert!(rt; place.into_pages().read(40) == every_second());
}
