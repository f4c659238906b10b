//! A purchase whose power is cut at each place, and what is found behind it.
ghost use Rattle.std.specs.Prelude.{◌≡◌, Some, None, false, IsTrue};
ghost use Rattle.emv_ports.specs.Cut.{is_plan};
ghost use Rattle.card_app.specs.SeenIcc.{IsIccOff};

use crate::cards::{
    APPROVED, AUTHENTICATE, Line, OPTIONS, REQUEST, SELECT, VERIFY, Variant, go_through, image_of,
    opening_of,
};
use crate::{turn_off, turn_on};
use card_app::Icc;
use card_files::Image;
use card_state::AppState;
use emv_ports::{Gone, Held, MemoryPages, Pages, Tear, TearAt};
use std::process::Abort;
use std::test::Fail;

/// A purchase with two scripts: a limit before the second cryptogram, and a new PIN behind it. It makes
/// eight decisions.
const PURCHASE: [Line; 8] = [
    SELECT,
    OPTIONS,
    VERIFY,
    REQUEST,
    AUTHENTICATE,
    "04dadf01090935c47f63c1704132 9000",
    APPROVED,
    "8424000210b0869a45da56310b591ffd95cee7feef 9000",
];

/// The state behind so many decisions of the purchase: the counter is taken, a PIN try, the try is
/// restored, the first cryptogram, the issuer is authenticated, the limit, the second cryptogram, and the
/// PIN.
fn state_behind(decisions: u8) -> AppState {
    AppState {
        counter: if decisions < 1 { 10 } else { 11 },
        tries: if decisions == 2 { 2 } else { 3 },
        count_limit: if decisions < 6 { 0 } else { 9 },
        last_online: if decisions < 7 { 9 } else { 11 },
        pin: if decisions < 8 {
            [0x24, 0x12, 0x34, 0xff, 0xff, 0xff, 0xff, 0xff]
        } else {
            [0x24, 0x98, 0x76, 0xff, 0xff, 0xff, 0xff, 0xff]
        },
        ..opening_of(Variant::Online)
    }
}

/// How many places of a commit are tried: before and within each of six writes, and the release.
const PLACES: u8 = 13;

/// How many plans there are, for the power-up and eight commits.
const PLANS: u8 = 117;

/// The plan of this number.
fn plan_of(number: u8) -> Tear
    ensures { IsTrue (is_plan (Some result)) }
{
    let place = number % PLACES;
    Tear {
        commit: number / PLACES,
        at: if place < 6 {
            TearAt::Before(place + 1)
        } else if place < 12 {
            TearAt::Within(place - 5)
        } else {
            TearAt::Release
        },
    }
}

/// Whether the plan leaves this state: without the decision that it cuts where the first write was cut
/// before it began, with it at the release, and either at any other place.
fn may_be_left(tear: Tear, state: &AppState) -> bool {
    if tear.commit == 0 {
        return *state == state_behind(0);
    }
    let dropped = *state == state_behind(tear.commit - 1);
    let kept = *state == state_behind(tear.commit);
    match tear.at {
        TearAt::Before(1) => dropped,
        TearAt::Release => kept,
        TearAt::Before(_) | TearAt::Within(_) => dropped || kept,
    }
}

/// A purchase that is cut.
fn purchase_cut<'i, P: Pages>(rt: &impl Abort, icc: &mut Icc<'i, P>, tear: Tear)
    requires card { IsIccOff icc.old }
    requires tear { IsTrue (is_plan (Some tear)) }
    ensures off { IsIccOff icc.new }
{
    match turn_on(icc, Some(tear)) {
        Ok(()) => match go_through(rt, icc, &PURCHASE) {
            Ok(()) => panic!(rt; "the plan cuts nothing"),
            Err(Gone) => {}
        },
        Err(Gone) => assert_eq!(rt; tear.commit, 0),
    }
}

/// The state that a power-up finds, where the plan doesn't cut it.
fn state_found<'i, P: Pages>(icc: &mut Icc<'i, P>, tear: Option<Tear>) -> Option<AppState>
    requires card { IsIccOff icc.old }
    requires tear { IsTrue (is_plan tear) }
    ensures off { IsIccOff icc.new }
{
    match turn_on(icc, tear) {
        Ok(()) => {
            let state = icc
                .totals()
                .apps
                .as_slice()
                .first()
                .map(|state| state.copy());
            turn_off(icc);
            state
        }
        Err(Gone) => None,
    }
}

/// A purchase that is cut, a power-up with another plan, and one without.
fn try_plans<P: Pages>(rt: &impl Abort, image: &Image, pages: P, first: Tear, again: Tear)
    requires off { (P.memory pages).on ≡ false }
    requires plan { (P.memory pages).plan ≡ None }
    requires first { IsTrue (is_plan (Some first)) }
    requires again { IsTrue (is_plan (Some again)) }
{
    let mut icc = Icc::new(image, pages);
    purchase_cut(rt, &mut icc, first);
    let then = state_found(&mut icc, Some(again));
    assert_eq!(rt; then.is_none(), again.commit == 0, "{first:?}, {again:?}");
    let last = state_found(&mut icc, None).expect(rt, "a card that is on");
    assert!(rt; may_be_left(first, &last), "{first:?}, {again:?}");
    if let Some(state) = then {
        assert_eq!(rt; state, last, "{first:?}, {again:?}");
    }
}

/// A card whose state is in the older form is cut while its first power-up writes it anew.
#[test]
fn older_states_are_found_whole(rt: HostRuntime) -> Result<(), Fail> {
    let image = image_of(&rt, rt.alloc(), Variant::OlderForm)?;
    for first in 0..PLACES {
        for again in 0..PLANS {
            let pages = Held::new(rt.alloc(), MemoryPages::blank())?;
            try_plans(&rt, &image, pages, plan_of(first), plan_of(again));
        }
    }
    Ok(())
}

#[test]
fn what_is_found_is_what_the_plans_leave(rt: HostRuntime) -> Result<(), Fail> {
    let image = image_of(&rt, rt.alloc(), Variant::Online)?;
    for first in 0..PLANS {
        for again in 0..PLANS {
            let pages = Held::new(rt.alloc(), MemoryPages::blank())?;
            try_plans(&rt, &image, pages, plan_of(first), plan_of(again));
        }
    }
    Ok(())
}
