//! The counters of a card, as a report's power line has them.
ghost use Rattle.std.specs.Prelude.{◌≡◌};
ghost use Rattle.card_app.specs.Counters as spec;

use arrayvec::ArrayVec;
use card_files::{AppImage, Image};
use card_state::{AppState, CardState, flags};
use report_text::Shown;

/// An application's counters.
#[tactic(auto, unfolding(crate::specs::Counters::shown_state))]
fn shown(app: &AppImage, state: &AppState) -> Shown
    ensures { result ≡ spec.shown_state app.now state.now }
{
    Shown {
        counter: state.counter,
        last_online: state.last_online,
        count: state.count,
        sum: state.sum,
        tries: state.tries,
        flags: flags(state),
        sum_two: app.currency_two.and(Some(state.sum_two)),
    }
}

/// Those of each application of a card.
pub fn shown_all(image: &Image, state: &CardState) -> ArrayVec<Shown, 4>
    ensures { result.items ≡ spec.shown_all image.now.apps state.now }
{
    let mut all = ArrayVec::new();
    for (app, counts) in image.apps().iter().zip(state.apps.as_slice()) {
        all.push(shown(app, counts));
    }
    all
}
