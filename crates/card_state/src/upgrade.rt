ghost use Rattle.std.specs.Prelude.{◌≡◌, ◌≤◌, length};
ghost use Rattle.card_state.specs.Upgrade.{limits_applied, with_limit as with_limit_of, with_limits as with_limits_of};

use crate::state::{AppState, CardState};
use arrayvec::ArrayVec;

/// A card's state with those limits of its opening state that version 1 doesn't have: the greatest sum in the
/// second currency, and the greatest number of rows of the log.
#[tactic(auto, unfolding(crate::specs::Upgrade::with_limits))]
pub fn with_limits(opening: &CardState, state: &CardState) -> CardState
    ensures { result ≡ with_limits_of opening.now state.now }
{
    CardState {
        blocked: state.blocked,
        apps: apps_with_limits(opening.apps.as_slice(), state.apps.as_slice()),
    }
}

/// The applications with the limits of those of the opening state.
fn apps_with_limits(opening: &[AppState], apps: &[AppState]) -> ArrayVec<AppState, 4>
    requires { length apps.now ≤ 4 }
    ensures { result.items ≡ limits_applied opening.now apps.now }
{
    let mut made = ArrayVec::new();
    let count = opening.len().min(apps.len());
    for i in 0..count {
        made.push(with_limit(&opening[i], &apps[i]));
    }
    made
}

/// One application with the limits of another.
fn with_limit(opening: &AppState, app: &AppState) -> AppState
    ensures { result ≡ with_limit_of opening.now app.now }
{
    AppState {
        limit_two: opening.limit_two,
        log_max: opening.log_max,
        ..app.copy()
    }
}
