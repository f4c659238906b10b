//! Whether an application of a card can serve a purchase (EMV 4.3 Book 1 section 12.4).
ghost use Rattle.std.specs.Prelude.{◌≡◌};
ghost use Rattle.std.specs.List.{list_any};
ghost use Rattle.app_select.specs.Candidates as candidates;
ghost use Rattle.card_check.specs.Judged as spec;
ghost use Rattle.card_check.specs.Judged.{judged_outset};

use app_select::is_supported;
use card_files::AppImage;
use card_state::AppState;
use emv_dict::{AidRow, Purchase, Settings};

/// The bit of a priority indicator (87) with which the cardholder has to confirm the application.
const CONFIRMATION: u8 = 0x80;

/// The greatest transaction counter: with it an application starts no transaction.
const LAST_COUNTER: u16 = 0xffff;

fn needs_confirmation(priority: Option<u8>) -> bool
    ensures { result ≡ candidates.needs_confirmation priority }
{
    match priority {
        None => false,
        Some(byte) => byte >= CONFIRMATION,
    }
}

/// Whether a row of the terminal supports the application, with the cardholder's confirmation where it asks for that.
fn is_chosen(confirm: bool, app: &AppImage, row: &AidRow) -> bool
    ensures { result ≡ spec.is_chosen confirm app.now row.now }
{
    is_supported(row, &app.name) && (confirm || !needs_confirmation(app.priority))
}

/// Whether one of these rows does.
fn is_listed(confirm: bool, app: &AppImage, aids: &[AidRow]) -> bool
    ensures { result ≡ list_any (spec.is_chosen confirm app.now) aids.now }
{
    aids.iter().any(|row| is_chosen(confirm, app, row))
}

/// Whether the application in this state can be chosen, and can start a transaction.
fn serves(settings: &Settings, purchase: &Purchase, app: &AppImage, state: &AppState) -> bool
    ensures { result ≡ spec.serves (judged_outset settings.now purchase.now) app.now state.now }
{
    !state.blocked
        && state.counter < LAST_COUNTER
        && is_listed(purchase.confirm, app, &settings.aids)
}

/// Whether one of the applications does, each in its state.
pub(crate) fn some_serves(
    settings: &Settings,
    purchase: &Purchase,
    apps: &[AppImage],
    states: &[AppState],
) -> bool
    ensures { result ≡ spec.some_serves (judged_outset settings.now purchase.now) apps.now states.now }
{
    match apps {
        [] => false,
        [app, apps @ ..] => match states {
            [] => false,
            [state, states @ ..] => {
                serves(settings, purchase, app, state)
                    || some_serves(settings, purchase, apps, states)
            }
        },
    }
}
