//! The names of a card's applications: none begins another's.
ghost use Rattle.std.specs.Prelude.{◌≡◌, ◌+◌, ◌≤◌, length};
ghost use Rattle.card_check.specs.Judged as spec;

use crate::fault::CardFault;
use card_files::AppImage;

/// Whether one application's name begins the other's.
fn clashes(one: &AppImage, other: &AppImage) -> bool
    ensures { result ≡ spec.clashes one.now other.now }
{
    let name = one.name.as_slice();
    let other = other.name.as_slice();
    other.starts_with(name) || name.starts_with(other)
}

/// The first of these applications, counted from a number, whose name clashes with that of one before them.
fn clash_with(first: u8, app: &AppImage, second: u8, others: &[AppImage]) -> Option<CardFault>
    requires { second + length others.now ≤ 255 }
    ensures { result ≡ spec.clash_with first app.now second others.now }
{
    match others {
        [] => None,
        [other, rest @ ..] => {
            if clashes(app, other) {
                return Some(CardFault::Clash { first, second });
            }
            clash_with(first, app, second + 1, rest)
        }
    }
}

/// The first two of these applications, counted from a number, whose names clash.
pub(crate) fn name_clash(number: u8, apps: &[AppImage]) -> Option<CardFault>
    requires { number + length apps.now ≤ 255 }
    ensures { result ≡ spec.name_clash number apps.now }
{
    match apps {
        [] => None,
        [app, rest @ ..] => match clash_with(number, app, number + 1, rest) {
            Some(fault) => Some(fault),
            None => name_clash(number + 1, rest),
        },
    }
}
