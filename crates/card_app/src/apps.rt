//! An application, its state and its object lists.
ghost use Rattle.std.specs.Prelude.{◌≡◌, ◌<◌, ◌≤◌, length, slice_get, Some, IsTrue, is_some, option_map, if◌then◌else◌};
ghost use Rattle.card_files.specs.ImageRules.{KeepsRules};
ghost use Rattle.card_files.specs.Lists.{entries_within, most_cdol, is_optional_pdol};
ghost use Rattle.card_state.specs.Encoding.{HasShortLogs};
ghost use Rattle.card_app.specs.OwnLists as spec;

use crate::work::{AtWork, CardAtWork};
use card_files::lists::{MOST_CDOL, MOST_PDOL, list_within};
use card_files::{AppImage, Image};
use card_state::{AppState, CardState};
use object_lists::{Dol, total};

/// The image of the application of this number.
pub(crate) fn app_at(image: &Image, app: u8) -> &AppImage
    requires { app < length image.now.apps }
    ensures found { slice_get image.now.apps app ≡ Some result.now }
    ensures rules { KeepsRules result.now }
{
    &image.apps()[usize::from(app)]
}

/// The state of the application of this number.
#[tactic(auto, using(crate::proofs::ShortIn::short_in))]
pub(crate) fn state_at(state: &CardState, app: u8) -> &AppState
    requires { app < length state.now.apps.items }
    ensures found { slice_get state.now.apps.items app ≡ Some result.now }
    ensures short { HasShortLogs state.now → result.now.log_max ≤ 10 }
{
    &state.apps.as_slice()[usize::from(app)]
}

/// The application of this number at work.
pub(crate) fn at_work<'a>(at: &CardAtWork<'a>, app: u8) -> AtWork<'a>
    requires { app < length at.now.image.now.apps }
    ensures number { result.number ≡ app }
    ensures image { slice_get at.now.image.now.apps app ≡ Some result.app.now }
    ensures state { slice_get at.now.state.now.apps.items app ≡ Some result.state.now }
    ensures blocked { result.card_blocked ≡ at.now.state.now.blocked }
{
    AtWork {
        number: app,
        app: app_at(at.image, app),
        state: state_at(at.state, app),
        card_blocked: at.state.blocked,
    }
}

/// The entries of an object list of GENERATE AC, which an image has only where they can be read.
pub(crate) fn cdol_of(bytes: &[u8]) -> Dol
    requires { IsTrue (is_some (entries_within most_cdol bytes.now)) }
    ensures { result ≡ spec.cdol_of bytes.now }
{
    match list_within(bytes, MOST_CDOL) {
        Some(dol) => dol,
        None => unreachable!(),
    }
}

/// How many bytes of data the processing options object list wants; none where there is none.
pub(crate) fn pdol_total(pdol: &Option<Vec<u8>>) -> usize
    requires { IsTrue (is_optional_pdol (option_map (λ list. list.items) pdol.now)) }
    ensures { result ≡ spec.pdol_total (option_map (λ list. list.items) pdol.now) }
{
    match pdol {
        Some(bytes) => match list_within(bytes, MOST_PDOL) {
            Some(dol) => total(&dol) as usize,
            None => unreachable!(),
        },
        None => 0,
    }
}
