//! SELECT (EMV 4.3 Book 1 sections 11.3 and 12.2.2).
ghost use Rattle.std.specs.Prelude.{◌≡◌, ◌⊎◌, ◌+◌, ◌<◌, ◌≤◌, ◌==◌, ◌&&◌, ◌||◌, [], length, drop, Some, None, IfSome, if◌then◌else◌, not, nat_le};
ghost use Rattle.std.specs.Option.{option_map};
ghost use Rattle.apdu_core.specs.Seen.{seen_command};
ghost use Rattle.card_files.specs.Directory.{directory_fci as fci_of_directory};
ghost use Rattle.card_app.specs.Files as files_spec;
ghost use Rattle.card_app.specs.Replies.{with_app};
ghost use Rattle.card_app.specs.PageReplies.{shows};
ghost use Rattle.card_app.specs.AtWork.{IsAppThere};
ghost use Rattle.card_app.specs.SeenReply.{MakesReply, ObeysRow};
ghost use Rattle.card_app.specs.Selection as spec;

use crate::apps::state_at;
use crate::reply::{Reply, refuse, refused};
use crate::work::CardAtWork;
use apdu_core::Command;
use apdu_core::status::{
    FILE_INVALIDATED, FILE_NOT_FOUND, FUNCTION_NOT_SUPPORTED, NO_ERROR, WRONG_LENGTH,
    WRONG_PARAMETERS,
};
use card_cryptogram::{Body, NEXT_OCCURRENCE, Phase, is_by_name, is_name_size};
use card_files::{AppImage, Image, directory_fci};

/// The first application whose name begins with these bytes, where the first one has this number.
#[tactic(auto, unfolding(crate::specs::Selection::first_named))]
fn first_named(apps: &[AppImage], number: u8, name: &[u8]) -> Option<u8>
    requires { number + length apps.now ≤ 4 }
    ensures found { result ≡ spec.first_named number name.now apps.now }
    ensures within { IfSome result (λ app. app < number + length apps.now) }
{
    match apps {
        [] => None,
        [first, rest @ ..] => {
            if first.name.as_slice().starts_with(name) {
                return Some(number);
            }
            first_named(rest, number + 1, name)
        }
    }
}

/// The number from which SELECT looks: for the next occurrence that behind the selected application.
fn looks_from(phase: Phase, p2: u8, count: usize) -> u8
    requires few { count ≤ 4 }
    requires at { IsAppThere phase count }
    ensures number { result ≡ spec.looks_from phase p2 }
    ensures within { result ≤ count }
{
    if p2 != NEXT_OCCURRENCE {
        return 0;
    }
    match phase.current() {
        Some(app) => app + 1,
        None => 0,
    }
}

/// The application that SELECT finds.
fn find(at: &CardAtWork<'_>, p2: u8, name: &[u8]) -> Option<u8>
    ensures found { result ≡ spec.app_found at.now.image.now.apps at.now.phase p2 name.now }
    ensures within { IfSome result (λ app. app < length at.now.image.now.apps) }
{
    let apps = at.image.apps();
    let number = looks_from(at.phase, p2, apps.len());
    first_named(&apps[usize::from(number)..], number, name)
}

/// The file control information; a blocked application is shown with a warning.
fn show(at: &CardAtWork<'_>, app: u8, out: &mut Body) -> u16
    requires app { app < length at.now.image.now.apps }
    ensures said { shows out.new.items result ≡ with_app at.now.image.now.apps at.now.state.now app files_spec.shown_for }
    ensures shown { (result ≡ 0x9000) ⊎ (result ≡ 0x6283) }
{
    at.image.fci(app, out);
    if state_at(at.state, app).blocked {
        FILE_INVALIDATED
    } else {
        NO_ERROR
    }
}

/// The file of the payment system directory, where SELECT asks for the first occurrence of its name.
fn directory_asked(image: &Image, p2: u8, name: &[u8]) -> Option<u8>
    ensures { result ≡ spec.directory_asked image.now p2 name.now }
{
    if p2 == 0x00 {
        image.directory_named(name)
    } else {
        None
    }
}

/// SELECT of an application by its name.
#[tactic(auto, unfolding(crate::specs::Session::next_phase))]
fn select_app(at: &CardAtWork<'_>, command: &Command<'_>, out: &mut Body) -> Reply
    requires ins { command.now.ins ≡ 0xA4 }
    requires other { spec.directory_asked at.now.image.now command.now.p2 command.now.body.now ≡ None }
    ensures { ObeysRow files_spec.app_reply at.now.image.now at.now.state.now at.now.phase (seen_command command.now) out.new.items result }
{
    if command.p2 == NEXT_OCCURRENCE && at.phase.in_directory() {
        return refused(at.phase, refuse(FILE_NOT_FOUND, out));
    }
    match find(at, command.p2, command.body) {
        Some(app) => Reply::Plain {
            status: show(at, app, out),
            phase: Phase::Selected { app },
        },
        None => refused(at.phase, refuse(FILE_NOT_FOUND, out)),
    }
}

/// SELECT of the payment system directory in this file (EMV 4.3 Book 1 section 12.2.2).
#[tactic(auto, unfolding(crate::specs::Session::next_phase))]
fn select_directory(at: &CardAtWork<'_>, sfi: u8, command: &Command<'_>, out: &mut Body) -> Reply
    requires ins { command.now.ins ≡ 0xA4 }
    requires asked { spec.directory_asked at.now.image.now command.now.p2 command.now.body.now ≡ Some sfi }
    ensures { MakesReply at.now.image.now at.now.state.now at.now.phase (Some (seen_command command.now)) out.new.items result (shows (fci_of_directory sfi) 0x9000) }
{
    directory_fci(sfi, out);
    Reply::Plain {
        status: NO_ERROR,
        phase: Phase::Directory,
    }
}

/// SELECT: the payment system directory by its whole name, where the card has one, else the first
/// application whose name begins with the data, or the next behind the selected one.
#[tactic(auto, unfolding(crate::specs::Files::select_row, crate::specs::Session::next_phase))]
pub(crate) fn select(at: &CardAtWork<'_>, command: &Command<'_>, out: &mut Body) -> Reply
    requires ins { command.now.ins ≡ 0xA4 }
    ensures { ObeysRow files_spec.select_row at.now.image.now at.now.state.now at.now.phase (seen_command command.now) out.new.items result }
{
    if !is_by_name(command.p1, command.p2) {
        return refused(at.phase, refuse(WRONG_PARAMETERS, out));
    }
    if !is_name_size(command.body.len()) {
        return refused(at.phase, refuse(WRONG_LENGTH, out));
    }
    if at.state.blocked {
        return refused(at.phase, refuse(FUNCTION_NOT_SUPPORTED, out));
    }
    match directory_asked(at.image, command.p2, command.body) {
        Some(sfi) => select_directory(at, sfi, command, out),
        None => select_app(at, command, out),
    }
}
