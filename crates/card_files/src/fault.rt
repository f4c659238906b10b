//! The first fault of a card's applications.
ghost use Rattle.std.specs.Prelude.{◌≡◌, ◌+◌, ◌≤◌, ◌&&◌, ◌++◌, List, ℕ, [], length, map, Some, None, IfSome, option_map, option_copied};
ghost use Rattle.std.specs.List.{All, list_any};
ghost use Rattle.std.specs.Option.{option_or};
ghost use Rattle.std.specs.Str.{bytes_eq};
ghost use Rattle.card_files.specs.Faults as spec;
ghost use Rattle.card_files.specs.AppRules.{is_log_size as is_size};
ghost use Rattle.card_files.specs.Directory.{is_hidden as is_hidden_name};
ghost use Rattle.card_files.specs.Faults.{first_broken, file_lines, state_lines, log_lines, app_fault, field_fault, name_fault, hidden_fault, directory_fault, image_fault, OfField};
ghost use Rattle.card_files.specs.Lists.{leaves_room as has_room};
ghost use Rattle.card_files.specs.SeenFault.{seen_fault};

use crate::app::AppImage;
use crate::control::DIRECTORY_NAME;
use crate::lists::{is_cdol1, is_cdol2, is_optional_pdol, leaves_room};
use crate::rules::{
    are_records, is_afl, is_format, is_label, is_log_file, is_log_size, is_name, is_opening,
    is_reference_pin, is_second_code, is_sum_limit, is_tries,
};
use arrayvec::ArrayVec;
use emv_dict::{has_digits, is_code, is_pan_length};

/// Why applications are no card's.
#[derive(Drop, PartialEq, Eq, Debug)]
pub enum ImageFault {
    /// So many applications, and not 1 to 4.
    Count(usize),
    /// The value of this application, counted from 0, at this key is against the key's rule.
    Field { app: u8, key: ArrayVec<u8, 16> },
    /// An earlier application has the name of this one, counted from 0.
    SameName { app: u8 },
    /// No memory is left. No rule takes any today, so that `Image::new` does not answer with it.
    OutOfMemory,
}

/// The first key of the application's files that is against its rule.
#[tactic(auto, unfolding(crate::specs::Faults::file_lines))]
fn first_file_key(app: &AppImage) -> Option<&'static str>
    ensures key { option_copied result ≡ first_broken (file_lines app.now) }
    ensures short { IfSome result (λ key. length key.now ≤ 16) }
{
    if !is_name(app.name.as_slice()) {
        return Some("name");
    }
    if !is_label(&app.label) {
        return Some("label");
    }
    if !is_optional_pdol(&app.pdol) {
        return Some("pdol");
    }
    if !is_afl(&app.afl) {
        return Some("afl");
    }
    if !is_format(app.gpo_format) {
        return Some("gpo_format");
    }
    if !is_format(app.ac_format) {
        return Some("ac_format");
    }
    if !is_cdol1(&app.cdol1) {
        return Some("cdol1");
    }
    if !is_cdol2(&app.cdol2) {
        return Some("cdol2");
    }
    if !are_records(&app.records) {
        return Some("record");
    }
    None
}

/// The first key of the application's account and state that is against its rule.
#[tactic(auto, unfolding(crate::specs::Faults::state_lines))]
fn first_state_key(app: &AppImage) -> Option<&'static str>
    ensures key { option_copied result ≡ first_broken (state_lines app.now) }
    ensures short { IfSome result (λ key. length key.now ≤ 16) }
{
    if !is_pan_length(app.pan.len()) {
        return Some("pan");
    }
    if !has_digits(app.sequence) {
        return Some("sequence");
    }
    if !is_code(app.currency) {
        return Some("currency");
    }
    if !is_sum_limit(app.opening.sum_limit) {
        return Some("sum_limit");
    }
    if !is_reference_pin(app.opening.pin) {
        return Some("pin");
    }
    if !is_tries(app.tries) {
        return Some("tries");
    }
    None
}

/// The first key of the application's second currency, its log and its opening state that is against
/// its rule.
#[tactic(auto, unfolding(crate::specs::Faults::log_lines))]
fn first_log_key(app: &AppImage) -> Option<&'static str>
    ensures key { option_copied result ≡ first_broken (log_lines app.now) }
    ensures short { IfSome result (λ key. length key.now ≤ 16) }
{
    if !is_second_code(app.currency, app.currency_two) {
        return Some("currency_two");
    }
    if !is_sum_limit(app.limit_two) {
        return Some("limit_two");
    }
    if !is_log(app.log, &app.pdol) {
        return Some("log");
    }
    if !is_log_file(app.log, app.log_sfi, &app.records) {
        return Some("log_sfi");
    }
    if !is_opening(&app.opening, app.tries, app.limit_two, app.log) {
        return Some("opening");
    }
    None
}

/// Whether a log may have so many rows beside this processing options object list.
fn is_log(log: u8, pdol: &Option<Vec<u8>>) -> bool
    ensures { result ≡ (is_size log && has_room log (option_map (λ list. list.items) pdol.now)) }
{
    is_log_size(log) && leaves_room(log, pdol)
}

/// The first key of the application's state or its log that is against its rule.
#[tactic(auto, using(crate::proofs::FaultLemmas::first_broken_append))]
fn first_later_key(app: &AppImage) -> Option<&'static str>
    ensures key { option_copied result ≡ first_broken (state_lines app.now ++ log_lines app.now) }
    ensures short { IfSome result (λ key. length key.now ≤ 16) }
{
    match first_state_key(app) {
        Some(key) => Some(key),
        None => first_log_key(app),
    }
}

/// The first key of the application that is against its rule.
#[tactic(auto, unfolding(crate::specs::Faults::app_fault), using(crate::proofs::FaultLemmas::first_broken_append))]
fn first_key(app: &AppImage) -> Option<&'static str>
    ensures key { option_copied result ≡ app_fault app.now }
    ensures short { IfSome result (λ key. length key.now ≤ 16) }
{
    match first_file_key(app) {
        Some(key) => Some(key),
        None => first_later_key(app),
    }
}

/// The bytes of a key's name.
fn key_bytes(key: &str) -> ArrayVec<u8, 16>
    requires { length key.now ≤ 16 }
    ensures { result.items ≡ key.now }
{
    match ArrayVec::try_from(key.as_bytes()) {
        Ok(bytes) => bytes,
        Err(_) => unreachable!(),
    }
}

/// A profile has two bytes. Contracts see it as a list, which has a length of its own.
fn is_pair(profile: [u8; 2])
    ensures { length profile ≡ 2 }
{
    let [_, _] = profile;
}

/// The application's first key that is against its rule, as a fault of the application of this number.
fn field_of(number: u8, app: &AppImage) -> Option<ImageFault>
    ensures fault { option_map seen_fault result ≡ option_map (OfField number) (app_fault app.now) }
    ensures profile { length app.now.aip ≡ 2 }
{
    is_pair(app.aip);
    match first_key(app) {
        Some(key) => Some(ImageFault::Field {
            app: number,
            key: key_bytes(key),
        }),
        None => None,
    }
}

/// The first key of any application, the applications counted from this number on.
fn first_field(number: u8, apps: &[AppImage]) -> Option<ImageFault>
    requires { number + length apps.now ≤ 4 }
    ensures fault { option_map seen_fault result ≡ field_fault number apps.now }
    ensures profiles { result ≡ None → All (λ app. length app.aip ≡ 2) apps.now }
{
    match apps {
        [] => None,
        [first, rest @ ..] => match field_of(number, first) {
            Some(fault) => Some(fault),
            None => first_field(number + 1, rest),
        },
    }
}

fn has_name(app: &AppImage, name: &[u8]) -> bool
    ensures { result ≡ bytes_eq app.now.name name.now }
{
    app.name.as_slice() == name
}

fn is_named(apps: &[AppImage], name: &[u8]) -> bool
    ensures { result ≡ list_any (λ other. bytes_eq other.name name.now) apps.now }
{
    apps.iter().any(|other| has_name(other, name))
}

fn is_repeated(apps: &[AppImage], app: &AppImage) -> bool
    ensures { result ≡ list_any (λ other. bytes_eq other.name app.now.name) apps.now }
{
    is_named(apps, app.name.as_slice())
}

/// The first application whose name an earlier one has.
fn first_same_name(apps: &[AppImage]) -> Option<ImageFault>
    requires { length apps.now ≤ 4 }
    ensures { option_map seen_fault result ≡ name_fault [] apps.now }
{
    for i in 0..apps.len() {
        if is_repeated(&apps[..i], &apps[i]) {
            return Some(ImageFault::SameName { app: i as u8 });
        }
    }
    None
}

/// Whether the directory's name finds an application of this name.
#[tactic(auto, unfolding(crate::specs::Directory::is_hidden))]
fn is_hidden(name: &[u8]) -> bool
    ensures { result ≡ is_hidden_name name.now }
{
    name.starts_with(&DIRECTORY_NAME)
}

/// The first application, counted from this number on, whose name begins with the directory's.
fn first_hidden(number: u8, apps: &[AppImage]) -> Option<ImageFault>
    requires { number + length apps.now ≤ 4 }
    ensures { option_map seen_fault result ≡ hidden_fault number apps.now }
{
    match apps {
        [] => None,
        [first, rest @ ..] => {
            if is_hidden(first.name.as_slice()) {
                return Some(ImageFault::Field {
                    app: number,
                    key: key_bytes("pse"),
                });
            }
            first_hidden(number + 1, rest)
        }
    }
}

/// The first application that a directory would hide, where there is one.
fn first_behind(directory: Option<u8>, apps: &[AppImage]) -> Option<ImageFault>
    requires { length apps.now ≤ 4 }
    ensures { option_map seen_fault result ≡ directory_fault directory apps.now }
{
    match directory {
        Some(_) => first_hidden(0, apps),
        None => None,
    }
}

/// The first name that an earlier application has, else the first one that the directory hides.
fn first_name(directory: Option<u8>, apps: &[AppImage]) -> Option<ImageFault>
    requires { length apps.now ≤ 4 }
    ensures { option_map seen_fault result ≡ option_or (name_fault [] apps.now) (directory_fault directory apps.now) }
{
    match first_same_name(apps) {
        Some(fault) => Some(fault),
        None => first_behind(directory, apps),
    }
}

/// The first fault of a card's applications beside its directory: their number; else the first key of
/// any application, the applications in order; else the first name that an earlier application has;
/// else the first name that begins with the directory's.
#[tactic(auto, unfolding(crate::specs::Faults::image_fault))]
pub(crate) fn first_fault(apps: &[AppImage], directory: Option<u8>) -> Option<ImageFault>
    ensures fault { option_map seen_fault result ≡ image_fault apps.now directory }
    ensures profiles { result ≡ None → All (λ app. length app.aip ≡ 2) apps.now }
{
    if apps.is_empty() || apps.len() > 4 {
        return Some(ImageFault::Count(apps.len()));
    }
    match first_field(0, apps) {
        Some(fault) => Some(fault),
        None => first_name(directory, apps),
    }
}
