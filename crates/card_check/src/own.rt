//! What an application's own profile, locator and records give a terminal that reads them (EMV 4.3 Book 3 sections 10.1
//! and 10.2).
ghost use Rattle.std.specs.Prelude.{◌≡◌, ◌≤◌, ◌/◌, [], length, slice_get, option_map, IfSome, IsOk, MatchResult, Some, Ok, Err};
ghost use Rattle.apdu_core.specs.Command.{record_command};
ghost use Rattle.apdu_core.specs.Response.{response_bytes};
ghost use Rattle.card_app.specs.OwnLists.{cdol_of};
ghost use Rattle.card_files.specs.ImageRules.{KeepsRules};
ghost use Rattle.card_files.specs.Views.{AppData};
ghost use Rattle.card_check.specs.Judged as spec;
ghost use Rattle.dialogue_laws.specs.WellFormed.{list_total, own_record};
ghost use Rattle.object_lists.specs.CardRead.{card_of_objects};
ghost use Rattle.object_lists.specs.DolEntries.{total_of};
ghost use Rattle.object_lists.specs.Checked.{HasOptions};
ghost use Rattle.object_lists.specs.Forms.{HasForms};
ghost use Rattle.read_records.specs.Afl.{RecordPlace};
ghost use Rattle.read_records.specs.Options.{profile_and_locator, options_said, granted_by};

use crate::fault::AppFault;
use apdu_core::status::{FILE_NOT_FOUND, NO_ERROR, RECORD_NOT_FOUND};
use apdu_core::{Answer, Out, Response, write_response};
use ber_tlv::Tag;
use card_cryptogram::{Body, write_options};
use card_files::lists::{MOST_CDOL, list_within};
use card_files::{AppImage, Image};
use emv_dict::Cause;
use env_map::Env;
use object_lists::{read_dol, total};
use read_records::{CourseStep, Initiating, OptionsNext, RecordsToRead};

/// The most bytes of a locator for which an answer of format 2 has room.
const MOST_IN_FORMAT_TWO: usize = 244;

/// Replaces `out` by an answer to GET PROCESSING OPTIONS that gives the application's profile and locator. It is in
/// format 1, which has room for every locator.
fn write_opening(app: &AppImage, out: &mut Answer)
    requires { KeepsRules app.now }
    ensures { options_said out.new.items ≡ granted_by (profile_and_locator app.now.aip app.now.afl) }
{
    let mut body = Body::new();
    if !write_options(1, app.aip, &app.afl, &mut body) {
        unreachable!();
    }
    let response = Response {
        body: &body,
        status: NO_ERROR,
    };
    write_response(&response, out);
}

/// Puts the profile and the locator into the map, which is empty as yet, and gives the records to read.
fn open(app: &AppImage, env: &mut Env) -> Result<RecordsToRead, Cause>
    requires rules { KeepsRules app.now }
    requires empty { env.old ≡ [] }
    ensures exact { MatchResult result
        (λ course. profile_and_locator app.now.aip app.now.afl ≡ Ok (record { entries = env.new; left = course }))
        (λ cause. profile_and_locator app.now.aip app.now.afl ≡ Err cause) }
    ensures options { IsOk result → HasOptions env.new }
{
    let mut answer = Answer::new();
    write_opening(app, &mut answer);
    let Ok(asked) = Initiating::begin(None, env) else {
        unreachable!();
    };
    match asked.take_into(env, &answer) {
        OptionsNext::Refused => unreachable!(),
        OptionsNext::Read(course) => Ok(course),
        OptionsNext::Ended(cause) => Err(cause),
    }
}

/// Replaces `out` by a body and a status.
fn answer_with(body: &[u8], status: u16, out: &mut Answer)
    requires { length body.now ≤ 256 }
    ensures { out.new.items ≡ response_bytes body.now status }
{
    write_response(&Response { body, status }, out);
}

/// Replaces `out` by the application's answer to READ RECORD of this record.
fn answer_record(image: &Image, number: u8, place: (u8, u8), out: &mut Answer)
    ensures { (a : AppData) → slice_get image.now.apps number ≡ Some a
        → out.new.items ≡ own_record a (record { sfi = place.0; number = place.1 }) }
{
    match image.record(number, place.0, place.1) {
        Some(bytes) => answer_with(bytes, NO_ERROR, out),
        None if image.has_file(number, place.0) => answer_with(&[], RECORD_NOT_FOUND, out),
        None => answer_with(&[], FILE_NOT_FOUND, out),
    }
}

/// The file and the number that READ RECORD names.
fn place_in(command: &Out) -> (u8, u8)
    requires { (place : RecordPlace) × (command.now.items ≡ record_command place.sfi place.number) }
    ensures { command.now.items ≡ record_command result.0 result.1 }
{
    let [_, _, number, file, ..] = command.as_slice() else {
        unreachable!();
    };
    (*file / 8, *number)
}

/// Reads the records that are left, each as the application of this number has it, into the map.
fn read_left(
    image: &Image,
    number: u8,
    app: &AppImage,
    env: &mut Env,
    course: RecordsToRead,
) -> Result<(), Cause>
    requires there { slice_get image.now.apps number ≡ Some app.now }
    requires options { HasOptions env.old }
    ensures exact { MatchResult result
        (λ _. spec.read_by app.now (Ok (record { entries = env.old; left = course })) ≡ Ok (card_of_objects env.new))
        (λ cause. spec.read_by app.now (Ok (record { entries = env.old; left = course })) ≡ Err cause) }
    ensures forms { IsOk result → HasForms env.new }
{
    let mut left = course;
    let mut command = Out::new();
    let mut answer = Answer::new();
    loop {
        left.ask(&mut command);
        answer_record(image, number, place_in(&command), &mut answer);
        match left.go_on(env, &answer) {
            CourseStep::Ask => {}
            CourseStep::Done => return Ok(()),
            CourseStep::Ended(cause) => return Err(cause),
        }
    }
}

/// Puts the application's own data into the map, which is empty as yet.
#[tactic(auto, unfolding(crate::specs::Judged::own_data))]
fn read_own(image: &Image, number: u8, app: &AppImage, env: &mut Env) -> Result<(), Cause>
    requires there { slice_get image.now.apps number ≡ Some app.now }
    requires rules { KeepsRules app.now }
    requires empty { env.old ≡ [] }
    ensures exact { MatchResult result (λ _. spec.own_data app.now ≡ Ok (card_of_objects env.new)) (λ cause. spec.own_data app.now ≡ Err cause) }
    ensures forms { IsOk result → HasForms env.new }
{
    match open(app, env) {
        Ok(course) => read_left(image, number, app, env, course),
        Err(cause) => Err(cause),
    }
}

/// How many bytes of data an object list wants, where it can be read.
fn total_in(list: &[u8]) -> Option<u32>
    requires { length list.now ≤ 255 }
    ensures { result ≡ list_total (Some list.now) }
{
    match read_dol(list) {
        Ok(dol) => Some(total(&dol)),
        Err(_) => None,
    }
}

/// How many bytes of data the list wants with which an application takes them.
fn own_total(list: &[u8]) -> u32
    ensures { result ≡ total_of (cdol_of list.now) }
{
    match list_within(list, MOST_CDOL) {
        Some(dol) => total(&dol),
        None => 0,
    }
}

/// Whether an object list of the records wants as many bytes as that of the application.
fn is_matched(list: Option<&[u8]>, own: &[u8]) -> bool
    requires { IfSome list (λ list. length list.now ≤ 255) }
    ensures { result ≡ spec.is_matched (option_map (λ list. list.now) list.entry) own.now }
{
    match list {
        None => false,
        Some(list) => match total_in(list) {
            None => false,
            Some(total) => total == own_total(own),
        },
    }
}

/// What is wrong with an application whose own data are these.
fn lists_fault(app: &AppImage, env: &Env) -> Option<AppFault>
    requires { HasForms env.now }
    ensures { result ≡ spec.fault_by app.now (Ok (card_of_objects env.now)) }
{
    if !is_matched(env.get(Tag(0x8c)), &app.cdol1) {
        return Some(AppFault::FirstList);
    }
    if !is_matched(env.get(Tag(0x8d)), &app.cdol2) {
        return Some(AppFault::SecondList);
    }
    if app.gpo_format == 2 && app.afl.len() > MOST_IN_FORMAT_TWO {
        return Some(AppFault::Locator);
    }
    None
}

/// The first part of a whole application that the one of this number breaks.
#[tactic(auto, unfolding(crate::specs::Judged::app_judged_fault))]
pub(crate) fn app_fault(image: &Image, number: u8, app: &AppImage) -> Option<AppFault>
    requires there { slice_get image.now.apps number ≡ Some app.now }
    requires rules { KeepsRules app.now }
    ensures { result ≡ spec.app_judged_fault app.now }
{
    let mut env = Env::new();
    match read_own(image, number, app, &mut env) {
        Ok(()) => lists_fault(app, &env),
        Err(cause) => Some(AppFault::Reading(cause)),
    }
}
