//! READ RECORD and GET DATA (EMV 4.3 Book 3 sections 6.5.11 and 6.5.7), also of the transaction log
//! (Annex D) and of the payment system directory (Book 1 section 12.2).
ghost use Rattle.std.specs.Prelude.{◌≡◌, ◌/◌, ◌%◌, ◌<◌, ◌≤◌, ◌==◌, ◌&&◌, ◌||◌, [], length, not, nat_lt, Some};
ghost use Rattle.apdu_core.specs.Seen.{seen_command};
ghost use Rattle.card_files.specs.Files as files;
ghost use Rattle.card_state.specs.Encoding.{row_bytes};
ghost use Rattle.card_app.specs.Files as spec;
ghost use Rattle.card_app.specs.PageReplies.{shows};

use crate::apps::{app_at, state_at};
use crate::reply::refuse;
use crate::work::CardAtWork;
use apdu_core::Command;
use apdu_core::status::{
    CONDITIONS_NOT_SATISFIED, DATA_NOT_FOUND, FILE_NOT_FOUND, NO_ERROR, RECORD_NOT_FOUND,
    WRONG_LENGTH, WRONG_PARAMETERS,
};
use ber_tlv::{Tag, append};
use card_cryptogram::{Body, is_record_named, put, replace};
use card_files::{AppImage, Image};
use card_state::{AppState, CardState, LogRow};

/// READ RECORD: record P1 of a file of what is selected goes to `out`. Gives the status.
#[tactic(auto, unfolding(crate::specs::Files::record_row))]
pub(crate) fn read_record(at: &CardAtWork<'_>, command: &Command<'_>, out: &mut Body) -> u16
    ensures { shows out.new.items result ≡ spec.record_row at.now.image.now at.now.state.now at.now.phase (seen_command command.now) }
{
    if !is_record_named(command.p1, command.p2) {
        return refuse(WRONG_PARAMETERS, out);
    }
    if at.phase.in_directory() {
        return read_directory(at.image, command, out);
    }
    let Some(app) = at.phase.current() else {
        return refuse(CONDITIONS_NOT_SATISFIED, out);
    };
    if !command.body.is_empty() {
        return refuse(WRONG_LENGTH, out);
    }
    give_record_of(at, app, command.p2 / 8, command.p1, out)
}

/// READ RECORD of the payment system directory.
fn read_directory(image: &Image, command: &Command<'_>, out: &mut Body) -> u16
    requires number { 1 ≤ command.now.p1 }
    ensures { shows out.new.items result ≡ spec.without_data (seen_command command.now)
        (spec.directory_reply image.now (command.now.p2 / 8) command.now.p1) }
{
    if !command.body.is_empty() {
        return refuse(WRONG_LENGTH, out);
    }
    give_entry(image, command.p2 / 8, command.p1, out)
}

/// The record of this number in a file, where the file is the directory's.
fn give_entry(image: &Image, sfi: u8, number: u8, out: &mut Body) -> u16
    requires number { 1 ≤ number }
    ensures { shows out.new.items result ≡ spec.directory_reply image.now sfi number }
{
    if !is_file(sfi, image.pse()) {
        return refuse(FILE_NOT_FOUND, out);
    }
    out.clear();
    if image.directory_record(number, out) {
        NO_ERROR
    } else {
        RECORD_NOT_FOUND
    }
}

/// Whether the file is this one, where there is one.
fn is_file(sfi: u8, file: Option<u8>) -> bool
    ensures { result ≡ spec.is_file sfi file }
{
    match file {
        Some(file) => file == sfi,
        None => false,
    }
}

/// The record of this number in a file of an application, or the row of its log.
fn give_record_of(at: &CardAtWork<'_>, app: u8, sfi: u8, number: u8, out: &mut Body) -> u16
    requires app { app < length at.now.image.now.apps }
    requires number { 1 ≤ number }
    ensures { shows out.new.items result ≡ spec.app_record at.now.image.now at.now.state.now app sfi number }
{
    if is_log_of(app_at(at.image, app), sfi) {
        return give_row(at.state, app, number, out);
    }
    give_record(at.image, app, sfi, number, out)
}

/// Whether the file is the application's transaction log.
fn is_log_of(app: &AppImage, sfi: u8) -> bool
    ensures { result ≡ spec.is_log_of sfi (Some app.now) }
{
    app.log != 0 && app.log_sfi == sfi
}

/// The row of this number of an application's log, the latest one being number 1 (EMV 4.3 Book 3 Annex
/// D4).
fn give_row(state: &CardState, app: u8, number: u8, out: &mut Body) -> u16
    requires app { app < length state.now.apps.items }
    requires number { 1 ≤ number }
    ensures { shows out.new.items result ≡ spec.row_or (spec.log_row_at state.now app number) }
{
    match state_at(state, app)
        .log
        .as_slice()
        .get(usize::from(number - 1))
    {
        Some(row) => {
            write_row(*row, out);
            NO_ERROR
        }
        None => refuse(RECORD_NOT_FOUND, out),
    }
}

/// Replaces `out` by the bytes of a row.
#[tactic(auto, unfolding(card_state::specs::Encoding::row_bytes))]
fn write_row(row: LogRow, out: &mut Body)
    ensures { out.new.items ≡ row_bytes row }
{
    let LogRow {
        raw,
        currency,
        date,
        counter,
        kind,
    } = row;
    out.clear();
    append(out, &raw);
    append(out, &currency);
    append(out, &date);
    append(out, &counter.to_be_bytes());
    append(out, &[kind]);
}

/// The record of this number in a file of an application.
fn give_record(image: &Image, app: u8, sfi: u8, number: u8, out: &mut Body) -> u16
    ensures { shows out.new.items result ≡ spec.record_or (files.has_file image.now.apps app sfi) (files.record_of image.now.apps app sfi number) }
{
    match image.record(app, sfi, number) {
        Some(bytes) => {
            replace(bytes, out);
            NO_ERROR
        }
        None if image.has_file(app, sfi) => refuse(RECORD_NOT_FOUND, out),
        None => refuse(FILE_NOT_FOUND, out),
    }
}

/// GET DATA of the selected application. Gives the status; the object goes to `out`.
#[tactic(auto, unfolding(crate::specs::Files::data_row))]
pub(crate) fn get_data(at: &CardAtWork<'_>, command: &Command<'_>, out: &mut Body) -> u16
    ensures { shows out.new.items result ≡ spec.data_row at.now.image.now at.now.state.now at.now.phase (seen_command command.now) }
{
    let Some(app) = at.phase.current() else {
        return refuse(CONDITIONS_NOT_SATISFIED, out);
    };
    if !command.body.is_empty() {
        return refuse(WRONG_LENGTH, out);
    }
    let (p1, p2) = (command.p1, command.p2);
    give_object(app_at(at.image, app), state_at(at.state, app), p1, p2, out)
}

/// The format of the log's rows (EMV 4.3 Book 3 Annex D3): the amount, its currency, the date, the
/// counter and the kind of the cryptogram.
const LOG_FORMAT: [u8; 14] = [
    0x9f, 0x02, 6, 0x5f, 0x2a, 2, 0x9a, 3, 0x9f, 0x36, 2, 0x9f, 0x27, 1,
];

/// The counter, that of the last online transaction, the PIN tries that are left, or the format of a
/// log that is there.
#[tactic(auto, unfolding(crate::specs::Files::data_object))]
fn give_object(a: &AppImage, state: &AppState, p1: u8, p2: u8, out: &mut Body) -> u16
    ensures { shows out.new.items result ≡ spec.data_object p1 p2 a.now state.now }
{
    out.clear();
    match (p1, p2) {
        (0x9f, 0x36) => put(out, Tag(0x9f36), &state.counter.to_be_bytes()),
        (0x9f, 0x13) => put(out, Tag(0x9f13), &state.last_online.to_be_bytes()),
        (0x9f, 0x17) => put(out, Tag(0x9f17), &[state.tries]),
        (0x9f, 0x4f) if a.log != 0 => put(out, Tag(0x9f4f), &LOG_FORMAT),
        _ => return DATA_NOT_FOUND,
    }
    NO_ERROR
}
