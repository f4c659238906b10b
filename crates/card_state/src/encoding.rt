ghost use Rattle.std.specs.Prelude.{◌≡◌, ◌+◌, ◌*◌, ◌^◌, ◌<◌, ◌≤◌, [], ◌∷◌, ◌++◌, length, flat_map};
ghost use Rattle.std.specs.List.{All};
ghost use Rattle.arrayvec.specs.ArrayVec.{array_vec_len};
ghost use Rattle.card_state.specs.Encoding.{app_bytes, app_bytes_one, AreBytesOf, encoding, encoding_one, flags_of, IsAppOne, IsAppState, IsCardState, IsMore, IsLogRow, more_bytes, row_bytes};

use crate::state::{AppState, CardState, LogRow};
use arrayvec::ArrayVec;

/// Replaces `out` by the state's bytes in version 2: 02, the number of applications, 01 for a blocked card or
/// 00, then 50 bytes an application and 14 a row of its log.
#[tactic(auto, unfolding(crate::specs::Encoding::encoding))]
pub fn encode(state: &CardState, out: &mut ArrayVec<u8, 1024>)
    ensures bytes { out.new.items ≡ encoding state.now }
    ensures ranges { IsCardState state.now }
{
    out.clear();
    out.push(2);
    out.push(state.apps.len() as u8);
    out.push(u8::from(state.blocked));
    for app in state.apps.as_slice() {
        append_app(out, app);
    }
}

/// Replaces `out` by the state's bytes in version 1, in which older cards were personalised: 01, the number of
/// applications, 01 for a blocked card or 00, then 32 bytes an application.
#[tactic(auto, unfolding(crate::specs::Encoding::encoding_one))]
pub fn encode_one(state: &CardState, out: &mut ArrayVec<u8, 1024>)
    ensures { out.new.items ≡ encoding_one state.now }
{
    out.clear();
    out.push(1);
    out.push(state.apps.len() as u8);
    out.push(u8::from(state.blocked));
    for app in state.apps.as_slice() {
        append_first(out, app);
    }
}

/// Appends the bytes of an application: at most 190.
#[tactic(auto, unfolding(crate::specs::Encoding::app_bytes))]
fn append_app(out: &mut ArrayVec<u8, 1024>, app: &AppState)
    requires { array_vec_len out.old + 190 ≤ 1024 }
    ensures items { out.new.items ≡ out.old.items ++ app_bytes app.now }
    ensures len { array_vec_len out.new ≤ array_vec_len out.old + 190 }
    ensures ranges { IsAppState app.now }
{
    append_first(out, app);
    append_more(out, app);
    append_rows(out, app.log.as_slice());
}

/// Appends the 32 bytes that an application has in both versions.
fn append_first(out: &mut ArrayVec<u8, 1024>, app: &AppState)
    requires { array_vec_len out.old + 32 ≤ 1024 }
    ensures items { out.new.items ≡ out.old.items ++ app_bytes_one app.now }
    ensures len { array_vec_len out.new ≡ array_vec_len out.old + 32 }
    ensures ranges { IsAppOne app.now }
{
    let (count, count_limit, tries) = (app.count, app.count_limit, app.tries);
    append(out, &app.counter.to_be_bytes());
    append(out, &app.last_online.to_be_bytes());
    append(out, &[count]);
    append(out, &app.sum.to_be_bytes());
    append(out, &[count_limit]);
    append(out, &app.sum_limit.to_be_bytes());
    append(out, &[tries]);
    append(out, &[flags(app)]);
    append_pin(out, app.pin);
}

/// Appends a PIN block.
fn append_pin(out: &mut ArrayVec<u8, 1024>, pin: [u8; 8])
    requires { array_vec_len out.old + 8 ≤ 1024 }
    ensures items { out.new.items ≡ out.old.items ++ pin }
    ensures len { array_vec_len out.new ≡ array_vec_len out.old + 8 }
    ensures bytes { AreBytesOf 8 pin }
{
    append(out, &pin);
}

/// Appends the 18 bytes that version 2 has before the rows.
fn append_more(out: &mut ArrayVec<u8, 1024>, app: &AppState)
    requires { array_vec_len out.old + 18 ≤ 1024 }
    ensures items { out.new.items ≡ out.old.items ++ more_bytes app.now }
    ensures len { array_vec_len out.new ≡ array_vec_len out.old + 18 }
    ensures ranges { IsMore app.now }
{
    append(out, &app.sum_two.to_be_bytes());
    append(out, &app.limit_two.to_be_bytes());
    append(out, &log_sizes(app.log_max, &app.log));
}

/// The greatest number of rows of a log and their number, as bytes.
fn log_sizes(most: u8, rows: &ArrayVec<LogRow, 10>) -> [u8; 2]
    ensures bytes { result ≡ most ∷ length rows.now.items ∷ [] }
    ensures most { most < 2 ^ 8 }
    ensures few { length rows.now.items ≤ 10 }
{
    [most, rows.len() as u8]
}

/// Appends rows of a log, 14 bytes each.
fn append_rows(out: &mut ArrayVec<u8, 1024>, rows: &[LogRow])
    requires few { length rows.now ≤ 10 }
    requires room { array_vec_len out.old + 140 ≤ 1024 }
    ensures items { out.new.items ≡ out.old.items ++ flat_map row_bytes rows.now }
    ensures len { array_vec_len out.new ≡ array_vec_len out.old + 14 * length rows.now }
    ensures ranges { All IsLogRow rows.now }
{
    for row in rows {
        append_row(out, *row);
    }
}

/// Appends a row of a log.
fn append_row(out: &mut ArrayVec<u8, 1024>, row: LogRow)
    requires { array_vec_len out.old + 14 ≤ 1024 }
    ensures items { out.new.items ≡ out.old.items ++ row_bytes row }
    ensures len { array_vec_len out.new ≡ array_vec_len out.old + 14 }
    ensures ranges { IsLogRow row }
{
    let LogRow {
        raw,
        currency,
        date,
        counter,
        kind,
    } = row;
    append(out, &raw);
    append(out, &currency);
    append(out, &date);
    append(out, &counter.to_be_bytes());
    append(out, &[kind]);
}

/// The application's flags: value 1 for blocked, value 2 for a failed issuer authentication.
pub fn flags(app: &AppState) -> u8
    ensures { result ≡ flags_of app.now }
{
    u8::from(app.blocked) + 2 * u8::from(app.auth_failed)
}

/// Appends the bytes.
fn append(out: &mut ArrayVec<u8, 1024>, bytes: &[u8])
    requires { array_vec_len out.old + length bytes.now ≤ 1024 }
    ensures items { out.new.items ≡ out.old.items ++ bytes.now }
    ensures len { array_vec_len out.new ≡ array_vec_len out.old + length bytes.now }
{
    if out.try_extend_from_slice(bytes).is_err() {
        unreachable!();
    }
}
