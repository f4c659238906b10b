//! The state of a card in words.
ghost use Rattle.std.specs.Prelude.{◌≡◌, ◌+◌, ◌≤◌, ◌++◌, OnOk, codes, decimal, length};
ghost use Rattle.std.specs.List.{flat_map};
ghost use Rattle.arrayvec.specs.ArrayVec.{array_vec_len};
ghost use Rattle.report_text.specs.Pieces.{newline};
ghost use Rattle.card_words.specs.StateText as spec;

use card_state::{AppState, CardState, LogRow, flags};
use line_talk::put_line;
use report_text::Text;
use report_text::pieces::{append, hex_or_dash, number};
use std::alloc::AllocError;

/// A name between blanks, and a number.
#[tactic(auto, unfolding(crate::specs::StateText::field_text))]
pub(crate) fn field(out: &mut Text, name: &[u8], value: u64)
    requires name { length name.now ≤ 20 }
    requires room { array_vec_len out.old + 60 ≤ 8192 }
    ensures text { out.new.items ≡ out.old.items ++ spec.field_text name.now value }
    ensures len { array_vec_len out.new ≤ array_vec_len out.old + 60 }
{
    append(out, name);
    number(out, value);
}

/// What is counted.
#[tactic(auto, unfolding(crate::specs::StateText::counters_text))]
fn counters(out: &mut Text, state: &AppState)
    requires { array_vec_len out.old + 420 ≤ 8192 }
    ensures text { out.new.items ≡ out.old.items ++ spec.counters_text state.now }
    ensures len { array_vec_len out.new ≤ array_vec_len out.old + 420 }
{
    field(out, b" counter ", u64::from(state.counter));
    field(out, b" last_online ", u64::from(state.last_online));
    field(out, b" count ", u64::from(state.count));
    field(out, b" sum ", state.sum);
    field(out, b" sum_two ", state.sum_two);
    field(out, b" tries ", u64::from(state.tries));
    field(out, b" flags ", u64::from(flags(state)));
}

/// `true` or `false`.
pub(crate) fn truth(out: &mut Text, holds: bool)
    requires { array_vec_len out.old + 5 ≤ 8192 }
    ensures text { out.new.items ≡ out.old.items ++ spec.truth_text holds }
    ensures len { array_vec_len out.new ≤ array_vec_len out.old + 5 }
{
    if holds {
        append(out, b"true");
    } else {
        append(out, b"false");
    }
}

/// Whether the application is blocked, and whether the card is.
#[tactic(auto, unfolding(crate::specs::StateText::blocked_text))]
fn blocked(out: &mut Text, card_blocked: bool, state: &AppState)
    requires { array_vec_len out.old + 50 ≤ 8192 }
    ensures text { out.new.items ≡ out.old.items ++ spec.blocked_text card_blocked state.now }
    ensures len { array_vec_len out.new ≤ array_vec_len out.old + 50 }
{
    append(out, b" blocked ");
    truth(out, state.blocked);
    append(out, b" card_blocked ");
    truth(out, card_blocked);
}

/// What is approved offline at most.
#[tactic(auto, unfolding(crate::specs::StateText::limits_text))]
fn limits(out: &mut Text, state: &AppState)
    requires { array_vec_len out.old + 200 ≤ 8192 }
    ensures text { out.new.items ≡ out.old.items ++ spec.limits_text state.now }
    ensures len { array_vec_len out.new ≤ array_vec_len out.old + 200 }
{
    field(out, b" count_limit ", u64::from(state.count_limit));
    field(out, b" sum_limit ", state.sum_limit);
    field(out, b" limit_two ", state.limit_two);
}

/// A row of the log, as READ RECORD gives it.
#[tactic(auto, unfolding(crate::specs::StateText::row_text))]
fn row(out: &mut Text, row: &LogRow)
    requires { array_vec_len out.old + 50 ≤ 8192 }
    ensures text { out.new.items ≡ out.old.items ++ spec.row_text row.now }
    ensures len { array_vec_len out.new ≤ array_vec_len out.old + 50 }
{
    append(out, b" row ");
    hex_or_dash(out, &row.raw);
    hex_or_dash(out, &row.currency);
    hex_or_dash(out, &row.date);
    hex_or_dash(out, &row.counter.to_be_bytes());
    hex_or_dash(out, &[row.kind]);
}

/// Rows of a log.
fn rows(out: &mut Text, rows: &[LogRow])
    requires few { length rows.now ≤ 10 }
    requires room { array_vec_len out.old + 500 ≤ 8192 }
    ensures text { out.new.items ≡ out.old.items ++ flat_map spec.row_text rows.now }
    ensures len { array_vec_len out.new ≤ array_vec_len out.old + 500 }
{
    for one in rows {
        row(out, one);
    }
}

/// The log: its greatest number of rows, and its rows.
#[tactic(auto, unfolding(crate::specs::StateText::log_text))]
fn log(out: &mut Text, state: &AppState)
    requires { array_vec_len out.old + 600 ≤ 8192 }
    ensures text { out.new.items ≡ out.old.items ++ spec.log_text state.now }
    ensures len { array_vec_len out.new ≤ array_vec_len out.old + 600 }
{
    append(out, b" log ");
    number(out, u64::from(state.log_max));
    rows(out, state.log.as_slice());
}

/// The line of an application.
#[tactic(auto, unfolding(crate::specs::StateText::app_text))]
fn app(out: &mut Text, place: u64, card_blocked: bool, state: &AppState)
    requires { array_vec_len out.old ≡ 0 }
    ensures { out.new.items ≡ out.old.items ++ spec.app_text place card_blocked state.now }
{
    append(out, b"app ");
    number(out, place);
    counters(out, state);
    blocked(out, card_blocked, state);
    limits(out, state);
    log(out, state);
    append(out, b"\n");
}

/// Appends the line of an application.
fn tell_app(
    text: &mut Vec<u8>,
    place: usize,
    card_blocked: bool,
    state: &AppState,
) -> Result<(), AllocError>
    ensures { OnOk result (text.new.items ≡ text.old.items ++ spec.app_text place card_blocked state.now) }
{
    let mut line = Text::new();
    app(&mut line, place as u64, card_blocked, state);
    text.extend_from_slice(line.as_slice())
}

/// The line that counts the applications.
fn tell_count(text: &mut Vec<u8>, count: usize) -> Result<(), AllocError>
    ensures { OnOk result (text.new.items ≡ codes "state " ++ decimal count ++ newline) }
{
    let mut line = Text::new();
    append(&mut line, b"state ");
    number(&mut line, count as u64);
    append(&mut line, b"\n");
    put_line(text, line.as_slice())
}

/// A card's state, in place of what the text held: how many applications it has, and a line for each.
#[tactic(auto, unfolding(crate::specs::StateText::state_text))]
pub fn tell_state(text: &mut Vec<u8>, state: &CardState) -> Result<(), AllocError>
    ensures { OnOk result (text.new.items ≡ spec.state_text state.now) }
{
    let apps = state.apps.as_slice();
    tell_count(text, apps.len())?;
    for place in 0..apps.len() {
        tell_app(text, place, state.blocked, &apps[place])?;
    }
    Ok(())
}
