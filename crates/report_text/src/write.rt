ghost use Rattle.std.specs.Prelude.{◌≡◌, ◌+◌, ◌*◌, ◌≤◌, ◌++◌, length, codes, decimal};
ghost use Rattle.std.specs.List.{flat_map};
ghost use Rattle.std.specs.Fmt.{signed_decimal};
ghost use Rattle.arrayvec.specs.ArrayVec.{array_vec_len};
ghost use Rattle.hex.specs.Hex.{encode_lower};
ghost use Rattle.ber_tlv.specs.Written.{tag_bytes};
ghost use Rattle.report_text.specs.Pieces.{newline, hex_or_dash, digits_text};
ghost use Rattle.report_text.specs.Words.{ending_text};
ghost use Rattle.report_text.specs.Text.{line_text, second_text, shown_text, all_shown, arc_text, cryptogram_text, scripts_text, parts_text};

use crate::head::Head;
use crate::pieces::{amount, append, digits, hex, hex_or_dash, number, tag, two_bytes};
use crate::words::ending;
use crate::{EndParts, Line, LineAt, Shown};
use arrayvec::ArrayVec;
use ber_tlv::Tag;
use emv_dict::{Digits, Ending};

/// The text of one line.
pub type Text = ArrayVec<u8, 8192>;

/// Writes a line's text, with its newline, to `out`, in place of what it held.
#[tactic(auto, unfolding(crate::specs::Text::line_text))]
pub fn write_line(line: &Line, out: &mut Text)
    ensures { out.new.items ≡ line_text line.now }
{
    match line {
        Line::Power { lane, card, apps } => power(out, *lane, card.as_slice(), apps.as_slice()),
        Line::PowerCanned { lane, card } => power_word(out, *lane, card.as_slice(), b" canned"),
        Line::PowerTorn { lane, card } => power_word(out, *lane, card.as_slice(), b" torn"),
        Line::ToCard { lane, bytes } => exchange(out, b"L", *lane, b" > ", bytes.as_slice()),
        Line::FromCard { lane, bytes } => exchange(out, b"L", *lane, b" < ", bytes.as_slice()),
        Line::Torn { lane } => event(out, *lane, b" < torn"),
        Line::Gone { lane } => event(out, *lane, b" < gone"),
        Line::ToHost { lane, bytes } => exchange(out, b"L", *lane, b" host > ", bytes.as_slice()),
        Line::FromHost { lane, bytes } => exchange(out, b"L", *lane, b" host < ", bytes.as_slice()),
        Line::NoReply { lane } => event(out, *lane, b" host < none"),
        Line::End {
            lane,
            number,
            parts,
        } => end(out, *lane, *number, parts),
        Line::EndLost { lane, number } => end_lost(out, *lane, *number),
        Line::SettleCall { lane, bytes } => exchange(out, b"S", *lane, b" > ", bytes.as_slice()),
        Line::SettleReply { lane, bytes } => exchange(out, b"S", *lane, b" < ", bytes.as_slice()),
        Line::AuditPower { card, apps } => audit_power(out, card.as_slice(), apps.as_slice()),
        Line::AuditAsk { card, bytes } => audit(out, card.as_slice(), b" > ", bytes.as_slice()),
        Line::AuditAnswer { card, bytes } => audit(out, card.as_slice(), b" < ", bytes.as_slice()),
        Line::Balance { pan, amount } => balance(out, pan, *amount),
        Line::Done { number } => done(out, *number),
        Line::Object { tag, value } => object(out, *tag, value.as_slice()),
        Line::ReadOk => read_ok(out),
        Line::ReadEnded { ending } => read_ended(out, *ending),
    }
}

/// Writes the text of a line where it stands, with its newline, to `out`, in place of what it held.
#[tactic(auto, unfolding(crate::specs::Text::line_text))]
pub fn write_packed(line: &LineAt<'_>, out: &mut Text)
    ensures { out.new.items ≡ line_text line.now }
{
    let bytes = line.bytes;
    match line.head {
        Head::Power { lane, card, apps } => power(out, *lane, card.as_slice(), apps.as_slice()),
        Head::PowerCanned { lane, card } => power_word(out, *lane, card.as_slice(), b" canned"),
        Head::PowerTorn { lane, card } => power_word(out, *lane, card.as_slice(), b" torn"),
        Head::ToCard { lane } => exchange(out, b"L", *lane, b" > ", bytes),
        Head::FromCard { lane } => exchange(out, b"L", *lane, b" < ", bytes),
        Head::Torn { lane } => event(out, *lane, b" < torn"),
        Head::Gone { lane } => event(out, *lane, b" < gone"),
        Head::ToHost { lane } => exchange(out, b"L", *lane, b" host > ", bytes),
        Head::FromHost { lane } => exchange(out, b"L", *lane, b" host < ", bytes),
        Head::NoReply { lane } => event(out, *lane, b" host < none"),
        Head::End {
            lane,
            number,
            parts,
        } => end(out, *lane, *number, parts),
        Head::EndLost { lane, number } => end_lost(out, *lane, *number),
        Head::SettleCall { lane } => exchange(out, b"S", *lane, b" > ", bytes),
        Head::SettleReply { lane } => exchange(out, b"S", *lane, b" < ", bytes),
        Head::AuditPower { card, apps } => audit_power(out, card.as_slice(), apps.as_slice()),
        Head::AuditAsk { card } => audit(out, card.as_slice(), b" > ", bytes),
        Head::AuditAnswer { card } => audit(out, card.as_slice(), b" < ", bytes),
    }
}

fn power(out: &mut Text, lane: u8, card: &[u8], apps: &[Shown])
    requires name { length card.now ≤ 16 }
    requires few { length apps.now ≤ 4 }
    ensures { out.new.items ≡ codes "L" ++ decimal lane ++ codes " power " ++ card.now ++ all_shown apps.now ++ newline }
{
    out.clear();
    append(out, b"L");
    number(out, u64::from(lane));
    append(out, b" power ");
    append(out, card);
    all_shown(out, apps);
    append(out, b"\n");
}

/// A power-up's line with a word in place of counters.
fn power_word(out: &mut Text, lane: u8, card: &[u8], word: &[u8])
    requires name { length card.now ≤ 16 }
    requires word { length word.now ≤ 20 }
    ensures { out.new.items ≡ codes "L" ++ decimal lane ++ codes " power " ++ card.now ++ word.now ++ newline }
{
    out.clear();
    append(out, b"L");
    number(out, u64::from(lane));
    append(out, b" power ");
    append(out, card);
    append(out, word);
    append(out, b"\n");
}

/// A lane's line with bytes: a command, a response or a message.
fn exchange(out: &mut Text, letter: &[u8], lane: u8, mark: &[u8], bytes: &[u8])
    requires letter { length letter.now ≤ 1 }
    requires mark { length mark.now ≤ 10 }
    requires few { length bytes.now ≤ 2048 }
    ensures { out.new.items ≡ letter.now ++ decimal lane ++ mark.now ++ hex_or_dash bytes.now ++ newline }
{
    out.clear();
    append(out, letter);
    number(out, u64::from(lane));
    append(out, mark);
    hex_or_dash(out, bytes);
    append(out, b"\n");
}

/// A lane's line without bytes.
fn event(out: &mut Text, lane: u8, words: &[u8])
    requires { length words.now ≤ 20 }
    ensures { out.new.items ≡ codes "L" ++ decimal lane ++ words.now ++ newline }
{
    out.clear();
    append(out, b"L");
    number(out, u64::from(lane));
    append(out, words);
    append(out, b"\n");
}

fn end(out: &mut Text, lane: u8, purchase: u32, parts: &EndParts)
    ensures { out.new.items ≡ codes "L" ++ decimal lane ++ codes " end " ++ decimal purchase ++ codes " " ++ parts_text parts.now ++ newline }
{
    out.clear();
    append(out, b"L");
    number(out, u64::from(lane));
    append(out, b" end ");
    number(out, u64::from(purchase));
    append(out, b" ");
    end_parts(out, parts);
    append(out, b"\n");
}

fn end_lost(out: &mut Text, lane: u8, purchase: u32)
    ensures { out.new.items ≡ codes "L" ++ decimal lane ++ codes " end " ++ decimal purchase ++ codes " lost" ++ newline }
{
    out.clear();
    append(out, b"L");
    number(out, u64::from(lane));
    append(out, b" end ");
    number(out, u64::from(purchase));
    append(out, b" lost");
    append(out, b"\n");
}

fn audit_power(out: &mut Text, card: &[u8], apps: &[Shown])
    requires name { length card.now ≤ 16 }
    requires few { length apps.now ≤ 4 }
    ensures { out.new.items ≡ codes "A " ++ card.now ++ codes " power" ++ all_shown apps.now ++ newline }
{
    out.clear();
    append(out, b"A ");
    append(out, card);
    append(out, b" power");
    all_shown(out, apps);
    append(out, b"\n");
}

/// A line of the audit with bytes: a command or a response.
fn audit(out: &mut Text, card: &[u8], mark: &[u8], bytes: &[u8])
    requires name { length card.now ≤ 16 }
    requires mark { length mark.now ≤ 10 }
    requires few { length bytes.now ≤ 2048 }
    ensures { out.new.items ≡ codes "A " ++ card.now ++ mark.now ++ hex_or_dash bytes.now ++ newline }
{
    out.clear();
    append(out, b"A ");
    append(out, card);
    append(out, mark);
    hex_or_dash(out, bytes);
    append(out, b"\n");
}

fn balance(out: &mut Text, pan: &Digits, balance: i128)
    ensures { out.new.items ≡ codes "balance " ++ digits_text pan.now ++ codes " " ++ signed_decimal balance ++ newline }
{
    out.clear();
    append(out, b"balance ");
    digits(out, pan);
    append(out, b" ");
    amount(out, balance);
    append(out, b"\n");
}

fn done(out: &mut Text, purchases: u32)
    ensures { out.new.items ≡ codes "done " ++ decimal purchases ++ newline }
{
    out.clear();
    append(out, b"done ");
    number(out, u64::from(purchases));
    append(out, b"\n");
}

fn object(out: &mut Text, named: Tag, value: &[u8])
    requires { length value.now ≤ 2048 }
    ensures { out.new.items ≡ codes "object " ++ encode_lower (tag_bytes named.0) ++ codes " " ++ hex_or_dash value.now ++ newline }
{
    out.clear();
    append(out, b"object ");
    tag(out, named);
    append(out, b" ");
    hex_or_dash(out, value);
    append(out, b"\n");
}

fn read_ok(out: &mut Text)
    ensures { out.new.items ≡ codes "read ok" ++ newline }
{
    out.clear();
    append(out, b"read ok");
    append(out, b"\n");
}

fn read_ended(out: &mut Text, how: Ending)
    ensures { out.new.items ≡ codes "read " ++ ending_text how ++ newline }
{
    out.clear();
    append(out, b"read ");
    ending(out, how);
    append(out, b"\n");
}

/// The counters of each application.
fn all_shown(out: &mut Text, apps: &[Shown])
    requires few { length apps.now ≤ 4 }
    requires room { array_vec_len out.old + 1200 ≤ 8192 }
    ensures text { out.new.items ≡ out.old.items ++ all_shown apps.now }
    ensures len { array_vec_len out.new ≤ array_vec_len out.old + 1200 }
{
    for state in apps {
        shown(out, state);
    }
}

/// An application's counters behind a blank.
#[tactic(auto, unfolding(crate::specs::Text::shown_text))]
fn shown(out: &mut Text, state: &Shown)
    requires { array_vec_len out.old + 300 ≤ 8192 }
    ensures text { out.new.items ≡ out.old.items ++ shown_text state.now }
    ensures len { array_vec_len out.new ≤ array_vec_len out.old + 300 }
{
    append(out, b" ");
    number(out, u64::from(state.counter));
    append(out, b",");
    number(out, u64::from(state.last_online));
    append(out, b",");
    number(out, u64::from(state.count));
    append(out, b",");
    number(out, state.sum);
    append(out, b",");
    number(out, u64::from(state.tries));
    append(out, b",");
    number(out, u64::from(state.flags));
    second_sum(out, state.sum_two);
}

/// The sum in a second currency behind a comma, of an application that has one.
#[tactic(auto, unfolding(crate::specs::Text::second_text))]
fn second_sum(out: &mut Text, sum: Option<u64>)
    requires { array_vec_len out.old + 41 ≤ 8192 }
    ensures text { out.new.items ≡ out.old.items ++ second_text sum }
    ensures len { array_vec_len out.new ≤ array_vec_len out.old + 41 }
{
    match sum {
        None => {}
        Some(sum) => {
            append(out, b",");
            number(out, sum);
        }
    }
}

/// How a payment ended, with its flags and results, behind what is there: at most 1,000 bytes, for which there
/// is room.
#[tactic(auto, unfolding(crate::specs::Text::parts_text))]
pub fn end_parts(out: &mut Text, parts: &EndParts)
    requires { array_vec_len out.old + 1000 ≤ 8192 }
    ensures text { out.new.items ≡ out.old.items ++ parts_text parts.now }
    ensures len { array_vec_len out.new ≤ array_vec_len out.old + 1000 }
{
    ending(out, parts.ending);
    append(out, b" tvr=");
    hex(out, &parts.tvr.bytes());
    append(out, b" tsi=");
    hex(out, &parts.tsi.bytes());
    append(out, b" cvm=");
    hex(out, &parts.cvm);
    append(out, b" arc=");
    response_code(out, parts.arc);
    cryptogram(out, &parts.atc_ac);
    append(out, b" scripts=");
    scripts(out, parts.scripts.as_slice());
}

#[tactic(auto, unfolding(crate::specs::Text::arc_text))]
fn response_code(out: &mut Text, code: Option<[u8; 2]>)
    requires { array_vec_len out.old + 2 ≤ 8192 }
    ensures text { out.new.items ≡ out.old.items ++ arc_text code }
    ensures len { array_vec_len out.new ≡ array_vec_len out.old + 2 }
{
    match code {
        None => append(out, b"--"),
        Some(characters) => append(out, &characters),
    }
}

/// The counter and the cryptogram of the last answer to GENERATE AC.
#[tactic(auto, unfolding(crate::specs::Text::cryptogram_text))]
fn cryptogram(out: &mut Text, last: &Option<(u16, [u8; 8])>)
    requires { array_vec_len out.old + 29 ≤ 8192 }
    ensures text { out.new.items ≡ out.old.items ++ cryptogram_text last.now }
    ensures len { array_vec_len out.new ≡ array_vec_len out.old + 29 }
{
    match last {
        None => append(out, b" atc=---- ac=----------------"),
        Some(cryptogram) => {
            append(out, b" atc=");
            two_bytes(out, cryptogram.0);
            append(out, b" ac=");
            hex(out, &cryptogram.1);
        }
    }
}

/// The results of the scripts, joined, or a dash where there are none.
fn scripts(out: &mut Text, results: &[[u8; 5]])
    requires few { length results.now ≤ 8 }
    requires room { array_vec_len out.old + 81 ≤ 8192 }
    ensures text { out.new.items ≡ out.old.items ++ scripts_text results.now }
    ensures len { array_vec_len out.new ≤ array_vec_len out.old + 81 }
{
    let mut joined: ArrayVec<u8, 40> = ArrayVec::new();
    for script in results {
        if joined.try_extend_from_slice(script).is_err() {
            unreachable!();
        }
    }
    hex_or_dash(out, joined.as_slice());
}
