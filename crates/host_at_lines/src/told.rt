//! The lines that an issuer's host answers.
ghost use Rattle.std.specs.Prelude.{◌≡◌, ◌+◌, ◌*◌, ◌≤◌, ◌++◌, ◌∷◌, [], length, codes, decimal};
ghost use Rattle.std.specs.Fmt.{signed_decimal};
ghost use Rattle.arrayvec.specs.ArrayVec.{array_vec_len};
ghost use Rattle.host_link.specs.FaultWords.{message_fault_words};
ghost use Rattle.report_text.specs.Pieces.{hex_or_dash as hex_text};
ghost use Rattle.host_at_lines.specs.Told as spec;

use crate::because::Because;
use auth_message::MessageFault;
use emv_dict::Digits;
use host_link::{put_iso_fault, put_message_fault};
use iso_message::IsoFault;
use issuer_host::Reason;
use line_talk::LineText;
use report_text::pieces::{amount, append, hex_or_dash, number};
use report_text::{Line, write_line};

/// The answer to what is no line.
pub fn tell_other(out: &mut LineText)
    ensures { out.new.items ≡ spec.unasked_text }
{
    out.clear();
    append(out, b"?\n");
}

/// The line of a reply.
pub fn tell_reply(reply: &[u8], out: &mut LineText)
    requires { length reply.now ≤ 2048 }
    ensures { out.new.items ≡ spec.reply_text reply.now }
{
    out.clear();
    append(out, b"< ");
    hex_or_dash(out, reply);
    append(out, b"\n");
}

/// The line of a balance, where an account has the number.
#[tactic(auto, unfolding(report_text::specs::Text::line_text))]
pub fn tell_balance(pan: &Digits, balance: Option<i128>, out: &mut LineText)
    ensures { out.new.items ≡ spec.balance_text pan.now balance }
{
    match balance {
        Some(balance) => {
            let line = Line::Balance {
                pan: pan.copy(),
                amount: balance,
            };
            write_line(&line, out);
        }
        None => tell_other(out),
    }
}

/// The line in front of all balances.
pub fn tell_count(count: usize, out: &mut LineText)
    ensures { out.new.items ≡ spec.count_text count }
{
    out.clear();
    append(out, b"accounts ");
    number(out, count as u64);
    append(out, b"\n");
}

/// A word with a number behind it.
fn put_place(word: &[u8], place: u64, out: &mut LineText)
    requires word { length word.now ≤ 40 }
    requires room { array_vec_len out.old ≤ 100 }
    ensures text { out.new.items ≡ out.old.items ++ (word.now ++ decimal place) }
    ensures len { array_vec_len out.new ≤ array_vec_len out.old + 80 }
{
    append(out, word);
    number(out, place);
}

/// The line of bytes that can't be read in the style of ISO 8583.
pub fn tell_unread(fault: IsoFault, out: &mut LineText)
    ensures { out.new.items ≡ spec.unread_text fault }
{
    out.clear();
    append(out, b"? ");
    put_iso_fault(fault, out);
    append(out, b"\n");
}

/// The words of the fault of bytes that are no message.
fn put_fault(fault: MessageFault, out: &mut LineText)
    requires room { array_vec_len out.old ≤ 100 }
    ensures text { out.new.items ≡ out.old.items ++ (codes "unreadable " ++ message_fault_words fault) }
    ensures len { array_vec_len out.new ≤ array_vec_len out.old + 80 }
{
    append(out, b"unreadable ");
    put_message_fault(fault, out);
}

/// A number behind a blank, where there is one.
fn put_blank_number(found: Option<u64>, out: &mut LineText)
    requires room { array_vec_len out.old ≤ 300 }
    ensures text { out.new.items ≡ out.old.items ++ spec.blank_number found }
    ensures len { array_vec_len out.new ≤ array_vec_len out.old + 41 }
{
    if let Some(found) = found {
        append(out, b" ");
        number(out, found);
    }
}

/// A word, and a number behind it where there is one.
fn put_numbered(word: &[u8], found: Option<u64>, out: &mut LineText)
    requires word { length word.now ≤ 40 }
    requires room { array_vec_len out.old ≤ 100 }
    ensures text { out.new.items ≡ out.old.items ++ (word.now ++ spec.blank_number found) }
    ensures len { array_vec_len out.new ≤ array_vec_len out.old + 81 }
{
    append(out, word);
    put_blank_number(found, out);
}

/// A word with two fields of a message behind it.
fn put_both(word: &[u8], one: &[u8], other: &[u8], out: &mut LineText)
    requires word { length word.now ≤ 40 }
    requires few { length one.now ≤ 3 }
    requires few_more { length other.now ≤ 3 }
    requires room { array_vec_len out.old ≤ 100 }
    ensures text { out.new.items ≡ out.old.items ++ (word.now ++ (hex_text one.now ++ (codes " " ++ hex_text other.now))) }
    ensures len { array_vec_len out.new ≤ array_vec_len out.old + 60 }
{
    append(out, word);
    hex_or_dash(out, one);
    append(out, b" ");
    hex_or_dash(out, other);
}

/// A balance behind a blank.
fn put_blank_balance(balance: i128, out: &mut LineText)
    requires room { array_vec_len out.old ≤ 300 }
    ensures text { out.new.items ≡ out.old.items ++ (codes " " ++ signed_decimal balance) }
    ensures len { array_vec_len out.new ≤ array_vec_len out.old + 41 }
{
    append(out, b" ");
    amount(out, balance);
}

/// An amount that is above a balance.
fn put_above(asked: u64, balance: i128, out: &mut LineText)
    requires room { array_vec_len out.old ≤ 100 }
    ensures text { out.new.items ≡ out.old.items ++ spec.above_words asked balance }
    ensures len { array_vec_len out.new ≤ array_vec_len out.old + 130 }
{
    put_place(b"above-balance ", asked, out);
    put_blank_balance(balance, out);
}

/// An amount that is booked, and the held one, where there was one.
fn put_settled(booked: u64, held: Option<u64>, out: &mut LineText)
    requires room { array_vec_len out.old ≤ 100 }
    ensures text { out.new.items ≡ out.old.items ++ spec.settled_reason_words booked held }
    ensures len { array_vec_len out.new ≤ array_vec_len out.old + 120 }
{
    append(out, b"settled ");
    number(out, booked);
    put_blank_number(held, out);
}

/// The words of a reason, with the number of the earlier message that it speaks of.
fn put_reason(reason: Reason, earlier: Option<u64>, out: &mut LineText)
    requires room { array_vec_len out.old ≤ 100 }
    ensures text { out.new.items ≡ out.old.items ++ spec.host_reason_words earlier reason }
    ensures len { array_vec_len out.new ≤ array_vec_len out.old + 130 }
{
    match reason {
        Reason::Unreadable { fault } => put_fault(fault, out),
        Reason::Repeat => put_numbered(b"repeat", earlier, out),
        Reason::OtherBytes => put_numbered(b"other-bytes", earlier, out),
        Reason::UnknownAccount => append(out, b"unknown-account"),
        Reason::WrongCryptogram => append(out, b"cryptogram"),
        Reason::Blocked => append(out, b"blocked"),
        Reason::OtherCurrency { message, account } => {
            put_both(b"currency ", &message, &account, out)
        }
        Reason::Reversed => put_numbered(b"reversed", earlier, out),
        Reason::Presented => put_numbered(b"presented", earlier, out),
        Reason::Expired { expiry, day } => put_both(b"expired ", &expiry, &day, out),
        Reason::WrongPin => append(out, b"pin"),
        Reason::AboveBalance { amount, balance } => put_above(amount, balance, out),
        Reason::Approved { amount } => put_numbered(b"approved", Some(amount), out),
        Reason::Settled { amount, held } => put_settled(amount, held, out),
        Reason::Released { amount } => put_numbered(b"released", Some(amount), out),
        Reason::NothingHeld => append(out, b"nothing-held"),
    }
}

/// That a reply carries scripts.
fn put_scripts(scripts: bool, out: &mut LineText)
    requires room { array_vec_len out.old ≤ 300 }
    ensures text { out.new.items ≡ out.old.items ++ spec.with_scripts_words scripts }
    ensures len { array_vec_len out.new ≤ array_vec_len out.old + 8 }
{
    if scripts {
        append(out, b" scripts");
    }
}

/// The line of why a reply is as it is.
fn tell_reason(because: &Because, out: &mut LineText)
    ensures { out.new.items ≡ spec.because_line because.now }
{
    out.clear();
    append(out, b"because ");
    put_reason(because.reason, because.earlier, out);
    put_scripts(because.scripts, out);
    append(out, b"\n");
}

/// The line of why the last reply is as it is, where there was one.
pub fn tell_because(because: &Option<Because>, out: &mut LineText)
    ensures { out.new.items ≡ spec.because_text because.now }
{
    match because {
        Some(because) => tell_reason(because, out),
        None => tell_other(out),
    }
}
