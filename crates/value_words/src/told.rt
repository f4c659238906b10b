//! A reason in words.
ghost use Rattle.std.specs.Prelude.{◌≡◌, ◌<◌, ◌||◌, ◌++◌, [], if◌then◌else◌, codes};
ghost use Rattle.value_words.specs.ReasonWords as spec;
ghost use Rattle.report_lines.specs.Bits.{has_bit};
ghost use Rattle.report_lines.specs.Pieces as piece;
ghost use Rattle.report_lines.specs.Pieces.{Tells};

use crate::phrases::{
    DENIED, ISSUER, NO_DEFAULT, NO_RESULTS, NO_RESULTS_AT_ALL, NONE_PERHAPS, NONE_SET,
    OFFLINE_DEFAULT, OFFLINE_NONE, OFFLINE_PERHAPS, ONLINE, ONLINE_ONLY, OR_ONLINE_ONLY,
    TERMINAL_DENIAL, TERMINAL_ONLINE, UNABLE_DEFAULT, UNABLE_NONE, UNABLE_ONLINE_ONLY,
    UNABLE_TERMINAL, UNEXPLAINED,
};
use crate::reason::Reason;
use report_lines::WordLines;

/// Tells something between, where some bits were told before.
fn tell_between(out: &mut WordLines, told: bool)
    ensures { Tells out.old out.new (if told then piece.text (codes " ") else []) }
{
    if told {
        out.text(b" ");
    }
}

/// Whether a number of 40 bits has the bit of this place, from 0 at the left.
pub fn has_bit(bits: u64, place: u8) -> bool
    requires { place < 40 }
    ensures { result ≡ has_bit 40 bits place }
{
    (bits >> (39 - place)) % 2 == 1
}

/// Tells a bit by its place, where it is set, behind a blank where others were told before; whether any was
/// told.
fn tell_bit(out: &mut WordLines, bits: u64, place: u8, told: bool) -> bool
    requires { place < 40 }
    ensures told { Tells out.old out.new
        (if has_bit 40 bits place then (if told then piece.text (codes " ") else []) ++ spec.bit_place_words place else []) }
    ensures result { result ≡ (told || has_bit 40 bits place) }
{
    if !has_bit(bits, place) {
        return told;
    }
    tell_between(out, told);
    out.number(u64::from(place / 8 + 1));
    out.text(b".");
    out.number(u64::from(8 - place % 8));
    true
}

/// Tells the bits of a number of 40 bits: the byte from 1 at the left, a dot, and the bit from 8 at the
/// left to 1, with blanks between.
pub fn tell_bits(out: &mut WordLines, bits: u64)
    ensures { Tells out.old out.new (spec.bit_places_words bits) }
{
    let mut told = false;
    for place in 0..40u8 {
        told = tell_bit(out, bits, place, told);
    }
}

/// Tells a text, the bits, and the text behind them.
fn tell_around(out: &mut WordLines, before: &[u8], bits: u64, behind: &[u8])
    ensures { Tells out.old out.new (spec.around before.now bits behind.now) }
{
    out.text(before);
    tell_bits(out, bits);
    out.text(behind);
}

/// Tells the bits, or `one` where there is none.
fn tell_bits_or_one(out: &mut WordLines, bits: u64)
    ensures { Tells out.old out.new (spec.bits_or_one bits) }
{
    if bits == 0 {
        out.text(b"one");
    } else {
        tell_bits(out, bits);
    }
}

/// Tells the reason of a second question without the issuer.
fn tell_unable(out: &mut WordLines, reason: Reason)
    ensures { Tells out.old out.new (spec.unable_words reason) }
{
    match reason {
        Reason::UnableDefault(bits) => tell_around(out, UNABLE_DEFAULT, bits, b""),
        Reason::UnableOnlineOnly => {
            out.text(UNABLE_ONLINE_ONLY);
        }
        Reason::UnableTerminal => out.text(UNABLE_TERMINAL),
        Reason::UnableNone => {
            out.text(UNABLE_NONE);
        }
        _ => out.text(UNEXPLAINED),
    }
}

/// Tells why a TC or an ARQC was asked for.
fn tell_asked(out: &mut WordLines, reason: Reason)
    ensures { Tells out.old out.new (spec.asking_reason_words reason) }
{
    match reason {
        Reason::OnlineOnly => {
            out.text(ONLINE_ONLY);
        }
        Reason::Online(bits) => tell_around(out, ONLINE, bits, b""),
        Reason::OnlinePerhaps(bits) => tell_around(out, ONLINE, bits, OR_ONLINE_ONLY),
        Reason::TerminalOnline => out.text(TERMINAL_ONLINE),
        Reason::OfflineNone => out.text(OFFLINE_NONE),
        Reason::NoneSet => out.text(NONE_SET),
        Reason::OfflinePerhaps(bits) => tell_around(out, OFFLINE_PERHAPS, bits, NO_DEFAULT),
        Reason::NonePerhaps => out.text(NONE_PERHAPS),
        other => tell_unable(out, other),
    }
}

/// Tells that no list had the terminal verification results.
fn tell_no_results(out: &mut WordLines, second: bool)
    ensures { Tells out.old out.new (spec.no_results_words second) }
{
    if second {
        out.text(NO_RESULTS_AT_ALL);
    } else {
        out.text(NO_RESULTS);
    }
}

/// Tells a reason. `code` is the issuer's response code, `second` whether it was the second question.
pub fn tell_reason(out: &mut WordLines, reason: Reason, second: bool, code: [u8; 2])
    ensures { Tells out.old out.new (spec.reason_words reason second code) }
{
    match reason {
        Reason::Issuer => {
            out.text(ISSUER);
            out.text(&code);
        }
        Reason::NoResults => tell_no_results(out, second),
        Reason::Denied(bits) => tell_around(out, DENIED, bits, b""),
        Reason::OfflineDefault(bits) => tell_around(out, OFFLINE_DEFAULT, bits, b""),
        Reason::TerminalDenial(bits) => {
            out.text(TERMINAL_DENIAL);
            tell_bits_or_one(out, bits);
        }
        other => tell_asked(out, other),
    }
}
