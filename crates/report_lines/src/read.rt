//! The reader of a line.
ghost use Rattle.std.specs.Prelude.{◌≡◌, ◌<◌, ◌==◌, ◌&&◌, not, nat_le, length, option_map, IfSome};
ghost use Rattle.report_lines.specs.Lanes.{HasLane};
ghost use Rattle.report_lines.specs.Reading as spec;

use crate::ending::{read_ending, read_fields};
use crate::line::{ReportLine, What, Whose};
use crate::parts::{number_of, split_word};

/// A line of a report, without its newline; `None` where it is none. There are lanes 0 to 15.
#[tactic(auto, unfolding(crate::specs::Reading::line_in))]
pub fn read_line(text: &[u8]) -> Option<ReportLine<'_>>
    ensures line { option_map spec.seen_line result ≡ spec.line_in text.now }
    ensures lane { IfSome result (λ line. HasLane line.whose) }
{
    let (word, rest) = split_word(text);
    match word {
        [b'L', number @ ..] if !number.is_empty() => Some(ReportLine {
            whose: Whose::Lane(read_lane(number)?),
            what: read_of_lane(rest)?,
        }),
        [b'S', number @ ..] if !number.is_empty() => Some(ReportLine {
            whose: Whose::Settlement(read_lane(number)?),
            what: read_exchange(rest)?,
        }),
        [b'A'] => read_of_audit(rest),
        _ => Some(ReportLine {
            whose: Whose::Report,
            what: read_of_report(word, rest)?,
        }),
    }
}

/// The number of a lane, from 0 to 15.
fn read_lane(text: &[u8]) -> Option<u8>
    ensures lane { result ≡ spec.lane_in text.now }
    ensures known { IfSome result (λ lane. lane < 16) }
{
    let number = number_of(text)?;
    if number < 16 {
        Some(number as u8)
    } else {
        None
    }
}

/// What a lane's line tells.
fn read_of_lane(text: &[u8]) -> Option<What<'_>>
    ensures { option_map spec.seen_what result ≡ spec.of_lane text.now }
{
    let (word, rest) = split_word(text);
    if word == b"power".as_slice() {
        let (card, state) = split_word(rest);
        read_power(card, state)
    } else if word == b"host".as_slice() {
        read_host(rest)
    } else if word == b"end".as_slice() {
        read_end(rest)
    } else {
        read_of_card(text)
    }
}

/// What a line of the talk with the card tells.
fn read_of_card(text: &[u8]) -> Option<What<'_>>
    ensures { option_map spec.seen_what result ≡ spec.card_line_in text.now }
{
    if text == b"< torn".as_slice() {
        Some(What::Torn)
    } else if text == b"< gone".as_slice() {
        Some(What::Gone)
    } else {
        read_exchange(text)
    }
}

/// Whether a text may be a card's name: 1 to 16 bytes.
fn is_name(text: &[u8]) -> bool
    ensures { result ≡ (not (length text.now == 0) && nat_le (length text.now) 16) }
{
    !text.is_empty() && text.len() <= 16
}

/// What a power line tells.
fn read_power<'a>(card: &'a [u8], state: &'a [u8]) -> Option<What<'a>>
    ensures { option_map spec.seen_what result ≡ spec.power_in card.now state.now }
{
    if !is_name(card) {
        None
    } else if state == b"torn".as_slice() {
        Some(What::PowerTorn(card))
    } else if state == b"canned".as_slice() {
        Some(What::PowerCanned(card))
    } else {
        Some(What::Power { card, apps: state })
    }
}

/// What was sent, or what came.
fn read_exchange(text: &[u8]) -> Option<What<'_>>
    ensures { option_map spec.seen_what result ≡ spec.exchange_in text.now }
{
    match text {
        [b'>', b' ', bytes @ ..] => Some(What::Sent(bytes)),
        [b'<', b' ', bytes @ ..] => Some(What::Given(bytes)),
        _ => None,
    }
}

/// What was sent to the issuer, or what came.
fn read_host(text: &[u8]) -> Option<What<'_>>
    ensures { option_map spec.seen_what result ≡ spec.host_in text.now }
{
    if text == b"< none".as_slice() {
        return Some(What::NoReply);
    }
    match text {
        [b'>', b' ', bytes @ ..] => Some(What::ToHost(bytes)),
        [b'<', b' ', bytes @ ..] => Some(What::FromHost(bytes)),
        _ => None,
    }
}

/// What an end line tells.
fn read_end(text: &[u8]) -> Option<What<'_>>
    ensures { option_map spec.seen_what result ≡ spec.end_line_in text.now }
{
    let (word, rest) = split_word(text);
    let number = number_of(word)?;
    if rest == b"lost".as_slice() {
        return Some(What::Lost(number));
    }
    let (ending, rest) = read_ending(rest)?;
    let fields = read_fields(rest)?;
    Some(What::End {
        number,
        ending,
        fields,
    })
}

/// What a line of the audit tells of the card of this name.
fn read_of_audited<'a>(card: &'a [u8], text: &'a [u8]) -> Option<What<'a>>
    ensures { option_map spec.seen_what result ≡ spec.of_audit card.now text.now }
{
    let (word, state) = split_word(text);
    if word == b"power".as_slice() {
        read_power(card, state)
    } else {
        read_exchange(text)
    }
}

/// A line of the audit.
fn read_of_audit(text: &[u8]) -> Option<ReportLine<'_>>
    ensures line { option_map spec.seen_line result ≡ spec.audit_in text.now }
    ensures lane { IfSome result (λ line. HasLane line.whose) }
{
    let (card, rest) = split_word(text);
    Some(ReportLine {
        whose: Whose::Audit(card),
        what: read_of_audited(card, rest)?,
    })
}

/// What a line without lane and card tells.
fn read_of_report<'a>(word: &[u8], rest: &'a [u8]) -> Option<What<'a>>
    ensures { option_map spec.seen_what result ≡ spec.report_line_in word.now rest.now }
{
    if word == b"object".as_slice() {
        let (tag, value) = split_word(rest);
        Some(What::Object { tag, value })
    } else if word == b"read".as_slice() {
        Some(What::ReadEnded(read_ending(rest)?.0))
    } else if word == b"refused".as_slice() {
        Some(What::Refused(number_of(split_word(rest).0)?))
    } else if word == b"check".as_slice() {
        read_check(rest)
    } else if word == b"balance".as_slice() {
        Some(What::Balance)
    } else if word == b"done".as_slice() {
        Some(What::Done)
    } else {
        None
    }
}

/// What became of a trace.
fn read_check(text: &[u8]) -> Option<What<'_>>
    ensures { option_map spec.seen_what result ≡ spec.check_in text.now }
{
    let (word, rest) = split_word(text);
    if word == b"differs".as_slice() {
        Some(What::Differs(number_of(rest)?))
    } else {
        None
    }
}
