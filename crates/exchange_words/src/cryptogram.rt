//! GENERATE AC in words: what is asked for and why (EMV 4.3 Book 3 sections 6.5.5 and 10.7).
ghost use Rattle.std.specs.Prelude.{◌≡◌, [], map, ◌*◌, ◌/◌, Some};
ghost use Rattle.apdu_core.specs.Seen.{seen_command};
ghost use Rattle.emv_dict.specs.Kinds.{kind_of};
ghost use Rattle.report_lines.specs.Tables.{word_in};
ghost use Rattle.value_words.specs.declared.codes.TheConstants as table;
ghost use Rattle.report_lines.specs.Pieces.{Tells, word_or};
ghost use Rattle.exchange_words.specs.Commands as words;

use crate::because::tell_cited_reason;
use crate::command::tell_command_reference;
use crate::lane::{LaneState, keep};
use apdu_core::Command;
use ber_tlv::Tag;
use emv_dict::Kind;
use object_words::{KnownCodes, ResultsStyle, Style, tell_fields, tell_fields_beside};
use report_lines::{WordLines, word_of};
use value_words::{Asking, CRYPTOGRAMS, Fields, Row, fits, number_in, reason_of, value_in};

/// The terminal verification results in the data, where the list has them and wants just these data.
fn sent_results(list: &[u8], sent: &[u8]) -> Option<u64>
    ensures { result ≡ words.sent_results list.now sent.now }
{
    let fields = Fields { list, data: sent };
    if !fits(fields) {
        return None;
    }
    Some(number_in(value_in(fields, Tag(0x95), 5)?))
}

/// Tells the fields of the data: those of the second question beside those of the first.
fn tell_question_fields(out: &mut WordLines, lane: &LaneState, sent: &[u8], row: Option<Row>)
    ensures { Tells out.old out.new (words.question_fields lane.now sent.now row) }
{
    let style = Style {
        level: 2,
        results: ResultsStyle::Codes(KnownCodes {
            card: lane.codes,
            row,
        }),
        answer: None,
    };
    if lane.cryptograms == 0 {
        let fields = Fields {
            list: lane.cdol1.as_slice(),
            data: sent,
        };
        tell_fields(out, fields, &style);
    } else {
        let fields = Fields {
            list: lane.cdol2.as_slice(),
            data: sent,
        };
        tell_fields_beside(out, fields, first_fields(lane), lane.code.is_some(), &style);
    }
}

/// The fields of the first question.
pub fn first_fields(lane: &LaneState) -> Fields<'_>
    ensures list { result.list.now ≡ lane.now.cdol1.items }
    ensures data { result.data.now ≡ lane.now.first.items }
{
    Fields {
        list: lane.cdol1.as_slice(),
        data: lane.first.as_slice(),
    }
}

/// What is known as the terminal asks for this kind.
fn asking(lane: &LaneState, kind: Kind, row: Option<Row>) -> Asking
    ensures { result ≡ words.asking lane.now kind row }
{
    Asking {
        asked: kind,
        second: lane.cryptograms > 0,
        replied: lane.code.is_some(),
        results: lane.results,
        card: lane.codes,
        row,
    }
}

/// The terminal verification results that this question sends.
fn question_results(lane: &LaneState, sent: &[u8]) -> Option<u64>
    ensures { result ≡ words.question_results lane.now sent.now }
{
    if lane.cryptograms == 0 {
        sent_results(lane.cdol1.as_slice(), sent)
    } else {
        sent_results(lane.cdol2.as_slice(), sent)
    }
}

/// Keeps what was sent: the results, and of the first question the data.
fn keep_question(lane: &mut LaneState, sent: &[u8])
    ensures left { lane.new ≡ words.with_question lane.old sent.now }
{
    lane.results = question_results(lane, sent).or(lane.results);
    if lane.cryptograms == 0 {
        keep(&mut lane.first, sent);
    }
}

/// Tells why this kind is asked for, and keeps it for the end line.
fn tell_because(out: &mut WordLines, lane: &mut LaneState, kind: Kind, row: Option<Row>)
    ensures words { Tells out.old out.new (words.because_words lane.old row (Some kind)) }
    ensures left { lane.new ≡ words.with_reason lane.old row (Some kind) }
{
    let reason = reason_of(&asking(lane, kind, row));
    lane.reason = Some(reason);
    lane.second = lane.cryptograms > 0;
    lane.asked = Some(kind);
    lane.answered = None;
    out.line(1);
    out.text(b"because ");
    tell_cited_reason(out, reason, lane.second, lane.code.unwrap_or(*b"--"));
}

/// Tells which question this is.
fn tell_head(out: &mut WordLines, lane: &LaneState)
    ensures { Tells out.old out.new (words.question_head lane.now) }
{
    out.line(1);
    if lane.cryptograms == 0 {
        out.text(b"GENERATE AC, the first: asks for ");
    } else {
        out.text(b"GENERATE AC, the second: asks for ");
    }
}

/// Tells the kind that two high bits ask for.
fn tell_wanted(out: &mut WordLines, control: u8)
    ensures { Tells out.old out.new (word_or [] (word_in (map (λ w. (w.0, w.1.now)) table.CRYPTOGRAMS) (control / 64 * 64))) }
{
    if let Some(word) = word_of(&CRYPTOGRAMS, u32::from(control / 64 * 64)) {
        out.text(word);
    }
}

/// Tells what GENERATE AC asks for, and the fields of its data.
fn tell_asked(
    out: &mut WordLines,
    lane: &LaneState,
    command: &Command<'_>,
    row: Option<Row>,
    brief: bool,
)
    ensures { Tells out.old out.new (words.cryptogram_question_words lane.now (seen_command command.now) row brief) }
{
    tell_head(out, lane);
    tell_wanted(out, command.p1);
    tell_command_reference(out, 0x80ae);
    if !brief {
        tell_question_fields(out, lane, command.body, row);
    }
}

/// Tells why a kind is asked for, where the two high bits name one.
fn tell_why(out: &mut WordLines, lane: &mut LaneState, control: u8, row: Option<Row>)
    ensures words { Tells out.old out.new (words.because_words lane.old row (kind_of control)) }
    ensures left { lane.new ≡ words.with_reason lane.old row (kind_of control) }
{
    if let Some(kind) = Kind::of(control) {
        tell_because(out, lane, kind, row);
    }
}

/// Tells GENERATE AC.
pub(crate) fn tell_question(
    out: &mut WordLines,
    lane: &mut LaneState,
    command: &Command<'_>,
    row: Option<Row>,
    brief: bool,
)
    ensures words { Tells out.old out.new (words.question_words lane.old (seen_command command.now) row brief) }
    ensures left { lane.new ≡ words.with_reason (words.with_question lane.old command.now.body.now) row (kind_of command.now.p1) }
{
    tell_asked(out, lane, command, row, brief);
    keep_question(lane, command.body);
    tell_why(out, lane, command.p1, row);
}
