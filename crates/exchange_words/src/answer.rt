//! Answers in words (EMV 4.3 Book 3 section 6.5).
ghost use Rattle.std.specs.Prelude.{◌≡◌};
ghost use Rattle.apdu_core.specs.Seen.{seen_response};
ghost use Rattle.exchange_words.specs.Answers as words;
ghost use Rattle.report_lines.specs.Pieces.{Tells};

use crate::body::{instruction_byte, tell_and_learn};
use crate::kind::tell_kind;
use crate::lane::LaneState;
use apdu_core::status::NO_ERROR;
use apdu_core::{Response, read_response};
use report_lines::WordLines;
use value_words::tell_status_line;

/// Tells the status of a response: one that is not 9000, or that no body stands before.
fn tell_if_status(out: &mut WordLines, instruction: u8, response: &Response<'_>)
    ensures { Tells out.old out.new (words.status_told instruction (seen_response response.now)) }
{
    if response.status != NO_ERROR || response.body.is_empty() {
        tell_status_line(out, instruction, response.status);
    }
}

/// Tells the body of a response, where it has one, and keeps what that leaves.
fn tell_if_body(
    out: &mut WordLines,
    lane: &mut LaneState,
    command: &[u8],
    answer: &[u8],
    body: &[u8],
    brief: bool,
)
    ensures words { Tells out.old out.new (words.body_told lane.old command.now answer.now body.now brief) }
    ensures left { lane.new ≡ words.left_by_some lane.old command.now answer.now body.now }
{
    if !body.is_empty() {
        tell_and_learn(out, lane, command, answer, body, brief);
    }
}

/// Tells the kind of cryptogram that a response gives, and keeps it.
fn tell_if_cryptogram(
    out: &mut WordLines,
    lane: &mut LaneState,
    command: &[u8],
    response: &Response<'_>,
)
    ensures words { Tells out.old out.new (words.kind_told lane.old command.now (seen_response response.now)) }
    ensures left { lane.new ≡ words.left_by_kind lane.old command.now (seen_response response.now) }
{
    if instruction_byte(command) == 0xae && response.status == NO_ERROR {
        tell_kind(out, lane, response.body);
    }
}

/// Tells a response, and keeps what it leaves.
fn tell_response(
    out: &mut WordLines,
    lane: &mut LaneState,
    command: &[u8],
    answer: &[u8],
    response: &Response<'_>,
    brief: bool,
)
    ensures words { Tells out.old out.new (words.words_of_response lane.old command.now answer.now (seen_response response.now) brief) }
    ensures left { lane.new ≡ words.left_by_response lane.old command.now answer.now (seen_response response.now) }
{
    tell_if_status(out, instruction_byte(command), response);
    tell_if_body(out, lane, command, answer, response.body, brief);
    tell_if_cryptogram(out, lane, command, response);
}

/// Tells that an answer is too short or too long for one.
fn tell_no_response(out: &mut WordLines, answer: &[u8])
    ensures { Tells out.old out.new (words.no_response answer.now) }
{
    out.line(1);
    if answer.len() < 2 {
        out.text(b"fewer than two bytes");
    } else {
        out.text(b"more than 258 bytes");
    }
}

/// Tells an answer to this command, and keeps what it leaves.
#[tactic(auto, unfolding(crate::specs::Answers::words_of_answer, crate::specs::Answers::left_by_answer))]
pub fn tell_answer(
    out: &mut WordLines,
    lane: &mut LaneState,
    command: &[u8],
    answer: &[u8],
    brief: bool,
)
    ensures words { Tells out.old out.new (words.words_of_answer lane.old command.now answer.now brief) }
    ensures left { lane.new ≡ words.left_by_answer lane.old command.now answer.now }
{
    match read_response(answer) {
        Ok(response) => tell_response(out, lane, command, answer, &response, brief),
        Err(_) => tell_no_response(out, answer),
    }
}
