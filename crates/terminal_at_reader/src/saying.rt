//! Lines that tell what can't be taken, and what a question rests on.
ghost use Rattle.std.specs.Prelude.{◌≡◌, OnOk, IfOk};
ghost use Rattle.trace_check.specs.QuestionText.{question_text};
ghost use Rattle.line_talk.specs.Talk.{other_line};
ghost use Rattle.line_talk.specs.declared.party.Onward.TheVariants as way;
ghost use Rattle.terminal_at_reader.specs.Hearing.{fault_line};

use crate::fault::{ReplyFault, tell_fault};
use line_talk::{LineText, Onward, put_line};
use std::alloc::AllocError;
use trace_check::{Question, tell_question};

/// Puts the line that tells why a reply can't be read in place of what was there, and nothing of one that can.
pub fn put_fault(fault: Option<ReplyFault>, text: &mut Vec<u8>) -> Result<(), AllocError>
    ensures { OnOk result (text.new.items ≡ fault_line fault) }
{
    let mut line = LineText::new();
    tell_fault(fault, &mut line);
    put_line(text, line.as_slice())
}

/// Puts the line that answers what is no line of a talk in place of what was there, and tells how it goes on.
pub fn put_other(onward: Onward, text: &mut Vec<u8>) -> Result<Onward, AllocError>
    ensures told { OnOk result (text.new.items ≡ other_line) }
    ensures onward { IfOk result (λ found. found ≡ onward) }
{
    put_line(text, b"?\n")?;
    Ok(onward)
}

/// Puts a line that tells of lost power in place of what was there; the terminal rests.
pub fn put_lost(line: &[u8], text: &mut Vec<u8>) -> Result<Onward, AllocError>
    ensures told { OnOk result (text.new.items ≡ line.now) }
    ensures rests { IfOk result (λ found. found ≡ way.Rests) }
{
    put_line(text, line)?;
    Ok(Onward::Rests)
}

/// Puts the line of a question in place of what was there, and tells how it goes on.
pub fn put_why(
    question: Option<Question>,
    onward: Onward,
    text: &mut Vec<u8>,
) -> Result<Onward, AllocError>
    ensures told { OnOk result (text.new.items ≡ question_text question) }
    ensures onward { IfOk result (λ found. found ≡ onward) }
{
    let mut line = LineText::new();
    tell_question(question, &mut line);
    put_line(text, line.as_slice())?;
    Ok(onward)
}
