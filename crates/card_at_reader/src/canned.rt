//! A card of canned answers in a reader: each command gets the next of them, whatever it is.
ghost use Rattle.std.specs.Prelude.{◌≡◌, ◌++◌, ◌∷◌, [], map, codes, OnOk};
ghost use Rattle.report_text.specs.Pieces.{hex_or_dash};
ghost use Rattle.card_at_reader.specs.Canned as spec;
ghost use Rattle.card_at_reader.specs.Canned.{CannedTalked, IsCannedTalk, IsCannedTurn};
ghost use Rattle.card_at_reader.specs.Desk.{answer_text, card_opening};

use crate::word::{Order, Word, word_of};
use line_talk::{LineText, Onward, Party, put_line};
use std::alloc::{AllocError, Global};

/// A card of canned answers in a reader.
#[derive(Drop)]
pub struct CannedDesk<'s> {
    pub answers: &'s [Vec<u8>],
    /// How many of them it gave since power-up, where it is on.
    pub given: Option<usize>,
}

/// Appends bytes in hexadecimal, or a dash where there are none.
#[tactic(auto, unfolding(report_text::specs::Pieces::hex_or_dash))]
fn append_hex(alloc: Global, bytes: &[u8], text: &mut Vec<u8>) -> Result<(), AllocError>
    ensures { OnOk result (text.new.items ≡ text.old.items ++ hex_or_dash bytes.now) }
{
    if bytes.is_empty() {
        return text.extend_from_slice(b"-");
    }
    let digits = hex::encode(alloc, bytes)?;
    text.extend_from_slice(digits.as_bytes())
}

/// The line of an answer.
fn tell_answer(alloc: Global, answer: &[u8], text: &mut Vec<u8>) -> Result<(), AllocError>
    ensures { OnOk result (text.new.items ≡ answer_text answer.now) }
{
    put_line(text, b"< ")?;
    append_hex(alloc, answer, text)?;
    text.extend_from_slice(b"\n")
}

/// Gives a command to the card: it gets the next answer since power-up. Behind the last one the card is gone, and off.
fn give(alloc: Global, desk: &mut CannedDesk<'_>, text: &mut Vec<u8>) -> Result<(), AllocError>
    ensures turn { OnOk result (IsCannedTurn desk.new.given text.new.items
        (spec.canned_command (map (λ answer. answer.items) desk.old.answers.now) desk.old.given)) }
    ensures answers { desk.new.answers ≡ desk.old.answers }
{
    let Some(given) = desk.given else {
        return put_line(text, b"?\n");
    };
    let Some(answer) = desk.answers.get(given) else {
        desk.given = None;
        return put_line(text, b"< gone\n");
    };
    desk.given = Some(given + 1);
    tell_answer(alloc, answer.as_slice(), text)
}

/// Answers what a line asks.
fn answer_word(
    alloc: Global,
    desk: &mut CannedDesk<'_>,
    word: &Word,
    text: &mut Vec<u8>,
) -> Result<(), AllocError>
    ensures turn { OnOk result (IsCannedTurn desk.new.given text.new.items
        (spec.canned_turn_by (map (λ answer. answer.items) desk.old.answers.now) desk.old.given word.now)) }
    ensures answers { desk.new.answers ≡ desk.old.answers }
{
    match word {
        Word::Does(Order::Power) => {
            desk.given = Some(0);
            put_line(text, b"power canned\n")
        }
        Word::Does(Order::Off) => {
            desk.given = None;
            put_line(text, b"off\n")
        }
        Word::Does(Order::Command(_)) => give(alloc, desk, text),
        Word::Does(Order::Pull(_)) | Word::Asks(_) | Word::Other => put_line(text, b"?\n"),
    }
}

impl Party for CannedDesk<'_> {
    ghost opening = { λ desk. card_opening };

    ghost stands = { λ desk turns. CannedTalked (map (λ answer. answer.items) desk.answers.now) turns desk.given };

    ghost talks = { λ desk turns. IsCannedTalk (map (λ answer. answer.items) desk.answers.now) turns };

    fn open(&mut self, text: &mut LineText) -> Onward {
        text.clear();
        Onward::Rests
    }

    fn answer(
        &mut self,
        alloc: Global,
        line: &[u8],
        text: &mut Vec<u8>,
    ) -> Result<Onward, AllocError> {
        let word = word_of(alloc, line)?;
        answer_word(alloc, self, &word, text)?;
        Ok(Onward::Rests)
    }

    ghost told = { λ desk turns stands. (desk.given, stands) };
}
