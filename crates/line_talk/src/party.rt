//! Who answers the lines of a talk.
ghost use Rattle.std.specs.Prelude.{◌≡◌, ◌≤◌, ◌++◌, ◌∷◌, [], List, IfOk, OnOk, IsOk, length, vec_capacity};
ghost use Rattle.line_talk.specs.Turns.{GoesOn, IsSameParty, Opening, Turn, may_end, onward_behind};

use crate::line::LineText;
use std::alloc::{AllocError, Global};

/// How a talk goes on behind what was said last.
#[derive(Clone, Copy, PartialEq, Eq, Debug)]
pub enum Onward {
    /// A line has to follow.
    Awaits,
    /// A line may follow.
    Rests,
    /// The talk is over.
    Over,
    /// The talk doesn't go on: the line was none that was awaited.
    Stuck,
}

impl Onward {
    /// Whether the lines may be at their end.
    pub fn may_end(self) -> bool
        ensures { result ≡ may_end self }
    {
        match self {
            Onward::Awaits => false,
            Onward::Rests => true,
            Onward::Over => false,
            Onward::Stuck => false,
        }
    }
}

/// Puts one line into the text of an answer, in place of what that held. It takes memory only where there is no room.
pub fn put_line(text: &mut Vec<u8>, line: &[u8]) -> Result<(), AllocError>
    ensures put { OnOk result (text.new.items ≡ line.now) }
    ensures room { length line.now ≤ vec_capacity text.old → IsOk result }
{
    text.clear();
    text.extend_from_slice(line)
}

/// A card, a terminal or an issuer's host, which answers line by line.
pub trait Party {
    /// What it says before the first line.
    ghost opening: { Self → Opening };

    /// It has answered these lines so.
    ghost stands: { Self → List Turn → Type 0 };

    /// These lines and answers are a talk of this party, from its beginning.
    ghost talks: { Self → List Turn → Type 0 };

    /// Puts what it says first into `text` in place of what that held.
    fn open(&mut self, text: &mut LineText) -> Onward
        requires begun { stands self.old [] }
        ensures told { record { text = text.new.items; onward = result } ≡ opening self.old }
        ensures begun { stands self.new [] }
        ensures same { IsSameParty (opening self.old) (opening self.new) (talks self.old) (talks self.new) };

    /// Puts the answer to a line without its newline into `text` in place of what that held, or tells that there is no
    /// memory. The answer may be several lines. A line may follow what was said last.
    fn answer(
        &mut self,
        alloc: Global,
        line: &[u8],
        text: &mut Vec<u8>,
    ) -> Result<Onward, AllocError>
        requires short { length line.now ≤ 8191 }
        requires stands { (turns : List Turn) × stands self.old turns × GoesOn (onward_behind (opening self.old).onward turns) }
        ensures turn { IfOk result (λ onward. (turns : List Turn) → stands self.old turns → GoesOn (onward_behind (opening self.old).onward turns)
            → stands self.new (turns ++ record { line = line.now; answer = text.new.items; onward = onward } ∷ [])) }
        ensures same { IsSameParty (opening self.old) (opening self.new) (talks self.old) (talks self.new) };

    /// What it has answered is a talk of it.
    ghost told: { (party : Self) (turns : List Turn) → stands party turns → talks party turns };
}
