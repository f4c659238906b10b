//! The buffer of the lines.
ghost use Rattle.std.specs.Prelude.{◌≡◌, ◌++◌, ◌≤◌, ◌∷◌, [], true, false, OnErr, OnOk, option_map};
ghost use Rattle.report_lines.specs.Lines.{AreWordLines, line_closed, line_opened, shown_character, stage_of};
ghost use Rattle.report_lines.specs.Pieces as piece;
ghost use Rattle.report_lines.specs.Pieces.{Tells, no_lines};

use std::alloc::{AllocError, Global};
use std::marker::Model;

/// Lines that begin with two blanks and end with a newline; the last one may still be open. Where there
/// is no memory for more, the buffer has failed for good and takes nothing more. Contracts see the bytes,
/// whether references to the Books are told, and whether it has failed.
#[derive(Drop)]
pub struct WordLines {
    bytes: Vec<u8>,
    started: bool,
    books: bool,
    failed: bool,
}

/// The blanks before a line's words, but for the first two.
const BLANKS: &[u8; 16] = b"                ";

/// A printable character of ASCII, or `?`.
fn shown(byte: u8) -> u8
    ensures shown { result ≡ shown_character byte }
    ensures printable { 32 ≤ result }
{
    if 32 <= byte && byte <= 126 {
        byte
    } else {
        b'?'
    }
}

impl Model for WordLines {
    ghost use Rattle.std.specs.Prelude.{◌≡◌, if◌then◌else◌};
    ghost use Rattle.report_lines.specs.Lines.{WordsData, stage_of};

    ghost Value = { WordsData };

    ghost view = { λ w. record { made = record { bytes = w.bytes.items; books = w.books }; failed = w.failed } };

    ghost invariant = { λ w. stage_of w.bytes.items ≡ (if w.started then 2 else 0) };
}

impl WordLines {
    /// No lines, in which no references are told.
    #[tactic(auto, using(crate::proofs::Stages::stages))]
    pub fn new(alloc: Global) -> WordLines
        ensures empty { result.made ≡ no_lines false }
        ensures whole { result.failed ≡ false }
    {
        WordLines {
            bytes: Vec::new(alloc),
            started: false,
            books: false,
            failed: false,
        }
    }

    /// Takes the lines away. In those to come references are told where `books` says so. A failure stays.
    #[tactic(auto, using(crate::proofs::Stages::stages))]
    pub fn clear(&mut self, books: bool)
        ensures empty { self.new.made ≡ no_lines books }
        ensures failed { self.new.failed ≡ self.old.failed }
    {
        self.bytes.clear();
        self.started = false;
        self.books = books;
    }

    /// Ends the open line, where there is one.
    #[tactic(auto, using(crate::proofs::Stages::stages))]
    fn end(&mut self)
        ensures ended { self.new.failed ≡ false → self.new.made.bytes ≡ line_closed self.old.made.bytes }
        ensures none { self.new.failed ≡ false → stage_of self.new.made.bytes ≡ 0 }
        ensures books { self.new.made.books ≡ self.old.made.books }
        ensures failed { self.old.failed ≡ true → self.new.failed ≡ true }
    {
        if self.failed {
            return;
        }
        if self.started {
            match self.bytes.push(b'\n') {
                Ok(()) => self.started = false,
                Err(_) => self.failed = true,
            }
        }
    }

    /// Begins a line where none is open.
    #[tactic(auto, using(crate::proofs::Stages::stages))]
    fn begin(&mut self)
        ensures begun { self.new.failed ≡ false → self.new.made.bytes ≡ line_opened self.old.made.bytes }
        ensures one { self.new.failed ≡ false → stage_of self.new.made.bytes ≡ 2 }
        ensures books { self.new.made.books ≡ self.old.made.books }
        ensures failed { self.old.failed ≡ true → self.new.failed ≡ true }
    {
        if self.failed {
            return;
        }
        if !self.started {
            match self.bytes.extend_from_slice(b"  ") {
                Ok(()) => self.started = true,
                Err(_) => self.failed = true,
            }
        }
    }

    /// Appends a byte to the open line. A byte that is no printable character of ASCII becomes `?`.
    #[tactic(auto, using(crate::proofs::Stages::stages))]
    fn push(&mut self, byte: u8)
        requires { self.old.failed ≡ false → stage_of self.old.made.bytes ≡ 2 }
        ensures shown { self.new.failed ≡ false → self.new.made.bytes ≡ self.old.made.bytes ++ shown_character byte ∷ [] }
        ensures one { self.new.failed ≡ false → stage_of self.new.made.bytes ≡ 2 }
        ensures books { self.new.made.books ≡ self.old.made.books }
        ensures failed { self.old.failed ≡ true → self.new.failed ≡ true }
    {
        if self.failed {
            return;
        }
        if self.bytes.push(shown(byte)).is_err() {
            self.failed = true;
        }
    }

    /// Ends the open line and begins a new one, with two blanks for each level: one level at least, nine at
    /// most.
    pub fn line(&mut self, level: u8)
        ensures { Tells self.old self.new (piece.line level) }
    {
        self.end();
        let more = usize::from(level).saturating_sub(1).min(8);
        self.text(&BLANKS[..2 * more]);
    }

    /// Appends characters to the open line, or to a new one. A byte that is no printable character of
    /// ASCII becomes `?`.
    pub fn text(&mut self, text: &[u8])
        ensures told { Tells self.old self.new (piece.text text.now) }
        ensures one { self.new.failed ≡ false → stage_of self.new.made.bytes ≡ 2 }
    {
        self.begin();
        for byte in text {
            self.push(*byte);
        }
    }

    /// Tells where a reason stands, in brackets behind a blank, where references are told.
    #[tactic(auto, unfolding(crate::specs::Pieces::with_piece))]
    pub fn reference(&mut self, reference: &[u8])
        ensures { Tells self.old self.new (piece.reference reference.now) }
    {
        if self.books {
            self.text(b" (");
            self.text(reference);
            self.text(b")");
        }
    }

    /// The same of what has a reference.
    pub fn reference_of(&mut self, reference: Option<&'static [u8]>)
        ensures { Tells self.old self.new (piece.reference_or_none (option_map (λ word. word.now) reference.entry)) }
    {
        if let Some(reference) = reference {
            self.reference(reference);
        }
    }

    /// Ends the open line. An error says that there was no memory, for this or an earlier piece; each later call gives it
    /// again.
    #[tactic(auto, unfolding(crate::specs::Lines::AreWordLines))]
    pub fn finish(&mut self) -> Result<(), AllocError>
        ensures lines { OnOk result (AreWordLines self.new.made.bytes) }
        ensures ended { OnOk result (self.new.made.bytes ≡ line_closed self.old.made.bytes) }
        ensures whole { OnOk result (self.old.failed ≡ false) }
        ensures still_whole { OnOk result (self.new.failed ≡ false) }
        ensures failed { OnErr result (self.new.failed ≡ true) }
    {
        self.end();
        if self.failed {
            return Err(AllocError);
        }
        Ok(())
    }

    /// The bytes of the lines.
    pub fn as_slice(&self) -> &[u8]
        ensures { result.now ≡ self.now.made.bytes }
    {
        &self.bytes
    }
}
