//! The lines of an event in one place: heads, and one room for the bytes of all of them.
ghost use Rattle.std.specs.Prelude.{◌≡◌, ◌<◌, ◌≤◌, ◌++◌, [], ◌∷◌, length, MatchOption};
ghost use Rattle.report_text.specs.declared.line.Line.TheVariants as line;
ghost use Rattle.report_text.specs.Packed.{line_at, is_end_line};

use crate::head::{Head, LinePlace};
use crate::{EndParts, Shown};
use arrayvec::ArrayVec;
use ber_tlv::append;
use std::marker::Model;

/// At most eight lines, with at most 2,048 bytes each. Contracts see them as a list.
#[derive(Drop)]
pub struct Lines {
    places: ArrayVec<LinePlace, 8>,
    bytes: ArrayVec<u8, 16384>,
}

impl Model for Lines {
    ghost use Rattle.report_text.specs.Packed.{LinesData, lines_at, IsFilled};

    ghost Value = { LinesData };

    ghost view = { λ lines. record { items = lines_at lines.places.items lines.bytes.items } };

    ghost invariant = { λ lines. IsFilled lines.places.items lines.bytes.items };
}

impl Lines {
    /// No lines.
    pub fn new() -> Lines
        ensures { result.items ≡ [] }
    {
        Lines {
            places: ArrayVec::new(),
            bytes: ArrayVec::new(),
        }
    }

    /// Takes all lines out.
    pub fn clear(&mut self)
        ensures { self.new.items ≡ [] }
    {
        self.places.clear();
        self.bytes.clear();
    }

    /// The lines, to be read one by one.
    pub fn left(&self) -> LinesLeft<'_>
        ensures { result ≡ self.now.items }
    {
        LinesLeft {
            places: self.places.as_slice(),
            bytes: self.bytes.as_slice(),
        }
    }

    /// A card is powered up; the counters of each of its applications.
    pub fn power(&mut self, lane: u8, card: ArrayVec<u8, 16>, apps: ArrayVec<Shown, 4>)
        requires { length self.old.items < 8 }
        ensures { self.new.items ≡ self.old.items ++ line.Power lane card apps ∷ [] }
    {
        self.push(Head::Power { lane, card, apps }, &[]);
    }

    /// A card of canned answers is powered up.
    pub fn power_canned(&mut self, lane: u8, card: ArrayVec<u8, 16>)
        requires { length self.old.items < 8 }
        ensures { self.new.items ≡ self.old.items ++ line.PowerCanned lane card ∷ [] }
    {
        self.push(Head::PowerCanned { lane, card }, &[]);
    }

    /// The card was gone as it was powered up.
    pub fn power_torn(&mut self, lane: u8, card: ArrayVec<u8, 16>)
        requires { length self.old.items < 8 }
        ensures { self.new.items ≡ self.old.items ++ line.PowerTorn lane card ∷ [] }
    {
        self.push(Head::PowerTorn { lane, card }, &[]);
    }

    /// A command.
    pub fn to_card(&mut self, lane: u8, bytes: &[u8])
        requires room { length self.old.items < 8 }
        requires few { length bytes.now ≤ 261 }
        ensures { self.new.items ≡ self.old.items ++ line.ToCard lane (record { items = bytes.now }) ∷ [] }
    {
        self.push(Head::ToCard { lane }, bytes);
    }

    /// A response.
    pub fn from_card(&mut self, lane: u8, bytes: &[u8])
        requires room { length self.old.items < 8 }
        requires few { length bytes.now ≤ 258 }
        ensures { self.new.items ≡ self.old.items ++ line.FromCard lane (record { items = bytes.now }) ∷ [] }
    {
        self.push(Head::FromCard { lane }, bytes);
    }

    /// The power was cut in place of a response.
    pub fn torn(&mut self, lane: u8)
        requires { length self.old.items < 8 }
        ensures { self.new.items ≡ self.old.items ++ line.Torn lane ∷ [] }
    {
        self.push(Head::Torn { lane }, &[]);
    }

    /// A card of canned answers had none left.
    pub fn gone(&mut self, lane: u8)
        requires { length self.old.items < 8 }
        ensures { self.new.items ≡ self.old.items ++ line.Gone lane ∷ [] }
    {
        self.push(Head::Gone { lane }, &[]);
    }

    /// A message to the issuer's host.
    pub fn to_host(&mut self, lane: u8, bytes: &[u8])
        requires room { length self.old.items < 8 }
        requires few { length bytes.now ≤ 2048 }
        ensures { self.new.items ≡ self.old.items ++ line.ToHost lane (record { items = bytes.now }) ∷ [] }
    {
        self.push(Head::ToHost { lane }, bytes);
    }

    /// The host's reply.
    pub fn from_host(&mut self, lane: u8, bytes: &[u8])
        requires room { length self.old.items < 8 }
        requires few { length bytes.now ≤ 2048 }
        ensures { self.new.items ≡ self.old.items ++ line.FromHost lane (record { items = bytes.now }) ∷ [] }
    {
        self.push(Head::FromHost { lane }, bytes);
    }

    /// No reply came.
    pub fn no_reply(&mut self, lane: u8)
        requires { length self.old.items < 8 }
        ensures { self.new.items ≡ self.old.items ++ line.NoReply lane ∷ [] }
    {
        self.push(Head::NoReply { lane }, &[]);
    }

    /// The lane's purchase of this number, from 1, has ended.
    pub fn end(&mut self, lane: u8, number: u32, parts: EndParts)
        requires { length self.old.items < 8 }
        ensures { self.new.items ≡ self.old.items ++ line.End lane number parts ∷ [] }
    {
        self.push(
            Head::End {
                lane,
                number,
                parts,
            },
            &[],
        );
    }

    /// The lane's purchase of this number, from 1, was lost: the power of its terminal was cut before its
    /// outcome was stored.
    pub fn end_lost(&mut self, lane: u8, number: u32)
        requires { length self.old.items < 8 }
        ensures { self.new.items ≡ self.old.items ++ line.EndLost lane number ∷ [] }
    {
        self.push(Head::EndLost { lane, number }, &[]);
    }

    /// A settlement message of a lane.
    pub fn settle_call(&mut self, lane: u8, bytes: &[u8])
        requires room { length self.old.items < 8 }
        requires few { length bytes.now ≤ 2048 }
        ensures { self.new.items ≡ self.old.items ++ line.SettleCall lane (record { items = bytes.now }) ∷ [] }
    {
        self.push(Head::SettleCall { lane }, bytes);
    }

    /// The host's reply to it.
    pub fn settle_reply(&mut self, lane: u8, bytes: &[u8])
        requires room { length self.old.items < 8 }
        requires few { length bytes.now ≤ 2048 }
        ensures { self.new.items ≡ self.old.items ++ line.SettleReply lane (record { items = bytes.now }) ∷ [] }
    {
        self.push(Head::SettleReply { lane }, bytes);
    }

    /// A card is powered up for the audit.
    pub fn audit_power(&mut self, card: ArrayVec<u8, 16>, apps: ArrayVec<Shown, 4>)
        requires { length self.old.items < 8 }
        ensures { self.new.items ≡ self.old.items ++ line.AuditPower card apps ∷ [] }
    {
        self.push(Head::AuditPower { card, apps }, &[]);
    }

    /// A command of the audit.
    pub fn audit_ask(&mut self, card: ArrayVec<u8, 16>, bytes: &[u8])
        requires room { length self.old.items < 8 }
        requires few { length bytes.now ≤ 261 }
        ensures { self.new.items ≡ self.old.items ++ line.AuditAsk card (record { items = bytes.now }) ∷ [] }
    {
        self.push(Head::AuditAsk { card }, bytes);
    }

    /// Its response.
    pub fn audit_answer(&mut self, card: ArrayVec<u8, 16>, bytes: &[u8])
        requires room { length self.old.items < 8 }
        requires few { length bytes.now ≤ 258 }
        ensures { self.new.items ≡ self.old.items ++ line.AuditAnswer card (record { items = bytes.now }) ∷ [] }
    {
        self.push(Head::AuditAnswer { card }, bytes);
    }

    fn push(&mut self, head: Head, bytes: &[u8])
        requires room { length self.old.items < 8 }
        requires few { length bytes.now ≤ 2048 }
        ensures { self.new.items ≡ self.old.items ++ line_at head bytes.now ∷ [] }
    {
        append(&mut self.bytes, bytes);
        self.places.push(LinePlace {
            head,
            count: bytes.len() as u16,
        });
    }
}

/// A line where it stands. Contracts see the line.
#[derive(Drop)]
pub struct LineAt<'a> {
    pub(crate) head: &'a Head,
    pub(crate) bytes: &'a [u8],
}

impl<'a> Model for LineAt<'a> {
    ghost use Rattle.std.specs.Prelude.{◌≤◌, length};
    ghost use Rattle.report_text.specs.declared.line.Line.{Line};
    ghost use Rattle.report_text.specs.Packed.{line_at};

    ghost Value = { Line };

    ghost view = { λ line. line_at line.head.now line.bytes.now };

    ghost invariant = { λ line. length line.bytes.now ≤ 2048 };
}

impl<'a> LineAt<'a> {
    /// Whether the line says how a purchase ended, or that it was lost.
    pub fn is_end(&self) -> bool
        ensures { result ≡ is_end_line self.now }
    {
        match self.head {
            Head::End { .. } | Head::EndLost { .. } => true,
            _ => false,
        }
    }
}

/// Lines that are left to be read. Contracts see them as a list.
#[derive(Drop)]
pub struct LinesLeft<'a> {
    places: &'a [LinePlace],
    bytes: &'a [u8],
}

impl<'a> Model for LinesLeft<'a> {
    ghost use Rattle.std.specs.Prelude.{List};
    ghost use Rattle.report_text.specs.declared.line.Line.{Line};
    ghost use Rattle.report_text.specs.Packed.{lines_at, IsFilled};

    ghost Value = { List Line };

    ghost view = { λ left. lines_at left.places.now left.bytes.now };

    ghost invariant = { λ left. IsFilled left.places.now left.bytes.now };
}

impl<'a> LinesLeft<'a> {
    /// The first line that is left, which is then read.
    pub fn next(&mut self) -> Option<LineAt<'a>>
        ensures { MatchOption result (self.old ≡ []) (λ line. self.old ≡ line ∷ self.new) }
    {
        match self.places {
            [] => None,
            [place, behind @ ..] => {
                let (bytes, rest) = self.bytes.split_at(usize::from(place.count));
                self.places = behind;
                self.bytes = rest;
                Some(LineAt {
                    head: &place.head,
                    bytes,
                })
            }
        }
    }
}
