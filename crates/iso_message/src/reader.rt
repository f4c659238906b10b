//! What is left of a message that is read.
ghost use Rattle.std.specs.Prelude.{◌≡◌, ◌≤◌, length, true, Ok, Err, MatchResult, IfOk};
ghost use Rattle.iso_message.specs.Left.{part_from as taken_from, part_at, digits_part_at, counted_at, bits_at, items_at, nothing_left};
ghost use Rattle.iso_message.specs.Reading.{unread_message};
ghost use Rattle.iso_message.specs.Text.{are_numerals as all_numerals};

use crate::digits::{are_numerals, number};
use crate::fault::IsoFault;
use crate::written::as_written;
use auth_message::Fields;
use std::marker::Model;

/// The bytes that are left to read. Contracts see them with the place of the first one in the message.
#[derive(Drop)]
pub struct Reader<'a> {
    place: usize,
    left: &'a [u8],
}

impl<'a> Model for Reader<'a> {
    ghost use Rattle.std.specs.Prelude.{◌+◌, ◌<◌, ◌^◌, length};
    ghost use Rattle.iso_message.specs.Left.{Left};

    ghost Value = { Left };

    ghost view = { λ r. record { place = r.place; bytes = r.left.now } };

    ghost invariant = { λ r. r.place + length r.left.now < 2 ^ 64 };
}

impl<'a> Reader<'a> {
    /// A message of which nothing was read.
    pub fn new(bytes: &'a [u8]) -> Reader<'a>
        ensures { result ≡ unread_message bytes.now }
    {
        Reader {
            place: 0,
            left: bytes,
        }
    }

    /// The next bytes, so many, of a part that begins at a place.
    #[tactic(auto, unfolding(crate::specs::Left::part_from))]
    fn part_from(&mut self, start: usize, count: usize) -> Result<&'a [u8], IsoFault>
        ensures value { MatchResult result (λ v. taken_from start count self.old ≡ Ok (v.now, self.new)) (λ fault. taken_from start count self.old ≡ Err fault) }
        ensures sized { IfOk result (λ v. length v.now ≡ count) }
    {
        if count > self.left.len() {
            return Err(IsoFault::Short(start));
        }
        let part = &self.left[..count];
        self.left = &self.left[count..];
        self.place += count;
        Ok(part)
    }

    /// The next `N` bytes.
    pub fn array<const N: usize>(&mut self) -> Result<[u8; N], IsoFault>
        ensures { MatchResult result (λ v. part_at N self.old ≡ Ok (v, self.new)) (λ fault. part_at N self.old ≡ Err fault) }
    {
        let part = self.part_from(self.place, N)?;
        let mut bytes = [0; N];
        bytes.copy_from_slice(part);
        Ok(bytes)
    }

    /// The characters of `N` digits of a field.
    #[tactic(auto, unfolding(crate::specs::Left::digits_part_at))]
    pub fn digits<const N: usize>(&mut self, field: u8) -> Result<[u8; N], IsoFault>
        ensures value { MatchResult result (λ v. digits_part_at field N self.old ≡ Ok (v, self.new)) (λ fault. digits_part_at field N self.old ≡ Err fault) }
        ensures numerals { IfOk result (λ v. all_numerals v ≡ true) }
    {
        let part = self.array()?;
        if !are_numerals(&part) {
            return Err(IsoFault::Field(field));
        }
        Ok(part)
    }

    /// A field's content behind its length of `N` digits. The bytes that end within it are `Short` at the
    /// field's own place, also where a digit of the content is none.
    #[tactic(auto, unfolding(crate::specs::Left::counted_at))]
    pub fn counted<const N: usize>(&mut self, field: u8) -> Result<&'a [u8], IsoFault>
        requires { N ≤ 4 }
        ensures value { MatchResult result (λ v. counted_at field N self.old ≡ Ok (v.now, self.new)) (λ fault. counted_at field N self.old ≡ Err fault) }
        ensures short { IfOk result (λ v. length v.now ≤ 9999) }
    {
        let start = self.place;
        let size: [u8; N] = self.digits(field)?;
        self.part_from(start, number(&size))
    }

    /// The bitmap, which has to be this one.
    #[tactic(auto, unfolding(crate::specs::Left::bits_at))]
    pub fn bits(&mut self, bits: [u8; 8]) -> Result<(), IsoFault>
        ensures { MatchResult result (λ _. bits_at bits self.old ≡ Ok self.new) (λ fault. bits_at bits self.old ≡ Err fault) }
    {
        let part: [u8; 8] = self.array()?;
        if part != bits {
            return Err(IsoFault::Bitmap);
        }
        Ok(())
    }

    /// Field 55: its items, each spelled as it is written.
    #[tactic(auto, unfolding(crate::specs::Left::items_at))]
    pub fn items(&mut self) -> Result<Fields<'a>, IsoFault>
        ensures { MatchResult result (λ v. items_at self.old ≡ Ok ((v.bytes, v.left), self.new)) (λ fault. items_at self.old ≡ Err fault) }
    {
        let content = self.counted::<4>(55)?;
        as_written(content)
    }

    /// That nothing is left.
    pub fn end(&self) -> Result<(), IsoFault>
        ensures { result ≡ nothing_left self.now }
    {
        if self.left.is_empty() {
            Ok(())
        } else {
            Err(IsoFault::Rest(self.place))
        }
    }
}
