ghost use Rattle.std.specs.Prelude.{◌≡◌, ◌≤◌, ◌==◌, ◌||◌, None, take, length, option_map, Ok, Err, MatchResult, IfSome, IfOk, slice_range, true};
ghost use Rattle.ber_tlv.specs.Item.{item_at};
ghost use Rattle.ber_tlv.specs.Left.{items_behind, fault_of};
ghost use Rattle.ber_tlv.specs.Seen.{then_rest, seen};
ghost use Rattle.auth_message.specs.Accepted.{AreDigitBytes};
ghost use Rattle.auth_message.specs.Fields.{field_given, behind_field, required_field as wanted_at, fixed_at, some_at, pan_at, fixed_if_there, no_item_left};
ghost use Rattle.auth_message.specs.Reply.{auth_at, scripts_in_items, leading_templates, behind_templates};
ghost use Rattle.auth_message.specs.Script.{next_script, behind_script, end_of_few};

use crate::fault::MessageFault;
use crate::field::{fixed_value, pan_value, some_value};
use ber_tlv::{Cursor, Item, Tag};
use emv_dict::Digits;
use std::marker::Model;

/// The most scripts of a reply.
const MOST_SCRIPTS: usize = 8;

/// The most bytes of all scripts of a reply, from the first one's start to the last one's end.
const MOST_SCRIPT_BYTES: usize = 1024;

/// The fields of a message that are left to read, the first one read ahead. Contracts see the bytes of the
/// message and the list of the fields' items.
#[derive(Drop)]
pub struct Fields<'a> {
    message: &'a [u8],
    cursor: Cursor<'a>,
    ahead: Option<Item<'a>>,
}

impl<'a> Model for Fields<'a> {
    ghost use Rattle.std.specs.Prelude.{◌≡◌, take, length, None, Ok, IfSome};
    ghost use Rattle.ber_tlv.specs.Item.{item_at};
    ghost use Rattle.ber_tlv.specs.Left.{items_behind, fault_of};
    ghost use Rattle.ber_tlv.specs.Seen.{then_rest, seen};
    ghost use Rattle.auth_message.specs.Left.{FieldsData, items_or_none};

    ghost Value = { FieldsData };

    ghost view = { λ f. record {
      bytes = f.message.now;
      left = items_or_none (then_rest (Ok f.ahead) (items_behind f.cursor.bytes f.cursor.place));
    } };

    ghost invariant = { λ f. (fault_of (then_rest (Ok f.ahead) (items_behind f.cursor.bytes f.cursor.place)) ≡ None)
        × (f.cursor.bytes ≡ take (length f.cursor.bytes) f.message.now)
        × IfSome f.ahead (λ item. item_at f.cursor.bytes item.start ≡ Ok (seen item, f.cursor.place)) };
}

impl<'a> Fields<'a> {
    /// The fields of a message from the cursor's place on, where all of them are data objects. The cursor
    /// goes through the first bytes of the message.
    pub fn new(message: &'a [u8], mut cursor: Cursor<'a>) -> Fields<'a>
        requires items { fault_of (items_behind cursor.bytes cursor.place) ≡ None }
        requires front { cursor.bytes ≡ take (length cursor.bytes) message.now }
        ensures items { items_behind cursor.entry.bytes cursor.entry.place ≡ Ok result.left }
        ensures bytes { result.bytes ≡ message.now }
    {
        let ahead = next_item(&mut cursor);
        Fields {
            message,
            cursor,
            ahead,
        }
    }

    /// The value of the next item where it has this tag, which is then taken.
    pub fn take(&mut self, tag: u32) -> Option<&'a [u8]>
        ensures value { option_map (λ v. v.now) result ≡ field_given tag self.old.left }
        ensures rest { self.new.left ≡ behind_field tag self.old.left }
        ensures bytes { self.new.bytes ≡ self.old.bytes }
    {
        let ahead = self.ahead;
        match ahead {
            Some(item) if item.tag == Tag(tag) => {
                self.ahead = next_item(&mut self.cursor);
                Some(item.value)
            }
            _ => None,
        }
    }

    /// The value of a field that has to be there.
    #[tactic(auto, unfolding(crate::specs::Fields::required_field))]
    fn wanted(&mut self, tag: u32) -> Result<&'a [u8], MessageFault>
        ensures value { MatchResult result (λ v. wanted_at tag self.old.left ≡ Ok (v.now, self.new.left)) (λ fault. wanted_at tag self.old.left ≡ Err fault) }
        ensures bytes { self.new.bytes ≡ self.old.bytes }
    {
        match self.take(tag) {
            Some(value) => Ok(value),
            None => Err(MessageFault::Missing(Tag(tag))),
        }
    }

    /// A field of `N` bytes, which are decimal digits where it is `numeric`.
    #[tactic(auto, unfolding(crate::specs::Fields::fixed_at))]
    pub fn fixed<const N: usize>(
        &mut self,
        tag: u32,
        numeric: bool,
    ) -> Result<[u8; N], MessageFault>
        ensures value { MatchResult result (λ v. fixed_at N numeric tag self.old.left ≡ Ok (v, self.new.left)) (λ fault. fixed_at N numeric tag self.old.left ≡ Err fault) }
        ensures digits { IfOk result (λ v. numeric ≡ true → AreDigitBytes v) }
        ensures bytes { self.new.bytes ≡ self.old.bytes }
    {
        let value = self.wanted(tag)?;
        let bytes = fixed_value(tag, numeric, value)?;
        Ok(bytes)
    }

    /// A field of `least` to `most` bytes.
    #[tactic(auto, unfolding(crate::specs::Fields::some_at))]
    pub fn some(&mut self, tag: u32, least: usize, most: usize) -> Result<&'a [u8], MessageFault>
        ensures { MatchResult result (λ v. some_at least most tag self.old.left ≡ Ok (v.now, self.new.left)) (λ fault. some_at least most tag self.old.left ≡ Err fault) }
    {
        let value = self.wanted(tag)?;
        let bytes = some_value(tag, least, most, value)?;
        Ok(bytes)
    }

    /// The account number.
    #[tactic(auto, unfolding(crate::specs::Fields::pan_at))]
    pub fn pan(&mut self) -> Result<Digits, MessageFault>
        ensures { MatchResult result (λ v. pan_at self.old.left ≡ Ok (v, self.new.left)) (λ fault. pan_at self.old.left ≡ Err fault) }
    {
        let value = self.wanted(0x5A)?;
        let digits = pan_value(value)?;
        Ok(digits)
    }

    /// A field of `N` bytes that may be absent.
    #[tactic(auto, unfolding(crate::specs::Fields::fixed_if_there))]
    pub fn fixed_if_there<const N: usize>(
        &mut self,
        tag: u32,
        numeric: bool,
    ) -> Result<Option<[u8; N]>, MessageFault>
        ensures { MatchResult result (λ v. fixed_if_there N numeric tag self.old.left ≡ Ok (v, self.new.left)) (λ fault. fixed_if_there N numeric tag self.old.left ≡ Err fault) }
    {
        match self.take(tag) {
            Some(value) => {
                let bytes = fixed_value(tag, numeric, value)?;
                Ok(Some(bytes))
            }
            None => Ok(None),
        }
    }

    /// The issuer authentication data, if it is there.
    #[tactic(auto, unfolding(crate::specs::Reply::auth_at))]
    pub fn auth(&mut self) -> Result<Option<&'a [u8]>, MessageFault>
        ensures value { MatchResult result (λ v. auth_at self.old.left ≡ Ok (option_map (λ b. b.now) v, self.new.left)) (λ fault. auth_at self.old.left ≡ Err fault) }
        ensures sized { IfOk result (λ v. IfSome v (λ b. (8 ≤ length b.now) × (length b.now ≤ 16))) }
        ensures bytes { self.new.bytes ≡ self.old.bytes }
    {
        let Some(value) = self.take(0x91) else {
            return Ok(None);
        };
        let bytes = some_value(0x91, 8, 16, value)?;
        Ok(Some(bytes))
    }

    /// The bytes of the scripts that come next, from the first one's start to the last one's end: at most
    /// 8 scripts of at most 1,024 bytes together.
    pub fn scripts(&mut self) -> Result<&'a [u8], MessageFault>
        ensures value { MatchResult result (λ v. scripts_in_items self.old.bytes self.old.left ≡ Ok (v.now, self.new.left)) (λ fault. scripts_in_items self.old.bytes self.old.left ≡ Err fault) }
        ensures short { IfOk result (λ v. length v.now ≤ 1024) }
    {
        let too_many = MessageFault::Value(Tag(0x71));
        let Some((start, end)) = self.script() else {
            return Ok(&[]);
        };
        let Some(end) = self.scripts_end(end, MOST_SCRIPTS - 1) else {
            return Err(too_many);
        };
        let scripts = between(self.message, start, end);
        if scripts.len() > MOST_SCRIPT_BYTES {
            return Err(too_many);
        }
        Ok(scripts)
    }

    /// The place behind the last of the scripts that come next, or `end` where there is none; `None` where
    /// there are more than `most`.
    fn scripts_end(&mut self, end: usize, most: usize) -> Option<usize>
        requires { end ≤ length self.old.bytes }
        ensures value { result ≡ end_of_few most self.old.bytes end (leading_templates self.old.left) }
        ensures rest { IfSome result (λ _. self.new.left ≡ behind_templates self.old.left) }
        ensures within { IfSome result (λ place. place ≤ length self.old.bytes) }
        ensures bytes { self.new.bytes ≡ self.old.bytes }
    {
        match self.script() {
            Some((_, next)) => {
                if most == 0 {
                    return None;
                }
                self.scripts_end(next, most - 1)
            }
            None => Some(end),
        }
    }

    /// The places of the next item's first byte and behind its last one, where it is a script, which is
    /// then taken.
    fn script(&mut self) -> Option<(usize, usize)>
        ensures value { result ≡ next_script self.old.bytes self.old.left }
        ensures rest { self.new.left ≡ behind_script self.old.left }
        ensures within { IfSome result (λ places. places.1 ≤ length self.old.bytes) }
        ensures bytes { self.new.bytes ≡ self.old.bytes }
    {
        let end = self.cursor.place();
        let ahead = self.ahead;
        match ahead {
            Some(item) if is_template(item.tag) => {
                self.ahead = next_item(&mut self.cursor);
                Some((item.start, end))
            }
            _ => None,
        }
    }

    /// That no field is left.
    pub fn end(&self) -> Result<(), MessageFault>
        ensures { result ≡ no_item_left self.now.left }
    {
        match self.ahead {
            Some(item) => Err(MessageFault::Coding(item.start)),
            None => Ok(()),
        }
    }
}

/// The bytes from one place to another, none where that is before it.
fn between(bytes: &[u8], from: usize, to: usize) -> &[u8]
    requires { to ≤ length bytes.now }
    ensures { result.now ≡ slice_range bytes.now from to }
{
    if from <= to { &bytes[from..to] } else { &[] }
}

/// Whether the tag is that of a script: before the second GENERATE AC (71) or behind it (72) (EMV 4.3 Book
/// 3 section 10.10).
fn is_template(tag: Tag) -> bool
    ensures { result ≡ (tag.0 == 0x71 || tag.0 == 0x72) }
{
    tag == Tag(0x71) || tag == Tag(0x72)
}

/// The item behind the ones that were read, where all that are left are data objects.
fn next_item<'a>(cursor: &mut Cursor<'a>) -> Option<Item<'a>>
    requires { fault_of (items_behind cursor.old.bytes cursor.old.place) ≡ None }
    ensures left { then_rest (Ok result) (items_behind cursor.new.bytes cursor.new.place) ≡ items_behind cursor.old.bytes cursor.old.place }
    ensures stands { IfSome result (λ item. item_at cursor.new.bytes item.start ≡ Ok (seen item, cursor.new.place)) }
    ensures bytes { cursor.new.bytes ≡ cursor.old.bytes }
{
    match cursor.next() {
        Ok(item) => item,
        Err(_) => unreachable!(),
    }
}
