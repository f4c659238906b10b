//! The command GENERATE AC (EMV 4.3 Book 3 section 6.5.5).
ghost use Rattle.std.specs.Prelude.{◌≡◌, ◌≤◌, ◌⊎◌, Some, None, length, MatchBool};
ghost use Rattle.online_step.specs.Generate.{generate_command, list_data};

use apdu_core::{Command, Out, write_command};
use arrayvec::ArrayVec;
use ber_tlv::Tag;
use emv_dict::Kind;
use env_map::Env;
use object_lists::{CardData, fill, read_dol};

/// The most bytes that an object list is read from.
const LONGEST_LIST: usize = 255;

/// Fills the card's object list of this tag, CDOL1 (8C) or CDOL2 (8D), from the card's objects and the
/// terminal's, in place of what `out` held. `false` comes exactly where the list wants more than 252 bytes
/// (EMV 4.3 Book 3 sections 5.4, 10.8 and 10.11).
#[tactic(auto, unfolding(crate::specs::Generate::list_data))]
pub fn fill_list(tag: Tag, card: &CardData, terminal: &Env, out: &mut ArrayVec<u8, 252>) -> bool
    requires { (tag.0 ≡ 0x8C) ⊎ (tag.0 ≡ 0x8D) }
    ensures { MatchBool result
        (list_data tag.0 card.now terminal.now ≡ Some out.new.items)
        (list_data tag.0 card.now terminal.now ≡ None) }
{
    let Some(list) = card.value(tag) else {
        return false;
    };
    if list.len() > LONGEST_LIST {
        return false;
    }
    let Ok(dol) = read_dol(list) else {
        return false;
    };
    fill(&dol, card.env(), terminal, out).is_ok()
}

/// Writes GENERATE AC that asks for this kind with the data of an object list, in place of what `out` held
/// (EMV 4.3 Book 3 section 6.5.5.2).
#[tactic(auto, unfolding(crate::specs::Generate::generate_command))]
pub fn write_generate(asked: Kind, filled: &[u8], out: &mut Out)
    requires { length filled.now ≤ 252 }
    ensures { out.new.items ≡ generate_command asked filled.now }
{
    let command = Command {
        class: 0x80,
        ins: 0xae,
        p1: asked.byte(),
        p2: 0x00,
        body: filled,
        expects: Some(0),
    };
    write_command(&command, out);
}
