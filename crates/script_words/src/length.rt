//! How long a script gets.
ghost use Rattle.std.specs.Prelude.{◌≡◌, ◌≤◌, length};
ghost use Rattle.script_words.specs.MadeLength.{made_length as made_spec, order_length as order_spec, identifier_length as identifier_spec, template_tag as tag_spec, data_length as data_spec};

use crate::script::{Ordered, Script, Word};
use ber_tlv::{Tag, written_length};

/// How many bytes the script takes in the issuer's reply: its template with tag and length, which
/// holds the identifier, where there is one, and a data object 86 for each command, with its message
/// authentication code of eight bytes (EMV 4.3 Book 3 section 10.10). A script has at most 16 commands.
#[tactic(auto, unfolding(crate::specs::MadeLength::made_length))]
pub fn made_length(script: &Script) -> usize
    requires { length script.now.commands ≤ 16 }
    ensures { result ≡ made_spec script.now }
{
    let mut content = identifier_length(&script.id);
    for order in &script.commands {
        content += order_length(order);
    }
    written_length(template_tag(script.before), content)
}

#[tactic(auto, unfolding(crate::specs::MadeLength::order_length))]
fn order_length(order: &Ordered) -> usize
    ensures exact { result ≡ order_spec order.now }
    ensures short { result ≤ 23 }
{
    written_length(Tag(0x86), 5 + data_length(&order.word) + 8)
}

/// The bytes of data before the message authentication code.
fn data_length(word: &Word) -> usize
    ensures exact { result ≡ data_spec word.now }
    ensures short { result ≤ 8 }
{
    match word {
        Word::Block | Word::Unblock | Word::CardBlock | Word::PinUnblock => 0,
        Word::Pin(_) => 8,
        Word::Count(_) => 1,
        Word::Amount(_) => 6,
    }
}

fn identifier_length(id: &Option<[u8; 4]>) -> usize
    ensures exact { result ≡ identifier_spec id.now }
    ensures short { result ≤ 7 }
{
    match id {
        Some(id) => written_length(Tag(0x9F18), id.len()),
        None => 0,
    }
}

fn template_tag(before: bool) -> Tag
    ensures { result.0 ≡ tag_spec before }
{
    if before { Tag(0x71) } else { Tag(0x72) }
}
