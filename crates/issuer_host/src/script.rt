//! Making an account's scripts for one transaction.
ghost use Rattle.std.specs.Prelude.{◌≡◌, ◌+◌, ◌≤◌, ◌++◌, length, IsTrue, flat_map, sum_by};
ghost use Rattle.std.specs.List.{All};
ghost use Rattle.ber_tlv.specs.Tag.{is_readable};
ghost use Rattle.ber_tlv.specs.Written.{written, written_length};
ghost use Rattle.emv_dict.specs.Digits.{HasPinLength};
ghost use Rattle.pin_block.specs.Block.{block_of};
ghost use Rattle.triple_des.specs.TripleDes.{tdes};
ghost use Rattle.script_words.specs.MadeLength.{made_length, all_made_length, identifier_length, order_length, data_length, template_tag as tag_spec};
ghost use Rattle.script_words.specs.Script.{IsScript};
ghost use Rattle.script_words.specs.Spelling.{IsWord};
ghost use Rattle.issuer_host.specs.Scripts.{script_header, script_command_data, mac_bytes, script_command_bytes, order_bytes, identifier_bytes, script_bytes, all_script_bytes};

use app_cryptogram::script_mac;
use arrayvec::ArrayVec;
use ber_tlv::{Tag, append, write_item};
use emv_dict::{Digits, amount_bytes};
use pin_block::plain_block;
use script_words::{Ordered, Script, Word};
use triple_des::{Key16, xor_blocks};

/// The bytes of an account's scripts together.
pub type ScriptBytes = ArrayVec<u8, 1024>;

/// What the scripts of one transaction are made under (EMV 4.3 Book 2 section 9).
#[derive(Drop)]
pub struct ScriptKeys {
    /// The session key of the message authentication codes.
    pub mac: Key16,
    /// The session key of enciphered data.
    pub enc: Key16,
    /// The transaction's counter.
    pub counter: u16,
    /// The first application cryptogram of the transaction.
    pub cryptogram: [u8; 8],
}

/// Appends the scripts in their order, each a template 71 or 72 (EMV 4.3 Book 3 section 10.10).
pub fn write_scripts(keys: &ScriptKeys, scripts: &[Script], out: &mut ScriptBytes)
    requires whole { All IsScript scripts.now }
    requires room { length out.old.items + all_made_length scripts.now ≤ 1024 }
    ensures bytes { out.new.items ≡ out.old.items ++ all_script_bytes keys.now scripts.now }
    ensures sized { length out.new.items ≡ length out.old.items + all_made_length scripts.now }
{
    for script in scripts {
        write_script(keys, script, out);
    }
}

/// Appends a script.
#[tactic(auto, unfolding(crate::specs::Scripts::script_bytes, script_words::specs::MadeLength::made_length))]
fn write_script(keys: &ScriptKeys, script: &Script, out: &mut ScriptBytes)
    requires whole { IsScript script.now }
    requires room { length out.old.items + made_length script.now ≤ 1024 }
    ensures bytes { out.new.items ≡ out.old.items ++ script_bytes keys.now script.now }
    ensures sized { length out.new.items ≡ length out.old.items + made_length script.now }
{
    let mut content = ScriptBytes::new();
    write_identifier(&script.id, &mut content);
    write_orders(keys, &script.commands, &mut content);
    put(template_tag(script.before), &content, out);
}

/// Appends the identifier, if there is one.
fn write_identifier(id: &Option<[u8; 4]>, out: &mut ScriptBytes)
    requires { length out.old.items ≤ 100 }
    ensures bytes { out.new.items ≡ out.old.items ++ identifier_bytes id.now }
    ensures sized { length out.new.items ≡ length out.old.items + identifier_length id.now }
{
    if let Some(id) = id {
        put(Tag(0x9F18), id, out);
    }
}

/// Appends the commands, each as a data object 86.
fn write_orders(keys: &ScriptKeys, orders: &[Ordered], out: &mut ScriptBytes)
    requires words { All (λ order. IsWord order.word) orders.now }
    requires few { length orders.now ≤ 16 }
    requires room { length out.old.items ≤ 7 }
    ensures bytes { out.new.items ≡ out.old.items ++ flat_map (order_bytes keys.now) orders.now }
    ensures sized { length out.new.items ≡ length out.old.items + sum_by order_length orders.now }
{
    for order in orders {
        write_order(keys, order, out);
    }
}

/// Appends a command as a data object 86.
#[tactic(auto, unfolding(crate::specs::Scripts::order_bytes, script_words::specs::MadeLength::order_length))]
fn write_order(keys: &ScriptKeys, order: &Ordered, out: &mut ScriptBytes)
    requires word { IsWord order.now.word }
    requires room { length out.old.items ≤ 1000 }
    ensures bytes { out.new.items ≡ out.old.items ++ order_bytes keys.now order.now }
    ensures sized { length out.new.items ≡ length out.old.items + order_length order.now }
    ensures short { length out.new.items ≤ length out.old.items + 23 }
{
    put(Tag(0x86), &command(keys, order), out);
}

/// A command: its header, the length of its data with the message authentication code, and both.
fn command(keys: &ScriptKeys, order: &Ordered) -> ArrayVec<u8, 21>
    requires { IsWord order.now.word }
    ensures bytes { result.items ≡ script_command_bytes keys.now order.now }
    ensures sized { length result.items ≡ 5 + data_length order.now.word + 8 }
{
    let header = header(&order.word);
    let payload = payload(keys, &order.word);
    let code = script_mac(&keys.mac, header, keys.counter, keys.cryptogram, &payload);
    let mut bytes = ArrayVec::new();
    append(&mut bytes, &header);
    append(&mut bytes, &[payload.len() as u8 + 8]);
    append(&mut bytes, &payload);
    append(&mut bytes, &marked(order.bad, code));
    bytes
}

/// The code, its last byte made wrong on purpose where it has to be.
fn marked(bad: bool, code: [u8; 8]) -> [u8; 8]
    ensures { result ≡ mac_bytes bad code }
{
    if bad {
        xor_blocks(code, [0, 0, 0, 0, 0, 0, 0, 0xFF])
    } else {
        code
    }
}

/// Class, instruction, P1 and P2 of a command (EMV 4.3 Book 3 section 6.5).
fn header(word: &Word) -> [u8; 4]
    ensures { result ≡ script_header word.now }
{
    match word {
        Word::Block => [0x84, 0x1E, 0x00, 0x00],
        Word::Unblock => [0x84, 0x18, 0x00, 0x00],
        Word::CardBlock => [0x84, 0x16, 0x00, 0x00],
        Word::PinUnblock => [0x84, 0x24, 0x00, 0x00],
        Word::Pin(_) => [0x84, 0x24, 0x00, 0x02],
        Word::Count(_) => [0x04, 0xDA, 0xDF, 0x01],
        Word::Amount(_) => [0x04, 0xDA, 0xDF, 0x02],
    }
}

/// The data of a command before the message authentication code.
fn payload(keys: &ScriptKeys, word: &Word) -> ArrayVec<u8, 8>
    requires { IsWord word.now }
    ensures bytes { result.items ≡ script_command_data keys.now word.now }
    ensures sized { length result.items ≡ data_length word.now }
    ensures short { data_length word.now ≤ 8 }
{
    let mut bytes = ArrayVec::new();
    match word {
        Word::Block | Word::Unblock | Word::CardBlock | Word::PinUnblock => {}
        Word::Pin(pin) => append(&mut bytes, &new_pin(&keys.enc, pin)),
        Word::Count(limit) => append(&mut bytes, &[*limit]),
        Word::Amount(limit) => append(&mut bytes, &amount_bytes(*limit)),
    }
    bytes
}

/// The enciphered block of a card's new PIN.
fn new_pin(session: &Key16, pin: &Digits) -> [u8; 8]
    requires { HasPinLength pin.now }
    ensures { result ≡ tdes session.now (block_of 2 pin.now) }
{
    session.encipher(plain_block(pin))
}

fn template_tag(before: bool) -> Tag
    ensures { result.0 ≡ tag_spec before }
{
    if before { Tag(0x71) } else { Tag(0x72) }
}

/// Appends a data object for which there is room.
#[tactic(auto, using(crate::proofs::Sizes::written_size))]
fn put(tag: Tag, value: &[u8], out: &mut ScriptBytes)
    requires readable { IsTrue (is_readable tag.0) }
    requires room { length out.old.items + written_length tag.0 (length value.now) ≤ 1024 }
    ensures bytes { out.new.items ≡ out.old.items ++ written tag.0 value.now }
    ensures sized { length out.new.items ≡ length out.old.items + written_length tag.0 (length value.now) }
{
    if write_item(out, tag, value).is_err() {
        unreachable!();
    }
}
