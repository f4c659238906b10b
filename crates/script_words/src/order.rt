//! The grammar of the words that order a script command.
ghost use Rattle.std.specs.Prelude.{◌≡◌, codes, Some, IfSome};
ghost use Rattle.std.specs.Option.{option_map};
ghost use Rattle.std.specs.Str.{bytes_eq};
ghost use Rattle.script_words.specs.OrderWords.{behind as behind_spec, before as before_spec, pin_word as pin_spec, count_word as count_spec, amount_word as amount_spec, word_with_argument, word_of, order_of};
ghost use Rattle.script_words.specs.Spelling.{IsWord, order_text};
ghost use Rattle.script_words.specs.declared.script.Ordered.{Ordered as Order};

use crate::numeral::{read_numeral, read_pin};
use crate::script::{Ordered, Word};

/// The script command that a text of ASCII orders: `block`, `unblock`, `card_block`, `pin_unblock`,
/// `pin D` with 4 to 12 decimal digits, `count N` with a number up to 255, or `amount N` with a
/// number up to 999999999999, numbers in decimal without leading zeros, each alone or with ` bad`
/// behind it, and one space between words. `None` for any other text.
pub fn read_order(text: &[u8]) -> Option<Ordered>
    ensures exact { result ≡ order_of text.now }
    // What was read stands in the text, and what stands in a text is read.
    ensures spelled { IfSome result (λ order. order_text order ≡ text.now) }
    ensures known { (order : Order) → IsWord order.word → order_text order ≡ text.now → result ≡ Some order }
    ensures proper { IfSome result (λ order. IsWord order.word) }
{
    ordered(text)
}

#[tactic(auto, unfolding(crate::specs::OrderWords::order_of))]
fn ordered(text: &[u8]) -> Option<Ordered>
    ensures { result ≡ order_of text.now }
{
    match before(text, " bad") {
        Some(front) => Some(Ordered {
            word: read_word(front)?,
            bad: true,
        }),
        None => Some(Ordered {
            word: read_word(text)?,
            bad: false,
        }),
    }
}

#[tactic(auto, unfolding(crate::specs::OrderWords::word_of))]
fn read_word(text: &[u8]) -> Option<Word>
    ensures { result ≡ word_of text.now }
{
    if is_word(text, "block") {
        Some(Word::Block)
    } else if is_word(text, "unblock") {
        Some(Word::Unblock)
    } else if is_word(text, "card_block") {
        Some(Word::CardBlock)
    } else if is_word(text, "pin_unblock") {
        Some(Word::PinUnblock)
    } else {
        read_with_argument(text)
    }
}

#[tactic(auto, unfolding(crate::specs::OrderWords::word_with_argument))]
fn read_with_argument(text: &[u8]) -> Option<Word>
    ensures { result ≡ word_with_argument text.now }
{
    if let Some(digits) = behind(text, "pin ") {
        return pin_word(digits);
    }
    if let Some(number) = behind(text, "count ") {
        return count_word(number);
    }
    if let Some(number) = behind(text, "amount ") {
        return amount_word(number);
    }
    None
}

fn pin_word(text: &[u8]) -> Option<Word>
    ensures { result ≡ pin_spec text.now }
{
    Some(Word::Pin(read_pin(text)?))
}

fn count_word(text: &[u8]) -> Option<Word>
    ensures { result ≡ count_spec text.now }
{
    Some(Word::Count(read_numeral(text, 255)? as u8))
}

fn amount_word(text: &[u8]) -> Option<Word>
    ensures { result ≡ amount_spec text.now }
{
    Some(Word::Amount(read_numeral(text, 999_999_999_999)?))
}

fn is_word(text: &[u8], word: &str) -> bool
    ensures { result ≡ bytes_eq text.now word.now }
{
    text == word.as_bytes()
}

/// What stands behind this front, where the text begins with it.
#[tactic(auto, unfolding(crate::specs::OrderWords::behind))]
fn behind<'a>(text: &'a [u8], front: &str) -> Option<&'a [u8]>
    ensures { option_map (λ rest. rest.now) result ≡ behind_spec front.now text.now }
{
    text.strip_prefix(front.as_bytes())
}

/// What stands before this end, where the text ends with it.
#[tactic(auto, unfolding(crate::specs::OrderWords::before))]
fn before<'a>(text: &'a [u8], end: &str) -> Option<&'a [u8]>
    ensures { option_map (λ rest. rest.now) result ≡ before_spec end.now text.now }
{
    text.strip_suffix(end.as_bytes())
}
