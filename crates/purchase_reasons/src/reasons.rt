//! Why a purchase came out as it did, a line a party.
ghost use Rattle.std.specs.Prelude.{◌≡◌};
ghost use Rattle.purchase_reasons.specs.Kept.{cards_data};
ghost use Rattle.purchase_reasons.specs.Reasons as spec;
ghost use Rattle.report_lines.specs.Pieces.{Tells};

use crate::approval::Facts;
use crate::card::{Second, tell_first, tell_second};
use crate::followed::Followed;
use crate::kept::{Cards, facts_of, wanted_by};
use crate::terminal::tell_terminal;
use emv_dict::Kind;
use exchange_words::LaneState;
use issuer_reasons::tell_issuer;
use report_lines::WordLines;

/// Tells the card's first answer.
fn tell_card_first(out: &mut WordLines, followed: &Followed, facts: &Facts)
    ensures { Tells out.old out.new (spec.card_first followed.now.asked followed.now.answered facts.now) }
{
    match followed.asked {
        Some(asked) => tell_first(out, asked, followed.answered, facts),
        None => out.text(b"it was asked for no cryptogram"),
    }
}

/// The second question.
fn second_of(followed: &Followed, talk: &LaneState, asked: Kind) -> Second
    ensures { result ≡ spec.second_of followed.now talk.now asked }
{
    Second {
        asked,
        answered: talk.answered,
        replied: talk.code.is_some(),
        standing: followed.standing,
    }
}

/// Tells the card's second answer.
fn tell_card_second(out: &mut WordLines, followed: &Followed, talk: &LaneState, facts: &Facts)
    ensures { Tells out.old out.new (spec.card_second followed.now talk.now talk.now.asked facts.now) }
{
    if let Some(asked) = talk.asked {
        out.text(b"; then ");
        tell_second(out, &second_of(followed, talk, asked), facts);
    }
}

/// Tells what the card answered, and why.
fn tell_card(out: &mut WordLines, followed: &Followed, talk: &LaneState, facts: &Facts)
    ensures { Tells out.old out.new (spec.card_line_words followed.now talk.now facts.now) }
{
    out.line(1);
    out.text(b"card: ");
    tell_card_first(out, followed, facts);
    if talk.second {
        tell_card_second(out, followed, talk, facts);
    }
}

/// Tells why a purchase came out as it did, a line a party.
pub fn tell_reasons(out: &mut WordLines, followed: &Followed, talk: &LaneState, cards: &Cards<'_>)
    ensures { Tells out.old out.new (spec.reasons_words followed.now talk.now (cards_data cards.now)) }
{
    tell_terminal(out, followed, talk);
    tell_card(out, followed, talk, &facts_of(cards, followed, talk));
    tell_issuer(out, followed.requested, followed.reply, wanted_by(talk));
}
