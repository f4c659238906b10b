//! What a terminal asked for, and why.
ghost use Rattle.std.specs.Prelude.{◌≡◌, Some};
ghost use Rattle.purchase_reasons.specs.Reasons as spec;
ghost use Rattle.report_lines.specs.Pieces.{Tells};

use crate::followed::Followed;
use emv_dict::Kind;
use exchange_words::{LaneState, kind_name, tell_cited_reason};
use report_lines::WordLines;
use value_words::Reason;

/// Tells a kind that was asked for, and why.
fn tell_because(out: &mut WordLines, asked: Kind, reason: Reason, second: bool, code: [u8; 2])
    ensures { Tells out.old out.new (spec.asked_because asked reason second code) }
{
    out.text(kind_name(asked));
    out.text(b" because ");
    tell_cited_reason(out, reason, second, code);
}

/// Tells the first question of this kind, where its reason is known.
fn tell_first_because(out: &mut WordLines, asked: Kind, reason: Option<Reason>)
    ensures { Tells out.old out.new (spec.first_asked_because (Some asked) reason) }
{
    match reason {
        Some(reason) => {
            out.text(b"it asked for ");
            tell_because(out, asked, reason, false, *b"--");
        }
        None => out.text(b"it asked for no cryptogram"),
    }
}

/// Tells the first question.
fn tell_first_asked(out: &mut WordLines, asked: Option<Kind>, reason: Option<Reason>)
    ensures { Tells out.old out.new (spec.first_asked_because asked reason) }
{
    match asked {
        Some(asked) => tell_first_because(out, asked, reason),
        None => out.text(b"it asked for no cryptogram"),
    }
}

/// Tells the second question, behind the first one.
fn tell_then(out: &mut WordLines, talk: &LaneState)
    ensures { Tells out.old out.new (spec.then_because talk.now talk.now.asked talk.now.reason) }
{
    if let Some(asked) = talk.asked {
        if let Some(reason) = talk.reason {
            out.text(b", then for ");
            tell_because(out, asked, reason, true, talk.code.unwrap_or(*b"--"));
        }
    }
}

/// Tells what the terminal asked for, and why.
pub(crate) fn tell_terminal(out: &mut WordLines, followed: &Followed, talk: &LaneState)
    ensures { Tells out.old out.new (spec.terminal_words followed.now talk.now) }
{
    out.line(1);
    out.text(b"terminal: ");
    tell_first_asked(out, followed.asked, followed.reason);
    if talk.second {
        tell_then(out, talk);
    }
}
