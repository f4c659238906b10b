//! What a card answered, and why (docs/proof/profile.md, CARD-20 and CARD-21).
ghost use Rattle.std.specs.Prelude.{◌≡◌};
ghost use Rattle.purchase_reasons.specs.Cards as spec;
ghost use Rattle.report_lines.specs.Pieces.{Tells};

use crate::approval::{Facts, tell_approval};
use crate::followed::Standing;
use emv_dict::Kind;
use exchange_words::kind_name;
use report_lines::{FIRST_KIND, SECOND_KIND, WordLines};

/// Why a card answered the kind that it answered.
#[derive(Clone, Copy, PartialEq, Eq, Debug)]
pub enum CardReason {
    /// It was asked for that.
    Asked,
    /// It may not answer it.
    Forbidden,
    /// The card or the application is blocked.
    Blocked,
    /// An offline approval passed each test.
    Passed,
    /// A test of an offline approval failed.
    Failed,
    /// The issuer was authenticated.
    Authenticated,
    /// The issuer was authenticated, and its card status update doesn't approve.
    RefusedByStatus,
    /// The issuer was not authenticated: its response cryptogram is wrong.
    WrongCryptogram,
    /// The issuer was not authenticated: no response cryptogram came.
    NoCryptogram,
    /// The application's profile has no issuer authentication.
    NotDue,
}

/// Why the first cryptogram is of the kind that it is.
pub fn first_reason(asked: Kind, answered: Kind) -> CardReason
    ensures { result ≡ spec.first_card_reason asked answered }
{
    match asked {
        Kind::Aac => match answered {
            Kind::Aac => CardReason::Asked,
            Kind::Tc | Kind::Arqc => CardReason::Forbidden,
        },
        Kind::Arqc => match answered {
            Kind::Aac => CardReason::Blocked,
            Kind::Arqc => CardReason::Asked,
            Kind::Tc => CardReason::Forbidden,
        },
        Kind::Tc => match answered {
            Kind::Aac => CardReason::Blocked,
            Kind::Arqc => CardReason::Failed,
            Kind::Tc => CardReason::Passed,
        },
    }
}

/// Why a second cryptogram approves. `replied` says whether the issuer's reply was read.
fn approval_reason(replied: bool, authenticated: Option<bool>) -> CardReason
    ensures { result ≡ spec.approval_reason replied authenticated }
{
    if !replied {
        return CardReason::Passed;
    }
    match authenticated {
        Some(true) => CardReason::Authenticated,
        Some(false) | None => CardReason::NotDue,
    }
}

/// Why a second cryptogram declines that was asked to approve, of a card that isn't blocked.
fn decline_reason(replied: bool, authenticated: Option<bool>) -> CardReason
    ensures { result ≡ spec.decline_reason replied authenticated }
{
    if !replied {
        return CardReason::Failed;
    }
    match authenticated {
        Some(true) => CardReason::RefusedByStatus,
        Some(false) => CardReason::WrongCryptogram,
        None => CardReason::NoCryptogram,
    }
}

/// Why the second cryptogram is of the kind that it is, where it was asked to approve.
fn second_of_approval(answered: Kind, replied: bool, standing: &Standing) -> CardReason
    ensures { result ≡ spec.second_of_approval answered replied standing.now }
{
    match answered {
        Kind::Tc => approval_reason(replied, standing.authenticated),
        Kind::Arqc => CardReason::Forbidden,
        Kind::Aac => {
            if standing.card_blocked || standing.blocked {
                CardReason::Blocked
            } else {
                decline_reason(replied, standing.authenticated)
            }
        }
    }
}

/// Why the second cryptogram is of the kind that it is.
pub fn second_reason(asked: Kind, answered: Kind, replied: bool, standing: &Standing) -> CardReason
    ensures { result ≡ spec.second_card_reason asked answered replied standing.now }
{
    match asked {
        Kind::Tc => second_of_approval(answered, replied, standing),
        Kind::Aac | Kind::Arqc => match answered {
            Kind::Aac => CardReason::Asked,
            Kind::Tc | Kind::Arqc => CardReason::Forbidden,
        },
    }
}

/// Tells a reason that rests on the issuer.
fn tell_by_issuer(out: &mut WordLines, reason: CardReason)
    ensures { Tells out.old out.new (spec.by_issuer_words reason) }
{
    match reason {
        CardReason::Authenticated => out.text(b"; the issuer is authenticated"),
        CardReason::RefusedByStatus => {
            out.text(b"; the issuer is authenticated, and its card status update doesn't approve")
        }
        CardReason::WrongCryptogram => {
            out.text(b"; the issuer isn't authenticated: its response cryptogram is wrong")
        }
        CardReason::NoCryptogram => {
            out.text(b"; the issuer isn't authenticated: no response cryptogram came")
        }
        CardReason::NotDue => out.text(b"; its profile has no issuer authentication"),
        _ => {}
    }
}

/// Tells a reason.
fn tell_card_reason(out: &mut WordLines, reason: CardReason, facts: &Facts)
    ensures { Tells out.old out.new (spec.card_reason_words reason facts.now) }
{
    match reason {
        CardReason::Asked => {}
        CardReason::Forbidden => out.text(b", which it may not"),
        CardReason::Blocked => out.text(b"; it is blocked"),
        CardReason::Passed => tell_approval(out, true, facts),
        CardReason::Failed => tell_approval(out, false, facts),
        other => tell_by_issuer(out, other),
    }
}

/// Tells a question and its answer.
fn tell_answered(out: &mut WordLines, asked: Kind, answered: Kind)
    ensures { Tells out.old out.new (spec.asked_and_answered asked answered) }
{
    out.text(b"asked for ");
    out.text(kind_name(asked));
    out.text(b" it answered ");
    out.text(kind_name(answered));
}

/// Tells a question that has no answer.
fn tell_unanswered(out: &mut WordLines, asked: Kind)
    ensures { Tells out.old out.new (spec.asked_alone asked) }
{
    out.text(b"asked for ");
    out.text(kind_name(asked));
    out.text(b" it gave no cryptogram");
}

/// Tells the first question and its answer, and why.
pub(crate) fn tell_first(out: &mut WordLines, asked: Kind, answered: Option<Kind>, facts: &Facts)
    ensures { Tells out.old out.new (spec.first_card_words asked answered facts.now) }
{
    match answered {
        Some(answered) => {
            tell_answered(out, asked, answered);
            tell_card_reason(out, first_reason(asked, answered), facts);
            out.reference(FIRST_KIND);
        }
        None => tell_unanswered(out, asked),
    }
}

/// A second question, what came before it, and what is known as it is answered.
#[derive(Clone, Copy)]
pub struct Second {
    pub asked: Kind,
    pub answered: Option<Kind>,
    /// Whether the issuer's reply was read.
    pub replied: bool,
    pub standing: Standing,
}

/// Tells the second question and its answer, and why.
pub(crate) fn tell_second(out: &mut WordLines, second: &Second, facts: &Facts)
    ensures { Tells out.old out.new (spec.second_card_words second.now second.now.answered facts.now) }
{
    match second.answered {
        Some(answered) => {
            tell_answered(out, second.asked, answered);
            let reason = second_reason(second.asked, answered, second.replied, &second.standing);
            tell_card_reason(out, reason, facts);
            out.reference(SECOND_KIND);
        }
        None => tell_unanswered(out, second.asked),
    }
}
