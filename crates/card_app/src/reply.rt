//! Replies that are not carried out yet.
ghost use Rattle.std.specs.Prelude.{◌≡◌, []};
ghost use Rattle.card_app.specs.declared.reply.Reply.TheVariants.{Plain};

use crate::Comparison;
use card_cryptogram::{Body, Phase};
use card_state::Decision;

/// What a card is to decide and to answer; the body of the answer stands elsewhere. `phase` is the
/// phase behind the answer.
#[derive(Clone, Copy, PartialEq, Eq, Debug)]
pub(crate) enum Reply {
    /// Nothing is decided.
    Plain {
        status: u16,
        phase: Phase,
    },
    /// One decision, and then the answer.
    Decides {
        app: u8,
        decision: Decision,
        status: u16,
        phase: Phase,
    },
    /// A PIN try, then the comparison, and where the PIN is right one more decision. The phase stays.
    Compares(Comparison),
}

/// An answer without a body, for which nothing is decided; the phase stays.
pub(crate) fn refused(phase: Phase, status: u16) -> Reply
    ensures { result ≡ Plain status phase }
{
    Reply::Plain { status, phase }
}

/// Empties the body, and gives the status of a refusal.
pub(crate) fn refuse(status: u16, out: &mut Body) -> u16
    ensures status { result ≡ status }
    ensures body { out.new.items ≡ [] }
{
    out.clear();
    status
}
