//! What a command would make a card decide.
ghost use Rattle.std.specs.Prelude.{◌≡◌, ℕ, List};
ghost use Rattle.card_app.specs.Foretelling.{decisions_foretold};
ghost use Rattle.card_app.specs.SeenReply.{reply_data};

use crate::reply::Reply;
use card_state::Decision;

/// What a command would make a card decide: at most two decisions.
#[derive(Clone, Copy, PartialEq, Eq, Debug)]
pub enum Foretold {
    /// Nothing is decided.
    Nothing,
    /// One decision of this application.
    Decides { app: u8, decision: Decision },
    /// A PIN try, and behind it that the PIN is right.
    RightPin { app: u8, limit: u8 },
}

/// What a reply decides.
pub(crate) fn decided_by(reply: &Reply) -> Foretold
    ensures { (body : List ℕ) → decisions_foretold result ≡ (reply_data body reply.now).new }
{
    match *reply {
        Reply::Plain { .. } => Foretold::Nothing,
        Reply::Decides { app, decision, .. } => Foretold::Decides { app, decision },
        Reply::Compares(with) => {
            if with.block == with.pin {
                Foretold::RightPin {
                    app: with.app,
                    limit: with.limit,
                }
            } else {
                Foretold::Decides {
                    app: with.app,
                    decision: Decision::PinTry,
                }
            }
        }
    }
}
