//! The last question about a cryptogram that a terminal has decided on, and what its kind rests on.
ghost use Rattle.std.specs.Prelude.{◌≡◌, List, option_map};
ghost use Rattle.kernel.specs.Dialogue.{dialogue};
ghost use Rattle.kernel.specs.Kernel.{KernelStands, outset_in};
ghost use Rattle.kernel.specs.Reply.{Reply};
ghost use Rattle.trace_check.specs.LastQuestion as spec;

use action_analysis::{Codes, issuer_codes};
use emv_dict::{Kind, Tvr};
use kernel::Kernel;
use object_lists::CardData;
use terminal_state::{Analysed, Conclusion, StateSoFar};

/// What action analysis looks at.
#[derive(Clone, Copy)]
pub struct Basis {
    /// The terminal's type, 21 to 26.
    pub terminal_type: u8,
    /// The terminal verification results (95).
    pub tvr: [u8; 5],
    /// The issuer's action codes.
    pub issuer: Codes,
    /// The terminal's own for the application.
    pub terminal: Codes,
}

/// A question about a cryptogram.
#[derive(Clone, Copy)]
pub enum Question {
    /// The first one, for this kind.
    First(Basis, Kind),
    /// The second one, by the response code of the host's reply.
    Replied([u8; 2]),
    /// The second one of a terminal that was unable to go online, for this kind.
    Unable(Basis, Kind),
}

/// What action analysis looks at.
fn basis_of(card: &CardData, terminal_type: u8, tvr: Tvr, analysed: Analysed) -> Basis
    ensures { result ≡ spec.basis_of card.now terminal_type tvr.0 analysed }
{
    let tvr = tvr.bytes();
    let Analysed {
        denial,
        online,
        fallback,
        wanted: _,
    } = analysed;
    Basis {
        terminal_type,
        tvr,
        issuer: issuer_codes(card),
        terminal: Codes {
            denial,
            online,
            fallback,
        },
    }
}

/// The first question for this kind, or the second one where that was decided on.
fn question_by(basis: Basis, wanted: Kind, concluded: Option<Conclusion>) -> Question
    ensures { result ≡ spec.question_by basis wanted concluded }
{
    match concluded {
        None => Question::First(basis, wanted),
        Some(Conclusion::ByReply(code)) => Question::Replied(code),
        Some(Conclusion::ByAnalysis(unable)) => Question::Unable(basis, unable),
    }
}

/// The last question of a terminal of this type, by the card's data and what it holds.
#[tactic(auto, unfolding(crate::specs::LastQuestion::last_question))]
fn question_in(terminal_type: u8, card: Option<&CardData>, state: &StateSoFar) -> Option<Question>
    ensures { result ≡ spec.last_question terminal_type (option_map (λ card. card.now) card.entry) state.now }
{
    let Some(card) = card else {
        return None;
    };
    let Some(analysed) = state.analysed else {
        return None;
    };
    let basis = basis_of(card, terminal_type, state.tvr_when_first, analysed);
    Some(question_by(basis, analysed.wanted, state.concluded))
}

/// The last question that a terminal of this type has decided on.
pub fn last_question(terminal_type: u8, kernel: &Kernel<'_>) -> Option<Question>
    ensures { (replies : List Reply) → KernelStands kernel.now replies
        → result ≡ spec.question_behind terminal_type (dialogue (outset_in kernel.now) replies).steps_done }
{
    question_in(terminal_type, kernel.data(), kernel.state_so_far())
}
