//! A card, and one of its applications, while a command is answered.
ghost use Rattle.std.proofs.Props.{props};
ghost use Rattle.card_app.specs.AtWork.{IsAtWork, IsAppAtWork};

use card_cryptogram::Phase;
use card_files::{AppImage, Image};
use card_state::{AppState, CardState};

/// A card at work: its image, its state, and its phase.
#[derive(Clone, Copy)]
pub(crate) struct CardAtWork<'a> {
    pub(crate) image: &'a Image,
    pub(crate) state: &'a CardState,
    pub(crate) phase: Phase,
    ghost fits: { IsAtWork image.now state.now phase } by { Prim.hlevel props },
}

/// An application at work: its number, its image, its state, and whether the card is blocked.
#[derive(Clone, Copy)]
pub(crate) struct AtWork<'a> {
    pub(crate) number: u8,
    pub(crate) app: &'a AppImage,
    pub(crate) state: &'a AppState,
    pub(crate) card_blocked: bool,
    ghost fits: { IsAppAtWork app.now state.now } by { Prim.hlevel props },
}
