//! How far a card has come.
ghost use Rattle.std.specs.Prelude.{◌≡◌};
ghost use Rattle.card_cryptogram.specs.Phases as spec;

use crate::fields::TerminalFields;
use card_state::Auth;

/// What of the first cryptogram of a transaction the later commands refer to.
#[derive(Clone, Copy, PartialEq, Eq, Debug)]
pub struct First {
    /// What the terminal gave for it.
    pub given: TerminalFields,
    /// The cryptogram.
    pub cryptogram: [u8; 8],
}

/// How far a card has come in the session since its power-up. Applications are numbered in the order of
/// the image, from 0.
#[derive(Clone, Copy, PartialEq, Eq, Debug)]
pub enum Phase {
    /// No application is selected.
    Idle,
    /// The payment system directory is selected.
    Directory,
    /// An application is selected.
    Selected {
        app: u8,
    },
    /// Its processing options were given.
    Started {
        app: u8,
    },
    /// Its first cryptogram is a request to go online. `sent` tells whether EXTERNAL AUTHENTICATE was
    /// sent, and how it authenticated the issuer: `Absent` where it was wrong.
    Online {
        app: u8,
        first: First,
        sent: Option<Auth>,
    },
    /// Its first cryptogram approves or declines.
    Closed {
        app: u8,
    },
    /// Its second cryptogram was made.
    Done {
        app: u8,
        first: First,
    },
}

impl Phase {
    /// The application that is selected.
    pub fn current(&self) -> Option<u8>
        ensures { result ≡ spec.current self.now }
    {
        match *self {
            Phase::Idle => None,
            Phase::Directory => None,
            Phase::Selected { app } => Some(app),
            Phase::Started { app } => Some(app),
            Phase::Online { app, .. } => Some(app),
            Phase::Closed { app } => Some(app),
            Phase::Done { app, .. } => Some(app),
        }
    }

    /// Whether the payment system directory is selected.
    pub fn in_directory(&self) -> bool
        ensures { result ≡ spec.in_directory self.now }
    {
        matches!(self, Phase::Directory)
    }
}
