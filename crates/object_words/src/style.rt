//! Where and how objects are told.
ghost use Rattle.std.specs.Prelude.{◌≡◌};
ghost use Rattle.object_words.specs.Objects.{plain};

use value_words::{CardCodes, Row};

/// The action codes that are known.
#[derive(Clone, Copy)]
pub struct KnownCodes {
    pub card: CardCodes,
    pub row: Option<Row>,
}

/// How terminal verification results are told.
#[derive(Clone, Copy)]
pub enum ResultsStyle {
    /// A line for each bit that is set.
    Lines,
    /// The bits in one line.
    OneLine,
    /// A line for each bit, with the action codes that have it.
    Codes(KnownCodes),
}

/// Where and how an object is told.
#[derive(Clone, Copy)]
pub struct Style {
    /// Two blanks for each level.
    pub level: u8,
    pub results: ResultsStyle,
    /// What the response code 00 means here, where that is not an approval.
    pub answer: Option<&'static [u8]>,
}

impl Style {
    /// At this level.
    pub fn plain(level: u8) -> Style
        ensures { result ≡ plain level }
    {
        Style {
            level,
            results: ResultsStyle::Lines,
            answer: None,
        }
    }
}
