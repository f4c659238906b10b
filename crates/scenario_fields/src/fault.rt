ghost use Rattle.std.specs.Prelude.{◌≡◌, ℕ, List, IfOk, Some, string_bytes};
ghost use Rattle.scenario_fields.specs.Line.{refused_line};
ghost use Rattle.scenario_fields.specs.declared.fault.ScenarioFault.TheVariants.{OutOfMemory};

use std::alloc::{AllocError, AllocFailed, Global};
use std::marker::Model;

/// The place of a fault in a scenario's document, as `lane[0].purchase[3].amount`. Contracts see the
/// list of its bytes.
#[derive(Drop, Debug)]
pub struct Path {
    text: String,
}

impl Model for Path {
    ghost use Rattle.std.specs.Prelude.{List, ℕ, string_bytes};

    ghost Value = { List ℕ };

    ghost view = { λ p. string_bytes p.text };
}

impl Path {
    /// The path of this text.
    pub fn new(text: String) -> Path
        ensures { result ≡ string_bytes text }
    {
        Path { text }
    }

    /// The text of the path.
    pub fn as_str(&self) -> &str
        ensures { result.now ≡ self.now }
    {
        self.text.as_str()
    }
}

/// Why a scenario is refused: the first fault of its document.
#[derive(Drop, Debug)]
pub enum ScenarioFault {
    /// The bytes are no TOML document.
    Toml,
    /// A key without a default is absent.
    MissingKey { path: Path },
    /// A value has another type than its key's, or a content that its key excludes.
    BadValue { path: Path },
    /// A number, a text, a byte string, an array or the document is beyond its limit.
    OutOfLimit { path: Path },
    /// A table has a key that it doesn't know.
    UnknownKey { path: Path },
    /// A card or a lane is named that isn't there.
    UnknownName { path: Path },
    /// There was no memory to read it.
    OutOfMemory,
}

impl From<AllocError> for ScenarioFault {
    ghost from_gives = { λ _ e. e ≡ OutOfMemory };

    fn from(_fault: AllocError) -> ScenarioFault {
        ScenarioFault::OutOfMemory
    }
}

impl<T: Drop> From<AllocFailed<T>> for ScenarioFault {
    ghost from_gives = { λ _ e. e ≡ OutOfMemory };

    fn from(_fault: AllocFailed<T>) -> ScenarioFault {
        ScenarioFault::OutOfMemory
    }
}

impl ScenarioFault {
    /// The line that reports the fault, with its newline: `refused`, its number, its name and its
    /// path. Want of memory has no line and is the same error again.
    #[tactic(auto, unfolding(crate::specs::Line::refused_line))]
    pub fn line(&self, alloc: Global) -> Result<String, AllocError>
        ensures { IfOk result (λ t. refused_line self.now ≡ Some (string_bytes t)) }
    {
        match self {
            ScenarioFault::Toml => format!(in alloc; "refused 1 Toml\n"),
            ScenarioFault::MissingKey { path } => {
                format!(in alloc; "refused 2 MissingKey {}\n", path.as_str())
            }
            ScenarioFault::BadValue { path } => {
                format!(in alloc; "refused 3 BadValue {}\n", path.as_str())
            }
            ScenarioFault::OutOfLimit { path } => {
                format!(in alloc; "refused 4 OutOfLimit {}\n", path.as_str())
            }
            ScenarioFault::UnknownKey { path } => {
                format!(in alloc; "refused 5 UnknownKey {}\n", path.as_str())
            }
            ScenarioFault::UnknownName { path } => {
                format!(in alloc; "refused 6 UnknownName {}\n", path.as_str())
            }
            ScenarioFault::OutOfMemory => Err(AllocError),
        }
    }
}
