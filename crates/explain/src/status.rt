//! How the program ends.
ghost use Rattle.std.specs.Prelude.{◌≡◌};
ghost use Rattle.explain.specs.Statuses.{explain_code};

/// How the program ends.
#[derive(Clone, Copy, PartialEq, Eq, Debug)]
pub enum Status {
    /// What the source gave was explained to its end.
    Done,
    /// The words are not in the grammar, and the usage line was written.
    Usage,
    /// The source failed.
    ReadFault,
    /// The sink failed.
    WriteFault,
    /// There was no memory.
    OutOfMemory,
}

impl Status {
    /// The exit status of the program: 0, or 2 to 5.
    pub fn code(self) -> u8
        ensures { result ≡ explain_code self }
    {
        match self {
            Status::Done => 0,
            Status::Usage => 2,
            Status::ReadFault => 3,
            Status::WriteFault => 4,
            Status::OutOfMemory => 5,
        }
    }
}
