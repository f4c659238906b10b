//! The statuses of a program at lines.
ghost use Rattle.std.specs.Prelude.{◌≡◌};
ghost use Rattle.line_talk.specs.Statuses.{code_of_status};

/// How a program at lines ends.
#[derive(Clone, Copy, PartialEq, Eq, Debug)]
pub enum Status {
    /// The talk is over, or the lines are at their end.
    Done,
    /// The document is refused, and its fault's line was written.
    Refused,
    /// No document stands first, it has no party that is asked for, or what came is no line that is awaited: `?` was
    /// written, or the line that says so.
    Unserved,
    /// The source failed.
    SourceFailed,
    /// The sink failed.
    SinkFailed,
    /// There was no memory.
    OutOfMemory,
}

impl Status {
    /// The exit status, from 0 to 5.
    pub fn code(self) -> u8
        ensures { result ≡ code_of_status self }
    {
        match self {
            Status::Done => 0,
            Status::Refused => 1,
            Status::Unserved => 2,
            Status::SourceFailed => 3,
            Status::SinkFailed => 4,
            Status::OutOfMemory => 5,
        }
    }
}
