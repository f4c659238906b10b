//! What a verdict says of a trace, and a text of its entry.
ghost use Rattle.trace_check.specs.Laws.{SameIsDialogue, DiffersIsLeast, EntriesAreSpelled};

/// A trace is the same exactly where it is what the terminal asks, each time followed by the reply to it, and at
/// last the end.
pub fn same_is_dialogue()
    ensures { SameIsDialogue }
{}

/// The entries before the one that differs are a front of the trace of a dialogue, which every dialogue can be
/// brought to the end of. With the entry that differs they are none.
pub fn differs_is_least()
    ensures { DiffersIsLeast }
{}

/// A text that is an entry is the entry's text, and the entry's text is the entry.
pub fn entries_are_spelled()
    ensures { EntriesAreSpelled }
{}
