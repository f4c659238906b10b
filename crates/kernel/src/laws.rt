//! What holds of every dialogue, whatever the card and the host say.
ghost use Rattle.kernel.specs.Laws.{DeedsGrow, StepsStay, EndsStay, RepliesTurn, HostIsTold, CapturesFit, ReadingCapturesNothing, ReadingRestricts, BitsBelong};

/// Further replies add commands and messages behind those that were sent.
pub fn deeds_grow()
    ensures { DeedsGrow }
{}

/// A finished step stays finished: no bit that it set is dropped.
pub fn steps_stay()
    ensures { StepsStay }
{}

/// Once a dialogue is over, further replies change nothing.
pub fn ends_stay()
    ensures { EndsStay }
{}

/// What one reply makes of a dialogue. Only a card that is gone cuts it off, and always does, unless a script
/// behind the second cryptogram runs. The step that it is named in is that of the command that was asked: by
/// the steps that are finished, before the card is read by the command's instruction, and its power-up before
/// any reply. The host's silence, or a reply with a fault, makes the terminal unable to go online behind a
/// message, and nothing else does.
pub fn replies_turn()
    ensures { RepliesTurn }
{}

/// A terminal that never goes online is unable to where the card asks for it; any other one sends one message.
pub fn host_is_told()
    ensures { HostIsTold }
{}

/// What is captured: a presentment exactly where the ending is an approval, a reversal exactly where a request
/// was sent, no reply was read with a code other than 00 and the ending is no approval, and nothing else.
pub fn captures_fit()
    ensures { CapturesFit }
{}

/// With the reply that finishes reading nothing is captured, nor before it.
pub fn reading_captures_nothing()
    ensures { ReadingCapturesNothing }
{}

/// Once the card is read, the bits of the processing restrictions stand.
pub fn reading_restricts()
    ensures { ReadingRestricts }
{}

/// A bit of the terminal verification results that stands belongs to a step that is finished.
pub fn bits_belong()
    ensures { BitsBelong }
{}
