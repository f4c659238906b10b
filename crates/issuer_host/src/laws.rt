//! What holds of every host.
ghost use Rattle.issuer_host.specs.Reasons.{ReasonsAreReplys};

/// The reason of a message is that of the reply to it, behind whatever messages were kept.
pub fn reasons_are_replys()
    ensures { ReasonsAreReplys }
{}
