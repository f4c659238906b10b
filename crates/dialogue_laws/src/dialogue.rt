//! The dialogue's definitions have an answer also in cases that can't come, since they are total: the law that no
//! dialogue comes to one of them.
ghost use Rattle.dialogue_laws.specs.Shadows.{ShadowsDoNotCome};

/// Each finished step leaves what it can (`steps`): a card that is read has both object lists, and they can be read; a
/// PIN for the issuer has a PIN's length, where the purchase's entries have; a reply is kept as it came, with its
/// scripts; a terminal that was unable to go online wants no request, and the second cryptogram is none; a script's
/// result has a first byte. Wherever something is captured, an authorisation response code stands (`code`). An
/// answer that can't be read ends a script that waits for one (`script`).
pub fn shadows_do_not_come()
    ensures { ShadowsDoNotCome }
{}
