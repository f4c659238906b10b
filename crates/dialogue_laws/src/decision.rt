//! The law that a purchase comes to a decision, and what it needs of the host.
ghost use Rattle.dialogue_laws.specs.Decisions.{PurchasesAreDecided, HostsAreLinked};

use online_step::answers_are_read_back;

/// Whatever a terminal is told by a well-formed card that stays in it and by a host, or by none, where its dialogue is
/// over the purchase is approved or declined.
pub fn purchases_are_decided()
    ensures { PurchasesAreDecided }
{
    answers_are_read_back();
}

/// No reply of the issuer's host holds a script that selects an application, starts a transaction or asks for a
/// cryptogram before the terminal does.
pub fn hosts_are_linked()
    ensures { HostsAreLinked }
{}
