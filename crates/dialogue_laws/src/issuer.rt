//! What an issuer's host makes for a card is right for that card: laws over what the host and the card are defined to
//! do.
ghost use Rattle.dialogue_laws.specs.IssuerAtCard.{AuthenticatesIssuer, StatusIsHeeded, CarriesOutScripts};

use script_run::scripts_are_read_back;

/// Whatever a host has kept, a new request of an account is answered with issuer authentication data exactly where its
/// cryptogram is the one that the card makes, and the card finds them right, by whichever method they are made
/// (`answers`). By method 2 it declines unless the code is 00, resets its totals with that code, and does with every
/// code what the account's status asks of it (`status`).
pub fn issuers_are_authenticated()
    ensures answers { AuthenticatesIssuer }
    ensures status { StatusIsHeeded }
{}

/// The card carries out each command of the scripts that the host makes for its transaction, and refuses one whose
/// code is made wrong. From a script's template a terminal reads just these commands.
pub fn scripts_are_carried_out()
    ensures { CarriesOutScripts }
{
    scripts_are_read_back();
}
