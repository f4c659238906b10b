//! Laws over what the terminal, the card and the issuer's host are defined to do: a purchase with a well-formed card
//! is approved or declined; a card's directory and the terminal's list of AIDs find the same applications; what
//! the host makes for a card is right for it; and no dialogue comes to the cases that its definitions answer only
//! because they are total.
#![tactic(auto)]

pub mod decision;
pub mod dialogue;
pub mod directory;
pub mod issuer;

pub use decision::{hosts_are_linked, purchases_are_decided};
pub use dialogue::shadows_do_not_come;
pub use directory::both_agree;
pub use issuer::{issuers_are_authenticated, scripts_are_carried_out};
