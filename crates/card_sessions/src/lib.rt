//! Cards that are turned on and off again and again: what holds of a card from one session to the next,
//! and how far it has come in one. The sessions of whole cards that are tried stand in the tests.
#![tactic(auto)]

ghost use Rattle.std.specs.Prelude.{◌≡◌, true, IfOk, IfErr, OnOk, OnErr, IsTrue};
ghost use Rattle.emv_ports.specs.Cut.{is_plan};
ghost use Rattle.card_app.specs.SeenCard.{IsRunning, IsCardOff};
ghost use Rattle.card_app.specs.SeenIcc.{IsIccOn, IsIccOff, icc_is_powered};

mod law;

use apdu_core::Answer;
use card_app::{Card, Icc};
use card_files::Image;
use emv_ports::{Gone, Pages, Tear};
pub use law::{phases_are_told, tries_come_first};
use torn_store::Lost;

/// Turns on pages of a card of this image, under a plan to cut the power once, or none. Behind a loss
/// the pages are those of the card still.
pub fn turned_on<'i, P: Pages>(
    image: &'i Image,
    pages: P,
    tear: Option<Tear>,
) -> Result<Card<'i, P>, Lost<P>>
    requires card { IsCardOff image.now (P.memory pages) }
    requires tear { IsTrue (is_plan tear) }
    ensures on { IfOk result (λ card. IsRunning card) }
    ensures image { IfOk result (λ card. card.image ≡ image.now) }
    ensures off { IfErr result (λ lost. IsCardOff image.now (P.memory lost.pages)) }
{
    let mut pages = pages;
    pages.plan(tear);
    match Card::power_up(image, pages) {
        Ok(card) => Ok(card),
        Err(lost) => Err(lost),
    }
}

/// Turns a card off that is on behind any session. Its pages are those of the card still.
pub fn turned_off<'i, P: Pages>(card: Card<'i, P>) -> P
    requires { IsRunning card }
    ensures { IsCardOff card.entry.image (P.memory result) }
{
    card.power_off()
}

/// Turns on a card in its place, under a plan to cut the power once, or none. Behind a loss it is a card
/// still, off.
pub fn turn_on<'i, P: Pages>(icc: &mut Icc<'i, P>, tear: Option<Tear>) -> Result<(), Gone>
    requires card { IsIccOff icc.old }
    requires tear { IsTrue (is_plan tear) }
    ensures on { OnOk result (IsIccOn icc.new) }
    ensures runs { OnOk result (icc_is_powered icc.new ≡ true) }
    ensures off { OnErr result (IsIccOff icc.new) }
{
    match icc.power_up(tear) {
        Ok(()) => Ok(()),
        Err(gone) => Err(gone),
    }
}

/// Sends a command to a card in its place. It goes on, or is off behind a loss.
pub fn send<'i, P: Pages>(
    icc: &mut Icc<'i, P>,
    command: &[u8],
    out: &mut Answer,
) -> Result<(), Gone>
    requires card { IsIccOn icc.old }
    requires runs { icc_is_powered icc.old ≡ true }
    ensures on { OnOk result (IsIccOn icc.new) }
    ensures runs { OnOk result (icc_is_powered icc.new ≡ true) }
    ensures off { OnErr result (IsIccOff icc.new) }
{
    match icc.process(command, out) {
        Ok(()) => Ok(()),
        Err(gone) => Err(gone),
    }
}

/// Turns off a card in its place.
pub fn turn_off<'i, P: Pages>(icc: &mut Icc<'i, P>)
    requires card { IsIccOn icc.old }
    requires runs { icc_is_powered icc.old ≡ true }
    ensures off { IsIccOff icc.new }
{
    icc.power_off();
}

#[cfg(test)]
mod cards;
#[cfg(test)]
mod corners;
#[cfg(test)]
mod directories;
#[cfg(test)]
mod issuers;
#[cfg(test)]
mod limits;
#[cfg(test)]
mod logs;
#[cfg(test)]
mod refusals;
#[cfg(test)]
mod sessions;
#[cfg(test)]
mod tears;
