//! The check of a card for a purchase.
ghost use Rattle.std.specs.Prelude.{◌≡◌, ◌↔◌, List, IsOk, MatchResult, Some, None, Err};
ghost use Rattle.card_files.specs.Files.{opening_of};
ghost use Rattle.card_files.specs.ImageRules.{IsImage};
ghost use Rattle.card_state.specs.Decisions.{Decided};
ghost use Rattle.card_state.specs.Totals.{totals};
ghost use Rattle.card_check.specs.Decided.{EndsAreDecided};
ghost use Rattle.card_check.specs.Judged as spec;
ghost use Rattle.card_check.specs.Judged.{card_fault, judged_outset};
ghost use Rattle.card_check.specs.Reasons.{BreaksPart};
ghost use Rattle.dialogue_laws.specs.WellFormed.{WellFormed};
ghost use Rattle.emv_dict.specs.Settings.{IsSettings};

use crate::clashing::name_clash;
use crate::fault::CardFault;
use crate::own::app_fault;
use crate::serving::some_serves;
use card_files::Image;
use card_state::CardState;
use dialogue_laws::purchases_are_decided;
use emv_dict::{Purchase, Settings};

/// The first application that isn't whole.
fn apps_fault(image: &Image) -> Option<CardFault>
    ensures { result ≡ spec.apps_fault 0 image.now.apps }
{
    for (index, app) in image.apps().iter().enumerate() {
        let number = index as u8;
        if let Some(fault) = app_fault(image, number, app) {
            return Some(CardFault::App { app: number, fault });
        }
    }
    None
}

/// The first part that a card in this state breaks for a purchase.
#[tactic(auto, unfolding(crate::specs::Judged::card_fault))]
fn first_fault(
    image: &Image,
    settings: &Settings,
    purchase: &Purchase,
    state: &CardState,
) -> Option<CardFault>
    ensures fault { result ≡ card_fault image.now (judged_outset settings.now purchase.now) state.now }
    ensures image { IsImage image.now }
{
    let apps = image.apps();
    if state.blocked {
        return Some(CardFault::Blocked);
    }
    if let Some(fault) = name_clash(0, apps) {
        return Some(fault);
    }
    if !some_serves(settings, purchase, apps, state.apps.as_slice()) {
        return Some(CardFault::Unserved);
    }
    apps_fault(image)
}

/// Whether a card in this state is well-formed for a purchase at a terminal with these settings, and else the first part
/// that it breaks: the card isn't blocked; no application's name begins another's; one application can serve the purchase;
/// each application is whole by its own data. Takes no memory.
pub fn validate(
    image: &Image,
    settings: &Settings,
    purchase: &Purchase,
    state: &CardState,
) -> Result<(), CardFault>
    ensures exact { MatchResult result
        (λ _. card_fault image.now (judged_outset settings.now purchase.now) state.now ≡ None)
        (λ fault. card_fault image.now (judged_outset settings.now purchase.now) state.now ≡ Some fault) }
    // Ok exactly where the card is well-formed with the decisions that made its state.
    ensures well_formed { (found : List Decided) → state.now ≡ totals (opening_of image.now) found
        → (IsOk result ↔ WellFormed image.now (judged_outset settings.now purchase.now) found) }
    // Then each dialogue of the purchase with this card, as long as the card stays in the terminal, ends decided.
    ensures decided { IsOk result → IsSettings settings.now → (found : List Decided) → state.now ≡ totals (opening_of image.now) found
        → EndsAreDecided image.now (judged_outset settings.now purchase.now) found }
    // Each fault exactly where the parts before it hold, and its own doesn't.
    ensures reason { (fault : CardFault)
        → ((result ≡ Err fault) ↔ BreaksPart image.now (judged_outset settings.now purchase.now) state.now fault) }
{
    purchases_are_decided();
    match first_fault(image, settings, purchase, state) {
        Some(fault) => Err(fault),
        None => Ok(()),
    }
}
