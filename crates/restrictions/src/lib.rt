//! Processing restrictions (EMV 4.3 Book 3 section 10.4): whether the versions of card and terminal
//! agree, whether the card may be used for the service, and whether the day is within its dates.
#![tactic(auto)]

ghost use Rattle.std.specs.Prelude.{◌≡◌, option_and_then, option_map, length, IsTrue};
ghost use Rattle.std.specs.Option.{ForSome};
ghost use Rattle.emv_dict.specs.Date.{date_of};
ghost use Rattle.object_lists.specs.Forms.{is_date_value};
ghost use Rattle.restrictions.specs.Laws.{AreRestrictionBits};
ghost use Rattle.restrictions.specs.Restricted as spec;

mod usage;

use ber_tlv::Tag;
use emv_dict::{AidRow, Date, Purchase, Settings, Tvr};
use object_lists::CardData;
use usage::Usage;

/// The flags of the restrictions that hold for a purchase with this card in this application of the
/// terminal: "versions differ", "service not allowed", "not yet effective" and "expired".
#[tactic(auto, unfolding(crate::specs::Restricted::restricted))]
pub fn restrict(card: &CardData, settings: &Settings, row: &AidRow, purchase: &Purchase) -> Tvr
    ensures bits { result.0 ≡ spec.restricted card.now settings.now row.now purchase.now }
    // No bit of another step stands.
    ensures own { AreRestrictionBits result.0 }
{
    Tvr::of_conditions(&[
        (versions_differ(card, row), Tvr::VERSIONS_DIFFER),
        (
            service_not_allowed(card, settings, purchase),
            Tvr::SERVICE_NOT_ALLOWED,
        ),
        (not_yet_effective(card, purchase), Tvr::NOT_YET_EFFECTIVE),
        (is_expired(card, purchase), Tvr::EXPIRED),
    ])
}

/// Whether the card has an application version number that isn't the terminal's.
#[tactic(auto, unfolding(crate::specs::Restricted::versions_differ))]
fn versions_differ(card: &CardData, row: &AidRow) -> bool
    ensures { result ≡ spec.versions_differ card.now row.now }
{
    match card.value(Tag(0x9f08)) {
        Some(version) => version != row.version.as_slice(),
        None => false,
    }
}

/// Whether the card has a usage control that doesn't allow this use.
#[tactic(auto, unfolding(crate::specs::Restricted::service_not_allowed))]
fn service_not_allowed(card: &CardData, settings: &Settings, purchase: &Purchase) -> bool
    ensures { result ≡ spec.service_not_allowed card.now settings.now purchase.now }
{
    let Some(usage) = card.value(Tag(0x9f07)) else {
        return false;
    };
    let usage = Usage::read(usage);
    if !usage.allows_terminal() {
        return true;
    }
    match card.value(Tag(0x5f28)) {
        Some(issuer) => !usage.allows_trade(issuer == settings.country.as_slice(), purchase),
        None => false,
    }
}

/// Whether the purchase is before the application effective date.
#[tactic(auto, unfolding(crate::specs::Restricted::not_yet_effective))]
fn not_yet_effective(card: &CardData, purchase: &Purchase) -> bool
    ensures { result ≡ spec.not_yet_effective card.now purchase.now }
{
    is_before(Date::read(purchase.date), day_in(card, Tag(0x5f25)))
}

/// Whether the purchase is behind the application expiration date.
#[tactic(auto, unfolding(crate::specs::Restricted::expired))]
fn is_expired(card: &CardData, purchase: &Purchase) -> bool
    ensures { result ≡ spec.expired card.now purchase.now }
{
    is_before(day_in(card, Tag(0x5f24)), Date::read(purchase.date))
}

/// Whether both days are given and the first is the earlier one.
fn is_before(first: Option<Date>, second: Option<Date>) -> bool
    ensures { result ≡ spec.is_date_before first second }
{
    match (first, second) {
        (Some(first), Some(second)) => first.is_before(&second),
        _ => false,
    }
}

/// The day that an object of the card holds, where the card has it.
fn day_in(card: &CardData, tag: Tag) -> Option<Date>
    ensures { result ≡ spec.day_in tag.0 card.now }
{
    match card.value(tag) {
        Some([year, month, day, ..]) => Date::read([*year, *month, *day]),
        _ => None,
    }
}
