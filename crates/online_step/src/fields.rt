//! The values that messages to the host are made of.
ghost use Rattle.std.specs.Prelude.{◌≡◌, ◌<◌, IfSome, length};
ghost use Rattle.auth_message.specs.Accepted.{AreDigitBytes};
ghost use Rattle.env_map.specs.Entries.{value_of};
ghost use Rattle.online_step.specs.TerminalData.{object as object_value};

use ber_tlv::Tag;
use emv_dict::{Ac, Purchase, Settings};
use env_map::Env;
use object_lists::CardData;

/// The value of an object that is there, with `N` bytes.
pub(crate) fn object<const N: usize>(env: &Env, tag: u32) -> [u8; N]
    requires some { 0 < N }
    requires sized { length (object_value tag env.now) ≡ N }
    ensures { result ≡ object_value tag env.now }
{
    match env.get(Tag(tag)) {
        Some(value) => copied(value),
        None => unreachable!(),
    }
}

/// These `N` bytes.
fn copied<const N: usize>(value: &[u8]) -> [u8; N]
    requires { length value.now ≡ N }
    ensures { result ≡ value.now }
{
    let mut bytes = [0; N];
    bytes.copy_from_slice(value);
    bytes
}

/// The application expiration date.
pub(crate) fn expiry(card: &CardData) -> [u8; 3]
    ensures value { result ≡ object_value 0x5F24 card.now.entries }
    ensures digits { AreDigitBytes result }
{
    object(card.env(), 0x5f24)
}

/// The sequence number of the account number, where the card has one.
pub(crate) fn sequence_number(card: &CardData) -> Option<[u8; 1]>
    ensures value { result ≡ value_of 0x5F34 card.now.entries }
    ensures digits { IfSome result AreDigitBytes }
{
    match card.value(Tag(0x5f34)) {
        Some(value) => Some(copied(value)),
        None => None,
    }
}

/// The terminal identification (9F1C).
pub(crate) fn identification(settings: &Settings) -> [u8; 8]
    ensures { result ≡ settings.now.id }
{
    settings.id
}

/// The terminal country code (9F1A).
pub(crate) fn country(settings: &Settings) -> [u8; 2]
    ensures { result ≡ settings.now.country }
{
    settings.country
}

/// The transaction currency code (5F2A).
pub(crate) fn currency(purchase: &Purchase) -> [u8; 2]
    ensures { result ≡ purchase.now.currency }
{
    purchase.currency
}

/// The transaction date (9A).
pub(crate) fn date(purchase: &Purchase) -> [u8; 3]
    ensures { result ≡ purchase.now.date }
{
    purchase.date
}

/// The unpredictable number (9F37).
pub(crate) fn number(purchase: &Purchase) -> [u8; 4]
    ensures { result ≡ purchase.now.number }
{
    purchase.number
}

/// The application cryptogram (9F26).
pub(crate) fn cryptogram(ac: &Ac) -> [u8; 8]
    ensures { result ≡ ac.now.cryptogram }
{
    ac.cryptogram
}
