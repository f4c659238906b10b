//! Terminal action analysis (EMV 4.3 Book 3 section 10.7): which cryptogram a terminal asks a card
//! for, by its verification results and the action codes of issuer and terminal.
#![tactic(auto)]

ghost use Rattle.std.specs.Prelude.{◌≡◌, ◌≢◌, ◌≤◌, ◌<◌, ◌↔◌, ℕ, option_map, unwrap_or, replicate, IsTrue};
ghost use Rattle.emv_dict.specs.Flags.{StandsIn, IsWithin};
ghost use Rattle.object_lists.specs.Forms.{HasIfThere, has_count};
ghost use Rattle.action_analysis.specs.Analysed as spec;
ghost use Rattle.action_analysis.specs.TerminalKinds.{IsMerchants};

use ber_tlv::Tag;
use emv_dict::{AidRow, Kind, Tvr};
use env_map::Env;
use object_lists::CardData;

/// Action codes, with the bits of the terminal verification results: the issuer's, or those of issuer and
/// terminal together.
#[derive(Clone, Copy, PartialEq, Eq, Debug)]
pub struct Codes {
    /// A common bit declines the transaction.
    pub denial: [u8; 5],
    /// A common bit sends it online.
    pub online: [u8; 5],
    /// The default code: a common bit declines it where it can't go online.
    pub fallback: [u8; 5],
}

/// The issuer's action codes, objects 9F0E, 9F0F and 9F0D. In place of an absent one stands a denial code
/// without a bit, or an online or default code with all bits.
#[tactic(auto, unfolding(crate::specs::Analysed::issuer_codes))]
pub fn issuer_codes(card: &CardData) -> Codes
    ensures { result ≡ spec.issuer_codes card.now }
{
    let objects = card.env();
    Codes {
        denial: issuer_code(objects, Tag(0x9f0e), 0x00),
        online: issuer_code(objects, Tag(0x9f0f), 0xff),
        fallback: issuer_code(objects, Tag(0x9f0d), 0xff),
    }
}

/// The issuer's action codes joined with the terminal's for this application.
#[tactic(auto, unfolding(crate::specs::Analysed::codes_of))]
pub fn codes_of(card: &CardData, row: &AidRow) -> Codes
    ensures { result ≡ spec.codes_of card.now row.now }
{
    let issuers = issuer_codes(card);
    Codes {
        denial: joined(issuers.denial, row.denial),
        online: joined(issuers.online, row.online),
        fallback: joined(issuers.fallback, row.fallback),
    }
}

/// The kind of cryptogram that a terminal of this type, 21 to 26, asks for first.
#[tactic(auto, unfolding(crate::specs::Analysed::wanted))]
pub fn wanted(tvr: Tvr, codes: &Codes, kind: u8) -> Kind
    requires { IsMerchants kind }
    ensures value { result ≡ spec.wanted tvr.0 codes.now kind }
    // Where the results have a bit of the denial code, no other kind is asked for.
    ensures denied { IsTrue (spec.meets tvr.0 codes.now.denial) → result ≡ Kind.Aac }
{
    if tvr.meets(codes.denial) {
        return Kind::Aac;
    }
    match kind {
        21 | 24 => Kind::Arqc,
        22 | 25 => {
            if tvr.meets(codes.online) {
                Kind::Arqc
            } else {
                Kind::Tc
            }
        }
        _ => offline(tvr, codes),
    }
}

/// The kind of cryptogram that a terminal of this type, 21 to 26, asks for where it was unable to go
/// online.
#[tactic(auto, unfolding(crate::specs::Analysed::unable))]
pub fn unable(tvr: Tvr, codes: &Codes, kind: u8) -> Kind
    requires { IsMerchants kind }
    ensures value { result ≡ spec.unable tvr.0 codes.now kind }
    // No terminal goes online once it was unable to.
    ensures offline { result ≢ Kind.Arqc }
{
    match kind {
        21 | 24 => Kind::Aac,
        _ => offline(tvr, codes),
    }
}

/// What the default code says.
fn offline(tvr: Tvr, codes: &Codes) -> Kind
    ensures { result ≡ spec.offline_kind tvr.0 codes.now }
{
    if tvr.meets(codes.fallback) {
        Kind::Aac
    } else {
        Kind::Tc
    }
}

/// The issuer's action code among the card's objects, or five bytes `absent`.
fn issuer_code(objects: &Env, tag: Tag, absent: u8) -> [u8; 5]
    requires { HasIfThere tag.0 (has_count 5) objects.now }
    ensures { result ≡ spec.issuer_code tag.0 absent objects.now }
{
    match objects.get(tag) {
        Some([a, b, c, d, e]) => [*a, *b, *c, *d, *e],
        Some(_) => unreachable!(),
        None => [absent; 5],
    }
}

/// Each bit that stands in one or the other.
fn joined(first: [u8; 5], second: [u8; 5]) -> [u8; 5]
    ensures { result ≡ spec.bits_of_either first second }
{
    let [a, b, c, d, e] = first;
    let [f, g, h, i, j] = second;
    [a | f, b | g, c | h, d | i, e | j]
}
