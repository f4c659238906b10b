//! What a command asks for by P1 and P2, and the phase behind a first cryptogram.
ghost use Rattle.std.specs.Prelude.{◌≡◌, ◌≤◌, ◌==◌, length, Some, None, IsTrue, if◌then◌else◌};
ghost use Rattle.object_lists.specs.DolEntries.{total_of};
ghost use Rattle.card_cryptogram.specs.Asked as spec;
ghost use Rattle.card_cryptogram.specs.declared.phase.Phase.TheVariants.{Online, Closed};

use crate::phase::{First, Phase};
use emv_dict::Kind;
use object_lists::{Dol, total};

/// Whether the class is one that a card knows: of interindustry and of proprietary commands, each without
/// and with secure messaging (EMV 4.3 Book 3 section 6.3.2).
pub fn is_class(class: u8) -> bool
    ensures { result ≡ spec.is_class class }
{
    class == 0x00 || class == 0x04 || class == 0x80 || class == 0x84
}

/// P2 of a SELECT of the next occurrence.
pub const NEXT_OCCURRENCE: u8 = 0x02;

/// Whether P1 P2 of SELECT ask for an application by its name, the first or the next occurrence (EMV 4.3
/// Book 1 section 11.3.2).
pub fn is_by_name(p1: u8, p2: u8) -> bool
    ensures { result ≡ spec.is_by_name p1 p2 }
{
    p1 == 0x04 && (p2 == 0x00 || p2 == NEXT_OCCURRENCE)
}

/// Whether so many bytes may be an application's name or its beginning: from 1 to 16.
pub fn is_name_size(size: usize) -> bool
    ensures { result ≡ spec.is_name_size size }
{
    1 <= size && size <= 16
}

/// Whether P1 of READ RECORD is a record's number, and P2 names a file by its identifier from 1 to 30
/// (EMV 4.3 Book 3 section 6.5.11).
pub fn is_record_named(p1: u8, p2: u8) -> bool
    ensures exact { result ≡ spec.is_record_named p1 p2 }
    ensures number { IsTrue result → 1 ≤ p1 }
{
    p1 != 0 && (p2 % 8 == 4 && (p2 / 8 != 0 && p2 / 8 <= 30))
}

/// The kind that P1 asks for with its two high bits, the others and P2 zero.
pub fn kind_asked(p1: u8, p2: u8) -> Option<Kind>
    ensures { result ≡ spec.kind_asked p1 p2 }
{
    if p2 == 0 && p1 % 64 == 0 {
        Kind::of(p1)
    } else {
        None
    }
}

/// Whether the profile has issuer authentication: bit 3 of its first byte (EMV 4.3 Book 3 Annex C1).
pub fn has_issuer_auth(aip: [u8; 2]) -> bool
    ensures { result ≡ spec.has_issuer_auth aip }
{
    aip[0] / 4 % 2 == 1
}

/// Whether the data has the length that the list wants.
pub fn is_of_list(dol: &Dol, filled: &[u8]) -> bool
    ensures exact { result ≡ (length filled.now == total_of dol.now) }
    ensures whole { IsTrue result → length filled.now ≡ total_of dol.now }
{
    filled.len() == total(dol) as usize
}

/// The phase behind a first cryptogram.
pub fn phase_behind(app: u8, kind: Kind, first: First) -> Phase
    ensures { result ≡ (if spec.is_arqc kind then Online app first None else Closed app) }
{
    match kind {
        Kind::Arqc => Phase::Online {
            app,
            first,
            sent: None,
        },
        Kind::Tc => Phase::Closed { app },
        Kind::Aac => Phase::Closed { app },
    }
}
