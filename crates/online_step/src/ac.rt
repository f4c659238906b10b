//! The answer to GENERATE AC (EMV 4.3 Book 3 section 6.5.5.4).
ghost use Rattle.std.specs.Prelude.{◌≡◌, ◌≤◌, length, false, Ok, Err, IfOk, MatchResult};
ghost use Rattle.online_step.specs.Ac.{ac_in_answer, allowed_ac, is_kind_refused as refusal_test};
ghost use Rattle.online_step.specs.SeenAc.{seen_objects};

use crate::objects::{Objects, read_objects};
use apdu_core::read_response;
use apdu_core::status::NO_ERROR;
use arrayvec::ArrayVec;
use ber_tlv::append;
use emv_dict::{Ac, Cause, Kind};

/// Which GENERATE AC of a transaction: that of card action analysis, or that of completion (EMV 4.3 Book 3
/// sections 10.8 and 10.11).
#[derive(Clone, Copy)]
pub enum GenerateAc {
    /// With the data of CDOL1.
    First,
    /// With those of CDOL2.
    Second,
}

/// Reads the answer to this GENERATE AC, which asked for this kind. It is refused by `Answer` where it is
/// none, by its `Status`, by `Coding` where its data are neither an object 80 nor a template 77, by `Missing`
/// and `Value` of an object (9F27, 9F36, 9F26, 9F10 in this order, or 80), and by `Kind` with the cryptogram
/// information data, where the kind is above the one asked in the order TC, ARQC, AAC, or is ARQC the second
/// time (EMV 4.3 Book 3 sections 6.5.5.4 and 10.8).
#[tactic(auto, unfolding(crate::specs::Ac::ac_in_answer))]
pub fn read_ac(reply: &[u8], asked: Kind, which: GenerateAc) -> Result<Ac, Cause>
    ensures exact { MatchResult result
        (λ ac. ac_in_answer reply.now asked which ≡ Ok ac)
        (λ cause. ac_in_answer reply.now asked which ≡ Err cause) }
    ensures kind { IfOk result (λ ac. refusal_test ac.kind asked which ≡ false) }
{
    let Ok(response) = read_response(reply) else {
        return Err(Cause::Answer);
    };
    if response.status != NO_ERROR {
        return Err(Cause::Status(response.status));
    }
    match read_objects(response.body) {
        Ok(objects) => allowed(&objects, asked, which),
        Err(cause) => Err(cause),
    }
}

/// What the objects give, where their kind may be answered.
fn allowed(objects: &Objects, asked: Kind, which: GenerateAc) -> Result<Ac, Cause>
    requires { length objects.now.iad.now ≤ 32 }
    ensures exact { MatchResult result
        (λ ac. allowed_ac asked which (seen_objects objects.now) ≡ Ok ac)
        (λ cause. allowed_ac asked which (seen_objects objects.now) ≡ Err cause) }
    ensures kind { IfOk result (λ ac. refusal_test ac.kind asked which ≡ false) }
{
    let Some(kind) = Kind::of(objects.information) else {
        return Err(Cause::Kind(objects.information));
    };
    if is_refused(kind, asked, which) {
        return Err(Cause::Kind(objects.information));
    }
    let [high, low] = objects.counter;
    let mut iad = ArrayVec::new();
    append(&mut iad, objects.iad);
    Ok(Ac {
        kind,
        counter: u16::from(high) * 256 + u16::from(low),
        cryptogram: objects.cryptogram,
        iad,
    })
}

/// Whether a card may not answer this kind.
fn is_refused(kind: Kind, asked: Kind, which: GenerateAc) -> bool
    ensures { result ≡ refusal_test kind asked which }
{
    match which {
        GenerateAc::First => kind.is_above(asked),
        GenerateAc::Second => kind.is_above(asked) || kind == Kind::Arqc,
    }
}
