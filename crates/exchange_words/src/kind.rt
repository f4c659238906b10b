//! The kind of cryptogram that is answered, where it is not the one that was asked for (EMV 4.3 Book 3
//! sections 6.5.5 and 10.8).
ghost use Rattle.std.specs.Prelude.{◌≡◌, Some, option_map};
ghost use Rattle.exchange_words.specs.Kinds as spec;
ghost use Rattle.value_words.specs.Statuses.{kind_name as short_name};
ghost use Rattle.report_lines.specs.Pieces.{Tells};

use crate::lane::LaneState;
use ber_tlv::{Tag, first_value, sole_value};
use emv_dict::Kind;
use report_lines::WordLines;

/// The short name of a kind.
pub fn kind_name(kind: Kind) -> &'static [u8]
    ensures { result.now ≡ short_name kind }
{
    match kind {
        Kind::Aac => b"AAC",
        Kind::Tc => b"TC",
        Kind::Arqc => b"ARQC",
    }
}

/// The first object of this tag; nothing where there is none, or no whole objects.
pub fn value_or_empty(objects: &[u8], tag: u32) -> &[u8]
    ensures { result.now ≡ spec.value_or_empty tag objects.now }
{
    match first_value(objects, Tag(tag)) {
        Ok(Some(value)) => value,
        _ => &[],
    }
}

/// The cryptogram information data and the issuer application data of an answer in format 2.
fn parts_of_two(template: &[u8]) -> Option<(u8, &[u8])>
    ensures { option_map (λ parts. (parts.0, parts.1.now)) result ≡ spec.parts_of_two template.now }
{
    match value_or_empty(template, 0x9f27) {
        [kind] => Some((*kind, value_or_empty(template, 0x9f10))),
        _ => None,
    }
}

/// The same of an answer in format 1.
fn parts_of_one(value: &[u8]) -> Option<(u8, &[u8])>
    ensures { option_map (λ parts. (parts.0, parts.1.now)) result ≡ spec.parts_of_one value.now }
{
    match value.split_at_checked(11) {
        Some(([kind, ..], data)) => Some((*kind, data)),
        _ => None,
    }
}

/// The cryptogram information data and the issuer application data of an answer.
fn cryptogram_parts(body: &[u8]) -> Option<(u8, &[u8])>
    ensures { option_map (λ parts. (parts.0, parts.1.now)) result ≡ spec.cryptogram_parts body.now }
{
    match sole_value(body, Tag(0x80)) {
        Some(value) => parts_of_one(value),
        None => match sole_value(body, Tag(0x77)) {
            Some(template) => parts_of_two(template),
            None => None,
        },
    }
}

/// The flags of issuer application data of this project's form.
fn flags_of(data: &[u8]) -> Option<u8>
    ensures { result ≡ spec.flags_in_data data.now }
{
    match data {
        [1, _, flags, _, _, 1] => Some(*flags),
        _ => None,
    }
}

/// Tells why a TC that was asked for was not given, by the card's flags.
fn tell_refused(out: &mut WordLines, flags: u8)
    ensures { Tells out.old out.new (spec.refused_words flags) }
{
    if flags % 2 == 1 {
        out.text(b": the application is blocked");
    } else if flags / 2 % 2 == 1 {
        out.text(b": its last issuer authentication failed");
    } else {
        out.text(b": its limits of offline approvals, or the currency");
    }
}

/// Tells the same where the flags are known. `by_issuer` says that the card had the issuer's reply.
fn tell_flags(out: &mut WordLines, by_issuer: bool, flags: Option<u8>)
    ensures { Tells out.old out.new (spec.refusal_flags_words by_issuer flags) }
{
    if let Some(flags) = flags {
        if by_issuer && flags % 2 == 0 {
            out.text(
                b": the issuer was not authenticated, refuses by its status, or the card is blocked",
            );
        } else {
            tell_refused(out, flags);
        }
    }
}

/// Tells why a kind below the one that was asked for was given: below a TC.
fn tell_why(out: &mut WordLines, by_issuer: bool, asked: Kind, data: &[u8])
    ensures { Tells out.old out.new (spec.why_words by_issuer asked data.now) }
{
    match asked {
        Kind::Tc => tell_flags(out, by_issuer, flags_of(data)),
        Kind::Aac | Kind::Arqc => {}
    }
}

/// Tells an answer of another kind than the one that was asked for.
fn tell_other_kind(out: &mut WordLines, lane: &LaneState, asked: Kind, kind: Kind, data: &[u8])
    ensures { Tells out.old out.new (spec.other_kind_words lane.now asked kind data.now) }
{
    out.line(1);
    out.text(b"asked for ");
    out.text(kind_name(asked));
    out.text(b", the card answers ");
    out.text(kind_name(kind));
    if kind.is_above(asked) {
        out.text(b", which it may not");
    } else {
        tell_why(out, lane.second && lane.code.is_some(), asked, data);
    }
}

/// Whether two kinds are the same.
fn is_same_kind(one: Kind, other: Kind) -> bool
    ensures { result ≡ spec.is_same_kind one other }
{
    match one {
        Kind::Aac => matches!(other, Kind::Aac),
        Kind::Tc => matches!(other, Kind::Tc),
        Kind::Arqc => matches!(other, Kind::Arqc),
    }
}

/// Tells a kind that was answered, where another one was asked for.
fn tell_if_other(out: &mut WordLines, lane: &LaneState, kind: Kind, data: &[u8])
    ensures { Tells out.old out.new (spec.if_other lane.now lane.now.asked kind data.now) }
{
    if let Some(asked) = lane.asked {
        if !is_same_kind(asked, kind) {
            tell_other_kind(out, lane, asked, kind, data);
        }
    }
}

/// The kind that cryptogram information data name, and the issuer application data.
fn answered(body: &[u8]) -> Option<(Kind, &[u8])>
    ensures { option_map (λ found. (found.0, found.1.now)) result ≡ spec.kind_answered body.now }
{
    let (information, data) = cryptogram_parts(body)?;
    match Kind::of(information) {
        Some(kind) => Some((kind, data)),
        None => None,
    }
}

/// Tells the kind that is answered where it is not the one that was asked for, and keeps it.
pub fn tell_kind(out: &mut WordLines, lane: &mut LaneState, body: &[u8])
    ensures words { Tells out.old out.new (spec.answered_kind_words lane.old (spec.kind_answered body.now)) }
    ensures left { lane.new ≡ spec.with_kind lane.old (spec.kind_answered body.now) }
{
    lane.cryptograms = lane.cryptograms.saturating_add(1);
    if let Some((kind, data)) = answered(body) {
        lane.answered = Some(kind);
        tell_if_other(out, lane, kind, data);
    }
}
