//! The top call.
ghost use Rattle.std.specs.Prelude.{◌≡◌, map, string_bytes, false, None, option_map};
ghost use Rattle.line_talk.specs.Talk.{EndsDocument, Served, TalkSinkCount, TalkSourceCount, TalkEnds};
ghost use Rattle.card_at_reader.specs.Canned.{IsCannedTalk};
ghost use Rattle.card_at_reader.specs.Desk.{IsCardTalk, card_opening};
ghost use Rattle.card_at_reader.specs.Top.{IsTalkOf, card_name_in, card_programme, programme_of};

use crate::canned::CannedDesk;
use crate::desk::put_in;
use crate::document::{kind_of, read_cards};
use card_files::Image;
use emv_ports::{Pages, ReadFault, Sink, Source};
use line_talk::{Preamble, Status, answer_other, converse, read_preamble, refuse};
use scenario_plan::CardKind;
use std::alloc::Global;

/// Answers the lines for a card that has decided nothing yet.
fn serve_card<P: Pages, S: Source, K: Sink>(
    alloc: Global,
    image: &Image,
    pages: P,
    source: &mut S,
    sink: &mut K,
) -> Status
    requires off { (P.memory pages).on ≡ false }
    requires plan { (P.memory pages).plan ≡ None }
    ensures ends { TalkEnds (IsCardTalk image.now) card_opening
        (record { first = S.left source.old; left = S.left source.new; before = K.held sink.old; held = K.held sink.new }) result }
    ensures source { TalkSourceCount (S.faults source.old) (S.faults source.new) result }
    ensures sink { TalkSinkCount (K.faults sink.old) (K.faults sink.new) result }
{
    let mut desk = put_in(alloc, image, pages);
    converse(alloc, &mut desk, source, sink)
}

/// Answers the lines for a card of canned answers.
fn serve_canned<S: Source, K: Sink>(
    alloc: Global,
    answers: &[Vec<u8>],
    source: &mut S,
    sink: &mut K,
) -> Status
    ensures ends { TalkEnds (IsCannedTalk (map (λ answer. answer.items) answers.now)) card_opening
        (record { first = S.left source.old; left = S.left source.new; before = K.held sink.old; held = K.held sink.new }) result }
    ensures source { TalkSourceCount (S.faults source.old) (S.faults source.new) result }
    ensures sink { TalkSinkCount (K.faults sink.old) (K.faults sink.new) result }
{
    let mut desk = CannedDesk {
        answers,
        given: None,
    };
    converse(alloc, &mut desk, source, sink)
}

/// Answers the lines for a card, by what it answers.
fn serve_kind<P: Pages, S: Source, K: Sink>(
    alloc: Global,
    kind: &CardKind,
    pages: P,
    source: &mut S,
    sink: &mut K,
) -> Status
    requires off { (P.memory pages).on ≡ false }
    requires plan { (P.memory pages).plan ≡ None }
    ensures ends { TalkEnds (IsTalkOf kind.now) card_opening
        (record { first = S.left source.old; left = S.left source.new; before = K.held sink.old; held = K.held sink.new }) result }
    ensures source { TalkSourceCount (S.faults source.old) (S.faults source.new) result }
    ensures sink { TalkSinkCount (K.faults sink.old) (K.faults sink.new) result }
{
    match kind {
        CardKind::App(image) => serve_card(alloc, image, pages, source, sink),
        CardKind::Canned(answers) => serve_canned(alloc, answers.as_slice(), source, sink),
    }
}

/// Answers a document with its card, or with its fault.
fn serve_document<P: Pages, S: Source, K: Sink>(
    alloc: Global,
    name: Option<&[u8]>,
    bytes: &[u8],
    pages: P,
    source: &mut S,
    sink: &mut K,
) -> Status
    requires off { (P.memory pages).on ≡ false }
    requires plan { (P.memory pages).plan ≡ None }
    ensures ends { EndsDocument (card_programme (option_map (λ name. name.now) name.entry)) bytes.now
        (record { first = S.left source.old; left = S.left source.new; before = K.held sink.old; held = K.held sink.new }) result }
    ensures source { TalkSourceCount (S.faults source.old) (S.faults source.new) result }
    ensures sink { TalkSinkCount (K.faults sink.old) (K.faults sink.new) result }
{
    match read_cards(alloc, bytes) {
        Ok(cards) => match kind_of(cards.as_slice(), name) {
            Some(kind) => serve_kind(alloc, kind, pages, source, sink),
            None => answer_other(sink),
        },
        Err(fault) => refuse(alloc, &fault, sink),
    }
}

/// Reads a document, and serves it.
fn serve<P: Pages, S: Source, K: Sink>(
    alloc: Global,
    name: Option<&[u8]>,
    pages: P,
    source: &mut S,
    sink: &mut K,
) -> Status
    requires off { (P.memory pages).on ≡ false }
    requires plan { (P.memory pages).plan ≡ None }
    ensures served { Served (card_programme (option_map (λ name. name.now) name.entry))
        (record { first = S.left source.old; left = S.left source.new; before = K.held sink.old; held = K.held sink.new }) result }
    ensures source { TalkSourceCount (S.faults source.old) (S.faults source.new) result }
    ensures sink { TalkSinkCount (K.faults sink.old) (K.faults sink.new) result }
{
    match read_preamble(alloc, source) {
        Ok(Preamble::Document(bytes)) => {
            serve_document(alloc, name, bytes.as_slice(), pages, source, sink)
        }
        Ok(Preamble::Other) => answer_other(sink),
        Err(ReadFault::Failed) => Status::SourceFailed,
        Err(ReadFault::OutOfMemory) => Status::OutOfMemory,
    }
}

/// The card's name, where one is said.
fn name_in(words: &[String]) -> Option<&[u8]>
    ensures { option_map (λ name. name.now) result ≡ card_name_in (map string_bytes words.now) }
{
    match words {
        [] => None,
        [name, ..] => Some(name.as_bytes()),
    }
}

/// Answers the lines for a card: the source begins with a line `document N`, N bytes of a scenario's TOML document, and
/// then the lines. The only word is the card's name; without it the first card is taken. The pages are off and have no
/// plan. Gives the status.
pub fn run<P: Pages, S: Source, K: Sink>(
    alloc: Global,
    words: &[String],
    pages: P,
    source: &mut S,
    sink: &mut K,
) -> Status
    requires off { (P.memory pages).on ≡ false }
    requires plan { (P.memory pages).plan ≡ None }
    // Which lines were read, and how far the answers to them were written, by the status.
    ensures served { Served (programme_of (map string_bytes words.now))
        (record { first = S.left source.old; left = S.left source.new; before = K.held sink.old; held = K.held sink.new }) result }
    // The counts of faults rise for what failed, and for nothing else.
    ensures source { TalkSourceCount (S.faults source.old) (S.faults source.new) result }
    ensures sink { TalkSinkCount (K.faults sink.old) (K.faults sink.new) result }
{
    if words.len() > 1 {
        return answer_other(sink);
    }
    serve(alloc, name_in(words), pages, source, sink)
}
