//! The top call.
ghost use Rattle.std.specs.Prelude.{◌≡◌, [], ℕ, List, Ok, map, string_bytes};
ghost use Rattle.std.specs.List.{All};
ghost use Rattle.issuer_host.specs.Account.{IsAccount};
ghost use Rattle.issuer_host.specs.History.{HostStands};
ghost use Rattle.line_talk.specs.Talk.{EndsDocument, Served, TalkSinkCount, TalkSourceCount, TalkEnds};
ghost use Rattle.host_at_lines.specs.Document.{ReadsIssuer};
ghost use Rattle.host_at_lines.specs.Talk.{IsHostTalk, host_opening};
ghost use Rattle.host_at_lines.specs.Top.{host_programme, host_programme_of};

use crate::at_lines::begin;
use crate::document::{Issuer, read_issuer};
use emv_ports::{ReadFault, Sink, Source};
use issuer_host::{Account, Host};
use line_talk::{Preamble, Status, answer_other, converse, read_preamble, refuse};
use std::alloc::Global;

/// Answers the lines for a host to which no message came yet.
fn serve_host<S: Source, K: Sink>(
    alloc: Global,
    host: Host<'_>,
    accounts: &[Account],
    source: &mut S,
    sink: &mut K,
) -> Status
    requires begun { HostStands host [] }
    requires accounts { accounts.now ≡ host.accounts }
    ensures ends { TalkEnds (IsHostTalk host.entry.keys host.entry.accounts) host_opening
        (record { first = S.left source.old; left = S.left source.new; before = K.held sink.old; held = K.held sink.new }) result }
    ensures source { TalkSourceCount (S.faults source.old) (S.faults source.new) result }
    ensures sink { TalkSinkCount (K.faults sink.old) (K.faults sink.new) result }
{
    let mut at = begin(alloc, host, accounts);
    converse(alloc, &mut at, source, sink)
}

/// Answers the lines for an issuer's host, or tells by the status that there is no memory for it.
fn serve_issuer<S: Source, K: Sink>(
    alloc: Global,
    issuer: Issuer,
    source: &mut S,
    sink: &mut K,
) -> Status
    requires { All IsAccount issuer.accounts.items }
    ensures ends { (bytes : List ℕ) → ReadsIssuer bytes (Ok (record { keys = issuer.keys; accounts = issuer.accounts.items }))
        → EndsDocument host_programme bytes (record { first = S.left source.old; left = S.left source.new; before = K.held sink.old; held = K.held sink.new }) result }
    ensures source { TalkSourceCount (S.faults source.old) (S.faults source.new) result }
    ensures sink { TalkSinkCount (K.faults sink.old) (K.faults sink.new) result }
{
    let Issuer { keys, accounts } = issuer;
    match Host::new(alloc, keys, accounts.as_slice()) {
        Ok(host) => serve_host(alloc, host, accounts.as_slice(), source, sink),
        // No two accounts of a document have one number: this is want of memory.
        Err(_) => Status::OutOfMemory,
    }
}

/// Answers a document with its issuer's host, or with its fault.
fn serve_document<S: Source, K: Sink>(
    alloc: Global,
    bytes: &[u8],
    source: &mut S,
    sink: &mut K,
) -> Status
    ensures ends { EndsDocument host_programme bytes.now
        (record { first = S.left source.old; left = S.left source.new; before = K.held sink.old; held = K.held sink.new }) result }
    ensures source { TalkSourceCount (S.faults source.old) (S.faults source.new) result }
    ensures sink { TalkSinkCount (K.faults sink.old) (K.faults sink.new) result }
{
    match read_issuer(alloc, bytes) {
        Ok(issuer) => serve_issuer(alloc, issuer, source, sink),
        Err(fault) => refuse(alloc, &fault, sink),
    }
}

/// Reads a document, and serves it.
fn serve<S: Source, K: Sink>(alloc: Global, source: &mut S, sink: &mut K) -> Status
    ensures served { Served host_programme
        (record { first = S.left source.old; left = S.left source.new; before = K.held sink.old; held = K.held sink.new }) result }
    ensures source { TalkSourceCount (S.faults source.old) (S.faults source.new) result }
    ensures sink { TalkSinkCount (K.faults sink.old) (K.faults sink.new) result }
{
    match read_preamble(alloc, source) {
        Ok(Preamble::Document(bytes)) => serve_document(alloc, bytes.as_slice(), source, sink),
        Ok(Preamble::Other) => answer_other(sink),
        Err(ReadFault::Failed) => Status::SourceFailed,
        Err(ReadFault::OutOfMemory) => Status::OutOfMemory,
    }
}

/// Answers the lines for an issuer's host: the source begins with a line `document N`, N bytes of a scenario's TOML
/// document, and then the lines. There are no words. Gives the status.
pub fn run<S: Source, K: Sink>(
    alloc: Global,
    words: &[String],
    source: &mut S,
    sink: &mut K,
) -> Status
    // Which lines were read, and how far the answers to them were written, by the status.
    ensures served { Served (host_programme_of (map string_bytes words.now))
        (record { first = S.left source.old; left = S.left source.new; before = K.held sink.old; held = K.held sink.new }) result }
    // The counts of faults rise for what failed, and for nothing else.
    ensures source { TalkSourceCount (S.faults source.old) (S.faults source.new) result }
    ensures sink { TalkSinkCount (K.faults sink.old) (K.faults sink.new) result }
{
    if words.len() > 0 {
        return answer_other(sink);
    }
    serve(alloc, source, sink)
}
