//! A terminal whose AIDs a row names, and what selection comes to with it.
ghost use Rattle.std.specs.Prelude.{◌≤◌};
ghost use Rattle.std.specs.List.{All};
ghost use Rattle.emv_dict.specs.Settings.{IsSettings, IsAidRow};

use crate::hexadecimal::bytes;
use apdu_core::Out;
use app_select::SelectNext;
use arrayvec::ArrayVec;
use emv_dict::{AidRow, Cause, Name, Settings};
use std::alloc::AllocGlobal;
use std::process::Abort;

/// The bytes of hexadecimal digits, or of a text with a name: SELECT of the directory, and its answer where
/// the records stand in file 1; SELECT of the first application, and the answer of a plain card.
pub(crate) fn meant(word: &str) -> ArrayVec<u8, 261> {
    bytes(match word {
        "name" => "00a404000e315041592e5359532e444446303100",
        "dir" => "6f15840e315041592e5359532e4444463031a5038801019000",
        "aid" => "00a4040007a000000003101000",
        "plain" => "6f168407a0000000031010a50b50064352454449548701019000",
        _ => word,
    })
}

fn row(rt: &impl Abort, word: &str) -> AidRow
    ensures { IsAidRow result }
{
    let name = Name::new(&bytes(word)).expect(rt, word);
    assert!(rt; name.as_slice().len() >= 5);
    AidRow {
        name,
        partial: word.ends_with("+"),
        version: [0x00, 0x96],
        denial: [0; 5],
        online: [0; 5],
        fallback: [0; 5],
        floor: 10000,
        threshold: 5000,
        target: 10,
        max_target: 50,
    }
}

/// The rows of one name, or of two with a comma between them.
fn rows(rt: &(impl AllocGlobal + Abort), words: &str) -> Vec<AidRow>
    ensures valid { All IsAidRow result.items }
{
    let mut rows = Vec::new(rt.alloc());
    let Some((first, second)) = words.split_once(",") else {
        rows.push(row(rt, words)).expect(rt, "memory");
        return rows;
    };
    rows.push(row(rt, first)).expect(rt, "memory");
    rows.push(row(rt, second)).expect(rt, "memory");
    rows
}

/// A terminal with these AIDs (`+`: partial names too), that begins with the directory or doesn't.
pub fn settings(rt: &(impl AllocGlobal + Abort), words: &str, pse: bool) -> Settings
    ensures { IsSettings result }
{
    let aids = rows(rt, words);
    assert!(rt; !aids.is_empty() && aids.len() <= 16);
    Settings {
        kind: 22,
        country: [0x08, 0x40],
        caps: [0xe0, 0xb8, 0xc8],
        id: *b"TERM0001",
        pin_key: [0; 16],
        exceptions: Vec::new(rt.alloc()),
        aids,
        pse,
    }
}

/// What follows an exchange, whose command is as it must be.
pub fn selected<'s>(rt: &impl Abort, next: SelectNext<'s>, exchange: &str) -> SelectNext<'s> {
    let (command, word) = exchange.split_once(' ').unwrap_or((exchange, ""));
    match next {
        SelectNext::Ask(selecting) => {
            let mut out = Out::new();
            selecting.ask(&mut out);
            assert!(rt; out.as_slice() == meant(command).as_slice(), "{exchange}");
            selecting.take(&meant(word))
        }
        SelectNext::Chosen(selected) => {
            assert!(rt; command == "refused", "{exchange}");
            selected.refuse()
        }
        SelectNext::Ended(cause) => SelectNext::Ended(cause),
    }
}

/// Whether selection ends like this: with a cause, or with the chosen AID and the object list of the application.
pub(crate) fn ends(next: SelectNext<'_>, end: &str) -> bool {
    match next {
        SelectNext::Ask(_) => false,
        SelectNext::Chosen(selected) => {
            let (word, objects) = end.rsplit_once(' ').unwrap_or((end, ""));
            let (_, aid) = word.split_once(' ').unwrap_or((word, ""));
            let list = match selected.pdol() {
                None => objects == "-",
                Some(list) => list == bytes(objects).as_slice(),
            };
            list && selected.row().name.as_slice() == bytes(aid).as_slice()
        }
        SelectNext::Ended(Cause::NoCandidate) => end == "no-candidate",
        SelectNext::Ended(Cause::CardBlocked) => end == "card-blocked",
        SelectNext::Ended(cause) => cause == Cause::Answer && end == "answer",
    }
}
