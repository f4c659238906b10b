//! Pages that are written and read byte by byte, in the layout that docs/proof/formats.md gives them.
ghost use Rattle.std.specs.Prelude.{◌≡◌, ◌<◌, ◌≤◌, ℕ, List, length, true, false};
ghost use Rattle.emv_ports.specs.Memory.{IsBlank, page_written};
ghost use Rattle.torn_store.specs.Layout.{padded_page, recover};
ghost use Rattle.torn_store.specs.Recovery.{Between};

use crate::tears::{opened, place_of, torn_pages};
use emv_ports::{Gone, MemoryPages, Pages, Tear};
use std::process::Abort;

/// A page that begins with these bytes, and has 00 behind them.
fn page_of(front: &[u8]) -> [u8; 64]
    requires { length front.now ≤ 64 }
    ensures { result ≡ padded_page front.now }
{
    let mut bytes = [0; 64];
    bytes[..front.len()].copy_from_slice(front);
    bytes
}

/// Writes such a page.
fn put<P: Pages>(rt: &impl Abort, pages: &mut P, page: u8, front: &[u8])
    requires on { (P.memory pages.old).on ≡ true }
    requires page { page < 64 }
    requires front { length front.now ≤ 64 }
    ensures { P.memory pages.new ≡ page_written (P.memory pages.old) page (padded_page front.now) }
{
    match pages.write(page, &page_of(front)) {
        Ok(()) => {}
        Err(Gone) => panic!(rt; "no tear is planned"),
    }
}

/// Blank pages on which are then written an open gate, a home with a state of 130 bytes in three pages,
/// and a journal for the first page, with a length of 129 bytes, and for the third.
fn open_gate<P: Pages>(rt: &impl Abort, pages: P) -> P
    requires { IsBlank (P.memory pages) }
    ensures off { (P.memory result).on ≡ false }
    ensures between { (before : List ℕ) × (after : List ℕ)
        × Between recover (P.memory result).cells before after }
{
    let mut pages = pages;
    pages.power_up();
    put(rt, &mut pages, 0, &[0x01; 64]);
    put(rt, &mut pages, 1, &[0x00, 0x82, 0x0A]);
    put(rt, &mut pages, 2, &[0x0B]);
    put(rt, &mut pages, 3, &[0x0C, 0x0D]);
    put(rt, &mut pages, 18, &[0x02, 0x01, 0x03]);
    put(rt, &mut pages, 19, &[0x00, 0x81, 0x1A]);
    put(rt, &mut pages, 20, &[0x1C, 0x1D]);
    pages.power_off();
    pages
}

/// Whether the page begins with these bytes.
fn begins<P: Pages>(pages: &P, page: u8, front: &[u8]) -> bool
    requires { (P.memory pages.now).on ≡ true }
{
    page < 64 && pages.read(page).starts_with(front)
}

/// What pages begin with once the open gate was found.
const FOUND: [(u8, &[u8]); 4] = [
    (0, &[0x00; 64]),
    (1, &[0x00, 0x81, 0x1A, 0x00]),
    (2, &[0x0B, 0x00]),
    (3, &[0x1C, 0x1D, 0x00]),
];

#[test]
fn an_open_gate_gives_the_home_under_the_journal(rt: HostRuntime) {
    let store = opened(open_gate(&rt, MemoryPages::blank()), None);
    let mut state = [0; 129];
    state[0] = 0x1A;
    state[62] = 0x0B;
    state[126] = 0x1C;
    state[127] = 0x1D;
    assert!(rt; store.state() == state.as_slice());
    let mut pages = store.into_pages();
    pages.power_up();
    for row in &FOUND {
        let (page, front) = *row;
        assert!(rt; begins(&pages, page, front), "page {page}");
    }
}

/// What the home page of the state 03 03 begins with, and that of the state 07 08 09.
const OLD: [u8; 6] = [0x00, 0x02, 0x03, 0x03, 0x00, 0x00];

const NEW: [u8; 6] = [0x00, 0x03, 0x07, 0x08, 0x09, 0x00];

/// What stands in the pages where a commit of the one state behind the other is cut before its second,
/// third, fourth and fifth write, and at its release: the number of the place, the gate, the first home
/// page and the header. The first write is the journal's page.
const CUTS: [(u8, u8, [u8; 6], [u8; 2]); 5] = [
    (2, 0x00, OLD, [0x00, 0x00]),
    (4, 0x00, OLD, [0x01, 0x01]),
    (6, 0x01, OLD, [0x01, 0x01]),
    (8, 0x01, NEW, [0x01, 0x01]),
    (10, 0x00, NEW, [0x01, 0x01]),
];

#[test]
fn a_cut_commit_leaves_these_bytes(rt: HostRuntime) {
    for row in &CUTS {
        let (number, gate, home, header) = *row;
        let at = place_of(number, 5);
        let tear = Tear { commit: 1, at };
        let (pages, commit) = torn_pages(MemoryPages::blank(), &[3, 3], &[7, 8, 9], tear);
        let mut pages = pages;
        pages.power_up();
        let are_left = begins(&pages, 0, &[gate; 64])
            && begins(&pages, 1, &home)
            && begins(&pages, 18, &header)
            && begins(&pages, 19, &NEW);
        assert!(rt; commit == 1 && are_left, "{at:?}");
    }
}
