//! The card, the terminal and the purchase of the rows.
ghost use Rattle.std.specs.Prelude.{◌≡◌};
ghost use Rattle.emv_dict.specs.Settings.{IsAidRow};

use ber_tlv::Tag;
use emv_dict::{AidRow, Name, Purchase, Settings};
use env_map::Env;
use object_lists::CardData;
use std::alloc::AllocGlobal;
use std::process::Abort;

/// A card with these objects beside the mandatory ones; it expires on the last day of 2026.
pub fn card_with(rt: &impl Abort, objects: &[(u32, &[u8])]) -> CardData {
    let mut env = Env::new();
    for (tag, value) in objects {
        let _ = env.put(Tag(*tag), value);
    }
    for (tag, value) in MANDATORY {
        let _ = env.put(Tag(tag), value);
    }
    CardData::checked(env).expect(rt, "a card that is read")
}

const MANDATORY: [(u32, &[u8]); 6] = [
    (0x82, &[0x00, 0x00]),
    (0x94, &[0x08, 0x01, 0x01, 0x00]),
    (0x5a, &[0x47, 0x61, 0x73, 0x90, 0x01, 0x01, 0x00, 0x10]),
    (0x5f24, &[0x26, 0x12, 0x31]),
    (0x8c, &[0x95, 0x05]),
    (0x8d, &[0x95, 0x05]),
];

/// A terminal in the USA of this type, with this second byte of its capabilities.
pub fn settings(rt: &(impl AllocGlobal + Abort), kind: u8, caps: u8) -> Settings {
    Settings {
        kind,
        country: [0x08, 0x40],
        caps: [0xe0, caps, 0xc8],
        id: *b"TERM0001",
        pin_key: [0; 16],
        exceptions: Vec::new(rt.alloc()),
        aids: Vec::new(rt.alloc()),
        pse: false,
    }
}

/// An application of version 0096 with these action codes for denial, online and default, with this floor limit
/// and threshold and with this target and greatest target.
pub fn row(rt: &impl Abort, codes: [[u8; 5]; 3], limits: [u64; 2], targets: [u8; 2]) -> AidRow
    ensures { IsAidRow result }
{
    let [denial, online, fallback] = codes;
    let [floor, threshold] = limits;
    let [target, max_target] = targets;
    assert!(rt;
        floor <= 999_999_999_999 && threshold <= floor && target <= max_target && max_target <= 99
    );
    AidRow {
        name: Name::new(&[0xa0, 0x00, 0x00, 0x00, 0x03, 0x10, 0x10]).expect(rt, "seven bytes"),
        partial: false,
        version: [0x00, 0x96],
        denial,
        online,
        fallback,
        floor,
        threshold,
        target,
        max_target,
    }
}

/// A purchase of 2500 at noon of 15 June 2024.
pub fn purchase(rt: &(impl AllocGlobal + Abort)) -> Purchase
    ensures { result.amount ≡ 2500 }
{
    Purchase {
        amount: 2500,
        other: 0,
        currency: [0x08, 0x40],
        trade: 0x00,
        services: false,
        date: [0x24, 0x06, 0x15],
        time: [0x12, 0x00, 0x00],
        number: [1, 2, 3, 4],
        word: 49,
        pins: Vec::new(rt.alloc()),
        forced: false,
        confirm: false,
    }
}
