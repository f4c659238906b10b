//! The purchases, and the numbers that tell them.
ghost use Rattle.std.specs.Prelude.{◌≡◌, [], ◌∷◌, IfOk};
ghost use Rattle.generated.specs.Issuer.{pin as pin_digits};
ghost use Rattle.generated.specs.Numbers as numbers;
ghost use Rattle.generated.specs.Purchases.{purchase_by, link_by, tear_by, planned_by};

use crate::issuer::{CARDS, CODE, pin};
use emv_dict::{Digits, Purchase};
use emv_ports::{Tear, TearAt};
use scenario_lanes::{Link, Planned};
use std::alloc::{AllocError, Global};

/// The multiplier of the linear congruential generator.
const MULTIPLIER: u64 = 1_103_515_245;

/// Its increment.
const INCREMENT: u64 = 12_345;

/// Its modulus.
const MODULUS: u64 = 2_147_483_648;

/// The commit that is cut: the first cryptogram's.
const CUT_COMMIT: u8 = 4;

/// The number behind this one.
pub(crate) fn next_number(x: u32) -> u32
    ensures { result ≡ numbers.next_generated x }
{
    ((u64::from(x) * MULTIPLIER + INCREMENT) % MODULUS) as u32
}

fn pins(alloc: Global) -> Result<Vec<Digits>, AllocError>
    ensures { IfOk result (λ pins. pins.items ≡ pin_digits ∷ []) }
{
    let mut pins = Vec::with_capacity(alloc, 1)?;
    pins.push(pin())?;
    Ok(pins)
}

/// What the terminal is asked for.
#[tactic(auto, unfolding(crate::specs::Purchases::purchase_by))]
fn purchase(alloc: Global, x: u32) -> Result<Purchase, AllocError>
    ensures { IfOk result (λ purchase. purchase ≡ purchase_by x) }
{
    let pins = pins(alloc)?;
    Ok(Purchase {
        amount: 100 + u64::from(x) % 9_900,
        other: 0,
        currency: CODE,
        trade: 0,
        services: false,
        date: [0x24, 0x06, 0x15],
        time: [0x12, 0x00, 0x00],
        number: x.to_be_bytes(),
        word: x / 65_536,
        pins,
        forced: false,
        confirm: true,
    })
}

/// One of sixteen replies is lost.
fn link(x: u32) -> Link
    ensures { result ≡ link_by x }
{
    if x / 8 % 16 == 0 {
        Link::ReplyLost
    } else {
        Link::Sound
    }
}

/// One of sixteen cards is pulled out, before the first write of its first cryptogram's decision.
fn tear(x: u32) -> Option<Tear>
    ensures { result ≡ tear_by x }
{
    if x / 128 % 16 == 0 {
        Some(Tear {
            commit: CUT_COMMIT,
            at: TearAt::Before(1),
        })
    } else {
        None
    }
}

/// Purchase `k`, which this number tells: the cards take turns.
#[tactic(auto, unfolding(crate::specs::Purchases::planned_by))]
pub(crate) fn planned(alloc: Global, k: u32, x: u32) -> Result<Planned, AllocError>
    ensures { IfOk result (λ planned. planned ≡ planned_by k x) }
{
    let purchase = purchase(alloc, x)?;
    Ok(Planned {
        purchase,
        card: (k % u32::from(CARDS)) as usize,
        link: link(x),
        tear: tear(x),
        terminal_tear: None,
    })
}
