//! The lanes: their terminals and the purchases on them.
ghost use Rattle.std.specs.Prelude.{◌≡◌, ◌<◌, ◌≤◌, [], ◌∷◌, IfOk, map};
ghost use Rattle.std.specs.List.{range_with_len};
ghost use Rattle.generated.specs.Issuer.{generated_keys};
ghost use Rattle.generated.specs.Lanes as spec;
ghost use Rattle.generated.specs.Lanes.{aid_row, generated_settings, purchases_of, generated_lane};

use crate::card::application;
use crate::issuer::CODE;
use crate::purchase::{next_number, planned};
use emv_dict::{AidRow, Settings};
use issuer_host::HostKeys;
use scenario_lanes::{Lane, Planned};
use std::alloc::{AllocError, Global};

/// How many lanes there are.
const LANES: u32 = 4;

/// The terminal's application.
#[tactic(auto, unfolding(crate::specs::Lanes::aid_row))]
fn aid_row() -> AidRow
    ensures { result ≡ aid_row }
{
    AidRow {
        name: application(),
        partial: false,
        version: [0x00, 0x96],
        denial: [0x00, 0x10, 0x00, 0x00, 0x00],
        online: [0x70, 0x68, 0xbc, 0x98, 0x00],
        fallback: [0x70, 0x68, 0xbc, 0xf8, 0x00],
        floor: 10_000,
        threshold: 5_000,
        target: 10,
        max_target: 50,
    }
}

/// The settings of a lane's terminal, `TERM0000` and on: attended, and it can go online.
#[tactic(auto, unfolding(crate::specs::Lanes::generated_settings))]
fn settings(alloc: Global, issuer: &HostKeys, lane: u32) -> Result<Settings, AllocError>
    requires issuer { issuer.now ≡ generated_keys }
    requires lane { lane < 4 }
    ensures { IfOk result (λ settings. settings ≡ generated_settings lane) }
{
    let mut aids = Vec::with_capacity(alloc, 1)?;
    aids.push(aid_row())?;
    Ok(Settings {
        kind: 22,
        country: CODE,
        caps: [0xe0, 0xb8, 0xc8],
        id: [b'T', b'E', b'R', b'M', b'0', b'0', b'0', b'0' + lane as u8],
        pin_key: issuer.pin.bytes(),
        exceptions: Vec::new(alloc),
        aids,
        pse: false,
    })
}

/// The purchases of a lane, out of so many of all lanes.
#[tactic(auto, unfolding(crate::specs::Lanes::purchases_of, crate::specs::Numbers::generated_number))]
fn purchases(alloc: Global, count: u32, lane: u32) -> Result<Vec<Planned>, AllocError>
    requires count { count ≤ 10000 }
    ensures { IfOk result (λ purchases. purchases.items ≡ purchases_of count lane) }
{
    let mut purchases = Vec::with_capacity(alloc, (count / LANES) as usize + 1)?;
    let mut x = count;
    for k in 0..count {
        x = next_number(x);
        if k % LANES == lane {
            purchases.push(planned(alloc, k, x)?)?;
        }
    }
    Ok(purchases)
}

/// A lane with its purchases, out of so many of all lanes.
#[tactic(auto, unfolding(crate::specs::Lanes::generated_lane))]
fn lane(alloc: Global, issuer: &HostKeys, count: u32, number: u32) -> Result<Lane, AllocError>
    requires issuer { issuer.now ≡ generated_keys }
    requires count { count ≤ 10000 }
    requires lane { number < 4 }
    ensures { IfOk result (λ lane. lane ≡ generated_lane count number) }
{
    let settings = settings(alloc, issuer, number)?;
    let purchases = purchases(alloc, count, number)?;
    Ok(Lane {
        settings,
        purchases,
        iso: false,
        durable: false,
    })
}

/// All lanes, with so many purchases together.
pub(crate) fn lanes(alloc: Global, issuer: &HostKeys, count: u32) -> Result<Vec<Lane>, AllocError>
    requires issuer { issuer.now ≡ generated_keys }
    requires count { count ≤ 10000 }
    ensures { IfOk result (λ all. all.items ≡ map (generated_lane count) (range_with_len 0 spec.lanes)) }
{
    let mut lanes = Vec::with_capacity(alloc, LANES as usize)?;
    for number in 0..LANES {
        lanes.push(lane(alloc, issuer, count, number)?)?;
    }
    Ok(lanes)
}
