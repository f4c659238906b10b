//! A whole run, an event at a time.
ghost use Rattle.std.specs.Prelude.{◌≡◌, ◌≤◌, ◌<◌, ◌+◌, [], true, false, length, map, slice_get, option_map, vec_len, Option, Some, None, IfOk, IfErr, IfSome, OnOk, OnErr};
ghost use Rattle.std.specs.List.{All};
ghost use Rattle.std.specs.Vec.{vec_capacity};
ghost use Rattle.emv_ports.specs.Memory.{IsBlank};
ghost use Rattle.issuer_host.specs.History.{balance_after};
ghost use Rattle.scenario_plan.specs.Plan.{IsScenario};
ghost use Rattle.txn_replay.specs.Banked.{HasRoomFor};
ghost use Rattle.txn_replay.specs.Reading.{data_at, ending_at};
ghost use Rattle.txn_replay.specs.Respelled.{AreMessages};
ghost use Rattle.txn_replay.specs.Run.{all_over, ended_count};
ghost use Rattle.txn_replay.specs.Seen.{HasOpened, IsNewLane, WorldSeen, WorldStands, IsUnmoved, EventHasLed, BankStands, IsSettling, IsNext, is_done, turns_left};
ghost use Rattle.txn_replay.specs.Sound.{IsIdle};
ghost use Rattle.txn_replay.specs.Steps.{Settlement, Check, settlements, checks};
ghost use Rattle.txn_replay.specs.Stored.{IsSettledTo};
ghost use Rattle.txn_replay.specs.World.{World as SpecWorld, first_world};
ghost use Rattle.txn_replay.specs.declared.event.Event.TheVariants as event;

use crate::audit::{audit_step, carry_out};
use crate::bank::{give_pages, give_stores, take_pages, take_stores};
use crate::exchange::{Common, exchange, is_held};
use crate::lane::{Lane, all_ended, are_done, data_in, new_lanes};
use crate::lines::Lines;
use crate::purchases::{payment_at, speaks_iso};
use crate::run_card::RunCard;
use crate::settlement::{Settling, drain, open_to_settle, send, settlement};
use capture_store::LaneStore;
use emv_dict::{Digits, Ending};
use emv_ports::Pages;
use issuer_host::{Host, HostKeys};
use kernel::Tally;
use object_lists::CardData;
use scenario_plan::Scenario;
use std::alloc::{AllocError, Global};
use std::marker::Model;

/// There is no memory for a run. The bank is as it was.
#[derive(Drop)]
pub struct NoWorld<P: Pages> {
    pub bank: Vec<P>,
}

/// A scenario's run: its cards, terminals and host. Contracts speak of its world: `WorldStands`.
#[derive(Drop)]
pub struct World<'s, P: Pages> {
    scenario: &'s Scenario,
    run_cards: Vec<RunCard<'s, P>>,
    lanes: Vec<Lane<'s>>,
    /// The store of each lane that keeps its captures durably.
    lane_stores: Vec<LaneStore<P>>,
    common: Common<'s>,
    /// The pages that no card and no store has.
    spare: Vec<P>,
}

impl<'s, P: Pages> Model for World<'s, P> {
    ghost use Rattle.std.specs.Prelude.{map, ◌≤◌};
    ghost use Rattle.std.specs.Vec.{vec_capacity};
    ghost use Rattle.txn_replay.specs.Seen.{WorldSeen, IsWorldWhole};

    ghost Value = { WorldSeen };

    ghost view = { λ w. record {
      scenario = w.scenario.now;
      run_cards = w.run_cards.items;
      lanes = w.lanes.items;
      lane_stores = w.lane_stores.items;
      host = w.common.host;
      tally = w.common.tally;
      spare = map P.memory w.spare.items;
    } };

    ghost invariant = { λ w. IsWorldWhole (record {
      scenario = w.scenario.now;
      run_cards = w.run_cards.items;
      lanes = w.lanes.items;
      lane_stores = w.lane_stores.items;
      host = w.common.host;
      tally = w.common.tally;
      spare = map P.memory w.spare.items;
    }) × (64 ≤ vec_capacity w.spare) };
}

impl<'s, P: Pages> World<'s, P> {
    /// The run of a scenario begins. Its cards take the first of the pages, in their order, and the stores of its
    /// lanes the last ones, each lane those before the ones of the lane before it.
    /// `NoWorld` is want of memory: no later call but `turn` and `settle` takes any.
    pub fn new(
        alloc: Global,
        scenario: &'s Scenario,
        bank: Vec<P>,
    ) -> Result<World<'s, P>, NoWorld<P>>
        requires scenario { IsScenario scenario.now }
        requires pages { length bank.items ≡ 64 }
        requires blank { All IsBlank (map P.memory bank.items) }
        ensures stands { IfOk result (λ world. WorldStands world (first_world scenario.now)) }
        ensures scenario { IfOk result (λ world. world.scenario ≡ scenario.now) }
        ensures back { IfErr result (λ no. no.bank ≡ bank) }
    {
        let Some(parts) = parts_of(alloc, scenario) else {
            return Err(NoWorld { bank });
        };
        let Parts {
            host,
            lanes,
            mut lane_stores,
            mut run_cards,
        } = parts;
        let mut spare = bank;
        take_stores(scenario.lanes.as_slice(), &mut spare, &mut lane_stores);
        take_pages(scenario.cards.as_slice(), &mut spare, &mut run_cards);
        Ok(World {
            scenario,
            run_cards,
            lanes,
            lane_stores,
            common: Common {
                host,
                tally: Tally::new(),
            },
            spare,
        })
    }

    /// One exchange of the lane of this index. A lane without a running purchase powers up the card of its
    /// next one; a purchase whose dialogue is over ends in the same exchange. A lane that keeps its captures
    /// durably first opens its store; where that is full, this is all, the first message is sent and dropped in
    /// the next exchange, and the card is powered up in the one behind it. `false`, and nothing happens, exactly where
    /// no purchase is left or another lane's has the card. The lines are those of the exchange, in place of what they
    /// held. After `AllocError` there are none, and nothing else has changed.
    pub fn turn(&mut self, lane: usize, lines: &mut Lines) -> Result<bool, AllocError>
        requires lane { lane < length self.old.scenario.lanes }
        ensures ok { OnOk result ((w : SpecWorld) → WorldStands self.old w → EventHasLed self.new w (event.Turn lane) lines.new.items) }
        ensures nearer { IfOk result (λ went. went ≡ true → turns_left self.new < turns_left self.old) }
        ensures idle { IfOk result (λ went. went ≡ false → (w : SpecWorld) → WorldStands self.old w → IsIdle self.old.scenario w lane) }
        ensures busy { IfOk result (λ went. went ≡ true → (w : SpecWorld) → WorldStands self.old w → IsIdle self.old.scenario w lane → ⊥) }
        ensures still { IfOk result (λ went. went ≡ false → (self.new ≡ self.old) × (lines.new.items ≡ [])) }
        ensures err { OnErr result ((w : SpecWorld) → WorldStands self.old w → WorldStands self.new w) }
        ensures unmoved { OnErr result (IsUnmoved self.old self.new × (lines.new.items ≡ [])) }
        ensures scenario { self.new.scenario ≡ self.old.scenario }
    {
        lines.clear();
        let scenario = self.scenario;
        let ended = self.lanes[lane].ended;
        let Some(at) = payment_at(scenario, lane, ended) else {
            return Ok(false);
        };
        let card = at.planned.card;
        if is_held(&self.lanes[lane].running, &self.run_cards[card]) {
            return Ok(false);
        }
        exchange(
            &at,
            &mut self.lanes[lane],
            &mut self.lane_stores[lane],
            &mut self.run_cards[card],
            &mut self.common,
            lines,
        )?;
        Ok(true)
    }

    /// The step of the settlement of this number, from 0: each lane's captures by purchase, each sent as often as
    /// the scenario says; of a lane that keeps its captures durably first the opening of its store, which makes no
    /// line, and then each message that it found, dropped behind its last copy. `false` where there is none; then,
    /// and after `AllocError`, nothing has happened. The lines are those of the step, in place of what they held.
    pub fn settle(&mut self, number: u32, lines: &mut Lines) -> Result<bool, AllocError>
        requires done { is_done self.old ≡ true }
        requires next { IsSettling self.old number }
        ensures ok { OnOk result ((w : SpecWorld) → WorldStands self.old w → IsSettledTo self.old.scenario w number
            → EventHasLed self.new w (event.Settle number) lines.new.items) }
        ensures there { IfOk result (λ went. went ≡ true → (number < 30352) × ((w : SpecWorld) → WorldStands self.old w
            → (at : Settlement) × (slice_get (settlements self.old.scenario w) number ≡ Some at))) }
        ensures past { IfOk result (λ went. went ≡ false → (w : SpecWorld) → WorldStands self.old w
            → slice_get (settlements self.old.scenario w) number ≡ None) }
        ensures still { IfOk result (λ went. went ≡ false → (self.new ≡ self.old) × (lines.new.items ≡ [])) }
        ensures err { OnErr result ((self.new ≡ self.old) × (lines.new.items ≡ [])) }
        ensures scenario { self.new.scenario ≡ self.old.scenario }
        ensures done { is_done self.new ≡ is_done self.old }
    {
        lines.clear();
        let scenario = self.scenario;
        let Some(step) = settlement(scenario, self.lanes.as_slice(), number) else {
            return Ok(false);
        };
        match step {
            Settling::Opens(lane) => {
                open_to_settle(&mut self.lanes[lane], &mut self.lane_stores[lane]);
                Ok(true)
            }
            Settling::Sends(lane, message) => {
                let iso = speaks_iso(scenario, lane);
                send(iso, lane as u8, message, &mut self.common.host, lines)?;
                Ok(true)
            }
            Settling::Drains { lane, drops } => {
                let iso = speaks_iso(scenario, lane);
                let lane_store = &mut self.lane_stores[lane];
                drain(
                    iso,
                    lane as u8,
                    drops,
                    lane_store,
                    &mut self.common.host,
                    lines,
                )?;
                Ok(true)
            }
        }
    }

    /// The step of the audit of this number, from 0: each card with applications is powered up without a tear,
    /// and each of these is selected and asked for both counters. `false` where there is none, and nothing
    /// happens. The lines are those of the step, in place of what they held.
    pub fn audit(&mut self, number: u32, lines: &mut Lines) -> bool
        requires done { is_done self.old ≡ true }
        requires next { IsNext self.old number }
        ensures goes { (w : SpecWorld) → WorldStands self.old w → EventHasLed self.new w (event.Audit number) lines.new.items }
        ensures there { result ≡ true → (number < 832) × ((check : Check) × (slice_get (checks self.old.scenario) number ≡ Some check)) }
        ensures past { result ≡ false → slice_get (checks self.old.scenario) number ≡ None }
        ensures still { result ≡ false → (self.new ≡ self.old) × (lines.new.items ≡ []) }
        ensures next { result ≡ true → IsNext self.new (number + 1) }
        ensures done { is_done self.new ≡ true }
        ensures scenario { self.new.scenario ≡ self.old.scenario }
    {
        lines.clear();
        let scenario = self.scenario;
        let Some(step) = audit_step(scenario.cards.as_slice(), number) else {
            return false;
        };
        carry_out(step, &mut self.run_cards[step.index], lines);
        true
    }

    /// Whether no purchase runs and none is left.
    pub fn done(&self) -> bool
        ensures exact { result ≡ is_done self.now }
        ensures over { (w : SpecWorld) → WorldStands self.now w → result ≡ all_over self.now.scenario w }
    {
        let scenario = self.scenario;
        are_done(scenario.lanes.as_slice(), self.lanes.as_slice())
    }

    /// What reading gave in the purchase that the lane began last, exactly where it is finished.
    pub fn read_data(&self, lane: usize) -> Option<&CardData>
        requires lane { lane < length self.now.scenario.lanes }
        ensures { (w : SpecWorld) → WorldStands self.now w → option_map (λ card. card.now) result ≡ data_at self.now.scenario w lane }
    {
        let row = &self.lanes[lane];
        match &row.running {
            Some(kernel) => kernel.data(),
            None => data_in(&row.place),
        }
    }

    /// How the purchase of the lane that ended last has ended.
    pub fn ending(&self, lane: usize) -> Option<Ending>
        requires lane { lane < length self.now.scenario.lanes }
        ensures { (w : SpecWorld) → WorldStands self.now w → result ≡ ending_at w lane }
    {
        self.lanes[lane].ending
    }

    /// The balance of an account number, as the host has it.
    pub fn balance(&self, pan: &Digits) -> Option<i128>
        ensures { (w : SpecWorld) → WorldStands self.now w
            → result ≡ balance_after self.now.scenario.issuer self.now.scenario.accounts w.messages pan.now }
    {
        self.common.host.balance(pan)
    }

    /// What the lanes have made for the host are messages that it reads.
    pub fn made_messages(&self)
        ensures { (w : SpecWorld) → WorldStands self.now w → AreMessages w }
    {
        let _lanes = self.lanes.len();
    }

    /// How many purchases have ended.
    pub fn ended(&self) -> u32
        ensures { (w : SpecWorld) → WorldStands self.now w → result ≡ ended_count w }
    {
        all_ended(self.lanes.as_slice())
    }

    /// Gives the pages back, each card's and each store's at its place and off, and the tally of all dialogues that
    /// were ended.
    pub fn into_bank(self) -> (Vec<P>, Tally)
        ensures bank { (w : SpecWorld) → WorldStands self.entry w → BankStands self.entry.scenario w (map P.memory result.0.items) }
        ensures tally { result.1 ≡ self.entry.tally }
        ensures length { length result.0.items ≡ 64 }
    {
        let World {
            scenario: _,
            run_cards,
            lanes: _,
            lane_stores,
            common,
            spare,
        } = self;
        let Common { host: _, tally } = common;
        (
            give_stores(lane_stores, give_pages(run_cards, spare)),
            tally,
        )
    }
}

/// What a run takes memory for as it begins: its host, its lanes, and room for their stores and for the cards.
#[derive(Drop)]
struct Parts<'s, P: Pages> {
    host: Host<'s>,
    lanes: Vec<Lane<'s>>,
    lane_stores: Vec<LaneStore<P>>,
    run_cards: Vec<RunCard<'s, P>>,
}

/// The parts of a scenario's run, or `None` where there is no memory for them.
fn parts_of<'s, P: Pages>(alloc: Global, scenario: &'s Scenario) -> Option<Parts<'s, P>>
    requires scenario { IsScenario scenario.now }
    ensures host { IfSome result (λ parts. HasOpened scenario.now parts.host) }
    ensures count { IfSome result (λ parts. vec_len parts.lanes ≡ length scenario.now.lanes) }
    ensures new { IfSome result (λ parts. All IsNewLane parts.lanes.items) }
    ensures stores { IfSome result (λ parts. HasRoomFor (length scenario.now.lanes) parts.lane_stores.items (vec_capacity parts.lane_stores)) }
    ensures cards { IfSome result (λ parts. HasRoomFor (length scenario.now.cards) parts.run_cards.items (vec_capacity parts.run_cards)) }
{
    let issuer = &scenario.issuer;
    let keys = HostKeys {
        ac: issuer.ac.copy(),
        mac: issuer.mac.copy(),
        enc: issuer.enc.copy(),
        pin: issuer.pin.copy(),
    };
    let Ok(host) = Host::new(alloc, keys, scenario.accounts.as_slice()) else {
        return None;
    };
    let Ok(lanes) = new_lanes(alloc, scenario.lanes.len()) else {
        return None;
    };
    let Ok(lane_stores) = Vec::with_capacity(alloc, scenario.lanes.len()) else {
        return None;
    };
    let Ok(run_cards) = Vec::with_capacity(alloc, scenario.cards.len()) else {
        return None;
    };
    Some(Parts {
        host,
        lanes,
        lane_stores,
        run_cards,
    })
}
