//! The pages of the cards and of the stores: each takes some of the bank, and gives them back.
ghost use Rattle.std.specs.Prelude.{◌≡◌, ◌≤◌, ◌<◌, ◌+◌, ◌-◌, [], ◌∷◌, ℕ, List, Option, true, is_some, length, map, drop};
ghost use Rattle.std.specs.List.{All};
ghost use Rattle.std.specs.Vec.{vec_len, vec_capacity};
ghost use Rattle.emv_ports.specs.Memory.{Memory, IsBlank};
ghost use Rattle.scenario_plan.specs.Cards.{IsKind};
ghost use Rattle.scenario_plan.specs.SeenCards.{seen_cards};
ghost use Rattle.scenario_lanes.specs.Plan.{HaveRoom};
ghost use Rattle.txn_replay.specs.Banked.{HasRoomFor, StaysBlank, AreNew, AreGiven, IsNewStore, AreNewStores, StoresAreGiven, IsStoreGiven, stores_in, with_pages, with_stores};

use crate::run_card::RunCard;
use capture_store::LaneStore;
use emv_ports::Pages;
use scenario_lanes::{LAST_PAGES, Lane as Terminal};
use scenario_plan::NamedCard;

/// Each card takes the first pages of the bank that no card has. One with applications is personalised on
/// them; those of one of canned answers stay as they are.
pub(crate) fn take_pages<'s, P: Pages>(
    cards: &'s [NamedCard],
    bank: &mut Vec<P>,
    run_cards: &mut Vec<RunCard<'s, P>>,
)
    requires room { HasRoomFor (length cards.now) run_cards.old.items (vec_capacity run_cards.old) }
    requires pages { length cards.now ≤ vec_len bank.old }
    requires kinds { All (λ card. IsKind card.image card.canned) (seen_cards cards.now) }
    requires blank { All IsBlank (map P.memory bank.old.items) }
    ensures new { AreNew (seen_cards cards.now) run_cards.new.items }
    ensures count { vec_len run_cards.new ≡ length cards.now }
    ensures spare { map P.memory bank.new.items ≡ drop (length cards.now) (map P.memory bank.old.items) }
    ensures place { vec_len bank.new + length cards.now ≡ vec_len bank.old }
    ensures capacity { vec_capacity bank.new ≡ vec_capacity bank.old }
{
    for card in cards {
        let pages = bank.remove(0);
        let Ok(()) = run_cards.push(RunCard::new(card, pages)) else {
            unreachable!();
        };
    }
}

/// The store of each lane that keeps its captures durably takes its own pages: those of the first lane are the
/// last ones. An empty list is written to them.
pub(crate) fn take_stores<P: Pages>(
    terminals: &[Terminal],
    bank: &mut Vec<P>,
    lane_stores: &mut Vec<LaneStore<P>>,
)
    requires room { HasRoomFor (length terminals.now) lane_stores.old.items (vec_capacity lane_stores.old) }
    requires few { length terminals.now ≤ 16 }
    requires pages { vec_len bank.old ≡ 64 }
    requires blank { All IsBlank (map P.memory bank.old.items) }
    ensures new { AreNewStores terminals.now lane_stores.new.items }
    ensures count { vec_len lane_stores.new ≡ length terminals.now }
    ensures pages { vec_len bank.new + stores_in lane_stores.new.items ≡ 64 }
    ensures left { (cards : ℕ) → cards ≤ 64 → HaveRoom cards terminals.now → cards ≤ vec_len bank.new }
    ensures bank { StaysBlank (map P.memory bank.new.items) (vec_capacity bank.old) (vec_capacity bank.new) }
{
    for (index, terminal) in terminals.iter().enumerate() {
        let lane_store = take_store(terminal.durable, LAST_PAGES - index, bank);
        let Ok(()) = lane_stores.push(lane_store) else {
            unreachable!();
        };
    }
}

/// A store on the pages at this place, where the lane keeps its captures durably.
fn take_store<P: Pages>(durable: bool, place: usize, bank: &mut Vec<P>) -> LaneStore<P>
    requires place { durable ≡ true → place < vec_len bank.old }
    requires blank { All IsBlank (map P.memory bank.old.items) }
    ensures new { IsNewStore result durable }
    ensures length { vec_len bank.new + stores_in (result ∷ []) ≡ vec_len bank.old }
    ensures some { is_some result ≡ durable }
    ensures bank { StaysBlank (map P.memory bank.new.items) (vec_capacity bank.old) (vec_capacity bank.new) }
{
    if durable {
        return LaneStore::new(bank.remove(place));
    }
    LaneStore::absent()
}

/// The stores' pages, off, stand at their own places again, those of the last lane first.
pub(crate) fn give_stores<P: Pages>(lane_stores: Vec<LaneStore<P>>, bank: Vec<P>) -> Vec<P>
    requires few { vec_len lane_stores ≤ 16 }
    requires pages { vec_len bank + stores_in lane_stores.items ≡ 64 }
    requires capacity { 64 ≤ vec_capacity bank }
    ensures given { (pages : List (Option Memory)) × StoresAreGiven lane_stores.items pages
        × (map P.memory result.items ≡ with_stores 0 pages (map P.memory bank.items)) }
    ensures length { vec_len result ≡ 64 }
{
    let mut lane_stores = lane_stores;
    let mut bank = bank;
    while let Some(lane_store) = lane_stores.pop() {
        put_back(lane_store, LAST_PAGES - lane_stores.len(), &mut bank);
    }
    bank
}

/// A store's pages stand at this place again, where there is a store.
fn put_back<P: Pages>(lane_store: LaneStore<P>, place: usize, bank: &mut Vec<P>)
    requires place { place ≤ vec_len bank.old }
    requires room { vec_len bank.old + stores_in (lane_store ∷ []) ≤ vec_capacity bank.old }
    ensures given { (pages : Option Memory) × IsStoreGiven lane_store pages × (map P.memory bank.new.items ≡ with_pages place pages (map P.memory bank.old.items)) }
    ensures length { vec_len bank.new ≡ vec_len bank.old + stores_in (lane_store ∷ []) }
    ensures capacity { vec_capacity bank.old ≤ vec_capacity bank.new }
{
    if let Some(pages) = lane_store.into_pages() {
        let Ok(()) = bank.insert(place, pages) else {
            unreachable!();
        };
    }
}

/// The cards' pages, off, stand before the pages that no card had.
pub(crate) fn give_pages<P: Pages>(run_cards: Vec<RunCard<'_, P>>, spare: Vec<P>) -> Vec<P>
    requires place { vec_len run_cards + vec_len spare ≤ vec_capacity spare }
    ensures given { AreGiven run_cards.entry.items 0 (map P.memory result.items) }
    ensures spare { drop (length run_cards.entry.items) (map P.memory result.items) ≡ map P.memory spare.items }
    ensures length { vec_len result ≡ length run_cards.entry.items + length spare.items }
    ensures capacity { vec_capacity spare ≤ vec_capacity result }
{
    let mut run_cards = run_cards;
    let mut bank = spare;
    while let Some(run_card) = run_cards.pop() {
        let Ok(()) = bank.insert(0, run_card.into_pages()) else {
            unreachable!();
        };
    }
    bank
}
