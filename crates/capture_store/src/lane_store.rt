//! The place of a lane's store: on, off, or absent.
ghost use Rattle.std.specs.Prelude.{◌≡◌, ◌<◌, ◌≤◌, ◌==◌, Bool, Option, Some, None, is_some, length, slice_get, option_map, true, false, IsTrue, IfSome, OnOk, OnErr};
ghost use Rattle.emv_ports.specs.Causes.{one_more};
ghost use Rattle.emv_ports.specs.Cut.{names_commit, is_plan};
ghost use Rattle.emv_ports.specs.declared.tear.Tear.{Tear as Plan};
ghost use Rattle.capture_store.specs.Calls.{Adds, Drops};
ghost use Rattle.capture_store.specs.ListPages.{StandsForList, MayStandForList};
ghost use Rattle.capture_store.specs.SeenLaneStore.{LaneStoreOn, LaneStoreOff, IsLaneStoreOff, StaysOpen, has_power, count_of, store_losses};
ghost use Rattle.capture_store.specs.Spelling.{IsCaptureMessage};
ghost use Rattle.capture_store.specs.StoreRow.{StoreRow, new_store, is_next_cut, store_opened, store_closed, call_under_plan};

use crate::capture_list::{CaptureList, prepare};
use emv_ports::{Gone, Pages, Tear};
use std::marker::Model;

/// The most messages that a store holds.
const MOST: usize = 7;

/// A place with a store, on or off, or without one. A call changes it where it is, and behind a loss of
/// power it is off. What it stands for is the row of a lane's store in the world of a run.
#[derive(Drop)]
pub struct LaneStore<P: Pages>(Option<CaptureList<P>>);

impl<P: Pages> Model for LaneStore<P> {
    ghost use Rattle.capture_store.specs.SeenLaneStore.{LaneStoreSeen};

    ghost Value = { LaneStoreSeen };

    ghost view = { λ s. s.0 };
}

impl<P: Pages> LaneStore<P> {
    /// A lane's store that isn't there.
    pub fn absent() -> LaneStore<P>
        ensures { result ≡ None }
    {
        LaneStore(None)
    }

    /// A store of no messages, off, on pages that are off and have no plan.
    pub fn new(pages: P) -> LaneStore<P>
        requires off { (P.memory pages).on ≡ false }
        requires plan { (P.memory pages).plan ≡ None }
        ensures new { LaneStoreOff result new_store }
        ensures losses { store_losses result ≡ (P.memory pages).losses }
    {
        LaneStore(Some(CaptureList::new(prepare(pages))))
    }

    /// Opens it under a plan to cut the power once, or none. The lost call is found or not.
    ///
    /// `Gone` comes exactly where the plan cuts the power before the first commit: it is off then still.
    pub fn open(&mut self, tear: Option<Tear>) -> Result<(), Gone>
        requires off { IsLaneStoreOff self.old }
        requires tear { IsTrue (is_plan tear) }
        ensures opened { OnOk result ((row : StoreRow) → LaneStoreOff self.old row
            → (found : Bool) × LaneStoreOn self.new (store_opened row found) tear) }
        ensures spared { OnOk result (names_commit tear 0 ≡ false) }
        ensures stays { OnOk result (StaysOpen self.old self.new) }
        ensures lost { OnErr result ((row : StoreRow) → LaneStoreOff self.old row → LaneStoreOff self.new row) }
        ensures cut { OnErr result (names_commit tear 0 ≡ true) }
        ensures gone { OnErr result (store_losses self.new ≡ one_more (store_losses self.old)) }
    {
        let Some(capture_list) = &mut self.0 else {
            unreachable!();
        };
        capture_list.plan(tear);
        match capture_list.open() {
            Ok(()) => {}
            Err(Gone) => return Err(Gone),
        }
        Ok(())
    }

    /// Whether there is a store that is on.
    pub fn is_on(&self) -> bool
        ensures { result ≡ has_power self.now }
    {
        match &self.0 {
            Some(capture_list) => capture_list.is_on(),
            None => false,
        }
    }

    /// How many messages it holds.
    pub fn count(&self) -> usize
        requires { has_power self.now ≡ true }
        ensures count { result ≡ count_of self.now }
        ensures row { (row : StoreRow) (plan : Option Plan) → LaneStoreOn self.now row plan → result ≡ length row.list }
        ensures few { result ≤ 7 }
    {
        match &self.0 {
            Some(capture_list) => capture_list.count(),
            None => unreachable!(),
        }
    }

    /// Whether it holds as many messages as a store may.
    pub fn is_full(&self) -> bool
        requires { has_power self.now ≡ true }
        ensures exact { result ≡ (count_of self.now == 7) }
        ensures row { (row : StoreRow) (plan : Option Plan) → LaneStoreOn self.now row plan → result ≡ (length row.list == 7) }
    {
        self.count() == MOST
    }

    /// Its oldest message. `None` exactly where there is none.
    pub fn first(&self) -> Option<&[u8]>
        requires { has_power self.now ≡ true }
        ensures first { (row : StoreRow) (plan : Option Plan) → LaneStoreOn self.now row plan
            → option_map (λ message. message.now) result ≡ slice_get row.list 0 }
        ensures fits { IfSome result (λ message. IsCaptureMessage message.now) }
    {
        match &self.0 {
            Some(capture_list) => capture_list.first(),
            None => unreachable!(),
        }
    }

    /// Adds a message behind the others.
    ///
    /// `Gone` comes exactly where the plan names this commit: it is off then.
    pub fn add(&mut self, message: &[u8]) -> Result<(), Gone>
        requires on { has_power self.old ≡ true }
        requires room { count_of self.old < 7 }
        requires message { IsCaptureMessage message.now }
        ensures made { OnOk result ((row : StoreRow) (plan : Option Plan) → LaneStoreOn self.old row plan → LaneStoreOn self.new (call_under_plan plan row (Adds message.now)) plan) }
        ensures spared { OnOk result ((row : StoreRow) (plan : Option Plan) → LaneStoreOn self.old row plan → is_next_cut plan row ≡ false) }
        ensures stays { OnOk result (StaysOpen self.old self.new) }
        ensures lost { OnErr result ((row : StoreRow) (plan : Option Plan) → LaneStoreOn self.old row plan → LaneStoreOff self.new (call_under_plan plan row (Adds message.now))) }
        ensures cut { OnErr result ((row : StoreRow) (plan : Option Plan) → LaneStoreOn self.old row plan → is_next_cut plan row ≡ true) }
        ensures gone { OnErr result (store_losses self.new ≡ one_more (store_losses self.old)) }
    {
        match &mut self.0 {
            Some(capture_list) => capture_list.add(message),
            None => unreachable!(),
        }
    }

    /// Drops the oldest message. `Gone` comes as with `add`.
    pub fn drop_first(&mut self) -> Result<(), Gone>
        requires on { has_power self.old ≡ true }
        requires some { 0 < count_of self.old }
        ensures made { OnOk result ((row : StoreRow) (plan : Option Plan) → LaneStoreOn self.old row plan → LaneStoreOn self.new (call_under_plan plan row Drops) plan) }
        ensures spared { OnOk result ((row : StoreRow) (plan : Option Plan) → LaneStoreOn self.old row plan → is_next_cut plan row ≡ false) }
        ensures stays { OnOk result (StaysOpen self.old self.new) }
        ensures lost { OnErr result ((row : StoreRow) (plan : Option Plan) → LaneStoreOn self.old row plan → LaneStoreOff self.new (call_under_plan plan row Drops)) }
        ensures cut { OnErr result ((row : StoreRow) (plan : Option Plan) → LaneStoreOn self.old row plan → is_next_cut plan row ≡ true) }
        ensures gone { OnErr result (store_losses self.new ≡ one_more (store_losses self.old)) }
    {
        match &mut self.0 {
            Some(capture_list) => capture_list.drop_first(),
            None => unreachable!(),
        }
    }

    /// Turns it off.
    pub fn power_off(&mut self)
        requires { has_power self.old ≡ true }
        ensures off { (row : StoreRow) (plan : Option Plan) → LaneStoreOn self.old row plan → LaneStoreOff self.new (store_closed row) }
        ensures losses { store_losses self.new ≡ store_losses self.old }
    {
        match &mut self.0 {
            Some(capture_list) => capture_list.power_off(),
            None => unreachable!(),
        }
    }

    /// Gives its pages, off. `None` exactly where there is no store.
    pub fn into_pages(self) -> Option<P>
        ensures there { is_some result ≡ is_some self }
        ensures off { IfSome result (λ pages. (P.memory pages).on ≡ false) }
        ensures may { IfSome result (λ pages. (row : StoreRow) → LaneStoreOff self row
            → MayStandForList (P.memory pages).cells row.list row.lost) }
        ensures stands { IfSome result (λ pages. (row : StoreRow) (plan : Option Plan) → LaneStoreOn self row plan
            → StandsForList (P.memory pages).cells row.list) }
        ensures losses { IfSome result (λ pages. (P.memory pages).losses ≡ store_losses self) }
    {
        match self.0 {
            Some(capture_list) => Some(off_pages(capture_list)),
            None => None,
        }
    }
}

/// The pages of a list, turned off where they are on.
fn off_pages<P: Pages>(capture_list: CaptureList<P>) -> P
    ensures off { (P.memory result).on ≡ false }
    ensures same { capture_list.memory.on ≡ false → P.memory result ≡ capture_list.memory }
    ensures stands { capture_list.memory.on ≡ true → StandsForList (P.memory result).cells capture_list.list }
    ensures losses { (P.memory result).losses ≡ capture_list.memory.losses }
{
    let mut capture_list = capture_list;
    if !capture_list.is_on() {
        return capture_list.into_pages();
    }
    capture_list.power_off();
    capture_list.into_pages()
}
