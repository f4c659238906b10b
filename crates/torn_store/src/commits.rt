//! The writes of a format, a commit and a repair, in an order that no loss of power spoils.
ghost use Rattle.std.specs.Prelude.{◌≡◌, ◌<◌, ◌≤◌, ◌++◌, ℕ, List, [], length, map, slice_index_or, All, Contains, Some, None, true, false};
ghost use Rattle.std.specs.Prelude.{IfOk, OnOk, OnErr, IsOk, IsSome};
ghost use Rattle.emv_ports.specs.Memory.{commit_marked, next_write_cut};
ghost use Rattle.emv_ports.specs.declared.tear.Cut.TheVariants.{CutBefore};
ghost use Rattle.torn_store.specs.Conversion.{converted};
ghost use Rattle.torn_store.specs.Layout.{recover, changed_pages, commit_writes, numbers_in};
ghost use Rattle.torn_store.specs.Recovery.{lowest, Among, Between};
ghost use Rattle.torn_store.specs.Placed.{MayFormat, TurnedOnce};
ghost use Rattle.torn_store.specs.Store.{IsOn, IsReady};
ghost use Rattle.torn_store.specs.declared.layout.Block.{Block as Written};
ghost use Rattle.torn_store.specs.Writing.{MayWrite, WritesAll, StopsIn, Row, RowCut, replay_row, commit_row};
ghost use Rattle.torn_store.specs.Writing.{mending_row, repair_row, WroteFew, StoppedFew, TurnedOn, LostAt};

use crate::convert::Convert;
use crate::journal::{read_home, read_journal, write_home, write_journal};
use crate::layout::{
    Block, GATE, HEADER, State, changed_in, framed, header_of, length_bytes, numbers_of,
};
use arrayvec::ArrayVec;
use emv_ports::{Gone, Pages};

/// The gate's page: closed, and open.
const CLOSED: [u8; 64] = [0; 64];

const OPEN: [u8; 64] = [1; 64];

/// Writes home pages, and closes the gate behind them.
fn replay<P: Pages>(pages: &mut P, blocks: &[Block]) -> Result<(), Gone>
    requires may { MayWrite (P.memory pages.old) blocks.now }
    ensures all { OnOk result (WritesAll (P.memory pages.old) (replay_row blocks.now) (P.memory pages.new)) }
    ensures stops { OnErr result (StopsIn (P.memory pages.old) (replay_row blocks.now) (P.memory pages.new)) }
{
    write_home(pages, blocks)?;
    pages.write(GATE, &CLOSED)
}

/// Writes blocks into the journal, names them in the header, opens the gate and replays them.
fn write_row<P: Pages>(pages: &mut P, blocks: &[Block]) -> Result<(), Gone>
    requires may { MayWrite (P.memory pages.old) blocks.now }
    ensures all { OnOk result (WritesAll (P.memory pages.old) (commit_row blocks.now) (P.memory pages.new)) }
    ensures stops { OnErr result (StopsIn (P.memory pages.old) (commit_row blocks.now) (P.memory pages.new)) }
{
    write_journal(pages, blocks)?;
    pages.write(HEADER, &header_of(blocks))?;
    pages.write(GATE, &OPEN)?;
    replay(pages, blocks)
}

/// Writes a new state over an old one: the pages that change into the journal, and behind an open
/// gate into the home.
fn write_state<P: Pages>(pages: &mut P, old: &[u8], new: &[u8]) -> Result<(), Gone>
    requires on { (P.memory pages.old).on ≡ true }
    requires short { length old.now ≤ 1024 }
    requires fits { length new.now ≤ 1024 }
    ensures all { OnOk result (WritesAll (P.memory pages.old) (commit_row (changed_pages old.now new.now)) (P.memory pages.new)) }
    ensures stops { OnErr result (StopsIn (P.memory pages.old) (commit_row (changed_pages old.now new.now)) (P.memory pages.new)) }
{
    let mut frame = ArrayVec::new();
    framed(new, &mut frame);
    let mut blocks = ArrayVec::new();
    changed_in(&length_bytes(old), old, frame.as_slice(), &mut blocks);
    write_row(pages, blocks.as_slice())
}

/// Marks, and writes a new state.
pub fn commit_state<P: Pages>(pages: &mut P, old: &[u8], new: &[u8]) -> Result<(), Gone>
    requires ready { IsReady (P.memory pages.old) old.now }
    requires fits { length new.now ≤ 1024 }
    ensures ready { OnOk result (IsReady (P.memory pages.new) new.now) }
    ensures row { OnOk result (Row (commit_marked (P.memory pages.old)) (P.memory pages.new) (commit_writes old.now new.now)) }
    ensures lost { OnErr result (Between recover (P.memory pages.new).cells old.now new.now) }
    ensures before { OnErr result (next_write_cut (commit_marked (P.memory pages.old)) ≡ CutBefore
        → (P.memory pages.new).cells ≡ (P.memory pages.old).cells) }
    ensures cut { OnErr result (RowCut (commit_marked (P.memory pages.old)) (P.memory pages.new) (commit_writes old.now new.now)) }
{
    pages.mark();
    write_state(pages, old, new)
}

/// Replays what the header and the journal of an open gate show.
fn replay_shown<P: Pages>(pages: &mut P) -> Result<(), Gone>
    requires on { IsOn (P.memory pages.old) }
    requires header { IsSome (numbers_in (slice_index_or (P.memory pages.old).shown 18 [])) }
    ensures all { OnOk result (WritesAll (P.memory pages.old) (mending_row 1 (numbers_in (slice_index_or (P.memory pages.old).shown 18 [])) (P.memory pages.old).shown) (P.memory pages.new)) }
    ensures stops { OnErr result (StopsIn (P.memory pages.old) (mending_row 1 (numbers_in (slice_index_or (P.memory pages.old).shown 18 [])) (P.memory pages.old).shown) (P.memory pages.new)) }
{
    let numbers = numbers_of(&pages.read(HEADER));
    let blocks = read_journal(pages, numbers.as_slice());
    replay(pages, blocks.as_slice())
}

/// Writes the gate's page whole, as it was read; where it is open, the journal is then replayed.
fn close_gate<P: Pages>(pages: &mut P) -> Result<(), Gone>
    requires on { IsOn (P.memory pages.old) }
    requires header { lowest (P.memory pages.old).shown ≡ 1
        → IsSome (numbers_in (slice_index_or (P.memory pages.old).shown 18 [])) }
    ensures all { OnOk result (WritesAll (P.memory pages.old) (repair_row (P.memory pages.old).shown) (P.memory pages.new)) }
    ensures stops { OnErr result (StopsIn (P.memory pages.old) (repair_row (P.memory pages.old).shown) (P.memory pages.new)) }
{
    let bit = pages.read(GATE)[0] % 2;
    pages.write(GATE, &[bit; 64])?;
    if bit == 0 {
        return Ok(());
    }
    replay_shown(pages)
}

/// Repairs the pages, and finds the state.
fn find_state<P: Pages>(pages: &mut P) -> Result<State, Gone>
    requires on { IsOn (P.memory pages.old) }
    requires among { (states : List (List ℕ)) × Among recover (P.memory pages.old).cells states }
    ensures found { IfOk result (λ state. recover (P.memory pages.old).shown ≡ Some state.items) }
    ensures ready { IfOk result (λ state. IsReady (P.memory pages.new) state.items) }
    ensures all { OnOk result (WritesAll (P.memory pages.old) (repair_row (P.memory pages.old).shown) (P.memory pages.new)) }
    ensures stops { OnErr result (StopsIn (P.memory pages.old) (repair_row (P.memory pages.old).shown) (P.memory pages.new)) }
{
    close_gate(pages)?;
    Ok(read_home(pages))
}

/// Writes the new state that a conversion makes of this one, if it makes one.
fn convert_home<P: Pages, C: Convert>(
    pages: &mut P,
    convert: &C,
    state: State,
) -> Result<State, Gone>
    requires ready { IsReady (P.memory pages.old) state.items }
    ensures found { IfOk result (λ next. next.items ≡ converted (C.means convert.now) state.items) }
    ensures ready { IfOk result (λ next. IsReady (P.memory pages.new) next.items) }
    ensures wrote { OnOk result (WroteFew (P.memory pages.old) (P.memory pages.new) 37) }
    ensures lost { OnErr result ((states : List (List ℕ)) → Contains states state.items
        → Contains states (converted (C.means convert.now) state.items)
        → Among recover (P.memory pages.new).cells states) }
    ensures stopped { OnErr result (StoppedFew (P.memory pages.old) (P.memory pages.new) 37) }
{
    let mut next = State::new();
    if !convert.convert(state.as_slice(), &mut next) {
        return Ok(state);
    }
    write_state(pages, state.as_slice(), next.as_slice())?;
    Ok(next)
}

/// Turns the pages on, repairs them, writes what a conversion makes of the state, and releases.
pub fn repair_with<P: Pages, C: Convert>(pages: &mut P, convert: &C) -> Result<State, Gone>
    requires off { (P.memory pages.old).on ≡ false }
    requires among { (states : List (List ℕ)) × Among recover (P.memory pages.old).cells states }

    ensures found { IfOk result (λ state. (states : List (List ℕ))
        → Among recover (P.memory pages.old).cells states
        → Contains (map (converted (C.means convert.now)) states) state.items) }
    ensures ready { IfOk result (λ state. IsReady (P.memory pages.new) state.items) }
    ensures turned_on { OnOk result (TurnedOn (P.memory pages.old) (P.memory pages.new)) }

    ensures lost { OnErr result ((states : List (List ℕ)) → Among recover (P.memory pages.old).cells states
        → Among recover (P.memory pages.new).cells
        (states ++ map (converted (C.means convert.now)) states)) }
    ensures gone { OnErr result (LostAt (P.memory pages.old) (P.memory pages.new)) }
{
    pages.power_up();
    let found = find_state(pages)?;
    let state = convert_home(pages, convert, found)?;
    pages.release()?;
    Ok(state)
}

/// Writes a first state to pages that were turned on for it, and releases it.
fn write_first<P: Pages>(pages: &mut P, first: &[u8]) -> Result<(), Gone>
    requires on { IsOn (P.memory pages.old) }
    requires begun { (P.memory pages.old).writes ≡ 0 }
    requires plan { (P.memory pages.old).plan ≡ None }
    requires fits { length first.now ≤ 1024 }
    ensures spared { IsOk result }
    ensures ready { OnOk result (IsReady (P.memory pages.new) first.now) }
    ensures row { OnOk result ((n : ℕ) × Row (P.memory pages.old) (P.memory pages.new) n) }
    ensures all { OnOk result ((row : List Written) × WritesAll (P.memory pages.old) row (P.memory pages.new)) }
{
    let mut frame = ArrayVec::new();
    framed(first, &mut frame);
    let mut blocks = ArrayVec::new();
    changed_in(&[], &[], frame.as_slice(), &mut blocks);
    replay(pages, blocks.as_slice())?;
    pages.release()
}

/// Writes the first state to pages on which no tear is planned.
pub fn prepare<P: Pages>(pages: &mut P, first: &[u8])
    requires may { MayFormat (P.memory pages.old) first.now }
    ensures ready { IsReady (P.memory pages.new) first.now }
    ensures commit { (P.memory pages.new).commit ≡ 0 }
    ensures plan { (P.memory pages.new).plan ≡ None }
    ensures losses { (P.memory pages.new).losses ≡ (P.memory pages.old).losses }
    ensures once { TurnedOnce (P.memory pages.old) (P.memory pages.new) }
{
    pages.power_up();
    match write_first(pages, first) {
        Ok(()) => {}
        Err(Gone) => unreachable!(),
    }
}
