//! The pages of the home and the journal, read and written one after another.
ghost use Rattle.std.specs.Prelude.{◌≡◌, ◌≤◌, ◌+◌, ◌*◌, ◌/◌, length, take, drop, slice_index, true, Some, IsSome};
ghost use Rattle.std.specs.Prelude.{OnOk, OnErr};
ghost use Rattle.torn_store.specs.Layout.{bytes_of_pages, paired, recover_at};
ghost use Rattle.torn_store.specs.Store.{IsOn};
ghost use Rattle.torn_store.specs.Writing.{MayWrite, WritesAll, StopsIn, journaled};

use crate::layout::{Block, HOME, JOURNAL, State, state_of};
use arrayvec::ArrayVec;
use emv_ports::{Gone, Pages};

/// Writes home pages.
pub fn write_home<P: Pages>(pages: &mut P, blocks: &[Block]) -> Result<(), Gone>
    requires may { MayWrite (P.memory pages.old) blocks.now }
    ensures on { OnOk result ((P.memory pages.new).on ≡ true) }
    ensures all { OnOk result (WritesAll (P.memory pages.old) blocks.now (P.memory pages.new)) }
    ensures stops { OnErr result (StopsIn (P.memory pages.old) blocks.now (P.memory pages.new)) }
{
    for block in blocks {
        pages.write(block.page, &block.bytes)?;
    }
    Ok(())
}

/// Writes the bytes of the blocks on the pages of the journal, from the first on.
pub fn write_journal<P: Pages>(pages: &mut P, blocks: &[Block]) -> Result<(), Gone>
    requires may { MayWrite (P.memory pages.old) blocks.now }
    ensures on { OnOk result ((P.memory pages.new).on ≡ true) }
    ensures all { OnOk result (WritesAll (P.memory pages.old) (journaled 19 blocks.now) (P.memory pages.new)) }
    ensures stops { OnErr result (StopsIn (P.memory pages.old) (journaled 19 blocks.now) (P.memory pages.new)) }
{
    for (i, block) in blocks.iter().enumerate() {
        pages.write(JOURNAL + i as u8, &block.bytes)?;
    }
    Ok(())
}

/// The home pages of these numbers, as the journal has them.
pub fn read_journal<P: Pages>(pages: &P, numbers: &[u8]) -> ArrayVec<Block, 17>
    requires on { (P.memory pages.now).on ≡ true }
    requires size { length (P.memory pages.now).shown ≡ 64 }
    requires few { length numbers.now ≤ 17 }
    ensures { result.items ≡ paired numbers.now (drop 19 (P.memory pages.now).shown) }
{
    let mut blocks = ArrayVec::new();
    for (i, number) in numbers.iter().enumerate() {
        blocks.push(Block {
            page: *number,
            bytes: pages.read(JOURNAL + i as u8),
        });
    }
    blocks
}

/// How many home pages hold the state whose length stands at the front of the home.
fn pages_wanted(home: &[u8; 1088]) -> u8
    requires { slice_index home.now 0 * 256 + slice_index home.now 1 ≤ 1024 }
    ensures { result ≡ (slice_index home.now 0 * 256 + slice_index home.now 1 + 65) / 64 }
{
    let length = u16::from_be_bytes([home[0], home[1]]);
    ((length + 65) / 64) as u8
}

/// Reads so many home pages to the front of `home`.
fn read_pages<P: Pages>(pages: &P, count: u8, home: &mut [u8; 1088])
    requires on { (P.memory pages.now).on ≡ true }
    requires size { length (P.memory pages.now).shown ≡ 64 }
    requires count { count ≤ 17 }
    ensures long { length home.new ≡ 1088 }
    ensures front { take (64 * count) home.new
        ≡ bytes_of_pages (take count (take 17 (drop 1 (P.memory pages.now).shown))) }
{
    for i in 0..count {
        let at = 64 * i as usize;
        home[at..at + 64].copy_from_slice(&pages.read(HOME + i));
    }
}

/// The state that the home holds. The pages behind it aren't read.
pub fn read_home<P: Pages>(pages: &P) -> State
    requires on { IsOn (P.memory pages.now) }
    requires state { IsSome (recover_at 0 (drop 1 (P.memory pages.now).shown)) }
    ensures { recover_at 0 (drop 1 (P.memory pages.now).shown) ≡ Some result.items }
{
    let mut home = [0; 1088];
    read_pages(pages, 1, &mut home);
    let count = pages_wanted(&home);
    read_pages(pages, count, &mut home);
    state_of(&home)
}
