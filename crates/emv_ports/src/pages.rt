//! The pages of a card's memory, as whoever writes to them sees them.
ghost use Rattle.std.specs.Prelude.{◌≡◌, ◌<◌, true, false, slice_index_or, [], IsTrue};
ghost use Rattle.std.specs.Prelude.{OnOk, OnErr};
ghost use Rattle.emv_ports.specs.Cut.{is_plan};
ghost use Rattle.emv_ports.specs.Memory.{Memory, planned, PowersUp, powered_off, commit_marked, page_written, gone};
ghost use Rattle.emv_ports.specs.Memory.{next_write_cut, next_release_cut, CutWrite};
ghost use Rattle.emv_ports.specs.declared.tear.Cut.TheVariants.{Spared, CutBefore};

use crate::Tear;

/// The power is gone. The pages are off, and no tear is planned any more.
#[derive(Clone, Copy, Debug, PartialEq, Eq)]
pub struct Gone;

/// 64 pages of 64 cells. A cell is sure of a byte, or unsure: then each power-up chooses what it
/// gives.
///
/// The power may be cut at a write or a release, where a plan says so.
pub trait Pages: Drop {
    ghost memory: { Self → Memory };

    /// Plans a tear, or none. The pages are off, and a planned write has a number of at least 1.
    fn plan(&mut self, tear: Option<Tear>)
        requires off { (memory self.old).on ≡ false }
        requires number { IsTrue (is_plan tear) }
        ensures { memory self.new ≡ planned (memory self.old) tear };

    /// Turns the pages on, and begins to count marks and writes.
    fn power_up(&mut self)
        requires off { (memory self.old).on ≡ false }
        ensures { PowersUp (memory self.old) (memory self.new) };

    /// Turns the pages off, and drops the plan.
    fn power_off(&mut self)
        requires on { (memory self.old).on ≡ true }
        ensures { memory self.new ≡ powered_off (memory self.old) };

    /// The bytes of a page: a sure cell's byte, and for an unsure one a byte that stays until the
    /// next power-up.
    fn read(&self, page: u8) -> [u8; 64]
        requires on { (memory self.now).on ≡ true }
        requires page { page < 64 }
        ensures { result ≡ slice_index_or (memory self.now).shown page [] };

    /// Begins the next commit.
    fn mark(&mut self)
        requires on { (memory self.old).on ≡ true }
        ensures { memory self.new ≡ commit_marked (memory self.old) };

    /// Writes a page. `Gone` comes exactly where the plan cuts this write of this commit.
    fn write(&mut self, page: u8, bytes: &[u8; 64]) -> Result<(), Gone>
        requires on { (memory self.old).on ≡ true }
        requires page { page < 64 }
        ensures spared { OnOk result (next_write_cut (memory self.old) ≡ Spared) }
        ensures written { OnOk result (memory self.new ≡ page_written (memory self.old) page bytes.now) }
        ensures cut { OnErr result (CutWrite (memory self.old) page bytes.now (memory self.new)) };

    /// Says that the writes are done. `Gone` comes exactly where the plan cuts the release of this
    /// commit, or names a write of it that wasn't made.
    fn release(&mut self) -> Result<(), Gone>
        requires on { (memory self.old).on ≡ true }
        ensures spared { OnOk result (next_release_cut (memory self.old) ≡ Spared) }
        ensures same { OnOk result (memory self.new ≡ memory self.old) }
        ensures cut { OnErr result (next_release_cut (memory self.old) ≡ CutBefore) }
        ensures gone { OnErr result (memory self.new ≡ gone (memory self.old)) };
}
