//! Card pages in memory whose unsure cells give bytes that nothing wrote.
use crate::{Gone, MemoryPages, Pages, Tear};
use std::marker::Model;

/// Card pages in memory, which tear as `MemoryPages` do. At power-up number n, counted from 1 since
/// they were made, the unsure cell i of page p gives the byte word + 31 n + 7 p + i, modulo 256.
#[derive(Drop)]
pub struct RoughPages {
    pages: MemoryPages,
    word: u32,
    /// Modulo 256.
    power_ups: u8,
}

impl Model for RoughPages {
    ghost use Rattle.emv_ports.specs.Rough.{RoughBank};

    ghost Value = { RoughBank };

    ghost view = { λ rough. record { memory = rough.pages.memory; word = rough.word; power_ups = rough.power_ups } };
}

impl RoughPages {
    ghost use Rattle.std.specs.Prelude.{◌≡◌};
    ghost use Rattle.emv_ports.specs.Memory.{IsBlank, blank_memory};

    /// Pages that are off, every cell sure of 00, no tear planned and no loss.
    pub fn blank(word: u32) -> RoughPages
        ensures blank { IsBlank result.memory }
        ensures value { result ≡ record { memory = blank_memory; word = word; power_ups = 0 } }
    {
        RoughPages {
            pages: MemoryPages::blank(),
            word,
            power_ups: 0,
        }
    }
}

impl Pages for RoughPages {
    ghost use Rattle.std.specs.Prelude.{◌≡◌, ◌<◌, ◌+◌, ◌%◌, IsTrue};
    ghost use Rattle.emv_ports.specs.Cut.{is_plan};
    ghost use Rattle.emv_ports.specs.Memory.{planned, PowersUp, powered_off, commit_marked, WritesPage, ReleasesPages};
    ghost use Rattle.emv_ports.specs.Rough.{rough_pages};

    ghost memory = { λ rough. rough.memory };

    fn plan(&mut self, tear: Option<Tear>)
        requires plan { IsTrue (is_plan tear) }
        ensures { self.new ≡ record self.old { memory = planned self.old.memory tear } }
    {
        self.pages.plan(tear)
    }

    fn power_up(&mut self)
        ensures memory { PowersUp self.old.memory self.new.memory }
        ensures shown { self.new.memory.shown
            ≡ rough_pages self.old.word self.new.power_ups 0 self.old.memory.cells }
        ensures power_ups { self.new.power_ups ≡ (self.old.power_ups + 1) % 256 }
        ensures word { self.new.word ≡ self.old.word }
    {
        self.pages.power_up();
        self.power_ups = self.power_ups.wrapping_add(1);
        self.pages.roughen(self.word, self.power_ups);
    }

    fn power_off(&mut self)
        ensures { self.new ≡ record self.old { memory = powered_off self.old.memory } }
    {
        self.pages.power_off()
    }

    fn read(&self, page: u8) -> [u8; 64] {
        self.pages.read(page)
    }

    fn mark(&mut self)
        ensures { self.new ≡ record self.old { memory = commit_marked self.old.memory } }
    {
        self.pages.mark()
    }

    fn write(&mut self, page: u8, bytes: &[u8; 64]) -> Result<(), Gone>
        requires within { page < 64 }
        ensures writes { WritesPage self.old.memory page bytes.now self.new.memory result }
        ensures kept { (self.new.word ≡ self.old.word) × (self.new.power_ups ≡ self.old.power_ups) }
    {
        self.pages.write(page, bytes)
    }

    fn release(&mut self) -> Result<(), Gone>
        ensures releases { ReleasesPages self.old.memory self.new.memory result }
        ensures kept { (self.new.word ≡ self.old.word) × (self.new.power_ups ≡ self.old.power_ups) }
    {
        self.pages.release()
    }
}
