//! Card pages that live in memory, and tear by plan.
ghost use Rattle.std.specs.Prelude.{◌≡◌, ◌<◌, map, length, unwrap_or, false, IsTrue};
ghost use Rattle.std.specs.List.{list_all};
ghost use Rattle.emv_ports.specs.Cut.{is_plan, write_cut, release_cut};
ghost use Rattle.emv_ports.specs.Cell.{sure_of, given_of, is_sure, gives_byte, is_page, is_sure_page};
ghost use Rattle.emv_ports.specs.Cell.{cell_turned_on, settled_from, torn_over, all_torn_over, SettlesPages};
ghost use Rattle.emv_ports.specs.Rough.{rough_byte, rough_page, rough_pages};
ghost use Rattle.emv_ports.specs.declared.memory_pages.Cell.TheVariants.{Sure};

use crate::{Cut, Gone, Pages, Tear, TearAt};
use std::marker::Model;

/// A cell: sure of a byte, or torn.
#[derive(Clone, Copy, Debug, PartialEq, Eq)]
enum Cell {
    Sure(u8),
    /// `torn` is the byte of the torn write, `kept` the one that the cell gave when it was torn, and
    /// `given` which of them it gives until the next power-up.
    Unsure { torn: u8, kept: u8, given: u8 },
}

impl Cell {
    fn is_sure(self) -> bool
        ensures sure { result ≡ is_sure self }
        ensures byte { IsTrue (gives_byte self) }
    {
        matches!(self, Cell::Sure(_))
    }

    fn given(self) -> u8
        ensures { result ≡ given_of self }
    {
        match self {
            Cell::Sure(byte) => byte,
            Cell::Unsure { given, .. } => given,
        }
    }

    fn torn_over(self, byte: u8) -> Cell
        ensures { result ≡ torn_over self byte }
    {
        match self {
            Cell::Sure(sure) => {
                if sure == byte {
                    self
                } else {
                    Cell::Unsure {
                        torn: byte,
                        kept: sure,
                        given: sure,
                    }
                }
            }
            Cell::Unsure { given, .. } => Cell::Unsure {
                torn: byte,
                kept: given,
                given,
            },
        }
    }

    fn settled(self, in_turn: bool) -> Cell
        ensures cell { result ≡ cell_turned_on in_turn self }
        ensures byte { IsTrue (gives_byte result) }
    {
        match self {
            Cell::Sure(_) => self,
            Cell::Unsure { torn, kept, .. } => Cell::Unsure {
                torn,
                kept,
                given: if in_turn { torn } else { kept },
            },
        }
    }

    /// The cell, which gives this byte if it is unsure.
    fn roughened(self, byte: u8) -> Cell
        ensures sure { sure_of result ≡ sure_of self }
        ensures given { given_of result ≡ unwrap_or (sure_of self) byte }
    {
        match self {
            Cell::Unsure { torn, kept, .. } => Cell::Unsure {
                torn,
                kept,
                given: byte,
            },
            Cell::Sure(_) => self,
        }
    }
}

fn sure_cells(bytes: &[u8; 64]) -> [Cell; 64]
    ensures cells { result ≡ map Sure bytes.now }
    ensures page { IsTrue (is_sure_page result) }
{
    let mut cells = [Cell::Sure(0); 64];
    for i in 0..64 {
        cells[i] = Cell::Sure(bytes[i]);
    }
    cells
}

fn torn_cells(cells: &[Cell; 64], bytes: &[u8; 64]) -> [Cell; 64]
    ensures { result ≡ all_torn_over cells.now bytes.now }
{
    let mut torn = *cells;
    for i in 0..64 {
        torn[i] = cells[i].torn_over(bytes[i]);
    }
    torn
}

fn given_bytes(cells: &[Cell; 64]) -> [u8; 64]
    ensures { result ≡ map given_of cells.now }
{
    let mut bytes = [0; 64];
    for i in 0..64 {
        bytes[i] = cells[i].given();
    }
    bytes
}

fn settled_cells(cells: &[Cell; 64], power_up: u8) -> [Cell; 64]
    requires { power_up < 2 }
    ensures cells { result ≡ settled_from power_up 0 cells.now }
    ensures page { IsTrue (is_page result) }
{
    let mut settled = *cells;
    for i in 0..64u8 {
        settled[i as usize] = cells[i as usize].settled((i + power_up) % 2 == 0);
    }
    settled
}

fn are_sure(cells: &[Cell; 64]) -> bool
    ensures sure { IsTrue result → IsTrue (list_all is_sure cells.now) }
    ensures page { IsTrue result → IsTrue (is_page cells.now) }
{
    for i in 0..64 {
        if !cells[i].is_sure() {
            return false;
        }
    }
    true
}

/// Lets the cells of a page take their turn, and gives whether one of them is unsure. Most pages have
/// no unsure cell, and are left as they stand.
fn settle_page(cells: &mut [Cell; 64], power_up: u8) -> bool
    requires { power_up < 2 }
    ensures cells { cells.new ≡ settled_from power_up 0 cells.old }
    ensures page { IsTrue (is_page cells.new) }
    ensures sure { result ≡ false → IsTrue (is_sure_page cells.new) }
{
    if are_sure(cells) {
        return false;
    }
    *cells = settled_cells(cells, power_up);
    true
}

/// As `settle_page` for each page.
fn settle(pages: &mut [[Cell; 64]; 64], power_up: u8) -> bool
    requires { power_up < 2 }
    ensures { SettlesPages power_up pages.old pages.new result }
{
    let mut torn = false;
    for page in 0..64 {
        torn |= settle_page(&mut pages[page], power_up);
    }
    torn
}

/// Where no cell is unsure, a power-up changes nothing.
fn settle_if(torn: bool, pages: &mut [[Cell; 64]; 64], power_up: u8) -> bool
    requires turn { power_up < 2 }
    requires sure { torn ≡ false → IsTrue (list_all is_sure_page pages.old) }
    ensures settles { SettlesPages power_up pages.old pages.new result }
{
    if !torn {
        return false;
    }
    settle(pages, power_up)
}

fn rough_byte(word: u32, power_up: u8, page: u8, cell: u8) -> u8
    ensures { result ≡ rough_byte word power_up page cell }
{
    let sum = u64::from(word) + 31 * u64::from(power_up) + 7 * u64::from(page) + u64::from(cell);
    (sum % 256) as u8
}

fn roughen_page(cells: &mut [Cell; 64], word: u32, power_up: u8, page: u8)
    ensures sure { map sure_of cells.new ≡ map sure_of cells.old }
    ensures given { map given_of cells.new
        ≡ rough_page word power_up page 0 (map sure_of cells.old) }
{
    for i in 0..64u8 {
        let cell = cells[i as usize];
        cells[i as usize] = cell.roughened(rough_byte(word, power_up, page, i));
    }
}

fn roughen_pages(pages: &mut [[Cell; 64]; 64], word: u32, power_up: u8)
    ensures sure { map (map sure_of) pages.new ≡ map (map sure_of) pages.old }
    ensures given { map (map given_of) pages.new
        ≡ rough_pages word power_up 0 (map (map sure_of) pages.old) }
{
    for page in 0..64u8 {
        roughen_page(&mut pages[page as usize], word, power_up, page);
    }
}

/// What the plan makes of this write of this commit.
fn write_cut(plan: Option<Tear>, commit: u8, number: u8) -> Cut
    ensures { result ≡ write_cut plan commit number }
{
    match plan {
        Some(tear) if tear.commit == commit => match tear.at {
            TearAt::Before(planned) if planned == number => Cut::CutBefore,
            TearAt::Within(planned) if planned == number => Cut::CutWithin,
            _ => Cut::Spared,
        },
        _ => Cut::Spared,
    }
}

/// What the plan makes of the release behind these writes of this commit.
fn release_cut(plan: Option<Tear>, commit: u8, writes: u8) -> Cut
    ensures { result ≡ release_cut plan commit writes }
{
    match plan {
        Some(tear) if tear.commit == commit => match tear.at {
            TearAt::Before(planned) | TearAt::Within(planned) if planned <= writes => Cut::Spared,
            _ => Cut::CutBefore,
        },
        _ => Cut::Spared,
    }
}

/// Card pages in memory. At power-up number n, counted from 1 since they were made, the unsure
/// cell i of a page gives the torn write's byte where i + n is even, else the byte that it gave
/// when it was torn.
#[derive(Drop)]
pub struct MemoryPages {
    cells: [[Cell; 64]; 64],
    /// Where it is `false` no cell is unsure.
    torn: bool,
    on: bool,
    plan: Option<Tear>,
    commit: u8,
    writes_of_commit: u8,
    losses: u64,
    power_ups: u64,
    /// The number of power-ups modulo 2: which unsure cells give their torn write's byte.
    turn: u8,
    marks: u32,
    writes: u32,
}

impl Model for MemoryPages {
    ghost use Rattle.emv_ports.specs.Workings.{MemoryBank};

    ghost Value = { MemoryBank };

    ghost use Rattle.std.specs.Prelude.{◌≡◌, ◌<◌, false, IsTrue};
    ghost use Rattle.std.specs.List.{list_all};
    ghost use Rattle.emv_ports.specs.Cell.{is_sure_page};
    ghost use Rattle.emv_ports.specs.Cut.{is_plan};
    ghost use Rattle.emv_ports.specs.MemoryPages.{memory_of, workings_of};

    ghost view = { λ pages. record { memory = memory_of pages; workings = workings_of pages } };

    ghost invariant = { λ pages. (pages.turn < 2) × IsTrue (is_plan pages.plan)
        × (pages.torn ≡ false → IsTrue (list_all is_sure_page pages.cells)) };
}

impl MemoryPages {
    ghost use Rattle.emv_ports.specs.Memory.{IsBlank, blank_memory, gone, page_torn};
    ghost use Rattle.emv_ports.specs.Rough.{rough_pages};
    ghost use Rattle.emv_ports.specs.Workings.{blank_workings, torn_workings};

    /// Pages that are off, every cell sure of 00, no tear planned and no loss.
    pub fn blank() -> MemoryPages
        ensures blank { IsBlank result.memory }
        ensures value { result ≡ record { memory = blank_memory; workings = blank_workings } }
    {
        MemoryPages {
            cells: [[Cell::Sure(0); 64]; 64],
            torn: false,
            on: false,
            plan: None,
            commit: 0,
            writes_of_commit: 0,
            losses: 0,
            power_ups: 0,
            turn: 0,
            marks: 0,
            writes: 0,
        }
    }

    /// The number of calls of `mark` since the pages were made, up to the greatest `u32`.
    pub fn marks(&self) -> u32
        ensures { result ≡ self.now.workings.marks }
    {
        self.marks
    }

    /// The number of calls of `write` since the pages were made, up to the greatest `u32`.
    pub fn writes(&self) -> u32
        ensures { result ≡ self.now.workings.writes }
    {
        self.writes
    }

    /// The number of losses of power since the pages were made, up to the greatest `u64`.
    pub fn losses(&self) -> u64
        ensures { result ≡ self.now.memory.losses }
    {
        self.losses
    }

    /// Lets each unsure cell give its rough byte of this power-up.
    pub(crate) fn roughen(&mut self, word: u32, power_up: u8)
        ensures { self.new.memory ≡ record self.old.memory {
          shown = rough_pages word power_up 0 self.old.memory.cells;
        } }
    {
        roughen_pages(&mut self.cells, word, power_up);
    }

    fn tear(&mut self, page: u8, bytes: &[u8; 64])
        requires { page < 64 }
        ensures memory { self.new.memory ≡ page_torn self.old.memory page bytes.now }
        ensures workings { self.new.workings ≡ torn_workings self.old.workings page bytes.now }
    {
        let cells = self.cells[page as usize];
        self.torn = true;
        self.cells[page as usize] = torn_cells(&cells, bytes);
    }

    fn lose(&mut self)
        ensures { self.new ≡ record self.old { memory = gone self.old.memory } }
    {
        self.power_off();
        self.losses = self.losses.saturating_add(1);
    }
}

impl Pages for MemoryPages {
    ghost use Rattle.std.specs.Prelude.{◌≡◌, ◌<◌, IsTrue, OnOk, OnErr};
    ghost use Rattle.emv_ports.specs.Cut.{is_plan};
    ghost use Rattle.emv_ports.specs.Memory.{planned, PowersUp, powered_off, commit_marked};
    ghost use Rattle.emv_ports.specs.Memory.{next_write_cut, WritesPage, ReleasesPages};
    ghost use Rattle.emv_ports.specs.Workings.{turned_on, marked_once};
    ghost use Rattle.emv_ports.specs.Workings.{written_once, called_once, torn_once};
    ghost use Rattle.emv_ports.specs.declared.tear.Cut.TheVariants.{CutBefore, CutWithin};

    ghost memory = { λ pages. pages.memory };

    fn plan(&mut self, tear: Option<Tear>)
        requires { IsTrue (is_plan tear) }
        ensures { self.new ≡ record self.old { memory = planned self.old.memory tear } }
    {
        self.plan = tear;
    }

    fn power_up(&mut self)
        ensures memory { PowersUp self.old.memory self.new.memory }
        ensures workings { self.new.workings ≡ turned_on self.old.workings }
    {
        self.power_ups = self.power_ups.saturating_add(1);
        self.turn = (self.turn + 1) % 2;
        let torn = settle_if(self.torn, &mut self.cells, self.turn);
        self.torn = torn;
        self.on = true;
        self.commit = 0;
        self.writes_of_commit = 0;
    }

    fn power_off(&mut self)
        ensures { self.new ≡ record self.old { memory = powered_off self.old.memory } }
    {
        self.on = false;
        self.plan = None;
    }

    fn read(&self, page: u8) -> [u8; 64] {
        given_bytes(&self.cells[page as usize])
    }

    fn mark(&mut self)
        ensures { self.new ≡ record { memory = commit_marked self.old.memory; workings = marked_once self.old.workings } }
    {
        self.marks = self.marks.saturating_add(1);
        self.commit = self.commit.saturating_add(1);
        self.writes_of_commit = 0;
    }

    fn write(&mut self, page: u8, bytes: &[u8; 64]) -> Result<(), Gone>
        requires { page < 64 }
        ensures writes { WritesPage self.old.memory page bytes.now self.new.memory result }
        ensures workings { OnOk result (self.new.workings ≡ written_once self.old.workings page bytes.now) }
        ensures before { OnErr result (next_write_cut self.old.memory ≡ CutBefore
            → self.new.workings ≡ called_once self.old.workings) }
        ensures within { OnErr result (next_write_cut self.old.memory ≡ CutWithin
            → self.new.workings ≡ torn_once self.old.workings page bytes.now) }
    {
        self.writes = self.writes.saturating_add(1);
        let number = self.writes_of_commit.saturating_add(1);
        match write_cut(self.plan, self.commit, number) {
            Cut::Spared => {
                self.cells[page as usize] = sure_cells(bytes);
                self.writes_of_commit = number;
                Ok(())
            }
            Cut::CutBefore => {
                self.lose();
                Err(Gone)
            }
            Cut::CutWithin => {
                self.tear(page, bytes);
                self.lose();
                Err(Gone)
            }
        }
    }

    fn release(&mut self) -> Result<(), Gone>
        ensures releases { ReleasesPages self.old.memory self.new.memory result }
        ensures workings { self.new.workings ≡ self.old.workings }
    {
        match release_cut(self.plan, self.commit, self.writes_of_commit) {
            Cut::Spared => Ok(()),
            _ => {
                self.lose();
                Err(Gone)
            }
        }
    }
}
