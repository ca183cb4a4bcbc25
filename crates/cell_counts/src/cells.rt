//! What is held under each key, with the numbers of pending ticks.

ghost use Rattle.std.specs.Prelude.{◌≡◌, ◌≢◌, ◌+◌, ◌<◌, ◌≤◌, ◌^◌, ℕ, None, All, IfOk, IfSome, true, false, length, slice_index, slice_set};
ghost use Rattle.cell_counts.specs.Held.{Holding, IsFirst, IsSoon, CanFollow, IsNow, IsLeast, NoneNow, cell_of, rested, slot_of, one_at};

use circuit::Cell;
use rp_text::NoMemory;
use std::alloc::Global;
use std::marker::Model;

/// What a key holds where nothing stands.
pub const NOTHING: Cell = Cell {
    value: 0,
    due: 0,
    priority: 0,
};

/// The time and a cell for each key from 0 on. The pending ticks are counted by their time and
/// priority, so that none has to be looked for: which one fires is told from outside. All memory is
/// taken by `new`, and no other call looks at more than one key.
#[derive(Drop)]
pub struct Cells {
    time: u64,
    cells: Vec<Cell>,
    counts: Vec<usize>,
}

impl Model for Cells {
    ghost use Rattle.cell_counts.specs.Held.{Holding, IsHeld};

    ghost Value = { Holding };

    ghost view = { λ c. record { time = c.time; cells = c.cells.items } };

    ghost invariant = { λ c. IsHeld c.time c.counts.items c.cells.items };
}

// Where the ticks of a time and a priority are counted.
fn slot_of(due: u64, priority: u8) -> usize
    requires { priority ≤ 3 }
    ensures slot { result ≡ slot_of due priority }
    ensures below { result < 64 }
{
    (due % 16) as usize * 4 + usize::from(priority)
}

// Counts the pending tick of a cell, if it has one.
fn count(counts: &mut [usize], cell: Cell)
    requires whole { length counts.old ≡ 64 }
    requires priority { cell.due ≢ 0 → cell.priority ≤ 3 }
    requires few { (slot : ℕ) → slot < 64 → slice_index counts.old slot ≤ 2 ^ 32 }
    ensures { (slot : ℕ) → slot < 64 → slice_index counts.new slot ≡ slice_index counts.old slot + one_at slot cell }
{
    if cell.due != 0 {
        counts[slot_of(cell.due, cell.priority)] += 1;
    }
}

// Counts the pending tick of a cell no more.
fn discount(counts: &mut [usize], cell: Cell)
    requires whole { length counts.old ≡ 64 }
    requires waits { cell.due ≢ 0 }
    requires priority { cell.priority ≤ 3 }
    requires counted { 0 < slice_index counts.old (slot_of cell.due cell.priority) }
    ensures { (slot : ℕ) → slot < 64 → slice_index counts.new slot + one_at slot cell ≡ slice_index counts.old slot }
{
    counts[slot_of(cell.due, cell.priority)] -= 1;
}

fn cell_at(cells: &[Cell], key: usize) -> Cell
    ensures { result ≡ cell_of cells.now key }
{
    match cells.get(key) {
        Some(cell) => *cell,
        None => NOTHING,
    }
}

impl Cells {
    /// These cells at the time 0.
    pub fn new(alloc: Global, cells: Vec<Cell>) -> Result<Cells, NoMemory>
        requires soon { All (IsSoon 0) cells.items }
        requires few { length cells.items ≤ 2 ^ 32 }
        ensures { IfOk result (λ held. held ≡ record { time = 0; cells = cells.items }) }
    {
        let mut counts = vec![in alloc; 0usize; 64]?;
        for cell in &cells {
            count(&mut counts, *cell);
        }
        Ok(Cells {
            time: 0,
            cells,
            counts,
        })
    }

    /// The time.
    pub fn now(&self) -> u64
        ensures { result ≡ self.now.time }
    {
        self.time
    }

    /// What is held under the key.
    pub fn cell(&self, key: usize) -> Cell
        ensures { result ≡ cell_of self.now.cells key }
    {
        cell_at(&self.cells, key)
    }

    /// Puts another cell under the key.
    pub fn hold(&mut self, key: usize, cell: Cell)
        requires inside { key < length self.old.cells }
        requires follows { CanFollow self.old.time (cell_of self.old.cells key) cell }
        ensures { self.new ≡ record { time = self.old.time; cells = slice_set self.old.cells key cell } }
    {
        let waited = cell_at(&self.cells, key).due != 0;
        self.cells[key] = cell;
        if !waited {
            count(&mut self.counts, cell);
        }
    }

    /// The least priority number of what is due.
    pub fn least(&self) -> Option<u8>
        ensures none { result ≡ None → NoneNow self.now }
        ensures least { IfSome result (IsLeast self.now) }
    {
        for priority in 0..4u8 {
            if self.counts[slot_of(self.time, priority)] != 0 {
                return Some(priority);
            }
        }
        None
    }

    /// Takes the pending tick of a key that is due.
    pub fn take(&mut self, key: usize)
        requires { IsFirst self.old key }
        ensures { self.new ≡ record { time = self.old.time; cells = slice_set self.old.cells key (rested (cell_of self.old.cells key)) } }
    {
        let cell = cell_at(&self.cells, key);
        discount(&mut self.counts, cell);
        self.cells[key] = Cell {
            value: cell.value,
            due: 0,
            priority: 0,
        };
    }

    /// Goes to the next time.
    pub fn advance(&mut self)
        requires none { NoneNow self.old }
        requires early { self.old.time < 2 ^ 63 }
        ensures { self.new ≡ record { time = self.old.time + 1; cells = self.old.cells } }
    {
        self.time += 1;
    }
}
