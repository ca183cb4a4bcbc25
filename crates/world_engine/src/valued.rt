//! What things hold, with their values side by side.

ghost use Rattle.std.specs.Prelude.{◌≡◌, ◌+◌, ◌<◌, ◌≤◌, ◌^◌, All, IfOk, IfSome, length, map, slice_set};
ghost use Rattle.cell_queue.specs.Held.{IsSoon, CanFollow, NoneNow, TakesFirst, cell_of};
ghost use Rattle.world_engine.specs.Running.{value_of};

use cell_queue::Cells;
use circuit::Cell;
use rp_text::NoMemory;
use std::alloc::Global;
use std::marker::Model;

/// What things hold. Their values stand once more in a list of bytes, which a view reads.
#[derive(Drop)]
pub(crate) struct ValuedCells {
    cells: Cells,
    values: Vec<u8>,
}

impl Model for ValuedCells {
    ghost use Rattle.std.specs.Prelude.{map, ◌≡◌};
    ghost use Rattle.cell_queue.specs.Held.{Holding};
    ghost use Rattle.world_engine.specs.Running.{value_of};

    ghost Value = { Holding };

    ghost view = { λ c. c.cells };

    ghost invariant = { λ c. c.values.items ≡ map value_of c.cells.cells };
}

// The values of these cells.
fn values_of(alloc: Global, cells: &[Cell]) -> Result<Vec<u8>, NoMemory>
    ensures { IfOk result (λ values. values.items ≡ map value_of cells.now) }
{
    let mut values = Vec::with_capacity(alloc, cells.len())?;
    for cell in cells {
        values.push(cell.value)?;
    }
    Ok(values)
}

impl ValuedCells {
    /// These cells at the time 0.
    pub(crate) fn new(alloc: Global, cells: Vec<Cell>) -> Result<ValuedCells, NoMemory>
        requires soon { All (IsSoon 0) cells.items }
        requires few { length cells.items ≤ 2 ^ 32 }
        ensures { IfOk result (λ held. held ≡ record { time = 0; cells = cells.items }) }
    {
        let values = values_of(alloc, &cells)?;
        let cells = Cells::new(alloc, cells)?;
        Ok(ValuedCells { cells, values })
    }

    /// The time.
    pub(crate) fn now(&self) -> u64
        ensures { result ≡ self.now.time }
    {
        self.cells.now()
    }

    /// What is held under the key.
    pub(crate) fn cell(&self, key: usize) -> Cell
        ensures { result ≡ cell_of self.now.cells key }
    {
        self.cells.cell(key)
    }

    /// The value of what is held under the key.
    pub(crate) fn value(&self, key: usize) -> u8
        requires { key < length self.now.cells }
        ensures { result ≡ (cell_of self.now.cells key).value }
    {
        self.values[key]
    }

    /// Puts another cell under the key.
    pub(crate) fn hold(&mut self, key: usize, cell: Cell)
        requires inside { key < length self.old.cells }
        requires follows { CanFollow self.old.time (cell_of self.old.cells key) cell }
        ensures { self.new ≡ record { time = self.old.time; cells = slice_set self.old.cells key cell } }
    {
        self.cells.hold(key, cell);
        self.values[key] = cell.value;
    }

    /// Takes the pending tick of the key that fires next, if one is due.
    pub(crate) fn take_due(&mut self) -> Option<usize>
        ensures taken { TakesFirst self.old result self.new }
        ensures few { IfSome result (λ key. key < 2 ^ 32) }
    {
        self.cells.take_due()
    }

    /// Goes to the next time.
    pub(crate) fn advance(&mut self)
        requires none { NoneNow self.old }
        requires early { self.old.time < 2 ^ 63 }
        ensures { self.new ≡ record { time = self.old.time + 1; cells = self.old.cells } }
    {
        self.cells.advance();
    }
}
