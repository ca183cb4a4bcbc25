//! What is held under each key, with a queue of the pending ticks.

ghost use Rattle.std.specs.Prelude.{◌≡◌, ◌+◌, ◌-◌, ◌<◌, ◌≤◌, ◌^◌, [], All, IfOk, IfSome, length, slice_set, if◌then◌else◌};
ghost use Rattle.cell_queue.specs.Held.{Holding, IsSoon, CanFollow, IsNow, NoneNow, TakesFirst, cell_of, waits, with_tick, wait_of, IsHeld, Takes};

use circuit::Cell;
use rp_text::NoMemory;
use std::alloc::Global;
use std::marker::Model;
use tick_queue::{Queue, RingQueue, Tick};

/// What a key holds where nothing stands.
pub const NOTHING: Cell = Cell {
    value: 0,
    due: 0,
    priority: 0,
};

/// A pending tick: how many ticks of time are left, 1 to 15, and its priority.
#[derive(Clone, Copy, PartialEq, Eq, Debug)]
pub struct Wait {
    pub left: u8,
    pub priority: u8,
}

/// The time, a cell for each key from 0 on, and the pending ticks in their order. All memory is
/// taken by `new`, and no call looks at more than one key.
#[derive(Drop)]
pub struct Cells {
    cells: Vec<Cell>,
    queue: RingQueue<u32>,
}

impl Model for Cells {
    ghost use Rattle.cell_queue.specs.Held.{Holding, IsHeld};

    ghost Value = { Holding };

    ghost view = { λ c. record { time = ⟦<RingQueue<u32> as Queue<u32>>⟧.time c.queue; cells = c.cells.items } };

    ghost invariant = { λ c. IsHeld (⟦<RingQueue<u32> as Queue<u32>>⟧.ticks c.queue) (⟦<RingQueue<u32> as Queue<u32>>⟧.spare c.queue) c.cells.items };
}

// Adds the pending tick of a key, if it has one.
fn add_tick<Q: Queue<u32>>(queue: &mut Q, key: u32, cell: Cell)
    requires room { 0 < Q.spare queue.old }
    requires soon { IsSoon (Q.time queue.old) cell }
    ensures ticks { Q.ticks queue.new ≡ with_tick key cell (Q.ticks queue.old) }
    ensures room { Q.spare queue.new + (if waits cell then 1 else 0) ≡ Q.spare queue.old }
    ensures time { Q.time queue.new ≡ Q.time queue.old }
{
    if cell.due != 0 {
        queue.add(Tick {
            due: cell.due,
            priority: cell.priority,
            key,
        });
    }
}

// Adds the pending ticks of all keys.
fn add_ticks<Q: Queue<u32>>(queue: &mut Q, cells: &[Cell])
    requires none { Q.ticks queue.old ≡ [] }
    requires room { length cells.now ≤ Q.spare queue.old }
    requires soon { All (IsSoon (Q.time queue.old)) cells.now }
    requires few { length cells.now ≤ 2 ^ 32 }
    ensures held { IsHeld (Q.ticks queue.new) (Q.spare queue.new) cells.now }
    ensures time { Q.time queue.new ≡ Q.time queue.old }
{
    for (key, cell) in cells.iter().enumerate() {
        add_tick(queue, key as u32, *cell);
    }
}

// Takes the first tick that is due now.
fn take_first<Q: Queue<u32>>(queue: &mut Q) -> Option<u32>
    ensures taken { Takes (Q.time queue.old) (Q.ticks queue.old) (Q.spare queue.old) result (Q.ticks queue.new) (Q.spare queue.new) }
    ensures time { Q.time queue.new ≡ Q.time queue.old }
{
    for priority in 0..4 {
        if let Some(key) = queue.take(priority) {
            return Some(key);
        }
    }
    None
}

// How many ticks of time are left until the tick is due.
fn left_until(due: u64, time: u64) -> u8
    requires { due ≤ time + 15 }
    ensures { result ≡ due - time }
{
    due.saturating_sub(time) as u8
}

fn cell_at(cells: &[Cell], key: usize) -> Cell
    ensures { result ≡ cell_of cells.now key }
{
    match cells.get(key) {
        Some(cell) => *cell,
        None => NOTHING,
    }
}

impl Cells {
    ghost use Rattle.cell_queue.specs.Held.{rested};

    /// These cells at the time 0.
    pub fn new(alloc: Global, cells: Vec<Cell>) -> Result<Cells, NoMemory>
        requires soon { All (IsSoon 0) cells.items }
        requires few { length cells.items ≤ 2 ^ 32 }
        ensures { IfOk result (λ held. held ≡ record { time = 0; cells = cells.items }) }
    {
        let mut queue = RingQueue::new(alloc);
        queue.reserve(cells.len())?;
        add_ticks(&mut queue, &cells);
        Ok(Cells { cells, queue })
    }

    /// The time.
    pub fn now(&self) -> u64
        ensures { result ≡ self.now.time }
    {
        self.queue.now()
    }

    /// What is held under the key.
    pub fn cell(&self, key: usize) -> Cell
        ensures { result ≡ cell_of self.now.cells key }
    {
        cell_at(&self.cells, key)
    }

    /// Puts another cell under the key.
    pub fn hold(&mut self, key: usize, cell: Cell)
        requires inside { key < length self.old.cells }
        requires follows { CanFollow self.old.time (cell_of self.old.cells key) cell }
        ensures { self.new ≡ record { time = self.old.time; cells = slice_set self.old.cells key cell } }
    {
        let waited = cell_at(&self.cells, key).due != 0;
        self.cells[key] = cell;
        if !waited {
            add_tick(&mut self.queue, key as u32, cell);
        }
    }

    /// Takes the pending tick of the key that fires next, if one is due.
    pub fn take_due(&mut self) -> Option<usize>
        ensures taken { TakesFirst self.old result self.new }
        ensures few { IfSome result (λ key. key < 2 ^ 32) }
    {
        match take_first(&mut self.queue) {
            Some(key) => {
                let key = key as usize;
                let value = cell_at(&self.cells, key).value;
                self.cells[key] = Cell {
                    value,
                    due: 0,
                    priority: 0,
                };
                Some(key)
            }
            None => None,
        }
    }

    /// Goes to the next time.
    pub fn advance(&mut self)
        requires none { NoneNow self.old }
        requires early { self.old.time < 2 ^ 63 }
        ensures { self.new ≡ record { time = self.old.time + 1; cells = self.old.cells } }
    {
        self.queue.advance();
    }

    /// The pending tick of the key.
    pub fn wait(&self, key: usize) -> Option<Wait>
        ensures value { result ≡ wait_of self.now.time (cell_of self.now.cells key) }
        ensures soon { IfSome result (λ wait. (self.now.time ≤ (cell_of self.now.cells key).due) × (wait.left ≤ 15)) }
    {
        let cell = self.cell(key);
        if cell.due == 0 {
            return None;
        }
        let time = self.queue.now();
        Some(Wait {
            left: left_until(cell.due, time),
            priority: cell.priority,
        })
    }
}
