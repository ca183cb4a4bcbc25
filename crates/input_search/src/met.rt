//! Which numbers a search has met.

ghost use Rattle.std.specs.Prelude.{◌≡◌, ◌<◌, ◌||◌, [], ◌∷◌, ℕ, OnOk, IsTrue, true, false, not, length, replicate, slice_set, vec_len};
ghost use Rattle.input_search.specs.CellLists.{has_cell};
ghost use Rattle.input_search.specs.Rows.{is_met, has_met, AreBelow, AreListed, Gathers, GathersCells};

use cell_numbers::CellNumbers;
use rp_text::NoMemory;
use std::alloc::Global;
use std::marker::Model;

/// Which numbers were met since the last start. A number is met in a turn, so that a start is cheap.
#[derive(Drop)]
pub(crate) struct Met {
    turns: Vec<u32>,
    turn: u32,
}

impl Model for Met {
    ghost use Rattle.std.specs.Prelude.{List, Bool, map, All, ◌≤◌, ◌==◌};

    ghost Value = { List Bool };

    ghost view = { λ s. map (λ turn. turn == s.turn) s.turns.items };

    ghost invariant = { λ s. All (λ turn. turn ≤ s.turn) s.turns.items };
}

impl Met {
    pub(crate) fn new(alloc: Global) -> Met
        ensures { result ≡ [] }
    {
        Met {
            turns: Vec::new(alloc),
            turn: 0,
        }
    }

    /// Begins anew, for numbers below `count`.
    pub(crate) fn start(&mut self, count: usize) -> Result<(), NoMemory>
        ensures { OnOk result (self.new ≡ replicate count false) }
    {
        if self.turns.len() == count && self.turn < u32::MAX {
            self.turn += 1;
        } else {
            self.turns.clear();
            self.turn = 1;
            self.turns.resize(count, 0)?;
        }
        Ok(())
    }

    /// Meets a number, and says whether it wasn't met before.
    pub(crate) fn meet(&mut self, number: u32) -> bool
        requires { number < length self.old }
        ensures new { result ≡ not (is_met self.old number) }
        ensures met { self.new ≡ slice_set self.old number true }
    {
        let is_new = self.turns[number as usize] != self.turn;
        write(&mut self.turns, number as usize, self.turn);
        is_new
    }
}

fn write(turns: &mut Vec<u32>, index: usize, turn: u32)
    requires { index < vec_len turns.old }
    ensures { turns.new.items ≡ slice_set turns.old.items index turn }
{
    turns[index] = turn;
}

/// Meets a number, and appends it if it wasn't met before.
pub(crate) fn gather_one(found: &mut Vec<u32>, met: &mut Met, number: u32) -> Result<(), NoMemory>
    requires { number < length met.old }
    ensures { OnOk result (Gathers (number ∷ []) met.old met.new found.old.items found.new.items) }
{
    if met.meet(number) {
        found.push(number)?;
    }
    Ok(())
}

/// Meets the numbers of a row, and appends those that weren't met before.
pub(crate) fn gather_row(found: &mut Vec<u32>, met: &mut Met, row: &[u32]) -> Result<(), NoMemory>
    requires { AreBelow (length met.old) row.now }
    ensures { OnOk result (Gathers row.now met.old met.new found.old.items found.new.items) }
{
    for number in row {
        gather_one(found, met, *number)?;
    }
    Ok(())
}

// Meets the number of a listed cell, and says whether it wasn't met before.
fn meet_cell(met: &mut Met, listed: &CellNumbers, cell: u32) -> bool
    requires listed { IsTrue (has_cell listed.now cell) }
    requires size { length met.old ≡ length listed.now }
    ensures new { result ≡ not (has_met listed.now met.old cell) }
    ensures met { (i : ℕ) → has_met listed.now met.new i ≡ (has_met listed.now met.old i || has_cell (cell ∷ []) i) }
    ensures size { length met.new ≡ length met.old }
{
    match listed.get(cell as usize) {
        Some(number) => met.meet(number as u32),
        None => unreachable!(),
    }
}

// Meets a listed cell, and appends it if it wasn't met before.
fn gather_cell(
    found: &mut Vec<u32>,
    met: &mut Met,
    listed: &CellNumbers,
    cell: u32,
) -> Result<(), NoMemory>
    requires listed { IsTrue (has_cell listed.now cell) }
    requires size { length met.old ≡ length listed.now }
    ensures { OnOk result (GathersCells listed.now (cell ∷ []) met.old met.new found.old.items found.new.items) }
{
    if meet_cell(met, listed, cell) {
        found.push(cell)?;
    }
    Ok(())
}

/// Meets these listed cells by their numbers, and appends those that weren't met before.
pub(crate) fn gather_cells(
    found: &mut Vec<u32>,
    met: &mut Met,
    listed: &CellNumbers,
    cells: &[u32],
) -> Result<(), NoMemory>
    requires listed { AreListed listed.now cells.now }
    requires size { length met.old ≡ length listed.now }
    ensures { OnOk result (GathersCells listed.now cells.now met.old met.new found.old.items found.new.items) }
{
    for cell in cells {
        gather_cell(found, met, listed, *cell)?;
    }
    Ok(())
}
