//! Rows of numbers, one behind another.

ghost use Rattle.std.specs.Prelude.{◌≡◌, ◌≤◌, ◌^◌, [], ◌∷◌, ◌++◌, OnOk, IfOk, OnErr};
ghost use Rattle.number_rows.specs.Listed.{list_at};

use rp_text::NoMemory;
use std::alloc::Global;
use std::marker::Model;

// Where a row stands among the numbers.
#[derive(Clone, Copy)]
struct Part {
    start: u32,
    end: u32,
}

// A number of numbers that a part can name. More count as want of memory.
fn narrow(count: usize) -> Result<u32, NoMemory>
    ensures same { IfOk result (λ narrow. narrow ≡ count) }
    ensures wide { OnErr result (2 ^ 32 ≤ count) }
{
    match u32::try_from(count) {
        Ok(narrow) => Ok(narrow),
        Err(_) => Err(NoMemory),
    }
}

/// Rows of numbers.
#[derive(Drop)]
pub struct Rows {
    numbers: Vec<u32>,
    parts: Vec<Part>,
}

impl Model for Rows {
    ghost use Rattle.std.specs.Prelude.{List, ℕ, map, slice_range, length, ◌≤◌, All};
    ghost use Rattle.number_rows.specs.declared.rows.Part.{Part};

    ghost Value = { List (List ℕ) };

    ghost view = { λ s. map (λ (part : Part). slice_range s.numbers.items part.start part.end) s.parts.items };

    ghost invariant = { λ s. All (λ (part : Part). (part.start ≤ part.end) × (part.end ≤ length s.numbers.items)) s.parts.items };
}

impl Rows {
    pub fn new(alloc: Global) -> Rows
        ensures { result ≡ [] }
    {
        Rows {
            numbers: Vec::new(alloc),
            parts: Vec::new(alloc),
        }
    }

    /// Puts a row behind the others.
    pub fn push(&mut self, row: &[u32]) -> Result<(), NoMemory>
        ensures { OnOk result (self.new ≡ self.old ++ row.now ∷ []) }
    {
        let start = narrow(self.numbers.len())?;
        self.numbers.extend_from_slice(row)?;
        let end = narrow(self.numbers.len())?;
        self.parts.push(Part { start, end })?;
        Ok(())
    }

    /// The row of this index: none past the last one.
    pub fn row(&self, index: usize) -> &[u32]
        ensures { result.now ≡ list_at self.now index }
    {
        match self.parts.get(index) {
            Some(part) => &self.numbers[part.start as usize..part.end as usize],
            None => &[],
        }
    }
}
