//! The numbers of the cells of a rising list, in two bits for each cell.
#![tactic(auto)]

ghost use Rattle.std.specs.Prelude.{◌≡◌, ◌+◌, ◌%◌, ◌^◌, ◌<◌, ◌≤◌, ◌==◌, [], ◌∷◌, ◌++◌, All, None, Some, OnOk, OnErr, IfOk, IfSome, count_ones, if◌then◌else◌, length, set, vec_len};
ghost use Rattle.std.specs.Int.{bit_at};
ghost use Rattle.cell_numbers.specs.Numbers.{number_in};
ghost use Rattle.cell_numbers.specs.Words.{with_bit, word_in};

use rp_text::NoMemory;
use std::alloc::Global;
use std::marker::Model;

// How many cells have their bits in one word.
const CELLS: usize = 32;

// Which of 32 cells are listed, and how many are listed before them.
#[derive(Clone, Copy)]
struct Word {
    bits: u32,
    before: u32,
}

/// A rising list of cells, which answers where in it a cell stands.
#[derive(Drop)]
pub struct CellNumbers {
    words: Vec<Word>,
    count: usize,
}

impl Model for CellNumbers {
    ghost use Rattle.std.specs.Prelude.{List, ℕ};
    ghost use Rattle.cell_numbers.specs.Words.{cells_in, AreCounted};

    ghost Value = { List ℕ };

    ghost view = { λ s. cells_in s.words.items };

    ghost invariant = { λ s. AreCounted s.words.items s.count };
}

// The number of the cell of a bit, if it is set.
fn number_of(word: Word, bit: u32) -> Option<usize>
    requires { bit < 32 }
    ensures { result ≡ (if bit_at word.bits bit == 1 then Some (word.before + count_ones (word.bits % 2 ^ bit)) else None) }
{
    let mask = 1u32 << bit;
    if word.bits & mask == 0 {
        None
    } else {
        Some(word.before as usize + (word.bits & (mask - 1)).count_ones() as usize)
    }
}

fn set_bit(words: &mut Vec<Word>, index: usize, bit: u32)
    requires inside { index < vec_len words.old }
    requires bit { bit < 32 }
    ensures { words.new.items ≡ set words.old.items index (with_bit bit (word_in words.old.items index)) }
{
    words[index].bits |= 1 << bit;
}

impl CellNumbers {
    /// An empty list, with room for cells below a bound.
    pub fn new(alloc: Global, bound: usize) -> Result<CellNumbers, NoMemory>
        ensures { IfOk result (λ numbers. numbers ≡ []) }
    {
        let words = Vec::with_capacity(alloc, bound.div_ceil(CELLS))?;
        Ok(CellNumbers { words, count: 0 })
    }

    /// How many cells are listed.
    pub fn len(&self) -> usize
        ensures { result ≡ length self.now }
    {
        self.count
    }

    /// Lists one cell more, which is above all others.
    pub fn push(&mut self, cell: usize) -> Result<(), NoMemory>
        requires few { cell < 2 ^ 32 }
        requires rising { All (λ other. other < cell) self.old }
        ensures ok { OnOk result (self.new ≡ self.old ++ cell ∷ []) }
        ensures err { OnErr result (self.new ≡ self.old) }
    {
        let index = cell / CELLS;
        let before = self.count as u32;
        self.words.resize(index + 1, Word { bits: 0, before })?;
        set_bit(&mut self.words, index, (cell % CELLS) as u32);
        self.count += 1;
        Ok(())
    }

    /// The number of a cell, if it is listed.
    pub fn get(&self, cell: usize) -> Option<usize>
        ensures number { result ≡ number_in self.now cell }
        ensures low { IfSome result (λ number. number ≤ cell) }
    {
        match self.words.get(cell / CELLS) {
            Some(word) => number_of(*word, (cell % CELLS) as u32),
            None => None,
        }
    }
}
