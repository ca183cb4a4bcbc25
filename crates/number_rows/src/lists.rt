//! Lists of numbers that grow, and rows of them.

ghost use Rattle.std.specs.Prelude.{◌≡◌, ◌<◌, [], ◌∷◌, ◌++◌, length, replicate, set, IfOk, OnOk};
ghost use Rattle.number_rows.specs.Listed.{list_at};

use crate::rows::Rows;
use rp_text::NoMemory;
use std::alloc::Global;
use std::marker::Model;

/// Lists of numbers.
#[derive(Drop)]
pub struct Lists {
    lists: Vec<Vec<u32>>,
}

impl Model for Lists {
    ghost use Rattle.std.specs.Prelude.{List, ℕ};
    ghost use Rattle.number_rows.specs.Listed.{items_of};

    ghost Value = { List (List ℕ) };

    ghost view = { λ s. items_of s.lists.items };

    ghost invariant = { λ s. Unit {0} };
}

impl Lists {
    /// So many empty lists.
    pub fn new(alloc: Global, count: usize) -> Result<Lists, NoMemory>
        ensures { IfOk result (λ lists. lists ≡ replicate count []) }
    {
        let mut lists = Vec::with_capacity(alloc, count)?;
        for _made in 0..count {
            lists.push(Vec::new(alloc))?;
        }
        Ok(Lists { lists })
    }

    /// How many they are.
    pub fn count(&self) -> usize
        ensures { result ≡ length self.now }
    {
        self.lists.len()
    }

    /// One of them.
    pub fn list(&self, number: usize) -> &[u32]
        requires { number < length self.now }
        ensures { result.now ≡ list_at self.now number }
    {
        &self.lists[number]
    }

    /// Puts a number at the end of a list.
    pub fn push(&mut self, number: usize, item: u32) -> Result<(), NoMemory>
        requires { number < length self.old }
        ensures { OnOk result (self.new ≡ set self.old number (list_at self.old number ++ item ∷ [])) }
    {
        self.lists[number].push(item)?;
        Ok(())
    }
}

/// These lists as rows, one behind another.
pub fn rows_from(alloc: Global, lists: &Lists) -> Result<Rows, NoMemory>
    ensures { IfOk result (λ rows. rows ≡ lists.now) }
{
    let mut rows = Rows::new(alloc);
    for number in 0..lists.count() {
        rows.push(lists.list(number))?;
    }
    Ok(rows)
}
