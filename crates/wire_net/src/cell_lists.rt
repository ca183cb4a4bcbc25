//! Lists of cells, one for each number below some number.

ghost use Rattle.std.specs.Prelude.{◌≡◌, ℕ, ◌+◌, ◌<◌, ◌≤◌, List, [], ◌∷◌, ◌++◌, map, length, replicate, set, IsOk, IfOk, OnOk};
ghost use Rattle.wire_net.specs.Listed.{Listed, list_at, items_of, AreRoomy};

use rp_text::NoMemory;
use std::alloc::Global;
use std::marker::Model;

// Each list has room for `room` cells.
#[derive(Drop)]
pub(crate) struct CellLists {
    lists: Vec<Vec<u32>>,
    room: usize,
}

impl Model for CellLists {
    ghost Value = { Listed };

    ghost view = { λ s. record { lists = items_of s.lists.items; room = s.room } };

    ghost invariant = { λ s. AreRoomy s.room s.lists.items };
}

impl CellLists {
    // So many empty lists.
    pub(crate) fn new(alloc: Global, count: usize, room: usize) -> Result<Self, NoMemory>
        ensures { IfOk result (λ made. made ≡ record { lists = replicate count []; room = room }) }
    {
        let mut lists = Vec::with_capacity(alloc, count)?;
        for _made in 0..count {
            lists.push(Vec::with_capacity(alloc, room)?)?;
        }
        Ok(CellLists { lists, room })
    }

    pub(crate) fn list(&self, number: usize) -> &[u32]
        requires { number < length self.now.lists }
        ensures { result.now ≡ list_at self.now.lists number }
    {
        &self.lists[number]
    }

    // Puts a cell at the end of a list. It takes no memory where the list has room.
    pub(crate) fn push(&mut self, number: usize, cell: u32) -> Result<(), NoMemory>
        requires { number < length self.old.lists }
        ensures pushed { OnOk result (self.new ≡ record { lists = set self.old.lists number (list_at self.old.lists number ++ cell ∷ []); room = self.old.room }) }
        ensures room { length (list_at self.old.lists number) < self.old.room → IsOk result }
    {
        self.lists[number].push(cell)?;
        Ok(())
    }

    // As `push`, where there is room.
    pub(crate) fn put(&mut self, number: usize, cell: u32)
        requires number { number < length self.old.lists }
        requires room { length (list_at self.old.lists number) < self.old.room }
        ensures { self.new ≡ record { lists = set self.old.lists number (list_at self.old.lists number ++ cell ∷ []); room = self.old.room } }
    {
        match self.push(number, cell) {
            Ok(()) => {}
            Err(_) => unreachable!(),
        }
    }

    // Empties each list.
    pub(crate) fn clear(&mut self)
        ensures count { length self.new.lists ≡ length self.old.lists }
        ensures room { self.new.room ≡ self.old.room }
        ensures empty { (i : ℕ) → list_at self.new.lists i ≡ [] }
    {
        for number in 0..self.lists.len() {
            self.lists[number].clear();
        }
    }
}
