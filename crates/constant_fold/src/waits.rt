//! Nodes that are to be looked at, and nodes that wait for another one.

ghost use Rattle.std.specs.Prelude.{◌≡◌, ℕ, ◌<◌, [], ◌∷◌, ◌++◌, map, reverse, IfOk, OnOk, length};
ghost use Rattle.constant_fold.specs.Tended.{waiting_for, IsAdded, IsEmptied, IsFresh};

use graph::{NodeKey, greatest_number};
use rp_text::NoMemory;
use std::alloc::Global;
use std::mem;

// A node that is to be looked at, from the link of this index on.
#[derive(Drop)]
pub struct Wait {
    pub node: NodeKey,
    pub index: usize,
}

// The last of `work` is looked at next. What waits for a node stands in the list of its number.
#[derive(Drop)]
pub struct Waits {
    pub work: Vec<Wait>,
    lists: Vec<Vec<Wait>>,
}

impl Waits {
    // All these nodes are to be looked at, the first of them first.
    pub fn new(alloc: Global, keys: &[NodeKey]) -> Result<Waits, NoMemory>
        ensures { IfOk result (λ waits. IsFresh keys.now waits.work.items waits.lists.items) }
    {
        let work = first_looks(alloc, keys)?;
        let lists = empty_lists(alloc, greatest_number(keys) as usize + 1)?;
        Ok(Waits { work, lists })
    }

    // Lets a node wait for this source.
    pub fn add(&mut self, source: NodeKey, wait: Wait) -> Result<(), NoMemory>
        requires { source < length self.old.lists.items }
        ensures work { self.new.work.items ≡ self.old.work.items }
        ensures added { OnOk result (IsAdded self.old.lists.items self.new.lists.items source wait) }
    {
        self.lists[source.number() as usize].push(wait)?;
        Ok(())
    }

    // What waits for this source is to be looked at.
    pub fn wake(&mut self, source: NodeKey) -> Result<(), NoMemory>
        requires { source < length self.old.lists.items }
        ensures work { OnOk result (self.new.work.items ≡ self.old.work.items ++ waiting_for self.old.lists.items source) }
        ensures emptied { OnOk result (IsEmptied self.old.lists.items self.new.lists.items source) }
    {
        let none = Vec::new(*self.work.allocator());
        let mut woken = mem::replace(&mut self.lists[source.number() as usize], none);
        self.work.append(&mut woken)?;
        Ok(())
    }
}

fn first_looks(alloc: Global, keys: &[NodeKey]) -> Result<Vec<Wait>, NoMemory>
    ensures { IfOk result (λ work. work.items ≡ map (λ key. record { node = key; index = 0 }) (reverse keys.now)) }
{
    let work = keys
        .iter()
        .rev()
        .map(|key| Wait {
            node: *key,
            index: 0,
        })
        .collect(alloc)?;
    Ok(work)
}

fn empty_lists(alloc: Global, count: usize) -> Result<Vec<Vec<Wait>>, NoMemory>
    ensures empty { IfOk result (λ lists. (source : ℕ) → waiting_for lists.items source ≡ []) }
    ensures count { IfOk result (λ lists. length lists.items ≡ count) }
{
    let mut lists = Vec::with_capacity(alloc, count)?;
    for _ in 0..count {
        lists.push(Vec::new(alloc))?;
    }
    Ok(lists)
}
