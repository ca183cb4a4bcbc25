//! The nodes whose turn is still to come.

ghost use Rattle.std.specs.Prelude.{◌≡◌, ◌≢◌, ◌+◌, ◌<◌, ◌≤◌, ◌⊎◌, ℕ, Some, OnOk, IfOk, IfSome, IfNone};
ghost use Rattle.std.specs.BTreeSet.{btree_set_len};
ghost use Rattle.circuit.specs.Circuit.{Among};
ghost use Rattle.graph.specs.Graph.{node_at};
ghost use Rattle.coalesce.specs.declared.looks.Look.{Look};
ghost use Rattle.coalesce.specs.Looks.{look_at};
ghost use Rattle.coalesce.specs.Waiting.{Waits, AreBelow, AreFew, TakesOut, IsNext};

use crate::looks::look_of;
use graph::{Graph, NodeKey};
use rp_text::NoMemory;
use std::alloc::Global;
use std::collections::BTreeSet;

// The numbers of the nodes that may have a twin above them.
#[derive(Drop)]
pub struct Waiting {
    numbers: BTreeSet<u32>,
}

impl Waiting {
    // No node.
    pub fn new(alloc: Global) -> Waiting
        ensures few { btree_set_len result.numbers ≡ 0 }
        ensures none { (key : ℕ) → Waits result.numbers key → ⊥ }
    {
        Waiting {
            numbers: BTreeSet::new(alloc),
        }
    }

    // Takes out the first node from this number on or, where there is none, the first of all.
    pub fn next(&mut self, from: u32) -> Option<u32>
        ensures some { IfSome result (TakesOut self.old.numbers self.new.numbers) }
        ensures first { IfSome result (IsNext self.old.numbers from) }
        ensures none { IfNone result ((key : ℕ) → Waits self.old.numbers key → ⊥) }
    {
        let number = self.first_from(from)?;
        self.numbers.remove(&number);
        Some(number)
    }

    fn first_from(&self, from: u32) -> Option<u32>
        ensures some { IfSome result (λ number. Waits self.now.numbers number) }
        ensures first { IfSome result (IsNext self.now.numbers from) }
        ensures none { IfNone result ((key : ℕ) → Waits self.now.numbers key → ⊥) }
    {
        match self.numbers.range(from..).next() {
            Some(number) => Some(*number),
            None => self.numbers.first().copied(),
        }
    }

    // Those of the nodes wait that may have a twin.
    pub fn add_all(&mut self, graph: &Graph, keys: &[NodeKey]) -> Result<(), NoMemory>
        requires { AreFew graph.now.nodes self.old.numbers }
        ensures few { OnOk result (AreFew graph.now.nodes self.new.numbers) }
        ensures keeps { OnOk result ((key : ℕ) → Waits self.old.numbers key → Waits self.new.numbers key) }
        ensures all { OnOk result ((key : ℕ) (look : Look) → Among keys.now key → look_at graph.now.nodes key ≡ Some look → Waits self.new.numbers key) }
    {
        for key in keys {
            self.add(graph, *key)?;
        }
        Ok(())
    }

    // The node waits, if it may have a twin.
    fn add(&mut self, graph: &Graph, key: NodeKey) -> Result<(), NoMemory>
        requires { AreFew graph.now.nodes self.old.numbers }
        ensures few { OnOk result (AreFew graph.now.nodes self.new.numbers) }
        ensures keeps { OnOk result ((other : ℕ) → Waits self.old.numbers other → Waits self.new.numbers other) }
        ensures added { OnOk result ((look : Look) → look_at graph.now.nodes key ≡ Some look → Waits self.new.numbers key) }
    {
        match look_of(graph, key) {
            Some(_) => self.put(key.number()),
            None => Ok(()),
        }
    }

    fn put(&mut self, number: u32) -> Result<(), NoMemory>
        ensures keeps { OnOk result ((other : ℕ) → Waits self.old.numbers other → Waits self.new.numbers other) }
        ensures added { OnOk result (Waits self.new.numbers number) }
        ensures no_other { OnOk result ((other : ℕ) → Waits self.new.numbers other → (other ≡ number) ⊎ Waits self.old.numbers other) }
        ensures few { OnOk result ((bound : ℕ) → AreBelow bound self.new.numbers → btree_set_len self.new.numbers ≤ bound) }
    {
        self.numbers.insert(number)?;
        Ok(())
    }
}
