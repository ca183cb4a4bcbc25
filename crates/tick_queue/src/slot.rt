//! A slot of a ring: keys, first in, first out, in nodes that go from one list to another.

ghost use Rattle.std.specs.Prelude.{◌≡◌, ℕ, ◌+◌, ◌<◌, ◌^◌, [], ◌∷◌, ◌++◌, List, length, take, drop, IfSome, OnOk, OnErr, map};
ghost use Rattle.std.specs.Option.{option_to_list};
ghost use Rattle.tick_queue.specs.declared.Tick.{Tick};

use crate::Tick;
use rp_text::NoMemory;
use std::alloc::Global;
use std::collections::LinkedList;
use std::marker::Model;
use std::mem::swap;

/// Nodes for keys. A spare node holds none, or one that it held before.
pub type Nodes<K> = LinkedList<Option<K>>;

/// The keys of one due time and one priority, the first added first.
#[derive(Drop)]
pub struct Slot<K> {
    nodes: Nodes<K>,
}

impl<K> Model for Slot<K> {
    ghost use Rattle.std.specs.Prelude.{◌≡◌, List, Some, map};

    ghost Value = { List K };

    ghost use Rattle.tick_queue.specs.Nodes.{held};

    ghost view = { λ s. held s.nodes };

    ghost invariant = { λ s. s.nodes ≡ map Some (held s.nodes) };
}

impl<K: Copy> Slot<K> {
    /// No key.
    pub fn new(alloc: Global) -> Self
        ensures { result ≡ [] }
    {
        Slot {
            nodes: LinkedList::new(alloc),
        }
    }

    /// Puts the key behind the others, in the first of the spare nodes.
    pub fn put(&mut self, spare: &mut Nodes<K>, key: K)
        requires some { 0 < length spare.old }
        requires few { length self.old + length spare.old < 2 ^ 63 }
        ensures keys { self.new ≡ self.old ++ key ∷ [] }
        ensures spare { length spare.new + 1 ≡ length spare.old }
    {
        let mut node = split_first(spare);
        fill(&mut node, key);
        self.nodes.append(&mut node).unwrap();
    }

    /// Takes the first key out, and puts its node before the spare ones, so that the next key goes
    /// into it: few nodes are in use at a time, and they are the same ones again.
    pub fn take(&mut self, spare: &mut Nodes<K>) -> Option<K>
        requires few { length self.old + length spare.old < 2 ^ 63 }
        ensures keys { self.old ≡ option_to_list result ++ self.new }
        ensures spare { length spare.new ≡ length spare.old + length (option_to_list result) }
        ensures none { result ≡ None → self.new ≡ [] }
    {
        let key = (*self.nodes.front()?)?;
        let mut node = split_first(&mut self.nodes);
        swap(spare, &mut node);
        spare.append(&mut node).unwrap();
        Some(key)
    }

    /// Appends a tick for each key. After an error some of them stand there.
    pub fn list_onto(&self, due: u64, priority: u8, all: &mut Vec<Tick<K>>) -> Result<(), NoMemory>
        ensures { OnOk result (all.new.items ≡ all.old.items ++ map (λ key. record { due = due; priority = priority; key = key }) self.now) }
    {
        for node in self.nodes.iter() {
            if let Some(key) = *node {
                all.push(Tick { due, priority, key })?;
            }
        }
        Ok(())
    }
}

/// Splits the first node off. No node is made or freed.
fn split_first<K>(nodes: &mut Nodes<K>) -> Nodes<K>
    requires { 0 < length nodes.old }
    ensures first { result ≡ take 1 nodes.old }
    ensures rest { nodes.new ≡ drop 1 nodes.old }
{
    let mut rest = nodes.split_off(1).unwrap();
    swap(nodes, &mut rest);
    rest
}

/// Writes the key into a lone node.
fn fill<K: Copy>(node: &mut Nodes<K>, key: K)
    requires { length node.old ≡ 1 }
    ensures { node.new ≡ Some key ∷ [] }
{
    if let Some(place) = node.front_mut() {
        *place = Some(key);
    }
}
