//! What twins have in common, and the nodes that have it in common.

ghost use Rattle.std.specs.Prelude.{◌≡◌, ℕ, ◌<◌, OnOk, IfOk, filter, nat_lt, length, get_or};
ghost use Rattle.std.specs.List.Sorted.{IsNonDecreasing};
ghost use Rattle.circuit.specs.Circuit.{Among};
ghost use Rattle.graph.specs.Graph.{node_at};
ghost use Rattle.graph.specs.Stored.{plain};
ghost use Rattle.coalesce.specs.Looks.{look_at, look_with, counted_weight, members, IsGrouped, KeepsMembers};

use crate::pairs::{asks_for_any, can_fold, is_full, only_link};
use graph::{Graph, Kind, Link, Node, NodeKey};
use rp_text::NoMemory;
use std::alloc::Global;
use std::collections::HashMap;

// All that twins have in common, but for the nodes that their links go into.
#[derive(Clone, Copy, PartialEq, Eq, Hash)]
pub struct Look {
    pub source: NodeKey,
    // The weight of the link, 0 where it makes no difference.
    pub weight: u8,
    pub kind: Kind,
    pub state: u8,
    pub first: bool,
    pub due: u8,
    pub priority: u8,
}

// The look of a node that may have a twin.
pub fn look_of(graph: &Graph, key: NodeKey) -> Option<Look>
    ensures { result ≡ look_at graph.now.nodes key }
{
    let node = graph.node(key)?;
    let link = only_link(node)?;
    look_with(graph, node, link)
}

fn look_with(graph: &Graph, node: &Node, link: Link) -> Option<Look>
    ensures { result ≡ look_with graph.now.nodes (plain node.now) link }
{
    if !can_fold(node.kind) {
        return None;
    }
    Some(Look {
        source: link.from,
        weight: counted_weight(graph, node.kind, link),
        kind: node.kind,
        state: node.state,
        first: node.first,
        due: node.due,
        priority: node.priority,
    })
}

// The weight of the link, where it makes a difference to a node of this kind.
fn counted_weight(graph: &Graph, kind: Kind, link: Link) -> u8
    ensures { result ≡ counted_weight graph.now.nodes kind link }
{
    let full = is_full(graph.node(link.from));
    if full && asks_for_any(kind) {
        0
    } else {
        link.weight
    }
}

// For each look the nodes that have it. Nodes that were dropped may stand among them.
#[derive(Drop)]
pub struct Groups {
    alloc: Global,
    lists: HashMap<Look, Vec<NodeKey>>,
}

impl Groups {
    // No node.
    pub fn new(alloc: Global) -> Groups {
        Groups {
            alloc,
            lists: HashMap::new(alloc),
        }
    }

    // Puts the node among those of its look, if it may have a twin.
    fn add(&mut self, graph: &Graph, key: NodeKey) -> Result<(), NoMemory>
        ensures keeps { OnOk result (KeepsMembers self.old.lists self.new.lists) }
        ensures added { OnOk result (IsGrouped graph.now.nodes self.new.lists key) }
    {
        match look_of(graph, key) {
            Some(look) => self.put(look, key),
            None => Ok(()),
        }
    }

    // Puts in those of the nodes that may have a twin.
    pub fn add_all(&mut self, graph: &Graph, keys: &[NodeKey]) -> Result<(), NoMemory>
        ensures keeps { OnOk result (KeepsMembers self.old.lists self.new.lists) }
        ensures all { OnOk result ((key : ℕ) → Among keys.now key → IsGrouped graph.now.nodes self.new.lists key) }
    {
        for key in keys {
            self.add(graph, *key)?;
        }
        Ok(())
    }

    // Puts the node among those of its look.
    fn put(&mut self, look: Look, key: NodeKey) -> Result<(), NoMemory>
        ensures keeps { OnOk result (KeepsMembers self.old.lists self.new.lists) }
        ensures added { OnOk result (Among (members self.new.lists look) key) }
    {
        let mut list = self.lists.remove(&look).unwrap_or(Vec::new(self.alloc));
        list.push(key)?;
        self.lists.insert(look, list)?;
        Ok(())
    }

    // The nodes of this look that stand above another node, in order.
    pub fn above(&self, look: Look, least: NodeKey) -> Result<Vec<NodeKey>, NoMemory>
        ensures all { IfOk result (λ keys. (key : ℕ) → least < key → Among (members self.now.lists look) key → Among keys.items key) }
        ensures above { IfOk result (λ keys. (index : ℕ) → index < length keys.items → least < get_or keys.items index 0) }
        ensures rise { IfOk result (λ keys. IsNonDecreasing keys.items) }
    {
        let mut keys = self.members_above(look, least)?;
        keys.sort_unstable();
        Ok(keys)
    }

    fn members_above(&self, look: Look, least: NodeKey) -> Result<Vec<NodeKey>, NoMemory>
        ensures { IfOk result (λ keys. keys.items ≡ filter (λ key. nat_lt least key) (members self.now.lists look)) }
    {
        let keys = self
            .members(look)
            .iter()
            .copied()
            .filter(|key| key.number() > least.number())
            .collect(self.alloc)?;
        Ok(keys)
    }

    fn members(&self, look: Look) -> &[NodeKey]
        ensures { result.now ≡ members self.now.lists look }
    {
        match self.lists.get(&look) {
            Some(list) => list,
            None => &[],
        }
    }
}
