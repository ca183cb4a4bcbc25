//! Which nodes the links of each node go into.

ghost use Rattle.std.specs.Prelude.{◌≡◌, ℕ, ◌<◌, [], Some, length, slice_get, OnOk, IfOk};
ghost use Rattle.node_arena.specs.Items.{keys_of};
ghost use Rattle.circuit.specs.Circuit.{Among};
ghost use Rattle.graph.specs.declared.Link.{Link};
ghost use Rattle.graph.specs.Graph.{HasLink};
ghost use Rattle.coalesce.specs.FanOuts.{targets_of, AreFanOuts, Keeps};

use graph::{Graph, Link, NodeKey};
use rp_text::NoMemory;
use std::alloc::Global;

// For each node, by its number, the nodes that its links go into. Nodes that were dropped may
// stand among them.
#[derive(Drop)]
pub struct FanOuts {
    lists: Vec<Vec<NodeKey>>,
}

impl FanOuts {
    // Those of all nodes of the graph, whose keys are given.
    pub fn of(alloc: Global, graph: &Graph, keys: &[NodeKey]) -> Result<FanOuts, NoMemory>
        requires { keys.now ≡ keys_of graph.now.nodes }
        ensures { IfOk result (λ fans. AreFanOuts graph.now.nodes fans.lists.items) }
    {
        let mut fans = FanOuts {
            lists: Vec::new(alloc),
        };
        for key in keys {
            fans.add_node(graph, *key)?;
        }
        Ok(fans)
    }

    // The nodes that the links of this one go into.
    pub fn targets(&self, from: NodeKey) -> &[NodeKey]
        ensures { result.now ≡ targets_of self.now.lists.items from }
    {
        match self.lists.get(from.number() as usize) {
            Some(list) => list,
            None => &[],
        }
    }

    // Lists the targets of `gone` for `keep` too.
    pub fn join(&mut self, keep: NodeKey, gone: NodeKey) -> Result<(), NoMemory>
        ensures keeps { OnOk result (Keeps self.old.lists.items self.new.lists.items) }
        ensures joined { OnOk result ((key : ℕ) → Among (targets_of self.old.lists.items gone) key → Among (targets_of self.new.lists.items keep) key) }
    {
        let gained = Vec::from_slice(*self.lists.allocator(), self.targets(gone))?;
        for key in &gained {
            self.add(keep, *key)?;
        }
        Ok(())
    }

    // Lists the node for the sources of its links.
    fn add_node(&mut self, graph: &Graph, key: NodeKey) -> Result<(), NoMemory>
        ensures keeps { OnOk result (Keeps self.old.lists.items self.new.lists.items) }
        ensures all { OnOk result ((index : ℕ) (link : Link) → HasLink graph.now.nodes key index link → Among (targets_of self.new.lists.items link.from) key) }
    {
        match graph.node(key) {
            Some(node) => self.add_links(key, &node.links.items),
            None => Ok(()),
        }
    }

    fn add_links(&mut self, key: NodeKey, links: &[Link]) -> Result<(), NoMemory>
        ensures keeps { OnOk result (Keeps self.old.lists.items self.new.lists.items) }
        ensures all { OnOk result ((index : ℕ) (link : Link) → slice_get links.now index ≡ Some link → Among (targets_of self.new.lists.items link.from) key) }
    {
        for link in links {
            self.add(link.from, key)?;
        }
        Ok(())
    }

    // Lists one node for another.
    fn add(&mut self, from: NodeKey, key: NodeKey) -> Result<(), NoMemory>
        ensures keeps { OnOk result (Keeps self.old.lists.items self.new.lists.items) }
        ensures added { OnOk result (Among (targets_of self.new.lists.items from) key) }
    {
        self.grow(from.number())?;
        self.lists[from.number() as usize].push(key)?;
        Ok(())
    }

    // Makes the list of this number.
    fn grow(&mut self, number: u32) -> Result<(), NoMemory>
        ensures made { OnOk result (number < length self.new.lists.items) }
        ensures same { (from : ℕ) → targets_of self.new.lists.items from ≡ targets_of self.old.lists.items from }
    {
        while self.lists.len() <= number as usize {
            self.lists.push(Vec::new(*self.lists.allocator()))?;
        }
        Ok(())
    }
}
