//! The nodes that are seen, found backwards along the links from those that are shown or clicked.

ghost use Rattle.std.specs.Prelude.{◌≡◌, ℕ, ◌<◌, Option, OnOk, IfOk, option_map, option_copied, replicate, [], false};
ghost use Rattle.node_arena.specs.Items.{keys_of};
ghost use Rattle.graph.specs.Graph.{node_at};
ghost use Rattle.graph.specs.Sound.{IsSound};
ghost use Rattle.graph.specs.Stored.{plain};
ghost use Rattle.graph.specs.Steps.{can_go};
ghost use Rattle.circuit.specs.Circuit.{EachBefore, Among};
ghost use Rattle.prune.specs.Found.{plain_search, is_unmarked, found_one, found_all, found_outer, found_outers, is_outer_at, links_at, TellUnseen};

use graph::{Graph, Kind, Link, Node, NodeKey};
use rp_text::NoMemory;
use std::alloc::Global;

// Whether the node has a mark that isn't set.
pub fn is_unmarked(marks: &[bool], key: NodeKey) -> bool
    ensures { result ≡ is_unmarked marks.now key }
{
    matches!(marks.get(key.number() as usize), Some(false))
}

// Marks each node that reaches a node that is shown or clicked.
pub fn seen_nodes(alloc: Global, graph: &Graph, keys: &[NodeKey]) -> Result<Vec<bool>, NoMemory>
    requires sound { IsSound graph.now.nodes }
    requires keys { keys.now ≡ keys_of graph.now.nodes }
    ensures { IfOk result (λ marks. TellUnseen graph.now.nodes marks.items) }
{
    let mut search = Search::new(alloc, room_for(keys))?;
    search.find_outers(graph, keys)?;
    while let Some(key) = search.found.pop() {
        search.find_sources(graph.node(key))?;
    }
    Ok(search.marks)
}

// How many marks there are to be, so that each of these nodes has one.
fn room_for(keys: &[NodeKey]) -> usize
    requires { EachBefore (λ a b. a < b) keys.now }
    ensures { (key : ℕ) → Among keys.now key → key < result }
{
    match keys.last() {
        Some(key) => key.number() as usize + 1,
        None => 0,
    }
}

#[derive(Drop)]
struct Search {
    // Whether each node was found, by its number.
    marks: Vec<bool>,
    // The nodes that were found and whose sources are still to be looked for.
    found: Vec<NodeKey>,
}

impl Search {
    // Nothing is found yet.
    fn new(alloc: Global, room: usize) -> Result<Search, NoMemory>
        ensures { IfOk result (λ search. plain_search search ≡ record { marks = replicate room false; found = [] }) }
    {
        Ok(Search {
            marks: vec![in alloc; false; room]?,
            found: Vec::new(alloc),
        })
    }

    // Marks the node, if that is still to be done.
    fn find(&mut self, key: NodeKey) -> Result<(), NoMemory>
        ensures { OnOk result (plain_search self.new ≡ found_one (plain_search self.old) key) }
    {
        if is_unmarked(&self.marks, key) {
            self.marks[key.number() as usize] = true;
            self.found.push(key)?;
        }
        Ok(())
    }

    // Finds those of the nodes that are shown or clicked.
    fn find_outers(&mut self, graph: &Graph, keys: &[NodeKey]) -> Result<(), NoMemory>
        ensures { OnOk result (plain_search self.new ≡ found_outers graph.now.nodes (plain_search self.old) keys.now) }
    {
        for key in keys {
            self.find_outer(graph, *key)?;
        }
        Ok(())
    }

    fn find_outer(&mut self, graph: &Graph, key: NodeKey) -> Result<(), NoMemory>
        ensures { OnOk result (plain_search self.new ≡ found_outer graph.now.nodes (plain_search self.old) key) }
    {
        if is_outer(graph.node(key)) {
            self.find(key)?;
        }
        Ok(())
    }

    // Finds the nodes from which links go into the node.
    fn find_sources(&mut self, node: Option<&Node>) -> Result<(), NoMemory>
        ensures { OnOk result (plain_search self.new ≡ found_all (plain_search self.old) (links_at (option_map plain (option_copied node.entry)))) }
    {
        match node {
            Some(node) => self.find_all(&node.links.items),
            None => Ok(()),
        }
    }

    fn find_all(&mut self, links: &[Link]) -> Result<(), NoMemory>
        ensures { OnOk result (plain_search self.new ≡ found_all (plain_search self.old) links.now) }
    {
        for link in links {
            self.find(link.from)?;
        }
        Ok(())
    }
}

// Whether the node is shown or clicked.
fn is_outer(node: Option<&Node>) -> bool
    ensures { result ≡ is_outer_at (option_map plain (option_copied node.entry)) }
{
    match node {
        Some(node) => !can_go(node.kind),
        None => false,
    }
}

fn can_go(kind: Kind) -> bool
    ensures { result ≡ can_go kind }
{
    matches!(
        kind,
        Kind::Torch | Kind::Repeater { .. } | Kind::Comparator { .. } | Kind::Constant
    )
}
