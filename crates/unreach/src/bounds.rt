//! What each node never passes.

ghost use Rattle.std.specs.Prelude.{◌≡◌, Some, IfOk, length, slice_index_or};
ghost use Rattle.graph.specs.declared.Group.TheVariants.{Side as SideGroup};
ghost use Rattle.graph.specs.Graph.{node_at};
ghost use Rattle.graph.specs.Readings.{share, reading};
ghost use Rattle.graph.specs.Steps.{fixed, bound_of, bound_at};
ghost use Rattle.graph.specs.Stored.{plain};
ghost use Rattle.unreach.specs.Reached.{HasBoundsOf};

use graph::{Graph, Group, Kind, Link, Node, NodeKey, fixed_at, greatest_number};
use rp_text::NoMemory;
use std::alloc::Global;

const MOST_POWER: u8 = 15;

// The bounds of nodes, by their numbers.
#[derive(Drop)]
pub struct Bounds {
    list: Vec<u8>,
}

impl Bounds {
    // The bounds of these nodes.
    pub fn new(alloc: Global, graph: &Graph, keys: &[NodeKey]) -> Result<Bounds, NoMemory>
        ensures { IfOk result (λ bounds. HasBoundsOf graph.now.nodes keys.now bounds.list.items) }
    {
        let count = greatest_number(keys) as usize + 1;
        let mut list = vec![in alloc; 0; count]?;
        for key in keys {
            list[key.number() as usize] = bound_at(graph, *key);
        }
        Ok(Bounds { list })
    }

    // The bound of the node, 0 where there is none.
    pub fn of(&self, key: NodeKey) -> u8
        ensures { result ≡ slice_index_or self.now.list.items key 0 }
    {
        match self.list.get(key.number() as usize) {
            Some(bound) => *bound,
            None => 0,
        }
    }
}

fn bound_at(graph: &Graph, key: NodeKey) -> u8
    ensures { result ≡ bound_at graph.now.nodes (node_at graph.now.nodes key) }
{
    match graph.node(key) {
        Some(node) => bound_of(graph, node),
        None => 0,
    }
}

fn bound_of(graph: &Graph, node: &Node) -> u8
    ensures { result ≡ bound_at graph.now.nodes (Some (plain node.now)) }
{
    match node.kind {
        Kind::Constant => node.state,
        Kind::Comparator { subtract: true, .. } => {
            let side = fixed_side(graph, &node.links.items);
            node.state.max(MOST_POWER.saturating_sub(side))
        }
        Kind::Lever
        | Kind::Button { .. }
        | Kind::Plate
        | Kind::Weighted
        | Kind::Torch
        | Kind::Repeater { .. }
        | Kind::Comparator {
            subtract: false,
            ..
        }
        | Kind::Lamp
        | Kind::Trapdoor
        | Kind::Note
        | Kind::Wire => MOST_POWER,
    }
}

// The most that Constants bring to the side.
fn fixed_side(graph: &Graph, links: &[Link]) -> u8
    ensures { result ≡ reading (fixed graph.now.nodes) SideGroup links.now }
{
    let mut most = 0;
    for link in links {
        most = most.max(side_share(graph, link));
    }
    most
}

fn side_share(graph: &Graph, link: &Link) -> u8
    ensures { result ≡ share (fixed graph.now.nodes) SideGroup link.now }
{
    match link.group {
        Group::Side => fixed_at(graph, link.from).saturating_sub(link.weight),
        Group::Back => 0,
    }
}
