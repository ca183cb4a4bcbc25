//! Sound graphs made by hand, for the tests of the passes.
#![tactic(auto)]

ghost use Rattle.std.specs.Prelude.{◌≡◌, ◌<◌, [], length, IfOk, IfSome, OnOk};
ghost use Rattle.graph.specs.declared.Group.TheVariants.{Back, Side};
ghost use Rattle.graph.specs.Sound.{IsSound};

use graph::{Graph, Group, Kind, Link, Links, Node, Places, Pos};
use node_arena::Key;
use rp_text::NoMemory;
use smallvec::SmallVec;
use std::alloc::Global;

mod sound;

/// A node of a graph made by hand: where it stands, what it is, its state, and the ticks until its
/// pending tick, 0 where it has none. A pending tick has the priority 3. No node is `first`.
pub type Row = (Pos, Kind, u8, u8);

/// The graph of these nodes, numbered from 0, and these links, each behind the number of its
/// target. It is `None` where that graph isn't sound. A link is left out where one of its ends
/// doesn't live.
pub fn sound_graph(
    alloc: Global,
    nodes: &[Row],
    links: &[(u32, Link)],
) -> Result<Option<Graph>, NoMemory>
    requires { length nodes.now < 100 }
    ensures { IfOk result (λ made. IfSome made (λ graph. IsSound graph.nodes)) }
{
    let mut graph = graph_of(alloc, nodes)?;
    add_links(&mut graph, links)?;
    if sound::is_sound(&graph, nodes.len() as u32) {
        Ok(Some(graph))
    } else {
        Ok(None)
    }
}

/// A link to the back of a node.
pub fn back(from: u32, weight: u8) -> Link
    ensures { result ≡ record { from = from; group = Back; weight = weight } }
{
    Link {
        from: Key::new(from),
        group: Group::Back,
        weight,
    }
}

/// A link to the side of a node.
pub fn side(from: u32, weight: u8) -> Link
    ensures { result ≡ record { from = from; group = Side; weight = weight } }
{
    Link {
        from: Key::new(from),
        group: Group::Side,
        weight,
    }
}

fn graph_of(alloc: Global, nodes: &[Row]) -> Result<Graph, NoMemory>
    requires { length nodes.now < 100 }
    ensures { IfOk result (λ graph. length graph.nodes ≡ length nodes.now) }
{
    let mut graph = Graph::new(alloc);
    for (pos, kind, state, due) in nodes {
        graph.add_node(node(alloc, *pos, *kind, *state, *due))?;
    }
    Ok(graph)
}

// A node without links and further places.
fn node(alloc: Global, pos: Pos, kind: Kind, state: u8, due: u8) -> Node
    ensures { result.links.items ≡ [] }
{
    Node {
        pos,
        kind,
        state,
        first: false,
        due,
        priority: if due == 0 { 0 } else { 3 },
        links: Links {
            items: SmallVec::new(alloc),
        },
        also: Places {
            items: Vec::new(alloc),
        },
    }
}

fn add_links(graph: &mut Graph, links: &[(u32, Link)]) -> Result<(), NoMemory>
    ensures { OnOk result (length graph.new.nodes ≡ length graph.old.nodes) }
{
    for (to, link) in links {
        add_link(graph, *to, *link)?;
    }
    Ok(())
}

// Adds the link, if its ends live.
fn add_link(graph: &mut Graph, to: u32, link: Link) -> Result<(), NoMemory>
    ensures { OnOk result (length graph.new.nodes ≡ length graph.old.nodes) }
{
    if graph.node(Key::new(to)).is_some() && graph.node(link.from).is_some() {
        graph.add_link(Key::new(to), link)?;
    }
    Ok(())
}
