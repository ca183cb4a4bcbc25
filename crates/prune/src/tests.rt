//! Small graphs pruned, by the text that is left.

ghost use Rattle.std.specs.Prelude.{◌≡◌, ◌<◌, [], length, true, IfOk, OnOk};
ghost use Rattle.graph.specs.Stored.{plain};
ghost use Rattle.prune.specs.Sample.{sample, sample_node, with_row, is_sound};

use crate::Prune;
use graph::{Graph, Group, Kind, Link, Links, Node, Places, Pos};
use node_arena::Key;
use pass_frame::Pass;
use rp_text::NoMemory;
use smallvec::SmallVec;
use std::alloc::Global;
use std::process::Abort;
use std::test::Fail;

const REPEATER: Kind = Kind::Repeater { delay: 1 };

// A node without links, pending tick and further places.
fn node(alloc: Global, pos: Pos, kind: Kind, state: u8) -> Node
    ensures { Some (plain result) ≡ sample_node (pos, kind, state) }
{
    Node {
        pos,
        kind,
        state,
        first: false,
        due: 0,
        priority: 0,
        links: Links {
            items: SmallVec::new(alloc),
        },
        also: Places {
            items: Vec::new(alloc),
        },
    }
}

// A graph of these nodes, numbered from 0, and of Back links by source, target and weight.
fn graph_of(
    alloc: Global,
    nodes: &[(Pos, Kind, u8)],
    links: &[(u32, u32, u8)],
) -> Result<Graph, NoMemory>
    requires { length nodes.now < 100 }
    ensures { IfOk result (λ graph. graph.nodes ≡ sample nodes.now links.now) }
{
    let mut graph = Graph::new(alloc);
    for (pos, kind, state) in nodes {
        graph.add_node(node(alloc, *pos, *kind, *state))?;
    }
    for (from, to, weight) in links {
        add_link(&mut graph, *from, *to, *weight)?;
    }
    Ok(graph)
}

// Adds the link, if its ends live.
fn add_link(graph: &mut Graph, from: u32, to: u32, weight: u8) -> Result<(), NoMemory>
    ensures { OnOk result (graph.new.nodes ≡ with_row graph.old.nodes (from, to, weight)) }
{
    let (from, to) = (Key::new(from), Key::new(to));
    if graph.node(from).is_some() && graph.node(to).is_some() {
        let group = Group::Back;
        graph.add_link(
            to,
            Link {
                from,
                group,
                weight,
            },
        )?;
    }
    Ok(())
}

// Prune answers this of the graph of these nodes and links, and leaves a graph of this text, of
// which it answers false.
fn assert_left(
    rt: &impl Abort,
    alloc: Global,
    nodes: &[(Pos, Kind, u8)],
    links: &[(u32, u32, u8)],
    took: bool,
    want: &[u8],
) -> Result<(), NoMemory>
    requires few { length nodes.now < 100 }
    requires sound { is_sound (sample nodes.now links.now) ≡ true }
{
    let mut graph = graph_of(alloc, nodes, links)?;
    assert_eq!(rt; Prune.run(&mut graph)?, took);
    let mut text = Vec::new(alloc);
    graph.push_text(&mut text)?;
    assert_eq!(rt; text.as_slice(), want);
    assert!(rt; !Prune.run(&mut graph)?);
    Ok(())
}

#[test]
fn clock_that_nobody_sees(rt: HostRuntime) -> Result<(), Fail> {
    assert_left(
        &rt,
        rt.alloc(),
        &[(Pos { x: 1, y: 1, z: 0 }, Kind::Torch, 1)],
        &[(0, 0, 0)],
        true,
        b"graph 0 0\n",
    )?;
    Ok(())
}

// A comparator that reads an empty container was folded, and its link dropped.
#[test]
fn container_without_items(rt: HostRuntime) -> Result<(), Fail> {
    let nodes = [
        (Pos { x: 1, y: 0, z: 0 }, Kind::Constant, 0),
        (Pos { x: 2, y: 0, z: 0 }, Kind::Wire, 0),
    ];
    let left = b"graph 1 0\nnode 1 wire 2 0 0 0\n";
    assert_left(&rt, rt.alloc(), &nodes, &[], true, left)?;
    let whole = b"graph 2 1\n\
        node 0 constant 1 0 0 0\n\
        node 1 wire 2 0 0 0\n\
        link 0 1 back 3\n";
    assert_left(&rt, rt.alloc(), &nodes, &[(0, 1, 3)], false, whole)?;
    Ok(())
}

// A torch drives a lamp, and a clock of a repeater and a torch that nobody sees.
#[test]
fn source_of_what_stays_and_what_goes(rt: HostRuntime) -> Result<(), Fail> {
    assert_left(
        &rt,
        rt.alloc(),
        &[
            (Pos { x: 0, y: 0, z: 0 }, REPEATER, 0),
            (Pos { x: 1, y: 0, z: 0 }, Kind::Lever, 0),
            (Pos { x: 2, y: 0, z: 0 }, Kind::Torch, 1),
            (Pos { x: 3, y: 0, z: 0 }, Kind::Torch, 0),
            (Pos { x: 4, y: 0, z: 0 }, Kind::Lamp, 1),
        ],
        &[(1, 2, 1), (2, 0, 2), (0, 3, 0), (3, 0, 5), (2, 4, 4)],
        true,
        b"graph 3 2\n\
        node 1 lever 1 0 0 0\n\
        node 2 torch 2 0 0 1\n\
        node 4 lamp 4 0 0 1\n\
        link 1 2 back 1\n\
        link 2 4 back 4\n",
    )?;
    Ok(())
}
