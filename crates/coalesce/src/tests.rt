//! Graphs made by hand, and what is left of them.

mod rounds;

ghost use Rattle.std.specs.Prelude.{◌≡◌, ◌<◌, [], length, IfOk};

use super::*;
use crate::sweep::take_all;
use graph::{Group, Kind, Link, Links, Node, Places, Pos};
use node_arena::Key;
use smallvec::SmallVec;
use std::alloc::Global;
use std::process::Abort;
use std::test::Fail;

const REPEATER: Kind = Kind::Repeater { delay: 1 };

const COMPARATOR: Kind = Kind::Comparator {
    subtract: false,
    direct: None,
    far: None,
};

// A node without links.
#[derive(Clone, Copy)]
struct NodeRow {
    place: (i32, i32, i32),
    kind: Kind,
    state: u8,
    first: bool,
    due: u8,
    priority: u8,
}

fn row(place: (i32, i32, i32), kind: Kind, state: u8) -> NodeRow {
    NodeRow {
        place,
        kind,
        state,
        first: false,
        due: 0,
        priority: 0,
    }
}

fn first_row(place: (i32, i32, i32), kind: Kind, state: u8) -> NodeRow {
    NodeRow {
        first: true,
        ..row(place, kind, state)
    }
}

fn node(alloc: Global, row: NodeRow) -> Node
    ensures { result.links.items ≡ [] }
{
    let (x, y, z) = row.place;
    Node {
        pos: Pos { x, y, z },
        kind: row.kind,
        state: row.state,
        first: row.first,
        due: row.due,
        priority: row.priority,
        links: Links {
            items: SmallVec::new(alloc),
        },
        also: Places {
            items: Vec::new(alloc),
        },
    }
}

// A graph of these nodes, numbered from 0, with links from, to, of this group and weight.
fn graph_of(
    alloc: Global,
    rows: &[NodeRow],
    links: &[(u32, u32, Group, u8)],
) -> Result<Graph, NoMemory>
    requires { length rows.now < 1000 }
{
    let mut graph = nodes_of(alloc, rows)?;
    for (from, to, group, weight) in links {
        add_link(&mut graph, *from, *to, *group, *weight)?;
    }
    Ok(graph)
}

fn nodes_of(alloc: Global, rows: &[NodeRow]) -> Result<Graph, NoMemory>
    requires { length rows.now < 1000 }
    ensures { IfOk result (λ graph. length graph.nodes ≡ length rows.now) }
{
    let mut graph = Graph::new(alloc);
    for row in rows {
        graph.add_node(node(alloc, *row))?;
    }
    Ok(graph)
}

// Adds the link, if its ends live.
fn add_link(
    graph: &mut Graph,
    from: u32,
    to: u32,
    group: Group,
    weight: u8,
) -> Result<(), NoMemory> {
    let link = Link {
        from: Key::new(from),
        group,
        weight,
    };
    if graph.node(Key::new(to)).is_some() && graph.node(link.from).is_some() {
        graph.add_link(Key::new(to), link)?;
    }
    Ok(())
}

// What is left has this text, and no more twins.
fn assert_left(
    rt: &impl Abort,
    alloc: Global,
    graph: &mut Graph,
    took: bool,
    want: &[u8],
) -> Result<(), NoMemory> {
    assert_eq!(rt; take_all(graph)?, took);
    assert!(rt; !take_all(graph)?);
    let mut text = Vec::new(alloc);
    graph.push_text(&mut text)?;
    assert_eq!(rt; text.as_slice(), want);
    Ok(())
}

fn run_on_nothing<P: Pass>(rt: &HostRuntime, pass: &mut P) -> Result<bool, NoMemory> {
    let mut graph = Graph::new(rt.alloc());
    pass.run(&mut graph)
}

#[test]
fn nothing_to_do(rt: HostRuntime) -> Result<(), Fail> {
    assert!(rt; !run_on_nothing(&rt, &mut Coalesce)?);
    Ok(())
}

#[test]
fn twins(rt: HostRuntime) -> Result<(), Fail> {
    let mut graph = graph_of(
        rt.alloc(),
        &[
            row((0, 0, 0), Kind::Lamp, 1),
            row((2, 0, 0), Kind::Lamp, 1),
            row((0, 1, 0), Kind::Torch, 1),
            row((2, 1, 0), Kind::Torch, 1),
            row((1, 2, 0), Kind::Lever, 0),
        ],
        &[
            (2, 0, Group::Back, 0),
            (3, 1, Group::Back, 0),
            (4, 2, Group::Back, 0),
            (4, 3, Group::Back, 0),
        ],
    )?;
    let want = b"graph 4 3\n\
        node 0 lamp 0 0 0 1\n\
        node 1 lamp 2 0 0 1\n\
        node 2 torch 0 1 0 1\n\
        node 4 lever 1 2 0 0\n\
        link 2 0 back 0\n\
        link 2 1 back 0\n\
        link 4 2 back 0\n";
    assert_left(&rt, rt.alloc(), &mut graph, true, want)?;
    Ok(())
}

#[test]
fn twins_with_a_pending_tick(rt: HostRuntime) -> Result<(), Fail> {
    let waiting = NodeRow {
        due: 5,
        priority: 3,
        ..row((2, 1, 0), Kind::Torch, 1)
    };
    let mut graph = graph_of(
        rt.alloc(),
        &[
            row((0, 0, 0), Kind::Lamp, 1),
            row((2, 0, 0), Kind::Lamp, 1),
            row((0, 1, 0), Kind::Torch, 1),
            waiting,
            row((1, 2, 0), Kind::Lever, 0),
        ],
        &[
            (2, 0, Group::Back, 0),
            (3, 1, Group::Back, 0),
            (4, 2, Group::Back, 0),
            (4, 3, Group::Back, 0),
        ],
    )?;
    let want = b"graph 5 4\n\
        node 0 lamp 0 0 0 1\n\
        node 1 lamp 2 0 0 1\n\
        node 2 torch 0 1 0 1\n\
        node 3 torch 2 1 0 1 due 5 priority 3\n\
        node 4 lever 1 2 0 0\n\
        link 2 0 back 0\n\
        link 3 1 back 0\n\
        link 4 2 back 0\n\
        link 4 3 back 0\n";
    assert_left(&rt, rt.alloc(), &mut graph, false, want)?;
    Ok(())
}

#[test]
fn merged_comparators(rt: HostRuntime) -> Result<(), Fail> {
    let mut graph = graph_of(
        rt.alloc(),
        &[
            row((0, 1, 0), Kind::Lamp, 0),
            row((1, 1, 0), COMPARATOR, 0),
            row((2, 1, 0), Kind::Lever, 0),
            row((3, 1, 0), COMPARATOR, 0),
            row((4, 1, 0), Kind::Lamp, 0),
        ],
        &[
            (1, 0, Group::Back, 0),
            (2, 1, Group::Back, 0),
            (2, 3, Group::Back, 0),
            (3, 4, Group::Back, 0),
        ],
    )?;
    let want = b"graph 4 3\n\
        node 0 lamp 0 1 0 0\n\
        node 1 comparator 1 1 0 0 compare\n\
        node 2 lever 2 1 0 0\n\
        node 4 lamp 4 1 0 0\n\
        link 1 0 back 0\n\
        link 2 1 back 0\n\
        link 1 4 back 0\n";
    assert_left(&rt, rt.alloc(), &mut graph, true, want)?;
    Ok(())
}

// The links of nodes 1 and 2 into node 3 are in two groups.
#[test]
fn back_and_lock(rt: HostRuntime) -> Result<(), Fail> {
    let mut graph = graph_of(
        rt.alloc(),
        &[
            row((0, 1, 0), Kind::Lever, 0),
            first_row((2, 1, 1), REPEATER, 0),
            first_row((1, 1, 2), REPEATER, 0),
            row((2, 1, 2), REPEATER, 0),
            row((3, 1, 2), Kind::Lamp, 0),
        ],
        &[
            (0, 1, Group::Back, 1),
            (0, 2, Group::Back, 1),
            (2, 3, Group::Back, 0),
            (1, 3, Group::Side, 0),
            (3, 4, Group::Back, 0),
        ],
    )?;
    let want = b"graph 5 5\n\
        node 0 lever 0 1 0 0\n\
        node 1 repeater 2 1 1 0 delay 1 first\n\
        node 2 repeater 1 1 2 0 delay 1 first\n\
        node 3 repeater 2 1 2 0 delay 1\n\
        node 4 lamp 3 1 2 0\n\
        link 0 1 back 1\n\
        link 0 2 back 1\n\
        link 2 3 back 0\n\
        link 1 3 side 0\n\
        link 3 4 back 0\n";
    assert_left(&rt, rt.alloc(), &mut graph, false, want)?;
    Ok(())
}

// The source of the torches is one of them.
#[test]
fn torch_that_feeds_itself(rt: HostRuntime) -> Result<(), Fail> {
    let mut graph = graph_of(
        rt.alloc(),
        &[
            row((0, 0, 0), Kind::Lamp, 1),
            row((3, 0, 0), Kind::Lamp, 1),
            row((0, 1, 0), Kind::Torch, 1),
            row((3, 1, 0), Kind::Torch, 1),
        ],
        &[
            (2, 0, Group::Back, 0),
            (3, 1, Group::Back, 0),
            (3, 2, Group::Back, 1),
            (3, 3, Group::Back, 0),
        ],
    )?;
    let want = b"graph 4 4\n\
        node 0 lamp 0 0 0 1\n\
        node 1 lamp 3 0 0 1\n\
        node 2 torch 0 1 0 1\n\
        node 3 torch 3 1 0 1\n\
        link 2 0 back 0\n\
        link 3 1 back 0\n\
        link 3 2 back 1\n\
        link 3 3 back 0\n";
    assert_left(&rt, rt.alloc(), &mut graph, false, want)?;
    Ok(())
}

// Torches of a lever are twins whatever they lose, and so are then the comparators behind them,
// of which the ones before come in a second round.
#[test]
fn twins_of_twins(rt: HostRuntime) -> Result<(), Fail> {
    let mut graph = graph_of(
        rt.alloc(),
        &[
            row((0, 0, 0), COMPARATOR, 15),
            row((1, 0, 0), COMPARATOR, 15),
            row((2, 0, 0), Kind::Lever, 0),
            row((3, 0, 0), Kind::Torch, 1),
            row((4, 0, 0), Kind::Torch, 1),
            row((5, 0, 0), Kind::Torch, 1),
            row((6, 0, 0), COMPARATOR, 13),
            row((7, 0, 0), COMPARATOR, 13),
        ],
        &[
            (2, 3, Group::Back, 0),
            (2, 4, Group::Back, 14),
            (2, 5, Group::Back, 7),
            (3, 0, Group::Back, 0),
            (5, 1, Group::Back, 0),
            (5, 6, Group::Back, 2),
            (4, 7, Group::Back, 2),
        ],
    )?;
    let want = b"graph 4 3\n\
        node 0 comparator 0 0 0 15 compare\n\
        node 2 lever 2 0 0 0\n\
        node 3 torch 3 0 0 1\n\
        node 6 comparator 6 0 0 13 compare\n\
        link 3 0 back 0\n\
        link 2 3 back 0\n\
        link 3 6 back 2\n";
    assert_left(&rt, rt.alloc(), &mut graph, true, want)?;
    Ok(())
}

// The torches 1 and 2 are twins, and so are 2 and 3, but not 1 and 3, whose links go into two
// groups of the repeater. The lowest goes first: it takes 2, and 3 stays.
#[test]
fn lower_nodes_go_first(rt: HostRuntime) -> Result<(), Fail> {
    let mut graph = graph_of(
        rt.alloc(),
        &[
            row((0, 0, 0), Kind::Lever, 0),
            row((1, 0, 0), Kind::Torch, 1),
            row((2, 0, 0), Kind::Torch, 1),
            row((3, 0, 0), Kind::Torch, 1),
            row((4, 0, 0), REPEATER, 0),
            row((5, 0, 0), Kind::Lamp, 0),
        ],
        &[
            (0, 1, Group::Back, 0),
            (0, 2, Group::Back, 0),
            (0, 3, Group::Back, 0),
            (1, 4, Group::Back, 0),
            (3, 4, Group::Side, 0),
            (4, 5, Group::Back, 0),
        ],
    )?;
    let want = b"graph 5 5\n\
        node 0 lever 0 0 0 0\n\
        node 1 torch 1 0 0 1\n\
        node 3 torch 3 0 0 1\n\
        node 4 repeater 4 0 0 0 delay 1\n\
        node 5 lamp 5 0 0 0\n\
        link 0 1 back 0\n\
        link 0 3 back 0\n\
        link 1 4 back 0\n\
        link 3 4 side 0\n\
        link 4 5 back 0\n";
    assert_left(&rt, rt.alloc(), &mut graph, true, want)?;
    Ok(())
}

// Two levels of repeaters behind a lever become a chain. The repeaters 4 and 6 read one node from
// the start, 5 and 7 another one; that 8 takes 9 makes twins of 4 and 5, which come in the next round.
#[test]
fn a_tree_becomes_a_chain(rt: HostRuntime) -> Result<(), Fail> {
    let mut graph = graph_of(
        rt.alloc(),
        &[
            row((0, 0, 0), Kind::Lamp, 0),
            row((1, 0, 0), Kind::Lamp, 0),
            row((2, 0, 0), Kind::Lamp, 0),
            row((3, 0, 0), Kind::Lamp, 0),
            row((4, 0, 0), REPEATER, 0),
            row((5, 0, 0), REPEATER, 0),
            row((6, 0, 0), REPEATER, 0),
            row((7, 0, 0), REPEATER, 0),
            row((8, 0, 0), REPEATER, 0),
            row((9, 0, 0), REPEATER, 0),
            row((10, 0, 0), Kind::Lever, 0),
        ],
        &[
            (4, 0, Group::Back, 0),
            (5, 1, Group::Back, 0),
            (6, 2, Group::Back, 0),
            (7, 3, Group::Back, 0),
            (8, 4, Group::Back, 0),
            (9, 5, Group::Back, 0),
            (8, 6, Group::Back, 0),
            (9, 7, Group::Back, 0),
            (10, 8, Group::Back, 0),
            (10, 9, Group::Back, 0),
        ],
    )?;
    let want = b"graph 7 6\n\
        node 0 lamp 0 0 0 0\n\
        node 1 lamp 1 0 0 0\n\
        node 2 lamp 2 0 0 0\n\
        node 3 lamp 3 0 0 0\n\
        node 4 repeater 4 0 0 0 delay 1\n\
        node 8 repeater 8 0 0 0 delay 1\n\
        node 10 lever 10 0 0 0\n\
        link 4 0 back 0\n\
        link 4 1 back 0\n\
        link 4 2 back 0\n\
        link 4 3 back 0\n\
        link 8 4 back 0\n\
        link 10 8 back 0\n";
    assert_left(&rt, rt.alloc(), &mut graph, true, want)?;
    assert_stands_for(&rt, &graph, 4, &[6, 5, 7]);
    assert_stands_for(&rt, &graph, 8, &[9]);
    Ok(())
}

// The further places of the node are (x, 0, 0), for these x.
fn assert_stands_for(rt: &impl Abort, graph: &Graph, number: u32, want: &[i32]) {
    match graph.node(Key::new(number)) {
        Some(node) => assert!(rt;
            node.also
                .items
                .iter()
                .map(|pos| pos.x)
                .eq(want.iter().copied())
        ),
        None => assert!(rt; false),
    }
}
