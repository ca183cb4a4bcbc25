//! Graphs made by hand, each edit, and the text that is left.

ghost use Rattle.std.specs.Prelude.{◌≡◌, ◌<◌, [], length, IfOk};

use graph::{Click, Graph, Group, Kind, Link, Links, Node, NodeKey, Places, Pos};
use node_arena::Key;
use rp_text::NoMemory;
use smallvec::SmallVec;
use std::alloc::Global;
use std::process::Abort;
use std::test::Fail;

const BUTTON: Kind = Kind::Button { delay: 15 };

const REPEATER: Kind = Kind::Repeater { delay: 1 };

const COMPARATOR: Kind = Kind::Comparator {
    subtract: false,
    direct: None,
    far: None,
};

const SUBTRACTS: Kind = Kind::Comparator {
    subtract: true,
    direct: None,
    far: Some(7),
};

const READS_A_STRENGTH: Kind = Kind::Comparator {
    subtract: false,
    direct: Some(5),
    far: None,
};

fn at(x: i32, y: i32, z: i32) -> Pos {
    Pos { x, y, z }
}

// A node without links, pending tick and further places.
fn node(alloc: Global, pos: Pos, kind: Kind, state: u8, first: bool) -> Node
    ensures { result.links.items ≡ [] }
{
    Node {
        pos,
        kind,
        state,
        first,
        due: 0,
        priority: 0,
        links: Links {
            items: SmallVec::new(alloc),
        },
        also: Places {
            items: Vec::new(alloc),
        },
    }
}

fn back(from: u32, weight: u8) -> Link {
    Link {
        from: Key::new(from),
        group: Group::Back,
        weight,
    }
}

fn side(from: u32, weight: u8) -> Link {
    Link {
        from: Key::new(from),
        group: Group::Side,
        weight,
    }
}

// A graph of these nodes, numbered from 0.
fn graph_of(alloc: Global, nodes: &[(Pos, Kind, u8, bool)]) -> Result<Graph, NoMemory>
    requires { length nodes.now < 100 }
    ensures { IfOk result (λ graph. length graph.nodes ≡ length nodes.now) }
{
    let mut graph = Graph::new(alloc);
    for (pos, kind, state, first) in nodes {
        graph.add_node(node(alloc, *pos, *kind, *state, *first))?;
    }
    Ok(graph)
}

// Adds the link, if its ends live.
fn add_link(graph: &mut Graph, to: NodeKey, link: Link) -> Result<(), NoMemory> {
    if graph.node(to).is_some() && graph.node(link.from).is_some() {
        graph.add_link(to, link)?;
    }
    Ok(())
}

fn add_links(graph: &mut Graph, links: &[(u32, Link)]) -> Result<(), NoMemory> {
    for (to, link) in links {
        add_link(graph, Key::new(*to), *link)?;
    }
    Ok(())
}

// Drops the link, if it is there.
fn drop_link(graph: &mut Graph, to: NodeKey, index: usize) {
    let Some(node) = graph.node(to) else {
        return;
    };
    if index < node.links.items.len() {
        graph.drop_link(to, index);
    }
}

// Folds the node, if it lives.
fn fold_to(graph: &mut Graph, key: NodeKey, value: u8) {
    if graph.node(key).is_some() && value <= 15 {
        graph.fold_to(key, value);
    }
}

// Merges the nodes, if they live and have no links into them.
fn merge(graph: &mut Graph, keep: NodeKey, gone: NodeKey) -> Result<(), NoMemory> {
    let (Some(first), Some(second)) = (graph.node(keep), graph.node(gone)) else {
        return Ok(());
    };
    if keep != gone && first.links.items.is_empty() && second.links.items.is_empty() {
        graph.merge(keep, gone)?;
    }
    Ok(())
}

// Drops all nodes.
fn clear(graph: &mut Graph) -> Result<(), NoMemory> {
    let keys = graph.keys()?;
    graph.drop_set(&keys);
    Ok(())
}

// The text of the graph is this one.
fn assert_text(rt: &impl Abort, alloc: Global, graph: &Graph, want: &[u8]) -> Result<(), NoMemory> {
    let mut text = Vec::new(alloc);
    graph.push_text(&mut text)?;
    assert_eq!(rt; text.as_slice(), want);
    Ok(())
}

// The graph of these nodes and links has this text.
fn assert_row(
    rt: &impl Abort,
    alloc: Global,
    nodes: &[(Pos, Kind, u8, bool)],
    links: &[(u32, Link)],
    want: &[u8],
) -> Result<(), NoMemory>
    requires { length nodes.now < 100 }
{
    let mut graph = graph_of(alloc, nodes)?;
    add_links(&mut graph, links)?;
    assert_text(rt, alloc, &graph, want)
}

#[test]
fn wire_length(rt: HostRuntime) -> Result<(), Fail> {
    assert_row(
        &rt,
        rt.alloc(),
        &[
            (at(0, 1, 0), Kind::Lever, 0, false),
            (at(15, 1, 0), Kind::Wire, 0, false),
            (at(16, 1, 0), Kind::Wire, 0, false),
        ],
        &[(1, back(0, 14)), (2, back(0, 15))],
        b"graph 3 2\n\
        node 0 lever 0 1 0 0\n\
        node 1 wire 15 1 0 0\n\
        node 2 wire 16 1 0 0\n\
        link 0 1 back 14\n\
        link 0 2 back 15\n",
    )?;
    Ok(())
}

#[test]
fn two_ways_into_one_block(rt: HostRuntime) -> Result<(), Fail> {
    assert_row(
        &rt,
        rt.alloc(),
        &[
            (at(0, 1, 0), Kind::Lever, 0, false),
            (at(5, 1, 0), COMPARATOR, 0, false),
            (at(6, 1, 0), Kind::Lamp, 0, false),
        ],
        &[(1, back(0, 3)), (1, back(0, 2)), (2, back(1, 0))],
        b"graph 3 3\n\
        node 0 lever 0 1 0 0\n\
        node 1 comparator 5 1 0 0 compare\n\
        node 2 lamp 6 1 0 0\n\
        link 0 1 back 3\n\
        link 0 1 back 2\n\
        link 1 2 back 0\n",
    )?;
    Ok(())
}

// The side link of node 3 comes before its back link, and stands behind it.
#[test]
fn back_and_lock(rt: HostRuntime) -> Result<(), Fail> {
    assert_row(
        &rt,
        rt.alloc(),
        &[
            (at(0, 1, 0), Kind::Lever, 0, false),
            (at(2, 1, 1), REPEATER, 0, true),
            (at(1, 1, 2), REPEATER, 0, true),
            (at(2, 1, 2), REPEATER, 0, false),
            (at(3, 1, 2), Kind::Lamp, 0, false),
        ],
        &[
            (1, back(0, 1)),
            (2, back(0, 1)),
            (3, side(1, 0)),
            (3, back(2, 0)),
            (4, back(3, 0)),
        ],
        b"graph 5 5\n\
        node 0 lever 0 1 0 0\n\
        node 1 repeater 2 1 1 0 delay 1 first\n\
        node 2 repeater 1 1 2 0 delay 1 first\n\
        node 3 repeater 2 1 2 0 delay 1\n\
        node 4 lamp 3 1 2 0\n\
        link 0 1 back 1\n\
        link 0 2 back 1\n\
        link 2 3 back 0\n\
        link 1 3 side 0\n\
        link 3 4 back 0\n",
    )?;
    Ok(())
}

#[test]
fn torch_that_feeds_itself(rt: HostRuntime) -> Result<(), Fail> {
    assert_row(
        &rt,
        rt.alloc(),
        &[
            (at(0, 0, 0), Kind::Lamp, 1, false),
            (at(3, 0, 0), Kind::Lamp, 1, false),
            (at(0, 1, 0), Kind::Torch, 1, false),
            (at(3, 1, 0), Kind::Torch, 1, false),
        ],
        &[
            (0, back(2, 0)),
            (1, back(3, 0)),
            (2, back(3, 1)),
            (3, back(3, 0)),
        ],
        b"graph 4 4\n\
        node 0 lamp 0 0 0 1\n\
        node 1 lamp 3 0 0 1\n\
        node 2 torch 0 1 0 1\n\
        node 3 torch 3 1 0 1\n\
        link 2 0 back 0\n\
        link 3 1 back 0\n\
        link 3 2 back 1\n\
        link 3 3 back 0\n",
    )?;
    Ok(())
}

#[test]
fn text_of_each_kind(rt: HostRuntime) -> Result<(), Fail> {
    assert_row(
        &rt,
        rt.alloc(),
        &[
            (at(-1, 0, -20), Kind::Plate, 1, false),
            (at(0, 0, 0), Kind::Weighted, 12, false),
            (at(1, 0, 0), Kind::Trapdoor, 1, false),
            (at(2, 0, 0), Kind::Note, 0, false),
            (at(3, 0, 0), Kind::Constant, 15, false),
            (at(4, 0, 0), SUBTRACTS, 3, true),
            (at(5, 0, 0), READS_A_STRENGTH, 5, false),
        ],
        &[],
        b"graph 7 0\n\
        node 0 plate -1 0 -20 1\n\
        node 1 weighted 0 0 0 12\n\
        node 2 trapdoor 1 0 0 1\n\
        node 3 note 2 0 0 0\n\
        node 4 constant 3 0 0 15\n\
        node 5 comparator 4 0 0 3 subtract far 7 first\n\
        node 6 comparator 5 0 0 5 compare direct 5\n",
    )?;
    Ok(())
}

#[test]
fn text_of_a_pending_tick(rt: HostRuntime) -> Result<(), Fail> {
    let mut graph = Graph::new(rt.alloc());
    let mut button = node(rt.alloc(), at(6, 0, 0), BUTTON, 1, false);
    button.due = 12;
    button.priority = 3;
    graph.add_node(button)?;
    let want = b"graph 1 0\nnode 0 button 6 0 0 1 delay 15 due 12 priority 3\n";
    assert_text(&rt, rt.alloc(), &graph, want)?;
    Ok(())
}

// Two torches and a repeater behind one of them, which go to one lamp.
fn torches(alloc: Global) -> Result<Graph, NoMemory> {
    let mut graph = graph_of(
        alloc,
        &[
            (at(0, 0, 0), Kind::Torch, 1, false),
            (at(1, 0, 0), Kind::Torch, 1, false),
            (at(2, 0, 0), REPEATER, 1, true),
            (at(3, 0, 0), Kind::Lamp, 1, false),
        ],
    )?;
    let links = [
        (2, back(1, 0)),
        (3, back(1, 4)),
        (3, back(0, 2)),
        (3, back(2, 0)),
    ];
    add_links(&mut graph, &links)?;
    Ok(graph)
}

#[test]
fn a_torch_takes_the_part_of_another(rt: HostRuntime) -> Result<(), Fail> {
    let mut graph = torches(rt.alloc())?;
    merge(&mut graph, Key::new(0), Key::new(1))?;
    let want = b"graph 3 4\n\
        node 0 torch 0 0 0 1\n\
        node 2 repeater 2 0 0 1 delay 1 first\n\
        node 3 lamp 3 0 0 1\n\
        link 0 2 back 0\n\
        link 0 3 back 4\n\
        link 0 3 back 2\n\
        link 2 3 back 0\n";
    assert_text(&rt, rt.alloc(), &graph, want)?;
    let torch = graph.node(Key::new(0)).expect(&rt, "the torch lives");
    assert_eq!(rt; torch.also.items.as_slice(), [at(1, 0, 0)].as_slice());
    assert!(rt; graph.node(Key::new(1)).is_none());
    assert!(rt; graph.keys()?.as_slice() == [Key::new(0), Key::new(2), Key::new(3)].as_slice());
    Ok(())
}

#[test]
fn a_repeater_becomes_a_constant(rt: HostRuntime) -> Result<(), Fail> {
    let mut graph = torches(rt.alloc())?;
    fold_to(&mut graph, Key::new(2), 15);
    drop_link(&mut graph, Key::new(3), 1);
    let want = b"graph 4 2\n\
        node 0 torch 0 0 0 1\n\
        node 1 torch 1 0 0 1\n\
        node 2 constant 2 0 0 15 first\n\
        node 3 lamp 3 0 0 1\n\
        link 1 3 back 4\n\
        link 2 3 back 0\n";
    assert_text(&rt, rt.alloc(), &graph, want)?;
    assert_eq!(rt; (graph.node_count(), graph.link_count()), (4, 2));
    Ok(())
}

#[test]
fn nothing_is_left_of_dropped_nodes(rt: HostRuntime) -> Result<(), Fail> {
    let mut graph = torches(rt.alloc())?;
    clear(&mut graph)?;
    assert_text(&rt, rt.alloc(), &graph, b"graph 0 0\n")?;
    Ok(())
}

// Whether a node of the place answers to `Use`, to `Press`, to `Leave` and to `Weigh`.
fn clicks_taken(graph: &Graph, pos: Pos) -> [bool; 4] {
    [
        graph.takes_click(pos, Click::Use),
        graph.takes_click(pos, Click::Press),
        graph.takes_click(pos, Click::Leave),
        graph.takes_click(pos, Click::Weigh { weight: 9 }),
    ]
}

#[test]
fn clicks_and_wires_by_place(rt: HostRuntime) -> Result<(), Fail> {
    let graph = graph_of(
        rt.alloc(),
        &[
            (at(0, 0, 0), Kind::Lever, 0, false),
            (at(1, 0, 0), BUTTON, 0, false),
            (at(2, 0, 0), Kind::Plate, 0, false),
            (at(3, 0, 0), Kind::Weighted, 0, false),
            (at(4, 0, 0), Kind::Wire, 0, false),
            (at(5, 0, 0), Kind::Torch, 0, false),
        ],
    )?;
    for (x, clicks, wire) in [
        (0, [true, false, false, false], false),
        (1, [true, false, false, false], false),
        (2, [false, true, true, false], false),
        (3, [false, false, true, true], false),
        (4, [false, false, false, false], true),
        (5, [false, false, false, false], false),
        (6, [false, false, false, false], false),
    ] {
        assert_eq!(rt; clicks_taken(&graph, at(x, 0, 0)), clicks, "{x}");
        assert_eq!(rt; graph.has_wire(at(x, 0, 0)), wire, "{x}");
    }
    assert!(rt; !graph.takes_click(at(0, 1, 0), Click::Use));
    Ok(())
}
