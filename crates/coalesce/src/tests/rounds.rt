//! Twins that come in a later round, or never.

use super::{REPEATER, add_link, assert_left, graph_of, node, nodes_of, row};
use crate::sweep::take_all;
use graph::{Graph, Group, Kind};
use rp_text::NoMemory;
use std::alloc::Global;
use std::test::Fail;

// Two equal rows, one node behind another, with numbers that rise or fall along the rows.
fn rows_of_repeaters(
    alloc: Global,
    row_links: &[(u32, u32, Group, u8)],
) -> Result<Graph, NoMemory> {
    graph_of(
        alloc,
        &[
            row((0, 0, 0), Kind::Lever, 0),
            row((1, 0, 0), REPEATER, 0),
            row((2, 0, 0), REPEATER, 0),
            row((3, 0, 0), REPEATER, 0),
            row((4, 0, 0), REPEATER, 0),
            row((5, 0, 0), REPEATER, 0),
            row((6, 0, 0), REPEATER, 0),
            row((7, 0, 0), Kind::Lamp, 0),
            row((8, 0, 0), Kind::Lamp, 0),
        ],
        row_links,
    )
}

#[test]
fn rows_that_rise(rt: HostRuntime) -> Result<(), Fail> {
    let mut graph = rows_of_repeaters(
        rt.alloc(),
        &[
            (0, 1, Group::Back, 0),
            (0, 2, Group::Back, 0),
            (1, 3, Group::Back, 0),
            (2, 4, Group::Back, 0),
            (3, 5, Group::Back, 0),
            (4, 6, Group::Back, 0),
            (5, 7, Group::Back, 0),
            (6, 8, Group::Back, 0),
        ],
    )?;
    let want = b"graph 6 5\n\
        node 0 lever 0 0 0 0\n\
        node 1 repeater 1 0 0 0 delay 1\n\
        node 3 repeater 3 0 0 0 delay 1\n\
        node 5 repeater 5 0 0 0 delay 1\n\
        node 7 lamp 7 0 0 0\n\
        node 8 lamp 8 0 0 0\n\
        link 0 1 back 0\n\
        link 1 3 back 0\n\
        link 3 5 back 0\n\
        link 5 7 back 0\n\
        link 5 8 back 0\n";
    assert_left(&rt, rt.alloc(), &mut graph, true, want)?;
    Ok(())
}

#[test]
fn rows_that_fall(rt: HostRuntime) -> Result<(), Fail> {
    let mut graph = rows_of_repeaters(
        rt.alloc(),
        &[
            (3, 1, Group::Back, 0),
            (4, 2, Group::Back, 0),
            (5, 3, Group::Back, 0),
            (6, 4, Group::Back, 0),
            (0, 5, Group::Back, 0),
            (0, 6, Group::Back, 0),
            (1, 7, Group::Back, 0),
            (2, 8, Group::Back, 0),
        ],
    )?;
    let want = b"graph 6 5\n\
        node 0 lever 0 0 0 0\n\
        node 1 repeater 1 0 0 0 delay 1\n\
        node 3 repeater 3 0 0 0 delay 1\n\
        node 5 repeater 5 0 0 0 delay 1\n\
        node 7 lamp 7 0 0 0\n\
        node 8 lamp 8 0 0 0\n\
        link 3 1 back 0\n\
        link 5 3 back 0\n\
        link 0 5 back 0\n\
        link 1 7 back 0\n\
        link 1 8 back 0\n";
    assert_left(&rt, rt.alloc(), &mut graph, true, want)?;
    Ok(())
}

// The torches 2 and 3 are twins at once, 1 and 2 only once 4 has taken 5. By then 2 has taken 3,
// and the repeater reads 1 at its back and 2 at its side. So 1 and 2 stay apart.
#[test]
fn twins_of_a_later_round_come_later(rt: HostRuntime) -> Result<(), Fail> {
    let mut graph = graph_of(
        rt.alloc(),
        &[
            row((0, 0, 0), REPEATER, 0),
            row((1, 0, 0), Kind::Torch, 0),
            row((2, 0, 0), Kind::Torch, 0),
            row((3, 0, 0), Kind::Torch, 0),
            row((4, 0, 0), Kind::Torch, 1),
            row((5, 0, 0), Kind::Torch, 1),
            row((6, 0, 0), Kind::Lever, 0),
        ],
        &[
            (1, 0, Group::Back, 0),
            (3, 0, Group::Side, 0),
            (4, 1, Group::Back, 0),
            (5, 2, Group::Back, 0),
            (5, 3, Group::Back, 0),
            (6, 4, Group::Back, 0),
            (6, 5, Group::Back, 0),
        ],
    )?;
    let want = b"graph 5 5\n\
        node 0 repeater 0 0 0 0 delay 1\n\
        node 1 torch 1 0 0 0\n\
        node 2 torch 2 0 0 0\n\
        node 4 torch 4 0 0 1\n\
        node 6 lever 6 0 0 0\n\
        link 1 0 back 0\n\
        link 2 0 side 0\n\
        link 4 1 back 0\n\
        link 4 2 back 0\n\
        link 6 4 back 0\n";
    assert_left(&rt, rt.alloc(), &mut graph, true, want)?;
    Ok(())
}

// Lamps are no twins, however many read one lever.
#[test]
fn many_lamps_stay(rt: HostRuntime) -> Result<(), Fail> {
    let lamp = row((0, 0, 0), Kind::Lamp, 0);
    let mut graph = nodes_of(rt.alloc(), &[lamp; 200])?;
    let lever = graph.add_node(node(rt.alloc(), row((1, 0, 0), Kind::Lever, 0)))?;
    for number in 0..200 {
        add_link(&mut graph, lever.number(), number, Group::Back, 0)?;
    }
    assert!(rt; !take_all(&mut graph)?);
    assert_eq!(rt; (graph.node_count(), graph.link_count()), (201, 200));
    Ok(())
}
