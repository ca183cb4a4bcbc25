//! Nodes that are folded.

use crate::left::assert_left;
use constant_fold::Fold;
use graph::{Kind, Pos};
use hand_graph::back;
use std::test::Fail;

// A comparator that reads the strength of a block.
fn reads(strength: u8) -> Kind {
    Kind::Comparator {
        subtract: false,
        direct: Some(strength),
        far: None,
    }
}

fn at(x: i32) -> Pos {
    Pos { x, y: 0, z: 0 }
}

#[test]
fn fold_a_comparator_at_its_goal(rt: HostRuntime) -> Result<(), Fail> {
    assert_left(
        &rt,
        rt.alloc(),
        &mut Fold,
        &[(at(1), reads(5), 5, 0), (at(2), Kind::Lamp, 1, 0)],
        &[(1, back(0, 0))],
        true,
        b"graph 2 1\n\
        node 0 constant 1 0 0 5\n\
        node 1 lamp 2 0 0 1\n\
        link 0 1 back 0\n",
    )?;
    Ok(())
}

#[test]
fn comparator_off_its_goal_stays(rt: HostRuntime) -> Result<(), Fail> {
    assert_left(
        &rt,
        rt.alloc(),
        &mut Fold,
        &[(at(1), reads(5), 0, 0), (at(2), Kind::Lamp, 0, 0)],
        &[(1, back(0, 0))],
        false,
        b"graph 2 1\n\
        node 0 comparator 1 0 0 0 compare direct 5\n\
        node 1 lamp 2 0 0 0\n\
        link 0 1 back 0\n",
    )?;
    Ok(())
}

// The comparator behind an empty container.
#[test]
fn containers(rt: HostRuntime) -> Result<(), Fail> {
    assert_left(
        &rt,
        rt.alloc(),
        &mut Fold,
        &[(at(1), reads(0), 0, 0), (at(2), Kind::Wire, 0, 0)],
        &[(1, back(0, 0))],
        true,
        b"graph 2 1\n\
        node 0 constant 1 0 0 0\n\
        node 1 wire 2 0 0 0\n\
        link 0 1 back 0\n",
    )?;
    Ok(())
}

// A repeater behind a torch behind a Constant: the torch comes first, though its number is higher.
#[test]
fn one_fold_wakes_another(rt: HostRuntime) -> Result<(), Fail> {
    assert_left(
        &rt,
        rt.alloc(),
        &mut Fold,
        &[
            (at(0), Kind::Repeater { delay: 1 }, 0, 0),
            (at(1), Kind::Torch, 0, 0),
            (at(2), Kind::Constant, 15, 0),
            (at(3), Kind::Torch, 1, 0),
        ],
        &[
            (0, back(2, 15)),
            (0, back(1, 0)),
            (1, back(2, 1)),
            (3, back(3, 0)),
        ],
        true,
        b"graph 4 1\n\
        node 0 constant 0 0 0 0\n\
        node 1 constant 1 0 0 0\n\
        node 2 constant 2 0 0 15\n\
        node 3 torch 3 0 0 1\n\
        link 3 3 back 0\n",
    )?;
    Ok(())
}

// Each is at its goal, and one of them has a pending tick.
#[test]
fn pending_tick_keeps_a_torch(rt: HostRuntime) -> Result<(), Fail> {
    assert_left(
        &rt,
        rt.alloc(),
        &mut Fold,
        &[(at(0), Kind::Torch, 1, 1), (at(1), Kind::Torch, 1, 0)],
        &[],
        true,
        b"graph 2 0\n\
        node 0 torch 0 0 0 1 due 1 priority 3\n\
        node 1 constant 1 0 0 15\n",
    )?;
    Ok(())
}
