//! Links that Unreach drops.

use crate::left::assert_left;
use graph::{Kind, Pos};
use hand_graph::{back, side};
use rp_text::NoMemory;
use std::alloc::Global;
use std::process::Abort;
use std::test::Fail;
use unreach::Unreach;

const SUBTRACTS: Kind = Kind::Comparator {
    subtract: true,
    direct: None,
    far: None,
};

fn at(x: i32) -> Pos {
    Pos { x, y: 0, z: 0 }
}

// The comparator of this state, with a Constant of 5 at its side, and links from it.
fn assert_bound(
    rt: &impl Abort,
    alloc: Global,
    state: u8,
    took: bool,
    want: &[u8],
) -> Result<(), NoMemory> {
    assert_left(
        rt,
        alloc,
        &mut Unreach,
        &[
            (at(0), Kind::Constant, 5, 0),
            (at(1), SUBTRACTS, state, 0),
            (at(2), Kind::Lever, 0, 0),
            (at(3), Kind::Wire, 0, 0),
            (at(4), Kind::Wire, 0, 0),
            (at(5), Kind::Wire, 0, 0),
        ],
        &[
            (1, back(2, 0)),
            (1, side(0, 0)),
            (3, back(1, 9)),
            (4, back(1, 10)),
            (5, back(1, 11)),
        ],
        took,
        want,
    )
}

#[test]
fn bound_of_a_comparator(rt: HostRuntime) -> Result<(), Fail> {
    assert_bound(
        &rt,
        rt.alloc(),
        12,
        false,
        b"graph 6 5\n\
        node 0 constant 0 0 0 5\n\
        node 1 comparator 1 0 0 12 subtract\n\
        node 2 lever 2 0 0 0\n\
        node 3 wire 3 0 0 0\n\
        node 4 wire 4 0 0 0\n\
        node 5 wire 5 0 0 0\n\
        link 2 1 back 0\n\
        link 0 1 side 0\n\
        link 1 3 back 9\n\
        link 1 4 back 10\n\
        link 1 5 back 11\n",
    )?;
    assert_bound(
        &rt,
        rt.alloc(),
        10,
        true,
        b"graph 6 3\n\
        node 0 constant 0 0 0 5\n\
        node 1 comparator 1 0 0 10 subtract\n\
        node 2 lever 2 0 0 0\n\
        node 3 wire 3 0 0 0\n\
        node 4 wire 4 0 0 0\n\
        node 5 wire 5 0 0 0\n\
        link 2 1 back 0\n\
        link 0 1 side 0\n\
        link 1 3 back 9\n",
    )?;
    Ok(())
}

// An empty container's comparator was folded to 0, and gives nothing.
#[test]
fn link_from_a_constant(rt: HostRuntime) -> Result<(), Fail> {
    assert_left(
        &rt,
        rt.alloc(),
        &mut Unreach,
        &[
            (at(1), Kind::Constant, 0, 0),
            (at(2), Kind::Wire, 0, 0),
            (at(3), Kind::Constant, 4, 0),
            (at(4), Kind::Lever, 0, 0),
        ],
        &[(1, back(0, 0)), (1, back(2, 3)), (1, back(3, 14))],
        true,
        b"graph 4 2\n\
        node 0 constant 1 0 0 0\n\
        node 1 wire 2 0 0 0\n\
        node 2 constant 3 0 0 4\n\
        node 3 lever 4 0 0 0\n\
        link 2 1 back 3\n\
        link 3 1 back 14\n",
    )?;
    Ok(())
}
