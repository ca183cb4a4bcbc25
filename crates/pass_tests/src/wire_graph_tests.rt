//! The graphs of small builds with wires, as text, derived by hand as the others.

use crate::small_builds::{assert_raw, at, box_of, floored, put};
use std::test::Fail;

// No more than 15 steps are looked at.
#[test]
fn wire_length(rt: HostRuntime) -> Result<(), Fail> {
    let blocks = [(at(0, 1, 0), "lever[face=floor]")];
    let mut build = floored(&rt, rt.alloc(), at(18, 2, 1), &blocks)?;
    for x in 1..18 {
        put(&rt, &mut build, at(x, 1, 0), "redstone_wire");
    }
    assert_raw(
        &rt,
        rt.alloc(),
        &build,
        &[at(15, 1, 0), at(16, 1, 0), at(17, 1, 0)],
        b"graph 4 2\n\
        node 0 lever 0 1 0 0\n\
        node 1 wire 15 1 0 0\n\
        node 2 wire 16 1 0 0\n\
        node 3 wire 17 1 0 0\n\
        link 0 1 back 14\n\
        link 0 2 back 15\n",
    )?;
    Ok(())
}

// Power goes up over glass and doesn't come down, and the nearer lever comes first.
#[test]
fn power_goes_up_over_glass(rt: HostRuntime) -> Result<(), Fail> {
    let blocks = [
        (at(0, 1, 0), "lever[face=floor]"),
        (at(1, 1, 0), "redstone_wire"),
        (at(2, 1, 0), "glass"),
        (at(3, 1, 0), "stone"),
        (at(2, 2, 0), "redstone_wire"),
        (at(3, 2, 0), "lever[face=floor]"),
    ];
    let build = floored(&rt, rt.alloc(), at(4, 3, 1), &blocks)?;
    assert_raw(
        &rt,
        rt.alloc(),
        &build,
        &[at(1, 1, 0), at(2, 2, 0)],
        b"graph 4 3\n\
        node 0 lever 0 1 0 0\n\
        node 1 wire 1 1 0 0\n\
        node 2 wire 2 2 0 0\n\
        node 3 lever 3 2 0 0\n\
        link 0 1 back 0\n\
        link 3 2 back 0\n\
        link 0 2 back 1\n",
    )?;
    Ok(())
}

// Two taps of one read place bring a link each.
#[test]
fn two_ways_into_one_block(rt: HostRuntime) -> Result<(), Fail> {
    let blocks = [
        (at(0, 1, 0), "lever[face=floor]"),
        (at(1, 1, 0), "redstone_wire"),
        (at(2, 1, 0), "redstone_wire"),
        (at(3, 1, 0), "redstone_wire"),
        (at(4, 1, 0), "stone"),
        (at(5, 1, 0), "comparator[facing=west]"),
        (at(6, 1, 0), "redstone_lamp"),
        (at(4, 2, 0), "redstone_wire"),
    ];
    let build = floored(&rt, rt.alloc(), at(7, 3, 1), &blocks)?;
    assert_raw(
        &rt,
        rt.alloc(),
        &build,
        &[],
        b"graph 3 3\n\
        node 0 lever 0 1 0 0\n\
        node 1 comparator 5 1 0 0 compare\n\
        node 2 lamp 6 1 0 0\n\
        link 0 1 back 3\n\
        link 0 1 back 2\n\
        link 1 2 back 0\n",
    )?;
    Ok(())
}

#[test]
fn wire_square(rt: HostRuntime) -> Result<(), Fail> {
    let blocks = [
        (at(0, 1, 0), "lever[face=floor]"),
        (at(1, 1, 0), "redstone_wire"),
        (at(2, 1, 0), "redstone_wire"),
        (at(1, 1, 1), "redstone_wire"),
        (at(2, 1, 1), "redstone_wire"),
    ];
    let build = floored(&rt, rt.alloc(), at(4, 2, 2), &blocks)?;
    assert_raw(
        &rt,
        rt.alloc(),
        &build,
        &[at(1, 1, 0), at(2, 1, 1)],
        b"graph 3 2\n\
        node 0 lever 0 1 0 0\n\
        node 1 wire 1 1 0 0\n\
        node 2 wire 2 1 1 0\n\
        link 0 1 back 0\n\
        link 0 2 back 2\n",
    )?;
    Ok(())
}

// The links of each tap stand behind those of the taps before it. A mark where no wire stands counts
// for nothing.
#[test]
fn lamp_under_a_wire(rt: HostRuntime) -> Result<(), Fail> {
    let blocks = [
        (at(0, 0, 0), "stone"),
        (at(1, 0, 0), "redstone_lamp"),
        (at(2, 0, 0), "stone"),
        (at(3, 0, 0), "stone"),
        (at(0, 1, 0), "redstone_wire"),
        (at(1, 1, 0), "redstone_wire"),
        (at(2, 1, 0), "redstone_wire"),
        (at(3, 1, 0), "lever[face=floor]"),
    ];
    let build = box_of(&rt, rt.alloc(), at(4, 2, 1), &blocks)?;
    assert_raw(
        &rt,
        rt.alloc(),
        &build,
        &[at(0, 0, 0)],
        b"graph 2 3\n\
        node 0 lamp 1 0 0 0\n\
        node 1 lever 3 1 0 0\n\
        link 1 0 back 1\n\
        link 1 0 back 2\n\
        link 1 0 back 0\n",
    )?;
    Ok(())
}
