//! The graphs of small builds, as text. The texts were derived by hand from the rules of nodes, taps,
//! distances and passes.

use crate::small_builds::{assert_raw, at, box_of, floored, store};
use build::Marks;
use compiler::{Keep, compile_build};
use std::test::Fail;

#[test]
fn lever_and_lamp(rt: HostRuntime) -> Result<(), Fail> {
    let blocks = [
        (at(0, 0, 0), "lever[face=wall,facing=west]"),
        (at(1, 0, 0), "stone"),
        (at(2, 0, 0), "redstone_lamp"),
    ];
    let build = box_of(&rt, rt.alloc(), at(3, 1, 1), &blocks)?;
    assert_raw(
        &rt,
        rt.alloc(),
        &build,
        &[],
        b"graph 2 1\n\
        node 0 lever 0 0 0 0\n\
        node 1 lamp 2 0 0 0\n\
        link 0 1 back 0\n",
    )?;
    Ok(())
}

#[test]
fn lever_torch_and_lamp(rt: HostRuntime) -> Result<(), Fail> {
    let blocks = [
        (at(0, 0, 0), "lever[face=wall,facing=west]"),
        (at(1, 0, 0), "stone"),
        (at(2, 0, 0), "redstone_wall_torch[facing=east]"),
        (at(3, 0, 0), "redstone_lamp"),
    ];
    let build = box_of(&rt, rt.alloc(), at(4, 1, 1), &blocks)?;
    assert_raw(
        &rt,
        rt.alloc(),
        &build,
        &[],
        b"graph 3 2\n\
        node 0 lever 0 0 0 0\n\
        node 1 torch 2 0 0 1\n\
        node 2 lamp 3 0 0 0\n\
        link 0 1 back 0\n\
        link 1 2 back 0\n",
    )?;
    Ok(())
}

// A repeater is locked by another one, and reads no wire at its sides.
#[test]
fn back_and_lock(rt: HostRuntime) -> Result<(), Fail> {
    let blocks = [
        (at(0, 1, 0), "lever[face=floor]"),
        (at(1, 1, 0), "redstone_wire"),
        (at(2, 1, 0), "redstone_wire"),
        (at(0, 1, 1), "redstone_wire"),
        (at(0, 1, 2), "redstone_wire"),
        (at(2, 1, 1), "repeater[facing=north]"),
        (at(1, 1, 2), "repeater[facing=west]"),
        (at(2, 1, 2), "repeater[facing=west]"),
        (at(3, 1, 2), "redstone_lamp"),
    ];
    let build = floored(&rt, rt.alloc(), at(4, 2, 3), &blocks)?;
    assert_raw(
        &rt,
        rt.alloc(),
        &build,
        &[],
        b"graph 5 5\n\
        node 0 lever 0 1 0 0\n\
        node 1 repeater 2 1 1 0 delay 1 first\n\
        node 2 repeater 1 1 2 0 delay 1 first\n\
        node 3 repeater 2 1 2 0 delay 1\n\
        node 4 lamp 3 1 2 0\n\
        link 0 1 back 1\n\
        link 0 2 back 1\n\
        link 2 3 back 0\n\
        link 1 3 side 0\n\
        link 3 4 back 0\n",
    )?;
    Ok(())
}

// A torch is read through the solid block above it, by its own wire too.
#[test]
fn torch_that_feeds_itself(rt: HostRuntime) -> Result<(), Fail> {
    let blocks = [
        (at(0, 0, 0), "redstone_lamp[lit=true]"),
        (at(3, 0, 0), "redstone_lamp[lit=true]"),
        (at(0, 1, 0), "redstone_wall_torch[facing=west,lit=true]"),
        (at(1, 1, 0), "stone"),
        (at(2, 1, 0), "stone"),
        (at(3, 1, 0), "redstone_wall_torch[facing=east,lit=true]"),
        (at(1, 2, 0), "redstone_wire"),
        (at(2, 2, 0), "redstone_wire"),
        (at(3, 2, 0), "stone"),
    ];
    let build = box_of(&rt, rt.alloc(), at(4, 3, 1), &blocks)?;
    assert_raw(
        &rt,
        rt.alloc(),
        &build,
        &[],
        b"graph 4 4\n\
        node 0 lamp 0 0 0 1\n\
        node 1 lamp 3 0 0 1\n\
        node 2 torch 0 1 0 1\n\
        node 3 torch 3 1 0 1\n\
        link 2 0 back 0\n\
        link 3 1 back 0\n\
        link 3 2 back 1\n\
        link 3 3 back 0\n",
    )?;
    Ok(())
}

#[test]
fn twins(rt: HostRuntime) -> Result<(), Fail> {
    let blocks = [
        (at(0, 0, 0), "redstone_lamp[lit=true]"),
        (at(2, 0, 0), "redstone_lamp[lit=true]"),
        (at(0, 1, 0), "redstone_wall_torch[facing=west]"),
        (at(1, 1, 0), "stone"),
        (at(2, 1, 0), "redstone_wall_torch[facing=east]"),
        (at(1, 2, 0), "lever[face=floor]"),
    ];
    let build = box_of(&rt, rt.alloc(), at(3, 3, 1), &blocks)?;
    assert_raw(
        &rt,
        rt.alloc(),
        &build,
        &[],
        b"graph 5 4\n\
        node 0 lamp 0 0 0 1\n\
        node 1 lamp 2 0 0 1\n\
        node 2 torch 0 1 0 1\n\
        node 3 torch 2 1 0 1\n\
        node 4 lever 1 2 0 0\n\
        link 2 0 back 0\n\
        link 3 1 back 0\n\
        link 4 2 back 0\n\
        link 4 3 back 0\n",
    )?;
    Ok(())
}

#[test]
fn clock_that_nobody_sees(rt: HostRuntime) -> Result<(), Fail> {
    let blocks = [
        (at(0, 1, 0), "stone"),
        (at(1, 1, 0), "redstone_wall_torch[facing=east]"),
        (at(0, 2, 0), "redstone_wire"),
        (at(1, 2, 0), "stone"),
    ];
    let build = box_of(&rt, rt.alloc(), at(2, 3, 1), &blocks)?;
    assert_raw(
        &rt,
        rt.alloc(),
        &build,
        &[],
        b"graph 1 1\nnode 0 torch 1 1 0 1\nlink 0 0 back 0\n",
    )?;
    Ok(())
}

#[test]
fn containers(rt: HostRuntime) -> Result<(), Fail> {
    let blocks = [
        (at(0, 0, 0), "barrel"),
        (at(1, 0, 0), "comparator[facing=west]"),
        (at(2, 0, 0), "redstone_wire"),
    ];
    let mut build = box_of(&rt, rt.alloc(), at(3, 1, 1), &blocks)?;
    store(&rt, &mut build, at(0, 0, 0), 15)?;
    assert_raw(
        &rt,
        rt.alloc(),
        &build,
        &[at(2, 0, 0)],
        b"graph 2 1\n\
        node 0 comparator 1 0 0 0 compare direct 15\n\
        node 1 wire 2 0 0 0\n\
        link 0 1 back 0\n",
    )?;
    Ok(())
}

#[test]
fn container_behind_stone(rt: HostRuntime) -> Result<(), Fail> {
    let blocks = [
        (at(0, 0, 0), "barrel"),
        (at(1, 0, 0), "stone"),
        (at(2, 0, 0), "comparator[facing=west]"),
        (at(3, 0, 0), "redstone_wire"),
    ];
    let mut build = box_of(&rt, rt.alloc(), at(4, 1, 1), &blocks)?;
    store(&rt, &mut build, at(0, 0, 0), 1)?;
    assert_raw(
        &rt,
        rt.alloc(),
        &build,
        &[at(3, 0, 0)],
        b"graph 2 1\n\
        node 0 comparator 2 0 0 0 compare far 1\n\
        node 1 wire 3 0 0 0\n\
        link 0 1 back 0\n",
    )?;
    Ok(())
}

// Links of one distance stand in the order of places.
#[test]
fn and_gate(rt: HostRuntime) -> Result<(), Fail> {
    let blocks = [
        (at(0, 0, 0), "lever[face=wall,facing=north]"),
        (at(2, 0, 0), "lever[face=wall,facing=north]"),
        (at(0, 0, 1), "white_concrete"),
        (at(1, 0, 1), "white_concrete"),
        (at(2, 0, 1), "white_concrete"),
        (at(1, 0, 2), "redstone_wall_torch[facing=south,lit=false]"),
        (at(1, 0, 3), "redstone_lamp"),
        (at(0, 1, 1), "redstone_torch[lit=true]"),
        (at(2, 1, 1), "redstone_torch[lit=true]"),
        (at(1, 1, 1), "redstone_wire[east=side,west=side,power=15]"),
    ];
    let build = box_of(&rt, rt.alloc(), at(3, 2, 4), &blocks)?;
    assert_raw(
        &rt,
        rt.alloc(),
        &build,
        &[],
        b"graph 6 5\n\
        node 0 lever 0 0 0 0\n\
        node 1 lever 2 0 0 0\n\
        node 2 torch 1 0 2 0\n\
        node 3 lamp 1 0 3 0\n\
        node 4 torch 0 1 1 1\n\
        node 5 torch 2 1 1 1\n\
        link 4 2 back 0\n\
        link 5 2 back 0\n\
        link 2 3 back 0\n\
        link 0 4 back 0\n\
        link 1 5 back 0\n",
    )?;
    Ok(())
}

#[test]
fn stone_button(rt: HostRuntime) -> Result<(), Fail> {
    let blocks = [
        (at(0, 0, 0), "stone_button[face=wall,facing=west]"),
        (at(1, 0, 0), "stone"),
        (at(2, 0, 0), "redstone_lamp"),
    ];
    let build = box_of(&rt, rt.alloc(), at(3, 1, 1), &blocks)?;
    assert_raw(
        &rt,
        rt.alloc(),
        &build,
        &[],
        b"graph 2 1\n\
        node 0 button 0 0 0 0 delay 10\n\
        node 1 lamp 2 0 0 0\n\
        link 0 1 back 0\n",
    )?;
    Ok(())
}

#[test]
fn weighted_plate(rt: HostRuntime) -> Result<(), Fail> {
    let blocks = [
        (at(0, 1, 0), "light_weighted_pressure_plate"),
        (at(1, 1, 0), "redstone_wire"),
        (at(2, 1, 0), "redstone_wire"),
    ];
    let build = floored(&rt, rt.alloc(), at(3, 2, 1), &blocks)?;
    assert_raw(
        &rt,
        rt.alloc(),
        &build,
        &[at(2, 1, 0)],
        b"graph 2 1\n\
        node 0 weighted 0 1 0 0\n\
        node 1 wire 2 1 0 0\n\
        link 0 1 back 1\n",
    )?;
    Ok(())
}

#[test]
fn merged_comparators(rt: HostRuntime) -> Result<(), Fail> {
    let blocks = [
        (at(2, 1, 0), "lever[face=floor]"),
        (at(1, 1, 0), "comparator[facing=east]"),
        (at(3, 1, 0), "comparator[facing=west]"),
        (at(0, 1, 0), "redstone_lamp"),
        (at(4, 1, 0), "redstone_lamp"),
    ];
    let build = floored(&rt, rt.alloc(), at(5, 2, 1), &blocks)?;
    assert_raw(
        &rt,
        rt.alloc(),
        &build,
        &[],
        b"graph 5 4\n\
        node 0 lamp 0 1 0 0\n\
        node 1 comparator 1 1 0 0 compare\n\
        node 2 lever 2 1 0 0\n\
        node 3 comparator 3 1 0 0 compare\n\
        node 4 lamp 4 1 0 0\n\
        link 1 0 back 0\n\
        link 2 1 back 0\n\
        link 2 3 back 0\n\
        link 3 4 back 0\n",
    )?;
    Ok(())
}

// The sides of a comparator take a wire and a block of redstone, in the order of sides.
#[test]
fn comparator_sides(rt: HostRuntime) -> Result<(), Fail> {
    let blocks = [
        (at(0, 1, 1), "lever[face=floor]"),
        (at(1, 1, 1), "comparator[facing=west,mode=subtract]"),
        (at(1, 1, 0), "redstone_block"),
        (at(1, 1, 2), "redstone_wire"),
        (at(0, 1, 2), "redstone_wire"),
        (at(2, 1, 1), "redstone_lamp"),
    ];
    let build = floored(&rt, rt.alloc(), at(3, 2, 3), &blocks)?;
    assert_raw(
        &rt,
        rt.alloc(),
        &build,
        &[],
        b"graph 4 4\n\
        node 0 constant 1 1 0 15\n\
        node 1 lever 0 1 1 0\n\
        node 2 comparator 1 1 1 0 subtract\n\
        node 3 lamp 2 1 1 0\n\
        link 1 2 back 0\n\
        link 0 2 side 0\n\
        link 1 2 side 1\n\
        link 2 3 back 0\n",
    )?;
    Ok(())
}

// Folded first, the repeaters are Constants, which are no twins. Were twins coalesced first, one
// repeater would be left, and the graph would have 3 nodes.
#[test]
fn constants_are_folded_before_twins_coalesce(rt: HostRuntime) -> Result<(), Fail> {
    let blocks = [
        (at(0, 0, 0), "redstone_lamp[lit=true]"),
        (at(1, 0, 0), "repeater[facing=east,powered=true]"),
        (at(2, 0, 0), "redstone_block"),
        (at(3, 0, 0), "repeater[facing=west,powered=true]"),
        (at(4, 0, 0), "redstone_lamp[lit=true]"),
    ];
    let build = box_of(&rt, rt.alloc(), at(5, 1, 1), &blocks)?;
    let marks = Marks::new(rt.alloc());
    let graph = compile_build(rt.alloc(), &build, &marks, Keep::Prune)?;
    let mut text = Vec::new(rt.alloc());
    graph.push_text(&mut text)?;
    let want = b"graph 4 2\n\
        node 0 lamp 0 0 0 1\n\
        node 1 constant 1 0 0 15\n\
        node 3 constant 3 0 0 15\n\
        node 4 lamp 4 0 0 1\n\
        link 1 0 back 0\n\
        link 3 4 back 0\n";
    assert_eq!(rt; text.as_slice(), want.as_slice());
    Ok(())
}
