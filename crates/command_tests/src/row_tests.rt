//! The worked rows that are played, from files of both layouts.

use crate::support::{NONE, by, gate_file, is_refused, run, shows, world, writes};
use block_table::{Block, parse_state};
use build::{Build, Pending, Pos};
use redpile_top::Status;
use schem_write::{write_build, write_build3};
use std::alloc::Global;
use std::process::Abort;
use std::test::Fail;

pub(crate) type Cell = (i32, i32, i32, &'static str);

pub(crate) fn put(rt: &impl Abort, build: &mut Build, cells: &[Cell]) {
    for (x, y, z, state) in cells {
        let pos = Pos {
            x: *x,
            y: *y,
            z: *z,
        };
        let block = parse_state(state.as_bytes()).expect(rt, "a block of the table");
        assert!(rt; build.contains(pos));
        build.set(pos, block);
    }
}

pub(crate) fn box_of(
    rt: &impl Abort,
    alloc: Global,
    size: [u16; 3],
    cells: &[Cell],
) -> Result<Build, Fail> {
    let mut build = Build::new(alloc, size[0], size[1], size[2], 0)?;
    put(rt, &mut build, cells);
    Ok(build)
}

// A box whose lowest layer is stone.
pub(crate) fn floored(
    rt: &impl Abort,
    alloc: Global,
    size: [u16; 3],
    cells: &[Cell],
) -> Result<Build, Fail> {
    let mut build = Build::new(alloc, size[0], size[1], size[2], 0)?;
    for x in 0..size[0] {
        for z in 0..size[2] {
            put(rt, &mut build, &[(i32::from(x), 0, i32::from(z), "stone")]);
        }
    }
    put(rt, &mut build, cells);
    Ok(build)
}

// Asserts that the build shows these views, with these counts, from a file of each layout.
fn plays(
    rt: &impl Abort,
    alloc: Global,
    build: &Build,
    script: &[u8],
    views: &[u8],
    counts: &[u8],
) -> Result<(), Fail> {
    for file in [write_build(alloc, build)?, write_build3(alloc, build)?] {
        shows(rt, alloc, &file, script, views, counts)?;
    }
    Ok(())
}

const LEVER: &str = "lever[face=wall,facing=west]";

// A block of this state before a stone before a lamp.
pub(crate) fn before_lamp(
    rt: &impl Abort,
    alloc: Global,
    state: &'static str,
) -> Result<Build, Fail> {
    let cells = [
        (0, 0, 0, state),
        (1, 0, 0, "stone"),
        (2, 0, 0, "redstone_lamp"),
    ];
    box_of(rt, alloc, [3, 1, 1], &cells)
}

#[test]
fn lever_and_lamp(rt: HostRuntime) -> Result<(), Fail> {
    let build = before_lamp(&rt, rt.alloc(), LEVER)?;
    plays(
        &rt,
        rt.alloc(),
        &build,
        b"use 0 0 0\ntick 1\nuse 0 0 0\ntick 2",
        b"outputs 1\n2 0 0 lamp\n0 start 0\n0 use 1\n1 tick 1\n1 use 1\n2 tick 1\n3 tick 0\n",
        b"nodes 2 links 1 events 3\n",
    )
}

// A lever before 16 wires.
pub(crate) fn long_wire(rt: &impl Abort, alloc: Global) -> Result<Build, Fail> {
    let lever = [(0, 1, 0, "lever[face=floor]")];
    let mut build = floored(rt, alloc, [17, 2, 1], &lever)?;
    for x in 1..17i32 {
        put(rt, &mut build, &[(x, 1, 0, "redstone_wire")]);
    }
    Ok(build)
}

#[test]
fn wire_length(rt: HostRuntime) -> Result<(), Fail> {
    let build = long_wire(&rt, rt.alloc())?;
    plays(
        &rt,
        rt.alloc(),
        &build,
        b"mark 15 1 0\nmark 16 1 0\nuse 0 1 0",
        b"outputs 2\n15 1 0 wire\n16 1 0 wire\n0 start 0 0\n0 use 1 0\n",
        b"nodes 3 links 1 events 1\n",
    )
}

#[test]
fn power_goes_up_over_glass(rt: HostRuntime) -> Result<(), Fail> {
    let cells = [
        (0, 1, 0, "lever[face=floor]"),
        (1, 1, 0, "redstone_wire"),
        (2, 1, 0, "glass"),
        (3, 1, 0, "stone"),
        (2, 2, 0, "redstone_wire"),
        (3, 2, 0, "lever[face=floor]"),
    ];
    let build = floored(&rt, rt.alloc(), [4, 3, 1], &cells)?;
    plays(
        &rt,
        rt.alloc(),
        &build,
        b"mark 1 1 0\nmark 2 2 0\nuse 0 1 0\nuse 0 1 0\nuse 3 2 0",
        b"outputs 2\n1 1 0 wire\n2 2 0 wire\n0 start 0 0\n0 use 15 14\n0 use 0 0\n0 use 0 15\n",
        b"nodes 4 links 3 events 3\n",
    )
}

// A wire that powers a block from two sides.
pub(crate) fn two_ways(rt: &impl Abort, alloc: Global) -> Result<Build, Fail> {
    let cells = [
        (0, 1, 0, "lever[face=floor]"),
        (1, 1, 0, "redstone_wire"),
        (2, 1, 0, "redstone_wire"),
        (3, 1, 0, "redstone_wire"),
        (4, 1, 0, "stone"),
        (5, 1, 0, "comparator[facing=west]"),
        (6, 1, 0, "redstone_lamp"),
        (4, 2, 0, "redstone_wire"),
    ];
    floored(rt, alloc, [7, 3, 1], &cells)
}

#[test]
fn two_ways_into_one_block(rt: HostRuntime) -> Result<(), Fail> {
    let build = two_ways(&rt, rt.alloc())?;
    plays(
        &rt,
        rt.alloc(),
        &build,
        b"use 0 1 0\ntick 1",
        b"outputs 1\n6 1 0 lamp\n0 start 0\n0 use 0\n1 tick 1\n",
        b"nodes 3 links 2 events 2\n",
    )
}

#[test]
fn short_pulse(rt: HostRuntime) -> Result<(), Fail> {
    let cells = [
        (0, 1, 0, "lever[face=floor]"),
        (1, 1, 0, "repeater[delay=4,facing=west]"),
        (2, 1, 0, "redstone_lamp"),
    ];
    let build = floored(&rt, rt.alloc(), [3, 2, 1], &cells)?;
    plays(
        &rt,
        rt.alloc(),
        &build,
        b"use 0 1 0\ntick 1\nuse 0 1 0\ntick 9",
        b"outputs 1\n2 1 0 lamp\n0 start 0\n0 use 0\n1 tick 0\n1 use 0\n2 tick 0\n3 tick 0\n4 tick 1\n5 tick 1\n6 tick 1\n7 tick 1\n8 tick 1\n9 tick 1\n10 tick 0\n",
        b"nodes 3 links 2 events 5\n",
    )
}

// Two repeaters that one wire feeds: one is behind a third repeater, and one locks it.
pub(crate) fn locked(rt: &impl Abort, alloc: Global) -> Result<Build, Fail> {
    let cells = [
        (0, 1, 0, "lever[face=floor]"),
        (1, 1, 0, "redstone_wire"),
        (2, 1, 0, "redstone_wire"),
        (0, 1, 1, "redstone_wire"),
        (0, 1, 2, "redstone_wire"),
        (2, 1, 1, "repeater[facing=north]"),
        (1, 1, 2, "repeater[facing=west]"),
        (2, 1, 2, "repeater[facing=west]"),
        (3, 1, 2, "redstone_lamp"),
    ];
    floored(rt, alloc, [4, 2, 3], &cells)
}

/// The number of events isn't the same in every order, so no counts are compared.
#[test]
fn back_and_lock(rt: HostRuntime) -> Result<(), Fail> {
    let alloc = rt.alloc();
    let build = locked(&rt, alloc)?;
    let text = b"outputs 1\n3 1 2 lamp\n0 start 0\n0 use 0\n1 tick 0\n2 tick 0\n3 tick 0\nend\n";
    for file in [write_build(alloc, &build)?, write_build3(alloc, &build)?] {
        let outcome = world(alloc, &file, b"use 0 1 0\ntick 3", NONE)?;
        writes(&rt, &outcome, text);
    }
    Ok(())
}

pub(crate) const TWINS: [Cell; 6] = [
    (0, 0, 0, "redstone_lamp[lit=true]"),
    (2, 0, 0, "redstone_lamp[lit=true]"),
    (0, 1, 0, "redstone_wall_torch[facing=west]"),
    (1, 1, 0, "stone"),
    (2, 1, 0, "redstone_wall_torch[facing=east]"),
    (1, 2, 0, "lever[face=floor]"),
];

#[test]
fn twins(rt: HostRuntime) -> Result<(), Fail> {
    let build = box_of(&rt, rt.alloc(), [3, 3, 1], &TWINS)?;
    plays(
        &rt,
        rt.alloc(),
        &build,
        b"use 1 2 0\ntick 3",
        b"outputs 2\n0 0 0 lamp\n2 0 0 lamp\n0 start 1 1\n0 use 1 1\n1 tick 1 1\n2 tick 1 1\n3 tick 0 0\n",
        b"nodes 4 links 3 events 4\n",
    )
}

pub(crate) fn wait(rt: &impl Abort, build: &mut Build, pos: Pos, due: u8, priority: u8) {
    let added = build.add_pending(Pending { pos, due, priority });
    assert!(rt; added.is_ok());
}

#[test]
fn twins_with_a_pending_tick(rt: HostRuntime) -> Result<(), Fail> {
    let mut build = box_of(&rt, rt.alloc(), [3, 3, 1], &TWINS)?;
    wait(&rt, &mut build, Pos { x: 2, y: 1, z: 0 }, 5, 3);
    plays(
        &rt,
        rt.alloc(),
        &build,
        b"use 1 2 0\ntick 7",
        b"outputs 2\n0 0 0 lamp\n2 0 0 lamp\n0 start 1 1\n0 use 1 1\n1 tick 1 1\n2 tick 1 1\n3 tick 0 1\n4 tick 0 1\n5 tick 0 1\n6 tick 0 1\n7 tick 0 0\n",
        b"nodes 5 links 4 events 5\n",
    )
}

#[test]
fn pending_tick_of_a_lamp(rt: HostRuntime) -> Result<(), Fail> {
    let mut build = before_lamp(&rt, rt.alloc(), LEVER)?;
    wait(&rt, &mut build, Pos { x: 2, y: 0, z: 0 }, 1, 3);
    plays(
        &rt,
        rt.alloc(),
        &build,
        b"tick 1",
        b"outputs 1\n2 0 0 lamp\n0 start 0\n1 tick 0\n",
        b"nodes 2 links 1 events 1\n",
    )
}

#[test]
fn clock_that_nobody_sees(rt: HostRuntime) -> Result<(), Fail> {
    let alloc = rt.alloc();
    let cells = [
        (0, 1, 0, "stone"),
        (1, 1, 0, "redstone_wall_torch[facing=east]"),
        (0, 2, 0, "redstone_wire"),
        (1, 2, 0, "stone"),
    ];
    let build = box_of(&rt, alloc, [2, 3, 1], &cells)?;
    let views = b"outputs 0\n0 start\n1 tick\n2 tick\n";
    let counts = b"nodes 0 links 0 events 0\n";
    plays(&rt, alloc, &build, b"tick 2", views, counts)?;
    let file = write_build(alloc, &build)?;
    let outcome = by(alloc, &["run", "a", "b", "--keep"], &file, b"tick 2", NONE)?;
    let kept = b"outputs 0\n0 start\n1 tick\n2 tick\nnodes 1 links 1 events 2\nend\n";
    writes(&rt, &outcome, kept);
    Ok(())
}

// A barrel of this strength before a comparator, or before a stone before one.
fn barrel(rt: &impl Abort, alloc: Global, strength: u8, behind_stone: bool) -> Result<Build, Fail> {
    let mut build = if behind_stone {
        let cells = [
            (0, 0, 0, "barrel"),
            (1, 0, 0, "stone"),
            (2, 0, 0, "comparator[facing=west]"),
            (3, 0, 0, "redstone_wire"),
        ];
        box_of(rt, alloc, [4, 1, 1], &cells)?
    } else {
        let cells = [
            (0, 0, 0, "barrel"),
            (1, 0, 0, "comparator[facing=west]"),
            (2, 0, 0, "redstone_wire"),
        ];
        box_of(rt, alloc, [3, 1, 1], &cells)?
    };
    let pos = Pos { x: 0, y: 0, z: 0 };
    if let Block::Container { .. } = build.at(pos) {
        build.set_strength(pos, strength.min(15))?;
    }
    Ok(build)
}

#[test]
fn containers(rt: HostRuntime) -> Result<(), Fail> {
    let alloc = rt.alloc();
    let live = b"nodes 2 links 1 events 1\n";
    let folded = b"nodes 1 links 0 events 0\n";
    let rows: [(u8, &[u8], &[u8], &[u8]); 3] = [
        (
            1,
            b"outputs 1\n2 0 0 wire\n0 start 0\n1 tick 1\n",
            b"outputs 1\n3 0 0 wire\n0 start 0\n1 tick 1\n",
            live,
        ),
        (
            15,
            b"outputs 1\n2 0 0 wire\n0 start 0\n1 tick 15\n",
            b"outputs 1\n3 0 0 wire\n0 start 0\n1 tick 15\n",
            live,
        ),
        (
            0,
            b"outputs 1\n2 0 0 wire\n0 start 0\n1 tick 0\n",
            b"outputs 1\n3 0 0 wire\n0 start 0\n1 tick 0\n",
            folded,
        ),
    ];
    for (strength, near, far, counts) in rows {
        let build = barrel(&rt, alloc, strength, false)?;
        plays(&rt, alloc, &build, b"mark 2 0 0\ntick 1", near, counts)?;
        let build = barrel(&rt, alloc, strength, true)?;
        plays(&rt, alloc, &build, b"mark 3 0 0\ntick 1", far, counts)?;
    }
    Ok(())
}

/// From the file of a selection tool too.
#[test]
fn and_gate_from_a_user(rt: HostRuntime) -> Result<(), Fail> {
    let cells = [
        (0, 0, 0, "lever[face=wall,facing=north]"),
        (2, 0, 0, "lever[face=wall,facing=north]"),
        (0, 0, 1, "white_concrete"),
        (1, 0, 1, "white_concrete"),
        (2, 0, 1, "white_concrete"),
        (1, 0, 2, "redstone_wall_torch[facing=south,lit=false]"),
        (1, 0, 3, "redstone_lamp"),
        (0, 1, 1, "redstone_torch[lit=true]"),
        (2, 1, 1, "redstone_torch[lit=true]"),
        (1, 1, 1, "redstone_wire[east=side,west=side,power=15]"),
    ];
    let alloc = rt.alloc();
    let build = box_of(&rt, alloc, [3, 2, 4], &cells)?;
    let script = b"use 0 0 0\ntick 4\nuse 2 0 0\ntick 4\nuse 0 0 0\ntick 6";
    let views =
        b"outputs 1\n1 0 3 lamp\n0 start 0\n0 use 0\n1 tick 0\n2 tick 0\n3 tick 0\n4 tick 0\n4 use 0\n5 tick 0\n6 tick 1\n7 tick 1\n8 tick 1\n8 use 1\n9 tick 1\n10 tick 1\n11 tick 1\n12 tick 0\n13 tick 0\n14 tick 0\n";
    let counts = b"nodes 6 links 5 events 9\n";
    shows(&rt, alloc, &gate_file(alloc)?, script, views, counts)?;
    plays(&rt, alloc, &build, script, views, counts)
}

#[test]
fn stone_button(rt: HostRuntime) -> Result<(), Fail> {
    let build = before_lamp(&rt, rt.alloc(), "stone_button[face=wall,facing=west]")?;
    plays(
        &rt,
        rt.alloc(),
        &build,
        b"use 0 0 0\nuse 0 0 0\ntick 12",
        b"outputs 1\n2 0 0 lamp\n0 start 0\n0 use 1\n0 use 1\n1 tick 1\n2 tick 1\n3 tick 1\n4 tick 1\n5 tick 1\n6 tick 1\n7 tick 1\n8 tick 1\n9 tick 1\n10 tick 1\n11 tick 1\n12 tick 0\n",
        b"nodes 2 links 1 events 4\n",
    )
}

#[test]
fn wooden_button(rt: HostRuntime) -> Result<(), Fail> {
    let build = before_lamp(&rt, rt.alloc(), "oak_button[face=wall,facing=west]")?;
    plays(
        &rt,
        rt.alloc(),
        &build,
        b"use 0 0 0\ntick 17",
        b"outputs 1\n2 0 0 lamp\n0 start 0\n0 use 1\n1 tick 1\n2 tick 1\n3 tick 1\n4 tick 1\n5 tick 1\n6 tick 1\n7 tick 1\n8 tick 1\n9 tick 1\n10 tick 1\n11 tick 1\n12 tick 1\n13 tick 1\n14 tick 1\n15 tick 1\n16 tick 1\n17 tick 0\n",
        b"nodes 2 links 1 events 3\n",
    )
}

#[test]
fn weighted_plate(rt: HostRuntime) -> Result<(), Fail> {
    let cells = [
        (0, 1, 0, "light_weighted_pressure_plate"),
        (1, 1, 0, "redstone_wire"),
        (2, 1, 0, "redstone_wire"),
    ];
    let build = floored(&rt, rt.alloc(), [3, 2, 1], &cells)?;
    plays(
        &rt,
        rt.alloc(),
        &build,
        b"mark 2 1 0\npress 0 1 0 7\nleave 0 1 0",
        b"outputs 1\n2 1 0 wire\n0 start 0\n0 press 6\n0 leave 0\n",
        b"nodes 2 links 1 events 2\n",
    )?;
    let file = write_build(rt.alloc(), &build)?;
    for (script, line) in [
        (
            b"press 0 1 0".as_slice(),
            b"redpile: script: line 1 not clickable\n".as_slice(),
        ),
        (
            b"press 0 1 0 16".as_slice(),
            b"redpile: script: line 1 number\n".as_slice(),
        ),
    ] {
        let outcome = run(rt.alloc(), &file, script, NONE)?;
        assert!(rt; is_refused(&outcome, Status::BadScript, line));
    }
    Ok(())
}

#[test]
fn note_block_as_output(rt: HostRuntime) -> Result<(), Fail> {
    let cells = [
        (0, 0, 0, "lever[face=wall,facing=west]"),
        (1, 0, 0, "stone"),
        (2, 0, 0, "note_block"),
    ];
    let build = box_of(&rt, rt.alloc(), [3, 1, 1], &cells)?;
    plays(
        &rt,
        rt.alloc(),
        &build,
        b"use 0 0 0\ntick 1\nuse 0 0 0",
        b"outputs 1\n2 0 0 note\n0 start 0\n0 use 1\n1 tick 1\n1 use 0\n",
        b"nodes 2 links 1 events 2\n",
    )
}

#[test]
fn wire_square(rt: HostRuntime) -> Result<(), Fail> {
    let cells = [
        (0, 1, 0, "lever[face=floor]"),
        (1, 1, 0, "redstone_wire"),
        (2, 1, 0, "redstone_wire"),
        (1, 1, 1, "redstone_wire"),
        (2, 1, 1, "redstone_wire"),
    ];
    let build = floored(&rt, rt.alloc(), [4, 2, 2], &cells)?;
    plays(
        &rt,
        rt.alloc(),
        &build,
        b"mark 1 1 0\nmark 2 1 1\nuse 0 1 0\nuse 0 1 0",
        b"outputs 2\n1 1 0 wire\n2 1 1 wire\n0 start 0 0\n0 use 15 13\n0 use 0 0\n",
        b"nodes 3 links 2 events 2\n",
    )
}
