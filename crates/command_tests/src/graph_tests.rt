//! The worked rows that compile, and those that play a raw graph.

ghost use Rattle.std.specs.Prelude.{◌≡◌, ◌<◌};

use crate::row_tests::{Cell, box_of, floored, locked, long_wire, two_ways};
use crate::support::{NONE, compile, shows, writes};
use block_table::Block;
use build::{Build, Pos, outputs};
use player::Steps;
use redpile_top::{play, raw_graph};
use rp_io::{Calls, MemSink};
use schem_write::{write_build, write_build3};
use script::read_script;
use std::alloc::Global;
use std::marker::Brand;
use std::process::Abort;
use std::sync::ledger::{Blank, Ledger};
use std::test::Fail;

// Asserts that the build compiles to this graph, from a file of each layout.
fn compiles(rt: &impl Abort, alloc: Global, build: &Build, text: &[u8]) -> Result<(), Fail> {
    for file in [write_build(alloc, build)?, write_build3(alloc, build)?] {
        writes(rt, &compile(alloc, &file, b"", NONE)?, text);
    }
    Ok(())
}

/// The first two repeaters aren't merged, since their links into the third are in two groups.
#[test]
fn back_and_lock(rt: HostRuntime) -> Result<(), Fail> {
    compiles(
        &rt,
        rt.alloc(),
        &locked(&rt, rt.alloc())?,
        b"graph 5 5\nnode 0 lever 0 1 0 0\nnode 1 repeater 2 1 1 0 delay 1 first\nnode 2 repeater 1 1 2 0 delay 1 first\nnode 3 repeater 2 1 2 0 delay 1\nnode 4 lamp 3 1 2 0\nlink 0 1 back 1\nlink 0 2 back 1\nlink 2 3 back 0\nlink 1 3 side 0\nlink 3 4 back 0\nend\n",
    )
}

/// The torches aren't merged, since their source is one of them.
#[test]
fn torch_that_feeds_itself(rt: HostRuntime) -> Result<(), Fail> {
    let cells = [
        (0, 0, 0, "redstone_lamp[lit=true]"),
        (3, 0, 0, "redstone_lamp[lit=true]"),
        (0, 1, 0, "redstone_wall_torch[facing=west,lit=true]"),
        (1, 1, 0, "stone"),
        (2, 1, 0, "stone"),
        (3, 1, 0, "redstone_wall_torch[facing=east,lit=true]"),
        (1, 2, 0, "redstone_wire"),
        (2, 2, 0, "redstone_wire"),
        (3, 2, 0, "stone"),
    ];
    compiles(
        &rt,
        rt.alloc(),
        &box_of(&rt, rt.alloc(), [4, 3, 1], &cells)?,
        b"graph 4 4\nnode 0 lamp 0 0 0 1\nnode 1 lamp 3 0 0 1\nnode 2 torch 0 1 0 1\nnode 3 torch 3 1 0 1\nlink 2 0 back 0\nlink 3 1 back 0\nlink 3 2 back 1\nlink 3 3 back 0\nend\n",
    )
}

#[test]
fn merged_comparators(rt: HostRuntime) -> Result<(), Fail> {
    let alloc = rt.alloc();
    let cells = [
        (2, 1, 0, "lever[face=floor]"),
        (1, 1, 0, "comparator[facing=east]"),
        (3, 1, 0, "comparator[facing=west]"),
        (0, 1, 0, "redstone_lamp"),
        (4, 1, 0, "redstone_lamp"),
    ];
    let build = floored(&rt, alloc, [5, 2, 1], &cells)?;
    compiles(
        &rt,
        alloc,
        &build,
        b"graph 4 3\nnode 0 lamp 0 1 0 0\nnode 1 comparator 1 1 0 0 compare\nnode 2 lever 2 1 0 0\nnode 4 lamp 4 1 0 0\nlink 1 0 back 0\nlink 2 1 back 0\nlink 1 4 back 0\nend\n",
    )?;
    shows(
        &rt,
        alloc,
        &write_build(alloc, &build)?,
        b"use 2 1 0\ntick 1",
        b"outputs 2\n0 1 0 lamp\n4 1 0 lamp\n0 start 0 0\n0 use 0 0\n1 tick 1 1\n",
        b"nodes 4 links 3 events 2\n",
    )
}

// A composter of strength 5 before a comparator with this output before a lamp.
fn composter(
    rt: &impl Abort,
    alloc: Global,
    output: u8,
    lamp: &'static str,
) -> Result<Build, Fail> {
    let cells: [Cell; 3] = [
        (0, 0, 0, "composter[level=5]"),
        (1, 0, 0, "comparator[facing=west]"),
        (2, 0, 0, lamp),
    ];
    let mut build = box_of(rt, alloc, [3, 1, 1], &cells)?;
    let pos = Pos { x: 1, y: 0, z: 0 };
    if let Block::Comparator { .. } = build.at(pos) {
        build.set_output(pos, output.min(15))?;
    }
    Ok(build)
}

#[test]
fn fold_a_comparator_at_its_goal(rt: HostRuntime) -> Result<(), Fail> {
    compiles(
        &rt,
        rt.alloc(),
        &composter(&rt, rt.alloc(), 5, "redstone_lamp[lit=true]")?,
        b"graph 2 1\nnode 0 constant 1 0 0 5\nnode 1 lamp 2 0 0 1\nlink 0 1 back 0\nend\n",
    )
}

#[test]
fn comparator_off_its_goal_stays(rt: HostRuntime) -> Result<(), Fail> {
    let alloc = rt.alloc();
    let build = composter(&rt, alloc, 0, "redstone_lamp")?;
    compiles(
        &rt,
        alloc,
        &build,
        b"graph 2 1\nnode 0 comparator 1 0 0 0 compare direct 5\nnode 1 lamp 2 0 0 0\nlink 0 1 back 0\nend\n",
    )?;
    shows(
        &rt,
        alloc,
        &write_build(alloc, &build)?,
        b"tick 1",
        b"outputs 1\n2 0 0 lamp\n0 start 0\n1 tick 1\n",
        b"nodes 2 links 1 events 1\n",
    )
}

// As `shows_raw`, with a counter of its own.
fn plays_raw<L: Ledger>(
    rt: &impl Abort,
    alloc: Global,
    build: &Build,
    script: &[u8],
    graph_text: &[u8],
    text: &[u8],
    blank: Blank,
) -> Result<(), Fail>
    requires name { blank.name ≡ L.name }
    requires parts { blank.parts ≡ L.parts }
    requires some { 0 < L.parts }
{
    let _ = build.cells();
    assert!(rt; script.len() <= 1_048_576);
    let script = read_script(alloc, script, build)?;
    let graph = raw_graph(alloc, build, script.marks())?;
    let mut shown = Vec::new(alloc);
    graph.push_text(&mut shown)?;
    assert_eq!(rt; shown.as_slice(), graph_text);
    let places = outputs(alloc, build, script.marks())?;
    let failing = Calls {
        items: Vec::new(alloc),
    };
    let mut out = MemSink::new(alloc, 4096, 4096, failing)?;
    let mut steps: Steps<L> = Steps::new(blank);
    play(alloc, &graph, &places, &script, &mut out, &mut steps)?;
    assert_eq!(rt; out.bytes.items.as_slice(), text);
    Ok(())
}

/// Asserts that the raw graph has this text, and that its run by a script writes another.
fn shows_raw(
    rt: &impl Abort,
    alloc: Global,
    build: &Build,
    script: &[u8],
    graph_text: &[u8],
    text: &[u8],
) -> Result<(), Fail> {
    plays_raw::<Brand>(rt, alloc, build, script, graph_text, text, Blank::new(1))
}

#[test]
fn raw_graph_of_wire_length(rt: HostRuntime) -> Result<(), Fail> {
    shows_raw(
        &rt,
        rt.alloc(),
        &long_wire(&rt, rt.alloc())?,
        b"mark 15 1 0\nmark 16 1 0\nuse 0 1 0",
        b"graph 3 2\nnode 0 lever 0 1 0 0\nnode 1 wire 15 1 0 0\nnode 2 wire 16 1 0 0\nlink 0 1 back 14\nlink 0 2 back 15\n",
        b"outputs 2\n15 1 0 wire\n16 1 0 wire\n0 start 0 0\n0 use 1 0\nnodes 3 links 2 events 1\nend\n",
    )
}

#[test]
fn raw_graph_of_two_ways(rt: HostRuntime) -> Result<(), Fail> {
    shows_raw(
        &rt,
        rt.alloc(),
        &two_ways(&rt, rt.alloc())?,
        b"use 0 1 0\ntick 1",
        b"graph 3 3\nnode 0 lever 0 1 0 0\nnode 1 comparator 5 1 0 0 compare\nnode 2 lamp 6 1 0 0\nlink 0 1 back 3\nlink 0 1 back 2\nlink 1 2 back 0\n",
        b"outputs 1\n6 1 0 lamp\n0 start 0\n0 use 0\n1 tick 1\nnodes 3 links 3 events 2\nend\n",
    )
}
