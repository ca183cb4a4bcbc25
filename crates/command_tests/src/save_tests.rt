//! Builds that are saved at the end of a run.

use crate::row_tests::{TWINS, before_lamp, box_of, put, wait};
use crate::support::{NONE, by, gate_file, is_refused, run, unknown_block_file, writes};
use build::Pos;
use redpile_top::Status;
use schem_write::{write_build, write_build3};
use schematic::read_build;
use std::alloc::Global;
use std::process::Abort;
use std::test::Fail;

const SAVE: &[&str] = &["save", "a", "b"];

const SAVE_LAYOUT_3: &[&str] = &["save", "a", "b", "--v3"];

/// Asserts that these words save this file, in one piece.
fn saves(
    rt: &impl Abort,
    alloc: Global,
    words: &[&str],
    build: &[u8],
    script: &[u8],
    file: &[u8],
) -> Result<(), Fail> {
    let outcome = by(alloc, words, build, script, NONE)?;
    writes(rt, &outcome, file);
    assert_eq!(rt; outcome.written, 1);
    Ok(())
}

/// Asserts that a run of this file writes this text.
fn runs(
    rt: &impl Abort,
    alloc: Global,
    file: &[u8],
    script: &[u8],
    text: &[u8],
) -> Result<(), Fail> {
    writes(rt, &run(alloc, file, script, NONE)?, text);
    Ok(())
}

#[test]
fn save_a_pressed_button(rt: HostRuntime) -> Result<(), Fail> {
    let alloc = rt.alloc();
    let build = before_lamp(&rt, alloc, "stone_button[face=wall,facing=west]")?;
    let pressed = "stone_button[face=wall,facing=west,powered=true]";
    let mut after = before_lamp(&rt, alloc, pressed)?;
    put(&rt, &mut after, &[(2, 0, 0, "redstone_lamp[lit=true]")]);
    wait(&rt, &mut after, Pos { x: 0, y: 0, z: 0 }, 6, 3);
    let file = write_build(alloc, &after)?;
    saves(
        &rt,
        alloc,
        SAVE,
        &write_build(alloc, &build)?,
        b"use 0 0 0\ntick 4",
        &file,
    )?;
    runs(
        &rt,
        alloc,
        &file,
        b"tick 8",
        b"outputs 1\n2 0 0 lamp\n0 start 1\n1 tick 1\n2 tick 1\n3 tick 1\n4 tick 1\n5 tick 1\n6 tick 1\n7 tick 1\n8 tick 0\nnodes 2 links 1 events 2\nend\n",
    )
}

#[test]
fn save_twins_layout_3(rt: HostRuntime) -> Result<(), Fail> {
    let alloc = rt.alloc();
    let build = box_of(&rt, alloc, [3, 3, 1], &TWINS)?;
    let cells = [
        (0, 0, 0, "redstone_lamp[lit=true]"),
        (2, 0, 0, "redstone_lamp[lit=true]"),
        (0, 1, 0, "redstone_wall_torch[facing=west,lit=false]"),
        (1, 1, 0, "stone"),
        (2, 1, 0, "redstone_wall_torch[facing=east,lit=false]"),
        (1, 2, 0, "lever[face=floor,powered=true]"),
    ];
    let mut after = box_of(&rt, alloc, [3, 3, 1], &cells)?;
    wait(&rt, &mut after, Pos { x: 0, y: 0, z: 0 }, 2, 3);
    wait(&rt, &mut after, Pos { x: 2, y: 0, z: 0 }, 2, 3);
    let file = write_build3(alloc, &after)?;
    saves(
        &rt,
        alloc,
        SAVE_LAYOUT_3,
        &write_build(alloc, &build)?,
        b"use 1 2 0\ntick 1",
        &file,
    )?;
    runs(
        &rt,
        alloc,
        &file,
        b"tick 2",
        b"outputs 2\n0 0 0 lamp\n2 0 0 lamp\n0 start 1 1\n1 tick 1 1\n2 tick 0 0\nnodes 4 links 3 events 2\nend\n",
    )
}

#[test]
fn save_of_an_unknown_block(rt: HostRuntime) -> Result<(), Fail> {
    let alloc = rt.alloc();
    let outcome = by(alloc, SAVE, &unknown_block_file(alloc)?, b"tick 1", NONE)?;
    let line = b"redpile: block: minecraft:observer[facing=up]\n";
    assert!(rt; is_refused(&outcome, Status::BadBlock, line));
    Ok(())
}

/// What is saved of the first part differs from the build in one lever and one torch.
#[test]
fn save_and_gate_in_two_parts(rt: HostRuntime) -> Result<(), Fail> {
    let alloc = rt.alloc();
    let build = gate_file(alloc)?;
    let first: &[u8] = b"use 0 0 0\ntick 4";
    runs(
        &rt,
        alloc,
        &build,
        first,
        b"outputs 1\n1 0 3 lamp\n0 start 0\n0 use 0\n1 tick 0\n2 tick 0\n3 tick 0\n4 tick 0\nnodes 6 links 5 events 2\nend\n",
    )?;
    let Ok(read) = read_build(alloc, &build) else {
        panic!(rt; "the file of the gate isn't read");
    };
    let mut after = read;
    let changed = [
        (0, 0, 0, "lever[face=wall,facing=north,powered=true]"),
        (0, 1, 1, "redstone_torch[lit=false]"),
    ];
    put(&rt, &mut after, &changed);
    let file = write_build(alloc, &after)?;
    saves(&rt, alloc, SAVE, &build, first, &file)?;
    runs(
        &rt,
        alloc,
        &file,
        b"use 2 0 0\ntick 4\nuse 0 0 0\ntick 6",
        b"outputs 1\n1 0 3 lamp\n0 start 0\n0 use 0\n1 tick 0\n2 tick 1\n3 tick 1\n4 tick 1\n4 use 1\n5 tick 1\n6 tick 1\n7 tick 1\n8 tick 0\n9 tick 0\n10 tick 0\nnodes 6 links 5 events 7\nend\n",
    )
}
