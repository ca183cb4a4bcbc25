//! Builds that are written and read.

use block_table::{Block, parse_state};
use build::{Build, Pending, Pos};
use rp_text::NoMemory;
use schem_write::{
    varints_are_shortest, write_build, write_build3, written_is_read, written3_is_read,
};
use schematic::read_build;
use std::alloc::Global;
use std::process::Abort;
use std::test::Fail;

fn pos(x: i32, y: i32, z: i32) -> Pos {
    Pos { x, y, z }
}

fn put(rt: &impl Abort, build: &mut Build, pos: Pos, state: &str) {
    let block = parse_state(state.as_bytes()).expect(rt, "a block of the table");
    assert!(rt; build.contains(pos));
    build.set(pos, block);
}

fn store(rt: &impl Abort, build: &mut Build, pos: Pos, level: u8) -> Result<(), NoMemory> {
    assert!(rt; level <= 15);
    match build.at(pos) {
        Block::Comparator { .. } => build.set_output(pos, level),
        Block::Container { .. } => build.set_strength(pos, level),
        _ => panic!(rt; "no level at {pos:?}"),
    }
}

fn assert_same(rt: &impl Abort, read: Build, build: &Build) {
    assert_eq!(rt;
        (read.width(), read.height(), read.length()),
        (build.width(), build.height(), build.length())
    );
    assert_eq!(rt; read.data_version(), build.data_version());
    for cell in 0..build.cells() {
        let pos = build.place(cell);
        assert_eq!(rt; read.at(pos), build.at(pos), "at {pos:?}");
        assert_eq!(rt; read.output(pos), build.output(pos), "at {pos:?}");
        assert_eq!(rt; read.strength(pos), build.strength(pos), "at {pos:?}");
    }
    assert!(rt; read.pending() == build.pending());
}

fn read(rt: &impl Abort, alloc: Global, bytes: &[u8]) -> Build {
    match read_build(alloc, bytes) {
        Ok(build) => build,
        Err(_) => panic!(rt; "a file that was written isn't read"),
    }
}

/// Writes a build in both layouts and reads it again.
fn assert_comes_back(rt: &impl Abort, alloc: Global, build: &Build) -> Result<(), NoMemory> {
    assert_same(rt, read(rt, alloc, &write_build(alloc, build)?), build);
    assert_same(rt, read(rt, alloc, &write_build3(alloc, build)?), build);
    Ok(())
}

const ONE_STONE: &[u8] = b"\x0a\x00\x09Schematic\
    \x03\x00\x07Version\x00\x00\x00\x02\
    \x03\x00\x0bDataVersion\x00\x00\x0a\x1a\
    \x02\x00\x05Width\x00\x01\
    \x02\x00\x06Height\x00\x01\
    \x02\x00\x06Length\x00\x01\
    \x0a\x00\x07Palette\x03\x00\x0fminecraft:stone\x00\x00\x00\x00\x00\
    \x07\x00\x09BlockData\x00\x00\x00\x01\x00\
    \x09\x00\x0dBlockEntities\x0a\x00\x00\x00\x00\
    \x00";

const ONE_STONE_3: &[u8] = b"\x0a\x00\x00\
    \x0a\x00\x09Schematic\
    \x03\x00\x07Version\x00\x00\x00\x03\
    \x03\x00\x0bDataVersion\x00\x00\x0a\x1a\
    \x02\x00\x05Width\x00\x01\
    \x02\x00\x06Height\x00\x01\
    \x02\x00\x06Length\x00\x01\
    \x0a\x00\x06Blocks\
    \x0a\x00\x07Palette\x03\x00\x0fminecraft:stone\x00\x00\x00\x00\x00\
    \x07\x00\x04Data\x00\x00\x00\x01\x00\
    \x09\x00\x0dBlockEntities\x0a\x00\x00\x00\x00\
    \x00\
    \x00\
    \x00";

#[test]
fn one_stone(rt: HostRuntime) -> Result<(), Fail> {
    let mut build = Build::new(rt.alloc(), 1, 1, 1, 2586)?;
    put(&rt, &mut build, pos(0, 0, 0), "stone");
    assert!(rt; write_build(rt.alloc(), &build)?.as_slice() == ONE_STONE);
    assert!(rt; write_build3(rt.alloc(), &build)?.as_slice() == ONE_STONE_3);
    Ok(())
}

#[test]
fn pending_ticks_in_a_file(rt: HostRuntime) -> Result<(), Fail> {
    let mut build = Build::new(rt.alloc(), 3, 1, 1, 0)?;
    put(
        &rt,
        &mut build,
        pos(0, 0, 0),
        "lever[face=wall,facing=west]",
    );
    put(&rt, &mut build, pos(1, 0, 0), "stone");
    put(&rt, &mut build, pos(2, 0, 0), "redstone_lamp");
    let tick = Pending {
        pos: pos(2, 0, 0),
        due: 1,
        priority: 3,
    };
    assert!(rt; build.add_pending(tick).is_ok());
    assert_comes_back(&rt, rt.alloc(), &build)?;
    Ok(())
}

#[test]
fn containers(rt: HostRuntime) -> Result<(), Fail> {
    for name in ["barrel", "dispenser", "smoker", "hopper"] {
        for strength in 0..16 {
            let mut build = Build::new(rt.alloc(), 3, 1, 1, 0)?;
            put(&rt, &mut build, pos(0, 0, 0), name);
            put(&rt, &mut build, pos(1, 0, 0), "comparator[facing=west]");
            put(&rt, &mut build, pos(2, 0, 0), "redstone_wire");
            store(&rt, &mut build, pos(0, 0, 0), strength)?;
            store(&rt, &mut build, pos(1, 0, 0), 15 - strength)?;
            assert_comes_back(&rt, rt.alloc(), &build)?;
        }
    }
    Ok(())
}

#[test]
fn laws(rt: HostRuntime) -> Result<(), Fail> {
    let build = Build::new(rt.alloc(), 2, 1, 3, 7)?;
    assert_same(&rt, written_is_read(rt.alloc(), &build)?, &build);
    assert_same(&rt, written3_is_read(rt.alloc(), &build)?, &build);
    varints_are_shortest();
    Ok(())
}

// The numbers of the later blocks have two bytes, and the cells stand in order of y, then z, then x.
#[test]
fn many_blocks(rt: HostRuntime) -> Result<(), Fail> {
    let mut build = Build::new(rt.alloc(), 5, 3, 16, -7)?;
    for x in 0..5 {
        for y in 0..3 {
            for z in 0..16 {
                let sides = ["none", "side", "up", "none", "side"];
                let state = format!(in rt.alloc();
                    "redstone_wire[east={},south={},power={z}]",
                    sides[x], sides[y]
                )?;
                put(&rt, &mut build, pos(x as i32, y as i32, z), state.as_str());
            }
        }
    }
    assert_comes_back(&rt, rt.alloc(), &build)?;
    Ok(())
}

// Each block stands three times, and keeps the number that its first cell got.
#[test]
fn blocks_that_stand_again(rt: HostRuntime) -> Result<(), Fail> {
    let mut build = Build::new(rt.alloc(), 4, 3, 1, 0)?;
    for y in 0..3 {
        put(&rt, &mut build, pos(0, y, 0), "stone");
        put(
            &rt,
            &mut build,
            pos(1, y, 0),
            "repeater[facing=west,delay=3]",
        );
        put(
            &rt,
            &mut build,
            pos(3, y, 0),
            "repeater[facing=east,delay=3]",
        );
    }
    let bytes = write_build(rt.alloc(), &build)?;
    let cells =
        b"\x07\x00\x09BlockData\x00\x00\x00\x0c\x00\x01\x02\x03\x00\x01\x02\x03\x00\x01\x02\x03";
    assert!(rt;
        bytes
            .windows(cells.len())
            .any(|part| part == cells.as_slice())
    );
    assert_comes_back(&rt, rt.alloc(), &build)?;
    Ok(())
}
