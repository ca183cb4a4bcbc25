//! Small builds by their blocks, and the text of their raw graph.

use block_table::{Block, parse_state};
use build::{Build, Marks, NewRefusal};
use circuit::Pos;
use compiler::raw_graph;
use rp_text::NoMemory;
use std::alloc::Global;
use std::process::Abort;

pub(crate) fn at(x: i32, y: i32, z: i32) -> Pos {
    Pos { x, y, z }
}

pub(crate) fn put(rt: &impl Abort, build: &mut Build, pos: Pos, state: &str) {
    let block = parse_state(state.as_bytes()).expect(rt, "a block of the table");
    assert!(rt; build.contains(pos));
    build.set(pos, block);
}

// A box with these blocks.
pub(crate) fn box_of(
    rt: &impl Abort,
    alloc: Global,
    size: Pos,
    blocks: &[(Pos, &str)],
) -> Result<Build, NewRefusal> {
    let width = u16::try_from(size.x).unwrap_or(0);
    let height = u16::try_from(size.y).unwrap_or(0);
    let length = u16::try_from(size.z).unwrap_or(0);
    let mut build = Build::new(alloc, width, height, length, 0)?;
    for (pos, state) in blocks {
        put(rt, &mut build, *pos, state);
    }
    Ok(build)
}

// A box with these blocks over a floor of stone.
pub(crate) fn floored(
    rt: &impl Abort,
    alloc: Global,
    size: Pos,
    blocks: &[(Pos, &str)],
) -> Result<Build, NewRefusal> {
    let mut build = box_of(rt, alloc, size, blocks)?;
    for z in 0..size.z {
        for x in 0..size.x {
            put(rt, &mut build, at(x, 0, z), "stone");
        }
    }
    Ok(build)
}

pub(crate) fn store(
    rt: &impl Abort,
    build: &mut Build,
    pos: Pos,
    strength: u8,
) -> Result<(), NoMemory> {
    assert!(rt; strength <= 15);
    match build.at(pos) {
        Block::Container { .. } => build.set_strength(pos, strength),
        _ => panic!(rt; "no container at {pos:?}"),
    }
}

fn marks_of(alloc: Global, places: &[Pos]) -> Result<Marks, NoMemory> {
    let mut marks = Marks::new(alloc);
    for pos in places {
        marks.add(*pos)?;
    }
    Ok(marks)
}

// The raw graph of the build has this text.
pub(crate) fn assert_raw(
    rt: &impl Abort,
    alloc: Global,
    build: &Build,
    marks: &[Pos],
    want: &[u8],
) -> Result<(), NoMemory> {
    let marks = marks_of(alloc, marks)?;
    let graph = raw_graph(alloc, build, &marks)?;
    let mut text = Vec::new(alloc);
    graph.push_text(&mut text)?;
    assert_eq!(rt; text.as_slice(), want);
    Ok(())
}
