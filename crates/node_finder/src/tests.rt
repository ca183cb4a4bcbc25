//! The nodes of small builds, as text.

use super::*;
use block_table::parse_state;
use build::{NewRefusal, PendingRefusal};
use std::process::Abort;
use std::test::Fail;

fn at(x: i32, y: i32, z: i32) -> Pos {
    Pos { x, y, z }
}

fn put(rt: &impl Abort, build: &mut Build, pos: Pos, state: &str) {
    let block = parse_state(state.as_bytes()).expect(rt, "a block of the table");
    assert!(rt; build.contains(pos));
    build.set(pos, block);
}

// A row of blocks from west to east.
fn row_of(rt: &impl Abort, alloc: Global, states: &[&str]) -> Result<Build, NewRefusal> {
    let mut build = Build::new(alloc, 12, 1, 1, 0)?;
    let mut x = 0;
    for state in states {
        put(rt, &mut build, at(x, 0, 0), state);
        assert!(rt; x < 12);
        x += 1;
    }
    Ok(build)
}

// Sets the output of a comparator or the strength of a container.
fn store(rt: &impl Abort, build: &mut Build, pos: Pos, level: u8) -> Result<(), NoMemory> {
    assert!(rt; level <= 15);
    match build.at(pos) {
        Block::Comparator { .. } => build.set_output(pos, level),
        Block::Container { .. } => build.set_strength(pos, level),
        Block::Air
        | Block::Inert { .. }
        | Block::Slab { .. }
        | Block::Wire { .. }
        | Block::Torch { .. }
        | Block::WallTorch { .. }
        | Block::Repeater { .. }
        | Block::Lever { .. }
        | Block::Button { .. }
        | Block::Plate { .. }
        | Block::RedstoneBlock
        | Block::Lamp { .. }
        | Block::Trapdoor { .. }
        | Block::Composter { .. }
        | Block::Cauldron { .. }
        | Block::Cake { .. }
        | Block::Weighted { .. }
        | Block::Note { .. } => panic!(rt; "no level at {pos:?}"),
    }
}

fn marks_of(alloc: Global, places: &[Pos]) -> Result<Marks, NoMemory> {
    let mut marks = Marks::new(alloc);
    for pos in places {
        marks.add(*pos)?;
    }
    Ok(marks)
}

// The nodes of the build have this text.
fn assert_nodes(
    rt: &impl Abort,
    alloc: Global,
    build: &Build,
    marks: &[Pos],
    want: &[u8],
) -> Result<(), NoMemory> {
    let marks = marks_of(alloc, marks)?;
    let graph = find(alloc, build, &marks)?;
    let mut text = Vec::new(alloc);
    graph.push_text(&mut text)?;
    assert_eq!(rt; text.as_slice(), want);
    Ok(())
}

#[test]
fn each_kind(rt: HostRuntime) -> Result<(), Fail> {
    let states = [
        "stone_button[face=floor,powered=true]",
        "oak_button[face=floor]",
        "stone_pressure_plate[powered=true]",
        "light_weighted_pressure_plate[power=12]",
        "iron_trapdoor[powered=true]",
        "note_block",
        "redstone_block",
        "redstone_torch",
        "redstone_lamp[lit=true]",
        "barrel",
        "comparator[facing=west,mode=subtract]",
        "redstone_wire",
    ];
    let mut build = row_of(&rt, rt.alloc(), &states)?;
    store(&rt, &mut build, at(9, 0, 0), 5)?;
    store(&rt, &mut build, at(10, 0, 0), 3)?;
    let tick = Pending {
        pos: at(0, 0, 0),
        due: 12,
        priority: 3,
    };
    build.add_pending(tick)?;
    assert_nodes(
        &rt,
        rt.alloc(),
        &build,
        &[at(11, 0, 0)],
        b"graph 11 0\n\
        node 0 button 0 0 0 1 delay 10 due 12 priority 3\n\
        node 1 button 1 0 0 0 delay 15\n\
        node 2 plate 2 0 0 1\n\
        node 3 weighted 3 0 0 12\n\
        node 4 trapdoor 4 0 0 1\n\
        node 5 note 5 0 0 0\n\
        node 6 constant 6 0 0 15\n\
        node 7 torch 7 0 0 1\n\
        node 8 lamp 8 0 0 1\n\
        node 9 comparator 10 0 0 3 subtract direct 5\n\
        node 10 wire 11 0 0 0\n",
    )?;
    Ok(())
}

// A strength beyond counts only where the block between is solid and has none. A wire that isn't
// marked has no node.
#[test]
fn strengths_beyond(rt: HostRuntime) -> Result<(), Fail> {
    let states = [
        "barrel",
        "stone",
        "comparator[facing=west]",
        "repeater[delay=4,facing=west]",
        "repeater[facing=north]",
        "barrel",
        "glass",
        "comparator[facing=west]",
        "redstone_wire",
    ];
    let mut build = row_of(&rt, rt.alloc(), &states)?;
    store(&rt, &mut build, at(0, 0, 0), 7)?;
    store(&rt, &mut build, at(5, 0, 0), 7)?;
    assert_nodes(
        &rt,
        rt.alloc(),
        &build,
        &[],
        b"graph 4 0\n\
        node 0 comparator 2 0 0 0 compare far 7 first\n\
        node 1 repeater 3 0 0 0 delay 4 first\n\
        node 2 repeater 4 0 0 0 delay 1\n\
        node 3 comparator 7 0 0 0 compare\n",
    )?;
    Ok(())
}
