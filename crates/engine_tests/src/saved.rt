//! Builds that are saved at the start of their run.

use block_table::{Block, parse_state};
use build::{Build, Marks, NewRefusal, Pending, Pos};
use compiler::{Keep, compile_build};
use graph_machine::Machine;
use handover::give_back;
use rp_text::NoMemory;
use std::alloc::Global;
use std::process::Abort;
use std::test::Fail;

fn at(x: i32, z: i32) -> Pos {
    Pos { x, y: 0, z }
}

fn block(rt: &impl Abort, state: &str) -> Block {
    parse_state(state.as_bytes()).expect(rt, "a block of the table")
}

fn put(rt: &impl Abort, build: &mut Build, pos: Pos, state: &str) {
    let block = parse_state(state.as_bytes()).expect(rt, "a block of the table");
    assert!(rt; build.contains(pos));
    build.set(pos, block);
}

// What is saved before the first step, where all components have attended once.
fn saved(alloc: Global, build: &Build) -> Result<Build, NoMemory> {
    let _ = build.cells();
    let marks = Marks::new(alloc);
    let graph = compile_build(alloc, build, &marks, Keep::All)?;
    let machine = Machine::start(alloc, &graph)?;
    give_back(alloc, build, &graph, &machine)
}

// A lever that is on, a lamp beside it, and behind a repeater another one.
fn lever_and_lamps(rt: &impl Abort, alloc: Global) -> Result<Build, NewRefusal> {
    let mut build = Build::new(alloc, 3, 1, 2, 0)?;
    put(rt, &mut build, at(0, 0), "lever[face=floor,powered=true]");
    put(rt, &mut build, at(1, 0), "repeater[delay=2,facing=west]");
    put(rt, &mut build, at(2, 0), "redstone_lamp");
    put(rt, &mut build, at(0, 1), "redstone_lamp");
    Ok(build)
}

#[test]
fn values_and_ticks_are_given_back(rt: HostRuntime) -> Result<(), Fail> {
    let build = lever_and_lamps(&rt, rt.alloc())?;
    let after = saved(rt.alloc(), &build)?;
    assert_eq!(rt; after.at(at(0, 0)), build.at(at(0, 0)));
    assert_eq!(rt; after.at(at(1, 0)), build.at(at(1, 0)));
    assert_eq!(rt; after.at(at(2, 0)), build.at(at(2, 0)));
    assert_eq!(rt; after.at(at(0, 1)), block(&rt, "redstone_lamp[lit=true]"));
    assert_eq!(rt; after.pending().len(), 1);
    let tick = Pending {
        pos: at(1, 0),
        due: 2,
        priority: 2,
    };
    assert_eq!(rt; after.pending().first().copied(), Some(tick));
    Ok(())
}

// A repeater behind a redstone block has folded, so its block and its lamp's stay.
#[test]
fn folded_places_keep_their_values(rt: HostRuntime) -> Result<(), Fail> {
    let mut build = Build::new(rt.alloc(), 3, 1, 1, 0)?;
    put(&rt, &mut build, at(0, 0), "redstone_block");
    put(
        &rt,
        &mut build,
        at(1, 0),
        "repeater[facing=west,powered=true]",
    );
    put(&rt, &mut build, at(2, 0), "redstone_lamp[lit=true]");
    let after = saved(rt.alloc(), &build)?;
    for x in 0..3 {
        assert_eq!(rt; after.at(at(x, 0)), build.at(at(x, 0)));
    }
    assert!(rt; after.pending().is_empty());
    Ok(())
}
