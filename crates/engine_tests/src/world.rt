//! Rows of worked builds, played by the calls of World.

use block_table::parse_state;
use build::{Build, Marks};
use circuit::{Click, Pos};
use std::alloc::Global;
use std::process::Abort;
use std::test::Fail;
use world_engine::World;

fn pos(x: i32, y: i32, z: i32) -> Pos {
    Pos { x, y, z }
}

// Puts a block at each of the places.
fn put(rt: &impl Abort, build: &mut Build, state: &str, places: &[(i32, i32, i32)]) {
    let block = parse_state(state.as_bytes()).expect(rt, "a block of the table");
    for (x, y, z) in places {
        let pos = pos(*x, *y, *z);
        assert!(rt; build.contains(pos));
        build.set(pos, block);
    }
}

// Whether the one output shows this.
fn shows(rt: &impl Abort, world: &World, value: u8) -> bool {
    assert!(rt; world.output_count() == 1);
    let mut shown = [0u8; 1];
    world.view(&mut shown);
    shown[0] == value
}

// Plays so many ticks, after each of which the one output shows this.
fn play(rt: &impl Abort, world: &mut World, ticks: u8, value: u8) -> bool {
    for _tick in 0..ticks {
        assert!(rt; world.time() < 1000);
        world.tick();
        if !shows(rt, world, value) {
            return false;
        }
    }
    true
}

fn lever_repeater_and_lamp(rt: &impl Abort, alloc: Global) -> Result<Build, Fail> {
    let mut build = Build::new(alloc, 3, 2, 1, 0)?;
    put(rt, &mut build, "stone", &[(0, 0, 0), (1, 0, 0), (2, 0, 0)]);
    put(rt, &mut build, "lever[face=floor]", &[(0, 1, 0)]);
    put(
        rt,
        &mut build,
        "repeater[delay=4,facing=west]",
        &[(1, 1, 0)],
    );
    put(rt, &mut build, "redstone_lamp", &[(2, 1, 0)]);
    Ok(build)
}

#[test]
fn short_pulse(rt: HostRuntime) -> Result<(), Fail> {
    let build = lever_repeater_and_lamp(&rt, rt.alloc())?;
    let mut world = World::start(rt.alloc(), &build, &Marks::new(rt.alloc()))?;
    assert!(rt; shows(&rt, &world, 0));
    assert!(rt; world.click(pos(0, 1, 0), Click::Use).is_ok());
    assert!(rt; play(&rt, &mut world, 1, 0));
    assert!(rt; world.click(pos(0, 1, 0), Click::Use).is_ok());
    assert!(rt; play(&rt, &mut world, 2, 0));
    assert!(rt; play(&rt, &mut world, 6, 1));
    assert!(rt; play(&rt, &mut world, 1, 0));
    assert!(rt; world.click(pos(1, 1, 0), Click::Use).is_err());
    Ok(())
}

fn button_stone_and_lamp(rt: &impl Abort, alloc: Global) -> Result<Build, Fail> {
    let mut build = Build::new(alloc, 3, 1, 1, 0)?;
    put(
        rt,
        &mut build,
        "stone_button[face=wall,facing=west]",
        &[(0, 0, 0)],
    );
    put(rt, &mut build, "stone", &[(1, 0, 0)]);
    put(rt, &mut build, "redstone_lamp", &[(2, 0, 0)]);
    Ok(build)
}

#[test]
fn stone_button(rt: HostRuntime) -> Result<(), Fail> {
    let build = button_stone_and_lamp(&rt, rt.alloc())?;
    let mut world = World::start(rt.alloc(), &build, &Marks::new(rt.alloc()))?;
    assert!(rt; shows(&rt, &world, 0));
    assert!(rt; world.click(pos(0, 0, 0), Click::Use).is_ok());
    assert!(rt; world.click(pos(0, 0, 0), Click::Use).is_ok());
    assert!(rt; shows(&rt, &world, 1));
    assert!(rt; play(&rt, &mut world, 11, 1));
    assert!(rt; play(&rt, &mut world, 1, 0));
    Ok(())
}

// Whether the two outputs show these.
fn shows_both(rt: &impl Abort, world: &World, values: [u8; 2]) -> bool {
    assert!(rt; world.output_count() == 2);
    let mut shown = [0u8; 2];
    world.view(&mut shown);
    shown == values
}

// Whether two marked wires show these after a click on the lever, and 0 before it and after
// another click.
fn lights(
    rt: &impl Abort,
    alloc: Global,
    build: &Build,
    marked: [Pos; 2],
    values: [u8; 2],
) -> Result<bool, Fail> {
    let mut marks = Marks::new(alloc);
    for place in marked {
        marks.add(place)?;
    }
    let mut world = World::start(alloc, build, &marks)?;
    let dark = shows_both(rt, &world, [0, 0]);
    let on = world.click(pos(0, 1, 0), Click::Use).is_ok() && shows_both(rt, &world, values);
    let off = world.click(pos(0, 1, 0), Click::Use).is_ok() && shows_both(rt, &world, [0, 0]);
    Ok(dark && on && off)
}

#[test]
fn wires(rt: HostRuntime) -> Result<(), Fail> {
    let alloc = rt.alloc();
    let mut square = Build::new(alloc, 4, 2, 2, 0)?;
    put(&rt, &mut square, "lever[face=floor]", &[(0, 1, 0)]);
    put(
        &rt,
        &mut square,
        "redstone_wire",
        &[(1, 1, 0), (2, 1, 0), (1, 1, 1), (2, 1, 1)],
    );
    assert!(rt; lights(&rt, alloc, &square, [pos(1, 1, 0), pos(2, 1, 1)], [15, 13])?);
    let mut line = Build::new(alloc, 17, 2, 1, 0)?;
    put(&rt, &mut line, "lever[face=floor]", &[(0, 1, 0)]);
    for x in 1..17i32 {
        put(&rt, &mut line, "redstone_wire", &[(x, 1, 0)]);
    }
    assert!(rt; lights(&rt, alloc, &line, [pos(15, 1, 0), pos(16, 1, 0)], [1, 0])?);
    Ok(())
}
