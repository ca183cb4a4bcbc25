//! What is made, against cells and acts that are written by hand.

use crate::make;
use block_table::{Block, parse_state};
use build::{Build, OutKind, Pos, outputs};
use script::{Act, Script};
use std::alloc::Global;
use std::process::Abort;
use std::test::Fail;

type Cell = (u8, u8, u8, &'static str);

const GATE: [Cell; 10] = [
    (0, 0, 0, "lever[face=wall,facing=north]"),
    (2, 0, 0, "lever[face=wall,facing=north]"),
    (0, 0, 1, "white_concrete"),
    (1, 0, 1, "white_concrete"),
    (2, 0, 1, "white_concrete"),
    (1, 0, 2, "redstone_wall_torch[facing=south,lit=false]"),
    (1, 0, 3, "redstone_lamp"),
    (0, 1, 1, "redstone_torch[lit=true]"),
    (2, 1, 1, "redstone_torch[lit=true]"),
    (1, 1, 1, "redstone_wire[east=side,west=side,power=15]"),
];

const TWINS: [Cell; 6] = [
    (0, 0, 0, "redstone_lamp[lit=true]"),
    (2, 0, 0, "redstone_lamp[lit=true]"),
    (0, 1, 0, "redstone_wall_torch[facing=west]"),
    (1, 1, 0, "stone"),
    (2, 1, 0, "redstone_wall_torch[facing=east]"),
    (1, 2, 0, "lever[face=floor]"),
];

const CLOCK: [Cell; 4] = [
    (0, 1, 0, "stone"),
    (1, 1, 0, "redstone_wall_torch[facing=east]"),
    (0, 2, 0, "redstone_wire"),
    (1, 2, 0, "stone"),
];

const MEASURED: [Cell; 3] = [
    (0, 0, 0, "composter[level=5]"),
    (1, 0, 0, "comparator[facing=west]"),
    (2, 0, 0, "redstone_lamp[lit=true]"),
];

fn put(rt: &impl Abort, build: &mut Build, east: u8, south: u8, cells: &[Cell]) {
    for (x, y, z, state) in cells {
        let pos = Pos {
            x: i32::from(east) + i32::from(*x),
            y: i32::from(*y),
            z: i32::from(south) + i32::from(*z),
        };
        let block = parse_state(state.as_bytes()).expect(rt, "a block of the table");
        assert!(rt; build.contains(pos));
        build.set(pos, block);
    }
}

// A unit at each of these x.
fn units(rt: &impl Abort, alloc: Global, width: u16, begins: &[u8]) -> Result<Build, Fail> {
    let mut build = Build::new(alloc, width, 3, 10, 0)?;
    for x in begins {
        put(rt, &mut build, *x, 0, &GATE);
        put(rt, &mut build, *x, 5, &TWINS);
        put(rt, &mut build, *x, 7, &CLOCK);
        put(rt, &mut build, *x, 9, &MEASURED);
    }
    Ok(build)
}

fn is_comparator(block: Block) -> bool {
    match block {
        Block::Comparator { .. } => true,
        _ => false,
    }
}

fn assert_same(rt: &impl Abort, build: &Build, want: &Build) {
    assert_eq!(rt; build.width(), want.width());
    assert_eq!(rt; build.height(), want.height());
    assert_eq!(rt; build.length(), want.length());
    assert_eq!(rt; build.data_version(), want.data_version());
    assert_eq!(rt; build.pending().len(), 0);
    assert_eq!(rt; build.cells(), want.cells());
    for cell in 0..want.cells() {
        let pos = want.place(cell);
        let block = want.at(pos);
        assert_eq!(rt; build.at(pos), block, "at {pos:?}");
        let output = if is_comparator(block) { 5 } else { 0 };
        assert_eq!(rt; build.output(pos), output, "at {pos:?}");
    }
}

fn use_at(x: i32, y: i32, z: i32) -> Act {
    Act::Use {
        pos: Pos { x, y, z },
    }
}

fn assert_acts(rt: &impl Abort, script: &Script, want: &[Act]) {
    assert_eq!(rt; script.len(), want.len());
    for (index, act) in want.iter().enumerate() {
        assert!(rt; index < script.len());
        assert_eq!(rt; script.act(index), *act);
    }
}

#[test]
fn one_unit(rt: HostRuntime) -> Result<(), Fail> {
    let (build, script) = make(rt.alloc(), 1)?;
    assert_same(&rt, &build, &units(&rt, rt.alloc(), 4, &[0])?);
    assert_acts(&rt, &script, &[Act::Ticks { count: 8 }]);
    Ok(())
}

#[test]
fn two_units(rt: HostRuntime) -> Result<(), Fail> {
    let (build, script) = make(rt.alloc(), 2)?;
    assert_same(&rt, &build, &units(&rt, rt.alloc(), 8, &[0, 4])?);
    let want = [use_at(4, 0, 0), use_at(5, 2, 5), Act::Ticks { count: 8 }];
    assert_acts(&rt, &script, &want);
    Ok(())
}

#[test]
fn four_units(rt: HostRuntime) -> Result<(), Fail> {
    let (build, script) = make(rt.alloc(), 4)?;
    assert_same(&rt, &build, &units(&rt, rt.alloc(), 16, &[0, 4, 8, 12])?);
    let want = [
        use_at(4, 0, 0),
        use_at(5, 2, 5),
        use_at(10, 0, 0),
        use_at(12, 0, 0),
        use_at(14, 0, 0),
        use_at(13, 2, 5),
        Act::Ticks { count: 8 },
    ];
    assert_acts(&rt, &script, &want);
    Ok(())
}

// Each unit shows four lamps and nothing else.
#[test]
fn most_units(rt: HostRuntime) -> Result<(), Fail> {
    let (build, script) = make(rt.alloc(), 4000)?;
    assert_eq!(rt; build.cells(), 480_000);
    assert_eq!(rt; script.len(), 6001);
    let shown = outputs(rt.alloc(), &build, script.marks())?;
    assert_eq!(rt; shown.len(), 16_000);
    assert!(rt; shown.iter().all(|place| place.kind == OutKind::Lamp));
    Ok(())
}
