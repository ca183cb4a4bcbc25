//! Builds, marks and outputs.

use block_table::{Block, Side, parse_state};
use build::{
    Build, Marks, NewRefusal, OutKind, OutPlace, Pending, PendingRefusal, Pos, beside, is_ticking,
    outputs,
};
use packed_block::PackedBlock;
use rp_text::NoMemory;
use std::alloc::Global;
use std::process::Abort;
use std::test::Fail;

fn pos(x: i32, y: i32, z: i32) -> Pos {
    Pos { x, y, z }
}

fn put(rt: &impl Abort, build: &mut Build, pos: Pos, state: &str) {
    let block = parse_state(state.as_bytes()).expect(rt, "a block of the table");
    assert!(rt; build.contains(pos));
    build.set(pos, block);
}

fn store(rt: &impl Abort, build: &mut Build, pos: Pos, level: u8) -> Result<(), NoMemory> {
    assert!(rt; level <= 15);
    match build.at(pos) {
        Block::Comparator { .. } => build.set_output(pos, level),
        Block::Container { .. } => build.set_strength(pos, level),
        Block::Air
        | Block::Inert { .. }
        | Block::Slab { .. }
        | Block::Wire { .. }
        | Block::Torch { .. }
        | Block::WallTorch { .. }
        | Block::Repeater { .. }
        | Block::Lever { .. }
        | Block::Button { .. }
        | Block::Plate { .. }
        | Block::RedstoneBlock
        | Block::Lamp { .. }
        | Block::Trapdoor { .. }
        | Block::Composter { .. }
        | Block::Cauldron { .. }
        | Block::Cake { .. }
        | Block::Weighted { .. }
        | Block::Note { .. } => panic!(rt; "no level at {pos:?}"),
    }
}

// The build of the rows with a lever, stone and a lamp.
fn lever_and_lamp(rt: &impl Abort, alloc: Global) -> Result<Build, NewRefusal> {
    let mut build = Build::new(alloc, 3, 1, 1, 0)?;
    put(rt, &mut build, pos(0, 0, 0), "lever[face=wall,facing=west]");
    put(rt, &mut build, pos(1, 0, 0), "stone");
    put(rt, &mut build, pos(2, 0, 0), "redstone_lamp");
    Ok(build)
}

#[test]
fn boxes(rt: HostRuntime) -> Result<(), Fail> {
    for (width, height, length) in [
        (257, 256, 256),
        (256, 256, 257),
        (256, 257, 256),
        (65535, 65535, 65535),
        (1, 65535, 257),
    ] {
        let refused = Build::new(rt.alloc(), width, height, length, 0).err();
        assert_eq!(rt; refused, Some(NewRefusal::Volume));
    }
    let flat = Build::new(rt.alloc(), 0, 65535, 65535, 0)?;
    assert_eq!(rt; flat.cells(), 0);
    assert_eq!(rt; flat.at(pos(0, 0, 0)), Block::Air);
    let build = Build::new(rt.alloc(), 3, 2, 4, -7)?;
    assert_eq!(rt; (build.width(), build.height(), build.length()), (3, 2, 4));
    assert_eq!(rt; build.cells(), 24);
    assert_eq!(rt; build.data_version(), -7);
    Ok(())
}

#[test]
fn blocks_of_a_list(rt: HostRuntime) -> Result<(), Fail> {
    let blocks = vec![in rt.alloc();
        PackedBlock::new(Block::Air),
        PackedBlock::new(Block::RedstoneBlock),
    ]?;
    let build = Build::of_blocks(1, 1, 2, 5, blocks);
    assert_eq!(rt; build.at(pos(0, 0, 1)), Block::RedstoneBlock);
    assert_eq!(rt; build.cells(), 2);
    assert_eq!(rt;
        (build.block_in(0), build.block_in(1)),
        (Block::Air, Block::RedstoneBlock)
    );
    assert_eq!(rt; (build.cells(), build.data_version()), (2, 5));
    assert_eq!(rt; build.pending().len(), 0);
    Ok(())
}

#[test]
fn cells_by_y_then_z_then_x(rt: HostRuntime) -> Result<(), Fail> {
    let build = Build::new(rt.alloc(), 2, 2, 3, 0)?;
    let places = [
        (0, 0, 0),
        (1, 0, 0),
        (0, 0, 1),
        (1, 0, 1),
        (0, 0, 2),
        (1, 0, 2),
        (0, 1, 0),
        (1, 1, 0),
        (0, 1, 1),
        (1, 1, 1),
        (0, 1, 2),
        (1, 1, 2),
    ];
    assert_eq!(rt; build.cells(), places.len());
    for (cell, (x, y, z)) in places.iter().enumerate() {
        assert!(rt; cell < build.cells());
        assert_eq!(rt; build.place(cell), pos(*x, *y, *z));
        assert_eq!(rt; build.cell(pos(*x, *y, *z)), Some(cell));
    }
    for (x, y, z) in [
        (2, 0, 0),
        (0, 2, 0),
        (0, 0, 3),
        (-1, 0, 0),
        (0, -1, 0),
        (0, 0, i32::MIN),
        (i32::MAX, i32::MAX, i32::MAX),
    ] {
        assert!(rt; !build.contains(pos(x, y, z)));
        assert_eq!(rt; build.cell(pos(x, y, z)), None);
    }
    Ok(())
}

#[test]
fn six_sides(rt: HostRuntime) {
    let here = Pos { x: 5, y: 0, z: 6 };
    for (side, (x, y, z)) in [
        (Side::Down, (5, -1, 6)),
        (Side::Up, (5, 1, 6)),
        (Side::North, (5, 0, 5)),
        (Side::South, (5, 0, 7)),
        (Side::West, (4, 0, 6)),
        (Side::East, (6, 0, 6)),
    ] {
        assert_eq!(rt; beside(here, side), pos(x, y, z));
    }
}

#[test]
fn containers(rt: HostRuntime) -> Result<(), Fail> {
    let mut build = Build::new(rt.alloc(), 3, 1, 1, 0)?;
    let barrel = pos(0, 0, 0);
    let comparator = pos(1, 0, 0);
    put(&rt, &mut build, barrel, "barrel");
    put(&rt, &mut build, comparator, "comparator[facing=west]");
    put(&rt, &mut build, pos(2, 0, 0), "redstone_wire");
    assert_eq!(rt; build.strength(barrel), Some(0));
    assert_eq!(rt; build.output(comparator), 0);
    for strength in [1, 15, 0] {
        store(&rt, &mut build, barrel, strength)?;
        assert_eq!(rt; build.strength(barrel), Some(strength));
    }
    store(&rt, &mut build, barrel, 9)?;
    store(&rt, &mut build, comparator, 4)?;
    assert_eq!(rt; (build.output(barrel), build.output(comparator)), (0, 4));
    assert_eq!(rt; build.strength(barrel), Some(9));
    assert_eq!(rt; build.strength(comparator), None);
    put(&rt, &mut build, barrel, "chest");
    assert_eq!(rt; build.strength(barrel), Some(0));
    assert_eq!(rt; build.output(comparator), 4);
    Ok(())
}

#[test]
fn strengths(rt: HostRuntime) -> Result<(), Fail> {
    let mut build = Build::new(rt.alloc(), 1, 1, 1, 0)?;
    let here = pos(0, 0, 0);
    for (state, strength) in [
        ("composter[level=8]", Some(8)),
        ("cauldron[level=0]", Some(0)),
        ("water_cauldron[level=3]", Some(3)),
        ("cake", Some(14)),
        ("cake[bites=6]", Some(2)),
        ("hopper", Some(0)),
        ("stone", None),
        ("air", None),
    ] {
        put(&rt, &mut build, here, state);
        assert_eq!(rt; build.strength(here), strength, "{state}");
    }
    assert_eq!(rt; build.strength(pos(0, 1, 0)), None);
    Ok(())
}

#[test]
fn pending_ticks_in_a_file(rt: HostRuntime) -> Result<(), Fail> {
    let mut build = lever_and_lamp(&rt, rt.alloc())?;
    for (x, due, priority, answer) in [
        (0, 1, 3, Err(PendingRefusal::NotTicking)),
        (0, 16, 3, Err(PendingRefusal::NotTicking)),
        (3, 1, 3, Err(PendingRefusal::NotTicking)),
        (2, 16, 3, Err(PendingRefusal::Range)),
        (2, 0, 3, Err(PendingRefusal::Range)),
        (2, 1, 4, Err(PendingRefusal::Range)),
        (2, 1, 3, Ok(())),
        (2, 15, 0, Err(PendingRefusal::Twice)),
        (2, 15, 4, Err(PendingRefusal::Range)),
    ] {
        let tick = Pending {
            pos: pos(x, 0, 0),
            due,
            priority,
        };
        assert_eq!(rt; build.add_pending(tick), answer, "{tick:?}");
    }
    let copy = build.copy()?;
    assert_eq!(rt; copy.pending(), build.pending());
    assert_eq!(rt; copy.cells(), 3);
    for x in 0..3 {
        assert_eq!(rt; copy.at(pos(x, 0, 0)), build.at(pos(x, 0, 0)));
    }
    assert_eq!(rt; build.pending().len(), 1);
    put(&rt, &mut build, pos(1, 0, 0), "glass");
    assert_eq!(rt; build.pending().len(), 1);
    put(&rt, &mut build, pos(2, 0, 0), "redstone_lamp");
    assert_eq!(rt; build.pending().len(), 0);
    Ok(())
}

#[test]
fn blocks_that_tick(rt: HostRuntime) {
    for (state, ticks) in [
        ("redstone_torch", true),
        ("redstone_wall_torch", true),
        ("repeater", true),
        ("comparator", true),
        ("redstone_lamp", true),
        ("oak_button", true),
        ("lever", false),
        ("note_block", false),
        ("redstone_wire", false),
        ("stone_pressure_plate", false),
    ] {
        let block = parse_state(state.as_bytes()).expect(&rt, "a block of the table");
        assert_eq!(rt; is_ticking(block), ticks, "{state}");
    }
}

#[test]
fn outputs_and_components(rt: HostRuntime) -> Result<(), Fail> {
    let mut build = Build::new(rt.alloc(), 3, 2, 2, 0)?;
    for (x, y, z, state) in [
        (2, 0, 0, "redstone_lamp"),
        (0, 0, 0, "lever"),
        (1, 0, 0, "redstone_wire"),
        (1, 0, 1, "redstone_wire"),
        (0, 0, 1, "iron_trapdoor"),
        (1, 1, 0, "note_block"),
        (0, 1, 1, "redstone_block"),
        (2, 1, 1, "stone"),
    ] {
        put(&rt, &mut build, pos(x, y, z), state);
    }
    let mut marks = Marks::new(rt.alloc());
    marks.add(pos(1, 0, 1))?;
    marks.add(pos(1, 0, 1))?;
    let expected = [
        OutPlace {
            pos: pos(2, 0, 0),
            kind: OutKind::Lamp,
        },
        OutPlace {
            pos: pos(0, 0, 1),
            kind: OutKind::Trapdoor,
        },
        OutPlace {
            pos: pos(1, 0, 1),
            kind: OutKind::Wire,
        },
        OutPlace {
            pos: pos(1, 1, 0),
            kind: OutKind::Note,
        },
    ];
    assert_eq!(rt;
        outputs(rt.alloc(), &build, &marks)?.as_slice(),
        expected.as_slice()
    );
    let components = [
        pos(0, 0, 0),
        pos(2, 0, 0),
        pos(0, 0, 1),
        pos(1, 1, 0),
        pos(0, 1, 1),
    ];
    assert_eq!(rt; build.components()?.as_slice(), components.as_slice());
    Ok(())
}

#[test]
fn many_marks(rt: HostRuntime) -> Result<(), Fail> {
    let mut marks = Marks::new(rt.alloc());
    for x in (0..30_000).rev() {
        marks.add(pos(x, 0, 0))?;
    }
    for (x, y, z, marked) in [
        (0, 0, 0, true),
        (29_999, 0, 0, true),
        (30_000, 0, 0, false),
        (-1, 0, 0, false),
        (5, 1, 0, false),
        (5, 0, 1, false),
    ] {
        assert_eq!(rt; marks.contains(pos(x, y, z)), marked);
    }
    Ok(())
}
