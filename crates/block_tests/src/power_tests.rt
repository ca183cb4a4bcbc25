//! The rules as tables, from their text.

ghost use Rattle.std.specs.Prelude.{if◌then◌else◌, min};
ghost use Rattle.build.specs.Place.{same_place};

use block_table::{Side, parse_state};
use build::{Build, NewRefusal};
use circuit::Readings;
use power_rules::{
    Levels, Pos, back, faces_diode, goal, locked, read_no_dust, read_power, readings, strong, weak,
};
use std::alloc::Global;
use std::process::Abort;
use std::test::Fail;

// The reader of a table stands in the middle of a box of five cells each way.
const HERE: Pos = Pos { x: 2, y: 2, z: 2 };

const UP: Pos = Pos { x: 2, y: 3, z: 2 };

const DOWN: Pos = Pos { x: 2, y: 1, z: 2 };

const WEST: Pos = Pos { x: 1, y: 2, z: 2 };

const FAR_WEST: Pos = Pos { x: 0, y: 2, z: 2 };

const EAST: Pos = Pos { x: 3, y: 2, z: 2 };

const NORTH: Pos = Pos { x: 2, y: 2, z: 1 };

const SOUTH: Pos = Pos { x: 2, y: 2, z: 3 };

const NORTH_WEST: Pos = Pos { x: 1, y: 2, z: 1 };

// One place has a level, of which 15 counts at most, all others have 0.
#[derive(Drop)]
struct One {
    pos: Pos,
    level: u8,
}

impl Levels for One {
    ghost level_of = { λ s p. if same_place p s.pos then min s.level 15 else 0 };

    fn level(&self, pos: Pos) -> u8 {
        if pos == self.pos {
            self.level.min(15)
        } else {
            0
        }
    }
}

fn room(
    rt: &impl Abort,
    alloc: Global,
    cells: &[(Pos, &'static str)],
) -> Result<Build, NewRefusal> {
    let mut build = Build::new(alloc, 5, 5, 5, 0)?;
    for (pos, state) in cells {
        let block = parse_state(state.as_bytes()).expect(rt, "a block of the table");
        assert!(rt; build.contains(*pos));
        build.set(*pos, block);
    }
    Ok(build)
}

// Weak and strong power in the order of sides: down, up, north, south, west, east.
fn gives(
    rt: &impl Abort,
    alloc: Global,
    state: &'static str,
    level: u8,
    weakly: [u8; 6],
    strongly: [u8; 6],
) -> Result<(), NewRefusal> {
    let build = room(rt, alloc, &[(HERE, state)])?;
    let levels = One { pos: HERE, level };
    let sides = [
        Side::Down,
        Side::Up,
        Side::North,
        Side::South,
        Side::West,
        Side::East,
    ];
    for (index, side) in sides.iter().enumerate() {
        assert_eq!(rt;
            weak(&build, &levels, HERE, *side),
            weakly[index],
            "{state} weakly, side {index}"
        );
        assert_eq!(rt;
            strong(&build, &levels, HERE, *side),
            strongly[index],
            "{state} strongly, side {index}"
        );
    }
    Ok(())
}

#[test]
fn weak_and_strong_power(rt: HostRuntime) -> Result<(), Fail> {
    const NONE: [u8; 6] = [0; 6];
    const ALL: [u8; 6] = [15; 6];
    const UPWARDS: [u8; 6] = [0, 15, 0, 0, 0, 0];
    const DOWNWARDS: [u8; 6] = [15, 0, 0, 0, 0, 0];
    const TO_SOUTH: [u8; 6] = [0, 0, 0, 15, 0, 0];
    const TO_WEST: [u8; 6] = [0, 0, 0, 0, 15, 0];
    for (state, level, weakly, strongly) in [
        ("redstone_torch", 15, [0, 15, 15, 15, 15, 15], UPWARDS),
        ("redstone_torch", 0, NONE, NONE),
        (
            "redstone_wall_torch[facing=east]",
            15,
            [15, 15, 15, 15, 0, 15],
            UPWARDS,
        ),
        ("redstone_block", 15, ALL, NONE),
        ("lever[face=floor]", 15, ALL, DOWNWARDS),
        ("lever[face=ceiling]", 15, ALL, UPWARDS),
        ("lever[face=wall,facing=north]", 15, ALL, TO_SOUTH),
        ("oak_button[face=wall,facing=east]", 15, ALL, TO_WEST),
        ("stone_button[face=floor]", 0, NONE, NONE),
        ("stone_pressure_plate", 15, ALL, DOWNWARDS),
        (
            "light_weighted_pressure_plate",
            7,
            [7; 6],
            [7, 0, 0, 0, 0, 0],
        ),
        ("repeater[facing=north]", 15, TO_SOUTH, TO_SOUTH),
        ("repeater[facing=east]", 15, TO_WEST, TO_WEST),
        (
            "comparator[facing=east]",
            9,
            [0, 0, 0, 0, 9, 0],
            [0, 0, 0, 0, 9, 0],
        ),
        (
            "redstone_wire[north=side]",
            9,
            [9, 0, 9, 9, 9, 9],
            [9, 0, 9, 9, 9, 9],
        ),
        ("redstone_wire", 9, [9, 0, 0, 0, 0, 0], [9, 0, 0, 0, 0, 0]),
        ("redstone_lamp[lit=true]", 15, NONE, NONE),
        ("iron_trapdoor[powered=true]", 15, NONE, NONE),
        ("barrel", 15, NONE, NONE),
        ("stone", 15, NONE, NONE),
    ] {
        gives(&rt, rt.alloc(), state, level, weakly, strongly)?;
    }
    Ok(())
}

// What the middle reads from its western neighbour, with dust and without, where the level is
// that of the source.
fn reads(
    rt: &impl Abort,
    alloc: Global,
    cells: &[(Pos, &'static str)],
    source: Pos,
    level: u8,
    want: [u8; 2],
) -> Result<(), NewRefusal> {
    let build = room(rt, alloc, cells)?;
    let levels = One { pos: source, level };
    assert!(rt; build.contains(HERE));
    let read = read_power(&build, &levels, HERE, Side::West);
    let dry = read_no_dust(&build, &levels, HERE, Side::West);
    assert_eq!(rt; [read, dry], want, "{cells:?}");
    Ok(())
}

#[test]
fn power_read_from_a_neighbour(rt: HostRuntime) -> Result<(), Fail> {
    let alloc = rt.alloc();
    // Its own weak power, if it isn't solid.
    reads(
        &rt,
        alloc,
        &[(WEST, "lever[face=floor]")],
        WEST,
        15,
        [15, 15],
    )?;
    reads(
        &rt,
        alloc,
        &[(WEST, "redstone_wire[east=side]")],
        WEST,
        9,
        [9, 0],
    )?;
    reads(
        &rt,
        alloc,
        &[(WEST, "comparator[facing=west]")],
        WEST,
        9,
        [9, 9],
    )?;
    reads(
        &rt,
        alloc,
        &[(WEST, "comparator[facing=east]")],
        WEST,
        9,
        [0, 0],
    )?;
    // The strong power that it is given, if it is solid.
    for (state, want) in [
        ("stone", [15, 15]),
        ("smooth_stone_slab[type=double]", [15, 15]),
        ("redstone_lamp", [15, 15]),
        ("glass", [0, 0]),
        ("smooth_stone_slab[type=top]", [0, 0]),
        ("chest", [0, 0]),
    ] {
        let lever = "lever[face=wall,facing=west]";
        reads(
            &rt,
            alloc,
            &[(WEST, state), (FAR_WEST, lever)],
            FAR_WEST,
            15,
            want,
        )?;
    }
    for (state, level, want) in [
        ("lever[face=wall,facing=north]", 15, [0, 0]),
        ("redstone_block", 15, [0, 0]),
        ("repeater[facing=west]", 15, [15, 15]),
        ("comparator[facing=west]", 3, [3, 3]),
        ("comparator[facing=north]", 3, [0, 0]),
        ("redstone_wire[east=side]", 6, [6, 0]),
        ("redstone_wire", 6, [0, 0]),
    ] {
        reads(
            &rt,
            alloc,
            &[(WEST, "stone"), (FAR_WEST, state)],
            FAR_WEST,
            level,
            want,
        )?;
    }
    Ok(())
}

// The readings, the goal and whether it is locked of what stands in the middle.
fn stands(
    rt: &impl Abort,
    alloc: Global,
    cells: &[(Pos, &'static str)],
    source: Pos,
    level: u8,
    want: (u8, u8, u8),
) -> Result<(), NewRefusal> {
    let build = room(rt, alloc, cells)?;
    let levels = One { pos: source, level };
    let Readings { back, side } = readings(&build, &levels, HERE);
    let aim = goal(&build, &levels, HERE);
    assert_eq!(rt; (back, side, aim), want, "{cells:?}");
    Ok(())
}

#[test]
fn readings_and_goals(rt: HostRuntime) -> Result<(), Fail> {
    let alloc = rt.alloc();
    let torch = "redstone_torch";
    let lever = "lever[face=floor]";
    let wall_torch = "redstone_wall_torch[facing=east]";
    stands(
        &rt,
        alloc,
        &[(HERE, torch), (DOWN, "redstone_block")],
        UP,
        0,
        (15, 0, 0),
    )?;
    stands(
        &rt,
        alloc,
        &[(HERE, torch), (WEST, "redstone_block")],
        UP,
        0,
        (0, 0, 15),
    )?;
    stands(
        &rt,
        alloc,
        &[(HERE, wall_torch), (WEST, lever)],
        WEST,
        15,
        (15, 0, 0),
    )?;
    stands(
        &rt,
        alloc,
        &[(HERE, wall_torch), (EAST, lever)],
        EAST,
        15,
        (0, 0, 15),
    )?;
    for state in ["redstone_lamp", "iron_trapdoor", "note_block"] {
        stands(
            &rt,
            alloc,
            &[(HERE, state), (UP, lever)],
            UP,
            15,
            (15, 0, 15),
        )?;
        stands(
            &rt,
            alloc,
            &[(HERE, state), (SOUTH, lever)],
            SOUTH,
            0,
            (0, 0, 0),
        )?;
    }
    let repeater = "repeater[facing=west]";
    stands(
        &rt,
        alloc,
        &[(HERE, repeater), (WEST, "redstone_wire")],
        WEST,
        1,
        (1, 0, 15),
    )?;
    stands(
        &rt,
        alloc,
        &[(HERE, repeater), (EAST, lever)],
        EAST,
        15,
        (0, 0, 0),
    )?;
    for (state, lock) in [
        ("comparator[facing=north]", 2),
        ("comparator[facing=south]", 0),
        ("redstone_wire", 0),
    ] {
        stands(
            &rt,
            alloc,
            &[(HERE, repeater), (NORTH, state)],
            NORTH,
            2,
            (0, lock, 0),
        )?;
        let build = room(&rt, alloc, &[(HERE, repeater), (NORTH, state)])?;
        let levels = One {
            pos: NORTH,
            level: 2,
        };
        assert_eq!(rt; locked(&build, &levels, HERE), lock > 0, "{state}");
    }
    let compare = "comparator[facing=west]";
    let subtract = "comparator[facing=west,mode=subtract]";
    let block = (NORTH, "redstone_block");
    stands(
        &rt,
        alloc,
        &[(HERE, compare), (WEST, "redstone_wire")],
        WEST,
        7,
        (7, 0, 7),
    )?;
    stands(
        &rt,
        alloc,
        &[(HERE, compare), (WEST, "redstone_wire"), block],
        WEST,
        7,
        (7, 15, 0),
    )?;
    stands(
        &rt,
        alloc,
        &[(HERE, compare), (WEST, "redstone_wire"), block],
        WEST,
        15,
        (15, 15, 15),
    )?;
    stands(
        &rt,
        alloc,
        &[
            (HERE, subtract),
            (WEST, "redstone_block"),
            (SOUTH, "redstone_wire"),
        ],
        SOUTH,
        6,
        (15, 6, 9),
    )?;
    Ok(())
}

// The back power of a comparator in the middle that faces west.
fn measures(
    rt: &impl Abort,
    alloc: Global,
    input: &'static str,
    beyond: &'static str,
    source: Pos,
    level: u8,
    want: u8,
) -> Result<(), NewRefusal> {
    let cells = [
        (HERE, "comparator[facing=west]"),
        (WEST, input),
        (FAR_WEST, beyond),
        (NORTH_WEST, "lever[face=wall,facing=north]"),
    ];
    let build = room(rt, alloc, &cells)?;
    let levels = One { pos: source, level };
    assert_eq!(rt; back(&build, &levels, HERE), want, "{input} {beyond}");
    Ok(())
}

#[test]
fn strengths_behind_a_comparator(rt: HostRuntime) -> Result<(), Fail> {
    let alloc = rt.alloc();
    measures(&rt, alloc, "composter[level=5]", "air", UP, 0, 5)?;
    measures(&rt, alloc, "cake[bites=2]", "air", UP, 0, 10)?;
    measures(&rt, alloc, "barrel", "composter[level=5]", UP, 0, 0)?;
    measures(&rt, alloc, "stone", "composter[level=5]", UP, 0, 5)?;
    measures(&rt, alloc, "glass", "composter[level=5]", UP, 0, 0)?;
    // A lever that hangs on the stone gives it 15, and then the strength beyond doesn't count.
    measures(
        &rt,
        alloc,
        "stone",
        "composter[level=5]",
        NORTH_WEST,
        15,
        15,
    )?;
    // A diode reads all power of a wire, wherever that points.
    measures(&rt, alloc, "redstone_wire", "air", WEST, 4, 4)?;
    Ok(())
}

#[test]
fn diodes_that_face_diodes(rt: HostRuntime) -> Result<(), Fail> {
    for (state, next, want) in [
        ("repeater[facing=west]", "repeater[facing=west]", true),
        ("repeater[facing=west]", "repeater[facing=east]", false),
        ("repeater[facing=west]", "comparator[facing=north]", true),
        ("comparator[facing=west]", "repeater[facing=south]", true),
        ("comparator[facing=west]", "redstone_lamp", false),
        ("redstone_lamp", "repeater[facing=west]", false),
    ] {
        let build = room(&rt, rt.alloc(), &[(HERE, state), (EAST, next)])?;
        assert_eq!(rt; faces_diode(&build, HERE), want, "{state} {next}");
    }
    Ok(())
}
