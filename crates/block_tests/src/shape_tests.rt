//! How wires join and feed each other.

use block_table::{Side, parse_state};
use build::{Build, NewRefusal};
use circuit::Pos;
use std::alloc::Global;
use std::process::Abort;
use std::test::Fail;
use wire_shape::{Conn, connection, feeders_of, points, wire_at};

fn at(x: i32, y: i32, z: i32) -> Pos {
    Pos { x, y, z }
}

// A box of 4 by 3 by 3 cells with these blocks.
fn build_of(rt: &impl Abort, alloc: Global, blocks: &[(Pos, &str)]) -> Result<Build, NewRefusal> {
    let mut build = Build::new(alloc, 4, 3, 3, 0)?;
    for (pos, state) in blocks {
        let block = parse_state(state.as_bytes()).expect(rt, "a block of the table");
        assert!(rt; build.contains(*pos));
        build.set(*pos, block);
    }
    Ok(build)
}

// How a wire is joined to the east, by its neighbour there, what stands above the wire, and what
// stands above and below the neighbour.
fn joined(rt: &impl Abort, alloc: Global, around: [&str; 4], conn: Conn) -> Result<(), Fail> {
    let [neighbour, roof, above, below] = around;
    let here = at(1, 1, 1);
    let build = build_of(
        rt,
        alloc,
        &[
            (here, "redstone_wire"),
            (at(2, 1, 1), neighbour),
            (at(1, 2, 1), roof),
            (at(2, 2, 1), above),
            (at(2, 0, 1), below),
        ],
    )?;
    assert!(rt; wire_at(&build, here));
    assert_eq!(rt; connection(&build, here, Side::East), conn, "{around:?}");
    Ok(())
}

#[test]
fn joined_to_a_neighbour(rt: HostRuntime) -> Result<(), Fail> {
    for (neighbour, conn) in [
        ("redstone_wire", Conn::Side),
        ("comparator[facing=east]", Conn::Side),
        ("comparator[facing=north]", Conn::Side),
        ("redstone_torch", Conn::Side),
        ("redstone_wall_torch[facing=east]", Conn::Side),
        ("redstone_block", Conn::Side),
        ("stone_pressure_plate", Conn::Side),
        ("light_weighted_pressure_plate", Conn::Side),
        ("lever", Conn::Side),
        ("oak_button", Conn::Side),
        ("repeater[facing=east]", Conn::Side),
        ("repeater[facing=west]", Conn::Side),
        ("repeater[facing=north]", Conn::Absent),
        ("repeater[facing=south]", Conn::Absent),
        ("redstone_lamp", Conn::Absent),
        ("note_block", Conn::Absent),
        ("iron_trapdoor", Conn::Absent),
        ("stone", Conn::Absent),
        ("air", Conn::Absent),
    ] {
        joined(&rt, rt.alloc(), [neighbour, "air", "air", "air"], conn)?;
    }
    Ok(())
}

#[test]
fn joined_up_and_down(rt: HostRuntime) -> Result<(), Fail> {
    let wire = "redstone_wire";
    for (around, conn) in [
        (["stone", "air", wire, "air"], Conn::Up),
        (["glass", "air", wire, "air"], Conn::Up),
        (["stone_slab[type=top]", "air", wire, "air"], Conn::Up),
        (["stone", "stone", wire, "air"], Conn::Absent),
        (
            ["stone", "stone_slab[type=double]", wire, "air"],
            Conn::Absent,
        ),
        (["stone", "glass", wire, "air"], Conn::Up),
        (["stone", "stone_slab[type=top]", wire, "air"], Conn::Up),
        (["stone", "air", "lever", "air"], Conn::Absent),
        (["air", "air", "air", wire], Conn::Side),
        (["glass", "stone", "air", wire], Conn::Side),
        (["stone_slab[type=top]", "air", "air", wire], Conn::Side),
        (["stone", "air", "air", wire], Conn::Absent),
        (
            ["stone_slab[type=double]", "air", "air", wire],
            Conn::Absent,
        ),
        (["air", "air", wire, wire], Conn::Up),
        (["air", "stone", wire, wire], Conn::Side),
        (["lever", "air", wire, "air"], Conn::Side),
    ] {
        joined(&rt, rt.alloc(), around, conn)?;
    }
    Ok(())
}

// Whether a wire points north, west, east and south, by its neighbours there.
fn pointing(
    rt: &impl Abort,
    alloc: Global,
    wire: &str,
    around: [&str; 4],
    points_to: [bool; 4],
) -> Result<(), Fail> {
    let [north, west, east, south] = around;
    let build = build_of(
        rt,
        alloc,
        &[
            (at(1, 1, 1), wire),
            (at(1, 1, 0), north),
            (at(0, 1, 1), west),
            (at(2, 1, 1), east),
            (at(1, 1, 2), south),
        ],
    )?;
    let here = at(1, 1, 1);
    assert!(rt; wire_at(&build, here));
    let found = [
        points(&build, here, Side::North),
        points(&build, here, Side::West),
        points(&build, here, Side::East),
        points(&build, here, Side::South),
    ];
    assert_eq!(rt; found, points_to, "{wire} {around:?}");
    Ok(())
}

#[test]
fn pointing_to_sides(rt: HostRuntime) -> Result<(), Fail> {
    let dot = "redstone_wire";
    let cross = "redstone_wire[north=side,west=side,east=side,south=side]";
    let line = "redstone_wire[south=up]";
    for (wire, around, points_to) in [
        (
            dot,
            ["air", "air", "air", "air"],
            [false, false, false, false],
        ),
        (
            cross,
            ["air", "air", "air", "air"],
            [true, true, true, true],
        ),
        (
            line,
            ["air", "stone", "air", "air"],
            [true, true, true, true],
        ),
        (
            dot,
            ["air", "air", "lever", "air"],
            [false, true, true, false],
        ),
        (
            cross,
            ["air", "air", "lever", "air"],
            [false, true, true, false],
        ),
        (
            dot,
            ["lever", "air", "air", "air"],
            [true, false, false, true],
        ),
        (
            cross,
            ["lever", "air", "lever", "air"],
            [true, false, true, false],
        ),
        (
            cross,
            ["air", "lever", "lever", "air"],
            [false, true, true, false],
        ),
        (
            line,
            ["lever", "lever", "air", "lever"],
            [true, true, false, true],
        ),
        (
            dot,
            ["repeater[facing=south]", "air", "air", "air"],
            [true, false, false, true],
        ),
        (
            dot,
            ["repeater[facing=east]", "air", "air", "air"],
            [false, false, false, false],
        ),
        (
            dot,
            [
                "air",
                "repeater[facing=east]",
                "air",
                "repeater[facing=east]",
            ],
            [false, true, true, false],
        ),
    ] {
        pointing(&rt, rt.alloc(), wire, around, points_to)?;
    }
    Ok(())
}

// The feeders of the wire at a place among these blocks.
fn fed(
    rt: &impl Abort,
    alloc: Global,
    pos: Pos,
    blocks: &[(Pos, &str)],
    places: &[Pos],
) -> Result<(), Fail> {
    let build = build_of(rt, alloc, blocks)?;
    assert!(rt; wire_at(&build, pos));
    let feeders = feeders_of(&build, pos);
    assert_eq!(rt; feeders.len(), places.len(), "{pos:?}");
    for (index, place) in places.iter().enumerate() {
        assert!(rt; index < feeders.len());
        assert_eq!(rt; feeders.get(index), *place, "{pos:?}");
    }
    Ok(())
}

#[test]
fn feeders_by_place(rt: HostRuntime) -> Result<(), Fail> {
    let wire = "redstone_wire";
    let here = at(1, 1, 1);
    // What is straight above or below feeds nothing.
    fed(
        &rt,
        rt.alloc(),
        here,
        &[(here, wire), (at(1, 2, 1), wire), (at(1, 0, 1), wire)],
        &[],
    )?;
    fed(
        &rt,
        rt.alloc(),
        here,
        &[
            (here, wire),
            (at(1, 1, 0), "glass"),
            (at(1, 0, 0), wire),
            (at(0, 0, 1), wire),
            (at(2, 1, 1), wire),
            (at(1, 1, 2), "stone"),
            (at(1, 2, 2), wire),
        ],
        &[at(1, 0, 0), at(0, 0, 1), at(2, 1, 1), at(1, 2, 2)],
    )?;
    fed(
        &rt,
        rt.alloc(),
        here,
        &[
            (here, wire),
            (at(1, 2, 1), "stone"),
            (at(1, 1, 0), "stone"),
            (at(1, 2, 0), wire),
            (at(1, 0, 0), wire),
            (at(0, 1, 1), "glass"),
            (at(0, 2, 1), wire),
        ],
        &[],
    )
}

// Four wires in a square, each fed by its two neighbours.
#[test]
fn feeders_in_a_square(rt: HostRuntime) -> Result<(), Fail> {
    let wire = "redstone_wire";
    let square = [
        (at(1, 1, 0), wire),
        (at(2, 1, 0), wire),
        (at(1, 1, 1), wire),
        (at(2, 1, 1), wire),
    ];
    fed(
        &rt,
        rt.alloc(),
        at(1, 1, 0),
        &square,
        &[at(2, 1, 0), at(1, 1, 1)],
    )?;
    fed(
        &rt,
        rt.alloc(),
        at(2, 1, 1),
        &square,
        &[at(2, 1, 0), at(1, 1, 1)],
    )
}

// Power goes up over glass and doesn't come down.
#[test]
fn feeders_over_glass(rt: HostRuntime) -> Result<(), Fail> {
    let wire = "redstone_wire";
    let step = [
        (at(1, 1, 0), wire),
        (at(2, 1, 0), "glass"),
        (at(2, 2, 0), wire),
        (at(3, 1, 0), "stone"),
    ];
    fed(&rt, rt.alloc(), at(2, 2, 0), &step, &[at(1, 1, 0)])?;
    fed(&rt, rt.alloc(), at(1, 1, 0), &step, &[])
}
