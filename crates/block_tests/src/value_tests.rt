//! Values of the states of wires and components.

use block_table::{Block, Face, Side, WireSide, parse_state};

static WIRES: [(&str, Block); 17] = [
    (
        "redstone_wire",
        Block::Wire {
            north: WireSide::Absent,
            east: WireSide::Absent,
            south: WireSide::Absent,
            west: WireSide::Absent,
            power: 0,
        },
    ),
    (
        "redstone_wire[east=side,north=up,south=none,west=side,power=15]",
        Block::Wire {
            north: WireSide::Up,
            east: WireSide::Side,
            south: WireSide::Absent,
            west: WireSide::Side,
            power: 15,
        },
    ),
    (
        "redstone_wire[power=0]",
        Block::Wire {
            north: WireSide::Absent,
            east: WireSide::Absent,
            south: WireSide::Absent,
            west: WireSide::Absent,
            power: 0,
        },
    ),
    (
        "redstone_wire[power=1]",
        Block::Wire {
            north: WireSide::Absent,
            east: WireSide::Absent,
            south: WireSide::Absent,
            west: WireSide::Absent,
            power: 1,
        },
    ),
    (
        "redstone_wire[power=2]",
        Block::Wire {
            north: WireSide::Absent,
            east: WireSide::Absent,
            south: WireSide::Absent,
            west: WireSide::Absent,
            power: 2,
        },
    ),
    (
        "redstone_wire[power=3]",
        Block::Wire {
            north: WireSide::Absent,
            east: WireSide::Absent,
            south: WireSide::Absent,
            west: WireSide::Absent,
            power: 3,
        },
    ),
    (
        "redstone_wire[power=4]",
        Block::Wire {
            north: WireSide::Absent,
            east: WireSide::Absent,
            south: WireSide::Absent,
            west: WireSide::Absent,
            power: 4,
        },
    ),
    (
        "redstone_wire[power=5]",
        Block::Wire {
            north: WireSide::Absent,
            east: WireSide::Absent,
            south: WireSide::Absent,
            west: WireSide::Absent,
            power: 5,
        },
    ),
    (
        "redstone_wire[power=6]",
        Block::Wire {
            north: WireSide::Absent,
            east: WireSide::Absent,
            south: WireSide::Absent,
            west: WireSide::Absent,
            power: 6,
        },
    ),
    (
        "redstone_wire[power=7]",
        Block::Wire {
            north: WireSide::Absent,
            east: WireSide::Absent,
            south: WireSide::Absent,
            west: WireSide::Absent,
            power: 7,
        },
    ),
    (
        "redstone_wire[power=8]",
        Block::Wire {
            north: WireSide::Absent,
            east: WireSide::Absent,
            south: WireSide::Absent,
            west: WireSide::Absent,
            power: 8,
        },
    ),
    (
        "redstone_wire[power=9]",
        Block::Wire {
            north: WireSide::Absent,
            east: WireSide::Absent,
            south: WireSide::Absent,
            west: WireSide::Absent,
            power: 9,
        },
    ),
    (
        "redstone_wire[power=10]",
        Block::Wire {
            north: WireSide::Absent,
            east: WireSide::Absent,
            south: WireSide::Absent,
            west: WireSide::Absent,
            power: 10,
        },
    ),
    (
        "redstone_wire[power=11]",
        Block::Wire {
            north: WireSide::Absent,
            east: WireSide::Absent,
            south: WireSide::Absent,
            west: WireSide::Absent,
            power: 11,
        },
    ),
    (
        "redstone_wire[power=12]",
        Block::Wire {
            north: WireSide::Absent,
            east: WireSide::Absent,
            south: WireSide::Absent,
            west: WireSide::Absent,
            power: 12,
        },
    ),
    (
        "redstone_wire[power=13]",
        Block::Wire {
            north: WireSide::Absent,
            east: WireSide::Absent,
            south: WireSide::Absent,
            west: WireSide::Absent,
            power: 13,
        },
    ),
    (
        "redstone_wire[power=14]",
        Block::Wire {
            north: WireSide::Absent,
            east: WireSide::Absent,
            south: WireSide::Absent,
            west: WireSide::Absent,
            power: 14,
        },
    ),
];

#[test]
fn values_of_wires(rt: HostRuntime) {
    for (text, block) in &WIRES {
        assert!(rt; parse_state(text.as_bytes()) == Some(*block), "{text}");
    }
}

static COMPONENTS: [(&str, Block); 30] = [
    ("redstone_torch", Block::Torch { lit: true }),
    ("redstone_torch[lit=true]", Block::Torch { lit: true }),
    ("redstone_torch[lit=false]", Block::Torch { lit: false }),
    (
        "redstone_wall_torch",
        Block::WallTorch {
            facing: Side::North,
            lit: true,
        },
    ),
    (
        "redstone_wall_torch[facing=north,lit=false]",
        Block::WallTorch {
            facing: Side::North,
            lit: false,
        },
    ),
    (
        "redstone_wall_torch[facing=south,lit=false]",
        Block::WallTorch {
            facing: Side::South,
            lit: false,
        },
    ),
    (
        "redstone_wall_torch[facing=west,lit=false]",
        Block::WallTorch {
            facing: Side::West,
            lit: false,
        },
    ),
    (
        "redstone_wall_torch[facing=east,lit=false]",
        Block::WallTorch {
            facing: Side::East,
            lit: false,
        },
    ),
    (
        "repeater",
        Block::Repeater {
            delay: 1,
            facing: Side::North,
            powered: false,
        },
    ),
    (
        "repeater[delay=1,facing=north,locked=true,powered=true]",
        Block::Repeater {
            delay: 1,
            facing: Side::North,
            powered: true,
        },
    ),
    (
        "repeater[delay=2,facing=south,locked=true,powered=true]",
        Block::Repeater {
            delay: 2,
            facing: Side::South,
            powered: true,
        },
    ),
    (
        "repeater[delay=3,facing=west,locked=true,powered=true]",
        Block::Repeater {
            delay: 3,
            facing: Side::West,
            powered: true,
        },
    ),
    (
        "repeater[delay=4,facing=east,locked=true,powered=true]",
        Block::Repeater {
            delay: 4,
            facing: Side::East,
            powered: true,
        },
    ),
    (
        "repeater[locked=false,powered=false]",
        Block::Repeater {
            delay: 1,
            facing: Side::North,
            powered: false,
        },
    ),
    (
        "comparator",
        Block::Comparator {
            facing: Side::North,
            subtract: false,
        },
    ),
    (
        "comparator[mode=compare,powered=true]",
        Block::Comparator {
            facing: Side::North,
            subtract: false,
        },
    ),
    (
        "comparator[facing=west,mode=subtract,powered=false]",
        Block::Comparator {
            facing: Side::West,
            subtract: true,
        },
    ),
    (
        "lever",
        Block::Lever {
            face: Face::Wall,
            facing: Side::North,
            powered: false,
        },
    ),
    (
        "lever[face=wall]",
        Block::Lever {
            face: Face::Wall,
            facing: Side::North,
            powered: false,
        },
    ),
    (
        "lever[face=floor,facing=south,powered=true]",
        Block::Lever {
            face: Face::Floor,
            facing: Side::South,
            powered: true,
        },
    ),
    (
        "lever[powered=false,facing=east,face=ceiling]",
        Block::Lever {
            face: Face::Ceiling,
            facing: Side::East,
            powered: false,
        },
    ),
    (
        "oak_button[face=floor,facing=west,powered=true]",
        Block::Button {
            name: 298,
            face: Face::Floor,
            facing: Side::West,
            powered: true,
        },
    ),
    (
        "stone_pressure_plate[powered=true]",
        Block::Plate {
            name: 11,
            powered: true,
        },
    ),
    ("redstone_lamp", Block::Lamp { lit: false }),
    ("redstone_lamp[lit=true]", Block::Lamp { lit: true }),
    (
        "iron_trapdoor",
        Block::Trapdoor {
            facing: Side::North,
            top: false,
            powered: false,
        },
    ),
    (
        "iron_trapdoor[facing=east,half=top,open=true,powered=true,waterlogged=true]",
        Block::Trapdoor {
            facing: Side::East,
            top: true,
            powered: true,
        },
    ),
    (
        "iron_trapdoor[half=bottom,open=false,powered=false,waterlogged=false]",
        Block::Trapdoor {
            facing: Side::North,
            top: false,
            powered: false,
        },
    ),
    ("note_block", Block::Note { powered: false }),
    (
        "note_block[powered=true,note=24]",
        Block::Note { powered: true },
    ),
];

#[test]
fn values_of_components(rt: HostRuntime) {
    for (text, block) in &COMPONENTS {
        assert!(rt; parse_state(text.as_bytes()) == Some(*block), "{text}");
    }
}
