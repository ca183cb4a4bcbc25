//! Texts of states, and numbers of names.

use block_table::{Block, Face, Side, SlabHalf, parse_state};

#[test]
fn repeater_state_with_repeated_key(rt: HostRuntime) {
    let block = Block::Repeater {
        delay: 4,
        facing: Side::North,
        powered: false,
    };
    let text = "repeater[locked=true,delay=3,delay=4]";
    assert!(rt; parse_state(text.as_bytes()) == Some(block));
}

static OUTSIDE: [&str; 42] = [
    "repeater[delay=0]",
    "repeater[delay=5]",
    "repeater[delay=01]",
    "repeater[facing=up]",
    "repeater[locked=maybe]",
    "repeater[locked=maybe,locked=true]",
    "comparator[powered=x]",
    "redstone_wire[east=down]",
    "redstone_wire[power=16]",
    "composter[level=9]",
    "cauldron[level=4]",
    "water_cauldron[level=0]",
    "water_cauldron[level=4]",
    "cake[bites=7]",
    "stone_slab[type=left]",
    "iron_trapdoor[open=x]",
    "iron_trapdoor[waterlogged=x]",
    "iron_trapdoor[half=double]",
    "light_weighted_pressure_plate[power=16]",
    "note_block[powered=1]",
    "lever[powered=maybe,powered=true]",
    "stone[",
    "stone]",
    "stone[]]",
    "stone[[]",
    "stone[lit]",
    "stone[lit=]",
    "stone[=x]",
    "stone[a=b=c]",
    "stone[a=b,]",
    "stone[,]",
    "Stone",
    "minecraft:",
    "minecraft:minecraft:stone",
    "target",
    "observer[facing=up]",
    "minecraft:target",
    "piston",
    "note_blocks",
    "",
    "stone[] ",
    " stone",
];

#[test]
fn states_outside_the_table(rt: HostRuntime) {
    for text in &OUTSIDE {
        assert!(rt; parse_state(text.as_bytes()).is_none(), "{text}");
    }
}

#[test]
fn stone_with_odd_properties(rt: HostRuntime) {
    let stone = Block::Inert { name: 36 };
    for text in [
        "minecraft:stone[]",
        "stone[lit=true]",
        "stone[lit=true,lit=x]",
    ] {
        assert!(rt; parse_state(text.as_bytes()) == Some(stone), "{text}");
    }
}

static NUMBERS: [(&str, Block); 35] = [
    ("minecraft:stone", Block::Inert { name: 36 }),
    ("stone", Block::Inert { name: 36 }),
    ("granite", Block::Inert { name: 37 }),
    ("polished_blackstone", Block::Inert { name: 85 }),
    ("terracotta", Block::Inert { name: 87 }),
    ("oak_planks", Block::Inert { name: 88 }),
    ("warped_planks", Block::Inert { name: 95 }),
    ("dark_oak_log", Block::Inert { name: 101 }),
    ("white_wool", Block::Inert { name: 102 }),
    ("black_glazed_terracotta", Block::Inert { name: 181 }),
    ("glass", Block::Inert { name: 182 }),
    ("glass_pane", Block::Inert { name: 183 }),
    ("white_stained_glass", Block::Inert { name: 184 }),
    ("torch", Block::Inert { name: 241 }),
    ("quartz_stairs", Block::Inert { name: 281 }),
    ("air", Block::Air),
    ("minecraft:cave_air", Block::Air),
    ("void_air", Block::Air),
    ("redstone_block", Block::RedstoneBlock),
    ("barrel", Block::Container { name: 24 }),
    ("smoker", Block::Container { name: 29 }),
    ("chest", Block::Container { name: 30 }),
    ("minecraft:hopper", Block::Container { name: 31 }),
    (
        "stone_slab",
        Block::Slab {
            name: 282,
            half: SlabHalf::Bottom,
        },
    ),
    (
        "warped_slab",
        Block::Slab {
            name: 297,
            half: SlabHalf::Bottom,
        },
    ),
    (
        "stone_button",
        Block::Button {
            name: 9,
            face: Face::Wall,
            facing: Side::North,
            powered: false,
        },
    ),
    (
        "polished_blackstone_button",
        Block::Button {
            name: 10,
            face: Face::Wall,
            facing: Side::North,
            powered: false,
        },
    ),
    (
        "oak_button",
        Block::Button {
            name: 298,
            face: Face::Wall,
            facing: Side::North,
            powered: false,
        },
    ),
    (
        "warped_button",
        Block::Button {
            name: 305,
            face: Face::Wall,
            facing: Side::North,
            powered: false,
        },
    ),
    (
        "stone_pressure_plate",
        Block::Plate {
            name: 11,
            powered: false,
        },
    ),
    (
        "polished_blackstone_pressure_plate",
        Block::Plate {
            name: 12,
            powered: false,
        },
    ),
    (
        "oak_pressure_plate",
        Block::Plate {
            name: 13,
            powered: false,
        },
    ),
    (
        "warped_pressure_plate",
        Block::Plate {
            name: 20,
            powered: false,
        },
    ),
    (
        "light_weighted_pressure_plate",
        Block::Weighted {
            name: 306,
            power: 0,
        },
    ),
    (
        "heavy_weighted_pressure_plate",
        Block::Weighted {
            name: 307,
            power: 0,
        },
    ),
];

#[test]
fn numbers_of_names(rt: HostRuntime) {
    for (text, block) in &NUMBERS {
        assert!(rt; parse_state(text.as_bytes()) == Some(*block), "{text}");
    }
}
