//! Values of the states of all other blocks.

use block_table::{Block, SlabHalf, parse_state};

static OTHER_BLOCKS: [(&str, Block); 46] = [
    ("composter[level=0]", Block::Composter { level: 0 }),
    ("composter[level=1]", Block::Composter { level: 1 }),
    ("composter[level=2]", Block::Composter { level: 2 }),
    ("composter[level=3]", Block::Composter { level: 3 }),
    ("composter[level=4]", Block::Composter { level: 4 }),
    ("composter[level=5]", Block::Composter { level: 5 }),
    ("composter[level=6]", Block::Composter { level: 6 }),
    ("composter[level=7]", Block::Composter { level: 7 }),
    ("composter[level=8]", Block::Composter { level: 8 }),
    ("composter", Block::Composter { level: 0 }),
    (
        "cauldron",
        Block::Cauldron {
            water: false,
            level: 0,
        },
    ),
    (
        "water_cauldron",
        Block::Cauldron {
            water: true,
            level: 1,
        },
    ),
    (
        "cauldron[level=0]",
        Block::Cauldron {
            water: false,
            level: 0,
        },
    ),
    (
        "cauldron[level=1]",
        Block::Cauldron {
            water: false,
            level: 1,
        },
    ),
    (
        "cauldron[level=2]",
        Block::Cauldron {
            water: false,
            level: 2,
        },
    ),
    (
        "cauldron[level=3]",
        Block::Cauldron {
            water: false,
            level: 3,
        },
    ),
    (
        "water_cauldron[level=1]",
        Block::Cauldron {
            water: true,
            level: 1,
        },
    ),
    (
        "water_cauldron[level=2]",
        Block::Cauldron {
            water: true,
            level: 2,
        },
    ),
    (
        "water_cauldron[level=3]",
        Block::Cauldron {
            water: true,
            level: 3,
        },
    ),
    ("cake", Block::Cake { bites: 0 }),
    ("cake[bites=0]", Block::Cake { bites: 0 }),
    ("cake[bites=1]", Block::Cake { bites: 1 }),
    ("cake[bites=2]", Block::Cake { bites: 2 }),
    ("cake[bites=3]", Block::Cake { bites: 3 }),
    ("cake[bites=4]", Block::Cake { bites: 4 }),
    ("cake[bites=5]", Block::Cake { bites: 5 }),
    ("cake[bites=6]", Block::Cake { bites: 6 }),
    (
        "stone_slab[type=top]",
        Block::Slab {
            name: 282,
            half: SlabHalf::Top,
        },
    ),
    (
        "stone_slab[type=bottom]",
        Block::Slab {
            name: 282,
            half: SlabHalf::Bottom,
        },
    ),
    (
        "stone_slab[type=double]",
        Block::Slab {
            name: 282,
            half: SlabHalf::Double,
        },
    ),
    (
        "heavy_weighted_pressure_plate[power=0]",
        Block::Weighted {
            name: 307,
            power: 0,
        },
    ),
    (
        "heavy_weighted_pressure_plate[power=1]",
        Block::Weighted {
            name: 307,
            power: 1,
        },
    ),
    (
        "heavy_weighted_pressure_plate[power=2]",
        Block::Weighted {
            name: 307,
            power: 2,
        },
    ),
    (
        "heavy_weighted_pressure_plate[power=3]",
        Block::Weighted {
            name: 307,
            power: 3,
        },
    ),
    (
        "heavy_weighted_pressure_plate[power=4]",
        Block::Weighted {
            name: 307,
            power: 4,
        },
    ),
    (
        "heavy_weighted_pressure_plate[power=5]",
        Block::Weighted {
            name: 307,
            power: 5,
        },
    ),
    (
        "heavy_weighted_pressure_plate[power=6]",
        Block::Weighted {
            name: 307,
            power: 6,
        },
    ),
    (
        "heavy_weighted_pressure_plate[power=7]",
        Block::Weighted {
            name: 307,
            power: 7,
        },
    ),
    (
        "heavy_weighted_pressure_plate[power=8]",
        Block::Weighted {
            name: 307,
            power: 8,
        },
    ),
    (
        "heavy_weighted_pressure_plate[power=9]",
        Block::Weighted {
            name: 307,
            power: 9,
        },
    ),
    (
        "heavy_weighted_pressure_plate[power=10]",
        Block::Weighted {
            name: 307,
            power: 10,
        },
    ),
    (
        "heavy_weighted_pressure_plate[power=11]",
        Block::Weighted {
            name: 307,
            power: 11,
        },
    ),
    (
        "heavy_weighted_pressure_plate[power=12]",
        Block::Weighted {
            name: 307,
            power: 12,
        },
    ),
    (
        "heavy_weighted_pressure_plate[power=13]",
        Block::Weighted {
            name: 307,
            power: 13,
        },
    ),
    (
        "heavy_weighted_pressure_plate[power=14]",
        Block::Weighted {
            name: 307,
            power: 14,
        },
    ),
    (
        "heavy_weighted_pressure_plate[power=15]",
        Block::Weighted {
            name: 307,
            power: 15,
        },
    ),
];

#[test]
fn values_of_other_blocks(rt: HostRuntime) {
    for (text, block) in &OTHER_BLOCKS {
        assert!(rt; parse_state(text.as_bytes()) == Some(*block), "{text}");
    }
}
