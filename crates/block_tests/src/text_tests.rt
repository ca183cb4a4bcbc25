//! Texts of blocks, and what a block is.

use crate::every_name::NAMES;
use block_table::{Block, Side, SlabHalf, is_solid, opposite, parse_state, push_state, slots};
use std::alloc::Global;
use std::test::Fail;

#[test]
fn each_name_is_written_as_it_is_read(rt: HostRuntime) -> Result<(), Fail> {
    assert!(rt; are_read_back(rt.alloc(), &NAMES)?);
    Ok(())
}

fn are_read_back(alloc: Global, names: &[&str]) -> Result<bool, Fail> {
    for name in names {
        let out = written(alloc, name)?;
        if parse_state(name.as_bytes()) != parse_state(out.as_slice()) {
            return Ok(false);
        }
    }
    Ok(true)
}

fn written(alloc: Global, text: &str) -> Result<Vec<u8>, Fail> {
    let mut out = Vec::new(alloc);
    let block = parse_state(text.as_bytes()).ok_or("no block")?;
    push_state(block, &mut out)?;
    Ok(out)
}

static TEXTS: [(&str, &str); 21] = [
    ("void_air", "minecraft:air"),
    ("stone[a=b]", "minecraft:stone"),
    (
        "redstone_wire[power=7,west=up]",
        "minecraft:redstone_wire[east=none,north=none,south=none,west=up,power=7]",
    ),
    ("redstone_torch", "minecraft:redstone_torch[lit=true]"),
    (
        "redstone_wall_torch[lit=false]",
        "minecraft:redstone_wall_torch[facing=north,lit=false]",
    ),
    (
        "repeater[powered=true,locked=true]",
        "minecraft:repeater[delay=1,facing=north,powered=true]",
    ),
    (
        "comparator[powered=true,mode=subtract]",
        "minecraft:comparator[facing=north,mode=subtract]",
    ),
    (
        "lever[facing=west]",
        "minecraft:lever[face=wall,facing=west,powered=false]",
    ),
    (
        "oak_button[face=ceiling]",
        "minecraft:oak_button[face=ceiling,facing=north,powered=false]",
    ),
    (
        "warped_pressure_plate",
        "minecraft:warped_pressure_plate[powered=false]",
    ),
    ("redstone_block", "minecraft:redstone_block"),
    ("redstone_lamp", "minecraft:redstone_lamp[lit=false]"),
    (
        "iron_trapdoor[open=true,half=top]",
        "minecraft:iron_trapdoor[facing=north,half=top,powered=false]",
    ),
    ("hopper[enabled=true]", "minecraft:hopper"),
    ("composter[level=8]", "minecraft:composter[level=8]"),
    ("cauldron", "minecraft:cauldron[level=0]"),
    ("water_cauldron", "minecraft:water_cauldron[level=1]"),
    ("cake[bites=6]", "minecraft:cake[bites=6]"),
    (
        "quartz_slab[type=double]",
        "minecraft:quartz_slab[type=double]",
    ),
    (
        "light_weighted_pressure_plate[power=10]",
        "minecraft:light_weighted_pressure_plate[power=10]",
    ),
    ("note_block", "minecraft:note_block[powered=false]"),
];

#[test]
fn texts_of_blocks(rt: HostRuntime) -> Result<(), Fail> {
    for (text, wanted) in &TEXTS {
        let out = written(rt.alloc(), text)?;
        assert!(rt; out.as_slice() == wanted.as_bytes(), "{text}");
    }
    Ok(())
}

static SOLID_AND_SLOTS: [(&str, bool, u8); 30] = [
    ("stone", true, 0),
    ("black_glazed_terracotta", true, 0),
    ("warped_planks", true, 0),
    ("glass", false, 0),
    ("white_stained_glass_pane", false, 0),
    ("oak_stairs", false, 0),
    ("stone_slab", false, 0),
    ("stone_slab[type=top]", false, 0),
    ("stone_slab[type=double]", true, 0),
    ("redstone_lamp", true, 0),
    ("note_block", true, 0),
    ("redstone_block", false, 0),
    ("air", false, 0),
    ("redstone_wire", false, 0),
    ("repeater", false, 0),
    ("stone_button", false, 0),
    ("oak_pressure_plate", false, 0),
    ("light_weighted_pressure_plate", false, 0),
    ("iron_trapdoor", false, 0),
    ("cauldron", false, 0),
    ("composter", false, 0),
    ("cake", false, 0),
    ("barrel", true, 27),
    ("dispenser", true, 9),
    ("dropper", true, 9),
    ("furnace", true, 3),
    ("blast_furnace", true, 3),
    ("smoker", true, 3),
    ("chest", false, 27),
    ("hopper", false, 5),
];

#[test]
fn solid_blocks_and_slots(rt: HostRuntime) -> Result<(), Fail> {
    for (text, solid, room) in &SOLID_AND_SLOTS {
        let block = parse_state(text.as_bytes()).ok_or("no block")?;
        assert!(rt; is_solid(block) == *solid, "{text}");
        assert!(rt; slots(block) == *room, "{text}");
    }
    Ok(())
}

#[test]
fn names_that_the_list_lacks(rt: HostRuntime) {
    for name in [86, 308, 65535] {
        let half = SlabHalf::Double;
        for block in [
            Block::Inert { name },
            Block::Slab { name, half },
            Block::Container { name },
        ] {
            assert!(rt; !is_solid(block));
            assert!(rt; slots(block) == 0);
        }
    }
}

#[test]
fn opposite_sides(rt: HostRuntime) {
    let rows = [
        (Side::Down, Side::Up),
        (Side::North, Side::South),
        (Side::West, Side::East),
    ];
    for (side, other) in rows {
        assert!(rt; opposite(side) == other);
        assert!(rt; opposite(other) == side);
    }
}
