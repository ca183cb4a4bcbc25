//! What containers and comparators hold by their block entities.

use crate::spelling::{
    COMPARATOR, Spelled, Spelling, accepted, accepted_fields, byte, compound, count, fields_of,
    file_of, int, ints, list_of, palette, pos, put, put_text, refused, row_of, short, tag,
};
use block_table::{Block, Face, Side};
use build::Pos;
use schematic::BuildRefusal;
use std::alloc::Global;
use std::test::Fail;

/// A block entity at the first cell, with one further field.
fn entity(alloc: Global, name: &str, tree: Spelling) -> Result<Spelled, Fail> {
    let mut fields = Vec::new(alloc);
    put(&mut fields, "Pos", ints(alloc, &[0, 0, 0])?)?;
    put(&mut fields, name, tree)?;
    Ok(fields)
}

/// A row of one block and these block entities.
fn with_entities(alloc: Global, text: &str, entities: Spelling) -> Result<Vec<u8>, Fail> {
    let mut fields = row_of(alloc, &[text])?;
    put(&mut fields, "BlockEntities", entities)?;
    file_of(alloc, fields)
}

/// An item of stone.
fn stone(alloc: Global, count: Spelling) -> Result<Spelled, Fail> {
    let mut item = Vec::new(alloc);
    let mut id = Vec::new(alloc);
    put_text(&mut id, "minecraft:stone")?;
    put(&mut item, "id", tag(alloc, 8, &id)?)?;
    put(&mut item, "Count", count)?;
    Ok(item)
}

/// A barrel's entity with so many stacks.
fn barrel(alloc: Global, stacks: usize, count: i8) -> Result<Spelled, Fail> {
    let mut items = Vec::new(alloc);
    for _ in 0..stacks {
        items.push(stone(alloc, byte(alloc, count)?)?)?;
    }
    entity(alloc, "Items", list_of(alloc, &items)?)
}

#[test]
fn strengths_of_containers(rt: HostRuntime) -> Result<(), Fail> {
    let alloc = rt.alloc();
    let rows = [(1, 1, 1), (27, 64, 15), (0, 1, 0), (1, -1, 0)];
    for (stacks, count, strength) in rows {
        let entities = list_of(alloc, &[barrel(alloc, stacks, count)?])?;
        let build = accepted(alloc, &with_entities(alloc, "barrel", entities)?)?;
        assert!(rt;
            build.strength(pos(0)) == Some(strength),
            "{stacks} {count}"
        );
    }
    // Of two at one place the last counts.
    let both = vec![in alloc; barrel(alloc, 27, 64)?, barrel(alloc, 1, 1)?]?;
    let build = accepted(
        alloc,
        &with_entities(alloc, "barrel", list_of(alloc, &both)?)?,
    )?;
    assert!(rt; build.strength(pos(0)) == Some(1));
    Ok(())
}

#[test]
fn block_entity_without_a_place(rt: HostRuntime) -> Result<(), Fail> {
    let alloc = rt.alloc();
    let items = list_of(alloc, &[stone(alloc, short(alloc, 1)?)?])?;
    let placed = entity(alloc, "Items", items)?;
    let entities = list_of(alloc, &[Vec::new(alloc), placed])?;
    let build = accepted(alloc, &with_entities(alloc, "barrel", entities)?)?;
    assert!(rt; build.strength(pos(0)) == Some(1));
    Ok(())
}

#[test]
fn block_entities_of_another_kind(rt: HostRuntime) -> Result<(), Fail> {
    let alloc = rt.alloc();
    let build = accepted(alloc, &with_entities(alloc, "barrel", int(alloc, 1)?)?)?;
    assert!(rt; build.strength(pos(0)) == Some(0));
    Ok(())
}

#[test]
fn output_signals(rt: HostRuntime) -> Result<(), Fail> {
    let alloc = rt.alloc();
    let wrong = entity(alloc, "OutputSignal", int(alloc, 16)?)?;
    let entities = list_of(alloc, &[wrong])?;
    let told = match refused(alloc, &with_entities(alloc, COMPARATOR, entities)?) {
        Some(BuildRefusal::Signal { pos: place }) => place == pos(0),
        _ => false,
    };
    assert!(rt; told);
    for (tree, output) in [(int(alloc, 7)?, 7), (byte(alloc, 7)?, 0)] {
        let one = entity(alloc, "OutputSignal", tree)?;
        let entities = list_of(alloc, &[one])?;
        let build = accepted(alloc, &with_entities(alloc, COMPARATOR, entities)?)?;
        assert!(rt; build.output(pos(0)) == output);
    }
    // One that doesn't count isn't looked at.
    let first = entity(alloc, "OutputSignal", int(alloc, 16)?)?;
    let last = entity(alloc, "Id", int(alloc, 0)?)?;
    let entities = list_of(alloc, &[first, last])?;
    let build = accepted(alloc, &with_entities(alloc, COMPARATOR, entities)?)?;
    assert!(rt; build.output(pos(0)) == 0);
    Ok(())
}

/// The file of an AND gate as a selection tool writes it, with all its optional fields.
#[test]
fn and_gate_from_a_user(rt: HostRuntime) -> Result<(), Fail> {
    let alloc = rt.alloc();
    let texts = [
        "minecraft:air",
        "minecraft:lever[face=wall,facing=north,powered=false]",
        "minecraft:white_concrete",
        "minecraft:redstone_wall_torch[facing=south,lit=false]",
        "minecraft:redstone_lamp[lit=false]",
        "minecraft:redstone_torch[lit=true]",
        "minecraft:redstone_wire[east=side,north=none,power=15,south=none,west=side]",
    ];
    let cells = [
        1, 0, 1, 2, 2, 2, 0, 3, 0, 0, 4, 0, 0, 0, 0, 5, 6, 5, 0, 0, 0, 0, 0, 0,
    ];
    let mut fields = fields_of(alloc, [3, 2, 4], palette(alloc, &texts)?, &cells)?;
    put(&mut fields, "DataVersion", int(alloc, 2586)?)?;
    let mut metadata = Vec::new(alloc);
    for name in ["WEOffsetX", "WEOffsetY", "WEOffsetZ"] {
        put(&mut metadata, name, int(alloc, -1)?)?;
    }
    put(&mut fields, "Metadata", compound(metadata)?)?;
    put(&mut fields, "Offset", ints(alloc, &[0, 64, 0])?)?;
    put(&mut fields, "PaletteMax", int(alloc, 7)?)?;
    put(
        &mut fields,
        "BlockEntities",
        tag(alloc, 9, &[0, 0, 0, 0, 0])?,
    )?;
    let build = accepted_fields(alloc, fields)?;
    assert!(rt; build.data_version() == 2586);
    let lever = Block::Lever {
        face: Face::Wall,
        facing: Side::North,
        powered: false,
    };
    assert!(rt; build.at(Pos { x: 2, y: 0, z: 0 }) == lever);
    assert!(rt; build.at(Pos { x: 1, y: 0, z: 3 }) == Block::Lamp { lit: false });
    assert!(rt; build.at(Pos { x: 2, y: 1, z: 1 }) == Block::Torch { lit: true });
    Ok(())
}
