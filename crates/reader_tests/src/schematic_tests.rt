//! The worked rows on files, over roots that are made here and written by `nbt`.

use crate::spelling::{
    EMPTY_BOX, EMPTY_BOX_LAYOUT_3, LAMP, LEVER, Spelling, accepted, byte, bytes, compound,
    fields_of, fields_without, int, ints, palette, put, refused, refused_fields, row_of, tag,
};
use block_table::Block;
use nbt::NbtKind;
use schematic::{BuildRefusal, FieldName};
use std::alloc::Global;
use std::test::Fail;

#[test]
fn empty_box(rt: HostRuntime) -> Result<(), Fail> {
    for file in [EMPTY_BOX, EMPTY_BOX_LAYOUT_3] {
        let build = accepted(rt.alloc(), file)?;
        assert!(rt; build.cells() == 0 && build.data_version() == 0);
    }
    Ok(())
}

#[test]
fn compressed_cut_and_trailing(rt: HostRuntime) -> Result<(), Fail> {
    let alloc = rt.alloc();
    assert!(rt;
        matches!(
            refused(alloc, b"\x1f\x8b\x08"),
            Some(BuildRefusal::Compressed)
        )
    );
    let mut longer = Vec::from_slice(alloc, EMPTY_BOX)?;
    longer.push(0)?;
    assert!(rt;
        matches!(
            refused(alloc, &longer),
            Some(BuildRefusal::Nbt {
                place: 86,
                kind: NbtKind::Trailing
            })
        )
    );
    for length in [0, 1, 85] {
        let place = length as u64;
        let told = match refused(alloc, &EMPTY_BOX[..length]) {
            Some(
                BuildRefusal::Nbt {
                    place: found,
                    kind: NbtKind::Truncated,
                },
            ) => found == place,
            _ => false,
        };
        assert!(rt; told, "{length}");
    }
    Ok(())
}

#[test]
fn unknown_block(rt: HostRuntime) -> Result<(), Fail> {
    let alloc = rt.alloc();
    let texts = [
        LEVER,
        "minecraft:stone",
        LAMP,
        "minecraft:observer[facing=up]",
    ];
    let fields = fields_of(alloc, [3, 1, 1], palette(alloc, &texts)?, &[0, 1, 2])?;
    let told = match refused_fields(alloc, fields)? {
        Some(BuildRefusal::Block { name }) => name.items.as_slice()
            == "minecraft:observer[facing=up]".as_bytes(),
        _ => false,
    };
    assert!(rt; told);
    Ok(())
}

#[test]
fn block_data(rt: HostRuntime) -> Result<(), Fail> {
    let alloc = rt.alloc();
    let rows: [(&[u8], Option<u64>); 9] = [
        (b"\x80\x00\x00", None),
        (b"\x00", Some(1)),
        (b"\x00\x80", Some(1)),
        (b"\x00\x05", Some(1)),
        (b"\x00\x00\x00", Some(2)),
        (b"\x80\x80\x80\x80\x80\x00", Some(0)),
        (b"\x00\x80\x80\x80\x80\x00", None),
        (b"\x00\x80\x80\x80\x80\x10", Some(1)),
        (b"", Some(0)),
    ];
    for (cells, place) in rows {
        let fields = fields_of(alloc, [2, 1, 1], palette(alloc, &["minecraft:air"])?, cells)?;
        let told = match refused_fields(alloc, fields)? {
            None => None,
            Some(BuildRefusal::Data { place }) => Some(place),
            Some(_) => Some(u64::MAX),
        };
        assert!(rt; told == place, "{cells:?}");
    }
    Ok(())
}

/// One cell, with a palette of these names and numbers.
fn one_cell(
    alloc: Global,
    entries: &[(&str, i32)],
    cells: &[u8],
) -> Result<Option<BuildRefusal>, Fail> {
    let mut fields = Vec::new(alloc);
    for (name, number) in entries {
        put(&mut fields, name, int(alloc, *number)?)?;
    }
    let palette = compound(fields)?;
    refused_fields(alloc, fields_of(alloc, [1, 1, 1], palette, cells)?)
}

#[test]
fn palette_numbers_and_names(rt: HostRuntime) -> Result<(), Fail> {
    let alloc = rt.alloc();
    let clash = one_cell(alloc, &[("air", 0), ("stone", 0)], &[0])?;
    assert!(rt; matches!(clash, Some(BuildRefusal::PaletteClash)));
    let twice = [("air", 0), ("air", 1)];
    assert!(rt;
        matches!(
            one_cell(alloc, &twice, &[0])?,
            Some(BuildRefusal::Data { place: 0 })
        )
    );
    assert!(rt; one_cell(alloc, &twice, &[1])?.is_none());
    let below = one_cell(alloc, &[("air", -1)], &[0xff, 0xff, 0xff, 0xff, 0x0f])?;
    assert!(rt; matches!(below, Some(BuildRefusal::Data { place: 0 })));
    Ok(())
}

/// The fields of an empty box without one of them, or with another tree in its place.
fn changed(alloc: Global, name: &str, tag: Option<Spelling>) -> Result<Option<BuildRefusal>, Fail> {
    let empty = compound(Vec::new(alloc))?;
    let mut fields = fields_without(alloc, name, [0, 0, 0], empty, &[])?;
    if let Some(tag) = tag {
        put(&mut fields, name, tag)?;
    }
    refused_fields(alloc, fields)
}

#[test]
fn missing_fields_and_wrong_kinds(rt: HostRuntime) -> Result<(), Fail> {
    let alloc = rt.alloc();
    let names = [
        ("Version", FieldName::Version),
        ("Width", FieldName::Width),
        ("Height", FieldName::Height),
        ("Length", FieldName::Length),
        ("Palette", FieldName::Palette),
        ("BlockData", FieldName::BlockData),
    ];
    for (name, field) in names {
        let missing = match changed(alloc, name, None)? {
            Some(BuildRefusal::Missing { field: found }) => found == field,
            _ => false,
        };
        assert!(rt; missing, "{name}");
        let wrong = match changed(alloc, name, Some(byte(alloc, 2)?))? {
            Some(BuildRefusal::WrongKind { field: found }) => found == field,
            _ => false,
        };
        assert!(rt; wrong, "{name}");
    }
    let version = changed(alloc, "Version", Some(int(alloc, 3)?))?;
    assert!(rt; matches!(version, Some(BuildRefusal::Version)));
    let metadata = changed(alloc, "Metadata", Some(int(alloc, 3)?))?;
    assert!(rt;
        matches!(
            metadata,
            Some(BuildRefusal::WrongKind {
                field: FieldName::Metadata
            })
        )
    );
    let mut beside = fields_of(alloc, [0, 0, 0], compound(Vec::new(alloc))?, &[])?;
    put(&mut beside, "Schematic", int(alloc, 0)?)?;
    assert!(rt; refused_fields(alloc, beside)?.is_none());
    let mut alone = Vec::new(alloc);
    put(&mut alone, "Schematic", int(alloc, 0)?)?;
    assert!(rt;
        matches!(
            refused_fields(alloc, alone)?,
            Some(BuildRefusal::WrongKind {
                field: FieldName::Schematic
            })
        )
    );
    Ok(())
}

/// The bytes with one place changed.
fn edited(alloc: Global, bytes: &[u8], place: usize, byte: u8) -> Result<Vec<u8>, Fail> {
    let mut copy = Vec::from_slice(alloc, bytes)?;
    if let Some(found) = copy.get_mut(place) {
        *found = byte;
    }
    Ok(copy)
}

#[test]
fn layout_3_refusals(rt: HostRuntime) -> Result<(), Fail> {
    let alloc = rt.alloc();
    let version = edited(alloc, EMPTY_BOX_LAYOUT_3, 28, 2)?;
    assert!(rt; matches!(refused(alloc, &version), Some(BuildRefusal::Version)));
    let data = edited(alloc, EMPTY_BOX_LAYOUT_3, 84, b'd')?;
    assert!(rt;
        matches!(
            refused(alloc, &data),
            Some(BuildRefusal::Missing {
                field: FieldName::Data
            })
        )
    );
    Ok(())
}

#[test]
fn too_many_cells(rt: HostRuntime) -> Result<(), Fail> {
    let alloc = rt.alloc();
    let empty = compound(Vec::new(alloc))?;
    let fields = fields_of(alloc, [-1, 256, 2], empty, &[])?;
    assert!(rt; matches!(refused_fields(alloc, fields)?, Some(BuildRefusal::Volume)));
    Ok(())
}

#[test]
fn pending_ticks_in_a_file(rt: HostRuntime) -> Result<(), Fail> {
    let alloc = rt.alloc();
    let rows: [(&[i32], Option<u32>); 7] = [
        (&[0, 0, 0, 1, 3], Some(0)),
        (&[2, 0, 0, 16, 3], Some(0)),
        (&[2, 0, 0, 0, 3], Some(0)),
        (&[2, 0, 0, 1, 4], Some(0)),
        (&[2, 0, 0, 1, 3], None),
        (&[2, 0, 0, 1, 3, 2, 0, 0, 2, 3], Some(1)),
        (&[2, 0, 0, 1, 3, 2], Some(1)),
    ];
    for (numbers, group) in rows {
        let mut metadata = Vec::new(alloc);
        put(&mut metadata, "RedpilePending", ints(alloc, numbers)?)?;
        let mut fields = row_of(alloc, &[LEVER, "minecraft:stone", LAMP])?;
        put(&mut fields, "Metadata", compound(metadata)?)?;
        let told = match refused_fields(alloc, fields)? {
            None => None,
            Some(BuildRefusal::Pending { group }) => Some(group),
            Some(_) => Some(u32::MAX),
        };
        assert!(rt; told == group, "{numbers:?}");
    }
    Ok(())
}
