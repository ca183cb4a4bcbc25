//! Files of builds that are made here tag by tag, and what reading them gives.

use build::{Build, Pos};
use schematic::{BuildRefusal, read_build};
use std::alloc::Global;
use std::test::Fail;

pub(crate) const EMPTY_BOX: &[u8] =
    b"\x0a\x00\x09Schematic\x03\x00\x07Version\x00\x00\x00\x02\x02\x00\x05Width\x00\x00\x02\x00\x06Height\x00\x00\x02\x00\x06Length\x00\x00\x0a\x00\x07Palette\x00\x07\x00\x09BlockData\x00\x00\x00\x00\x00";

pub(crate) const EMPTY_BOX_LAYOUT_3: &[u8] =
    b"\x0a\x00\x00\x0a\x00\x09Schematic\x03\x00\x07Version\x00\x00\x00\x03\x02\x00\x05Width\x00\x00\x02\x00\x06Height\x00\x00\x02\x00\x06Length\x00\x00\x0a\x00\x06Blocks\x0a\x00\x07Palette\x00\x07\x00\x04Data\x00\x00\x00\x00\x00\x00\x00";

pub(crate) const LEVER: &str = "minecraft:lever[face=wall,facing=west]";

pub(crate) const LAMP: &str = "minecraft:redstone_lamp";

pub(crate) const COMPARATOR: &str = "minecraft:comparator[facing=west]";

/// A tree as it is spelled: its type and its payload.
#[derive(Drop)]
pub(crate) struct Spelling {
    kind: u8,
    payload: Vec<u8>,
}

/// The fields of a compound as they are spelled.
pub(crate) type Spelled = Vec<u8>;

pub(crate) fn tag(alloc: Global, kind: u8, payload: &[u8]) -> Result<Spelling, Fail> {
    let payload = Vec::from_slice(alloc, payload)?;
    Ok(Spelling { kind, payload })
}

pub(crate) fn byte(alloc: Global, number: i8) -> Result<Spelling, Fail> {
    tag(alloc, 1, &number.to_be_bytes())
}

pub(crate) fn short(alloc: Global, number: i16) -> Result<Spelling, Fail> {
    tag(alloc, 2, &number.to_be_bytes())
}

pub(crate) fn int(alloc: Global, number: i32) -> Result<Spelling, Fail> {
    tag(alloc, 3, &number.to_be_bytes())
}

pub(crate) fn count(number: usize) -> [u8; 4] {
    (number.min(65_535) as u32).to_be_bytes()
}

pub(crate) fn bytes(alloc: Global, items: &[u8]) -> Result<Spelling, Fail> {
    let mut payload = Vec::from_slice(alloc, &count(items.len()))?;
    payload.extend_from_slice(items)?;
    Ok(Spelling { kind: 7, payload })
}

pub(crate) fn ints(alloc: Global, numbers: &[i32]) -> Result<Spelling, Fail> {
    let mut payload = Vec::from_slice(alloc, &count(numbers.len()))?;
    for number in numbers {
        payload.extend_from_slice(&number.to_be_bytes())?;
    }
    Ok(Spelling { kind: 11, payload })
}

pub(crate) fn compound(fields: Spelled) -> Result<Spelling, Fail> {
    let mut payload = fields;
    payload.push(0)?;
    Ok(Spelling { kind: 10, payload })
}

/// A list of compounds.
pub(crate) fn list_of(alloc: Global, compounds: &[Spelled]) -> Result<Spelling, Fail> {
    let mut payload = Vec::from_slice(alloc, &[10])?;
    payload.extend_from_slice(&count(compounds.len()))?;
    for fields in compounds {
        payload.extend_from_slice(fields)?;
        payload.push(0)?;
    }
    Ok(Spelling { kind: 9, payload })
}

pub(crate) fn put_text(out: &mut Vec<u8>, text: &str) -> Result<(), Fail> {
    let length = text.len().min(65_535) as u16;
    out.extend_from_slice(&length.to_be_bytes())?;
    out.extend_from_slice(text.as_bytes())?;
    Ok(())
}

pub(crate) fn put(fields: &mut Spelled, name: &str, tag: Spelling) -> Result<(), Fail> {
    fields.push(tag.kind)?;
    put_text(fields, name)?;
    fields.extend_from_slice(&tag.payload)?;
    Ok(())
}

pub(crate) fn file_of(alloc: Global, fields: Spelled) -> Result<Vec<u8>, Fail> {
    let mut bytes = Vec::from_slice(alloc, &[10])?;
    put_text(&mut bytes, "Schematic")?;
    bytes.extend_from_slice(&fields)?;
    bytes.push(0)?;
    Ok(bytes)
}

/// The palette of these texts, from 0 on.
pub(crate) fn palette(alloc: Global, texts: &[&str]) -> Result<Spelling, Fail> {
    let mut fields = Vec::new(alloc);
    let mut number = 0;
    for text in texts {
        put(&mut fields, text, int(alloc, number)?)?;
        number = number.wrapping_add(1);
    }
    compound(fields)
}

/// The fields that must be there in layout 2, but for one.
pub(crate) fn fields_without(
    alloc: Global,
    left: &str,
    size: [i16; 3],
    palette: Spelling,
    cells: &[u8],
) -> Result<Spelled, Fail> {
    let mut fields = Vec::new(alloc);
    let all = [
        ("Version", int(alloc, 2)?),
        ("Width", short(alloc, size[0])?),
        ("Height", short(alloc, size[1])?),
        ("Length", short(alloc, size[2])?),
        ("Palette", palette),
        ("BlockData", bytes(alloc, cells)?),
    ];
    for (name, tag) in all {
        if name != left {
            put(&mut fields, name, tag)?;
        }
    }
    Ok(fields)
}

pub(crate) fn fields_of(
    alloc: Global,
    size: [i16; 3],
    palette: Spelling,
    cells: &[u8],
) -> Result<Spelled, Fail> {
    fields_without(alloc, "", size, palette, cells)
}

/// A row of blocks from west to east, each of another kind.
pub(crate) fn row_of(alloc: Global, texts: &[&str]) -> Result<Spelled, Fail> {
    let mut cells = Vec::new(alloc);
    for number in 0..texts.len() {
        cells.push(number.min(127) as u8)?;
    }
    let size = [texts.len().min(127) as i16, 1, 1];
    fields_of(alloc, size, palette(alloc, texts)?, &cells)
}

pub(crate) fn pos(x: i32) -> Pos {
    Pos { x, y: 0, z: 0 }
}

/// What the bytes are refused for, and nothing where they are accepted.
pub(crate) fn refused(alloc: Global, bytes: &[u8]) -> Option<BuildRefusal> {
    read_build(alloc, bytes).err()
}

pub(crate) fn refused_fields(alloc: Global, fields: Spelled) -> Result<Option<BuildRefusal>, Fail> {
    Ok(refused(alloc, &file_of(alloc, fields)?))
}

pub(crate) fn accepted(alloc: Global, bytes: &[u8]) -> Result<Build, Fail> {
    read_build(alloc, bytes).map_err(|_| Fail::from("refused"))
}

pub(crate) fn accepted_fields(alloc: Global, fields: Spelled) -> Result<Build, Fail> {
    accepted(alloc, &file_of(alloc, fields)?)
}
