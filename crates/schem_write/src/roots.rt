//! The roots of files, and their bytes.

ghost use Rattle.std.specs.Prelude.{◌≡◌, ◌++◌, IfOk, OnOk, FitsSigned};
ghost use Rattle.std.specs.Int.{w32};
ghost use Rattle.std.specs.List.{flat_map};
ghost use Rattle.nbt.specs.Spelling.{spelling, CanBeSpelled};
ghost use Rattle.build.specs.Plan.{IsWhole};
ghost use Rattle.schematic.specs.File.{file};
ghost use Rattle.schem_write.specs.Written.{head, body, metadata, tick_numbers, root_with, written, written3};
ghost use Rattle.schem_write.specs.Code.{plain_pairs};

use crate::Layout;
use crate::entities::entities_of;
use crate::fields::{push, push_int, push_size, raw};
use crate::palette::{numbered, palette_and_cells};
use build::{Build, Pending, Pos};
use nbt::{Fields, IntList, Root, Tree, write};
use rp_text::{NoMemory, Raw};
use std::alloc::Global;

/// Adds what stands first in the main compound.
fn push_head(fields: &mut Fields, version: i32, build: &Build) -> Result<(), NoMemory>
    ensures fields { OnOk result (plain_pairs fields.new.items ≡ plain_pairs fields.old.items ++ head version build.now) }
    ensures fits { OnOk result (FitsSigned w32 build.now.data_version) }
{
    push_int(fields, b"Version", version)?;
    push_int(fields, b"DataVersion", build.data_version())?;
    push_size(fields, b"Width", build.width())?;
    push_size(fields, b"Height", build.height())?;
    push_size(fields, b"Length", build.length())?;
    Ok(())
}

/// Adds the palette, the cells and the block entities.
fn push_body(
    fields: &mut Fields,
    layout: Layout,
    cells_name: &[u8],
    build: &Build,
) -> Result<(), NoMemory>
    ensures fields { OnOk result (plain_pairs fields.new.items ≡ plain_pairs fields.old.items ++ body layout cells_name.now build.now) }
    ensures whole { OnOk result (IsWhole build.now) }
{
    let alloc = *fields.allocator();
    let (palette, items) = palette_and_cells(alloc, build)?;
    push(
        fields,
        b"Palette",
        Tree::Compound(numbered(alloc, palette.as_slice())?),
    )?;
    push(fields, cells_name, Tree::Bytes(Raw { items }))?;
    push(fields, b"BlockEntities", entities_of(alloc, layout, build)?)?;
    Ok(())
}

/// A pending tick as five numbers.
fn tick_numbers(tick: &Pending) -> [i32; 5]
    ensures { result ≡ tick_numbers tick.now }
{
    let Pos { x, y, z } = tick.pos;
    [x, y, z, i32::from(tick.due), i32::from(tick.priority)]
}

/// Pending ticks, five numbers each.
fn all_tick_numbers(alloc: Global, ticks: &[Pending]) -> Result<IntList, NoMemory>
    ensures { IfOk result (λ numbers. numbers.items.items ≡ flat_map tick_numbers ticks.now) }
{
    let mut items = Vec::new(alloc);
    for tick in ticks {
        items.extend_from_slice(&tick_numbers(tick))?;
    }
    Ok(IntList { items })
}

/// Adds the pending ticks, where there are any.
fn push_metadata(fields: &mut Fields, ticks: &[Pending]) -> Result<(), NoMemory>
    ensures { OnOk result (plain_pairs fields.new.items ≡ plain_pairs fields.old.items ++ metadata ticks.now) }
{
    if ticks.is_empty() {
        return Ok(());
    }
    let alloc = *fields.allocator();
    let mut metadata = Vec::new(alloc);
    push(
        &mut metadata,
        b"RedpilePending",
        Tree::Ints(all_tick_numbers(alloc, ticks)?),
    )?;
    push(fields, b"Metadata", Tree::Compound(metadata))
}

/// The bytes of a root.
fn spelled(alloc: Global, name: &[u8], fields: Fields) -> Result<Vec<u8>, NoMemory>
    requires { CanBeSpelled (root_with name.now (plain_pairs fields.items)) }
    ensures { IfOk result (λ bytes. bytes.items ≡ spelling (root_with name.now (plain_pairs fields.items))) }
{
    let root = Root {
        name: raw(alloc, name)?,
        fields,
    };
    let mut bytes = Vec::new(alloc);
    write(&root, &mut bytes)?;
    Ok(bytes)
}

/// The file of a build in the layout of version 2. It takes time nearly linear in the cells.
pub fn write_build(alloc: Global, build: &Build) -> Result<Vec<u8>, NoMemory>
    ensures bytes { IfOk result (λ bytes. bytes.items ≡ written build.now) }
    // So `read_build` gives an equal build, unless memory runs out.
    ensures file { IfOk result (λ bytes. file bytes.items build.now) }
{
    let mut fields = Vec::new(alloc);
    push_head(&mut fields, 2, build)?;
    push_body(&mut fields, Layout::Second, b"BlockData", build)?;
    push_metadata(&mut fields, build.pending())?;
    spelled(alloc, b"Schematic", fields)
}

/// The file of a build in the layout of version 3. It takes time nearly linear in the cells.
pub fn write_build3(alloc: Global, build: &Build) -> Result<Vec<u8>, NoMemory>
    ensures bytes { IfOk result (λ bytes. bytes.items ≡ written3 build.now) }
    // So `read_build` gives an equal build, unless memory runs out.
    ensures file { IfOk result (λ bytes. file bytes.items build.now) }
{
    let mut body = Vec::new(alloc);
    push_body(&mut body, Layout::Third, b"Data", build)?;
    let mut main = Vec::new(alloc);
    push_head(&mut main, 3, build)?;
    push(&mut main, b"Blocks", Tree::Compound(body))?;
    push_metadata(&mut main, build.pending())?;
    let mut fields = Vec::new(alloc);
    push(&mut fields, b"Schematic", Tree::Compound(main))?;
    spelled(alloc, b"", fields)
}
