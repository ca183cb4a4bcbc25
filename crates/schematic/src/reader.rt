//! From the bytes of a file to a build.

ghost use Rattle.std.specs.Prelude.{◌≡◌, ◌<◌, ◌≤◌, ◌*◌, ◌^◌, None, length, IfOk, IfErr, MatchResult};
ghost use Rattle.nbt.specs.Plain.{plain_fields};
ghost use Rattle.build.specs.Plan.{Plan};
ghost use Rattle.schematic.specs.Fields.{version_of, has_right_version, is_too_large, volume_of, pending_in};
ghost use Rattle.schematic.specs.File.{entries_in, bare, build_of, first_some, of_fields, of_cells, of_state, refusal_in, plain_refusal, IsCause, Refuses, file};
ghost use Rattle.schematic.specs.Code.{plain_entries};

use crate::entities::{counting, signal_fault, with_levels};
use crate::entries::entries_of;
use crate::fields::{
    cells_in, data_version_of, depth_of, fields_in, height_of, held, holder, int_in, is_third,
    main, pending_in, width_of,
};
use crate::palette::{blocks_by_number, unknown_text};
use crate::pending::with_all_pending;
use crate::presence::{is_palette, missing, wrong_kind};
use crate::{BuildRefusal, FieldName, cells};
use build::Build;
use nbt::{Field, Fields, NbtRefusal};
use rp_text::Raw;
use std::alloc::Global;

// The most cells that a box may have.
const MOST_CELLS: usize = 16_777_216;

/// The version that the layout asks for.
fn version_of(root: &Fields) -> i32
    ensures { result ≡ version_of (plain_fields root.now.items) }
{
    if is_third(root) { 3 } else { 2 }
}

/// The number of cells that the box has.
fn volume_of(root: &Fields) -> usize
    ensures value { result ≡ volume_of (plain_fields root.now.items) }
{
    width_of(root) as usize * (depth_of(root) as usize * height_of(root) as usize)
}

/// Whether the version is that of the layout.
fn has_right_version(root: &Fields) -> bool
    ensures { result ≡ has_right_version (plain_fields root.now.items) }
{
    int_in(held(FieldName::Version, main(root))) == version_of(root)
}

/// Whether the box has more cells than a box may have.
fn is_too_large(root: &Fields) -> bool
    ensures { result ≡ is_too_large (plain_fields root.now.items) }
{
    volume_of(root) > MOST_CELLS
}

/// The entries of the palette that count, where the fields are there and of their kinds, the version is right and the box
/// isn't too large.
#[tactic(auto, unfolding(crate::specs::Fields::palette_of))]
fn palette_entries(alloc: Global, root: &Fields) -> Result<Vec<&Field>, BuildRefusal>
    ensures entries { IfOk result (λ entries. plain_entries entries.items ≡ entries_in (plain_fields root.now.items)) }
    ensures sound { IfOk result (λ entries. first_some (of_fields (plain_fields root.now.items)) ≡ None) }
    ensures small { IfOk result (λ entries. volume_of (plain_fields root.now.items) ≤ 16777216) }
    ensures err { IfErr result (λ e. IsCause (plain_refusal e) (first_some (of_fields (plain_fields root.now.items)))) }
{
    if let Some(field) = missing(root) {
        return Err(BuildRefusal::Missing { field });
    }
    let palette = held(FieldName::Palette, holder(root));
    let entries = entries_of(alloc, fields_in(palette))?;
    if let Some(field) = wrong_kind(root, is_palette(palette, &entries)) {
        return Err(BuildRefusal::WrongKind { field });
    }
    if !has_right_version(root) {
        return Err(BuildRefusal::Version);
    }
    if is_too_large(root) {
        return Err(BuildRefusal::Volume);
    }
    Ok(entries)
}

/// The box with its blocks alone.
#[tactic(auto, unfolding(crate::specs::File::bare))]
fn bare(alloc: Global, root: &Fields, entries: &[&Field]) -> Result<Build, BuildRefusal>
    requires entries { plain_entries entries.now ≡ entries_in (plain_fields root.now.items) }
    requires small { volume_of (plain_fields root.now.items) ≤ 16777216 }
    ensures build { IfOk result (λ build. build ≡ bare (plain_fields root.now.items)) }
    ensures sound { IfOk result (λ build. first_some (of_cells (plain_fields root.now.items)) ≡ None) }
    ensures err { IfErr result (λ e. IsCause (plain_refusal e) (first_some (of_cells (plain_fields root.now.items)))) }
{
    let Some(numbered) = blocks_by_number(alloc, entries)? else {
        return Err(BuildRefusal::PaletteClash);
    };
    let blocks = cells::blocks_of(alloc, &numbered, volume_of(root), cells_in(root))?;
    if let Some(text) = unknown_text(entries) {
        let items = Vec::from_slice(alloc, text)?;
        let name = Raw { items };
        return Err(BuildRefusal::Block { name });
    }
    let version = data_version_of(root);
    Ok(Build::of_blocks(
        width_of(root),
        height_of(root),
        depth_of(root),
        version,
        blocks,
    ))
}

/// The box with its levels and its pending ticks too.
#[tactic(auto, unfolding(crate::specs::File::build_of))]
fn with_state(alloc: Global, root: &Fields, build: Build) -> Result<Build, BuildRefusal>
    requires bare { build ≡ bare (plain_fields root.now.items) }
    requires few { length (pending_in (plain_fields root.now.items)) < 2 ^ 31 }
    ensures build { IfOk result (λ made. made ≡ build_of (plain_fields root.now.items)) }
    ensures sound { IfOk result (λ made. first_some (of_state (plain_fields root.now.items)) ≡ None) }
    ensures err { IfErr result (λ e. IsCause (plain_refusal e) (first_some (of_state (plain_fields root.now.items)))) }
{
    let entities = counting(alloc, root)?;
    if let Some(pos) = signal_fault(&build, &entities) {
        return Err(BuildRefusal::Signal { pos });
    }
    let build = with_levels(alloc, build, &entities)?;
    with_all_pending(build, pending_in(root))
}

/// The build that the fields of a root mean.
#[tactic(auto, unfolding(crate::specs::File::refusal_in))]
fn build_of(alloc: Global, root: &Fields) -> Result<Build, BuildRefusal>
    requires few { length (pending_in (plain_fields root.now.items)) < 2 ^ 31 }
    ensures build { IfOk result (λ build. build ≡ build_of (plain_fields root.now.items)) }
    ensures sound { IfOk result (λ build. refusal_in (plain_fields root.now.items) ≡ None) }
    ensures err { IfErr result (λ e. IsCause (plain_refusal e) (refusal_in (plain_fields root.now.items))) }
{
    let entries = palette_entries(alloc, root)?;
    let build = bare(alloc, root, &entries)?;
    with_state(alloc, root, build)
}

/// Reads a build from an uncompressed Sponge schematic of version 2 or 3. A refusal is the first cause for which the bytes
/// are no such file. It takes time linear in the bytes.
pub fn read_build(alloc: Global, bytes: &[u8]) -> Result<Build, BuildRefusal>
    ensures ok { IfOk result (λ build. file bytes.now build) }
    // What is a build's file is read, unless memory runs out.
    ensures file { (build : Plan) → file bytes.now build
        → MatchResult result (λ found. found ≡ build) (λ refusal. plain_refusal refusal ≡ None) }
    // Which cause it is. No bytes are a build's file and have a cause.
    ensures err { IfErr result (λ refusal. Refuses bytes.now (plain_refusal refusal)) }
{
    if bytes.starts_with(&[0x1f, 0x8b]) {
        return Err(BuildRefusal::Compressed);
    }
    match nbt::read(alloc, bytes) {
        Ok(root) => build_of(alloc, &root.fields),
        Err(NbtRefusal::At { place, kind }) => Err(BuildRefusal::Nbt { place, kind }),
        Err(NbtRefusal::NoMemory) => Err(BuildRefusal::NoMemory),
    }
}
