//! The fields of a build's file, and where each stands in the two layouts.

ghost use Rattle.std.specs.Prelude.{◌≡◌};
ghost use Rattle.nbt.specs.Plain.{plain_fields};
ghost use Rattle.nbt.specs.Named.{last_named};
ghost use Rattle.schematic.specs.Fields.{text_of, held, has, fields_in, int_in, size_in, bytes_in, ints_in, is_third, main, holder, cells_name, width_of, height_of, depth_of, data_version_of, cells_in, pending_in};
ghost use Rattle.schematic.specs.Code.{plain_found, plain_held};

use crate::FieldName;
use nbt::{Fields, Tree, find_field};

/// A field's name as it stands in the file.
fn text_of(name: FieldName) -> &'static [u8]
    ensures { result.now ≡ text_of name }
{
    let text = match name {
        FieldName::Schematic => "Schematic",
        FieldName::Version => "Version",
        FieldName::Width => "Width",
        FieldName::Height => "Height",
        FieldName::Length => "Length",
        FieldName::Blocks => "Blocks",
        FieldName::Palette => "Palette",
        FieldName::BlockData => "BlockData",
        FieldName::Data => "Data",
        FieldName::Metadata => "Metadata",
        FieldName::RedpilePending => "RedpilePending",
    };
    text.as_bytes()
}

/// What the last field of that name holds.
pub fn held<'a>(name: FieldName, fields: Option<&'a Fields>) -> Option<&'a Tree>
    ensures { plain_found result ≡ held name (plain_held fields.entry) }
{
    find_field(fields?, text_of(name))
}

pub fn has(name: FieldName, fields: Option<&Fields>) -> bool
    ensures { result ≡ has name (plain_held fields.entry) }
{
    held(name, fields).is_some()
}

/// The fields of a compound.
pub fn fields_in(tree: Option<&Tree>) -> Option<&Fields>
    ensures { plain_held result ≡ fields_in (plain_found tree.entry) }
{
    match tree {
        Some(Tree::Compound(fields)) => Some(fields),
        _ => None,
    }
}

/// The number of an Int, else 0.
pub fn int_in(tree: Option<&Tree>) -> i32
    ensures { result ≡ int_in (plain_found tree.entry) }
{
    match tree {
        Some(Tree::Int(number)) => *number,
        _ => 0,
    }
}

/// The number of a Short, read as unsigned, else 0.
fn size_in(tree: Option<&Tree>) -> u16
    ensures { result ≡ size_in (plain_found tree.entry) }
{
    match tree {
        Some(Tree::Short(number)) => number.cast_unsigned(),
        _ => 0,
    }
}

fn bytes_in(tree: Option<&Tree>) -> &[u8]
    ensures { result.now ≡ bytes_in (plain_found tree.entry) }
{
    match tree {
        Some(Tree::Bytes(raw)) => &raw.items,
        _ => &[],
    }
}

fn ints_in(tree: Option<&Tree>) -> &[i32]
    ensures { result.now ≡ ints_in (plain_found tree.entry) }
{
    match tree {
        Some(Tree::Ints(numbers)) => &numbers.items,
        _ => &[],
    }
}

/// Whether the file has the third layout: a `Schematic` and no `Version` beside it.
pub fn is_third(root: &Fields) -> bool
    ensures { result ≡ is_third (plain_fields root.now.items) }
{
    has(FieldName::Schematic, Some(root)) && !has(FieldName::Version, Some(root))
}

/// The compound with the box.
#[tactic(auto, unfolding(crate::specs::Fields::main))]
pub fn main(root: &Fields) -> Option<&Fields>
    ensures { plain_held result ≡ main (plain_fields root.now.items) }
{
    if is_third(root) {
        fields_in(held(FieldName::Schematic, Some(root)))
    } else {
        Some(root)
    }
}

/// The compound with the palette, the cells and the block entities.
#[tactic(auto, unfolding(crate::specs::Fields::holder))]
pub fn holder(root: &Fields) -> Option<&Fields>
    ensures { plain_held result ≡ holder (plain_fields root.now.items) }
{
    if is_third(root) {
        fields_in(held(FieldName::Blocks, main(root)))
    } else {
        Some(root)
    }
}

/// The name of the field with the cells.
pub fn cells_name(root: &Fields) -> FieldName
    ensures { result ≡ cells_name (plain_fields root.now.items) }
{
    if is_third(root) {
        FieldName::Data
    } else {
        FieldName::BlockData
    }
}

#[tactic(auto, unfolding(crate::specs::Fields::width_of))]
pub fn width_of(root: &Fields) -> u16
    ensures { result ≡ width_of (plain_fields root.now.items) }
{
    size_in(held(FieldName::Width, main(root)))
}

#[tactic(auto, unfolding(crate::specs::Fields::height_of))]
pub fn height_of(root: &Fields) -> u16
    ensures { result ≡ height_of (plain_fields root.now.items) }
{
    size_in(held(FieldName::Height, main(root)))
}

#[tactic(auto, unfolding(crate::specs::Fields::depth_of))]
pub fn depth_of(root: &Fields) -> u16
    ensures { result ≡ depth_of (plain_fields root.now.items) }
{
    size_in(held(FieldName::Length, main(root)))
}

/// The tree of the last field of a name that stands in no table.
pub fn named<'a>(name: &str, fields: Option<&'a Fields>) -> Option<&'a Tree>
    ensures { plain_found result ≡ last_named name.now (plain_held fields.entry) }
{
    find_field(fields?, name.as_bytes())
}

/// The data version, 0 where there is none.
#[tactic(auto, unfolding(crate::specs::Fields::data_version_of))]
pub fn data_version_of(root: &Fields) -> i32
    ensures { result ≡ data_version_of (plain_fields root.now.items) }
{
    int_in(named("DataVersion", main(root)))
}

/// The bytes of the cells.
#[tactic(auto, unfolding(crate::specs::Fields::cells_in))]
pub fn cells_in(root: &Fields) -> &[u8]
    ensures { result.now ≡ cells_in (plain_fields root.now.items) }
{
    bytes_in(held(cells_name(root), holder(root)))
}

/// The numbers that say which ticks are pending.
#[tactic(auto, unfolding(crate::specs::Fields::pending_in))]
pub fn pending_in(root: &Fields) -> &[i32]
    ensures { result.now ≡ pending_in (plain_fields root.now.items) }
{
    let metadata = fields_in(held(FieldName::Metadata, main(root)));
    ints_in(held(FieldName::RedpilePending, metadata))
}
