//! Which field of a file is missing, and which is of the wrong kind.

ghost use Rattle.std.specs.Prelude.{◌≡◌};
ghost use Rattle.nbt.specs.Plain.{plain_fields};
ghost use Rattle.schematic.specs.Presence.{first_absent, first_absent_in, missing, is_int, is_short, is_compound, is_bytes, may_be_compound, may_be_ints, is_palette, first_wrong, wrong_kind_with};
ghost use Rattle.schematic.specs.Fields.{fields_in};
ghost use Rattle.schematic.specs.Palette.{entries_of};
ghost use Rattle.schematic.specs.Code.{plain_found, plain_entries};

use crate::FieldName;
use crate::entries::all_ints;
use crate::fields::{cells_name, fields_in, has, held, holder, is_third, main};
use nbt::{Field, Fields, Tree};

/// The first of these names that the compound hasn't. Nothing is missing in another tree.
fn first_absent(names: &[FieldName], tree: Option<&Tree>) -> Option<FieldName>
    ensures { result ≡ first_absent names.now (plain_found tree.entry) }
{
    match tree {
        Some(Tree::Compound(fields)) => first_absent_in(names, fields),
        _ => None,
    }
}

/// The first of these names that the fields haven't.
fn first_absent_in(names: &[FieldName], fields: &Fields) -> Option<FieldName>
    ensures { result ≡ first_absent_in names.now (plain_fields fields.now.items) }
{
    names.iter().copied().find(|name| !has(*name, Some(fields)))
}

/// The first field that must be there and isn't.
#[tactic(auto, unfolding(crate::specs::Presence::missing))]
pub fn missing(root: &Fields) -> Option<FieldName>
    ensures { result ≡ missing (plain_fields root.now.items) }
{
    use FieldName::{BlockData, Blocks, Data, Height, Length, Palette, Schematic, Version, Width};
    if !is_third(root) {
        return first_absent_in(&[Version, Width, Height, Length, Palette, BlockData], root);
    }
    let names = [Version, Width, Height, Length, Blocks];
    match first_absent(&names, held(Schematic, Some(root))) {
        Some(name) => Some(name),
        None => first_absent(&[Palette, Data], held(Blocks, main(root))),
    }
}

fn is_int(tree: Option<&Tree>) -> bool
    ensures { result ≡ is_int (plain_found tree.entry) }
{
    matches!(tree, Some(Tree::Int(_)))
}

fn is_short(tree: Option<&Tree>) -> bool
    ensures { result ≡ is_short (plain_found tree.entry) }
{
    matches!(tree, Some(Tree::Short(_)))
}

fn is_compound(tree: Option<&Tree>) -> bool
    ensures { result ≡ is_compound (plain_found tree.entry) }
{
    matches!(tree, Some(Tree::Compound(_)))
}

fn is_bytes(tree: Option<&Tree>) -> bool
    ensures { result ≡ is_bytes (plain_found tree.entry) }
{
    matches!(tree, Some(Tree::Bytes(_)))
}

fn may_be_compound(tree: Option<&Tree>) -> bool
    ensures { result ≡ may_be_compound (plain_found tree.entry) }
{
    matches!(tree, None | Some(Tree::Compound(_)))
}

fn may_be_ints(tree: Option<&Tree>) -> bool
    ensures { result ≡ may_be_ints (plain_found tree.entry) }
{
    matches!(tree, None | Some(Tree::Ints(_)))
}

/// Whether a tree is a palette, of whose entries these count.
pub fn is_palette(tree: Option<&Tree>, entries: &[&Field]) -> bool
    requires { plain_entries entries.now ≡ entries_of (fields_in (plain_found tree)) }
    ensures { result ≡ is_palette (plain_found tree.entry) }
{
    match tree {
        Some(Tree::Compound(_)) => all_ints(entries),
        _ => false,
    }
}

/// The name of the first check that failed.
fn first_wrong(checks: &[(FieldName, bool)]) -> Option<FieldName>
    ensures { result ≡ first_wrong checks.now }
{
    for check in checks {
        if !check.1 {
            return Some(check.0);
        }
    }
    None
}

/// The first field of another kind than it must have, where it is known whether the palette is right.
#[tactic(auto, unfolding(crate::specs::Presence::wrong_kind_with))]
pub fn wrong_kind(root: &Fields, palette_is_right: bool) -> Option<FieldName>
    ensures { result ≡ wrong_kind_with (plain_fields root.now.items) palette_is_right }
{
    let second = !is_third(root);
    let main = main(root);
    let holder = holder(root);
    let metadata = held(FieldName::Metadata, main);
    let pending = held(FieldName::RedpilePending, fields_in(metadata));
    let cells = cells_name(root);
    first_wrong(&[
        (
            FieldName::Schematic,
            second || is_compound(held(FieldName::Schematic, Some(root))),
        ),
        (FieldName::Version, is_int(held(FieldName::Version, main))),
        (FieldName::Width, is_short(held(FieldName::Width, main))),
        (FieldName::Height, is_short(held(FieldName::Height, main))),
        (FieldName::Length, is_short(held(FieldName::Length, main))),
        (
            FieldName::Blocks,
            second || is_compound(held(FieldName::Blocks, main)),
        ),
        (FieldName::Palette, palette_is_right),
        (cells, is_bytes(held(cells, holder))),
        (FieldName::Metadata, may_be_compound(metadata)),
        (FieldName::RedpilePending, may_be_ints(pending)),
    ])
}
