//! What a view shows of a build.

ghost use Rattle.std.specs.Prelude.{◌≡◌, ◌<◌, IfOk};
ghost use Rattle.build.specs.Plan.{volume, place_of};
ghost use Rattle.build.specs.Outputs.{out_kind, may_be_shown, shown_at, outputs};
ghost use Rattle.build.specs.Marks.{is_marked};

use crate::build::Build;
use crate::marks::Marks;
use crate::{OutKind, OutPlace};
use block_table::Block;
use circuit::Pos;
use rp_text::NoMemory;
use std::alloc::Global;

/// What a view shows of a block at a place, if it shows it.
fn out_kind(marks: &Marks, pos: Pos, block: Block) -> Option<OutKind>
    ensures { result ≡ out_kind (is_marked marks.now pos) block }
{
    match block {
        Block::Lamp { .. } => Some(OutKind::Lamp),
        Block::Trapdoor { .. } => Some(OutKind::Trapdoor),
        Block::Note { .. } => Some(OutKind::Note),
        Block::Wire { .. } => if marks.contains(pos) {
            Some(OutKind::Wire)
        } else {
            None
        },
        Block::Air
        | Block::Inert { .. }
        | Block::Slab { .. }
        | Block::Torch { .. }
        | Block::WallTorch { .. }
        | Block::Repeater { .. }
        | Block::Comparator { .. }
        | Block::Lever { .. }
        | Block::Button { .. }
        | Block::Plate { .. }
        | Block::RedstoneBlock
        | Block::Container { .. }
        | Block::Composter { .. }
        | Block::Cauldron { .. }
        | Block::Cake { .. }
        | Block::Weighted { .. } => None,
    }
}

/// Whether a view may show a block.
fn may_be_shown(block: Block) -> bool
    ensures { result ≡ may_be_shown block }
{
    match block {
        Block::Lamp { .. } | Block::Trapdoor { .. } | Block::Note { .. } | Block::Wire { .. } =>
            true,
        Block::Air
        | Block::Inert { .. }
        | Block::Slab { .. }
        | Block::Torch { .. }
        | Block::WallTorch { .. }
        | Block::Repeater { .. }
        | Block::Comparator { .. }
        | Block::Lever { .. }
        | Block::Button { .. }
        | Block::Plate { .. }
        | Block::RedstoneBlock
        | Block::Container { .. }
        | Block::Composter { .. }
        | Block::Cauldron { .. }
        | Block::Cake { .. }
        | Block::Weighted { .. } => false,
    }
}

/// What a view shows of a cell, if it shows it.
fn shown_in(build: &Build, marks: &Marks, cell: usize) -> Option<OutPlace>
    requires { cell < volume build.now }
    ensures { result ≡ shown_at build.now marks.now (place_of build.now cell) }
{
    let block = build.block_in(cell);
    if !may_be_shown(block) {
        return None;
    }
    let pos = build.place(cell);
    let kind = out_kind(marks, pos, block)?;
    Some(OutPlace { pos, kind })
}

/// The outputs of a build, in order of places: its lamps, trapdoors, note blocks and marked wires.
pub fn outputs(alloc: Global, build: &Build, marks: &Marks) -> Result<Vec<OutPlace>, NoMemory>
    ensures { IfOk result (λ places. places.items ≡ outputs build.now marks.now) }
{
    let mut places = Vec::new(alloc);
    for cell in 0..build.cells() {
        if let Some(place) = shown_in(build, marks, cell) {
            places.push(place)?;
        }
    }
    Ok(places)
}
