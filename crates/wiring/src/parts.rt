//! What is known of each thing before a build runs.

ghost use Rattle.std.specs.Prelude.{◌≡◌, IfOk, IsTrue, map};
ghost use Rattle.build.specs.Plan.{in_box};
ghost use Rattle.wiring.specs.Parts.{input_strength, far_strength, part_at};
ghost use Rattle.wiring.specs.Things.{spot};

use crate::things::Things;
use block_table::Block;
use build::Build;
use circuit::{Component, Pos};
use power_rules::{base, direct_strength, faces_diode};
use rp_text::NoMemory;
use std::alloc::Global;
use wire_shape::is_wire;

/// What is known of a thing before a build runs: what it is, whatever happens to it.
#[derive(Clone, Copy)]
pub struct Part {
    /// The component that it is, if it is one. A wire is one where it is marked.
    pub component: Option<Component>,
    pub wire: bool,
    /// Whether it is a diode that faces a diode.
    pub first: bool,
    /// What it gives, always, if it is no component.
    pub base: u8,
    /// Of a comparator, the strength of its input block.
    pub direct: Option<u8>,
    /// And that of the block beyond, where the input block is solid.
    pub far: Option<u8>,
}

fn input_strength(build: &Build, pos: Pos, block: Block) -> Option<u8>
    requires { IsTrue (in_box build.now pos) }
    ensures { result ≡ input_strength build.now pos block }
{
    match block {
        Block::Comparator { facing, .. } => direct_strength(build, pos, facing),
        Block::Air
        | Block::Inert { .. }
        | Block::Slab { .. }
        | Block::Wire { .. }
        | Block::Torch { .. }
        | Block::WallTorch { .. }
        | Block::Repeater { .. }
        | Block::Lever { .. }
        | Block::Button { .. }
        | Block::Plate { .. }
        | Block::RedstoneBlock
        | Block::Lamp { .. }
        | Block::Trapdoor { .. }
        | Block::Container { .. }
        | Block::Composter { .. }
        | Block::Cauldron { .. }
        | Block::Cake { .. }
        | Block::Weighted { .. }
        | Block::Note { .. } => None,
    }
}

fn far_strength(build: &Build, pos: Pos, block: Block) -> Option<u8>
    requires { IsTrue (in_box build.now pos) }
    ensures { result ≡ far_strength build.now pos block }
{
    match block {
        Block::Comparator { facing, .. } => power_rules::far_strength(build, pos, facing),
        Block::Air
        | Block::Inert { .. }
        | Block::Slab { .. }
        | Block::Wire { .. }
        | Block::Torch { .. }
        | Block::WallTorch { .. }
        | Block::Repeater { .. }
        | Block::Lever { .. }
        | Block::Button { .. }
        | Block::Plate { .. }
        | Block::RedstoneBlock
        | Block::Lamp { .. }
        | Block::Trapdoor { .. }
        | Block::Container { .. }
        | Block::Composter { .. }
        | Block::Cauldron { .. }
        | Block::Cake { .. }
        | Block::Weighted { .. }
        | Block::Note { .. } => None,
    }
}

// The part of what stands at a place.
#[tactic(auto, unfolding(build::specs::Roles::base_at))]
fn part_at(things: &Things, pos: Pos) -> Part
    requires { IsTrue (in_box things.now.plan pos) }
    ensures { result ≡ part_at things.now.plan things.now.marks pos }
{
    let build = things.build();
    let block = build.at(pos);
    Part {
        component: things.role(pos),
        wire: is_wire(block),
        first: faces_diode(build, pos),
        base: base(block),
        direct: input_strength(build, pos, block),
        far: far_strength(build, pos, block),
    }
}

/// The parts of all things.
pub(crate) fn parts_of(alloc: Global, things: &Things) -> Result<Vec<Part>, NoMemory>
    ensures { IfOk result (λ parts. parts.items ≡ map (part_at things.now.plan things.now.marks) things.now.spots) }
{
    let mut parts = Vec::with_capacity(alloc, things.count())?;
    for number in 0..things.count() {
        parts.push(part_at(things, things.spot(number)))?;
    }
    Ok(parts)
}
