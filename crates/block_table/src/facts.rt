//! What is known of blocks and sides.

ghost use Rattle.std.specs.Prelude.{◌≡◌};
ghost use Rattle.block_table.specs.Facts.{opposite, is_solid, slots, is_solid_inert, is_solid_container, is_slab, slots_of};
ghost use Rattle.block_table.specs.Table.{kind_at};

use crate::names::{Kind, kind_at};
use crate::{Block, Side, SlabHalf};

/// The other side of the same axis.
pub fn opposite(side: Side) -> Side
    ensures { result ≡ opposite side }
{
    match side {
        Side::Down => Side::Up,
        Side::Up => Side::Down,
        Side::North => Side::South,
        Side::South => Side::North,
        Side::West => Side::East,
        Side::East => Side::West,
    }
}

/// Whether a block passes strong power on to what reads it. A slab does where it is double. A block
/// whose name isn't one of its kind doesn't.
pub fn is_solid(block: Block) -> bool
    ensures { result ≡ is_solid block }
{
    match block {
        Block::Inert { name } => is_solid_inert(name),
        Block::Slab { name, half } => half == SlabHalf::Double && is_slab(name),
        Block::Container { name } => is_solid_container(name),
        Block::Lamp { .. } | Block::Note { .. } => true,
        Block::Air
        | Block::Wire { .. }
        | Block::Torch { .. }
        | Block::WallTorch { .. }
        | Block::Repeater { .. }
        | Block::Comparator { .. }
        | Block::Lever { .. }
        | Block::Button { .. }
        | Block::Plate { .. }
        | Block::RedstoneBlock
        | Block::Trapdoor { .. }
        | Block::Composter { .. }
        | Block::Cauldron { .. }
        | Block::Cake { .. }
        | Block::Weighted { .. } => false,
    }
}

/// For how many stacks of items a block has room. 0 where it is no container.
pub fn slots(block: Block) -> u8
    ensures { result ≡ slots block }
{
    match block {
        Block::Container { name } => slots_of(name),
        Block::Air
        | Block::Inert { .. }
        | Block::Slab { .. }
        | Block::Wire { .. }
        | Block::Torch { .. }
        | Block::WallTorch { .. }
        | Block::Repeater { .. }
        | Block::Comparator { .. }
        | Block::Lever { .. }
        | Block::Button { .. }
        | Block::Plate { .. }
        | Block::RedstoneBlock
        | Block::Lamp { .. }
        | Block::Trapdoor { .. }
        | Block::Composter { .. }
        | Block::Cauldron { .. }
        | Block::Cake { .. }
        | Block::Weighted { .. }
        | Block::Note { .. } => 0,
    }
}

fn is_solid_inert(name: u16) -> bool
    ensures { result ≡ is_solid_inert (kind_at name) }
{
    match kind_at(name) {
        Some(Kind::Inert { solid }) => solid,
        Some(
            Kind::Air
            | Kind::Wire
            | Kind::Torch
            | Kind::WallTorch
            | Kind::Repeater
            | Kind::Comparator
            | Kind::Lever
            | Kind::Button
            | Kind::Plate
            | Kind::RedstoneBlock
            | Kind::Lamp
            | Kind::Trapdoor
            | Kind::Container { .. }
            | Kind::Composter
            | Kind::Cauldron { .. }
            | Kind::Cake
            | Kind::Slab
            | Kind::Weighted
            | Kind::Note,
        )
        | None => false,
    }
}

fn is_solid_container(name: u16) -> bool
    ensures { result ≡ is_solid_container (kind_at name) }
{
    match kind_at(name) {
        Some(Kind::Container { solid, .. }) => solid,
        Some(
            Kind::Air
            | Kind::Wire
            | Kind::Torch
            | Kind::WallTorch
            | Kind::Repeater
            | Kind::Comparator
            | Kind::Lever
            | Kind::Button
            | Kind::Plate
            | Kind::RedstoneBlock
            | Kind::Lamp
            | Kind::Trapdoor
            | Kind::Composter
            | Kind::Cauldron { .. }
            | Kind::Cake
            | Kind::Inert { .. }
            | Kind::Slab
            | Kind::Weighted
            | Kind::Note,
        )
        | None => false,
    }
}

fn is_slab(name: u16) -> bool
    ensures { result ≡ is_slab (kind_at name) }
{
    match kind_at(name) {
        Some(Kind::Slab) => true,
        Some(
            Kind::Air
            | Kind::Wire
            | Kind::Torch
            | Kind::WallTorch
            | Kind::Repeater
            | Kind::Comparator
            | Kind::Lever
            | Kind::Button
            | Kind::Plate
            | Kind::RedstoneBlock
            | Kind::Lamp
            | Kind::Trapdoor
            | Kind::Container { .. }
            | Kind::Composter
            | Kind::Cauldron { .. }
            | Kind::Cake
            | Kind::Inert { .. }
            | Kind::Weighted
            | Kind::Note,
        )
        | None => false,
    }
}

fn slots_of(name: u16) -> u8
    ensures { result ≡ slots_of (kind_at name) }
{
    match kind_at(name) {
        Some(Kind::Container { slots, .. }) => slots,
        Some(
            Kind::Air
            | Kind::Wire
            | Kind::Torch
            | Kind::WallTorch
            | Kind::Repeater
            | Kind::Comparator
            | Kind::Lever
            | Kind::Button
            | Kind::Plate
            | Kind::RedstoneBlock
            | Kind::Lamp
            | Kind::Trapdoor
            | Kind::Composter
            | Kind::Cauldron { .. }
            | Kind::Cake
            | Kind::Inert { .. }
            | Kind::Slab
            | Kind::Weighted
            | Kind::Note,
        )
        | None => 0,
    }
}
