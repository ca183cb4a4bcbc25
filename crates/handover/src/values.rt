//! Blocks with other values.

ghost use Rattle.std.specs.Prelude.{◌≡◌, ◌≤◌, IsTrue};
ghost use Rattle.block_table.specs.WrittenText.{is_listed};
ghost use Rattle.handover.specs.GivenBack.{with_value};

use block_table::Block;

/// The block with this value in place of the one that it stores.
pub fn with_value(block: Block, value: u8) -> Block
    requires small { value ≤ 15 }
    requires listed { IsTrue (is_listed block) }
    ensures value { result ≡ with_value value block }
    ensures listed { IsTrue (is_listed result) }
{
    let on = value > 0;
    match block {
        Block::Torch { .. } => Block::Torch { lit: on },
        Block::WallTorch { facing, .. } => Block::WallTorch { facing, lit: on },
        Block::Repeater { delay, facing, .. } => Block::Repeater {
            delay,
            facing,
            powered: on,
        },
        Block::Lever { face, facing, .. } => Block::Lever {
            face,
            facing,
            powered: on,
        },
        Block::Button {
            name,
            face,
            facing,
            ..
        } => Block::Button {
            name,
            face,
            facing,
            powered: on,
        },
        Block::Plate { name, .. } => Block::Plate { name, powered: on },
        Block::Weighted { name, .. } => Block::Weighted { name, power: value },
        Block::Lamp { .. } => Block::Lamp { lit: on },
        Block::Trapdoor { facing, top, .. } => Block::Trapdoor {
            facing,
            top,
            powered: on,
        },
        Block::Note { .. } => Block::Note { powered: on },
        Block::Air
        | Block::Inert { .. }
        | Block::Slab { .. }
        | Block::Wire { .. }
        | Block::Comparator { .. }
        | Block::RedstoneBlock
        | Block::Container { .. }
        | Block::Composter { .. }
        | Block::Cauldron { .. }
        | Block::Cake { .. } => block,
    }
}
