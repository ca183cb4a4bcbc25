//! The taps of a reader.

ghost use Rattle.std.specs.Prelude.{◌≡◌, [], ◌∷◌, ◌++◌, true, false, All, OnOk, IsTrue, is_some, if◌then◌else◌};
ghost use Rattle.std.specs.List.{flat_map};
ghost use Rattle.build.specs.Plan.{in_box, block_at};
ghost use Rattle.build.specs.Roles.{direct_at};
ghost use Rattle.wire_shape.specs.Shape.{across};
ghost use Rattle.wiring.specs.Taps.{back_taps, side_taps};
ghost use Rattle.wiring.specs.Readers.{reader_taps, reader_side_taps};

use crate::taps::{Tap, push_back_taps, push_side_taps, push_taps_around};
use block_table::{Block, Side, opposite};
use build::Build;
use circuit::Pos;
use power_rules::direct_strength;
use rp_text::NoMemory;

/// Appends the taps of the back of the reader at a place. A marked wire is its own tap.
pub fn push_reader_taps(taps: &mut Vec<Tap>, build: &Build, reader: Pos) -> Result<(), NoMemory>
    requires { IsTrue (in_box build.now reader) }
    ensures { OnOk result (taps.new.items ≡ taps.old.items ++ reader_taps build.now reader (block_at build.now reader)) }
{
    match build.at(reader) {
        Block::Torch { .. } => push_back_taps(taps, build, false, reader, Side::Down),
        Block::WallTorch { facing, .. } => push_back_taps(
            taps,
            build,
            false,
            reader,
            opposite(facing),
        ),
        Block::Lamp { .. } | Block::Trapdoor { .. } | Block::Note { .. } => push_taps_around(
            taps, build, reader,
        ),
        Block::Repeater { facing, .. } => push_back_taps(taps, build, true, reader, facing),
        Block::Comparator { facing, .. } => push_measured_taps(taps, build, reader, facing),
        Block::Wire { .. } => {
            taps.push(Tap::Wired(reader))?;
            Ok(())
        }
        Block::Air
        | Block::Inert { .. }
        | Block::Slab { .. }
        | Block::Lever { .. }
        | Block::Button { .. }
        | Block::Plate { .. }
        | Block::RedstoneBlock
        | Block::Container { .. }
        | Block::Composter { .. }
        | Block::Cauldron { .. }
        | Block::Cake { .. }
        | Block::Weighted { .. } => Ok(()),
    }
}

// Appends the taps of the back of a comparator: none where its input block has a strength.
fn push_measured_taps(
    taps: &mut Vec<Tap>,
    build: &Build,
    reader: Pos,
    facing: Side,
) -> Result<(), NoMemory>
    requires { IsTrue (in_box build.now reader) }
    ensures { OnOk result (taps.new.items ≡ taps.old.items ++ (if is_some (direct_at build.now reader facing) then [] else back_taps build.now true reader facing)) }
{
    if direct_strength(build, reader, facing).is_some() {
        Ok(())
    } else {
        push_back_taps(taps, build, true, reader, facing)
    }
}

// Appends the taps of the two sides of the diode at a place.
fn push_taps_across(
    taps: &mut Vec<Tap>,
    build: &Build,
    comparator: bool,
    reader: Pos,
    facing: Side,
) -> Result<(), NoMemory>
    requires { IsTrue (in_box build.now reader) }
    ensures { OnOk result (taps.new.items ≡ taps.old.items ++ flat_map (side_taps build.now comparator reader) (across facing)) }
{
    match facing {
        Side::North | Side::South => {
            push_side_taps(taps, build, comparator, reader, Side::West)?;
            push_side_taps(taps, build, comparator, reader, Side::East)
        }
        Side::West | Side::East => {
            push_side_taps(taps, build, comparator, reader, Side::North)?;
            push_side_taps(taps, build, comparator, reader, Side::South)
        }
        Side::Down | Side::Up => Ok(()),
    }
}

/// Appends the taps of the sides of the reader at a place.
pub fn push_reader_side_taps(
    taps: &mut Vec<Tap>,
    build: &Build,
    reader: Pos,
) -> Result<(), NoMemory>
    requires { IsTrue (in_box build.now reader) }
    ensures { OnOk result (taps.new.items ≡ taps.old.items ++ reader_side_taps build.now reader (block_at build.now reader)) }
{
    match build.at(reader) {
        Block::Repeater { facing, .. } => push_taps_across(taps, build, false, reader, facing),
        Block::Comparator { facing, .. } => push_taps_across(taps, build, true, reader, facing),
        Block::Air
        | Block::Inert { .. }
        | Block::Slab { .. }
        | Block::Wire { .. }
        | Block::Torch { .. }
        | Block::WallTorch { .. }
        | Block::Lever { .. }
        | Block::Button { .. }
        | Block::Plate { .. }
        | Block::RedstoneBlock
        | Block::Lamp { .. }
        | Block::Trapdoor { .. }
        | Block::Container { .. }
        | Block::Composter { .. }
        | Block::Cauldron { .. }
        | Block::Cake { .. }
        | Block::Weighted { .. }
        | Block::Note { .. } => Ok(()),
    }
}
