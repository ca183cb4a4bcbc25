//! What the blocks of a build are to a circuit, and what they read.

ghost use Rattle.std.specs.Prelude.{◌≡◌, IsTrue};
ghost use Rattle.block_table.specs.Facts.{opposite};
ghost use Rattle.build.specs.Place.{beside};
ghost use Rattle.build.specs.Plan.{block_at, entry, in_box};
ghost use Rattle.build.specs.Roles.{button_delay, role_of, base_of, stored_value, is_diode_facing_elsewhere, first_at};
ghost use Rattle.power_rules.specs.Readings.{readings_at, level_of_value, goal_at};

use crate::Levels;
use crate::power::{full, input, lateral_power, lock_power, measured, read_around, read_power};
use block_table::{Block, Side, opposite};
use build::{Build, beside};
use circuit::{Component, Pos, Readings};
use wire_shape::same_side;

// The number of the first button of wood in the list of names.
const FIRST_WOODEN_BUTTON: u16 = 298;

/// For how many ticks the button of this name stays on: 15 for one of wood, else 10.
pub fn button_delay(name: u16) -> u8
    ensures { result ≡ button_delay name }
{
    if name < FIRST_WOODEN_BUTTON { 10 } else { 15 }
}

/// The component that a block is, if it is one. A wire is one where it is marked.
pub fn component(block: Block, marked: bool) -> Option<Component>
    ensures { result ≡ role_of marked block }
{
    match block {
        Block::Lever { .. } => Some(Component::Lever),
        Block::Button { name, .. } => Some(Component::Button {
            delay: button_delay(name),
        }),
        Block::Plate { .. } => Some(Component::Plate),
        Block::Weighted { .. } => Some(Component::Weighted),
        Block::Torch { .. } | Block::WallTorch { .. } => Some(Component::Torch),
        Block::Repeater { delay, .. } => Some(Component::Repeater { delay }),
        Block::Comparator { subtract, .. } => Some(Component::Comparator { subtract }),
        Block::Lamp { .. } => Some(Component::Lamp),
        Block::Trapdoor { .. } => Some(Component::Trapdoor),
        Block::Note { .. } => Some(Component::Note),
        Block::Wire { .. } if marked => Some(Component::Wire),
        Block::Air
        | Block::Inert { .. }
        | Block::Slab { .. }
        | Block::Wire { .. }
        | Block::RedstoneBlock
        | Block::Container { .. }
        | Block::Composter { .. }
        | Block::Cauldron { .. }
        | Block::Cake { .. } => None,
    }
}

/// The power that a block gives always, though it is no component: 15 for a block of redstone.
pub fn base(block: Block) -> u8
    ensures { result ≡ base_of block }
{
    match block {
        Block::RedstoneBlock => 15,
        Block::Air
        | Block::Inert { .. }
        | Block::Slab { .. }
        | Block::Wire { .. }
        | Block::Torch { .. }
        | Block::WallTorch { .. }
        | Block::Repeater { .. }
        | Block::Comparator { .. }
        | Block::Lever { .. }
        | Block::Button { .. }
        | Block::Plate { .. }
        | Block::Lamp { .. }
        | Block::Trapdoor { .. }
        | Block::Container { .. }
        | Block::Composter { .. }
        | Block::Cauldron { .. }
        | Block::Cake { .. }
        | Block::Weighted { .. }
        | Block::Note { .. } => 0,
    }
}

/// The value that the block at a place stores: 1 or 0 for what is on or off, the output of a
/// comparator, the power of a weighted plate, and 0 for every other block.
pub fn stored_value(build: &Build, pos: Pos) -> u8
    ensures { result ≡ stored_value (block_at build.now pos) (entry build.now build.now.levels 0 pos) }
{
    match build.at(pos) {
        Block::Lever { powered, .. }
        | Block::Button { powered, .. }
        | Block::Plate { powered, .. }
        | Block::Repeater { powered, .. }
        | Block::Trapdoor { powered, .. }
        | Block::Note { powered } => u8::from(powered),
        Block::Torch { lit } | Block::WallTorch { lit, .. } | Block::Lamp { lit } => u8::from(lit),
        Block::Weighted { power, .. } => power,
        Block::Comparator { .. } => build.output(pos),
        Block::Air
        | Block::Inert { .. }
        | Block::Slab { .. }
        | Block::Wire { .. }
        | Block::RedstoneBlock
        | Block::Container { .. }
        | Block::Composter { .. }
        | Block::Cauldron { .. }
        | Block::Cake { .. } => 0,
    }
}

// Whether a block is a diode whose input isn't on this side.
fn is_diode_facing_elsewhere(block: Block, side: Side) -> bool
    ensures { result ≡ is_diode_facing_elsewhere block side }
{
    match block {
        Block::Repeater { facing, .. } | Block::Comparator { facing, .. } => !same_side(
            facing, side,
        ),
        Block::Air
        | Block::Inert { .. }
        | Block::Slab { .. }
        | Block::Wire { .. }
        | Block::Torch { .. }
        | Block::WallTorch { .. }
        | Block::Lever { .. }
        | Block::Button { .. }
        | Block::Plate { .. }
        | Block::RedstoneBlock
        | Block::Lamp { .. }
        | Block::Trapdoor { .. }
        | Block::Container { .. }
        | Block::Composter { .. }
        | Block::Cauldron { .. }
        | Block::Cake { .. }
        | Block::Weighted { .. }
        | Block::Note { .. } => false,
    }
}

// Whether a diode with this facing faces a diode.
#[tactic(auto, using(build::specs::Near::near_inside_three))]
fn faces_from(build: &Build, pos: Pos, facing: Side) -> bool
    requires { IsTrue (in_box build.now pos) }
    ensures { result ≡ is_diode_facing_elsewhere (block_at build.now (beside (opposite facing) pos)) (opposite facing) }
{
    let _ = build.width();
    let front = opposite(facing);
    is_diode_facing_elsewhere(build.at(beside(pos, front)), front)
}

/// Whether the block at a place is a diode that faces a diode: on its output side stands a diode
/// whose facing isn't the opposite of its own.
#[tactic(auto, unfolding(build::specs::Roles::first_at))]
pub fn faces_diode(build: &Build, pos: Pos) -> bool
    ensures { result ≡ first_at build.now pos }
{
    match build.at(pos) {
        Block::Repeater { facing, .. } => faces_from(build, pos, facing),
        Block::Comparator { facing, .. } => faces_from(build, pos, facing),
        Block::Air
        | Block::Inert { .. }
        | Block::Slab { .. }
        | Block::Wire { .. }
        | Block::Torch { .. }
        | Block::WallTorch { .. }
        | Block::Lever { .. }
        | Block::Button { .. }
        | Block::Plate { .. }
        | Block::RedstoneBlock
        | Block::Lamp { .. }
        | Block::Trapdoor { .. }
        | Block::Container { .. }
        | Block::Composter { .. }
        | Block::Cauldron { .. }
        | Block::Cake { .. }
        | Block::Weighted { .. }
        | Block::Note { .. } => false,
    }
}

/// What the component at a place reads, each 0 to 15. What has no back or no side, and what is no
/// component, reads 0 there; a wire reads its own power.
#[tactic(auto, unfolding(crate::specs::Readings::readings_at))]
pub fn readings<L: Levels>(build: &Build, levels: &L, pos: Pos) -> Readings
    ensures { result ≡ readings_at build.now (L.level_of levels.now) pos }
{
    match build.at(pos) {
        Block::Torch { .. } => reading(read_power(build, levels, pos, Side::Down)),
        Block::WallTorch { facing, .. } => reading(read_power(
            build,
            levels,
            pos,
            opposite(facing),
        )),
        Block::Lamp { .. } | Block::Trapdoor { .. } | Block::Note { .. } => {
            reading(read_around(build, levels, pos))
        }
        Block::Repeater { facing, .. } => Readings {
            back: input(build, levels, pos, facing),
            side: lock_power(build, levels, pos, facing),
        },
        Block::Comparator { facing, .. } => Readings {
            back: measured(build, levels, pos, facing),
            side: lateral_power(build, levels, pos, facing),
        },
        Block::Wire { .. } => reading(levels.level(pos)),
        Block::Air
        | Block::Inert { .. }
        | Block::Slab { .. }
        | Block::Lever { .. }
        | Block::Button { .. }
        | Block::Plate { .. }
        | Block::RedstoneBlock
        | Block::Container { .. }
        | Block::Composter { .. }
        | Block::Cauldron { .. }
        | Block::Cake { .. }
        | Block::Weighted { .. } => reading(0),
    }
}

// The readings of what has no side.
fn reading(back: u8) -> Readings
    ensures { result ≡ record { back = back; side = 0 } }
{
    Readings { back, side: 0 }
}

// The level of a value: 15 for what is on.
fn level_of_value(component: Component, value: u8) -> u8
    ensures { result ≡ level_of_value component value }
{
    match component {
        Component::Comparator { .. } | Component::Weighted => value,
        _ => full(value),
    }
}

/// The level that the component at a place is to have by what it reads, 0 to 15: 15 or 0 where it
/// is to be on or off. What has no goal gets 0.
#[tactic(auto, unfolding(crate::specs::Readings::goal_at, build::specs::Roles::role_at))]
pub fn goal<L: Levels>(build: &Build, levels: &L, pos: Pos) -> u8
    ensures { result ≡ goal_at build.now (L.level_of levels.now) pos }
{
    match component(build.at(pos), false) {
        Some(component) => level_of_value(
            component,
            circuit::goal(component, readings(build, levels, pos)),
        ),
        None => 0,
    }
}
