//! The power that blocks give and read.

ghost use Rattle.std.specs.Prelude.{◌≡◌, IsTrue};
ghost use Rattle.build.specs.Plan.{IsNear, in_box};
ghost use Rattle.build.specs.Roles.{direct_at, far_at};
ghost use Rattle.power_rules.specs.Power.{full, hung, weak, strong, charge, read, undusted, read_no_dust, read_around, input, measured, back_at, turned, turned_at, lock_power, locked_at, lateral, lateral_at, lateral_power, side_at};

use crate::Levels;
use block_table::{Block, Face, Side, is_solid, opposite};
use build::{Build, beside};
use circuit::Pos;
use wire_shape::{is_wire, points, same_side, wire_at};

pub(crate) fn full(level: u8) -> u8
    ensures { result ≡ full level }
{
    if level > 0 { 15 } else { 0 }
}

/// The side of the block on which a lever or a button hangs.
pub fn hung(face: Face, facing: Side) -> Side
    ensures { result ≡ hung face facing }
{
    match face {
        Face::Floor => Side::Down,
        Face::Ceiling => Side::Up,
        Face::Wall => opposite(facing),
    }
}

/// The weak power of the block at a place towards its neighbour on a side, 0 to 15.
#[tactic(auto, unfolding(crate::specs::Power::weak))]
pub fn weak<L: Levels>(build: &Build, levels: &L, from: Pos, side: Side) -> u8
    ensures { result ≡ weak build.now (L.level_of levels.now) from side }
{
    let level = levels.level(from);
    match build.at(from) {
        Block::Torch { .. } if same_side(side, Side::Down) => 0,
        Block::WallTorch { facing, .. } if same_side(side, opposite(facing)) => 0,
        Block::Torch { .. } | Block::WallTorch { .. } => full(level),
        Block::RedstoneBlock => 15,
        Block::Lever { .. } | Block::Button { .. } | Block::Plate { .. } => full(level),
        Block::Weighted { .. } => level,
        Block::Repeater { facing, .. } if same_side(side, opposite(facing)) => full(level),
        Block::Comparator { facing, .. } if same_side(side, opposite(facing)) => level,
        Block::Wire { .. } => match side {
            Side::Down => level,
            Side::Up => 0,
            _ if points(build, from, side) => level,
            _ => 0,
        },
        Block::Air
        | Block::Inert { .. }
        | Block::Slab { .. }
        | Block::Repeater { .. }
        | Block::Comparator { .. }
        | Block::Lamp { .. }
        | Block::Trapdoor { .. }
        | Block::Container { .. }
        | Block::Composter { .. }
        | Block::Cauldron { .. }
        | Block::Cake { .. }
        | Block::Note { .. } => 0,
    }
}

/// The strong power of the block at a place towards its neighbour on a side, 0 to 15.
#[tactic(auto, unfolding(crate::specs::Power::strong, crate::specs::Power::weak))]
pub fn strong<L: Levels>(build: &Build, levels: &L, from: Pos, side: Side) -> u8
    ensures { result ≡ strong build.now (L.level_of levels.now) from side }
{
    let level = levels.level(from);
    match build.at(from) {
        Block::Torch { .. } | Block::WallTorch { .. } if same_side(side, Side::Up) => full(level),
        Block::Lever { face, facing, .. } | Block::Button { face, facing, .. }
            if same_side(side, hung(face, facing)) => full(level),
        Block::Plate { .. } if same_side(side, Side::Down) => full(level),
        Block::Weighted { .. } if same_side(side, Side::Down) => level,
        Block::Repeater { .. } | Block::Comparator { .. } | Block::Wire { .. } => {
            weak(build, levels, from, side)
        }
        Block::Air
        | Block::Inert { .. }
        | Block::Slab { .. }
        | Block::Torch { .. }
        | Block::WallTorch { .. }
        | Block::Lever { .. }
        | Block::Button { .. }
        | Block::Plate { .. }
        | Block::RedstoneBlock
        | Block::Lamp { .. }
        | Block::Trapdoor { .. }
        | Block::Container { .. }
        | Block::Composter { .. }
        | Block::Cauldron { .. }
        | Block::Cake { .. }
        | Block::Weighted { .. }
        | Block::Note { .. } => 0,
    }
}

// The greatest strong power that its neighbours give to the block at a place.
#[tactic(auto, using(build::specs::Near::near_step), unfolding(crate::specs::Power::charge))]
fn charge<L: Levels>(build: &Build, levels: &L, pos: Pos) -> u8
    requires { IsNear 1 pos }
    ensures { result ≡ charge build.now (L.level_of levels.now) pos }
{
    let down = strong(build, levels, beside(pos, Side::Down), Side::Up);
    let up = strong(build, levels, beside(pos, Side::Up), Side::Down);
    let north = strong(build, levels, beside(pos, Side::North), Side::South);
    let south = strong(build, levels, beside(pos, Side::South), Side::North);
    let west = strong(build, levels, beside(pos, Side::West), Side::East);
    let east = strong(build, levels, beside(pos, Side::East), Side::West);
    down.max(up.max(north.max(south.max(west.max(east)))))
}

/// The power that a block reads from its neighbour on a side, 0 to 15: the greatest strong power
/// that a solid neighbour is given, and the weak power of another one.
#[tactic(auto, using(build::specs::Near::near_inside_three, build::specs::Near::near_next), unfolding(crate::specs::Power::read))]
pub fn read_power<L: Levels>(build: &Build, levels: &L, reader: Pos, side: Side) -> u8
    requires { IsTrue (in_box build.now reader) }
    ensures { result ≡ read build.now (L.level_of levels.now) reader side }
{
    let _ = build.width();
    let neighbour = beside(reader, side);
    if is_solid(build.at(neighbour)) {
        charge(build, levels, neighbour)
    } else {
        weak(build, levels, neighbour, opposite(side))
    }
}

// Levels with all wires left out.
#[derive(Drop)]
struct Undusted<'a, L> {
    build: &'a Build,
    levels: &'a L,
}

impl<'a, L: Levels> Levels for Undusted<'a, L> {
    ghost level_of = { λ s. undusted s.build.now (L.level_of s.levels.now) };

    #[tactic(auto, unfolding(crate::specs::Power::undusted))]
    fn level(&self, pos: Pos) -> u8 {
        if wire_at(self.build, pos) {
            0
        } else {
            self.levels.level(pos)
        }
    }
}

/// The power that a block reads from its neighbour on a side if no wire gave any, 0 to 15.
pub fn read_no_dust<L: Levels>(build: &Build, levels: &L, reader: Pos, side: Side) -> u8
    requires { IsTrue (in_box build.now reader) }
    ensures { result ≡ read_no_dust build.now (L.level_of levels.now) reader side }
{
    read_power(build, &Undusted { build, levels }, reader, side)
}

// The greatest power that a block reads from its six neighbours.
#[tactic(auto, unfolding(crate::specs::Power::read_around))]
pub(crate) fn read_around<L: Levels>(build: &Build, levels: &L, pos: Pos) -> u8
    requires { IsTrue (in_box build.now pos) }
    ensures { result ≡ read_around build.now (L.level_of levels.now) pos }
{
    let down = read_power(build, levels, pos, Side::Down);
    let up = read_power(build, levels, pos, Side::Up);
    let north = read_power(build, levels, pos, Side::North);
    let south = read_power(build, levels, pos, Side::South);
    let west = read_power(build, levels, pos, Side::West);
    let east = read_power(build, levels, pos, Side::East);
    down.max(up.max(north.max(south.max(west.max(east)))))
}

// What a diode with this facing reads from its input block.
#[tactic(auto, using(build::specs::Near::near_inside_three), unfolding(crate::specs::Power::input))]
pub(crate) fn input<L: Levels>(build: &Build, levels: &L, pos: Pos, facing: Side) -> u8
    requires { IsTrue (in_box build.now pos) }
    ensures { result ≡ input build.now (L.level_of levels.now) pos facing }
{
    let _ = build.width();
    let neighbour = beside(pos, facing);
    if is_wire(build.at(neighbour)) {
        levels.level(neighbour)
    } else {
        read_power(build, levels, pos, facing)
    }
}

/// The strength of the input block of a comparator with this facing, if it has one.
#[tactic(auto, using(build::specs::Near::near_inside_three))]
pub fn direct_strength(build: &Build, pos: Pos, facing: Side) -> Option<u8>
    requires { IsTrue (in_box build.now pos) }
    ensures { result ≡ direct_at build.now pos facing }
{
    let _ = build.width();
    build.strength(beside(pos, facing))
}

/// The strength of the block beyond a solid input block of a comparator with this facing, if it
/// has one.
#[tactic(auto, using(build::specs::Near::near_inside_three, build::specs::Near::near_two))]
pub fn far_strength(build: &Build, pos: Pos, facing: Side) -> Option<u8>
    requires { IsTrue (in_box build.now pos) }
    ensures { result ≡ far_at build.now pos facing }
{
    let _ = build.width();
    let neighbour = beside(pos, facing);
    if is_solid(build.at(neighbour)) {
        build.strength(beside(neighbour, facing))
    } else {
        None
    }
}

// The back power of a comparator with this facing.
#[tactic(auto, unfolding(crate::specs::Power::measured))]
pub(crate) fn measured<L: Levels>(build: &Build, levels: &L, pos: Pos, facing: Side) -> u8
    requires { IsTrue (in_box build.now pos) }
    ensures { result ≡ measured build.now (L.level_of levels.now) pos facing }
{
    if let Some(strength) = direct_strength(build, pos, facing) {
        return strength;
    }
    let power = input(build, levels, pos, facing);
    match far_strength(build, pos, facing) {
        Some(strength) if power < 15 => strength,
        _ => power,
    }
}

/// The back power of the diode at a place, 0 to 15.
#[tactic(auto, unfolding(crate::specs::Power::back_at))]
pub fn back<L: Levels>(build: &Build, levels: &L, pos: Pos) -> u8
    ensures { result ≡ back_at build.now (L.level_of levels.now) pos }
{
    match build.at(pos) {
        Block::Repeater { facing, .. } => input(build, levels, pos, facing),
        Block::Comparator { facing, .. } => measured(build, levels, pos, facing),
        Block::Air
        | Block::Inert { .. }
        | Block::Slab { .. }
        | Block::Wire { .. }
        | Block::Torch { .. }
        | Block::WallTorch { .. }
        | Block::Lever { .. }
        | Block::Button { .. }
        | Block::Plate { .. }
        | Block::RedstoneBlock
        | Block::Lamp { .. }
        | Block::Trapdoor { .. }
        | Block::Container { .. }
        | Block::Composter { .. }
        | Block::Cauldron { .. }
        | Block::Cake { .. }
        | Block::Weighted { .. }
        | Block::Note { .. } => 0,
    }
}

// The output of a diode on this side of its reader that is turned to it.
fn turned(block: Block, level: u8, side: Side) -> u8
    ensures { result ≡ turned block level side }
{
    match block {
        Block::Repeater { facing, .. } if same_side(facing, side) => full(level),
        Block::Comparator { facing, .. } if same_side(facing, side) => level,
        Block::Air
        | Block::Inert { .. }
        | Block::Slab { .. }
        | Block::Wire { .. }
        | Block::Torch { .. }
        | Block::WallTorch { .. }
        | Block::Repeater { .. }
        | Block::Comparator { .. }
        | Block::Lever { .. }
        | Block::Button { .. }
        | Block::Plate { .. }
        | Block::RedstoneBlock
        | Block::Lamp { .. }
        | Block::Trapdoor { .. }
        | Block::Container { .. }
        | Block::Composter { .. }
        | Block::Cauldron { .. }
        | Block::Cake { .. }
        | Block::Weighted { .. }
        | Block::Note { .. } => 0,
    }
}

fn turned_at<L: Levels>(build: &Build, levels: &L, pos: Pos, side: Side) -> u8
    requires { IsNear 3 pos }
    ensures { result ≡ turned_at build.now (L.level_of levels.now) pos side }
{
    let neighbour = beside(pos, side);
    turned(build.at(neighbour), levels.level(neighbour), side)
}

// What locks a repeater with this facing.
#[tactic(auto, using(build::specs::Near::near_inside_three), unfolding(crate::specs::Power::lock_power))]
pub(crate) fn lock_power<L: Levels>(build: &Build, levels: &L, pos: Pos, facing: Side) -> u8
    requires { IsTrue (in_box build.now pos) }
    ensures { result ≡ lock_power build.now (L.level_of levels.now) pos facing }
{
    let _ = build.width();
    match facing {
        Side::North | Side::South => {
            let west = turned_at(build, levels, pos, Side::West);
            let east = turned_at(build, levels, pos, Side::East);
            west.max(east)
        }
        Side::West | Side::East => {
            let north = turned_at(build, levels, pos, Side::North);
            let south = turned_at(build, levels, pos, Side::South);
            north.max(south)
        }
        Side::Down | Side::Up => 0,
    }
}

/// Whether the repeater at a place is locked: a diode at one of its sides that is turned to it
/// gives more than 0.
#[tactic(auto, unfolding(crate::specs::Power::locked_at))]
pub fn locked<L: Levels>(build: &Build, levels: &L, pos: Pos) -> bool
    ensures { result ≡ locked_at build.now (L.level_of levels.now) pos }
{
    match build.at(pos) {
        Block::Repeater { facing, .. } => lock_power(build, levels, pos, facing) > 0,
        Block::Air
        | Block::Inert { .. }
        | Block::Slab { .. }
        | Block::Wire { .. }
        | Block::Torch { .. }
        | Block::WallTorch { .. }
        | Block::Comparator { .. }
        | Block::Lever { .. }
        | Block::Button { .. }
        | Block::Plate { .. }
        | Block::RedstoneBlock
        | Block::Lamp { .. }
        | Block::Trapdoor { .. }
        | Block::Container { .. }
        | Block::Composter { .. }
        | Block::Cauldron { .. }
        | Block::Cake { .. }
        | Block::Weighted { .. }
        | Block::Note { .. } => false,
    }
}

// What a comparator reads of a block beside it.
fn lateral(block: Block, level: u8, side: Side) -> u8
    ensures { result ≡ lateral block level side }
{
    match block {
        Block::Wire { .. } => level,
        Block::RedstoneBlock => 15,
        Block::Air
        | Block::Inert { .. }
        | Block::Slab { .. }
        | Block::Torch { .. }
        | Block::WallTorch { .. }
        | Block::Repeater { .. }
        | Block::Comparator { .. }
        | Block::Lever { .. }
        | Block::Button { .. }
        | Block::Plate { .. }
        | Block::Lamp { .. }
        | Block::Trapdoor { .. }
        | Block::Container { .. }
        | Block::Composter { .. }
        | Block::Cauldron { .. }
        | Block::Cake { .. }
        | Block::Weighted { .. }
        | Block::Note { .. } => turned(block, level, side),
    }
}

fn lateral_at<L: Levels>(build: &Build, levels: &L, pos: Pos, side: Side) -> u8
    requires { IsNear 3 pos }
    ensures { result ≡ lateral_at build.now (L.level_of levels.now) pos side }
{
    let neighbour = beside(pos, side);
    lateral(build.at(neighbour), levels.level(neighbour), side)
}

// The side power of a comparator with this facing.
#[tactic(auto, using(build::specs::Near::near_inside_three), unfolding(crate::specs::Power::lateral_power))]
pub(crate) fn lateral_power<L: Levels>(build: &Build, levels: &L, pos: Pos, facing: Side) -> u8
    requires { IsTrue (in_box build.now pos) }
    ensures { result ≡ lateral_power build.now (L.level_of levels.now) pos facing }
{
    let _ = build.width();
    match facing {
        Side::North | Side::South => {
            let west = lateral_at(build, levels, pos, Side::West);
            let east = lateral_at(build, levels, pos, Side::East);
            west.max(east)
        }
        Side::West | Side::East => {
            let north = lateral_at(build, levels, pos, Side::North);
            let south = lateral_at(build, levels, pos, Side::South);
            north.max(south)
        }
        Side::Down | Side::Up => 0,
    }
}

/// The side power of the comparator at a place, 0 to 15.
#[tactic(auto, unfolding(crate::specs::Power::side_at))]
pub fn side_power<L: Levels>(build: &Build, levels: &L, pos: Pos) -> u8
    ensures { result ≡ side_at build.now (L.level_of levels.now) pos }
{
    match build.at(pos) {
        Block::Comparator { facing, .. } => lateral_power(build, levels, pos, facing),
        Block::Air
        | Block::Inert { .. }
        | Block::Slab { .. }
        | Block::Wire { .. }
        | Block::Torch { .. }
        | Block::WallTorch { .. }
        | Block::Repeater { .. }
        | Block::Lever { .. }
        | Block::Button { .. }
        | Block::Plate { .. }
        | Block::RedstoneBlock
        | Block::Lamp { .. }
        | Block::Trapdoor { .. }
        | Block::Container { .. }
        | Block::Composter { .. }
        | Block::Cauldron { .. }
        | Block::Cake { .. }
        | Block::Weighted { .. }
        | Block::Note { .. } => 0,
    }
}
