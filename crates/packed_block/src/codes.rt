//! Blocks as numbers of sixteen bits.

ghost use Rattle.std.specs.Prelude.{◌≡◌, ◌<◌, ◌/◌, ◌%◌, IsTrue};
ghost use Rattle.block_table.specs.BlockText.{face_at, facing_at, wire_side_at, slab_half_at};
ghost use Rattle.packed_block.specs.Packed.{packed, unpacked, unpacked_by, flag_code, facing_code, face_code, wire_side_code, slab_half_code, flag_in, facing_in, face_in, wire_side_in, wire_in};

use block_table::{Block, Face, Side, SlabHalf, WireSide};

fn facing_code(facing: Side) -> u16
    ensures code { result ≡ facing_code facing }
    ensures small { result < 4 }
{
    match facing {
        Side::Down | Side::Up | Side::North => 0,
        Side::South => 1,
        Side::West => 2,
        Side::East => 3,
    }
}

fn face_code(face: Face) -> u16
    ensures code { result ≡ face_code face }
    ensures small { result < 3 }
{
    match face {
        Face::Wall => 0,
        Face::Floor => 1,
        Face::Ceiling => 2,
    }
}

fn wire_side_code(side: WireSide) -> u16
    ensures code { result ≡ wire_side_code side }
    ensures small { result < 3 }
{
    match side {
        WireSide::Absent => 0,
        WireSide::Side => 1,
        WireSide::Up => 2,
    }
}

fn slab_half_code(half: SlabHalf) -> u16
    ensures code { result ≡ slab_half_code half }
    ensures small { result < 3 }
{
    match half {
        SlabHalf::Bottom => 0,
        SlabHalf::Top => 1,
        SlabHalf::Double => 2,
    }
}

fn flag_code(flag: bool) -> u16
    ensures code { result ≡ flag_code flag }
    ensures small { result < 2 }
{
    if flag { 1 } else { 0 }
}

// The code of a block, 0 for air. A number that no listed block has loses its high bits.
#[tactic(auto, unfolding(crate::specs::Packed::packed))]
pub(crate) fn packed(block: Block) -> u16
    ensures { result ≡ packed block }
{
    match block {
        Block::Air => 0,
        Block::Inert { name } => 2048 + name % 512,
        Block::Container { name } => 4096 + name % 512,
        Block::Slab { name, half } => 6144 + name % 512 * 4 + slab_half_code(half),
        Block::Plate { name, powered } => 8192 + name % 512 * 2 + flag_code(powered),
        Block::Torch { lit } => 10240 + flag_code(lit),
        Block::WallTorch { facing, lit } => 12288 + facing_code(facing) * 2 + flag_code(lit),
        Block::Repeater {
            delay,
            facing,
            powered,
        } => 14336 + delay as u16 % 8 * 8 + facing_code(facing) * 2 + flag_code(powered),
        Block::Comparator { facing, subtract } => {
            16384 + facing_code(facing) * 2 + flag_code(subtract)
        }
        Block::Lever {
            face,
            facing,
            powered,
        } => 18432 + face_code(face) * 8 + facing_code(facing) * 2 + flag_code(powered),
        Block::RedstoneBlock => 20480,
        Block::Lamp { lit } => 22528 + flag_code(lit),
        Block::Trapdoor {
            facing,
            top,
            powered,
        } => 24576 + flag_code(top) * 8 + facing_code(facing) * 2 + flag_code(powered),
        Block::Composter { level } => 26624 + level as u16 % 16,
        Block::Cauldron { water, level } => 28672 + level as u16 % 16 * 2 + flag_code(water),
        Block::Cake { bites } => 30720 + bites as u16 % 16,
        Block::Note { powered } => 32768 + flag_code(powered),
        Block::Wire {
            north,
            east,
            south,
            west,
            power,
        } => {
            36864
                + wire_side_code(north) * 1024
                + wire_side_code(east) * 256
                + wire_side_code(south) * 64
                + wire_side_code(west) * 16
                + power as u16 % 16
        }
        Block::Weighted { name, power } => 40960 + name % 512 * 16 + power as u16 % 16,
        Block::Button {
            name,
            face,
            facing,
            powered,
        } => {
            49152
                + name % 512 * 32
                + face_code(face) * 8
                + facing_code(facing) * 2
                + flag_code(powered)
        }
    }
}

#[inline]
fn flag_in(code: u16) -> bool
    ensures { result ≡ flag_in code }
{
    code % 2 == 1
}

#[inline]
fn facing_in(code: u16) -> Side
    ensures { result ≡ facing_in code }
{
    match code / 2 % 4 {
        0 => Side::North,
        1 => Side::South,
        2 => Side::West,
        _ => Side::East,
    }
}

#[inline]
fn face_in(code: u16) -> Face
    ensures { result ≡ face_in code }
{
    match code / 8 % 4 {
        0 => Face::Wall,
        1 => Face::Floor,
        _ => Face::Ceiling,
    }
}

#[inline]
fn wire_side_at(number: u16) -> WireSide
    ensures { result ≡ wire_side_at number }
{
    match number {
        0 => WireSide::Absent,
        1 => WireSide::Side,
        _ => WireSide::Up,
    }
}

#[inline]
fn slab_half_at(number: u16) -> SlabHalf
    ensures { result ≡ slab_half_at number }
{
    match number {
        0 => SlabHalf::Bottom,
        1 => SlabHalf::Top,
        _ => SlabHalf::Double,
    }
}

#[inline(always)]
fn wire_in(code: u16) -> Block
    ensures { result ≡ wire_in code }
{
    Block::Wire {
        north: wire_side_at(code / 1024 % 4),
        east: wire_side_at(code / 256 % 4),
        south: wire_side_at(code / 64 % 4),
        west: wire_side_at(code / 16 % 4),
        power: (code % 16) as u8,
    }
}

// The block of a code. It stands in each caller, where a test of the block becomes one of the code.
#[inline(always)]
#[tactic(auto, unfolding(crate::specs::Packed::unpacked, crate::specs::Packed::unpacked_by))]
pub(crate) fn unpacked(code: u16) -> Block
    ensures { result ≡ unpacked code }
{
    match code / 2048 {
        24.. => Block::Button {
            name: code / 32 % 512,
            face: face_in(code),
            facing: facing_in(code),
            powered: flag_in(code),
        },
        20.. => Block::Weighted {
            name: code / 16 % 512,
            power: (code % 16) as u8,
        },
        17.. => wire_in(code),
        0 => Block::Air,
        1 => Block::Inert { name: code % 512 },
        2 => Block::Container { name: code % 512 },
        3 => Block::Slab {
            name: code / 4 % 512,
            half: slab_half_at(code % 4),
        },
        4 => Block::Plate {
            name: code / 2 % 512,
            powered: flag_in(code),
        },
        5 => Block::Torch { lit: flag_in(code) },
        6 => Block::WallTorch {
            facing: facing_in(code),
            lit: flag_in(code),
        },
        7 => Block::Repeater {
            delay: (code / 8 % 8) as u8,
            facing: facing_in(code),
            powered: flag_in(code),
        },
        8 => Block::Comparator {
            facing: facing_in(code),
            subtract: flag_in(code),
        },
        9 => Block::Lever {
            face: face_in(code),
            facing: facing_in(code),
            powered: flag_in(code),
        },
        10 => Block::RedstoneBlock,
        11 => Block::Lamp { lit: flag_in(code) },
        12 => Block::Trapdoor {
            facing: facing_in(code),
            top: code / 8 % 2 == 1,
            powered: flag_in(code),
        },
        13 => Block::Composter {
            level: (code % 16) as u8,
        },
        14 => Block::Cauldron {
            water: flag_in(code),
            level: (code / 2 % 16) as u8,
        },
        15 => Block::Cake {
            bites: (code % 16) as u8,
        },
        _ => Block::Note {
            powered: flag_in(code),
        },
    }
}
