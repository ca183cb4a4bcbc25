//! To which sides a wire is joined, and to which it points.

ghost use Rattle.std.specs.Prelude.{◌≡◌, IsTrue};
ghost use Rattle.build.specs.Place.{same_side};
ghost use Rattle.build.specs.Plan.{solid_at};
ghost use Rattle.wire_shape.specs.Shape.{is_horizontal, is_wire, wire_at, joins, connection, connected, is_dot, points};

use crate::Conn;
use block_table::{Block, Side, WireSide, is_solid, opposite};
use build::{Build, beside};
use circuit::Pos;

/// Whether two sides are one.
pub fn same_side(a: Side, b: Side) -> bool
    ensures { result ≡ same_side a b }
{
    a as u8 == b as u8
}

/// Whether a block is a wire.
#[inline]
pub fn is_wire(block: Block) -> bool
    ensures { result ≡ is_wire block }
{
    matches!(block, Block::Wire { .. })
}

/// Whether a wire stands at a place.
#[inline]
pub fn wire_at(build: &Build, pos: Pos) -> bool
    ensures { result ≡ wire_at build.now pos }
{
    is_wire(build.at(pos))
}

/// Whether a solid block stands at a place.
pub fn solid_at(build: &Build, pos: Pos) -> bool
    ensures { result ≡ solid_at build.now pos }
{
    is_solid(build.at(pos))
}

// Whether a wire joins a block that stands on this side of it.
fn joins(block: Block, side: Side) -> bool
    ensures { result ≡ joins block side }
{
    match block {
        Block::Wire { .. }
        | Block::Comparator { .. }
        | Block::Torch { .. }
        | Block::WallTorch { .. }
        | Block::RedstoneBlock
        | Block::Plate { .. }
        | Block::Weighted { .. }
        | Block::Lever { .. }
        | Block::Button { .. } => true,
        Block::Repeater { facing, .. } => same_side(facing, side)
            || same_side(facing, opposite(side)),
        Block::Air
        | Block::Inert { .. }
        | Block::Slab { .. }
        | Block::Lamp { .. }
        | Block::Trapdoor { .. }
        | Block::Container { .. }
        | Block::Composter { .. }
        | Block::Cauldron { .. }
        | Block::Cake { .. }
        | Block::Note { .. } => false,
    }
}

/// How the wire at a place is joined on a horizontal side.
#[tactic(auto, using(crate::specs::WirePlaces::near_first, crate::specs::WirePlaces::near_second), unfolding(crate::specs::Shape::connection))]
pub fn connection(build: &Build, pos: Pos, side: Side) -> Conn
    requires wire { IsTrue (wire_at build.now pos) }
    requires horizontal { IsTrue (is_horizontal side) }
    ensures { result ≡ connection build.now pos side }
{
    let _ = build.width();
    let neighbour = beside(pos, side);
    if joins(build.at(neighbour), side) {
        Conn::Side
    } else if !solid_at(build, beside(pos, Side::Up))
        && wire_at(build, beside(neighbour, Side::Up))
    {
        Conn::Up
    } else if !solid_at(build, neighbour) && wire_at(build, beside(neighbour, Side::Down)) {
        Conn::Side
    } else {
        Conn::Absent
    }
}

fn connected(build: &Build, pos: Pos, side: Side) -> bool
    requires wire { IsTrue (wire_at build.now pos) }
    requires horizontal { IsTrue (is_horizontal side) }
    ensures { result ≡ connected build.now pos side }
{
    !matches!(connection(build, pos, side), Conn::Absent)
}

// Whether a block is a wire whose stored sides are all `none`.
fn is_dot(block: Block) -> bool
    ensures { result ≡ is_dot block }
{
    matches!(
        block,
        Block::Wire {
            north: WireSide::Absent,
            east: WireSide::Absent,
            south: WireSide::Absent,
            west: WireSide::Absent,
            ..
        }
    )
}

/// Whether the wire at a place points to a horizontal side.
#[tactic(auto, unfolding(crate::specs::Shape::points))]
pub fn points(build: &Build, pos: Pos, side: Side) -> bool
    requires wire { IsTrue (wire_at build.now pos) }
    requires horizontal { IsTrue (is_horizontal side) }
    ensures { result ≡ points build.now pos side }
{
    let north = connected(build, pos, Side::North);
    let west = connected(build, pos, Side::West);
    let east = connected(build, pos, Side::East);
    let south = connected(build, pos, Side::South);
    if is_dot(build.at(pos)) && !(north || west || east || south) {
        return false;
    }
    match side {
        Side::North => north || !(west || east),
        Side::South => south || !(west || east),
        Side::West => west || !(north || south),
        Side::East => east || !(north || south),
        Side::Down | Side::Up => true,
    }
}
