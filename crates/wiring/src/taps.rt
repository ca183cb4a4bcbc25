//! What a reader taps.

ghost use Rattle.std.specs.Prelude.{◌≡◌, ◌++◌, false, OnOk, IsTrue};
ghost use Rattle.std.specs.List.{flat_map};
ghost use Rattle.std.specs.Option.{option_to_list};
ghost use Rattle.block_table.specs.Facts.{opposite};
ghost use Rattle.build.specs.Place.{beside, sides};
ghost use Rattle.build.specs.Plan.{IsNear, in_box, block_at};
ghost use Rattle.wire_shape.specs.Shape.{wire_at};
ghost use Rattle.wiring.specs.Reads.{direct_of, direct_places};
ghost use Rattle.wiring.specs.Taps.{lets_weak, lets_strong, wire_gives, when, strong_taps, weak_taps, back_taps, is_turned, is_redstone, side_taps};

use block_table::{Block, Side, is_solid, opposite};
use build::{Build, beside};
use circuit::Pos;
use power_rules::hung;
use rp_text::NoMemory;
use wire_shape::{points, same_side, wire_at};

/// A component that gives power to the reader itself, or a wire.
#[derive(Clone, Copy)]
pub enum Tap {
    Direct(Pos),
    Wired(Pos),
}

const SIDES: [Side; 6] = [
    Side::Down,
    Side::Up,
    Side::North,
    Side::South,
    Side::West,
    Side::East,
];

// Whether the rule on weak power lets a block give power on this side.
fn lets_weak(block: Block, side: Side) -> bool
    ensures { result ≡ lets_weak block side }
{
    match block {
        Block::Torch { .. } => !same_side(side, Side::Down),
        Block::WallTorch { facing, .. } => !same_side(side, opposite(facing)),
        Block::RedstoneBlock
        | Block::Lever { .. }
        | Block::Button { .. }
        | Block::Plate { .. }
        | Block::Weighted { .. } => true,
        Block::Repeater { facing, .. } | Block::Comparator { facing, .. } => same_side(
            side,
            opposite(facing),
        ),
        Block::Air
        | Block::Inert { .. }
        | Block::Slab { .. }
        | Block::Wire { .. }
        | Block::Lamp { .. }
        | Block::Trapdoor { .. }
        | Block::Container { .. }
        | Block::Composter { .. }
        | Block::Cauldron { .. }
        | Block::Cake { .. }
        | Block::Note { .. } => false,
    }
}

// Whether the rule on strong power lets a block give power on this side.
fn lets_strong(block: Block, side: Side) -> bool
    ensures { result ≡ lets_strong block side }
{
    match block {
        Block::Torch { .. } | Block::WallTorch { .. } => same_side(side, Side::Up),
        Block::Lever { face, facing, .. } | Block::Button { face, facing, .. } => same_side(
            side,
            hung(face, facing),
        ),
        Block::Plate { .. } | Block::Weighted { .. } => same_side(side, Side::Down),
        Block::Repeater { facing, .. } | Block::Comparator { facing, .. } => same_side(
            side,
            opposite(facing),
        ),
        Block::Air
        | Block::Inert { .. }
        | Block::Slab { .. }
        | Block::Wire { .. }
        | Block::RedstoneBlock
        | Block::Lamp { .. }
        | Block::Trapdoor { .. }
        | Block::Container { .. }
        | Block::Composter { .. }
        | Block::Cauldron { .. }
        | Block::Cake { .. }
        | Block::Note { .. } => false,
    }
}

// Whether the wire at a place gives its power on this side.
fn wire_gives(build: &Build, pos: Pos, side: Side) -> bool
    requires { IsTrue (wire_at build.now pos) }
    ensures { result ≡ wire_gives build.now pos side }
{
    match side {
        Side::Down => true,
        Side::Up => false,
        Side::North | Side::South | Side::West | Side::East => points(build, pos, side),
    }
}

fn when(test: bool, tap: Tap) -> Option<Tap>
    ensures { option_to_list result ≡ when test tap }
{
    if test { Some(tap) } else { None }
}

// What stands at a place and can give strong power on this side.
fn strong_tap(build: &Build, pos: Pos, side: Side) -> Option<Tap>
    ensures { option_to_list result ≡ strong_taps build.now pos side }
{
    if wire_at(build, pos) {
        when(wire_gives(build, pos, side), Tap::Wired(pos))
    } else {
        when(lets_strong(build.at(pos), side), Tap::Direct(pos))
    }
}

// What stands at a place and can give weak power on this side. A diode reads each wire.
fn weak_tap(build: &Build, diode: bool, pos: Pos, side: Side) -> Option<Tap>
    ensures { option_to_list result ≡ weak_taps build.now diode pos side }
{
    if wire_at(build, pos) {
        when(diode || wire_gives(build, pos, side), Tap::Wired(pos))
    } else {
        when(lets_weak(build.at(pos), side), Tap::Direct(pos))
    }
}

fn push_tap(taps: &mut Vec<Tap>, tap: Option<Tap>) -> Result<(), NoMemory>
    ensures { OnOk result (taps.new.items ≡ taps.old.items ++ option_to_list tap) }
{
    if let Some(tap) = tap {
        taps.push(tap)?;
    }
    Ok(())
}

// Appends what gives strong power to the solid block at a place.
#[tactic(auto, using(build::specs::Near::near_step))]
fn push_strong_taps(taps: &mut Vec<Tap>, build: &Build, pos: Pos) -> Result<(), NoMemory>
    requires { IsNear 1 pos }
    ensures { OnOk result (taps.new.items ≡ taps.old.items ++ flat_map (λ side. strong_taps build.now (beside side pos) (opposite side)) sides) }
{
    for side in SIDES {
        push_tap(taps, strong_tap(build, beside(pos, side), opposite(side)))?;
    }
    Ok(())
}

/// Appends the taps of the read place on a side of the reader at a place.
#[tactic(auto, using(build::specs::Near::near_inside_three, build::specs::Near::near_next), unfolding(crate::specs::Taps::back_taps))]
pub(crate) fn push_back_taps(
    taps: &mut Vec<Tap>,
    build: &Build,
    diode: bool,
    reader: Pos,
    side: Side,
) -> Result<(), NoMemory>
    requires { IsTrue (in_box build.now reader) }
    ensures { OnOk result (taps.new.items ≡ taps.old.items ++ back_taps build.now diode reader side) }
{
    let _ = build.width();
    let neighbour = beside(reader, side);
    if is_solid(build.at(neighbour)) {
        push_strong_taps(taps, build, neighbour)
    } else {
        push_tap(taps, weak_tap(build, diode, neighbour, opposite(side)))
    }
}

/// Appends the taps of the six read places around the reader at a place.
pub(crate) fn push_taps_around(
    taps: &mut Vec<Tap>,
    build: &Build,
    reader: Pos,
) -> Result<(), NoMemory>
    requires { IsTrue (in_box build.now reader) }
    ensures { OnOk result (taps.new.items ≡ taps.old.items ++ flat_map (back_taps build.now false reader) sides) }
{
    for side in SIDES {
        push_back_taps(taps, build, false, reader, side)?;
    }
    Ok(())
}

// What stands at a place and can give strong power on this side, if it is no wire: a wire lets none.
#[tactic(auto, using(crate::proofs::Sources::strong_sources))]
fn strong_source(build: &Build, pos: Pos, side: Side) -> Option<Pos>
    ensures { option_to_list result ≡ flat_map direct_of (strong_taps build.now pos side) }
{
    lets_strong(build.at(pos), side).then_some(pos)
}

// What stands at a place and can give weak power on this side, if it is no wire.
#[tactic(auto, using(crate::proofs::Sources::weak_sources))]
fn weak_source(build: &Build, pos: Pos, side: Side) -> Option<Pos>
    ensures { option_to_list result ≡ flat_map direct_of (weak_taps build.now false pos side) }
{
    lets_weak(build.at(pos), side).then_some(pos)
}

fn push_source(sources: &mut Vec<Pos>, source: Option<Pos>) -> Result<(), NoMemory>
    ensures { OnOk result (sources.new.items ≡ sources.old.items ++ option_to_list source) }
{
    if let Some(source) = source {
        sources.push(source)?;
    }
    Ok(())
}

// Appends what gives strong power to the solid block at a place, wires left out.
#[tactic(auto, using(build::specs::Near::near_step))]
fn push_strong_sources(sources: &mut Vec<Pos>, build: &Build, pos: Pos) -> Result<(), NoMemory>
    requires { IsNear 1 pos }
    ensures { OnOk result (sources.new.items ≡ sources.old.items ++ flat_map direct_of (flat_map (λ side. strong_taps build.now (beside side pos) (opposite side)) sides)) }
{
    for side in SIDES {
        push_source(
            sources,
            strong_source(build, beside(pos, side), opposite(side)),
        )?;
    }
    Ok(())
}

// Appends what gives power to the read place on a side of the wire at a place, wires left out.
#[tactic(auto, using(build::specs::Near::near_inside_three, build::specs::Near::near_next), unfolding(crate::specs::Taps::back_taps))]
fn push_sources_beside(
    sources: &mut Vec<Pos>,
    build: &Build,
    reader: Pos,
    side: Side,
) -> Result<(), NoMemory>
    requires { IsTrue (in_box build.now reader) }
    ensures { OnOk result (sources.new.items ≡ sources.old.items ++ flat_map direct_of (back_taps build.now false reader side)) }
{
    let _ = build.width();
    let neighbour = beside(reader, side);
    if is_solid(build.at(neighbour)) {
        push_strong_sources(sources, build, neighbour)
    } else {
        push_source(sources, weak_source(build, neighbour, opposite(side)))
    }
}

/// Appends the places of what gives power to a wire without dust. No shape has to be found for it.
pub fn push_sources(sources: &mut Vec<Pos>, build: &Build, wire: Pos) -> Result<(), NoMemory>
    requires { IsTrue (in_box build.now wire) }
    ensures { OnOk result (sources.new.items ≡ sources.old.items ++ direct_places build.now wire) }
{
    for side in SIDES {
        push_sources_beside(sources, build, wire, side)?;
    }
    Ok(())
}

// Whether a diode on this side of its reader has its output turned to it.
fn is_turned(block: Block, side: Side) -> bool
    ensures { result ≡ is_turned block side }
{
    match block {
        Block::Repeater { facing, .. } | Block::Comparator { facing, .. } => same_side(
            facing, side,
        ),
        Block::Air
        | Block::Inert { .. }
        | Block::Slab { .. }
        | Block::Wire { .. }
        | Block::Torch { .. }
        | Block::WallTorch { .. }
        | Block::Lever { .. }
        | Block::Button { .. }
        | Block::Plate { .. }
        | Block::RedstoneBlock
        | Block::Lamp { .. }
        | Block::Trapdoor { .. }
        | Block::Container { .. }
        | Block::Composter { .. }
        | Block::Cauldron { .. }
        | Block::Cake { .. }
        | Block::Weighted { .. }
        | Block::Note { .. } => false,
    }
}

fn is_redstone(block: Block) -> bool
    ensures { result ≡ is_redstone block }
{
    matches!(block, Block::RedstoneBlock)
}

// The tap of the diode at a place on one of its sides.
#[tactic(auto, using(build::specs::Near::near_inside_three), unfolding(crate::specs::Taps::side_taps))]
fn side_tap(build: &Build, comparator: bool, reader: Pos, side: Side) -> Option<Tap>
    requires { IsTrue (in_box build.now reader) }
    ensures { option_to_list result ≡ side_taps build.now comparator reader side }
{
    let _ = build.width();
    let neighbour = beside(reader, side);
    let block = build.at(neighbour);
    if comparator && wire_at(build, neighbour) {
        Some(Tap::Wired(neighbour))
    } else {
        when(
            is_turned(block, side) || comparator && is_redstone(block),
            Tap::Direct(neighbour),
        )
    }
}

/// Appends the taps of the diode at a place on one of its sides.
pub(crate) fn push_side_taps(
    taps: &mut Vec<Tap>,
    build: &Build,
    comparator: bool,
    reader: Pos,
    side: Side,
) -> Result<(), NoMemory>
    requires { IsTrue (in_box build.now reader) }
    ensures { OnOk result (taps.new.items ≡ taps.old.items ++ side_taps build.now comparator reader side) }
{
    push_tap(taps, side_tap(build, comparator, reader, side))
}
