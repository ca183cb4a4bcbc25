//! Blocks, levels and pending ticks of a build to which a run is handed back.

ghost use Rattle.std.specs.Prelude.{◌≡◌, ◌<◌, ◌≤◌, true, false, Some, IsTrue, IfOk, IfSome, OnOk};
ghost use Rattle.block_table.specs.WrittenText.{is_listed};
ghost use Rattle.build.specs.Edits.{is_comparator, is_container, with_pending};
ghost use Rattle.build.specs.Plan.{block_at, entry, has_level, may_wait, is_pending, place_of, volume};
ghost use Rattle.handover.specs.GivenBack.{given_block, given_output, given_level, given_tick};
ghost use Rattle.handover.specs.HeldByCell.{in_cell, IsSmall, AreSmall, AreTicking, with_blocks_by, with_levels_by, with_level_if, with_level_in, with_ticks_by, with_tick};

use crate::held::Held;
use crate::values::with_value;
use block_table::Block;
use build::{Build, Pending, PendingRefusal, Pos};
use packed_block::PackedBlock;
use rp_text::NoMemory;
use std::alloc::Global;

/// The box with the blocks of the build, each with the value that is held in its cell.
pub fn with_blocks(alloc: Global, build: &Build, held: &[Option<Held>]) -> Result<Build, NoMemory>
    requires { AreSmall held.now }
    ensures { IfOk result (λ after. after ≡ with_blocks_by build.now held.now) }
{
    let mut blocks = Vec::with_capacity(alloc, build.cells())?;
    for cell in 0..build.cells() {
        let block = given_block(build.block_in(cell), in_cell(held, cell));
        blocks.push(PackedBlock::new(block))?;
    }
    Ok(Build::of_blocks(
        build.width(),
        build.height(),
        build.length(),
        build.data_version(),
        blocks,
    ))
}

// The block with the value that is held, if one is.
fn given_block(block: Block, held: Option<Held>) -> Block
    requires small { IsSmall held }
    requires listed { IsTrue (is_listed block) }
    ensures value { result ≡ given_block held block }
    ensures listed { IsTrue (is_listed result) }
{
    match held {
        Some(held) => with_value(block, held.value),
        None => block,
    }
}

// What is held in a cell.
fn in_cell(held: &[Option<Held>], cell: usize) -> Option<Held>
    ensures { result ≡ in_cell held.now cell }
{
    match held.get(cell) {
        Some(state) => *state,
        None => None,
    }
}

/// Stores the outputs of comparators and the strengths of containers.
pub fn give_levels(build: &Build, held: &[Option<Held>], after: &mut Build) -> Result<(), NoMemory>
    requires begun { after.old ≡ with_blocks_by build.now held.now }
    requires small { AreSmall held.now }
    ensures { OnOk result (after.new ≡ with_levels_by build.now held.now) }
{
    for cell in 0..build.cells() {
        give_level_in(build, cell, in_cell(held, cell), after)?;
    }
    Ok(())
}

// Whether a block has a level.
fn has_level(block: Block) -> bool
    ensures { result ≡ has_level block }
{
    match block {
        Block::Comparator { .. } | Block::Container { .. } => true,
        Block::Air
        | Block::Inert { .. }
        | Block::Slab { .. }
        | Block::Wire { .. }
        | Block::Torch { .. }
        | Block::WallTorch { .. }
        | Block::Repeater { .. }
        | Block::Lever { .. }
        | Block::Button { .. }
        | Block::Plate { .. }
        | Block::RedstoneBlock
        | Block::Lamp { .. }
        | Block::Trapdoor { .. }
        | Block::Composter { .. }
        | Block::Cauldron { .. }
        | Block::Cake { .. }
        | Block::Weighted { .. }
        | Block::Note { .. } => false,
    }
}

// Stores the level of the block in a cell, if it has one. The place is found only where it has.
fn give_level_in(
    build: &Build,
    cell: usize,
    held: Option<Held>,
    after: &mut Build,
) -> Result<(), NoMemory>
    requires inside { cell < volume build.now }
    requires small { IsSmall held }
    requires comparator { is_comparator (block_at after.old (place_of build.now cell)) ≡ is_comparator (block_at build.now (place_of build.now cell)) }
    requires container { is_container (block_at after.old (place_of build.now cell)) ≡ is_container (block_at build.now (place_of build.now cell)) }
    ensures { OnOk result (after.new ≡ with_level_in build.now cell held after.old) }
{
    if has_level(build.block_in(cell)) {
        give_level(build, build.place(cell), held, after)
    } else {
        Ok(())
    }
}

// Stores the output of the comparator or the strength of the container at a place, if one stands there.
fn give_level(
    build: &Build,
    pos: Pos,
    held: Option<Held>,
    after: &mut Build,
) -> Result<(), NoMemory>
    requires small { IsSmall held }
    requires comparator { is_comparator (block_at after.old pos) ≡ is_comparator (block_at build.now pos) }
    requires container { is_container (block_at after.old pos) ≡ is_container (block_at build.now pos) }
    ensures { OnOk result (after.new ≡ with_level_if (has_level (block_at build.now pos)) after.old pos (given_level held (block_at build.now pos) (entry build.now build.now.levels 0 pos))) }
{
    match build.at(pos) {
        Block::Comparator { .. } => after.set_output(pos, given_output(held, build.output(pos))),
        Block::Container { .. } => after.set_strength(pos, build.strength(pos).unwrap_or(0)),
        Block::Air
        | Block::Inert { .. }
        | Block::Slab { .. }
        | Block::Wire { .. }
        | Block::Torch { .. }
        | Block::WallTorch { .. }
        | Block::Repeater { .. }
        | Block::Lever { .. }
        | Block::Button { .. }
        | Block::Plate { .. }
        | Block::RedstoneBlock
        | Block::Lamp { .. }
        | Block::Trapdoor { .. }
        | Block::Composter { .. }
        | Block::Cauldron { .. }
        | Block::Cake { .. }
        | Block::Weighted { .. }
        | Block::Note { .. } => Ok(()),
    }
}

// What the comparator gives that holds this, or else what it stored.
fn given_output(held: Option<Held>, stored: u8) -> u8
    ensures { result ≡ given_output held stored }
{
    match held {
        Some(held) => held.value,
        None => stored,
    }
}

/// Adds the ticks that are pending, in order of places.
pub fn give_ticks(build: &Build, held: &[Option<Held>], after: &mut Build) -> Result<(), NoMemory>
    requires begun { after.old ≡ with_levels_by build.now held.now }
    requires ticking { AreTicking build.now held.now }
    ensures { OnOk result (after.new ≡ with_ticks_by build.now held.now) }
{
    for cell in 0..build.cells() {
        give_tick_in(build, cell, in_cell(held, cell), after)?;
    }
    Ok(())
}

// Adds the tick that is pending in a cell, if there is one. The place is found only where something is held.
fn give_tick_in(
    build: &Build,
    cell: usize,
    held: Option<Held>,
    after: &mut Build,
) -> Result<(), NoMemory>
    requires inside { cell < volume build.now }
    requires waits { (tick : Pending) → given_tick (place_of build.now cell) held ≡ Some tick → may_wait after.old tick ≡ true }
    requires none { is_pending after.old.pending (place_of build.now cell) ≡ false }
    ensures { OnOk result (after.new ≡ with_tick after.old (given_tick (place_of build.now cell) held)) }
{
    match held {
        Some(_) => give_tick(build.place(cell), held, after),
        None => Ok(()),
    }
}

// Adds the tick that is pending at a place, if there is one.
fn give_tick(pos: Pos, held: Option<Held>, after: &mut Build) -> Result<(), NoMemory>
    requires waits { (tick : Pending) → given_tick pos held ≡ Some tick → may_wait after.old tick ≡ true }
    requires none { is_pending after.old.pending pos ≡ false }
    ensures { OnOk result (after.new ≡ with_tick after.old (given_tick pos held)) }
{
    match given_tick(pos, held) {
        Some(tick) => add_tick(after, tick),
        None => Ok(()),
    }
}

fn given_tick(pos: Pos, held: Option<Held>) -> Option<Pending>
    ensures result { result ≡ given_tick pos held }
    ensures here { IfSome result (λ tick. tick.pos ≡ pos) }
{
    let wait = held?.wait?;
    Some(Pending {
        pos,
        due: wait.left,
        priority: wait.priority,
    })
}

// Adds a tick that may be pending at its place, where none is.
fn add_tick(after: &mut Build, tick: Pending) -> Result<(), NoMemory>
    requires waits { may_wait after.old tick ≡ true }
    requires none { is_pending after.old.pending tick.pos ≡ false }
    ensures { OnOk result (after.new ≡ with_pending after.old tick) }
{
    match after.add_pending(tick) {
        Ok(()) => Ok(()),
        Err(PendingRefusal::NoMemory) => Err(NoMemory),
        Err(PendingRefusal::NotTicking | PendingRefusal::Range | PendingRefusal::Twice) =>
            unreachable!(),
    }
}
