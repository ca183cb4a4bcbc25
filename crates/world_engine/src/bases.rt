//! The bases of the things of a running build, and their levels.

ghost use Rattle.std.specs.Prelude.{◌≡◌, ◌⊎◌, ◌<◌, ◌+◌, ℕ, IfOk, length, map, slice_index};
ghost use Rattle.wire_net.specs.Net.{IsClosed, WasRight};
ghost use Rattle.wire_net.specs.Noted.{AreCells, IsNoted};
ghost use Rattle.wire_net.specs.WaveSteps.{AreBelow};
ghost use Rattle.wire_shape.specs.Shape.{wire_at};
ghost use Rattle.wiring.specs.Things.{spot};
ghost use Rattle.wiring.specs.Wired.{IsWired, base_for, bases_of, feeder_row, level_cells, row_level};
ghost use Rattle.world_engine.specs.Running.{given_by, AreWithin};
ghost use Rattle.world_engine.specs.Levels.{AreLevels, AreSure, AreSureBelow, Unbased, Rebased};

use crate::parts::{base_of_block, is_wire_of, role_of};
use crate::valued::ValuedCells;
use rp_text::NoMemory;
use std::alloc::Global;
use wire_net::{Net, Waves, resolve_noted, solve_into};
use wiring::{Things, Wiring};

/// The greatest level of a row.
pub(crate) fn row_level(levels: &[u8], row: &[u32]) -> u8
    requires { AreBelow (length levels.now) row.now }
    ensures { result ≡ row_level levels.now row.now }
{
    let mut level = 0;
    for number in row {
        level = level.max(levels[*number as usize]);
    }
    level
}

// What the thing of a number gives.
fn given_of(things: &Things, wiring: &Wiring, cells: &ValuedCells, number: usize) -> u8
    requires inside { number < length things.now.spots }
    requires within { AreWithin things.now cells.now.cells }
    requires wired { IsWired things.now wiring.now }
    ensures { result ≡ given_by things.now cells.now.cells (spot things.now number) }
{
    let _ = things.count();
    match role_of(things, wiring, number) {
        Some(component) => circuit::out(component, cells.cell(number).value),
        None => base_of_block(things, wiring, number),
    }
}

// What a thing has without its feeders.
fn base_of(things: &Things, wiring: &Wiring, cells: &ValuedCells, bases: &[u8], number: usize) -> u8
    requires inside { number < length things.now.spots }
    requires within { AreWithin things.now cells.now.cells }
    requires wired { IsWired things.now wiring.now }
    requires whole { length bases.now ≡ length things.now.spots }
    requires sure { AreSure things.now (given_by things.now cells.now.cells) bases.now }
    ensures { result ≡ base_for things.now (given_by things.now cells.now.cells) (spot things.now number) }
{
    let _ = things.count();
    if is_wire_of(things, wiring, number) {
        row_level(bases, wiring.direct(number))
    } else {
        given_of(things, wiring, cells, number)
    }
}

// Gives a thing that is no wire its base.
fn put_base(things: &Things, wiring: &Wiring, cells: &ValuedCells, bases: &mut [u8], number: usize)
    requires inside { number < length things.now.spots }
    requires within { AreWithin things.now cells.now.cells }
    requires wired { IsWired things.now wiring.now }
    requires unbased { Unbased things.now wiring.now (given_by things.now cells.now.cells) number bases.old }
    ensures { Rebased things.now wiring.now (given_by things.now cells.now.cells) number 0 bases.new }
{
    let _ = things.count();
    if is_wire_of(things, wiring, number) {
        return;
    }
    bases[number] = given_of(things, wiring, cells, number);
}

// Gives a thing its base if it is no wire.
fn put_given(things: &Things, wiring: &Wiring, cells: &ValuedCells, bases: &mut [u8], number: usize)
    requires inside { number < length things.now.spots }
    requires within { AreWithin things.now cells.now.cells }
    requires wired { IsWired things.now wiring.now }
    requires whole { length bases.old ≡ length things.now.spots }
    requires sure { AreSureBelow things.now (given_by things.now cells.now.cells) number bases.old }
    ensures { AreSureBelow things.now (given_by things.now cells.now.cells) (number + 1) bases.new }
{
    let _ = things.count();
    if is_wire_of(things, wiring, number) {
        return;
    }
    bases[number] = given_of(things, wiring, cells, number);
}

// The bases of all things that are no wires.
fn fill_given(things: &Things, wiring: &Wiring, cells: &ValuedCells, bases: &mut [u8])
    requires within { AreWithin things.now cells.now.cells }
    requires wired { IsWired things.now wiring.now }
    requires whole { length bases.old ≡ length things.now.spots }
    ensures { AreSure things.now (given_by things.now cells.now.cells) bases.new }
{
    for number in 0..things.count() {
        put_given(things, wiring, cells, bases, number);
    }
}

/// The bases of all things.
pub(crate) fn fill_bases(things: &Things, wiring: &Wiring, cells: &ValuedCells, bases: &mut [u8])
    requires within { AreWithin things.now cells.now.cells }
    requires wired { IsWired things.now wiring.now }
    requires whole { length bases.old ≡ length things.now.spots }
    ensures { bases.new ≡ bases_of things.now (given_by things.now cells.now.cells) }
{
    fill_given(things, wiring, cells, bases);
    for number in 0..things.count() {
        let base = base_of(things, wiring, cells, bases, number);
        bases[number] = base;
    }
}

/// The bases anew, after a thing gives something else.
pub(crate) fn rebase(
    things: &Things,
    wiring: &Wiring,
    cells: &ValuedCells,
    bases: &mut [u8],
    number: usize,
)
    requires inside { number < length things.now.spots }
    requires within { AreWithin things.now cells.now.cells }
    requires wired { IsWired things.now wiring.now }
    requires unbased { Unbased things.now wiring.now (given_by things.now cells.now.cells) number bases.old }
    ensures { bases.new ≡ bases_of things.now (given_by things.now cells.now.cells) }
{
    let _ = things.count();
    put_base(things, wiring, cells, bases, number);
    for driven in wiring.driven(number) {
        let base = base_of(things, wiring, cells, bases, *driven as usize);
        bases[*driven as usize] = base;
    }
}

// The things as a net: each has its base, and a wire its feeders.
#[derive(Drop)]
struct LevelNet<'t, 'c, 'w, 'b> {
    things: &'t Things,
    cells: &'c ValuedCells,
    wiring: &'w Wiring,
    bases: &'b [u8],
    ghost within: { AreWithin things.now cells.now.cells },
    ghost fed: { wiring.now.feeders ≡ map (feeder_row things.now) things.now.spots },
    ghost based: { bases.now ≡ bases_of things.now (given_by things.now cells.now.cells) },
    ghost net_closed: { IsClosed (level_cells things.now (given_by things.now cells.now.cells)) },
}

impl<'t, 'c, 'w, 'b> Net for LevelNet<'t, 'c, 'w, 'b> {
    ghost use Rattle.world_engine.specs.LevelNets.{levels_bounded};

    ghost net = { λ s. level_cells s.things.now (given_by s.things.now s.cells.now.cells) };

    ghost bounded = { λ s. levels_bounded s.things.now s.cells.now.cells s.within };

    ghost closed = { λ s. s.net_closed };

    fn cells(&self) -> u32 {
        self.things.count() as u32
    }

    fn base(&self, cell: u32) -> u8 {
        self.bases[cell as usize]
    }

    fn feeder_count(&self, cell: u32) -> u8 {
        self.wiring.feeders(cell as usize).len() as u8
    }

    fn feeder(&self, cell: u32, index: u8) -> u32 {
        self.wiring.feeders(cell as usize)[usize::from(index)]
    }
}

/// The levels anew, where no other things than the changed ones have another base. It lists each
/// thing whose level changes.
pub(crate) fn relevel(
    things: &Things,
    wiring: &Wiring,
    cells: &ValuedCells,
    bases: &[u8],
    levels: &mut [u8],
    changed: &[u32],
    waves: &mut Waves,
)
    requires within { AreWithin things.now cells.now.cells }
    requires wired { IsWired things.now wiring.now }
    requires based { bases.now ≡ bases_of things.now (given_by things.now cells.now.cells) }
    requires made { waves.old.feeders ≡ wiring.now.feeders }
    requires right { WasRight (level_cells things.now (given_by things.now cells.now.cells)) levels.old changed.now }
    requires inside { AreBelow (length things.now.spots) changed.now }
    ensures right { AreLevels things.now cells.now.cells levels.new }
    ensures made { waves.new.feeders ≡ wiring.now.feeders }
    ensures noted { (number : ℕ) → (slice_index levels.new number ≡ slice_index levels.old number) ⊎ IsNoted waves.new number }
    ensures inside { AreCells (length things.now.spots) waves.new }
{
    let _ = things.count();
    resolve_noted(
        &LevelNet {
            things,
            cells,
            wiring,
            bases,
        },
        levels,
        changed,
        waves,
    );
}

/// Writes the levels of the things, whatever stood there.
pub(crate) fn solve_levels(
    things: &Things,
    wiring: &Wiring,
    cells: &ValuedCells,
    bases: &[u8],
    levels: &mut [u8],
)
    requires within { AreWithin things.now cells.now.cells }
    requires wired { IsWired things.now wiring.now }
    requires based { bases.now ≡ bases_of things.now (given_by things.now cells.now.cells) }
    requires whole { length levels.old ≡ length things.now.spots }
    ensures { AreLevels things.now cells.now.cells levels.new }
{
    let _ = things.count();
    solve_into(
        &LevelNet {
            things,
            cells,
            wiring,
            bases,
        },
        levels,
    );
}

/// What `relevel` needs of the things, with the room that it takes.
pub(crate) fn level_waves(
    alloc: Global,
    things: &Things,
    wiring: &Wiring,
    cells: &ValuedCells,
    bases: &[u8],
) -> Result<Waves, NoMemory>
    requires within { AreWithin things.now cells.now.cells }
    requires wired { IsWired things.now wiring.now }
    requires based { bases.now ≡ bases_of things.now (given_by things.now cells.now.cells) }
    ensures { IfOk result (λ waves. waves.feeders ≡ wiring.now.feeders) }
{
    let _ = things.count();
    let waves = Waves::new(
        alloc,
        &LevelNet {
            things,
            cells,
            wiring,
            bases,
        },
    )?;
    Ok(waves)
}
